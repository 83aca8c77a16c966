//! What an arrival delivers, where each message surely waits at its port: nothing goes back by it, and what can fail
//! is done before the node is changed.

ghost use Rattle.std.specs.Prelude.{◌≡◌, ◌+◌, ◌-◌, ◌≤◌, ◌++◌, ◌∷◌, [], true, Some, length, sum_by, IfSome};
ghost use Rattle.tipc_types.specs.declared.message_forms.Message.{Message};
ghost use Rattle.tipc_journal.specs.declared.entries.Entry.{Entry};
ghost use Rattle.tipc_journal.specs.Room.{HasRoom, entry_bytes, free_entries, free_message_bytes, has_journal_room};
ghost use Rattle.tipc_journal.specs.Steps.{step_entries};
ghost use Rattle.tipc_sockets.specs.Fates.{port_of};
ghost use Rattle.tipc_node.specs.Nodes.{step_of};
ghost use Rattle.tipc_node.specs.Sure.{all_wait, are_sure, message_of, messages_in, told_in, told_of_delivery, waits_surely, with_all_waiting};

use crate::frames::{Delivery, MOST_TOLD};
use crate::steps::FREE_MESSAGE_BYTES;
use std::alloc::Global;
use std::collections::VecDeque;
use tipc_journal::{Entry, Journal, PortList, entry_bytes};
use tipc_sockets::{Sockets, port_of};
use tipc_types::{Answer, By, EventNote, Message};

/// Whether the message of a delivery surely waits at its port, as the last of so many that arrived.
fn waits_surely(sockets: &Sockets, count: u32, message: &Option<Message>) -> bool
    ensures { result ≡ waits_surely sockets.now count message.now }
{
    match message {
        Some(m) => sockets.surely_waits(m, count),
        None => true,
    }
}

/// Whether each message surely waits at its port, as the last of so many that arrived.
pub fn all_wait(sockets: &Sockets, count: u32, deliveries: &[Delivery]) -> bool
    ensures { result ≡ all_wait sockets.now count deliveries.now }
{
    for delivery in deliveries {
        if !waits_surely(sockets, count, &delivery.message) {
            return false;
        }
    }
    true
}

/// The entry of a message that waits at its port.
fn queued_entry(alloc: Global, m: &Message) -> Entry
    ensures { result ≡ Entry.Queued (port_of m.now ∷ []) }
{
    Entry::Queued {
        ports: PortList::one(alloc, port_of(m)),
    }
}

/// How many entries tell of a delivery whose message waits at its port.
fn told_count(delivery: &Delivery) -> usize
    ensures count { result ≡ length (told_of_delivery delivery.now) }
    ensures few { result ≤ 2 }
{
    match &delivery.message {
        Some(_) => 2,
        None => 1,
    }
}

/// How many entries tell of deliveries whose messages wait at their ports: None where they are more than fit into a
/// step, or have more message bytes.
pub fn told_size(deliveries: &[Delivery]) -> Option<u64>
    ensures size { IfSome result (λ size. size ≡ length (told_in deliveries.now)) }
    ensures few { IfSome result (λ size. size ≤ free_entries - 4) }
    ensures light { IfSome result (λ _. sum_by entry_bytes (told_in deliveries.now) ≤ free_message_bytes) }
{
    let mut left = FREE_MESSAGE_BYTES;
    let mut size = 0;
    for delivery in deliveries {
        let bytes = entry_bytes(&delivery.entry);
        if bytes > left {
            return None;
        }
        left -= bytes;
        size += told_count(delivery);
        if size > MOST_TOLD {
            return None;
        }
    }
    Some(size as u64)
}

/// Tells of a delivery in the step that is being recorded, and puts its message, which surely waits at its port, there.
fn tell(alloc: Global, sockets: &mut Sockets, journal: &mut Journal, delivery: Delivery)
    requires room { HasRoom journal.old.entries delivery.entry }
    requires behind { (m : Message) → delivery.message ≡ Some m →
        HasRoom (journal.old.entries ++ delivery.entry ∷ []) (Entry.Queued (port_of m ∷ [])) }
    requires spare { length (told_of_delivery delivery) ≤ journal.old.spare }
    requires sure { are_sure sockets.old (message_of delivery.message) ≡ true }
    ensures journal { journal.new.entries ≡ journal.old.entries ++ told_of_delivery delivery }
    ensures spare { journal.new.spare + length (told_of_delivery delivery) ≡ journal.old.spare }
    ensures kept { journal.new.kept ≡ journal.old.kept }
    ensures sockets { sockets.new ≡ with_all_waiting sockets.old (message_of delivery.message) }
{
    journal.commit(delivery.entry);
    let Some(m) = delivery.message else {
        return;
    };
    journal.commit(queued_entry(alloc, &m));
    sockets.put(m);
}

/// Puts the messages of an arrival, which surely wait at their ports, there, and records its step.
pub fn conclude_waiting(
    alloc: Global,
    sockets: &mut Sockets,
    journal: &mut Journal,
    by: By,
    note: EventNote,
    deliveries: Vec<Delivery>,
    answer: Answer,
)
    requires sure { are_sure sockets.old (messages_in deliveries.items) ≡ true }
    requires room { has_journal_room journal.old.entries ≡ true }
    requires few { length (told_in deliveries.items) ≤ free_entries - 2 }
    requires spare { length (told_in deliveries.items) + 2 ≤ journal.old.spare }
    requires bytes { sum_by entry_bytes (told_in deliveries.items) ≤ free_message_bytes }
    ensures sockets { sockets.new ≡ with_all_waiting sockets.old (messages_in deliveries.items) }
    ensures journal { journal.new.entries ≡ journal.old.entries ++ step_entries
        (step_of by note (told_in deliveries.items) answer) }
    ensures kept { journal.new.kept ≡ journal.old.kept - 1 }
{
    journal.commit(Entry::Step { by, event: note });
    let mut waiting = VecDeque::from_vec(deliveries);
    while let Some(delivery) = waiting.pop_front() {
        tell(alloc, sockets, journal, delivery);
    }
    journal.commit(Entry::Answered {
        caller: by.caller,
        call: by.call,
        answer,
    });
    journal.release();
}
