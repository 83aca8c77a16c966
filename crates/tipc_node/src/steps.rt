//! How a step is recorded in the journal, and when the journal has room for it.

ghost use Rattle.std.specs.Prelude.{◌≡◌, ◌+◌, ◌-◌, ◌<◌, ◌≤◌, ◌++◌, ◌∷◌, [], true, false, length, map, IsOk, OnOk, Err, sum_by, None, Some, vec_len, vec_capacity};
ghost use Rattle.tipc_journal.specs.declared.entries.Entry.TheVariants.{TimedOut};
ghost use Rattle.tipc_journal.specs.Room.{IsReady, entry_bytes, free_entries, free_message_bytes, has_journal_room};
ghost use Rattle.tipc_journal.specs.Steps.{step_entries};
ghost use Rattle.tipc_node.specs.Nodes.{change_entries, change_entry, step_of};

use std::alloc::{AllocError, AllocFailed};
use std::collections::VecDeque;
use tipc_journal::{Entry, Journal, MOST_ENTRIES, MOST_MESSAGE_BYTES, SHORT_STEP};
use tipc_pair::Transition;
use tipc_types::{Addr, Answer, By, EventNote, NoMemory};

/// A call is refused where the journal has fewer free entries than this. (This project's profile.)
pub const FREE_ENTRIES: u64 = 65_536;

/// A call is refused where the journal has fewer free message bytes than this. (This project's profile.)
pub const FREE_MESSAGE_BYTES: u64 = 4_194_304;

/// Why a call of a node wasn't made. Nothing is changed then.
#[derive(Clone, Copy, Debug, PartialEq, Eq)]
pub enum NodeFault {
    /// The journal has no room for a call: fewer than 65,536 free entries, or fewer than 4,194,304 free message
    /// bytes.
    JournalFull,
    /// Memory ran out.
    NoMemory,
}

impl From<NoMemory> for NodeFault {
    ghost use Rattle.tipc_node.specs.declared.steps.NodeFault.{NodeFault};

    ghost from_gives = { λ _ e. e ≡ NodeFault.NoMemory };

    fn from(_error: NoMemory) -> NodeFault {
        NodeFault::NoMemory
    }
}

impl From<AllocError> for NodeFault {
    ghost use Rattle.tipc_node.specs.declared.steps.NodeFault.{NodeFault};

    ghost from_gives = { λ _ e. e ≡ NodeFault.NoMemory };

    fn from(_error: AllocError) -> NodeFault {
        NodeFault::NoMemory
    }
}

impl<T: Drop> From<AllocFailed<T>> for NodeFault {
    ghost use Rattle.tipc_node.specs.declared.steps.NodeFault.{NodeFault};

    ghost from_gives = { λ _ e. e ≡ NodeFault.NoMemory };

    fn from(_error: AllocFailed<T>) -> NodeFault {
        NodeFault::NoMemory
    }
}

/// Whether a journal has room for a call.
#[tactic(auto, unfolding(tipc_journal::specs::Room::has_journal_room))]
pub fn has_journal_room(journal: &Journal) -> bool
    ensures { result ≡ has_journal_room journal.now.entries }
{
    journal.len() <= MOST_ENTRIES - FREE_ENTRIES
        && journal.message_bytes() <= MOST_MESSAGE_BYTES - FREE_MESSAGE_BYTES
}

/// Makes a journal ready for a step with at most so many entries inside.
pub fn begin(journal: &mut Journal, inside: u64) -> Result<(), NodeFault>
    requires { inside ≤ free_entries - 2 }
    ensures ok { OnOk result ((inside + 2 ≤ journal.new.spare) × (has_journal_room journal.old.entries ≡ true)) }
    ensures full { has_journal_room journal.old.entries ≡ false → result ≡ Err NodeFault.JournalFull }
    ensures only { result ≡ Err NodeFault.JournalFull → has_journal_room journal.old.entries ≡ false }
    ensures journal { journal.new.entries ≡ journal.old.entries }
    ensures kept { journal.new.kept ≡ journal.old.kept }
{
    if !has_journal_room(journal) {
        return Err(NodeFault::JournalFull);
    }
    journal.reserve(inside + 2)?;
    Ok(())
}

/// Records a step: who made the call, the call, what happened in it, and its answer. One of the promised calls is used
/// up.
pub fn record(journal: &mut Journal, by: By, event: EventNote, inside: Vec<Entry>, answer: Answer)
    requires room { has_journal_room journal.old.entries ≡ true }
    requires few { length inside.items ≤ free_entries - 2 }
    requires spare { length inside.items + 2 ≤ journal.old.spare }
    requires bytes { sum_by entry_bytes inside.items ≤ free_message_bytes }
    ensures journal { journal.new.entries ≡ journal.old.entries ++ step_entries (step_of by event inside.items answer) }
    ensures kept { journal.new.kept ≡ journal.old.kept - 1 }
{
    journal.commit(Entry::Step { by, event });
    let mut waiting = VecDeque::from_vec(inside);
    while let Some(entry) = waiting.pop_front() {
        journal.commit(entry);
    }
    journal.commit(Entry::Answered {
        caller: by.caller,
        call: by.call,
        answer,
    });
    journal.release();
}

/// Records a step in which this alone happened. One of the promised calls is used up.
pub fn record_entry(journal: &mut Journal, by: By, event: EventNote, inside: Entry, answer: Answer)
    requires room { has_journal_room journal.old.entries ≡ true }
    requires spare { 3 ≤ journal.old.spare }
    requires bytes { entry_bytes inside ≤ free_message_bytes }
    ensures journal { journal.new.entries ≡ journal.old.entries ++ step_entries
        (step_of by event (inside ∷ []) answer) }
    ensures kept { journal.new.kept ≡ journal.old.kept - 1 }
{
    journal.commit(Entry::Step { by, event });
    journal.commit(inside);
    journal.commit(Entry::Answered {
        caller: by.caller,
        call: by.call,
        answer,
    });
    journal.release();
}

/// Makes a journal ready for a step with one entry inside at most, which needs no memory where one of the promised
/// calls is left.
pub fn make_ready(journal: &mut Journal) -> Result<(), NoMemory>
    ensures ok { OnOk result (IsReady journal.new) }
    ensures succeeds { 0 < journal.old.kept → IsOk result }
    ensures entries { journal.new.entries ≡ journal.old.entries }
    ensures kept { journal.new.kept ≡ journal.old.kept }
{
    if journal.kept() > 0 {
        return Ok(());
    }
    journal.reserve(SHORT_STEP)
}

/// Records a step in which nothing happened. One of the promised calls is used up.
pub fn record_alone(journal: &mut Journal, by: By, event: EventNote, answer: Answer)
    requires room { has_journal_room journal.old.entries ≡ true }
    requires ready { IsReady journal.old }
    ensures journal { journal.new.entries ≡ journal.old.entries ++ step_entries (step_of by event [] answer) }
    ensures kept { journal.new.kept ≡ journal.old.kept - 1 }
{
    journal.release();
    journal.commit(Entry::Step { by, event });
    journal.commit(Entry::Answered {
        caller: by.caller,
        call: by.call,
        answer,
    });
}

/// Records a step in which this alone happened, which has no message bytes. One of the promised calls is used up.
pub fn record_one(journal: &mut Journal, by: By, event: EventNote, inside: Entry, answer: Answer)
    requires room { has_journal_room journal.old.entries ≡ true }
    requires ready { IsReady journal.old }
    requires bytes { entry_bytes inside ≡ 0 }
    ensures journal { journal.new.entries ≡ journal.old.entries ++ step_entries
        (step_of by event (inside ∷ []) answer) }
    ensures kept { journal.new.kept ≡ journal.old.kept - 1 }
{
    journal.release();
    journal.commit(Entry::Step { by, event });
    journal.commit(inside);
    journal.commit(Entry::Answered {
        caller: by.caller,
        call: by.call,
        answer,
    });
}

/// Tells that the subscriptions of these numbers timed out, in a list that has room.
pub fn note_timeouts(inside: &mut Vec<Entry>, numbers: &[u32])
    requires room { length inside.old.items + length numbers.now ≤ vec_capacity inside.old }
    ensures entries { inside.new.items ≡ inside.old.items ++ map TimedOut numbers.now }
{
    for number in numbers {
        inside.push_reserved(Entry::TimedOut { number: *number });
    }
}

/// The entry of what became of a link to a peer, or of the contact with it.
fn change_entry(peer: u8, change: Transition) -> Entry
    requires { (1 ≤ peer) × (peer ≤ 32) }
    ensures { result ≡ change_entry peer change }
{
    let peer = Addr::node(peer);
    match change {
        Transition::LinkUp {
            bearer,
            own_epoch,
            peer_epoch,
        } => Entry::LinkUp {
            peer,
            bearer,
            own_epoch,
            peer_epoch,
        },
        Transition::LinkDown {
            bearer,
            cause,
            shown_epoch,
        } => Entry::LinkDown {
            peer,
            bearer,
            cause,
            shown: shown_epoch,
        },
        Transition::ContactUp { contact } => Entry::ContactUp { peer, contact },
        Transition::ContactDown {
            contact,
            states,
            shown,
        } => Entry::ContactDown {
            peer,
            contact,
            states,
            shown,
        },
    }
}

/// Tells what became of the links to a peer and of the contact with it, in a list that has room.
pub fn note_changes(inside: &mut Vec<Entry>, peer: u8, changes: &[Transition])
    requires peer { (1 ≤ peer) × (peer ≤ 32) }
    requires room { vec_len inside.old + length changes.now ≤ vec_capacity inside.old }
    ensures entries { inside.new.items ≡ inside.old.items ++ change_entries peer changes.now }
    ensures room { vec_capacity inside.new ≡ vec_capacity inside.old }
{
    for change in changes {
        inside.push_reserved(change_entry(peer, *change));
    }
}
