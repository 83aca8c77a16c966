//! What an arrival delivers, one after the other, in a draft of its step: messages have their fates, returns go back,
//! and the items of a peer are applied.

ghost use Rattle.std.specs.Prelude.{◌≡◌, ℕ, ◌+◌, ◌<◌, ◌≤◌, List, [], ◌∷◌, false, true, None, Some, length, slice_index_or, sum_by, IfOk, OnErr, OnOk};
ghost use Rattle.std.specs.List.{list_all};
ghost use Rattle.tipc_outside.specs.declared.outgoing.Outgoing.{Outgoing};
ghost use Rattle.tipc_outside.specs.Frames.{Adds};
ghost use Rattle.tipc_journal.specs.Dues.{comes_home};
ghost use Rattle.tipc_journal.specs.Fates.{return_limit};
ghost use Rattle.tipc_journal.specs.Room.{counted_bytes, entry_bytes};
ghost use Rattle.tipc_message.specs.Wire.{IsPayload};
ghost use Rattle.tipc_node.specs.Drafts.{own_of, start_of};
ghost use Rattle.tipc_node.specs.Hearings.{is_plain, AllDelivered, Delivered, Settled, TookIn, WentAway, WentBack};
ghost use Rattle.tipc_node.specs.Messages.{destination_of};
ghost use Rattle.tipc_node.specs.Nodes.{entries_in, is_met};
ghost use Rattle.tipc_node.specs.Works.{addr_of_word, back_of, fate_of, fated, waiting_to, work_of, Puts};

use crate::drafts::{Draft, keep};
use crate::fates::{accept, comes_home, destination, meet, put_on};
use crate::frames::Delivery;
use crate::items::apply_items;
use std::alloc::Global;
use std::collections::VecDeque;
use tipc_journal::Entry;
use tipc_outside::Outbox;
use tipc_types::{Addr, Message, NoMemory};

impl Draft {
    /// Puts a message on the link to the peer of that number, in a step that does nothing else: the frames that leave
    /// aren't drafted. The answer is the entry that tells that it is accepted.
    pub(crate) fn put_alone(
        &mut self,
        alloc: Global,
        peer: u8,
        m: Message,
        out: &mut Outbox,
    ) -> Result<Entry, NoMemory>
        requires peer { (1 ≤ peer) × (peer ≤ 32) }
        requires payload { IsPayload m }
        requires contact { is_met (slice_index_or self.old.work.neighbours peer None) ≡ true }
        ensures puts { IfOk result (λ entry. (frames : List Outgoing) × Puts (own_of self.old)
            (work_of self.old.work.neighbours self.old.work.sockets []) peer m
            (work_of self.new.work.neighbours self.old.work.sockets (entry ∷ [])) frames ×
            Adds out.old out.new frames) }
        ensures light { IfOk result (λ entry. entry_bytes entry ≡ counted_bytes m) }
        ensures rest { self.new ≡ record self.old {
          work = record self.old.work {
            neighbours = self.new.work.neighbours;
          };
        } }
        ensures err { OnErr result ((self.new ≡ self.old) × (out.new ≡ out.old)) }
    {
        let Some(neighbour) = &mut self.neighbours[peer as usize] else {
            unreachable!()
        };
        accept(neighbour, alloc, self.own, peer, m, out)
    }

    /// Puts a return on the link to the peer that it is for.
    fn send_back(&mut self, alloc: Global, back: Message) -> Result<(), NoMemory>
        requires payload { IsPayload back }
        requires contact { (waiting : ℕ) × (waiting_to self.old.work.neighbours (destination_of back) ≡ Some waiting) ×
            (waiting < return_limit) }
        ensures went { OnOk result (WentAway (own_of self.old) self.old.work back self.new.work
            self.old.out self.new.out) }
        ensures start { start_of self.new ≡ start_of self.old }
    {
        // Packets are counted on the link to it, so it is one of the 32 nodes.
        let _ = &self.neighbours;
        let Some(peer) = destination(&back).number() else {
            unreachable!()
        };
        keep(&mut self.copies, self.neighbours.as_slice(), peer)?;
        let Some(neighbour) = &mut self.neighbours[peer as usize] else {
            unreachable!()
        };
        put_on(
            neighbour,
            alloc,
            self.own,
            peer,
            back,
            &mut self.inside,
            &mut self.out,
        )
    }

    /// Gives a message its fate, and tells it: one that arrived, or a return to the own node. What goes back by it is
    /// the answer.
    fn meet(
        &mut self,
        alloc: Global,
        arrived: bool,
        m: Message,
    ) -> Result<Option<Message>, NoMemory>
        ensures back { IfOk result (λ back. back_of (fate_of self.old.work arrived m) ≡ back) }
        ensures work { OnOk result (self.new.work ≡ fated self.old.work m (fate_of self.old.work arrived m)) }
        ensures out { self.new.out ≡ self.old.out }
        ensures start { start_of self.new ≡ start_of self.old }
    {
        meet(
            alloc,
            &mut self.sockets,
            self.neighbours.as_slice(),
            arrived,
            m,
            &mut self.inside,
        )
    }

    /// A return goes back: at the own node it has a fate of its own, and for a peer it is put on the link.
    fn go_back(&mut self, alloc: Global, back: Message) -> Result<(), NoMemory>
        requires payload { IsPayload back }
        requires contact { comes_home (addr_of_word (own_of self.old)) back ≡ false → (waiting : ℕ) ×
            (waiting_to self.old.work.neighbours (destination_of back) ≡ Some waiting) × (waiting < return_limit) }
        ensures went { OnOk result (WentBack (own_of self.old) self.old.work back self.new.work
            self.old.out self.new.out) }
        ensures start { start_of self.new ≡ start_of self.old }
    {
        if !comes_home(self.own(), &back) {
            return self.send_back(alloc, back);
        }
        // It isn't returned again, so nothing goes back by its fate.
        self.meet(alloc, false, back)?;
        Ok(())
    }

    /// Gives a message that arrived its fate: it waits at its port, is dropped, or goes back.
    fn settle(&mut self, alloc: Global, m: Message) -> Result<(), NoMemory>
        ensures settled { OnOk result (Settled (own_of self.old) self.old.work m self.new.work
            self.old.out self.new.out) }
        ensures start { start_of self.new ≡ start_of self.old }
    {
        let Some(back) = self.meet(alloc, true, m)? else {
            return Ok(());
        };
        self.go_back(alloc, back)
    }

    /// Takes a message of a peer in: it has its fate, or its items are applied.
    fn take_in(&mut self, alloc: Global, peer: u8, m: Message) -> Result<(), NoMemory>
        requires peer { (1 ≤ peer) × (peer ≤ 32) }
        ensures took { OnOk result (TookIn (own_of self.old) peer self.old.work m self.new.work
            self.old.out self.new.out) }
        ensures start { start_of self.new ≡ start_of self.old }
    {
        if let Message::Items { withdrawal, items } = &m {
            let from = Addr::node(peer);
            return apply_items(
                &mut self.sockets,
                from,
                *withdrawal,
                items.as_slice(),
                &mut self.inside,
            );
        }
        self.settle(alloc, m)
    }

    /// Tells of what was delivered, and takes its message in.
    fn deliver(&mut self, alloc: Global, peer: u8, delivery: Delivery) -> Result<(), NoMemory>
        requires peer { (1 ≤ peer) × (peer ≤ 32) }
        requires plain { is_plain delivery.entry ≡ true }
        ensures delivered { OnOk result (Delivered (own_of self.old) peer self.old.work delivery self.new.work
            self.old.out self.new.out) }
        ensures start { start_of self.new ≡ start_of self.old }
    {
        let Delivery { entry, message } = delivery;
        self.inside.push(entry)?;
        match message {
            Some(m) => self.take_in(alloc, peer, m),
            None => Ok(()),
        }
    }

    /// Delivers one after the other.
    pub(crate) fn deliver_all(
        &mut self,
        alloc: Global,
        peer: u8,
        deliveries: Vec<Delivery>,
    ) -> Result<(), NoMemory>
        requires peer { (1 ≤ peer) × (peer ≤ 32) }
        requires plain { list_all is_plain (entries_in deliveries.items) ≡ true }
        ensures delivered { OnOk result (AllDelivered (own_of self.old) peer self.old.work deliveries.items
            self.new.work self.old.out self.new.out) }
        ensures start { start_of self.new ≡ start_of self.old }
    {
        let mut waiting = VecDeque::from_vec(deliveries);
        while let Some(delivery) = waiting.pop_front() {
            self.deliver(alloc, peer, delivery)?;
        }
        Ok(())
    }
}
