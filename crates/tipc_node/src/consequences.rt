//! What an arrival makes of the parts of a node in a draft of its step: a neighbour hears the packet, a peer with
//! which a contact begins is greeted, what was given is delivered, and the STATE that is due leaves last.

ghost use Rattle.std.specs.Prelude.{◌≡◌, ◌≤◌, ◌+◌, ◌-◌, List, [], true, None, Some, is_some, length, slice_index_or, sum_by, filter, IfOk, OnErr, OnOk};
ghost use Rattle.std.specs.List.{list_all};
ghost use Rattle.tipc_types.specs.declared.message_forms.Message.{Message};
ghost use Rattle.tipc_outside.specs.Frames.{Adds};
ghost use Rattle.tipc_journal.specs.Room.{entry_bytes, free_entries, free_message_bytes};
ghost use Rattle.tipc_pair.specs.Preparing.{changes_of};
ghost use Rattle.tipc_name_dist.specs.Items.{IsBulk};
ghost use Rattle.tipc_node.specs.declared.neighbours.Neighbour.{Neighbour};
ghost use Rattle.tipc_types.specs.Address.{node_word};
ghost use Rattle.tipc_broadcast.specs.Casting.{shown};
ghost use Rattle.tipc_broadcast.specs.Contacts.{has_joined};
ghost use Rattle.tipc_node.specs.Arrivals.{asks_peer, with_answer};
ghost use Rattle.tipc_node.specs.Casting.{CanBeTold};
ghost use Rattle.tipc_node.specs.Drafts.{own_of, start_of, PutEach};
ghost use Rattle.tipc_node.specs.Hearings.{is_plain, told_changes, Followed, Greeted, HasContact, HeardThere, IsPrepared, ToldCasting, Worked};
ghost use Rattle.tipc_node.specs.Neighbours.{answering};
ghost use Rattle.tipc_pair.specs.Contacts.{begins, is_of_contact};
ghost use Rattle.tipc_node.specs.Nodes.{entries_in, is_met};

use crate::casting::follow_arrival;
use crate::drafts::{Draft, keep};
use crate::fates::purge_ended;
use crate::frames::{Delivery, Due, Hearing, fits};
use crate::packets::HeardPacket;
use crate::steps::note_changes;
use std::alloc::Global;
use tipc_broadcast::Broadcast;
use tipc_journal::Journal;
use tipc_name_dist::bulk;
use tipc_pair::Transition;
use tipc_types::{Addr, Arrival, BroadcastState, NoMemory};

/// Whether a contact began by one of these changes.
pub fn begins(changes: &[Transition]) -> bool
    ensures { result ≡ begins changes.now }
{
    changes.iter().any(|change| match change {
        Transition::ContactUp { .. } => true,
        Transition::ContactDown { .. } => false,
        Transition::LinkUp { .. } => false,
        Transition::LinkDown { .. } => false,
    })
}

impl Draft {
    /// Tells the peer of that number of the live publications.
    fn tell_live(&mut self, alloc: Global, peer: u8) -> Result<(), NoMemory>
        requires peer { (1 ≤ peer) × (peer ≤ 32) }
        requires contact { is_met (slice_index_or self.old.work.neighbours peer None) ≡ true }
        ensures told { OnOk result ((messages : List Message) × IsBulk self.old.work.sockets.live messages ×
            PutEach (own_of self.old) self.old.work peer messages self.new.work self.old.out self.new.out) }
        ensures start { start_of self.new ≡ start_of self.old }
    {
        let messages = bulk(alloc, self.sockets().live())?;
        self.put_each(alloc, peer, messages.as_slice())
    }

    /// Tells the peer of that number of the live publications, where the contact with it began.
    fn greet(&mut self, alloc: Global, peer: u8, changes: &[Transition]) -> Result<(), NoMemory>
        requires peer { (1 ≤ peer) × (peer ≤ 32) }
        requires contact { HasContact changes.now (slice_index_or self.old.work.neighbours peer None) }
        ensures greeted { OnOk result (Greeted (own_of self.old) peer changes.now self.old.work self.new.work
            self.old.out self.new.out) }
        ensures start { start_of self.new ≡ start_of self.old }
    {
        if !begins(changes) {
            return Ok(());
        }
        self.tell_live(alloc, peer)
    }

    /// The neighbour of that number sends the STATE that is due on a bearer, where it has a link end: it may be asked
    /// for by the broadcast, and shows this of the broadcast link.
    fn answer(
        &mut self,
        alloc: Global,
        peer: u8,
        bearer: u8,
        asks: bool,
        shown: BroadcastState,
    ) -> Result<(), NoMemory>
        requires peer { (1 ≤ peer) × (peer ≤ 32) }
        requires bearer { bearer ≤ 1 }
        requires there { is_some (slice_index_or self.old.work.neighbours peer None) ≡ true }
        ensures answered { (y : Neighbour) → slice_index_or self.old.work.neighbours peer None ≡ Some y → OnOk result
            ((self.new.work ≡ with_answer self.old.work peer bearer asks shown y) ×
            Adds self.old.out self.new.out (answering bearer asks shown y).states) }
        ensures start { start_of self.new ≡ start_of self.old }
    {
        keep(&mut self.copies, self.neighbours.as_slice(), peer)?;
        let Some(neighbour) = &mut self.neighbours[peer as usize] else {
            unreachable!()
        };
        neighbour.answer(alloc, bearer, asks, shown, &mut self.out);
        Ok(())
    }

    /// What follows when the neighbour of that number heard a packet: the peer is greeted where the contact began, the
    /// broadcast link is told of the contact and of a STATE, what the packet gave is delivered, and the STATE that is
    /// due leaves last.
    fn follow(
        &mut self,
        alloc: Global,
        broadcast: &mut Broadcast,
        due: &Due<'_>,
        changes: &[Transition],
        stated: Option<BroadcastState>,
        deliveries: Vec<Delivery>,
    ) -> Result<(), NoMemory>
        requires peer { (1 ≤ due.now.peer) × (due.now.peer ≤ 32) }
        requires bearer { due.now.bearer ≤ 1 }
        requires there { is_some (slice_index_or self.old.work.neighbours due.now.peer None) ≡ true }
        requires contact { HasContact changes.now (slice_index_or self.old.work.neighbours due.now.peer None) }
        requires told { CanBeTold (has_joined (node_word due.now.peer) broadcast.old.contacts) changes.now stated }
        requires plain { list_all is_plain (entries_in deliveries.items) ≡ true }
        ensures followed { OnOk result (Followed (own_of self.old) due.now.peer due.now.bearer changes.now stated
            deliveries.items broadcast.old broadcast.new self.old.work self.new.work self.old.out self.new.out) }
        // Where the contact doesn't change and no STATE was taken, the broadcast link stays as it is.
        ensures still { filter is_of_contact changes.now ≡ [] → stated ≡ None → broadcast.new ≡ broadcast.old }
        ensures start { start_of self.new ≡ start_of self.old }
    {
        self.greet(alloc, due.peer, changes)?;
        let asks = self.cast(alloc, broadcast, due.peer, changes, stated)?;
        self.deliver_all(alloc, due.peer, deliveries)?;
        let shown = broadcast.shown(Addr::node(due.peer));
        self.answer(alloc, due.peer, due.bearer, asks, shown)
    }

    /// The broadcast link is told what an arrival told of the contact with a peer, and of broadcast. Answers whether a
    /// STATE is due, since the peer sent more than was taken of it.
    fn cast(
        &mut self,
        alloc: Global,
        broadcast: &mut Broadcast,
        peer: u8,
        changes: &[Transition],
        stated: Option<BroadcastState>,
    ) -> Result<bool, NoMemory>
        requires peer { (1 ≤ peer) × (peer ≤ 32) }
        requires told { CanBeTold (has_joined (node_word peer) broadcast.old.contacts) changes.now stated }
        ensures told { OnOk result (ToldCasting peer changes.now stated broadcast.old broadcast.new self.old.out
            self.new.out) }
        ensures asks { IfOk result (λ asks. asks ≡ asks_peer peer stated broadcast.new) }
        ensures err { OnErr result (broadcast.new ≡ broadcast.old) }
        ensures work { self.new.work ≡ self.old.work }
        ensures start { start_of self.new ≡ start_of self.old }
    {
        follow_arrival(broadcast, alloc, peer, changes, stated, &mut self.out)
    }

    /// A neighbour hears the packet that is due, as it was prepared, and what became of the links and the contact is
    /// told. Names of a peer with which the contact ended are forgotten.
    fn hear_there(
        &mut self,
        alloc: Global,
        due: &Due<'_>,
        heard: Hearing,
    ) -> Result<HeardPacket, NoMemory>
        requires empty { self.old.work.inside ≡ [] }
        requires peer { (1 ≤ due.now.peer) × (due.now.peer ≤ 32) }
        requires bearer { due.now.bearer ≤ 1 }
        requires there { is_some (slice_index_or self.old.work.neighbours due.now.peer None) ≡ true }
        requires prepared { IsPrepared (slice_index_or self.old.work.neighbours due.now.peer None) due.now heard }
        ensures heard { (x : Neighbour) → slice_index_or self.old.work.neighbours due.now.peer None ≡ Some x →
            IfOk result (λ given. HeardThere self.old.work.neighbours self.old.work.sockets x due.now heard.number
            heard.shown given self.new.work self.old.out self.new.out) }
        ensures there { OnOk result (is_some (slice_index_or self.new.work.neighbours due.now.peer None) ≡ true) }
        ensures contact { IfOk result (λ given.
            HasContact given.changes (slice_index_or self.new.work.neighbours due.now.peer None)) }
        ensures told { IfOk result (λ given. CanBeTold (is_met
            (slice_index_or self.old.work.neighbours due.now.peer None)) given.changes given.stated) }
        ensures changes { IfOk result (λ given. given.changes ≡ told_changes heard) }
        ensures stated { IfOk result (λ given. given.stated ≡ heard.stated) }
        ensures plain { IfOk result (λ given. list_all is_plain (entries_in given.deliveries.items) ≡ true) }
        ensures start { start_of self.new ≡ start_of self.old }
    {
        keep(&mut self.copies, self.neighbours.as_slice(), due.peer)?;
        self.inside.reserve(heard.arriving.changes().len())?;
        let Some(neighbour) = &mut self.neighbours[due.peer as usize] else {
            unreachable!()
        };
        let given = neighbour.hear(alloc, due, heard, &mut self.out);
        note_changes(&mut self.inside, due.peer, given.changes.as_slice());
        purge_ended(&mut self.sockets, self.inside.as_slice());
        Ok(given)
    }

    /// A neighbour hears the packet that is due, as it was prepared, and that follows. The journal is made ready for
    /// the step.
    pub(crate) fn hear_in(
        &mut self,
        alloc: Global,
        journal: &mut Journal,
        broadcast: &mut Broadcast,
        due: &Due<'_>,
        heard: Hearing,
    ) -> Result<Arrival, NoMemory>
        requires empty { self.old.work.inside ≡ [] }
        requires peer { (1 ≤ due.now.peer) × (due.now.peer ≤ 32) }
        requires bearer { due.now.bearer ≤ 1 }
        requires there { is_some (slice_index_or self.old.work.neighbours due.now.peer None) ≡ true }
        requires prepared { IsPrepared (slice_index_or self.old.work.neighbours due.now.peer None) due.now heard }
        requires shown { heard.shown ≡ shown broadcast.old (node_word due.now.peer) }
        requires joined { has_joined (node_word due.now.peer) broadcast.old.contacts ≡
            is_met (slice_index_or self.old.work.neighbours due.now.peer None) }
        ensures worked { (x : Neighbour) → slice_index_or self.old.work.neighbours due.now.peer None ≡ Some x →
            IfOk result (λ answered. Worked (own_of self.old) broadcast.old broadcast.new self.old.work.neighbours
            self.old.work.sockets x due.now heard.number answered self.new.work self.old.out self.new.out) }
        // Where the contact won't change and no STATE will be taken, the broadcast link stays as it is.
        ensures still { filter is_of_contact (told_changes heard) ≡ [] → heard.stated ≡ None →
            broadcast.new ≡ broadcast.old }
        ensures journal { journal.new.entries ≡ journal.old.entries }
        ensures kept { journal.new.kept ≡ journal.old.kept }
        ensures spare { OnOk result (length self.new.work.inside + 2 ≤ journal.new.spare) }
        ensures fits { OnOk result ((length self.new.work.inside ≤ free_entries - 4) ×
            (sum_by entry_bytes self.new.work.inside ≤ free_message_bytes)) }
        ensures start { start_of self.new ≡ start_of self.old }
    {
        let given = self.hear_there(alloc, due, heard)?;
        let (changes, deliveries) = (given.changes, given.deliveries);
        self.follow(
            alloc,
            broadcast,
            due,
            changes.as_slice(),
            given.stated,
            deliveries,
        )?;
        if !fits(self.inside.as_slice()) {
            return Err(NoMemory);
        }
        journal.reserve(self.inside.len() as u64 + 2)?;
        Ok(given.answer)
    }
}
