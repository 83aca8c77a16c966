//! What an arrival makes of a node.

ghost use Rattle.std.specs.Prelude.{◌≡◌, ◌≢◌, ℕ, ◌≤◌, ◌-◌, List, [], true, false, None, Some, Err, filter, length, unwrap_or, IfErr, IfNone, IfOk, IfSome, OnErr, OnOk};
ghost use Rattle.tipc_outside.specs.declared.outgoing.Outgoing.{Outgoing};
ghost use Rattle.tipc_outside.specs.Frames.{Adds};
ghost use Rattle.tipc_header.specs.declared.frames.FrameKind.TheVariants.{Casts, Finds, Links};
ghost use Rattle.tipc_header.specs.Frames.{kind_in};
ghost use Rattle.tipc_header.specs.Spelling.{view};
ghost use Rattle.tipc_types.specs.Address.{node_word};
ghost use Rattle.tipc_broadcast.specs.Casting.{shown};
ghost use Rattle.tipc_pair.specs.Contacts.{is_of_contact};
ghost use Rattle.tipc_node.specs.Turns.{HaveJoined};
ghost use Rattle.tipc_node.specs.Arrivals.{Arrives, BringsDiscovery, IsDue};
ghost use Rattle.tipc_node.specs.CastArrivals.{BringsCast};
ghost use Rattle.tipc_node.specs.Discovery.{AreFound};
ghost use Rattle.tipc_node.specs.Hearings.{told_changes, HearsDue, IsDueAt, IsPrepared};
ghost use Rattle.tipc_journal.specs.Room.{free_entries, has_journal_room};
ghost use Rattle.tipc_node.specs.Nodes.{message_count, neighbour_of, stop_of, stopped_node};
ghost use Rattle.tipc_node.specs.Sure.{all_wait};

use crate::casting::{changes_contact, take_state};
use crate::cores::Core;
use crate::frames::{Due, Hearing, look, message_count, prepare};
use crate::steps::{NodeFault, begin, has_journal_room, record};
use crate::sure::{all_wait, conclude_waiting, told_size};
use std::alloc::Global;
use tipc_broadcast::Broadcast;
use tipc_header::FrameKind;
use tipc_outside::Outbox;
use tipc_types::{Addr, Answer, Arrival, By, EventNote, NoMemory, Why};

/// Makes the broadcast link what it was, where it was copied.
fn put_back(broadcast: &mut Broadcast, kept: Option<Broadcast>)
    ensures { broadcast.new ≡ unwrap_or kept broadcast.old }
{
    let Some(kept) = kept else {
        return;
    };
    *broadcast = kept;
}

impl Core {
    /// A frame arrives on a bearer; `number` is its number among all that arrived at this node. A packet that it
    /// brings to a link is heard there, one of broadcast is heard at the broadcast link, and by one of discovery its
    /// sender is found; a frame that is stopped is ignored for the first reason that holds.
    ///
    /// # Errors
    ///
    /// JournalFull exactly where the journal has no room for a call, else NoMemory. Neither changes anything.
    pub fn arrive(
        &mut self,
        alloc: Global,
        by: By,
        bearer: u8,
        number: u64,
        frame: &[u8],
        out: &mut Outbox,
    ) -> Result<Arrival, NodeFault>
        requires found { AreFound self.old }
        requires joined { HaveJoined self.old }
        ensures ok { IfOk result (λ a. (frames : List Outgoing)
            × Arrives self.old self.new by bearer number frame.now frames a × Adds out.old out.new frames) }
        ensures room { OnOk result (has_journal_room self.old.journal ≡ true) }
        ensures full { has_journal_room self.old.journal ≡ false → result ≡ Err NodeFault.JournalFull }
        ensures only { result ≡ Err NodeFault.JournalFull → has_journal_room self.old.journal ≡ false }
        ensures err { OnErr result ((self.new ≡ self.old) × (out.new ≡ out.old)) }
    {
        match self.due(bearer, frame) {
            Ok(due) => match due.kind {
                FrameKind::Links => self.hear(alloc, by, number, &due, out),
                FrameKind::Finds => self.find(alloc, by, number, &due, out),
                FrameKind::Casts => self.hear_cast(alloc, by, number, &due, out),
            },
            Err(why) => self.ignore(alloc, by, bearer, number, why),
        }
    }

    /// The packet of a frame that arrives on a bearer: a link packet is due at the link of the node that it names as
    /// its sender, and a discovery packet is of the network. Or the first reason that stops it.
    fn due<'a>(&self, bearer: u8, frame: &'a [u8]) -> Result<Due<'a>, Why>
        ensures due { IfOk result (λ d. d.kind ≡ Links →
            IsDue self.now frame.now d.bearer d.peer d.first d.second (view d.packet)) }
        ensures brings { IfOk result (λ d. d.kind ≡ Finds →
            BringsDiscovery self.now frame.now d.bearer d.peer d.first d.second (view d.packet)) }
        ensures casts { IfOk result (λ d. d.kind ≡ Casts →
            BringsCast self.now frame.now d.bearer d.peer d.first d.second (view d.packet)) }
        ensures kind { IfOk result (λ d. kind_in frame.now ≡ d.kind) }
        ensures bearer { IfOk result (λ d. d.bearer ≡ bearer) }
        ensures clear { OnOk result (stop_of self.now bearer frame.now ≡ None) }
        ensures stopped { IfErr result (λ why. stop_of self.now bearer frame.now ≡ Some why) }
    {
        look(
            self.own,
            self.mended,
            self.draft.neighbours(),
            bearer,
            frame,
        )
    }

    /// A frame arrives that is stopped; `number` is its number among all that arrived at this node.
    ///
    /// # Errors
    ///
    /// JournalFull exactly where the journal has no room for a call, else NoMemory. Neither changes anything.
    fn ignore(
        &mut self,
        alloc: Global,
        by: By,
        bearer: u8,
        number: u64,
        why: Why,
    ) -> Result<Arrival, NodeFault>
        ensures ok { IfOk result (λ a. (a ≡ Arrival.Ignored why) ×
            (self.new ≡ stopped_node self.old by bearer number why) × (has_journal_room self.old.journal ≡ true)) }
        ensures full { has_journal_room self.old.journal ≡ false → result ≡ Err NodeFault.JournalFull }
        ensures only { result ≡ Err NodeFault.JournalFull → has_journal_room self.old.journal ≡ false }
        ensures err { OnErr result (self.new ≡ self.old) }
    {
        begin(&mut self.journal, 0)?;
        let note = EventNote::Arrive { bearer, number };
        let kept = Answer::Arrived(Arrival::Ignored(why));
        record(&mut self.journal, by, note, Vec::new(alloc), kept);
        Ok(Arrival::Ignored(why))
    }

    /// A frame arrives whose packet is due at the link of a peer; `number` is its number among all that arrived at
    /// this node. The pair makes of it what its states and the contact numbers say. A peer with which a contact
    /// begins is told of the live publications. A message that is given is recorded as delivered, and has its fate,
    /// or its items are applied. A STATE that is due is sent last.
    ///
    /// # Errors
    ///
    /// JournalFull exactly where the journal has no room for a call, else NoMemory. Neither changes anything.
    fn hear(
        &mut self,
        alloc: Global,
        by: By,
        number: u64,
        due: &Due<'_>,
        out: &mut Outbox,
    ) -> Result<Arrival, NodeFault>
        requires due { IsDueAt self.old due.now }
        requires joined { HaveJoined self.old }
        ensures heard { IfOk result (λ a. HearsDue self.old self.new by number due.now out.old out.new a) }
        ensures room { OnOk result (has_journal_room self.old.journal ≡ true) }
        ensures full { has_journal_room self.old.journal ≡ false → result ≡ Err NodeFault.JournalFull }
        ensures only { result ≡ Err NodeFault.JournalFull → has_journal_room self.old.journal ≡ false }
        ensures err { OnErr result ((self.new ≡ self.old) × (out.new ≡ out.old)) }
    {
        if !has_journal_room(&self.journal) {
            return Err(NodeFault::JournalFull);
        }
        let arrived = self.take(alloc, by, number, due, out)?;
        Ok(arrived)
    }

    /// Whether nothing becomes of the links and the contact by an arrival that will make this, and nothing goes back:
    /// each message surely waits at its port.
    fn is_sure(&self, heard: &Hearing) -> bool
        requires { length heard.now.deliveries.items ≤ free_entries - 4 }
        ensures { result ≡ true → (told_changes heard.now ≡ []) ×
            (all_wait self.now.sockets (message_count heard.now.deliveries.items) heard.now.deliveries.items ≡ true) }
    {
        if !heard.arriving.changes().is_empty() {
            return false;
        }
        let deliveries = heard.deliveries.as_slice();
        all_wait(self.draft.sockets(), message_count(deliveries), deliveries)
    }

    /// A packet arrives, and there is room for the call: as [`Core::hear`].
    fn take(
        &mut self,
        alloc: Global,
        by: By,
        number: u64,
        due: &Due<'_>,
        out: &mut Outbox,
    ) -> Result<Arrival, NoMemory>
        requires due { IsDueAt self.old due.now }
        requires joined { HaveJoined self.old }
        requires room { has_journal_room self.old.journal ≡ true }
        ensures heard { IfOk result (λ a. HearsDue self.old self.new by number due.now out.old out.new a) }
        ensures err { OnErr result ((self.new ≡ self.old) × (out.new ≡ out.old)) }
    {
        let Some(neighbour) = self.neighbour(due.peer) else {
            unreachable!()
        };
        let shown = self.broadcast.shown(Addr::node(due.peer));
        let heard = prepare(alloc, neighbour, number, due, shown)?;
        if self.is_sure(&heard) {
            self.take_all(alloc, by, due, heard, out)
        } else {
            self.hear_each(alloc, by, due, heard, out)
        }
    }

    /// A packet arrives by which nothing becomes of the links and the contact, and each message that is given surely
    /// waits at its port: as [`Core::take`]. What can fail is done first.
    fn take_all(
        &mut self,
        alloc: Global,
        by: By,
        due: &Due<'_>,
        heard: Hearing,
        out: &mut Outbox,
    ) -> Result<Arrival, NoMemory>
        requires due { IsDueAt self.old due.now }
        requires joined { HaveJoined self.old }
        requires room { has_journal_room self.old.journal ≡ true }
        requires heard { IsPrepared (neighbour_of self.old due.now.peer) due.now heard }
        requires shown { heard.shown ≡ shown self.old.casting (node_word due.now.peer) }
        requires still { told_changes heard ≡ [] }
        requires sure { all_wait self.old.sockets (message_count heard.deliveries.items)
            heard.deliveries.items ≡ true }
        ensures heard { IfOk result (λ a. HearsDue self.old self.new by heard.number due.now out.old out.new a) }
        ensures err { OnErr result ((self.new ≡ self.old) × (out.new ≡ out.old)) }
    {
        let Some(size) = told_size(heard.deliveries.as_slice()) else {
            return Err(NoMemory);
        };
        self.journal.reserve(size + 2)?;
        let Some(neighbour) = &mut self.draft.neighbours[due.peer as usize] else {
            unreachable!()
        };
        let _ = neighbour.take(alloc, heard.arriving, &due.packet, heard.shown, out);
        let asks = take_state(&mut self.broadcast, alloc, due.peer, heard.stated, out);
        let shown = self.broadcast.shown(Addr::node(due.peer));
        neighbour.answer(alloc, due.bearer, asks, shown, out);
        let note = EventNote::Arrive {
            bearer: due.bearer,
            number: heard.number,
        };
        let kept = Answer::Arrived(heard.answer);
        conclude_waiting(
            alloc,
            &mut self.draft.sockets,
            &mut self.journal,
            by,
            note,
            heard.deliveries,
            kept,
        );
        Ok(heard.answer)
    }

    /// A copy of the broadcast link, where an arrival that will make this changes it: the contact changes, or a STATE
    /// is taken.
    fn broadcast_before(
        &self,
        alloc: Global,
        heard: &Hearing,
    ) -> Result<Option<Broadcast>, NoMemory>
        ensures some { IfOk result (λ kept. IfSome kept (λ copy. copy ≡ self.now.casting)) }
        ensures none { IfOk result (λ kept. IfNone kept
            ((filter is_of_contact (told_changes heard.now) ≡ []) × (heard.now.stated ≡ None))) }
    {
        if !changes_contact(heard.arriving.changes()) && heard.stated.is_none() {
            return Ok(None);
        }
        Ok(Some(self.broadcast.copy(alloc)?))
    }

    /// A packet arrives, and a peer may be greeted, or something may go back, or items are applied: as
    /// [`Core::hear`]. Where memory runs out, the node is made what it was.
    fn hear_each(
        &mut self,
        alloc: Global,
        by: By,
        due: &Due<'_>,
        heard: Hearing,
        out: &mut Outbox,
    ) -> Result<Arrival, NoMemory>
        requires due { IsDueAt self.old due.now }
        requires joined { HaveJoined self.old }
        requires room { has_journal_room self.old.journal ≡ true }
        requires prepared { IsPrepared (neighbour_of self.old due.now.peer) due.now heard }
        requires shown { heard.shown ≡ shown self.old.casting (node_word due.now.peer) }
        ensures heard { IfOk result (λ a. HearsDue self.old self.new by heard.number due.now out.old out.new a) }
        ensures err { OnErr result ((self.new ≡ self.old) × (out.new ≡ out.old)) }
    {
        let number = heard.number;
        let kept = self.broadcast_before(alloc, &heard)?;
        let before = self.draft.sockets().copy()?;
        let Ok(answer) = self
            .draft
            .hear_in(alloc, &mut self.journal, &mut self.broadcast, due, heard)
        else {
            self.draft.take_back(alloc, before);
            put_back(&mut self.broadcast, kept);
            return Err(NoMemory);
        };
        let note = EventNote::Arrive {
            bearer: due.bearer,
            number,
        };
        let kept = Answer::Arrived(answer);
        self.draft
            .conclude(alloc, &mut self.journal, by, note, kept, out);
        Ok(answer)
    }
}
