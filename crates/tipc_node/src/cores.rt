//! The parts of a node, and the calls that it performs.

ghost use Rattle.std.specs.Prelude.{◌≡◌, ℕ, ◌+◌, ◌%◌, ◌^◌, ◌<◌, ◌≤◌, List, [], true, false, if◌then◌else◌, None, Some, Err, length, IfOk, IfSome, IfNone, IsOk, OnErr, OnOk};
ghost use Rattle.tipc_types.specs.Address.{IsNodeWord};
ghost use Rattle.tipc_outside.specs.Frames.{Adds};
ghost use Rattle.tipc_outside.specs.declared.outgoing.Outgoing.{Outgoing};
ghost use Rattle.tipc_journal.specs.Counting.{is_sent_by_name};
ghost use Rattle.tipc_sockets.specs.SocketTables.{AreSockets, no_sockets};
ghost use Rattle.tipc_node.specs.Calls.{CanPerform, IsPickedFrom, Performs, TakesNoMemory, tick_plan, upkeep_plan};
ghost use Rattle.tipc_send_window.specs.Sending.{IsSending};
ghost use Rattle.tipc_broadcast.specs.Casting.{booted};
ghost use Rattle.tipc_node.specs.Casting.{casting_in};
ghost use Rattle.tipc_node.specs.Discovery.{nobody_heard};
ghost use Rattle.tipc_node.specs.Turns.{HaveJoined};
ghost use Rattle.tipc_node.specs.Neighbours.{IsOnBearer};
ghost use Rattle.tipc_node.specs.Nodes.{is_mended_on, node_load, neighbour_of, promising, recorded, upkeep_note};
ghost use Rattle.tipc_node.specs.Plans.{CarriesOut};
ghost use Rattle.tipc_journal.specs.Room.{has_journal_room};

use crate::casting::bear;
use crate::discovery::next_tick;
use crate::drafts::Draft;
use crate::neighbours::{
    Bearers, Neighbour, Parting, Upkeep, is_mended_on, load_all, mended_by, part_of_all,
    upkeep_note,
};
use crate::steps::{NodeFault, has_journal_room, note_timeouts, record};
use std::alloc::Global;
use std::marker::Model;
use tipc_broadcast::Broadcast;
use tipc_discovery::Neighbours;
use tipc_journal::Journal;
use tipc_outside::Outbox;
use tipc_pick::{Chooser, Pick};
use tipc_types::{Addr, Answer, By, EventNote, NoMemory};

/// The parts of a node in one boot. A call of it is one step of the journal, where it doesn't fail.
#[derive(Drop)]
pub struct Core {
    pub(crate) own: Addr,
    pub(crate) boot: u32,
    pub(crate) mended: Bearers,
    /// Its neighbours and its sockets, and the step on which it works.
    pub(crate) draft: Draft,
    pub(crate) journal: Journal,
    /// The other nodes that it heard on each bearer.
    pub(crate) found: Neighbours,
    /// The ticks of this boot, counted up to the eighth and then again from the first.
    pub(crate) ticks: u8,
    /// One stream of packets to all peers in contact, and what is taken of theirs.
    pub(crate) broadcast: Broadcast,
}

impl Model for Core {
    ghost use Rattle.std.specs.Prelude.{◌≡◌, ◌≤◌, ◌<◌};
    ghost use Rattle.tipc_node.specs.Casting.{IsOfNode};
    ghost use Rattle.tipc_node.specs.Drafts.{IsIdle};
    ghost use Rattle.tipc_node.specs.Nodes.{NodeState};

    ghost Value = { NodeState };

    ghost view = { λ n. record {
      own = n.own.word;
      boot = n.boot;
      mended = n.mended;
      found = n.found;
      ticks = n.ticks;
      neighbours = n.draft.work.neighbours;
      sockets = n.draft.work.sockets;
      journal = n.journal.entries;
      casting = n.broadcast;
      promised = n.journal.kept;
    } };

    ghost invariant = { λ n. IsIdle n.draft × (1 ≤ n.boot) × (n.draft.work.sockets.own ≡ n.own.word) ×
        (n.draft.work.sockets.ports.boot ≡ n.boot) × (n.found.own ≡ n.own.word) × (n.ticks < 8) ×
        IsOfNode n.own.word n.boot n.mended n.broadcast };
}

/// Makes the broadcast link what it is after something happened to all neighbours: a copy, where a contact ended; else
/// a bearer may have been mended or cut.
fn take_broadcast(broadcast: &mut Broadcast, upkeep: Upkeep, after: Option<Broadcast>)
    requires { IsOnBearer upkeep }
    ensures { broadcast.new ≡ casting_in upkeep broadcast.old after }
{
    match after {
        Some(after) => *broadcast = after,
        None => bear(broadcast, upkeep),
    }
}

impl Core {
    /// A node of that boot, which knows nobody and has no sockets and no history. Its bearers are cut.
    pub fn new(alloc: Global, own: Addr, boot: u32) -> Result<Core, NoMemory>
        requires node { IsNodeWord own.word }
        requires boot { 1 ≤ boot }
        ensures own { IfOk result (λ n. (n.own ≡ own.word) × (n.boot ≡ boot) × (n.mended ≡ (false, false))) }
        ensures alone { IfOk result (λ n. (peer : ℕ) → neighbour_of n peer ≡ None) }
        ensures empty { IfOk result (λ n. (n.sockets ≡ no_sockets own.word boot) × (n.journal ≡ [])) }
        ensures unheard { IfOk result (λ n. n.found ≡ nobody_heard own.word) }
        ensures ticks { IfOk result (λ n. n.ticks ≡ 0) }
        ensures casting { IfOk result (λ n. n.casting ≡ booted own.word boot) }
        ensures promised { IfOk result (λ n. n.promised ≡ 0) }
    {
        Ok(Core {
            own,
            boot,
            mended: (false, false),
            found: Neighbours::new(alloc, own),
            ticks: 0,
            broadcast: Broadcast::new(alloc, own, boot),
            draft: Draft::new(alloc, own, boot)?,
            journal: Journal::new(alloc),
        })
    }

    /// What it keeps of the peer: None exactly where it has no link end to it.
    pub fn neighbour(&self, peer: u8) -> Option<&Neighbour>
        ensures some { IfSome result (λ x. neighbour_of self.now peer ≡ Some x.now) }
        ensures none { IfNone result (neighbour_of self.now peer ≡ None) }
    {
        match self.draft.neighbours().get(peer as usize) {
            Some(Some(neighbour)) => Some(neighbour),
            _ => None,
        }
    }

    /// Whether a bearer is mended. There are two: 0 and 1.
    pub fn is_mended(&self, bearer: u8) -> bool
        ensures { result ≡ is_mended_on self.now.mended bearer }
    {
        is_mended_on(self.mended, bearer)
    }

    /// Its address.
    pub fn own(&self) -> Addr
        ensures { result.word ≡ self.now.own }
    {
        self.own
    }

    /// Its boot number.
    pub fn boot(&self) -> u32
        ensures { result ≡ self.now.boot }
    {
        self.boot
    }

    /// The numbers of packets unacknowledged and waiting, each on all its links together that are up, and on its
    /// broadcast link.
    pub fn load(&self) -> (u64, u64)
        ensures { result ≡ node_load self.now }
    {
        let links = load_all(self.draft.neighbours());
        let cast = self.broadcast.load();
        (links.0 + cast.0 as u64, links.1 + cast.1 as u64)
    }

    /// How many broadcast packets it numbered in this boot, and passed over.
    pub fn broadcast_numbered(&self) -> u64
        ensures { result ≡ self.now.casting.sending.numbered }
    {
        self.broadcast.numbered()
    }

    /// Its journal.
    pub fn journal(&self) -> &Journal
        ensures { result.now.entries ≡ self.now.journal }
    {
        &self.journal
    }

    /// Promises that so many calls, at least, find their memory.
    pub fn reserve(&mut self, calls: u64) -> Result<(), NoMemory>
        ensures ok { OnOk result (self.new ≡ promising self.old calls) }
        ensures err { OnErr result (self.new ≡ self.old) }
    {
        self.journal.keep(calls)
    }

    /// How many calls were promised their memory.
    pub fn promised(&self) -> u64
        ensures { result ≡ self.now.promised }
    {
        self.journal.kept()
    }

    /// Gives up its journal: the boot is over.
    pub fn into_journal(self) -> Journal
        ensures { result.entries ≡ self.journal }
    {
        self.journal
    }

    /// Its sockets hold together and have its address, its boot has a number from which contact numbers are made, there
    /// is a place for each peer, the send window of its broadcast link is one, and its journal is within its limit. It
    /// does nothing.
    pub fn sound(&self)
        ensures sockets { AreSockets self.now.sockets }
        ensures own { self.now.sockets.own ≡ self.now.own }
        ensures boot { self.now.sockets.ports.boot ≡ self.now.boot }
        ensures epochs { (1 ≤ self.now.boot) × (self.now.boot < 2 ^ 32) }
        ensures wide { length self.now.neighbours ≡ 33 }
        ensures sending { IsSending self.now.casting.sending }
        ensures few { length self.now.journal ≤ 1048576 }
    {
        let _ = self.journal.len();
        let _ = self.broadcast.numbered();
        let _ = self.draft.sockets().live();
        let _ = self.draft.neighbours();
        let _ = self.boot();
    }

    /// Performs a call, whose step is recorded: each call as its own function says.
    ///
    /// # Errors
    ///
    /// JournalFull exactly where the journal has no room for a call, else NoMemory. Neither changes anything.
    pub fn perform<P: Pick>(
        &mut self,
        alloc: Global,
        by: By,
        call: EventNote,
        chooser: &mut Chooser<P>,
        out: &mut Outbox,
    ) -> Result<Answer, NodeFault>
        requires can { CanPerform call }
        requires joined { HaveJoined self.old }
        ensures ok { IfOk result (λ a. (frames : List Outgoing) × Performs self.old by call self.new frames a ×
            Adds out.old out.new frames) }
        ensures picked { IfOk result (λ a. (turn : ℕ) → turn % 2 ^ 64 ≡ chooser.old.turn →
            IsPickedFrom (P.gives chooser.old.pick) turn self.old call a) }
        ensures turns { IfOk result (λ a. chooser.new ≡ record {
          pick = chooser.old.pick;
          turn = if is_sent_by_name call a then (chooser.old.turn + 1) % 2 ^ 64 else chooser.old.turn;
        }) }
        ensures room { OnOk result (has_journal_room self.old.journal ≡ true) }
        ensures full { has_journal_room self.old.journal ≡ false → result ≡ Err NodeFault.JournalFull }
        ensures only { result ≡ Err NodeFault.JournalFull → has_journal_room self.old.journal ≡ false }
        ensures succeeds { 0 < self.old.promised → has_journal_room self.old.journal ≡ true →
            TakesNoMemory self.old.sockets call → IsOk result }
        ensures err { OnErr result ((self.new ≡ self.old) × (out.new ≡ out.old) × (chooser.new ≡ chooser.old)) }
    {
        if !has_journal_room(&self.journal) {
            return Err(NodeFault::JournalFull);
        }
        let answer = self.call(alloc, by, call, chooser, out)?;
        Ok(answer)
    }

    /// Performs a call, and there is room for it.
    fn call<P: Pick>(
        &mut self,
        alloc: Global,
        by: By,
        call: EventNote,
        chooser: &mut Chooser<P>,
        out: &mut Outbox,
    ) -> Result<Answer, NoMemory>
        requires can { CanPerform call }
        requires joined { HaveJoined self.old }
        requires room { has_journal_room self.old.journal ≡ true }
        ensures ok { IfOk result (λ a. (frames : List Outgoing) × Performs self.old by call self.new frames a ×
            Adds out.old out.new frames) }
        ensures picked { IfOk result (λ a. (turn : ℕ) → turn % 2 ^ 64 ≡ chooser.old.turn →
            IsPickedFrom (P.gives chooser.old.pick) turn self.old call a) }
        ensures turns { IfOk result (λ a. chooser.new ≡ record {
          pick = chooser.old.pick;
          turn = if is_sent_by_name call a then (chooser.old.turn + 1) % 2 ^ 64 else chooser.old.turn;
        }) }
        ensures succeeds { 0 < self.old.promised → TakesNoMemory self.old.sockets call → IsOk result }
        ensures err { OnErr result ((self.new ≡ self.old) × (out.new ≡ out.old) × (chooser.new ≡ chooser.old)) }
    {
        match call {
            EventNote::Socket => self.socket(alloc, by),
            EventNote::Close { port } => self.close(alloc, by, port, out),
            EventNote::Publish {
                port,
                range,
                scope,
                key,
            } => self.publish(alloc, by, port, range, scope, key, out),
            EventNote::Withdraw { port, key } => self.withdraw(alloc, by, port, key, out),
            EventNote::Receive { port } => self.receive(by, port),
            EventNote::SendPort {
                port,
                to,
                importance,
                body,
            } => self.send_port(alloc, by, port, to, importance, body, out),
            EventNote::SendName {
                port,
                kind,
                instance,
                importance,
                body,
            } => self.send_name(
                alloc, by, port, kind, instance, importance, body, chooser, out,
            ),
            EventNote::Subscribe { subscription } => self.subscribe(alloc, by, subscription),
            EventNote::Cancel { number } => self.cancel(by, number),
            EventNote::NextEvent { number } => self.next_event(by, number),
            EventNote::Tick => self.tick(alloc, by, out),
            EventNote::Cut { bearer } => self.take_part(alloc, by, Upkeep::Cut(bearer), out),
            EventNote::Mend { bearer } => self.take_part(alloc, by, Upkeep::Mend(bearer), out),
            EventNote::Multicast {
                port,
                kind,
                lower,
                upper,
                importance,
                body,
            } => self.multicast(alloc, by, port, kind, lower, upper, importance, body, out),
            EventNote::Arrive { .. } => unreachable!(),
        }
    }

    /// Records a call that is refused for this reason, and changes nothing else.
    pub(crate) fn refuse(
        &mut self,
        alloc: Global,
        by: By,
        note: EventNote,
        why: Answer,
    ) -> Result<Answer, NoMemory>
        requires room { has_journal_room self.old.journal ≡ true }
        ensures ok { IfOk result (λ a. (a ≡ why) × (self.new ≡ recorded self.old by note [] why)) }
        ensures err { OnErr result (self.new ≡ self.old) }
    {
        let kept = why.copy()?;
        self.journal.reserve(2)?;
        record(&mut self.journal, by, note, Vec::new(alloc), kept);
        Ok(why)
    }

    /// Lets something happen to all neighbours: a bearer is mended, on which it asks then who is there, or cut. The
    /// names of each peer with which the contact ends by it are forgotten.
    fn take_part(
        &mut self,
        alloc: Global,
        by: By,
        upkeep: Upkeep,
        out: &mut Outbox,
    ) -> Result<Answer, NoMemory>
        requires upkeep { IsOnBearer upkeep }
        requires joined { HaveJoined self.old }
        requires room { has_journal_room self.old.journal ≡ true }
        ensures ok { IfOk result (λ a. (frames : List Outgoing) × CarriesOut self.old by (upkeep_note upkeep)
            (upkeep_plan self.old upkeep) self.new frames a × Adds out.old out.new frames) }
        ensures err { OnErr result ((self.new ≡ self.old) × (out.new ≡ out.old)) }
    {
        let mut event = Parting::new(alloc);
        let after = part_of_all(
            self.draft.neighbours(),
            alloc,
            upkeep,
            &self.broadcast,
            &mut event,
        )?;
        self.ask(alloc, upkeep, after.as_slice(), &mut event.out);
        let changed = event.inside.len();
        self.draft
            .take_over(&mut self.journal, after, event.inside.as_slice(), changed)?;
        self.mended = mended_by(upkeep, self.mended);
        take_broadcast(&mut self.broadcast, upkeep, event.broadcast);
        out.append(event.out);
        out.append(event.casts);
        record(
            &mut self.journal,
            by,
            upkeep_note(upkeep),
            event.inside,
            Answer::Done,
        );
        Ok(Answer::Done)
    }

    /// Lets a tick pass: for all neighbours first, where the names of each peer with which the contact ends by it are
    /// forgotten, and then it asks who is there where it is time for that; then subscriptions time out, rising, and it
    /// passes for the others.
    fn tick(&mut self, alloc: Global, by: By, out: &mut Outbox) -> Result<Answer, NoMemory>
        requires joined { HaveJoined self.old }
        requires room { has_journal_room self.old.journal ≡ true }
        ensures ok { IfOk result (λ a. (frames : List Outgoing) × CarriesOut self.old by EventNote.Tick
            (tick_plan self.old) self.new frames a × Adds out.old out.new frames) }
        ensures err { OnErr result ((self.new ≡ self.old) × (out.new ≡ out.old)) }
    {
        let due = self.draft.sockets().due(alloc)?;
        let mut event = Parting::new(alloc);
        let after = part_of_all(
            self.draft.neighbours(),
            alloc,
            Upkeep::Tick,
            &self.broadcast,
            &mut event,
        )?;
        self.ask(alloc, Upkeep::Tick, after.as_slice(), &mut event.out);
        let changed = event.inside.len();
        event.inside.reserve(due.as_slice().len())?;
        note_timeouts(&mut event.inside, due.as_slice());
        self.draft
            .take_over(&mut self.journal, after, event.inside.as_slice(), changed)?;
        self.draft.pass();
        self.ticks = next_tick(self.ticks);
        take_broadcast(&mut self.broadcast, Upkeep::Tick, event.broadcast);
        out.append(event.out);
        out.append(event.casts);
        record(
            &mut self.journal,
            by,
            EventNote::Tick,
            event.inside,
            Answer::Done,
        );
        Ok(Answer::Done)
    }
}
