//! What is behind the lock of a node: the node, and what its calls need. The section of a call is done on it.

ghost use Rattle.std.specs.Prelude.{◌≡◌, ◌+◌, ◌<◌, ◌≤◌, ◌^◌, [], true, false, length, slice_index_or, IfErr, IfOk, OnOk};
ghost use Rattle.tipc_journal.specs.Counting.{calls_of};
ghost use Rattle.tipc_journal.specs.Room.{has_journal_room};
ghost use Rattle.tipc_outside.specs.Frames.{frames_leaving, no_frames};
ghost use Rattle.tipc_stamp.specs.Seats.{drew, is_spent};
ghost use Rattle.tipc_types.specs.Address.{IsNodeWord};
ghost use Rattle.tipc_node.specs.Calls.{CanPerform};
ghost use Rattle.tipc_node_lock.specs.Locked.{IsWellKept};
ghost use Rattle.tipc_node_lock.specs.Locks.{ArrivalCalls, Calls};
ghost use Rattle.tipc_node_lock.specs.Passes.{IsNextStamp, IsOfSameCaller, with_handed};
ghost use Rattle.tipc_node_lock.specs.Sections.{ArrivalSections, HearsAlone, MakesAlone, Sections, TurnsAway, is_receive};

use crate::counts::{count_call, make_place, next_call};
use crate::faults::LockFault;
use crate::inboxes::{Place, follow, inbox_for};
use crate::notes::{copy_call, kept_answer};
use crate::passes::{MadeCall, Pass};
use std::alloc::Global;
use std::marker::Model;
use std::mem;
use std::sync::Wait;
use tipc_node::{Node, NodeFault};
use tipc_outside::Outbox;
use tipc_pick::{Chooser, Pick};
use tipc_stamp::{StampSeat, Stamps};
use tipc_types::{Addr, Answer, Arrival, By, Bytes, EventNote, NoMemory};

/// A node with what its calls by many threads need: the chooser of its messages by name, the frames that arrived, by
/// their numbers, those that are to leave, how often each caller was answered, and the places of its sockets' inboxes.
/// When it is taken out of its lock, the passes stand in it.
///
/// Its type keeps that the journal tells what the node is, that the calls of each caller are counted from 0 in it, that
/// the arrivals in it are those of the frames, and that just the sockets have inboxes, to which was offered what was
/// received from their ports.
#[derive(Drop)]
pub struct LockedNode<P> {
    pub(crate) node: Node,
    pub(crate) chooser: Chooser<P>,
    heard: Vec<Bytes>,
    pub(crate) out: Outbox,
    pub(crate) counts: Vec<u64>,
    pub(crate) places: Vec<Place>,
    passes: Vec<Pass>,
}

impl<P> Model for LockedNode<P> {
    ghost use Rattle.std.specs.Prelude.{◌≤◌, length};
    ghost use Rattle.tipc_node_lock.specs.Locked.{AreCounts, IsWellKept, LockedState};

    ghost Value = { LockedState P };

    ghost view = { λ n. record {
      node = n.node;
      chooser = n.chooser;
      heard = n.heard.items;
      out = n.out;
      places = n.places.items;
      passes = n.passes.items;
    } };

    ghost invariant = { λ n. IsWellKept (record {
      node = n.node;
      chooser = n.chooser;
      heard = n.heard.items;
      out = n.out;
      places = n.places.items;
      passes = n.passes.items;
    }) × AreCounts n.node.journal n.counts.items × (1 ≤ length n.counts.items) };
}

/// Whether a call of a pass may be made: the journal has room for it, and the seat isn't spent. A full journal is
/// marked in the pass.
fn admit(node: &Node, pass: &mut Pass) -> Result<(), LockFault>
    ensures ok { OnOk result ((has_journal_room node.now.journal ≡ true) × (is_spent pass.old.seat ≡ false) ×
        (pass.new ≡ pass.old)) }
    ensures err { IfErr result (λ why. TurnsAway node.now.journal pass.old why pass.new) }
{
    if !node.has_room() {
        pass.fill();
        return Err(LockFault::Node(NodeFault::JournalFull));
    }
    if pass.seat.is_spent() {
        return Err(LockFault::Spent);
    }
    Ok(())
}

/// Who makes the next call: a caller, under the next stamp of its seat, which isn't spent, and with the number that the
/// counts tell.
pub(crate) fn next_by(stamps: &Stamps, seat: &mut StampSeat, counts: &[u64], caller: u32) -> By
    requires of { seat.old.of_table ≡ stamps.now }
    requires left { is_spent seat.old ≡ false }
    ensures caller { result.caller ≡ caller }
    ensures call { result.call ≡ slice_index_or counts.now caller 0 }
    ensures next { IsNextStamp result.stamp seat.old }
    ensures drew { seat.new ≡ drew seat.old result.stamp }
{
    match stamps.draw(seat) {
        Ok(stamp) => By {
            stamp,
            caller,
            call: next_call(counts, caller),
        },
        Err(_) => unreachable!(),
    }
}

impl<P: Drop> LockedNode<P> {
    /// A node of that boot, which knows nobody and has no sockets and no history, with a chooser at turn 0.
    ///
    /// # Errors
    ///
    /// Where memory runs out.
    pub fn new(
        alloc: Global,
        own: Addr,
        boot: u32,
        chooser: Chooser<P>,
    ) -> Result<LockedNode<P>, NoMemory>
        requires node { IsNodeWord own.word }
        requires boot { 1 ≤ boot }
        requires turn { chooser.turn ≡ 0 }
        ensures node { IfOk result (λ n. (n.node.own ≡ own.word) × (n.node.boot ≡ boot) × (n.node.journal ≡ [])) }
        ensures chooser { IfOk result (λ n. n.chooser ≡ chooser) }
        ensures empty { IfOk result (λ n. (n.heard ≡ []) × (n.out ≡ no_frames) × (n.places ≡ []) ×
            (n.passes ≡ [])) }
    {
        let mut counts = Vec::new(alloc);
        counts.push(0)?;
        Ok(LockedNode {
            node: Node::new(alloc, own, boot)?,
            chooser,
            heard: Vec::new(alloc),
            out: Outbox::new(alloc),
            counts,
            places: Vec::new(alloc),
            passes: Vec::new(alloc),
        })
    }
}

impl<P> LockedNode<P> {
    /// Its journal tells what the node is: contacts and links, sockets, names and subscriptions. The calls of each
    /// caller are counted from 0 in it, each of its steps can be made again, and the arrivals in it are those of the
    /// frames that are kept. Just the sockets have an inbox, and what was received from a port was offered to its inbox
    /// in that order, but for one message that may stand by. It does nothing.
    pub fn told(&self)
        ensures { IsWellKept self.now }
    {
        let _ = &self.node;
    }

    /// Its node.
    pub fn node(&self) -> &Node
        ensures { result.now ≡ self.now.node }
    {
        &self.node
    }

    /// Its chooser.
    pub fn chooser(&self) -> &Chooser<P>
        ensures { result.now ≡ self.now.chooser }
    {
        &self.chooser
    }

    /// The frames that arrived, by the numbers of their arrivals.
    pub fn heard(&self) -> &[Bytes]
        ensures { result.now ≡ self.now.heard }
    {
        self.heard.as_slice()
    }

    /// The places of its sockets' inboxes, in the order in which the sockets were made.
    pub fn places(&self) -> &[Place]
        ensures { result.now ≡ self.now.places }
    {
        self.places.as_slice()
    }

    /// The passes that came back to it; none while it is behind its lock.
    pub fn passes(&self) -> &[Pass]
        ensures { result.now ≡ self.now.passes }
    {
        self.passes.as_slice()
    }

    /// How often a caller was answered: the number of its next call.
    pub fn answered(&self, caller: u32) -> u64
        ensures { result ≡ length (calls_of self.now.node.journal caller) }
    {
        next_call(self.counts.as_slice(), caller)
    }

    /// The same with these passes in it.
    pub(crate) fn with_passes(self, passes: Vec<Pass>) -> LockedNode<P>
        ensures { result ≡ record self { passes = passes.items } }
    {
        let mut locked = self;
        locked.passes = passes;
        locked
    }

    /// Gives the frames that are to leave to the caller of a pass, which counts them. It is no call of the node.
    pub fn outgoing(&mut self, alloc: Global, pass: &mut Pass) -> Outbox
        ensures frames { result ≡ self.old.out }
        ensures left { self.new ≡ record self.old { out = no_frames } }
        ensures handed { pass.new ≡ with_handed pass.old (length (frames_leaving result)) }
    {
        let leaving = mem::replace(&mut self.out, Outbox::new(alloc));
        pass.hand(leaving.frames().len() as u64);
        leaving
    }

    /// A frame arrives on a bearer as the next call of the pass's caller, under the number of frames that arrived
    /// before. It is kept behind those, and the arrival stands in the pass, as the journal keeps it. No message is
    /// moved.
    fn hear(
        &mut self,
        alloc: Global,
        stamps: &Stamps,
        pass: &mut Pass,
        bearer: u8,
        frame: &[u8],
    ) -> Result<Arrival, LockFault>
        requires seat { pass.old.seat.of_table ≡ stamps.now }
        requires bearer { bearer ≤ 1 }
        ensures { HearsAlone self.old pass.old bearer frame.now result self.new pass.new }
    {
        admit(&self.node, pass)?;
        let kept = Bytes::from_slice(alloc, frame)?;
        self.heard.reserve(1)?;
        make_place(&mut self.counts, pass.caller)?;
        pass.made.reserve(1)?;
        let number = self.heard.len() as u64;
        let by = next_by(stamps, &mut pass.seat, self.counts.as_slice(), pass.caller);
        let arrival = self
            .node
            .arrive(alloc, by, bearer, number, frame, &mut self.out)?;
        count_call(&mut self.counts, by.caller);
        self.heard.push_reserved(kept);
        pass.made.push_reserved(MadeCall {
            stamp: by.stamp,
            call: EventNote::Arrive { bearer, number },
            answer: Answer::Arrived(arrival),
        });
        Ok(arrival)
    }
}

impl<P: Pick> LockedNode<P> {
    /// Performs a call as the next one of the pass's caller, and it stands in the pass, with its answer as the journal
    /// keeps it. A socket that was made has an inbox then, and one that was closed has none. No message is moved.
    fn make(
        &mut self,
        alloc: Global,
        stamps: &Stamps,
        pass: &mut Pass,
        call: EventNote,
    ) -> Result<Answer, LockFault>
        requires seat { pass.old.seat.of_table ≡ stamps.now }
        requires can { CanPerform call }
        requires locked { is_receive call ≡ false }
        ensures { MakesAlone P.gives self.old pass.old call result self.new pass.new }
    {
        admit(&self.node, pass)?;
        let note = copy_call(&call)?;
        let inbox = inbox_for(alloc, &note)?;
        make_place(&mut self.counts, pass.caller)?;
        self.places.reserve(1)?;
        pass.takers.reserve(1)?;
        pass.made.reserve(1)?;
        let by = next_by(stamps, &mut pass.seat, self.counts.as_slice(), pass.caller);
        let answer = self
            .node
            .perform(alloc, by, call, &mut self.chooser, &mut self.out)?;
        count_call(&mut self.counts, by.caller);
        let kept = kept_answer(&answer);
        follow(&mut self.places, &mut pass.takers, inbox, &note, &kept);
        pass.made.push_reserved(MadeCall {
            stamp: by.stamp,
            call: note,
            answer: kept,
        });
        Ok(answer)
    }

    /// A frame arrives on a bearer as the next call of the pass's caller, under the number of frames that arrived
    /// before. It is kept behind those, and the arrival stands in the pass, as the journal keeps it. Then messages move
    /// to the inboxes. Nothing is asked of the frame: whatever its bytes are, the node behind it is valid, as
    /// [`tipc_node::Node::arrive`] promises and [`LockedNode::told`] keeps.
    ///
    /// # Errors
    ///
    /// JournalFull exactly where the journal has no room for a call, which is marked in the pass; else Spent exactly
    /// where the seat is spent; else NoMemory, where the seat may have drawn a stamp. Nothing else is changed.
    pub fn arrive<R: Wait>(
        &mut self,
        rt: &R,
        alloc: Global,
        stamps: &Stamps,
        pass: &mut Pass,
        bearer: u8,
        frame: &[u8],
    ) -> Result<Arrival, LockFault>
        requires seat { pass.old.seat.of_table ≡ stamps.now }
        requires bearer { bearer ≤ 1 }
        ensures section { ArrivalSections self.old pass.old bearer frame.now result self.new pass.new }
        ensures told { ArrivalCalls pass.old bearer result pass.new }
        ensures same { IsOfSameCaller pass.old pass.new }
    {
        let arrival = self.hear(alloc, stamps, pass, bearer, frame)?;
        self.move_all(rt, alloc, stamps, pass);
        Ok(arrival)
    }

    /// Performs a call, any but a receive, as the next one of the pass's caller, and it stands in the pass, with its
    /// answer as the journal keeps it. A socket that was made has an inbox then, whose taker the pass holds. Then
    /// messages move to the inboxes.
    ///
    /// # Errors
    ///
    /// JournalFull exactly where the journal has no room for a call, which is marked in the pass; else Spent exactly
    /// where the seat is spent; else NoMemory, where the seat may have drawn a stamp. Nothing else is changed.
    pub fn perform<R: Wait>(
        &mut self,
        rt: &R,
        alloc: Global,
        stamps: &Stamps,
        pass: &mut Pass,
        call: EventNote,
    ) -> Result<Answer, LockFault>
        requires seat { pass.old.seat.of_table ≡ stamps.now }
        requires can { CanPerform call }
        requires locked { is_receive call ≡ false }
        ensures section { Sections P.gives self.old pass.old call result self.new pass.new }
        ensures told { Calls pass.old call result pass.new }
        ensures same { IsOfSameCaller pass.old pass.new }
    {
        let answer = self.make(alloc, stamps, pass, call)?;
        self.move_all(rt, alloc, stamps, pass);
        Ok(answer)
    }
}
