//! The lock of a node: what threads share, and its calls.

ghost use Rattle.std.specs.Prelude.{◌≡◌, ◌<◌, ◌≤◌, ◌^◌, length, true, false, All, IfErr, IfOk, OnOk};
ghost use Rattle.tipc_outside.specs.Frames.{frames_leaving};
ghost use Rattle.tipc_types.specs.Address.{IsNodeWord};
ghost use Rattle.tipc_node.specs.Calls.{CanPerform};
ghost use Rattle.tipc_node_lock.specs.Locks.{ArrivalCalls, Calls, IsPassOf, is_one_per_caller};
ghost use Rattle.tipc_node_lock.specs.Passes.{IsOfSameCaller, ReceivesAt, passes_from, with_handed, with_seen};
ghost use Rattle.tipc_node_lock.specs.Sections.{is_receive};

use crate::faults::LockFault;
use crate::inboxes::NoSocket;
use crate::locked::LockedNode;
use crate::passes::{Pass, is_one_per_caller, new_passes};
use std::alloc::Global;
use std::marker::Model;
use std::sync::{Mutex, Wait};
use tipc_outside::Outbox;
use tipc_pick::{Chooser, Pick};
use tipc_stamp::{StampSeat, Stamps};
use tipc_types::{Addr, Answer, Arrival, EventNote, Message, NoMemory};

/// A node that several threads call, each with a pass of its own: their calls are made one after the other.
///
/// Contracts see its node's address, the word that its stamps are drawn from, and how many callers it has. No clause
/// sees what is behind a lock: what a call does there stands on its section (`LockedNode::perform`,
/// `LockedNode::arrive`), and what it tells its caller stands here. That a call which may wait comes back is not
/// promised.
#[derive(Drop)]
pub struct NodeLock<'s, P> {
    own: Addr,
    callers: u32,
    stamps: &'s Stamps,
    lock: Mutex<LockedNode<P>>,
}

impl<'s, P> Model for NodeLock<'s, P> {
    ghost use Rattle.tipc_node_lock.specs.Locks.{LockState};

    ghost Value = { LockState };

    ghost view = { λ l. record { own = l.own.word; of_table = l.stamps.now; callers = l.callers } };
}

impl<'s, P: Drop> NodeLock<'s, P> {
    /// A node of that boot behind a lock, with a chooser at turn 0, and a pass for each of its callers, which have the
    /// numbers from 1 on. There are as many seats as callers.
    ///
    /// # Errors
    ///
    /// Where memory runs out.
    pub fn new(
        alloc: Global,
        own: Addr,
        boot: u32,
        chooser: Chooser<P>,
        callers: u32,
        stamps: &'s Stamps,
        seats: Vec<StampSeat>,
    ) -> Result<(NodeLock<'s, P>, Vec<Pass>), NoMemory>
        requires node { IsNodeWord own.word }
        requires boot { 1 ≤ boot }
        requires turn { chooser.turn ≡ 0 }
        requires callers { (1 ≤ callers) × (length seats.items ≡ callers) }
        requires seats { All (λ seat. seat.of_table ≡ stamps.now) seats.items }
        ensures lock { IfOk result (λ r. r.0 ≡ record { own = own.word; of_table = stamps.now; callers = callers }) }
        ensures passes { IfOk result (λ r. r.1.items ≡ passes_from own.word 1 seats.items) }
        ensures fit { IfOk result (λ r. All (IsPassOf r.0) r.1.items × (length r.1.items ≡ callers)) }
    {
        let locked = LockedNode::new(alloc, own, boot, chooser)?;
        let passes = new_passes(alloc, own, seats)?;
        let lock = NodeLock {
            own,
            callers,
            stamps,
            lock: Mutex::new(locked),
        };
        Ok((lock, passes))
    }
}

impl<'s, P> NodeLock<'s, P> {
    /// Gives the frames that are to leave to the caller of the pass, which counts them. It waits for its turn, and is
    /// no call of the node.
    pub fn outgoing<R: Wait>(&self, rt: &R, alloc: Global, pass: &mut Pass) -> Outbox
        requires pass { IsPassOf self.now pass.old }
        ensures { pass.new ≡ with_handed pass.old (length (frames_leaving result)) }
    {
        self.lock.lock(rt).outgoing(alloc, pass)
    }

    /// Takes the first message that is held in the inbox of a port, whose socket the pass made: None only where none
    /// was held at some moment of the call. It takes no lock, draws no stamp and is no call of the node; it may wait
    /// for a call that gives to the inbox.
    ///
    /// # Errors
    ///
    /// NoSocket exactly where the pass doesn't hold the taker of that inbox.
    pub fn receive<R: Wait>(
        &self,
        rt: &R,
        pass: &mut Pass,
        port: u32,
    ) -> Result<Option<Message>, NoSocket>
        requires pass { IsPassOf self.now pass.old }
        ensures received { ReceivesAt pass.old port result pass.new }
        ensures same { IsOfSameCaller pass.old pass.new }
    {
        pass.receive(rt, port)
    }

    /// The least stamp that isn't drawn yet: it is above those that the pass drew, and not below what it saw before. It
    /// waits for nobody.
    pub fn seen(&self, pass: &mut Pass) -> u64
        requires pass { IsPassOf self.now pass.old }
        ensures saw { pass.new ≡ with_seen pass.old result }
        ensures above { All (λ x. x < result) pass.old.seat.drawn × (pass.old.seat.seen ≤ result) }
    {
        self.stamps.seen(&mut pass.seat)
    }

    /// Takes the node out of its lock, with the passes in it.
    ///
    /// # Errors
    ///
    /// Lock and passes come back exactly where the passes aren't one for each caller number, each with this node's
    /// address.
    pub fn into_locked(
        self,
        passes: Vec<Pass>,
    ) -> Result<LockedNode<P>, (NodeLock<'s, P>, Vec<Pass>)>
        ensures whole { OnOk result (is_one_per_caller self.entry.own self.entry.callers passes.items ≡ true) }
        ensures passes { IfOk result (λ n. n.passes ≡ passes.items) }
        ensures back { IfErr result (λ r. (is_one_per_caller self.entry.own self.entry.callers passes.items ≡ false) ×
            (r.0 ≡ self.entry) × (r.1.items ≡ passes.items)) }
    {
        if !is_one_per_caller(self.own, self.callers, passes.as_slice()) {
            return Err((self, passes));
        }
        let NodeLock { lock, .. } = self;
        Ok(lock.into_inner().with_passes(passes))
    }
}

impl<'s, P: Pick> NodeLock<'s, P> {
    /// A frame arrives on a bearer as the next call of the pass's caller. It waits for its turn, and makes the section.
    ///
    /// # Errors
    ///
    /// As of the section: JournalFull is marked in the pass, Spent comes exactly where its seat is spent, else
    /// NoMemory.
    pub fn arrive<R: Wait>(
        &self,
        rt: &R,
        alloc: Global,
        pass: &mut Pass,
        bearer: u8,
        frame: &[u8],
    ) -> Result<Arrival, LockFault>
        requires pass { IsPassOf self.now pass.old }
        requires bearer { bearer ≤ 1 }
        ensures made { ArrivalCalls pass.old bearer result pass.new }
        ensures same { IsOfSameCaller pass.old pass.new }
    {
        self.lock
            .lock(rt)
            .arrive(rt, alloc, self.stamps, pass, bearer, frame)
    }

    /// Performs a call as the next one of the pass's caller: any but a receive. It waits for its turn, and makes the
    /// section.
    ///
    /// # Errors
    ///
    /// As of the section: JournalFull is marked in the pass, Spent comes exactly where its seat is spent, else
    /// NoMemory.
    pub fn perform<R: Wait>(
        &self,
        rt: &R,
        alloc: Global,
        pass: &mut Pass,
        call: EventNote,
    ) -> Result<Answer, LockFault>
        requires pass { IsPassOf self.now pass.old }
        requires can { CanPerform call }
        requires locked { is_receive call ≡ false }
        ensures made { Calls pass.old call result pass.new }
        ensures same { IsOfSameCaller pass.old pass.new }
    {
        self.lock
            .lock(rt)
            .perform(rt, alloc, self.stamps, pass, call)
    }
}
