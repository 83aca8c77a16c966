//! What callers and movers of a node call with, and where.

ghost use Rattle.std.specs.Prelude.{◌≡◌, ◌+◌, ◌<◌, ◌≤◌, false, length, slice_index_or, IfOk};
ghost use Rattle.tipc_outside.specs.Frames.{frames_leaving};
ghost use Rattle.tipc_node.specs.Calls.{CanPerform};
ghost use Rattle.tipc_node_lock.specs.Locks.{IsPassOf, LockState};
ghost use Rattle.tipc_node_lock.specs.Passes.{with_handed};
ghost use Rattle.tipc_node_lock.specs.Sections.{is_receive};
ghost use Rattle.tipc_work.specs.Called.{DrawsFor, ArrivesSo, IsSameCaller, MayDrawFor, IsAnsweredSo};
ghost use Rattle.tipc_work.specs.Plans.{IsLivePlan};

use crate::plans::LivePlan;
use std::alloc::Global;
use std::marker::Model;
use std::sync::Wait;
use std::sync::atomic::{AtomicU64, Ordering};
use tipc_node::NodeFault;
use tipc_node_lock::{LockFault, NodeLock, Pass};
use tipc_outside::{Gate, Outbox};
use tipc_pick::Pick;
use tipc_types::{Answer, EventNote, NoMemory};

/// How many numbers at the gate each node has. (This project's profile.)
const NUMBERS_OF_NODE: u32 = 16;

/// A live run: what the callers and movers of all nodes share. The locks are those of the nodes, in order.
#[derive(Drop)]
pub(crate) struct Run<'a, 'w, 's, P, G> {
    pub(crate) alloc: Global,
    pub(crate) plan: &'a LivePlan,
    pub(crate) locks: &'a [NodeLock<'s, P>],
    pub(crate) gate: &'a G,
    pub(crate) at_work: &'w AtomicU64,
}

impl<'a, 'w, 's, P, G> Run<'a, 'w, 's, P, G> {
    /// Where those of the node at a place work; places go from 0.
    pub(crate) fn post(&self, place: usize) -> Post<'a, 'w, 's, P, G>
        requires plan { IsLivePlan self.now.plan.now }
        requires place { (place < length self.now.locks.now) × (place < 8) }
        ensures plan { (result.plan.now ≡ self.now.plan.now) × (result.node ≡ place + 1) }
        ensures lock { (lock : LockState) → result.lock.now ≡ slice_index_or self.now.locks.now place lock }
    {
        Post {
            alloc: self.alloc,
            plan: self.plan,
            node: place as u8 + 1,
            lock: &self.locks[place],
            gate: self.gate,
            at_work: self.at_work,
        }
    }
}

/// Where the callers and the mover of one node work.
#[derive(Drop)]
pub(crate) struct Post<'a, 'w, 's, P, G> {
    pub(crate) alloc: Global,
    pub(crate) plan: &'a LivePlan,
    pub(crate) node: u8,
    lock: &'a NodeLock<'s, P>,
    gate: &'a G,
    at_work: &'w AtomicU64,

    ghost live: { IsLivePlan plan.now × (1 ≤ node) × (node ≤ 8) },
}

impl<'a, 'w, 's, P, G> Post<'a, 'w, 's, P, G> {
    /// Tells that one caller more, of all nodes, has ended.
    pub(crate) fn end_one(&self) {
        self.at_work.fetch_sub(1, Ordering::SeqCst);
    }

    /// Whether all callers of all nodes have ended.
    pub(crate) fn have_all_ended(&self) -> bool {
        self.at_work.load(Ordering::SeqCst) == 0
    }

    /// The number that a caller of the node has at the gate; that of the mover is the number of caller 0. (This
    /// project's profile.)
    fn number_at_gate(&self, caller: u32) -> u32
        requires { caller ≤ 8 }
    {
        u32::from(self.node - 1) * NUMBERS_OF_NODE + caller
    }
}

/// A caller or a mover: its pass, its number at the gate, and how many calls it made through the gate.
///
/// Contracts see its pass.
#[derive(Drop)]
pub(crate) struct Worker {
    pass: Pass,
    number: u32,
    gated: u64,
}

impl Model for Worker {
    ghost use Rattle.tipc_node_lock.specs.Passes.{PassState};

    ghost Value = { PassState };

    ghost view = { λ w. w.pass };
}

impl Worker {
    /// A worker that was at no gate, with the number that a caller of the node has there.
    pub(crate) fn new<P, G>(post: &Post<'_, '_, '_, P, G>, pass: Pass, caller: u32) -> Worker
        requires { caller ≤ 8 }
        ensures { result ≡ pass }
    {
        Worker {
            pass,
            number: post.number_at_gate(caller),
            gated: 0,
        }
    }

    /// Its pass, at the end.
    pub(crate) fn into_pass(self) -> Pass
        ensures { result ≡ self }
    {
        self.pass
    }

    /// Passes the gate.
    fn enter<G: Gate>(&mut self, gate: &G)
        ensures { self.new ≡ self.old }
    {
        gate.pass(self.number, self.gated);
        self.gated = self.gated.saturating_add(1);
    }

    /// Passes the gate and performs a call. None where the journal has no room for it.
    ///
    /// # Errors
    ///
    /// Where memory runs out.
    #[tactic(auto, using(crate::proofs::Calling::makes_call, crate::proofs::Calling::told_full, crate::proofs::Calling::called_same, crate::proofs::Calling::stays))]
    pub(crate) fn perform<R: Wait, P: Pick, G: Gate>(
        &mut self,
        rt: &R,
        post: &Post<'_, '_, '_, P, G>,
        call: EventNote,
    ) -> Result<Option<Answer>, NoMemory>
        requires pass { IsPassOf post.now.lock.now self.old }
        requires left { MayDrawFor 1 self.old }
        requires can { CanPerform call }
        requires locked { is_receive call ≡ false }
        ensures made { IfOk result (λ answered. IsAnsweredSo self.old self.new call answered) }
        ensures same { IsSameCaller self.old self.new }
        ensures stays { IsPassOf post.now.lock.now self.new }
        ensures few { DrawsFor 1 self.old self.new }
    {
        self.enter(post.gate);
        match post.lock.perform(rt, post.alloc, &mut self.pass, call) {
            Ok(answer) => Ok(Some(answer)),
            Err(LockFault::Node(NodeFault::JournalFull)) => Ok(None),
            Err(LockFault::Node(NodeFault::NoMemory)) => Err(NoMemory),
            Err(LockFault::Spent) => unreachable!(),
        }
    }

    /// Passes the gate and lets a frame arrive on a bearer. Answers whether the journal had room for it.
    ///
    /// # Errors
    ///
    /// Where memory runs out.
    #[tactic(auto, using(crate::proofs::Calling::makes_call, crate::proofs::Calling::told_full, crate::proofs::Calling::heard_same, crate::proofs::Calling::stays))]
    pub(crate) fn arrive<R: Wait, P: Pick, G: Gate>(
        &mut self,
        rt: &R,
        post: &Post<'_, '_, '_, P, G>,
        bearer: u8,
        frame: &[u8],
    ) -> Result<bool, NoMemory>
        requires pass { IsPassOf post.now.lock.now self.old }
        requires left { MayDrawFor 1 self.old }
        requires bearer { bearer ≤ 1 }
        ensures made { IfOk result (λ heard. ArrivesSo self.old self.new bearer heard) }
        ensures same { IsSameCaller self.old self.new }
        ensures stays { IsPassOf post.now.lock.now self.new }
        ensures few { DrawsFor 1 self.old self.new }
    {
        self.enter(post.gate);
        match post
            .lock
            .arrive(rt, post.alloc, &mut self.pass, bearer, frame)
        {
            Ok(_) => Ok(true),
            Err(LockFault::Node(NodeFault::JournalFull)) => Ok(false),
            Err(LockFault::Node(NodeFault::NoMemory)) => Err(NoMemory),
            Err(LockFault::Spent) => unreachable!(),
        }
    }

    /// Takes a message from the inbox of a port, if one is there, and lets it go.
    pub(crate) fn receive<R: Wait, P, G>(
        &mut self,
        rt: &R,
        post: &Post<'_, '_, '_, P, G>,
        port: u32,
    )
        requires pass { IsPassOf post.now.lock.now self.old }
        ensures made { self.new.made ≡ self.old.made }
        ensures same { IsSameCaller self.old self.new }
        ensures stays { IsPassOf post.now.lock.now self.new }
        ensures drawn { self.new.seat ≡ self.old.seat }
    {
        let _ = post.lock.receive(rt, &mut self.pass, port);
    }

    /// The frames that are to leave, which its pass counts.
    pub(crate) fn outgoing<R: Wait, P, G>(
        &mut self,
        rt: &R,
        post: &Post<'_, '_, '_, P, G>,
    ) -> Outbox
        requires pass { IsPassOf post.now.lock.now self.old }
        ensures handed { self.new ≡ with_handed self.old (length (frames_leaving result)) }
        ensures stays { IsPassOf post.now.lock.now self.new }
    {
        post.lock.outgoing(rt, post.alloc, &mut self.pass)
    }
}
