//! Whole runs of a plan, by clocks that go on by 1 at each look, and one whose callers overlap.

ghost use Rattle.std.specs.Prelude.{◌≡◌, ◌*◌, ◌+◌, All, length, replicate};
ghost use Rattle.tipc_stamp.specs.Seats.{new_seat};
ghost use Rattle.tipc_work.specs.Plans.{IsLivePlan};
ghost use Rattle.tipc_work_tests.specs.declared.runs.TheConstants.{PASSES};

use crate::audits::comes_to_yes;
use crate::gates::HoldingGate;
use std::alloc::Global;
use std::collections::VecDeque;
use std::mem;
use std::process::Abort;
use std::sync::Wait;
use std::test::Fail;
use std::thread::Threads;
use tipc_node_lock::*;
use tipc_outside::{Bearer, Gate, Medium, MemoryBearer, StepClock};
use tipc_pick::{Chooser, RoundRobin};
use tipc_stamp::{StampSeat, Stamps};
use tipc_types::*;
use tipc_work::*;

/// Choosers that take the matches in turn.
fn choosers(rt: &impl Abort, alloc: Global, nodes: u8) -> Vec<Chooser<RoundRobin>>
    ensures { (length result.items ≡ nodes) × All (λ chooser. chooser.turn ≡ 0) result.items }
{
    let mut choosers = Vec::new(alloc);
    for _ in 0..nodes {
        match choosers.push(Chooser::new(RoundRobin)) {
            Ok(()) => {}
            Err(_) => panic!(rt; "no memory"),
        }
    }
    choosers
}

/// Clocks that go on by 1 at each look.
fn clocks(rt: &impl Abort, alloc: Global, nodes: u8) -> Vec<StepClock>
    ensures { length result.items ≡ nodes }
{
    let mut clocks = Vec::new(alloc);
    for _ in 0..nodes {
        match clocks.push(StepClock::new()) {
            Ok(()) => {}
            Err(_) => panic!(rt; "no memory"),
        }
    }
    clocks
}

/// Takes a node out of its lock, with its passes.
fn out_of(
    rt: &impl Abort,
    lock: NodeLock<'_, RoundRobin>,
    passes: Option<Vec<Pass>>,
) -> LockedNode<RoundRobin> {
    let Some(passes) = passes else {
        panic!(rt; "a node has no passes")
    };
    match lock.into_locked(passes) {
        Ok(node) => node,
        Err(_) => panic!(rt; "a pass is missing"),
    }
}

/// Adds a node.
fn add(rt: &impl Abort, nodes: &mut Vec<LockedNode<RoundRobin>>, node: LockedNode<RoundRobin>) {
    match nodes.push(node) {
        Ok(()) => {}
        Err(_) => panic!(rt; "no memory"),
    }
}

/// Takes each node out of its lock, with its passes.
fn take_out(
    rt: &impl Abort,
    alloc: Global,
    locks: Vec<NodeLock<'_, RoundRobin>>,
    passes: Vec<Vec<Pass>>,
) -> Vec<LockedNode<RoundRobin>> {
    let mut nodes = Vec::new(alloc);
    let mut waiting = VecDeque::from_vec(passes);
    for lock in locks {
        let node = out_of(rt, lock, waiting.pop_front());
        add(rt, &mut nodes, node);
    }
    nodes
}

/// What a run left: the nodes with their passes, and the bearers.
#[derive(Drop)]
pub struct Left<B> {
    pub nodes: Vec<LockedNode<RoundRobin>>,
    pub bearers: Vec<B>,
    pub failed: bool,
}

/// What is left when the callers and movers of these locks have worked.
fn what_is_left<B: Drop>(
    rt: &impl Abort,
    alloc: Global,
    locks: Vec<NodeLock<'_, RoundRobin>>,
    worked: Worked<B>,
) -> Left<B> {
    let Worked {
        passes,
        bearers,
        failed,
    } = worked;
    Left {
        nodes: take_out(rt, alloc, locks, passes),
        bearers,
        failed,
    }
}

/// Runs a plan over these bearers.
#[tactic(auto, using(crate::proofs::Running::can_begin))]
pub fn run<R: Threads + Wait + Abort + Sync, B: Bearer + Send + Drop, G: Gate + Sync>(
    rt: &R,
    alloc: Global,
    plan: &LivePlan,
    stamps: &Stamps,
    seats: Vec<StampSeat>,
    bearers: Vec<B>,
    gate: &G,
) -> Left<B>
    requires plan { IsLivePlan plan.now }
    requires seats { seats.items ≡ replicate (plan.now.nodes * (plan.now.callers + 1)) (new_seat stamps.now) }
    requires bearers { length bearers.items ≡ 2 * plan.now.nodes }
{
    let choosers = choosers(rt, alloc, plan.nodes);
    let Ok(Nodes { locks, passes }) = lock_nodes(alloc, plan, choosers, stamps, seats) else {
        panic!(rt; "no memory")
    };
    let clocks = clocks(rt, alloc, plan.nodes);
    let Ok(worked) = work(
        rt,
        alloc,
        plan,
        locks.as_slice(),
        passes,
        bearers,
        clocks,
        gate,
    ) else {
        panic!(rt; "no memory")
    };
    what_is_left(rt, alloc, locks, worked)
}

/// Two nodes with one caller each, which sends one message.
pub const ONE_EACH: LivePlan = LivePlan {
    udp: false,
    nodes: 2,
    callers: 1,
    messages: 1,
};

/// How many passes its nodes have: one for each caller and one for each mover.
pub const PASSES_OF_ONE_EACH: u32 = 4;

/// Two nodes with two callers each, which send three messages.
const PLAN: LivePlan = LivePlan {
    udp: false,
    nodes: 2,
    callers: 2,
    messages: 3,
};

/// How many passes its nodes have: one for each caller and one for each mover.
const PASSES: u32 = 6;

/// Both bearers of nodes 1 and 2 over a medium. Calls of these numbers fail at the first of them.
pub fn memory_bearers<'m, R: Wait + Abort>(
    rt: &'m R,
    alloc: Global,
    medium: &'m Medium,
    mut failing: Vec<u64>,
) -> Vec<MemoryBearer<'m, &'m R>>
    ensures { length result.items ≡ 4 }
{
    let mut bearers = Vec::new(alloc);
    for place in 0..4_u8 {
        let calls = mem::replace(&mut failing, Vec::new(alloc));
        let node = Addr::node(1 + place / 2);
        match bearers.push(MemoryBearer::new(rt, alloc, medium, node, place % 2, calls)) {
            Ok(()) => {}
            Err(_) => panic!(rt; "no memory"),
        }
    }
    bearers
}

/// Runs the plan over a medium, with a gate that holds the first caller until another call of its node was answered. The audit answers Yes.
fn run_held<R: Threads + Wait + Abort + Sync>(
    rt: &R,
    alloc: Global,
    stamps: &Stamps,
    seats: Vec<StampSeat>,
    medium: &Medium,
)
    requires { seats.items ≡ replicate PASSES (new_seat stamps.now) }
{
    let gate = HoldingGate::new();
    let bearers = memory_bearers(rt, alloc, medium, Vec::new(alloc));
    let left = run(rt, alloc, &PLAN, stamps, seats, bearers, &gate);
    assert!(rt; !gate.gave_up() && !left.failed);
    comes_to_yes(rt, alloc, left);
}

#[test]
fn callers_of_one_node_overlap(rt: HostRuntime) -> Result<(), Fail> {
    let medium = Medium::new(rt.alloc())?;
    let (stamps, seats) = Stamps::new(rt.alloc(), PASSES)?;
    run_held(&rt, rt.alloc(), &stamps, seats, &medium);
    Ok(())
}
