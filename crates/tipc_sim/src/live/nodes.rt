//! The nodes of a live run: they are run behind their locks, and then taken out of them.

ghost use Rattle.std.specs.Prelude.{◌≡◌, ◌↔◌, ◌*◌, ◌≤◌, All, IfOk, OnOk, length, map, true};
ghost use Rattle.tipc_live.specs.Nodes.{can_audit};
ghost use Rattle.tipc_replay.specs.States.{empty_replay};
ghost use Rattle.tipc_work.specs.Plans.{IsLivePlan};
ghost use Rattle.tipc_sim.specs.LiveRuns.{AreNodesInOrder, AreOnePerCaller, HasRun, IsLeftByRun};

use std::alloc::Global;
use std::collections::VecDeque;
use std::sync::Wait;
use std::thread::Threads;
use tipc_live::{Gathered, can_audit};
use tipc_node_lock::{LockedNode, NodeLock, Pass};
use tipc_outside::{Bearer, Clock, Gate};
use tipc_pick::{Chooser, Pick};
use tipc_stamp::Stamps;
use tipc_types::{Addr, NoMemory};
use tipc_work::{LivePlan, Nodes, Worked, lock_nodes, work};

/// What a run left: its nodes, with their passes, its bearers, and whether one of these was seen to fail.
#[derive(Drop)]
struct Left<P, B> {
    nodes: Vec<LockedNode<P>>,
    bearers: Vec<B>,
    failed: bool,
}

/// Takes each node out of its lock, with its passes.
fn take_out<P: Drop>(
    alloc: Global,
    locks: Vec<NodeLock<'_, P>>,
    passes: Vec<Vec<Pass>>,
) -> Result<Vec<LockedNode<P>>, NoMemory>
    requires { AreOnePerCaller locks.items (map (λ v. v.items) passes.items) }
    ensures { IfOk result (λ nodes. map (λ n. n.passes) nodes.items ≡ map (λ v. v.items) passes.items) }
{
    let mut nodes = Vec::with_capacity(alloc, locks.len())?;
    let mut locks = VecDeque::from_vec(locks);
    let mut waiting = VecDeque::from_vec(passes);
    while let Some(passes) = waiting.pop_front() {
        let Some(lock) = locks.pop_front() else {
            unreachable!()
        };
        match lock.into_locked(passes) {
            Ok(node) => nodes.push(node)?,
            Err(_) => unreachable!(),
        }
    }
    Ok(nodes)
}

/// Whether these are nodes 1, 2 and so on.
fn are_in_order<P>(nodes: &[LockedNode<P>]) -> bool
    requires { length nodes.now ≤ 32 }
    ensures { (result ≡ true) ↔ AreNodesInOrder nodes.now }
{
    let mut number = 0;
    for node in nodes {
        number += 1;
        if node.node().own() != Addr::node(number) {
            return false;
        }
    }
    true
}

/// Runs the plan over these bearers, each node behind its lock.
fn run_nodes<
    R: Threads + Wait + Sync,
    P: Pick + Send + Sync + Drop,
    B: Bearer + Send + Drop,
    C: Clock + Send + Drop,
    G: Gate + Sync,
>(
    rt: &R,
    alloc: Global,
    plan: &LivePlan,
    choosers: Vec<Chooser<P>>,
    bearers: Vec<B>,
    clocks: Vec<C>,
    gate: &G,
) -> Result<Left<P, B>, NoMemory>
    requires plan { IsLivePlan plan.now }
    requires choosers { (length choosers.items ≡ plan.now.nodes) × All (λ chooser. chooser.turn ≡ 0) choosers.items }
    requires bearers { length bearers.items ≡ 2 * plan.now.nodes }
    requires clocks { length clocks.items ≡ plan.now.nodes }
    ensures { IfOk result (λ left. IsLeftByRun B.tried B.given B.faults plan.now bearers.items left.nodes.items
        left.failed left.bearers.items) }
{
    let seats = u32::from(plan.nodes) * (u32::from(plan.callers) + 1);
    let (stamps, seats) = Stamps::new(alloc, seats)?;
    let Nodes { locks, passes } = lock_nodes(alloc, plan, choosers, &stamps, seats)?;
    let Worked {
        passes,
        bearers,
        failed,
    } = work(
        rt,
        alloc,
        plan,
        locks.as_slice(),
        passes,
        bearers,
        clocks,
        gate,
    )?;
    let nodes = take_out(alloc, locks, passes)?;
    Ok(Left {
        nodes,
        bearers,
        failed,
    })
}

/// Runs the plan with the first of these choosers, bearers and clocks, as many as it needs, and gathers what is left.
/// Answers whether a bearer was seen to fail.
///
/// What comes out of a lock meets the rule of its type, and no clause tells which node it is. So it is looked at: that
/// it is another can't be, and would be told as want of memory, the one answer for which no cause is promised.
pub(crate) fn run_gathered<
    R: Threads + Wait + Sync,
    P: Pick + Send + Sync + Drop,
    B: Bearer + Send + Drop,
    C: Clock + Send + Drop,
    G: Gate + Sync,
>(
    rt: &R,
    alloc: Global,
    plan: &LivePlan,
    mut choosers: Vec<Chooser<P>>,
    mut bearers: Vec<B>,
    mut clocks: Vec<C>,
    gate: &G,
    gathered: &mut Gathered<P, B>,
) -> Result<bool, NoMemory>
    requires plan { IsLivePlan plan.now }
    requires choosers { (plan.now.nodes ≤ length choosers.items) × All (λ chooser. chooser.turn ≡ 0) choosers.items }
    requires bearers { 2 * plan.now.nodes ≤ length bearers.items }
    requires clocks { plan.now.nodes ≤ length clocks.items }
    requires empty { gathered.old.replay ≡ empty_replay }
    ensures ran { IfOk result (λ failed. HasRun B.tried B.given B.faults plan.now bearers.items gathered.new failed) }
    ensures can { OnOk result ((can_audit gathered.new.nodes ≡ true) × (gathered.new.replay ≡ empty_replay)) }
{
    choosers.truncate(usize::from(plan.nodes));
    bearers.truncate(2 * usize::from(plan.nodes));
    clocks.truncate(usize::from(plan.nodes));
    let Left {
        nodes,
        bearers,
        failed,
    } = run_nodes(rt, alloc, plan, choosers, bearers, clocks, gate)?;
    if !are_in_order(nodes.as_slice()) || !can_audit(nodes.as_slice()) {
        return Err(NoMemory);
    }
    gathered.gather(nodes, bearers);
    Ok(failed)
}
