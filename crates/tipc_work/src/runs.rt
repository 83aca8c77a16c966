//! A live run: the callers and movers of all nodes.

ghost use Rattle.std.specs.Prelude.{◌≡◌, ◌*◌, ◌<◌, ℕ, All, length, map, slice_index_or, IfOk};
ghost use Rattle.std.specs.List.{list_any, range_with_len};
ghost use Rattle.tipc_work.specs.Worked.{CanWork, CanWorkAt, HasWorkedAt, HaveWorked, bearers_of};

use crate::crews::{Crew, Crewed, all_of, work_at};
use crate::plans::LivePlan;
use crate::workers::Run;
use std::alloc::Global;
use std::collections::VecDeque;
use std::sync::Wait;
use std::sync::atomic::AtomicU64;
use std::thread;
use std::thread::Threads;
use tipc_node_lock::{NodeLock, Pass};
use tipc_outside::{Bearer, Clock, Gate};
use tipc_pick::Pick;
use tipc_types::NoMemory;

/// What is left of a live run: the passes of each node, and the bearers, in order of node and bearer.
#[derive(Drop)]
pub struct Worked<B> {
    /// The passes of each node, by their callers; the mover's is the last.
    pub passes: Vec<Vec<Pass>>,
    /// The bearers, two for each node.
    pub bearers: Vec<B>,
    /// Whether a bearer was seen to fail.
    pub failed: bool,
}

/// The crews of the nodes, in order. There are two bearers and one clock for each list of passes.
fn crews_of<B: Drop, C: Drop>(
    alloc: Global,
    passes: Vec<Vec<Pass>>,
    bearers: Vec<B>,
    clocks: Vec<C>,
) -> Result<Vec<Crew<B, C>>, NoMemory>
    requires bearers { length bearers.items ≡ 2 * length passes.items }
    requires clocks { length clocks.items ≡ length passes.items }
    ensures passes { IfOk result (λ crews. map (λ c. c.passes) crews.items ≡ passes.items) }
    ensures bearers { IfOk result (λ crews. bearers_of (map (λ c. (c.first, c.second)) crews.items) ≡ bearers.items) }
    ensures places { IfOk result (λ crews. map (λ c. c.place) crews.items ≡ range_with_len 0 (length passes.items)) }
{
    let mut crews = Vec::with_capacity(alloc, passes.len())?;
    let mut bearers = VecDeque::from_vec(bearers);
    let mut clocks = VecDeque::from_vec(clocks);
    let mut waiting = VecDeque::from_vec(passes);
    while let Some(passes) = waiting.pop_front() {
        let Some(first) = bearers.pop_front() else {
            unreachable!()
        };
        let Some(second) = bearers.pop_front() else {
            unreachable!()
        };
        let Some(clock) = clocks.pop_front() else {
            unreachable!()
        };
        crews.push(Crew {
            place: crews.len(),
            passes,
            first,
            second,
            clock,
        })?;
    }
    Ok(crews)
}

/// What is left of all crews, in order.
fn gathered<B: Drop>(alloc: Global, crews: Vec<Crewed<B>>) -> Result<Worked<B>, NoMemory>
    ensures passes { IfOk result (λ w. w.passes.items ≡ map (λ c. c.passes) crews.items) }
    ensures bearers { IfOk result (λ w. w.bearers.items ≡ bearers_of (map (λ c. (c.first, c.second)) crews.items)) }
    ensures failed { IfOk result (λ w. w.failed ≡ list_any (λ c. c.failed) crews.items) }
{
    let mut passes = Vec::with_capacity(alloc, crews.len())?;
    let mut bearers = Vec::new(alloc);
    let mut failed = false;
    for crew in crews {
        passes.push(crew.passes)?;
        bearers.push(crew.first)?;
        bearers.push(crew.second)?;
        failed = failed || crew.failed;
    }
    Ok(Worked {
        passes,
        bearers,
        failed,
    })
}

/// Lets a crew work at its node.
#[tactic(auto, using(crate::proofs::Crewing::worked_at))]
fn work_crew<
    R: Threads + Wait + Sync,
    P: Pick + Send + Sync,
    B: Bearer + Send + Drop,
    C: Clock + Send + Drop,
    G: Gate + Sync,
>(rt: &R, run: &Run<'_, '_, '_, P, G>, crew: Crew<B, C>) -> Result<Crewed<B>, NoMemory>
    requires { CanWorkAt run.now.plan.now run.now.locks.now crew.place crew.passes.items }
    ensures { IfOk result (λ after. HasWorkedAt B.tried B.given B.faults run.now.plan.now run.now.locks.now
        crew.place crew.first crew.second after.passes.items after.failed after.first after.second) }
{
    let post = run.post(crew.place);
    work_at(rt, &post, crew)
}

/// Lets the crews work, each in a thread of its own.
fn work_each<
    R: Threads + Wait + Sync,
    P: Pick + Send + Sync,
    B: Bearer + Send + Drop,
    C: Clock + Send + Drop,
    G: Gate + Sync,
>(rt: &R, run: &Run<'_, '_, '_, P, G>, crews: Vec<Crew<B, C>>) -> Result<Vec<Crewed<B>>, NoMemory>
    requires { All (λ crew. CanWorkAt run.now.plan.now run.now.locks.now crew.place crew.passes.items) crews.items }
    ensures len { IfOk result (λ done. length done.items ≡ length crews.items) }
    ensures each { IfOk result (λ done. (i : ℕ) (x : _) (a : _) → i < length crews.items
        → HasWorkedAt B.tried B.given B.faults run.now.plan.now run.now.locks.now
        (slice_index_or crews.items i x).place (slice_index_or crews.items i x).first
        (slice_index_or crews.items i x).second (slice_index_or done.items i a).passes.items
        (slice_index_or done.items i a).failed (slice_index_or done.items i a).first
        (slice_index_or done.items i a).second) }
{
    let worked = thread::map_vec(
        rt,
        crews,
        &|crew: Crew<B, C>| -> Result<Crewed<B>, NoMemory>
            requires { CanWorkAt run.now.plan.now run.now.locks.now crew.place crew.passes.items }
            ensures { IfOk result (λ after. HasWorkedAt B.tried B.given B.faults run.entry.now.plan.now
                run.entry.now.locks.now crew.place crew.first crew.second after.passes.items after.failed after.first
                after.second) }
        { work_crew(rt, run, crew) },
    )?;
    Ok(all_of(run.alloc, worked)?)
}

/// Runs the plan: the callers of all nodes follow it, and a mover of each node mends its bearers and carries frames
/// between them and the node until all callers have ended, each in a thread of its own where one can be made. There
/// are, in order of the nodes, their locks, lists of passes and clocks, and two bearers for each. The last pass of a
/// node is its mover's.
///
/// Caller c of node n, from 1, has the number 16 (n - 1) + c at the gate, and its mover has 16 (n - 1). Each passes it
/// before each locked call and counts those from 0. (This project's profile.)
///
/// That it comes back isn't promised.
///
/// # Errors
///
/// Where memory ran out, also in a locked call, or when messages were to be moved.
pub fn work<
    'a,
    R: Threads + Wait + Sync,
    P: Pick + Send + Sync,
    B: Bearer + Send + Drop,
    C: Clock + Send + Drop,
    G: Gate + Sync,
>(
    rt: &R,
    alloc: Global,
    plan: &'a LivePlan,
    locks: &'a [NodeLock<'_, P>],
    passes: Vec<Vec<Pass>>,
    bearers: Vec<B>,
    clocks: Vec<C>,
    gate: &'a G,
) -> Result<Worked<B>, NoMemory>
    requires can { CanWork plan.now locks.now (map (λ v. v.items) passes.items) (length bearers.items)
        (length clocks.items) }
    ensures worked { IfOk result (λ w. HaveWorked B.tried B.given B.faults plan.now locks.now bearers.items
        (map (λ v. v.items) w.passes.items) w.failed w.bearers.items) }
{
    let at_work = AtomicU64::new(u64::from(plan.nodes) * u64::from(plan.callers));
    let run = Run {
        alloc,
        plan,
        locks,
        gate,
        at_work: &at_work,
    };
    let crews = crews_of(alloc, passes, bearers, clocks)?;
    let done = work_each(rt, &run, crews)?;
    Ok(gathered(alloc, done)?)
}
