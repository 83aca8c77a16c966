//! The callers and the mover of one node, each in a thread of its own.

ghost use Rattle.std.specs.Prelude.{◌≡◌, ◌≤◌, ◌∷◌, [], All, Ok, length, map, IfOk};
ghost use Rattle.tipc_work.specs.Jobs.{IsJobOf, HasDone, HaveDone};
ghost use Rattle.tipc_work.specs.Moved.{HasMoved};
ghost use Rattle.tipc_work.specs.Shown.{HasCalled, IsUnusedPass};
ghost use Rattle.tipc_work.specs.declared.crews.Done.TheVariants.{Called, Carried};
ghost use Rattle.tipc_work.specs.Worked.{AreCallers, AreUnusedPasses, HasWorked, HaveCalled};

use crate::callers::call;
use crate::movers::{Moved, move_frames};
use crate::workers::Post;
use std::alloc::Global;
use std::collections::VecDeque;
use std::sync::Wait;
use std::thread;
use std::thread::Threads;
use tipc_node_lock::Pass;
use tipc_outside::{Bearer, Clock, Gate};
use tipc_pick::Pick;
use tipc_types::NoMemory;

/// What the callers and the mover of one node work with: their passes, the mover's last, and the mover's bearers and
/// clock.
#[derive(Drop)]
pub(crate) struct Crew<B, C> {
    pub(crate) place: usize,
    pub(crate) passes: Vec<Pass>,
    pub(crate) first: B,
    pub(crate) second: B,
    pub(crate) clock: C,
}

/// One of the two jobs of a crew.
#[derive(Drop)]
enum Job<B, C> {
    /// All callers call, each with one of these passes.
    Call(Vec<Pass>),
    /// The mover carries frames, with its pass, its bearers and its clock.
    Carry {
        pass: Pass,
        first: B,
        second: B,
        clock: C,
    },
}

/// What is left of a job.
#[derive(Drop)]
enum Done<B> {
    /// Of the callers' job their passes, in the same order.
    Called(Vec<Pass>),
    /// Of the mover's.
    Carried(Moved<B>),
}

/// What is left of a crew behind its work, and whether a bearer failed.
#[derive(Drop)]
pub(crate) struct Crewed<B> {
    pub(crate) passes: Vec<Pass>,
    pub(crate) first: B,
    pub(crate) second: B,
    pub(crate) failed: bool,
}

/// Lets the callers of a node call, each in a thread of its own.
#[tactic(auto, using(crate::proofs::Crewing::callers_ready))]
fn call_each<R: Threads + Wait + Sync, P: Pick + Send + Sync, G: Gate + Sync>(
    rt: &R,
    post: &Post<'_, '_, '_, P, G>,
    passes: Vec<Pass>,
) -> Result<Vec<Pass>, NoMemory>
    requires callers { AreCallers post.now.lock.now passes.items }
    requires count { (length passes.items ≡ post.now.plan.now.callers) × (length passes.items ≤ 8) }
    ensures { IfOk result (λ after. HaveCalled post.now.plan.now post.now.node post.now.lock.now
        post.now.plan.now.callers after.items) }
{
    let called = thread::map_vec(
        rt,
        passes,
        &|pass: Pass| -> Result<Pass, NoMemory>
            requires { IsUnusedPass post.now.lock.now pass.caller pass × (pass.caller ≤ 8) }
            ensures { IfOk result (λ after. HasCalled post.entry.now.plan.now post.entry.now.node pass.caller
                post.entry.now.lock.now after) }
        { call(rt, post, pass) },
    )?;
    Ok(all_of(post.alloc, called)?)
}

/// All values, where memory ran out for none of them.
#[tactic(auto, using(crate::proofs::Crewing::ok_more))]
pub(crate) fn all_of<T: Drop>(
    alloc: Global,
    results: Vec<Result<T, NoMemory>>,
) -> Result<Vec<T>, NoMemory>
    ensures { IfOk result (λ values. map Ok values.items ≡ results.items) }
{
    let mut values = Vec::with_capacity(alloc, results.len())?;
    for one in results {
        values.push(one?)?;
    }
    Ok(values)
}

/// Does one of the two jobs of a crew.
fn do_job<
    R: Threads + Wait + Sync,
    P: Pick + Send + Sync,
    B: Bearer + Send + Drop,
    C: Clock + Send + Drop,
    G: Gate + Sync,
>(rt: &R, post: &Post<'_, '_, '_, P, G>, job: Job<B, C>) -> Result<Done<B>, NoMemory>
    requires { IsJobOf post.now.plan.now post.now.lock.now job }
    ensures { IfOk result (λ done.
        HasDone B.tried B.given B.faults post.now.plan.now post.now.node post.now.lock.now job done) }
{
    Ok(match job {
        Job::Call(passes) => Done::Called(call_each(rt, post, passes)?),
        Job::Carry {
            pass,
            first,
            second,
            clock,
        } => Done::Carried(move_frames(rt, post, pass, first, second, clock)?),
    })
}

/// Does both jobs of a crew, each in a thread of its own.
fn do_both<
    R: Threads + Wait + Sync,
    P: Pick + Send + Sync,
    B: Bearer + Send + Drop,
    C: Clock + Send + Drop,
    G: Gate + Sync,
>(rt: &R, post: &Post<'_, '_, '_, P, G>, jobs: Vec<Job<B, C>>) -> Result<Vec<Done<B>>, NoMemory>
    requires { All (λ job. IsJobOf post.now.plan.now post.now.lock.now job) jobs.items }
    ensures { IfOk result (λ done.
        HaveDone B.tried B.given B.faults post.now.plan.now post.now.node post.now.lock.now jobs.items done.items) }
{
    let done = thread::map_vec(
        rt,
        jobs,
        &|job: Job<B, C>| -> Result<Done<B>, NoMemory>
            requires { IsJobOf post.now.plan.now post.now.lock.now job }
            ensures { IfOk result (λ done.
                HasDone B.tried B.given B.faults post.entry.now.plan.now post.entry.now.node post.entry.now.lock.now
                job done) }
        { do_job(rt, post, job) },
    )?;
    Ok(all_of(post.alloc, done)?)
}

/// What the callers gave and what the mover gave.
fn parted<B: Drop>(done: Vec<Done<B>>) -> (Vec<Pass>, Moved<B>)
    requires { (called : _) × (carried : _) × (done.items ≡ Called called ∷ Carried carried ∷ []) }
    ensures { done.items ≡ Called result.0 ∷ Carried result.1 ∷ [] }
{
    let mut done = VecDeque::from_vec(done);
    let Some(Done::Called(called)) = done.pop_front() else {
        unreachable!()
    };
    let Some(Done::Carried(carried)) = done.pop_front() else {
        unreachable!()
    };
    (called, carried)
}

/// Lets the callers of a node call and its mover carry frames, at the same time.
fn work_beside<
    R: Threads + Wait + Sync,
    P: Pick + Send + Sync,
    B: Bearer + Send + Drop,
    C: Clock + Send + Drop,
    G: Gate + Sync,
>(
    rt: &R,
    post: &Post<'_, '_, '_, P, G>,
    callers: Vec<Pass>,
    pass: Pass,
    first: B,
    second: B,
    clock: C,
) -> Result<(Vec<Pass>, Moved<B>), NoMemory>
    requires callers { AreCallers post.now.lock.now callers.items }
    requires count { (length callers.items ≡ post.now.plan.now.callers) × (length callers.items ≤ 8) }
    requires mover { IsUnusedPass post.now.lock.now pass.caller pass }
    ensures called { IfOk result (λ r.
        HaveCalled post.now.plan.now post.now.node post.now.lock.now post.now.plan.now.callers r.0.items) }
    ensures moved { IfOk result (λ r. HasMoved B.tried B.given B.faults post.now.lock.now pass.caller first second
        r.1.pass r.1.failed r.1.first r.1.second) }
{
    let mut jobs = Vec::with_capacity(post.alloc, 2)?;
    jobs.push(Job::Call(callers))?;
    jobs.push(Job::Carry {
        pass,
        first,
        second,
        clock,
    })?;
    Ok(parted(do_both(rt, post, jobs)?))
}

/// Lets a crew work: the callers of a node and its mover, each in a thread of its own.
#[tactic(auto, using(crate::proofs::Crewing::join_ready))]
pub(crate) fn work_at<
    R: Threads + Wait + Sync,
    P: Pick + Send + Sync,
    B: Bearer + Send + Drop,
    C: Clock + Send + Drop,
    G: Gate + Sync,
>(rt: &R, post: &Post<'_, '_, '_, P, G>, crew: Crew<B, C>) -> Result<Crewed<B>, NoMemory>
    requires unused { AreUnusedPasses post.now.plan.now post.now.lock.now crew.passes.items }
    ensures { IfOk result (λ after. HasWorked B.tried B.given B.faults post.now.plan.now post.now.node
        post.now.lock.now crew.first crew.second after.passes.items after.failed after.first after.second) }
{
    let Crew {
        mut passes,
        first,
        second,
        clock,
        ..
    } = crew;
    let Some(mover) = passes.pop() else {
        unreachable!()
    };
    let (mut passes, moved) = work_beside(rt, post, passes, mover, first, second, clock)?;
    passes.push(moved.pass)?;
    Ok(Crewed {
        passes,
        first: moved.first,
        second: moved.second,
        failed: moved.failed,
    })
}
