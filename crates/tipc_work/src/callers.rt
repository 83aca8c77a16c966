//! What a caller of a live run does.

ghost use Rattle.std.specs.Prelude.{◌≡◌, ◌≤◌, IfOk};
ghost use Rattle.tipc_node_lock.specs.Locks.{IsPassOf};
ghost use Rattle.tipc_work.specs.Called.{DrawsFor, FollowsPlan, IsSameCaller, MayDrawFor, SendsMany, SendsOne};
ghost use Rattle.tipc_work.specs.Plans.{named_send};
ghost use Rattle.tipc_work.specs.Shown.{HasCalled, IsUnusedPass};

use crate::plans::{is_again, named_send, port_made, publishing};
use crate::workers::{Post, Worker};
use std::sync::Wait;
use std::thread;
use tipc_node_lock::Pass;
use tipc_outside::Gate;
use tipc_pick::Pick;
use tipc_types::{EventNote, NoMemory};

/// How often a message is tried at most. (This project's profile.)
pub(crate) const MOST_TRIES: u32 = 1_000;

/// Sends a message from a port, again as long as nobody has the name yet or too many packets wait, and receives once
/// behind each try. Answers whether the journal had room for all of it. A message that isn't sent in 1,000 tries is
/// given up, which the answer doesn't tell.
#[tactic(auto, using(crate::proofs::Sending::full_so, crate::proofs::Sending::sent_so, crate::proofs::Sending::tried_most, crate::proofs::Carrying::same_then))]
fn send_one<R: Wait, P: Pick, G: Gate>(
    rt: &R,
    post: &Post<'_, '_, '_, P, G>,
    worker: &mut Worker,
    caller: u32,
    port: u32,
    number: u32,
) -> Result<bool, NoMemory>
    requires pass { IsPassOf post.now.lock.now worker.old }
    requires left { MayDrawFor 1000 worker.old }
    ensures sent { IfOk result (λ on. SendsOne (named_send post.now.plan.now post.now.node caller port number)
        worker.old worker.new on) }
    ensures same { IsSameCaller worker.old worker.new }
    ensures stays { IsPassOf post.now.lock.now worker.new }
    ensures few { DrawsFor 1000 worker.old worker.new }
{
    for _ in 0..MOST_TRIES {
        let call = named_send(post.alloc, post.plan, post.node, caller, port, number)?;
        let Some(answer) = worker.perform(rt, post, call)? else {
            return Ok(false)
        };
        worker.receive(rt, post, port);
        if !is_again(&answer) {
            return Ok(true);
        }
        thread::yield_now();
    }
    Ok(true)
}

/// Sends the messages of the plan from a port, one after the other. Answers whether the journal had room for that.
#[tactic(auto, using(crate::proofs::Sending::sent_none, crate::proofs::Sending::sent_on, crate::proofs::Sending::sent_off, crate::proofs::Sending::same_still_self, crate::proofs::Carrying::same_then))]
fn send_all<R: Wait, P: Pick, G: Gate>(
    rt: &R,
    post: &Post<'_, '_, '_, P, G>,
    worker: &mut Worker,
    caller: u32,
    port: u32,
) -> Result<bool, NoMemory>
    requires pass { IsPassOf post.now.lock.now worker.old }
    requires left { MayDrawFor 1000000 worker.old }
    ensures sent { IfOk result (λ on. SendsMany (named_send post.now.plan.now post.now.node caller port)
        post.now.plan.now.messages worker.old worker.new on) }
    ensures same { IsSameCaller worker.old worker.new }
{
    for number in 0..post.plan.messages {
        if !send_one(rt, post, worker, caller, port, number)? {
            return Ok(false);
        }
    }
    Ok(true)
}

/// Follows the plan: makes a socket, publishes itself there, and sends its messages. Answers whether the journal had
/// room for that.
#[tactic(auto, using(crate::proofs::Sending::full_so, crate::proofs::Sending::plan_followed, crate::proofs::Carrying::same_then))]
fn follow_plan<R: Wait, P: Pick, G: Gate>(
    rt: &R,
    post: &Post<'_, '_, '_, P, G>,
    worker: &mut Worker,
    caller: u32,
) -> Result<bool, NoMemory>
    requires unused { IsUnusedPass post.now.lock.now caller worker.old }
    ensures follows { IfOk result (λ on. FollowsPlan post.now.plan.now post.now.node caller worker.new on) }
    ensures same { IsSameCaller worker.old worker.new }
{
    let Some(made) = worker.perform(rt, post, EventNote::Socket)? else {
        return Ok(false)
    };
    let port = port_made(&made);
    let call = publishing(post.node, caller, port);
    let Some(_) = worker.perform(rt, post, call)? else {
        return Ok(false)
    };
    send_all(rt, post, worker, caller, port)
}

/// Does what the plan has a caller do, and gives its pass back.
///
/// # Errors
///
/// Where memory ran out in one of its calls.
#[tactic(auto, using(crate::proofs::Sending::unused_as, crate::proofs::Sending::caller_done))]
pub(crate) fn call<R: Wait, P: Pick, G: Gate>(
    rt: &R,
    post: &Post<'_, '_, '_, P, G>,
    pass: Pass,
) -> Result<Pass, NoMemory>
    requires unused { IsUnusedPass post.now.lock.now pass.caller pass }
    requires caller { pass.caller ≤ 8 }
    ensures { IfOk result (λ after. HasCalled post.now.plan.now post.now.node pass.caller post.now.lock.now after) }
{
    let caller = pass.caller();
    let mut worker = Worker::new(post, pass, caller);
    let followed = follow_plan(rt, post, &mut worker, caller);
    post.end_one();
    let _ = followed?;
    let pass = worker.into_pass();
    if pass.is_short() {
        return Err(NoMemory);
    }
    Ok(pass)
}
