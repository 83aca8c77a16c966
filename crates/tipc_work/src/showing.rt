//! Whether calls that were made show the plan of a live run.

ghost use Rattle.std.specs.Prelude.{◌≡◌, ◌↔◌, ◌≤◌, ℕ, true, drop, length, IfNone, IfOk, IfSome};
ghost use Rattle.tipc_work.specs.Plans.{IsLivePlan, ShowsCaller, ShowsMover, named_send};
ghost use Rattle.tipc_work.specs.Showing.{AreSends, BeginWithTries};
ghost use Rattle.tipc_work.specs.Shown.{calls_made};

use crate::callers::MOST_TRIES;
use crate::plans::{LivePlan, is_again, named_send, port_made, publishing};
use std::alloc::Global;
use tipc_node_lock::MadeCall;
use tipc_types::{EventNote, NoMemory};

/// Whether two calls are the same.
fn is_same(one: &EventNote, other: &EventNote) -> bool
    ensures { (result ≡ true) ↔ (one.now ≡ other.now) }
{
    *one == *other
}

/// How many of these calls, from the first on, are the tries of a message that this call sends; None where they don't
/// begin with all its tries.
fn tries_of(call: &EventNote, made: &[MadeCall]) -> Option<usize>
    ensures some { IfSome result (BeginWithTries call.now made.now) }
    ensures within { IfSome result (λ count. count ≤ length made.now) }
    ensures none { IfNone result ((count : ℕ) → BeginWithTries call.now made.now count → ⊥) }
{
    let mut count = 0;
    for one in made {
        if !is_same(&one.call, call) {
            return None;
        }
        count += 1;
        if count == MOST_TRIES as usize || !is_again(&one.answer) {
            return Some(count);
        }
    }
    None
}

/// The calls behind so many.
fn behind(made: &[MadeCall], count: usize) -> &[MadeCall]
    requires { count ≤ length made.now }
    ensures { result.now ≡ drop count made.now }
{
    &made[count..]
}

/// Whether these calls are the tries of the messages of the plan, one message after the other.
fn are_sends(
    alloc: Global,
    plan: &LivePlan,
    node: u8,
    caller: u32,
    port: u32,
    made: &[MadeCall],
) -> Result<bool, NoMemory>
    requires { IsLivePlan plan.now }
    ensures { IfOk result (λ shown. (shown ≡ true) ↔
        AreSends (named_send plan.now node caller port) 0 plan.now.messages (calls_made made.now)) }
{
    let mut rest = made;
    for number in 0..plan.messages {
        let call = named_send(alloc, plan, node, caller, port, number)?;
        let Some(count) = tries_of(&call, rest) else {
            return Ok(false)
        };
        rest = behind(rest, count);
    }
    Ok(rest.is_empty())
}

/// Whether the calls that a caller of a node made show its part of the plan.
///
/// # Errors
///
/// Where memory runs out.
pub fn shows_caller(
    alloc: Global,
    plan: &LivePlan,
    node: u8,
    caller: u32,
    made: &[MadeCall],
) -> Result<bool, NoMemory>
    requires { IsLivePlan plan.now }
    ensures { IfOk result (λ shown. (shown ≡ true) ↔ ShowsCaller plan.now node caller (calls_made made.now)) }
{
    if made.len() < 2 {
        return Ok(false);
    }
    let socket = &made[0];
    let publication = &made[1];
    let port = port_made(&socket.answer);
    if socket.call != EventNote::Socket || publication.call != publishing(node, caller, port) {
        return Ok(false);
    }
    let shown = are_sends(alloc, plan, node, caller, port, behind(made, 2))?;
    Ok(shown)
}

/// Whether the calls that a mover made show its part of the plan: it first mended bearer 0 and then bearer 1.
pub fn shows_mover(made: &[MadeCall]) -> bool
    ensures { (result ≡ true) ↔ ShowsMover (calls_made made.now) }
{
    if made.len() < 2 {
        return false;
    }
    let first = &made[0];
    let second = &made[1];
    first.call == (EventNote::Mend { bearer: 0 }) && second.call == (EventNote::Mend { bearer: 1 })
}
