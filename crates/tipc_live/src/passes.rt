//! What passes tell against the journals of their nodes.

ghost use Rattle.std.specs.Prelude.{◌≡◌, ◌↔◌, ℕ, true, All, IfOk, IsTrue, MatchOption};
ghost use Rattle.tipc_live.specs.Keeping.{kept_in};
ghost use Rattle.tipc_live.specs.Nodes.{can_audit};
ghost use Rattle.tipc_live.specs.Telling.{AllTellTrue, IsFirst, IsFirstOf, IsFirstTold, IsUpTo, TellsOtherwise, TellsTrue};

use crate::keeping::{KeptStep, add_steps};
use crate::nodes::{journal_of, locked_number};
use crate::telling::first_difference;
use std::alloc::Global;
use tipc_node_lock::{LockedNode, Pass};
use tipc_types::NoMemory;

/// A call by its caller and its number among those of its caller.
#[derive(Clone, Copy, Debug, PartialEq, Eq)]
pub struct CallName {
    /// The caller's number.
    pub caller: u32,
    /// The call's number.
    pub call: u64,
}

/// The number of the first call that a pass tells otherwise than the journal of its node, of these steps; or of the one
/// behind its calls, where it was told that the journal is full and that has room.
fn told_otherwise<P>(locked: &LockedNode<P>, steps: &[KeptStep], pass: &Pass) -> Option<u64>
    requires { (node : ℕ) × (steps.now ≡ kept_in node locked.now.node.journal) }
    ensures { MatchOption result (TellsTrue locked.now.node.journal pass.now)
        (TellsOtherwise locked.now.node.journal pass.now) }
{
    let told = pass.made();
    if let Some(call) = first_difference(journal_of(locked), steps, pass.caller(), told) {
        return Some(call);
    }
    if pass.is_full() && locked.node().has_room() {
        return Some(told.len() as u64);
    }
    None
}

/// Whether a call is before another one, by caller and number, or is that one.
fn is_up_to(call: CallName, other: CallName) -> bool
    ensures { IsTrue result ↔ IsUpTo call.caller call.call other.caller other.call }
{
    call.caller < other.caller || call.caller == other.caller && call.call <= other.call
}

/// The first of two calls, where there is one already.
fn first_of(first: Option<CallName>, other: CallName) -> CallName
    ensures { IsFirstOf first other result }
{
    match first {
        Some(call) if is_up_to(call, other) => call,
        _ => other,
    }
}

/// The first call, by caller and number, that a pass of a node tells otherwise than its journal, of these steps.
fn first_told_at<P>(locked: &LockedNode<P>, steps: &[KeptStep]) -> Option<CallName>
    requires { (node : ℕ) × (steps.now ≡ kept_in node locked.now.node.journal) }
    ensures { MatchOption result (AllTellTrue locked.now)
        (λ found. IsFirst locked.now.node.journal locked.now.passes found.caller found.call) }
{
    let passes = locked.passes();
    let mut first = None;
    for pass in passes {
        if let Some(call) = told_otherwise(locked, steps, pass) {
            let caller = pass.caller();
            first = Some(first_of(first, CallName { caller, call }));
        }
    }
    first
}

/// The first call of a node that one of its passes tells otherwise than its journal.
fn told_at<P>(
    alloc: Global,
    locked: &LockedNode<P>,
    node: usize,
) -> Result<Option<CallName>, NoMemory>
    ensures { IfOk result (λ told. MatchOption told (AllTellTrue locked.now)
        (λ found. IsFirst locked.now.node.journal locked.now.passes found.caller found.call)) }
{
    let mut steps = Vec::new(alloc);
    add_steps(&mut steps, journal_of(locked), node)?;
    Ok(first_told_at(locked, steps.as_slice()))
}

/// The first call, by node, caller and number, that a pass tells otherwise than the journal of its node, with the
/// number of the node.
pub fn first_told<P>(
    alloc: Global,
    nodes: &[LockedNode<P>],
) -> Result<Option<(u8, CallName)>, NoMemory>
    requires { can_audit nodes.now ≡ true }
    ensures { IfOk result (λ told. MatchOption told (All AllTellTrue nodes.now)
        (λ found. IsFirstTold nodes.now found.0 found.1.caller found.1.call)) }
{
    for node in 0..nodes.len() {
        let locked = &nodes[node];
        if let Some(call) = told_at(alloc, locked, node)? {
            return Ok(Some((locked_number(locked), call)));
        }
    }
    Ok(None)
}
