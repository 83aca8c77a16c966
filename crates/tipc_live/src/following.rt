//! Each step is made again in the replay, in order of stamp, and what the journal keeps of it is compared with what
//! comes of it.

ghost use Rattle.std.specs.Prelude.{◌≡◌, ◌+◌, ◌≤◌, ℕ, true, map, All, IfOk, MatchOption};
ghost use Rattle.std.specs.List.Sorted.{IsNonDecreasingBy, IsPermutation};
ghost use Rattle.tipc_node_lock.specs.Locked.{IsWellKept};
ghost use Rattle.tipc_replay.specs.States.{journal_now};
ghost use Rattle.tipc_live.specs.Auditing.{ShowsAnswer};
ghost use Rattle.tipc_live.specs.Following.{AreTurned, HasFollowed, HasOwnStamp, IsKeptOf, number_in};
ghost use Rattle.tipc_live.specs.Keeping.{stamp_of, uses_in};
ghost use Rattle.tipc_live.specs.Nodes.{can_audit};
ghost use Rattle.tipc_live.specs.Stamping.{kept_from};

use crate::again::{Again, make_again};
use crate::answers::Audit;
use crate::differing::{compare, differ};
use crate::keeping::KeptStep;
use crate::nodes::{journal_of, locked_number};
use crate::telling::call_at;
use std::alloc::Global;
use tipc_journal::Entry;
use tipc_node_lock::LockedNode;
use tipc_pick::{Chooser, Pick};
use tipc_replay::Replay;
use tipc_types::{EventNote, NoMemory};

/// The number of an arrival; 0 for any other call.
fn arrival_number(call: &EventNote) -> u64
    ensures { result ≡ number_in call.now }
{
    match call {
        EventNote::Arrive { number, .. } => *number,
        _ => 0,
    }
}

/// The journal of node `n` in the replay.
#[tactic(auto, unfolding(tipc_replay::specs::States::journal_now, tipc_replay::specs::States::member_at))]
fn replayed_at(replay: &Replay, n: u8) -> &[Entry]
    ensures { result.now ≡ journal_now replay.now.members n }
{
    match replay.node(n) {
        Some(node) => node.journal(),
        None => &[],
    }
}

/// Makes a step of a node again, and tells what isn't as its journal keeps it: None where all is.
fn follow<P: Pick>(
    replay: &mut Replay,
    alloc: Global,
    nodes: &[LockedNode<P>],
    step: &KeptStep,
    choosers: &mut [Chooser<&P>],
) -> Result<Option<Audit>, NoMemory>
    requires can { can_audit nodes.now ≡ true }
    requires well { All IsWellKept nodes.now }
    requires kept { IsKeptOf nodes.now step.now }
    requires own { HasOwnStamp nodes.now step.now }
    requires follows { HasFollowed P.gives nodes.now replay.old step.now.by.stamp }
    requires turned { AreTurned (λ p. p.now) nodes.now replay.old choosers.old }
    ensures { IfOk result (λ found. MatchOption found
        (HasFollowed P.gives nodes.now replay.new (step.now.by.stamp + 1) ×
        AreTurned (λ p. p.now) nodes.now replay.new choosers.new) (ShowsAnswer P.gives nodes.now replay.new)) }
{
    let locked = &nodes[step.node];
    let chooser = &mut choosers[step.node];
    let node = locked_number(locked);
    let kept = journal_of(locked);
    let Some(call) = call_at(kept, step.begin) else {
        unreachable!()
    };
    let number = arrival_number(call);
    match make_again(replay, alloc, node, step.by, call, locked.heard(), chooser)? {
        Again::Made => compare(node, kept, replayed_at(replay, node), step.begin, step.end),
        Again::Full => Ok(Some(differ(node, kept, step.begin, None)?)),
        Again::NoFrame => Ok(Some(Audit::NoFrame { node, number })),
        Again::TooOld(count) => Ok(Some(Audit::TooOld {
            node,
            number,
            count,
        })),
    }
}

/// Makes the steps of the nodes again, one after the other, up to the first that isn't as its journal keeps it.
pub fn follow_all<P: Pick>(
    replay: &mut Replay,
    alloc: Global,
    nodes: &[LockedNode<P>],
    steps: &[KeptStep],
    choosers: &mut [Chooser<&P>],
) -> Result<Audit, NoMemory>
    requires can { can_audit nodes.now ≡ true }
    requires well { All IsWellKept nodes.now }
    requires all { IsPermutation (kept_from 0 nodes.now) steps.now }
    requires order { IsNonDecreasingBy stamp_of steps.now }
    requires once { (stamp : ℕ) → uses_in (map stamp_of steps.now) stamp ≤ 1 }
    requires follows { HasFollowed P.gives nodes.now replay.old 0 }
    requires turned { AreTurned (λ p. p.now) nodes.now replay.old choosers.old }
    ensures { IfOk result (ShowsAnswer P.gives nodes.now replay.new) }
{
    for step in steps {
        if let Some(found) = follow(replay, alloc, nodes, step, choosers)? {
            return Ok(found);
        }
    }
    Ok(Audit::Yes)
}
