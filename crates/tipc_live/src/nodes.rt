//! The nodes of the replay.

ghost use Rattle.std.specs.Prelude.{◌≡◌, ◌≤◌, ◌==◌, true, count_by, length, map, replicate, All, IfOk, OnOk};
ghost use Rattle.tipc_types.specs.Address.{node_word};
ghost use Rattle.tipc_journal.specs.Steps.{IsWhole};
ghost use Rattle.tipc_node_lock.specs.Locked.{IsWellKept};
ghost use Rattle.tipc_replay.specs.States.{empty_replay};
ghost use Rattle.tipc_live.specs.Following.{HasFollowed};
ghost use Rattle.tipc_live.specs.Nodes.{can_audit, has_one_address, is_fit, is_of_cluster, locked_number};

use std::alloc::Global;
use tipc_journal::Entry;
use tipc_node_lock::LockedNode;
use tipc_pick::{Chooser, Pick};
use tipc_replay::Replay;
use tipc_types::NoMemory;

/// The number of a node, which is one of the cluster's.
pub fn locked_number<P>(locked: &LockedNode<P>) -> u8
    requires { is_of_cluster locked.now ≡ true }
    ensures number { result ≡ locked_number locked.now }
    ensures range { (1 ≤ result) × (result ≤ 32) }
    ensures address { locked.now.node.own ≡ node_word result }
{
    match locked.node().own().number() {
        Some(number) => number,
        None => unreachable!(),
    }
}

/// The journal of a node, which is whole steps.
pub fn journal_of<P>(locked: &LockedNode<P>) -> &[Entry]
    ensures journal { result.now ≡ locked.now.node.journal }
    ensures whole { IsWhole locked.now.node.journal }
{
    locked.told();
    locked.node().journal()
}

/// Tells what the type of each node keeps, as [`LockedNode::told`] does of one. It does nothing.
pub fn tell_all<P>(nodes: &[LockedNode<P>])
    ensures { All IsWellKept nodes.now }
{
    for locked in nodes {
        locked.told();
    }
}

/// Whether a node is one of the cluster's, in a boot from 1 on.
fn is_of_cluster<P>(locked: &LockedNode<P>) -> bool
    ensures { result ≡ is_of_cluster locked.now }
{
    locked.node().own().number().is_some() && locked.node().boot() >= 1
}

/// Whether a node has this address.
fn has_address<P>(locked: &LockedNode<P>, word: u32) -> bool
    ensures { result ≡ (locked.now.node.own == word) }
{
    locked.node().own().word == word
}

/// How many of these nodes have this address.
fn count_with<P>(nodes: &[LockedNode<P>], word: u32) -> usize
    ensures { result ≡ count_by (λ n. n.node.own == word) nodes.now }
{
    nodes
        .iter()
        .filter(|locked| has_address(locked, word))
        .count()
}

/// Whether just one of these nodes has this address.
fn has_one_address<P>(nodes: &[LockedNode<P>], word: u32) -> bool
    ensures { result ≡ has_one_address nodes.now word }
{
    count_with(nodes, word) == 1
}

/// Whether a node is one of the cluster's, in a boot from 1 on, and no other of these nodes has its address.
fn is_fit<P>(nodes: &[LockedNode<P>], locked: &LockedNode<P>) -> bool
    ensures { result ≡ is_fit nodes.now locked.now }
{
    is_of_cluster(locked) && has_one_address(nodes, locked.node().own().word)
}

/// Whether nodes can be audited together: each is one of the cluster's, in a boot from 1 on, and no two have one
/// address.
#[tactic(auto, unfolding(crate::specs::Nodes::can_audit))]
pub fn can_audit<P>(nodes: &[LockedNode<P>]) -> bool
    ensures { result ≡ can_audit nodes.now }
{
    nodes.iter().all(|locked| is_fit(nodes, locked))
}

/// The choosers of the nodes, each at its first turn.
pub fn choosers_of<'n, P: Pick>(
    alloc: Global,
    nodes: &'n [LockedNode<P>],
) -> Result<Vec<Chooser<&'n P>>, NoMemory>
    ensures picks { IfOk result (λ cs. map (λ c. c.pick.now) cs.items ≡ map (λ n. n.chooser.pick) nodes.now) }
    ensures first { IfOk result (λ cs. map (λ c. c.turn) cs.items ≡ replicate (length nodes.now) 0) }
{
    let mut choosers = Vec::with_capacity(alloc, nodes.len())?;
    for locked in nodes {
        choosers.push(locked.chooser().again())?;
    }
    Ok(choosers)
}

/// Adds the nodes to the replay, each in its boot.
pub fn add_nodes<P: Pick>(
    alloc: Global,
    nodes: &[LockedNode<P>],
    replay: &mut Replay,
) -> Result<(), NoMemory>
    requires can { can_audit nodes.now ≡ true }
    requires empty { replay.old ≡ empty_replay }
    ensures { OnOk result (HasFollowed P.gives nodes.now replay.new 0) }
{
    for locked in nodes {
        locked.told();
        replay.add_node(alloc, locked_number(locked), locked.node().boot())?;
    }
    Ok(())
}
