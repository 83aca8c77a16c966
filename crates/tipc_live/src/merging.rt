//! The steps of all nodes, in order of stamp.

ghost use Rattle.std.specs.Prelude.{◌≡◌, IfOk};
ghost use Rattle.std.specs.List.Sorted.{IsNonDecreasingBy, IsPermutation};
ghost use Rattle.tipc_live.specs.Keeping.{stamp_of};
ghost use Rattle.tipc_live.specs.Stamping.{kept_from};

use crate::keeping::{KeptStep, add_steps};
use crate::nodes::journal_of;
use std::alloc::Global;
use tipc_node_lock::LockedNode;
use tipc_types::NoMemory;

/// The steps of all nodes, node by node.
fn steps_of<P>(alloc: Global, nodes: &[LockedNode<P>]) -> Result<Vec<KeptStep>, NoMemory>
    ensures { IfOk result (λ steps. steps.items ≡ kept_from 0 nodes.now) }
{
    let mut steps = Vec::new(alloc);
    for node in 0..nodes.len() {
        add_steps(&mut steps, journal_of(&nodes[node]), node)?;
    }
    Ok(steps)
}

/// The steps of all nodes, in order of stamp.
pub fn steps_by_stamp<P>(alloc: Global, nodes: &[LockedNode<P>]) -> Result<Vec<KeptStep>, NoMemory>
    ensures all { IfOk result (λ steps. IsPermutation (kept_from 0 nodes.now) steps.items) }
    ensures order { IfOk result (λ steps. IsNonDecreasingBy stamp_of steps.items) }
{
    let mut steps = steps_of(alloc, nodes)?;
    steps.sort_by_key(|step| step.by.stamp)?;
    Ok(steps)
}
