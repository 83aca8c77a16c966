//! The audit of nodes.

ghost use Rattle.std.specs.Prelude.{◌≡◌, true, IfOk};
ghost use Rattle.tipc_replay.specs.States.{empty_replay};
ghost use Rattle.tipc_live.specs.Auditing.{Audits};
ghost use Rattle.tipc_live.specs.Nodes.{can_audit};

use crate::answers::Audit;
use crate::following::follow_all;
use crate::keeping::first_twice;
use crate::merging::steps_by_stamp;
use crate::nodes::{add_nodes, choosers_of, tell_all};
use crate::passes::{CallName, first_told};
use std::alloc::Global;
use tipc_node_lock::LockedNode;
use tipc_pick::Pick;
use tipc_replay::Replay;
use tipc_types::NoMemory;

/// Makes all steps of the nodes' journals again in a replay that is empty before, in order of stamp, and tells the
/// first that isn't what its journal keeps; but before that whether a stamp stands twice, or a pass tells a call
/// otherwise. Each node has its own pick, from the first turn on, and a frame that arrived is taken for the latest one
/// with its bytes that was sent to it on that bearer before.
///
/// Each answer is shown by the nodes and the replay, as the clause says. At Yes the replay holds just the journals of
/// the nodes, and what arrived has the bytes that were heard, so what [`Replay::good`] tells of the replay is told of
/// them. It takes the time of the steps, but for the sort by stamp, for the passes, each of which is compared with all
/// steps of its node, and for the frames that are looked at behind the one that arrived.
///
/// # Errors
///
/// Where memory runs out, also for a frame that leaves a node of the replay.
pub fn audit<P: Pick>(
    alloc: Global,
    nodes: &[LockedNode<P>],
    replay: &mut Replay,
) -> Result<Audit, NoMemory>
    requires can { can_audit nodes.now ≡ true }
    requires empty { replay.old ≡ empty_replay }
    ensures { IfOk result (Audits P.gives nodes.now replay.new) }
{
    let steps = steps_by_stamp(alloc, nodes)?;
    if let Some(stamp) = first_twice(steps.as_slice()) {
        return Ok(Audit::Twice { stamp });
    }
    if let Some((node, CallName { caller, call })) = first_told(alloc, nodes)? {
        return Ok(Audit::Told { node, caller, call });
    }
    tell_all(nodes);
    let mut choosers = choosers_of(alloc, nodes)?;
    add_nodes(alloc, nodes, replay)?;
    follow_all(
        replay,
        alloc,
        nodes,
        steps.as_slice(),
        choosers.as_mut_slice(),
    )
}
