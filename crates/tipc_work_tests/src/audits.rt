//! What is found of a run when it is over.

use crate::runs::Left;
use std::alloc::Global;
use std::process::Abort;
use tipc_live::{Audit, Gathered, can_audit};
use tipc_node_lock::LockedNode;
use tipc_pick::RoundRobin;

/// Two nodes are left, whose journals had room for each call of their callers, so these followed the plan to its end.
fn had_room(rt: &impl Abort, nodes: &[LockedNode<RoundRobin>]) {
    assert!(rt; nodes.len() == 2);
    for node in nodes {
        assert!(rt; node.passes().iter().all(|pass| !pass.is_full()));
    }
}

/// What the audit answers.
fn audited<B: Drop>(rt: &impl Abort, alloc: Global, left: Left<B>) -> Audit {
    let Left { nodes, bearers, .. } = left;
    let mut gathered = Gathered::new(alloc);
    gathered.gather(nodes, bearers);
    if !can_audit(gathered.nodes()) {
        panic!(rt; "nodes that can't be audited together")
    }
    match gathered.audit(alloc) {
        Ok(answer) => answer,
        Err(_) => panic!(rt; "no memory"),
    }
}

/// Two nodes are left, whose callers followed the plan to its end, and the audit answers Yes.
pub fn comes_to_yes<B: Drop>(rt: &impl Abort, alloc: Global, left: Left<B>) {
    had_room(rt, left.nodes.as_slice());
    let answer = audited(rt, alloc, left);
    assert!(rt; answer == Audit::Yes);
}
