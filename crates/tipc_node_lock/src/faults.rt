//! Why a locked call wasn't made.

ghost use Rattle.std.specs.Prelude.{◌≡◌};

use std::alloc::{AllocError, AllocFailed};
use tipc_node::NodeFault;
use tipc_types::NoMemory;

/// Why a locked call wasn't made. Nothing behind the lock is changed then.
#[derive(Clone, Copy, Debug, PartialEq, Eq)]
pub enum LockFault {
    /// The node didn't make it: its journal has no room for a call, or memory ran out.
    Node(NodeFault),
    /// The caller's seat drew all its stamps.
    Spent,
}

impl From<NodeFault> for LockFault {
    ghost use Rattle.tipc_node_lock.specs.declared.faults.LockFault.{LockFault};

    ghost from_gives = { λ fault e. e ≡ LockFault.Node fault };

    fn from(fault: NodeFault) -> LockFault {
        LockFault::Node(fault)
    }
}

impl From<NoMemory> for LockFault {
    ghost use Rattle.tipc_node.specs.declared.steps.NodeFault.{NodeFault};
    ghost use Rattle.tipc_node_lock.specs.declared.faults.LockFault.{LockFault};

    ghost from_gives = { λ _ e. e ≡ LockFault.Node NodeFault.NoMemory };

    fn from(_error: NoMemory) -> LockFault {
        LockFault::Node(NodeFault::NoMemory)
    }
}

impl From<AllocError> for LockFault {
    ghost use Rattle.tipc_node.specs.declared.steps.NodeFault.{NodeFault};
    ghost use Rattle.tipc_node_lock.specs.declared.faults.LockFault.{LockFault};

    ghost from_gives = { λ _ e. e ≡ LockFault.Node NodeFault.NoMemory };

    fn from(_error: AllocError) -> LockFault {
        LockFault::Node(NodeFault::NoMemory)
    }
}

impl<T: Drop> From<AllocFailed<T>> for LockFault {
    ghost use Rattle.tipc_node.specs.declared.steps.NodeFault.{NodeFault};
    ghost use Rattle.tipc_node_lock.specs.declared.faults.LockFault.{LockFault};

    ghost from_gives = { λ _ e. e ≡ LockFault.Node NodeFault.NoMemory };

    fn from(_error: AllocFailed<T>) -> LockFault {
        LockFault::Node(NodeFault::NoMemory)
    }
}
