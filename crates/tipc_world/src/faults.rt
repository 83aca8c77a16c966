//! The limits at which a world stops, and why an event has no answer.

ghost use Rattle.std.specs.Prelude.{◌≡◌};

use std::alloc::AllocError;
use tipc_node::NodeFault;
use tipc_types::NoMemory;

/// A limit of a world. (This project's profile.)
#[derive(Clone, Copy, Debug, PartialEq, Eq)]
pub enum Limit {
    /// 300,000 events.
    Events,
    /// 100,000 frames in the air of both bearers together.
    Frames,
    /// 1,048,576 entries of a journal: it is reached where one has no room for a call.
    Journal,
}

/// Why an event has no answer. What is said of changes here is said of one event: where a call makes several, as
/// `World::arrive` and `World::settle` do, those before it happened.
#[derive(Clone, Copy, Debug, PartialEq, Eq)]
pub enum WorldFault {
    /// A limit was reached. At Events and Journal nothing is changed; at Frames the event happened, and the air has
    /// passed its limit.
    Limit(Limit),
    /// Memory ran out. Nothing is changed by the event. `World::settle` answers so too where all its rounds were made
    /// and a frame was lost, in one of them or before.
    NoMemory,
}

impl From<NoMemory> for WorldFault {
    ghost use Rattle.tipc_world.specs.declared.faults.WorldFault.{WorldFault};

    ghost from_gives = { λ _ e. e ≡ WorldFault.NoMemory };

    fn from(_error: NoMemory) -> WorldFault {
        WorldFault::NoMemory
    }
}

impl From<AllocError> for WorldFault {
    ghost use Rattle.tipc_world.specs.declared.faults.WorldFault.{WorldFault};

    ghost from_gives = { λ _ e. e ≡ WorldFault.NoMemory };

    fn from(_error: AllocError) -> WorldFault {
        WorldFault::NoMemory
    }
}

impl From<NodeFault> for WorldFault {
    ghost use Rattle.tipc_world.specs.declared.faults.Limit.{Limit};
    ghost use Rattle.tipc_world.specs.declared.faults.WorldFault.{WorldFault};
    ghost use Rattle.tipc_node.specs.declared.steps.NodeFault.{NodeFault};
    ghost use Rattle.tipc_world.specs.Events.{fault_of};

    ghost from_gives = { λ fault e. e ≡ fault_of fault };

    fn from(error: NodeFault) -> WorldFault {
        match error {
            NodeFault::JournalFull => WorldFault::Limit(Limit::Journal),
            NodeFault::NoMemory => WorldFault::NoMemory,
        }
    }
}
