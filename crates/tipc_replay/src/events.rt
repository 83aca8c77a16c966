//! What may happen to nodes and the air between them.

ghost use Rattle.std.specs.Prelude.{◌≡◌};
ghost use Rattle.tipc_replay.specs.Calls.{is_of_user, is_recorded, may_end_contact, node_of};

use tipc_types::EventNote;

/// What may happen to a node.
#[derive(Clone, Debug, Drop, PartialEq)]
pub enum WorldEvent {
    /// A node is restarted: it keeps nothing, its bearers are cut, and its boot number is the next one.
    Restart {
        /// The node's number.
        node: u8,
    },
    /// A call of a node, which its journal records: a user's, a tick, or a bearer is cut or mended.
    Call {
        /// The node's number.
        node: u8,
        /// The call.
        call: EventNote,
    },
    /// A frame of a bearer's air arrives.
    Arrive {
        /// The node's number.
        node: u8,
        /// The bearer, 0 or 1.
        bearer: u8,
        /// The frame's place in the air of that bearer, from 0.
        frame: u64,
    },
}

impl WorldEvent {
    /// The number of the node at which it happens.
    pub fn node(&self) -> u8
        ensures { result ≡ node_of self.now }
    {
        match self {
            WorldEvent::Restart { node } => *node,
            WorldEvent::Call { node, .. } => *node,
            WorldEvent::Arrive { node, .. } => *node,
        }
    }

    /// Whether the node's journal records it as a call: a restart alone isn't one.
    pub fn is_recorded(&self) -> bool
        ensures { result ≡ is_recorded self.now }
    {
        match self {
            WorldEvent::Restart { .. } => false,
            WorldEvent::Call { .. } => true,
            WorldEvent::Arrive { .. } => true,
        }
    }

    /// Whether a contact of its node may end in it: in no call of a user.
    pub(crate) fn may_end_contact(&self) -> bool
        ensures { result ≡ may_end_contact self.now }
    {
        match self {
            WorldEvent::Restart { .. } => true,
            WorldEvent::Call { node: _, call } => !is_of_user(call),
            WorldEvent::Arrive { .. } => true,
        }
    }
}

/// Whether a call is one of a user: it is no tick, cuts or mends no bearer, and nothing arrives in it.
fn is_of_user(call: &EventNote) -> bool
    ensures { result ≡ is_of_user call.now }
{
    match call {
        EventNote::Tick => false,
        EventNote::Cut { .. } => false,
        EventNote::Mend { .. } => false,
        EventNote::Arrive { .. } => false,
        EventNote::Socket => true,
        EventNote::Close { .. } => true,
        EventNote::Publish { .. } => true,
        EventNote::Withdraw { .. } => true,
        EventNote::SendPort { .. } => true,
        EventNote::SendName { .. } => true,
        EventNote::Multicast { .. } => true,
        EventNote::Receive { .. } => true,
        EventNote::Subscribe { .. } => true,
        EventNote::Cancel { .. } => true,
        EventNote::NextEvent { .. } => true,
    }
}
