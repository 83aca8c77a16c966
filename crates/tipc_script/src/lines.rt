//! What a line of a script asks for.

ghost use Rattle.std.specs.Prelude.{◌≡◌, ◌∷◌, [], IfErr, IfOk};

use crate::faults::LineFault;
use std::alloc::Global;
use tipc_types::{Body, EventNote, Sequence};

/// How a line that sends tells whom its message is for.
#[derive(Clone, Copy, Debug, PartialEq, Eq)]
pub enum SendForm {
    /// By the name of a service.
    Name,
    /// By a port of a node.
    Port,
    /// By a range of a service, to all who offer an instance of it.
    Cast,
}

/// Of which changes a subscriber is told. (Programmer's guide.)
#[derive(Clone, Copy, Debug, PartialEq, Eq)]
pub(crate) enum Filter {
    /// Of each publication and each withdrawal.
    Ports,
    /// Of the first publication and the last withdrawal of each distinct range.
    Service,
}

/// What a line of a script asks for. Nodes have numbers from 1 to 32, and a bearer is 0 or 1. (This
/// project's profile.)
#[derive(Clone, Debug, Drop, PartialEq)]
pub enum Line {
    /// Nothing: the line is empty or begins with `#`.
    Nothing,
    /// A node is to be made.
    Node {
        /// The node.
        node: u8,
    },
    /// A node is called.
    Call {
        /// The node.
        node: u8,
        /// The call.
        call: EventNote,
    },
    /// A node is called again and again, until a message isn't sent.
    Repeat {
        /// How many times at most, from 1 to 1,000,000.
        times: u32,
        /// The node.
        node: u8,
        /// The call, which sends a message.
        call: EventNote,
    },
    /// A node would be called with a range that has no instance: the lowest is above the highest.
    BadRange {
        /// The node.
        node: u8,
    },
    /// A node is to be restarted.
    Restart {
        /// The node.
        node: u8,
    },
    /// A link between two nodes.
    Link {
        /// The one node.
        first: u8,
        /// The other node, which may be the same.
        second: u8,
        /// The bearer.
        bearer: u8,
    },
    /// Frames are counted from here on.
    Mark,
    /// A frame arrives.
    Arrive {
        /// The node that it arrives at.
        node: u8,
        /// The bearer.
        bearer: u8,
        /// The frame's number since the last mark, from 0 to 1,000,000.
        frame: u64,
    },
    /// Messages are taken from a socket until none is left.
    Drain {
        /// The node.
        node: u8,
        /// The socket's port.
        port: u32,
    },
    /// The frames of a bearer arrive until none is left.
    Pump {
        /// The bearer.
        bearer: u8,
    },
    /// A message of low importance is sent, frames are pumped and a message is taken, again and again until no message
    /// came.
    Burst {
        /// The sending node.
        node: u8,
        /// The sending port.
        port: u32,
        /// The node that it is for.
        to_node: u8,
        /// The port that it is for.
        to_port: u32,
        /// How many times at most, from 1 to 1,000,000.
        times: u32,
        /// The user's bytes.
        body: Body,
    },
    /// The nodes go on until no packet is under way, for so many rounds at most.
    Settle {
        /// How many rounds, from 0 to 1,000,000.
        rounds: u32,
    },
    /// The frames of a bearer since the last mark are counted.
    Air {
        /// The bearer.
        bearer: u8,
    },
    /// A frame is shown.
    Show {
        /// The bearer.
        bearer: u8,
        /// The frame's number since the last mark, from 0 to 1,000,000.
        frame: u64,
    },
    /// The link ends of a node are shown.
    Links {
        /// The node.
        node: u8,
    },
    /// The publications that a node knows are shown.
    Table {
        /// The node.
        node: u8,
    },
    /// The messages from one node to another are counted.
    Flow {
        /// The node that accepted them.
        from: u8,
        /// The node that they were delivered at.
        to: u8,
    },
}

/// A token that names a node of which something is asked.
#[derive(Clone, Copy, Debug, PartialEq, Eq)]
pub struct NodeToken {
    /// The token's byte place in the line, from 1.
    pub place: u32,
    /// The node's number.
    pub node: u8,
    /// Whether the node has to be there; else it mustn't be.
    pub there: bool,
}

/// A line that is in the grammar.
#[derive(Debug, Drop)]
pub struct Command {
    /// What it asks for.
    pub line: Line,
    /// The nodes that it asks something of, from the left.
    pub nodes: Sequence<NodeToken>,
}

impl Command {
    /// A line that asks something of these nodes.
    pub(crate) fn new(alloc: Global, line: Line, nodes: &[NodeToken]) -> Result<Command, LineFault>
        ensures ok { IfOk result (λ c. (c.line ≡ line) × (c.nodes ≡ nodes.now)) }
        ensures err { IfErr result (λ fault. fault ≡ LineFault.NoMemory) }
    {
        Ok(Command {
            line,
            nodes: Sequence::from_slice(alloc, nodes)?,
        })
    }

    /// A line that calls a node.
    pub(crate) fn call(
        alloc: Global,
        node: NodeToken,
        call: EventNote,
    ) -> Result<Command, LineFault>
        ensures ok { IfOk result (λ c. (c.line ≡ Line.Call node.node call) × (c.nodes ≡ node ∷ [])) }
        ensures err { IfErr result (λ fault. fault ≡ LineFault.NoMemory) }
    {
        let line = Line::Call {
            node: node.node,
            call,
        };
        Command::new(alloc, line, &[node])
    }
}
