//! The calls of a node: who calls, what is called, and how it is answered.

ghost use Rattle.std.specs.Prelude.{◌≡◌, IfOk};

use crate::bodies::Body;
use crate::identity::{Addr, PortId};
use crate::link_words::{LinkState, Why};
use crate::memory::NoMemory;
use crate::message_forms::{Importance, Message};
use crate::services::{Scope, ServiceRange};
use std::alloc::AllocError;

/// Who made a call of a node, and when. (This project's profile.)
#[derive(Clone, Copy, Debug, PartialEq, Eq)]
pub struct By {
    /// The call's place among all calls of all nodes.
    pub stamp: u64,
    /// The caller's number at its node; 0 in a scripted world.
    pub caller: u32,
    /// The call's number among those of its caller, from 0.
    pub call: u64,
}

/// What a subscriber asks for. (Programmer's guide.)
#[derive(Clone, Copy, Debug, PartialEq, Eq)]
pub struct Subscription {
    /// The service type.
    pub range_kind: u32,
    /// The lowest instance.
    pub lower: u32,
    /// The highest instance.
    pub upper: u32,
    /// How many ticks it lasts; 4,294,967,295 is for ever.
    pub timeout: u32,
    /// 1 for an event per publication, 2 for an event per distinct range.
    pub filter: u32,
    /// The subscriber's own bytes.
    pub handle: [u8; 8],
}

/// What a subscriber is told. (Programmer's guide.)
#[derive(Clone, Copy, Debug, PartialEq, Eq)]
pub struct Event {
    /// 1 published, 2 withdrawn, 3 timeout.
    pub what: u32,
    /// The lowest instance that the event is about.
    pub lower: u32,
    /// The highest instance that the event is about.
    pub upper: u32,
    /// The publication's port, or 0.
    pub at_port: u32,
    /// The publication's node as an address word, or 0.
    pub at_node: u32,
    /// The subscription that it belongs to.
    pub subscription: Subscription,
}

/// A call of a node with its arguments, as its journal keeps it.
#[derive(Clone, Debug, Drop, PartialEq)]
pub enum EventNote {
    /// Make a socket.
    Socket,
    /// Close a socket.
    Close {
        /// The socket's port.
        port: u32,
    },
    /// Publish a service range.
    Publish {
        /// The port that offers it.
        port: u32,
        /// What is offered.
        range: ServiceRange,
        /// Who sees it.
        scope: Scope,
        /// The publisher's key.
        key: u32,
    },
    /// Withdraw a publication.
    Withdraw {
        /// The port that offered it.
        port: u32,
        /// The publication's key.
        key: u32,
    },
    /// Send a message by name.
    SendName {
        /// The sending port.
        port: u32,
        /// The service type.
        kind: u32,
        /// The instance.
        instance: u32,
        /// How important it is.
        importance: Importance,
        /// The user's bytes.
        body: Body,
    },
    /// Send a message to a port.
    SendPort {
        /// The sending port.
        port: u32,
        /// The port that it is for.
        to: PortId,
        /// How important it is.
        importance: Importance,
        /// The user's bytes.
        body: Body,
    },
    /// Send a message to every port with an overlapping publication.
    Multicast {
        /// The sending port.
        port: u32,
        /// The service type.
        kind: u32,
        /// The lowest instance.
        lower: u32,
        /// The highest instance.
        upper: u32,
        /// How important it is.
        importance: Importance,
        /// The user's bytes.
        body: Body,
    },
    /// Take a message from a socket's inbox.
    Receive {
        /// The socket's port.
        port: u32,
    },
    /// Subscribe to a service range.
    Subscribe {
        /// What is asked for.
        subscription: Subscription,
    },
    /// Cancel a subscription.
    Cancel {
        /// The subscription's number.
        number: u32,
    },
    /// Take a subscription's next event.
    NextEvent {
        /// The subscription's number.
        number: u32,
    },
    /// A frame arrived.
    Arrive {
        /// The bearer, 0 or 1.
        bearer: u8,
        /// The arrival's number at this node, from 0.
        number: u64,
    },
    /// Time went on by one tick.
    Tick,
    /// A bearer was cut.
    Cut {
        /// The bearer, 0 or 1.
        bearer: u8,
    },
    /// A bearer was mended.
    Mend {
        /// The bearer, 0 or 1.
        bearer: u8,
    },
}

/// What became of a frame that arrived.
#[derive(Clone, Copy, Debug, PartialEq, Eq)]
pub enum Arrival {
    /// So many messages were delivered.
    Took(u32),
    /// The packet is kept until the ones before it have come.
    Deferred,
    /// Nothing was taken, and why.
    Ignored(Why),
}

/// The link ends that a node has to one peer.
#[derive(Copy, Debug, PartialEq, Eq)]
pub struct PeerLinks {
    /// The peer.
    pub peer: Addr,
    /// The state of the link end on bearer 0: None where there is none.
    pub first: Option<LinkState>,
    /// The state of the link end on bearer 1: None where there is none.
    pub second: Option<LinkState>,
}

impl Clone for PeerLinks {
    ghost use Rattle.std.specs.Prelude.{◌≡◌};

    ghost is_clone = { λ x y. y ≡ x };

    fn clone(&self) -> Result<PeerLinks, AllocError> {
        Ok(*self)
    }
}

/// The answer of an event, as it is printed. A journal keeps the answer of each call and each arrival at its node;
/// `TooOld` and `NoFrame` are a world's, for an arrival that reaches no node.
#[derive(Clone, Debug, Drop, PartialEq)]
pub enum Answer {
    /// Done, with nothing to tell.
    Done,
    /// A socket was made at this port.
    Socket(u32),
    /// A message by name was sent to this port.
    SentTo(PortId),
    /// A message was sent.
    Sent,
    /// A message was taken from the inbox: this one.
    Received(Message),
    /// A message was taken from the inbox; a journal keeps no more of it.
    Got,
    /// The inbox is empty.
    Empty,
    /// A subscription has this number.
    Subscribed(u32),
    /// The next event of a subscription.
    Next(Event),
    /// No event is left.
    NoEvent,
    /// What became of a frame.
    Arrived(Arrival),
    /// The frame is too old: so many packets were numbered since it was sent.
    TooOld(u64),
    /// There is no such frame for that node.
    NoFrame,
    /// There is no such socket.
    NoSocket,
    /// The body has this length, which is over 66,000.
    TooLong(u64),
    /// The lower bound is above the upper.
    BadRange,
    /// The filter is neither 1 nor 2.
    BadFilter,
    /// No publication matches.
    NoName,
    /// There is no contact with the destination.
    NoNode,
    /// Too many packets wait for that importance.
    Congested {
        /// The packets that are unacknowledged.
        in_flight: u32,
        /// The packets that wait.
        waiting: u32,
    },
    /// Too many packets wait at a peer for one more name item.
    NamesCongested {
        /// The peer's number.
        peer: u8,
        /// The packets that wait.
        waiting: u32,
    },
    /// The service type is below 64.
    Reserved,
    /// The key is in use at this node.
    Duplicate(u32),
    /// The limit of this number is reached.
    Full(u32),
    /// The named key or number isn't there.
    Unknown,
}

impl Answer {
    /// An equal answer.
    pub fn copy(&self) -> Result<Answer, NoMemory>
        ensures { IfOk result (λ answer. answer ≡ self.now) }
    {
        Ok(self.clone()?)
    }
}
