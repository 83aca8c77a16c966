//! The entries of a journal: what a node records of each step.

use tipc_types::{
    Addr, Answer, By, Cause, EventNote, Few, Flow, LinkState, Message, Publication, Subscription,
};

/// Arrival numbers in order.
pub type Arrivals = Few<u64>;

/// Port numbers in order.
pub type PortList = Few<u32>;

/// One thing that happened at a node. A step of the node is a `Step`, the entries after it, and the
/// `Answered` that ends it. (This project's profile.)
///
/// A contact is two contact numbers: this node's, then the peer's.
#[derive(Clone, Debug, Drop, PartialEq)]
pub enum Entry {
    /// A call of the node began.
    Step {
        /// Who made it, and when.
        by: By,
        /// The call and its arguments.
        event: EventNote,
    },
    /// A message was given to the links for a peer.
    Accepted {
        /// The peer.
        peer: Addr,
        /// The contact.
        contact: (u64, u64),
        /// The flow.
        flow: Flow,
        /// The message.
        message: Message,
    },
    /// A message of a peer was taken whole.
    Delivered {
        /// The peer.
        peer: Addr,
        /// The contact.
        contact: (u64, u64),
        /// The flow.
        flow: Flow,
        /// The message.
        message: Message,
        /// The arrival numbers of the frames by which its packets were taken.
        by: Arrivals,
    },
    /// This node published.
    Published {
        /// The publication.
        publication: Publication,
    },
    /// This node withdrew a publication.
    Withdrawn {
        /// The publication.
        publication: Publication,
    },
    /// A peer's publication was learned.
    Learned {
        /// The publication, whose port is at the peer.
        publication: Publication,
    },
    /// A peer withdrew a publication.
    Forgot {
        /// The publication, whose port is at the peer.
        publication: Publication,
    },
    /// A link went up.
    LinkUp {
        /// The peer.
        peer: Addr,
        /// The bearer, 0 or 1.
        bearer: u8,
        /// This end's epoch.
        own_epoch: u64,
        /// The peer's epoch.
        peer_epoch: u64,
    },
    /// A link went down.
    LinkDown {
        /// The peer.
        peer: Addr,
        /// The bearer, 0 or 1.
        bearer: u8,
        /// Why.
        cause: Cause,
        /// The epoch that the peer showed, for the causes PeerReset and PeerTunnel; else 0.
        shown: u64,
    },
    /// A contact began.
    ContactUp {
        /// The peer.
        peer: Addr,
        /// The contact.
        contact: (u64, u64),
    },
    /// A contact ended.
    ContactDown {
        /// The peer.
        peer: Addr,
        /// The contact.
        contact: (u64, u64),
        /// The states of the link ends on bearer 0 and on bearer 1, where there is one.
        states: (Option<LinkState>, Option<LinkState>),
        /// The higher contact number that the peer showed, or 0 where it showed none.
        shown: u64,
    },
    /// The message before it was queued to these ports.
    Queued {
        /// The ports, rising.
        ports: PortList,
    },
    /// The message before it was returned to its sender.
    Returned {
        /// Why: 1 no name, 2 no port, 3 no node, 4 overload, 5 shut down.
        code: u8,
    },
    /// The message before it could be neither queued nor returned.
    ReturnDropped {
        /// The packets that wait on the link to the sender, or 0 without contact.
        waiting: u32,
    },
    /// A message or a part of a packet was dropped.
    Dropped {
        /// The place in the body at which it couldn't be read, or 0.
        place: u32,
    },
    /// A subscription began.
    Subscribed {
        /// Its number.
        number: u32,
        /// What was asked for.
        subscription: Subscription,
    },
    /// A subscription was cancelled.
    Cancelled {
        /// Its number.
        number: u32,
    },
    /// A subscription timed out.
    TimedOut {
        /// Its number.
        number: u32,
    },
    /// A call of the node ended.
    Answered {
        /// The caller's number.
        caller: u32,
        /// The call's number among those of its caller.
        call: u64,
        /// What it answered. Of a message that was received it tells only that there was one.
        answer: Answer,
    },
}
