//! What is told of the links and the contact of a pair.

use tipc_types::{Cause, LinkState, Sequence};

/// A link of a pair went up or down, or the contact began or ended. A contact is two contact numbers: the node's own,
/// then the peer's. (This project's profile.)
#[derive(Clone, Copy, Debug, PartialEq, Eq)]
pub enum Transition {
    /// A link went up.
    LinkUp {
        /// Its bearer, 0 or 1.
        bearer: u8,
        /// The node's own epoch.
        own_epoch: u64,
        /// The peer's epoch.
        peer_epoch: u64,
    },
    /// A link went down.
    LinkDown {
        /// Its bearer, 0 or 1.
        bearer: u8,
        /// Why it went down.
        cause: Cause,
        /// The epoch that the peer's frame showed, for the causes PeerReset and PeerTunnel; else 0.
        shown_epoch: u64,
    },
    /// The contact began.
    ContactUp {
        /// The contact.
        contact: (u64, u64),
    },
    /// The contact ended.
    ContactDown {
        /// The contact.
        contact: (u64, u64),
        /// The states of the link ends on bearer 0 and on bearer 1, where there is one.
        states: (Option<LinkState>, Option<LinkState>),
        /// The higher contact number that the peer showed, or 0 where it showed none.
        shown: u64,
    },
}

/// What happened to the links and the contact of a pair, in order.
pub type TransitionList = Sequence<Transition>;
