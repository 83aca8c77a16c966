//! What an arrival changes at a pair, and what it gives.

use crate::transitions::TransitionList;
use tipc_header::Packet;
use tipc_reassembly::OpenedList;
use tipc_types::{BroadcastState, Why};

/// A packet as it arrives at a pair, with the two epochs of its envelope.
#[derive(Clone, Copy)]
pub struct Incoming<'a> {
    /// The sender's epoch.
    pub sender_epoch: u64,
    /// This end's epoch, as the sender knows it.
    pub receiver_epoch: u64,
    /// The packet.
    pub packet: Packet<'a>,
    /// The arrival's number at this node.
    pub by: u64,
    /// What fills the broadcast fields of a STATE that is sent.
    pub shown: BroadcastState,
}

/// What an arrival gave. (This project's profile.)
#[derive(Clone, Debug, Drop, PartialEq)]
pub enum PairOutcome {
    /// What came of the packets that were taken, in order.
    Took(OpenedList),
    /// The packet waits until those before it were taken.
    Deferred,
    /// Nothing was taken, and why.
    Ignored(Why),
}

/// What an arrival did to a pair, and what it gave.
#[derive(Clone, Debug, Drop, PartialEq)]
pub struct PairArrival {
    /// What became of the links and the contact.
    pub changes: TransitionList,
    /// What was given.
    pub outcome: PairOutcome,
}
