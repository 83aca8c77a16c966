//! Packets that are kept or taken, with where they came from.

use crate::few::Few;
use crate::sequences::{Bytes, Sequence};

/// A packet that is unacknowledged, beside its link sequence number.
#[derive(Clone, Debug, Drop, PartialEq)]
pub struct Kept {
    /// The sequence number, modulo 65,536.
    pub number: u16,
    /// The packet as it was offered.
    pub packet: Bytes,
}

/// Unacknowledged packets in order.
pub type KeptList = Sequence<Kept>;

/// A packet that a link took in order, beside the arrival that brought it.
#[derive(Clone, Debug, Drop, PartialEq)]
pub struct Taken {
    /// The sequence number, modulo 65,536.
    pub number: u16,
    /// The packet.
    pub packet: Bytes,
    /// The arrival number of its frame at this node.
    pub by: u64,
}

/// Packets that were taken, in order.
pub type TakenList = Few<Taken>;
