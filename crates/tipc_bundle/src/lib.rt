//! Bundles: small packets that wait for a link are put into one, and taken apart where they arrive.
#![tactic(auto)]

mod adding;
mod inner;
mod laws;
mod padding;
mod splitting;

pub use adding::{BundleFault, MOST_PACKET_BYTES, try_add, with_added};
pub use inner::may_be_bundled;
pub use laws::{
    joined_packets_are_a_packet, joined_packets_are_split_again, one_answer_a_bundle,
    one_list_waits, sent_packets_are_split_again,
};
pub use splitting::{SplitFault, split};

/// The bytes of a bundle's header.
const HEADER_BYTES: usize = 40;
