//! The broadcast link of a node: one stream of packets, numbered once, to all peers in contact.
#![tactic(auto)]

mod arriving;
mod broadcast;
mod contacts;
mod frames;
pub mod laws;
mod receiving;

pub use arriving::CastArriving;
pub use broadcast::Broadcast;
