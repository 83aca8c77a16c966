//! Messages as packets, and packets as messages.
#![tactic(auto)]

mod distribution;
mod encoding;
mod laws;
mod wire;

pub use laws::messages_are_read_again;
pub use wire::{message_from, packet_bytes};
