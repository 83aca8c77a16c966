//! Tunnel packets: when traffic changes over from one link of a pair to the other, the packets of the one travel inside
//! packets of the other.
#![tactic(auto)]

mod inner;
mod laws;
mod unwrapping;
mod wrapping;

/// What an inner packet is at its sender: a duplicate of a packet that its own link keeps, or the original.
pub use inner::may_be_tunnelled;
pub use laws::{
    inner_packets_keep_all_but_the_number, one_tunnel_a_packet, tunnels_are_packets,
    wrapped_packets_are_unwrapped,
};
pub use tipc_header::ChangeoverType as TunnelKind;
pub use unwrapping::{Tunnel, TunnelFault, unwrap_packet};
pub use wrapping::wrap;
