//! Bearers over UDP: frames between nodes as datagrams over the loopback address 127.0.0.1.
#![tactic(auto)]

mod socket;

pub use socket::UdpBearer;

#[cfg(test)]
mod tests;
