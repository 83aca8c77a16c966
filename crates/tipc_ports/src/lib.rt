//! Port numbers: which ports of a node are there, and the number of the next one.
#![tactic(auto)]

mod laws;
mod ports;

pub use laws::numbers_are_not_used_again;
pub use ports::{MOST_MADE, MOST_PORTS, PortFault, Ports, Unknown};
