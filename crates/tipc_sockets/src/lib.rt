//! The sockets of one node: what is published at them, what waits at them, and what becomes of a message.
#![tactic(auto)]

mod fates;
pub mod laws;
mod publishing;
mod queues;
mod sockets;
mod spreading;

pub use fates::{Fate, port_of};
pub use publishing::{PublishFault, WithdrawFault};
pub use queues::MOST_MESSAGES;
pub use sockets::{Sockets, Table};
pub use spreading::Spreading;
