//! Inboxes: messages that one thread hands to another, in order, at most 128 at a time.
#![tactic(auto)]

mod inbox;
pub mod laws;
mod rule;

pub use inbox::{Giver, Inbox, Taker};
