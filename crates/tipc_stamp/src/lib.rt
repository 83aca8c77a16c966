//! Stamps: numbers that threads draw one after another, each once, and from which the order of their calls is read.
#![tactic(auto)]

pub mod laws;
mod rule;
mod stamps;

pub use stamps::{Spent, StampSeat, Stamps};
