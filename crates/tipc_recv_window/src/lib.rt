//! The receiving side of one direction of a link: the packet that is wanted, those behind it that came early, and
//! what becomes of an arrival.
#![tactic(auto)]

pub mod laws;
mod outcomes;
mod window;

pub use outcomes::{LinkOutcome, Place};
pub use window::{RecvWindow, WINDOW, WindowArrival};
