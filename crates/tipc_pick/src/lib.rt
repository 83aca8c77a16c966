//! Choosing one of several, for messages that are sent by name: a closure that the program gives is asked at each turn,
//! and whatever it is, its choice is one of those that there are.
#![tactic(auto)]

mod chooser;
pub mod laws;
mod picks;
mod stored;
mod turns;

pub use chooser::Chooser;
pub use picks::{MOST_CHOICES, Pick};
pub use stored::{PickClosure, StoredPick};
pub use turns::RoundRobin;
