//! The sending side of one direction of a link: packets that wait, a window of at most 50 packets that are
//! numbered and unacknowledged, and acknowledgements that release them.
#![tactic(auto)]

pub mod laws;
mod window;

pub use window::{OfferFault, SendWindow, WINDOW};
