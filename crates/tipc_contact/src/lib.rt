//! What two nodes know of each other: contact numbers beside the epochs of their link ends.
#![tactic(auto)]

mod contact;
pub mod laws;

pub use contact::{Contact, Standing};
