//! The states of a link end: how epochs, RESET, ACTIVATE, traffic, ticks and cuts take a link up and down.
//! Nothing here takes memory.
#![tactic(auto)]

mod changes;
mod ends;
mod laws;

pub use changes::Change;
pub use ends::LinkFsm;
pub use laws::{each_epoch_is_up_at_most_once, epochs_rise, up_with_the_epoch_that_was_told};
