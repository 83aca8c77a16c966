//! Laws of what happens while a cluster settles: time passes, frames arrive, and no link goes down.
#![tactic(auto)]

pub mod goings;
pub mod loads;
pub mod repairs;
pub mod stillness;
