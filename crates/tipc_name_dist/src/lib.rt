//! Publications as they travel: what a node tells its peers of its names, and what it learns of theirs.
#![tactic(auto)]

mod applying;
mod items;
pub mod laws;

pub use applying::{ItemFault, Learnt, apply, told_by};
pub use items::{MOST_ITEMS, bulk, item};
