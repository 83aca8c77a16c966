//! The name table of a node: the publications that it knows, its own and those of its peers.
#![tactic(auto)]

pub mod laws;
mod names;
mod plain;
mod publications;

pub use names::{MOST_PUBLICATIONS, NameFault, Names, Unknown};
pub use plain::NameTable;
pub use publications::{covering, is_held, named, remove_node, sharing};
