//! The name table of a node whose publications are also kept in order of the ranges that they offer, so that a look-up
//! goes through the ranges alone that may have what is asked.
#![tactic(auto)]

mod changes;
mod index;
mod orders;
mod searches;

pub use index::NameIndex;
