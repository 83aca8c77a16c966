//! Laws of the link ends of the two nodes of a pair, bearer by bearer: whatever either does, and whatever arrives of
//! all that they ever told each other.
#![tactic(auto)]

pub mod laws;
