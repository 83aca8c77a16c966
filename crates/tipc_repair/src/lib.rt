//! Laws of one direction of a session that is made whole again: what is lost on the way is missed, told, sent again,
//! taken and acknowledged.
#![tactic(auto)]

pub mod laws;
