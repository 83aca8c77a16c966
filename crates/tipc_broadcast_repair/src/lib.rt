//! Laws of a broadcast that is made whole again: what a member lost on the way is missed, told, sent again, taken and
//! acknowledged.
#![tactic(auto)]

pub mod laws;
