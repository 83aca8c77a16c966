//! Two nodes with a pair each: what each sends the other in a contact, and how the other one stands to it.
#![tactic(auto)]

pub mod laws;
