//! The law of broadcast: one caster over all its boots, and any number of members that join and leave, whatever is
//! lost, repeated or out of order. The calls of the broadcast link (tipc_broadcast) are events of this law.
#![tactic(auto)]

pub mod laws;
