//! Two sessions and their tunnels carry one list: the law of failover and switch between two parallel links.
#![tactic(auto)]

pub mod laws;
