//! Tests of the crates of sockets, names and subscriptions, and of journals. They stand apart, so that their proof begins with what those crates have proved.
//! What a module asserts stands in tables of calls and of what they answer, so that the prover sees one loop, and not a chain of calls.
#![tactic(auto)]

#[cfg(test)]
mod journal;
#[cfg(test)]
mod name_dist;
#[cfg(test)]
mod name_table;
#[cfg(test)]
mod pick;
#[cfg(test)]
mod places;
#[cfg(test)]
mod ports;
#[cfg(test)]
mod sockets;
#[cfg(test)]
mod topology;
