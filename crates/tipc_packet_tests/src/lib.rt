//! Tests of the crates that make and read packets. They stand apart, so that their proof begins with what those crates have proved.
#![tactic(auto)]

#[cfg(test)]
mod bundle;
#[cfg(test)]
mod discovery;
#[cfg(test)]
mod fragments;
#[cfg(test)]
mod header;
#[cfg(test)]
mod message;
#[cfg(test)]
mod reassembly;
#[cfg(test)]
mod tunnel;
#[cfg(test)]
mod types;
