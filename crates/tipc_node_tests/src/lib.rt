//! Tests of what a node makes of any bytes that arrive, and of calls that were promised their memory. They stand apart, so that their proof begins with what the crates below have proved.
#![tactic(auto)]

#[cfg(test)]
mod frames;
#[cfg(test)]
mod hostile;
#[cfg(test)]
mod peers;
#[cfg(test)]
mod promising;
