//! Tests of the audit of small runs, whose calls one thread makes. They stand apart, so that their proof begins with what the audit's crate
//! has proved.
#![tactic(auto)]

#[cfg(test)]
mod aged;
#[cfg(test)]
mod calling;
#[cfg(test)]
mod calls;
#[cfg(test)]
mod honest;
#[cfg(test)]
mod plays;
#[cfg(test)]
mod twisted;
