//! Tests of live runs. They stand apart, so that their proof begins with what the crate of the runs has proved. No clause says that a run comes
//! back, that its calls overlap, or which bytes a mover hands on, so these are shown here.
#![tactic(auto)]

#[cfg(test)]
mod audits;
#[cfg(test)]
mod bearers;
#[cfg(test)]
mod gates;
#[cfg(test)]
mod media;
#[cfg(test)]
mod runs;
