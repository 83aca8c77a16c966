//! Tests of a node that threads share. They stand apart, so that their proof begins with what the lock's crate has proved. No clause says that
//! a call which may wait comes back, so each such call is made here.
#![tactic(auto)]

#[cfg(test)]
mod callers;
#[cfg(test)]
mod crowds;
#[cfg(test)]
mod inboxes;
#[cfg(test)]
mod readings;
