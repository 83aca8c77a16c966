//! Tests of the crates that threads share: stamps and inboxes. They stand apart, so that their proof begins with what those crates have
//! proved. No clause says that a call which may wait comes back, so each such call is made here.
#![tactic(auto)]

#[cfg(test)]
mod inboxes;
#[cfg(test)]
mod stamps;
