//! Tests of the crates of windows, contacts and link states. They stand apart, so that their proof begins with what those crates have proved.
#![tactic(auto)]

#[cfg(test)]
mod contact;
#[cfg(test)]
mod link_fsm;
#[cfg(test)]
mod recv_window;
#[cfg(test)]
mod send_window;
