//! Tests of the crates of scripts, reports and generated load, and of what is outside. They stand apart, so that their proof begins with what those crates have proved.
#![tactic(auto)]

#[cfg(test)]
mod bearers;
#[cfg(test)]
mod load;
#[cfg(test)]
mod outside;
#[cfg(test)]
mod report;
#[cfg(test)]
mod script;
