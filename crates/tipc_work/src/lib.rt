//! The callers and movers of a live run, each in a thread of its own: callers follow a plan over the locked nodes, and
//! a mover of each node carries frames between the node and its bearers.
//!
//! - `plans` (how many call, and what each of them calls), `workers` (what callers and movers call with, and where).
//! - `callers` (what a caller does), `movers` (what the mover of a node does).
//! - `crews` (those of one node), `runs` (those of all nodes), `nodes` (the locks and passes that a run asks for).
//! - `showing` (whether calls that were made show the plan).
#![tactic(auto)]

mod callers;
mod crews;
mod movers;
mod nodes;
mod plans;
mod runs;
mod showing;
mod workers;

pub use nodes::{Nodes, lock_nodes};
pub use plans::LivePlan;
pub use runs::{Worked, work};
pub use showing::{shows_caller, shows_mover};
