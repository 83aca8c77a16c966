//! The audit of a live run: the journals of its nodes, merged by stamp, are made again step by step, and compared with
//! what comes of it.
//!
//! - `answers` (what an audit answers), `audits` (the audit), `gathered` (what is gathered of a run).
//! - `keeping` (the steps of a journal), `merging` (those of all, in order of stamp).
//! - `telling` (what a caller tells of its calls), `passes` (what all passes tell), `equal` (whether two entries or answers are the same).
//! - `nodes` (the nodes of the replay), `again` (a call that is made again), `differing` (where two journals differ), `following` (each step is
//!   made again and compared).
#![tactic(auto)]

mod again;
mod answers;
mod audits;
mod differing;
mod equal;
mod following;
mod gathered;
mod keeping;
mod merging;
mod nodes;
mod passes;
mod telling;

pub use answers::Audit;
pub use audits::audit;
pub use gathered::Gathered;
pub use nodes::can_audit;
