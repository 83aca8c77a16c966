//! Nodes over all their boots and the air between them: everything that may happen to them, by any caller and any
//! chooser, and the promise that holds of them whatever is done.
//!
//! - The whole: `replays` (nodes and the air between them, and what may happen to them), `events` (what that is).
//! - Its parts: `members` (a node over all its boots, with their journals), `air` (frames that were sent, and frames that
//!   arrived), `flying` (frames that leave a node, and those that arrive).
//! - What is told of it: `readers` (of nodes and the air), `tables` (the publications of a node, in order).
#![tactic(auto)]

mod air;
mod events;
mod flying;
mod members;
mod readers;
mod replays;
mod tables;

pub use air::{Arrived, Sent};
pub use events::WorldEvent;
pub use readers::FlowCounts;
pub use replays::{Happened, Replay, ReplayFault};
