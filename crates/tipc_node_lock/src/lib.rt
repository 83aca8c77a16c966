//! A node behind a lock, for threads that call it at once. Each call is made whole under the lock and is one step of
//! the node's journal, under a stamp that orders the calls of all threads.
//!
//! - The lock: `locks` (what threads share, and its calls), `passes` (what each of them calls with).
//! - Behind it: `locked` (the node with what its calls need, and what is done for one call: its section), `moves` (what moves messages to the
//!   inboxes behind a call).
//! - Beside it: `inboxes` (what is given behind the lock, and taken by a pass without it).
//! - `counts` (how often each caller was answered), `notes` (what a pass keeps of a call), `faults` (why a call wasn't made).
#![tactic(auto)]

mod counts;
mod faults;
mod inboxes;
mod locked;
mod locks;
mod moves;
mod notes;
mod passes;

pub use faults::LockFault;
pub use inboxes::{NoSocket, Place, PortTaker};
pub use locked::LockedNode;
pub use locks::NodeLock;
pub use passes::{MadeCall, Pass};
