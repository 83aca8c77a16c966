//! What a node keeps of a peer: a link end on each of two bearers, the contact that lasts while a link is up, and the
//! message that is begun.
//!
//! - The pair: `pair` (what it is, and its calls), `link_ends` (its two link ends, seen from one of them), `laws` (what its
//!   calls keep).
//! - Arrivals: `link_arrivals` (packets that arrive on a link), `preparing` (what a packet will make of a pair, told before
//!   anything is changed), `changes` (what an arrival changes, and what it gives).
//! - Links that go up and down: `link_changes` (what follows from it), `runs` (the packets of one link, as they travel on
//!   the other one).
//! - What comes of an event: `leaving` (what it has told so far, and the frames that leave), `transitions` (what is told of
//!   links and contact).
#![tactic(auto)]

mod changes;
pub mod laws;
mod leaving;
mod link_arrivals;
mod link_changes;
mod link_ends;
mod pair;
mod preparing;
mod runs;
mod transitions;

pub use changes::{Incoming, PairArrival, PairOutcome};
pub use pair::{Pair, PairArriving};
pub use transitions::{Transition, TransitionList};
