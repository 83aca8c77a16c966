//! The journal of a node: what happened to it in one boot, in order, and the lists that a journal
//! is read for: messages accepted for a peer and delivered from it, and the publications that are there.
#![tactic(auto)]

mod entries;
mod folds;
mod keeping;
mod laws;

pub use entries::{Arrivals, Entry, PortList};
pub use keeping::{
    Journal, JournalFault, MOST_ENTRIES, MOST_MESSAGE_BYTES, SHORT_STEP, entry_bytes,
};
pub use laws::{
    accepted_follows, bytes_add_up, contact_follows, counts_follow, delivered_follows,
    fates_follow, learned_follows, licences_follow, links_follow, live_follows,
    look_ups_are_arranged, names_follow, queues_follow, queues_follow_inside,
    readings_follow_inside, readings_follow_steps, stamps_and_calls_follow, steps_follow,
    subscriptions_follow, transitions_follow, what_is_due_stands_next,
};
