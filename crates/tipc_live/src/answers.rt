//! What an audit answers.

use tipc_journal::Entry;

/// What an audit of nodes found: the first that holds, in this order. (This project's profile.)
#[derive(Debug, Drop, PartialEq)]
pub enum Audit {
    /// This stamp, the least one, stands in two steps.
    Twice {
        /// The stamp.
        stamp: u64,
    },
    /// A pass tells of this call, the first by node, caller and number, otherwise than its node's journal does; or this
    /// is the call behind all that the pass tells, at which it was told that the journal is full, and the journal has
    /// room.
    Told {
        /// The node's number.
        node: u8,
        /// The caller's number.
        caller: u32,
        /// The call's number among those of its caller.
        call: u64,
    },
    /// No frame with the bytes that arrived was sent to that node on that bearer before.
    NoFrame {
        /// The node's number.
        node: u8,
        /// The arrival's number.
        number: u64,
    },
    /// The latest frame with the bytes that arrived was too old.
    TooOld {
        /// The node's number.
        node: u8,
        /// The arrival's number.
        number: u64,
        /// How many numbers were used since it was sent.
        count: u64,
    },
    /// The journal keeps another entry than the replay has at that place, which made that step or has no room for it.
    Differ {
        /// The node's number.
        node: u8,
        /// The place in the journal, from 1.
        place: u64,
        /// The entry that the journal keeps there.
        kept: Entry,
        /// The entry of the replay there: None where it has none.
        replayed: Option<Entry>,
    },
    /// None of these: each step of each journal is what comes of the steps before it.
    Yes,
}
