//! What an event does to the state of a link end.

use tipc_types::{Cause, Reply, Why};

/// What a call did to a link end. (This project's profile.)
#[derive(Clone, Copy, Debug, PartialEq, Eq)]
pub enum Change {
    /// Nothing to tell: the end neither went up nor down.
    Stay,
    /// The link went up.
    Up,
    /// The link went down.
    Down(Cause),
    /// A frame is to be sent, as far as the bearer is mended.
    Answer(Reply),
    /// The arrival is ignored, and nothing changed.
    Ignore(Why),
}
