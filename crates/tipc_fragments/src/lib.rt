//! Fragments: a message that is too long for one packet is cut into pieces, each in a packet of its own, and the
//! pieces are joined again where they come.
#![tactic(auto)]

mod cutting;
mod joining;
pub mod laws;

pub use cutting::{FRAGMENT_BYTES, LEAST_CUT, MOST_CUT, cut};
pub use joining::{Arrivals, JoinFault, Joined, Joiner};
/// Which fragment of its message one is: the first, a middle one, or the last.
pub use tipc_header::FragmentType as FragmentKind;
