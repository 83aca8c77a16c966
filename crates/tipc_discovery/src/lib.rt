//! Discovery: which nodes of the cluster were heard on which bearer, and the packets by which nodes find each other.
#![tactic(auto)]

mod laws;
mod neighbours;

pub use laws::a_neighbour_is_new_once;
pub use neighbours::{Found, NETWORK, Neighbours, is_of_network};
