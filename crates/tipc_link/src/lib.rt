//! One link end: it sends packets in order under sequence numbers, again where they are missing, and takes the peer's
//! packets in order, each once.
#![tactic(auto)]

mod arriving;
mod changeover;
mod hearing;
mod joining;
mod laws;
mod link;
mod record;
mod session;
mod taking;

pub use arriving::Arriving;
pub use changeover::{HandedOver, is_tunnel};
pub use hearing::{is_traffic, waiting_bytes};
pub use laws::{a_record_outlives_its_session, two_ends_stay_joined};
pub use link::{Link, LinkArrival, is_down};
