//! One node: its neighbours, its sockets and its journal. Each call is one step of the journal.
//!
//! - The node: `nodes` (what it is, and what it promises), `cores` (its parts, ticks and bearers), `laws` (what each of its turns keeps).
//! - Calls: `calls` (on sockets, names and subscriptions), `sends` (those that send a message to one port), `multicasts` (the one that
//!   sends to many).
//! - Names: `tellings` (what peers are told), `items` (what a peer tells).
//! - Sends: `messages` (what a user sends, its limits, its packets).
//! - Discovery: `discovery` (who is there is asked and answered, and a peer that is new gets its link end).
//! - Arrivals: `frames` (what a frame is, and what it delivers), `arrivals` (what an arrival makes of a node), `packets`
//!   (what a peer's packet makes of what is kept of the peer), `consequences` (what follows from it), `deliveries` (what
//!   was delivered, one after the other), `sure` (the same where each message surely waits).
//! - Broadcast: `casting` (what contacts and STATEs make of the broadcast link), `casts` (a broadcast packet that arrives).
//! - Fates: `fates` (a message's fate, or its way on a link).
//! - The step: `drafts` (what a node works on), `steps` (how it is recorded), `neighbours` (the peers, and what a call
//!   does at each).
#![tactic(auto)]

mod arrivals;
mod calls;
mod casting;
mod casts;
mod consequences;
mod cores;
mod deliveries;
mod discovery;
mod drafts;
mod fates;
mod frames;
mod items;
mod laws;
mod messages;
mod multicasts;
mod neighbours;
mod nodes;
mod packets;
mod sends;
mod steps;
mod sure;
mod tellings;

pub use laws::{link_ends_stay_right, numbers_never_fall, originals_name_ended_sessions};
pub use neighbours::Neighbour;
pub use nodes::Node;
pub use steps::NodeFault;
