//! A world of nodes: everything that a script may do to them, and the promise that holds of it whatever is done.
//!
//! - The world: `worlds` (what it is, and its events), `faults` (its limits, and why an event has no answer), `readers`
//!   (what is told of it).
//! - Settling: `settling` (frames that arrive, and rounds of ticks and arrivals), `places` (a place in the air of each
//!   bearer).
//! - Laws: `laws` (of the rounds in which a world settles), `repairs` (of packets that were lost).
#![tactic(auto)]

mod faults;
mod laws;
mod places;
mod readers;
mod repairs;
mod settling;
mod worlds;

pub use faults::{Limit, WorldFault};
pub use laws::{
    a_new_world_comes_up, a_poised_world_hears_itself, a_poised_world_stays_calm,
    each_frame_arrives_once_a_round, each_node_ticks_once_a_round, links_that_come_up_are_answered,
    no_packets_are_quiet, nothing_goes_down_in_a_round, rounds_have_their_parts,
    settling_goes_by_events, what_a_tick_sends_arrives,
};
pub use places::Places;
pub use repairs::{
    a_lost_broadcast_comes_in_four_rounds, a_lost_packet_comes_in_four_rounds,
    four_rounds_leave_less, no_more_is_under_way,
};
pub use settling::{Receivers, Settled};
pub use tipc_replay::{Arrived, FlowCounts, Replay, ReplayFault, Sent, WorldEvent};
pub use worlds::World;
