//! The topology service of a node: subscriptions to service ranges, and what each is told of changes of the table.
#![tactic(auto)]

mod changes;
pub mod laws;
mod leaving;
mod topology;
mod watch;

pub use changes::TableChange;
pub use leaving::Leaving;
pub use topology::{
    MOST_MADE, MOST_SUBSCRIPTIONS, SubscriptionNumbers, Topology, TopologyFault, Unknown,
};
