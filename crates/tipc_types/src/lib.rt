//! The values that every part of a TIPC node speaks of: addresses, ports, service ranges, publications,
//! messages, what a call of a node is and answers, and lists of these that contracts see as lists.
#![tactic(auto)]

mod bodies;
mod few;
mod identity;
mod link_words;
mod memory;
mod message_forms;
mod node_calls;
mod packet_lists;
mod positions;
mod sequences;
mod services;

pub use bodies::Body;
pub use few::Few;
pub use identity::{Addr, PortId, To};
pub use link_words::{BroadcastState, Cause, LinkState, OldSession, Reply, Why};
pub use memory::NoMemory;
pub use message_forms::{Flow, Form, Importance, Item, ItemList, Message, MessageList};
pub use node_calls::{Answer, Arrival, By, Event, EventNote, PeerLinks, Subscription};
pub use packet_lists::{Kept, KeptList, Taken, TakenList};
pub use positions::{number_distance, sequence_number};
pub use sequences::{Bytes, Inner, Pieces, Sequence};
pub use services::{BadRange, List, Publication, Scope, ServiceRange};
