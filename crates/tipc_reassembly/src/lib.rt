//! Reassembly: the packets that a link took are opened. A bundle gives the packets inside, fragments are joined, and
//! what neither splits nor joins is passed over.
#![tactic(auto)]

mod laws;
mod opening;

pub use laws::{
    a_slot_brings_its_items, messages_are_given_step_by_step, one_thing_comes_of_packets,
    slots_of_messages_give_a_front, what_is_opened_is_traced,
};
pub use opening::{Opened, OpenedList, Reassembly};
