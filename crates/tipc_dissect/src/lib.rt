//! Frames as text: a line for each field, and the hexadecimal that frames are written in.
//!
//! - `lines` (a name and a value), `table` (the fields of each header), `packets` (what follows the fields, and the
//!   packet inside a tunnel packet), `frames` (the whole).
//! - `digits` (the frame that a line of hexadecimal spells), `laws`.
#![tactic(auto)]

mod digits;
mod frames;
mod laws;
mod lines;
mod packets;
mod table;

pub use digits::{FrameFault, frame_in};
pub use frames::dissect;
pub use laws::{
    faults_are_told, frames_are_spelled, inner_packets_are_unwrapped, texts_tell_frames_apart,
};
