//! The packets of a TIPC bearer as bytes.
#![tactic(auto)]

mod bits;
mod contents;
mod decoding;
mod encoding;
mod fault;
mod frames;
mod laws;
mod packet;
mod reading;
mod reserved;

pub use bits::{long, word};
pub use contents::{HeaderContent, Notice};
pub use decoding::{CHANGEOVER_USER, decode, message_size, user_number};
pub use encoding::encode;
pub use fault::HeaderFault;
pub use frames::{
    Frame, FrameKind, MOST_FRAME_BYTES, encode_frame, kind_of, open_frame, stamp_frame,
};
pub use laws::{
    length_of_spelling, one_packet_a_spelling, size_field_of_spelling, spellings_are_read_again,
    word_2_stands_alone,
};
pub use packet::{
    Addressing, Bundle, Changeover, ChangeoverType, Discovery, DiscoveryType, DistributionType,
    Fragment, FragmentType, Header, NameDistribution, Packet, Payload, Reset, State,
};
