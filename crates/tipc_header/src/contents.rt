//! What packets are to the link that they arrive on.

ghost use Rattle.std.specs.Prelude.{◌≡◌};

use crate::packet::{Header, Reset, State};

/// A packet by which the ends of a link come to a session. It has no number.
#[derive(Clone, Copy, Debug, PartialEq, Eq)]
pub enum Notice {
    /// RESET: the sender's end is in reset.
    Reset(Reset),
    /// ACTIVATE: the sender's end is in reset, and has heard the RESET of the other one.
    Activate(Reset),
}

/// What a packet is to a link. (TIPC 2.0 draft)
#[derive(Clone, Copy, Debug, PartialEq, Eq)]
pub enum HeaderContent {
    /// RESET or ACTIVATE, by which a link goes up.
    Notice(Notice),
    /// STATE, by which an end of a link that is up tells what it sent and took.
    State(State),
    /// Payload, a bundle, a tunnel packet, name items or a fragment: it has a number on the link.
    Numbered,
    /// Discovery, which is of no link.
    Discovery,
}

impl Header {
    ghost use Rattle.tipc_header.specs.Contents.{header_content};

    /// What a packet with this header is to a link.
    pub fn content(&self) -> HeaderContent
        ensures { result ≡ header_content self.now }
    {
        match self {
            Header::Reset(said) => HeaderContent::Notice(Notice::Reset(*said)),
            Header::Activate(said) => HeaderContent::Notice(Notice::Activate(*said)),
            Header::State(state) => HeaderContent::State(*state),
            Header::Discovery(_) => HeaderContent::Discovery,
            _ => HeaderContent::Numbered,
        }
    }
}
