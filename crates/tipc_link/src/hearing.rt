//! What a packet will make of a session, before anything of it is changed.

ghost use Rattle.std.specs.Prelude.{◌≡◌, ◌==◌, ◌&&◌, true, None, IfOk};
ghost use Rattle.tipc_recv_window.specs.Receiving.{deferred_count};
ghost use Rattle.tipc_header.specs.Spelling.{spelling, view};
ghost use Rattle.tipc_header.specs.Grammar.{Fits};
ghost use Rattle.tipc_link.specs.Links.{is_heard, is_taken, is_traffic};
ghost use Rattle.tipc_link.specs.Sessions.{as_waiting, is_deferred, previous_waiting};

use std::alloc::Global;
use std::marker::Model;
use tipc_header::{Header, HeaderContent, Packet, encode};
use tipc_link_fsm::Change;
use tipc_recv_window::{LinkOutcome, Place, RecvWindow, WindowArrival};
use tipc_types::{Bytes, NoMemory};

/// What a packet will make of a session.
#[derive(Drop)]
pub(crate) struct Hearing {
    /// The arrival's number at the node.
    pub(crate) by: u64,
    /// For a packet with a number, what it will make of the receive window.
    pub(crate) window: Option<WindowArrival>,
    /// What the packet brings.
    pub(crate) outcome: LinkOutcome,
}

impl Model for Hearing {
    ghost use Rattle.tipc_link.specs.Hearings.{HearingState};

    ghost Value = { HearingState };

    ghost view = { λ h. record { by = h.by; window = h.window; outcome = h.outcome } };
}

impl Hearing {
    /// A packet that leaves the receive window as it is.
    pub fn without_window(by: u64, outcome: LinkOutcome) -> Hearing
        ensures { result ≡ record { by = by; window = None; outcome = outcome } }
    {
        Hearing {
            by,
            window: None,
            outcome,
        }
    }

    /// What the packet brings.
    pub fn outcome(&self) -> &LinkOutcome
        ensures { result.now ≡ self.now.outcome }
    {
        &self.outcome
    }

    /// What the packet brings.
    pub fn into_outcome(self) -> LinkOutcome
        ensures { result ≡ self.outcome }
    {
        self.outcome
    }
}

/// The previous node that a packet showed while it waited to be sent.
fn previous_waiting(packet: &Packet<'_>) -> u32
    ensures { result ≡ previous_waiting packet.now.header packet.now.previous }
{
    match packet.header {
        Header::Bundler(_) | Header::Changeover(_) | Header::Fragmenter(_) => 0,
        _ => packet.previous,
    }
}

/// The bytes of a packet as it waited to be sent: it acknowledged nothing and had no number. (This project's profile.)
///
/// # Errors
///
/// Where memory runs out.
pub fn waiting_bytes(alloc: Global, packet: &Packet<'_>) -> Result<Bytes, NoMemory>
    requires { Fits (view packet.now) }
    ensures { IfOk result (λ bytes. bytes ≡ spelling (as_waiting (view packet.now))) }
{
    let waiting = Packet {
        acknowledgement: 0,
        sequence: 0,
        previous: previous_waiting(packet),
        header: packet.header,
        rest: packet.rest,
    };
    let mut bytes = Vec::new(alloc);
    encode(&waiting, &mut bytes)?;
    Ok(Bytes::from_vec(bytes))
}

/// Whether a packet at this place is early, and the only one that is held.
pub(crate) fn is_only_deferred(place: Place, window: &RecvWindow) -> bool
    ensures { result ≡ (is_deferred place && (deferred_count window.now == 1)) }
{
    match place {
        Place::Deferred => window.deferred() == 1,
        Place::InOrder => false,
        Place::Old => false,
    }
}

/// Whether a packet is a STATE or has a number: it belongs to a session.
pub fn is_traffic(header: &Header) -> bool
    ensures { result ≡ is_traffic header.now }
{
    match header.content() {
        HeaderContent::State(_) | HeaderContent::Numbered => true,
        HeaderContent::Notice(_) | HeaderContent::Discovery => false,
    }
}

/// Whether the link states took it as a packet of the session.
fn is_taken(change: Change) -> bool
    ensures { result ≡ is_taken change }
{
    match change {
        Change::Up => true,
        Change::Stay => true,
        Change::Down(_) => false,
        Change::Answer(_) => false,
        Change::Ignore(_) => false,
    }
}

/// Whether a packet is heard by the session.
pub(crate) fn is_heard(header: &Header, change: Change) -> bool
    ensures value { result ≡ is_heard header.now change }
    ensures taken { result ≡ true → is_taken change ≡ true }
{
    is_traffic(header) && is_taken(change)
}
