//! The packets that a node takes of a peer's broadcast.

ghost use Rattle.std.specs.Prelude.{◌≡◌, ◌+◌, IfOk};
ghost use Rattle.tipc_header.specs.Grammar.{Fits};
ghost use Rattle.tipc_header.specs.Spelling.{spelling, view};
ghost use Rattle.tipc_types.specs.Position.{number_of};
ghost use Rattle.tipc_broadcast.specs.Contacts.{as_accepted, carried, previous_before};

use std::alloc::Global;
use tipc_header::{Header, Packet, encode};
use tipc_recv_window::RecvWindow;
use tipc_types::{Bytes, NoMemory, Taken, sequence_number};

/// The last number that was taken.
pub(crate) fn last_taken(window: &RecvWindow) -> u16
    ensures { result ≡ number_of (window.now.wanted + 65535) }
{
    sequence_number(window.wanted_position() + 65_535)
}

/// The previous node that a packet showed before it was sent.
fn previous_before(packet: &Packet<'_>) -> u32
    ensures { result ≡ previous_before packet.now.header packet.now.previous }
{
    match packet.header {
        Header::Fragmenter(_) => 0,
        _ => packet.previous,
    }
}

/// The bytes of a packet as it was accepted, before it was sent.
fn accepted_bytes(alloc: Global, packet: &Packet<'_>) -> Result<Bytes, NoMemory>
    requires { Fits (view packet.now) }
    ensures { IfOk result (λ bytes. bytes ≡ spelling (as_accepted (view packet.now))) }
{
    let accepted = Packet {
        acknowledgement: 0,
        sequence: 0,
        previous: previous_before(packet),
        header: packet.header,
        rest: packet.rest,
    };
    let mut bytes = Vec::new(alloc);
    encode(&accepted, &mut bytes)?;
    Ok(Bytes::from_vec(bytes))
}

/// The packet that an arrival brought.
pub(crate) fn carried(alloc: Global, packet: &Packet<'_>, by: u64) -> Result<Taken, NoMemory>
    requires { Fits (view packet.now) }
    ensures { IfOk result (λ t. t ≡ carried (view packet.now) by) }
{
    Ok(Taken {
        number: packet.sequence,
        packet: accepted_bytes(alloc, packet)?,
        by,
    })
}
