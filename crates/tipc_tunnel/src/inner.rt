//! The packet inside a tunnel packet.

ghost use Rattle.std.specs.Prelude.{◌≡◌, ◌^◌, ◌<◌, ◌↔◌, [], IfOk, IsTrue};
ghost use Rattle.tipc_tunnel.specs.Tunnels.{may_stand_in_tunnel, numbered, IsTunnellable, IsNumbered, MayBeWrapped};

use std::alloc::{AllocError, Global};
use tipc_header::{Header, Packet, decode, encode};

/// Whether a packet with this header may stand inside a tunnel packet.
fn may_stand_in_tunnel(header: &Header) -> bool
    ensures { result ≡ may_stand_in_tunnel header.now }
{
    matches!(
        header,
        Header::Payload(_) | Header::Bundler(_) | Header::NameDistributor(_) | Header::Fragmenter(_)
    )
}

/// Whether the bytes are a packet that may stand inside a tunnel packet: payload, a bundle, name items or a fragment.
/// (This project's profile.)
pub fn may_be_tunnelled(bytes: &[u8]) -> bool
    ensures { IsTrue result ↔ IsTunnellable bytes.now }
{
    match decode(bytes) {
        Ok(packet) => may_stand_in_tunnel(&packet.header),
        Err(_) => false,
    }
}

/// Whether the bytes are such a packet, and have this sequence number.
pub(crate) fn is_numbered(number: u16, bytes: &[u8]) -> bool
    ensures { IsTrue result ↔ IsNumbered number bytes.now }
{
    match decode(bytes) {
        Ok(packet) => may_stand_in_tunnel(&packet.header) && packet.sequence == number,
        Err(_) => false,
    }
}

/// What a tunnel packet carries of a packet with this number on its own link: that packet under its number, or nothing.
pub(crate) fn numbered(alloc: Global, number: u16, inner: &[u8]) -> Result<Vec<u8>, AllocError>
    requires { MayBeWrapped inner.now }
    ensures { IfOk result (λ carried. carried.items ≡ numbered number inner.now) }
{
    let mut carried = Vec::new(alloc);
    if inner.is_empty() {
        return Ok(carried);
    }
    let Ok(packet) = decode(inner) else {
        unreachable!()
    };
    let renumbered = Packet {
        acknowledgement: packet.acknowledgement,
        sequence: number,
        previous: packet.previous,
        header: packet.header,
        rest: packet.rest,
    };
    encode(&renumbered, &mut carried)?;
    Ok(carried)
}
