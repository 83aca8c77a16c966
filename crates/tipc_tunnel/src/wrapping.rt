//! Putting a packet into a tunnel packet.

ghost use Rattle.std.specs.Prelude.{◌≡◌, ◌≤◌, ◌<◌, ◌^◌, [], length, IfOk};
ghost use Rattle.tipc_types.specs.Limits.{most_packet_bytes, most_tunnel_bytes};
ghost use Rattle.tipc_header.specs.Spelling.{spelling};
ghost use Rattle.tipc_tunnel.specs.Tunnels.{header_of, numbered, tunnel_packet, MayBeWrapped, IsRun};

use crate::TunnelKind;
use crate::inner::numbered;
use std::alloc::Global;
use tipc_header::{Changeover, Header, Packet, encode};
use tipc_types::{Bytes, NoMemory, OldSession};

/// The header of a tunnel packet.
fn tunnel_header(
    kind: TunnelKind,
    old_bearer: u8,
    old_epoch: u64,
    count: u16,
    number: u16,
) -> Header
    ensures header { result ≡ header_of 0 (record {
      kind = kind;
      old = record { bearer = old_bearer; epoch = old_epoch };
      count = count;
      number = number;
      inner = [];
    }) }
    ensures epoch { old_epoch < 2 ^ 64 }
{
    Header::Changeover(Changeover {
        changeover_type: kind,
        broadcast_acknowledgement: 0,
        count,
        inner_number: number,
        old_bearer,
        old_epoch,
    })
}

/// The tunnel packet of a packet that has this number in its own link's session, in a run of so many packets. (This
/// project's profile.)
///
/// `inner` is the packet, of at most 1,452 bytes, under any numbers: inside the tunnel packet it has `number` as its
/// sequence number. With nothing for `inner` the tunnel packet is a placeholder, or, in a run of 0 packets, the sign
/// that there is nothing to hand over; then `number` is 0 too. The tunnel packet's own words 2 and 3 are zero: they are
/// written when it is sent.
///
/// # Errors
///
/// `NoMemory` where memory runs out.
pub fn wrap(
    alloc: Global,
    kind: TunnelKind,
    old: OldSession,
    count: u16,
    number: u16,
    inner: &[u8],
) -> Result<Bytes, NoMemory>
    requires bearer { old.bearer ≤ 1 }
    requires run { IsRun count number inner.now }
    requires inner { MayBeWrapped inner.now }
    requires size { length inner.now ≤ most_packet_bytes }
    ensures packet { IfOk result (λ bytes. bytes ≡ spelling (tunnel_packet (record {
      kind = kind;
      old = old;
      count = count;
      number = number;
      inner = numbered number inner.now;
    }))) }
    ensures within { IfOk result (λ bytes. length bytes ≤ most_tunnel_bytes) }
{
    let carried = numbered(alloc, number, inner)?;
    let packet = Packet {
        acknowledgement: 0,
        sequence: 0,
        previous: 0,
        header: tunnel_header(kind, old.bearer, old.epoch, count, number),
        rest: carried.as_slice(),
    };
    let mut bytes = Vec::new(alloc);
    encode(&packet, &mut bytes)?;
    Ok(Bytes::from_vec(bytes))
}
