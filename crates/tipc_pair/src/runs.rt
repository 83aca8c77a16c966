//! The packets of one link of a pair as they travel on the other one.

ghost use Rattle.std.specs.Prelude.{◌≡◌, ◌≤◌, ◌<◌, ◌^◌, ◌++◌, [], false, filter, length, not, All, IfOk, OnErr, OnOk};
ghost use Rattle.tipc_types.specs.declared.packet_lists.Kept.{Kept};
ghost use Rattle.tipc_types.specs.Limits.{most_packet_bytes};
ghost use Rattle.tipc_link.specs.Records.{is_tunnel};
ghost use Rattle.tipc_header.specs.Spelling.{spelling};
ghost use Rattle.tipc_tunnel.specs.Tunnels.{numbered, tunnel_packet, IsTunnellable, IsRun, MayBeWrapped};
ghost use Rattle.tipc_pair.specs.Runs.{previous_sent, run_of, shown_by, wrapped, IsListed, IsTunnelPacket};

use std::alloc::{AllocError, Global};
use tipc_header::{Header, Packet, decode, encode};
use tipc_link::is_tunnel;
use tipc_tunnel::{TunnelKind, wrap};
use tipc_types::{Bytes, Kept, NoMemory, OldSession, Pieces};

/// The previous node that a packet shows once this node sent it: a bundle or a fragment names its node only then.
fn previous_sent(own: u32, packet: &Packet<'_>) -> u32
    ensures { result ≡ previous_sent own packet.now.header packet.now.previous }
{
    match packet.header {
        Header::Bundler(_) => own,
        Header::Fragmenter(_) => own,
        _ => packet.previous,
    }
}

/// A packet of this node as it was sent: it shows its sender.
fn shown_by(alloc: Global, own: u32, packet: &[u8]) -> Result<Vec<u8>, AllocError>
    requires { IsTunnellable packet.now }
    ensures { IfOk result (λ bytes. bytes.items ≡ shown_by own packet.now) }
{
    let mut bytes = Vec::new(alloc);
    let Ok(packet) = decode(packet) else {
        unreachable!()
    };
    let sent = Packet {
        acknowledgement: packet.acknowledgement,
        sequence: packet.sequence,
        previous: previous_sent(own, &packet),
        header: packet.header,
        rest: packet.rest,
    };
    encode(&sent, &mut bytes)?;
    Ok(bytes)
}

/// A tunnel packet in which the packet of this number stands, or nothing.
fn tunnel_of(
    alloc: Global,
    kind: TunnelKind,
    bearer: u8,
    epoch: u64,
    count: u16,
    number: u16,
    inner: &[u8],
) -> Result<Bytes, NoMemory>
    requires bearer { bearer ≤ 1 }
    requires run { IsRun count number inner.now }
    requires inner { MayBeWrapped inner.now }
    requires size { length inner.now ≤ most_packet_bytes }
    ensures bytes { IfOk result (λ bytes. bytes ≡ spelling (tunnel_packet (record {
      kind = kind;
      old = record { bearer = bearer; epoch = epoch };
      count = count;
      number = number;
      inner = numbered number inner.now;
    }))) }
    ensures made { IfOk result (λ bytes. IsTunnelPacket bytes) }
{
    wrap(
        alloc,
        kind,
        OldSession { bearer, epoch },
        count,
        number,
        inner,
    )
}

/// The run of a session's unacknowledged packets, which this node sent: for each in order a tunnel packet, and for a
/// tunnel packet a placeholder. A run of none is one tunnel packet, which carries nothing. (This project's profile.)
///
/// # Errors
///
/// Where memory runs out.
#[tactic(auto, using(crate::proofs::Listed::run_of_none, crate::proofs::Listed::run_of_some), unfolding(tipc_tunnel::specs::Tunnels::numbered))]
pub(crate) fn run_of(
    alloc: Global,
    kind: TunnelKind,
    old: OldSession,
    own: u32,
    kept: &[Kept],
) -> Result<Pieces, NoMemory>
    requires bearer { old.bearer ≤ 1 }
    requires few { length kept.now < 2 ^ 16 }
    requires listed { All (λ (k : Kept). IsListed k.packet) kept.now }
    ensures run { IfOk result (λ run. run ≡ run_of kind old own kept.now) }
    ensures made { IfOk result (λ run. All IsTunnelPacket run) }
{
    let mut run = Pieces::new(alloc);
    if kept.is_empty() {
        run.push(tunnel_of(alloc, kind, old.bearer, old.epoch, 0, 0, &[])?)?;
        return Ok(run);
    }
    let count = kept.len() as u16;
    for packet in kept {
        run.push(wrapped(alloc, kind, old, own, count, packet)?)?;
    }
    Ok(run)
}

/// The tunnel packet of an unacknowledged packet of this node, in a run of so many.
#[tactic(auto, unfolding(tipc_tunnel::specs::Tunnels::numbered))]
fn wrapped(
    alloc: Global,
    kind: TunnelKind,
    old: OldSession,
    own: u32,
    count: u16,
    kept: &Kept,
) -> Result<Bytes, NoMemory>
    requires bearer { old.bearer ≤ 1 }
    requires some { 0 < count }
    requires listed { IsListed kept.now.packet }
    ensures bytes { IfOk result (λ bytes. bytes ≡ wrapped kind old own count kept.now) }
    ensures made { IfOk result (λ bytes. IsTunnelPacket bytes) }
{
    if is_tunnel(kept.packet.as_slice()) {
        return tunnel_of(alloc, kind, old.bearer, old.epoch, count, kept.number, &[]);
    }
    let shown = shown_by(alloc, own, kept.packet.as_slice())?;
    tunnel_of(
        alloc,
        kind,
        old.bearer,
        old.epoch,
        count,
        kept.number,
        shown.as_slice(),
    )
}

/// Adds packets behind others, in order, but for tunnel packets.
#[tactic(auto, using(crate::proofs::Listed::plain_append))]
pub(crate) fn add_plain(pieces: &mut Pieces, more: Pieces) -> Result<(), NoMemory>
    ensures { OnOk result (pieces.new ≡ pieces.old ++ filter (λ packet. not (is_tunnel packet)) more) }
{
    let more = more.into_vec()?;
    for packet in more {
        if !is_tunnel(packet.as_slice()) {
            pieces.push(packet)?;
        }
    }
    Ok(())
}

/// Adds packets behind others, in order.
pub(crate) fn add_all(pieces: &mut Pieces, more: Pieces) -> Result<(), NoMemory>
    ensures { OnOk result (pieces.new ≡ pieces.old ++ more) }
{
    let more = more.into_vec()?;
    for packet in more {
        pieces.push(packet)?;
    }
    Ok(())
}
