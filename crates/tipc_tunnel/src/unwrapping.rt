//! What a tunnel packet carries.

ghost use Rattle.std.specs.Prelude.{◌≡◌, ◌≢◌, ◌↔◌, ◌⊎◌, [], false, true, Err, IfErr, IfOk, IsOkAnd, IsTrue};
ghost use Rattle.tipc_header.specs.Spelling.{view};
ghost use Rattle.tipc_tunnel.specs.Tunnels.{is_tunnel, inner_number, told_by_header, IsNumbered, Tunnelled, Carries};
ghost use Rattle.tipc_tunnel.specs.Unwrapped.{tunnelled};

use crate::TunnelKind;
use crate::inner::is_numbered;
use tipc_header::{Changeover, Header, Packet};
use tipc_types::OldSession;

/// What a tunnel packet tells and carries.
#[derive(Clone, Copy, Debug, PartialEq, Eq)]
pub struct Tunnel<'a> {
    /// Whether the inner packet is a duplicate or the original.
    pub kind: TunnelKind,
    /// The session that the inner packet has its number in.
    pub old: OldSession,
    /// How many packets the run has.
    pub count: u16,
    /// The inner packet's number in that session. 0 in a run of no packets.
    pub number: u16,
    /// The inner packet, under its number. Nothing in a run of no packets, and in the placeholder of a packet that was
    /// a tunnel packet itself.
    pub inner: &'a [u8],
}

/// Why a packet isn't unwrapped.
#[derive(Clone, Copy, Debug, PartialEq, Eq)]
pub enum TunnelFault {
    /// It is no tunnel packet.
    NotTunnel,
    /// What it carries is no packet, is one that may not stand inside a tunnel packet, or has another number.
    BadInner,
}

/// Whether a tunnel packet with this inner number may carry these bytes.
fn may_carry(number: u16, inner: &[u8]) -> bool
    ensures { IsTrue result ↔ ((inner.now ≡ []) ⊎ IsNumbered number inner.now) }
{
    if inner.is_empty() {
        return true;
    }
    is_numbered(number, inner)
}

/// What a tunnel packet with this header carries.
fn carried<'a>(changeover: Changeover, inner: &'a [u8]) -> Result<Tunnel<'a>, TunnelFault>
    ensures ok { IfOk result (λ t. (tunnelled t ≡ told_by_header changeover inner.now) ×
        ((inner.now ≡ []) ⊎ IsNumbered changeover.inner_number inner.now)) }
    ensures err { IfErr result (λ e. (e ≡ TunnelFault.BadInner) ×
        (((inner.now ≡ []) ⊎ IsNumbered changeover.inner_number inner.now) → ⊥)) }
{
    if !may_carry(changeover.inner_number, inner) {
        return Err(TunnelFault::BadInner);
    }
    Ok(Tunnel {
        kind: changeover.changeover_type,
        old: OldSession {
            bearer: changeover.old_bearer,
            epoch: changeover.old_epoch,
        },
        count: changeover.count,
        number: changeover.inner_number,
        inner,
    })
}

/// What a tunnel packet tells and carries. It takes no memory. (This project's profile.)
///
/// # Errors
///
/// `NotTunnel` exactly where the packet's user isn't changeover. Else `BadInner` exactly where something follows its
/// fields that isn't payload, a bundle, name items or a fragment with the inner number as its sequence number.
pub fn unwrap_packet<'a>(packet: &Packet<'a>) -> Result<Tunnel<'a>, TunnelFault>
    // What is given is what the packet carries.
    ensures ok { IfOk result (λ t. Carries (view packet.now) (tunnelled t)) }
    // What it carries is given.
    ensures only { (t : Tunnelled) → Carries (view packet.now) t → IsOkAnd result (λ u. tunnelled u ≡ t) }
    // When each fault comes.
    ensures not_tunnel { (result ≡ Err TunnelFault.NotTunnel) ↔ (is_tunnel packet.now.header ≡ false) }
    ensures bad_inner { (result ≡ Err TunnelFault.BadInner) ↔
        ((is_tunnel packet.now.header ≡ true) × (packet.now.rest.now ≢ []) ×
        (IsNumbered (inner_number packet.now.header) packet.now.rest.now → ⊥)) }
{
    match packet.header {
        Header::Changeover(changeover) => carried(changeover, packet.rest),
        _ => Err(TunnelFault::NotTunnel),
    }
}
