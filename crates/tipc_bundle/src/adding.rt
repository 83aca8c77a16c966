//! Putting packets together.

ghost use Rattle.std.specs.Prelude.{◌≡◌, ◌+◌, ◌≤◌, ◌<◌, ◌^◌, ◌↔◌, ◌++◌, ◌∷◌, [], List, ℕ, Err, length, IfOk, OnErr, OnOk};
ghost use Rattle.tipc_types.specs.Limits.{most_packet_bytes};
ghost use Rattle.tipc_header.specs.Grammar.{Fits};
ghost use Rattle.tipc_header.specs.Spelling.{spelling};
ghost use Rattle.tipc_bundle.specs.Bundles.{bundle_with, in_a_row, joined, padded, Carries, IsInner};

use crate::HEADER_BYTES;
use crate::padding::{padded_size, put_padded};
use std::alloc::{AllocError, Global};
use tipc_header::{Bundle, Header, Packet, decode, encode};
use tipc_types::{Bytes, NoMemory};

/// The most bytes of a packet on a link. (This project's profile.)
pub const MOST_PACKET_BYTES: usize = 1_452;

/// Why a packet wasn't added. Nothing is changed then.
#[derive(Clone, Copy, Debug, PartialEq, Eq)]
pub enum BundleFault {
    /// The bundle would have more than 1,452 bytes.
    Full,
    /// Memory ran out.
    NoMemory,
}

impl From<AllocError> for BundleFault {
    ghost use Rattle.tipc_bundle.specs.declared.adding.BundleFault.TheVariants.{NoMemory};

    ghost from_gives = { λ _ e. e ≡ NoMemory };

    fn from(_error: AllocError) -> BundleFault {
        BundleFault::NoMemory
    }
}

/// How many packets wait in these bytes, and the bytes in which they stand but for the padding of the last.
fn carried(bytes: &[u8]) -> (u16, &[u8])
    requires { (packets : List (List ℕ)) × Carries bytes.now packets }
    ensures count { (packets : List (List ℕ)) → Carries bytes.now packets → result.0 ≡ length packets }
    ensures rest { (packets : List (List ℕ)) → Carries bytes.now packets → padded result.1.now ≡ in_a_row packets }
    ensures within { length result.1.now < 2 ^ 17 }
{
    let Ok(packet) = decode(bytes) else {
        unreachable!()
    };
    match packet.header {
        Header::Bundler(bundle) => (bundle.count, packet.rest),
        _ => (1, bytes),
    }
}

/// The bytes of the bundle of so many packets.
fn bundle_bytes(alloc: Global, count: u16, rest: &[u8]) -> Result<Bytes, AllocError>
    requires { Fits (bundle_with count rest.now) }
    ensures { IfOk result (λ bytes. bytes ≡ spelling (bundle_with count rest.now)) }
{
    let packet = Packet {
        acknowledgement: 0,
        sequence: 0,
        previous: 0,
        header: Header::Bundler(Bundle {
            broadcast_acknowledgement: 0,
            count,
        }),
        rest,
    };
    let mut bytes = Vec::new(alloc);
    encode(&packet, &mut bytes)?;
    Ok(Bytes::from_vec(bytes))
}

/// The bundle of so many packets, which stand in these bytes, and one more.
fn bundle_with_packet(
    alloc: Global,
    count: u16,
    waiting: &[u8],
    packet: &[u8],
) -> Result<Bytes, AllocError>
    requires { Fits (bundle_with (count + 1) (padded waiting.now ++ padded packet.now)) }
    ensures { IfOk result (λ bytes. bytes ≡ spelling (bundle_with (count + 1) (padded waiting.now ++
        padded packet.now))) }
{
    let mut rest = Vec::new(alloc);
    put_padded(&mut rest, waiting)?;
    put_padded(&mut rest, packet)?;
    bundle_bytes(alloc, count + 1, rest.as_slice())
}

/// The bundle of the packets that wait in `last` and a new one behind them: a packet becomes the bundle of itself and
/// the new one, and a bundle gets one more inner packet. (TIPC 2.0 draft; the limit and the padding are this project's
/// profile.)
///
/// `packet` may stand inside a bundle: it is payload or name items, under any numbers. `last` is such a packet, or a
/// bundle that this call made.
///
/// # Errors
///
/// `Full` exactly where the bundle would have more than 1,452 bytes, whether there is memory or not; else `NoMemory`
/// where memory runs out.
pub fn with_added(alloc: Global, last: &[u8], packet: &[u8]) -> Result<Bytes, BundleFault>
    requires last { (packets : List (List ℕ)) × Carries last.now packets }
    requires packet { IsInner packet.now }
    ensures ok { (packets : List (List ℕ)) → Carries last.now packets →
        IfOk result (λ bundle. Carries bundle (packets ++ packet.now ∷ [])) }
    ensures within { IfOk result (λ bundle. length bundle ≤ most_packet_bytes) }
    ensures full { (packets : List (List ℕ)) → Carries last.now packets →
        (result ≡ Err BundleFault.Full) ↔ (most_packet_bytes < length (joined (packets ++ packet.now ∷ []))) }
{
    let (count, waiting) = carried(last);
    let size = HEADER_BYTES + padded_size(waiting.len()) + padded_size(packet.len());
    if size > MOST_PACKET_BYTES {
        return Err(BundleFault::Full);
    }
    let bundle = bundle_with_packet(alloc, count, waiting, packet)?;
    Ok(bundle)
}

/// Puts a packet behind those that wait in `last`: it becomes the bundle of them all, as [`with_added`] makes it.
///
/// # Errors
///
/// As of [`with_added`]. Either leaves `last` as it was.
pub fn try_add(alloc: Global, last: &mut Bytes, packet: &[u8]) -> Result<(), BundleFault>
    requires last { (packets : List (List ℕ)) × Carries last.old packets }
    requires packet { IsInner packet.now }
    ensures ok { (packets : List (List ℕ)) → Carries last.old packets →
        OnOk result (Carries last.new (packets ++ packet.now ∷ [])) }
    ensures within { OnOk result (length last.new ≤ most_packet_bytes) }
    ensures full { (packets : List (List ℕ)) → Carries last.old packets →
        (result ≡ Err BundleFault.Full) ↔ (most_packet_bytes < length (joined (packets ++ packet.now ∷ []))) }
    ensures err { OnErr result (last.new ≡ last.old) }
{
    match with_added(alloc, last.as_slice(), packet) {
        Ok(bundle) => {
            *last = bundle;
            Ok(())
        }
        Err(fault) => Err(fault),
    }
}
