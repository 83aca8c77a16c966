//! Small packets that join the last packet that waits.

ghost use Rattle.std.specs.Prelude.{◌≡◌, ◌<◌, ◌≤◌, ◌↔◌, ◌++◌, ◌∷◌, true, false, [], List, ℕ, length, IfOk, IfNone, IfSome, IsTrue};
ghost use Rattle.tipc_types.specs.Limits.{most_packet_bytes};
ghost use Rattle.tipc_bundle.specs.Bundles.{joined, Carries, IsInner};
ghost use Rattle.tipc_bundle.specs.Splitting.{IsBundle};
ghost use Rattle.tipc_link.specs.Sessions.{IsWaiting};

use std::alloc::Global;
use tipc_bundle::{BundleFault, may_be_bundled, with_added};
use tipc_header::{Header, decode};
use tipc_types::{Bytes, NoMemory};

/// Whether the bytes are a bundle.
fn is_bundle(bytes: &[u8]) -> bool
    ensures { IsTrue result ↔ IsBundle bytes.now }
{
    match decode(bytes) {
        Ok(packet) => matches!(packet.header, Header::Bundler(_)),
        Err(_) => false,
    }
}

/// Whether a packet that waits may be joined by others: it is a bundle, payload or name items.
pub(crate) fn may_be_joined(last: &[u8]) -> bool
    requires { IsWaiting last.now }
    ensures yes { result ≡ true → (packets : List (List ℕ)) × Carries last.now packets }
    ensures no { result ≡ false → (packets : List (List ℕ)) → Carries last.now packets → ⊥ }
{
    may_be_bundled(last) || is_bundle(last)
}

/// The bundle of a packet that waits and a new one behind it. None exactly where it would have more than 1,452 bytes.
pub(crate) fn joined_with(
    alloc: Global,
    last: &[u8],
    packet: &[u8],
) -> Result<Option<Bytes>, NoMemory>
    requires last { (packets : List (List ℕ)) × Carries last.now packets }
    requires packet { IsInner packet.now }
    ensures some { IfOk result (λ given. IfSome given (λ bundle.
        (length bundle ≤ most_packet_bytes) × ((packets : List (List ℕ)) → Carries last.now packets →
        Carries bundle (packets ++ packet.now ∷ [])))) }
    ensures none { IfOk result (λ given. IfNone given ((packets : List (List ℕ)) → Carries last.now packets →
        most_packet_bytes < length (joined (packets ++ packet.now ∷ [])))) }
{
    match with_added(alloc, last, packet) {
        Ok(bundle) => Ok(Some(bundle)),
        Err(BundleFault::Full) => Ok(None),
        Err(BundleFault::NoMemory) => Err(NoMemory),
    }
}
