//! Zeros up to a multiple of 4 bytes.

ghost use Rattle.std.specs.Prelude.{◌≡◌, ◌≢◌, ◌≤◌, ◌<◌, ◌^◌, ℕ, ◌++◌, length, get_or, IfNone, IfSome, OnOk};
ghost use Rattle.std.specs.List.{All};
ghost use Rattle.tipc_bundle.specs.Bundles.{padded, padded_size};

use std::alloc::AllocError;

/// A size, rounded up to a multiple of 4.
pub(crate) fn padded_size(size: usize) -> usize
    requires { size < 2 ^ 32 }
    ensures value { result ≡ padded_size size }
    ensures least { size ≤ result }
{
    (size + 3) / 4 * 4
}

/// Appends a packet and its padding.
#[tactic(auto, unfolding(crate::specs::Bundles::padded))]
pub(crate) fn put_padded(into: &mut Vec<u8>, packet: &[u8]) -> Result<(), AllocError>
    requires { length packet.now < 2 ^ 32 }
    ensures { OnOk result (into.new.items ≡ into.old.items ++ padded packet.now) }
{
    into.extend_from_slice(packet)?;
    let size = into.len() + (padded_size(packet.len()) - packet.len());
    into.resize(size, 0)
}

/// The place of the first byte that isn't zero.
pub(crate) fn first_nonzero(bytes: &[u8]) -> Option<usize>
    ensures some { IfSome result (λ place. (place < length bytes.now) × (get_or bytes.now place 0 ≢ 0) ×
        ((k : ℕ) → k < place → get_or bytes.now k 0 ≡ 0)) }
    ensures none { IfNone result (All (λ byte. byte ≡ 0) bytes.now) }
{
    bytes.iter().position(|byte| *byte != 0)
}
