//! The packet that stands first in the bytes of a bundle.

ghost use Rattle.std.specs.Prelude.{◌≡◌, ◌%◌, ◌++◌, ◌↔◌, List, ℕ, length, IfErr, IfNone, IfOk, IfSome, IsTrue};
ghost use Rattle.tipc_bundle.specs.Bundles.{may_stand_inside, IsInner};
ghost use Rattle.tipc_bundle.specs.Splitting.{BeginsBadly, BeginsNone, BeginsWell};

use crate::padding::{first_nonzero, padded_size};
use tipc_header::{Header, decode, message_size};

/// Whether a packet with this header may stand inside a bundle.
fn may_stand_inside(header: &Header) -> bool
    ensures { result ≡ may_stand_inside header.now }
{
    matches!(header, Header::Payload(_) | Header::NameDistributor(_))
}

/// Whether the bytes are a packet that may stand inside a bundle: payload or name items. (This project's profile.)
pub fn may_be_bundled(bytes: &[u8]) -> bool
    ensures { IsTrue result ↔ IsInner bytes.now }
{
    match decode(bytes) {
        Ok(packet) => may_stand_inside(&packet.header),
        Err(_) => false,
    }
}

/// The packet that begins the bytes and may stand inside a bundle.
fn first_inner(bytes: &[u8]) -> Option<&[u8]>
    ensures some { IfSome result (λ packet. IsInner packet.now × (more : List ℕ) × (bytes.now ≡ packet.now ++ more)) }
    ensures none { IfNone result (BeginsNone bytes.now) }
{
    if bytes.len() < 4 {
        return None;
    }
    let size = message_size(bytes);
    if size > bytes.len() {
        return None;
    }
    let packet = &bytes[..size];
    if !may_be_bundled(packet) {
        return None;
    }
    Some(packet)
}

/// The packet that begins the bytes, where one does.
pub(crate) fn leading_packet(bytes: &[u8]) -> &[u8]
    requires { (packet : List ℕ) × (more : List ℕ) × IsInner packet × (bytes.now ≡ packet ++ more) }
    ensures { (packet : List ℕ) → (more : List ℕ) → IsInner packet → bytes.now ≡ packet ++ more → result.now ≡ packet }
{
    &bytes[..message_size(bytes)]
}

/// How many bytes the inner packet takes that begins the bytes, with its padding, or the place where they are bad.
pub(crate) fn first_padded(bytes: &[u8]) -> Result<usize, usize>
    requires { length bytes.now % 4 ≡ 0 }
    ensures ok { IfOk result (λ size. BeginsWell bytes.now size) }
    ensures err { IfErr result (λ place. BeginsBadly bytes.now place) }
{
    let Some(packet) = first_inner(bytes) else {
        return Err(0);
    };
    let size = packet.len();
    let end = padded_size(size);
    match first_nonzero(&bytes[size..end]) {
        Some(zeros) => Err(size + zeros),
        None => Ok(end),
    }
}
