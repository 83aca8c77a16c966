//! What each user asks of its header: the bits that no field has are zero, and its counts and the
//! number of bytes that follow are allowed.

ghost use Rattle.std.specs.Prelude.{◌≡◌, ◌≤◌, length};
ghost use Rattle.tipc_header.specs.Faults.{word_0_is_clean, payload_is_clean, bundle_is_clean, state_is_clean, reset_is_clean, changeover_is_clean, distribution_is_clean, fragment_is_clean, discovery_is_clean, user_is_clean};

use crate::bits::{are_zero, field_of, word};

/// Whether word 0 is allowed for this user: bit 17 is zero, bit 20 is set exactly where the user's packets have no
/// number, and only a message between ports may be dropped.
#[tactic(auto, unfolding(crate::specs::Faults::word_0_is_clean))]
pub(crate) fn is_first_word_clean(user: u32, bytes: &[u8]) -> bool
    requires { 24 ≤ length bytes.now }
    ensures { result ≡ word_0_is_clean user bytes.now }
{
    let non_sequenced = if user == 7 || user == 13 { 1 } else { 0 };
    field_of(bytes, 0, 17, 17) == 0
        && field_of(bytes, 0, 20, 20) == non_sequenced
        && (user <= 3 || are_zero(&[field_of(bytes, 0, 19, 19), field_of(bytes, 0, 18, 18)]))
}

/// Whether the fields of this user and type are allowed, from word 1 on.
#[tactic(auto, unfolding(crate::specs::Faults::user_is_clean))]
pub(crate) fn is_user_clean(user: u32, message_type: u32, bytes: &[u8]) -> bool
    requires short { 24 ≤ length bytes.now }
    requires long { 4 ≤ user → 40 ≤ length bytes.now }
    ensures { result ≡ user_is_clean user message_type bytes.now }
{
    match user {
        0..=3 => is_payload_clean(bytes),
        6 => is_bundle_clean(bytes),
        7 if message_type == 0 => is_state_clean(bytes),
        7 => is_reset_clean(bytes),
        10 => is_changeover_clean(bytes),
        11 => is_distribution_clean(bytes),
        12 => is_fragment_clean(bytes),
        _ => is_discovery_clean(bytes),
    }
}

/// Whether the fields of a message between ports are allowed: the unused bits are zero, and the error code is at most
/// 5.
#[tactic(auto, unfolding(crate::specs::Faults::payload_is_clean))]
fn is_payload_clean(bytes: &[u8]) -> bool
    requires { 24 ≤ length bytes.now }
    ensures { result ≡ payload_is_clean bytes.now }
{
    field_of(bytes, 1, 18, 16) == 0 && field_of(bytes, 1, 28, 25) <= 5
}

/// Whether the fields of a bundle are allowed: at least 2 packets, in a multiple of 4 bytes.
#[tactic(auto, unfolding(crate::specs::Faults::bundle_is_clean))]
fn is_bundle_clean(bytes: &[u8]) -> bool
    requires { 40 ≤ length bytes.now }
    ensures { result ≡ bundle_is_clean bytes.now }
{
    let unused = [
        field_of(bytes, 1, 28, 16),
        field_of(bytes, 4, 15, 0),
        word(bytes, 5),
        word(bytes, 6),
        word(bytes, 7),
        word(bytes, 8),
        word(bytes, 9),
    ];
    are_zero(&unused) && field_of(bytes, 4, 31, 16) >= 2 && (bytes.len() - 40) % 4 == 0
}

/// Whether the fields of a STATE are allowed, behind which nothing follows.
#[tactic(auto, unfolding(crate::specs::Faults::state_is_clean))]
fn is_state_clean(bytes: &[u8]) -> bool
    requires { 40 ≤ length bytes.now }
    ensures { result ≡ state_is_clean bytes.now }
{
    let unused = [
        field_of(bytes, 2, 15, 0),
        word(bytes, 6),
        field_of(bytes, 8, 31, 7),
        word(bytes, 9),
    ];
    are_zero(&unused) && bytes.len() == 40
}

/// Whether the fields of a RESET or an ACTIVATE are allowed, behind whose contact numbers nothing follows.
#[tactic(auto, unfolding(crate::specs::Faults::reset_is_clean))]
fn is_reset_clean(bytes: &[u8]) -> bool
    requires { 40 ≤ length bytes.now }
    ensures { result ≡ reset_is_clean bytes.now }
{
    let unused = [
        field_of(bytes, 1, 28, 0),
        word(bytes, 2),
        word(bytes, 4),
        word(bytes, 5),
        word(bytes, 6),
        field_of(bytes, 8, 31, 7),
        field_of(bytes, 8, 1, 0),
        word(bytes, 9),
    ];
    are_zero(&unused) && bytes.len() == 56
}

/// Whether the fields of a tunnel packet are allowed; in a run of 0 the inner number is 0 and nothing follows.
#[tactic(auto, unfolding(crate::specs::Faults::changeover_is_clean))]
fn is_changeover_clean(bytes: &[u8]) -> bool
    requires { 40 ≤ length bytes.now }
    ensures { result ≡ changeover_is_clean bytes.now }
{
    let unused = [
        field_of(bytes, 1, 28, 16),
        field_of(bytes, 5, 31, 1),
        word(bytes, 6),
        word(bytes, 7),
        word(bytes, 8),
        word(bytes, 9),
    ];
    let is_run = field_of(bytes, 4, 31, 16) > 0;
    are_zero(&unused)
        && bytes.len() >= 48
        && (is_run || (field_of(bytes, 4, 15, 0) == 0 && bytes.len() == 48))
}

/// Whether the fields of name items are allowed: 1 to 70 items of 20 bytes follow.
#[tactic(auto, unfolding(crate::specs::Faults::distribution_is_clean))]
fn is_distribution_clean(bytes: &[u8]) -> bool
    requires { 40 ≤ length bytes.now }
    ensures { result ≡ distribution_is_clean bytes.now }
{
    let unused = [
        field_of(bytes, 1, 28, 16),
        word(bytes, 4),
        word(bytes, 5),
        word(bytes, 6),
        word(bytes, 7),
        word(bytes, 8),
        word(bytes, 9),
    ];
    let items = bytes.len() - 40;
    are_zero(&unused) && items >= 20 && items <= 1400 && items % 20 == 0
}

/// Whether the fields of a fragment are allowed: its number is at least 1, and 1 to 1,412 bytes follow.
#[tactic(auto, unfolding(crate::specs::Faults::fragment_is_clean))]
fn is_fragment_clean(bytes: &[u8]) -> bool
    requires { 40 ≤ length bytes.now }
    ensures { result ≡ fragment_is_clean bytes.now }
{
    let unused = [
        field_of(bytes, 1, 28, 16),
        field_of(bytes, 4, 31, 16),
        word(bytes, 5),
        word(bytes, 6),
        word(bytes, 7),
        word(bytes, 8),
        word(bytes, 9),
    ];
    let piece = bytes.len() - 40;
    are_zero(&unused) && field_of(bytes, 4, 15, 0) >= 1 && piece >= 1 && piece <= 1412
}

/// Whether the fields of a discovery packet are allowed, behind which nothing follows.
#[tactic(auto, unfolding(crate::specs::Faults::discovery_is_clean))]
fn is_discovery_clean(bytes: &[u8]) -> bool
    requires { 40 ≤ length bytes.now }
    ensures { result ≡ discovery_is_clean bytes.now }
{
    let unused = [
        field_of(bytes, 1, 28, 0),
        word(bytes, 2),
        word(bytes, 5),
        word(bytes, 6),
        word(bytes, 7),
        word(bytes, 8),
        word(bytes, 9),
    ];
    are_zero(&unused) && bytes.len() == 40
}
