//! Bytes to packets.

ghost use Rattle.std.specs.Prelude.{◌≡◌, ◌≤◌, ◌*◌, length, Some, None, IfOk, IsOkAnd, MatchResult};
ghost use Rattle.tipc_header.specs.Spelling.{Fields, view, spelling};
ghost use Rattle.tipc_header.specs.Grammar.{Fits};
ghost use Rattle.tipc_header.specs.Reading.{field, user_at, type_at, size_in_words, header_at, rest_start, fields_at};
ghost use Rattle.tipc_header.specs.Faults.{HasFields, has_user, types_of, size_of_type, has_header, has_size, has_type, is_clean, fault_of};

use crate::bits::{field_of, short_field, word};
use crate::fault::HeaderFault;
use crate::packet::Packet;
use crate::reading::header;
use crate::reserved::{is_first_word_clean, is_user_clean};

/// Whether a user has this number.
fn is_user(user: u32) -> bool
    ensures { result ≡ has_user user }
{
    user <= 3 || user == 6 || user == 7 || user == 10 || user == 11 || user == 12 || user == 13
}

/// How many types a user has.
fn types(user: u32) -> u32
    ensures { result ≡ types_of user }
{
    match user {
        0..=3 => 4,
        6 => 1,
        7 | 12 => 3,
        _ => 2,
    }
}

/// The header size in words of a type.
fn type_size(user: u32, message_type: u32) -> usize
    ensures { result ≡ size_of_type user message_type }
{
    if user > 3 {
        return 10;
    }
    match message_type {
        0 => 6,
        1 => 11,
        2 => 10,
        _ => 8,
    }
}

/// Whether the header size is one that there is, and the bytes have it.
fn has_whole_header(bytes: &[u8]) -> bool
    requires { 24 ≤ length bytes.now }
    ensures { result ≡ has_header bytes.now }
{
    let size = field_of(bytes, 0, 24, 21) as usize;
    (size == 6 || size == 8 || size == 10 || size == 11) && 4 * size <= bytes.len()
}

/// The user number of tunnel packets. (TIPC 2.0 draft, changeover protocol.)
pub const CHANGEOVER_USER: u32 = 10;

/// The user number that the first word tells, whether or not the bytes are a packet.
pub fn user_number(bytes: &[u8]) -> u32
    requires { 4 ≤ length bytes.now }
    ensures { result ≡ user_at bytes.now }
{
    field_of(bytes, 0, 28, 25)
}

/// The message size in bytes that the first word tells, whatever follows the packet.
pub fn message_size(bytes: &[u8]) -> usize
    requires { 4 ≤ length bytes.now }
    ensures { result ≡ field 0 16 0 bytes.now }
{
    field_of(bytes, 0, 16, 0) as usize
}

/// Whether the size field is the number of bytes, which payload may not have without end.
fn has_right_size(bytes: &[u8]) -> bool
    requires short { 24 ≤ length bytes.now }
    requires header { 4 * size_in_words bytes.now ≤ length bytes.now }
    ensures { result ≡ has_size bytes.now }
{
    let header = 4 * field_of(bytes, 0, 24, 21) as usize;
    message_size(bytes) == bytes.len() && (user_number(bytes) > 3 || bytes.len() - header <= 66_000)
}

/// Whether the user has the type, and the type the header size.
fn has_type_of_user(bytes: &[u8]) -> bool
    requires { 24 ≤ length bytes.now }
    ensures { result ≡ has_type bytes.now }
{
    let user = user_number(bytes);
    let message_type = field_of(bytes, 1, 31, 29);
    message_type < types(user)
        && field_of(bytes, 0, 24, 21) as usize == type_size(user, message_type)
}

/// Whether every field is allowed.
fn has_allowed_fields(bytes: &[u8]) -> bool
    requires short { 24 ≤ length bytes.now }
    requires long { 4 ≤ user_at bytes.now → 40 ≤ length bytes.now }
    ensures { result ≡ is_clean bytes.now }
{
    let user = user_number(bytes);
    let message_type = field_of(bytes, 1, 31, 29);
    is_first_word_clean(user, bytes) && is_user_clean(user, message_type, bytes)
}

/// The first rule that the bytes break.
#[tactic(auto, unfolding(crate::specs::Faults::fault_of))]
fn first_fault(bytes: &[u8]) -> Option<HeaderFault>
    ensures { result ≡ fault_of bytes.now }
{
    if bytes.len() < 24 {
        return Some(HeaderFault::Short);
    }
    if field_of(bytes, 0, 31, 29) != 2 {
        return Some(HeaderFault::Version);
    }
    if !has_whole_header(bytes) {
        return Some(HeaderFault::HeaderSize);
    }
    if !has_right_size(bytes) {
        return Some(HeaderFault::Size);
    }
    if !is_user(user_number(bytes)) {
        return Some(HeaderFault::User);
    }
    if !has_type_of_user(bytes) {
        return Some(HeaderFault::Type);
    }
    if !has_allowed_fields(bytes) {
        return Some(HeaderFault::Reserved);
    }
    None
}

/// The packet that the bytes are, where they have every field of their user and type.
#[tactic(auto, unfolding(crate::specs::Reading::fields_at))]
fn packet(bytes: &[u8]) -> Packet<'_>
    requires fields { HasFields bytes.now }
    requires rest { rest_start (header_at (user_at bytes.now) (type_at bytes.now) bytes.now) ≤ length bytes.now }
    ensures { view result ≡ fields_at bytes.now }
{
    let header = header(bytes);
    let start = 4 * header.words() + header.numbers_size();
    Packet {
        acknowledgement: short_field(bytes, 2, 31, 16),
        sequence: short_field(bytes, 2, 15, 0),
        previous: word(bytes, 3),
        header,
        rest: &bytes[start..],
    }
}

/// The packet that the bytes spell.
///
/// # Errors
///
/// The first rule that they break, in the order of [`HeaderFault`].
pub fn decode(bytes: &[u8]) -> Result<Packet<'_>, HeaderFault>
    // The packet that is given is one of the grammar, and the bytes are its spelling.
    ensures spells { IfOk result (λ p. Fits (view p) × (bytes.now ≡ spelling (view p))) }
    // Bytes that spell a packet of the grammar are decoded, to that packet.
    ensures only { (p : Fields) → Fits p → bytes.now ≡ spelling p → IsOkAnd result (λ q. view q ≡ p) }
    // Each field has the value that stands at its place in the bytes.
    ensures read { IfOk result (λ p. view p ≡ fields_at bytes.now) }
    // The fault is the first rule that the bytes break.
    ensures fault { MatchResult result (λ p. fault_of bytes.now ≡ None) (λ e. fault_of bytes.now ≡ Some e) }
{
    match first_fault(bytes) {
        None => Ok(packet(bytes)),
        Some(fault) => Err(fault),
    }
}
