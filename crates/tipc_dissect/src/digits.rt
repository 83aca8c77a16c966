//! Frames as hexadecimal.

ghost use Rattle.std.specs.Prelude.{◌≡◌, ◌<◌, ◌+◌, ◌*◌, ◌^◌, ◌⊎◌, ℕ, IfErr, IfOk, None, Some, length, not, position, true};
ghost use Rattle.std.specs.List.{AllPass};
ghost use Rattle.tipc_dissect.specs.Digits.{bad_place, is_digit, spelled_frame, value_of_digit};
ghost use Rattle.tipc_dissect.specs.declared.digits.FrameFault.TheVariants as faults;

use std::alloc::Global;
use tipc_types::NoMemory;

/// Why a line isn't read as a frame.
#[derive(Clone, Copy, Debug, PartialEq, Eq)]
pub enum FrameFault {
    /// It isn't an even number of digits of lower-case hexadecimal.
    BadLine {
        /// The place, from 1, of the first character that is no such digit; one past the line where all are digits.
        place: u32,
    },
    /// Memory ran out.
    NoMemory,
}

impl From<NoMemory> for FrameFault {
    ghost from_gives = { λ _ fault. fault ≡ faults.NoMemory };

    fn from(_error: NoMemory) -> FrameFault {
        FrameFault::NoMemory
    }
}

/// Whether a character is a digit of lower-case hexadecimal.
fn is_digit(byte: u8) -> bool
    ensures { result ≡ is_digit byte }
{
    (b'0' <= byte && byte <= b'9') || (b'a' <= byte && byte <= b'f')
}

/// The value of a digit. It is told without a branch, since no branch can be foreseen here: `0` to `9` are 48 to 57, `a`
/// to `f` 97 to 102.
fn value_of_digit(digit: u8) -> u8
    requires { is_digit digit ≡ true }
    ensures value { result ≡ value_of_digit digit }
    ensures small { result < 16 }
{
    digit % 16 + 9 * (digit / 64)
}

/// The index of the first character that is no digit.
fn first_other(line: &[u8]) -> Option<usize>
    ensures { result ≡ position (λ byte. not (is_digit byte)) line.now }
{
    line.iter().position(|byte| !is_digit(*byte))
}

/// Where a line isn't the spelling of a frame.
#[tactic(auto, unfolding(crate::specs::Digits::bad_place))]
fn bad_place(line: &[u8]) -> Option<u32>
    requires { length line.now < 2 ^ 31 }
    ensures { result ≡ bad_place line.now }
{
    match first_other(line) {
        Some(index) => Some(index as u32 + 1),
        None if line.len() % 2 == 1 => Some(line.len() as u32 + 1),
        None => None,
    }
}

/// The byte that two digits spell, of which the first is the higher.
fn byte_of(high: u8, low: u8) -> u8
    requires high { is_digit high ≡ true }
    requires low { is_digit low ≡ true }
    ensures { result ≡ value_of_digit high * 16 + value_of_digit low }
{
    value_of_digit(high) * 16 + value_of_digit(low)
}

/// The bytes that digits spell, two for each.
fn read_digits(alloc: Global, line: &[u8]) -> Result<Vec<u8>, NoMemory>
    requires { AllPass is_digit line.now }
    ensures { IfOk result (λ frame. frame.items ≡ spelled_frame line.now) }
{
    let count = line.len() / 2;
    let mut frame = Vec::with_capacity(alloc, count)?;
    for index in 0..count {
        frame.push(byte_of(line[2 * index], line[2 * index + 1]))?;
    }
    Ok(frame)
}

/// The frame that a line spells, two digits of lower-case hexadecimal for each byte. (This project's profile.)
///
/// # Errors
///
/// `BadLine` exactly where the line isn't an even number of such digits.
pub fn frame_in(alloc: Global, line: &[u8]) -> Result<Vec<u8>, FrameFault>
    requires { length line.now < 2 ^ 31 }
    ensures ok { IfOk result (λ frame. (frame.items ≡ spelled_frame line.now) × (bad_place line.now ≡ None)) }
    ensures bad { IfErr result (λ fault. (fault ≡ FrameFault.NoMemory) ⊎
        ((place : ℕ) × (fault ≡ FrameFault.BadLine place) × (bad_place line.now ≡ Some place))) }
{
    if let Some(place) = bad_place(line) {
        return Err(FrameFault::BadLine { place });
    }
    Ok(read_digits(alloc, line)?)
}
