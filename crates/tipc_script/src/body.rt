//! The body of a message in a script: plain text, or a length.

ghost use Rattle.std.specs.Prelude.{◌≡◌, ◌≤◌, IfOk, Some, None, if◌then◌else◌, drop};
ghost use Rattle.std.specs.Option.{option_copied};
ghost use Rattle.std.specs.List.{list_all};
ghost use Rattle.tipc_script.specs.Kinds.{is_text, is_count, is_body, is_visible, number_of, pattern, body_of};

use crate::numbers::number_in;
use std::alloc::Global;
use tipc_types::{Body, Bytes, NoMemory};

/// The most characters of a body that is written out.
const LONGEST_TEXT: usize = 64;

/// The most bytes of a body of the pattern.
const LONGEST_PATTERN: u32 = 70_000;

/// Whether each byte is a visible character, from 33 to 126.
pub fn is_visible(text: &[u8]) -> bool
    ensures { result ≡ list_all is_visible text.now }
{
    text.iter().all(|byte| 33 <= *byte && *byte <= 126)
}

/// What stands behind `=`, where it is 1 to 64 characters.
#[tactic(auto, unfolding(crate::specs::Kinds::is_text))]
fn text_in(token: &[u8]) -> Option<&[u8]>
    ensures { option_copied result ≡ (if is_text token.now then Some (drop 1 token.now) else None) }
{
    let [b'=', text @ ..] = token else {
        return None;
    };
    if text.is_empty() || text.len() > LONGEST_TEXT || !is_visible(text) {
        return None;
    }
    Some(text)
}

/// The number that stands behind `*`, up to 70,000.
#[tactic(auto, unfolding(crate::specs::Kinds::is_count))]
fn count_in(token: &[u8]) -> Option<u32>
    ensures { result ≡ (if is_count token.now then Some (number_of (drop 1 token.now)) else None) }
{
    let [b'*', digits @ ..] = token else {
        return None;
    };
    number_in(digits, 0, LONGEST_PATTERN)
}

/// The first bytes of the pattern, so many: byte k, from 0, is k modulo 251. (This project's profile.)
fn pattern(alloc: Global, count: u32) -> Result<Bytes, NoMemory>
    ensures { IfOk result (λ bytes. bytes ≡ pattern count) }
{
    let mut bytes = Bytes::new(alloc);
    for place in 0..count {
        bytes.push((place % 251) as u8)?;
    }
    Ok(bytes)
}

/// The bytes that a token stands for as a body; None where it is no body.
#[tactic(auto, unfolding(crate::specs::Kinds::body_of))]
pub fn body_in(alloc: Global, token: &[u8]) -> Result<Option<Body>, NoMemory>
    ensures { IfOk result (λ body. body ≡ (if is_body token.now then Some (body_of token.now) else None)) }
{
    if let Some(count) = count_in(token) {
        let bytes = pattern(alloc, count)?;
        return Ok(Some(Body::from_vec(bytes.into_vec())?));
    }
    if let Some(text) = text_in(token) {
        return Ok(Some(Body::from_slice(alloc, text)?));
    }
    Ok(None)
}
