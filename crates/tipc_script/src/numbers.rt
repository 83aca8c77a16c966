//! Numbers in a script.

ghost use Rattle.std.specs.Prelude.{◌≡◌, ℕ, ◌<◌, ◌≤◌, ◌^◌, Some, None, if◌then◌else◌, MatchOption, IfSome, IsTrue, ◌↔◌, length};
ghost use Rattle.std.specs.Fmt.{decimal};
ghost use Rattle.std.specs.Str.Parse.{AllDigits};
ghost use Rattle.tipc_script.specs.Kinds.{is_number, number_of, has_plain_front};

/// How many digits are read at most: those of 4,294,967,295.
const MOST_DIGITS: usize = 10;

/// Whether there is a digit or more, and no zero in front of others.
fn has_plain_front(token: &[u8]) -> bool
    ensures { result ≡ has_plain_front token.now }
{
    match token {
        [] => false,
        [b'0', _, ..] => false,
        [_, ..] => true,
    }
}

/// The number that a token's digits stand for; None where not each byte is a digit.
fn digits_in(token: &[u8]) -> Option<u64>
    requires { length token.now ≤ 10 }
    ensures { MatchOption result (AllDigits 10 token.now → ⊥) (λ number. AllDigits 10 token.now ×
        (number ≡ number_of token.now)) }
{
    let mut number: u64 = 0;
    for byte in token {
        if !byte.is_ascii_digit() {
            return None;
        }
        number = number * 10 + u64::from(*byte - b'0');
    }
    Some(number)
}

/// The number that a token spells without sign or leading zero; None where it spells none below
/// 10,000,000,000.
fn number_spelled(token: &[u8]) -> Option<u64>
    ensures { MatchOption result ((n : ℕ) → n < 10 ^ 10 → token.now ≡ decimal n →
        ⊥) (λ n. (n ≡ number_of token.now) × (token.now ≡ decimal n)) }
{
    if token.len() > MOST_DIGITS || !has_plain_front(token) {
        return None;
    }
    digits_in(token)
}

/// The number from `low` to `high` that a token spells, in decimal digits without sign or leading zero; None where it
/// spells none.
pub fn number_in(token: &[u8], low: u32, high: u32) -> Option<u32>
    ensures value { result ≡ (if is_number low high token.now then Some (number_of token.now) else None) }
    ensures bounds { IfSome result (λ n. (low ≤ n) × (n ≤ high)) }
{
    let number = number_spelled(token)?;
    if number < u64::from(low) || number > u64::from(high) {
        return None;
    }
    Some(number as u32)
}
