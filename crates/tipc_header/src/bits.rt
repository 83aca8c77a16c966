//! Words and fields in bytes.

ghost use Rattle.std.specs.Prelude.{◌≡◌, ◌+◌, ◌*◌, ◌<◌, ◌≤◌, length};
ghost use Rattle.tipc_header.specs.Reading.{word_at, bits, field, flag, long_at};
ghost use Rattle.tipc_header.specs.Faults.{all_zero};

/// The word of this index, 32 bits in network order; the first has index 0 (TIPC 2.0 draft).
#[tactic(auto, unfolding(crate::specs::Reading::word_at))]
pub fn word(bytes: &[u8], index: usize) -> u32
    requires { 4 * index + 4 ≤ length bytes.now }
    ensures { result ≡ word_at index bytes.now }
{
    let at = 4 * index;
    u32::from_be_bytes([bytes[at], bytes[at + 1], bytes[at + 2], bytes[at + 3]])
}

/// The bits of a word from the high one down to the low one.
fn bits_of(word: u32, high: u32, low: u32) -> u32
    requires order { low ≤ high }
    requires range { high < 32 }
    ensures { result ≡ bits high low word }
{
    ((u64::from(word) >> low) % (1u64 << (high + 1 - low))) as u32
}

/// The field of the word of this index in these bits.
pub(crate) fn field_of(bytes: &[u8], index: usize, high: u32, low: u32) -> u32
    requires room { 4 * index + 4 ≤ length bytes.now }
    requires order { low ≤ high }
    requires range { high < 32 }
    ensures { result ≡ field index high low bytes.now }
{
    bits_of(word(bytes, index), high, low)
}

/// A field of at most 16 bits.
pub(crate) fn short_field(bytes: &[u8], index: usize, high: u32, low: u32) -> u16
    requires room { 4 * index + 4 ≤ length bytes.now }
    requires order { low ≤ high }
    requires range { high < 32 }
    requires width { high < low + 16 }
    ensures { result ≡ field index high low bytes.now }
{
    field_of(bytes, index, high, low) as u16
}

/// A field of at most 8 bits.
pub(crate) fn byte_field(bytes: &[u8], index: usize, high: u32, low: u32) -> u8
    requires room { 4 * index + 4 ≤ length bytes.now }
    requires order { low ≤ high }
    requires range { high < 32 }
    requires width { high < low + 8 }
    ensures { result ≡ field index high low bytes.now }
{
    field_of(bytes, index, high, low) as u8
}

/// Whether the bit of the word of this index is 1.
pub(crate) fn is_set(bytes: &[u8], index: usize, place: u32) -> bool
    requires room { 4 * index + 4 ≤ length bytes.now }
    requires range { place < 32 }
    ensures { result ≡ flag index place bytes.now }
{
    field_of(bytes, index, place, place) == 1
}

/// The number of 64 bits that begins with the word of this index, its high half first, as epochs and contact numbers
/// stand in packets (this project's profile).
pub fn long(bytes: &[u8], index: usize) -> u64
    requires { 4 * index + 8 ≤ length bytes.now }
    ensures { result ≡ long_at index bytes.now }
{
    u64::from(word(bytes, index)) * (1 << 32) + u64::from(word(bytes, index + 1))
}

/// Whether each of these fields is 0.
pub(crate) fn are_zero(fields: &[u32]) -> bool
    ensures { result ≡ all_zero fields.now }
{
    fields.iter().all(|field| *field == 0)
}
