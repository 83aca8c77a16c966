//! Laws of the grammar, for callers: each is the contract of a function that does nothing.

ghost use Rattle.std.specs.Prelude.{◌≡◌, ◌≤◌, ◌<◌, ◌+◌, ◌*◌, ◌^◌, ◌++◌, ℕ, List, length, take, drop, None, false};
ghost use Rattle.tipc_header.specs.Users.{header_size, is_non_sequenced};
ghost use Rattle.tipc_header.specs.Spelling.{Fields, word, from_bit, numbers_size, renumbered, spelling};
ghost use Rattle.tipc_header.specs.Grammar.{Fits};
ghost use Rattle.tipc_header.specs.Reading.{field, fields_at};
ghost use Rattle.tipc_header.specs.Faults.{fault_of};

/// The spelling of a packet breaks no rule, and that packet is read from it.
pub fn spellings_are_read_again()
    ensures no_fault { (p : Fields) → Fits p → fault_of (spelling p) ≡ None }
    ensures again { (p : Fields) → Fits p → fields_at (spelling p) ≡ p }
{}

/// Two packets that are spelled alike are the same packet.
pub fn one_packet_a_spelling()
    ensures { (p : Fields) → (q : Fields) → Fits p → Fits q → spelling p ≡ spelling q → p ≡ q }
{}

/// A spelling has the bytes of its header words, of the numbers behind them and of the rest, which
/// are at least 24 and fit the size field.
pub fn length_of_spelling()
    ensures exact { (p : Fields) →
        length (spelling p) ≡ 4 * header_size p.header + numbers_size p.header + length p.rest }
    ensures least { (p : Fields) → 24 ≤ length (spelling p) }
    ensures most { (p : Fields) → Fits p → length (spelling p) < 2 ^ 17 }
{}

/// The size field of a packet is its length, whatever follows it.
pub fn size_field_of_spelling()
    ensures { (p : Fields) → (more : List ℕ) → Fits p → field 0 16 0 (spelling p ++ more) ≡ length (spelling p) }
{}

/// A packet under other numbers differs in word 2 alone, its bytes 8 to 11. Where its user is
/// sequenced it may have any numbers.
pub fn word_2_stands_alone()
    ensures bytes { (p : Fields) → (acknowledgement : ℕ) → (sequence : ℕ) →
        spelling (renumbered p acknowledgement sequence) ≡ take 8 (spelling p) ++
        word (from_bit 16 acknowledgement + sequence) ++ drop 12 (spelling p) }
    ensures fits { (p : Fields) → (acknowledgement : ℕ) → (sequence : ℕ) → Fits p →
        is_non_sequenced p.header ≡ false → acknowledgement < 2 ^ 16 → sequence < 2 ^ 16 →
        Fits (renumbered p acknowledgement sequence) }
{}
