//! Laws of bundles, for callers: each is the contract of a function that does nothing.

ghost use Rattle.std.specs.Prelude.{◌≡◌, ◌+◌, ◌≤◌, ◌<◌, ◌^◌, ◌∷◌, [], ℕ, List, length};
ghost use Rattle.std.specs.List.{All, sum_by};
ghost use Rattle.tipc_header.specs.Frames.{stamped};
ghost use Rattle.tipc_header.specs.Grammar.{Fits};
ghost use Rattle.tipc_header.specs.Spelling.{spelling};
ghost use Rattle.tipc_bundle.specs.Bundles.{bundle_of, joined, padded_size, Carries, IsInner};
ghost use Rattle.tipc_bundle.specs.Splitting.{AreInside, IsBundle, IsFirstBad};

/// Packets that were joined are split again: several inner packets, however many, are joined to a bundle, and they and
/// no others stand in it, in their order.
pub fn joined_packets_are_split_again()
    ensures bundle { (packets : List (List ℕ)) → All IsInner packets → 2 ≤ length packets →
        length (joined packets) < 2 ^ 17 → IsBundle (joined packets) }
    ensures inside { (packets : List (List ℕ)) → All IsInner packets → 2 ≤ length packets →
        length (joined packets) < 2 ^ 17 → AreInside packets (joined packets) }
    ensures alone { (packets : List (List ℕ)) → (others : List (List ℕ)) → All IsInner packets → 2 ≤ length packets →
        length (joined packets) < 2 ^ 17 → AreInside others (joined packets) → others ≡ packets }
{}

/// So they are when the bundle was sent, under whatever numbers and by whatever node.
pub fn sent_packets_are_split_again()
    ensures bundle { (packets : List (List ℕ)) → (acknowledgement : ℕ) → (sequence : ℕ) → (previous : ℕ) →
        All IsInner packets → 2 ≤ length packets → length (joined packets) < 2 ^ 17 →
        acknowledgement < 2 ^ 16 → sequence < 2 ^ 16 → previous < 2 ^ 32 →
        IsBundle (stamped acknowledgement sequence previous (joined packets)) }
    ensures inside { (packets : List (List ℕ)) → (acknowledgement : ℕ) → (sequence : ℕ) → (previous : ℕ) →
        All IsInner packets → 2 ≤ length packets → length (joined packets) < 2 ^ 17 →
        acknowledgement < 2 ^ 16 → sequence < 2 ^ 16 → previous < 2 ^ 32 →
        AreInside packets (stamped acknowledgement sequence previous (joined packets)) }
{}

/// Several packets that were joined are spelled as one packet, which the grammar of packets allows: a header of 40
/// bytes, and each of them in as many bytes as its size, rounded up to a multiple of 4.
pub fn joined_packets_are_a_packet()
    ensures spelled { (packets : List (List ℕ)) → 2 ≤ length packets → joined packets ≡ spelling (bundle_of packets) }
    ensures size { (packets : List (List ℕ)) → 2 ≤ length packets →
        length (joined packets) ≡ 40 + sum_by (λ packet. padded_size (length packet)) packets }
    ensures fits { (packets : List (List ℕ)) → All IsInner packets → 2 ≤ length packets →
        length (joined packets) < 2 ^ 17 → Fits (bundle_of packets) }
{}

/// A packet that may stand inside a bundle waits for itself alone, and no bytes wait for two lists of packets.
pub fn one_list_waits()
    ensures itself { (packet : List ℕ) → IsInner packet → Carries packet (packet ∷ []) }
    ensures once { (bytes : List ℕ) → (packets : List (List ℕ)) → (others : List (List ℕ)) → Carries bytes packets →
        Carries bytes others → packets ≡ others }
{}

/// One list of packets at most stands in a bundle, and one place at most is bad first, and never both.
pub fn one_answer_a_bundle()
    ensures packets { (bundle : List ℕ) → (packets : List (List ℕ)) → (others : List (List ℕ)) →
        AreInside packets bundle → AreInside others bundle → packets ≡ others }
    ensures place { (bundle : List ℕ) → (place : ℕ) → (other : ℕ) → IsFirstBad bundle place →
        IsFirstBad bundle other → place ≡ other }
    ensures apart { (bundle : List ℕ) → (packets : List (List ℕ)) → (place : ℕ) → AreInside packets bundle →
        IsFirstBad bundle place → ⊥ }
{}
