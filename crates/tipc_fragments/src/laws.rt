//! Laws of cutting and joining, for callers: each is the contract of a function that does nothing.

ghost use Rattle.std.specs.Prelude.{◌≡◌, ℕ, ◌+◌, ◌<◌, ◌≤◌, ◌^◌, All, List, length, slice_get};
ghost use Rattle.std.specs.List.{flat_map};
ghost use Rattle.tipc_types.specs.Prefixes.{IsPrefixOf};
ghost use Rattle.tipc_header.specs.Frames.{sent_as};
ghost use Rattle.tipc_header.specs.Grammar.{Fits};
ghost use Rattle.tipc_header.specs.Spelling.{spelling};
ghost use Rattle.tipc_fragments.specs.declared.cutting.TheConstants.{FRAGMENT_BYTES, LEAST_CUT, MOST_CUT};
ghost use Rattle.tipc_fragments.specs.Cutting.{count_of, fragment_fields, Piece, piece_after, pieces_of};
ghost use Rattle.tipc_fragments.specs.Laws.{Came, IsBegun, IsLong, IsPiece, IsWhole, JoinsFront, pieces_in};
ghost use Rattle.tipc_fragments.specs.Streams.{CameItem, GivesFront, IsMessage, items_in, items_of};

/// The numbers that callers go by: which messages are cut, and how much of one each fragment has but the last.
pub fn lengths_are_these()
    ensures fragment { FRAGMENT_BYTES ≡ 1412 }
    ensures least { LEAST_CUT ≡ 1453 }
    ensures most { MOST_CUT ≡ 66044 }
{}

/// The bytes of a message's fragments, one behind the other, are the message. The fragments are numbered from 1,
/// and each but the last has 1,412 bytes.
pub fn fragments_are_the_message()
    ensures bytes { (message : List ℕ) → flat_map (λ p. p.bytes) (pieces_of message) ≡ message }
    ensures count { (message : List ℕ) → length (pieces_of message) ≡ count_of message }
    ensures each { (message : List ℕ) (before : ℕ) → before < count_of message →
        (slice_get (pieces_of message) before ≡ Some (piece_after message before)) ×
        IsPiece (count_of message) before (piece_after message before) }
{}

/// The packets of a message's fragments fit the grammar, under whatever numbers and by whatever node they are sent,
/// and have 40 bytes besides those of the message.
pub fn fragments_fit()
    ensures sent { (message : List ℕ) (acknowledgement sequence previous : ℕ) → length message ≤ 66044 →
        acknowledgement < 2 ^ 16 → sequence < 2 ^ 16 → previous < 2 ^ 32 →
        All (λ p. Fits (sent_as acknowledgement sequence previous (fragment_fields p))) (pieces_of message) }
    ensures size { (p : Piece) → length (spelling (fragment_fields p)) ≡ 40 + length p.bytes }
{}

/// Fragments of one message that come in order to a joiner with none begun: as long as not every one came, more is
/// to come, and what came is begun. The last one gives the message with the arrival numbers of all, and leaves the
/// joiner as new.
pub fn one_message_is_joined()
    ensures more { (message : List ℕ) (came : List Came) → IsLong message →
        IsPrefixOf (pieces_in came) (pieces_of message) → length came < count_of message → IsBegun message came }
    ensures whole { (message : List ℕ) (came : List Came) → IsLong message → pieces_in came ≡ pieces_of message →
        IsWhole message came }
{}

/// A front of the fragments of several messages, joined one after the other by one joiner, gives a front of the
/// messages, in order, each with the arrival numbers of its own fragments.
pub fn a_front_of_fragments_gives_a_front_of_messages()
    ensures { (messages : List (List ℕ)) (came : List Came) → All IsLong messages →
        IsPrefixOf (pieces_in came) (flat_map pieces_of messages) → JoinsFront messages came }
{}

/// The same of packets that come in one flow, where a message that fits one packet comes in a packet of its own and
/// any other by its fragments: a front of the packets of several messages gives a front of the messages. A message
/// in a packet of its own leaves the joiner as it is.
pub fn a_front_of_packets_gives_a_front_of_messages()
    ensures { (messages : List (List ℕ)) (came : List CameItem) → All IsMessage messages →
        IsPrefixOf (items_in came) (flat_map items_of messages) → GivesFront messages came }
{}
