//! A law of inboxes, for callers: the contract of a function that does nothing.

ghost use Rattle.tipc_inbox.specs.Laws.{OneGives, OneTakes, AreTakenInOrder};

/// Wherever the rule of an inbox holds, which is between any two steps: one end gives and one takes, and what was taken
/// is a front of what was offered and not given back, with at most 128 messages behind it, which are held.
pub fn messages_are_taken_in_order()
    ensures gives { OneGives }
    ensures takes { OneTakes }
    ensures order { AreTakenInOrder }
{}
