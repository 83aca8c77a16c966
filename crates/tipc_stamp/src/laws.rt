//! A law of stamps, for callers: the contract of a function that does nothing.

ghost use Rattle.tipc_stamp.specs.Laws.{AllAreDrawn, AreBelow, AreDrawnOnce, AreOfOneSeat};

/// Wherever the rule of the stamps holds, which is between any two steps: each number that a seat drew is below the
/// word, a seat drew none twice, no two seats drew the same, and none below the word is left out.
pub fn each_number_is_drawn_once()
    ensures below { AreBelow }
    ensures once { AreDrawnOnce }
    ensures one { AreOfOneSeat }
    ensures all { AllAreDrawn }
{}
