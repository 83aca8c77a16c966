//! What the calls of a receive window mean over positions, for every state of a window. The functions do nothing:
//! their contracts are the laws.
ghost use Rattle.tipc_recv_window.specs.Laws.{AllAnswersByPosition, AllArriveByPosition, HoldsByPosition, NumbersTellPositions};

/// Positions at most 32,000 apart with one number are one position.
pub fn numbers_tell_positions()
    ensures { NumbersTellPositions }
{}

/// A packet of a position at most 32,000 from the wanted one does what the distance of the two positions says, and
/// nothing where it lies before the wanted one. The wanted position may be any whose number the window wants.
pub fn arrives_by_position()
    ensures { AllArriveByPosition }
{}

/// A packet of a position at most 32,000 from the wanted one is in order exactly where it is the wanted one and
/// isn't held, and deferred exactly where it is one of the next 49 and isn't held. Otherwise it is old.
pub fn answers_by_position()
    ensures { AllAnswersByPosition }
{}

/// A packet is held at its distance from the wanted one until it is the wanted one, and then it is taken, once and
/// with its number.
pub fn holds_by_position()
    ensures { HoldsByPosition }
{}
