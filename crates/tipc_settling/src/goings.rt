//! The sessions of a pair go on while no link goes up or down. The laws do nothing when they run.

ghost use Rattle.std.specs.Prelude.{◌≡◌, ℕ, List, [], Option};
ghost use Rattle.tipc_outside.specs.declared.outgoing.Outgoing.{Outgoing};
ghost use Rattle.tipc_pair.specs.Facing.{PairEnds};
ghost use Rattle.tipc_pair.specs.PairTurns.{MakesNew, Opening, PairTurn, Reply};
ghost use Rattle.tipc_settling.specs.Goings.{BringsKnown, HaveRecords, SessionsLast};

/// In a turn of a pair that tells nothing of links and contact each link that was up is up, in the same session, and of
/// what was acknowledged, taken and shown in it nothing is taken back: as long as an end is made only where there is
/// none, and no tunnel packet names a higher epoch of its bearer than each record is under. The records stay under such
/// epochs.
pub fn sessions_go_on()
    ensures { (known : ℕ → ℕ) (x x' : PairEnds) (opening : Opening) (messages : List (List ℕ)) (reply : Option Reply)
        (frames : List Outgoing) → HaveRecords known x → MakesNew x opening → BringsKnown known x opening
        → (t : PairTurn x opening messages reply x' frames) → t.first.course.changes ≡ [] → SessionsLast known x x' }
{}
