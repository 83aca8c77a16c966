//! Laws of choosing, for callers: each is the contract of a function that does nothing.

ghost use Rattle.std.specs.Prelude.{◌≡◌};
ghost use Rattle.tipc_pick.specs.declared.picks.TheConstants.{MOST_CHOICES};

/// The number that callers go by: of so many things one is chosen at most.
pub fn most_choices_are_these()
    ensures { MOST_CHOICES ≡ 32768 }
{}
