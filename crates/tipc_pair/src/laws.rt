//! Laws of the calls of a pair. They do nothing when they run.

ghost use Rattle.tipc_pair.specs.Causes.{CutsTell, DuplicatesTell, MeetsTell, NumbersAreNoted, NumbersTell, ReleasesTell, ResetsTell, TicksTell, TunnelsTell};

/// What is told of a link that goes down has its cause in the step: the bearer is cut; a tick passes after four silent
/// ones; a RESET arrives under a new epoch; an original tunnel packet arrives on the other link, which speaks of the
/// epoch under which this one is up; or the peer shows a higher contact number. The contact is told to end with the
/// last link, or by that number.
pub fn what_goes_down_has_a_cause()
    ensures cuts { CutsTell }
    ensures ticks { TicksTell }
    ensures resets { ResetsTell }
    ensures tunnels { TunnelsTell }
    ensures duplicates { DuplicatesTell }
    ensures numbers { NumbersTell }
    ensures noted { NumbersAreNoted }
    ensures releases { ReleasesTell }
    ensures meets { MeetsTell }
{}
