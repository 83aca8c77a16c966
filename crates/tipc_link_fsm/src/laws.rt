//! Laws of link ends, over every list of calls. They do nothing when they run.

ghost use Rattle.std.specs.Prelude.{◌≡◌, ◌≤◌, ℕ, List};
ghost use Rattle.std.specs.List.Sorted.{IsStrictlyIncreasing};
ghost use Rattle.tipc_link_fsm.specs.Ends.{IsSound};
ghost use Rattle.tipc_link_fsm.specs.Runs.{Call, outcome, GoesUp, epochs_up};
ghost use Rattle.tipc_link_fsm.specs.Table.{Fsm, fresh};

use crate::changes::Change;

/// No call lowers an end's own epoch, or the highest epoch of the peer that it took.
pub fn epochs_rise()
    ensures own { (s : Fsm) (c : Call) → s.own ≤ (outcome s c).after.own }
    ensures highest { (s : Fsm) (c : Call) → s.highest ≤ (outcome s c).after.highest }
{}

/// An end goes up only with the epoch of the peer that the call's frame shows, together with the end's own.
pub fn up_with_the_epoch_that_was_told()
    ensures { (s : Fsm) (c : Call) → (outcome s c).change ≡ Change.Up → (es : ℕ) × GoesUp s c es }
{}

/// Each own epoch is up at most once: those under which calls take a link up rise. What a link end keeps,
/// it keeps over each call.
pub fn each_epoch_is_up_at_most_once()
    ensures sound { (s : Fsm) (c : Call) → IsSound s → IsSound (outcome s c).after }
    ensures once { (s : Fsm) (cs : List Call) → IsSound s → IsStrictlyIncreasing (epochs_up s cs) }
{}
