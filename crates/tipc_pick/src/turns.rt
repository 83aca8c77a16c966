//! The pick that goes round.

ghost use Rattle.std.specs.Prelude.{◌≡◌, ◌%◌};
ghost use Rattle.tipc_pick.specs.Turns.{turn_below, turn_once};

use crate::picks::Pick;

/// Takes one after another: the rest of the turn by the count. (This project's profile.)
#[derive(Clone, Copy, Debug, PartialEq, Eq)]
pub struct RoundRobin;

impl Pick for RoundRobin {
    ghost gives = { λ _ turn count k. k ≡ turn % count };

    fn pick(&self, turn: u64, count: u64) -> u64 {
        turn % count
    }

    ghost below = { λ _ turn count k _ least _ gives. turn_below turn count k least gives };

    ghost one = { λ _ turn count k l _ _ _ gives other. turn_once turn count k l gives other };
}
