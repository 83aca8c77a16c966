//! The pick of a run, with the turn that it is asked for next.

ghost use Rattle.std.specs.Prelude.{◌≡◌, ◌+◌, ◌%◌, ◌<◌, ◌≤◌, ◌^◌, ℕ};
ghost use Rattle.tipc_pick.specs.Choosing.{Choosing};

use crate::picks::Pick;
use std::marker::Model;

/// A pick and the turn that it is at. (This project's profile.)
#[derive(Drop)]
pub struct Chooser<P> {
    pick: P,
    turn: u64,
}

impl<P> Model for Chooser<P> {
    ghost use Rattle.tipc_pick.specs.Choosing.{Choosing};

    ghost Value = { Choosing P };

    ghost view = { λ c. record { pick = c.pick; turn = c.turn } };
}

impl<P: Pick> Chooser<P> {
    /// The pick at turn 0.
    pub fn new(pick: P) -> Chooser<P>
        ensures { result ≡ record { pick = pick; turn = 0 } }
    {
        Chooser { pick, turn: 0 }
    }

    /// What the pick gives for a turn and a count from 1 to 32,768. It takes no memory.
    pub fn choose_at(&self, turn: u64, count: u64) -> u64
        requires { (1 ≤ count) × (count ≤ 32768) }
        ensures gives { P.gives self.now.pick turn count result }
        ensures below { result < count }
        ensures one { (k : ℕ) → P.gives self.now.pick turn count k → k ≡ result }
    {
        self.pick.pick(turn, count)
    }

    /// What the pick gives for the present turn and a count from 1 to 32,768. It takes no memory.
    pub fn choose(&self, count: u64) -> u64
        requires { (1 ≤ count) × (count ≤ 32768) }
        ensures gives { P.gives self.now.pick self.now.turn count result }
        ensures below { result < count }
        ensures one { (k : ℕ) → P.gives self.now.pick self.now.turn count k → k ≡ result }
    {
        self.choose_at(self.turn, count)
    }

    /// Goes to the next turn. Turn 0 follows turn 2^64 - 1.
    pub fn advance(&mut self)
        ensures { self.new ≡ record { pick = self.old.pick; turn = (self.old.turn + 1) % 2 ^ 64 } }
    {
        self.turn = self.turn.wrapping_add(1);
    }

    /// The same pick by reference, at turn 0.
    pub fn again(&self) -> Chooser<&P>
        ensures pick { result.pick.now ≡ self.now.pick }
        ensures turn { result.turn ≡ 0 }
    {
        Chooser {
            pick: &self.pick,
            turn: 0,
        }
    }
}
