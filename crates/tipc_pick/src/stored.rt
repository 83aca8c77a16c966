//! The pick that a closure makes.

ghost use Rattle.std.specs.Prelude.{◌≡◌, ◌<◌, ◌≤◌, ◌^◌, ℕ};
ghost use Rattle.tipc_pick.specs.Fair.{IsFair};

use crate::picks::Pick;
use std::boxed::Box;

/// A closure of the caller's that takes a turn and a count.
pub type PickClosure = Box<dyn Fn(u64, u64) -> u64 + Send + Sync>;

/// A closure beside the fact that makes it a pick: for every turn below 2^64 and every count from 1 to 32,768 it may be
/// called and has one answer, which is below the count.
#[derive(Drop)]
pub struct StoredPick {
    pick: PickClosure,
    ghost callable: { (turn count : ℕ) → turn < 2 ^ 64 → 1 ≤ count → count ≤ 32768 → PickClosure.pre pick turn count },
    ghost below: { (turn count k : ℕ) → turn < 2 ^ 64 → 1 ≤ count → count ≤ 32768
        → PickClosure.post pick turn count k → k < count },
    ghost one: { (turn count k l : ℕ) → turn < 2 ^ 64 → 1 ≤ count → count ≤ 32768
        → PickClosure.post pick turn count k → PickClosure.post pick turn count l → k ≡ l },
}

impl StoredPick {
    /// Keeps a closure for which the fact holds.
    pub fn new(pick: PickClosure) -> StoredPick
        requires { IsFair (PickClosure.pre pick) (PickClosure.post pick) }
        ensures { result.pick ≡ pick }
    {
        StoredPick { pick }
    }
}

impl Pick for StoredPick {
    ghost gives = { λ p. PickClosure.post p.pick };

    fn pick(&self, turn: u64, count: u64) -> u64 {
        (self.pick)(turn, count)
    }

    ghost below = { λ p. p.below };

    ghost one = { λ p. p.one };
}
