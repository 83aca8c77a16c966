//! What chooses among the sockets that a name finds.

ghost use Rattle.std.specs.Prelude.{◌≡◌, ◌<◌, ◌≤◌, ◌^◌, ℕ};

/// The most things of which one is chosen: 32 nodes with 1,024 publications each. (This project's profile.)
pub const MOST_CHOICES: u64 = 32_768;

/// What chooses one of several: for each turn below 2^64 and each count from 1 to 32,768 it gives one number, which is
/// below the count.
///
/// The fact goes with the type, so that a value which holds a pick, also one behind a lock, can say of choices of the
/// past that the pick gave them.
pub trait Pick {
    /// Whether it gives this number for this turn and count.
    ghost gives: { Self → ℕ → ℕ → ℕ → Type 0 };

    /// The number that it gives for a turn and a count. It takes no memory.
    fn pick(&self, turn: u64, count: u64) -> u64
        requires { (1 ≤ count) × (count ≤ 32768) }
        ensures { gives self.now turn count result };

    // What it gives is below the count.
    ghost below: { (p : Self) (turn count k : ℕ) → turn < 2 ^ 64 → 1 ≤ count → count ≤ 32768
        → gives p turn count k → k < count };

    // It gives one number.
    ghost one: { (p : Self) (turn count k l : ℕ) → turn < 2 ^ 64 → 1 ≤ count → count ≤ 32768
        → gives p turn count k → gives p turn count l → k ≡ l };
}

/// The same pick by reference.
impl<P: Pick> Pick for &P {
    ghost gives = { λ p. P.gives p.now };

    fn pick(&self, turn: u64, count: u64) -> u64 {
        (**self).pick(turn, count)
    }

    ghost below = { λ p. P.below p.now };

    ghost one = { λ p. P.one p.now };
}
