//! What a threaded node asks of its surroundings: a clock, and a gate at which threads may be held.

ghost use Rattle.std.specs.Prelude.{◌≡◌, ◌≤◌, ℕ};
ghost use Rattle.tipc_outside.specs.Causes.{counted};

/// What tells the time, in a unit of its own. It never falls.
pub trait Clock {
    /// The last time that it told.
    ghost last: { Self → ℕ };

    /// The time now.
    fn now(&mut self) -> u64
        ensures told { last self.new ≡ result }
        ensures later { last self.old ≤ result };
}

/// A clock that goes on by 1 at each look, and stops at u64::MAX.
#[derive(Clone, Copy, Debug, PartialEq, Eq)]
pub struct StepClock {
    /// The last time that it told; 0 at first.
    pub time: u64,
}

impl StepClock {
    /// A clock that tells 1 at the first look.
    pub fn new() -> StepClock
        ensures { result.time ≡ 0 }
    {
        StepClock { time: 0 }
    }
}

impl Clock for StepClock {
    ghost last = { λ c. c.time };

    fn now(&mut self) -> u64
        ensures told { self.new.time ≡ result }
        ensures later { self.old.time ≤ result }
        ensures step { result ≡ counted self.old.time }
    {
        self.time = self.time.saturating_add(1);
        self.time
    }
}

/// What a thread passes before each of its calls.
pub trait Gate {
    /// Lets a caller on to its next call.
    fn pass(&self, caller: u32, call: u64);
}

/// A gate that is always open.
#[derive(Clone, Copy, Debug, PartialEq, Eq)]
pub struct FreeGate;

impl Gate for FreeGate {
    fn pass(&self, _caller: u32, _call: u64) {}
}
