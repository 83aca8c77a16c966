//! A gate that holds one call until another one has come.

use std::sync::atomic::{AtomicBool, Ordering};
use std::thread;
use tipc_outside::Gate;

/// How often the gate looks for the call for which it waits.
const MOST_LOOKS: u32 = 1_000_000;

/// Holds the first call of number 1 until the second call of number 2 has come, whose first call was answered then.
#[derive(Drop)]
pub struct HoldingGate {
    came: AtomicBool,
    gave_up: AtomicBool,
}

impl HoldingGate {
    /// A gate to which nobody has come.
    pub fn new() -> HoldingGate {
        HoldingGate {
            came: AtomicBool::new(false),
            gave_up: AtomicBool::new(false),
        }
    }

    /// Whether it let the first call of number 1 on though the other one hadn't come.
    pub fn gave_up(&self) -> bool {
        self.gave_up.load(Ordering::SeqCst)
    }

    /// Waits for the call of number 2.
    fn hold(&self) {
        for _ in 0..MOST_LOOKS {
            if self.came.load(Ordering::SeqCst) {
                return;
            }
            thread::yield_now();
        }
        self.gave_up.store(true, Ordering::SeqCst);
    }
}

impl Gate for HoldingGate {
    fn pass(&self, caller: u32, call: u64) {
        if caller == 2 && call == 1 {
            self.came.store(true, Ordering::SeqCst);
        }
        if caller == 1 && call == 0 {
            self.hold();
        }
    }
}

#[test]
fn calls_one_after_the_other_are_not_let_on(rt: HostRuntime) {
    let gate = HoldingGate::new();
    for caller in 1..=2 {
        for call in 0..2 {
            gate.pass(caller, call);
        }
    }
    assert!(rt; gate.gave_up());
}
