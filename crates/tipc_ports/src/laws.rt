//! A law of port numbers, for callers: the contract of a function that does nothing.

ghost use Rattle.std.specs.Prelude.{◌≡◌, ◌-◌, ◌<◌, ◌%◌, ℕ};
ghost use Rattle.tipc_ports.specs.Numbers.{port_number};

/// The ports of one boot have different numbers, and so have those of two boots, unless a multiple of 4,096 boots lies
/// between.
pub fn numbers_are_not_used_again()
    ensures boot { (boot : ℕ) → (k : ℕ) → (l : ℕ) → port_number boot k ≡ port_number boot l → k ≡ l }
    ensures boots { (boot : ℕ) → (other : ℕ) → (k : ℕ) → (l : ℕ) → k < 1048576 → l < 1048576 →
        port_number boot k ≡ port_number other l →
        ((boot - 1) % 4096 ≡ (other - 1) % 4096) × (k ≡ l) }
{}
