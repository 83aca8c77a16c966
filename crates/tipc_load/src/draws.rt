//! Numbers that are drawn one after the other, always the same behind the same first state.

ghost use Rattle.std.specs.Prelude.{◌≡◌};
ghost use Rattle.tipc_load.specs.Load.{drawn, next_state};

use std::marker::Model;

/// What a state is multiplied by.
const MULTIPLIER: u64 = 6_364_136_223_846_793_005;

/// What is added then.
const INCREMENT: u64 = 1_442_695_040_888_963_407;

/// Where the drawing of numbers stands.
#[derive(Drop)]
pub struct Draws {
    state: u64,
}

impl Model for Draws {
    ghost use Rattle.std.specs.Prelude.{ℕ};

    ghost Value = { ℕ };

    ghost view = { λ d. d.state };
}

impl Draws {
    /// Numbers drawn from this state on.
    pub fn new(state: u64) -> Draws
        ensures { result ≡ state }
    {
        Draws { state }
    }

    /// The next number, below 2,147,483,648.
    #[tactic(auto, using(crate::proofs::Drawing::one_step))]
    pub fn draw(&mut self) -> u32
        ensures state { self.new ≡ next_state self.old }
        ensures number { result ≡ drawn self.new }
    {
        self.state = self.state.wrapping_mul(MULTIPLIER).wrapping_add(INCREMENT);
        (self.state >> 33) as u32
    }
}
