//! What a packet will make of a link, before anything of it is changed.

ghost use Rattle.std.specs.Prelude.{◌≡◌};

use crate::hearing::Hearing;
use std::marker::Model;
use tipc_link_fsm::{Change, LinkFsm};
use tipc_recv_window::LinkOutcome;

/// What a packet will make of a link: [`crate::Link::prepare`] tells it, and [`crate::Link::commit`] does it.
#[derive(Drop)]
pub struct Arriving {
    /// The link states after it.
    pub(crate) fsm: LinkFsm,
    /// What becomes of the link's state.
    pub(crate) change: Change,
    /// What the session will make of it, if it is heard there.
    pub(crate) hearing: Hearing,
}

impl Model for Arriving {
    ghost use Rattle.tipc_link.specs.Hearings.{ArrivingState};

    ghost Value = { ArrivingState };

    ghost view = { λ a. record { states = record { after = a.fsm; change = a.change }; hearing = a.hearing } };
}

impl Arriving {
    /// What becomes of the link's state.
    pub fn change(&self) -> Change
        ensures { result ≡ self.now.states.change }
    {
        self.change
    }

    /// What is taken.
    pub fn outcome(&self) -> &LinkOutcome
        ensures { result.now ≡ self.now.hearing.outcome }
    {
        self.hearing.outcome()
    }
}
