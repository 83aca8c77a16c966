//! What a broadcast packet will make of a broadcast link, before anything of it is changed.

ghost use Rattle.std.specs.Prelude.{◌≡◌};

use std::marker::Model;
use tipc_recv_window::{LinkOutcome, WindowArrival};
use tipc_types::Addr;

/// What a broadcast packet will make of a broadcast link, and the memory that it takes: [`crate::Broadcast::prepare`]
/// tells it, and [`crate::Broadcast::commit`] does it.
#[derive(Drop)]
pub struct CastArriving {
    /// The node from which it comes.
    pub(crate) peer: Addr,
    /// What it will make of the receive window of that node's broadcast, where it isn't refused.
    pub(crate) window: Option<WindowArrival>,
    /// What the arrival answers.
    pub(crate) outcome: LinkOutcome,
}

impl Model for CastArriving {
    ghost use Rattle.tipc_broadcast.specs.Casting.{CastComing, TakesFew};

    ghost Value = { CastComing };

    ghost view = { λ a. record { peer = a.peer.word; window = a.window; outcome = a.outcome } };

    ghost invariant = { λ a. TakesFew a.outcome };
}

impl CastArriving {
    /// What the arrival answers: what is taken, or why nothing is.
    pub fn outcome(&self) -> &LinkOutcome
        ensures { result.now ≡ self.now.outcome }
    {
        &self.outcome
    }
}
