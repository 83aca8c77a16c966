//! Where a numbered packet stands in a receive window, and what comes of it.

ghost use Rattle.std.specs.Prelude.{◌≡◌};
ghost use Rattle.tipc_recv_window.specs.Receiving.{outcome_at};

use tipc_types::{TakenList, Why};

/// Where a numbered packet stands that arrived. (TIPC 2.0 draft.)
#[derive(Clone, Copy, Debug, PartialEq, Eq)]
pub enum Place {
    /// It is the wanted packet, and can be taken.
    InOrder,
    /// It is one of the next 49, and waits until those before it were taken.
    Deferred,
    /// It was taken or is held already, or lies elsewhere: it changes nothing.
    Old,
}

/// What became of a numbered packet at a link or at a broadcast. (This project's profile.)
#[derive(Clone, Debug, Drop, PartialEq)]
pub enum LinkOutcome {
    /// It was taken, and with it the deferred packets that follow it: all of them, in order.
    Took(TakenList),
    /// It waits until those before it were taken.
    Deferred,
    /// It was ignored.
    Ignored(Why),
}

impl LinkOutcome {
    /// What an arrival answers at a place, where these packets can be taken then.
    pub fn at(place: Place, due: TakenList) -> LinkOutcome
        ensures { result ≡ outcome_at place due }
    {
        match place {
            Place::InOrder => LinkOutcome::Took(due),
            Place::Deferred => LinkOutcome::Deferred,
            Place::Old => LinkOutcome::Ignored(Why::Old),
        }
    }
}
