//! The rule of the queue between the two ends of an inbox, and the steps that keep it.

use crossbeam_queue::protocol::{Join, Lesson, Outcome, Protocol, Split};
use std::collections::LinkedList;
use tipc_types::Message;

/// What an end of an inbox knows: whether it may give, whether it may take, what it offered that wasn't given back,
/// what it took, and how much of either it heard of the other end. No value of it is made.
pub struct Log {
    pub gives: bool,
    pub takes: bool,
    pub offered: LinkedList<Message>,
    pub taken: LinkedList<Message>,
    pub takings: u64,
    pub offers: u64,
}

/// What was offered is taken in order.
pub struct InOrder;

impl Protocol<Message, Log> for InOrder {
    ghost use Rattle.std.specs.Prelude.{true, []};
    ghost use Rattle.tipc_inbox.specs.Turns.{log, InTurn};

    ghost holds = { InTurn };

    ghost first = { log true true [] [] 0 0 };
}

/// What is in one hand becomes two ends, each of which hears how much the other did.
pub struct Part;

impl Split<Log> for Part {
    ghost use Rattle.std.specs.Prelude.{true, false, [], length};
    ghost use Rattle.tipc_inbox.specs.Turns.{log};

    ghost left = { λ v. log true false v.offered [] (length v.taken) 0 };

    ghost right = { λ v. log false true [] v.taken 0 (length v.offered) };
}

/// An end that may do nothing, and stands in the place of another for a while.
pub struct Spare;

impl Split<Log> for Spare {
    ghost use Rattle.tipc_inbox.specs.Turns.{idle};

    ghost left = { λ v. v };

    ghost right = { λ _. idle };
}

/// The two ends in one hand.
pub struct Unite;

impl Join<Log> for Unite {
    ghost use Rattle.std.specs.Prelude.{true};
    ghost use Rattle.tipc_inbox.specs.Turns.{log, idle};

    ghost both = { λ v w. log true true v.offered w.taken v.takings w.offers };

    ghost spent = { idle };
}

/// A message is offered. A look tells how many were offered at least.
pub struct Offer;

impl Outcome<Message, Log> for Offer {
    ghost use Rattle.std.specs.Prelude.{◌≡◌, [], ◌∷◌, ◌++◌};
    ghost use Rattle.tipc_inbox.specs.Turns.{log};

    ghost then = { λ v m w. w ≡ log v.gives v.takes (v.offered ++ m ∷ []) v.taken v.takings v.offers };
}

impl Lesson<Message, Log> for Offer {
    ghost use Rattle.std.specs.Prelude.{◌+◌, ◌≤◌, length};

    ghost fact = { λ v held. v.takings + length held ≤ length v.offered };
}

/// A message is taken. A look tells how many were offered at most.
pub struct Take;

impl Outcome<Message, Log> for Take {
    ghost use Rattle.std.specs.Prelude.{◌≡◌, [], ◌∷◌, ◌++◌};
    ghost use Rattle.tipc_inbox.specs.Turns.{log};

    ghost then = { λ v m w. w ≡ log v.gives v.takes v.offered (v.taken ++ m ∷ []) v.takings v.offers };
}

impl Lesson<Message, Log> for Take {
    ghost use Rattle.std.specs.Prelude.{◌+◌, ◌≤◌, length};

    ghost fact = { λ v held. v.offers ≤ length v.taken + length held };
}

/// A look with the two ends in one hand tells what is held.
pub struct Compare;

impl Lesson<Message, Log> for Compare {
    ghost use Rattle.std.specs.Prelude.{◌≡◌, ◌≤◌, ◌++◌, length};

    ghost fact = { λ v held. (v.offered ≡ v.taken ++ held) × (length held ≤ 128) };
}
