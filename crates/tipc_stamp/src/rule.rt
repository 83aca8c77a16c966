//! The rule of the word that stamps are drawn from, and the steps that keep it.

use atomic_table::{Play, Split, TableRule};
use std::collections::LinkedList;

/// What a seat knows: the numbers that it drew, in order, how many it may still draw, and the least number that wasn't
/// drawn yet when it last looked. No value of it is made.
pub struct Drawn {
    pub drawn: LinkedList<u64>,
    pub left: u64,
    pub seen: u64,
}

/// Each number is drawn once.
pub struct EachOnce;

impl TableRule<u8, Drawn, ()> for EachOnce {
    ghost use Rattle.std.specs.Prelude.{[], ◌^◌};
    ghost use Rattle.tipc_stamp.specs.Given.{knows, Given};

    ghost holds = { λ _. Given };

    ghost first = { λ _. knows [] (2 ^ 50) 0 };
}

/// A new seat gets the draws of one seat from those of the seat that is cut.
pub struct Deal;

impl Split<Drawn> for Deal {
    ghost use Rattle.std.specs.Prelude.{[], ◌-◌, ◌^◌};
    ghost use Rattle.tipc_stamp.specs.Given.{knows};

    ghost left = { λ v. knows v.drawn (v.left - 2 ^ 40) v.seen };

    ghost right = { λ _. knows [] (2 ^ 40) 0 };
}

/// A draw tells which number was found: it is the seat's now.
pub struct Draw;

impl Play<u8, Drawn> for Draw {
    ghost use Rattle.tipc_stamp.specs.Given.{Draws};

    ghost then = { λ _. Draws };
}

/// A look tells the least number that wasn't drawn yet.
pub struct Look;

impl Play<u8, Drawn> for Look {
    ghost use Rattle.tipc_stamp.specs.Given.{Looks};

    ghost then = { λ _. Looks };
}
