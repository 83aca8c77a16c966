//! The word that stamps are drawn from, and the seats that draw.

ghost use Rattle.std.specs.Prelude.{◌≡◌, ◌≤◌, ◌<◌, ◌^◌, length, replicate, All, Err, IfOk, OnErr};
ghost use Rattle.tipc_stamp.specs.Seats.{drew, is_spent, new_seat, saw};

use crate::rule::{Deal, Draw, Drawn, EachOnce, Look};
use atomic_table::{Seat, Table};
use std::alloc::Global;
use std::marker::Model;
use tipc_types::NoMemory;

/// How many stamps a seat may draw: 2^40. (This project's profile.)
const SEAT_STAMPS: u64 = 1 << 40;

/// The word that stamps are drawn from. Its draws have one order over all threads, and go 0, 1, 2, and so on in it.
///
/// Contracts see which word it is.
#[derive(Drop)]
pub struct Stamps {
    table: Table<u8, Drawn, (), EachOnce, Global>,
}

impl Model for Stamps {
    ghost use Rattle.std.specs.Prelude.{◌≡◌};
    ghost use Rattle.atomic_table.specs.Seated.{TableId};

    ghost Value = { TableId };

    ghost view = { λ s. s.table.shared.table_id };

    ghost invariant = { λ s. (s.table.shared.table_id.words ≡ 1) × (s.table.shared.table_id.slots ≡ 0) };
}

/// What a thread draws with. There is one for each that draws, and it may go to another thread.
///
/// Contracts see the word that it is of, the numbers that it drew, in order, and what it last saw.
#[derive(Drop)]
pub struct StampSeat {
    seat: Seat<u8, Drawn>,
    left: u64,
}

impl Model for StampSeat {
    ghost use Rattle.std.specs.Prelude.{◌≡◌, ◌+◌, ◌^◌, [], length};
    ghost use Rattle.tipc_stamp.specs.Seats.{SeatState};

    ghost Value = { SeatState };

    ghost view = { λ s. record { of_table = s.seat.table_id; drawn = s.seat.me.0.drawn; seen = s.seat.me.0.seen } };

    ghost invariant = { λ s. (s.seat.me.1 ≡ []) × (s.left ≡ s.seat.me.0.left)
        × (length s.seat.me.0.drawn + s.left ≡ 2 ^ 40) };
}

impl StampSeat {
    /// Whether it drew its 2^40 stamps.
    pub fn is_spent(&self) -> bool
        ensures { result ≡ is_spent self.now }
    {
        self.left == 0
    }
}

/// The seat drew its 2^40 stamps.
#[derive(Clone, Copy, Debug, PartialEq, Eq)]
pub struct Spent;

impl Stamps {
    /// A word from which nothing was drawn, and so many seats of it, from 1 to 1,024.
    ///
    /// # Errors
    ///
    /// Where memory runs out.
    pub fn new(alloc: Global, seats: u32) -> Result<(Stamps, Vec<StampSeat>), NoMemory>
        requires { (1 ≤ seats) × (seats ≤ 1024) }
        ensures { IfOk result (λ r. r.1.items ≡ replicate seats (new_seat r.0)) }
    {
        let (table, mut maker) = Table::of_words(alloc, &[0], &())?;
        let mut dealt = Vec::with_capacity(alloc, seats as usize)?;
        for _ in 0..seats {
            let seat = table.shared.split_seat::<Deal>(&mut maker);
            dealt.push(StampSeat {
                seat,
                left: SEAT_STAMPS,
            })?;
        }
        Ok((Stamps { table }, dealt))
    }

    /// Draws the next stamp. It is greater than those that this seat drew, and not below what it saw. It takes no
    /// memory, and waits for nobody.
    ///
    /// # Errors
    ///
    /// `Spent` exactly where this seat drew 2^40 stamps.
    pub fn draw(&self, seat: &mut StampSeat) -> Result<u64, Spent>
        requires { seat.old.of_table ≡ self.now }
        ensures ok { IfOk result (λ stamp. seat.new ≡ drew seat.old stamp) }
        ensures above { IfOk result (λ stamp. All (λ x. x < stamp) seat.old.drawn × (seat.old.seen ≤ stamp)) }
        ensures room { IfOk result (λ stamp. length seat.old.drawn < 2 ^ 40) }
        ensures spent { OnErr result ((seat.new ≡ seat.old) × (length seat.old.drawn ≡ 2 ^ 40)) }
    {
        if seat.left == 0 {
            return Err(Spent);
        }
        seat.left -= 1;
        Ok(self.table.shared.fetch_add::<Draw>(&mut seat.seat, 0, 1))
    }

    /// The least number that isn't drawn yet: it is above those that this seat drew, and not below what it saw before.
    /// It takes no memory, and waits for nobody.
    pub fn seen(&self, seat: &mut StampSeat) -> u64
        requires { seat.old.of_table ≡ self.now }
        ensures saw { seat.new ≡ saw seat.old result }
        ensures above { All (λ x. x < result) seat.old.drawn × (seat.old.seen ≤ result) }
    {
        self.table.shared.load::<Look>(&mut seat.seat, 0)
    }
}
