//! Tests of stamps: which numbers are drawn, by one seat, by two, and by two threads.

ghost use Rattle.std.specs.Prelude.{◌≡◌};

use std::process::Abort;
use std::test::Fail;
use std::thread;
use tipc_stamp::*;

/// How often each of two threads draws.
const DRAWS: usize = 500;

/// The next stamp is this one.
fn draws(rt: &impl Abort, stamps: &Stamps, seat: &mut StampSeat, stamp: u64)
    requires { seat.old.of_table ≡ stamps.now }
    ensures { seat.new.of_table ≡ stamps.now }
{
    assert!(rt; stamps.draw(seat) == Ok(stamp));
}

/// The least number that wasn't drawn is this one.
fn sees(rt: &impl Abort, stamps: &Stamps, seat: &mut StampSeat, stamp: u64)
    requires { seat.old.of_table ≡ stamps.now }
    ensures { seat.new.of_table ≡ stamps.now }
{
    assert!(rt; stamps.seen(seat) == stamp);
}

#[test]
fn one_seat_draws_one_number_after_another(rt: HostRuntime) -> Result<(), Fail> {
    let (stamps, mut seats) = Stamps::new(rt.alloc(), 1)?;
    let seat = &mut seats[0];
    sees(&rt, &stamps, seat, 0);
    draws(&rt, &stamps, seat, 0);
    draws(&rt, &stamps, seat, 1);
    draws(&rt, &stamps, seat, 2);
    sees(&rt, &stamps, seat, 3);
    sees(&rt, &stamps, seat, 3);
    Ok(())
}

#[test]
fn two_seats_draw_from_one_word(rt: HostRuntime) -> Result<(), Fail> {
    let (stamps, mut seats) = Stamps::new(rt.alloc(), 2)?;
    draws(&rt, &stamps, &mut seats[0], 0);
    draws(&rt, &stamps, &mut seats[1], 1);
    draws(&rt, &stamps, &mut seats[0], 2);
    sees(&rt, &stamps, &mut seats[1], 3);
    Ok(())
}

/// As many stamps as a thread draws.
fn drawn(stamps: &Stamps, mut seat: StampSeat) -> [u64; DRAWS]
    requires { seat.of_table ≡ stamps.now }
{
    let mut all = [u64::MAX; DRAWS];
    for slot in &mut all {
        if let Ok(stamp) = stamps.draw(&mut seat) {
            *slot = stamp;
        }
    }
    all
}

/// Each number comes once, and those of one thread rise.
fn come_once(rt: &impl Abort, first: &[u64], second: &[u64]) {
    assert!(rt; first.is_sorted() && second.is_sorted());
    for stamp in 0..2 * DRAWS as u64 {
        assert!(rt; first.contains(&stamp) != second.contains(&stamp));
    }
}

#[test]
fn two_threads_draw_each_number_once(rt: HostRuntime) -> Result<(), Fail> {
    let (stamps, mut seats) = Stamps::new(rt.alloc(), 2)?;
    let shared = &stamps;
    if let (Some(second), Some(first)) = (seats.pop(), seats.pop()) {
        let (first, second) = thread::join(
            &rt,
            move ||
                requires { first.of_table ≡ shared.now }
            { drawn(shared, first) },
            move ||
                requires { second.of_table ≡ shared.now }
            { drawn(shared, second) },
        );
        come_once(&rt, &first, &second);
    }
    Ok(())
}
