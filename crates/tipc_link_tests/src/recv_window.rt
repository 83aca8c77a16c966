//! Tests of the receive window, over the wrap of the numbers: tables of what arrives and of what can be taken then.

use std::alloc::Global;
use std::process::Abort;
use std::test::Fail;
use tipc_recv_window::{Place, RecvWindow};
use tipc_types::{Bytes, Taken};

/// Numbers that arrive and their places, the numbers that can be taken then, in order, and how the window stands behind them.
type Row = (&'static [(u16, Place)], &'static [u16], Standing);

/// The number that is wanted, how many are missing before the first that is held, and how many are held.
type Standing = (u16, u16, u32);

/// A packet of one byte arrives, and has this place.
fn arrives(
    rt: &impl Abort,
    alloc: Global,
    window: &mut RecvWindow,
    number: u16,
    place: Place,
) -> Result<(), Fail> {
    let packet = Bytes::from_slice(alloc, &[7])?;
    let told = window.arrive(number, packet, 40)?;
    assert!(rt; told == place);
    Ok(())
}

/// The packet of this number is taken, with its byte and its arrival number.
fn gives(rt: &impl Abort, window: &mut RecvWindow, wanted: u16) {
    let Some(Taken { number, packet, by }) = window.take_next() else {
        panic!(rt; "a packet isn't there");
    };
    assert!(rt; number == wanted && by == 40);
    assert!(rt; packet.len() == 1);
}

/// The packets of these numbers are taken, and no further one.
fn gives_all(rt: &impl Abort, window: &mut RecvWindow, numbers: &[u16]) {
    for number in numbers {
        gives(rt, window, *number);
    }
    assert!(rt; window.take_next().is_none());
}

/// The window stands so.
fn stands(rt: &impl Abort, window: &RecvWindow, standing: Standing) {
    let (wanted, gap, held) = standing;
    assert!(rt; window.wanted() == wanted);
    assert!(rt; window.gap() == gap);
    assert!(rt; window.deferred() == held);
    assert!(rt; window.has_deferred() == (held != 0));
}

/// What arrives has these places, these can be taken then, and the window stands so.
fn goes_on(
    rt: &impl Abort,
    alloc: Global,
    window: &mut RecvWindow,
    arriving: &[(u16, Place)],
    taken: &[u16],
    standing: Standing,
) -> Result<(), Fail> {
    for (number, place) in arriving {
        arrives(rt, alloc, window, *number, *place)?;
    }
    gives_all(rt, window, taken);
    stands(rt, window, standing);
    Ok(())
}

/// These rows hold, one after another.
fn all_go_on(
    rt: &impl Abort,
    alloc: Global,
    window: &mut RecvWindow,
    rows: &[Row],
) -> Result<(), Fail> {
    for (arriving, taken, standing) in rows {
        goes_on(rt, alloc, window, arriving, taken, *standing)?;
    }
    Ok(())
}

/// From 65,535.
static DEFERRED: [Row; 3] = [
    (&[(0, Place::Deferred)], &[], (65_535, 1, 1)),
    (&[(65_535, Place::InOrder)], &[65_535, 0], (1, 0, 0)),
    (&[(65_535, Place::Old)], &[], (1, 0, 0)),
];

#[test]
fn a_number_is_deferred_over_the_wrap(rt: HostRuntime) -> Result<(), Fail> {
    let alloc = rt.alloc();
    all_go_on(&rt, alloc, &mut RecvWindow::new(alloc, 65_535), &DEFERRED)
}

/// From 65,500: the window's last number and the one past it; a number behind; each of them twice.
static WINDOW: [Row; 4] = [
    (
        &[
            (65_500, Place::InOrder),
            (13, Place::Deferred),
            (14, Place::Old),
            (65_499, Place::Old),
        ],
        &[65_500],
        (65_501, 48, 1),
    ),
    (
        &[
            (65_501, Place::InOrder),
            (65_501, Place::Old),
            (13, Place::Old),
            (15, Place::Old),
        ],
        &[65_501],
        (65_502, 47, 1),
    ),
    (
        &[
            (65_503, Place::Deferred),
            (65_504, Place::Deferred),
            (65_502, Place::InOrder),
            (65_503, Place::Old),
        ],
        &[65_502, 65_503, 65_504],
        (65_505, 44, 1),
    ),
    (
        &[
            (40, Place::Old),
            (65_506, Place::Deferred),
            (32_000, Place::Old),
            (65_505, Place::InOrder),
        ],
        &[65_505, 65_506],
        (65_507, 42, 1),
    ),
];

#[test]
fn the_window_goes_over_the_wrap(rt: HostRuntime) -> Result<(), Fail> {
    let alloc = rt.alloc();
    let mut window = RecvWindow::new(alloc, 65_500);
    all_go_on(&rt, alloc, &mut window, &WINDOW)?;
    let mut same = window.copy()?;
    goes_on(&rt, alloc, &mut same, &[], &[], (65_507, 42, 1))
}

/// The packet that is wanted arrives behind the next one, and both are taken.
fn swapped(
    rt: &impl Abort,
    alloc: Global,
    window: &mut RecvWindow,
    first: u16,
) -> Result<(), Fail> {
    let second = first.wrapping_add(1);
    let next = first.wrapping_add(2);
    let arriving = [(second, Place::Deferred), (first, Place::InOrder)];
    goes_on(rt, alloc, window, &arriving, &[first, second], (next, 0, 0))
}

#[test]
fn swapped_pairs_come_in_order(rt: HostRuntime) -> Result<(), Fail> {
    let alloc = rt.alloc();
    let mut window = RecvWindow::new(alloc, 65_500);
    // from 65,500 over the wrap to 41
    for pair in 0..39_u16 {
        swapped(&rt, alloc, &mut window, 65_500_u16.wrapping_add(2 * pair))?;
    }
    Ok(())
}
