//! Tests of the send window, over the wrap of the numbers.

use std::alloc::Global;
use std::process::Abort;
use std::test::Fail;
use tipc_send_window::{OfferFault, SendWindow};
use tipc_types::{Bytes, Pieces};

/// A packet of 1,452 bytes, all of them the same.
fn packet(alloc: Global, byte: u8) -> Result<Bytes, Fail> {
    Ok(Bytes::from_slice(alloc, &[byte; 1_452])?)
}

/// Numbers what can be numbered, and gives the last number, or 0.
fn last_due(window: &mut SendWindow) -> u16 {
    let mut last = 0;
    for _ in 0..60 {
        let Some(number) = window.due() else {
            break;
        };
        last = number;
    }
    last
}

/// The offer of one packet has this answer, and then this is the last number that is given, or 0.
fn offers(
    rt: &impl Abort,
    alloc: Global,
    window: &mut SendWindow,
    byte: u8,
    answer: Result<(), OfferFault>,
) -> Result<u16, Fail> {
    let mut pieces = Pieces::new(alloc);
    pieces.push(packet(alloc, byte)?)?;
    let told = window.offer(pieces, 50);
    assert!(rt; told == answer);
    Ok(last_due(window))
}

/// So many packets wait and are unacknowledged, and so many numbers were given.
fn holds(rt: &impl Abort, window: &SendWindow, waiting: u32, unacked: usize, numbered: u64) {
    assert!(rt; window.waiting() == waiting);
    assert!(rt; window.unacked().len() == unacked);
    assert!(rt; window.numbered() == numbered);
}

/// A window after so many offers of one packet each, of the bytes from 1 on.
fn after(rt: &impl Abort, alloc: Global, offered: u8) -> Result<SendWindow, Fail> {
    let mut window = SendWindow::new(alloc);
    for byte in 0..offered {
        let due = offers(rt, alloc, &mut window, byte + 1, Ok(()))?;
        let wanted = if byte < 50 { byte as u16 + 1 } else { 0 };
        assert!(rt; due == wanted);
    }
    Ok(window)
}

/// 50 packets are in flight, and 50 wait.
const CONGESTED: Result<(), OfferFault> = Err(OfferFault::Congested {
    in_flight: 50,
    waiting: 50,
});

#[test]
fn the_offer_behind_fifty_waiting_is_congested(rt: HostRuntime) -> Result<(), Fail> {
    let alloc = rt.alloc();
    let mut window = after(&rt, alloc, 100)?;
    assert!(rt; offers(&rt, alloc, &mut window, 101, CONGESTED)? == 0);
    window.acknowledge(1);
    assert!(rt; last_due(&mut window) == 51);
    holds(&rt, &window, 49, 50, 51);
    assert!(rt; offers(&rt, alloc, &mut window, 101, Ok(()))? == 0);
    Ok(())
}

/// The last waiting packet is swapped for one of this byte, and was one of that byte.
fn swaps(
    rt: &impl Abort,
    alloc: Global,
    window: &mut SendWindow,
    byte: u8,
    before: u8,
) -> Result<(), Fail> {
    assert!(rt; window.waiting() > 0);
    assert!(rt; window.last().map(|last| last.len()) == Some(1_452));
    let swapped = window.swap_last(packet(alloc, byte)?);
    assert!(rt; swapped.as_slice().first().copied() == Some(before));
    Ok(())
}

/// The first bytes of pieces are these.
fn begin_with(rt: &impl Abort, pieces: &[Bytes], firsts: &[u8]) {
    assert!(rt; pieces.len() == firsts.len());
    for (piece, first) in pieces.iter().zip(firsts) {
        assert!(rt; piece.as_slice().first().copied() == Some(*first));
    }
}

#[test]
fn the_last_packet_is_swapped_and_the_rest_is_taken_back(rt: HostRuntime) -> Result<(), Fail> {
    let alloc = rt.alloc();
    let mut window = after(&rt, alloc, 53)?;
    swaps(&rt, alloc, &mut window, 99, 53)?;
    let mut copy = window.copy()?;
    let rest = window.take_waiting();
    begin_with(&rt, rest.as_slice(), &[51, 52, 99]);
    holds(&rt, &window, 0, 50, 50);
    holds(&rt, &copy, 3, 50, 50);
    copy.pass_over();
    holds(&rt, &copy, 0, 0, 53);
    Ok(())
}

/// So many packets of no bytes.
fn empty_ones(alloc: Global, count: u32) -> Result<Pieces, Fail> {
    let mut pieces = Pieces::new(alloc);
    for _ in 0..count {
        pieces.push(Bytes::new(alloc))?;
    }
    Ok(pieces)
}

/// The number that is acknowledged, how many packets that leaves, and the first of them.
static ACKNOWLEDGED: [(u16, usize, Option<u16>); 8] = [
    (65_499, 50, Some(65_500)),
    (14, 50, Some(65_500)),
    (65_501, 48, Some(65_502)),
    (65_501, 48, Some(65_502)),
    (65_535, 14, Some(0)),
    (40, 14, Some(0)),
    (12, 1, Some(13)),
    (13, 0, None),
];

/// So many packets are unacknowledged, and this is the number of the first.
fn leaves(rt: &impl Abort, window: &SendWindow, count: usize, first: Option<u16>) {
    let unacked = window.unacked();
    assert!(rt; unacked.len() == count);
    assert!(rt; unacked.first().map(|kept| kept.number) == first);
}

#[test]
fn acknowledgements_go_over_the_wrap(rt: HostRuntime) -> Result<(), Fail> {
    let alloc = rt.alloc();
    let mut window = SendWindow::new(alloc);
    let told = window.offer(empty_ones(alloc, 65_499)?, 50);
    assert!(rt; told == Ok(()));
    window.pass_over();
    for byte in 0..50 {
        offers(&rt, alloc, &mut window, byte, Ok(()))?;
    }
    for (number, count, first) in &ACKNOWLEDGED {
        window.acknowledge(*number);
        leaves(&rt, &window, *count, *first);
    }
    Ok(())
}
