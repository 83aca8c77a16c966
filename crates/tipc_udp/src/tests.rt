//! Two bearers on the loopback address. Where there is no loopback, they fail.

ghost use Rattle.std.specs.Prelude.{◌≤◌, IfOk};

use super::*;
use std::alloc::Global;
use std::net::Net;
use std::process::Abort;
use std::test::Fail;
use std::thread;
use tipc_outside::{Bearer, BearerFault, Heard};
use tipc_types::{Addr, To};

/// How often a bearer looks for a frame that was sent.
const MOST_LOOKS: u32 = 1_000_000;

/// The first base whose ports no other program holds, of 100; with it bearer 0 of nodes 1 and 2 among so many.
fn two_bearers(rt: &impl Net, nodes: u8) -> Result<(u16, UdpBearer, UdpBearer), Fail>
    requires { (2 ≤ nodes) × (nodes ≤ 32) }
    ensures { IfOk result (λ found. found.0 ≤ 65439) }
{
    for step in 0..100 {
        let base = 41_000 + 128 * step;
        let first = UdpBearer::bind(rt, 1, 0, base, nodes);
        let second = UdpBearer::bind(rt, 2, 0, base, nodes);
        if let (Ok(first), Ok(second)) = (first, second) {
            return Ok((base, first, second));
        }
    }
    Err(Fail::new("no port of the loopback address is free"))
}

/// Looks until a frame comes, and answers whether one did.
fn hears<B: Bearer>(bearer: &mut B, into: &mut Vec<u8>) -> Result<bool, Fail> {
    for _ in 0..MOST_LOOKS {
        if bearer.receive(into)? == Heard::Frame {
            return Ok(true);
        }
        thread::yield_now();
    }
    Ok(false)
}

/// Asserts that a datagram is heard, as far as its first 2,048 bytes.
fn arrives<B: Bearer>(
    rt: &impl Abort,
    alloc: Global,
    sender: &mut B,
    hearer: &mut B,
    to: To,
    length: usize,
) -> Result<(), Fail> {
    let mut frame = Vec::with_capacity(alloc, length)?;
    for place in 0..length {
        frame.push((place % 251) as u8)?;
    }
    sender.send(to, &frame)?;
    let mut into = b"before".to_vec(alloc)?;
    assert!(rt; hears(hearer, &mut into)?, "{length} bytes");
    frame.truncate(2_048);
    assert_eq!(rt; into.as_slice(), frame.as_slice());
    Ok(())
}

/// Asserts that a bearer that looks finds no frame.
fn hears_nothing<B: Bearer>(rt: &impl Abort, alloc: Global, bearer: &mut B) -> Result<(), Fail> {
    let mut into = b"before".to_vec(alloc)?;
    assert_eq!(rt; bearer.receive(&mut into), Ok(Heard::Nothing));
    assert_eq!(rt; into.as_slice(), b"before".as_slice());
    Ok(())
}

#[test]
fn datagrams_arrive_whole_or_cut(rt: HostRuntime) -> Result<(), Fail> {
    let alloc = rt.alloc();
    let (_base, mut first, mut second) = two_bearers(&rt, 2)?;
    hears_nothing(&rt, alloc, &mut second)?;
    for (to, length) in [
        (To::Node(Addr::node(2)), 1_516),
        (To::All, 60),
        (To::Node(Addr::node(2)), 2_048),
        (To::Node(Addr::node(2)), 2_049),
        (To::All, 0),
    ] {
        arrives(&rt, alloc, &mut first, &mut second, to, length)?;
    }
    arrives(&rt, alloc, &mut second, &mut first, To::All, 60)?;
    hears_nothing(&rt, alloc, &mut second)?;
    hears_nothing(&rt, alloc, &mut first)
}

#[test]
fn frames_to_nobody_are_no_faults(rt: HostRuntime) -> Result<(), Fail> {
    let alloc = rt.alloc();
    let (_base, mut first, mut second) = two_bearers(&rt, 3)?;
    for addr in [Addr::node(3), Addr::node(4), Addr { word: 2 }] {
        assert_eq!(rt; first.send(To::Node(addr), b"for nobody"), Ok(()));
    }
    hears_nothing(&rt, alloc, &mut first)?;
    hears_nothing(&rt, alloc, &mut second)
}

#[test]
fn a_port_is_bound_once(rt: HostRuntime) -> Result<(), Fail> {
    let (base, _first, _second) = two_bearers(&rt, 2)?;
    let again = UdpBearer::bind(&rt, 2, 0, base, 2);
    assert_eq!(rt; again.map(|_| ()), Err(BearerFault::Failed));
    Ok(())
}

#[test]
fn a_datagram_that_udp_cannot_carry_is_a_fault(rt: HostRuntime) -> Result<(), Fail> {
    let (_base, mut first, _second) = two_bearers(&rt, 2)?;
    let mut frame = Vec::new(rt.alloc());
    frame.resize(65_536, 0)?;
    assert_eq!(rt; first.send(To::All, &frame), Err(BearerFault::Failed));
    Ok(())
}
