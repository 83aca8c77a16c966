//! Runs that aren't what comes of their calls.

ghost use Rattle.std.specs.Prelude.{◌≡◌};
ghost use Rattle.tipc_node_lock.specs.Locks.{IsPassOf};

use crate::calling::{
    Node, add, after_calls, alone, audits, node_with_caller, one_seat, two_seats,
};
use crate::calls::{Call, Called, perform};
use crate::plays::{Act, after, after_apart};
use std::alloc::Global;
use std::process::Abort;
use std::sync::Wait;
use tipc_journal::Entry;
use tipc_live::*;
use tipc_node_lock::*;
use tipc_pick::{Chooser, RoundRobin};
use tipc_stamp::{StampSeat, Stamps};
use tipc_types::*;

/// A frame arrives that nobody sent.
static NOBODYS: [Call; 2] = [Call::Mend(false), Call::Hear(&[1, 2, 3])];

#[test]
fn a_frame_that_nobody_sent_is_found(rt: HostRuntime) {
    let nodes = after_calls(&rt, rt.alloc(), 3, &NOBODYS);
    let expected = Audit::NoFrame { node: 3, number: 0 };
    audits(&rt, rt.alloc(), nodes, &expected);
}

/// Node 1 asks on bearer 0, and node 2 on bearer 1, where it hears what node 1 asked.
static ASTRAY: [Act; 3] = [
    Act::One(Call::Mend(false)),
    Act::Two(Call::Mend(true)),
    Act::Astray,
];

#[test]
fn a_frame_of_another_bearer_is_none(rt: HostRuntime) {
    let nodes = after(&rt, rt.alloc(), &ASTRAY);
    let expected = Audit::NoFrame { node: 2, number: 0 };
    audits(&rt, rt.alloc(), nodes, &expected);
}

/// A tick passes at node 1, and two at node 2.
static TICKS: [Act; 3] = [
    Act::One(Call::Tick),
    Act::Two(Call::Tick),
    Act::Two(Call::Tick),
];

#[test]
fn a_stamp_of_two_nodes_is_found(rt: HostRuntime) {
    let nodes = after_apart(&rt, rt.alloc(), &TICKS);
    audits(&rt, rt.alloc(), nodes, &Audit::Twice { stamp: 0 });
}

/// A tick at the node of a lock.
fn tick<R: Wait + Abort>(rt: &R, alloc: Global, lock: &NodeLock<'_, RoundRobin>, pass: &mut Pass)
    requires { IsPassOf lock.now pass.old }
    ensures { IsPassOf lock.now pass.new }
{
    let made = perform(rt, alloc, lock, pass, EventNote::Tick);
    assert!(rt; made.is_ok());
}

/// Node 1, whose caller let a tick pass there, and another one behind another lock.
fn called_elsewhere<R: Wait + Abort>(
    rt: &R,
    alloc: Global,
    stamps: &Stamps,
    seat: StampSeat,
    twin_seat: StampSeat,
) -> Vec<Node>
    requires seat { seat.of_table ≡ stamps.now }
    requires twin { twin_seat.of_table ≡ stamps.now }
{
    let Ok(Called { lock, mut pass }) = node_with_caller(rt, alloc, 1, 1, stamps, seat) else {
        panic!(rt; "no memory")
    };
    let Ok(twin) = node_with_caller(rt, alloc, 1, 1, stamps, twin_seat) else {
        panic!(rt; "no memory")
    };
    tick(rt, alloc, &lock, &mut pass);
    tick(rt, alloc, &twin.lock, &mut pass);
    alone(rt, alloc, Called { lock, pass })
}

#[test]
fn a_call_that_another_lock_made_is_told(rt: HostRuntime) {
    let (stamps, seat, twin_seat) = two_seats(&rt, rt.alloc());
    let nodes = called_elsewhere(&rt, rt.alloc(), &stamps, seat, twin_seat);
    let expected = Audit::Told {
        node: 1,
        caller: 1,
        call: 1,
    };
    audits(&rt, rt.alloc(), nodes, &expected);
}

/// A tick at a node that isn't behind a lock, under the next stamp of these.
fn tick_bare<R: Wait + Abort>(
    rt: &R,
    alloc: Global,
    node: &mut Node,
    stamps: &Stamps,
    pass: &mut Pass,
)
    requires { pass.old.seat.of_table ≡ stamps.now }
{
    let made = node.perform(rt, alloc, stamps, pass, EventNote::Tick);
    assert!(rt; made.is_ok());
}

/// Node 1, at which each of two callers lets a tick pass, the first under a stamp of these stamps and the second under one of the others.
fn ticked_by_both<R: Wait + Abort>(
    rt: &R,
    alloc: Global,
    stamps: &Stamps,
    others: &Stamps,
    first: &mut Pass,
    second: &mut Pass,
) -> Node
    requires first { first.old.seat.of_table ≡ stamps.now }
    requires second { second.old.seat.of_table ≡ others.now }
{
    let chooser = Chooser::new(RoundRobin);
    let Ok(mut node) = LockedNode::new(alloc, Addr::node(1), 1, chooser) else {
        panic!(rt; "no memory")
    };
    tick_bare(rt, alloc, &mut node, stamps, first);
    tick_bare(rt, alloc, &mut node, others, second);
    node
}

/// The same, where the first caller drew a stamp before.
fn turned_round<R: Wait + Abort>(
    rt: &R,
    alloc: Global,
    stamps: &Stamps,
    seat: StampSeat,
    others: &Stamps,
    their_seat: StampSeat,
) -> Vec<Node>
    requires seat { seat.of_table ≡ stamps.now }
    requires their { their_seat.of_table ≡ others.now }
{
    let Ok(
        Called {
            lock,
            pass: mut late,
        },
    ) = node_with_caller(rt, alloc, 1, 1, stamps, seat)
    else {
        panic!(rt; "no memory")
    };
    let Ok(mut early) = node_with_caller(rt, alloc, 1, 1, others, their_seat) else {
        panic!(rt; "no memory")
    };
    tick(rt, alloc, &lock, &mut late);
    let node = ticked_by_both(rt, alloc, stamps, others, &mut late, &mut early.pass);
    let mut nodes = Vec::new(alloc);
    add(rt, &mut nodes, node);
    nodes
}

#[test]
fn stamps_that_are_turned_round_are_found(rt: HostRuntime) {
    let (stamps, seat) = one_seat(&rt, rt.alloc());
    let (others, their_seat) = one_seat(&rt, rt.alloc());
    let nodes = turned_round(&rt, rt.alloc(), &stamps, seat, &others, their_seat);
    let by = By {
        stamp: 0,
        caller: 1,
        call: 1,
    };
    let expected = Audit::Differ {
        node: 1,
        place: 3,
        kept: Entry::Step {
            by,
            event: EventNote::Tick,
        },
        replayed: None,
    };
    audits(&rt, rt.alloc(), nodes, &expected);
}
