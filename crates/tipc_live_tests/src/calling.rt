//! Nodes behind their locks, which one thread calls, and the audit of what comes of it.

ghost use Rattle.std.specs.Prelude.{◌≡◌, ◌≤◌, IfOk};
ghost use Rattle.tipc_types.specs.Address.{node_word};
ghost use Rattle.tipc_node_lock.specs.Locks.{IsPassOf};

use crate::calls::{Call, Called, make_all};
use std::alloc::Global;
use std::process::Abort;
use std::sync::Wait;
use tipc_live::*;
use tipc_node_lock::*;
use tipc_pick::{Chooser, RoundRobin};
use tipc_stamp::{StampSeat, Stamps};
use tipc_types::*;

/// A node of the tests, taken out of its lock.
pub type Node = LockedNode<RoundRobin>;

/// Node `n` in this boot, with one caller that has this seat.
pub fn node_with_caller<'s>(
    rt: &impl Abort,
    alloc: Global,
    n: u8,
    boot: u32,
    stamps: &'s Stamps,
    seat: StampSeat,
) -> Result<Called<'s>, NoMemory>
    requires node { (1 ≤ n) × (n ≤ 32) }
    requires boot { 1 ≤ boot }
    requires seat { seat.of_table ≡ stamps.now }
    ensures pass { IfOk result (λ c. IsPassOf c.lock c.pass) }
    ensures seat { IfOk result (λ c. c.pass.seat.of_table ≡ stamps.now) }
    ensures own { IfOk result (λ c. c.pass.own ≡ node_word n) }
{
    let chooser = Chooser::new(RoundRobin);
    let mut seats = Vec::new(alloc);
    seats.push(seat)?;
    let (lock, mut passes) = NodeLock::new(alloc, Addr::node(n), boot, chooser, 1, stamps, seats)?;
    match passes.pop() {
        Some(pass) => Ok(Called { lock, pass }),
        None => panic!(rt; "no pass"),
    }
}

/// New stamps, with a seat of theirs.
pub fn one_seat(rt: &impl Abort, alloc: Global) -> (Stamps, StampSeat)
    ensures { result.1.of_table ≡ result.0 }
{
    let Ok((stamps, mut seats)) = Stamps::new(alloc, 1) else {
        panic!(rt; "no memory")
    };
    match seats.pop() {
        Some(seat) => (stamps, seat),
        None => panic!(rt; "no seat"),
    }
}

/// New stamps, with two seats of theirs.
pub fn two_seats(rt: &impl Abort, alloc: Global) -> (Stamps, StampSeat, StampSeat)
    ensures { (result.1.of_table ≡ result.0) × (result.2.of_table ≡ result.0) }
{
    let Ok((stamps, mut seats)) = Stamps::new(alloc, 2) else {
        panic!(rt; "no memory")
    };
    match (seats.pop(), seats.pop()) {
        (Some(second), Some(first)) => (stamps, first, second),
        _ => panic!(rt; "no two seats"),
    }
}

/// A pass by itself.
fn only(rt: &impl Abort, alloc: Global, pass: Pass) -> Vec<Pass> {
    let mut passes = Vec::new(alloc);
    match passes.push(pass) {
        Ok(()) => passes,
        Err(_) => panic!(rt; "no memory"),
    }
}

/// Takes a node out of its lock with its pass.
fn take_out(rt: &impl Abort, alloc: Global, node: Called<'_>) -> Node {
    let Called { lock, pass } = node;
    match lock.into_locked(only(rt, alloc, pass)) {
        Ok(node) => node,
        Err(_) => panic!(rt; "a pass is missing"),
    }
}

/// Adds a node.
pub fn add(rt: &impl Abort, nodes: &mut Vec<Node>, node: Node) {
    match nodes.push(node) {
        Ok(()) => {}
        Err(_) => panic!(rt; "no memory"),
    }
}

/// A node by itself.
pub fn alone(rt: &impl Abort, alloc: Global, node: Called<'_>) -> Vec<Node> {
    let mut nodes = Vec::new(alloc);
    add(rt, &mut nodes, take_out(rt, alloc, node));
    nodes
}

/// Both nodes.
pub fn both(rt: &impl Abort, alloc: Global, one: Called<'_>, other: Called<'_>) -> Vec<Node> {
    let mut nodes = Vec::new(alloc);
    add(rt, &mut nodes, take_out(rt, alloc, one));
    add(rt, &mut nodes, take_out(rt, alloc, other));
    nodes
}

/// A node makes these calls with this seat.
fn called<R: Wait + Abort>(
    rt: &R,
    alloc: Global,
    n: u8,
    stamps: &Stamps,
    seat: StampSeat,
    calls: &[Call],
) -> Vec<Node>
    requires node { (1 ≤ n) × (n ≤ 32) }
    requires seat { seat.of_table ≡ stamps.now }
{
    let Ok(mut node) = node_with_caller(rt, alloc, n, 1, stamps, seat) else {
        panic!(rt; "no memory")
    };
    make_all(rt, alloc, &mut node, calls);
    alone(rt, alloc, node)
}

/// A node in its first boot, which made these calls.
pub fn after_calls<R: Wait + Abort>(rt: &R, alloc: Global, n: u8, calls: &[Call]) -> Vec<Node>
    requires { (1 ≤ n) × (n ≤ 32) }
{
    let (stamps, seat) = one_seat(rt, alloc);
    called(rt, alloc, n, &stamps, seat, calls)
}

/// What the audit of these nodes answers.
fn audited(rt: &impl Abort, alloc: Global, nodes: Vec<Node>) -> Audit {
    let mut gathered: Gathered<RoundRobin, u8> = Gathered::new(alloc);
    gathered.gather(nodes, Vec::new(alloc));
    if !can_audit(gathered.nodes()) {
        panic!(rt; "nodes that can't be audited together");
    }
    let Ok(answer) = gathered.audit(alloc) else {
        panic!(rt; "no memory")
    };
    gathered.replay().good();
    assert!(rt; gathered.bearers().is_empty());
    answer
}

/// This is what the audit of these nodes answers.
pub fn audits(rt: &impl Abort, alloc: Global, nodes: Vec<Node>, expected: &Audit) {
    let answer = audited(rt, alloc, nodes);
    assert!(rt; answer == *expected);
}
