//! Two nodes that hand each other their frames: what is done to them, as tables.

ghost use Rattle.std.specs.Prelude.{◌≡◌};
ghost use Rattle.tipc_node_lock.specs.Locks.{IsPassOf};

use crate::aged::hear_again;
use crate::calling::{Node, both, node_with_caller, one_seat, two_seats};
use crate::calls::{Call, Called, hear, make, outgoing};
use std::alloc::Global;
use std::process::Abort;
use std::sync::Wait;
use tipc_stamp::{StampSeat, Stamps};

/// What is done to two nodes.
pub enum Act {
    /// Node 1 makes a call.
    One(Call),
    /// Node 2 makes a call.
    Two(Call),
    /// So often a tick passes at both nodes, and what leaves them arrives.
    PassTime(u32),
    /// What leaves node 1 arrives at node 2.
    Carry,
    /// What leaves node 1 arrives at node 2 on bearer 1.
    Astray,
    /// A frame of node 1 arrives at node 2, many others do, and it arrives once more.
    HearAgain,
}

/// What leaves a node arrives at another.
pub fn carry<R: Wait + Abort>(rt: &R, alloc: Global, from: &mut Called<'_>, to: &mut Called<'_>)
    requires from { IsPassOf from.old.lock from.old.pass }
    requires to { IsPassOf to.old.lock to.old.pass }
    ensures from { IsPassOf from.new.lock from.new.pass }
    ensures to { IsPassOf to.new.lock to.new.pass }
{
    let frames = outgoing(rt, alloc, from);
    for sent in frames.frames() {
        let bearer = if sent.bearer == 0 { 0 } else { 1 };
        hear(rt, alloc, to, bearer, sent.frame.as_slice());
    }
}

/// What leaves a node arrives at another on bearer 1.
fn lead_astray<R: Wait + Abort>(rt: &R, alloc: Global, from: &mut Called<'_>, to: &mut Called<'_>)
    requires from { IsPassOf from.old.lock from.old.pass }
    requires to { IsPassOf to.old.lock to.old.pass }
    ensures from { IsPassOf from.new.lock from.new.pass }
    ensures to { IsPassOf to.new.lock to.new.pass }
{
    let frames = outgoing(rt, alloc, from);
    for sent in frames.frames() {
        hear(rt, alloc, to, 1, sent.frame.as_slice());
    }
}

/// A tick at both nodes, and what leaves them arrives.
pub fn pass_time<R: Wait + Abort>(rt: &R, alloc: Global, one: &mut Called<'_>, two: &mut Called<'_>)
    requires one { IsPassOf one.old.lock one.old.pass }
    requires two { IsPassOf two.old.lock two.old.pass }
    ensures one { IsPassOf one.new.lock one.new.pass }
    ensures two { IsPassOf two.new.lock two.new.pass }
{
    make(rt, alloc, one, &Call::Tick);
    make(rt, alloc, two, &Call::Tick);
    carry(rt, alloc, one, two);
    carry(rt, alloc, two, one);
}

/// So many ticks.
fn pass_times<R: Wait + Abort>(
    rt: &R,
    alloc: Global,
    one: &mut Called<'_>,
    two: &mut Called<'_>,
    count: u32,
)
    requires one { IsPassOf one.old.lock one.old.pass }
    requires two { IsPassOf two.old.lock two.old.pass }
    ensures one { IsPassOf one.new.lock one.new.pass }
    ensures two { IsPassOf two.new.lock two.new.pass }
{
    for _ in 0..count {
        pass_time(rt, alloc, one, two);
    }
}

/// This is done to two nodes.
fn play<R: Wait + Abort>(
    rt: &R,
    alloc: Global,
    one: &mut Called<'_>,
    two: &mut Called<'_>,
    act: &Act,
)
    requires one { IsPassOf one.old.lock one.old.pass }
    requires two { IsPassOf two.old.lock two.old.pass }
    ensures one { IsPassOf one.new.lock one.new.pass }
    ensures two { IsPassOf two.new.lock two.new.pass }
{
    match act {
        Act::One(call) => make(rt, alloc, one, call),
        Act::Two(call) => make(rt, alloc, two, call),
        Act::PassTime(count) => pass_times(rt, alloc, one, two, *count),
        Act::Carry => carry(rt, alloc, one, two),
        Act::Astray => lead_astray(rt, alloc, one, two),
        Act::HearAgain => hear_again(rt, alloc, one, two),
    }
}

/// All this is done to two nodes.
fn play_all<R: Wait + Abort>(
    rt: &R,
    alloc: Global,
    one: &mut Called<'_>,
    two: &mut Called<'_>,
    acts: &[Act],
)
    requires one { IsPassOf one.old.lock one.old.pass }
    requires two { IsPassOf two.old.lock two.old.pass }
{
    for act in acts {
        play(rt, alloc, one, two, act);
    }
}

/// Node 1 in its first boot and node 2 in its third, each with a seat of its stamps, to which all this is done.
fn played<R: Wait + Abort>(
    rt: &R,
    alloc: Global,
    stamps: &Stamps,
    seat: StampSeat,
    others: &Stamps,
    their_seat: StampSeat,
    acts: &[Act],
) -> Vec<Node>
    requires seat { seat.of_table ≡ stamps.now }
    requires their { their_seat.of_table ≡ others.now }
{
    let Ok(mut one) = node_with_caller(rt, alloc, 1, 1, stamps, seat) else {
        panic!(rt; "no memory")
    };
    let Ok(mut two) = node_with_caller(rt, alloc, 2, 3, others, their_seat) else {
        panic!(rt; "no memory")
    };
    play_all(rt, alloc, &mut one, &mut two, acts);
    both(rt, alloc, one, two)
}

/// Node 1 in its first boot and node 2 in its third, to which all this was done.
pub fn after<R: Wait + Abort>(rt: &R, alloc: Global, acts: &[Act]) -> Vec<Node> {
    let (stamps, first, second) = two_seats(rt, alloc);
    played(rt, alloc, &stamps, first, &stamps, second, acts)
}

/// The same of nodes that have stamps of their own.
pub fn after_apart<R: Wait + Abort>(rt: &R, alloc: Global, acts: &[Act]) -> Vec<Node> {
    let (stamps, seat) = one_seat(rt, alloc);
    let (others, their_seat) = one_seat(rt, alloc);
    played(rt, alloc, &stamps, seat, &others, their_seat, acts)
}
