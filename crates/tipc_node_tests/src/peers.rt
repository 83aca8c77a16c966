//! Two nodes that hand each other their frames.

ghost use Rattle.std.specs.Prelude.{◌≤◌};
ghost use Rattle.tipc_node.specs.Calls.{CanPerform};

use std::alloc::Global;
use std::process::Abort;
use std::test::Fail;
use tipc_node::Node;
use tipc_outside::{Outbox, Outgoing};
use tipc_pick::{Chooser, RoundRobin};
use tipc_types::{Addr, Answer, Arrival, By, EventNote, NoMemory};

/// Who makes all calls.
const BY: By = By {
    stamp: 0,
    caller: 1,
    call: 0,
};

/// How often two nodes hand each other what they have: often enough for a link to come up.
const ROUNDS: u32 = 8;

/// A call is made, and answered so.
pub fn calls(
    rt: &impl Abort,
    alloc: Global,
    node: &mut Node,
    call: EventNote,
    answer: Answer,
    out: &mut Outbox,
) -> Result<(), Fail>
    requires { CanPerform call }
{
    let mut chooser = Chooser::new(RoundRobin);
    let made = node.perform(alloc, BY, call, &mut chooser, out)?;
    assert!(rt; made == answer);
    Ok(())
}

/// Bytes arrive at a node on a bearer, and it puts its own frames into the box.
pub fn arrive(
    alloc: Global,
    node: &mut Node,
    bearer: u8,
    frame: &[u8],
    out: &mut Outbox,
) -> Result<Arrival, Fail> {
    Ok(node.arrive(alloc, BY, bearer, 0, frame, out)?)
}

/// These frames arrive at a node, which puts its own into the box.
pub fn hand_over(
    alloc: Global,
    frames: &[Outgoing],
    node: &mut Node,
    out: &mut Outbox,
) -> Result<(), Fail> {
    for sent in frames {
        arrive(alloc, node, sent.bearer, sent.frame.as_slice(), out)?;
    }
    Ok(())
}

/// These frames arrive at a node, and what it sends then is left.
fn answers_to(alloc: Global, frames: &[Outgoing], node: &mut Node) -> Result<Vec<Outgoing>, Fail> {
    let mut out = Outbox::new(alloc);
    hand_over(alloc, frames, node, &mut out)?;
    Ok(out.into_frames())
}

/// These frames go to the second node, and what it sends goes to the first; what that one sends is left.
fn go_round(
    alloc: Global,
    frames: &[Outgoing],
    first: &mut Node,
    second: &mut Node,
) -> Result<Vec<Outgoing>, Fail> {
    let there = answers_to(alloc, frames, second)?;
    answers_to(alloc, there.as_slice(), first)
}

/// Two nodes hand each other their frames, these of the first one first.
fn exchange(
    alloc: Global,
    first: &mut Node,
    second: &mut Node,
    mut frames: Vec<Outgoing>,
) -> Result<(), Fail> {
    for _ in 0..ROUNDS {
        frames = go_round(alloc, frames.as_slice(), first, second)?;
    }
    Ok(())
}

/// A node makes a socket, and mends its bearer 0.
fn begins(rt: &impl Abort, alloc: Global, node: &mut Node, out: &mut Outbox) -> Result<(), Fail> {
    calls(rt, alloc, node, EventNote::Socket, Answer::Socket(1), out)?;
    let mend = EventNote::Mend { bearer: 0 };
    calls(rt, alloc, node, mend, Answer::Done, out)
}

/// Both nodes begin; what the first one sent is left, and what the second sent is lost.
fn begin(
    rt: &impl Abort,
    alloc: Global,
    first: &mut Node,
    second: &mut Node,
) -> Result<Vec<Outgoing>, Fail> {
    let mut sent = Outbox::new(alloc);
    begins(rt, alloc, first, &mut sent)?;
    begins(rt, alloc, second, &mut Outbox::new(alloc))?;
    Ok(sent.into_frames())
}

/// Nodes 1 and 2, which did nothing before, get a socket each, and a link comes up between them on bearer 0.
pub fn link(
    rt: &impl Abort,
    alloc: Global,
    first: &mut Node,
    second: &mut Node,
) -> Result<(), Fail> {
    let sent = begin(rt, alloc, first, second)?;
    exchange(alloc, first, second, sent)?;
    assert!(rt; first.contact(2).is_some() && second.contact(1).is_some());
    Ok(())
}

/// Node 1 or 2 in a boot.
pub fn node_in(alloc: Global, number: u8, boot: u32) -> Result<Node, NoMemory>
    requires number { (1 ≤ number) × (number ≤ 2) }
    requires boot { 1 ≤ boot }
{
    Node::new(alloc, Addr::node(number), boot)
}

/// Node 1 or 2 in its first boot.
pub fn new_node(alloc: Global, number: u8) -> Result<Node, NoMemory>
    requires { (1 ≤ number) × (number ≤ 2) }
{
    node_in(alloc, number, 1)
}
