//! A node hears frames that were changed at random, of every kind that nodes send: it answers each, and what it sends goes on to its peer.

ghost use Rattle.std.specs.Prelude.{◌<◌, length, IfOk};
ghost use Rattle.tipc_node.specs.Calls.{CanPerform};

use crate::peers::{arrive, calls, hand_over, link, new_node};
use rand::rngs::StdRng;
use rand::{RngExt, SeedableRng};
use std::alloc::Global;
use std::process::Abort;
use std::test::Fail;
use tipc_journal::Entry;
use tipc_node::Node;
use tipc_outside::{Outbox, Outgoing};
use tipc_types::{
    Addr, Answer, Body, EventNote, Importance, NoMemory, PortId, Scope, ServiceRange,
};

/// How many frames a node hears before it is made anew. (Its journal has room for 100,000.)
const HEARD: u32 = 100;

/// How many nodes hear so many. (`tools/hostile.py bytes` lets more of them hear more.)
const NODES: u64 = 2;

/// How many bytes a message has that takes three fragments.
const LONG: usize = 3_000;

/// A number below a bound.
fn below(rng: &mut StdRng, bound: usize) -> usize
    requires { 0 < bound }
    ensures { result < bound }
{
    rng.random_range(0..bound)
}

/// One byte is another one.
fn change_byte(rng: &mut StdRng, frame: &mut Vec<u8>) {
    if frame.is_empty() {
        return;
    }
    let place = below(rng, frame.len());
    frame[place] = below(rng, 256) as u8;
}

/// The frame is cut somewhere.
fn cut(rng: &mut StdRng, frame: &mut Vec<u8>) {
    let length = below(rng, frame.len() + 1);
    frame.truncate(length);
}

/// A word is that of another frame, where both have it.
fn take_word(rng: &mut StdRng, frame: &mut Vec<u8>, other: &[u8]) {
    let place = 4 * below(rng, 16);
    for byte in place..place + 4 {
        if byte < frame.len() && byte < other.len() {
            frame[byte] = other[byte];
        }
    }
}

/// The lower byte of one of the two words of the envelope is another one: the frame is of another session or boot, or for others.
fn change_envelope(rng: &mut StdRng, frame: &mut Vec<u8>) {
    let place = 7 + 8 * below(rng, 2);
    if place < frame.len() {
        frame[place] = below(rng, 4) as u8;
    }
}

/// A frame is changed in one way.
fn changed(
    rng: &mut StdRng,
    alloc: Global,
    frame: &[u8],
    other: &[u8],
) -> Result<Vec<u8>, NoMemory> {
    let mut bytes = Vec::from_slice(alloc, frame)?;
    match below(rng, 8) {
        0 => {}
        1 => cut(rng, &mut bytes),
        2 => bytes.extend_from_slice(other)?,
        3 => take_word(rng, &mut bytes, other),
        4 | 5 => change_envelope(rng, &mut bytes),
        _ => change_byte(rng, &mut bytes),
    }
    Ok(bytes)
}

/// How a range is published at port 1.
fn publishing(range: ServiceRange) -> EventNote
    ensures { CanPerform result }
{
    EventNote::Publish {
        port: 1,
        range,
        scope: Scope::Cluster,
        key: 7,
    }
}

/// A node publishes at its port 1.
fn publishes(
    rt: &impl Abort,
    alloc: Global,
    node: &mut Node,
    out: &mut Outbox,
) -> Result<(), Fail> {
    let range = ServiceRange::new(100, 0, 9)?;
    calls(rt, alloc, node, publishing(range), Answer::Done, out)
}

/// How a message of these bytes is sent to port 1 of a node.
fn sending(alloc: Global, to: Addr, bytes: &[u8]) -> Result<EventNote, NoMemory>
    ensures { IfOk result CanPerform }
{
    Ok(EventNote::SendPort {
        port: 1,
        to: PortId { node: to, port: 1 },
        importance: Importance::Low,
        body: Body::from_slice(alloc, bytes)?,
    })
}

/// A node sends another one these bytes.
fn sends(
    rt: &impl Abort,
    alloc: Global,
    node: &mut Node,
    to: Addr,
    bytes: &[u8],
    out: &mut Outbox,
) -> Result<(), Fail> {
    let send = sending(alloc, to, bytes)?;
    calls(rt, alloc, node, send, Answer::Sent, out)
}

/// A node sends another one a long message.
fn sends_long(
    rt: &impl Abort,
    alloc: Global,
    node: &mut Node,
    to: Addr,
    out: &mut Outbox,
) -> Result<(), Fail> {
    let mut bytes = Vec::new(alloc);
    bytes.resize(LONG, 7)?;
    sends(rt, alloc, node, to, bytes.as_slice(), out)
}

/// How a message is sent to all that offer what a node publishes.
fn casting(alloc: Global) -> Result<EventNote, NoMemory>
    ensures { IfOk result CanPerform }
{
    Ok(EventNote::Multicast {
        port: 1,
        kind: 100,
        lower: 0,
        upper: 9,
        importance: Importance::Low,
        body: Body::from_slice(alloc, b"m")?,
    })
}

/// A node sends a message to all that offer what it publishes.
fn casts(rt: &impl Abort, alloc: Global, node: &mut Node, out: &mut Outbox) -> Result<(), Fail> {
    let cast = casting(alloc)?;
    calls(rt, alloc, node, cast, Answer::Sent, out)
}

/// A node sends another one a message by port and a long one, and one to all that offer what it publishes; a tick passes.
fn is_busy(
    rt: &impl Abort,
    alloc: Global,
    node: &mut Node,
    other: Addr,
    out: &mut Outbox,
) -> Result<(), Fail> {
    sends(rt, alloc, node, other, b"x", out)?;
    sends_long(rt, alloc, node, other, out)?;
    casts(rt, alloc, node, out)?;
    calls(rt, alloc, node, EventNote::Tick, Answer::Done, out)
}

/// Both nodes publish, and hear that of each other.
fn both_publish(
    rt: &impl Abort,
    alloc: Global,
    first: &mut Node,
    second: &mut Node,
    out: &mut Outbox,
    back: &mut Outbox,
) -> Result<(), Fail> {
    publishes(rt, alloc, first, out)?;
    publishes(rt, alloc, second, back)?;
    hand_over(alloc, out.frames(), second, &mut Outbox::new(alloc))?;
    hand_over(alloc, back.frames(), first, &mut Outbox::new(alloc))
}

/// Both are busy, and what each sends is in its box.
fn are_busy(
    rt: &impl Abort,
    alloc: Global,
    first: &mut Node,
    second: &mut Node,
    out: &mut Outbox,
    back: &mut Outbox,
) -> Result<(), Fail> {
    both_publish(rt, alloc, first, second, out, back)?;
    is_busy(rt, alloc, first, Addr::node(2), out)?;
    is_busy(rt, alloc, second, Addr::node(1), back)
}

/// These frames are kept.
fn keep(frames: &[Outgoing], kept: &mut Vec<Outgoing>) -> Result<(), NoMemory> {
    for sent in frames {
        kept.push(sent.clone()?)?;
    }
    Ok(())
}

/// The frames that two busy nodes send each other are kept.
fn keep_frames_of(
    rt: &impl Abort,
    alloc: Global,
    first: &mut Node,
    second: &mut Node,
    kept: &mut Vec<Outgoing>,
) -> Result<(), Fail> {
    let mut out = Outbox::new(alloc);
    let mut back = Outbox::new(alloc);
    are_busy(rt, alloc, first, second, &mut out, &mut back)?;
    keep(out.frames(), kept)?;
    keep(back.frames(), kept)?;
    Ok(())
}

/// One of these frames, changed by another one of them.
fn changed_one(rng: &mut StdRng, alloc: Global, kept: &[Outgoing]) -> Result<Vec<u8>, NoMemory>
    requires { 0 < length kept.now }
{
    let sent = &kept[below(rng, kept.len())];
    let other = &kept[below(rng, kept.len())];
    changed(rng, alloc, sent.frame.as_slice(), other.frame.as_slice())
}

/// Node 2 hears a frame, mostly on bearer 0, and node 1 hears what it sends.
fn hears(
    alloc: Global,
    rng: &mut StdRng,
    first: &mut Node,
    second: &mut Node,
    frame: &[u8],
) -> Result<(), Fail> {
    let bearer = u8::from(below(rng, 10) == 0);
    let mut out = Outbox::new(alloc);
    arrive(alloc, second, bearer, frame, &mut out)?;
    hand_over(alloc, out.frames(), first, &mut Outbox::new(alloc))
}

/// It hears one of these frames, changed.
fn hears_changed(
    alloc: Global,
    rng: &mut StdRng,
    kept: &[Outgoing],
    first: &mut Node,
    second: &mut Node,
) -> Result<(), Fail>
    requires { 0 < length kept.now }
{
    let frame = changed_one(rng, alloc, kept)?;
    hears(alloc, rng, first, second, frame.as_slice())
}

/// It hears so many.
fn hears_many(
    alloc: Global,
    rng: &mut StdRng,
    kept: &[Outgoing],
    first: &mut Node,
    second: &mut Node,
) -> Result<(), Fail>
    requires { 0 < length kept.now }
{
    for _ in 0..HEARD {
        hears_changed(alloc, rng, kept, first, second)?;
    }
    Ok(())
}

/// How many steps a node made.
fn steps(node: &Node) -> usize {
    node.journal()
        .iter()
        .filter(|entry| matches!(entry, Entry::Step { .. }))
        .count()
}

/// Node 2 makes one step for each of these frames, changed, whatever its bytes are. What a number stands for is drawn at random.
fn answers_each(
    rt: &impl Abort,
    alloc: Global,
    seed: u64,
    kept: &[Outgoing],
    first: &mut Node,
    second: &mut Node,
) -> Result<(), Fail>
    requires { 0 < length kept.now }
{
    let before = steps(second);
    hears_many(alloc, &mut StdRng::seed_from_u64(seed), kept, first, second)?;
    assert!(rt; steps(second).checked_sub(before) == Some(HEARD as usize));
    Ok(())
}

/// The same of those that the two send each other.
fn answers_the_kept(
    rt: &impl Abort,
    alloc: Global,
    seed: u64,
    first: &mut Node,
    second: &mut Node,
) -> Result<(), Fail> {
    let mut kept = Vec::new(alloc);
    link(rt, alloc, first, second)?;
    keep_frames_of(rt, alloc, first, second, &mut kept)?;
    assert!(rt; !kept.is_empty());
    answers_each(rt, alloc, seed, kept.as_slice(), first, second)
}

/// The same of a node that did nothing before.
fn answers_its_peer(
    rt: &impl Abort,
    alloc: Global,
    seed: u64,
    node: &mut Node,
) -> Result<(), Fail> {
    let mut peer = new_node(alloc, 1)?;
    answers_the_kept(rt, alloc, seed, &mut peer, node)
}

/// A new node does so.
fn answers_all(rt: &impl Abort, alloc: Global, seed: u64) -> Result<(), Fail> {
    let mut node = new_node(alloc, 2)?;
    answers_its_peer(rt, alloc, seed, &mut node)
}

#[test]
fn any_bytes_are_one_step(rt: HostRuntime) -> Result<(), Fail> {
    for seed in 0..NODES {
        answers_all(&rt, rt.alloc(), seed)?;
    }
    Ok(())
}
