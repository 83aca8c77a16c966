//! Tests of inboxes beside the lock: what waits at a port moves to its inbox, from which a pass receives without the lock.

ghost use Rattle.std.specs.Prelude.{◌≡◌, replicate};
ghost use Rattle.tipc_stamp.specs.Seats.{new_seat};
ghost use Rattle.tipc_node_lock.specs.Locks.{IsPassOf};

use crate::callers::{answers, locked, unlocked};
use crate::readings::{are_made_by, are_stamped_from_0, count_steps};
use std::alloc::Global;
use std::process::Abort;
use std::sync::Wait;
use std::test::Fail;
use tipc_node_lock::*;
use tipc_pick::RoundRobin;
use tipc_stamp::{StampSeat, Stamps};
use tipc_types::*;

/// How many messages are sent: two more than an inbox holds.
const SENT: u32 = 130;

/// A body that shows this number.
fn numbered(alloc: Global, number: u32) -> Result<Body, NoMemory> {
    Body::from_slice(alloc, &number.to_be_bytes())
}

/// Whether a message has the body of this number.
fn is_numbered(message: &Message, number: u32) -> bool {
    match message {
        Message::Payload { body, .. } => body.as_slice() == number.to_be_bytes().as_slice(),
        Message::Items { .. } => false,
    }
}

/// A message with this number is sent from a port of node 1 to one of its ports.
fn sends<R: Wait + Abort>(
    rt: &R,
    alloc: Global,
    lock: &NodeLock<'_, RoundRobin>,
    pass: &mut Pass,
    from: u32,
    to: u32,
    number: u32,
)
    requires { IsPassOf lock.now pass.old }
    ensures { IsPassOf lock.now pass.new }
{
    let Ok(body) = numbered(alloc, number) else {
        panic!(rt; "no memory")
    };
    let call = EventNote::SendPort {
        port: from,
        to: PortId {
            node: Addr::node(1),
            port: to,
        },
        importance: Importance::Low,
        body,
    };
    answers(rt, alloc, lock, pass, call, Answer::Sent);
}

/// Messages with the numbers from 0 on are sent to a port from itself.
fn sends_all<R: Wait + Abort>(
    rt: &R,
    alloc: Global,
    lock: &NodeLock<'_, RoundRobin>,
    pass: &mut Pass,
    port: u32,
    count: u32,
)
    requires { IsPassOf lock.now pass.old }
    ensures { IsPassOf lock.now pass.new }
{
    for number in 0..count {
        sends(rt, alloc, lock, pass, port, port, number);
    }
}

/// The message of this number is received at a port, or there is none.
fn receives<R: Wait + Abort>(
    rt: &R,
    lock: &NodeLock<'_, RoundRobin>,
    pass: &mut Pass,
    port: u32,
    number: Option<u32>,
)
    requires { IsPassOf lock.now pass.old }
    ensures { IsPassOf lock.now pass.new }
{
    match (lock.receive(rt, pass, port), number) {
        (Ok(None), None) => {}
        (Ok(Some(message)), Some(number)) => assert!(rt; is_numbered(&message, number)),
        _ => panic!(rt; "a message or none"),
    }
}

/// The messages of these numbers are received at a port, in this order, and then none.
fn receives_all<R: Wait + Abort>(
    rt: &R,
    lock: &NodeLock<'_, RoundRobin>,
    pass: &mut Pass,
    port: u32,
    first: u32,
    end: u32,
)
    requires { IsPassOf lock.now pass.old }
    ensures { IsPassOf lock.now pass.new }
{
    for number in first..end {
        receives(rt, lock, pass, port, Some(number));
    }
    receives(rt, lock, pass, port, None);
}

/// Nothing can be received at a port with this pass.
fn has_no_socket<R: Wait + Abort>(
    rt: &R,
    lock: &NodeLock<'_, RoundRobin>,
    pass: &mut Pass,
    port: u32,
)
    requires { IsPassOf lock.now pass.old }
    ensures { IsPassOf lock.now pass.new }
{
    assert!(rt; !pass.has_taker(port));
    match lock.receive(rt, pass, port) {
        Err(NoSocket) => {}
        Ok(_) => panic!(rt; "received without a socket"),
    }
}

/// A socket is made, to which two messages more are sent than its inbox holds.
fn fills<R: Wait + Abort>(rt: &R, alloc: Global, lock: &NodeLock<'_, RoundRobin>, pass: &mut Pass)
    requires { IsPassOf lock.now pass.old }
    ensures { IsPassOf lock.now pass.new }
{
    has_no_socket(rt, lock, pass, 1);
    answers(rt, alloc, lock, pass, EventNote::Socket, Answer::Socket(1));
    receives(rt, lock, pass, 1, None);
    sends_all(rt, alloc, lock, pass, 1, SENT);
}

/// Of the messages that were sent 128 moved, one stands by, and one waits at the port.
fn shows_one_that_stands_by(rt: &impl Abort, locked: &LockedNode<RoundRobin>) {
    locked.told();
    assert!(rt; locked.places().len() == 1);
    for place in locked.places() {
        assert!(rt; place.port() == 1);
        match place.standing() {
            Some(message) => assert!(rt; is_numbered(message, 128)),
            None => panic!(rt; "nothing stands by"),
        }
    }
    assert!(rt; locked.node().queued(1) == 1);
    assert!(rt; locked.answered(0) == 129 && locked.answered(1) == u64::from(SENT) + 1);
}

#[test]
fn a_message_that_an_inbox_gives_back_stands_by(rt: HostRuntime) -> Result<(), Fail> {
    let alloc = rt.alloc();
    let (stamps, seats) = Stamps::new(alloc, 1)?;
    let (lock, mut passes) = locked(alloc, &stamps, 1, seats)?;
    fills(&rt, alloc, &lock, &mut passes[0]);
    let locked = unlocked(&rt, lock, passes);
    shows_one_that_stands_by(&rt, &locked);
    Ok(())
}

/// All messages are received in order: those that the inbox held, the one that stood by, and the one that waited at the port, each behind a call
/// that moved it.
fn empties<R: Wait + Abort>(rt: &R, alloc: Global, lock: &NodeLock<'_, RoundRobin>, pass: &mut Pass)
    requires { IsPassOf lock.now pass.old }
    ensures { IsPassOf lock.now pass.new }
{
    receives(rt, lock, pass, 1, Some(0));
    answers(rt, alloc, lock, pass, EventNote::Tick, Answer::Done);
    receives_all(rt, lock, pass, 1, 1, 129);
    answers(rt, alloc, lock, pass, EventNote::Tick, Answer::Done);
    receives_all(rt, lock, pass, 1, 129, SENT);
    assert!(rt; !pass.is_short());
}

/// Nothing is left, each message was received once from its port, and each step has a stamp of its own.
fn shows_all_moved(rt: &impl Abort, alloc: Global, locked: &LockedNode<RoundRobin>) {
    for place in locked.places() {
        assert!(rt; place.standing().is_none());
    }
    assert!(rt; locked.node().queued(1) == 0 && locked.answered(0) == u64::from(SENT));
    let journal = locked.node().journal();
    let steps = count_steps(journal);
    assert!(rt; steps == 2 * SENT as usize + 3);
    match are_stamped_from_0(alloc, journal, steps) {
        Ok(once) => assert!(rt; once),
        Err(_) => panic!(rt; "no memory"),
    }
    for pass in locked.passes() {
        assert!(rt; are_made_by(journal, pass));
    }
}

#[test]
fn messages_that_wait_are_received_in_order(rt: HostRuntime) -> Result<(), Fail> {
    let alloc = rt.alloc();
    let (stamps, seats) = Stamps::new(alloc, 1)?;
    let (lock, mut passes) = locked(alloc, &stamps, 1, seats)?;
    fills(&rt, alloc, &lock, &mut passes[0]);
    empties(&rt, alloc, &lock, &mut passes[0]);
    let locked = unlocked(&rt, lock, passes);
    shows_all_moved(&rt, alloc, &locked);
    Ok(())
}

/// A socket is made, to which three messages are sent.
fn holds_three<R: Wait + Abort>(
    rt: &R,
    alloc: Global,
    lock: &NodeLock<'_, RoundRobin>,
    pass: &mut Pass,
)
    requires { IsPassOf lock.now pass.old }
    ensures { IsPassOf lock.now pass.new }
{
    answers(rt, alloc, lock, pass, EventNote::Socket, Answer::Socket(1));
    sends_all(rt, alloc, lock, pass, 1, 3);
}

/// A pass that never had a taker at the socket closes it.
fn closes_another_s<R: Wait + Abort>(
    rt: &R,
    alloc: Global,
    lock: &NodeLock<'_, RoundRobin>,
    pass: &mut Pass,
)
    requires { IsPassOf lock.now pass.old }
    ensures { IsPassOf lock.now pass.new }
{
    has_no_socket(rt, lock, pass, 1);
    answers(
        rt,
        alloc,
        lock,
        pass,
        EventNote::Close { port: 1 },
        Answer::Done,
    );
}

/// The three messages are received, though the socket is closed, and then none.
fn receives_three<R: Wait + Abort>(
    rt: &R,
    alloc: Global,
    lock: &NodeLock<'_, RoundRobin>,
    pass: &mut Pass,
)
    requires { IsPassOf lock.now pass.old }
    ensures { IsPassOf lock.now pass.new }
{
    receives_all(rt, lock, pass, 1, 0, 3);
    answers(
        rt,
        alloc,
        lock,
        pass,
        EventNote::Close { port: 1 },
        Answer::NoSocket,
    );
    receives(rt, lock, pass, 1, None);
}

/// The first of two passes makes a socket, which the second closes: the first receives what its inbox holds, and then none.
fn outlives<R: Wait + Abort>(
    rt: &R,
    alloc: Global,
    stamps: &Stamps,
    seats: Vec<StampSeat>,
) -> Result<(), NoMemory>
    requires { seats.items ≡ replicate 2 (new_seat stamps.now) }
{
    let (lock, mut passes) = locked(alloc, stamps, 2, seats)?;
    holds_three(rt, alloc, &lock, &mut passes[0]);
    closes_another_s(rt, alloc, &lock, &mut passes[1]);
    receives_three(rt, alloc, &lock, &mut passes[0]);
    Ok(())
}

#[test]
fn what_an_inbox_holds_outlives_its_socket(rt: HostRuntime) -> Result<(), Fail> {
    let alloc = rt.alloc();
    let (stamps, seats) = Stamps::new(alloc, 2)?;
    outlives(&rt, alloc, &stamps, seats)?;
    Ok(())
}

/// A pass that closes its socket loses the taker, with what the inbox held.
fn closes_its_own<R: Wait + Abort>(
    rt: &R,
    alloc: Global,
    lock: &NodeLock<'_, RoundRobin>,
    pass: &mut Pass,
)
    requires { IsPassOf lock.now pass.old }
{
    answers(rt, alloc, lock, pass, EventNote::Socket, Answer::Socket(1));
    answers(rt, alloc, lock, pass, EventNote::Socket, Answer::Socket(2));
    sends_all(rt, alloc, lock, pass, 1, 2);
    sends(rt, alloc, lock, pass, 1, 2, 7);
    answers(
        rt,
        alloc,
        lock,
        pass,
        EventNote::Close { port: 1 },
        Answer::Done,
    );
    has_no_socket(rt, lock, pass, 1);
    receives(rt, lock, pass, 2, Some(7));
    receives(rt, lock, pass, 2, None);
}

#[test]
fn a_pass_that_closes_its_socket_receives_nothing_more(rt: HostRuntime) -> Result<(), Fail> {
    let alloc = rt.alloc();
    let (stamps, seats) = Stamps::new(alloc, 1)?;
    let (lock, mut passes) = locked(alloc, &stamps, 1, seats)?;
    closes_its_own(&rt, alloc, &lock, &mut passes[0]);
    Ok(())
}
