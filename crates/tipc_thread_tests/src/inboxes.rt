//! Tests of inboxes: a full one, an empty one, and messages that go from thread to thread.

ghost use Rattle.std.specs.Prelude.{◌≡◌, IfOk};

use std::alloc::Global;
use std::process::Abort;
use std::sync::Wait;
use std::test::Fail;
use std::thread;
use tipc_inbox::*;
use tipc_types::*;

/// The most messages that an inbox holds.
const HELD: u32 = 128;

/// How many messages go from one thread to the other.
const RELAYED: u32 = 10_000;

/// A message of this number, which its instance is, and its body.
fn numbered(rt: &impl Abort, alloc: Global, number: u32) -> Message {
    let Ok(body) = Body::from_slice(alloc, &number.to_be_bytes()) else {
        panic!(rt; "no memory")
    };
    let port = PortId {
        node: Addr::node(1),
        port: 1,
    };
    Message::Payload {
        importance: Importance::Low,
        form: Form::Named,
        from: port,
        to: port,
        name_kind: 18_888,
        lower: number,
        upper: number,
        code: 0,
        droppable: false,
        body,
    }
}

/// Whether it is the message of this number.
fn is_numbered(message: &Message, number: u32) -> bool {
    match message {
        Message::Payload { lower, body, .. } => {
            *lower == number && body.as_slice() == number.to_be_bytes().as_slice()
        }
        Message::Items { .. } => false,
    }
}

/// A message is offered, and comes back or not.
fn offers<R: Wait + Abort>(
    rt: &R,
    inbox: &Inbox,
    giver: &mut Giver,
    message: Message,
    back: Option<u32>,
)
    requires { giver.old.of_inbox ≡ inbox.now }
    ensures { giver.new.of_inbox ≡ inbox.now }
{
    match (inbox.offer(rt, giver, message), back) {
        (Ok(()), None) => {}
        (Err(message), Some(number)) => assert!(rt; is_numbered(&message, number)),
        _ => panic!(rt; "given back or not"),
    }
}

/// The message of this number is taken, or there is none.
fn takes<R: Wait + Abort>(rt: &R, inbox: &Inbox, taker: &mut Taker, number: Option<u32>)
    requires { taker.old.of_inbox ≡ inbox.now }
    ensures { taker.new.of_inbox ≡ inbox.now }
{
    match (inbox.take(rt, taker), number) {
        (None, None) => {}
        (Some(message), Some(number)) => assert!(rt; is_numbered(&message, number)),
        _ => panic!(rt; "a message or none"),
    }
}

/// Offers a message until it stays.
fn offer_until_it_stays<R: Wait>(rt: &R, inbox: &Inbox, giver: &mut Giver, message: Message)
    requires { giver.old.of_inbox ≡ inbox.now }
    ensures { giver.new.of_inbox ≡ inbox.now }
{
    let mut waiting = message;
    for _ in rt.forever() {
        match inbox.offer(rt, giver, waiting) {
            Ok(()) => return,
            Err(back) => waiting = back,
        }
        thread::yield_now();
    }
    unreachable!()
}

/// Takes the next message that comes.
fn take_next<R: Wait>(rt: &R, inbox: &Inbox, taker: &mut Taker) -> Message
    requires { taker.old.of_inbox ≡ inbox.now }
    ensures { taker.new.of_inbox ≡ inbox.now }
{
    for _ in rt.forever() {
        if let Some(message) = inbox.take(rt, taker) {
            return message;
        }
        thread::yield_now();
    }
    unreachable!()
}

/// Gives the messages of the first numbers, one after another.
fn give<R: Wait + Abort>(
    rt: &R,
    alloc: Global,
    inbox: &Inbox,
    mut giver: Giver,
    count: u32,
) -> Giver
    requires { giver.of_inbox ≡ inbox.now }
    ensures { result.of_inbox ≡ inbox.now }
{
    for number in 0..count {
        offer_until_it_stays(rt, inbox, &mut giver, numbered(rt, alloc, number));
    }
    giver
}

/// Takes as many messages, and answers whether each was the next in order.
fn receive<R: Wait>(rt: &R, inbox: &Inbox, mut taker: Taker, count: u32) -> (Taker, bool)
    requires { taker.of_inbox ≡ inbox.now }
    ensures { result.0.of_inbox ≡ inbox.now }
{
    let mut in_order = true;
    for number in 0..count {
        in_order &= is_numbered(&take_next(rt, inbox, &mut taker), number);
    }
    (taker, in_order)
}

/// An inbox that is full gives the next message back.
fn is_full<R: Wait + Abort>(
    rt: &R,
    alloc: Global,
    inbox: &Inbox,
    giver: &mut Giver,
    taker: &mut Taker,
)
    requires giver { giver.old.of_inbox ≡ inbox.now }
    requires taker { taker.old.of_inbox ≡ inbox.now }
    ensures giver { giver.new.of_inbox ≡ inbox.now }
    ensures taker { taker.new.of_inbox ≡ inbox.now }
{
    offers(rt, inbox, giver, numbered(rt, alloc, HELD), Some(HELD));
    inbox.compare(giver, taker);
}

/// An inbox that is empty has nothing, and takes the next message.
fn is_empty<R: Wait + Abort>(
    rt: &R,
    alloc: Global,
    inbox: &Inbox,
    giver: &mut Giver,
    taker: &mut Taker,
)
    requires giver { giver.old.of_inbox ≡ inbox.now }
    requires taker { taker.old.of_inbox ≡ inbox.now }
{
    takes(rt, inbox, taker, None);
    offers(rt, inbox, giver, numbered(rt, alloc, HELD), None);
    takes(rt, inbox, taker, Some(HELD));
}

#[test]
fn a_full_inbox_gives_back_and_an_empty_one_has_none(rt: HostRuntime) -> Result<(), Fail> {
    let alloc = rt.alloc();
    let (inbox, giver, mut taker) = Inbox::new(alloc)?;
    takes(&rt, &inbox, &mut taker, None);
    let mut giver = give(&rt, alloc, &inbox, giver, HELD);
    is_full(&rt, alloc, &inbox, &mut giver, &mut taker);
    let (mut taker, in_order) = receive(&rt, &inbox, taker, HELD);
    assert!(rt; in_order);
    is_empty(&rt, alloc, &inbox, &mut giver, &mut taker);
    Ok(())
}

#[test]
fn a_thread_hands_messages_to_another_in_order(rt: HostRuntime) -> Result<(), Fail> {
    let alloc = rt.alloc();
    let (inbox, giver, taker) = Inbox::new(alloc)?;
    let shared = &inbox;
    let (mut giver, (mut taker, in_order)) = thread::join(
        &rt,
        move ||
            requires { giver.of_inbox ≡ shared.now }
            ensures { result.of_inbox ≡ shared.entry.now }
        { give(&rt, alloc, shared, giver, RELAYED) },
        move ||
            requires { taker.of_inbox ≡ shared.now }
            ensures { result.0.of_inbox ≡ shared.entry.now }
        { receive(&rt, shared, taker, RELAYED) },
    );
    assert!(rt; in_order);
    inbox.compare(&mut giver, &mut taker);
    Ok(())
}
