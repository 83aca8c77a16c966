//! Calls of a node that were promised their memory: each that is recorded uses a promise up.

ghost use Rattle.tipc_node.specs.Calls.{CanPerform};

use crate::peers::{calls, new_node};
use std::alloc::Global;
use std::process::Abort;
use std::test::Fail;
use tipc_node::Node;
use tipc_outside::Outbox;
use tipc_types::{Answer, EventNote, Scope, ServiceRange, Subscription};

/// A call.
#[derive(Clone, Copy)]
enum Call {
    /// A socket is made.
    Socket,
    /// A range is published there for the node alone.
    Publish,
    /// A subscription to all instances of type 101 is made.
    Subscribe,
    /// Nothing is received at the socket.
    Receive,
    /// The subscription has no event.
    NextEvent,
    /// It is cancelled.
    Cancel,
    /// The range is withdrawn.
    Withdraw,
}

/// All instances of type 101, for ever, by publication.
const ASKED: Subscription = Subscription {
    range_kind: 101,
    lower: 0,
    upper: u32::MAX,
    timeout: u32::MAX,
    filter: 1,
    handle: [0; 8],
};

/// How a range is published at port 1.
fn publishing(range: ServiceRange) -> EventNote
    ensures { CanPerform result }
{
    EventNote::Publish {
        port: 1,
        range,
        scope: Scope::Node,
        key: 7,
    }
}

/// What is called, where this range is the one that is published.
fn note_of(call: Call, range: ServiceRange) -> EventNote
    ensures { CanPerform result }
{
    match call {
        Call::Socket => EventNote::Socket,
        Call::Publish => publishing(range),
        Call::Subscribe => EventNote::Subscribe {
            subscription: ASKED,
        },
        Call::Receive => EventNote::Receive { port: 1 },
        Call::NextEvent => EventNote::NextEvent { number: 1 },
        Call::Cancel => EventNote::Cancel { number: 1 },
        Call::Withdraw => EventNote::Withdraw { port: 1, key: 7 },
    }
}

/// What is answered.
fn answer_of(call: Call) -> Answer {
    match call {
        Call::Socket => Answer::Socket(1),
        Call::Subscribe => Answer::Subscribed(1),
        Call::Receive => Answer::Empty,
        Call::NextEvent => Answer::NoEvent,
        Call::Publish | Call::Cancel | Call::Withdraw => Answer::Done,
    }
}

/// These calls are made, one after another, and answered so.
fn makes_all(rt: &impl Abort, alloc: Global, node: &mut Node, all: &[Call]) -> Result<(), Fail> {
    let range = ServiceRange::new(100, 0, 9)?;
    for call in all {
        let note = note_of(*call, range);
        calls(
            rt,
            alloc,
            node,
            note,
            answer_of(*call),
            &mut Outbox::new(alloc),
        )?;
    }
    Ok(())
}

/// The node has a socket, where it publishes for itself alone, and a subscription.
static BEFORE: [Call; 3] = [Call::Socket, Call::Publish, Call::Subscribe];

/// The four calls that take no memory then.
static PROMISED: [Call; 4] = [Call::Receive, Call::NextEvent, Call::Cancel, Call::Withdraw];

/// A node is promised the memory of four calls, and makes them.
fn uses_up(rt: &impl Abort, alloc: Global, node: &mut Node) -> Result<(), Fail> {
    makes_all(rt, alloc, node, &BEFORE)?;
    node.reserve(4)?;
    assert!(rt; node.promised() == 4);
    makes_all(rt, alloc, node, &PROMISED)?;
    assert!(rt; node.promised() == 0);
    assert!(rt; node.names().is_empty());
    Ok(())
}

#[test]
fn each_recorded_call_uses_up_a_promise(rt: HostRuntime) -> Result<(), Fail> {
    let mut node = new_node(rt.alloc(), 1)?;
    uses_up(&rt, rt.alloc(), &mut node)
}
