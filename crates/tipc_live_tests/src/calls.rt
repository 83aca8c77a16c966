//! What the tests do at a node behind its lock, as calls and what they answer.

ghost use Rattle.std.specs.Prelude.{◌≡◌, ◌≤◌, false};
ghost use Rattle.tipc_node.specs.Calls.{CanPerform};
ghost use Rattle.tipc_node_lock.specs.Locks.{IsPassOf};
ghost use Rattle.tipc_node_lock.specs.Sections.{is_receive};

use std::alloc::Global;
use std::process::Abort;
use std::sync::Wait;
use tipc_node_lock::*;
use tipc_outside::Outbox;
use tipc_pick::RoundRobin;
use tipc_types::*;

/// A node behind its lock, and the pass of its one caller.
#[derive(Drop)]
pub struct Called<'s> {
    pub lock: NodeLock<'s, RoundRobin>,
    pub pass: Pass,
}

/// The first port of a node in its first boot, and that of one in its third.
const FIRST: u32 = 1;

const THIRD: u32 = 2_097_153;

/// A call, and what it answers.
pub enum Call {
    /// A tick passes.
    Tick,
    /// Bearer 0 is mended, or bearer 1.
    Mend(bool),
    /// The first socket is made, of a node in its first boot, or in its third.
    Socket(bool),
    /// A node in its third boot publishes there.
    Publish,
    /// Node 1 sends a message by name to what node 2 published.
    SendName,
    /// It sends a message of one byte to the first socket of node 2.
    Send,
    /// So many messages are taken from the first socket's inbox of node 2.
    Take(u32),
    /// A frame arrives on bearer 0.
    Hear(&'static [u8]),
}

/// The first socket of node 2, which is in its third boot.
fn receiver() -> PortId {
    PortId {
        node: Addr::node(2),
        port: THIRD,
    }
}

/// The body of a message.
fn body(rt: &impl Abort, alloc: Global, bytes: &[u8]) -> Body {
    match Body::from_slice(alloc, bytes) {
        Ok(body) => body,
        Err(NoMemory) => panic!(rt; "no memory"),
    }
}

/// How a service is published.
fn publishing(rt: &impl Abort) -> EventNote
    ensures { CanPerform result × (is_receive result ≡ false) }
{
    let Ok(range) = ServiceRange::new(2000, 1, 3) else {
        panic!(rt; "no range")
    };
    EventNote::Publish {
        port: THIRD,
        range,
        scope: Scope::Cluster,
        key: 5,
    }
}

/// How a message is sent by name.
fn sending_by_name(rt: &impl Abort, alloc: Global) -> EventNote
    ensures { CanPerform result × (is_receive result ≡ false) }
{
    EventNote::SendName {
        port: FIRST,
        kind: 2000,
        instance: 2,
        importance: Importance::Low,
        body: body(rt, alloc, &[1, 2, 3]),
    }
}

/// How a message is sent to a port.
fn sending(rt: &impl Abort, alloc: Global) -> EventNote
    ensures { CanPerform result × (is_receive result ≡ false) }
{
    EventNote::SendPort {
        port: FIRST,
        to: receiver(),
        importance: Importance::Low,
        body: body(rt, alloc, &[7]),
    }
}

/// What is called at the node.
fn note_of(rt: &impl Abort, alloc: Global, call: &Call) -> EventNote
    ensures { CanPerform result × (is_receive result ≡ false) }
{
    match call {
        Call::Mend(second) => EventNote::Mend {
            bearer: u8::from(*second),
        },
        Call::Socket(_) => EventNote::Socket,
        Call::Publish => publishing(rt),
        Call::SendName => sending_by_name(rt, alloc),
        Call::Send => sending(rt, alloc),
        _ => EventNote::Tick,
    }
}

/// What the node answers to it.
fn answer_of(call: &Call) -> Answer {
    match call {
        Call::Socket(false) => Answer::Socket(FIRST),
        Call::Socket(true) => Answer::Socket(THIRD),
        Call::SendName => Answer::SentTo(receiver()),
        Call::Send => Answer::Sent,
        _ => Answer::Done,
    }
}

/// Makes a locked call.
pub fn perform<R: Wait>(
    rt: &R,
    alloc: Global,
    lock: &NodeLock<'_, RoundRobin>,
    pass: &mut Pass,
    call: EventNote,
) -> Result<Answer, LockFault>
    requires pass { IsPassOf lock.now pass.old }
    requires can { CanPerform call }
    requires locked { is_receive call ≡ false }
    ensures { IsPassOf lock.now pass.new }
{
    lock.perform(rt, alloc, pass, call)
}

/// What leaves a node.
pub fn outgoing<R: Wait>(rt: &R, alloc: Global, node: &mut Called<'_>) -> Outbox
    requires { IsPassOf node.old.lock node.old.pass }
    ensures { IsPassOf node.new.lock node.new.pass }
{
    node.lock.outgoing(rt, alloc, &mut node.pass)
}

/// The call is answered so.
fn answers<R: Wait + Abort>(
    rt: &R,
    alloc: Global,
    node: &mut Called<'_>,
    call: EventNote,
    answer: Answer,
)
    requires pass { IsPassOf node.old.lock node.old.pass }
    requires can { CanPerform call }
    requires locked { is_receive call ≡ false }
    ensures { IsPassOf node.new.lock node.new.pass }
{
    match perform(rt, alloc, &node.lock, &mut node.pass, call) {
        Ok(told) => assert!(rt; told == answer),
        Err(_) => panic!(rt; "not made"),
    }
}

/// A frame arrives at a node.
pub fn hear<R: Wait + Abort>(rt: &R, alloc: Global, node: &mut Called<'_>, bearer: u8, frame: &[u8])
    requires pass { IsPassOf node.old.lock node.old.pass }
    requires bearer { bearer ≤ 1 }
    ensures { IsPassOf node.new.lock node.new.pass }
{
    let heard = node.lock.arrive(rt, alloc, &mut node.pass, bearer, frame);
    assert!(rt; heard.is_ok());
}

/// A message is taken from the first socket's inbox of a node in its third boot.
fn take<R: Wait + Abort>(rt: &R, node: &mut Called<'_>)
    requires { IsPassOf node.old.lock node.old.pass }
    ensures { IsPassOf node.new.lock node.new.pass }
{
    let taken = node.lock.receive(rt, &mut node.pass, THIRD);
    assert!(rt; matches!(taken, Ok(Some(_))));
}

/// So many messages are taken.
fn take_all<R: Wait + Abort>(rt: &R, node: &mut Called<'_>, count: u32)
    requires { IsPassOf node.old.lock node.old.pass }
    ensures { IsPassOf node.new.lock node.new.pass }
{
    for _ in 0..count {
        take(rt, node);
    }
}

/// A call is made, and answered as it should be.
pub fn make<R: Wait + Abort>(rt: &R, alloc: Global, node: &mut Called<'_>, call: &Call)
    requires { IsPassOf node.old.lock node.old.pass }
    ensures { IsPassOf node.new.lock node.new.pass }
{
    match call {
        Call::Take(count) => take_all(rt, node, *count),
        Call::Hear(frame) => hear(rt, alloc, node, 0, frame),
        _ => answers(rt, alloc, node, note_of(rt, alloc, call), answer_of(call)),
    }
}

/// These calls are made, one after another.
pub fn make_all<R: Wait + Abort>(rt: &R, alloc: Global, node: &mut Called<'_>, calls: &[Call])
    requires { IsPassOf node.old.lock node.old.pass }
    ensures { IsPassOf node.new.lock node.new.pass }
{
    for call in calls {
        make(rt, alloc, node, call);
    }
}
