//! Lines that send and receive messages, also many at once.

ghost use Rattle.std.specs.Prelude.{◌≡◌, ◌≤◌, true, IfOk};
ghost use Rattle.tipc_world.specs.Events.{CanHappen};
ghost use Rattle.tipc_world.specs.States.{is_there};
ghost use Rattle.tipc_world.specs.Courses.{Continues, Once};
ghost use Rattle.tipc_sim.specs.Messages.{told_of_drained, is_call, is_message, is_sent, Bursts, PumpsAndReceives, PumpsBoth, ReceivesAll, SendsAgain, Turn};

use crate::frames::{empty_air, make};
use std::alloc::{AllocError, Global};
use tipc_pick::Pick;
use tipc_report::Told;
use tipc_types::{Answer, EventNote};
use tipc_world::{Places, Receivers, World, WorldEvent, WorldFault};

/// A socket of a node.
#[derive(Clone, Copy, Debug, PartialEq, Eq)]
pub struct Socket {
    /// The node's number.
    pub node: u8,
    /// The socket's port.
    pub port: u32,
}

impl Socket {
    /// The socket of that node and port.
    pub fn new(node: u8, port: u32) -> Socket
        ensures { result ≡ record { node = node; port = port } }
    {
        Socket { node, port }
    }
}

/// Whether an answer says that a message was sent.
fn is_sent(answer: &Answer) -> bool
    ensures { result ≡ is_sent answer.now }
{
    matches!(answer, Answer::Sent | Answer::SentTo(_))
}

/// Whether an answer is a message.
fn is_message(answer: &Answer) -> bool
    ensures { result ≡ is_message answer.now }
{
    matches!(answer, Answer::Received(_))
}

/// The same event again.
fn copy_of(message: &WorldEvent) -> Result<WorldEvent, AllocError>
    ensures { IfOk result (λ copy. copy ≡ message.now) }
{
    message.clone()
}

/// Lets a message be sent.
fn send<P: Pick>(
    alloc: Global,
    message: &WorldEvent,
    world: &mut World<P>,
) -> Result<Answer, WorldFault>
    requires { CanHappen world.old.state message.now }
    ensures comes { Once message.now world.old.state result world.new.state }
    ensures continues { Continues P.gives world.old world.new }
{
    make(alloc, copy_of(message)?, world)
}

/// Lets a message be received.
fn receive<P: Pick>(alloc: Global, at: Socket, world: &mut World<P>) -> Result<Answer, WorldFault>
    requires { is_there world.old.state at.node ≡ true }
    ensures comes { Once (WorldEvent.Call at.node (EventNote.Receive at.port)) world.old.state result world.new.state }
    ensures continues { Continues P.gives world.old world.new }
{
    let event = WorldEvent::Call {
        node: at.node,
        call: EventNote::Receive { port: at.port },
    };
    make(alloc, event, world)
}

/// Sends a message again and again, so many times at most, which is 1 or more, and stops at the first send that is
/// refused. It answers how many were sent, and the last answer.
pub fn repeat<P: Pick>(
    alloc: Global,
    times: u32,
    message: &WorldEvent,
    world: &mut World<P>,
) -> Result<(u64, Answer), WorldFault>
    requires some { 1 ≤ times }
    requires can { CanHappen world.old.state message.now }
    requires sends { is_call message.now ≡ true }
    ensures comes { SendsAgain times message.now world.old.state result world.new.state }
    ensures continues { Continues P.gives world.old world.new }
{
    let mut sent = 0;
    loop {
        let last = send(alloc, message, world)?;
        if !is_sent(&last) {
            return Ok((sent, last));
        }
        sent += 1;
        if sent == u64::from(times) {
            return Ok((sent, last));
        }
    }
}

/// How many messages were received before this answer, or that there is no such socket.
fn told_of_drained(count: u64, last: &Answer) -> Told
    ensures { result ≡ told_of_drained count last.now }
{
    match last {
        Answer::NoSocket => Told::Answer(Answer::NoSocket),
        _ => Told::Drained(count),
    }
}

/// Lets messages be received at a socket until there is none.
pub fn receive_all<P: Pick>(
    alloc: Global,
    at: Socket,
    world: &mut World<P>,
) -> Result<Told, WorldFault>
    requires { is_there world.old.state at.node ≡ true }
    ensures comes { ReceivesAll at.node at.port world.old.state result world.new.state }
    ensures continues { Continues P.gives world.old world.new }
{
    let mut count = 0;
    loop {
        let answer = receive(alloc, at, world)?;
        if !is_message(&answer) {
            return Ok(told_of_drained(count, &answer));
        }
        count += 1;
    }
}

/// Pumps the frames of bearer 0 and then those of bearer 1, from these places on, and answers up to which places frames
/// are pumped then.
fn pump_both<P: Pick>(
    alloc: Global,
    places: Places,
    world: &mut World<P>,
) -> Result<Places, WorldFault>
    ensures comes { PumpsBoth places world.old.state result world.new.state }
    ensures continues { Continues P.gives world.old world.new }
{
    empty_air(alloc, Receivers::Any, 0, places.first, world)?;
    let first = world.air_len(0);
    empty_air(alloc, Receivers::Any, 1, places.second, world)?;
    Ok(Places {
        first,
        second: world.air_len(1),
    })
}

/// Pumps the frames from these places on, and lets a message be received. It answers whether there was one, and up to
/// which places frames are pumped then.
fn pump_and_receive<P: Pick>(
    alloc: Global,
    at: Socket,
    places: Places,
    world: &mut World<P>,
) -> Result<(bool, Places), WorldFault>
    requires { is_there world.old.state at.node ≡ true }
    ensures comes { PumpsAndReceives places (WorldEvent.Call at.node
        (EventNote.Receive at.port)) world.old.state result world.new.state }
    ensures continues { Continues P.gives world.old world.new }
{
    let ends = pump_both(alloc, places, world)?;
    let answer = receive(alloc, at, world)?;
    Ok((is_message(&answer), ends))
}

/// Lets a message be sent, and where it was, pumps frames and lets a message be received. It answers whether there was
/// one, and up to which places frames are pumped then.
fn turn<P: Pick>(
    alloc: Global,
    message: &WorldEvent,
    at: Socket,
    places: Places,
    world: &mut World<P>,
) -> Result<(bool, Places), WorldFault>
    requires can { CanHappen world.old.state message.now }
    requires there { is_there world.old.state at.node ≡ true }
    ensures comes { Turn message.now (WorldEvent.Call at.node
        (EventNote.Receive at.port)) places world.old.state result world.new.state }
    ensures continues { Continues P.gives world.old world.new }
{
    let answer = send(alloc, message, world)?;
    if !is_sent(&answer) {
        return Ok((false, places));
    }
    pump_and_receive(alloc, at, places, world)
}

/// Makes so many turns at most, until no message is received. It answers in how many one was, and up to which places
/// frames are pumped then.
pub fn burst<P: Pick>(
    alloc: Global,
    times: u32,
    message: &WorldEvent,
    at: Socket,
    first: Places,
    world: &mut World<P>,
) -> Result<(u64, Places), WorldFault>
    requires can { CanHappen world.old.state message.now }
    requires sends { is_call message.now ≡ true }
    requires there { is_there world.old.state at.node ≡ true }
    ensures comes { Bursts times message.now (WorldEvent.Call at.node
        (EventNote.Receive at.port)) first world.old.state result world.new.state }
    ensures continues { Continues P.gives world.old world.new }
{
    let mut places = first;
    let mut moved = 0;
    for _ in 0..times {
        let (came, next) = turn(alloc, message, at, places, world)?;
        places = next;
        if !came {
            return Ok((moved, places));
        }
        moved += 1;
    }
    Ok((moved, places))
}
