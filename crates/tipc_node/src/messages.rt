//! The messages that a user sends, their limits, and their packets.

ghost use Rattle.std.specs.Prelude.{◌≡◌, ◌≤◌, true, All, Some, length, IfOk};
ghost use Rattle.tipc_journal.specs.Refusals.{longest_body};
ghost use Rattle.tipc_journal.specs.Room.{counted_bytes};
ghost use Rattle.tipc_pair.specs.Messages.{pieces_for};
ghost use Rattle.tipc_pair.specs.Runs.{IsListed};
ghost use Rattle.tipc_message.specs.Wire.{IsCarried, IsPayload};
ghost use Rattle.tipc_node.specs.Multicasts.{is_multicast};
ghost use Rattle.tipc_node.specs.Messages.{ArePieces, IsSendable, bytes_of, direct, limit_of, multicast, named};

use std::alloc::Global;
use tipc_fragments::{LEAST_CUT, cut};
use tipc_message::packet_bytes;
use tipc_types::{Addr, Body, EventNote, Form, Importance, Message, NoMemory, Pieces, PortId};

/// The most bytes of a body. (This project's profile.)
pub const MOST_BODY_BYTES: usize = 66_000;

/// A user's message to a port.
pub fn direct(own: Addr, port: u32, to: PortId, importance: Importance, body: Body) -> Message
    requires { length body ≤ longest_body }
    ensures value { result ≡ direct own.word port to importance body }
    ensures payload { IsPayload result }
    ensures small { counted_bytes result ≤ longest_body }
{
    Message::Payload {
        importance,
        form: Form::Direct,
        from: PortId { node: own, port },
        to,
        name_kind: 0,
        lower: 0,
        upper: 0,
        code: 0,
        droppable: false,
        body,
    }
}

/// A user's message by name, to the port that the name found.
pub fn named(
    own: Addr,
    port: u32,
    to: PortId,
    kind: u32,
    instance: u32,
    importance: Importance,
    body: Body,
) -> Message
    requires { length body ≤ longest_body }
    ensures value { result ≡ named own.word port to kind instance importance body }
    ensures payload { IsPayload result }
    ensures small { counted_bytes result ≤ longest_body }
{
    Message::Payload {
        importance,
        form: Form::Named,
        from: PortId { node: own, port },
        to,
        name_kind: kind,
        lower: instance,
        upper: instance,
        code: 0,
        droppable: false,
        body,
    }
}

/// A user's message to each port that offers in a range.
pub fn multicast(
    own: Addr,
    port: u32,
    kind: u32,
    lower: u32,
    upper: u32,
    importance: Importance,
    body: Body,
) -> Message
    requires { length body ≤ longest_body }
    ensures value { result ≡ multicast own.word port
        (record { kind = kind; lower = lower; upper = upper }) importance body }
    ensures many { is_multicast (Some result) ≡ true }
    ensures payload { IsPayload result }
    ensures small { counted_bytes result ≤ longest_body }
{
    Message::Payload {
        importance,
        form: Form::Multicast,
        from: PortId { node: own, port },
        to: PortId {
            node: Addr { word: 0 },
            port: 0,
        },
        name_kind: kind,
        lower,
        upper,
        code: 0,
        droppable: true,
        body,
    }
}

/// What the journal keeps of a call that sends a message to a port.
pub fn port_note(port: u32, to: PortId, importance: Importance, body: Body) -> EventNote
    ensures { result ≡ EventNote.SendPort port to importance body }
{
    EventNote::SendPort {
        port,
        to,
        importance,
        body,
    }
}

/// What the journal keeps of a call that sends a message by name.
pub fn name_note(
    port: u32,
    kind: u32,
    instance: u32,
    importance: Importance,
    body: Body,
) -> EventNote
    ensures { result ≡ EventNote.SendName port kind instance importance body }
{
    EventNote::SendName {
        port,
        kind,
        instance,
        importance,
        body,
    }
}

/// What the journal keeps of a call that sends a message to each port that offers in a range.
pub fn multicast_note(
    port: u32,
    kind: u32,
    lower: u32,
    upper: u32,
    importance: Importance,
    body: Body,
) -> EventNote
    ensures { result ≡ EventNote.Multicast port kind lower upper importance body }
{
    EventNote::Multicast {
        port,
        kind,
        lower,
        upper,
        importance,
        body,
    }
}

/// How many packets may wait before a message of this importance is congested. (This project's profile.)
pub fn limit(importance: Importance) -> u32
    ensures { result ≡ limit_of importance }
{
    match importance {
        Importance::Low => 50,
        Importance::Medium => 100,
        Importance::High => 150,
        Importance::Critical => 200,
    }
}

/// The packets in which a node sends a message: its own, or its fragments where that is too long for one packet.
pub fn pieces(alloc: Global, own: Addr, message: &Message) -> Result<Pieces, NoMemory>
    requires { IsCarried message.now }
    ensures sendable { IfOk result (λ pieces. IsSendable own.word message.now) }
    ensures value { IfOk result (λ pieces. pieces ≡ pieces_for (bytes_of own.word message.now)) }
    ensures listed { IfOk result (All IsListed) }
    ensures cast { IfOk result ArePieces }
{
    let packet = packet_bytes(alloc, own, message)?;
    if packet.len() >= LEAST_CUT {
        return cut(alloc, packet.as_slice());
    }
    let mut pieces = Pieces::new(alloc);
    pieces.push(packet)?;
    Ok(pieces)
}
