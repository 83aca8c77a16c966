//! A message as the packet that carries it, and the message that a packet carries.

ghost use Rattle.std.specs.Prelude.{◌≡◌, ◌≤◌, ◌<◌, ◌^◌, Some, length, IfOk, List, ℕ};
ghost use Rattle.tipc_header.specs.Grammar.{Fits, AddressingFits};
ghost use Rattle.tipc_header.specs.Spelling.{Fields, spelling, view};
ghost use Rattle.tipc_message.specs.Wire.{addressing_of, importance_number, importance_of, lookup_scope_of, message_between, message_by, message_of, packet_of, port_at, IsCarried, IsPayload};

use crate::distribution::{distribution_bytes, distribution_message};
use crate::encoding::encoded;
use std::alloc::Global;
use tipc_header::{Addressing, Header, Packet, Payload};
use tipc_types::{Addr, Body, Bytes, Form, Importance, Message, NoMemory, PortId};

/// The number of an importance, which is also the user of its packets.
fn importance_number(importance: Importance) -> u8
    ensures value { result ≡ importance_number importance }
    ensures within { result ≤ 3 }
{
    match importance {
        Importance::Low => 0,
        Importance::Medium => 1,
        Importance::High => 2,
        Importance::Critical => 3,
    }
}

fn importance_of(number: u8) -> Importance
    ensures { result ≡ importance_of number }
{
    match number {
        0 => Importance::Low,
        1 => Importance::Medium,
        2 => Importance::High,
        _ => Importance::Critical,
    }
}

/// How far the name of a message is looked up: in the cluster.
fn lookup_scope(form: Form) -> u8
    ensures value { result ≡ lookup_scope_of form }
    ensures within { result < 4 }
{
    match form {
        Form::Named | Form::Multicast => 2,
        Form::Connected | Form::Direct => 0,
    }
}

fn addressing(
    form: Form,
    origin: u32,
    destination: u32,
    kind: u32,
    lower: u32,
    upper: u32,
) -> Addressing
    ensures value { result ≡ addressing_of form origin destination kind lower upper }
    ensures fits { AddressingFits result }
{
    match form {
        Form::Connected => Addressing::Connected,
        Form::Multicast => Addressing::Multicast {
            origin_node: origin,
            destination_node: destination,
            name_type: kind,
            lower,
            upper,
        },
        Form::Named => Addressing::Named {
            origin_node: origin,
            destination_node: destination,
            name_type: kind,
            instance: lower,
        },
        Form::Direct => Addressing::Direct {
            origin_node: origin,
            destination_node: destination,
        },
    }
}

/// A port's number at its node.
fn port_number(at: &PortId) -> u32
    ensures value { result ≡ at.now.port }
    ensures within { result < 2 ^ 32 }
{
    at.port
}

/// The bytes of the packet of a user's message.
#[tactic(auto, unfolding(crate::specs::Wire::packet_of))]
fn payload_bytes(alloc: Global, own: Addr, message: &Message) -> Result<Bytes, NoMemory>
    requires { IsPayload message.now }
    ensures spelled { IfOk result (λ bytes. (p : Fields) × (packet_of own.word message.now ≡ Some p) × Fits p ×
        (bytes ≡ spelling p)) }
    ensures long { IfOk result (λ bytes. 24 ≤ length bytes) }
{
    let Message::Payload {
        importance,
        form,
        from,
        to,
        name_kind,
        lower,
        upper,
        code,
        droppable,
        body,
    } = message
    else {
        unreachable!()
    };
    let header = Payload {
        importance: importance_number(*importance),
        destination_droppable: *droppable,
        source_droppable: false,
        error_code: *code,
        reroute_count: 0,
        lookup_scope: lookup_scope(*form),
        broadcast_acknowledgement: 0,
        origin_port: port_number(from),
        destination_port: port_number(to),
        addressing: addressing(
            *form,
            from.node.word,
            to.node.word,
            *name_kind,
            *lower,
            *upper,
        ),
    };
    encoded(alloc, own, Header::Payload(header), body.as_slice())
}

/// The bytes of a message as they wait to be sent by a node: word 2 is zero, and word 3 is the node's address.
///
/// # Errors
///
/// `NoMemory` where memory runs out.
pub fn packet_bytes(alloc: Global, own: Addr, message: &Message) -> Result<Bytes, NoMemory>
    requires { IsCarried message.now }
    ensures spelled { IfOk result (λ bytes. (p : Fields) × (packet_of own.word message.now ≡ Some p) × Fits p ×
        (bytes ≡ spelling p) × (message_of p ≡ Some message.now)) }
    ensures long { IfOk result (λ bytes. 24 ≤ length bytes) }
{
    match message {
        Message::Payload { .. } => payload_bytes(alloc, own, message),
        Message::Items { withdrawal, items } => {
            distribution_bytes(alloc, own, *withdrawal, items.as_slice())
        }
    }
}

fn port_at(node: u32, port: u32) -> PortId
    ensures { result ≡ port_at node port }
{
    PortId {
        node: Addr { word: node },
        port,
    }
}

/// What a packet's addressing says: the form, the nodes that the message goes from and to, the name type, and the first
/// and the last instance; 0 stands for what it doesn't name.
fn addressed(addressing: &Addressing) -> (Form, u32, u32, u32, u32, u32)
    ensures { (p : Payload) → (body : List ℕ) → message_by p addressing.now body ≡
        message_between p result.0 result.1 result.2 result.3 result.4 result.5 body }
{
    match *addressing {
        Addressing::Connected => (Form::Connected, 0, 0, 0, 0, 0),
        Addressing::Multicast {
            origin_node,
            destination_node,
            name_type,
            lower,
            upper,
        } => {
            (
                Form::Multicast,
                origin_node,
                destination_node,
                name_type,
                lower,
                upper,
            )
        }
        Addressing::Named {
            origin_node,
            destination_node,
            name_type,
            instance,
        } => {
            (
                Form::Named,
                origin_node,
                destination_node,
                name_type,
                instance,
                instance,
            )
        }
        Addressing::Direct {
            origin_node,
            destination_node,
        } => { (Form::Direct, origin_node, destination_node, 0, 0, 0) }
    }
}

/// The user's message with this header and body.
fn payload_message(alloc: Global, payload: &Payload, body: &[u8]) -> Result<Message, NoMemory>
    ensures { IfOk result (λ m. m ≡ message_by payload.now payload.now.addressing body.now) }
{
    let body = Body::from_slice(alloc, body)?;
    let (form, origin, destination, name_kind, lower, upper) = addressed(&payload.addressing);
    Ok(Message::Payload {
        importance: importance_of(payload.importance),
        form,
        from: port_at(origin, payload.origin_port),
        to: port_at(destination, payload.destination_port),
        name_kind,
        lower,
        upper,
        code: payload.error_code,
        droppable: payload.destination_droppable,
        body,
    })
}

/// The message that a packet carries: None exactly where it is neither a user's message nor one of items.
///
/// # Errors
///
/// `NoMemory` where memory runs out.
#[tactic(auto, unfolding(crate::specs::Wire::message_of))]
pub fn message_from(alloc: Global, packet: &Packet<'_>) -> Result<Option<Message>, NoMemory>
    ensures { IfOk result (λ m. m ≡ message_of (view packet.now)) }
{
    match &packet.header {
        Header::Payload(payload) => {
            let message = payload_message(alloc, payload, packet.rest)?;
            Ok(Some(message))
        }
        Header::NameDistributor(distribution) => {
            let message = distribution_message(alloc, distribution, packet.rest)?;
            Ok(Some(message))
        }
        Header::Bundler(_)
        | Header::State(_)
        | Header::Reset(_)
        | Header::Activate(_)
        | Header::Changeover(_)
        | Header::Fragmenter(_)
        | Header::Discovery(_) => Ok(None),
    }
}
