//! Tests of messages on the wire, one for each form, and of items.

ghost use Rattle.std.specs.Prelude.{◌≡◌};
ghost use Rattle.tipc_message.specs.Wire.{IsCarried};

use std::alloc::Global;
use std::process::Abort;
use std::test::Fail;
use tipc_header::{Discovery, DiscoveryType, Header, Packet, decode};
use tipc_message::{message_from, packet_bytes};
use tipc_types::{Addr, Body, Form, Importance, Item, ItemList, Message, NoMemory, PortId};

/// The port of this number at the node of this address word.
fn port(word: u32, port: u32) -> PortId
    ensures { (result.port ≡ port) × (result.node.word ≡ word) }
{
    PortId {
        node: Addr { word },
        port,
    }
}

/// What port 7 offers under key 1: 4 to 9 of service type 1000.
fn offered() -> Item {
    Item {
        kind: 1000,
        lower: 4,
        upper: 9,
        port: 7,
        key: 1,
    }
}

/// These words, and the bytes behind them.
fn bytes_of(alloc: Global, words: &[u32], rest: &[u8]) -> Result<Vec<u8>, NoMemory> {
    let mut bytes = Vec::new(alloc);
    for word in words {
        bytes.extend_from_slice(&word.to_be_bytes())?;
    }
    bytes.extend_from_slice(rest)?;
    Ok(bytes)
}

/// The message is read from these bytes.
fn is_read(
    rt: &impl Abort,
    alloc: Global,
    bytes: &[u8],
    message: &Message,
) -> Result<(), NoMemory> {
    let Ok(packet) = decode(bytes) else {
        panic!(rt; "the bytes are no packet");
    };
    let Some(read) = message_from(alloc, &packet)? else {
        panic!(rt; "no message is read");
    };
    assert!(rt; read == *message);
    Ok(())
}

/// The message's packet has these words, the body behind them, and the message is read from these bytes.
fn is_spelled(
    rt: &impl Abort,
    alloc: Global,
    message: &Message,
    words: &[u32],
    body: &[u8],
) -> Result<(), Fail>
    requires { IsCarried message.now }
{
    let expected = bytes_of(alloc, words, body)?;
    let bytes = packet_bytes(alloc, Addr { word: 0x0100_1001 }, message)?;
    assert!(rt; bytes.as_slice() == expected.as_slice());
    is_read(rt, alloc, expected.as_slice(), message)?;
    Ok(())
}

#[test]
fn a_direct_message(rt: HostRuntime) -> Result<(), Fail> {
    let message = Message::Payload {
        importance: Importance::Low,
        form: Form::Direct,
        from: port(0x0100_1001, 1),
        to: port(0x0100_1002, 1),
        name_kind: 0,
        lower: 0,
        upper: 0,
        code: 0,
        droppable: false,
        body: Body::from_slice(rt.alloc(), b"hello")?,
    };
    let words = [
        0x4100_0025,
        0x6000_0000,
        0,
        0x0100_1001,
        1,
        1,
        0x0100_1001,
        0x0100_1002,
    ];
    is_spelled(&rt, rt.alloc(), &message, &words, b"hello")
}

#[test]
fn a_named_message_that_was_returned(rt: HostRuntime) -> Result<(), Fail> {
    let message = Message::Payload {
        importance: Importance::High,
        form: Form::Named,
        from: port(0x0100_1001, 7),
        to: port(0x0100_1002, 8),
        name_kind: 1000,
        lower: 4,
        upper: 4,
        code: 4,
        droppable: false,
        body: Body::from_slice(rt.alloc(), b"hi")?,
    };
    let words = [
        0x4540_002a,
        0x4810_0000,
        0,
        0x0100_1001,
        7,
        8,
        0x0100_1001,
        0x0100_1002,
        1000,
        4,
    ];
    is_spelled(&rt, rt.alloc(), &message, &words, b"hi")
}

#[test]
fn a_multicast_message(rt: HostRuntime) -> Result<(), Fail> {
    let message = Message::Payload {
        importance: Importance::Critical,
        form: Form::Multicast,
        from: port(0x0100_1001, 7),
        to: port(0, 0),
        name_kind: 1000,
        lower: 1,
        upper: 9,
        code: 0,
        droppable: true,
        body: Body::from_slice(rt.alloc(), b"")?,
    };
    let words = [
        0x4768_002c,
        0x2010_0000,
        0,
        0x0100_1001,
        7,
        0,
        0x0100_1001,
        0,
        1000,
        1,
        9,
    ];
    is_spelled(&rt, rt.alloc(), &message, &words, b"")
}

#[test]
fn a_message_between_connected_ports(rt: HostRuntime) -> Result<(), Fail> {
    let message = Message::Payload {
        importance: Importance::Medium,
        form: Form::Connected,
        from: port(0, 7),
        to: port(0, 8),
        name_kind: 0,
        lower: 0,
        upper: 0,
        code: 5,
        droppable: false,
        body: Body::from_slice(rt.alloc(), b"x")?,
    };
    let words = [0x42c0_0019, 0x0a00_0000, 0, 0x0100_1001, 7, 8];
    is_spelled(&rt, rt.alloc(), &message, &words, b"x")
}

#[test]
fn a_message_of_publications(rt: HostRuntime) -> Result<(), Fail> {
    let second = Item {
        kind: 0xffff_ffff,
        lower: 0,
        upper: 0xffff_fffe,
        port: 8,
        key: 0x0102_0304,
    };
    let message = Message::Items {
        withdrawal: false,
        items: ItemList::from_slice(rt.alloc(), &[offered(), second])?,
    };
    let words = [
        0x5740_0050,
        0,
        0,
        0x0100_1001,
        0,
        0,
        0,
        0,
        0,
        0,
        1000,
        4,
        9,
        7,
        1,
        0xffff_ffff,
        0,
        0xffff_fffe,
        8,
        0x0102_0304,
    ];
    is_spelled(&rt, rt.alloc(), &message, &words, b"")
}

#[test]
fn a_message_of_a_withdrawal(rt: HostRuntime) -> Result<(), Fail> {
    let message = Message::Items {
        withdrawal: true,
        items: ItemList::from_slice(rt.alloc(), &[offered()])?,
    };
    let words = [
        0x5740_003c,
        0x2000_0000,
        0,
        0x0100_1001,
        0,
        0,
        0,
        0,
        0,
        0,
        1000,
        4,
        9,
        7,
        1,
    ];
    is_spelled(&rt, rt.alloc(), &message, &words, b"")
}

#[test]
fn discovery_carries_no_message(rt: HostRuntime) -> Result<(), Fail> {
    let packet = Packet {
        acknowledgement: 0,
        sequence: 0,
        previous: 0x0100_1001,
        header: Header::Discovery(Discovery {
            discovery_type: DiscoveryType::Request,
            network: 4711,
        }),
        rest: b"",
    };
    assert!(rt; message_from(rt.alloc(), &packet) == Ok(None));
    Ok(())
}
