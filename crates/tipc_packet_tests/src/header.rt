//! Tests of the codec, against packets spelled by hand as docs/FORMATS.md lays them out.

use std::alloc::{AllocError, Global};
use std::process::Abort;
use std::test::Fail;
use tipc_header::*;

/// A packet of node 1.1.1: its words, the bytes behind them, what it acknowledges and its number, and its header.
struct Spelled {
    words: &'static [u32],
    rest: &'static [u8],
    numbers: (u16, u16),
    header: Header,
}

/// A direct message: `hello` from port 1 of node 1.1.1 to port 1 of node 1.1.2.
const DIRECT: [u32; 8] = [
    0x4100_0025,
    0x6000_0000,
    0x0000_0001,
    0x0100_1001,
    0x0000_0001,
    0x0000_0001,
    0x0100_1001,
    0x0100_1002,
];

/// What RESET and ACTIVATE tell.
const RESET: Reset = Reset {
    destination_node: 0x0100_1002,
    priority: 31,
    contact: 0x1_0000_0002,
    peer_contact: 0x0304_0506_0708_090a,
};

/// Messages of users.
static MESSAGES: [Spelled; 4] = [
    Spelled {
        words: &DIRECT,
        rest: b"hello",
        numbers: (0, 1),
        header: Header::Payload(Payload {
            importance: 0,
            destination_droppable: false,
            source_droppable: false,
            error_code: 0,
            reroute_count: 0,
            lookup_scope: 0,
            broadcast_acknowledgement: 0,
            origin_port: 1,
            destination_port: 1,
            addressing: Addressing::Direct {
                origin_node: 0x0100_1001,
                destination_node: 0x0100_1002,
            },
        }),
    },
    Spelled {
        words: &[0x46c4_001a, 0x0b30_1234, 0x0102_0304, 0x0100_1001, 7, 8],
        rest: b"ab",
        numbers: (0x0102, 0x0304),
        header: Header::Payload(Payload {
            importance: 3,
            destination_droppable: false,
            source_droppable: true,
            error_code: 5,
            reroute_count: 9,
            lookup_scope: 2,
            broadcast_acknowledgement: 0x1234,
            origin_port: 7,
            destination_port: 8,
            addressing: Addressing::Connected,
        }),
    },
    Spelled {
        words: &[
            0x4568_002c,
            0x2b30_1234,
            0,
            0x0100_1001,
            7,
            8,
            0x0100_1001,
            0,
            1000,
            1,
            9,
        ],
        rest: b"",
        numbers: (0, 0),
        header: Header::Payload(Payload {
            importance: 2,
            destination_droppable: true,
            source_droppable: false,
            error_code: 5,
            reroute_count: 9,
            lookup_scope: 2,
            broadcast_acknowledgement: 0x1234,
            origin_port: 7,
            destination_port: 8,
            addressing: Addressing::Multicast {
                origin_node: 0x0100_1001,
                destination_node: 0,
                name_type: 1000,
                lower: 1,
                upper: 9,
            },
        }),
    },
    Spelled {
        words: &[
            0x4340_0029,
            0x4b30_1234,
            0xffff,
            0x0100_1001,
            7,
            8,
            0x0100_1001,
            0x0100_1002,
            1000,
            4,
        ],
        rest: b"c",
        numbers: (0, 0xffff),
        header: Header::Payload(Payload {
            importance: 1,
            destination_droppable: false,
            source_droppable: false,
            error_code: 5,
            reroute_count: 9,
            lookup_scope: 2,
            broadcast_acknowledgement: 0x1234,
            origin_port: 7,
            destination_port: 8,
            addressing: Addressing::Named {
                origin_node: 0x0100_1001,
                destination_node: 0x0100_1002,
                name_type: 1000,
                instance: 4,
            },
        }),
    },
];

/// STATE, RESET and ACTIVATE.
static LINK_STATES: [Spelled; 3] = [
    Spelled {
        words: &[
            0x4f50_0028,
            0x1fff_0003,
            0xfffe_0000,
            0x0100_1001,
            0x0007_0008,
            0x0009_000a,
            0,
            0x0100_1002,
            0x29,
            0,
        ],
        rest: b"",
        numbers: (0xfffe, 0),
        header: Header::State(State {
            gap: 0x1fff,
            broadcast_acknowledgement: 3,
            next: 7,
            broadcast_next: 8,
            broadcast_start: 9,
            broadcast_gap: 10,
            destination_node: 0x0100_1002,
            probe: true,
            in_step: false,
            priority: 10,
        }),
    },
    Spelled {
        words: &[
            0x4f50_0038,
            0x2000_0000,
            0,
            0x0100_1001,
            0,
            0,
            0,
            0x0100_1002,
            0x7c,
            0,
            1,
            2,
            0x0304_0506,
            0x0708_090a,
        ],
        rest: b"",
        numbers: (0, 0),
        header: Header::Reset(RESET),
    },
    Spelled {
        words: &[
            0x4f50_0038,
            0x4000_0000,
            0,
            0x0100_1001,
            0,
            0,
            0,
            0x0100_1002,
            0x7c,
            0,
            1,
            2,
            0x0304_0506,
            0x0708_090a,
        ],
        rest: b"",
        numbers: (0, 0),
        header: Header::Activate(RESET),
    },
];

/// A bundle, a tunnel packet, a withdrawn name, a fragment and a discovery response.
static OTHERS: [Spelled; 5] = [
    Spelled {
        words: &[
            0x4d40_0030,
            0x0000_beef,
            0x0005_0006,
            0x0100_1001,
            0x0002_0000,
            0,
            0,
            0,
            0,
            0,
        ],
        rest: b"12345678",
        numbers: (5, 6),
        header: Header::Bundler(Bundle {
            broadcast_acknowledgement: 0xbeef,
            count: 2,
        }),
    },
    Spelled {
        words: &[
            0x5540_0032,
            0x2000_0000,
            0x0005_0006,
            0x0100_1001,
            0x0001_0203,
            1,
            0,
            0,
            0,
            0,
            1,
            2,
        ],
        rest: b"in",
        numbers: (5, 6),
        header: Header::Changeover(Changeover {
            changeover_type: ChangeoverType::Original,
            broadcast_acknowledgement: 0,
            count: 1,
            inner_number: 0x0203,
            old_bearer: 1,
            old_epoch: 0x1_0000_0002,
        }),
    },
    Spelled {
        words: &[0x5740_003c, 0x2000_0000, 0, 0x0100_1001, 0, 0, 0, 0, 0, 0],
        rest: &[
            0, 0, 3, 0xe8, 0, 0, 0, 1, 0, 0, 0, 9, 0, 0, 0, 7, 0, 0, 0, 6,
        ],
        numbers: (0, 0),
        header: Header::NameDistributor(NameDistribution {
            distribution_type: DistributionType::Withdrawal,
            broadcast_acknowledgement: 0,
        }),
    },
    Spelled {
        words: &[0x5940_0029, 0x4000_0000, 0, 0x0100_1001, 47, 0, 0, 0, 0, 0],
        rest: b"p",
        numbers: (0, 0),
        header: Header::Fragmenter(Fragment {
            fragment_type: FragmentType::Last,
            broadcast_acknowledgement: 0,
            number: 47,
        }),
    },
    Spelled {
        words: &[
            0x5b50_0028,
            0x2000_0000,
            0,
            0x0100_1001,
            4711,
            0,
            0,
            0,
            0,
            0,
        ],
        rest: b"",
        numbers: (0, 0),
        header: Header::Discovery(Discovery {
            discovery_type: DiscoveryType::Response,
            network: 4711,
        }),
    },
];

/// These words, and the bytes behind them.
fn bytes_of(alloc: Global, words: &[u32], rest: &[u8]) -> Result<Vec<u8>, AllocError> {
    let mut bytes = Vec::new(alloc);
    for word in words {
        bytes.extend_from_slice(&word.to_be_bytes())?;
    }
    bytes.extend_from_slice(rest)?;
    Ok(bytes)
}

/// A packet is the one that is spelled.
fn is_spelled(rt: &impl Abort, packet: &Packet<'_>, spelled: &Spelled) {
    assert!(rt; packet.header == spelled.header);
    assert!(rt; (packet.acknowledgement, packet.sequence) == spelled.numbers);
    assert!(rt; packet.previous == 0x0100_1001);
    assert!(rt; packet.rest == spelled.rest);
}

/// These bytes are the packet that they should be: it is decoded from them, and encoded to them.
fn is_read(
    rt: &impl Abort,
    alloc: Global,
    bytes: &[u8],
    spelled: &Spelled,
) -> Result<(), AllocError> {
    let Ok(packet) = decode(bytes) else {
        panic!(rt; "the bytes are no packet");
    };
    is_spelled(rt, &packet, spelled);
    let mut again = Vec::new(alloc);
    encode(&packet, &mut again)?;
    assert!(rt; again.as_slice() == bytes);
    Ok(())
}

/// Each of these packets is the spelling of its header.
fn are_read(rt: &impl Abort, alloc: Global, all: &[Spelled]) -> Result<(), AllocError> {
    for spelled in all {
        let bytes = bytes_of(alloc, spelled.words, spelled.rest)?;
        is_read(rt, alloc, bytes.as_slice(), spelled)?;
    }
    Ok(())
}

#[test]
fn packets_of_each_user_are_spelled(rt: HostRuntime) -> Result<(), Fail> {
    are_read(&rt, rt.alloc(), &MESSAGES)?;
    are_read(&rt, rt.alloc(), &LINK_STATES)?;
    are_read(&rt, rt.alloc(), &OTHERS)?;
    Ok(())
}

/// A word of the direct message and what it is made; the fault, and its number in the table of docs/FORMATS.md.
static FAULTS: [(usize, u32, HeaderFault, u8); 8] = [
    (0, 0x2100_0025, HeaderFault::Version, 2),
    (0, 0x40e0_0025, HeaderFault::HeaderSize, 3),
    (0, 0x4100_0026, HeaderFault::Size, 4),
    (0, 0x4b00_0025, HeaderFault::User, 5),
    (1, 0x4000_0000, HeaderFault::Type, 6),
    (0, 0x4102_0025, HeaderFault::Reserved, 7),
    (1, 0x6004_0000, HeaderFault::Reserved, 7),
    (1, 0x6c00_0000, HeaderFault::Reserved, 7),
];

/// These bytes are no packet, for this fault, which has this number.
fn is_refused(rt: &impl Abort, bytes: &[u8], fault: HeaderFault, number: u8) {
    assert!(rt; decode(bytes).err() == Some(fault));
    assert!(rt; fault.number() == number);
}

/// The direct message with another word in a place.
fn changed(alloc: Global, place: usize, value: u32) -> Result<Vec<u8>, AllocError> {
    let mut words = DIRECT;
    if let Some(word) = words.get_mut(place) {
        *word = value;
    }
    bytes_of(alloc, &words, b"hello")
}

#[test]
fn the_first_fault(rt: HostRuntime) -> Result<(), Fail> {
    for (place, value, fault, number) in &FAULTS {
        let bytes = changed(rt.alloc(), *place, *value)?;
        is_refused(&rt, bytes.as_slice(), *fault, *number);
    }
    Ok(())
}

#[test]
fn a_short_packet_is_refused(rt: HostRuntime) -> Result<(), Fail> {
    let bytes = bytes_of(rt.alloc(), &DIRECT[..5], b"")?;
    is_refused(&rt, bytes.as_slice(), HeaderFault::Short, 1);
    Ok(())
}
