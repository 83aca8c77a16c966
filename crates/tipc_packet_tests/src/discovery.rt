//! Tests of discovery: each neighbour is new once, and requests and responses are spelled.

use std::alloc::Global;
use std::process::Abort;
use std::test::Fail;
use tipc_discovery::*;
use tipc_header::{Discovery, DiscoveryType, Header, Packet, decode};
use tipc_types::{Addr, Why};

/// A discovery request of this previous node and network.
fn request(previous: u32, network: u32) -> Packet<'static> {
    Packet {
        acknowledgement: 0,
        sequence: 0,
        previous,
        header: Header::Discovery(Discovery {
            discovery_type: DiscoveryType::Request,
            network,
        }),
        rest: &[],
    }
}

/// On which bearer a request is heard, of which previous node and network, and what is found in it.
type Heard = (u8, u32, u32, Found);

/// This is found in a request.
fn finds(rt: &impl Abort, neighbours: &mut Neighbours, heard: &Heard) {
    let (bearer, previous, network, found) = *heard;
    assert!(rt; bearer <= 1);
    let told = neighbours.heard(&request(previous, network), bearer);
    assert!(rt; told == Ok(found));
}

/// Each neighbour is new on bearer 0.
fn all_are_new(rt: &impl Abort, neighbours: &mut Neighbours) {
    for previous in 0x0100_1002..0x0100_1021 {
        finds(rt, neighbours, &(0, previous, 4_711, Found::New));
    }
}

/// Behind that node 2 is known there, and new on bearer 1; others are no neighbours.
static BEHIND: [Heard; 7] = [
    (0, 0x0100_1002, 4_711, Found::Known),
    (0, 0x0100_1002, 4_712, Found::Ignored(Why::Network)),
    (0, 0x0100_1001, 4_711, Found::Ignored(Why::Own)),
    (0, 0x0100_1001, 4_712, Found::Ignored(Why::Own)),
    (0, 0x0100_1021, 4_711, Found::Ignored(Why::Own)),
    (0, 0x0100_1000, 4_712, Found::Ignored(Why::Own)),
    (1, 0x0100_1002, 4_711, Found::New),
];

/// A copy knows node 2 on bearer 1.
static AT_A_COPY: Heard = (1, 0x0100_1002, 4_711, Found::Known);

/// These are found, one after another.
fn finds_all(rt: &impl Abort, neighbours: &mut Neighbours, all: &[Heard]) {
    for heard in all {
        finds(rt, neighbours, heard);
    }
}

/// A copy finds this.
fn finds_at_a_copy(rt: &impl Abort, neighbours: &Neighbours, heard: &Heard) -> Result<(), Fail> {
    let mut copy = neighbours.copy()?;
    finds(rt, &mut copy, heard);
    Ok(())
}

#[test]
fn each_neighbour_is_new_once(rt: HostRuntime) -> Result<(), Fail> {
    let mut one = Neighbours::new(rt.alloc(), Addr::node(1));
    all_are_new(&rt, &mut one);
    finds_all(&rt, &mut one, &BEHIND);
    finds_at_a_copy(&rt, &one, &AT_A_COPY)
}

/// These words are the spelling of the packet.
fn spells(rt: &impl Abort, alloc: Global, packet: &Packet<'_>, words: &[u32]) -> Result<(), Fail> {
    let mut bytes = Vec::new(alloc);
    for word in words {
        bytes.extend_from_slice(&word.to_be_bytes())?;
    }
    let read = decode(bytes.as_slice())?;
    assert!(rt; read == *packet);
    Ok(())
}

/// A request of node 1: version 2, user 13, 10 words, non-sequenced, 40 bytes in all; the type; the node; the network.
static REQUEST: [u32; 10] = [0x5b50_0028, 0, 0, 0x0100_1001, 0x1267, 0, 0, 0, 0, 0];

/// A response of it.
static RESPONSE: [u32; 10] = [
    0x5b50_0028,
    0x2000_0000,
    0,
    0x0100_1001,
    0x1267,
    0,
    0,
    0,
    0,
    0,
];

#[test]
fn requests_and_responses_are_spelled(rt: HostRuntime) -> Result<(), Fail> {
    let one = Neighbours::new(rt.alloc(), Addr::node(1));
    spells(&rt, rt.alloc(), &one.request(), &REQUEST)?;
    spells(&rt, rt.alloc(), &one.response(), &RESPONSE)
}
