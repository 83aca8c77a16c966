//! Tests of opening packets.

use std::alloc::Global;
use std::process::Abort;
use std::test::Fail;
use tipc_fragments::{Arrivals, LEAST_CUT, MOST_CUT, cut};
use tipc_reassembly::*;
use tipc_types::{Bytes, NoMemory, Pieces, Taken};

/// The words of a direct message from port 1 of node 1.1.1 to port 1 of node 1.1.2, behind word 0.
const DIRECT: [u32; 7] = [0x6000_0000, 0, 0, 1, 1, 0x0100_1001, 0x0100_1002];

/// A direct message with this word 0 and so many bytes of a user, each of them 7.
fn message(alloc: Global, word_0: u32, body: usize) -> Result<Bytes, NoMemory> {
    let mut bytes = Vec::new(alloc);
    bytes.extend_from_slice(&word_0.to_be_bytes())?;
    for word in DIRECT {
        bytes.extend_from_slice(&word.to_be_bytes())?;
    }
    bytes.resize(32_usize.saturating_add(body), 7)?;
    Ok(Bytes::from_vec(bytes))
}

/// The bundle of 39 messages of 33 bytes, each with 3 bytes of padding: 1,444 bytes in all. One byte is put in its place.
fn bundle(alloc: Global, packet: &Bytes, index: usize, value: u8) -> Result<Bytes, NoMemory> {
    let mut bytes = Vec::new(alloc);
    for word in [0x4d40_05a4_u32, 0, 0, 0, 0x0027_0000, 0, 0, 0, 0, 0] {
        bytes.extend_from_slice(&word.to_be_bytes())?;
    }
    for _ in 0..39 {
        bytes.extend_from_slice(packet.as_slice())?;
        bytes.extend_from_slice(&[0, 0, 0])?;
    }
    if let Some(byte) = bytes.get_mut(index) {
        *byte = value;
    }
    Ok(Bytes::from_vec(bytes))
}

/// The fragments of a message.
fn fragments(alloc: Global, message: &[u8]) -> Result<Pieces, Fail> {
    if message.len() < LEAST_CUT || message.len() > MOST_CUT {
        return Err("not to be cut".into());
    }
    Ok(cut(alloc, message)?)
}

/// The packets as they are taken, by the arrivals 1 and on.
fn all_taken(alloc: Global, packets: Pieces) -> Result<Vec<Taken>, NoMemory> {
    let mut by = 0_u64;
    let mut taken = Vec::new(alloc);
    for packet in packets.into_vec()? {
        by = by.saturating_add(1);
        taken.push(Taken {
            number: 0,
            packet,
            by,
        })?;
    }
    Ok(taken)
}

/// What comes of one packet that is taken by arrival 1 where none is begun.
fn opened(alloc: Global, packet: Bytes) -> Result<OpenedList, NoMemory> {
    let one = [Taken {
        number: 0,
        packet,
        by: 1,
    }];
    Reassembly::new(alloc).open(alloc, &one)
}

/// As many times the packet of a bundle, given by arrival 1.
fn given(alloc: Global, packet: &Bytes, times: u32) -> Result<OpenedList, NoMemory> {
    let mut given = Vec::new(alloc);
    for _ in 0..times {
        given.push(Opened::Whole {
            packet: packet.clone()?,
            by: Arrivals::from_slice(alloc, &[1])?,
        })?;
    }
    Ok(OpenedList::from_vec(given))
}

#[test]
fn a_bundle_gives_the_packets_inside(rt: HostRuntime) -> Result<(), Fail> {
    let packet = message(rt.alloc(), 0x4100_0021, 1)?;
    let answer = opened(rt.alloc(), bundle(rt.alloc(), &packet, 2_000, 0)?)?;
    assert!(rt; answer == given(rt.alloc(), &packet, 39)?);
    Ok(())
}

/// The arrivals 1 to 47.
fn arrivals(alloc: Global) -> Result<Arrivals, NoMemory> {
    let mut by = Arrivals::new(alloc);
    for number in 1..48 {
        by.push(number)?;
    }
    Ok(by)
}

/// What comes of packets that are taken where none is begun.
fn all_opened(alloc: Global, packets: Pieces) -> Result<OpenedList, NoMemory> {
    let taken = all_taken(alloc, packets)?;
    Reassembly::new(alloc).open(alloc, &taken)
}

/// A message by itself, by the arrivals 1 to 47.
fn by_47(alloc: Global, message: Bytes) -> Result<OpenedList, NoMemory> {
    let mut one = Vec::new(alloc);
    one.push(Opened::Whole {
        packet: message,
        by: arrivals(alloc)?,
    })?;
    Ok(OpenedList::from_vec(one))
}

/// Packets give one message, by the arrivals 1 to 47.
fn give_one(
    rt: &impl Abort,
    alloc: Global,
    packets: Pieces,
    message: Bytes,
) -> Result<(), NoMemory> {
    let expected = by_47(alloc, message)?;
    let answer = all_opened(alloc, packets)?;
    assert!(rt; answer == expected);
    Ok(())
}

#[test]
fn fragments_give_their_message(rt: HostRuntime) -> Result<(), Fail> {
    let message = message(rt.alloc(), 0x4101_01f0, 66_000)?;
    let packets = fragments(rt.alloc(), message.as_slice())?;
    give_one(&rt, rt.alloc(), packets, message)?;
    Ok(())
}

/// A packet is passed over, for this place.
fn is_passed(rt: &impl Abort, alloc: Global, packet: Bytes, place: u32) -> Result<(), NoMemory> {
    let answer = opened(alloc, packet)?;
    assert!(rt; answer.as_slice() == [Opened::Passed { place }].as_slice());
    Ok(())
}

/// A byte of the bundle of 39 and what it is made, of padding or of the count, one fewer and one more; and the place that is bad then.
static BAD: [(usize, u8, u32); 4] = [
    (73, 1, 73),
    (1_443, 1, 1_443),
    (17, 38, 1_408),
    (17, 40, 1_444),
];

#[test]
fn bundles_are_passed_over(rt: HostRuntime) -> Result<(), Fail> {
    let small = message(rt.alloc(), 0x4100_0021, 1)?;
    for (index, value, place) in &BAD {
        let packet = bundle(rt.alloc(), &small, *index, *value)?;
        is_passed(&rt, rt.alloc(), packet, *place)?;
    }
    Ok(())
}

/// The second of these fragments is passed over.
fn the_second_is_passed(rt: &impl Abort, alloc: Global, packets: &[Bytes]) -> Result<(), Fail> {
    let [_, middle, ..] = packets else {
        return Err("too few fragments".into());
    };
    is_passed(rt, alloc, middle.clone()?, 0)?;
    Ok(())
}

#[test]
fn what_is_no_beginning_is_passed_over(rt: HostRuntime) -> Result<(), Fail> {
    let message = message(rt.alloc(), 0x4101_01f0, 66_000)?;
    let packets = fragments(rt.alloc(), message.as_slice())?;
    the_second_is_passed(&rt, rt.alloc(), packets.as_slice())?;
    is_passed(&rt, rt.alloc(), Bytes::new(rt.alloc()), 0)?;
    Ok(())
}
