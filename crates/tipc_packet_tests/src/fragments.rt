//! Tests of fragments: messages are cut and joined, and what breaks a run of fragments is refused.

use std::alloc::{AllocError, Global};
use std::process::Abort;
use std::test::Fail;
use tipc_fragments::*;
use tipc_header::{Header, decode};
use tipc_types::{Bytes, NoMemory, Pieces};

/// The words of a direct message from port 1 of node 1.1.1 to port 1 of node 1.1.2, behind word 0.
const DIRECT: [u32; 7] = [0x6000_0000, 0, 0, 1, 1, 0x0100_1001, 0x0100_1002];

/// The words of a multicast from the same port to the instances 6 and 7 of type 200, behind word 0.
const MULTICAST: [u32; 10] = [0x2010_0000, 0, 0, 1, 0, 0x0100_1001, 0, 200, 6, 7];

/// A message with this header and so many bytes of a user, of which byte i is i modulo 251.
fn message(alloc: Global, word_0: u32, others: &[u32], body: u32) -> Result<Vec<u8>, AllocError> {
    let mut bytes = Vec::new(alloc);
    bytes.extend_from_slice(&word_0.to_be_bytes())?;
    for word in others {
        bytes.extend_from_slice(&word.to_be_bytes())?;
    }
    for place in 0..body {
        bytes.push((place % 251) as u8)?;
    }
    Ok(bytes)
}

/// The fragments of a message.
fn fragments(alloc: Global, message: &[u8]) -> Result<Pieces, Fail> {
    if message.len() < LEAST_CUT || message.len() > MOST_CUT {
        return Err("not to be cut".into());
    }
    Ok(cut(alloc, message)?)
}

/// The 40 bytes of a fragment's header with these words 0, 1 and 4; the others are zero.
fn header(alloc: Global, word_0: u32, word_1: u32, number: u32) -> Result<Vec<u8>, AllocError> {
    let mut bytes = Vec::new(alloc);
    for word in [word_0, word_1, 0, 0, number, 0, 0, 0, 0, 0] {
        bytes.extend_from_slice(&word.to_be_bytes())?;
    }
    Ok(bytes)
}

/// Gives the packet of a fragment to a joiner.
fn add(joiner: &mut Joiner, packet: &Bytes, by: u64) -> Result<Result<Joined, JoinFault>, Fail> {
    let packet = decode(packet.as_slice())?;
    let Header::Fragmenter(fragment) = packet.header else {
        return Err("no fragment".into());
    };
    Ok(joiner.add(fragment.fragment_type, fragment.number, packet.rest, by))
}

/// Words 0 and 1 of the fragment of this number, of so many: the last one has this word 0.
fn words_of(number: u32, count: u32, last: u32) -> (u32, u32) {
    if number == count {
        return (last, 0x4000_0000);
    }
    if number == 1 {
        return (0x5940_05ac, 0);
    }
    (0x5940_05ac, 0x2000_0000)
}

/// A packet begins as the fragment of this number does.
fn begins(
    rt: &impl Abort,
    alloc: Global,
    packet: &[u8],
    number: u32,
    words: (u32, u32),
) -> Result<(), AllocError> {
    let header = header(alloc, words.0, words.1, number)?;
    assert!(rt; packet.starts_with(&header));
    Ok(())
}

/// Packets begin as fragments do, of which the last one has this word 0.
fn are_fragments(
    rt: &impl Abort,
    alloc: Global,
    packets: &[Bytes],
    count: u32,
    last: u32,
) -> Result<(), AllocError> {
    let mut number = 0_u32;
    for packet in packets {
        number = number.saturating_add(1);
        let words = words_of(number, count, last);
        begins(rt, alloc, packet.as_slice(), number, words)?;
    }
    assert!(rt; number == count);
    Ok(())
}

/// What comes of the packet of a fragment, by this arrival.
fn adds(
    rt: &impl Abort,
    joiner: &mut Joiner,
    packet: &Bytes,
    by: u64,
    answer: &Result<Joined, JoinFault>,
) -> Result<(), Fail> {
    let told = add(joiner, packet, by)?;
    assert!(rt; told == *answer);
    Ok(())
}

/// More is to come behind each of these packets, by the arrivals from 101 on. The arrival behind them is told.
fn all_add(rt: &impl Abort, joiner: &mut Joiner, packets: &[Bytes]) -> Result<u64, Fail> {
    let mut by = 101_u64;
    for packet in packets {
        adds(rt, joiner, packet, by, &Ok(Joined::More))?;
        by = by.saturating_add(1);
    }
    Ok(by)
}

/// The message, by the arrivals from 101 up to this one.
fn whole_by(alloc: Global, message: &[u8], last: u64) -> Result<Joined, NoMemory> {
    let mut arrivals = Arrivals::new(alloc);
    for by in 101..=last {
        arrivals.push(by)?;
    }
    Ok(Joined::Whole {
        message: Bytes::from_slice(alloc, message)?,
        arrivals,
    })
}

/// These packets are joined to the message.
fn are_joined(
    rt: &impl Abort,
    alloc: Global,
    packets: &[Bytes],
    message: &[u8],
) -> Result<(), Fail> {
    let (last, others) = packets.split_last().ok_or("no fragments")?;
    let mut joiner = Joiner::new(alloc);
    let by = all_add(rt, &mut joiner, others)?;
    adds(
        rt,
        &mut joiner,
        last,
        by,
        &Ok(whole_by(alloc, message, by)?),
    )
}

/// A message: its word 0, the others of its header, and the bytes of its user; how many fragments it is cut into, and word 0 of the last.
static CUT: [(u32, &[u32], u32, u32, u32); 4] = [
    (0x4100_05ad, &DIRECT, 1_421, 2, 0x5940_0051),
    (0x4100_0b08, &DIRECT, 2_792, 2, 0x5940_05ac),
    (0x4101_01f0, &DIRECT, 66_000, 47, 0x5940_0460),
    (0x4169_01fc, &MULTICAST, 66_000, 47, 0x5940_046c),
];

/// The message is cut into so many fragments, and they are joined again.
fn is_cut(
    rt: &impl Abort,
    alloc: Global,
    message: &[u8],
    count: u32,
    last: u32,
) -> Result<(), Fail> {
    let packets = fragments(alloc, message)?;
    are_fragments(rt, alloc, packets.as_slice(), count, last)?;
    are_joined(rt, alloc, packets.as_slice(), message)
}

#[test]
fn messages_are_cut_and_joined(rt: HostRuntime) -> Result<(), Fail> {
    for (word_0, others, body, count, last) in &CUT {
        let message = message(rt.alloc(), *word_0, others, *body)?;
        is_cut(&rt, rt.alloc(), message.as_slice(), *count, *last)?;
    }
    Ok(())
}

/// The second fragment begins no message, and goes on with one behind the first, also at a copy.
fn begins_with_the_first(rt: &impl Abort, alloc: Global, packets: &[Bytes]) -> Result<(), Fail> {
    let [first, second, ..] = packets else {
        return Err("too few fragments".into());
    };
    let mut joiner = Joiner::new(alloc);
    adds(rt, &mut joiner, second, 1, &Err(JoinFault::NotInOrder))?;
    adds(rt, &mut joiner, first, 2, &Ok(Joined::More))?;
    adds(rt, &mut joiner.copy()?, second, 3, &Ok(Joined::More))
}

#[test]
fn a_middle_fragment_begins_no_message(rt: HostRuntime) -> Result<(), Fail> {
    let message = message(rt.alloc(), 0x4101_01f0, &DIRECT, 66_000)?;
    let packets = fragments(rt.alloc(), message.as_slice())?;
    begins_with_the_first(&rt, rt.alloc(), packets.as_slice())
}
