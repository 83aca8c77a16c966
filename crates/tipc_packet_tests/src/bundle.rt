//! Tests of bundles: small messages are joined and taken apart, and the first bad place is told.

ghost use Rattle.std.specs.Prelude.{◌≤◌};

use std::alloc::Global;
use std::process::Abort;
use std::test::Fail;
use tipc_bundle::*;
use tipc_header::{Header, decode};
use tipc_types::{Bytes, Inner, NoMemory};

/// A direct message from port 1 of node 1.1.1 to port 1 of node 1.1.2, behind word 0.
static DIRECT: [u32; 7] = [0x6000_0000, 0, 0, 1, 1, 0x0100_1001, 0x0100_1002];

/// A bundle of two messages of 33 bytes: version 2, user 6, 10 words of header, 112 bytes in all; 2 inner packets.
static TWO: [u32; 10] = [0x4d40_0070, 0, 0, 0, 0x0002_0000, 0, 0, 0, 0, 0];

/// The same of 116 bytes, of a message of 36 bytes and a STATE of 40.
static WITH_STATE: [u32; 10] = [0x4d40_0074, 0, 0, 0, 0x0002_0000, 0, 0, 0, 0, 0];

/// That STATE.
static STATE: [u32; 10] = [
    0x4f50_0028,
    0x1fff_0003,
    0xfffe_0000,
    0x0100_1001,
    0x0007_0008,
    0x0009_000a,
    0,
    0x0100_1002,
    0x29,
    0,
];

/// Adds these words.
fn add_words(bytes: &mut Vec<u8>, words: &[u32]) -> Result<(), NoMemory> {
    for word in words {
        bytes.extend_from_slice(&word.to_be_bytes())?;
    }
    Ok(())
}

/// A direct message. It has so many bytes, 32 of them in its header, and each byte of its body is 7.
fn message(alloc: Global, size: u32) -> Result<Bytes, NoMemory> {
    let mut bytes = Vec::new(alloc);
    add_words(&mut bytes, &[0x4100_0000 | size])?;
    add_words(&mut bytes, &DIRECT)?;
    bytes.resize(size as usize, 7)?;
    Ok(Bytes::from_vec(bytes))
}

/// What waits after a packet was added so often.
fn joined(
    rt: &impl Abort,
    alloc: Global,
    mut last: Bytes,
    packet: &[u8],
    times: u32,
) -> Result<Bytes, BundleFault> {
    if !may_be_bundled(last.as_slice()) {
        panic!(rt; "the first may not be bundled");
    }
    if !may_be_bundled(packet) {
        panic!(rt; "the others may not be bundled");
    }
    for _ in 0..times {
        try_add(alloc, &mut last, packet)?;
    }
    Ok(last)
}

/// The bundle of so many messages of 33 bytes.
fn bundle_of(rt: &impl Abort, alloc: Global, count: u32) -> Result<Bytes, NoMemory>
    requires { 1 ≤ count }
{
    let first = message(alloc, 33)?;
    let packet = message(alloc, 33)?;
    match joined(rt, alloc, first, packet.as_slice(), count - 1) {
        Ok(bundle) => Ok(bundle),
        Err(_) => panic!(rt; "they are no bundle"),
    }
}

/// What stands in a bundle.
fn taken_apart(rt: &impl Abort, alloc: Global, bundle: &[u8]) -> Result<Inner, SplitFault> {
    let Ok(packet) = decode(bundle) else {
        panic!(rt; "it is no packet");
    };
    match packet.header {
        Header::Bundler(_) => split(alloc, bundle),
        _ => panic!(rt; "it is no bundle"),
    }
}

/// Two messages of 33 bytes, each with its padding.
fn two(alloc: Global) -> Result<Vec<u8>, NoMemory> {
    let packet = message(alloc, 33)?;
    let mut bytes = Vec::new(alloc);
    add_words(&mut bytes, &TWO)?;
    for _ in 0..2 {
        bytes.extend_from_slice(packet.as_slice())?;
        bytes.extend_from_slice(&[0, 0, 0])?;
    }
    Ok(bytes)
}

#[test]
fn two_small_messages_are_joined(rt: HostRuntime) -> Result<(), Fail> {
    let bundle = bundle_of(&rt, rt.alloc(), 2)?;
    let expected = two(rt.alloc())?;
    assert!(rt; bundle.as_slice() == expected.as_slice());
    Ok(())
}

/// A bundle gives so many messages of 33 bytes.
fn gives(rt: &impl Abort, alloc: Global, bundle: &[u8], count: usize) -> Result<(), Fail> {
    let packet = message(alloc, 33)?;
    let Ok(inner) = taken_apart(rt, alloc, bundle) else {
        panic!(rt; "the bundle isn't split");
    };
    assert!(rt; inner.len() == count);
    for one in inner.as_slice() {
        assert!(rt; *one == packet);
    }
    Ok(())
}

#[test]
fn small_messages_are_split(rt: HostRuntime) -> Result<(), Fail> {
    let many = bundle_of(&rt, rt.alloc(), 39)?;
    gives(&rt, rt.alloc(), many.as_slice(), 39)
}

/// The sizes of two messages, how often the second is added, and the size of their bundle.
static SIZES: [(u32, u32, u32, Result<usize, BundleFault>); 10] = [
    (36, 36, 1, Ok(112)),
    (37, 36, 1, Ok(116)),
    (700, 712, 1, Ok(1_452)),
    (697, 709, 1, Ok(1_452)),
    (33, 33, 38, Ok(1_444)),
    (700, 713, 1, Err(BundleFault::Full)),
    (701, 712, 1, Err(BundleFault::Full)),
    (1_452, 33, 1, Err(BundleFault::Full)),
    (33, 66_032, 1, Err(BundleFault::Full)),
    (33, 33, 39, Err(BundleFault::Full)),
];

/// The size of the bundle of a message and of another one, which is added so often.
fn size_of(
    rt: &impl Abort,
    alloc: Global,
    first: u32,
    second: u32,
    times: u32,
) -> Result<Result<usize, BundleFault>, NoMemory> {
    let packet = message(alloc, second)?;
    let first = message(alloc, first)?;
    match joined(rt, alloc, first, packet.as_slice(), times) {
        Ok(bundle) => Ok(Ok(bundle.len())),
        Err(fault) => Ok(Err(fault)),
    }
}

#[test]
fn a_bundle_has_at_most_1452_bytes(rt: HostRuntime) -> Result<(), Fail> {
    for (first, second, times, size) in &SIZES {
        let told = size_of(&rt, rt.alloc(), *first, *second, *times)?;
        assert!(rt; told == *size);
    }
    Ok(())
}

/// A byte of the bundle of three, what is put there, and the place that is bad then.
static BAD: [(usize, u8, u32); 9] = [
    (73, 1, 73),
    (75, 1, 75),
    (109, 1, 109),
    (147, 1, 147),
    // the version of an inner packet, and its size
    (40, 0x21, 40),
    (112, 0x21, 112),
    (79, 200, 76),
    // the count: one fewer, and one more
    (17, 2, 112),
    (17, 4, 148),
];

/// The bundle with another byte in a place has a bad inner packet.
fn is_bad(
    rt: &impl Abort,
    alloc: Global,
    bundle: &[u8],
    index: usize,
    value: u8,
    place: u32,
) -> Result<(), Fail> {
    let mut bytes = Vec::from_slice(alloc, bundle)?;
    if let Some(byte) = bytes.get_mut(index) {
        *byte = value;
    }
    let told = taken_apart(rt, alloc, bytes.as_slice());
    assert!(rt; told == Err(SplitFault::BadInner { place }));
    Ok(())
}

#[test]
fn the_first_bad_place(rt: HostRuntime) -> Result<(), Fail> {
    let three = bundle_of(&rt, rt.alloc(), 3)?;
    for (index, value, place) in &BAD {
        is_bad(&rt, rt.alloc(), three.as_slice(), *index, *value, *place)?;
    }
    Ok(())
}

/// A bundle of a message of 36 bytes and a STATE.
fn with_state(alloc: Global) -> Result<Vec<u8>, NoMemory> {
    let mut bytes = Vec::new(alloc);
    add_words(&mut bytes, &WITH_STATE)?;
    bytes.extend_from_slice(message(alloc, 36)?.as_slice())?;
    add_words(&mut bytes, &STATE)?;
    Ok(bytes)
}

/// A packet is one, but may not be bundled.
fn stands_alone(rt: &impl Abort, alloc: Global, words: &[u32]) -> Result<(), NoMemory> {
    let mut bytes = Vec::new(alloc);
    add_words(&mut bytes, words)?;
    assert!(rt; decode(bytes.as_slice()).is_ok() && !may_be_bundled(bytes.as_slice()));
    Ok(())
}

#[test]
fn a_state_stands_in_no_bundle(rt: HostRuntime) -> Result<(), Fail> {
    stands_alone(&rt, rt.alloc(), &STATE)?;
    let bytes = with_state(rt.alloc())?;
    let told = taken_apart(&rt, rt.alloc(), bytes.as_slice());
    assert!(rt; told == Err(SplitFault::BadInner { place: 76 }));
    Ok(())
}
