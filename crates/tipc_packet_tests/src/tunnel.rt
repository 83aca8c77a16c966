//! Tests of packets that are wrapped and unwrapped.

use std::alloc::Global;
use std::process::Abort;
use std::test::Fail;
use tipc_header::decode;
use tipc_tunnel::*;
use tipc_types::{Bytes, NoMemory, OldSession};

/// A direct message, as number 1 of its link: `hello` from port 1 of node 1.1.1 to port 1 of node 1.1.2.
static MESSAGE: [u32; 8] = [
    0x4100_0025,
    0x6000_0000,
    0x0000_0001,
    0x0100_1001,
    0x0000_0001,
    0x0000_0001,
    0x0100_1001,
    0x0100_1002,
];

/// A message by name, as number 515 of its link: `hi` from port 9 of node 1.1.5 to port 4 of node 1.1.7, looked up in the
/// cluster; type 1,000, instance 3. Version 2, user 2, 10 words of header, 42 bytes in all.
static NAMED: [u32; 10] = [
    0x4540_002a,
    0x4010_0000,
    0x0000_0203,
    0x0100_1005,
    9,
    4,
    0x0100_1005,
    0x0100_1007,
    1_000,
    3,
];

/// The same without its number.
static UNNUMBERED: [u32; 10] = [
    0x4540_002a,
    0x4010_0000,
    0,
    0x0100_1005,
    9,
    4,
    0x0100_1005,
    0x0100_1007,
    1_000,
    3,
];

/// What stands before that message in its duplicate: version 2, user 10, 10 words of header, 90 bytes in all; duplicate; a run of 6,
/// number 515; bearer 1; the epoch.
static DUPLICATE: [u32; 12] = [
    0x5540_005a,
    0,
    0,
    0,
    0x0006_0203,
    1,
    0,
    0,
    0,
    0,
    2,
    0xffff_ffff,
];

/// The session of that duplicate.
const LATER: OldSession = OldSession {
    bearer: 1,
    epoch: 0x2_ffff_ffff,
};

/// The first session of a node's first boot, on bearer 0.
const OLD: OldSession = OldSession {
    bearer: 0,
    epoch: 0x1_0000_0001,
};

/// These words, and the bytes behind them.
fn bytes_of(alloc: Global, words: &[u32], rest: &[u8]) -> Result<Bytes, NoMemory> {
    let mut bytes = Vec::new(alloc);
    for word in words {
        bytes.extend_from_slice(&word.to_be_bytes())?;
    }
    bytes.extend_from_slice(rest)?;
    Ok(Bytes::from_vec(bytes))
}

/// The tunnel packet of an inner packet.
fn wrapped(
    rt: &impl Abort,
    alloc: Global,
    kind: TunnelKind,
    count: u16,
    number: u16,
    inner: &[u8],
) -> Result<Bytes, NoMemory> {
    if count == 0 {
        return wrap(alloc, kind, OLD, 0, 0, &[]);
    }
    if inner.is_empty() {
        return wrap(alloc, kind, OLD, count, number, &[]);
    }
    if inner.len() > 1_452 || !may_be_tunnelled(inner) {
        panic!(rt; "this may not be wrapped");
    }
    wrap(alloc, kind, OLD, count, number, inner)
}

/// What these bytes carry.
fn unwrapped<'a>(rt: &impl Abort, bytes: &'a [u8]) -> Result<Tunnel<'a>, TunnelFault> {
    let Ok(packet) = decode(bytes) else {
        panic!(rt; "the bytes are no packet");
    };
    unwrap_packet(&packet)
}

/// The bytes with another one at a place.
fn changed(alloc: Global, bytes: &[u8], index: usize, value: u8) -> Result<Vec<u8>, NoMemory> {
    let mut bytes = Vec::from_slice(alloc, bytes)?;
    if let Some(byte) = bytes.get_mut(index) {
        *byte = value;
    }
    Ok(bytes)
}

/// A packet carries this.
fn carries(rt: &impl Abort, bytes: &[u8], carried: &Tunnel<'_>) {
    assert!(rt; unwrapped(rt, bytes) == Ok(*carried));
}

/// A tunnel packet has these words and this inner packet, which it carries so.
fn is_spelled(
    rt: &impl Abort,
    alloc: Global,
    tunnel: &Bytes,
    words: &[u32],
    carried: &Tunnel<'_>,
) -> Result<(), NoMemory> {
    let expected = bytes_of(alloc, words, carried.inner)?;
    assert!(rt; *tunnel == expected);
    carries(rt, tunnel.as_slice(), carried);
    Ok(())
}

/// What stands before a message in its original: version 2, user 10, 10 words of header, 85 bytes in all; original; a run of 1, number 1;
/// bearer 0; the epoch.
static ORIGINAL: [u32; 12] = [
    0x5540_0055,
    0x2000_0000,
    0,
    0,
    0x0001_0001,
    0,
    0,
    0,
    0,
    0,
    1,
    1,
];

#[test]
fn a_message_is_wrapped_and_unwrapped(rt: HostRuntime) -> Result<(), Fail> {
    let message = bytes_of(rt.alloc(), &MESSAGE, b"hello")?;
    let inner = message.as_slice();
    let tunnel = wrapped(&rt, rt.alloc(), TunnelKind::Original, 1, 1, inner)?;
    let carried = Tunnel {
        kind: TunnelKind::Original,
        old: OLD,
        count: 1,
        number: 1,
        inner,
    };
    is_spelled(&rt, rt.alloc(), &tunnel, &ORIGINAL, &carried)?;
    Ok(())
}

/// The duplicate of a message of which the number isn't set.
fn duplicate(rt: &impl Abort, alloc: Global, inner: &[u8]) -> Result<Bytes, NoMemory> {
    if inner.len() > 1_452 || !may_be_tunnelled(inner) {
        panic!(rt; "this may not be wrapped");
    }
    wrap(alloc, TunnelKind::Duplicate, LATER, 6, 515, inner)
}

#[test]
fn a_message_by_name_is_in_a_duplicate(rt: HostRuntime) -> Result<(), Fail> {
    let message = bytes_of(rt.alloc(), &UNNUMBERED, b"hi")?;
    let tunnel = duplicate(&rt, rt.alloc(), message.as_slice())?;
    let numbered = bytes_of(rt.alloc(), &NAMED, b"hi")?;
    let carried = Tunnel {
        kind: TunnelKind::Duplicate,
        old: LATER,
        count: 6,
        number: 515,
        inner: numbered.as_slice(),
    };
    is_spelled(&rt, rt.alloc(), &tunnel, &DUPLICATE, &carried)?;
    Ok(())
}

/// A byte of a tunnel packet, and what is put there: the inner number, the inner version, the inner size, the inner user.
static BAD: [(usize, u8); 4] = [(19, 2), (48, 0x21), (51, 36), (48, 0x4f)];

/// A tunnel packet with another byte in a place carries nothing.
fn is_bad(
    rt: &impl Abort,
    alloc: Global,
    tunnel: &[u8],
    index: usize,
    value: u8,
) -> Result<(), NoMemory> {
    let bytes = changed(alloc, tunnel, index, value)?;
    assert!(rt; unwrapped(rt, bytes.as_slice()) == Err(TunnelFault::BadInner));
    Ok(())
}

#[test]
fn what_is_not_unwrapped(rt: HostRuntime) -> Result<(), Fail> {
    let message = bytes_of(rt.alloc(), &MESSAGE, b"hello")?;
    let inner = message.as_slice();
    assert!(rt; unwrapped(&rt, inner) == Err(TunnelFault::NotTunnel));
    let tunnel = wrapped(&rt, rt.alloc(), TunnelKind::Duplicate, 1, 1, inner)?;
    for (index, value) in &BAD {
        is_bad(&rt, rt.alloc(), tunnel.as_slice(), *index, *value)?;
    }
    Ok(())
}

/// The duplicate of a run of so many packets, of which this one isn't there.
fn carries_nothing(
    rt: &impl Abort,
    alloc: Global,
    count: u16,
    number: u16,
    word: u32,
) -> Result<(), NoMemory> {
    let tunnel = wrapped(rt, alloc, TunnelKind::Duplicate, count, number, &[])?;
    let words = [0x5540_0030, 0, 0, 0, word, 0, 0, 0, 0, 0, 1, 1];
    let carried = Tunnel {
        kind: TunnelKind::Duplicate,
        old: OLD,
        count,
        number,
        inner: &[],
    };
    is_spelled(rt, alloc, &tunnel, &words, &carried)
}

#[test]
fn placeholders_and_empty_runs_carry_nothing(rt: HostRuntime) -> Result<(), Fail> {
    carries_nothing(&rt, rt.alloc(), 3, 7, 0x0003_0007)?;
    carries_nothing(&rt, rt.alloc(), 0, 0, 0)?;
    Ok(())
}
