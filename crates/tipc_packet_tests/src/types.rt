//! Tests of addresses, numbers, ranges and lists.

use std::alloc::Global;
use std::process::Abort;
use std::test::Fail;
use tipc_types::{Addr, BadRange, Bytes, NoMemory, ServiceRange, number_distance, sequence_number};

/// Address words, and the number of the node that each stands for.
static NODES: [(u32, Option<u8>); 7] = [
    (0x0100_1001, Some(1)),
    (0x0100_1020, Some(32)),
    (0x0100_1000, None),
    (0x0100_1021, None),
    (0x0100_2001, None),
    (0x0200_1001, None),
    (0, None),
];

#[test]
fn only_the_nodes_of_the_cluster_have_numbers(rt: HostRuntime) {
    for (word, number) in &NODES {
        assert!(rt; Addr { word: *word }.number() == *number);
    }
    assert!(rt; Addr::node(2).word == 0x0100_1002);
}

/// Positions, and their numbers.
static NUMBERS: [(u64, u16); 4] = [(1, 1), (65_535, 65_535), (65_536, 0), (131_073, 1)];

/// Two numbers, and how far it is from the first to the second.
static DISTANCES: [(u16, u16, u16); 3] = [(1, 1, 0), (65_535, 1, 2), (1, 65_535, 65_534)];

#[test]
fn numbers_go_round_after_65535(rt: HostRuntime) {
    for (position, number) in &NUMBERS {
        assert!(rt; sequence_number(*position) == *number);
    }
    for (from, to, distance) in &DISTANCES {
        assert!(rt; number_distance(*from, *to) == *distance);
    }
}

#[test]
fn a_range_has_at_least_one_instance(rt: HostRuntime) -> Result<(), Fail> {
    assert!(rt; ServiceRange::new(100, 2, 1) == Err(BadRange));
    let range = ServiceRange::new(100, 5, 5)?;
    assert!(rt; (range.kind(), range.lower(), range.upper()) == (100, 5, 5));
    Ok(())
}

/// A list of the bytes `hi`.
fn filled(alloc: Global) -> Result<Bytes, NoMemory> {
    let mut bytes = Bytes::new(alloc);
    bytes.push(104)?;
    bytes.push(105)?;
    Ok(bytes)
}

/// A list is the same as another one, and isn't when one byte more is in it.
fn grows(rt: &impl Abort, bytes: &mut Bytes, copy: &Bytes) -> Result<(), NoMemory> {
    assert!(rt; *bytes == *copy);
    bytes.push(33)?;
    assert!(rt; *bytes != *copy);
    assert!(rt; (bytes.len(), copy.len()) == (3, 2));
    assert!(rt; bytes.as_slice() == b"hi!".as_slice());
    Ok(())
}

#[test]
fn lists_are_filled_copied_and_compared(rt: HostRuntime) -> Result<(), Fail> {
    assert!(rt; Bytes::new(rt.alloc()).is_empty());
    let mut bytes = filled(rt.alloc())?;
    let copy = bytes.clone()?;
    grows(&rt, &mut bytes, &copy)?;
    let again = Bytes::from_vec(copy.into_vec());
    assert!(rt; again.as_slice() == b"hi".as_slice());
    Ok(())
}
