//! Tests that every name table passes: tables of calls and of what they answer, and drawn calls that both forms answer alike.

ghost use Rattle.std.specs.Prelude.{◌<◌};
ghost use Rattle.tipc_types.specs.Address.{IsNodeWord};

use crate::places::{keys_are, node, range};
use std::alloc::Global;
use std::process::Abort;
use std::test::Fail;
use tipc_name_index::NameIndex;
use tipc_name_table::*;
use tipc_types::{PortId, Publication, Scope};

/// A call at a name table, and what it answers.
enum Call {
    /// 1,024 ranges are published at a port of node 1.
    Fill,
    /// A range is published with a key at a port of a node.
    Publish(u32, (u32, u32), (u8, u32), Result<(), NameFault>),
    /// The publication of node 1 with this key is withdrawn, or there is none.
    Withdraw(u32, bool),
    /// What a node published is withdrawn.
    Purge(u8),
    /// The keys of what is looked up to an instance.
    Finds(u32, &'static [u32]),
    /// The keys of what overlaps a range.
    Overlaps((u32, u32), &'static [u32]),
}

/// A range that is offered with a key at a port of a node.
fn publication(rt: &impl Abort, key: u32, bounds: (u32, u32), at: (u8, u32)) -> Publication
    ensures { IsNodeWord result.at.node.word }
{
    Publication {
        range: range(rt, bounds),
        scope: Scope::Cluster,
        at: PortId {
            node: node(at.0),
            port: at.1,
        },
        key,
    }
}

/// A range is published with a key at a port of a node: this is the answer.
fn publishes<N: Names>(
    rt: &impl Abort,
    names: &mut N,
    key: u32,
    bounds: (u32, u32),
    at: (u8, u32),
    answer: Result<(), NameFault>,
) {
    let told = names.publish(publication(rt, key, bounds, at));
    assert!(rt; told == answer);
}

/// 1,024 ranges are published at a port of node 1, with the keys 0 to 1,023.
fn fills<N: Names>(rt: &impl Abort, names: &mut N) {
    for key in 0..1_024 {
        publishes(rt, names, key, (7, 7), (1, 1), Ok(()));
    }
}

/// The publication of node 1 with this key is withdrawn, or there is none.
fn withdraws<N: Names>(rt: &impl Abort, names: &mut N, key: u32, is_there: bool) {
    let taken = names.withdraw(node(1), key);
    assert!(rt; taken.is_ok() == is_there);
}

/// The keys of what is looked up to an instance of service type 100 are these.
fn finds<N: Names>(
    rt: &impl Abort,
    alloc: Global,
    names: &N,
    instance: u32,
    keys: &[u32],
) -> Result<(), Fail> {
    let found = names.matches(alloc, 100, instance)?;
    keys_are(rt, found.as_slice(), keys);
    Ok(())
}

/// The keys of what overlaps a range are these.
fn overlap<N: Names>(
    rt: &impl Abort,
    alloc: Global,
    names: &N,
    bounds: (u32, u32),
    keys: &[u32],
) -> Result<(), Fail> {
    let found = names.overlapping(alloc, range(rt, bounds))?;
    keys_are(rt, found.as_slice(), keys);
    Ok(())
}

/// One call answers as it should.
fn answers<N: Names>(
    rt: &impl Abort,
    alloc: Global,
    names: &mut N,
    call: &Call,
) -> Result<(), Fail> {
    match call {
        Call::Fill => fills(rt, names),
        Call::Publish(key, bounds, at, answer) => {
            publishes(rt, names, *key, *bounds, *at, *answer);
        }
        Call::Withdraw(key, is_there) => withdraws(rt, names, *key, *is_there),
        Call::Purge(n) => names.purge(node(*n)),
        Call::Finds(instance, keys) => return finds(rt, alloc, names, *instance, keys),
        Call::Overlaps(bounds, keys) => return overlap(rt, alloc, names, *bounds, keys),
    }
    Ok(())
}

/// These calls, one after another, answer as they should.
fn all_answer<N: Names>(
    rt: &impl Abort,
    alloc: Global,
    names: &mut N,
    calls: &[Call],
) -> Result<(), Fail> {
    for call in calls {
        answers(rt, alloc, names, call)?;
    }
    Ok(())
}

/// These calls, one after another, answer as they should at a copy.
fn all_answer_at<N: Names + Drop>(
    rt: &impl Abort,
    alloc: Global,
    mut copy: N,
    calls: &[Call],
) -> Result<(), Fail> {
    all_answer(rt, alloc, &mut copy, calls)
}

/// Calls at a new plain list, at a copy of it, and then at the list, answer as they should.
fn go_on_in_a_list(
    rt: &impl Abort,
    alloc: Global,
    first: &[Call],
    at_a_copy: &[Call],
    then: &[Call],
) -> Result<(), Fail> {
    let mut names = NameTable::new(alloc);
    all_answer(rt, alloc, &mut names, first)?;
    all_answer_at(rt, alloc, names.copy()?, at_a_copy)?;
    all_answer(rt, alloc, &mut names, then)
}

/// Calls at a new index, at a copy of it, and then at the index, answer as they should.
fn go_on_in_an_index(
    rt: &impl Abort,
    alloc: Global,
    first: &[Call],
    at_a_copy: &[Call],
    then: &[Call],
) -> Result<(), Fail> {
    let mut names = NameIndex::new(alloc);
    all_answer(rt, alloc, &mut names, first)?;
    all_answer_at(rt, alloc, names.copy()?, at_a_copy)?;
    all_answer(rt, alloc, &mut names, then)
}

/// The calls answer as they should in both forms.
fn go_on(
    rt: &impl Abort,
    alloc: Global,
    first: &[Call],
    at_a_copy: &[Call],
    then: &[Call],
) -> Result<(), Fail> {
    go_on_in_a_list(rt, alloc, first, at_a_copy, then)?;
    go_on_in_an_index(rt, alloc, first, at_a_copy, then)
}

/// A range is published, and published again.
static FOUND: [Call; 6] = [
    Call::Publish(1, (0, 9), (1, 1), Ok(())),
    Call::Publish(1, (0, 9), (1, 1), Err(NameFault::Duplicate)),
    Call::Finds(9, &[1]),
    Call::Finds(10, &[]),
    Call::Overlaps((9, 20), &[1]),
    Call::Overlaps((10, 20), &[]),
];

/// It is withdrawn.
static WITHDRAWN: [Call; 3] = [
    Call::Withdraw(1, true),
    Call::Withdraw(1, false),
    Call::Finds(9, &[]),
];

/// It is still there.
static THERE: [Call; 1] = [Call::Finds(9, &[1])];

#[test]
fn one_is_published_and_found(rt: HostRuntime) -> Result<(), Fail> {
    go_on(&rt, rt.alloc(), &FOUND, &WITHDRAWN, &THERE)
}

/// Four publications of two nodes, of which one node is purged.
static ORDERED: [Call; 8] = [
    Call::Publish(10, (0, 9), (2, 1), Ok(())),
    Call::Publish(11, (5, 5), (1, 2), Ok(())),
    Call::Publish(5, (0, 9), (1, 2), Ok(())),
    Call::Publish(12, (0, 9), (1, 1), Ok(())),
    Call::Finds(5, &[12, 5, 11, 10]),
    Call::Finds(4, &[12, 5, 10]),
    Call::Purge(1),
    Call::Finds(5, &[10]),
];

#[test]
fn matches_stand_in_order_of_node_port_and_key(rt: HostRuntime) -> Result<(), Fail> {
    go_on(&rt, rt.alloc(), &ORDERED, &[], &[])
}

/// A node has at most 1,024 publications.
static FULL: [Call; 5] = [
    Call::Fill,
    Call::Publish(1_024, (7, 7), (1, 1), Err(NameFault::Full)),
    Call::Publish(1_024, (7, 7), (2, 1), Ok(())),
    Call::Purge(1),
    Call::Finds(7, &[1_024]),
];

#[test]
fn a_node_has_at_most_1024(rt: HostRuntime) -> Result<(), Fail> {
    go_on(&rt, rt.alloc(), &FULL, &[], &[])
}

/// Draws numbers, the same in each run, by a linear congruence.
#[derive(Drop)]
struct Draws {
    last: u32,
}

impl Draws {
    /// A number below a bound.
    fn below(&mut self, bound: u32) -> u32
        requires { 0 < bound }
        ensures { result < bound }
    {
        self.last = self
            .last
            .wrapping_mul(1_664_525)
            .wrapping_add(1_013_904_223);
        (self.last >> 16) % bound
    }

    /// A range of up to 10 of 30 instances.
    fn bounds(&mut self) -> (u32, u32) {
        let lower = self.below(21);
        let more = self.below(10);
        (lower, lower + more)
    }
}

/// Both forms find the same for an instance.
fn match_alike(
    rt: &impl Abort,
    alloc: Global,
    list: &NameTable,
    index: &NameIndex,
    instance: u32,
) -> Result<(), Fail> {
    let listed = list.matches(alloc, 100, instance)?;
    let indexed = index.matches(alloc, 100, instance)?;
    assert!(rt; listed.as_slice() == indexed.as_slice());
    Ok(())
}

/// Both forms find the same for a range.
fn overlap_alike(
    rt: &impl Abort,
    alloc: Global,
    list: &NameTable,
    index: &NameIndex,
    bounds: (u32, u32),
) -> Result<(), Fail> {
    let listed = list.overlapping(alloc, range(rt, bounds))?;
    let indexed = index.overlapping(alloc, range(rt, bounds))?;
    assert!(rt; listed.as_slice() == indexed.as_slice());
    Ok(())
}

/// Both forms find the same for a drawn instance and for a drawn range.
fn find_alike(
    rt: &impl Abort,
    alloc: Global,
    list: &NameTable,
    index: &NameIndex,
    draws: &mut Draws,
) -> Result<(), Fail> {
    match_alike(rt, alloc, list, index, draws.below(31))?;
    overlap_alike(rt, alloc, list, index, draws.bounds())
}

/// Both forms withdraw alike.
fn withdraw_alike(rt: &impl Abort, list: &mut NameTable, index: &mut NameIndex, n: u8, key: u32) {
    let taken = list.withdraw(node(n), key);
    assert!(rt; index.withdraw(node(n), key) == taken);
}

/// Both forms publish alike.
fn publish_alike(
    rt: &impl Abort,
    list: &mut NameTable,
    index: &mut NameIndex,
    key: u32,
    bounds: (u32, u32),
    at: (u8, u32),
) {
    let told = list.publish(publication(rt, key, bounds, at));
    assert!(rt; index.publish(publication(rt, key, bounds, at)) == told);
}

/// Both forms answer a drawn call alike: most publish, and few purge.
fn answer_alike(
    rt: &impl Abort,
    alloc: Global,
    list: &mut NameTable,
    index: &mut NameIndex,
    draws: &mut Draws,
) -> Result<(), Fail> {
    let at = (1 + draws.below(2) as u8, draws.below(4));
    let key = draws.below(64);
    match draws.below(64) {
        0 => {
            list.purge(node(at.0));
            index.purge(node(at.0));
        }
        1..=15 => withdraw_alike(rt, list, index, at.0, key),
        16..=31 => return find_alike(rt, alloc, list, index, draws),
        _ => publish_alike(rt, list, index, key, draws.bounds(), at),
    }
    Ok(())
}

/// So do they 2,000 such calls, and hold the same behind each.
fn all_alike(
    rt: &impl Abort,
    alloc: Global,
    list: &mut NameTable,
    index: &mut NameIndex,
) -> Result<(), Fail> {
    let mut draws = Draws { last: 1 };
    for _ in 0..2_000 {
        answer_alike(rt, alloc, list, index, &mut draws)?;
        assert!(rt; list.as_slice() == index.as_slice());
    }
    Ok(())
}

#[test]
fn both_forms_answer_2000_calls_alike(rt: HostRuntime) -> Result<(), Fail> {
    let mut list = NameTable::new(rt.alloc());
    let mut index = NameIndex::new(rt.alloc());
    all_alike(&rt, rt.alloc(), &mut list, &mut index)
}
