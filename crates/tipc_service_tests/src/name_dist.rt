//! Tests of name distribution: what a contact begins with, and what items make of a peer's table.

ghost use Rattle.tipc_types.specs.Address.{IsNodeWord};

use crate::places::{keys_are, node, range};
use std::alloc::Global;
use std::process::Abort;
use std::test::Fail;
use tipc_name_dist::*;
use tipc_name_table::{NameFault, NameTable, Names};
use tipc_types::{Item, ItemList, List, Message, PortId, Publication, Scope};

/// A message of node 2, and what it makes of the publications of node 2.
struct Heard {
    /// Whether it withdraws.
    withdrawal: bool,
    /// The lower bound and the key of each item: port 7, up to 9 of service type 100.
    items: &'static [(u32, u32)],
    /// The keys of what it tells, or the place of the item that doesn't fit.
    answer: Result<&'static [u32], u32>,
    /// The keys of what is held of instance 9 then.
    held: &'static [u32],
}

/// What port 7 of node 2 publishes: 0 to 9 of service type 100.
fn offered(rt: &impl Abort, scope: Scope, key: u32) -> Publication
    ensures { IsNodeWord result.at.node.word }
{
    Publication {
        range: range(rt, (0, 9)),
        scope,
        at: PortId {
            node: node(2),
            port: 7,
        },
        key,
    }
}

/// So many publications of zone scope, behind one of node scope.
fn live(rt: &impl Abort, alloc: Global, count: u32) -> Result<Vec<Publication>, Fail> {
    let mut live = Vec::new(alloc);
    live.push(offered(rt, Scope::Node, 1_000))?;
    for key in 0..count {
        live.push(offered(rt, Scope::Zone, key))?;
    }
    Ok(live)
}

/// How many items a message has.
fn size(message: &Message) -> usize {
    match message {
        Message::Items { items, .. } => items.len(),
        Message::Payload { .. } => 0,
    }
}

/// Messages have these sizes.
fn sizes_are(rt: &impl Abort, messages: &[Message], sizes: &[usize]) {
    assert!(rt; messages.len() == sizes.len());
    for (message, count) in messages.iter().zip(sizes) {
        assert!(rt; size(message) == *count);
    }
}

/// So many publications are told of by messages of these sizes.
fn tells(rt: &impl Abort, alloc: Global, count: u32, sizes: &[usize]) -> Result<(), Fail> {
    let live = live(rt, alloc, count)?;
    let messages = bulk(alloc, live.as_slice())?;
    sizes_are(rt, messages.as_slice(), sizes);
    Ok(())
}

/// Numbers of publications, and the sizes of the messages that tell of them.
static SIZES: [(u32, &[usize]); 5] = [
    (0, &[]),
    (1, &[1]),
    (70, &[70]),
    (71, &[70, 1]),
    (141, &[70, 70, 1]),
];

#[test]
fn a_contact_begins_with_messages_of_70(rt: HostRuntime) -> Result<(), Fail> {
    for (count, sizes) in &SIZES {
        tells(&rt, rt.alloc(), *count, sizes)?;
    }
    Ok(())
}

/// Items of these lower bounds and keys.
fn items_of(alloc: Global, named: &[(u32, u32)]) -> Result<ItemList, Fail> {
    let mut items = ItemList::new(alloc);
    for (lower, key) in named {
        items.push(Item {
            kind: 100,
            lower: *lower,
            upper: 9,
            port: 7,
            key: *key,
        })?;
    }
    Ok(items)
}

/// A message of at most 70 items is applied.
fn hear(
    rt: &impl Abort,
    alloc: Global,
    names: &mut NameTable,
    withdrawal: bool,
    items: ItemList,
) -> Result<Learnt, ItemFault> {
    assert!(rt; items.len() <= 70);
    apply(alloc, names, node(2), &Message::Items { withdrawal, items })
}

/// Whether a message withdrew, and what it told of.
fn parts(learnt: Learnt) -> (bool, List) {
    match learnt {
        Learnt::Learned(ps) => (false, ps),
        Learnt::Forgot(ps) => (true, ps),
    }
}

/// A message told of publications of these keys.
fn told(rt: &impl Abort, learnt: Learnt, withdrawal: bool, keys: &[u32]) {
    let (forgot, ps) = parts(learnt);
    assert!(rt; forgot == withdrawal);
    keys_are(rt, ps.as_slice(), keys);
}

/// The keys of what is held of instance 9 are these.
fn holds(rt: &impl Abort, alloc: Global, names: &NameTable, keys: &[u32]) -> Result<(), Fail> {
    let held = names.matches(alloc, 100, 9)?;
    keys_are(rt, held.as_slice(), keys);
    Ok(())
}

/// A message of node 2 makes of its table what it should.
fn makes(rt: &impl Abort, alloc: Global, names: &mut NameTable, heard: &Heard) -> Result<(), Fail> {
    let items = items_of(alloc, heard.items)?;
    let learnt = hear(rt, alloc, names, heard.withdrawal, items);
    match heard.answer {
        Ok(keys) => told(rt, learnt?, heard.withdrawal, keys),
        Err(place) => assert!(rt; learnt.err() == Some(ItemFault::BadItem { place })),
    }
    holds(rt, alloc, names, heard.held)
}

/// Node 2 publishes so many ranges without instance 9.
fn fills(rt: &impl Abort, names: &mut NameTable, count: u32) -> Result<(), NameFault> {
    for key in 0..count {
        names.publish(Publication {
            range: range(rt, (0, 8)),
            ..offered(rt, Scope::Cluster, key)
        })?;
    }
    Ok(())
}

/// Node 2 published so many ranges; these messages of it, one after another, make of its table what they should.
fn all_make(rt: &impl Abort, alloc: Global, count: u32, all: &[Heard]) -> Result<(), Fail> {
    let mut names = NameTable::new(alloc);
    fills(rt, &mut names, count)?;
    for heard in all {
        makes(rt, alloc, &mut names, heard)?;
    }
    Ok(())
}

/// What node 2 tells of its publication of zone scope.
fn told_of_one(
    rt: &impl Abort,
    alloc: Global,
    names: &mut NameTable,
    withdrawal: bool,
) -> Result<Learnt, Fail> {
    let message = item(alloc, &offered(rt, Scope::Zone, 3), withdrawal)?;
    Ok(apply(alloc, names, node(2), &message)?)
}

/// It is seen with cluster scope, under its key alone.
fn is_seen(rt: &impl Abort, learnt: Learnt, withdrawal: bool) {
    let (forgot, ps) = parts(learnt);
    assert!(rt; forgot == withdrawal);
    assert!(rt; ps.as_slice() == [offered(rt, Scope::Cluster, 3)].as_slice());
}

/// It is learned or forgotten.
fn one_is_told(
    rt: &impl Abort,
    alloc: Global,
    names: &mut NameTable,
    withdrawal: bool,
    held: &[u32],
) -> Result<(), Fail> {
    is_seen(rt, told_of_one(rt, alloc, names, withdrawal)?, withdrawal);
    holds(rt, alloc, names, held)
}

#[test]
fn a_publication_is_learned_and_forgotten(rt: HostRuntime) -> Result<(), Fail> {
    let alloc = rt.alloc();
    let mut names = NameTable::new(alloc);
    one_is_told(&rt, alloc, &mut names, false, &[3])?;
    one_is_told(&rt, alloc, &mut names, true, &[])
}

/// Items before one that doesn't fit are applied: it is held, its bounds are turned, or it isn't held.
static HEARD: [Heard; 6] = [
    Heard {
        withdrawal: false,
        items: &[(0, 1), (9, 2)],
        answer: Ok(&[1, 2]),
        held: &[1, 2],
    },
    Heard {
        withdrawal: false,
        items: &[(0, 3), (0, 2), (0, 4)],
        answer: Err(1),
        held: &[1, 2, 3],
    },
    Heard {
        withdrawal: false,
        items: &[(10, 5), (0, 6)],
        answer: Err(0),
        held: &[1, 2, 3],
    },
    Heard {
        withdrawal: true,
        items: &[(0, 3), (0, 9), (0, 1)],
        answer: Err(1),
        held: &[1, 2],
    },
    Heard {
        withdrawal: true,
        items: &[(10, 1)],
        answer: Err(0),
        held: &[1, 2],
    },
    Heard {
        withdrawal: true,
        items: &[(9, 2), (0, 1)],
        answer: Ok(&[2, 1]),
        held: &[],
    },
];

#[test]
fn items_before_a_bad_one_are_applied(rt: HostRuntime) -> Result<(), Fail> {
    all_make(&rt, rt.alloc(), 0, &HEARD)
}

/// A peer has 1,024 publications, of the keys 0 to 1,023, none of which has instance 9.
static FULL: [Heard; 3] = [
    Heard {
        withdrawal: false,
        items: &[(9, 1_024)],
        answer: Err(0),
        held: &[],
    },
    Heard {
        withdrawal: true,
        items: &[(0, 0)],
        answer: Ok(&[0]),
        held: &[],
    },
    Heard {
        withdrawal: false,
        items: &[(9, 1_024)],
        answer: Ok(&[1_024]),
        held: &[1_024],
    },
];

#[test]
fn a_peer_has_at_most_1024(rt: HostRuntime) -> Result<(), Fail> {
    all_make(&rt, rt.alloc(), 1_024, &FULL)
}
