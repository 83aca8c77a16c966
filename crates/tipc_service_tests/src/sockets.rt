//! Tests of sockets: each call where it succeeds, in tables. What becomes of a message by the rows of the rule is proved.

use crate::places::{node, range};
use std::alloc::Global;
use std::process::Abort;
use std::test::Fail;
use tipc_name_table::Names;
use tipc_sockets::*;
use tipc_types::{Body, Form, Importance, Message, NoMemory, PortId, Publication, Scope};

/// A call at sockets, and what it answers.
enum Call {
    /// The number of the port that is made.
    Make(u32),
    /// A port is closed.
    Close(u32),
    /// A range is published at a port.
    Publish(u32, (u32, u32), Scope, u32),
    /// A range is published at port 6 of node 2.
    Hear((u32, u32)),
    /// The publication of a port with a key is withdrawn, or there is none.
    Withdraw(u32, u32, bool),
    /// What node 2 published is withdrawn.
    Purge,
    /// Nothing can be received at a port, since there is none of this number.
    Misses(u32),
    /// A multicast to the instances 6 and 7 waits at these ports.
    Spread(&'static [u32]),
    /// How many publications are found for an instance, the closest.
    Finds(u32, usize),
    /// How many publications an instance has.
    Matches(u32, usize),
    /// How many publications overlap a range.
    Overlaps((u32, u32), usize),
    /// How many publications a port has.
    Lives(u32, usize),
}

/// A socket is made at this port.
fn makes(rt: &impl Abort, alloc: Global, sockets: &mut Sockets, port: u32) {
    assert!(rt; sockets.make(alloc) == Ok(port));
}

/// A range is published at a port.
fn publishes(
    rt: &impl Abort,
    sockets: &mut Sockets,
    port: u32,
    bounds: (u32, u32),
    scope: Scope,
    key: u32,
) {
    let told = sockets.publish_at(port, range(rt, bounds), scope, key);
    assert!(rt; told == Ok(()));
}

/// A range is published at port 6 of node 2.
fn hears(rt: &impl Abort, sockets: &mut Sockets, bounds: (u32, u32)) {
    let theirs = Publication {
        range: range(rt, bounds),
        scope: Scope::Cluster,
        at: PortId {
            node: node(2),
            port: 6,
        },
        key: 1,
    };
    assert!(rt; sockets.publish(theirs).is_ok());
}

/// The publication of a port with a key is withdrawn, or there is none.
fn withdraws(rt: &impl Abort, sockets: &mut Sockets, port: u32, key: u32, is_there: bool) {
    let taken = sockets.withdraw_at(port, key);
    assert!(rt; taken.is_ok() == is_there);
}

/// How many publications are found for an instance of service type 100, the closest.
fn found(alloc: Global, sockets: &Sockets, instance: u32) -> Result<usize, NoMemory> {
    Ok(sockets.closest(alloc, 100, instance)?.len())
}

/// How many publications an instance of service type 100 has.
fn matched(alloc: Global, sockets: &Sockets, instance: u32) -> Result<usize, NoMemory> {
    Ok(sockets.matches(alloc, 100, instance)?.len())
}

/// How many publications overlap a range.
fn overlapped(
    rt: &impl Abort,
    alloc: Global,
    sockets: &Sockets,
    bounds: (u32, u32),
) -> Result<usize, NoMemory> {
    Ok(sockets.overlapping(alloc, range(rt, bounds))?.len())
}

/// How many publications a port has.
fn lived(alloc: Global, sockets: &Sockets, port: u32) -> Result<usize, NoMemory> {
    Ok(sockets.live_at(alloc, port)?.len())
}

/// A multicast of port 7 of node 2 to the instances 6 and 7 of service type 100.
fn multicast(alloc: Global) -> Result<Message, NoMemory> {
    Ok(Message::Payload {
        importance: Importance::High,
        form: Form::Multicast,
        from: PortId {
            node: node(2),
            port: 7,
        },
        to: PortId {
            node: node(1),
            port: 0,
        },
        name_kind: 100,
        lower: 6,
        upper: 7,
        code: 0,
        droppable: false,
        body: Body::from_slice(alloc, b"")?,
    })
}

/// What becomes of a message that arrived.
fn fate_of(alloc: Global, sockets: &mut Sockets, m: Message) -> Result<Fate, Fail> {
    Ok(sockets.dispatch(alloc, m, true, Some(0))?)
}

/// A message waits at these ports.
fn waits_at(rt: &impl Abort, fate: &Fate, ports: &[u32]) {
    let Fate::Queued(queued) = fate else {
        panic!(rt; "it waits at no port");
    };
    assert!(rt; queued.as_slice() == ports);
}

/// A multicast that arrived waits at these ports, as was told before.
fn spreads(
    rt: &impl Abort,
    alloc: Global,
    sockets: &mut Sockets,
    ports: &[u32],
) -> Result<(), Fail> {
    let m = multicast(alloc)?;
    let told = sockets.spreading(alloc, &m, true)?;
    assert!(rt; told.ports() == ports);
    let fate = sockets.spread(told);
    waits_at(rt, &fate, ports);
    Ok(())
}

/// It waits there at a copy, too, where it has its fate at once.
fn spreads_at_a_copy(
    rt: &impl Abort,
    alloc: Global,
    sockets: &Sockets,
    ports: &[u32],
) -> Result<(), Fail> {
    let mut copy = sockets.copy()?;
    let fate = fate_of(alloc, &mut copy, multicast(alloc)?)?;
    waits_at(rt, &fate, ports);
    Ok(())
}

/// One call that changes sockets answers as it should.
fn changes(rt: &impl Abort, alloc: Global, sockets: &mut Sockets, call: &Call) {
    match call {
        Call::Make(port) => makes(rt, alloc, sockets, *port),
        Call::Close(port) => assert!(rt; sockets.close(*port).is_ok()),
        Call::Publish(port, bounds, scope, key) => {
            publishes(rt, sockets, *port, *bounds, *scope, *key);
        }
        Call::Hear(bounds) => hears(rt, sockets, *bounds),
        Call::Withdraw(port, key, is_there) => withdraws(rt, sockets, *port, *key, *is_there),
        Call::Purge => sockets.purge(node(2)),
        Call::Misses(port) => assert!(rt; sockets.receive(*port).is_err()),
        Call::Spread(..)
        | Call::Finds(..)
        | Call::Matches(..)
        | Call::Overlaps(..)
        | Call::Lives(..) => {}
    }
}

/// How many publications a call finds.
fn count_of(
    rt: &impl Abort,
    alloc: Global,
    sockets: &Sockets,
    call: &Call,
) -> Result<usize, NoMemory> {
    match call {
        Call::Finds(instance, _) => found(alloc, sockets, *instance),
        Call::Matches(instance, _) => matched(alloc, sockets, *instance),
        Call::Overlaps(bounds, _) => overlapped(rt, alloc, sockets, *bounds),
        Call::Lives(port, _) => lived(alloc, sockets, *port),
        _ => Ok(0),
    }
}

/// How many it should find.
fn wanted(call: &Call) -> usize {
    match call {
        Call::Finds(_, count)
        | Call::Matches(_, count)
        | Call::Overlaps(_, count)
        | Call::Lives(_, count) => *count,
        _ => 0,
    }
}

/// One call answers as it should.
fn answers(rt: &impl Abort, alloc: Global, sockets: &mut Sockets, call: &Call) -> Result<(), Fail> {
    changes(rt, alloc, sockets, call);
    assert!(rt; count_of(rt, alloc, sockets, call)? == wanted(call));
    if let Call::Spread(ports) = call {
        spreads_at_a_copy(rt, alloc, sockets, ports)?;
        spreads(rt, alloc, sockets, ports)?;
    }
    Ok(())
}

/// These calls, one after another, answer as they should.
fn all_answer(
    rt: &impl Abort,
    alloc: Global,
    sockets: &mut Sockets,
    calls: &[Call],
) -> Result<(), Fail> {
    for call in calls {
        answers(rt, alloc, sockets, call)?;
    }
    Ok(())
}

/// These calls, one after another, answer as they should at a copy of sockets.
fn all_answer_at_a_copy(
    rt: &impl Abort,
    alloc: Global,
    sockets: &Sockets,
    calls: &[Call],
) -> Result<(), Fail> {
    let mut copy = sockets.copy()?;
    all_answer(rt, alloc, &mut copy, calls)
}

/// Calls at new sockets of node 1, at a copy of them, and then at the sockets, answer as they should.
fn go_on(
    rt: &impl Abort,
    alloc: Global,
    first: &[Call],
    at_a_copy: &[Call],
    then: &[Call],
) -> Result<(), Fail> {
    let mut sockets = Sockets::new(alloc, node(1), 1);
    all_answer(rt, alloc, &mut sockets, first)?;
    all_answer_at_a_copy(rt, alloc, &sockets, at_a_copy)?;
    all_answer(rt, alloc, &mut sockets, then)
}

/// Port 1 publishes 0 to 9 in the cluster and 20 to 29 in the node, ports 2 and 4 publish 5 to 15 in the zone; port 3 is closed.
static THREE_PORTS: [Call; 9] = [
    Call::Make(1),
    Call::Make(2),
    Call::Make(3),
    Call::Make(4),
    Call::Close(3),
    Call::Publish(1, (0, 9), Scope::Cluster, 1),
    Call::Publish(1, (20, 29), Scope::Node, 2),
    Call::Publish(2, (5, 15), Scope::Zone, 3),
    Call::Publish(4, (5, 15), Scope::Zone, 4),
];

/// A multicast waits at each port that overlaps.
static SPREAD: [Call; 1] = [Call::Spread(&[1, 2, 4])];

#[test]
fn a_multicast_waits_at_each_port_that_overlaps(rt: HostRuntime) -> Result<(), Fail> {
    go_on(&rt, rt.alloc(), &THREE_PORTS, &SPREAD, &[])
}

/// They are withdrawn, one by its key, the others of a port by closing it.
static WITHDRAWN: [Call; 8] = [
    Call::Finds(9, 3),
    Call::Withdraw(4, 1, false),
    Call::Withdraw(1, 1, true),
    Call::Finds(9, 2),
    Call::Lives(1, 1),
    Call::Close(2),
    Call::Misses(2),
    Call::Finds(9, 1),
];

/// They are still there.
static THERE: [Call; 1] = [Call::Finds(9, 3)];

#[test]
fn publications_are_found_until_they_are_withdrawn(rt: HostRuntime) -> Result<(), Fail> {
    go_on(&rt, rt.alloc(), &THREE_PORTS, &WITHDRAWN, &THERE)
}

/// Node 1 and node 2 publish, and node 2 is purged.
static PEERS: [Call; 9] = [
    Call::Make(1),
    Call::Publish(1, (0, 9), Scope::Node, 1),
    Call::Hear((0, 20)),
    Call::Finds(9, 1),
    Call::Finds(18, 1),
    Call::Matches(3, 2),
    Call::Overlaps((9, 20), 2),
    Call::Purge,
    Call::Finds(18, 0),
];

#[test]
fn a_peers_publications_are_found_where_no_own_one_is(rt: HostRuntime) -> Result<(), Fail> {
    go_on(&rt, rt.alloc(), &PEERS, &[], &[])
}
