//! Tests of subscriptions: tables of calls and of what they answer.

ghost use Rattle.std.specs.Prelude.{◌≡◌, ◌≤◌};
ghost use Rattle.tipc_types.specs.Address.{IsNodeWord};

use crate::places::{node, range};
use std::alloc::Global;
use std::process::Abort;
use std::test::Fail;
use tipc_name_table::{NameTable, Names};
use tipc_topology::*;
use tipc_types::{Event, List, NoMemory, PortId, Publication, Scope, Subscription};

/// What is published: the number of its node, its port, its key, and its bounds in service type 100.
type Offer = (u8, u32, u32, (u32, u32));

/// An event: its kind, its bounds, and the number of its node, which may be 0, and its port.
type Told = (u32, (u32, u32), (u8, u32));

/// A call at subscriptions, and what it answers.
enum Call {
    /// 256 subscriptions to the instances 10 to 20 are made.
    Fill,
    /// A subscription to these instances, with a timeout and a filter.
    Subscribe((u32, u32), u32, u32, Result<u32, TopologyFault>),
    /// A subscription is cancelled, or there is none of this number.
    Cancel(u32, bool),
    /// There is no subscription of this number.
    Misses(u32),
    /// What is published is told of.
    Adds(&'static [Offer]),
    /// What is withdrawn is told of.
    Removes(Offer),
    /// What is lost with a node is told of.
    Purges(&'static [Offer]),
    /// A tick, after which subscriptions of these numbers timed out.
    Ticks(&'static [u32]),
    /// All events that a subscription has left.
    Tells(u32, &'static [Told]),
}

/// What is published by this offer.
fn published(rt: &impl Abort, offer: &Offer) -> Publication
    ensures { IsNodeWord result.at.node.word }
{
    let (n, port, key, bounds) = *offer;
    Publication {
        range: range(rt, bounds),
        scope: Scope::Cluster,
        at: PortId {
            node: node(n),
            port,
        },
        key,
    }
}

/// A subscription to these instances of service type 100.
fn asking(bounds: (u32, u32), timeout: u32, filter: u32) -> Subscription {
    Subscription {
        range_kind: 100,
        lower: bounds.0,
        upper: bounds.1,
        timeout,
        filter,
        handle: [0; 8],
    }
}

/// An event is as told.
fn is_as_told(rt: &impl Abort, event: &Event, told: &Told) {
    let (what, bounds, (n, port)) = *told;
    let word = if n == 0 { 0 } else { node(n).word };
    assert!(rt; (event.what, event.at_port) == (what, port));
    assert!(rt; (event.lower, event.upper) == bounds);
    assert!(rt; event.at_node == word);
}

/// The next event of a subscription is as told.
fn tells(rt: &impl Abort, topology: &mut Topology, number: u32, told: &Told) {
    let Ok(Some(event)) = topology.next_event(number) else {
        panic!(rt; "there is no event");
    };
    is_as_told(rt, &event, told);
}

/// These are the events that a subscription has left.
fn tells_all(rt: &impl Abort, topology: &mut Topology, number: u32, events: &[Told]) {
    for told in events {
        tells(rt, topology, number, told);
    }
    assert!(rt; topology.next_event(number) == Ok(None));
}

/// A subscription has this answer.
fn subscribes(
    rt: &impl Abort,
    alloc: Global,
    names: &NameTable,
    topology: &mut Topology,
    asked: Subscription,
    answer: Result<u32, TopologyFault>,
) {
    let told = topology.subscribe(alloc, asked, names);
    assert!(rt; told == answer);
}

/// What is published is told of, in order.
fn adds(
    rt: &impl Abort,
    alloc: Global,
    topology: &mut Topology,
    offers: &[Offer],
) -> Result<(), NoMemory> {
    for offer in offers {
        topology.changed(alloc, &TableChange::Added(published(rt, offer)))?;
    }
    Ok(())
}

/// What is lost with a node is told of.
fn purges(
    rt: &impl Abort,
    alloc: Global,
    topology: &mut Topology,
    offers: &[Offer],
) -> Result<(), NoMemory> {
    let mut lost = List::new(alloc);
    for offer in offers {
        lost.push(published(rt, offer))?;
    }
    topology.changed(alloc, &TableChange::Purged(lost))
}

/// A tick, after which subscriptions of these numbers timed out.
fn ticks(
    rt: &impl Abort,
    alloc: Global,
    topology: &mut Topology,
    numbers: &[u32],
) -> Result<(), NoMemory> {
    let ended = topology.tick(alloc)?;
    assert!(rt; ended.as_slice() == numbers);
    Ok(())
}

/// 256 subscriptions to the instances 10 to 20 are made.
fn fills(rt: &impl Abort, alloc: Global, names: &NameTable, topology: &mut Topology) {
    for number in 1..=256 {
        let asked = asking((10, 20), 5, 1);
        subscribes(rt, alloc, names, topology, asked, Ok(number));
    }
}

/// A subscription is cancelled, or there is none of this number.
fn cancels(rt: &impl Abort, topology: &mut Topology, number: u32, is_there: bool) {
    assert!(rt; topology.cancel(number).is_ok() == is_there);
}

/// There is no subscription of this number.
fn misses(rt: &impl Abort, topology: &mut Topology, number: u32) {
    assert!(rt; topology.next_event(number) == Err(Unknown));
}

/// What is withdrawn is told of.
fn removes(
    rt: &impl Abort,
    alloc: Global,
    topology: &mut Topology,
    offer: &Offer,
) -> Result<(), NoMemory> {
    topology.changed(alloc, &TableChange::Removed(published(rt, offer)))
}

/// One call about subscriptions answers as it should.
fn asks(rt: &impl Abort, alloc: Global, names: &NameTable, topology: &mut Topology, call: &Call) {
    match call {
        Call::Fill => fills(rt, alloc, names, topology),
        Call::Subscribe(bounds, timeout, filter, answer) => {
            let asked = asking(*bounds, *timeout, *filter);
            subscribes(rt, alloc, names, topology, asked, *answer);
        }
        Call::Cancel(number, is_there) => cancels(rt, topology, *number, *is_there),
        Call::Misses(number) => misses(rt, topology, *number),
        Call::Tells(number, events) => tells_all(rt, topology, *number, events),
        Call::Adds(..) | Call::Removes(..) | Call::Purges(..) | Call::Ticks(..) => {}
    }
}

/// What is told by one call, if it tells of anything.
fn hears(
    rt: &impl Abort,
    alloc: Global,
    topology: &mut Topology,
    call: &Call,
) -> Result<(), NoMemory> {
    match call {
        Call::Adds(offers) => adds(rt, alloc, topology, offers),
        Call::Removes(offer) => removes(rt, alloc, topology, offer),
        Call::Purges(offers) => purges(rt, alloc, topology, offers),
        Call::Ticks(numbers) => ticks(rt, alloc, topology, numbers),
        _ => Ok(()),
    }
}

/// These calls, one after another, answer as they should.
fn all_answer(
    rt: &impl Abort,
    alloc: Global,
    names: &NameTable,
    topology: &mut Topology,
    calls: &[Call],
) -> Result<(), Fail> {
    for call in calls {
        asks(rt, alloc, names, topology, call);
        hears(rt, alloc, topology, call)?;
    }
    Ok(())
}

/// These calls, one after another, answer as they should at a copy of subscriptions.
fn all_answer_at_a_copy(
    rt: &impl Abort,
    alloc: Global,
    names: &NameTable,
    topology: &Topology,
    calls: &[Call],
) -> Result<(), Fail> {
    let mut copy = topology.copy()?;
    all_answer(rt, alloc, names, &mut copy, calls)
}

/// Calls at new subscriptions over names, at a copy of them, and then at the subscriptions, answer as they should.
fn go_on_over(
    rt: &impl Abort,
    alloc: Global,
    names: &NameTable,
    first: &[Call],
    at_a_copy: &[Call],
    then: &[Call],
) -> Result<(), Fail> {
    let mut topology = Topology::new(alloc);
    topology.reserve(3)?;
    all_answer(rt, alloc, names, &mut topology, first)?;
    all_answer_at_a_copy(rt, alloc, names, &topology, at_a_copy)?;
    all_answer(rt, alloc, names, &mut topology, then)
}

/// The same over the names of what is published.
fn go_on(
    rt: &impl Abort,
    alloc: Global,
    there: &[Offer],
    first: &[Call],
    at_a_copy: &[Call],
    then: &[Call],
) -> Result<(), Fail> {
    let mut names = NameTable::new(alloc);
    for offer in there {
        names.publish(published(rt, offer))?;
    }
    go_on_over(rt, alloc, &names, first, at_a_copy, then)
}

/// A filter and bounds that are refused, and the 257th subscription.
static REFUSED: [Call; 8] = [
    Call::Subscribe((10, 20), 5, 3, Err(TopologyFault::BadFilter)),
    Call::Subscribe((2, 1), 5, 3, Err(TopologyFault::BadRange)),
    Call::Fill,
    Call::Subscribe((10, 20), 5, 1, Err(TopologyFault::Full)),
    Call::Misses(999),
    Call::Cancel(7, true),
    Call::Cancel(7, false),
    Call::Subscribe((10, 20), 5, 2, Ok(257)),
];

#[test]
fn what_is_refused(rt: HostRuntime) -> Result<(), Fail> {
    go_on(&rt, rt.alloc(), &[], &REFUSED, &[], &[])
}

/// Subscription 1 under the service filter, and 2 under the ports filter, are told of four publications of node 2 and node 1, of which the last
/// one has no instance that they watch.
static FOUR: [Call; 5] = [
    Call::Subscribe((10, 20), 4_294_967_295, 2, Ok(1)),
    Call::Subscribe((10, 20), 4_294_967_295, 1, Ok(2)),
    Call::Adds(&[
        (2, 1, 1, (0, 10)),
        (2, 1, 2, (20, 30)),
        (1, 3, 3, (20, 30)),
        (1, 3, 4, (21, 30)),
    ]),
    Call::Tells(1, &[(1, (10, 10), (2, 1)), (1, (20, 20), (2, 1))]),
    Call::Tells(
        2,
        &[
            (1, (10, 10), (2, 1)),
            (1, (20, 20), (2, 1)),
            (1, (20, 20), (1, 3)),
        ],
    ),
];

/// The third of them is withdrawn.
static REMOVED: [Call; 3] = [
    Call::Removes((1, 3, 3, (20, 30))),
    Call::Tells(1, &[]),
    Call::Tells(2, &[(2, (20, 20), (1, 3))]),
];

/// Those of node 2 are lost with it.
static PURGED: [Call; 3] = [
    Call::Purges(&[(2, 1, 2, (20, 30)), (2, 1, 1, (0, 10))]),
    Call::Tells(1, &[(2, (10, 10), (2, 1))]),
    Call::Tells(2, &[(2, (10, 10), (2, 1)), (2, (20, 20), (2, 1))]),
];

#[test]
fn removals_and_purges_are_told(rt: HostRuntime) -> Result<(), Fail> {
    go_on(&rt, rt.alloc(), &[], &FOUR, &PURGED, &REMOVED)
}

/// What is published before anyone asks.
static THERE: [Offer; 3] = [(1, 9, 1, (15, 15)), (2, 4, 2, (0, 99)), (2, 8, 3, (15, 15))];

/// It is told first.
static TOLD_FIRST: [Call; 4] = [
    Call::Subscribe((10, 20), 2, 1, Ok(1)),
    Call::Subscribe((10, 20), 2, 2, Ok(2)),
    Call::Tells(
        1,
        &[
            (1, (10, 20), (2, 4)),
            (1, (15, 15), (1, 9)),
            (1, (15, 15), (2, 8)),
        ],
    ),
    Call::Tells(2, &[(1, (10, 20), (2, 4)), (1, (15, 15), (1, 9))]),
];

#[test]
fn what_is_there_is_told_first(rt: HostRuntime) -> Result<(), Fail> {
    go_on(&rt, rt.alloc(), &THERE, &TOLD_FIRST, &[], &[])
}

/// Timeouts after two ticks, in the first one, and never.
static TIMED_OUT: [Call; 13] = [
    Call::Subscribe((10, 20), 2, 2, Ok(1)),
    Call::Subscribe((10, 20), 0, 1, Ok(2)),
    Call::Subscribe((10, 20), 4_294_967_295, 1, Ok(3)),
    Call::Ticks(&[2]),
    Call::Tells(1, &[]),
    Call::Ticks(&[1]),
    Call::Ticks(&[]),
    Call::Adds(&[(2, 1, 1, (10, 10))]),
    Call::Tells(1, &[(3, (10, 20), (0, 0))]),
    Call::Tells(2, &[(3, (10, 20), (0, 0))]),
    Call::Tells(3, &[(1, (10, 10), (2, 1))]),
    Call::Cancel(1, true),
    Call::Misses(1),
];

#[test]
fn timeouts_are_the_last_events(rt: HostRuntime) -> Result<(), Fail> {
    go_on(&rt, rt.alloc(), &[], &TIMED_OUT, &[], &[])
}
