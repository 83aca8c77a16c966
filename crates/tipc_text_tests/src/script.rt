//! Tests of lines that are read. (Those that are refused stand in rows/bad_lines.table.)

ghost use Rattle.std.specs.Prelude.{◌≤◌};

use std::alloc::Global;
use std::process::Abort;
use std::test::Fail;
use tipc_script::{Command, Line, LineFault, NodeToken, parse_line};
use tipc_types::{Addr, Body, EventNote, Importance, PortId, Scope, ServiceRange, Subscription};

/// What is read of a short line.
fn read(rt: &impl Abort, alloc: Global, line: &[u8]) -> Result<Command, LineFault> {
    assert!(rt; line.len() < 200);
    parse_line(alloc, line)
}

/// A text is read as this line, which asks something of these nodes.
fn reads(
    rt: &impl Abort,
    alloc: Global,
    text: &[u8],
    line: &Line,
    nodes: &[NodeToken],
) -> Result<(), Fail> {
    let command = read(rt, alloc, text).ok().ok_or("refused")?;
    assert!(rt; command.line == *line);
    assert!(rt; command.nodes.as_slice() == nodes);
    Ok(())
}

/// Reads a line, which is to be this one and to ask something of these nodes.
fn is_read_as(
    rt: &impl Abort,
    alloc: Global,
    text: &[u8],
    line: Line,
    nodes: &[NodeToken],
) -> Result<(), Fail> {
    reads(rt, alloc, text, &line, nodes)
}

/// A token that names a node which has to be there.
fn old_node(place: u32, node: u8) -> NodeToken {
    NodeToken {
        place,
        node,
        there: true,
    }
}

/// A call of a node.
fn call(node: u8, call: EventNote) -> Line {
    Line::Call { node, call }
}

#[test]
fn remarks_ask_for_nothing(rt: HostRuntime) -> Result<(), Fail> {
    for text in [b"".as_slice(), b"#", b"# node 1"] {
        is_read_as(&rt, rt.alloc(), text, Line::Nothing, &[])?;
    }
    Ok(())
}

#[test]
fn lines_of_nodes_are_read(rt: HostRuntime) -> Result<(), Fail> {
    let new = NodeToken {
        place: 6,
        node: 32,
        there: false,
    };
    let node = Line::Node { node: 32 };
    is_read_as(&rt, rt.alloc(), b"node 32", node, &[new])?;
    let tick = call(7, EventNote::Tick);
    is_read_as(&rt, rt.alloc(), b"tick 7", tick, &[old_node(6, 7)])?;
    let restart = Line::Restart { node: 10 };
    is_read_as(&rt, rt.alloc(), b"restart 10", restart, &[old_node(9, 10)])?;
    let links = Line::Links { node: 2 };
    is_read_as(&rt, rt.alloc(), b"links 2", links, &[old_node(7, 2)])?;
    let table = Line::Table { node: 2 };
    is_read_as(&rt, rt.alloc(), b"table 2", table, &[old_node(7, 2)])
}

#[test]
fn lines_of_subscriptions_are_read(rt: HostRuntime) -> Result<(), Fail> {
    let subscription = Subscription {
        range_kind: 100,
        lower: 10,
        upper: 20,
        timeout: 4_294_967_295,
        filter: 2,
        handle: [0; 8],
    };
    let subscribe = call(3, EventNote::Subscribe { subscription });
    let text = b"subscribe 3 100 10 20 4294967295 service";
    is_read_as(&rt, rt.alloc(), text, subscribe, &[old_node(11, 3)])?;
    let event = call(3, EventNote::NextEvent { number: 1 });
    is_read_as(&rt, rt.alloc(), b"event 3 1", event, &[old_node(7, 3)])?;
    let cancel = call(3, EventNote::Cancel { number: 1 });
    is_read_as(&rt, rt.alloc(), b"cancel 3 1", cancel, &[old_node(8, 3)])
}

#[test]
fn ranges_without_instances_are_told(rt: HostRuntime) -> Result<(), Fail> {
    let text = b"subscribe 3 100 20 10 0 ports";
    let bad = Line::BadRange { node: 3 };
    is_read_as(&rt, rt.alloc(), text, bad, &[old_node(11, 3)])?;
    let text = b"publish 2 7 100 9 0 zone 3";
    let bad = Line::BadRange { node: 2 };
    is_read_as(&rt, rt.alloc(), text, bad, &[old_node(9, 2)])
}

#[test]
fn lines_of_links_are_read(rt: HostRuntime) -> Result<(), Fail> {
    let mend = call(32, EventNote::Mend { bearer: 0 });
    is_read_as(&rt, rt.alloc(), b"mend 32 0", mend, &[old_node(6, 32)])?;
    let cut = call(1, EventNote::Cut { bearer: 0 });
    is_read_as(&rt, rt.alloc(), b"cut 1 0", cut, &[old_node(5, 1)])?;
    let link = Line::Link {
        first: 10,
        second: 2,
        bearer: 0,
    };
    let nodes = [old_node(6, 10), old_node(9, 2)];
    is_read_as(&rt, rt.alloc(), b"link 10 2 0", link, nodes.as_slice())
}

#[test]
fn lines_of_frames_are_read(rt: HostRuntime) -> Result<(), Fail> {
    let arrive = Line::Arrive {
        node: 2,
        bearer: 0,
        frame: 1_000_000,
    };
    let nodes = [old_node(8, 2)];
    is_read_as(
        &rt,
        rt.alloc(),
        b"arrive 2 0 1000000",
        arrive,
        nodes.as_slice(),
    )?;
    let show = Line::Show {
        bearer: 0,
        frame: 1_000_000,
    };
    is_read_as(&rt, rt.alloc(), b"show 0 1000000", show, &[])?;
    is_read_as(&rt, rt.alloc(), b"air 0", Line::Air { bearer: 0 }, &[])?;
    is_read_as(&rt, rt.alloc(), b"pump 0", Line::Pump { bearer: 0 }, &[])
}

#[test]
fn rounds_are_read(rt: HostRuntime) -> Result<(), Fail> {
    for (text, rounds) in [(b"settle 0".as_slice(), 0), (b"settle 1000000", 1_000_000)] {
        is_read_as(&rt, rt.alloc(), text, Line::Settle { rounds }, &[])?;
    }
    Ok(())
}

#[test]
fn lines_of_many_messages_are_read(rt: HostRuntime) -> Result<(), Fail> {
    let drain = Line::Drain { node: 3, port: 0 };
    is_read_as(&rt, rt.alloc(), b"drain 3 0", drain, &[old_node(7, 3)])?;
    let burst = Line::Burst {
        node: 1,
        port: 7,
        to_node: 2,
        to_port: 9,
        times: 1_000_000,
        body: Body::from_slice(rt.alloc(), b"a")?,
    };
    let nodes = [old_node(7, 1), old_node(11, 2)];
    let text = b"burst 1 7 2 9 1000000 =a";
    is_read_as(&rt, rt.alloc(), text, burst, nodes.as_slice())
}

/// A message from port 7 to port 9 of node 2.
fn to_port(alloc: Global) -> Result<EventNote, Fail> {
    Ok(EventNote::SendPort {
        port: 7,
        to: PortId {
            node: Addr::node(2),
            port: 9,
        },
        importance: Importance::High,
        body: Body::from_slice(alloc, b"a")?,
    })
}

/// A message from port 7 to the highest instance of service type 0.
fn by_name(alloc: Global) -> Result<EventNote, Fail> {
    Ok(EventNote::SendName {
        port: 7,
        kind: 0,
        instance: u32::MAX,
        importance: Importance::Low,
        body: Body::from_slice(alloc, b"hello")?,
    })
}

/// A message from port 7 to a range without instances.
fn to_all(alloc: Global) -> Result<EventNote, Fail> {
    Ok(EventNote::Multicast {
        port: 7,
        kind: 100,
        lower: 6,
        upper: 5,
        importance: Importance::Medium,
        body: Body::from_slice(alloc, b"a")?,
    })
}

#[test]
fn sends_are_read_with_their_bodies(rt: HostRuntime) -> Result<(), Fail> {
    let nodes = [old_node(6, 1)];
    let send = call(1, to_port(rt.alloc())?);
    let text = b"send 1 7 port 2 9 high =a";
    is_read_as(&rt, rt.alloc(), text, send, nodes.as_slice())?;
    let send = call(1, by_name(rt.alloc())?);
    let text = b"send 1 7 name 0 4294967295 low =hello";
    is_read_as(&rt, rt.alloc(), text, send, nodes.as_slice())?;
    let send = call(1, to_all(rt.alloc())?);
    let text = b"send 1 7 cast 100 6 5 medium =a";
    is_read_as(&rt, rt.alloc(), text, send, nodes.as_slice())
}

/// A message that node 1 sends up to two times.
fn twice(call: EventNote) -> Line {
    Line::Repeat {
        times: 2,
        node: 1,
        call,
    }
}

#[test]
fn sends_that_are_repeated_are_read(rt: HostRuntime) -> Result<(), Fail> {
    let nodes = [old_node(15, 1)];
    let repeat = twice(to_port(rt.alloc())?);
    let text = b"repeat 2 send 1 7 port 2 9 high =a";
    is_read_as(&rt, rt.alloc(), text, repeat, nodes.as_slice())?;
    let repeat = twice(by_name(rt.alloc())?);
    let text = b"repeat 2 send 1 7 name 0 4294967295 low =hello";
    is_read_as(&rt, rt.alloc(), text, repeat, nodes.as_slice())?;
    let repeat = twice(to_all(rt.alloc())?);
    let text = b"repeat 2 send 1 7 cast 100 6 5 medium =a";
    is_read_as(&rt, rt.alloc(), text, repeat, nodes.as_slice())
}

#[test]
fn lines_of_services_are_read(rt: HostRuntime) -> Result<(), Fail> {
    let close = call(2, EventNote::Close { port: 1 });
    is_read_as(&rt, rt.alloc(), b"close 2 1", close, &[old_node(7, 2)])?;
    let range = ServiceRange::new(100, 0, 9).ok().ok_or("no range")?;
    let rows = [
        (b"publish 1 7 100 0 9 zone 3".as_slice(), Scope::Zone),
        (b"publish 1 7 100 0 9 cluster 3", Scope::Cluster),
        (b"publish 1 7 100 0 9 node 3", Scope::Node),
    ];
    for (text, scope) in rows {
        let note = EventNote::Publish {
            port: 7,
            range,
            scope,
            key: 3,
        };
        let publish = call(1, note);
        is_read_as(&rt, rt.alloc(), text, publish, &[old_node(9, 1)])?;
    }
    let withdraw = call(1, EventNote::Withdraw { port: 7, key: 3 });
    let nodes = [old_node(10, 1)];
    is_read_as(
        &rt,
        rt.alloc(),
        b"withdraw 1 7 3",
        withdraw,
        nodes.as_slice(),
    )
}
