//! A node with what is needed to call it, and two of them that talk.

ghost use Rattle.std.specs.Prelude.{ℕ, ◌≡◌, ◌≤◌, IfOk, OnErr};
ghost use Rattle.tipc_node.specs.Calls.{CanPerform, Performed};

use std::alloc::Global;
use std::mem;
use tipc_node::{Node, NodeFault};
use tipc_outside::{Outbox, Outgoing};
use tipc_pick::{Chooser, RoundRobin};
use tipc_types::{
    Addr, Answer, Body, By, EventNote, Importance, Message, NoMemory, Scope, ServiceRange,
};

/// The service type that node 2 offers. Types below 64 are reserved.
const SERVICE: u32 = 100;

/// How often two nodes hand each other what they sent: often enough for a link to come up, and for a message.
const ROUNDS: u32 = 8;

/// A node with its one caller: what it sent and nobody has fetched yet, how often it was called, and how many frames
/// arrived. The chooser says to which of several ports a message by name goes.
#[derive(Drop)]
struct Station {
    node: Node,
    chooser: Chooser<RoundRobin>,
    out: Outbox,
    calls: u64,
    arrivals: u64,
}

impl Station {
    /// A node of this number in its first boot, which nobody has called.
    fn new(alloc: Global, number: u8) -> Result<Station, NoMemory>
        requires { (1 ≤ number) × (number ≤ 32) }
    {
        Ok(Station {
            node: Node::new(alloc, Addr::node(number), 1)?,
            chooser: Chooser::new(RoundRobin),
            out: Outbox::new(alloc),
            calls: 0,
            arrivals: 0,
        })
    }

    /// Who makes the next call. The journal of the node keeps it with each step.
    fn by(&self) -> By
        ensures { result ≡ record { stamp = self.now.calls; caller = 1; call = self.now.calls } }
    {
        By {
            stamp: self.calls,
            caller: 1,
            call: self.calls,
        }
    }

    /// Makes a call of the node, and puts aside what it sends: just what the node promises.
    fn call(&mut self, alloc: Global, call: EventNote) -> Result<Answer, NodeFault>
        requires can { CanPerform call }
        ensures performed { IfOk result (λ answer. Performed self.old.node
            (record { stamp = self.old.calls; caller = 1; call = self.old.calls }) call
            self.new.node self.old.out self.new.out answer) }
        ensures err { OnErr result (self.new.node ≡ self.old.node) }
    {
        let by = self.by();
        self.calls = self.calls.saturating_add(1);
        self.node
            .perform(alloc, by, call, &mut self.chooser, &mut self.out)
    }

    /// A frame arrives at the node. It is taken or ignored, which the answer would tell.
    fn hear(&mut self, alloc: Global, sent: &Outgoing) -> Result<(), NodeFault> {
        let (by, number) = (self.by(), self.arrivals);
        self.calls = self.calls.saturating_add(1);
        self.arrivals = self.arrivals.saturating_add(1);
        self.node.arrive(
            alloc,
            by,
            sent.bearer,
            number,
            sent.frame.as_slice(),
            &mut self.out,
        )?;
        Ok(())
    }

    /// What the node sent since this was asked last.
    fn sent(&mut self, alloc: Global) -> Vec<Outgoing> {
        mem::replace(&mut self.out, Outbox::new(alloc)).into_frames()
    }

    /// Makes a socket, and answers its port: None where the node has 256 already.
    fn socket(&mut self, alloc: Global) -> Result<Option<u32>, NodeFault> {
        match self.call(alloc, EventNote::Socket)? {
            Answer::Socket(port) => Ok(Some(port)),
            _ => Ok(None),
        }
    }

    /// Offers each instance of the service from 0 to 9 at a port, to the whole cluster.
    fn publish(&mut self, alloc: Global, port: u32) -> Result<Answer, NodeFault> {
        // A range whose bounds are in order is never bad, and the check knows it.
        let Ok(range) = ServiceRange::new(SERVICE, 0, 9) else {
            unreachable!()
        };
        self.call(
            alloc,
            EventNote::Publish {
                port,
                range,
                scope: Scope::Cluster,
                key: 1,
            },
        )
    }

    /// Sends a text from a port to whoever offers instance 7 of the service.
    fn send(&mut self, alloc: Global, port: u32, text: &[u8]) -> Result<Answer, NodeFault> {
        let body = Body::from_slice(alloc, text)?;
        self.call(
            alloc,
            EventNote::SendName {
                port,
                kind: SERVICE,
                instance: 7,
                importance: Importance::Low,
                body,
            },
        )
    }

    /// Takes the first message that waits at a port, if any does.
    fn receive(&mut self, alloc: Global, port: u32) -> Result<Option<Body>, NodeFault> {
        match self.call(alloc, EventNote::Receive { port })? {
            Answer::Received(Message::Payload { body, .. }) => Ok(Some(body)),
            _ => Ok(None),
        }
    }
}

/// All that one node sent arrives at the other one, in order.
fn hand_over(alloc: Global, from: &mut Station, to: &mut Station) -> Result<(), NodeFault> {
    for sent in from.sent(alloc).as_slice() {
        to.hear(alloc, sent)?;
    }
    Ok(())
}

/// Two nodes hand each other what they send. Here nothing is lost; a program may lose, repeat and exchange frames.
fn exchange(alloc: Global, one: &mut Station, other: &mut Station) -> Result<(), NodeFault> {
    for _ in 0..ROUNDS {
        hand_over(alloc, one, other)?;
        hand_over(alloc, other, one)?;
    }
    Ok(())
}

/// Node 2 offers a service and node 1 sends a text to it by name: what node 2 receives, if anything.
///
/// # Errors
///
/// NoMemory: no journal gets full by so few calls.
pub fn talk(alloc: Global, text: &[u8]) -> Result<Option<Body>, NodeFault> {
    let mut sender = Station::new(alloc, 1)?;
    let mut receiver = Station::new(alloc, 2)?;
    let (Some(from), Some(to)) = (sender.socket(alloc)?, receiver.socket(alloc)?) else {
        return Ok(None);
    };
    receiver.publish(alloc, to)?;
    sender.call(alloc, EventNote::Mend { bearer: 0 })?;
    receiver.call(alloc, EventNote::Mend { bearer: 0 })?;
    exchange(alloc, &mut sender, &mut receiver)?;
    sender.send(alloc, from, text)?;
    exchange(alloc, &mut sender, &mut receiver)?;
    receiver.receive(alloc, to)
}
