//! A bearer of a test, which gives one frame and keeps those that it is asked to send, and a run over such bearers.

ghost use Rattle.std.specs.Prelude.{◌≡◌, ◌+◌, length, replicate};
ghost use Rattle.tipc_stamp.specs.Seats.{new_seat};
ghost use Rattle.tipc_work_tests.specs.declared.runs.TheConstants.{PASSES_OF_ONE_EACH};

use crate::runs::{ONE_EACH, PASSES_OF_ONE_EACH, run};
use std::alloc::Global;
use std::process::Abort;
use std::sync::Wait;
use std::test::Fail;
use std::thread::Threads;
use tipc_journal::Entry;
use tipc_node_lock::LockedNode;
use tipc_outside::{Bearer, BearerFault, FreeGate, Heard};
use tipc_pick::RoundRobin;
use tipc_stamp::{StampSeat, Stamps};
use tipc_types::*;

/// A request of node 2 to all, as the executable rules of another program spell it.
const REQUEST: [u8; 56] = [
    0, 0, 0, 0, 0, 0, 0, 1, 0, 0, 0, 0, 0, 0, 0, 0, 0x5b, 0x50, 0, 0x28, 0, 0, 0, 0, 0, 0, 0, 0, 1,
    0, 0x10, 2, 0, 0, 0x12, 0x67, 0, 0, 0, 0, 0, 0, 0, 0, 0, 0, 0, 0, 0, 0, 0, 0, 0, 0, 0, 0,
];

/// The response of node 1 to it, as that program spells it.
const RESPONSE: [u8; 56] = [
    0, 0, 0, 0, 0, 0, 0, 1, 0, 0, 0, 0, 0, 0, 0, 0, 0x5b, 0x50, 0, 0x28, 0x20, 0, 0, 0, 0, 0, 0, 0,
    1, 0, 0x10, 1, 0, 0, 0x12, 0x67, 0, 0, 0, 0, 0, 0, 0, 0, 0, 0, 0, 0, 0, 0, 0, 0, 0, 0, 0, 0,
];

/// A frame that a bearer was asked to send.
#[derive(Drop)]
struct Kept {
    to: To,
    frame: Bytes,
}

/// A bearer that gives a frame at its first look, if it has one, and keeps those that it is asked to send.
#[derive(Drop)]
pub struct OwnBearer {
    alloc: Global,
    frame: Option<Bytes>,
    kept: Vec<Kept>,
    tried: u64,
    given: u64,
}

impl OwnBearer {
    /// A bearer that has this frame.
    fn new(alloc: Global, frame: Option<Bytes>) -> OwnBearer {
        OwnBearer {
            alloc,
            frame,
            kept: Vec::new(alloc),
            tried: 0,
            given: 0,
        }
    }

    /// Keeps a frame.
    fn keep(&mut self, to: To, frame: &[u8]) -> Result<(), NoMemory>
        ensures { (self.new.tried ≡ self.old.tried) × (self.new.given ≡ self.old.given) }
    {
        let frame = Bytes::from_slice(self.alloc, frame)?;
        self.kept.push(Kept { to, frame })?;
        Ok(())
    }

    /// Whether it was asked to send this frame to that node.
    fn was_asked(&self, to: To, frame: &[u8]) -> bool {
        self.kept
            .iter()
            .any(|kept| kept.to == to && kept.frame.as_slice() == frame)
    }
}

impl Bearer for OwnBearer {
    ghost faults = { λ b. 0 };

    ghost tried = { λ b. b.tried };

    ghost given = { λ b. b.given };

    fn send(&mut self, to: To, frame: &[u8]) -> Result<(), BearerFault> {
        self.tried = self.tried.saturating_add(1);
        match self.keep(to, frame) {
            Ok(()) => Ok(()),
            Err(NoMemory) => Err(BearerFault::NoMemory),
        }
    }

    fn receive(&mut self, into: &mut Vec<u8>) -> Result<Heard, BearerFault> {
        let Some(frame) = self.frame.take() else {
            return Ok(Heard::Nothing)
        };
        into.clear();
        match into.extend_from_slice(frame.as_slice()) {
            Ok(()) => {
                self.given = self.given.saturating_add(1);
                Ok(Heard::Frame)
            }
            Err(_) => Err(BearerFault::NoMemory),
        }
    }
}

/// Adds a bearer that has this frame.
fn add(rt: &impl Abort, alloc: Global, bearers: &mut Vec<OwnBearer>, frame: Option<Bytes>)
    ensures { length bearers.new.items ≡ length bearers.old.items + 1 }
{
    match bearers.push(OwnBearer::new(alloc, frame)) {
        Ok(()) => {}
        Err(_) => panic!(rt; "no memory"),
    }
}

/// The bearers of two nodes, of which the first has this request.
fn bearers(rt: &impl Abort, alloc: Global, request: Bytes) -> Vec<OwnBearer>
    ensures { length result.items ≡ 4 }
{
    let mut bearers = Vec::new(alloc);
    add(rt, alloc, &mut bearers, Some(request));
    add(rt, alloc, &mut bearers, None);
    add(rt, alloc, &mut bearers, None);
    add(rt, alloc, &mut bearers, None);
    bearers
}

/// Whether a step of a journal is the first arrival, on bearer 0.
fn is_first_arrival(entry: &Entry) -> bool {
    match entry {
        Entry::Step { event, .. } => *event
            == EventNote::Arrive {
                bearer: 0,
                number: 0,
            },
        _ => false,
    }
}

/// The request arrived at a node as the first frame, byte for byte.
fn heard_it(rt: &impl Abort, node: &LockedNode<RoundRobin>) {
    assert!(rt; node.node().journal().iter().any(is_first_arrival));
    let heard = node.heard();
    assert!(rt; heard.len() == 1 && heard[0].as_slice() == REQUEST.as_slice());
}

/// The response was sent on a bearer to node 2, byte for byte.
fn answered_it(rt: &impl Abort, bearer: &OwnBearer) {
    assert!(rt; bearer.was_asked(To::Node(Addr::node(2)), RESPONSE.as_slice()));
}

/// The first of what is left.
fn first<'a, T>(rt: &impl Abort, all: &'a [T]) -> &'a T {
    match all.first() {
        Some(one) => one,
        None => panic!(rt; "nothing is left"),
    }
}

/// Runs the plan over bearers of which the first gives a request: it arrives, and the response is sent there.
fn run_answering<R: Threads + Wait + Abort + Sync>(
    rt: &R,
    alloc: Global,
    stamps: &Stamps,
    seats: Vec<StampSeat>,
    request: Bytes,
)
    requires { seats.items ≡ replicate PASSES_OF_ONE_EACH (new_seat stamps.now) }
{
    let bearers = bearers(rt, alloc, request);
    let left = run(rt, alloc, &ONE_EACH, stamps, seats, bearers, &FreeGate);
    heard_it(rt, first(rt, left.nodes.as_slice()));
    answered_it(rt, first(rt, left.bearers.as_slice()));
    assert!(rt; !left.failed);
}

#[test]
fn a_request_is_answered_on_its_bearer(rt: HostRuntime) -> Result<(), Fail> {
    let request = Bytes::from_slice(rt.alloc(), &REQUEST)?;
    let (stamps, seats) = Stamps::new(rt.alloc(), PASSES_OF_ONE_EACH)?;
    run_answering(&rt, rt.alloc(), &stamps, seats, request);
    Ok(())
}
