//! Tests of bearers over memory, on one thread and on two.

ghost use Rattle.std.specs.Prelude.{◌≤◌, IsTrue};
ghost use Rattle.tipc_outside.specs.Causes.{Rose};

use std::alloc::Global;
use std::process::Abort;
use std::sync::Wait;
use std::test::Fail;
use std::thread;
use tipc_outside::{Bearer, BearerFault, Heard, Medium, MemoryBearer};
use tipc_types::{Addr, To};

/// The next look at a bearer is answered so, and this stands then where a frame comes.
fn hears<B: Bearer>(
    rt: &impl Abort,
    alloc: Global,
    bearer: &mut B,
    answer: Result<Heard, BearerFault>,
    bytes: &[u8],
) -> Result<(), Fail> {
    let mut into = b"before".to_vec(alloc)?;
    assert!(rt; bearer.receive(&mut into) == answer);
    assert!(rt; into.as_slice() == bytes);
    Ok(())
}

/// A bearer hears these frames, and nothing behind them.
fn hears_all<B: Bearer>(
    rt: &impl Abort,
    alloc: Global,
    bearer: &mut B,
    frames: &[&[u8]],
) -> Result<(), Fail> {
    for frame in frames {
        hears(rt, alloc, bearer, Ok(Heard::Frame), frame)?;
    }
    hears(rt, alloc, bearer, Ok(Heard::Nothing), b"before")
}

/// A frame is sent.
fn sends<B: Bearer>(rt: &impl Abort, bearer: &mut B, to: To, frame: &[u8]) {
    assert!(rt; bearer.send(to, frame) == Ok(()));
}

/// Node 1 sends a frame to node 2 on bearer 0, one to all, and one to an address that no node has, and hears none of them.
fn node_1_sends<R: Wait + Abort>(rt: &R, alloc: Global, medium: &Medium) -> Result<(), Fail> {
    let mut first = MemoryBearer::new(rt, alloc, medium, Addr::node(1), 0, Vec::new(alloc));
    sends(rt, &mut first, To::Node(Addr::node(2)), b"for node 2");
    sends(rt, &mut first, To::All, b"for all");
    sends(rt, &mut first, To::Node(Addr { word: 2 }), b"for nobody");
    hears_all(rt, alloc, &mut first, &[])
}

/// A node hears these frames on a bearer.
fn node_hears<R: Wait + Abort>(
    rt: &R,
    alloc: Global,
    medium: &Medium,
    node: u8,
    bearer: u8,
    frames: &[&[u8]],
) -> Result<(), Fail>
    requires node { (1 ≤ node) × (node ≤ 32) }
    requires bearer { bearer ≤ 1 }
{
    let mut other = MemoryBearer::new(rt, alloc, medium, Addr::node(node), bearer, Vec::new(alloc));
    hears_all(rt, alloc, &mut other, frames)
}

#[test]
fn frames_to_one_node_and_to_all_arrive_whole(rt: HostRuntime) -> Result<(), Fail> {
    let medium = Medium::new(rt.alloc())?;
    node_1_sends(&rt, rt.alloc(), &medium)?;
    node_hears(&rt, rt.alloc(), &medium, 2, 0, &[b"for node 2", b"for all"])?;
    node_hears(&rt, rt.alloc(), &medium, 32, 0, &[b"for all"])?;
    node_hears(&rt, rt.alloc(), &medium, 2, 1, &[])
}

/// Whether a bearer fails to send a frame to all; its count of faults rises then.
fn fails<B: Bearer>(bearer: &mut B, frame: &[u8]) -> bool
    ensures { IsTrue result → Rose (B.faults bearer.old) (B.faults bearer.new) }
{
    bearer.send(To::All, frame) == Err(BearerFault::Failed)
}

/// The first and the third call of a bearer fail, of which the third is a look.
fn fails_at_its_calls<B: Bearer>(
    rt: &impl Abort,
    alloc: Global,
    sender: &mut B,
) -> Result<(), Fail> {
    assert!(rt; fails(sender, b"first"));
    assert!(rt; !fails(sender, b"second"));
    hears(rt, alloc, sender, Err(BearerFault::Failed), b"before")?;
    assert!(rt; !fails(sender, b"fourth"));
    Ok(())
}

#[test]
fn a_bearer_fails_at_its_calls(rt: HostRuntime) -> Result<(), Fail> {
    let alloc = rt.alloc();
    let medium = Medium::new(alloc)?;
    let failing = [1, 3].to_vec(alloc)?;
    let mut sender = MemoryBearer::new(&rt, alloc, &medium, Addr::node(3), 1, failing);
    fails_at_its_calls(&rt, alloc, &mut sender)?;
    node_hears(&rt, alloc, &medium, 4, 1, &[b"second", b"fourth"])
}

/// How many frames each of two threads sends to the other.
const FRAMES: u8 = 100;

/// A bearer, whom it talks to, and the bytes that it heard.
#[derive(Drop)]
struct Talker<B: Bearer + Drop> {
    bearer: B,
    peer: Addr,
    heard: Vec<u8>,
}

impl<B: Bearer + Drop> Talker<B> {
    /// Looks so often for a frame, and keeps what it hears. It gives up at the first fault.
    fn listen(&mut self, alloc: Global, looks: u8) {
        let mut into = Vec::new(alloc);
        for _ in 0..looks {
            if self.bearer.receive(&mut into) == Ok(Heard::Frame)
                && self.heard.extend_from_slice(&into).is_err()
            {
                return;
            }
        }
    }

    /// Sends its frames, each of one byte that numbers it, and looks once after each of them.
    fn talk(mut self, alloc: Global) -> Talker<B> {
        for number in 0..FRAMES {
            if self.bearer.send(To::Node(self.peer), &[number]).is_err() {
                return self;
            }
            self.listen(alloc, 1);
        }
        self
    }
}

#[test]
fn two_threads_hear_each_other_in_order(rt: HostRuntime) -> Result<(), Fail> {
    let alloc = rt.alloc();
    let medium = Medium::new(alloc)?;
    let mut talkers = Vec::new(alloc);
    for (own, peer) in [(1, 2), (2, 1)] {
        let own = Addr::node(own);
        talkers.push(Talker {
            bearer: MemoryBearer::new(&rt, alloc, &medium, own, 0, Vec::new(alloc)),
            peer: Addr::node(peer),
            heard: Vec::new(alloc),
        })?;
    }
    let talked = thread::map_vec(&rt, talkers, &|talker| talker.talk(alloc))?;
    for mut talker in talked {
        talker.listen(alloc, FRAMES);
        assert!(rt; talker.heard.iter().copied().eq(0..FRAMES));
    }
    Ok(())
}
