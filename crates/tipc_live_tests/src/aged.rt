//! A frame that arrives once more when it is too old.

ghost use Rattle.tipc_node_lock.specs.Locks.{IsPassOf};

use crate::calling::audits;
use crate::calls::{Call, Called, hear, make, outgoing};
use crate::plays::{Act, after, carry, pass_time};
use std::alloc::Global;
use std::process::Abort;
use std::sync::Wait;
use tipc_live::*;
use tipc_types::*;

/// How many messages a node sends before it waits until they are acknowledged: as many packets as may be unacknowledged.
const ROUND: u32 = 50;

/// How many such rounds there are behind the frame that arrives once more: 30,050 packets, more than may be numbered since it was sent.
const ROUNDS: u32 = 601;

/// A node sends so many messages.
fn send_all<R: Wait + Abort>(rt: &R, alloc: Global, node: &mut Called<'_>)
    requires { IsPassOf node.old.lock node.old.pass }
    ensures { IsPassOf node.new.lock node.new.pass }
{
    for _ in 0..ROUND {
        make(rt, alloc, node, &Call::Send);
    }
}

/// A round: its messages go from the first node to the second, and are acknowledged and taken.
fn talk<R: Wait + Abort>(rt: &R, alloc: Global, one: &mut Called<'_>, two: &mut Called<'_>)
    requires one { IsPassOf one.old.lock one.old.pass }
    requires two { IsPassOf two.old.lock two.old.pass }
    ensures one { IsPassOf one.new.lock one.new.pass }
    ensures two { IsPassOf two.new.lock two.new.pass }
{
    send_all(rt, alloc, one);
    carry(rt, alloc, one, two);
    pass_time(rt, alloc, one, two);
    make(rt, alloc, two, &Call::Take(ROUND));
}

/// All rounds.
fn talk_on<R: Wait + Abort>(rt: &R, alloc: Global, one: &mut Called<'_>, two: &mut Called<'_>)
    requires one { IsPassOf one.old.lock one.old.pass }
    requires two { IsPassOf two.old.lock two.old.pass }
    ensures one { IsPassOf one.new.lock one.new.pass }
    ensures two { IsPassOf two.new.lock two.new.pass }
{
    for _ in 0..ROUNDS {
        talk(rt, alloc, one, two);
    }
}

/// The first frame that leaves a node.
fn first_frame<R: Wait + Abort>(rt: &R, alloc: Global, node: &mut Called<'_>) -> Bytes
    requires { IsPassOf node.old.lock node.old.pass }
    ensures { IsPassOf node.new.lock node.new.pass }
{
    let frames = outgoing(rt, alloc, node);
    let Some(sent) = frames.frames().first() else {
        panic!(rt; "no frame left")
    };
    match Bytes::from_slice(alloc, sent.frame.as_slice()) {
        Ok(frame) => frame,
        Err(NoMemory) => panic!(rt; "no memory"),
    }
}

/// A frame arrives and is acknowledged, all rounds go on, and the frame arrives once more.
pub fn hear_again<R: Wait + Abort>(
    rt: &R,
    alloc: Global,
    one: &mut Called<'_>,
    two: &mut Called<'_>,
)
    requires one { IsPassOf one.old.lock one.old.pass }
    requires two { IsPassOf two.old.lock two.old.pass }
    ensures one { IsPassOf one.new.lock one.new.pass }
    ensures two { IsPassOf two.new.lock two.new.pass }
{
    make(rt, alloc, one, &Call::Send);
    let frame = first_frame(rt, alloc, one);
    hear(rt, alloc, two, 0, frame.as_slice());
    pass_time(rt, alloc, one, two);
    make(rt, alloc, two, &Call::Take(1));
    talk_on(rt, alloc, one, two);
    hear(rt, alloc, two, 0, frame.as_slice());
}

/// Bearer 0 is mended at both nodes, which find each other, and each makes a socket; what left meanwhile arrives, and then a frame is heard again.
static AGED: [Act; 7] = [
    Act::One(Call::Mend(false)),
    Act::Two(Call::Mend(false)),
    Act::PassTime(6),
    Act::One(Call::Socket(false)),
    Act::Two(Call::Socket(true)),
    Act::Carry,
    Act::HearAgain,
];

#[test]
fn a_frame_that_is_too_old_is_found(rt: HostRuntime) {
    let alloc = rt.alloc();
    let nodes = after(&rt, alloc, &AGED);
    assert!(&rt; nodes.len() == 2);
    let last = (nodes[1].heard().len() as u64).saturating_sub(1);
    let expected = Audit::TooOld {
        node: 2,
        number: last,
        count: 30050,
    };
    audits(&rt, alloc, nodes, &expected);
}
