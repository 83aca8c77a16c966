//! Tests of one thread with several passes of a locked node.

ghost use Rattle.std.specs.Prelude.{◌≡◌, ◌≤◌, false, length, replicate, All, IfOk};
ghost use Rattle.tipc_stamp.specs.Seats.{new_seat};
ghost use Rattle.tipc_node.specs.Calls.{CanPerform};
ghost use Rattle.tipc_node_lock.specs.Locks.{IsPassOf};
ghost use Rattle.tipc_node_lock.specs.Sections.{is_receive};

use crate::readings::{are_made_by, are_stamped_from_0};
use std::alloc::Global;
use std::process::Abort;
use std::sync::Wait;
use std::test::Fail;
use tipc_node::NodeFault;
use tipc_node_lock::*;
use tipc_pick::{Chooser, RoundRobin};
use tipc_stamp::{StampSeat, Stamps};
use tipc_types::*;

/// Node 1 in its first boot behind a lock, with as many callers as there are new seats.
pub fn locked(
    alloc: Global,
    stamps: &Stamps,
    callers: u32,
    seats: Vec<StampSeat>,
) -> Result<(NodeLock<'_, RoundRobin>, Vec<Pass>), NoMemory>
    requires callers { 1 ≤ callers }
    requires seats { seats.items ≡ replicate callers (new_seat stamps.now) }
    ensures { IfOk result (λ r. All (IsPassOf r.0) r.1.items × (length r.1.items ≡ callers)) }
{
    NodeLock::new(
        alloc,
        Addr::node(1),
        1,
        Chooser::new(RoundRobin),
        callers,
        stamps,
        seats,
    )
}

/// The call is answered so.
pub fn answers<R: Wait + Abort>(
    rt: &R,
    alloc: Global,
    lock: &NodeLock<'_, RoundRobin>,
    pass: &mut Pass,
    call: EventNote,
    answer: Answer,
)
    requires pass { IsPassOf lock.now pass.old }
    requires can { CanPerform call }
    requires locked { is_receive call ≡ false }
    ensures { IsPassOf lock.now pass.new }
{
    match lock.perform(rt, alloc, pass, call) {
        Ok(told) => assert!(rt; told == answer),
        Err(_) => panic!(rt; "not made"),
    }
}

/// Each of two callers makes a socket, and sees then that two stamps are drawn.
fn make_sockets<R: Wait + Abort>(
    rt: &R,
    alloc: Global,
    lock: &NodeLock<'_, RoundRobin>,
    passes: &mut [Pass],
)
    requires { All (IsPassOf lock.now) passes.old × (length passes.old ≡ 2) }
{
    answers(
        rt,
        alloc,
        lock,
        &mut passes[0],
        EventNote::Socket,
        Answer::Socket(1),
    );
    answers(
        rt,
        alloc,
        lock,
        &mut passes[1],
        EventNote::Socket,
        Answer::Socket(2),
    );
    assert!(rt; lock.seen(&mut passes[0]) == 2);
    assert!(rt; lock.seen(&mut passes[1]) == 2);
}

/// The last pass, which is taken away.
fn last_of(rt: &impl Abort, passes: &mut Vec<Pass>) -> Pass {
    match passes.pop() {
        Some(pass) => pass,
        None => panic!(rt; "no pass is left"),
    }
}

/// Lock and passes come back: there is one pass too few.
fn stays_locked<'s>(
    rt: &impl Abort,
    lock: NodeLock<'s, RoundRobin>,
    passes: Vec<Pass>,
) -> (NodeLock<'s, RoundRobin>, Vec<Pass>) {
    match lock.into_locked(passes) {
        Ok(_) => panic!(rt; "one pass was enough"),
        Err(back) => back,
    }
}

/// The node comes out of its lock with its passes.
pub fn unlocked(
    rt: &impl Abort,
    lock: NodeLock<'_, RoundRobin>,
    passes: Vec<Pass>,
) -> LockedNode<RoundRobin> {
    match lock.into_locked(passes) {
        Ok(locked) => locked,
        Err(_) => panic!(rt; "a pass is missing"),
    }
}

/// Takes the node out of its lock with all passes, but not without the last.
fn take_out(
    rt: &impl Abort,
    lock: NodeLock<'_, RoundRobin>,
    passes: Vec<Pass>,
) -> Result<LockedNode<RoundRobin>, NoMemory> {
    let mut few = passes;
    let last = last_of(rt, &mut few);
    let (lock, back) = stays_locked(rt, lock, few);
    let mut all = back;
    all.push(last)?;
    Ok(unlocked(rt, lock, all))
}

/// The node comes out of its lock with both passes, and shows both calls.
fn comes_out(
    rt: &impl Abort,
    alloc: Global,
    lock: NodeLock<'_, RoundRobin>,
    passes: Vec<Pass>,
) -> Result<(), NoMemory> {
    let locked = take_out(rt, lock, passes)?;
    shows_two_steps(rt, alloc, &locked)
}

/// Two callers, each with a seat, make their sockets.
fn two_call<R: Wait + Abort>(
    rt: &R,
    alloc: Global,
    stamps: &Stamps,
    seats: Vec<StampSeat>,
) -> Result<(), NoMemory>
    requires { seats.items ≡ replicate 2 (new_seat stamps.now) }
{
    let (lock, mut passes) = locked(alloc, stamps, 2, seats)?;
    make_sockets(rt, alloc, &lock, passes.as_mut_slice());
    comes_out(rt, alloc, lock, passes)
}

#[test]
fn two_callers_make_a_socket_each(rt: HostRuntime) -> Result<(), Fail> {
    let alloc = rt.alloc();
    let (stamps, seats) = Stamps::new(alloc, 2)?;
    two_call(&rt, alloc, &stamps, seats)?;
    Ok(())
}

/// Two steps stand in the journal, with the stamps 0 and 1, and each pass has its own.
fn shows_two_steps(
    rt: &impl Abort,
    alloc: Global,
    locked: &LockedNode<RoundRobin>,
) -> Result<(), NoMemory> {
    let journal = locked.node().journal();
    assert!(rt; journal.len() == 4);
    assert!(rt; are_stamped_from_0(alloc, journal, 2)?);
    for pass in locked.passes() {
        assert!(rt; pass.made().len() == 1 && are_made_by(journal, pass));
    }
    Ok(())
}

/// So many frames leave, and the pass has been handed so many in all.
fn hands<R: Wait + Abort>(
    rt: &R,
    alloc: Global,
    lock: &NodeLock<'_, RoundRobin>,
    pass: &mut Pass,
    frames: usize,
    handed: u64,
)
    requires { IsPassOf lock.now pass.old }
    ensures { IsPassOf lock.now pass.new }
{
    let leaving = lock.outgoing(rt, alloc, pass);
    assert!(rt; leaving.frames().len() == frames && !leaving.lost());
    assert!(rt; pass.handed() == handed);
}

/// Both bearers are mended, and a tick passes: what leaves then is handed over, each frame once.
fn ask_and_hand<R: Wait + Abort>(
    rt: &R,
    alloc: Global,
    lock: &NodeLock<'_, RoundRobin>,
    pass: &mut Pass,
)
    requires { IsPassOf lock.now pass.old }
{
    hands(rt, alloc, lock, pass, 0, 0);
    answers(
        rt,
        alloc,
        lock,
        pass,
        EventNote::Mend { bearer: 0 },
        Answer::Done,
    );
    answers(
        rt,
        alloc,
        lock,
        pass,
        EventNote::Mend { bearer: 1 },
        Answer::Done,
    );
    hands(rt, alloc, lock, pass, 2, 2);
    hands(rt, alloc, lock, pass, 0, 2);
    answers(rt, alloc, lock, pass, EventNote::Tick, Answer::Done);
    hands(rt, alloc, lock, pass, 2, 4);
    assert!(rt; pass.made().len() == 3 && !pass.is_full());
}

#[test]
fn what_leaves_is_handed_over_once(rt: HostRuntime) -> Result<(), Fail> {
    let alloc = rt.alloc();
    let (stamps, seats) = Stamps::new(alloc, 1)?;
    let (lock, mut passes) = locked(alloc, &stamps, 1, seats)?;
    ask_and_hand(&rt, alloc, &lock, &mut passes[0]);
    Ok(())
}

/// A frame that is too short for its envelope arrives.
fn hears_nothing<R: Wait + Abort>(
    rt: &R,
    alloc: Global,
    lock: &NodeLock<'_, RoundRobin>,
    pass: &mut Pass,
    frame: &[u8],
)
    requires { IsPassOf lock.now pass.old }
    ensures { IsPassOf lock.now pass.new }
{
    match lock.arrive(rt, alloc, pass, 0, frame) {
        Ok(arrival) => assert!(rt; arrival == Arrival::Ignored(Why::Cut)),
        Err(_) => panic!(rt; "not heard"),
    }
}

#[test]
fn each_frame_that_arrives_is_kept(rt: HostRuntime) -> Result<(), Fail> {
    let alloc = rt.alloc();
    let (stamps, seats) = Stamps::new(alloc, 1)?;
    let (lock, mut passes) = locked(alloc, &stamps, 1, seats)?;
    hears_nothing(&rt, alloc, &lock, &mut passes[0], &[1, 2, 3]);
    hears_nothing(&rt, alloc, &lock, &mut passes[0], &[4]);
    let locked = unlocked(&rt, lock, passes);
    shows_two_frames(&rt, &locked);
    Ok(())
}

/// Two arrivals stand in the journal, of the frames that are kept, by caller 1.
fn shows_two_frames(rt: &impl Abort, locked: &LockedNode<RoundRobin>) {
    locked.told();
    assert!(rt; locked.answered(1) == 2 && locked.answered(2) == 0);
    let heard = locked.heard();
    assert!(rt; heard.len() == 2);
    assert!(rt;
        heard[0].as_slice() == [1, 2, 3].as_slice() && heard[1].as_slice() == [4].as_slice()
    );
    for pass in locked.passes() {
        assert!(rt; are_made_by(locked.node().journal(), pass));
    }
}

/// How many ticks fill a journal, of two entries each: 65,536 of its 1,048,576 entries stay free.
const MOST_TICKS: u32 = 491_521;

/// Ticks until a tick isn't made, and says why that was.
fn ticks_until_it_stops<R: Wait>(
    rt: &R,
    alloc: Global,
    lock: &NodeLock<'_, RoundRobin>,
    pass: &mut Pass,
) -> Option<LockFault>
    requires { IsPassOf lock.now pass.old }
    ensures { IsPassOf lock.now pass.new }
{
    for _ in 0..=MOST_TICKS {
        if let Err(fault) = lock.perform(rt, alloc, pass, EventNote::Tick) {
            return Some(fault);
        }
    }
    None
}

#[test]
fn a_full_journal_is_marked(rt: HostRuntime) -> Result<(), Fail> {
    let alloc = rt.alloc();
    let (stamps, seats) = Stamps::new(alloc, 1)?;
    let (lock, mut passes) = locked(alloc, &stamps, 1, seats)?;
    let pass = &mut passes[0];
    let stopped = ticks_until_it_stops(&rt, alloc, &lock, pass);
    assert!(rt; stopped == Some(LockFault::Node(NodeFault::JournalFull)));
    assert!(rt; pass.is_full() && pass.made().len() == MOST_TICKS as usize);
    assert!(rt; lock.seen(pass) == u64::from(MOST_TICKS));
    Ok(())
}
