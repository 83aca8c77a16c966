//! A test of several threads that call one node at the same time.

ghost use Rattle.std.specs.Prelude.{◌≡◌, false, replicate, All, IfOk};
ghost use Rattle.tipc_stamp.specs.Seats.{new_seat};
ghost use Rattle.tipc_lock_tests.specs.declared.crowds.TheConstants.{CALLERS};
ghost use Rattle.tipc_node.specs.Calls.{CanPerform};
ghost use Rattle.tipc_node_lock.specs.Locks.{IsPassOf};
ghost use Rattle.tipc_node_lock.specs.Sections.{is_receive};

use crate::callers::{locked, unlocked};
use crate::readings::{are_made_by, are_stamped_from_0, count_steps};
use std::alloc::Global;
use std::process::Abort;
use std::sync::Wait;
use std::test::Fail;
use std::thread;
use std::thread::Threads;
use tipc_node_lock::*;
use tipc_pick::RoundRobin;
use tipc_stamp::{StampSeat, Stamps};
use tipc_types::*;

/// How many threads call the node.
const CALLERS: u32 = 8;

/// How many locked calls each of them makes. (A longer form of this test makes 10,000 each.)
const CALLS: u32 = 500;

/// The locked call that a caller makes as its so many-th: a socket first, then it sends a message to one of the sockets, and a tick passes.
fn call_of(alloc: Global, number: u32) -> Result<EventNote, NoMemory>
    ensures { IfOk result (λ call. CanPerform call × (is_receive call ≡ false)) }
{
    if number == 0 {
        return Ok(EventNote::Socket);
    }
    if number % 8 == 0 {
        return Ok(EventNote::Tick);
    }
    Ok(EventNote::SendPort {
        port: 1 + number % CALLERS,
        to: PortId {
            node: Addr::node(1),
            port: 1 + number % CALLERS,
        },
        importance: Importance::Low,
        body: Body::from_slice(alloc, &number.to_be_bytes())?,
    })
}

/// Makes the next locked call of a caller, and receives at each port whose socket it made.
fn call_once<R: Wait>(
    rt: &R,
    alloc: Global,
    lock: &NodeLock<'_, RoundRobin>,
    pass: &mut Pass,
    number: u32,
) -> Result<(), NoMemory>
    requires { IsPassOf lock.now pass.old }
    ensures { IsPassOf lock.now pass.new }
{
    let call = call_of(alloc, number)?;
    let _ = lock.perform(rt, alloc, pass, call);
    for port in 1..=CALLERS {
        let _ = lock.receive(rt, pass, port);
    }
    Ok(())
}

/// Makes the calls of a caller, and gives its pass back.
fn call_on<R: Wait>(
    rt: &R,
    alloc: Global,
    lock: &NodeLock<'_, RoundRobin>,
    mut pass: Pass,
    calls: u32,
) -> Pass
    requires { IsPassOf lock.now pass }
    ensures { IsPassOf lock.now result }
{
    for number in 0..calls {
        let _ = call_once(rt, alloc, lock, &mut pass, number);
    }
    pass
}

/// Lets the callers call, each in a thread of its own.
fn call_together<R: Threads + Wait + Sync>(
    rt: &R,
    alloc: Global,
    lock: &NodeLock<'_, RoundRobin>,
    passes: Vec<Pass>,
    calls: u32,
) -> Result<Vec<Pass>, NoMemory>
    requires { All (IsPassOf lock.now) passes.items }
    ensures { IfOk result (λ after. All (IsPassOf lock.now) after.items) }
{
    let after = thread::map_vec(
        rt,
        passes,
        &|pass: Pass| -> Pass
            requires { IsPassOf lock.now pass }
            ensures { IsPassOf lock.entry.now result }
        { call_on(rt, alloc, lock, pass, calls) },
    )?;
    Ok(after)
}

/// Each pass made its calls, which are its caller's steps, and each stamp below the number of steps stands in one of them.
fn shows_all(
    rt: &impl Abort,
    alloc: Global,
    locked: &LockedNode<RoundRobin>,
    calls: u32,
) -> Result<(), NoMemory> {
    locked.told();
    let journal = locked.node().journal();
    for pass in locked.passes() {
        assert!(rt; !pass.is_full() && pass.made().len() == calls as usize);
        assert!(rt; are_made_by(journal, pass));
    }
    assert!(rt; are_stamped_from_0(alloc, journal, count_steps(journal))?);
    Ok(())
}

/// A crowd of callers, each with a seat, calls one node.
fn crowd_calls<R: Threads + Wait + Abort + Sync>(
    rt: &R,
    alloc: Global,
    stamps: &Stamps,
    seats: Vec<StampSeat>,
) -> Result<(), NoMemory>
    requires { seats.items ≡ replicate CALLERS (new_seat stamps.now) }
{
    let (lock, passes) = locked(alloc, stamps, CALLERS, seats)?;
    let passes = call_together(rt, alloc, &lock, passes, CALLS)?;
    let locked = unlocked(rt, lock, passes);
    shows_all(rt, alloc, &locked, CALLS)
}

#[test]
fn threads_that_call_one_node_are_ordered_by_stamps(rt: HostRuntime) -> Result<(), Fail> {
    let alloc = rt.alloc();
    let (stamps, seats) = Stamps::new(alloc, CALLERS)?;
    crowd_calls(&rt, alloc, &stamps, seats)?;
    Ok(())
}
