//! Runs of two nodes with one caller each, by clocks that go on by 1 at each look: over a medium in memory, also where the first call of a bearer
//! fails, and over UDP. Each is audited Yes.

ghost use Rattle.std.specs.Prelude.{◌≡◌, ◌≤◌, ◌+◌, length, replicate, IfOk, IfSome, IsTrue};
ghost use Rattle.tipc_stamp.specs.Seats.{new_seat};
ghost use Rattle.tipc_work_tests.specs.declared.runs.TheConstants.{PASSES_OF_ONE_EACH};

use crate::audits::comes_to_yes;
use crate::runs::{ONE_EACH, PASSES_OF_ONE_EACH, memory_bearers, run};
use std::alloc::Global;
use std::net::Net;
use std::process::Abort;
use std::sync::Wait;
use std::test::Fail;
use std::thread::Threads;
use tipc_outside::{FreeGate, Medium};
use tipc_stamp::{StampSeat, Stamps};
use tipc_udp::UdpBearer;
use tipc_work::LivePlan;

/// Runs the plan over a medium in memory. Calls of these numbers fail at bearer 0 of node 1, and a bearer is seen to fail where there are any.
fn run_in_memory<R: Threads + Wait + Abort + Sync>(
    rt: &R,
    alloc: Global,
    stamps: &Stamps,
    seats: Vec<StampSeat>,
    medium: &Medium,
    failing: Vec<u64>,
)
    requires { seats.items ≡ replicate PASSES_OF_ONE_EACH (new_seat stamps.now) }
{
    let fails = !failing.is_empty();
    let bearers = memory_bearers(rt, alloc, medium, failing);
    let left = run(rt, alloc, &ONE_EACH, stamps, seats, bearers, &FreeGate);
    assert!(rt; left.failed == fails);
    comes_to_yes(rt, alloc, left);
}

#[test]
fn a_run_in_memory_is_audited_yes(rt: HostRuntime) -> Result<(), Fail> {
    let medium = Medium::new(rt.alloc())?;
    let (stamps, seats) = Stamps::new(rt.alloc(), PASSES_OF_ONE_EACH)?;
    run_in_memory(
        &rt,
        rt.alloc(),
        &stamps,
        seats,
        &medium,
        Vec::new(rt.alloc()),
    );
    Ok(())
}

#[test]
fn a_bearer_whose_first_call_fails_is_seen_to_fail(rt: HostRuntime) -> Result<(), Fail> {
    let medium = Medium::new(rt.alloc())?;
    let failing = Vec::from_slice(rt.alloc(), &[1])?;
    let (stamps, seats) = Stamps::new(rt.alloc(), PASSES_OF_ONE_EACH)?;
    run_in_memory(&rt, rt.alloc(), &stamps, seats, &medium, failing);
    Ok(())
}

/// The same plan over UDP.
const OVER_UDP: LivePlan = LivePlan {
    udp: true,
    nodes: 2,
    callers: 1,
    messages: 1,
};

/// Whether a bearer of a node could be bound over UDP, with this base of the ports; then it is added.
fn binds(
    rt: &(impl Net + Abort),
    bearers: &mut Vec<UdpBearer>,
    node: u8,
    bearer: u8,
    base: u16,
) -> bool
    requires node { (1 ≤ node) × (node ≤ 2) }
    requires bearer { bearer ≤ 1 }
    requires base { base ≤ 65439 }
    ensures { IsTrue result → length bearers.new.items ≡ length bearers.old.items + 1 }
{
    let Ok(bound) = UdpBearer::bind(rt, node, bearer, base, 2) else {
        return false
    };
    match bearers.push(bound) {
        Ok(()) => true,
        Err(_) => panic!(rt; "no memory"),
    }
}

/// Both bearers of nodes 1 and 2 over UDP, with this base of their ports; None where one of the ports can't be bound.
fn all_bound(rt: &(impl Net + Abort), alloc: Global, base: u16) -> Option<Vec<UdpBearer>>
    requires { base ≤ 65439 }
    ensures { IfSome result (λ bearers. length bearers.items ≡ 4) }
{
    let mut bearers = Vec::new(alloc);
    if binds(rt, &mut bearers, 1, 0, base)
        && binds(rt, &mut bearers, 1, 1, base)
        && binds(rt, &mut bearers, 2, 0, base)
        && binds(rt, &mut bearers, 2, 1, base)
    {
        return Some(bearers);
    }
    None
}

/// The same with the first base, from 41,000 on, whose ports can be bound, of 100.
///
/// # Errors
///
/// Where there is none, as on a machine without a loopback address.
fn udp_bearers(rt: &(impl Net + Abort), alloc: Global) -> Result<Vec<UdpBearer>, Fail>
    ensures { IfOk result (λ bearers. length bearers.items ≡ 4) }
{
    for step in 0..100 {
        if let Some(bearers) = all_bound(rt, alloc, 41_000 + 128 * step) {
            return Ok(bearers);
        }
    }
    Err(Fail::new("no port of the loopback address is free"))
}

/// Runs the plan over UDP.
fn run_over_udp<R: Threads + Wait + Abort + Sync>(
    rt: &R,
    alloc: Global,
    stamps: &Stamps,
    seats: Vec<StampSeat>,
    bearers: Vec<UdpBearer>,
)
    requires seats { seats.items ≡ replicate PASSES_OF_ONE_EACH (new_seat stamps.now) }
    requires bearers { length bearers.items ≡ 4 }
{
    let left = run(rt, alloc, &OVER_UDP, stamps, seats, bearers, &FreeGate);
    assert!(rt; !left.failed);
    comes_to_yes(rt, alloc, left);
}

#[test]
fn a_run_over_udp_is_audited_yes(rt: HostRuntime) -> Result<(), Fail> {
    let bearers = udp_bearers(&rt, rt.alloc())?;
    let (stamps, seats) = Stamps::new(rt.alloc(), PASSES_OF_ONE_EACH)?;
    run_over_udp(&rt, rt.alloc(), &stamps, seats, bearers);
    Ok(())
}
