//! A live run over a medium in memory or over UDP, by the system's clock.

ghost use Rattle.std.specs.Prelude.{◌≡◌, ◌⊎◌, ◌*◌, ◌≤◌, All, Err, IfOk, OnErr, Some, length, map};
ghost use Rattle.std.specs.String.{string_bytes};
ghost use Rattle.tipc_work.specs.Plans.{IsLivePlan};
ghost use Rattle.tipc_sim.specs.LiveWords.{live_plan};

use crate::live::runs::run_live;
use crate::status::Status;
use std::alloc::Global;
use std::mem::forget;
use std::net::Net;
use std::sync::Wait;
use std::thread::Threads;
use std::time;
use tipc_live::Gathered;
use tipc_outside::{Bearer, BearerFault, FreeGate, Medium, MemoryBearer, Sink, StdClock};
use tipc_pick::{Chooser, RoundRobin};
use tipc_types::{Addr, NoMemory};
use tipc_udp::UdpBearer;
use tipc_work::LivePlan;

/// Above which port the sockets of UDP stand. (This project's profile.)
const BASE: u16 = 40_000;

/// A chooser for each node, which takes the matches in turn.
fn choosers(alloc: Global, nodes: u8) -> Result<Vec<Chooser<RoundRobin>>, NoMemory>
    ensures { IfOk result (λ choosers. (length choosers.items ≡ nodes) ×
        All (λ chooser. chooser.turn ≡ 0) choosers.items) }
{
    let mut choosers = Vec::with_capacity(alloc, usize::from(nodes))?;
    for _ in 0..nodes {
        choosers.push(Chooser::new(RoundRobin))?;
    }
    Ok(choosers)
}

/// A clock of the system for each node.
fn clocks<R: time::Clock>(rt: &R, alloc: Global, nodes: u8) -> Result<Vec<StdClock<&R>>, NoMemory>
    ensures { IfOk result (λ clocks. length clocks.items ≡ nodes) }
{
    let mut clocks = Vec::with_capacity(alloc, usize::from(nodes))?;
    for _ in 0..nodes {
        clocks.push(StdClock::new(rt))?;
    }
    Ok(clocks)
}

/// Two bearers for each node, over one medium.
fn memory_bearers<'m, R: Wait>(
    rt: &'m R,
    alloc: Global,
    medium: &'m Medium,
    nodes: u8,
) -> Result<Vec<MemoryBearer<'m, &'m R>>, NoMemory>
    requires { nodes ≤ 8 }
    ensures { IfOk result (λ bearers. length bearers.items ≡ 2 * nodes) }
{
    let mut bearers = Vec::with_capacity(alloc, 2 * usize::from(nodes))?;
    for place in 0..2 * nodes {
        let node = Addr::node(1 + place / 2);
        let never = Vec::new(alloc);
        bearers.push(MemoryBearer::new(rt, alloc, medium, node, place % 2, never))?;
    }
    Ok(bearers)
}

/// Two bearers over UDP for each node.
///
/// # Errors
///
/// BearerFault where a socket can't be bound, NoMemory where memory runs out.
fn udp_bearers<R: Net>(rt: &R, alloc: Global, nodes: u8) -> Result<Vec<UdpBearer>, Status>
    requires { nodes ≤ 8 }
    ensures ok { IfOk result (λ bearers. length bearers.items ≡ 2 * nodes) }
    ensures err { OnErr result ((result ≡ Err Status.BearerFault) ⊎ (result ≡ Err Status.NoMemory)) }
{
    let Ok(mut bearers) = Vec::with_capacity(alloc, 2 * usize::from(nodes)) else {
        return Err(Status::NoMemory);
    };
    for place in 0..2 * nodes {
        let bearer = match UdpBearer::bind(rt, 1 + place / 2, place % 2, BASE, nodes) {
            Ok(bearer) => bearer,
            Err(BearerFault::Failed) => return Err(Status::BearerFault),
            Err(BearerFault::NoMemory) => return Err(Status::NoMemory),
        };
        let Ok(()) = bearers.push(bearer) else {
            return Err(Status::NoMemory);
        };
    }
    Ok(bearers)
}

/// Runs a plan over these bearers, and lets each call on.
fn run_over<R: Threads + Wait + Sync + time::Clock, K: Sink, B: Bearer + Send + Drop>(
    rt: &R,
    alloc: Global,
    words: &[String],
    plan: &LivePlan,
    sink: &mut K,
    bearers: Vec<B>,
) -> Result<Status, NoMemory>
    requires plan { (live_plan (map string_bytes words.now) ≡ Some plan.now) × IsLivePlan plan.now }
    requires bearers { length bearers.items ≡ 2 * plan.now.nodes }
    ensures { IfOk result (λ status. status ≡ Status.Usage → ⊥) }
{
    let choosers = choosers(alloc, plan.nodes)?;
    let clocks = clocks(rt, alloc, plan.nodes)?;
    let mut gathered = Gathered::new(alloc);
    let status = run_live(
        rt,
        alloc,
        words,
        sink,
        choosers,
        bearers,
        clocks,
        &FreeGate,
        &mut gathered,
    );
    // The process ends soon, which gives all its memory back at once: nodes and replay aren't taken apart piece by
    // piece.
    forget(gathered);
    Ok(status)
}

/// Runs a plan over a medium in memory.
fn run_memory<R: Threads + Wait + Sync + time::Clock, K: Sink>(
    rt: &R,
    alloc: Global,
    words: &[String],
    plan: &LivePlan,
    sink: &mut K,
) -> Result<Status, NoMemory>
    requires { (live_plan (map string_bytes words.now) ≡ Some plan.now) × IsLivePlan plan.now }
    ensures { IfOk result (λ status. status ≡ Status.Usage → ⊥) }
{
    let medium = Medium::new(alloc)?;
    let bearers = memory_bearers(rt, alloc, &medium, plan.nodes)?;
    run_over(rt, alloc, words, plan, sink, bearers)
}

/// Runs a plan over UDP. Where a socket can't be bound, nothing is run or written.
fn run_udp<R: Threads + Wait + Sync + time::Clock + Net, K: Sink>(
    rt: &R,
    alloc: Global,
    words: &[String],
    plan: &LivePlan,
    sink: &mut K,
) -> Result<Status, NoMemory>
    requires { (live_plan (map string_bytes words.now) ≡ Some plan.now) × IsLivePlan plan.now }
    ensures { IfOk result (λ status. status ≡ Status.Usage → ⊥) }
{
    match udp_bearers(rt, alloc, plan.nodes) {
        Ok(bearers) => run_over(rt, alloc, words, plan, sink, bearers),
        Err(status) => Ok(status),
    }
}

/// Runs the plan that the words are, over bearers of the kind that it asks for, and writes the report to a sink.
pub fn run_bearers<R: Threads + Wait + Sync + time::Clock + Net, K: Sink>(
    rt: &R,
    alloc: Global,
    words: &[String],
    plan: &LivePlan,
    sink: &mut K,
) -> Status
    requires { (live_plan (map string_bytes words.now) ≡ Some plan.now) × IsLivePlan plan.now }
    ensures { result ≡ Status.Usage → ⊥ }
{
    let ended = if plan.udp {
        run_udp(rt, alloc, words, plan, sink)
    } else {
        run_memory(rt, alloc, words, plan, sink)
    };
    match ended {
        Ok(status) => status,
        Err(NoMemory) => Status::NoMemory,
    }
}
