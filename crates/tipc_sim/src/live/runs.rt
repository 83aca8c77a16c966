//! A live run: the plan is followed, what is left of it is audited, and the report is written.

ghost use Rattle.std.specs.Prelude.{◌≡◌, ◌↔◌, ◌⊎◌, ◌*◌, ◌≤◌, All, IfOk, IfSome, None, length, map, true};
ghost use Rattle.std.specs.String.{string_bytes};
ghost use Rattle.tipc_outside.specs.Causes.{Rose};
ghost use Rattle.tipc_live.specs.Gathering.{nothing_gathered};
ghost use Rattle.tipc_live.specs.Nodes.{can_audit};
ghost use Rattle.tipc_replay.specs.States.{empty_replay};
ghost use Rattle.tipc_work.specs.Plans.{IsLivePlan};
ghost use Rattle.tipc_sim.specs.LivePlans.{HavePasses};
ghost use Rattle.tipc_sim.specs.LiveReports.{live_report};
ghost use Rattle.tipc_sim.specs.LiveRuns.{ComesTo, Finds, HasEnded, HasFailed, IsLiveStatus, StopsShort, live_status};
ghost use Rattle.tipc_sim.specs.LiveWords.{live_plan};

use crate::live::judging::judge;
use crate::live::nodes::run_gathered;
use crate::live::reports::report_text;
use crate::live::words::live_plan;
use crate::status::Status;
use crate::writing::write_text;
use std::alloc::Global;
use std::sync::Wait;
use std::thread::Threads;
use tipc_live::Gathered;
use tipc_outside::{Bearer, Clock, Gate, Sink};
use tipc_pick::{Chooser, Pick};
use tipc_report::Verdict;
use tipc_types::NoMemory;
use tipc_work::LivePlan;

/// How a run ends, by what was found, and whether a bearer was seen to fail.
fn status_of(verdict: Verdict, failed: bool) -> Status
    ensures { result ≡ live_status verdict failed }
{
    match verdict {
        Verdict::Yes => {
            if failed {
                Status::BearerFault
            } else {
                Status::Ok
            }
        }
        Verdict::Differ { .. }
        | Verdict::Twice { .. }
        | Verdict::Told { .. }
        | Verdict::NoFrame { .. }
        | Verdict::TooOld { .. }
        | Verdict::Plan { .. } => Status::Differ,
    }
}

/// Audits what is gathered of a run. Answers what was found, and the report.
fn judged<P: Pick, B>(
    alloc: Global,
    plan: &LivePlan,
    gathered: &mut Gathered<P, B>,
) -> Result<(Verdict, Vec<u8>), NoMemory>
    requires passes { HavePasses plan.now gathered.old.nodes }
    requires can { (can_audit gathered.old.nodes ≡ true) × (gathered.old.replay ≡ empty_replay) }
    ensures found { IfOk result (λ r. Finds P.gives plan.now gathered.new r.0) }
    ensures report { IfOk result (λ r. r.1.items ≡ live_report plan.now gathered.new.nodes r.0) }
    ensures same { (gathered.new.nodes ≡ gathered.old.nodes) × (gathered.new.bearers ≡ gathered.old.bearers) }
{
    let verdict = judge(alloc, plan, gathered)?;
    let report = report_text(alloc, plan, gathered.nodes(), verdict)?;
    Ok((verdict, report))
}

/// Runs a plan, audits what is gathered of it, and writes the report.
fn run_plan<
    R: Threads + Wait + Sync,
    K: Sink,
    P: Pick + Send + Sync + Drop,
    B: Bearer + Send + Drop,
    C: Clock + Send + Drop,
    G: Gate + Sync,
>(
    rt: &R,
    alloc: Global,
    plan: &LivePlan,
    sink: &mut K,
    choosers: Vec<Chooser<P>>,
    bearers: Vec<B>,
    clocks: Vec<C>,
    gate: &G,
    gathered: &mut Gathered<P, B>,
) -> Status
    requires plan { IsLivePlan plan.now }
    requires choosers { (plan.now.nodes ≤ length choosers.items) × All (λ chooser. chooser.turn ≡ 0) choosers.items }
    requires bearers { 2 * plan.now.nodes ≤ length bearers.items }
    requires clocks { plan.now.nodes ≤ length clocks.items }
    requires empty { gathered.old ≡ nothing_gathered }
    ensures came { HasEnded result → ComesTo B.tried B.given B.faults P.gives plan.now bearers.items gathered.new result
        (K.contents sink.old) (K.contents sink.new) }
    ensures memory { result ≡ Status.NoMemory → StopsShort P.gives plan.now gathered.new (K.contents sink.old)
        (K.contents sink.new) }
    ensures write { result ≡ Status.WriteFault → Rose (K.faults sink.old) (K.faults sink.new) ⊎
        Rose (K.stalls sink.old) (K.stalls sink.new) }
    ensures fault { result ≡ Status.BearerFault → HasFailed B.faults plan.now bearers.items gathered.new.bearers }
    ensures status { (result ≡ Status.NoMemory) ⊎ HasEnded result }
{
    let Ok(failed) = run_gathered(rt, alloc, plan, choosers, bearers, clocks, gate, gathered) else {
        return Status::NoMemory;
    };
    let Ok((verdict, report)) = judged(alloc, plan, gathered) else {
        return Status::NoMemory;
    };
    match write_text(sink, report.as_slice()) {
        Ok(()) => status_of(verdict, failed),
        Err(status) => status,
    }
}

/// Runs the plan that the words are, over bearers, by clocks and through a gate, where the words are a plan. Then it
/// audits the nodes' journals, and writes the report: the plan, what each journal counts, and what was found.
///
/// There are at least as many choosers, at turn 0, and clocks as the plan has nodes, and two bearers for each node, in
/// order of node and bearer. Behind the run the nodes with their callers' passes, the replay of the audit and the
/// bearers are gathered, where nothing was.
///
/// That it comes back isn't promised. (This project's profile.)
pub fn run_live<
    R: Threads + Wait + Sync,
    K: Sink,
    P: Pick + Send + Sync + Drop,
    B: Bearer + Send + Drop,
    C: Clock + Send + Drop,
    G: Gate + Sync,
>(
    rt: &R,
    alloc: Global,
    words: &[String],
    sink: &mut K,
    choosers: Vec<Chooser<P>>,
    bearers: Vec<B>,
    clocks: Vec<C>,
    gate: &G,
    gathered: &mut Gathered<P, B>,
) -> Status
    requires choosers { IfSome (live_plan (map string_bytes words.now)) (λ plan. plan.nodes ≤ length choosers.items) ×
        All (λ chooser. chooser.turn ≡ 0) choosers.items }
    requires bearers { IfSome (live_plan (map string_bytes words.now)) (λ plan. 2 * plan.nodes ≤ length bearers.items) }
    requires clocks { IfSome (live_plan (map string_bytes words.now)) (λ plan. plan.nodes ≤ length clocks.items) }
    requires empty { gathered.old ≡ nothing_gathered }

    // What the nodes, their passes and the bearers show behind a run, what was found of that, and what was written.
    ensures came { HasEnded result → IfSome (live_plan (map string_bytes words.now)) (λ plan.
        ComesTo B.tried B.given B.faults P.gives plan bearers.items gathered.new result (K.contents sink.old)
        (K.contents sink.new)) }
    ensures memory { result ≡ Status.NoMemory → IfSome (live_plan (map string_bytes words.now)) (λ plan.
        StopsShort P.gives plan gathered.new (K.contents sink.old) (K.contents sink.new)) }

    // Where each status comes.
    ensures usage { (result ≡ Status.Usage) ↔ (live_plan (map string_bytes words.now) ≡ None) }
    ensures untouched { result ≡ Status.Usage → (sink.new ≡ sink.old) × (gathered.new ≡ gathered.old) }
    ensures write { result ≡ Status.WriteFault → Rose (K.faults sink.old) (K.faults sink.new) ⊎
        Rose (K.stalls sink.old) (K.stalls sink.new) }
    ensures fault { result ≡ Status.BearerFault → IfSome (live_plan (map string_bytes words.now)) (λ plan.
        HasFailed B.faults plan bearers.items gathered.new.bearers) }

    // It ends with one of these.
    ensures status { IsLiveStatus result }
{
    let Some(plan) = live_plan(words) else {
        return Status::Usage;
    };
    run_plan(
        rt, alloc, &plan, sink, choosers, bearers, clocks, gate, gathered,
    )
}
