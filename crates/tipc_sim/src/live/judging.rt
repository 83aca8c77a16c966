//! What the journals of a live run show.

ghost use Rattle.std.specs.Prelude.{◌≡◌, ◌↔◌, ◌+◌, ◌≤◌, All, IfOk, true};
ghost use Rattle.tipc_live.specs.declared.answers.Audit.TheVariants.{Yes};
ghost use Rattle.tipc_live.specs.Auditing.{Audits};
ghost use Rattle.tipc_live.specs.Nodes.{can_audit};
ghost use Rattle.tipc_live.specs.Telling.{AllTellTrue};
ghost use Rattle.tipc_replay.specs.States.{empty_replay};
ghost use Rattle.tipc_work.specs.Plans.{IsLivePlan};
ghost use Rattle.tipc_sim.specs.LivePlans.{FindsPlan, HavePasses, ShowsPart};
ghost use Rattle.tipc_sim.specs.LiveRuns.{Finds, verdict_of};

use std::alloc::Global;
use tipc_live::{Audit, Gathered};
use tipc_node_lock::{LockedNode, Pass};
use tipc_pick::Pick;
use tipc_report::Verdict;
use tipc_types::NoMemory;
use tipc_work::{LivePlan, shows_caller, shows_mover};

/// Whether a pass of a node shows its caller's part of the plan, or its mover's.
fn shows_part(alloc: Global, plan: &LivePlan, node: u8, pass: &Pass) -> Result<bool, NoMemory>
    requires { IsLivePlan plan.now }
    ensures { IfOk result (λ shown. (shown ≡ true) ↔ ShowsPart plan.now node pass.now) }
{
    if pass.caller() > u32::from(plan.callers) {
        return Ok(shows_mover(pass.made()));
    }
    let shown = shows_caller(alloc, plan, node, pass.caller(), pass.made())?;
    Ok(shown)
}

/// Whether the passes of a node show the plan.
fn show_plan(alloc: Global, plan: &LivePlan, node: u8, passes: &[Pass]) -> Result<bool, NoMemory>
    requires { IsLivePlan plan.now }
    ensures { IfOk result (λ shown. (shown ≡ true) ↔ All (ShowsPart plan.now node) passes.now) }
{
    for pass in passes {
        if !shows_part(alloc, plan, node, pass)? {
            return Ok(false);
        }
    }
    Ok(true)
}

/// What is found of nodes, whose journals tell what their passes do: whether they show the plan, or which is the first
/// that doesn't.
#[tactic(auto, using(crate::proofs::LiveLaws::shown_none, crate::proofs::LiveLaws::shown_more, crate::proofs::LiveLaws::first_unshown, crate::proofs::LiveLaws::shown_all))]
fn judge_plan<P>(
    alloc: Global,
    plan: &LivePlan,
    nodes: &[LockedNode<P>],
) -> Result<Verdict, NoMemory>
    requires passes { HavePasses plan.now nodes.now }
    requires told { All AllTellTrue nodes.now }
    ensures { IfOk result (FindsPlan plan.now nodes.now) }
{
    let mut node = 0;
    for locked in nodes {
        node += 1;
        if !show_plan(alloc, plan, node, locked.passes())? {
            return Ok(Verdict::Plan { node });
        }
    }
    Ok(Verdict::Yes)
}

/// How an audit's answer is told, where the plan isn't looked for.
fn verdict_of(answer: &Audit) -> Verdict
    ensures { result ≡ verdict_of answer.now }
{
    match answer {
        Audit::Yes => Verdict::Yes,
        Audit::Twice { stamp } => Verdict::Twice { stamp: *stamp },
        Audit::Told { node, caller, call } => Verdict::Told {
            node: *node,
            caller: *caller,
            call: *call,
        },
        Audit::NoFrame { node, number } => Verdict::NoFrame {
            node: *node,
            number: *number,
        },
        Audit::TooOld {
            node,
            number,
            count,
        } => Verdict::TooOld {
            node: *node,
            number: *number,
            count: *count,
        },
        Audit::Differ { node, place, .. } => Verdict::Differ {
            node: *node,
            place: *place,
        },
    }
}

/// Whether nothing speaks against the run.
fn is_yes(verdict: Verdict) -> bool
    ensures { (result ≡ true) ↔ (verdict ≡ Verdict.Yes) }
{
    matches!(verdict, Verdict::Yes)
}

/// Audits what is gathered of a run, and tells what is found.
///
/// # Errors
///
/// Where memory runs out.
pub(crate) fn judge<P: Pick, B>(
    alloc: Global,
    plan: &LivePlan,
    gathered: &mut Gathered<P, B>,
) -> Result<Verdict, NoMemory>
    requires passes { HavePasses plan.now gathered.old.nodes }
    requires can { (can_audit gathered.old.nodes ≡ true) × (gathered.old.replay ≡ empty_replay) }
    ensures found { IfOk result (Finds P.gives plan.now gathered.new) }
    ensures same { (gathered.new.nodes ≡ gathered.old.nodes) × (gathered.new.bearers ≡ gathered.old.bearers) }
{
    let answer = gathered.audit(alloc)?;
    let verdict = verdict_of(&answer);
    if is_yes(verdict) {
        return judge_plan(alloc, plan, gathered.nodes());
    }
    Ok(verdict)
}
