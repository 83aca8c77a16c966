//! The report of a live run.

ghost use Rattle.std.specs.Prelude.{◌≡◌, ◌++◌, IfOk, OnErr, OnOk};
ghost use Rattle.tipc_sim.specs.LiveReports.{counts_report, live_report, node_line};

use crate::live::counts::{accepted_in, answered_in, delivered_in};
use std::alloc::Global;
use tipc_node_lock::LockedNode;
use tipc_report::{Verdict, number_in, print_counts, print_plan, print_verdict};
use tipc_types::NoMemory;
use tipc_work::LivePlan;

/// Appends the line of a node.
fn print_node<P>(locked: &LockedNode<P>, into: &mut Vec<u8>) -> Result<(), NoMemory>
    ensures ok { OnOk result (into.new.items ≡ into.old.items ++ node_line locked.now) }
    ensures err { OnErr result (into.new.items ≡ into.old.items) }
{
    let journal = locked.node().journal();
    print_counts(
        number_in(locked.node().own().word),
        accepted_in(journal),
        delivered_in(journal),
        answered_in(journal),
        into,
    )
}

/// What is told of a run of this plan before what was found: a line of its own, and one of each node.
fn counts_text<P>(
    alloc: Global,
    plan: &LivePlan,
    nodes: &[LockedNode<P>],
) -> Result<Vec<u8>, NoMemory>
    ensures { IfOk result (λ text. text.items ≡ counts_report plan.now nodes.now) }
{
    let mut text = Vec::new(alloc);
    print_plan(plan.nodes, plan.callers, plan.messages, &mut text)?;
    for locked in nodes {
        print_node(locked, &mut text)?;
    }
    Ok(text)
}

/// The report of a run of this plan.
pub(crate) fn report_text<P>(
    alloc: Global,
    plan: &LivePlan,
    nodes: &[LockedNode<P>],
    verdict: Verdict,
) -> Result<Vec<u8>, NoMemory>
    ensures { IfOk result (λ text. text.items ≡ live_report plan.now nodes.now verdict) }
{
    let mut text = counts_text(alloc, plan, nodes)?;
    print_verdict(verdict, &mut text)?;
    Ok(text)
}
