//! The tokens behind the first words that tell of subscriptions.

ghost use Rattle.std.specs.Prelude.{◌≡◌};
ghost use Rattle.tipc_script.specs.Grammar.{cancel_row, event_row, filter_number, subscribe_row, wished};
ghost use Rattle.tipc_script.specs.Faults.{IsRead};

use crate::faults::LineFault;
use crate::lines::{Command, Filter, Line};
use crate::tokens::{HIGHEST_NUMBER, Tokens};
use std::alloc::Global;
use tipc_types::{EventNote, Subscription};

/// The filter under which each publication has its event. (Programmer's guide.)
const PORTS: u32 = 1;

/// The filter under which each distinct range has its event. (Programmer's guide.)
const SERVICE: u32 = 2;

/// The number of a filter.
fn filter_number(filter: Filter) -> u32
    ensures { result ≡ filter_number filter }
{
    match filter {
        Filter::Ports => PORTS,
        Filter::Service => SERVICE,
    }
}

/// What a line subscribes to. A script's subscribers have no handle.
fn wished(kind: u32, lower: u32, upper: u32, timeout: u32, filter: Filter) -> Subscription
    ensures { result ≡ wished kind lower upper timeout filter }
{
    Subscription {
        range_kind: kind,
        lower,
        upper,
        timeout,
        filter: filter_number(filter),
        handle: [0; 8],
    }
}

/// What follows `subscribe`. A range without instances is no fault.
#[tactic(auto, unfolding(crate::specs::Faults::row_fault))]
pub fn subscribe_line(alloc: Global, tokens: &mut Tokens<'_>) -> Result<Command, LineFault>
    ensures { IsRead subscribe_row tokens.old result }
{
    let node = tokens.node(true)?;
    let kind = tokens.number(0, HIGHEST_NUMBER)?;
    let lower = tokens.number(0, HIGHEST_NUMBER)?;
    let upper = tokens.number(0, HIGHEST_NUMBER)?;
    let timeout = tokens.number(0, HIGHEST_NUMBER)?;
    let filter = tokens.filter()?;
    tokens.finish()?;
    if upper < lower {
        return Command::new(alloc, Line::BadRange { node: node.node }, &[node]);
    }
    let subscription = wished(kind, lower, upper, timeout, filter);
    Command::call(alloc, node, EventNote::Subscribe { subscription })
}

/// What follows `event`.
#[tactic(auto, unfolding(crate::specs::Faults::row_fault))]
pub fn event_line(alloc: Global, tokens: &mut Tokens<'_>) -> Result<Command, LineFault>
    ensures { IsRead event_row tokens.old result }
{
    let node = tokens.node(true)?;
    let number = tokens.number(0, HIGHEST_NUMBER)?;
    tokens.finish()?;
    Command::call(alloc, node, EventNote::NextEvent { number })
}

/// What follows `cancel`.
#[tactic(auto, unfolding(crate::specs::Faults::row_fault))]
pub fn cancel_line(alloc: Global, tokens: &mut Tokens<'_>) -> Result<Command, LineFault>
    ensures { IsRead cancel_row tokens.old result }
{
    let node = tokens.node(true)?;
    let number = tokens.number(0, HIGHEST_NUMBER)?;
    tokens.finish()?;
    Command::call(alloc, node, EventNote::Cancel { number })
}
