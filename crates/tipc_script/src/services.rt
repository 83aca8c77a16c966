//! The tokens behind the first words that tell of sockets and services.

ghost use Rattle.tipc_script.specs.Grammar.{close_row, publish_row, withdraw_row};
ghost use Rattle.tipc_script.specs.Faults.{IsRead};

use crate::faults::LineFault;
use crate::lines::{Command, Line};
use crate::tokens::{HIGHEST_NUMBER, Tokens};
use std::alloc::Global;
use tipc_types::{EventNote, ServiceRange};

/// What follows `close`.
#[tactic(auto, unfolding(crate::specs::Faults::row_fault))]
pub fn close_line(alloc: Global, tokens: &mut Tokens<'_>) -> Result<Command, LineFault>
    ensures { IsRead close_row tokens.old result }
{
    let node = tokens.node(true)?;
    let port = tokens.number(0, HIGHEST_NUMBER)?;
    tokens.finish()?;
    Command::call(alloc, node, EventNote::Close { port })
}

/// What follows `publish`. A range without instances is no fault.
#[tactic(auto, unfolding(crate::specs::Faults::row_fault))]
pub fn publish_line(alloc: Global, tokens: &mut Tokens<'_>) -> Result<Command, LineFault>
    ensures { IsRead publish_row tokens.old result }
{
    let node = tokens.node(true)?;
    let port = tokens.number(0, HIGHEST_NUMBER)?;
    let kind = tokens.number(0, HIGHEST_NUMBER)?;
    let lower = tokens.number(0, HIGHEST_NUMBER)?;
    let upper = tokens.number(0, HIGHEST_NUMBER)?;
    let scope = tokens.scope()?;
    let key = tokens.number(0, HIGHEST_NUMBER)?;
    tokens.finish()?;
    let Ok(range) = ServiceRange::new(kind, lower, upper) else {
        return Command::new(alloc, Line::BadRange { node: node.node }, &[node]);
    };
    let call = EventNote::Publish {
        port,
        range,
        scope,
        key,
    };
    Command::call(alloc, node, call)
}

/// What follows `withdraw`.
#[tactic(auto, unfolding(crate::specs::Faults::row_fault))]
pub fn withdraw_line(alloc: Global, tokens: &mut Tokens<'_>) -> Result<Command, LineFault>
    ensures { IsRead withdraw_row tokens.old result }
{
    let node = tokens.node(true)?;
    let port = tokens.number(0, HIGHEST_NUMBER)?;
    let key = tokens.number(0, HIGHEST_NUMBER)?;
    tokens.finish()?;
    Command::call(alloc, node, EventNote::Withdraw { port, key })
}
