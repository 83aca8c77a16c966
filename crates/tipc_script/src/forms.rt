//! The tokens that each first word asks for which tells of nodes, links and frames.

ghost use Rattle.tipc_script.specs.Grammar.{air_row, arrive_row, cut_row, drain_row, flow_row, link_row, links_row, table_row, mark_row, mend_row, node_row, pump_row, receive_row, restart_row, settle_row, show_row, socket_row, tick_row};
ghost use Rattle.tipc_script.specs.Faults.{IsRead};

use crate::faults::LineFault;
use crate::lines::{Command, Line};
use crate::tokens::{HIGHEST_NUMBER, Tokens};
use std::alloc::Global;
use tipc_types::EventNote;

/// The highest number of a frame.
const HIGHEST_FRAME: u32 = 1_000_000;

/// The most rounds that are waited for.
const MOST_ROUNDS: u32 = 1_000_000;

/// The highest number of a bearer.
const HIGHEST_BEARER: u32 = 1;

/// What follows `node`.
#[tactic(auto, unfolding(crate::specs::Faults::row_fault))]
pub fn node_line(alloc: Global, tokens: &mut Tokens<'_>) -> Result<Command, LineFault>
    ensures { IsRead node_row tokens.old result }
{
    let node = tokens.node(false)?;
    tokens.finish()?;
    let line = Line::Node { node: node.node };
    Command::new(alloc, line, &[node])
}

/// What follows `mend`.
#[tactic(auto, unfolding(crate::specs::Faults::row_fault))]
pub fn mend_line(alloc: Global, tokens: &mut Tokens<'_>) -> Result<Command, LineFault>
    ensures { IsRead mend_row tokens.old result }
{
    let node = tokens.node(true)?;
    let bearer = tokens.number(0, HIGHEST_BEARER)?;
    tokens.finish()?;
    let call = EventNote::Mend {
        bearer: bearer as u8,
    };
    Command::call(alloc, node, call)
}

/// What follows `cut`.
#[tactic(auto, unfolding(crate::specs::Faults::row_fault))]
pub fn cut_line(alloc: Global, tokens: &mut Tokens<'_>) -> Result<Command, LineFault>
    ensures { IsRead cut_row tokens.old result }
{
    let node = tokens.node(true)?;
    let bearer = tokens.number(0, HIGHEST_BEARER)?;
    tokens.finish()?;
    let call = EventNote::Cut {
        bearer: bearer as u8,
    };
    Command::call(alloc, node, call)
}

/// What follows `tick`.
#[tactic(auto, unfolding(crate::specs::Faults::row_fault))]
pub fn tick_line(alloc: Global, tokens: &mut Tokens<'_>) -> Result<Command, LineFault>
    ensures { IsRead tick_row tokens.old result }
{
    let node = tokens.node(true)?;
    tokens.finish()?;
    Command::call(alloc, node, EventNote::Tick)
}

/// What follows `restart`.
#[tactic(auto, unfolding(crate::specs::Faults::row_fault))]
pub fn restart_line(alloc: Global, tokens: &mut Tokens<'_>) -> Result<Command, LineFault>
    ensures { IsRead restart_row tokens.old result }
{
    let node = tokens.node(true)?;
    tokens.finish()?;
    let line = Line::Restart { node: node.node };
    Command::new(alloc, line, &[node])
}

/// What follows `link`.
#[tactic(auto, unfolding(crate::specs::Faults::row_fault))]
pub fn link_line(alloc: Global, tokens: &mut Tokens<'_>) -> Result<Command, LineFault>
    ensures { IsRead link_row tokens.old result }
{
    let first = tokens.node(true)?;
    let second = tokens.node(true)?;
    let bearer = tokens.number(0, HIGHEST_BEARER)?;
    tokens.finish()?;
    let line = Line::Link {
        first: first.node,
        second: second.node,
        bearer: bearer as u8,
    };
    Command::new(alloc, line, &[first, second])
}

/// What follows `mark`.
#[tactic(auto, unfolding(crate::specs::Faults::row_fault))]
pub fn mark_line(alloc: Global, tokens: &mut Tokens<'_>) -> Result<Command, LineFault>
    ensures { IsRead mark_row tokens.old result }
{
    tokens.finish()?;
    let line = Line::Mark;
    Command::new(alloc, line, &[])
}

/// What follows `socket`.
#[tactic(auto, unfolding(crate::specs::Faults::row_fault))]
pub fn socket_line(alloc: Global, tokens: &mut Tokens<'_>) -> Result<Command, LineFault>
    ensures { IsRead socket_row tokens.old result }
{
    let node = tokens.node(true)?;
    tokens.finish()?;
    Command::call(alloc, node, EventNote::Socket)
}

/// What follows `arrive`.
#[tactic(auto, unfolding(crate::specs::Faults::row_fault))]
pub fn arrive_line(alloc: Global, tokens: &mut Tokens<'_>) -> Result<Command, LineFault>
    ensures { IsRead arrive_row tokens.old result }
{
    let node = tokens.node(true)?;
    let bearer = tokens.number(0, HIGHEST_BEARER)?;
    let frame = tokens.number(0, HIGHEST_FRAME)?;
    tokens.finish()?;
    let line = Line::Arrive {
        node: node.node,
        bearer: bearer as u8,
        frame: u64::from(frame),
    };
    Command::new(alloc, line, &[node])
}

/// What follows `receive`.
#[tactic(auto, unfolding(crate::specs::Faults::row_fault))]
pub fn receive_line(alloc: Global, tokens: &mut Tokens<'_>) -> Result<Command, LineFault>
    ensures { IsRead receive_row tokens.old result }
{
    let node = tokens.node(true)?;
    let port = tokens.number(0, HIGHEST_NUMBER)?;
    tokens.finish()?;
    Command::call(alloc, node, EventNote::Receive { port })
}

/// What follows `drain`.
#[tactic(auto, unfolding(crate::specs::Faults::row_fault))]
pub fn drain_line(alloc: Global, tokens: &mut Tokens<'_>) -> Result<Command, LineFault>
    ensures { IsRead drain_row tokens.old result }
{
    let node = tokens.node(true)?;
    let port = tokens.number(0, HIGHEST_NUMBER)?;
    tokens.finish()?;
    let line = Line::Drain {
        node: node.node,
        port,
    };
    Command::new(alloc, line, &[node])
}

/// What follows `pump`.
#[tactic(auto, unfolding(crate::specs::Faults::row_fault))]
pub fn pump_line(alloc: Global, tokens: &mut Tokens<'_>) -> Result<Command, LineFault>
    ensures { IsRead pump_row tokens.old result }
{
    let bearer = tokens.number(0, HIGHEST_BEARER)?;
    tokens.finish()?;
    let line = Line::Pump {
        bearer: bearer as u8,
    };
    Command::new(alloc, line, &[])
}

/// What follows `settle`.
#[tactic(auto, unfolding(crate::specs::Faults::row_fault))]
pub fn settle_line(alloc: Global, tokens: &mut Tokens<'_>) -> Result<Command, LineFault>
    ensures { IsRead settle_row tokens.old result }
{
    let rounds = tokens.number(0, MOST_ROUNDS)?;
    tokens.finish()?;
    let line = Line::Settle { rounds };
    Command::new(alloc, line, &[])
}

/// What follows `air`.
#[tactic(auto, unfolding(crate::specs::Faults::row_fault))]
pub fn air_line(alloc: Global, tokens: &mut Tokens<'_>) -> Result<Command, LineFault>
    ensures { IsRead air_row tokens.old result }
{
    let bearer = tokens.number(0, HIGHEST_BEARER)?;
    tokens.finish()?;
    let line = Line::Air {
        bearer: bearer as u8,
    };
    Command::new(alloc, line, &[])
}

/// What follows `show`.
#[tactic(auto, unfolding(crate::specs::Faults::row_fault))]
pub fn show_line(alloc: Global, tokens: &mut Tokens<'_>) -> Result<Command, LineFault>
    ensures { IsRead show_row tokens.old result }
{
    let bearer = tokens.number(0, HIGHEST_BEARER)?;
    let frame = tokens.number(0, HIGHEST_FRAME)?;
    tokens.finish()?;
    let line = Line::Show {
        bearer: bearer as u8,
        frame: u64::from(frame),
    };
    Command::new(alloc, line, &[])
}

/// What follows `links`.
#[tactic(auto, unfolding(crate::specs::Faults::row_fault))]
pub fn links_line(alloc: Global, tokens: &mut Tokens<'_>) -> Result<Command, LineFault>
    ensures { IsRead links_row tokens.old result }
{
    let node = tokens.node(true)?;
    tokens.finish()?;
    let line = Line::Links { node: node.node };
    Command::new(alloc, line, &[node])
}

/// What follows `table`.
#[tactic(auto, unfolding(crate::specs::Faults::row_fault))]
pub fn table_line(alloc: Global, tokens: &mut Tokens<'_>) -> Result<Command, LineFault>
    ensures { IsRead table_row tokens.old result }
{
    let node = tokens.node(true)?;
    tokens.finish()?;
    let line = Line::Table { node: node.node };
    Command::new(alloc, line, &[node])
}

/// What follows `flow`.
#[tactic(auto, unfolding(crate::specs::Faults::row_fault))]
pub fn flow_line(alloc: Global, tokens: &mut Tokens<'_>) -> Result<Command, LineFault>
    ensures { IsRead flow_row tokens.old result }
{
    let from = tokens.node(true)?;
    let to = tokens.node(true)?;
    tokens.finish()?;
    let line = Line::Flow {
        from: from.node,
        to: to.node,
    };
    Command::new(alloc, line, &[from, to])
}
