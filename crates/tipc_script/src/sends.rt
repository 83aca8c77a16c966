//! The tokens behind the first words that send messages.

ghost use Rattle.std.specs.Prelude.{◌≡◌, [], IfOk};
ghost use Rattle.tipc_script.specs.Grammar.{burst_row, repeat_row, send_row, sending, sends_by, sent_line};
ghost use Rattle.tipc_script.specs.Shapes.{line_in, nodes_in};
ghost use Rattle.tipc_script.specs.Faults.{IsRead, Tells, fault_in};
ghost use Rattle.tipc_script.specs.declared.lines.SendForm.{SendForm};

use crate::faults::{LineFault, LineWhy};
use crate::lines::{Command, Line, SendForm};
use crate::tokens::{HIGHEST_NUMBER, Tokens};
use std::alloc::Global;
use tipc_types::{Addr, EventNote, PortId};

/// The most times that something is done again.
const MOST_TIMES: u32 = 1_000_000;

/// A call of a node that sends a message, once or up to so many times.
fn sent_line(times: Option<u32>, node: u8, call: EventNote) -> Line
    ensures { result ≡ sent_line times node call }
{
    match times {
        None => Line::Call { node, call },
        Some(times) => Line::Repeat { times, node, call },
    }
}

/// The rest of a line that sends a message by name from a port of a node, once or up to so many times.
fn send_by_name(
    alloc: Global,
    times: Option<u32>,
    node: u8,
    port: u32,
    tokens: &mut Tokens<'_>,
) -> Result<Line, LineFault>
    ensures fault { Tells result (fault_in (sends_by SendForm.Name times node port) tokens.old) }
    ensures line { IfOk result (λ l. l ≡ line_in (sends_by SendForm.Name times node port) tokens.old) }
{
    let kind = tokens.number(0, HIGHEST_NUMBER)?;
    let instance = tokens.number(0, HIGHEST_NUMBER)?;
    let importance = tokens.importance()?;
    let body = tokens.body(alloc)?;
    tokens.finish()?;
    let call = EventNote::SendName {
        port,
        kind,
        instance,
        importance,
        body,
    };
    Ok(sent_line(times, node, call))
}

/// The rest of a line that sends a message to a port from a port of a node, once or up to so many times.
fn send_to_port(
    alloc: Global,
    times: Option<u32>,
    node: u8,
    port: u32,
    tokens: &mut Tokens<'_>,
) -> Result<Line, LineFault>
    ensures fault { Tells result (fault_in (sends_by SendForm.Port times node port) tokens.old) }
    ensures line { IfOk result (λ l. l ≡ line_in (sends_by SendForm.Port times node port) tokens.old) }
{
    let to_node = tokens.node_number()?;
    let to_port = tokens.number(0, HIGHEST_NUMBER)?;
    let importance = tokens.importance()?;
    let body = tokens.body(alloc)?;
    tokens.finish()?;
    let to = PortId {
        node: Addr::node(to_node),
        port: to_port,
    };
    let call = EventNote::SendPort {
        port,
        to,
        importance,
        body,
    };
    Ok(sent_line(times, node, call))
}

/// The rest of a line that sends a message from a port of a node to all who offer an instance of a range, once or up to
/// so many times. A range without instances is no fault.
fn send_to_all(
    alloc: Global,
    times: Option<u32>,
    node: u8,
    port: u32,
    tokens: &mut Tokens<'_>,
) -> Result<Line, LineFault>
    ensures fault { Tells result (fault_in (sends_by SendForm.Cast times node port) tokens.old) }
    ensures line { IfOk result (λ l. l ≡ line_in (sends_by SendForm.Cast times node port) tokens.old) }
{
    let kind = tokens.number(0, HIGHEST_NUMBER)?;
    let lower = tokens.number(0, HIGHEST_NUMBER)?;
    let upper = tokens.number(0, HIGHEST_NUMBER)?;
    let importance = tokens.importance()?;
    let body = tokens.body(alloc)?;
    tokens.finish()?;
    let call = EventNote::Multicast {
        port,
        kind,
        lower,
        upper,
        importance,
        body,
    };
    Ok(sent_line(times, node, call))
}

/// The rest of a line that sends a message from a port of a node, behind the word that tells the form.
fn send_by(
    alloc: Global,
    form: SendForm,
    times: Option<u32>,
    node: u8,
    port: u32,
    tokens: &mut Tokens<'_>,
) -> Result<Line, LineFault>
    ensures fault { Tells result (fault_in (sends_by form times node port) tokens.old) }
    ensures line { IfOk result (λ l. l ≡ line_in (sends_by form times node port) tokens.old) }
    ensures nodes { nodes_in (sends_by form times node port) tokens.old ≡ [] }
{
    match form {
        SendForm::Name => send_by_name(alloc, times, node, port, tokens),
        SendForm::Port => send_to_port(alloc, times, node, port, tokens),
        SendForm::Cast => send_to_all(alloc, times, node, port, tokens),
    }
}

/// What follows `send`, where the message is sent once or up to so many times.
fn sending(alloc: Global, times: Option<u32>, tokens: &mut Tokens<'_>) -> Result<Command, LineFault>
    ensures fault { Tells result (fault_in (sending times) tokens.old) }
    ensures line { IfOk result (λ c. c.line ≡ line_in (sending times) tokens.old) }
    ensures nodes { IfOk result (λ c. c.nodes ≡ nodes_in (sending times) tokens.old) }
{
    let node = tokens.node(true)?;
    let port = tokens.number(0, HIGHEST_NUMBER)?;
    let form = tokens.form()?;
    let line = send_by(alloc, form, times, node.node, port, tokens)?;
    Command::new(alloc, line, &[node])
}

/// What follows `send`.
#[tactic(auto, unfolding(crate::specs::Faults::row_fault))]
pub fn send_line(alloc: Global, tokens: &mut Tokens<'_>) -> Result<Command, LineFault>
    ensures { IsRead send_row tokens.old result }
{
    sending(alloc, None, tokens)
}

/// What follows `repeat`: how many times, and a line that sends.
#[tactic(auto, unfolding(crate::specs::Faults::row_fault))]
pub fn repeat_line(alloc: Global, tokens: &mut Tokens<'_>) -> Result<Command, LineFault>
    ensures { IsRead repeat_row tokens.old result }
{
    let times = tokens.number(1, MOST_TIMES)?;
    tokens.word(b"send", LineWhy::Command)?;
    sending(alloc, Some(times), tokens)
}

/// What follows `burst`.
#[tactic(auto, unfolding(crate::specs::Faults::row_fault))]
pub fn burst_line(alloc: Global, tokens: &mut Tokens<'_>) -> Result<Command, LineFault>
    ensures { IsRead burst_row tokens.old result }
{
    let node = tokens.node(true)?;
    let port = tokens.number(0, HIGHEST_NUMBER)?;
    let to_node = tokens.node(true)?;
    let to_port = tokens.number(0, HIGHEST_NUMBER)?;
    let times = tokens.number(1, MOST_TIMES)?;
    let body = tokens.body(alloc)?;
    tokens.finish()?;
    let line = Line::Burst {
        node: node.node,
        port,
        to_node: to_node.node,
        to_port,
        times,
        body,
    };
    Command::new(alloc, line, &[node, to_node])
}
