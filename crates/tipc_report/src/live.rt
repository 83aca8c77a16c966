//! The lines of the report of a live run.

ghost use Rattle.std.specs.Prelude.{◌≡◌, ◌∷◌, ◌++◌, OnOk, OnErr, IfOk, codes};
ghost use Rattle.tipc_report.specs.Closing.{spaced};
ghost use Rattle.tipc_report.specs.Live.{counts_line, counts_words, plan_line, verdict_line, verdict_words};

use crate::words::{flow, numbered};
use std::alloc::Global;
use tipc_types::NoMemory;

/// What the audit of a live run found. (This project's profile.)
#[derive(Clone, Copy, Debug, PartialEq, Eq)]
pub enum Verdict {
    /// The run is one of the world, and each node's journal shows the plan.
    Yes,
    /// A node's journal isn't what its steps make again.
    Differ {
        /// The node's number.
        node: u8,
        /// The place of the first entry that differs, from 1.
        place: u64,
    },
    /// Two steps have one stamp.
    Twice {
        /// The stamp.
        stamp: u64,
    },
    /// A caller tells of a call otherwise than the journal of its node does; or this is the call behind all that it made, at which it
    /// was told that the journal is full, and the journal has room.
    Told {
        /// The node's number.
        node: u8,
        /// The caller's number.
        caller: u32,
        /// The number of the call, from 0.
        call: u64,
    },
    /// No frame with the bytes that arrived was sent to that node on that bearer before.
    NoFrame {
        /// The node's number.
        node: u8,
        /// The number of the arrival, from 0.
        number: u64,
    },
    /// The latest frame with the bytes that arrived was too old.
    TooOld {
        /// The node's number.
        node: u8,
        /// The number of the arrival, from 0.
        number: u64,
        /// How many packets were numbered since it was sent.
        count: u64,
    },
    /// The run is one of the world, but a node's journal doesn't show the plan.
    Plan {
        /// The node's number.
        node: u8,
    },
}

/// The text of what the audit found.
fn verdict_text(alloc: Global, verdict: Verdict) -> Result<Vec<u8>, NoMemory>
    ensures { IfOk result (λ text. text.items ≡ spaced (codes "audit" ∷ verdict_words verdict)) }
{
    let text = match verdict {
        Verdict::Yes => format!(in alloc; "audit yes")?,
        Verdict::Differ { node, place } => format!(in alloc; "audit differ {node} {place}")?,
        Verdict::Twice { stamp } => format!(in alloc; "audit twice {stamp}")?,
        Verdict::Told { node, caller, call } => {
            format!(in alloc; "audit told {node} {caller} {call}")?
        }
        Verdict::NoFrame { node, number } => format!(in alloc; "audit no-frame {node} {number}")?,
        Verdict::TooOld {
            node,
            number,
            count,
        } => format!(in alloc; "audit too-old {node} {number} {count}")?,
        Verdict::Plan { node } => format!(in alloc; "audit plan {node}")?,
    };
    Ok(text.into_bytes())
}

/// The text of what is counted of a node.
fn counts_text(
    alloc: Global,
    node: u32,
    accepted: u64,
    delivered: u64,
    calls: u64,
) -> Result<Vec<u8>, NoMemory>
    ensures { IfOk result (λ text. text.items ≡ spaced (counts_words node accepted delivered calls)) }
{
    let mut text = numbered(alloc, "node", u64::from(node))?;
    let messages = flow(alloc, accepted, delivered)?;
    let answered = numbered(alloc, "calls", calls)?;
    text.push(b' ')?;
    text.extend_from_slice(messages.as_slice())?;
    text.push(b' ')?;
    text.extend_from_slice(answered.as_slice())?;
    Ok(text)
}

/// Appends the first line of the report of a live run: `nodes`, how many these are, `callers`, how many each of them has, `messages`, how many
/// each of these sends, and a newline, with single spaces between. (This project's profile.) Where memory runs out, nothing is appended.
#[tactic(auto, unfolding(crate::specs::Live::plan_line))]
pub fn print_plan(nodes: u8, callers: u8, messages: u32, into: &mut Vec<u8>) -> Result<(), NoMemory>
    ensures ok { OnOk result (into.new.items ≡ into.old.items ++ plan_line nodes callers messages) }
    ensures err { OnErr result (into.new.items ≡ into.old.items) }
{
    let alloc = *into.allocator();
    let line = format!(in alloc; "nodes {nodes} callers {callers} messages {messages}\n")?;
    into.extend_from_slice(line.into_bytes().as_slice())?;
    Ok(())
}

/// Appends the line of a node of a live run: `node`, its number, `accepted` and `delivered`, each with how many messages these were, `calls`, how
/// many were answered, and a newline, with single spaces between. (This project's profile.) Where memory runs out, nothing is appended.
#[tactic(auto, unfolding(crate::specs::Live::counts_line))]
pub fn print_counts(
    node: u32,
    accepted: u64,
    delivered: u64,
    calls: u64,
    into: &mut Vec<u8>,
) -> Result<(), NoMemory>
    ensures ok { OnOk result (into.new.items ≡ into.old.items ++ counts_line node accepted delivered calls) }
    ensures err { OnErr result (into.new.items ≡ into.old.items) }
{
    let alloc = *into.allocator();
    let mut text = counts_text(alloc, node, accepted, delivered, calls)?;
    text.push(b'\n')?;
    into.extend_from_slice(text.as_slice())?;
    Ok(())
}

/// Appends the last line of the report of a live run: `audit`, what it found, and a newline. (This project's profile.) Where memory runs out,
/// nothing is appended.
#[tactic(auto, unfolding(crate::specs::Live::verdict_line))]
pub fn print_verdict(verdict: Verdict, into: &mut Vec<u8>) -> Result<(), NoMemory>
    ensures ok { OnOk result (into.new.items ≡ into.old.items ++ verdict_line verdict) }
    ensures err { OnErr result (into.new.items ≡ into.old.items) }
{
    let alloc = *into.allocator();
    let mut text = verdict_text(alloc, verdict)?;
    text.push(b'\n')?;
    into.extend_from_slice(text.as_slice())?;
    Ok(())
}
