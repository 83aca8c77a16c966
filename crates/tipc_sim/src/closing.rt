//! Closing lines: a report ends with one at a bad line, and at a limit.

ghost use Rattle.std.specs.Prelude.{ℕ, ◌≡◌, ◌⊎◌, ◌≤◌, IfOk, List};
ghost use Rattle.std.specs.Io.KnownBytes.{Appends};
ghost use Rattle.tipc_outside.specs.Causes.{Rose};
ghost use Rattle.tipc_report.specs.Text.{bad_line, limit_line};
ghost use Rattle.tipc_sim.specs.Output.{AppendsPart};
ghost use Rattle.tipc_sim.specs.Steps.{IsBadStatus, IsLimitStatus};
ghost use Rattle.tipc_sim.specs.Unread.{EndsUnread, StopsReading, IsUnreadStatus};

use crate::reading::ReadStop;
use crate::status::Status;
use crate::writing::write_text;
use std::alloc::Global;
use tipc_outside::Sink;
use tipc_report::{Which, print_bad, print_limit};
use tipc_script::LineWhy;
use tipc_types::NoMemory;

/// The closing line of a bad line.
fn bad_text(alloc: Global, number: u32, place: u32, why: LineWhy) -> Result<Vec<u8>, NoMemory>
    ensures { IfOk result (λ text. text.items ≡ bad_line number place why) }
{
    let mut text = Vec::new(alloc);
    print_bad(number, place, why, &mut text)?;
    Ok(text)
}

/// Tells a bad line, and answers the status of that.
pub fn refuse<K: Sink>(alloc: Global, number: u32, place: u32, why: LineWhy, sink: &mut K) -> Status
    ensures bad { result ≡ Status.BadLine → Appends (K.contents sink.old) (K.contents sink.new)
        (bad_line number place why) }
    ensures part { (result ≡ Status.BadLine → ⊥) → AppendsPart (K.contents sink.old) (K.contents sink.new)
        (bad_line number place why) }
    ensures status { IsBadStatus result }
    ensures failed { result ≡ Status.WriteFault → Rose (K.faults sink.old) (K.faults sink.new) ⊎
        Rose (K.stalls sink.old) (K.stalls sink.new) }
    ensures later { K.faults sink.old ≤ K.faults sink.new }
    ensures no_fewer { K.stalls sink.old ≤ K.stalls sink.new }
{
    let Ok(text) = bad_text(alloc, number, place, why) else {
        return Status::NoMemory;
    };
    match write_text(sink, text.as_slice()) {
        Ok(()) => Status::BadLine,
        Err(status) => status,
    }
}

/// The closing line of a limit.
fn limit_text(alloc: Global, number: u32, which: Which) -> Result<Vec<u8>, NoMemory>
    ensures { IfOk result (λ text. text.items ≡ limit_line number which) }
{
    let mut text = Vec::new(alloc);
    print_limit(number, which, &mut text)?;
    Ok(text)
}

/// Tells that a limit is reached, and answers the status of that.
pub fn tell_limit<K: Sink>(alloc: Global, number: u32, which: Which, sink: &mut K) -> Status
    ensures limit { result ≡ Status.Limit → Appends (K.contents sink.old) (K.contents sink.new)
        (limit_line number which) }
    ensures part { (result ≡ Status.Limit → ⊥) → AppendsPart (K.contents sink.old) (K.contents sink.new)
        (limit_line number which) }
    ensures status { IsLimitStatus result }
    ensures failed { result ≡ Status.WriteFault → Rose (K.faults sink.old) (K.faults sink.new) ⊎
        Rose (K.stalls sink.old) (K.stalls sink.new) }
    ensures later { K.faults sink.old ≤ K.faults sink.new }
    ensures no_fewer { K.stalls sink.old ≤ K.stalls sink.new }
{
    let Ok(text) = limit_text(alloc, number, which) else {
        return Status::NoMemory;
    };
    match write_text(sink, text.as_slice()) {
        Ok(()) => Status::Limit,
        Err(status) => status,
    }
}

/// Tells why a source isn't read, and answers the status of that. Only a limit has a line.
pub fn tell_stop<K: Sink>(alloc: Global, stop: ReadStop, sink: &mut K) -> Status
    ensures told { (script : List ℕ) → StopsReading stop script →
        EndsUnread result script (K.contents sink.old) (K.contents sink.new) }
    ensures status { IsUnreadStatus result }
    ensures read { result ≡ Status.ReadFault → (stop ≡ ReadStop.Failed) × (sink.new ≡ sink.old) }
    ensures failed { result ≡ Status.WriteFault → Rose (K.faults sink.old) (K.faults sink.new) ⊎
        Rose (K.stalls sink.old) (K.stalls sink.new) }
{
    match stop {
        ReadStop::Failed => Status::ReadFault,
        ReadStop::TooLong => tell_limit(alloc, 0, Which::Bytes, sink),
        ReadStop::TooMany => tell_limit(alloc, 0, Which::Lines, sink),
        ReadStop::NoMemory => Status::NoMemory,
    }
}
