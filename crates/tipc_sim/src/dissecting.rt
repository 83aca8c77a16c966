//! A run over frames: the text of each is told, until the last line or one that is no frame.

ghost use Rattle.std.specs.Prelude.{ℕ, ◌≡◌, ◌⊎◌, ◌<◌, ◌≤◌, ◌^◌, IfErr, IfOk, IfSome, IsErrOf, None, Some, [], length};
ghost use Rattle.tipc_outside.specs.Causes.{Rose};
ghost use Rattle.tipc_sim.specs.Dissections.{frame_fault, dissected_line, AreFrames, Dissects, IsDissectStatus, LineDissects};
ghost use Rattle.tipc_sim.specs.Lines.{lines_of, IsWithin};

use crate::closing::{refuse, tell_stop};
use crate::reading::read_within;
use crate::scripts::first_line;
use crate::status::Status;
use crate::writing::write_text;
use std::alloc::Global;
use tipc_dissect::{FrameFault, dissect, frame_in};
use tipc_outside::{Sink, Source};
use tipc_report::{Told, print};
use tipc_script::{LineWhy, is_remark};

/// What is told of a line: nothing is asked for, or the text of the frame that it spells.
fn dissected_line(alloc: Global, number: u32, line: &[u8]) -> Result<Vec<u8>, FrameFault>
    requires { length line.now < 2 ^ 31 }
    ensures frame { IfOk result (λ text. (frame_fault line.now ≡ None) × (text.items ≡ dissected_line number line.now)) }
    ensures none { IfErr result (λ fault. (fault ≡ FrameFault.NoMemory) ⊎
        ((place : ℕ) × (fault ≡ FrameFault.BadLine place) × (frame_fault line.now ≡ Some place))) }
{
    let mut text = Vec::new(alloc);
    if is_remark(line) {
        print(number, &Told::Nothing, &mut text)?;
        return Ok(text);
    }
    let frame = frame_in(alloc, line)?;
    dissect(number, frame.as_slice(), &mut text)?;
    Ok(text)
}

/// Writes what is told of a line, or tells that it is no frame.
fn dissect_line<K: Sink>(
    alloc: Global,
    number: u32,
    line: &[u8],
    sink: &mut K,
) -> Result<(), Status>
    requires { length line.now < 2 ^ 31 }
    ensures told { LineDissects result number line.now (K.contents sink.old) (K.contents sink.new) }
    ensures failed { IsErrOf result Status.WriteFault → Rose (K.faults sink.old) (K.faults sink.new) ⊎
        Rose (K.stalls sink.old) (K.stalls sink.new) }
    ensures later { K.faults sink.old ≤ K.faults sink.new }
    ensures no_fewer { K.stalls sink.old ≤ K.stalls sink.new }
{
    let text = match dissected_line(alloc, number, line) {
        Ok(text) => text,
        Err(FrameFault::BadLine { place }) => {
            return Err(refuse(alloc, number, place, LineWhy::Body, sink));
        }
        Err(FrameFault::NoMemory) => return Err(Status::NoMemory),
    };
    write_text(sink, text.as_slice())
}

/// Tells the lines of a source, one after the other.
fn dissect_lines<K: Sink>(alloc: Global, frames: &[u8], sink: &mut K) -> Status
    requires { IsWithin frames.now }
    ensures report { Dissects frames.now result (K.contents sink.old) (K.contents sink.new) }
    ensures status { IsDissectStatus result }
    ensures failed { result ≡ Status.WriteFault → Rose (K.faults sink.old) (K.faults sink.new) ⊎
        Rose (K.stalls sink.old) (K.stalls sink.new) }
{
    let mut rest = frames;
    let mut done = 0;
    while !rest.is_empty() {
        let (line, behind) = first_line(rest);
        if let Err(status) = dissect_line(alloc, done + 1, line, sink) {
            return status;
        }
        done += 1;
        rest = behind;
    }
    Status::Ok
}

/// Tells the frames that a source holds, which is read to its end first.
pub fn dissect_source<S: Source, K: Sink>(alloc: Global, source: &mut S, sink: &mut K) -> Status
    ensures report { IfSome (S.left source.old) (λ frames. Dissects frames result (K.contents sink.old)
        (K.contents sink.new)) }
    ensures used { result ≡ Status.Usage → ⊥ }
    ensures read { result ≡ Status.ReadFault → Rose (S.faults source.old) (S.faults source.new) ×
        (sink.new ≡ sink.old) }
    ensures write { result ≡ Status.WriteFault → Rose (K.faults sink.old) (K.faults sink.new) ⊎
        Rose (K.stalls sink.old) (K.stalls sink.new) }
    ensures end { result ≡ Status.Ok → IfSome (S.left source.old) (λ frames. S.left source.new ≡ Some []) }
    ensures complete { IfSome (S.left source.old) (λ frames. IsWithin frames → AreFrames (lines_of frames)
        → (Rose (S.faults source.old) (S.faults source.new) → ⊥) →
        (Rose (K.faults sink.old) (K.faults sink.new) → ⊥) → (Rose (K.stalls sink.old) (K.stalls sink.new) → ⊥)
        → (result ≡ Status.Ok) ⊎ (result ≡ Status.NoMemory)) }
{
    match read_within(alloc, source) {
        Ok(frames) => dissect_lines(alloc, frames.as_slice(), sink),
        Err(stop) => tell_stop(alloc, stop, sink),
    }
}
