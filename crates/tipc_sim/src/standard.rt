//! The run over standard input and output.

ghost use Rattle.std.specs.Prelude.{◌≡◌, ◌⊎◌, ◌↔◌, IfOk, IfErr, [], map, None, Some};
ghost use Rattle.std.specs.Io.Buffered.{writer_buffer};
ghost use Rattle.std.specs.IoError.{error_kind};
ghost use Rattle.std.specs.String.{string_bytes};
ghost use Rattle.tipc_work.specs.Plans.{IsLivePlan};
ghost use Rattle.tipc_sim.specs.LiveWords.{live_plan};
ghost use Rattle.tipc_sim.specs.Streams.{failed_reads, failed_writes};
ghost use Rattle.tipc_sim.specs.Words.{form_of, status_of, words_after_name};

use crate::live::{live_plan, run_bearers};
use crate::running::run;
use crate::status::Status;
use crate::streams::{Input, Output};
use crate::words::words_behind;
use std::alloc::Global;
use std::env::Args;
use std::io::{BufWriter, Write};
use std::mem::forget;
use std::net::Net;
use std::sync::Wait;
use std::thread::Threads;
use std::{io, time};
use tipc_pick::{Chooser, RoundRobin};
use tipc_work::LivePlan;
use tipc_world::World;

/// Runs the script that a reader holds, and writes its report to a writer. Where a call of one of them failed, the
/// run ends so, whatever else it came to.
fn run_streams<R: io::Read + Drop, W: io::Write + Drop>(
    alloc: Global,
    words: &[String],
    input: &mut Input<R>,
    output: &mut Output<W>,
) -> Status
    requires fresh { (failed_reads input.old.source ≡ 0) × (failed_writes output.old.sink ≡ 0) }
    ensures usage { (result ≡ Status.Usage) ↔ (form_of (map string_bytes words.now) ≡ None) }
    ensures read { (result ≡ Status.ReadFault) ↔ (failed_reads input.new.source ≡ 1) }
    ensures write { (result ≡ Status.WriteFault) ↔ (failed_reads input.new.source ≡ 0) ×
        (failed_writes output.new.sink ≡ 1) }
{
    let mut world = World::new(alloc, Chooser::new(RoundRobin));
    let status = run(alloc, words, input, output, &mut world);
    // The process ends soon, which gives all its memory back at once: the world isn't taken apart piece by piece.
    forget(world);
    status.after_streams(input.has_failed(), output.has_failed())
}

/// Runs the script that a reader holds, writes its report to a writer with a buffer, and gives out what is left in
/// the buffer.
fn run_buffered<R: io::Read + Drop, W: io::Write + Drop>(
    alloc: Global,
    words: &[String],
    reader: R,
    writer: &mut BufWriter<W>,
) -> Status
    ensures usage { (result ≡ Status.Usage) ↔ (form_of (map string_bytes words.now) ≡ None) }
    ensures flushed { (result ≡ Status.Usage) ⊎ ((result ≡ Status.WriteFault) ⊎ (writer_buffer writer.new ≡ [])) }
{
    let status = run_streams(
        alloc,
        words,
        &mut Input::new(reader),
        &mut Output::new(&mut *writer),
    );
    status.after_flush(writer.flush().is_ok())
}

/// Runs a plan live, writes its report to a writer with a buffer, and gives out what is left in the buffer.
fn run_live_buffered<R: Threads + Wait + Sync + time::Clock + Net, W: io::Write + Drop>(
    rt: &R,
    alloc: Global,
    words: &[String],
    plan: &LivePlan,
    writer: &mut BufWriter<W>,
) -> Status
    requires { (live_plan (map string_bytes words.now) ≡ Some plan.now) × IsLivePlan plan.now }
    ensures usage { result ≡ Status.Usage → ⊥ }
    ensures flushed { (result ≡ Status.WriteFault) ⊎ (writer_buffer writer.new ≡ []) }
{
    let mut output = Output::new(&mut *writer);
    let ended = run_bearers(rt, alloc, words, plan, &mut output);
    ended.after_flush(writer.flush().is_ok())
}

/// Runs the script of standard input, or a plan live, where the program's arguments ask for it, and gives out what the
/// run wrote.
///
/// The handle by which a live run may start threads and wait is the runtime's own, which it has in `main` alone.
pub fn run_standard<R: Threads + Wait + Sync + time::Clock + Net>(
    rt: &HostRuntime,
    live: &R,
    args: io::Result<Args>,
) -> Status
    ensures usage { result ≡ Status.Usage → IfOk args (λ all. (form_of (words_after_name all) ≡ None) ×
        (live_plan (words_after_name all) ≡ None)) }
    ensures form { IfOk args (λ all. form_of (words_after_name all) ≡ None → live_plan (words_after_name all) ≡ None
        → (result ≡ Status.Usage) ⊎ (result ≡ Status.NoMemory)) }
    ensures none { IfErr args (λ error. result ≡ status_of (error_kind error)) }
{
    let words = match words_behind(rt.alloc(), args) {
        Ok(words) => words,
        Err(status) => return status,
    };
    let Ok(mut writer) = BufWriter::new(rt.alloc(), io::writer(rt)) else {
        return Status::NoMemory;
    };
    match live_plan(words.as_slice()) {
        Some(plan) => run_live_buffered(live, rt.alloc(), words.as_slice(), &plan, &mut writer),
        None => run_buffered(rt.alloc(), words.as_slice(), rt.reader(), &mut writer),
    }
}
