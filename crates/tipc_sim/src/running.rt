//! The run of a script: each line is done and answered, until the last or a fault.

ghost use Rattle.std.specs.Prelude.{ℕ, ◌≡◌, ◌⊎◌, ◌<◌, ◌≤◌, ◌^◌, ◌↔◌, OnOk, OnErr, IfErr, IfOk, IfSome, IsErrOf, Err, Some, None, [], length, map, true, false};
ghost use Rattle.std.specs.String.{string_bytes};
ghost use Rattle.std.specs.Io.KnownBytes.{Appends};
ghost use Rattle.tipc_outside.specs.Causes.{Rose};
ghost use Rattle.tipc_report.specs.Text.{seed_line};
ghost use Rattle.tipc_load.specs.Load.{generated};
ghost use Rattle.tipc_world.specs.States.{is_there, no_nodes};
ghost use Rattle.tipc_world.specs.Good.{IsGood};
ghost use Rattle.tipc_world.specs.Growth.{Grows};
ghost use Rattle.tipc_sim.specs.Lines.{lines_of, IsWithin};
ghost use Rattle.tipc_sim.specs.Nodes.{AreSound, IsFirstBad};
ghost use Rattle.tipc_sim.specs.Dissections.{AreFrames, Dissects};
ghost use Rattle.tipc_sim.specs.Words.{first_told, form_of, head_of, OnFrames, OnScript};
ghost use Rattle.tipc_script.specs.Faults.{Fault};
ghost use Rattle.tipc_sim.specs.Happenings.{scene, which_of};
ghost use Rattle.tipc_sim.specs.Reports.{ReachesLimit, Reports};
ghost use Rattle.tipc_sim.specs.Output.{AppendsPart};
ghost use Rattle.tipc_sim.specs.Steps.{LineRuns, IsWriteStatus, IsLinesStatus};

use crate::closing::{refuse, tell_limit, tell_stop};
use crate::dissecting::dissect_source;
use crate::lines::{do_line, line_in};
use crate::notes::Notes;
use crate::reading::read_within;
use crate::scripts::first_line;
use crate::status::Status;
use crate::words::{Form, form_of};
use crate::writing::write_text;
use std::alloc::Global;
use tipc_load::generate;
use tipc_outside::{Sink, Source};
use tipc_pick::Pick;
use tipc_report::{Which, print_seed};
use tipc_script::LineFault;
use tipc_types::NoMemory;
use tipc_world::{Limit, World, WorldFault};

/// The first line of a generated script whose answer is written: its last settling. (This project's profile.)
const FIRST_TOLD: u32 = 1048;

/// How a limit of a world is told.
fn which_of(limit: Limit) -> Which
    ensures { result ≡ which_of limit }
{
    match limit {
        Limit::Events => Which::Events,
        Limit::Frames => Which::Frames,
        Limit::Journal => Which::Journal,
    }
}

/// Runs one line: does what it asks for and prints its answer, or tells that it is bad or reaches a limit. No answer is
/// printed of a line before the first that is written.
fn run_line<K: Sink, P: Pick>(
    alloc: Global,
    from: u32,
    number: u32,
    text: &[u8],
    sink: &mut K,
    world: &mut World<P>,
    notes: &mut Notes,
) -> Result<(), Status>
    requires short { length text.now < 2 ^ 31 }
    requires kept { world.old.state.lost ≡ false }
    requires good { IsGood P.gives world.old }
    ensures good { IsGood P.gives world.new }
    ensures grows { Grows world.old.state world.new.state }
    ensures kept { (result ≡ Err Status.NoMemory → ⊥) → world.new.state.lost ≡ false }
    ensures run { LineRuns result from number text.now (scene world.old.state notes.old)
        (scene world.new.state notes.new) (K.contents sink.old) (K.contents sink.new) }
    ensures failed { IsErrOf result Status.WriteFault → Rose (K.faults sink.old) (K.faults sink.new) ⊎
        Rose (K.stalls sink.old) (K.stalls sink.new) }
    ensures later { K.faults sink.old ≤ K.faults sink.new }
    ensures no_fewer { K.stalls sink.old ≤ K.stalls sink.new }
{
    let line = match line_in(alloc, text, world) {
        Ok(line) => line,
        Err(LineFault::BadLine { place, why }) => {
            return Err(refuse(alloc, number, place, why, sink));
        }
        Err(LineFault::NoMemory) => return Err(Status::NoMemory),
    };
    let printed = match do_line(alloc, from, number, line, world, notes) {
        Ok(printed) => printed,
        Err(WorldFault::Limit(limit)) => {
            return Err(tell_limit(alloc, number, which_of(limit), sink));
        }
        Err(WorldFault::NoMemory) => return Err(Status::NoMemory),
    };
    write_text(sink, printed.as_slice())
}

/// Runs the lines of a script, one after the other. The answers from a line on are written.
fn run_lines<K: Sink, P: Pick>(
    alloc: Global,
    script: &[u8],
    from: u32,
    sink: &mut K,
    world: &mut World<P>,
) -> Status
    requires within { IsWithin script.now }
    requires empty { (n : ℕ) → is_there world.old.state n ≡ false }
    requires kept { world.old.state.lost ≡ false }
    requires good { IsGood P.gives world.old }
    ensures good { IsGood P.gives world.new }
    ensures kept { (result ≡ Status.NoMemory → ⊥) → world.new.state.lost ≡ false }
    ensures report { Reports [] from script.now result world.old.state world.new.state (K.contents sink.old)
        (K.contents sink.new) }
    ensures sound { result ≡ Status.Ok → AreSound (lines_of script.now) }
    ensures status { IsLinesStatus result }
    ensures failed { result ≡ Status.WriteFault → Rose (K.faults sink.old) (K.faults sink.new) ⊎
        Rose (K.stalls sink.old) (K.stalls sink.new) }
{
    let mut notes = Notes::new();
    let mut rest = script;
    let mut done = 0;
    while !rest.is_empty() {
        let (line, behind) = first_line(rest);
        if let Err(status) = run_line(alloc, from, done + 1, line, sink, world, &mut notes) {
            return status;
        }
        done += 1;
        rest = behind;
    }
    Status::Ok
}

/// The first line of the report of a generated script.
fn seed_text(alloc: Global, seed: u32) -> Result<Vec<u8>, NoMemory>
    ensures { IfOk result (λ text. text.items ≡ seed_line seed) }
{
    let mut text = Vec::new(alloc);
    print_seed(seed, &mut text)?;
    Ok(text)
}

/// Writes the first line of the report of a generated script, or answers the status of what stopped it.
fn write_head<K: Sink>(alloc: Global, seed: u32, sink: &mut K) -> Result<(), Status>
    ensures ok { OnOk result (Appends (K.contents sink.old) (K.contents sink.new) (seed_line seed)) }
    ensures part { OnErr result (AppendsPart (K.contents sink.old) (K.contents sink.new) (seed_line seed)) }
    ensures status { IfErr result IsWriteStatus }
    ensures failed { IsErrOf result Status.WriteFault → Rose (K.faults sink.old) (K.faults sink.new) ⊎
        Rose (K.stalls sink.old) (K.stalls sink.new) }
    ensures later { K.faults sink.old ≤ K.faults sink.new }
    ensures no_fewer { K.stalls sink.old ≤ K.stalls sink.new }
{
    let Ok(head) = seed_text(alloc, seed) else {
        return Err(Status::NoMemory);
    };
    write_text(sink, head.as_slice())
}

/// Runs the script that a source holds, which is read to its end first.
fn run_source<S: Source, K: Sink, P: Pick>(
    alloc: Global,
    source: &mut S,
    sink: &mut K,
    world: &mut World<P>,
) -> Status
    requires empty { world.old.state ≡ no_nodes }
    requires start { world.old.chooser.turn ≡ 0 }
    ensures good { IsGood P.gives world.new }
    ensures report { IfSome (S.left source.old) (λ script. Reports [] 1 script result world.old.state world.new.state
        (K.contents sink.old) (K.contents sink.new)) }
    ensures used { result ≡ Status.Usage → ⊥ }
    ensures read { result ≡ Status.ReadFault → Rose (S.faults source.old) (S.faults source.new) ×
        (sink.new ≡ sink.old) × (world.new ≡ world.old) }
    ensures write { result ≡ Status.WriteFault → Rose (K.faults sink.old) (K.faults sink.new) ⊎
        Rose (K.stalls sink.old) (K.stalls sink.new) }
    ensures limit { result ≡ Status.Limit → IfSome (S.left source.old) (λ script. (IsWithin script → ⊥) ⊎
        ReachesLimit 1 script world.old.state world.new.state) }
    ensures within { (result ≡ Status.Ok) ⊎ (result ≡ Status.BadLine) → IfSome (S.left source.old) IsWithin }
    ensures bad { result ≡ Status.BadLine → IfSome (S.left source.old) (λ script. (i : ℕ) × (fault : Fault) ×
        IsFirstBad (lines_of script) i fault) }
    ensures sound { result ≡ Status.Ok → IfSome (S.left source.old) (λ script. AreSound (lines_of script)) }
    ensures end { result ≡ Status.Ok → IfSome (S.left source.old) (λ script. S.left source.new ≡ Some []) }
    ensures lost { world.new.state.lost ≡ true → result ≡ Status.NoMemory }
    ensures complete { IfSome (S.left source.old) (λ script. IsWithin script → AreSound (lines_of script)
        → (Rose (S.faults source.old) (S.faults source.new) → ⊥) →
        (Rose (K.faults sink.old) (K.faults sink.new) → ⊥) → (Rose (K.stalls sink.old) (K.stalls sink.new) → ⊥)
        → (result ≡ Status.Ok) ⊎ ((result ≡ Status.NoMemory) ⊎
        ((result ≡ Status.Limit) × ReachesLimit 1 script world.old.state world.new.state))) }
{
    let script = match read_within(alloc, source) {
        Ok(script) => script,
        Err(stop) => return tell_stop(alloc, stop, sink),
    };
    run_lines(alloc, script.as_slice(), 1, sink, world)
}

/// Runs the script that a number stands for. Its number is written first, and then what its last lines are answered.
fn run_generated<K: Sink, P: Pick>(
    alloc: Global,
    seed: u32,
    sink: &mut K,
    world: &mut World<P>,
) -> Status
    requires empty { world.old.state ≡ no_nodes }
    requires start { world.old.chooser.turn ≡ 0 }
    ensures good { IsGood P.gives world.new }
    ensures report { Reports (seed_line seed) 1048 (generated seed) result world.old.state world.new.state
        (K.contents sink.old) (K.contents sink.new) }
    ensures status { IsLinesStatus result }
    ensures sound { result ≡ Status.BadLine → ⊥ }
    ensures write { result ≡ Status.WriteFault → Rose (K.faults sink.old) (K.faults sink.new) ⊎
        Rose (K.stalls sink.old) (K.stalls sink.new) }
    ensures limit { result ≡ Status.Limit → ReachesLimit 1048 (generated seed) world.old.state world.new.state }
    ensures lost { world.new.state.lost ≡ true → result ≡ Status.NoMemory }
{
    let Ok(script) = generate(alloc, u64::from(seed)) else {
        return Status::NoMemory;
    };
    if let Err(status) = write_head(alloc, seed, sink) {
        return status;
    }
    run_lines(alloc, script.as_slice(), FIRST_TOLD, sink, world)
}

/// Runs the script that a source holds, or the one that a number stands for, and writes its report to a sink; or
/// dissects the frames that a source holds.
///
/// The forms are the words `run` and `dissect` alone, and `gen` and a number from 1 to 1,000. Under `run` and `dissect`
/// the source is read to its end first; under `gen` nothing is read. Then each line is read, done and answered by a
/// printed line before the next one. Under `gen` the line `gen` and the number is written first, and of the answers
/// those from line 1,048 on. Under `dissect` a line is a frame in lower-case hexadecimal, and is answered by the
/// frame's text. (This project's profile.)
pub fn run<S: Source, K: Sink, P: Pick>(
    alloc: Global,
    words: &[String],
    source: &mut S,
    sink: &mut K,
    world: &mut World<P>,
) -> Status
    requires empty { world.old.state ≡ no_nodes }
    requires start { world.old.chooser.turn ≡ 0 }

    // Whatever the status, the messages delivered are a front of those accepted.
    ensures good { IsGood P.gives world.new }

    // What is written: a front of the script's report, and the whole of it at Ok, BadLine and Limit. A closing line is
    // written whole at its own status alone.
    ensures report { OnScript (map string_bytes words.now) (S.left source.old) (λ form script.
        Reports (head_of form) (first_told form) script result world.old.state world.new.state
        (K.contents sink.old) (K.contents sink.new)) }

    // Where each status comes.
    ensures usage { (result ≡ Status.Usage) ↔ (form_of (map string_bytes words.now) ≡ None) }
    ensures untouched { result ≡ Status.Usage → (source.new ≡ source.old) × (sink.new ≡ sink.old) ×
        (world.new ≡ world.old) }
    ensures read { result ≡ Status.ReadFault → Rose (S.faults source.old) (S.faults source.new) ×
        (sink.new ≡ sink.old) × (world.new ≡ world.old) }
    ensures write { result ≡ Status.WriteFault → Rose (K.faults sink.old) (K.faults sink.new) ⊎
        Rose (K.stalls sink.old) (K.stalls sink.new) }
    ensures limit { result ≡ Status.Limit → OnScript (map string_bytes words.now) (S.left source.old) (λ form script.
        (IsWithin script → ⊥) ⊎ ReachesLimit (first_told form) script world.old.state world.new.state) }
    ensures within { (result ≡ Status.Ok) ⊎ (result ≡ Status.BadLine) →
        OnScript (map string_bytes words.now) (S.left source.old) (λ form script. IsWithin script) }
    ensures bad { result ≡ Status.BadLine → OnScript (map string_bytes words.now) (S.left source.old) (λ form script.
        (i : ℕ) × (fault : Fault) × IsFirstBad (lines_of script) i fault) }
    ensures sound { result ≡ Status.Ok → OnScript (map string_bytes words.now) (S.left source.old) (λ form script.
        AreSound (lines_of script)) }
    ensures end { result ≡ Status.Ok → form_of (map string_bytes words.now) ≡ Some Form.Run →
        IfSome (S.left source.old) (λ script. S.left source.new ≡ Some []) }

    // Under `gen` the source stays as it is, no line is bad, and no limit of a script is in the way.
    ensures unread { (seed : ℕ) → form_of (map string_bytes words.now) ≡ Some (Form.Gen seed) →
        source.new ≡ source.old }
    ensures generated { (seed : ℕ) → form_of (map string_bytes words.now) ≡ Some (Form.Gen seed) →
        IsWithin (generated seed) × AreSound (lines_of (generated seed)) × (result ≡ Status.ReadFault → ⊥) ×
        (result ≡ Status.BadLine → ⊥) }

    // Under `dissect` the world stays empty. What is written are the texts of the lines, with a closing line as under
    // `run`, and where each status comes: BadLine at the first line that is no frame, Limit at too many bytes or lines.
    ensures still { form_of (map string_bytes words.now) ≡ Some Form.Dissect → world.new ≡ world.old }
    ensures dissected { OnFrames (map string_bytes words.now) (S.left source.old) (λ frames.
        Dissects frames result (K.contents sink.old) (K.contents sink.new)) }
    ensures end_of_frames { result ≡ Status.Ok → form_of (map string_bytes words.now) ≡ Some Form.Dissect →
        IfSome (S.left source.old) (λ frames. S.left source.new ≡ Some []) }

    // A frame that was lost for want of memory ends the run so.
    ensures lost { world.new.state.lost ≡ true → result ≡ Status.NoMemory }

    // A script without fault, within the limits of a script and with no failure outside, is run to its end, unless it
    // reaches a limit of the world or memory runs out.
    ensures complete { OnScript (map string_bytes words.now) (S.left source.old) (λ form script.
        IsWithin script → AreSound (lines_of script)
        → (Rose (S.faults source.old) (S.faults source.new) → ⊥) →
        (Rose (K.faults sink.old) (K.faults sink.new) → ⊥) → (Rose (K.stalls sink.old) (K.stalls sink.new) → ⊥)
        → (result ≡ Status.Ok) ⊎ ((result ≡ Status.NoMemory) ⊎
        ((result ≡ Status.Limit) × ReachesLimit (first_told form) script world.old.state world.new.state))) }

    // So are frames, unless memory runs out.
    ensures complete_frames { OnFrames (map string_bytes words.now) (S.left source.old) (λ frames.
        IsWithin frames → AreFrames (lines_of frames)
        → (Rose (S.faults source.old) (S.faults source.new) → ⊥) →
        (Rose (K.faults sink.old) (K.faults sink.new) → ⊥) → (Rose (K.stalls sink.old) (K.stalls sink.new) → ⊥)
        → (result ≡ Status.Ok) ⊎ (result ≡ Status.NoMemory)) }
{
    let Some(form) = form_of(words) else {
        return Status::Usage;
    };
    match form {
        Form::Run => run_source(alloc, source, sink, world),
        Form::Gen(seed) => run_generated(alloc, seed, sink, world),
        Form::Dissect => dissect_source(alloc, source, sink),
    }
}
