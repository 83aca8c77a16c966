//! A text is written whole to a sink.

ghost use Rattle.std.specs.Prelude.{◌≡◌, ◌≤◌, ◌⊎◌, OnOk, OnErr, IfErr, IsErrOf, ℕ, take};
ghost use Rattle.std.specs.Io.KnownBytes.{Appends};
ghost use Rattle.tipc_outside.specs.Causes.{Rose};
ghost use Rattle.tipc_sim.specs.Output.{AppendsPart};
ghost use Rattle.tipc_sim.specs.Steps.{IsWriteStatus};

use crate::status::Status;
use tipc_outside::{Sink, SinkFault};

/// Writes a whole text, piece by piece. A sink that takes nothing of a piece that isn't empty counts as one
/// that failed. At an error a part was written, never the whole.
fn write_all<K: Sink>(sink: &mut K, text: &[u8]) -> Result<(), SinkFault>
    ensures ok { OnOk result (Appends (K.contents sink.old) (K.contents sink.new) text.now) }
    ensures part { OnErr result (AppendsPart (K.contents sink.old) (K.contents sink.new) text.now) }
    ensures failed { IsErrOf result SinkFault.Failed → Rose (K.faults sink.old) (K.faults sink.new) ⊎
        Rose (K.stalls sink.old) (K.stalls sink.new) }
    ensures later { K.faults sink.old ≤ K.faults sink.new }
    ensures no_fewer { K.stalls sink.old ≤ K.stalls sink.new }
{
    let mut done = 0;
    while done < text.len() {
        let count = sink.write(&text[done..])?;
        if count == 0 {
            return Err(SinkFault::Failed);
        }
        done += count;
    }
    Ok(())
}

/// Writes a text, or answers the status of what stopped it.
pub fn write_text<K: Sink>(sink: &mut K, text: &[u8]) -> Result<(), Status>
    ensures ok { OnOk result (Appends (K.contents sink.old) (K.contents sink.new) text.now) }
    ensures part { OnErr result (AppendsPart (K.contents sink.old) (K.contents sink.new) text.now) }
    ensures status { IfErr result IsWriteStatus }
    ensures failed { IsErrOf result Status.WriteFault → Rose (K.faults sink.old) (K.faults sink.new) ⊎
        Rose (K.stalls sink.old) (K.stalls sink.new) }
    ensures later { K.faults sink.old ≤ K.faults sink.new }
    ensures no_fewer { K.stalls sink.old ≤ K.stalls sink.new }
{
    match write_all(sink, text) {
        Ok(()) => Ok(()),
        Err(SinkFault::Failed) => Err(Status::WriteFault),
        Err(SinkFault::NoMemory) => Err(Status::NoMemory),
    }
}
