//! Standard input and output that stop at their first failure, and know whether there was one.

ghost use Rattle.std.specs.Prelude.{◌≡◌, ◌<◌, ◌≤◌, ◌↔◌, IfOk, IsErrOf, OnOk, length, min, true};
ghost use Rattle.std.specs.Io.{ReadsAtMost};
ghost use Rattle.std.specs.Io.KnownBytes.{ReadConsumes, WriteAppends};
ghost use Rattle.tipc_outside.specs.Causes.{HasCause, Rose};
ghost use Rattle.tipc_sim.specs.Streams.{failed_reads, failed_writes};

use std::io;
use tipc_outside::{Failed, Sink, SinkFault, Source, StdSink, StdSource};

/// Input from a standard reader, which isn't read any more once a read failed.
#[derive(Drop)]
pub struct Input<R: io::Read + Drop> {
    source: StdSource<R>,
    /// How many calls failed, with those behind the first, which never came to the reader.
    faults: u64,
    ghost once: { failed_reads source ≡ min faults 1 },
}

impl<R: io::Read + Drop> Input<R> {
    /// Input from a reader.
    pub fn new(reader: R) -> Input<R>
        ensures { failed_reads result.source ≡ 0 }
    {
        Input {
            source: StdSource::new(reader),
            faults: 0,
        }
    }

    /// Whether a read failed.
    pub fn has_failed(&self) -> bool
        ensures { (result ≡ true) ↔ (0 < failed_reads self.now.source) }
    {
        self.faults > 0
    }
}

impl<R: io::Read + Drop> Source for Input<R> {
    ghost left = { λ s. R.remaining s.source.reader };

    ghost faults = { λ s. s.faults };

    /// A call behind one that failed fails too, and leaves the reader as it is.
    fn read(&mut self, into: &mut [u8]) -> Result<usize, Failed>
        ensures bound { ReadsAtMost result into.new }
        ensures bytes { ReadConsumes (R.remaining self.old.source.reader) (R.remaining self.new.source.reader) result
            into.new }
        ensures cause { HasCause self.old.faults self.new.faults result }
        ensures no_fault { OnOk result (self.new.faults ≡ self.old.faults) }
        ensures over { 0 < failed_reads self.old.source → self.new.source ≡ self.old.source }
    {
        if self.faults == 0 {
            if let Ok(count) = self.source.read(into) {
                return Ok(count);
            }
        }
        self.faults = self.faults.saturating_add(1);
        Err(Failed)
    }
}

/// Output to a standard writer, to which nothing more is written once a write failed or took nothing of a piece that
/// isn't empty.
#[derive(Drop)]
pub struct Output<W: io::Write + Drop> {
    sink: StdSink<W>,
    /// How many calls failed, with those behind the first, which never came to the writer.
    faults: u64,
    ghost once: { failed_writes sink ≡ min faults 1 },
}

impl<W: io::Write + Drop> Output<W> {
    /// Output to a writer.
    pub fn new(writer: W) -> Output<W>
        ensures { failed_writes result.sink ≡ 0 }
    {
        Output {
            sink: StdSink::new(writer),
            faults: 0,
        }
    }

    /// Whether a write failed.
    pub fn has_failed(&self) -> bool
        ensures { (result ≡ true) ↔ (0 < failed_writes self.now.sink) }
    {
        self.faults > 0
    }
}

impl<W: io::Write + Drop> Sink for Output<W> {
    ghost contents = { λ s. W.contents s.sink.writer };

    ghost faults = { λ s. s.faults };

    ghost stalls = { λ _. 0 };

    /// A call behind one that failed fails too, and leaves the writer as it is.
    fn write(&mut self, piece: &[u8]) -> Result<usize, SinkFault>
        ensures bound { IfOk result (λ n. n ≤ length piece.now) }
        ensures bytes { WriteAppends (W.contents self.old.sink.writer) (W.contents self.new.sink.writer) result
            piece.now }
        ensures later { self.old.faults ≤ self.new.faults }
        ensures cause { IsErrOf result SinkFault.Failed → Rose self.old.faults self.new.faults }
        ensures some { IfOk result (λ n. n ≡ 0 → length piece.now ≡ 0) }
        ensures no_fault { OnOk result (self.new.faults ≡ self.old.faults) }
        ensures over { 0 < failed_writes self.old.sink → self.new.sink ≡ self.old.sink }
    {
        if self.faults == 0 {
            if let Ok(count) = self.sink.write(piece) {
                if count > 0 || piece.is_empty() {
                    return Ok(count);
                }
            }
        }
        self.faults = self.faults.saturating_add(1);
        Err(SinkFault::Failed)
    }
}
