//! Readers, writers and the clock of the standard library as sources, sinks and a clock.

ghost use Rattle.std.specs.Prelude.{◌≡◌, ◌<◌, ◌≤◌, ◌==◌, ◌&&◌, if◌then◌else◌, nat_lt, ◌-◌, ◌/◌, ◌^◌, None, Some, min, max, length, Err, IfSome, MatchOption, IfOk, IsErrOf, OnErr, OnOk};
ghost use Rattle.std.specs.Duration.{as_nanos};
ghost use Rattle.std.specs.Io.{ReadsAtMost};
ghost use Rattle.std.specs.Io.KnownBytes.{ReadConsumes, WriteAppends};
ghost use Rattle.tipc_outside.specs.Causes.{HasCause, Rose, counted};

use crate::pacing::Clock;
use crate::streams::{Failed, Sink, SinkFault, Source};
use std::time::Duration;
use std::{io, time};

/// Input from a standard reader, as standard input. Trusted edge: what it gives is the system's word.
#[derive(Drop)]
pub struct StdSource<R: io::Read + Drop> {
    reader: R,
    faults: u64,
}

impl<R: io::Read + Drop> StdSource<R> {
    /// A source over a reader.
    pub fn new(reader: R) -> StdSource<R>
        ensures reader { result.reader ≡ reader }
        ensures faults { result.faults ≡ 0 }
    {
        StdSource { reader, faults: 0 }
    }
}

impl<R: io::Read + Drop> Source for StdSource<R> {
    ghost left = { λ s. R.remaining s.reader };

    ghost faults = { λ s. s.faults };

    /// Each failure of the reader counts one fault, and nothing else counts any.
    fn read(&mut self, into: &mut [u8]) -> Result<usize, Failed>
        ensures bound { ReadsAtMost result into.new }
        ensures bytes { ReadConsumes (R.remaining self.old.reader) (R.remaining self.new.reader) result into.new }
        ensures cause { HasCause self.old.faults self.new.faults result }
        ensures fault { OnErr result (self.new.faults ≡ counted self.old.faults) }
        ensures no_fault { OnOk result (self.new.faults ≡ self.old.faults) }
    {
        match self.reader.read(into) {
            Ok(count) => Ok(count),
            Err(_) => {
                self.faults = self.faults.saturating_add(1);
                Err(Failed)
            }
        }
    }
}

/// Output to a standard writer, as standard output. Trusted edge: what becomes of it is the system's word.
#[derive(Drop)]
pub struct StdSink<W: io::Write + Drop> {
    writer: W,
    faults: u64,
    stalls: u64,
}

impl<W: io::Write + Drop> StdSink<W> {
    /// A sink over a writer.
    pub fn new(writer: W) -> StdSink<W>
        ensures writer { result.writer ≡ writer }
        ensures faults { result.faults ≡ 0 }
        ensures stalls { result.stalls ≡ 0 }
    {
        StdSink {
            writer,
            faults: 0,
            stalls: 0,
        }
    }
}

impl<W: io::Write + Drop> Sink for StdSink<W> {
    ghost contents = { λ s. W.contents s.writer };

    ghost faults = { λ s. s.faults };

    ghost stalls = { λ s. s.stalls };

    /// Each failure of the writer counts one fault, and each piece of which it takes nothing one stall; nothing else
    /// counts any.
    fn write(&mut self, piece: &[u8]) -> Result<usize, SinkFault>
        ensures bound { IfOk result (λ n. n ≤ length piece.now) }
        ensures bytes { WriteAppends (W.contents self.old.writer) (W.contents self.new.writer) result piece.now }
        ensures later { self.old.faults ≤ self.new.faults }
        ensures no_fewer { self.old.stalls ≤ self.new.stalls }
        ensures cause { IsErrOf result SinkFault.Failed → Rose self.old.faults self.new.faults }
        ensures stall { IfOk result (λ n. n ≡ 0 → 0 < length piece.now → Rose self.old.stalls self.new.stalls) }
        ensures fault { OnErr result (self.new.faults ≡ counted self.old.faults) }
        ensures no_fault { OnOk result (self.new.faults ≡ self.old.faults) }
        ensures stalled { IfOk result (λ n. self.new.stalls ≡
            (if (n == 0) && nat_lt 0 (length piece.now) then counted self.old.stalls else self.old.stalls)) }
        ensures err { OnErr result ((result ≡ Err SinkFault.Failed) × (self.new.stalls ≡ self.old.stalls)) }
    {
        match self.writer.write(piece) {
            Ok(count) => {
                if count == 0 && !piece.is_empty() {
                    self.stalls = self.stalls.saturating_add(1);
                }
                Ok(count)
            }
            Err(_) => {
                self.faults = self.faults.saturating_add(1);
                Err(SinkFault::Failed)
            }
        }
    }
}

/// The time since its first look in hundredths of a second, by the system's clock that doesn't go back. Where that
/// can't be read it tells the last time again. Trusted edge: what the clock tells is the system's word.
#[derive(Drop)]
pub struct StdClock<R: time::Clock + Drop> {
    rt: R,
    start: Option<Duration>,
    last: u64,
}

impl<R: time::Clock + Drop> StdClock<R> {
    /// A clock that tells 0 at its first look.
    pub fn new(rt: R) -> StdClock<R>
        ensures start { result.start ≡ None }
        ensures last { result.last ≡ 0 }
    {
        StdClock {
            rt,
            start: None,
            last: 0,
        }
    }

    /// Goes on to the time of a reading of the system's clock; the first one is where its time starts.
    fn advance(&mut self, reading: Duration)
        ensures start { MatchOption self.old.start (self.new.start ≡ Some reading)
            (λ start. self.new.start ≡ Some start) }
        ensures last { IfSome self.new.start (λ start.
            self.new.last ≡ max self.old.last (min ((as_nanos reading - as_nanos start) / 10_000_000) (2 ^ 64 - 1))) }
    {
        let start = *self.start.get_or_insert(reading);
        self.last = self.last.max(hundredths(start, reading));
    }
}

impl<R: time::Clock + Drop> Clock for StdClock<R> {
    ghost last = { λ c. c.last };

    fn now(&mut self) -> u64
        ensures told { self.new.last ≡ result }
        ensures later { self.old.last ≤ result }
    {
        if let Ok(reading) = self.rt.monotonic() {
            self.advance(reading);
        }
        self.last
    }
}

/// How many whole hundredths of a second lie between two readings of a clock; 0 where the second is the earlier one.
fn hundredths(start: Duration, time: Duration) -> u64
    ensures { result ≡ min ((as_nanos time - as_nanos start) / 10_000_000) (2 ^ 64 - 1) }
{
    let passed = time.saturating_sub(start).as_millis() / 10;
    u64::try_from(passed).unwrap_or(u64::MAX)
}
