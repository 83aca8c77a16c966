//! Tests of the edge, with fakes and with the standard library.

ghost use Rattle.std.specs.Prelude.{◌<◌, ◌≤◌, length, IsTrue};
ghost use Rattle.tipc_outside.specs.Causes.{Rose};

use std::alloc::Global;
use std::cell::Cell;
use std::process::Abort;
use std::test::Fail;
use std::time::Duration;
use std::{io, time};
use tipc_outside::{
    Class, Clock, Failed, MemorySink, MemorySource, Outbox, Outgoing, Sink, SinkFault, Source,
    StdClock, StdSink, StdSource, StepClock,
};
use tipc_types::{Addr, Bytes, To};

/// What a read of four bytes gives: how many bytes, and the first.
fn next(source: &mut MemorySource) -> Result<(usize, u8), Failed> {
    let mut into = [0; 4];
    let count = source.read(&mut into)?;
    Ok((count, into[0]))
}

/// What four reads of four bytes each give of `abcdefg` where these calls fail: how many bytes, and the first.
fn reads(alloc: Global, failing: &[u64]) -> Result<Vec<Result<(usize, u8), Failed>>, Fail> {
    let mut source = MemorySource::new(b"abcdefg".to_vec(alloc)?, failing.to_vec(alloc)?);
    let mut answers = Vec::new(alloc);
    for _ in 0..4 {
        answers.push(next(&mut source))?;
    }
    Ok(answers)
}

/// Calls that fail, and what is given then.
static SOURCES: [(&[u64], [Result<(usize, u8), Failed>; 4]); 4] = [
    (&[], [Ok((4, b'a')), Ok((3, b'e')), Ok((0, 0)), Ok((0, 0))]),
    (
        &[1],
        [Err(Failed), Ok((4, b'a')), Ok((3, b'e')), Ok((0, 0))],
    ),
    (
        &[3, 2],
        [Ok((4, b'a')), Err(Failed), Err(Failed), Ok((3, b'e'))],
    ),
    (
        &[0, 5],
        [Ok((4, b'a')), Ok((3, b'e')), Ok((0, 0)), Ok((0, 0))],
    ),
];

#[test]
fn a_source_fails_at_its_calls(rt: HostRuntime) -> Result<(), Fail> {
    for (failing, answers) in &SOURCES {
        let given = reads(rt.alloc(), failing)?;
        assert!(rt; given.as_slice() == answers.as_slice());
    }
    Ok(())
}

/// Pieces that are written.
static PIECES: [&[u8]; 3] = [b"ab", b"", b"cde"];

/// Calls that fail, what is answered to the pieces, and what is written then.
static SINKS: [(&[u64], [Result<usize, SinkFault>; 3], &[u8]); 4] = [
    (&[], [Ok(2), Ok(0), Ok(3)], b"abcde"),
    (&[1], [Err(SinkFault::Failed), Ok(0), Ok(3)], b"cde"),
    (
        &[2, 3],
        [Ok(2), Err(SinkFault::Failed), Err(SinkFault::Failed)],
        b"ab",
    ),
    (&[0, 4], [Ok(2), Ok(0), Ok(3)], b"abcde"),
];

/// The pieces are written where these calls fail, and answered so.
fn writes(
    rt: &impl Abort,
    alloc: Global,
    failing: &[u64],
    answers: &[Result<usize, SinkFault>],
    written: &[u8],
) -> Result<(), Fail> {
    let mut sink = MemorySink::new(alloc, failing.to_vec(alloc)?);
    for (piece, answer) in PIECES.iter().zip(answers) {
        assert!(rt; sink.write(piece) == *answer);
    }
    assert!(rt; sink.written() == written);
    Ok(())
}

#[test]
fn a_sink_fails_at_its_calls(rt: HostRuntime) -> Result<(), Fail> {
    for (failing, answers, written) in &SINKS {
        writes(&rt, rt.alloc(), failing, answers, written)?;
    }
    Ok(())
}

/// How many bytes are read one after another, and which one stands first then.
static READ: [(usize, u8); 3] = [(2, b'a'), (1, b'c'), (0, b'c')];

#[test]
fn a_standard_reader_is_a_source(rt: HostRuntime) {
    let mut source = StdSource::new(b"abc".as_slice());
    let mut into = [0; 2];
    for (count, first) in &READ {
        assert!(rt; source.read(&mut into) == Ok(*count));
        assert!(rt; into[0] == *first);
    }
}

#[test]
fn a_standard_writer_is_a_sink(rt: HostRuntime) {
    let mut written = Vec::new(rt.alloc());
    let mut sink = StdSink::new(&mut written);
    assert!(rt; sink.write(b"abc") == Ok(3));
    drop(sink);
    assert!(rt; written.as_slice() == b"abc".as_slice());
}

/// A writer that takes nothing of the first piece that it gets, and all of each later one.
#[derive(Drop)]
struct Slow {
    taken: Vec<u8>,
    is_ready: bool,
}

impl io::Write for Slow {
    fn write(&mut self, piece: &[u8]) -> io::Result<usize> {
        if !self.is_ready {
            self.is_ready = true;
            return Ok(0);
        }
        self.taken.extend_from_slice(piece)?;
        Ok(piece.len())
    }

    fn flush(&mut self) -> io::Result<()> {
        Ok(())
    }
}

/// Whether a sink takes nothing of a piece; where that isn't empty, its count of stalls rises then.
fn takes_nothing<K: Sink>(sink: &mut K, piece: &[u8]) -> bool
    ensures { IsTrue result → 0 < length piece.now → Rose (K.stalls sink.old) (K.stalls sink.new) }
{
    sink.write(piece) == Ok(0)
}

#[test]
fn a_writer_that_takes_nothing_stalls_its_sink(rt: HostRuntime) -> Result<(), Fail> {
    let slow = Slow {
        taken: Vec::new(rt.alloc()),
        is_ready: false,
    };
    let mut sink = StdSink::new(slow);
    assert!(rt; takes_nothing(&mut sink, b"abc"));
    assert!(rt; !takes_nothing(&mut sink, b"abc"));
    assert!(rt; takes_nothing(&mut sink, b""));
    Ok(())
}

/// A frame of this byte is sent to the node of this number.
fn puts(alloc: Global, out: &mut Outbox, byte: u8) -> Result<(), Fail>
    requires { (1 ≤ byte) × (byte ≤ 32) }
{
    let frame = Bytes::from_slice(alloc, &[byte])?;
    out.push(0, To::Node(Addr::node(byte)), frame);
    Ok(())
}

/// A frame of this byte leaves for the node of this number.
fn is_for_node(rt: &impl Abort, sent: &Outgoing, byte: u8)
    requires { (1 ≤ byte) × (byte ≤ 32) }
{
    assert!(rt; sent.bearer == 0 && sent.to == To::Node(Addr::node(byte)));
    assert!(rt; sent.frame.as_slice() == [byte].as_slice());
}

/// The frames for nodes 7 and 8 leave, and no other.
fn are_for_both(rt: &impl Abort, sent: &[Outgoing]) -> Result<(), Fail> {
    let [first, second] = sent else {
        return Err("not two frames".into());
    };
    is_for_node(rt, first, 7);
    is_for_node(rt, second, 8);
    Ok(())
}

#[test]
fn frames_go_out_in_order_until_one_is_lost(rt: HostRuntime) -> Result<(), Fail> {
    let mut out = Outbox::new(rt.alloc());
    puts(rt.alloc(), &mut out, 7)?;
    puts(rt.alloc(), &mut out, 8)?;
    assert!(rt; !out.lost());
    out.mark_lost();
    out.push(1, To::All, Bytes::new(rt.alloc()));
    assert!(rt; out.lost());
    are_for_both(&rt, out.frames())?;
    are_for_both(&rt, out.into_frames().as_slice())
}

/// A box of frames to all of one byte each, of these classes.
fn box_of(alloc: Global, frames: &[(Class, u8)]) -> Result<Outbox, Fail> {
    let mut out = Outbox::new(alloc);
    for (class, byte) in frames {
        out.put(*class, 0, To::All, Bytes::from_slice(alloc, &[*byte])?);
    }
    Ok(out)
}

/// An event of two boxes, and the next one.
fn two_events(alloc: Global) -> Result<Outbox, Fail> {
    let mut event = box_of(alloc, &[(Class::Numbered, 3), (Class::State, 1)])?;
    event.merge(box_of(alloc, &[(Class::Answer, 4), (Class::Repeated, 2)])?);
    let mut out = Outbox::new(alloc);
    out.append(event);
    out.append(box_of(alloc, &[(Class::Numbered, 6), (Class::Notice, 5)])?);
    Ok(out)
}

/// Link states and repeated packets leave first, also where two boxes of an event are one; the next event leaves behind it.
#[test]
fn link_states_leave_first(rt: HostRuntime) -> Result<(), Fail> {
    let out = two_events(rt.alloc())?;
    let mut next = 1;
    for outgoing in out.frames() {
        assert!(rt; outgoing.frame.as_slice() == [next].as_slice());
        next = next.saturating_add(1);
    }
    assert!(rt; next == 7);
    Ok(())
}

#[test]
fn the_clock_tells_1_first(rt: HostRuntime) {
    let mut clock = StepClock::new();
    assert!(rt; clock.now() == 1);
    assert!(rt; clock.now() == 2);
    let mut last = StepClock { time: u64::MAX };
    assert!(rt; last.now() == u64::MAX);
}

/// Readings of a clock, one after the other; it can't be read at the others.
#[derive(Drop)]
struct Readings {
    nanoseconds: Vec<Option<u64>>,
    looks: Cell<usize>,
}

impl time::Clock for Readings {
    fn monotonic(&self) -> io::Result<Duration> {
        let look = self.looks.get();
        self.looks.set(look.saturating_add(1));
        match self.nanoseconds.get(look) {
            Some(Some(reading)) => Ok(Duration::from_nanos(*reading)),
            _ => Err(io::Error::from(io::ErrorKind::Other)),
        }
    }

    fn since_1970(&self) -> io::Result<Duration> {
        self.monotonic()
    }
}

/// What is read, in nanoseconds, and the time that is told then.
static TIMES: [(Option<u64>, u64); 9] = [
    (None, 0),
    (Some(5_000_000_000), 0),
    (Some(5_009_999_999), 0),
    (Some(5_010_000_000), 1),
    (Some(6_000_000_000), 100),
    (Some(5_500_000_000), 100),
    (None, 100),
    (Some(4_000_000_000), 100),
    (Some(66_000_000_000), 6_100),
];

/// A clock of these readings.
fn clock_of_readings(alloc: Global) -> Result<Readings, Fail> {
    let mut nanoseconds = Vec::new(alloc);
    for (reading, _) in &TIMES {
        nanoseconds.push(*reading)?;
    }
    Ok(Readings {
        nanoseconds,
        looks: Cell::new(0),
    })
}

#[test]
fn the_standard_clock_tells_hundredths_and_never_falls(rt: HostRuntime) -> Result<(), Fail> {
    let mut clock = StdClock::new(clock_of_readings(rt.alloc())?);
    for (_, time) in &TIMES {
        assert!(rt; clock.now() == *time);
    }
    assert!(rt; clock.now() == 6_100);
    Ok(())
}
