//! Where bytes come from and go to, and fakes that fail where a test asks for it.

ghost use Rattle.std.specs.Prelude.{◌≡◌, ◌+◌, ◌-◌, ◌^◌, ◌<◌, ◌≤◌, List, Option, ℕ, Some, [], true, false, length, min, take, IfOk, IsErrOf, OnErr, OnOk};
ghost use Rattle.std.specs.Io.{ReadsAtMost};
ghost use Rattle.std.specs.Io.KnownBytes.{ReadConsumes, WriteAppends};
ghost use Rattle.tipc_outside.specs.Causes.{HasCause, Rose, counted};
ghost use Rattle.tipc_outside.specs.Memory.{is_failing};

use std::alloc::Global;
use std::marker::Model;

/// The outside failed. Its count of faults tells that it did.
#[derive(Clone, Copy, Debug, PartialEq, Eq)]
pub struct Failed;

/// Why a write took nothing.
#[derive(Clone, Copy, Debug, PartialEq, Eq)]
pub enum SinkFault {
    /// The outside failed.
    Failed,
    /// Memory ran out.
    NoMemory,
}

/// Where input comes from.
pub trait Source {
    /// The bytes that are left, where they are known.
    ghost left: { Self → Option (List ℕ) };

    /// How often it has failed; at u64::MAX it stops.
    ghost faults: { Self → ℕ };

    /// Reads bytes into the front of `into` and answers how many. With room it answers 0 only at the end
    /// of the input. Failed comes only where the count of faults rose in this call, and reads nothing.
    fn read(&mut self, into: &mut [u8]) -> Result<usize, Failed>
        ensures bound { ReadsAtMost result into.new }
        ensures bytes { ReadConsumes (left self.old) (left self.new) result into.new }
        ensures cause { HasCause (faults self.old) (faults self.new) result };
}

/// Where output goes.
pub trait Sink {
    /// The bytes that were written, where they are known.
    ghost contents: { Self → Option (List ℕ) };

    /// How often it has failed; at u64::MAX it stops.
    ghost faults: { Self → ℕ };

    /// How often it took nothing of a piece that isn't empty; at u64::MAX it stops.
    ghost stalls: { Self → ℕ };

    /// Writes a front of `piece` and answers its length. Failed comes only where the count of faults rose in
    /// this call; at either fault nothing was written.
    fn write(&mut self, piece: &[u8]) -> Result<usize, SinkFault>
        ensures bound { IfOk result (λ n. n ≤ length piece.now) }
        ensures bytes { WriteAppends (contents self.old) (contents self.new) result piece.now }
        ensures later { faults self.old ≤ faults self.new }
        ensures no_fewer { stalls self.old ≤ stalls self.new }
        ensures cause { IsErrOf result SinkFault.Failed → Rose (faults self.old) (faults self.new) }
        ensures stall { IfOk result (λ n. n ≡ 0 → 0 < length piece.now → Rose (stalls self.old) (stalls self.new)) };
}

/// Input from memory, which fails at the calls that it is told, numbered from 1.
#[derive(Drop)]
pub struct MemorySource {
    bytes: Vec<u8>,
    place: usize,
    failing: Vec<u64>,
    calls: u64,
    faults: u64,
}

impl Model for MemorySource {
    ghost use Rattle.std.specs.Prelude.{◌≤◌, drop, vec_len};
    ghost use Rattle.tipc_outside.specs.Memory.{Reading};

    ghost Value = { Reading };

    ghost view = { λ s. record {
      left = drop s.place s.bytes.items;
      calls = s.calls;
      failing = s.failing.items;
      faults = s.faults;
    } };

    ghost invariant = { λ s. s.place ≤ vec_len s.bytes };
}

impl MemorySource {
    /// A source of these bytes, whose calls of these numbers fail.
    pub fn new(bytes: Vec<u8>, failing: Vec<u64>) -> MemorySource
        ensures left { result.left ≡ bytes.items }
        ensures failing { (result.failing ≡ failing.items) × (result.calls ≡ 0) }
        ensures faults { result.faults ≡ 0 }
    {
        MemorySource {
            bytes,
            place: 0,
            failing,
            calls: 0,
            faults: 0,
        }
    }
}

impl Source for MemorySource {
    ghost left = { λ s. Some s.left };

    ghost faults = { λ s. s.faults };

    /// It fails exactly at the calls of its list, and else gives as many bytes as there are and `into` has room for.
    fn read(&mut self, into: &mut [u8]) -> Result<usize, Failed>
        ensures bytes { ReadConsumes (Some self.old.left) (Some self.new.left) result into.new }
        ensures cause { HasCause self.old.faults self.new.faults result }
        ensures count { IfOk result (λ n. n ≡ min (length into.new) (length self.old.left)) }
        ensures failing { OnErr result ((is_failing self.old.failing self.old.calls ≡ true) ×
            (self.new.faults ≡ counted self.old.faults)) }
        ensures passing { OnOk result ((is_failing self.old.failing self.old.calls ≡ false) ×
            (self.new.faults ≡ self.old.faults)) }
        ensures call { (self.new.calls ≡ counted self.old.calls) × (self.new.failing ≡ self.old.failing) }
    {
        self.calls = self.calls.saturating_add(1);
        if self.failing.contains(&self.calls) {
            self.faults = self.faults.saturating_add(1);
            return Err(Failed);
        }
        let count = copy_front(into, &self.bytes[self.place..]);
        self.place += count;
        Ok(count)
    }
}

/// Copies as much of `from` as `into` has room for to its front, and answers how much.
fn copy_front(into: &mut [u8], from: &[u8]) -> usize
    ensures count { result ≡ min (length into.old) (length from.now) }
    ensures front { take result into.new ≡ take result from.now }
    ensures same { length into.new ≡ length into.old }
{
    let count = into.len().min(from.len());
    into[..count].copy_from_slice(&from[..count]);
    count
}

/// Output into memory, which fails at the calls that it is told, numbered from 1.
#[derive(Drop)]
pub struct MemorySink {
    bytes: Vec<u8>,
    failing: Vec<u64>,
    calls: u64,
    faults: u64,
}

impl Model for MemorySink {
    ghost use Rattle.tipc_outside.specs.Memory.{Writing};

    ghost Value = { Writing };

    ghost view = { λ s. record {
      contents = s.bytes.items;
      calls = s.calls;
      failing = s.failing.items;
      faults = s.faults;
    } };
}

impl MemorySink {
    /// A sink that holds nothing, whose calls of these numbers fail.
    pub fn new(alloc: Global, failing: Vec<u64>) -> MemorySink
        ensures contents { result.contents ≡ [] }
        ensures failing { (result.failing ≡ failing.items) × (result.calls ≡ 0) }
        ensures faults { result.faults ≡ 0 }
    {
        MemorySink {
            bytes: Vec::new(alloc),
            failing,
            calls: 0,
            faults: 0,
        }
    }

    /// The bytes that were written.
    pub fn written(&self) -> &[u8]
        ensures { result.now ≡ self.now.contents }
    {
        self.bytes.as_slice()
    }
}

impl Sink for MemorySink {
    ghost contents = { λ s. Some s.contents };

    ghost faults = { λ s. s.faults };

    ghost stalls = { λ _. 0 };

    /// It fails exactly at the calls of its list, and else takes the whole piece, unless memory runs out.
    fn write(&mut self, piece: &[u8]) -> Result<usize, SinkFault>
        ensures bytes { WriteAppends (Some self.old.contents) (Some self.new.contents) result piece.now }
        ensures later { self.old.faults ≤ self.new.faults }
        ensures cause { IsErrOf result SinkFault.Failed → Rose self.old.faults self.new.faults }
        ensures count { IfOk result (λ n. n ≡ length piece.now) }
        ensures failing { IsErrOf result SinkFault.Failed → (is_failing self.old.failing self.old.calls ≡ true) ×
            (self.new.faults ≡ counted self.old.faults) }
        ensures passing { (IsErrOf result SinkFault.Failed → ⊥) →
            (is_failing self.old.failing self.old.calls ≡ false) × (self.new.faults ≡ self.old.faults) }
        ensures call { (self.new.calls ≡ counted self.old.calls) × (self.new.failing ≡ self.old.failing) }
    {
        self.calls = self.calls.saturating_add(1);
        if self.failing.contains(&self.calls) {
            self.faults = self.faults.saturating_add(1);
            return Err(SinkFault::Failed);
        }
        let Ok(()) = self.bytes.extend_from_slice(piece) else {
            return Err(SinkFault::NoMemory);
        };
        Ok(piece.len())
    }
}
