//! The journal, its limits, and how an entry is appended.

ghost use Rattle.std.specs.Prelude.{◌≡◌, ◌==◌, ◌+◌, ◌-◌, ◌^◌, ◌<◌, ◌≤◌, ◌↔◌, [], length, min, IsOk, OnErr, OnOk, IsTrue, vec_len, vec_capacity, ◌*◌};
ghost use Rattle.tipc_journal.specs.Room.{JournalState, appended, keeping, reserved, with_one_released, counted_bytes, entry_bytes, message_bytes, HasRoom, HasNoRoom};

use crate::entries::Entry;
use std::alloc::Global;
use std::marker::Model;
use tipc_types::{Message, NoMemory};

/// The most entries of a journal.
pub const MOST_ENTRIES: u64 = 1_048_576;

/// The most message bytes of a journal.
pub const MOST_MESSAGE_BYTES: u64 = 67_108_864;

/// The entries of a short step: its call, one entry inside at most, and its answer.
pub const SHORT_STEP: u64 = 3;

/// What a node did in one boot: entries in order, which are never changed or removed.
/// (This project's profile.)
///
/// Contracts see the entries, `spare`: how many appends will find their memory, and `kept`: for how many short steps,
/// of three entries at most, memory is kept apart, which no other append takes.
#[derive(Drop)]
pub struct Journal {
    stored: Vec<Entry>,
    spare: u64,
    kept: u64,
    bytes: u64,
}

impl Model for Journal {
    ghost use Rattle.std.specs.Prelude.{◌≡◌, ◌+◌, ◌*◌, ◌≤◌, vec_len, vec_capacity};
    ghost use Rattle.tipc_journal.specs.Room.{JournalState, message_bytes};

    ghost Value = { JournalState };

    ghost view = { λ j. record { entries = j.stored.items; spare = j.spare; kept = j.kept } };

    ghost invariant = { λ j. (vec_len j.stored + j.spare + 3 * j.kept ≤ vec_capacity j.stored)
        × (j.bytes ≡ message_bytes j.stored.items)
        × (j.bytes ≤ 67108864)
        × (vec_len j.stored ≤ 1048576) };
}

/// Why an entry wasn't appended.
#[derive(Clone, Copy, Debug, PartialEq, Eq)]
pub enum JournalFault {
    /// The journal has no room for it.
    Full,
    /// Memory ran out.
    NoMemory,
}

impl From<NoMemory> for JournalFault {
    ghost use Rattle.tipc_journal.specs.declared.keeping.JournalFault.{JournalFault};

    ghost from_gives = { λ _ e. e ≡ JournalFault.NoMemory };

    fn from(_error: NoMemory) -> JournalFault {
        JournalFault::NoMemory
    }
}

/// Makes room in memory for so many entries behind these, beside what is kept for so many short steps.
fn make_room(stored: &mut Vec<Entry>, kept: u64, entries: u64) -> Result<(), NoMemory>
    requires { vec_len stored.old + 3 * kept ≤ vec_capacity stored.old }
    ensures same { stored.new.items ≡ stored.old.items }
    ensures more { vec_capacity stored.old ≤ vec_capacity stored.new }
    ensures room { OnOk result (vec_len stored.new + entries + 3 * kept ≤ vec_capacity stored.new) }
    ensures succeeds { vec_len stored.old + entries + 3 * kept ≤ vec_capacity stored.old → IsOk result }
{
    let free = (stored.capacity() - stored.len()) as u64;
    let kept = SHORT_STEP * kept;
    if entries <= free - kept {
        return Ok(());
    }
    let places = kept.checked_add(entries).ok_or(NoMemory)?;
    stored.reserve(places as usize)?;
    Ok(())
}

impl Journal {
    /// A journal without entries.
    #[tactic(auto, using(crate::proofs::RoomLaws::message_bytes_nil))]
    pub fn new(alloc: Global) -> Journal
        ensures { result ≡ record { entries = []; spare = 0; kept = 0 } }
    {
        Journal {
            stored: Vec::new(alloc),
            spare: 0,
            kept: 0,
            bytes: 0,
        }
    }

    /// Adds an entry at the end. It answers Full exactly where the journal has 1,048,576 entries, or
    /// where its message bytes would pass 67,108,864; else NoMemory, but not while `spare` is positive.
    ///
    /// The message bytes are the lengths of the bodies of the messages in Accepted and Delivered
    /// entries, and 20 for each item of an item message there.
    #[tactic(auto, using(crate::proofs::RoomLaws::message_bytes_more))]
    pub fn append(&mut self, entry: Entry) -> Result<(), JournalFault>
        ensures ok { OnOk result (self.new ≡ appended self.old entry) }
        ensures full { (result ≡ Err JournalFault.Full) ↔ HasNoRoom self.old.entries entry }
        ensures no_memory { result ≡ Err JournalFault.NoMemory → self.old.spare ≡ 0 }
        ensures succeeds { 0 < self.old.spare → HasRoom self.old.entries entry → IsOk result }
        ensures bytes { OnOk result (message_bytes self.new.entries ≡
            message_bytes self.old.entries + entry_bytes entry) }
        ensures err { OnErr result (self.new ≡ self.old) }
    {
        let size = entry_bytes(&entry);
        if self.stored.len() as u64 >= MOST_ENTRIES || size > MOST_MESSAGE_BYTES - self.bytes {
            return Err(JournalFault::Full);
        }
        make_room(&mut self.stored, self.kept, 1)?;
        self.stored.push_reserved(entry);
        self.spare = self.spare.saturating_sub(1);
        self.bytes += size;
        Ok(())
    }

    /// Whether an append of this entry would not answer Full.
    pub fn has_room(&self, entry: &Entry) -> bool
        ensures { IsTrue result ↔ HasRoom self.now.entries entry.now }
    {
        (self.stored.len() as u64) < MOST_ENTRIES
            && entry_bytes(entry) <= MOST_MESSAGE_BYTES - self.bytes
    }

    /// Adds an entry at the end, where there is room for it and one of the places that were reserved:
    /// the step of a call that can't fail any more.
    #[tactic(auto, using(crate::proofs::RoomLaws::message_bytes_more))]
    pub fn commit(&mut self, entry: Entry)
        requires room { HasRoom self.old.entries entry }
        requires spare { 0 < self.old.spare }
        ensures value { self.new ≡ appended self.old entry }
        ensures bytes { message_bytes self.new.entries ≡ message_bytes self.old.entries + entry_bytes entry }
    {
        let size = entry_bytes(&entry);
        self.stored.push_reserved(entry);
        self.spare -= 1;
        self.bytes += size;
    }

    /// Makes `spare` at least that many. It doesn't fail where they are spare already.
    ///
    /// # Errors
    ///
    /// NoMemory where memory runs out, and then nothing is changed.
    pub fn reserve(&mut self, entries: u64) -> Result<(), NoMemory>
        ensures ok { OnOk result (self.new ≡ reserved self.old entries) }
        ensures succeeds { entries ≤ self.old.spare → IsOk result }
        ensures err { OnErr result (self.new ≡ self.old) }
    {
        make_room(&mut self.stored, self.kept, entries)?;
        self.spare = self.spare.max(entries);
        Ok(())
    }

    /// Keeps memory apart for at least that many short steps.
    ///
    /// # Errors
    ///
    /// NoMemory where memory runs out, or 64 bits can't count the entries. Nothing is changed then.
    pub fn keep(&mut self, steps: u64) -> Result<(), NoMemory>
        ensures ok { OnOk result (self.new ≡ keeping self.old steps) }
        ensures err { OnErr result (self.new ≡ self.old) }
    {
        if steps > self.kept {
            let places = steps.checked_mul(SHORT_STEP).ok_or(NoMemory)?;
            let places = places.checked_add(self.spare).ok_or(NoMemory)?;
            self.stored.reserve(places as usize)?;
            self.kept = steps;
        }
        Ok(())
    }

    /// Makes the places of one short step spare, where one is kept.
    pub fn release(&mut self)
        ensures { self.new ≡ with_one_released self.old }
    {
        if self.kept > 0 {
            self.kept -= 1;
            self.spare += SHORT_STEP;
        }
    }

    /// How many appends will find their memory.
    pub fn spare(&self) -> u64
        ensures { result ≡ self.now.spare }
    {
        self.spare
    }

    /// For how many short steps memory is kept apart.
    pub fn kept(&self) -> u64
        ensures { result ≡ self.now.kept }
    {
        self.kept
    }

    /// The entries, the first one first.
    pub fn entries(&self) -> &[Entry]
        ensures { result.now ≡ self.now.entries }
    {
        self.stored.as_slice()
    }

    /// How many entries it has, at most 1,048,576.
    pub fn len(&self) -> u64
        ensures value { result ≡ length self.now.entries }
        ensures bound { result ≤ 1048576 }
    {
        self.stored.len() as u64
    }

    /// Whether it has no entry.
    pub fn is_empty(&self) -> bool
        ensures { result ≡ (length self.now.entries == 0) }
    {
        self.stored.is_empty()
    }

    /// How many message bytes it has, at most 67,108,864.
    pub fn message_bytes(&self) -> u64
        ensures value { result ≡ message_bytes self.now.entries }
        ensures bound { result ≤ 67108864 }
    {
        self.bytes
    }
}

/// The message bytes of a message; where there are more than a u64 holds, its last value.
fn counted_bytes(message: &Message) -> u64
    ensures { result ≡ min (counted_bytes message.now) (2 ^ 64 - 1) }
{
    match message {
        Message::Payload { body, .. } => body.len() as u64,
        Message::Items { items, .. } => (items.len() as u64).saturating_mul(20),
    }
}

/// The message bytes of an entry: those of the message that was accepted or delivered, else 0. Where there are more
/// than a u64 holds, its last value.
pub fn entry_bytes(entry: &Entry) -> u64
    ensures { result ≡ min (entry_bytes entry.now) (2 ^ 64 - 1) }
{
    match entry {
        Entry::Accepted { message, .. } => counted_bytes(message),
        Entry::Delivered { message, .. } => counted_bytes(message),
        _ => 0,
    }
}
