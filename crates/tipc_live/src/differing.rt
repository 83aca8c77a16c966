//! Where two journals differ within a step.

ghost use Rattle.std.specs.Prelude.{◌≡◌, ◌≢◌, ◌+◌, ◌<◌, ◌≤◌, ◌↔◌, ℕ, Some, length, slice_get, IfOk, IsTrue, MatchOption};
ghost use Rattle.std.specs.Option.{option_copied};
ghost use Rattle.tipc_journal.specs.declared.entries.Entry.{Entry};
ghost use Rattle.tipc_live.specs.declared.answers.Audit.TheVariants.{Differ};
ghost use Rattle.tipc_live.specs.Differing.{AreSameIn, TellsDifference};

use crate::answers::Audit;
use crate::equal::is_entry;
use tipc_journal::Entry;
use tipc_types::NoMemory;

/// Whether this entry stands at that place of a journal.
fn has_entry(entries: &[Entry], place: usize, entry: &Entry) -> bool
    ensures { IsTrue result ↔ (slice_get entries.now place ≡ Some entry.now) }
{
    match entries.get(place) {
        Some(other) => is_entry(other, entry),
        None => false,
    }
}

/// The first place from one to another, which is counted in, of a kept entry that the other journal doesn't have there.
fn first_difference(kept: &[Entry], replayed: &[Entry], begin: usize, end: usize) -> Option<usize>
    requires { end < length kept.now }
    ensures { MatchOption result (AreSameIn kept.now replayed.now begin end) (λ place. (begin ≤ place) × (place ≤ end)
        × ((k : ℕ) → begin ≤ k → k < place → slice_get replayed.now k ≡ slice_get kept.now k)
        × (slice_get replayed.now place ≢ slice_get kept.now place)) }
{
    for place in begin..end + 1 {
        if !has_entry(replayed, place, &kept[place]) {
            return Some(place);
        }
    }
    None
}

/// A copy of an entry.
fn copy_of(entry: &Entry) -> Result<Entry, NoMemory>
    ensures { IfOk result (λ copy. copy ≡ entry.now) }
{
    Ok(entry.clone()?)
}

/// A copy of an entry, where there is one.
fn copy_of_any(found: Option<&Entry>) -> Result<Option<Entry>, NoMemory>
    ensures { IfOk result (λ copy. copy ≡ option_copied found.entry) }
{
    match found {
        Some(entry) => Ok(Some(copy_of(entry)?)),
        None => Ok(None),
    }
}

/// The journal of node `n` keeps another entry at that place than the replay has there.
pub fn differ(
    n: u8,
    kept: &[Entry],
    place: usize,
    replayed: Option<&Entry>,
) -> Result<Audit, NoMemory>
    requires { place < length kept.now }
    ensures { IfOk result (λ answer. (entry : Entry) × (slice_get kept.now place ≡ Some entry)
        × (answer ≡ Differ n (place + 1) entry (option_copied replayed.entry))) }
{
    Ok(Audit::Differ {
        node: n,
        place: place as u64 + 1,
        kept: copy_of(&kept[place])?,
        replayed: copy_of_any(replayed)?,
    })
}

/// Compares what the journal of node `n` keeps from one place to another, which is counted in, with the journal of the
/// replay.
pub fn compare(
    n: u8,
    kept: &[Entry],
    replayed: &[Entry],
    begin: usize,
    end: usize,
) -> Result<Option<Audit>, NoMemory>
    requires { end < length kept.now }
    ensures { IfOk result (λ found. MatchOption found (AreSameIn kept.now replayed.now begin end)
        (TellsDifference n kept.now replayed.now begin end)) }
{
    match first_difference(kept, replayed, begin, end) {
        Some(place) => Ok(Some(differ(n, kept, place, replayed.get(place))?)),
        None => Ok(None),
    }
}
