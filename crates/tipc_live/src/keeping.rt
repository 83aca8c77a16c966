//! The steps that a journal keeps, and stamps that stand twice.

ghost use Rattle.std.specs.Prelude.{◌≡◌, ◌<◌, ◌≤◌, ◌+◌, ◌++◌, ℕ, drop, length, map, slice_get, IfNone, IfSome, OnOk};
ghost use Rattle.std.specs.List.{prefix_len};
ghost use Rattle.std.specs.List.Sorted.{IsNonDecreasingBy};
ghost use Rattle.tipc_journal.specs.Steps.{IsWhole};
ghost use Rattle.tipc_live.specs.Keeping.{FirstTwice, is_open, kept_in, maker_of, stamp_of, uses_in};

use tipc_journal::Entry;
use tipc_types::{By, NoMemory};

/// A step that a journal keeps.
#[derive(Clone, Copy, Debug, PartialEq, Eq)]
pub struct KeptStep {
    /// Who made it, and when.
    pub by: By,
    /// The place of its node among the nodes.
    pub node: usize,
    /// The place of its first entry in the journal.
    pub begin: usize,
    /// The place of its last entry.
    pub end: usize,
}

/// Who made the step that begins at that place: None where none begins there.
fn maker_at(entries: &[Entry], begin: usize) -> Option<By>
    ensures { result ≡ maker_of (slice_get entries.now begin) }
{
    match entries.get(begin) {
        Some(Entry::Step { by, .. }) => Some(*by),
        _ => None,
    }
}

/// Whether a step goes on behind this entry of it.
fn is_open(entry: &Entry) -> bool
    ensures { result ≡ is_open entry.now }
{
    match entry {
        Entry::Answered { .. } => false,
        _ => true,
    }
}

/// The place of the last entry of a step that begins at that place.
fn end_from(entries: &[Entry], begin: usize) -> usize
    requires { begin ≤ length entries.now }
    ensures { result ≡ begin + prefix_len is_open (drop begin entries.now) }
{
    let mut end = begin;
    while end < entries.len() && is_open(&entries[end]) {
        end += 1;
    }
    end
}

/// Adds the steps of a journal, which is that of the node at that place.
pub fn add_steps(steps: &mut Vec<KeptStep>, entries: &[Entry], node: usize) -> Result<(), NoMemory>
    requires { IsWhole entries.now }
    ensures { OnOk result (steps.new.items ≡ steps.old.items ++ kept_in node entries.now) }
{
    let mut begin = 0;
    while let Some(by) = maker_at(entries, begin) {
        let end = end_from(entries, begin);
        steps.push(KeptStep {
            by,
            node,
            begin,
            end,
        })?;
        begin = end + 1;
    }
    Ok(())
}

/// The least stamp that stands in two of these steps, which are in order of stamp.
pub fn first_twice(steps: &[KeptStep]) -> Option<u64>
    requires { IsNonDecreasingBy stamp_of steps.now }
    ensures twice { IfSome result (FirstTwice (map stamp_of steps.now)) }
    ensures once { IfNone result ((stamp : ℕ) → uses_in (map stamp_of steps.now) stamp ≤ 1) }
{
    for place in 1..steps.len() {
        if steps[place - 1].by.stamp == steps[place].by.stamp {
            return Some(steps[place].by.stamp);
        }
    }
    None
}
