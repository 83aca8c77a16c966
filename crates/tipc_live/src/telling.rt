//! What a caller tells of its calls against the journal of its node.

ghost use Rattle.std.specs.Prelude.{◌≡◌, ◌↔◌, ℕ, Some, slice_get, IsTrue, MatchOption};
ghost use Rattle.std.specs.Option.{option_copied};
ghost use Rattle.tipc_journal.specs.Steps.{IsWhole};
ghost use Rattle.tipc_live.specs.Keeping.{kept_in};
ghost use Rattle.tipc_live.specs.Calls.{DifferAt, IsToldAt, IsToldSo, given_answer, begun_call, steps_by};

use crate::equal::is_answer;
use crate::keeping::KeptStep;
use tipc_journal::Entry;
use tipc_node_lock::MadeCall;
use tipc_types::{Answer, EventNote};

/// The call of the step that begins at that place: None where none begins there.
pub fn call_at(entries: &[Entry], place: usize) -> Option<&EventNote>
    ensures { option_copied result ≡ begun_call (slice_get entries.now place) }
{
    match entries.get(place) {
        Some(Entry::Step { event, .. }) => Some(event),
        _ => None,
    }
}

/// The answer of the step that ends at that place: None where none ends there.
fn answer_at(entries: &[Entry], place: usize) -> Option<&Answer>
    ensures { option_copied result ≡ given_answer (slice_get entries.now place) }
{
    match entries.get(place) {
        Some(Entry::Answered { answer, .. }) => Some(answer),
        _ => None,
    }
}

/// Whether there is a call, and it is this one.
fn is_call(found: Option<&EventNote>, call: &EventNote) -> bool
    ensures { IsTrue result ↔ (option_copied found.entry ≡ Some call.now) }
{
    match found {
        Some(other) => *other == *call,
        None => false,
    }
}

/// Whether there is an answer, and it is this one.
fn is_given(found: Option<&Answer>, answer: &Answer) -> bool
    ensures { IsTrue result ↔ (option_copied found.entry ≡ Some answer.now) }
{
    match found {
        Some(other) => is_answer(other, answer),
        None => false,
    }
}

/// Whether a step is as its caller tells it: with its stamp, its call and its answer.
fn is_told_so(entries: &[Entry], step: &KeptStep, told: &MadeCall) -> bool
    ensures { IsTrue result ↔ IsToldSo entries.now step.now told.now }
{
    step.by.stamp == told.stamp
        && is_call(call_at(entries, step.begin), &told.call)
        && is_given(answer_at(entries, step.end), &told.answer)
}

/// Whether a step is the call of that number among those that its caller tells.
fn is_told_at(entries: &[Entry], step: &KeptStep, told: &[MadeCall], number: usize) -> bool
    ensures { IsTrue result ↔ IsToldAt entries.now step.now (slice_get told.now number) }
{
    match told.get(number) {
        Some(call) => is_told_so(entries, step, call),
        None => false,
    }
}

/// The number of the first call at which the calls that a caller tells and its steps in a journal differ, also where
/// there are more of one of them.
pub fn first_difference(
    entries: &[Entry],
    steps: &[KeptStep],
    caller: u32,
    told: &[MadeCall],
) -> Option<u64>
    requires whole { IsWhole entries.now }
    requires steps { (node : ℕ) × (steps.now ≡ kept_in node entries.now) }
    ensures { MatchOption result (told.now ≡ steps_by caller entries.now)
        (DifferAt told.now (steps_by caller entries.now)) }
{
    let mut number = 0;
    for step in steps {
        if step.by.caller == caller {
            if !is_told_at(entries, step, told, number) {
                return Some(number as u64);
            }
            number += 1;
        }
    }
    if number < told.len() {
        return Some(number as u64);
    }
    None
}
