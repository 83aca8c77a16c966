//! What is counted in the journals of a live run.

ghost use Rattle.std.specs.Prelude.{◌≡◌, count_by};
ghost use Rattle.tipc_sim.specs.LiveCounts.{accepted_in, answered_in, delivered_in, is_accepted, is_answered, is_counted, is_delivered};

use tipc_journal::Entry;
use tipc_types::Flow;

/// Whether the messages of a flow are counted: those to one node, and those over the broadcast link. (This project's
/// profile.)
fn is_counted(flow: Flow) -> bool
    ensures { result ≡ is_counted flow }
{
    match flow {
        Flow::Zero => true,
        Flow::One => false,
        Flow::Broadcast => true,
    }
}

/// Whether an entry is of a message that was accepted and is counted.
#[tactic(auto, unfolding(crate::specs::LiveCounts::is_accepted))]
fn is_accepted(entry: &Entry) -> bool
    ensures { result ≡ is_accepted entry.now }
{
    match entry {
        Entry::Accepted { flow, .. } => is_counted(*flow),
        _ => false,
    }
}

/// Whether an entry is of a message that was delivered and is counted.
#[tactic(auto, unfolding(crate::specs::LiveCounts::is_delivered))]
fn is_delivered(entry: &Entry) -> bool
    ensures { result ≡ is_delivered entry.now }
{
    match entry {
        Entry::Delivered { flow, .. } => is_counted(*flow),
        _ => false,
    }
}

/// Whether an entry is of a call that was answered.
#[tactic(auto, unfolding(crate::specs::LiveCounts::is_answered))]
fn is_answered(entry: &Entry) -> bool
    ensures { result ≡ is_answered entry.now }
{
    matches!(entry, Entry::Answered { .. })
}

/// How many messages were accepted, over all peers and contacts.
pub(crate) fn accepted_in(journal: &[Entry]) -> u64
    ensures { result ≡ accepted_in journal.now }
{
    journal.iter().filter(|entry| is_accepted(entry)).count() as u64
}

/// How many messages were delivered, over all peers and contacts.
pub(crate) fn delivered_in(journal: &[Entry]) -> u64
    ensures { result ≡ delivered_in journal.now }
{
    journal.iter().filter(|entry| is_delivered(entry)).count() as u64
}

/// How many calls were answered.
pub(crate) fn answered_in(journal: &[Entry]) -> u64
    ensures { result ≡ answered_in journal.now }
{
    journal.iter().filter(|entry| is_answered(entry)).count() as u64
}
