//! What a line is answered by, and its text.

ghost use Rattle.std.specs.Prelude.{◌≡◌, ◌%◌, ◌∷◌, [], IfOk, codes};
ghost use Rattle.std.specs.Fmt.{decimal};
ghost use Rattle.hex.specs.Hex.{encode_lower};
ghost use Rattle.tipc_report.specs.Closing.{spaced};
ghost use Rattle.tipc_report.specs.Answering.{text_of};
ghost use Rattle.tipc_report.specs.Telling.{to_text, told_text};

use crate::answers::answer_text;
use crate::links::links_text;
use crate::tables::table_text;
use crate::words::{flow, number_in, numbered, numbered_twice, word};
use std::alloc::Global;
use tipc_types::{Addr, Answer, Bytes, List, NoMemory, PeerLinks, Sequence, To};

/// What is told of a line of a script: the answer of its event, or, where it is no event or several, what came of them. (This
/// project's profile.)
#[derive(Debug, Drop)]
pub enum Told {
    /// The line asks for nothing.
    Nothing,
    /// What an event answered, or what was asked.
    Answer(Answer),
    /// Messages were sent, one after the other.
    Times {
        /// How many were sent.
        count: u64,
        /// The last answer.
        last: Answer,
    },
    /// Both link ends that were to be joined are up.
    Up,
    /// One of the link ends that were to be joined is down or isn't there.
    Down,
    /// So many frames arrived.
    Pumped(u64),
    /// So many messages were taken from an inbox.
    Drained(u64),
    /// So many messages went from one port to another.
    Moved(u64),
    /// No packet is unacknowledged and none waits.
    Quiet,
    /// Packets are still under way.
    Unsettled {
        /// The packets that are unacknowledged.
        unacked: u64,
        /// The packets that wait.
        waiting: u64,
    },
    /// So many frames were sent on a bearer.
    Air(u64),
    /// The link ends of a node, in order of the peers.
    Links(Sequence<PeerLinks>),
    /// The publications that a node knows, in order.
    Table(List),
    /// How many messages of one contact were accepted at one node and delivered at the other.
    Flow {
        /// The messages that were accepted.
        accepted: u64,
        /// The messages that were delivered.
        delivered: u64,
    },
    /// The two nodes aren't in contact.
    NoContact,
    /// A frame that was sent.
    Frame {
        /// The node that sent it.
        from: Addr,
        /// Whom it is for.
        to: To,
        /// Its bytes.
        bytes: Bytes,
    },
}

/// The text of messages that were sent, one after the other.
#[tactic(auto, using(crate::proofs::Spacing::two_and_one))]
fn times_text(alloc: Global, count: u64, last: &Answer) -> Result<Vec<u8>, NoMemory>
    ensures { IfOk result (λ text. text.items ≡ spaced (codes "times" ∷ decimal count ∷ text_of last.now ∷ [])) }
{
    let mut text = numbered(alloc, "times", count)?;
    let answer = answer_text(alloc, last)?;
    text.push(b' ')?;
    text.extend_from_slice(answer.as_slice())?;
    Ok(text)
}

/// The nodes of a frame: its sender, a space, and whom it is for.
fn nodes_text(alloc: Global, from: Addr, to: To) -> Result<Vec<u8>, NoMemory>
    ensures { IfOk result (λ text. text.items ≡ spaced (decimal (from.word % 4096) ∷ to_text to ∷ [])) }
{
    let sender = number_in(from.word);
    let text = match to {
        To::Node(address) => {
            let receiver = number_in(address.word);
            format!(in alloc; "{sender} {receiver}")?
        }
        To::All => format!(in alloc; "{sender} all")?,
    };
    Ok(text.into_bytes())
}

/// The text of a frame.
#[tactic(auto, using(crate::proofs::Spacing::two_and_one))]
fn frame_text(alloc: Global, from: Addr, to: To, bytes: &[u8]) -> Result<Vec<u8>, NoMemory>
    ensures { IfOk result (λ text. text.items ≡ spaced (decimal (from.word % 4096) ∷ to_text to ∷
        encode_lower bytes.now ∷ [])) }
{
    let mut text = nodes_text(alloc, from, to)?;
    let digits = hex::encode(alloc, bytes)?.into_bytes();
    text.push(b' ')?;
    text.extend_from_slice(digits.as_slice())?;
    Ok(text)
}

/// The text of what is told of a line.
pub fn told_text(alloc: Global, told: &Told) -> Result<Vec<u8>, NoMemory>
    ensures { IfOk result (λ text. text.items ≡ told_text told.now) }
{
    match told {
        Told::Nothing => word(alloc, "-"),
        Told::Answer(answer) => answer_text(alloc, answer),
        Told::Times { count, last } => times_text(alloc, *count, last),
        Told::Up => word(alloc, "up"),
        Told::Down => word(alloc, "down"),
        Told::Pumped(count) => numbered(alloc, "pumped", *count),
        Told::Drained(count) => numbered(alloc, "drained", *count),
        Told::Moved(count) => numbered(alloc, "moved", *count),
        Told::Quiet => word(alloc, "quiet"),
        Told::Unsettled { unacked, waiting } => numbered_twice(
            alloc,
            "unsettled",
            *unacked,
            *waiting,
        ),
        Told::Air(count) => numbered(alloc, "air", *count),
        Told::Links(peers) => links_text(alloc, peers.as_slice()),
        Told::Table(publications) => table_text(alloc, publications.as_slice()),
        Told::Flow {
            accepted,
            delivered,
        } => flow(alloc, *accepted, *delivered),
        Told::NoContact => word(alloc, "no-contact"),
        Told::Frame { from, to, bytes } => frame_text(alloc, *from, *to, bytes.as_slice()),
    }
}
