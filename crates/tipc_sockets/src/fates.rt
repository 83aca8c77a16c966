//! What becomes of a message that arrived, or that the own node sent to itself.

ghost use Rattle.std.specs.Prelude.{◌≡◌};
ghost use Rattle.tipc_journal.specs.Dues.{returned_message};
ghost use Rattle.tipc_sockets.specs.Fates.{port_of, unqueued_fate};

use tipc_journal::PortList;
use tipc_types::{Addr, Form, Message};

/// The most bytes of a message that go back to its sender. (This project's profile.)
const MOST_RETURNED_BYTES: usize = 1_024;

/// So many packets that wait on a link let no return through. (This project's profile.)
const RETURN_LIMIT: u32 = 200;

/// What becomes of a message that arrived, or that the own node sent to itself.
#[derive(Clone, Debug, Drop, PartialEq)]
pub enum Fate {
    /// It waits at these ports, rising. A multicast may find none.
    Queued(PortList),
    /// It goes back to its sender: this message, which says why.
    Returned(Message),
    /// It can't go back: so many packets wait on the link to its sender, or there is no contact, and this is 0.
    ReturnDropped(u32),
    /// It is dropped.
    Dropped,
}

/// A message as it goes back to its sender: direct, from the port that it was for, with the reason, and at most its
/// first 1,024 bytes. It takes no memory.
pub(crate) fn returned(m: Message, why: u8) -> Message
    ensures { result ≡ returned_message why m }
{
    match m {
        Message::Payload {
            importance,
            from,
            to,
            body,
            ..
        } => {
            let mut first = body;
            first.truncate(MOST_RETURNED_BYTES);
            Message::Payload {
                importance,
                form: Form::Direct,
                from: to,
                to: from,
                name_kind: 0,
                lower: 0,
                upper: 0,
                code: why,
                droppable: false,
                body: first,
            }
        }
        Message::Items { withdrawal, items } => Message::Items { withdrawal, items },
    }
}

/// The port that a message is for.
pub fn port_of(m: &Message) -> u32
    ensures { result ≡ port_of m.now }
{
    match m {
        Message::Payload { to, .. } => to.port,
        Message::Items { .. } => 0,
    }
}

/// What becomes of a message that isn't queued, for this reason. It takes no memory.
pub(crate) fn unqueued(own: Addr, waiting: Option<u32>, why: u8, m: Message) -> Fate
    ensures { result ≡ unqueued_fate own.word waiting why m }
{
    let Message::Payload {
        from,
        code,
        droppable,
        ..
    } = &m
    else {
        return Fate::Dropped;
    };
    if *droppable || *code != 0 {
        return Fate::Dropped;
    }
    if from.node.word == own.word {
        return Fate::Returned(returned(m, why));
    }
    match waiting {
        None => Fate::ReturnDropped(0),
        Some(count) if count >= RETURN_LIMIT => Fate::ReturnDropped(count),
        Some(_) => Fate::Returned(returned(m, why)),
    }
}
