//! What a pass keeps of a call: the call itself, and its answer as a journal keeps it.

ghost use Rattle.std.specs.Prelude.{◌≡◌, IfOk};
ghost use Rattle.tipc_node.specs.Sockets.{kept_answer};

use tipc_types::{Answer, EventNote, NoMemory};

/// An equal call.
pub fn copy_call(call: &EventNote) -> Result<EventNote, NoMemory>
    ensures { IfOk result (λ copy. copy ≡ call.now) }
{
    Ok(call.clone()?)
}

/// The answer as a journal keeps it: of a message that was received, only that one was given. It takes no memory.
pub fn kept_answer(answer: &Answer) -> Answer
    ensures { result ≡ kept_answer answer.now }
{
    match answer {
        Answer::Done => Answer::Done,
        Answer::Socket(port) => Answer::Socket(*port),
        Answer::SentTo(to) => Answer::SentTo(*to),
        Answer::Sent => Answer::Sent,
        Answer::Received(_) => Answer::Got,
        Answer::Got => Answer::Got,
        Answer::Empty => Answer::Empty,
        Answer::Subscribed(number) => Answer::Subscribed(*number),
        Answer::Next(event) => Answer::Next(*event),
        Answer::NoEvent => Answer::NoEvent,
        Answer::Arrived(arrival) => Answer::Arrived(*arrival),
        Answer::TooOld(packets) => Answer::TooOld(*packets),
        Answer::NoFrame => Answer::NoFrame,
        Answer::NoSocket => Answer::NoSocket,
        Answer::TooLong(bytes) => Answer::TooLong(*bytes),
        Answer::BadRange => Answer::BadRange,
        Answer::BadFilter => Answer::BadFilter,
        Answer::NoName => Answer::NoName,
        Answer::NoNode => Answer::NoNode,
        Answer::Congested { in_flight, waiting } => Answer::Congested {
            in_flight: *in_flight,
            waiting: *waiting,
        },
        Answer::NamesCongested { peer, waiting } => Answer::NamesCongested {
            peer: *peer,
            waiting: *waiting,
        },
        Answer::Reserved => Answer::Reserved,
        Answer::Duplicate(key) => Answer::Duplicate(*key),
        Answer::Full(limit) => Answer::Full(*limit),
        Answer::Unknown => Answer::Unknown,
    }
}
