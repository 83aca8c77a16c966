//! The text of an answer.

ghost use Rattle.std.specs.Prelude.{◌≡◌, IfOk};
ghost use Rattle.tipc_report.specs.Answering.{IsRefusal, text_of, what_word, event_text, arrival_text};

use crate::bodies::message_text;
use crate::words::{at_port, event, numbered, numbered_twice, word};
use std::alloc::Global;
use tipc_types::{Answer, Arrival, Event, NoMemory, Why};

/// What an event tells: a publication was added. (Programmer's guide.)
const PUBLISHED: u32 = 1;

/// What an event tells: a publication was removed. (Programmer's guide.)
const WITHDRAWN: u32 = 2;

/// What an event is called.
fn what_word(what: u32) -> &'static str
    ensures { result.now ≡ what_word what }
{
    match what {
        PUBLISHED => "published",
        WITHDRAWN => "withdrawn",
        _ => "timeout",
    }
}

/// The text of a subscription's event.
fn event_text(alloc: Global, next: &Event) -> Result<Vec<u8>, NoMemory>
    ensures { IfOk result (λ text. text.items ≡ event_text next.now) }
{
    let what = what_word(next.what);
    event(
        alloc,
        what,
        (next.lower, next.upper),
        (next.at_node, next.at_port),
    )
}

/// The text of an ignored frame.
fn ignored_text(alloc: Global, why: Why) -> Result<Vec<u8>, NoMemory>
    ensures { IfOk result (λ text. text.items ≡ arrival_text (Arrival.Ignored why)) }
{
    match why {
        Why::Cut => word(alloc, "ignored cut"),
        Why::Envelope => word(alloc, "ignored envelope"),
        Why::Header(fault) => numbered(alloc, "ignored header", u64::from(fault)),
        Why::Own => word(alloc, "ignored own"),
        Why::Network => word(alloc, "ignored network"),
        Why::Unknown => word(alloc, "ignored unknown"),
        Why::Contact => word(alloc, "ignored contact"),
        Why::Held => word(alloc, "ignored held"),
        Why::Epoch => word(alloc, "ignored epoch"),
        Why::OutOfStep => word(alloc, "ignored out-of-step"),
        Why::NotMember => word(alloc, "ignored not-member"),
        Why::Old => word(alloc, "ignored old"),
    }
}

/// The text of what became of a frame.
fn arrival_text(alloc: Global, arrival: Arrival) -> Result<Vec<u8>, NoMemory>
    ensures { IfOk result (λ text. text.items ≡ arrival_text arrival) }
{
    match arrival {
        Arrival::Took(messages) => numbered(alloc, "took", u64::from(messages)),
        Arrival::Deferred => word(alloc, "deferred"),
        Arrival::Ignored(why) => ignored_text(alloc, why),
    }
}

/// The text of a refusal.
fn refusal_text(alloc: Global, answer: &Answer) -> Result<Vec<u8>, NoMemory>
    requires { IsRefusal answer.now }
    ensures { IfOk result (λ text. text.items ≡ text_of answer.now) }
{
    match answer {
        Answer::NoSocket => word(alloc, "no-socket"),
        Answer::TooLong(length) => numbered(alloc, "too-long", *length),
        Answer::BadRange => word(alloc, "bad-range"),
        Answer::BadFilter => word(alloc, "bad-filter"),
        Answer::NoName => word(alloc, "no-name"),
        Answer::NoNode => word(alloc, "no-node"),
        Answer::Congested { in_flight, waiting } => numbered_twice(
            alloc,
            "congested",
            u64::from(*in_flight),
            u64::from(*waiting),
        ),
        Answer::NamesCongested { peer, waiting } => numbered_twice(
            alloc,
            "names-congested",
            u64::from(*peer),
            u64::from(*waiting),
        ),
        Answer::Reserved => word(alloc, "reserved"),
        Answer::Duplicate(key) => numbered(alloc, "duplicate", u64::from(*key)),
        Answer::Full(limit) => numbered(alloc, "full", u64::from(*limit)),
        Answer::Unknown => word(alloc, "unknown"),
        _ => unreachable!(),
    }
}

/// The text of an answer.
pub fn answer_text(alloc: Global, answer: &Answer) -> Result<Vec<u8>, NoMemory>
    ensures { IfOk result (λ text. text.items ≡ text_of answer.now) }
{
    match answer {
        Answer::Done => word(alloc, "ok"),
        Answer::Socket(port) => numbered(alloc, "socket", u64::from(*port)),
        Answer::SentTo(port) => at_port(alloc, "sent", *port),
        Answer::Sent => word(alloc, "sent"),
        Answer::Received(message) => message_text(alloc, message),
        Answer::Got => word(alloc, "got"),
        Answer::Empty => word(alloc, "empty"),
        Answer::Subscribed(number) => numbered(alloc, "sub", u64::from(*number)),
        Answer::Next(next) => event_text(alloc, next),
        Answer::NoEvent => word(alloc, "none"),
        Answer::Arrived(arrival) => arrival_text(alloc, *arrival),
        Answer::TooOld(count) => numbered(alloc, "too-old", *count),
        Answer::NoFrame => word(alloc, "no-frame"),
        refusal => refusal_text(alloc, refusal),
    }
}
