//! Tests of the journal: entries are appended, and what they tell is read.

use crate::places::{keys_are, node, range};
use std::alloc::Global;
use std::process::Abort;
use std::test::Fail;
use tipc_journal::{Arrivals, Entry, Journal};
use tipc_types::{Answer, Body, Flow, Form, Importance, Message, PortId, Publication, Scope};

/// The contact of which the entries tell.
const CONTACT: (u64, u64) = (4_294_967_297, 4_294_967_298);

/// What a contact and a flow carried with node 2: how many messages were accepted, and how many delivered.
type Carried = ((u64, u64), Flow, (usize, usize));

/// A message of five bytes from node 1 to node 2.
fn hello(alloc: Global) -> Result<Message, Fail> {
    let from = PortId {
        node: node(1),
        port: 1,
    };
    let to = PortId {
        node: node(2),
        port: 1,
    };
    Ok(Message::Payload {
        importance: Importance::Low,
        form: Form::Direct,
        from,
        to,
        name_kind: 0,
        lower: 0,
        upper: 0,
        code: 0,
        droppable: false,
        body: Body::from_slice(alloc, b"hello")?,
    })
}

/// A call was answered.
fn answered(journal: &mut Journal) -> Result<(), Fail> {
    journal.append(Entry::Answered {
        caller: 0,
        call: 0,
        answer: Answer::Done,
    })?;
    Ok(())
}

/// A message was accepted for node 2 in flow 0.
fn accepted(alloc: Global, journal: &mut Journal) -> Result<(), Fail> {
    let message = hello(alloc)?;
    journal.append(Entry::Accepted {
        peer: node(2),
        contact: CONTACT,
        flow: Flow::Zero,
        message,
    })?;
    Ok(())
}

/// A message was delivered from node 2 in flow 1.
fn delivered(alloc: Global, journal: &mut Journal) -> Result<(), Fail> {
    let message = hello(alloc)?;
    let by = Arrivals::new(alloc);
    journal.append(Entry::Delivered {
        peer: node(2),
        contact: CONTACT,
        flow: Flow::One,
        message,
        by,
    })?;
    Ok(())
}

/// Port 1 of node 1 published with key 7.
fn published(rt: &impl Abort, journal: &mut Journal) -> Result<(), Fail> {
    let at = PortId {
        node: node(1),
        port: 1,
    };
    let publication = Publication {
        range: range(rt, (1, 5)),
        scope: Scope::Cluster,
        at,
        key: 7,
    };
    journal.append(Entry::Published { publication })?;
    Ok(())
}

/// A contact and a flow carried so much.
fn carried(rt: &impl Abort, alloc: Global, journal: &Journal, told: &Carried) -> Result<(), Fail> {
    let (contact, flow, count) = *told;
    let accepted = journal.accepted(alloc, node(2), contact, flow)?;
    assert!(rt; accepted.len() == count.0);
    let delivered = journal.delivered(alloc, node(2), contact, flow)?;
    assert!(rt; delivered.len() == count.1);
    Ok(())
}

/// Contacts and flows carried so much.
fn all_carried(
    rt: &impl Abort,
    alloc: Global,
    journal: &Journal,
    all: &[Carried],
) -> Result<(), Fail> {
    for told in all {
        carried(rt, alloc, journal, told)?;
    }
    Ok(())
}

/// The keys of live publications, of this node and of all, are these.
fn tells(rt: &impl Abort, alloc: Global, journal: &Journal, keys: &[u32]) -> Result<(), Fail> {
    let live = journal.live(alloc)?;
    keys_are(rt, live.as_slice(), keys);
    let table = journal.table(alloc)?;
    keys_are(rt, table.as_slice(), keys);
    Ok(())
}

/// What a message that was accepted and one that was delivered make of their contact, and of that with its numbers turned.
static CARRIED: [Carried; 3] = [
    (CONTACT, Flow::Zero, (1, 0)),
    (CONTACT, Flow::One, (0, 1)),
    ((4_294_967_298, 4_294_967_297), Flow::One, (0, 0)),
];

/// A journal with one answer tells of nothing.
fn begins(rt: &impl Abort, alloc: Global, journal: &mut Journal) -> Result<(), Fail> {
    answered(journal)?;
    journal.reserve(10)?;
    journal.keep(2)?;
    journal.release();
    assert!(rt; journal.len() == 1 && journal.spare() == 13 && journal.kept() == 1);
    carried(rt, alloc, journal, &(CONTACT, Flow::Zero, (0, 0)))?;
    tells(rt, alloc, journal, &[])
}

/// It tells of what was accepted, delivered and published then.
fn goes_on(rt: &impl Abort, alloc: Global, journal: &mut Journal) -> Result<(), Fail> {
    accepted(alloc, journal)?;
    delivered(alloc, journal)?;
    published(rt, journal)?;
    assert!(rt; journal.message_bytes() == 10);
    all_carried(rt, alloc, journal, &CARRIED)?;
    tells(rt, alloc, journal, &[7])
}

#[test]
fn a_journal_tells_what_its_entries_told(rt: HostRuntime) -> Result<(), Fail> {
    let mut journal = Journal::new(rt.alloc());
    begins(&rt, rt.alloc(), &mut journal)?;
    goes_on(&rt, rt.alloc(), &mut journal)
}
