//! What a journal tells: messages accepted and delivered, and publications.

ghost use Rattle.std.specs.Prelude.{◌≡◌, ◌++◌, Option, IfOk, OnOk, is_some, length};
ghost use Rattle.std.specs.Option.{option_copied};
ghost use Rattle.tipc_journal.specs.Streams.{Stream, stream_eq, flow_eq, accepted_message, delivered_message, accepted, delivered};
ghost use Rattle.tipc_journal.specs.Prefixes.{list_with};
ghost use Rattle.tipc_journal.specs.Names.{live, learned, table, live_after, learned_after};

use crate::entries::Entry;
use crate::keeping::Journal;
use std::alloc::Global;
use tipc_types::{Addr, Flow, List, Message, MessageList, NoMemory, Publication};

impl Journal {
    /// The messages that were accepted for a peer in a contact (this node's number, then the peer's)
    /// and a flow, in order.
    #[tactic(auto, using(crate::proofs::StreamLaws::accepted_nil))]
    pub fn accepted(
        &self,
        alloc: Global,
        peer: Addr,
        contact: (u64, u64),
        flow: Flow,
    ) -> Result<MessageList, NoMemory>
        ensures { IfOk result (λ messages. messages ≡ accepted self.now.entries
            (record { peer = peer; contact = contact; flow = flow })) }
    {
        let mut found = Vec::new(alloc);
        for entry in self.entries() {
            add_copy(&mut found, accepted_message(entry, peer, contact, flow))?;
        }
        Ok(MessageList::from_vec(found))
    }

    /// The messages that were delivered from a peer in a contact (this node's number, then the peer's)
    /// and a flow, in order.
    #[tactic(auto, using(crate::proofs::StreamLaws::delivered_nil))]
    pub fn delivered(
        &self,
        alloc: Global,
        peer: Addr,
        contact: (u64, u64),
        flow: Flow,
    ) -> Result<MessageList, NoMemory>
        ensures { IfOk result (λ messages. messages ≡ delivered self.now.entries
            (record { peer = peer; contact = contact; flow = flow })) }
    {
        let mut found = Vec::new(alloc);
        for entry in self.entries() {
            add_copy(&mut found, delivered_message(entry, peer, contact, flow))?;
        }
        Ok(MessageList::from_vec(found))
    }

    /// How many messages were accepted for a peer in a contact (this node's number, then the peer's) and a
    /// flow. It takes no memory. (This project's profile.)
    #[tactic(auto, using(crate::proofs::StreamLaws::length_accepted))]
    pub fn accepted_count(&self, peer: Addr, contact: (u64, u64), flow: Flow) -> u64
        ensures { result ≡ length (accepted self.now.entries (record { peer = peer; contact = contact; flow = flow })) }
    {
        let entries = self.entries().iter();
        entries
            .filter(|entry| is_accepted(entry, peer, contact, flow))
            .count() as u64
    }

    /// How many messages were delivered from a peer in a contact (this node's number, then the peer's) and
    /// a flow. It takes no memory. (This project's profile.)
    #[tactic(auto, using(crate::proofs::StreamLaws::length_delivered))]
    pub fn delivered_count(&self, peer: Addr, contact: (u64, u64), flow: Flow) -> u64
        ensures { result ≡ length (delivered self.now.entries
            (record { peer = peer; contact = contact; flow = flow })) }
    {
        let entries = self.entries().iter();
        entries
            .filter(|entry| is_delivered(entry, peer, contact, flow))
            .count() as u64
    }

    /// This node's live publications: those Published without a Withdrawn of that key after them, in order.
    #[tactic(auto, using(crate::proofs::NameLaws::live_nil))]
    pub fn live(&self, alloc: Global) -> Result<List, NoMemory>
        ensures { IfOk result (λ publications. publications ≡ live self.now.entries) }
    {
        let mut found = Vec::new(alloc);
        for entry in self.entries() {
            follow_own(&mut found, entry)?;
        }
        Ok(List::from_vec(found))
    }

    /// The table: this node's live publications, then those Learned from peers without a Forgot of that
    /// key of that peer, or a ContactDown of that peer, after them, each part in order.
    pub fn table(&self, alloc: Global) -> Result<List, NoMemory>
        ensures { IfOk result (λ publications. publications ≡ table self.now.entries) }
    {
        let mut found = self.live(alloc)?.into_vec();
        let learned = self.learned(alloc)?;
        found.extend_from_slice(learned.as_slice())?;
        Ok(List::from_vec(found))
    }

    /// The peers' part of the table.
    #[tactic(auto, using(crate::proofs::NameLaws::learned_nil))]
    fn learned(&self, alloc: Global) -> Result<List, NoMemory>
        ensures { IfOk result (λ publications. publications ≡ learned self.now.entries) }
    {
        let mut found = Vec::new(alloc);
        for entry in self.entries() {
            follow_peers(&mut found, entry)?;
        }
        Ok(List::from_vec(found))
    }
}

/// Whether two streams, each a peer, a contact and a flow, are the same.
#[tactic(auto, unfolding(crate::specs::Streams::stream_eq))]
fn is_same_stream(left: (Addr, (u64, u64), Flow), right: (Addr, (u64, u64), Flow)) -> bool
    ensures { result ≡ stream_eq (record { peer = left.0; contact = left.1; flow = left.2 })
        (record { peer = right.0; contact = right.1; flow = right.2 }) }
{
    let is_same_contact = left.1.0 == right.1.0 && left.1.1 == right.1.1;
    left.0.word == right.0.word && is_same_contact && is_same_flow(left.2, right.2)
}

/// Whether two flows are the same.
fn is_same_flow(left: Flow, right: Flow) -> bool
    ensures { result ≡ flow_eq left right }
{
    match left {
        Flow::Zero => matches!(right, Flow::Zero),
        Flow::One => matches!(right, Flow::One),
        Flow::Broadcast => matches!(right, Flow::Broadcast),
    }
}

/// The message of an Accepted entry of the stream.
fn accepted_message(entry: &Entry, peer: Addr, contact: (u64, u64), flow: Flow) -> Option<&Message>
    ensures { option_copied result ≡
        accepted_message (record { peer = peer; contact = contact; flow = flow }) entry.now }
{
    match entry {
        Entry::Accepted {
            peer: theirs,
            contact: numbers,
            flow: taken,
            message,
        } => {
            if is_same_stream((*theirs, *numbers, *taken), (peer, contact, flow)) {
                Some(message)
            } else {
                None
            }
        }
        _ => None,
    }
}

/// The message of a Delivered entry of the stream.
fn delivered_message(entry: &Entry, peer: Addr, contact: (u64, u64), flow: Flow) -> Option<&Message>
    ensures { option_copied result ≡
        delivered_message (record { peer = peer; contact = contact; flow = flow }) entry.now }
{
    match entry {
        Entry::Delivered {
            peer: theirs,
            contact: numbers,
            flow: taken,
            message,
            ..
        } => {
            if is_same_stream((*theirs, *numbers, *taken), (peer, contact, flow)) {
                Some(message)
            } else {
                None
            }
        }
        _ => None,
    }
}

/// Whether the entry is an Accepted entry of the stream.
fn is_accepted(entry: &Entry, peer: Addr, contact: (u64, u64), flow: Flow) -> bool
    ensures { result ≡ is_some (accepted_message (record { peer = peer; contact = contact; flow = flow }) entry.now) }
{
    accepted_message(entry, peer, contact, flow).is_some()
}

/// Whether the entry is a Delivered entry of the stream.
fn is_delivered(entry: &Entry, peer: Addr, contact: (u64, u64), flow: Flow) -> bool
    ensures { result ≡ is_some (delivered_message (record { peer = peer; contact = contact; flow = flow }) entry.now) }
{
    delivered_message(entry, peer, contact, flow).is_some()
}

/// Adds a copy of the message, where there is one.
fn add_copy(found: &mut Vec<Message>, message: Option<&Message>) -> Result<(), NoMemory>
    ensures { OnOk result (found.new.items ≡ list_with found.old.items (option_copied message.entry)) }
{
    if let Some(message) = message {
        found.push(message.clone()?)?;
    }
    Ok(())
}

/// Brings this node's live publications to what they are after one more entry.
fn follow_own(found: &mut Vec<Publication>, entry: &Entry) -> Result<(), NoMemory>
    ensures { OnOk result (found.new.items ≡ live_after found.old.items entry.now) }
{
    match entry {
        Entry::Published { publication } => found.push(*publication)?,
        Entry::Withdrawn { publication } => found.retain(|p| publication.key != p.key),
        _ => {}
    }
    Ok(())
}

/// Brings the peers' publications to what they are after one more entry.
fn follow_peers(found: &mut Vec<Publication>, entry: &Entry) -> Result<(), NoMemory>
    ensures { OnOk result (found.new.items ≡ learned_after found.old.items entry.now) }
{
    match entry {
        Entry::Learned { publication } => found.push(*publication)?,
        Entry::Forgot { publication } => {
            found.retain(|p| !(publication.at.node.word == p.at.node.word
                && publication.key == p.key))
        }
        Entry::ContactDown { peer, .. } => found.retain(|p| peer.word != p.at.node.word),
        _ => {}
    }
    Ok(())
}
