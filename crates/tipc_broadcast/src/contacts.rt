//! What the broadcast link keeps of the peers in contact.

ghost use Rattle.std.specs.Prelude.{◌≡◌, ◌≤◌, false, None, Option, All, IfOk, OnErr, position};
ghost use Rattle.tipc_types.specs.Position.{number_of};
ghost use Rattle.tipc_types.specs.Address.{IsNodeWord};
ghost use Rattle.tipc_header.specs.Grammar.{Fits};
ghost use Rattle.tipc_header.specs.Spelling.{view};
ghost use Rattle.tipc_types.specs.declared.link_words.Why.{Why};
ghost use Rattle.tipc_types.specs.declared.packet_lists.Taken.{Taken};
ghost use Rattle.tipc_broadcast.specs.Casting.{TakesFew};
ghost use Rattle.tipc_broadcast.specs.Contacts.{acked_by_all, acknowledged_to, acknowledging, bit_of, carried, coming_in, coming_to, contact_with, deferred_in, heard, heard_outcome, is_in_step, is_member, is_with, IsContact, IsFree, joined, member_set, noted, outcome_in, refusal, shown_in, shows_more_in, stepped, told};

use crate::receiving::{carried, last_taken};
use std::alloc::Global;
use tipc_header::Packet;
use tipc_recv_window::{LinkOutcome, RecvWindow, WindowArrival};
use tipc_types::{Addr, BroadcastState, NoMemory, Why, number_distance, sequence_number};

/// The address word of node 1, whose bit in a member set is the lowest.
const FIRST_NODE: u32 = 0x0100_1001;

/// What the broadcast link keeps of a peer in contact.
#[derive(Drop)]
pub struct Contact {
    /// The peer.
    pub(crate) peer: Addr,
    /// The boot number in the peer's contact number.
    pub(crate) boot: u32,
    /// The position of the first packet that is for the peer.
    pub(crate) start: u64,
    /// The position of the last packet that the peer acknowledged. Those before its start count as acknowledged.
    pub(crate) acked: u64,
    /// The receive window of the peer's own broadcast. It is there once this node is in step with it.
    pub(crate) window: Option<RecvWindow>,
    /// The position that the peer's next broadcast packet will have, as far as the peer has shown.
    pub(crate) shown: u64,
}

impl Contact {
    /// A new contact: the peer is to take what is accepted from this position on.
    pub(crate) fn new(peer: Addr, boot: u32, start: u64) -> Contact
        requires { 1 ≤ start }
        ensures { result ≡ joined peer.word boot start }
    {
        Contact {
            peer,
            boot,
            start,
            acked: start - 1,
            window: None,
            shown: 0,
        }
    }

    /// A contact of which the same is kept.
    fn copy(&self) -> Result<Contact, NoMemory>
        ensures { IfOk result (λ c. c ≡ self.now) }
    {
        let window = match &self.window {
            None => None,
            Some(window) => Some(window.copy()?),
        };
        Ok(Contact {
            peer: self.peer,
            boot: self.boot,
            start: self.start,
            acked: self.acked,
            window,
            shown: self.shown,
        })
    }

    /// The peer shows that it has every packet up to the one with this number, of `numbered` packets.
    #[tactic(auto, unfolding(crate::specs::Contacts::acknowledged_to))]
    pub(crate) fn acknowledge(&mut self, numbered: u64, number: u16)
        ensures { self.new ≡ acknowledging numbered number self.old }
    {
        let past = u64::from(number_distance(sequence_number(self.acked), number));
        if past <= numbered.saturating_sub(self.acked) {
            self.acked += past;
        }
    }

    /// This node is in step with the peer's broadcast: the first STATE of the contact tells the start.
    fn step_in(&mut self, alloc: Global, start: u16)
        ensures { self.new ≡ stepped start self.old }
    {
        if self.window.is_none() {
            self.window = Some(RecvWindow::new(alloc, start));
            self.shown = u64::from(start);
        }
    }

    /// Keeps the highest next position that the peer has shown.
    fn note(&mut self, next: u16)
        ensures { self.new ≡ noted next self.old }
    {
        if let Some(window) = &self.window {
            let position = window.wanted_position() + u64::from(window.ahead(next));
            self.shown = self.shown.max(position);
        }
    }

    /// Takes what the peer tells of its own broadcast.
    pub(crate) fn tell(&mut self, alloc: Global, start: u16, next: u16)
        ensures { self.new ≡ told start next self.old }
    {
        self.step_in(alloc, start);
        self.note(next);
    }

    /// What a STATE to the peer shows, where the own next number is `next`.
    pub(crate) fn shown(&self, next: u16) -> BroadcastState
        ensures { result ≡ shown_in next (number_of self.now.start) self.now.shown self.now.window }
    {
        let start = sequence_number(self.start);
        match &self.window {
            None => unseen(next, start),
            Some(window) => BroadcastState {
                acknowledged: last_taken(window),
                next,
                start,
                gap: window.gap_to(self.shown),
                in_step: true,
            },
        }
    }

    /// Whether a next number shows more than was taken.
    pub(crate) fn shows_more(&self, next: u16) -> bool
        ensures { result ≡ shows_more_in next self.now.window }
    {
        match &self.window {
            None => false,
            Some(window) => window.shows_more(next),
        }
    }

    /// How many packets of the peer are deferred.
    pub(crate) fn deferred(&self) -> u32
        ensures { result ≡ deferred_in self.now.window }
    {
        match &self.window {
            None => 0,
            Some(window) => window.deferred(),
        }
    }

    /// Why a packet of this boot of the peer for these members is ignored, before its number is read.
    fn refusal(&self, own: Addr, boot: u32, members: u32) -> Option<Why>
        requires { IsNodeWord own.word }
        ensures { result ≡ refusal own.word boot members self.now }
    {
        if boot != self.boot {
            return Some(Why::Epoch);
        }
        if self.window.is_none() {
            return Some(Why::OutOfStep);
        }
        if !is_member(own, members) {
            return Some(Why::NotMember);
        }
        None
    }

    /// What a packet that isn't refused will make of the receive window, and what its arrival answers.
    fn prepare_heard(
        &self,
        alloc: Global,
        packet: &Packet<'_>,
        by: u64,
    ) -> Result<(Option<WindowArrival>, LinkOutcome), NoMemory>
        requires fits { Fits (view packet.now) }
        requires free { IsFree self.now.window }
        ensures window { IfOk result (λ told. told.0 ≡ coming_in (carried (view packet.now) by) self.now.window) }
        ensures outcome { IfOk result (λ told. told.1 ≡ outcome_in (carried (view packet.now) by) self.now.window) }
        ensures few { IfOk result (λ told. TakesFew told.1) }
    {
        let Some(window) = &self.window else {
            return Ok((None, LinkOutcome::Ignored(Why::OutOfStep)));
        };
        let _ = window.wanted();
        let (arrival, due) = window.prepare(alloc, carried(alloc, packet, by)?)?;
        let outcome = LinkOutcome::at(arrival.place(), due);
        Ok((Some(arrival), outcome))
    }

    /// What a packet of this boot of the peer for these members will make of the receive window, where it isn't
    /// ignored, and what its arrival answers. Memory is asked for only where the packet isn't refused.
    pub(crate) fn prepare(
        &self,
        alloc: Global,
        own: Addr,
        boot: u32,
        members: u32,
        packet: &Packet<'_>,
        by: u64,
    ) -> Result<(Option<WindowArrival>, LinkOutcome), NoMemory>
        requires own { IsNodeWord own.word }
        requires fits { Fits (view packet.now) }
        requires free { IsFree self.now.window }
        ensures window { IfOk result (λ told. told.0 ≡ coming_to (carried (view packet.now) by) self.now
            (refusal own.word boot members self.now)) }
        ensures outcome { IfOk result (λ told. told.1 ≡ heard_outcome (carried (view packet.now) by) self.now
            (refusal own.word boot members self.now)) }
        ensures few { IfOk result (λ told. TakesFew told.1) }
        ensures heard_only { OnErr result (refusal own.word boot members self.now ≡ None) }
    {
        match self.refusal(own, boot, members) {
            Some(why) => Ok((None, LinkOutcome::Ignored(why))),
            None => self.prepare_heard(alloc, packet, by),
        }
    }

    /// Lets the receive window do what a packet makes of it, as it was told.
    pub(crate) fn commit(&mut self, arrival: Option<WindowArrival>)
        requires free { IsFree self.old.window }
        requires arrival { (t : Taken) × (o : Option Why) × (arrival ≡ coming_to t self.old o) }
        ensures { (t : Taken) (o : Option Why) → arrival ≡ coming_to t self.old o → self.new ≡ heard t self.old o }
    {
        let Some(arrival) = arrival else { return };
        match &mut self.window {
            Some(window) => window.commit(arrival),
            None => {}
        }
    }
}

/// What a STATE to a peer shows with whose broadcast this node isn't in step.
pub(crate) fn unseen(next: u16, start: u16) -> BroadcastState
    ensures { result ≡ record { acknowledged = 0; next = next; start = start; gap = 0; in_step = false } }
{
    BroadcastState {
        acknowledged: 0,
        next,
        start,
        gap: 0,
        in_step: false,
    }
}

/// The bit of a node in a member set.
fn bit(node: Addr) -> u32
    requires { IsNodeWord node.word }
    ensures { result ≡ bit_of node.word }
{
    1 << (node.word - FIRST_NODE)
}

/// Whether a node's bit is set in a member set.
fn is_member(node: Addr, members: u32) -> bool
    requires { IsNodeWord node.word }
    ensures { result ≡ is_member node.word members }
{
    members / bit(node) % 2 == 1
}

/// The set of the peers in contact.
#[tactic(auto, unfolding(crate::specs::Contacts::member_set))]
pub(crate) fn member_set(contacts: &[Contact]) -> u32
    requires { All (λ c. IsNodeWord c.peer.word) contacts.now }
    ensures { result ≡ member_set contacts.now }
{
    let mut members = 0;
    for contact in contacts {
        members |= bit(contact.peer);
    }
    members
}

/// The last position that every peer in contact acknowledged, at most `numbered`.
pub(crate) fn acked_by_all(numbered: u64, contacts: &[Contact]) -> u64
    ensures { result ≡ acked_by_all numbered contacts.now }
{
    contacts
        .iter()
        .fold(numbered, |least, contact| least.min(contact.acked))
}

/// The place of the first contact with a peer: None exactly where there is none.
pub(crate) fn place_of(contacts: &[Contact], peer: Addr) -> Option<usize>
    ensures { result ≡ position (is_with peer.word) contacts.now }
{
    contacts
        .iter()
        .position(|contact| contact.peer.word == peer.word)
}

/// Contacts of which the same is kept.
pub(crate) fn copies(alloc: Global, contacts: &[Contact]) -> Result<Vec<Contact>, NoMemory>
    ensures { IfOk result (λ copies. copies.items ≡ contacts.now) }
{
    let mut copies = Vec::new(alloc);
    for contact in contacts {
        copies.push(contact.copy()?)?;
    }
    Ok(copies)
}
