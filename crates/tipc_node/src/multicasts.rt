//! The call that sends a message to each port that offers in a range: at the own node it has its fate, and where a peer
//! offers there, it is cast to all peers in contact at once.

ghost use Rattle.std.specs.Prelude.{◌≡◌, ℕ, ◌≤◌, ◌++◌, List, [], ◌∷◌, Bool, None, Some, true, IfOk, OnErr, OnOk};
ghost use Rattle.tipc_types.specs.declared.message_forms.Message.{Message};
ghost use Rattle.tipc_outside.specs.declared.outgoing.Outgoing.{Outgoing};
ghost use Rattle.tipc_outside.specs.Frames.{Adds};
ghost use Rattle.tipc_broadcast.specs.Deeds.{after_deeds, deeds_frames};
ghost use Rattle.tipc_journal.specs.Licensed.{has_peers};
ghost use Rattle.tipc_journal.specs.Refusals.{longest_body};
ghost use Rattle.tipc_journal.specs.Room.{counted_bytes, has_journal_room};
ghost use Rattle.tipc_message.specs.Wire.{IsPayload};
ghost use Rattle.tipc_sockets.specs.declared.fates.Fate.{Fate};
ghost use Rattle.tipc_sockets.specs.Fates.{after_fate, spread_of};
ghost use Rattle.tipc_node.specs.Calls.{sender_refusal, Performs};
ghost use Rattle.tipc_node.specs.Drafts.{with_sockets_in};
ghost use Rattle.tipc_node.specs.Messages.{IsSendable, limit_of};
ghost use Rattle.tipc_node.specs.Multicasts.{cast_entries, cast_entry, cast_refusal, contact_kept, entries_where, goes_out, is_multicast, multicast_deeds, spread_plan, spread_refusal};
ghost use Rattle.tipc_node.specs.Plans.{or_else, CarriesOut};

use crate::cores::Core;
use crate::drafts::Draft;
use crate::messages::{limit, multicast, multicast_note, pieces};
use crate::neighbours::{NUMBERS, Neighbour};
use crate::steps::record;
use std::alloc::Global;
use tipc_broadcast::Broadcast;
use tipc_journal::{Entry, PortList};
use tipc_name_table::Names;
use tipc_outside::Outbox;
use tipc_send_window::OfferFault;
use tipc_sockets::Spreading;
use tipc_types::{
    Addr, Answer, Body, By, EventNote, Flow, Importance, Message, NoMemory, Publication,
    ServiceRange,
};

/// The most entries of what is told of a multicast: its fate, and that it is accepted for each peer.
const MOST_TOLD: u64 = 33;

/// Whether one of these publications is a peer's.
fn has_peers(own: Addr, publications: &[Publication]) -> bool
    ensures { result ≡ has_peers own publications.now }
{
    publications.iter().any(|p| p.at.node.word != own.word)
}

/// The contact with the peer of that number: None exactly where there is none.
fn contact_kept(neighbours: &[Option<Neighbour>], peer: u8) -> Option<(u64, u64)>
    ensures { result ≡ contact_kept neighbours.now peer }
{
    match neighbours.get(peer as usize) {
        Some(Some(neighbour)) => neighbour.pair.contact(),
        _ => None,
    }
}

/// Tells that a multicast is accepted for the peer of that number, where there is contact with it.
fn accept_for(
    neighbours: &[Option<Neighbour>],
    peer: u8,
    m: &Message,
    inside: &mut Vec<Entry>,
) -> Result<(), NoMemory>
    requires { (1 ≤ peer) × (peer ≤ 32) }
    ensures { OnOk result (inside.new.items ≡ inside.old.items ++ cast_entry neighbours.now m.now peer) }
{
    let Some(contact) = contact_kept(neighbours, peer) else {
        return Ok(());
    };
    inside.push(Entry::Accepted {
        peer: Addr::node(peer),
        contact,
        flow: Flow::Broadcast,
        message: m.clone()?,
    })?;
    Ok(())
}

/// Tells that a multicast is accepted for each peer in contact, in order of their numbers.
fn accept_for_all(
    neighbours: &[Option<Neighbour>],
    m: &Message,
    inside: &mut Vec<Entry>,
) -> Result<(), NoMemory>
    ensures { OnOk result (inside.new.items ≡ inside.old.items ++ cast_entries neighbours.now m.now) }
{
    for peer in 1..NUMBERS {
        accept_for(neighbours, peer as u8, m, inside)?;
    }
    Ok(())
}

/// Casts a multicast to all peers in contact, where it goes out and fewer packets wait than the limit says.
fn cast(
    broadcast: &mut Broadcast,
    alloc: Global,
    own: Addr,
    m: &Message,
    goes_out: bool,
    limit: u32,
    out: &mut Outbox,
) -> Result<(), NoMemory>
    requires payload { IsPayload m.now }
    requires limit { limit ≤ 200 }
    requires clear { cast_refusal goes_out broadcast.old.sending limit ≡ None }
    ensures after { OnOk result (broadcast.new ≡
        after_deeds (multicast_deeds goes_out own.word m.now) broadcast.old) }
    ensures frames { OnOk result (Adds out.old out.new
        (deeds_frames (multicast_deeds goes_out own.word m.now) broadcast.old)) }
    ensures sendable { goes_out ≡ true → OnOk result (IsSendable own.word m.now) }
    ensures err { OnErr result ((broadcast.new ≡ broadcast.old) × (out.new ≡ out.old)) }
{
    if !goes_out {
        return Ok(());
    }
    let pieces = pieces(alloc, own, m)?;
    match broadcast.send(alloc, pieces, limit, out) {
        Ok(()) => Ok(()),
        Err(OfferFault::NoMemory) => Err(NoMemory),
        Err(OfferFault::Congested { .. }) => unreachable!(),
    }
}

impl Draft {
    /// Queues a multicast at each port that hears it, as it was told when the sockets were as they are. It takes no
    /// memory.
    pub(crate) fn spread(&mut self, spreading: Spreading)
        requires { (arrived : Bool) × (m : Message) × (spreading ≡ spread_of self.old.work.sockets arrived m) }
        ensures { (arrived : Bool) (m : Message) → spreading ≡ spread_of self.old.work.sockets arrived m →
            self.new ≡ with_sockets_in self.old
            (after_fate self.old.work.sockets m (Fate.Queued spreading.ports)) }
    {
        let _ = self.sockets.spread(spreading);
    }
}

impl Core {
    /// Why a multicast that goes out is refused: as many packets wait on the broadcast link as the limit says.
    fn cast_refusal(&self, goes_out: bool, limit: u32) -> Option<Answer>
        ensures { result ≡ cast_refusal goes_out self.now.casting.sending limit }
    {
        if !goes_out {
            return None;
        }
        let (in_flight, waiting) = self.broadcast.load();
        if waiting >= limit {
            return Some(Answer::Congested { in_flight, waiting });
        }
        None
    }

    /// Why a multicast of a range is refused, where its sender isn't; and whether it goes out, where it isn't refused.
    fn spread_refusal(
        &self,
        alloc: Global,
        kind: u32,
        lower: u32,
        upper: u32,
        importance: Importance,
    ) -> Result<(Option<Answer>, bool), NoMemory>
        ensures why { IfOk result (λ told. told.0 ≡ spread_refusal self.now
            (record { kind = kind; lower = lower; upper = upper }) importance) }
        ensures out { IfOk result (λ told. told.0 ≡ None →
            told.1 ≡ goes_out self.now (record { kind = kind; lower = lower; upper = upper })) }
    {
        let Ok(range) = ServiceRange::new(kind, lower, upper) else {
            return Ok((Some(Answer::BadRange), false));
        };
        let found = self.draft.sockets().overlapping(alloc, range)?;
        if found.is_empty() {
            return Ok((Some(Answer::NoName), false));
        }
        let goes_out = has_peers(self.own, found.as_slice());
        Ok((self.cast_refusal(goes_out, limit(importance)), goes_out))
    }

    /// Why a multicast is refused, the first reason that holds; and whether it goes out, where it isn't refused.
    fn multicast_refusal(
        &self,
        alloc: Global,
        port: u32,
        kind: u32,
        lower: u32,
        upper: u32,
        importance: Importance,
        body: &Body,
    ) -> Result<(Option<Answer>, bool), NoMemory>
        ensures why { IfOk result (λ told. told.0 ≡ or_else (sender_refusal self.now port body.now)
            (spread_refusal self.now (record { kind = kind; lower = lower; upper = upper }) importance)) }
        ensures out { IfOk result (λ told. told.0 ≡ None →
            told.1 ≡ goes_out self.now (record { kind = kind; lower = lower; upper = upper })) }
    {
        match self.sender_refusal(port, body) {
            Some(why) => Ok((Some(why), false)),
            None => self.spread_refusal(alloc, kind, lower, upper, importance),
        }
    }

    /// What is told of a multicast: its fate at these own ports, and behind it that it is accepted for each peer in
    /// contact, where it goes out.
    fn tell_spread(
        &self,
        alloc: Global,
        ports: &[u32],
        m: &Message,
        goes_out: bool,
    ) -> Result<Vec<Entry>, NoMemory>
        ensures { IfOk result (λ inside. inside.items ≡
            Entry.Queued ports.now ∷ entries_where goes_out self.now.neighbours m.now) }
    {
        let mut inside = Vec::new(alloc);
        inside.push(Entry::Queued {
            ports: PortList::from_slice(alloc, ports)?,
        })?;
        if goes_out {
            accept_for_all(self.draft.neighbours(), m, &mut inside)?;
        }
        Ok(inside)
    }

    /// Spreads a multicast that nothing speaks against: it has its fate at the own node, is accepted for each peer in
    /// contact where it goes out, and leaves for all of them at once. What can fail is done first.
    fn spread(
        &mut self,
        alloc: Global,
        by: By,
        note: EventNote,
        m: Message,
        goes_out: bool,
        limit: u32,
        out: &mut Outbox,
    ) -> Result<(), NoMemory>
        requires room { has_journal_room self.old.journal ≡ true }
        requires many { is_multicast (Some m) ≡ true }
        requires payload { IsPayload m }
        requires small { counted_bytes m ≤ longest_body }
        requires limit { limit ≤ 200 }
        requires clear { cast_refusal goes_out self.old.casting.sending limit ≡ None }
        ensures ok { OnOk result ((frames : List Outgoing) ×
            CarriesOut self.old by note (spread_plan self.old None goes_out m) self.new frames Answer.Sent ×
            Adds out.old out.new frames) }
        ensures err { OnErr result ((self.new ≡ self.old) × (out.new ≡ out.old)) }
    {
        let spreading = self.draft.sockets().spreading(alloc, &m, false)?;
        let inside = self.tell_spread(alloc, spreading.ports(), &m, goes_out)?;
        self.journal.reserve(MOST_TOLD + 2)?;
        cast(
            &mut self.broadcast,
            alloc,
            self.own,
            &m,
            goes_out,
            limit,
            out,
        )?;
        self.draft.spread(spreading);
        record(&mut self.journal, by, note, inside, Answer::Sent);
        Ok(())
    }

    /// Sends a message to each port that offers in a range. NoSocket exactly where the sending port isn't there, else
    /// TooLong exactly where the body has more than 66,000 bytes, else BadRange exactly where the lower bound is above
    /// the upper, else NoName exactly where nobody offers in the range, else, where a peer does, Congested exactly
    /// where as many packets wait on the broadcast link as the limit of the importance.
    pub(crate) fn multicast(
        &mut self,
        alloc: Global,
        by: By,
        port: u32,
        kind: u32,
        lower: u32,
        upper: u32,
        importance: Importance,
        body: Body,
        out: &mut Outbox,
    ) -> Result<Answer, NoMemory>
        requires room { has_journal_room self.old.journal ≡ true }
        ensures ok { IfOk result (λ a. (frames : List Outgoing) ×
            Performs self.old by (EventNote.Multicast port kind lower upper importance body) self.new frames a ×
            Adds out.old out.new frames) }
        ensures err { OnErr result ((self.new ≡ self.old) × (out.new ≡ out.old)) }
    {
        let (refused, goes_out) = self.multicast_refusal(
            alloc, port, kind, lower, upper, importance, &body,
        )?;
        if let Some(why) = refused {
            let note = multicast_note(port, kind, lower, upper, importance, body);
            return self.refuse(alloc, by, note, why);
        }
        let note = multicast_note(port, kind, lower, upper, importance, body.clone()?);
        let m = multicast(self.own, port, kind, lower, upper, importance, body);
        self.spread(alloc, by, note, m, goes_out, limit(importance), out)?;
        Ok(Answer::Sent)
    }
}
