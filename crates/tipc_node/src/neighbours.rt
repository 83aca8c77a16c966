//! The peers of a node, and what a call does at each.

ghost use Rattle.std.specs.Prelude.{◌≡◌, ◌+◌, ◌-◌, ◌^◌, ◌≤◌, ℕ, List, [], true, All, Some, None, filter, length, slice_index_or, unwrap_or, IfOk, IsErr, OnErr, OnOk};
ghost use Rattle.tipc_types.specs.Address.{node_word};
ghost use Rattle.tipc_types.specs.declared.message_forms.Flow.TheVariants.{Zero};
ghost use Rattle.tipc_outside.specs.Frames.{no_frames, Adds, AddsFirst, Gains};
ghost use Rattle.tipc_outside.specs.declared.outgoing.Outgoing.{Outgoing};
ghost use Rattle.tipc_link.specs.Sessions.{SessionEnd};
ghost use Rattle.tipc_pair.specs.Courses.{made_in};
ghost use Rattle.tipc_pair.specs.Facing.{facing, in_contact};
ghost use Rattle.tipc_pair.specs.PairCalls.{active_session};
ghost use Rattle.tipc_pair.specs.Runs.{IsListed};
ghost use Rattle.tipc_broadcast.specs.Casting.{shown};
ghost use Rattle.tipc_broadcast.specs.Contacts.{has_joined};
ghost use Rattle.tipc_broadcast.specs.Deeds.{after_deeds, deeds_frames};
ghost use Rattle.tipc_pair.specs.Contacts.{is_of_contact};
ghost use Rattle.tipc_node.specs.Casting.{bearer_deeds, casting_in, contact_deeds, IsContactChange};
ghost use Rattle.tipc_node.specs.Neighbours.{with_casts, casts_after, course_of, done, making, stranger, with_pair, IsOnBearer, PutsThere};
ghost use Rattle.tipc_node.specs.Nodes.{accepted_entry, is_met, load_all, load_on, load_with, mended_by, shown_contact, unacked_in, upkeep_note, waiting_in, with_mended_on, is_mended_on};
ghost use Rattle.tipc_node.specs.Partings.{AreAllJoined, TookPart, TookParts};

use crate::casting::{bear, changes_contact, follow_contact};
use crate::steps::note_changes;
use std::alloc::Global;
use tipc_broadcast::Broadcast;
use tipc_journal::Entry;
use tipc_outside::Outbox;
use tipc_pair::{Pair, Transition, TransitionList};
use tipc_reassembly::Reassembly;
use tipc_send_window::OfferFault;
use tipc_types::{Addr, BroadcastState, EventNote, Flow, Message, NoMemory, Pieces};

/// The numbers of nodes are from 1 to 32.
pub const NUMBERS: usize = 33;

/// What a node keeps of a peer.
#[derive(Drop)]
pub struct Neighbour {
    /// The link ends to it, and the contact.
    pub pair: Pair,
    /// What is begun of its broadcast, in this contact with it.
    pub casts: Reassembly,
}

/// What happens to all neighbours of a node alike.
#[derive(Clone, Copy, Debug, PartialEq, Eq)]
pub enum Upkeep {
    /// A bearer, 0 or 1, is mended.
    Mend(u8),
    /// A bearer, 0 or 1, is cut.
    Cut(u8),
    /// A tick.
    Tick,
}

/// The bearers of a node: whether 0 is mended, and whether 1 is.
pub type Bearers = (bool, bool);

/// Whether a bearer is mended. There are two: 0 and 1.
pub fn is_mended_on(mended: Bearers, bearer: u8) -> bool
    ensures { result ≡ is_mended_on mended bearer }
{
    match bearer {
        0 => mended.0,
        1 => mended.1,
        _ => false,
    }
}

/// The bearers where one of them is mended now, or cut.
fn with_mended_on(mended: Bearers, bearer: u8, now: bool) -> Bearers
    requires { bearer ≤ 1 }
    ensures { result ≡ with_mended_on mended bearer now }
{
    match bearer {
        0 => (now, mended.1),
        _ => (mended.0, now),
    }
}

/// What is kept of a peer, which may be a stranger still.
pub fn acquaintance(
    alloc: Global,
    own: Addr,
    boot: u32,
    peer: u8,
    place: Option<Neighbour>,
) -> Neighbour
    requires { (1 ≤ peer) × (peer ≤ 32) }
    ensures { result ≡ unwrap_or place (stranger own.word peer boot) }
{
    match place {
        Some(neighbour) => neighbour,
        None => Neighbour::stranger(alloc, own, peer, boot),
    }
}

impl Neighbour {
    /// A peer to which no link end is made yet.
    pub fn stranger(alloc: Global, own: Addr, peer: u8, boot: u32) -> Neighbour
        requires { (1 ≤ peer) × (peer ≤ 32) }
        ensures { result ≡ stranger own.word peer boot }
    {
        Neighbour {
            pair: Pair::new(alloc, own, Addr::node(peer), boot),
            casts: Reassembly::new(alloc),
        }
    }

    /// Makes the link end on a bearer, 0 or 1, that has none and is mended: it says RESET.
    pub fn make(&mut self, alloc: Global, bearer: u8, out: &mut Outbox)
        requires bearer { bearer ≤ 1 }
        requires none { (facing bearer self.old.pair).near ≡ None }
        ensures after { self.new ≡ with_pair self.old (making bearer self.old).pair }
        ensures frames { AddsFirst out.old out.new (making bearer self.old).states }
    {
        self.pair.sound();
        self.pair.make_end(bearer);
        self.pair.mend(alloc, bearer, out);
    }

    /// Takes part in what happens to all neighbours alike; a STATE shows this of the broadcast link.
    pub fn take_part(
        &mut self,
        alloc: Global,
        upkeep: Upkeep,
        shown: BroadcastState,
        out: &mut Outbox,
    ) -> Result<TransitionList, NoMemory>
        requires { IsOnBearer upkeep }
        ensures after { OnOk result (self.new ≡ (done upkeep shown self.old).after) }
        ensures changes { IfOk result (λ changes. changes ≡ (done upkeep shown self.old).changes) }
        ensures frames { OnOk result (Gains out.old out.new (made_in (course_of upkeep shown self.old))) }
        // The contact begins or ends once at most.
        ensures contact { IfOk result (λ changes.
            IsContactChange (in_contact self.old.pair) (filter is_of_contact changes)) }
    {
        let changes = self.move_pair(alloc, upkeep, shown, out)?;
        self.begin_anew(alloc, changes.as_slice());
        Ok(changes)
    }

    /// Its pair takes part in what happens to all neighbours alike; a STATE shows this of the broadcast link.
    fn move_pair(
        &mut self,
        alloc: Global,
        upkeep: Upkeep,
        shown: BroadcastState,
        out: &mut Outbox,
    ) -> Result<TransitionList, NoMemory>
        requires { IsOnBearer upkeep }
        ensures after { OnOk result (self.new ≡ with_pair self.old (course_of upkeep shown self.old).pair) }
        ensures changes { IfOk result (λ changes. changes ≡ (course_of upkeep shown self.old).changes) }
        ensures frames { OnOk result (Gains out.old out.new (made_in (course_of upkeep shown self.old))) }
        // The contact begins or ends once at most.
        ensures contact { IfOk result (λ changes.
            IsContactChange (in_contact self.old.pair) (filter is_of_contact changes)) }
    {
        self.pair.sound();
        match upkeep {
            Upkeep::Mend(bearer) => {
                self.pair.mend(alloc, bearer, out);
                Ok(TransitionList::new(alloc))
            }
            Upkeep::Cut(bearer) => self.pair.cut(alloc, bearer, out),
            Upkeep::Tick => self.pair.tick(alloc, shown, out),
        }
    }

    /// Nothing is begun of its broadcast any more where a contact with it began or ended by these changes.
    pub fn begin_anew(&mut self, alloc: Global, changes: &[Transition])
        ensures { self.new ≡ with_casts self.old (casts_after self.old.casts changes.now) }
    {
        if changes_contact(changes) {
            self.casts = Reassembly::new(alloc);
        }
    }

    /// Whether there is contact with it.
    pub fn is_met(&self) -> bool
        ensures { result ≡ in_contact self.now.pair }
    {
        self.pair.contact().is_some()
    }

    /// The numbers of packets unacknowledged and waiting on the active link: None exactly where there is no contact.
    pub fn load(&self) -> Option<(u32, u32)>
        ensures { result ≡ load_with (Some self.now) }
    {
        let bearer = self.pair.active()?;
        Some(self.pair.load(bearer))
    }

    /// The numbers of packets unacknowledged and waiting on the link of a bearer, 0 or 1: zeros where it isn't up.
    fn load_on(&self, bearer: u8) -> (u32, u32)
        requires { bearer ≤ 1 }
        ensures { result ≡ load_on bearer (Some self.now) }
    {
        self.pair.load(bearer)
    }

    /// The node's own contact number and the highest that the peer has shown.
    pub fn contact_numbers(&self) -> (u64, u64)
        ensures { result ≡ shown_contact self.now.pair }
    {
        (self.pair.own_contact(), self.pair.peer_contact())
    }

    /// The entry of a message that is accepted for the peer of this number.
    pub fn accepted(&self, peer: u8, message: Message) -> Entry
        requires { (1 ≤ peer) × (peer ≤ 32) }
        ensures { result ≡ accepted_entry Zero peer self.now.pair message }
    {
        Entry::Accepted {
            peer: Addr::node(peer),
            contact: self.contact_numbers(),
            flow: Flow::Zero,
            message,
        }
    }

    /// Puts the packets of a message on the active link, where there is a contact. The caller has asked whether as
    /// many packets wait as may before such a message. Behind 4,294,967,295 that wait there is no place for another:
    /// that counts as want of memory.
    pub fn send(&mut self, alloc: Global, pieces: Pieces, out: &mut Outbox) -> Result<(), NoMemory>
        requires contact { in_contact self.old.pair ≡ true }
        requires pieces { All IsListed pieces }
        ensures ok { OnOk result ((frames : List Outgoing) × PutsThere self.old pieces self.new frames ×
            Adds out.old out.new frames) }
        ensures most { (s : SessionEnd) → active_session self.old.pair ≡ Some s →
            2 ^ 32 - 1 ≤ length s.sending.waiting → IsErr result }
        ensures err { OnErr result ((self.new ≡ self.old) × (out.new ≡ out.old)) }
    {
        match self.pair.send(alloc, pieces, u32::MAX, out) {
            Ok(()) => Ok(()),
            Err(OfferFault::NoMemory) => Err(NoMemory),
            Err(OfferFault::Congested { .. }) => Err(NoMemory),
        }
    }
}

/// What the journal keeps of a call that all neighbours take part in.
pub fn upkeep_note(upkeep: Upkeep) -> EventNote
    ensures { result ≡ upkeep_note upkeep }
{
    match upkeep {
        Upkeep::Mend(bearer) => EventNote::Mend { bearer },
        Upkeep::Cut(bearer) => EventNote::Cut { bearer },
        Upkeep::Tick => EventNote::Tick,
    }
}

/// The bearers after a call that all neighbours take part in.
pub fn mended_by(upkeep: Upkeep, mended: Bearers) -> Bearers
    requires { IsOnBearer upkeep }
    ensures { result ≡ mended_by upkeep mended }
{
    match upkeep {
        Upkeep::Mend(bearer) => with_mended_on(mended, bearer, true),
        Upkeep::Cut(bearer) => with_mended_on(mended, bearer, false),
        Upkeep::Tick => mended,
    }
}

/// What happened at neighbours so far, and the frames that leave.
#[derive(Drop)]
pub struct Parting {
    /// What is told.
    pub inside: Vec<Entry>,
    /// The frames that leave.
    pub out: Outbox,
    /// The broadcast link, a copy, where a contact ended.
    pub broadcast: Option<Broadcast>,
    /// The frames of broadcast packets, which leave behind all others.
    pub casts: Outbox,
}

impl Parting {
    /// Nothing happened.
    pub fn new(alloc: Global) -> Parting
        ensures inside { result.inside.items ≡ [] }
        ensures out { result.out ≡ no_frames }
        ensures broadcast { result.broadcast ≡ None }
        ensures casts { result.casts ≡ no_frames }
    {
        Parting {
            inside: Vec::new(alloc),
            out: Outbox::new(alloc),
            broadcast: None,
            casts: Outbox::new(alloc),
        }
    }

    /// What a STATE to a peer shows of the broadcast link, which was as it is before anything happened.
    fn shown(&self, broadcast: &Broadcast, number: u8) -> BroadcastState
        requires { (1 ≤ number) × (number ≤ 32) }
        ensures { result ≡ shown (unwrap_or self.now.broadcast broadcast.now) (node_word number) }
    {
        match &self.broadcast {
            Some(broadcast) => broadcast.shown(Addr::node(number)),
            None => broadcast.shown(Addr::node(number)),
        }
    }
}

/// A copy of the broadcast link, which was as it is before a bearer was mended or cut.
fn copy_for(broadcast: &Broadcast, alloc: Global, upkeep: Upkeep) -> Result<Broadcast, NoMemory>
    requires { IsOnBearer upkeep }
    ensures { IfOk result (λ copy. copy ≡ after_deeds (bearer_deeds upkeep) broadcast.now) }
{
    let mut copy = broadcast.copy(alloc)?;
    bear(&mut copy, upkeep);
    Ok(copy)
}

/// The broadcast link within an event: the copy, where there is one; else one of it as it was before a bearer was
/// mended or cut.
fn link_in(
    taken: Option<Broadcast>,
    broadcast: &Broadcast,
    alloc: Global,
    upkeep: Upkeep,
) -> Result<Broadcast, NoMemory>
    requires { IsOnBearer upkeep }
    ensures { IfOk result (λ link. link ≡ casting_in upkeep broadcast.now taken) }
{
    match taken {
        Some(taken) => Ok(taken),
        None => copy_for(broadcast, alloc, upkeep),
    }
}

/// The contact with the neighbour of that number began or ended, which is told of it by these changes: it joins the
/// broadcast link, or leaves it. That is copied before it is changed for the first time.
fn change_link(
    event: &mut Parting,
    alloc: Global,
    upkeep: Upkeep,
    broadcast: &Broadcast,
    number: u8,
    changes: &[Transition],
) -> Result<(), NoMemory>
    requires upkeep { IsOnBearer upkeep }
    requires number { (1 ≤ number) × (number ≤ 32) }
    requires changes { IsContactChange (has_joined (node_word number) (casting_in upkeep broadcast.now
        event.old.broadcast).contacts) (filter is_of_contact changes.now) }
    ensures casting { OnOk result (casting_in upkeep broadcast.now event.new.broadcast ≡
        after_deeds (contact_deeds number changes.now) (casting_in upkeep broadcast.now event.old.broadcast)) }
    ensures casts { OnOk result (Adds event.old.casts event.new.casts (deeds_frames (contact_deeds number changes.now)
        (casting_in upkeep broadcast.now event.old.broadcast))) }
    ensures inside { event.new.inside ≡ event.old.inside }
    ensures out { event.new.out ≡ event.old.out }
{
    let taken = event.broadcast.take();
    let mut after = link_in(taken, broadcast, alloc, upkeep)?;
    follow_contact(&mut after, alloc, number, changes, &mut event.casts)?;
    event.broadcast = Some(after);
    Ok(())
}

/// These changes are told of the neighbour of that number: where the contact with it ended it leaves the broadcast
/// link.
fn follow(
    event: &mut Parting,
    alloc: Global,
    upkeep: Upkeep,
    broadcast: &Broadcast,
    number: u8,
    changes: &[Transition],
) -> Result<(), NoMemory>
    requires upkeep { IsOnBearer upkeep }
    requires number { (1 ≤ number) × (number ≤ 32) }
    requires changes { IsContactChange (has_joined (node_word number) (casting_in upkeep broadcast.now
        event.old.broadcast).contacts) (filter is_of_contact changes.now) }
    ensures casting { OnOk result (casting_in upkeep broadcast.now event.new.broadcast ≡
        after_deeds (contact_deeds number changes.now) (casting_in upkeep broadcast.now event.old.broadcast)) }
    ensures casts { OnOk result (Adds event.old.casts event.new.casts (deeds_frames (contact_deeds number changes.now)
        (casting_in upkeep broadcast.now event.old.broadcast))) }
    ensures inside { event.new.inside ≡ event.old.inside }
    ensures out { event.new.out ≡ event.old.out }
{
    if changes_contact(changes) {
        change_link(event, alloc, upkeep, broadcast, number, changes)
    } else {
        Ok(())
    }
}

/// The neighbour of that number as it is when this happened to it; what became of the links to it is told, and of the
/// contact to the broadcast link too.
fn part_of_one(
    neighbour: &Neighbour,
    alloc: Global,
    upkeep: Upkeep,
    broadcast: &Broadcast,
    number: u8,
    event: &mut Parting,
) -> Result<Neighbour, NoMemory>
    requires upkeep { IsOnBearer upkeep }
    requires number { (1 ≤ number) × (number ≤ 32) }
    requires joined { has_joined (node_word number) (casting_in upkeep broadcast.now event.old.broadcast).contacts ≡
        in_contact neighbour.now.pair }
    ensures part { IfOk result (λ after. TookPart upkeep number broadcast.now (Some neighbour.now) (Some after)
        event.old event.new) }
{
    let mut after = neighbour.copy()?;
    let shown = event.shown(broadcast, number);
    let changes = after.take_part(alloc, upkeep, shown, &mut event.out)?;
    follow(event, alloc, upkeep, broadcast, number, changes.as_slice())?;
    event.inside.reserve(changes.len())?;
    note_changes(&mut event.inside, number, changes.as_slice());
    Ok(after)
}

/// The same of the neighbour of that number, where there is one.
#[tactic(auto, using(crate::proofs::turns::Parts::none_took, crate::proofs::turns::Parts::some_took))]
fn part_of(
    place: &Option<Neighbour>,
    alloc: Global,
    upkeep: Upkeep,
    broadcast: &Broadcast,
    number: u8,
    event: &mut Parting,
) -> Result<Option<Neighbour>, NoMemory>
    requires upkeep { IsOnBearer upkeep }
    requires number { (1 ≤ number) × (number ≤ 32) }
    requires joined { has_joined (node_word number) (casting_in upkeep broadcast.now event.old.broadcast).contacts ≡
        is_met place.now }
    ensures part { IfOk result (λ after. TookPart upkeep number broadcast.now place.now after event.old event.new) }
{
    match place {
        Some(neighbour) => {
            let after = part_of_one(neighbour, alloc, upkeep, broadcast, number, event)?;
            Ok(Some(after))
        }
        None => Ok(None),
    }
}

/// The neighbours as they are when something happened to each, in order of their numbers: to each with all its
/// consequences before the next one. What became of the links is told, and of the contacts to the broadcast link too.
/// Those that were aren't changed.
pub fn part_of_all(
    neighbours: &[Option<Neighbour>],
    alloc: Global,
    upkeep: Upkeep,
    broadcast: &Broadcast,
    event: &mut Parting,
) -> Result<Vec<Option<Neighbour>>, NoMemory>
    requires upkeep { IsOnBearer upkeep }
    requires wide { length neighbours.now ≡ 33 }
    requires nobody { slice_index_or neighbours.now 0 None ≡ None }
    requires joined { AreAllJoined neighbours.now broadcast.now }
    requires empty { event.old.inside.items ≡ [] }
    requires same { event.old.broadcast ≡ None }
    ensures parts { IfOk result (λ after. TookParts upkeep broadcast.now neighbours.now after.items event.old
        event.new) }
{
    let mut after = Vec::new(alloc);
    after.push(None)?;
    for number in 1..NUMBERS {
        let place = &neighbours[number];
        after.push(part_of(place, alloc, upkeep, broadcast, number as u8, event)?)?;
    }
    Ok(after)
}

/// The numbers of packets unacknowledged and waiting on the active link to a neighbour: none where there is no contact.
pub fn load_at(place: &Option<Neighbour>) -> (u32, u32)
    ensures unacked { result.0 ≡ unacked_in (load_with place.now) }
    ensures waiting { result.1 ≡ waiting_in (load_with place.now) }
{
    let Some(neighbour) = place else {
        return (0, 0);
    };
    neighbour.load().unwrap_or((0, 0))
}

/// The numbers of packets unacknowledged and waiting on the link of a bearer, 0 or 1, to a neighbour: zeros where it
/// isn't up.
fn load_there(place: &Option<Neighbour>, bearer: u8) -> (u32, u32)
    requires { bearer ≤ 1 }
    ensures { result ≡ load_on bearer place.now }
{
    let Some(neighbour) = place else {
        return (0, 0);
    };
    neighbour.load_on(bearer)
}

/// The numbers of packets unacknowledged and waiting on all links together, of those that are up.
#[tactic(auto, unfolding(crate::specs::Nodes::load_all))]
pub fn load_all(neighbours: &[Option<Neighbour>]) -> (u64, u64)
    requires { length neighbours.now ≤ 33 }
    ensures value { result ≡ load_all neighbours.now }
    ensures fits { (result.0 ≤ 2 ^ 39) × (result.1 ≤ 2 ^ 39) }
{
    let mut unacked = 0;
    let mut waiting = 0;
    for place in neighbours {
        let first = load_there(place, 0);
        let second = load_there(place, 1);
        unacked += first.0 as u64 + second.0 as u64;
        waiting += first.1 as u64 + second.1 as u64;
    }
    (unacked, waiting)
}
