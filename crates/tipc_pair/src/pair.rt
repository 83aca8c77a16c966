//! A node's side of its pair with a peer.

ghost use Rattle.std.specs.Prelude.{◌≡◌, ℕ, ◌≤◌, ◌<◌, [], true, false, Some, None, Err, All, List, length, IfOk, OnErr, OnOk};
ghost use Rattle.tipc_header.specs.Grammar.{Fits};
ghost use Rattle.tipc_header.specs.Spelling.{view};
ghost use Rattle.tipc_outside.specs.Frames.{Adds, Gains};
ghost use Rattle.tipc_outside.specs.declared.outgoing.Outgoing.{Outgoing};
ghost use Rattle.tipc_contact.specs.declared.contact.Standing.TheVariants as standing;
ghost use Rattle.tipc_link.specs.Sessions.{SessionEnd};
ghost use Rattle.tipc_pair.specs.Courses.{Course, made_in, sent_in};

use crate::changes::{Incoming, PairArrival, PairOutcome};
use crate::leaving::Leaving;
use crate::link_ends::{LinkEnds, last_count_of, load_of, numbered_of, state_of};
use crate::preparing::Way;
use crate::transitions::{Transition, TransitionList};
use std::alloc::Global;
use std::marker::Model;
use tipc_header::Packet;
use tipc_outside::Outbox;
use tipc_send_window::OfferFault;
use tipc_types::{Addr, BroadcastState, LinkState, NoMemory, Pieces};

/// What a packet will make of a pair: [`Pair::prepare`] tells it, and [`Pair::commit`] does it.
#[derive(Drop)]
pub struct PairArriving {
    bearer: u8,
    way: Way,
    outcome: PairOutcome,
}

impl Model for PairArriving {
    ghost use Rattle.tipc_pair.specs.Preparing.{Prepared};

    ghost Value = { Prepared };

    ghost view = { λ a. record { bearer = a.bearer; way = a.way; outcome = a.outcome } };
}

impl PairArriving {
    ghost use Rattle.tipc_pair.specs.Preparing.{changes_of};

    /// What will be given.
    pub fn outcome(&self) -> &PairOutcome
        ensures { result.now ≡ self.now.outcome }
    {
        &self.outcome
    }

    /// What will be told of links and contact, in order.
    pub fn changes(&self) -> &[Transition]
        ensures { result.now ≡ changes_of self.now.way }
    {
        self.way.changes()
    }
}

/// What a node keeps of a peer: a link end on each of the two bearers, as far as they are made, the contact numbers of
/// the two nodes, and the message that is begun of the fragments that were taken on either link.
///
/// The node is in contact with the peer exactly while a link is up. Messages go over the active link, which is the up
/// link of the higher priority: bearer 0's, where that is up. When a link goes down while the other one is up, that one
/// gets what it leaves, and the end is held until all of that is acknowledged. When bearer 0's link goes up while
/// bearer 1's is up, it takes the traffic over. (This project's profile.)
#[derive(Drop)]
pub struct Pair {
    /// Seen from bearer 0's link.
    ends: LinkEnds,
}

impl Model for Pair {
    ghost use Rattle.std.specs.Prelude.{◌≡◌};
    ghost use Rattle.tipc_pair.specs.Facing.{PairEnds};
    ghost use Rattle.tipc_pair.specs.PairFacts.{AreHeldRightly};

    ghost Value = { PairEnds };

    ghost view = { λ p. p.ends };

    ghost invariant = { λ p. (p.ends.bearer ≡ 0) × AreHeldRightly p.ends };
}

impl Pair {
    ghost use Rattle.tipc_pair.specs.Facing.{active, alone, contact_between, facing, in_contact, state_of, with_made};
    ghost use Rattle.tipc_pair.specs.PairArrivals.{Arrives};
    ghost use Rattle.tipc_pair.specs.Courses.{IsToldOf};
    ghost use Rattle.tipc_pair.specs.PairCalls.{active_session, answered_near, at_bearer, cut_near, last_count_of, load_of, mended, numbered_of, ticked, SendsWithin};
    ghost use Rattle.tipc_pair.specs.PairFacts.{AreHeldRightly, IsPairOfEnds};
    ghost use Rattle.tipc_pair.specs.PairOpenings.{standing_with};
    ghost use Rattle.tipc_pair.specs.Preparing.{changes_of, Prepares};
    ghost use Rattle.tipc_pair.specs.Runs.{IsListed};

    /// The pair of a node that has just begun this boot: no end is made.
    pub fn new(alloc: Global, own: Addr, peer: Addr, boot: u32) -> Pair
        ensures { result ≡ alone own.word peer.word boot }
    {
        Pair {
            ends: LinkEnds::new(alloc, own, peer, boot),
        }
    }

    /// A pair that is as this one.
    pub fn copy(&self) -> Result<Pair, NoMemory>
        ensures { IfOk result (λ pair. pair ≡ self.now) }
    {
        Ok(Pair {
            ends: self.ends.copy()?,
        })
    }

    /// Makes the link end on a bearer, 0 or 1, that has none. It counts as cut: [`Pair::mend`] tells that it is mended.
    pub fn make_end(&mut self, bearer: u8)
        requires bearer { bearer ≤ 1 }
        requires none { (facing bearer self.old).near ≡ None }
        ensures { self.new ≡ facing 0 (with_made (facing bearer self.old)) }
    {
        self.ends.face(bearer);
        self.ends.make();
        self.ends.face(0);
    }

    /// A bearer, 0 or 1, is mended: as [`tipc_link::Link::mend`]. Nothing is done where it has no link end.
    pub fn mend(&mut self, alloc: Global, bearer: u8, out: &mut Outbox)
        requires { bearer ≤ 1 }
        ensures after { self.new ≡ (at_bearer bearer self.old mended).pair }
        ensures frames { Gains out.old out.new (made_in (at_bearer bearer self.old mended)) }
    {
        self.ends.face(bearer);
        self.ends.mend(alloc, out);
        self.ends.face(0);
    }

    /// A bearer, 0 or 1, is cut: its link goes down, where it is up. The other link gets what it leaves, or the contact
    /// ends. Nothing is sent on the bearer.
    ///
    /// # Errors
    ///
    /// Where memory runs out. Nothing is changed then.
    pub fn cut(
        &mut self,
        alloc: Global,
        bearer: u8,
        out: &mut Outbox,
    ) -> Result<TransitionList, NoMemory>
        requires { bearer ≤ 1 }
        ensures after { OnOk result (self.new ≡ (at_bearer bearer self.old cut_near).pair) }
        ensures changes { IfOk result (λ changes. changes ≡ (at_bearer bearer self.old cut_near).changes) }
        ensures frames { OnOk result (Gains out.old out.new (made_in (at_bearer bearer self.old cut_near))) }
        // The contact ends only where no link is up.
        ensures goes_on { in_contact self.old ≡ true → OnOk result (in_contact self.new ≡ true →
            self.new.contact ≡ self.old.contact) }
        ensures err { OnErr result ((self.new ≡ self.old) × (out.new ≡ out.old)) }
    {
        let event = self.cut_ends(alloc, bearer)?;
        Ok(event.leave(out))
    }

    /// A bearer is cut, and this leaves with it.
    fn cut_ends(&mut self, alloc: Global, bearer: u8) -> Result<Leaving, NoMemory>
        requires { bearer ≤ 1 }
        ensures after { OnOk result (self.new ≡ (at_bearer bearer self.old cut_near).pair) }
        ensures told { IfOk result (λ event. IsToldOf (at_bearer bearer self.old cut_near) event) }
        ensures goes_on { in_contact self.old ≡ true → OnOk result (in_contact self.new ≡ true →
            self.new.contact ≡ self.old.contact) }
        ensures err { OnErr result (self.new ≡ self.old) }
    {
        let mut event = Leaving::new(alloc);
        let mut next = self.ends.copy()?;
        next.face(bearer);
        next.cut(alloc, &mut event)?;
        next.face(0);
        self.ends = next;
        Ok(event)
    }

    /// A tick of both links, bearer 0's with all that follows and then bearer 1's: as [`tipc_link::Link::tick`].
    /// `shown` fills the broadcast fields of STATE.
    ///
    /// # Errors
    ///
    /// Where memory runs out. Nothing is changed then.
    pub fn tick(
        &mut self,
        alloc: Global,
        shown: BroadcastState,
        out: &mut Outbox,
    ) -> Result<TransitionList, NoMemory>
        ensures after { OnOk result (self.new ≡ (ticked shown self.old).pair) }
        ensures changes { IfOk result (λ changes. changes ≡ (ticked shown self.old).changes) }
        ensures frames { OnOk result (Gains out.old out.new (made_in (ticked shown self.old))) }
        // The contact ends only where no link is up.
        ensures goes_on { in_contact self.old ≡ true → OnOk result (in_contact self.new ≡ true →
            self.new.contact ≡ self.old.contact) }
        ensures err { OnErr result ((self.new ≡ self.old) × (out.new ≡ out.old)) }
    {
        let event = self.tick_ends(alloc, shown)?;
        Ok(event.leave(out))
    }

    /// A tick of both links, and this leaves with it.
    fn tick_ends(&mut self, alloc: Global, shown: BroadcastState) -> Result<Leaving, NoMemory>
        ensures after { OnOk result (self.new ≡ (ticked shown self.old).pair) }
        ensures told { IfOk result (λ event. IsToldOf (ticked shown self.old) event) }
        ensures goes_on { in_contact self.old ≡ true → OnOk result (in_contact self.new ≡ true →
            self.new.contact ≡ self.old.contact) }
        ensures err { OnErr result (self.new ≡ self.old) }
    {
        let mut event = Leaving::new(alloc);
        let mut next = self.ends.copy()?;
        next.tick(alloc, shown, &mut event)?;
        self.ends = next;
        Ok(event)
    }

    /// Puts packets on the active link, and sends those that the window of 50 has room for: as
    /// [`tipc_link::Link::send`]. It needs a contact. Each packet is payload, name items or a fragment, of at most
    /// 1,452 bytes.
    ///
    /// # Errors
    ///
    /// Congested exactly where at least `limit` packets wait on the active link; else NoMemory. Either changes nothing.
    pub fn send(
        &mut self,
        alloc: Global,
        pieces: Pieces,
        limit: u32,
        out: &mut Outbox,
    ) -> Result<(), OfferFault>
        requires contact { in_contact self.old ≡ true }
        requires pieces { All IsListed pieces }
        ensures ok { OnOk result ((frames : List Outgoing) × SendsWithin self.old pieces limit self.new frames ×
            Adds out.old out.new frames) }
        ensures congested { (s : SessionEnd) → active_session self.old ≡ Some s → limit ≤ length s.sending.waiting →
            result ≡ Err (OfferFault.Congested (length s.sending.unacked) (length s.sending.waiting)) }
        ensures congested_only { (s : SessionEnd) (in_flight waiting : ℕ) → active_session self.old ≡ Some s →
            result ≡ Err (OfferFault.Congested in_flight waiting) → limit ≤ length s.sending.waiting }
        ensures err { OnErr result ((self.new ≡ self.old) × (out.new ≡ out.old)) }
    {
        if self.ends.near_is_up() {
            return self.ends.send(alloc, pieces, limit, out);
        }
        self.ends.turn();
        let answer = self.ends.send(alloc, pieces, limit, out);
        self.ends.turn();
        answer
    }

    /// Takes a packet that arrived on a bearer, 0 or 1, that has a link end.
    ///
    /// A tunnel packet is opened as it is taken: an original of the other link's present session takes that link down,
    /// and then the packet inside is given to the record of the other link.
    ///
    /// # Errors
    ///
    /// Where memory runs out. Nothing is changed then. A RESET or an ACTIVATE that shows a contact number below the
    /// highest seen is passed over, and takes none.
    pub fn arrive(
        &mut self,
        alloc: Global,
        bearer: u8,
        incoming: &Incoming<'_>,
        out: &mut Outbox,
    ) -> Result<PairArrival, NoMemory>
        requires bearer { bearer ≤ 1 }
        requires fits { Fits (view incoming.now.packet) }
        ensures ok { IfOk result (λ a. (c : Course) ×
            Arrives (facing bearer self.old) incoming.now.sender_epoch incoming.now.receiver_epoch
            (view incoming.now.packet) incoming.now.by incoming.now.shown c a.outcome ×
            (self.new ≡ facing 0 c.pair) × (a.changes ≡ c.changes) × Gains out.old out.new (made_in c)) }
        // The contact ends only where no link is up, or the peer showed a higher contact number.
        ensures goes_on { in_contact self.old ≡ true → OnOk result (in_contact self.new ≡ true →
            self.new.seen ≡ self.old.seen →
            self.new.contact ≡ self.old.contact) }
        ensures passing { OnErr result (standing_with self.old incoming.now.packet.header ≡ standing.Lower → ⊥) }
        ensures err { OnErr result ((self.new ≡ self.old) × (out.new ≡ out.old)) }
    {
        let (way, outcome) = self.ends.prepare(alloc, bearer, incoming)?;
        let event = self
            .ends
            .commit(alloc, bearer, way, &incoming.packet, incoming.shown);
        let changes = event.leave(out);
        Ok(PairArrival { changes, outcome })
    }

    /// What a packet that arrives on a bearer, 0 or 1, will make of the pair: as [`Pair::arrive`], but nothing is
    /// changed yet, which [`Pair::commit`] does.
    ///
    /// # Errors
    ///
    /// Where memory runs out. A RESET or an ACTIVATE that shows a contact number below the highest seen is passed over,
    /// and takes none.
    pub fn prepare(
        &self,
        alloc: Global,
        bearer: u8,
        incoming: &Incoming<'_>,
    ) -> Result<PairArriving, NoMemory>
        requires bearer { bearer ≤ 1 }
        requires fits { Fits (view incoming.now.packet) }
        ensures bearer { IfOk result (λ a. a.bearer ≡ bearer) }
        ensures prepares { IfOk result (λ a. Prepares self.now incoming.now.sender_epoch incoming.now.receiver_epoch
            (view incoming.now.packet) incoming.now.by incoming.now.shown a) }
        ensures passing { OnErr result (standing_with self.now incoming.now.packet.header ≡ standing.Lower → ⊥) }
    {
        let (way, outcome) = self.ends.prepare(alloc, bearer, incoming)?;
        Ok(PairArriving {
            bearer,
            way,
            outcome,
        })
    }

    /// Takes a packet, as [`Pair::prepare`] told of it when the pair was as it is.
    pub fn commit(
        &mut self,
        alloc: Global,
        arriving: PairArriving,
        packet: &Packet<'_>,
        shown: BroadcastState,
        out: &mut Outbox,
    ) -> PairArrival
        requires { (es : ℕ) × (er : ℕ) × (by : ℕ) × Prepares self.old es er (view packet.now) by shown arriving }
        ensures arrives { (es er by : ℕ) → Prepares self.old es er (view packet.now) by shown arriving → (c : Course) ×
            Arrives (facing arriving.bearer self.old) es er (view packet.now) by shown c result.outcome ×
            (self.new ≡ facing 0 c.pair) × (result.changes ≡ c.changes) × Gains out.old out.new (made_in c) }
        ensures outcome { result.outcome ≡ arriving.outcome }
        ensures changes { result.changes ≡ changes_of arriving.way }
        // The contact ends only where no link is up, or the peer showed a higher contact number.
        ensures goes_on { in_contact self.old ≡ true → in_contact self.new ≡ true → self.new.seen ≡ self.old.seen →
            self.new.contact ≡ self.old.contact }
    {
        let PairArriving {
            bearer,
            way,
            outcome,
        } = arriving;
        let event = self.ends.commit(alloc, bearer, way, packet, shown);
        let changes = event.leave(out);
        PairArrival { changes, outcome }
    }

    /// Sends the STATE that is due after an arrival on a bearer, 0 or 1: as [`tipc_link::Link::answer`]. The arrival
    /// took so many broadcast packets, and `due` says that it asks for a STATE by the broadcast. Nothing is sent where
    /// the bearer's link isn't up.
    pub fn answer(
        &mut self,
        alloc: Global,
        bearer: u8,
        broadcast: u32,
        due: bool,
        shown: BroadcastState,
        out: &mut Outbox,
    )
        requires { bearer ≤ 1 }
        ensures after { self.new ≡ (at_bearer bearer self.old (answered_near broadcast due shown)).pair }
        ensures frames { Adds out.old out.new (sent_in (at_bearer bearer self.old
            (answered_near broadcast due shown))) }
    {
        self.ends.face(bearer);
        self.ends.answer(alloc, broadcast, due, shown, out);
        self.ends.face(0);
    }

    /// It is seen from bearer 0's link, and what is true of every pair is true of it: an end is held only where the
    /// other link is up and has a tunnel packet. It does nothing.
    pub fn sound(&self)
        ensures first { self.now.bearer ≡ 0 }
        ensures pair { IsPairOfEnds self.now }
        ensures held { AreHeldRightly self.now }
    {
        self.ends.sound();
    }

    /// The contact: the node's own contact number, and the peer's. None exactly where the node isn't in contact with
    /// the peer.
    pub fn contact(&self) -> Option<(u64, u64)>
        ensures { result ≡ contact_between self.now }
    {
        if self.ends.in_contact() {
            Some(self.ends.contact_numbers())
        } else {
            None
        }
    }

    /// The bearer of the active link. None exactly where the node isn't in contact with the peer.
    pub fn active(&self) -> Option<u8>
        ensures { result ≡ active self.now }
    {
        self.ends.active()
    }

    /// The state of the link end on a bearer, 0 or 1. None exactly where there is none.
    pub fn state(&self, bearer: u8) -> Option<LinkState>
        requires { bearer ≤ 1 }
        ensures { result ≡ state_of (facing bearer self.now).near }
    {
        state_of(self.ends.end_on(bearer))
    }

    /// The numbers of unacknowledged and of waiting packets of the link on a bearer, 0 or 1: zeros where it isn't up.
    pub fn load(&self, bearer: u8) -> (u32, u32)
        requires { bearer ≤ 1 }
        ensures { result ≡ load_of (facing bearer self.now).near }
    {
        load_of(self.ends.end_on(bearer))
    }

    /// How many packets each direction numbered in the present session of a bearer, 0 or 1, or the last one: the own
    /// ones exactly, and the peer's as taken. None exactly where there is no link end, or it had no session.
    pub fn numbered(&self, bearer: u8) -> Option<(u64, u64)>
        requires { bearer ≤ 1 }
        ensures { result ≡ numbered_of (facing bearer self.now).near }
    {
        numbered_of(self.ends.end_on(bearer))
    }

    /// The own epoch of the present session of a bearer, 0 or 1, or of the last one, and how many packets were numbered
    /// in it. None exactly where there is no link end, or it had no session.
    pub fn last_count(&self, bearer: u8) -> Option<(u64, u64)>
        requires { bearer ≤ 1 }
        ensures { result ≡ last_count_of (facing bearer self.now).near }
    {
        last_count_of(self.ends.end_on(bearer))
    }

    /// The node's own contact number for the peer: of the present contact, or the next one.
    pub fn own_contact(&self) -> u64
        ensures { result ≡ self.now.contact }
    {
        self.ends.contact_numbers().0
    }

    /// The highest contact number that the peer has shown, 0 where it has shown none.
    pub fn peer_contact(&self) -> u64
        ensures { result ≡ self.now.seen }
    {
        self.ends.contact_numbers().1
    }
}
