//! A node's broadcast link: what it sends to all its peers at once, and what it takes from each of them.

ghost use Rattle.std.specs.Prelude.{[], ◌≡◌, ℕ, ◌+◌, ◌^◌, ◌<◌, ◌≤◌, true, false, Err, Some, None, List, All, length, slice_get, IfNone, IfOk, IfSome, OnErr, OnOk};
ghost use Rattle.tipc_types.specs.Address.{IsNodeWord};
ghost use Rattle.tipc_types.specs.Position.{number_of};
ghost use Rattle.tipc_types.specs.declared.packet_lists.Taken.{Taken};
ghost use Rattle.tipc_header.specs.Grammar.{Fits};
ghost use Rattle.tipc_header.specs.Spelling.{Fields, view};
ghost use Rattle.tipc_outside.specs.Frames.{Adds};
ghost use Rattle.tipc_send_window.specs.Sending.{IsSending, kept_of, passed_over};
ghost use Rattle.tipc_broadcast.specs.Casting.{is_behind};

use crate::arriving::CastArriving;
use crate::contacts::{Contact, acked_by_all, copies, member_set, place_of, unseen};
use crate::frames::{accepted_frames, numbered_frame};
use std::alloc::{AllocError, Global};
use std::marker::Model;
use tipc_header::Packet;
use tipc_outside::{Class, Outbox};
use tipc_recv_window::{LinkOutcome, WindowArrival};
use tipc_send_window::{OfferFault, SendWindow, WINDOW};
use tipc_types::{
    Addr, BroadcastState, Kept, NoMemory, Pieces, To, Why, number_distance, sequence_number,
};

/// How often packets are released and move up when a peer leaves: at most 246 wait, of which 50 move up at once, and
/// those that moved up last are released.
const ROUNDS_OF_DEPARTURE: u32 = 6;

/// The broadcast link of a node in one boot: one stream of packets to all peers in contact, and what the node takes
/// of the streams of these peers.
///
/// Packets are numbered from 1 in each boot, with a window of 50. A packet is for the peers that are in contact when
/// its message is accepted, and is released when each of them that is still in that contact acknowledged it.
/// (Broadcast link: TIPC 2.0 draft; starts, member sets and in-step: this project's profile.)
#[derive(Drop)]
pub struct Broadcast {
    own: Addr,
    boot: u32,
    mended: [bool; 2],
    /// The packets that were accepted, as frames that lack their numbers.
    window: SendWindow,
    contacts: Vec<Contact>,
}

impl Model for Broadcast {
    ghost use Rattle.tipc_broadcast.specs.Casting.{Casting, IsCasting};

    ghost Value = { Casting };

    ghost view = { λ b. record {
      own = b.own.word;
      boot = b.boot;
      mended = b.mended;
      sending = b.window;
      contacts = b.contacts.items;
    } };

    ghost invariant = { λ b. IsCasting b.own.word b.window b.contacts.items };
}

impl Broadcast {
    ghost use Rattle.tipc_types.specs.Limits.{most_packet_bytes, window_size};
    ghost use Rattle.tipc_broadcast.specs.Frames.{cast, IsShort, numbered_frame, on_bearer};
    ghost use Rattle.tipc_broadcast.specs.Casting.{accepting, accepting_frames, answered, answered_frames, arriving, arriving_outcome, booted, coming_at, coming_of, credited, flush_frames, flushed, hearing, informed, IsCasting, joining, kept_for, left_frames, left_with, leaving, leaving_frames, moved_up_frames, moved_up, next_start, refusal_of, repeat_frames, rounds_of_departure, sent, settled, shown, stating, stating_frames, TakesFew, with_bearer, with_contacts, with_message, with_sending};
    ghost use Rattle.tipc_send_window.specs.Sending.{room};
    ghost use Rattle.tipc_broadcast.specs.Contacts.{contact_with, deferred_of, has_joined, IsFree, shows_more_to, without};

    /// The broadcast link of a node that has just booted: both bearers are cut, and nobody is in contact.
    pub fn new(alloc: Global, own: Addr, boot: u32) -> Broadcast
        requires { IsNodeWord own.word }
        ensures { result ≡ booted own.word boot }
    {
        Broadcast {
            own,
            boot,
            mended: [false; 2],
            window: SendWindow::new(alloc),
            contacts: Vec::new(alloc),
        }
    }

    /// One that is the same.
    pub fn copy(&self, alloc: Global) -> Result<Broadcast, NoMemory>
        ensures { IfOk result (λ b. b ≡ self.now) }
    {
        Ok(Broadcast {
            own: self.own,
            boot: self.boot,
            mended: self.mended,
            window: self.window.copy()?,
            contacts: copies(alloc, self.contacts.as_slice())?,
        })
    }

    /// A bearer, 0 or 1, is mended.
    pub fn mend(&mut self, bearer: u8)
        requires { bearer ≤ 1 }
        ensures { self.new ≡ with_bearer self.old bearer true }
    {
        self.mended[bearer as usize] = true;
    }

    /// A bearer, 0 or 1, is cut: nothing is sent on it.
    pub fn cut(&mut self, bearer: u8)
        requires { bearer ≤ 1 }
        ensures { self.new ≡ with_bearer self.old bearer false }
    {
        self.mended[bearer as usize] = false;
    }

    /// The numbers of unacknowledged and of waiting packets: at most 50 and 246.
    pub fn load(&self) -> (u32, u32)
        ensures unacked { result.0 ≡ length self.now.sending.unacked }
        ensures waiting { result.1 ≡ length self.now.sending.waiting }
        ensures within { result.0 ≤ window_size }
        ensures few { result.1 ≤ 246 }
    {
        (self.window.unacked().len() as u32, self.window.waiting())
    }

    /// How many numbers this boot used, those that it passed over included.
    pub fn numbered(&self) -> u64
        ensures value { result ≡ self.now.sending.numbered }
        ensures window { IsSending self.now.sending }
        ensures casting { IsCasting self.now.own self.now.sending self.now.contacts }
        ensures boot { self.now.boot < 2 ^ 32 }
    {
        let _boot = self.boot;
        self.window.numbered()
    }

    /// What is kept of a peer: None exactly where it isn't in contact.
    fn contact(&self, peer: Addr) -> Option<&Contact>
        ensures some { IfSome result (λ c. contact_with peer.word self.now.contacts ≡ Some c.now) }
        ensures none { IfNone result (contact_with peer.word self.now.contacts ≡ None) }
        ensures free { IfSome result (λ c. IsFree c.now.window) }
    {
        match place_of(self.contacts.as_slice(), peer) {
            Some(place) => Some(&self.contacts[place]),
            None => None,
        }
    }

    /// Whether a peer is in contact.
    pub fn has_joined(&self, peer: Addr) -> bool
        ensures { result ≡ has_joined peer.word self.now.contacts }
    {
        match self.contact(peer) {
            Some(_) => true,
            None => false,
        }
    }

    /// How many broadcast packets of a peer are deferred: 0 where it isn't in contact.
    pub fn deferred(&self, peer: Addr) -> u32
        ensures { result ≡ deferred_of (contact_with peer.word self.now.contacts) }
    {
        match self.contact(peer) {
            Some(contact) => contact.deferred(),
            None => 0,
        }
    }

    /// Whether a broadcast next number that a peer shows is 1 to 50 past the number that is wanted of it: the peer
    /// has sent more than was taken, and a STATE is due. (This project's profile.)
    pub fn shows_more(&self, peer: Addr, next: u16) -> bool
        ensures { result ≡ shows_more_to next (contact_with peer.word self.now.contacts) }
    {
        match self.contact(peer) {
            Some(contact) => contact.shows_more(next),
            None => false,
        }
    }

    /// The position of the next packet that is accepted.
    fn next_start(&self) -> u64
        ensures value { result ≡ next_start self.now }
        ensures counted { 1 ≤ result }
    {
        self.window.numbered() + u64::from(self.window.waiting()) + 1
    }

    /// What a STATE to a peer shows: the last number that was taken of the peer's broadcast and how many are missing,
    /// both 0 where this node isn't in step with it, the own next number, and the peer's start. For a peer that
    /// isn't in contact the start is the one that `peer_joins` would now answer. (This project's profile.)
    pub fn shown(&self, peer: Addr) -> BroadcastState
        ensures { result ≡ shown self.now peer.word }
    {
        let next = sequence_number(self.window.numbered() + 1);
        match self.contact(peer) {
            Some(contact) => contact.shown(next),
            None => unseen(next, sequence_number(self.next_start())),
        }
    }

    /// A peer with this boot number comes into contact. It is to take every packet that is accepted from now on: the
    /// number of the first is the peer's start, which this answers. NoMemory changes nothing. (This project's
    /// profile.)
    pub fn peer_joins(&mut self, peer: Addr, boot: u32) -> Result<u16, NoMemory>
        requires node { IsNodeWord peer.word }
        requires new { has_joined peer.word self.old.contacts ≡ false }
        ensures start { IfOk result (λ start. start ≡ number_of (next_start self.old)) }
        ensures ok { OnOk result (self.new ≡ joining self.old peer.word boot) }
        ensures err { OnErr result (self.new ≡ self.old) }
    {
        let start = self.next_start();
        self.contacts.push(Contact::new(peer, boot, start))?;
        Ok(sequence_number(start))
    }

    /// Sends a frame under a number on a bearer, where that is mended.
    #[tactic(auto, using(tipc_outside::proofs::Adding::gains_none))]
    fn cast_on(&self, alloc: Global, bearer: u8, number: u16, frame: &[u8], out: &mut Outbox)
        requires bearer { bearer ≤ 1 }
        requires long { 32 ≤ length frame.now }
        ensures { Adds out.old out.new (on_bearer self.now.mended (numbered_frame number frame.now) bearer) }
    {
        if self.mended[bearer as usize] {
            match numbered_frame(alloc, number, frame) {
                Ok(frame) => out.put(Class::Broadcast, bearer, To::All, frame),
                Err(_) => out.lose(Class::Broadcast),
            }
        }
    }

    /// Sends a frame under a number on each mended bearer.
    fn cast(&self, alloc: Global, number: u16, frame: &[u8], out: &mut Outbox)
        requires { 32 ≤ length frame.now }
        ensures { Adds out.old out.new (cast self.now.mended number frame.now) }
    {
        self.cast_on(alloc, 0, number, frame, out);
        self.cast_on(alloc, 1, number, frame, out);
    }

    /// Numbers the first packet that waits, and sends it.
    fn send_next(&mut self, alloc: Global, out: &mut Outbox)
        requires waiting { 0 < length self.old.sending.waiting }
        requires window { length self.old.sending.unacked < window_size }
        ensures after { self.new ≡ sent 1 self.old }
        ensures frames { (q : List ℕ) → slice_get self.old.sending.waiting 0 ≡ Some q →
            Adds out.old out.new (cast self.old.mended (number_of (self.old.sending.numbered + 1)) q) }
    {
        let number = sequence_number(self.window.numbered() + 1);
        match self.window.first() {
            Some(frame) => self.cast(alloc, number, frame, out),
            None => unreachable!(),
        }
        let _number = self.window.due();
    }

    /// How many of the waiting packets the window has room for.
    fn room(&self) -> usize
        ensures value { result ≡ room self.now.sending }
        ensures short { All IsShort (flush_frames self.now) }
    {
        WINDOW
            .saturating_sub(self.window.in_flight())
            .min(self.window.waiting() as usize)
    }

    /// Numbers and sends waiting packets until the window is full or none waits.
    fn flush(&mut self, alloc: Global, out: &mut Outbox)
        ensures after { self.new ≡ flushed self.old }
        ensures frames { Adds out.old out.new (flush_frames self.old) }
        ensures short { All IsShort (flush_frames self.old) }
    {
        let count = self.room();
        for _ in 0..count {
            self.send_next(alloc, out);
        }
    }

    /// Releases every packet that all peers in contact acknowledged.
    fn release(&mut self)
        ensures { self.new ≡ settled self.old }
    {
        let position = acked_by_all(self.window.numbered(), self.contacts.as_slice());
        self.window.acknowledge(sequence_number(position));
    }

    /// Takes the packets of a message to wait, each for the peers that are in contact now.
    fn accept(&mut self, alloc: Global, pieces: &Pieces, limit: u32) -> Result<(), OfferFault>
        requires packets { All (λ piece. 16 ≤ length piece) pieces.now }
        requires short { All (λ piece. length piece ≤ most_packet_bytes) pieces.now }
        requires limit { limit ≤ 200 }
        requires message { length pieces.now ≤ 47 }
        ensures ok { OnOk result ((length self.old.sending.waiting < limit) ×
            (self.new ≡ with_message self.old pieces.now)) }
        ensures congested { limit ≤ length self.old.sending.waiting →
            result ≡ Err (OfferFault.Congested (length self.old.sending.unacked) (length self.old.sending.waiting)) }
        ensures congested_only { (in_flight waiting : ℕ) → result ≡ Err (OfferFault.Congested in_flight waiting) →
            (limit ≤ length self.old.sending.waiting) × (in_flight ≡ length self.old.sending.unacked) ×
            (waiting ≡ length self.old.sending.waiting) }
        ensures err { OnErr result (self.new ≡ self.old) }
    {
        let (in_flight, waiting) = self.load();
        if waiting >= limit {
            return Err(OfferFault::Congested { in_flight, waiting });
        }
        let members = member_set(self.contacts.as_slice());
        let frames = accepted_frames(alloc, self.own, self.boot, members, pieces)?;
        self.window.offer(frames, limit)
    }

    /// Gives up every packet, with nobody in contact, and passes over the numbers that the waiting ones would have had.
    fn give_up(&mut self)
        requires { self.old.contacts ≡ [] }
        ensures { self.new ≡ with_sending self.old (passed_over self.old.sending) }
    {
        self.window.pass_over();
    }

    /// Gives up every packet where nobody is in contact.
    fn keep_for_peers(&mut self)
        ensures { self.new ≡ kept_for self.old.contacts self.old }
    {
        if self.contacts.is_empty() {
            self.give_up();
        }
    }

    /// Sends the packets of one message to all peers in contact: each as it is, behind all that were accepted before,
    /// on each mended bearer, as far as the window of 50 has room. The others wait. A packet is for the peers that
    /// are in contact now; with nobody in contact it is sent and not kept. (TIPC 2.0 draft; limits and member sets:
    /// this project's profile.)
    ///
    /// # Errors
    ///
    /// Congested exactly where at least `limit` packets wait, with the numbers of packets unacknowledged and
    /// waiting; else NoMemory. Either changes nothing.
    pub fn send(
        &mut self,
        alloc: Global,
        pieces: Pieces,
        limit: u32,
        out: &mut Outbox,
    ) -> Result<(), OfferFault>
        requires packets { All (λ piece. 16 ≤ length piece) pieces }
        requires short { All (λ piece. length piece ≤ most_packet_bytes) pieces }
        requires limit { limit ≤ 200 }
        requires message { length pieces ≤ 47 }
        ensures ok { OnOk result ((length self.old.sending.waiting < limit) ×
            (self.new ≡ accepting self.old pieces) × Adds out.old out.new (accepting_frames self.old pieces)) }
        ensures short { OnOk result (All IsShort (accepting_frames self.old pieces)) }
        ensures congested { limit ≤ length self.old.sending.waiting →
            result ≡ Err (OfferFault.Congested (length self.old.sending.unacked) (length self.old.sending.waiting)) }
        ensures congested_only { (in_flight waiting : ℕ) → result ≡ Err (OfferFault.Congested in_flight waiting) →
            (limit ≤ length self.old.sending.waiting) × (in_flight ≡ length self.old.sending.unacked) ×
            (waiting ≡ length self.old.sending.waiting) }
        ensures err { OnErr result ((self.new ≡ self.old) × (out.new ≡ out.old)) }
    {
        self.accept(alloc, &pieces, limit)?;
        self.flush(alloc, out);
        self.keep_for_peers();
        Ok(())
    }

    /// Drops what is kept of a peer.
    fn forget(&mut self, peer: Addr)
        ensures { self.new ≡ with_contacts self.old (without peer.word self.old.contacts) }
    {
        self.contacts
            .retain(|contact| contact.peer.word != peer.word);
    }

    /// Releases every packet that all peers in contact acknowledged, and sends what then has room, until nothing that
    /// waits is for nobody: what nobody is to have is released as soon as it was sent.
    fn move_up(&mut self, alloc: Global, out: &mut Outbox)
        ensures after { self.new ≡ moved_up rounds_of_departure self.old }
        ensures frames { Adds out.old out.new (moved_up_frames rounds_of_departure self.old) }
        ensures short { All IsShort (moved_up_frames rounds_of_departure self.old) }
    {
        for _ in 0..ROUNDS_OF_DEPARTURE {
            self.release();
            self.flush(alloc, out);
        }
    }

    /// What a departure leaves: with nobody in contact everything is given up, else packets are released and move up.
    #[tactic(auto, using(tipc_outside::proofs::Adding::gains_none))]
    fn follow_departure(&mut self, alloc: Global, out: &mut Outbox)
        ensures after { self.new ≡ left_with self.old.contacts self.old }
        ensures frames { Adds out.old out.new (left_frames self.old.contacts self.old) }
        ensures short { All IsShort (left_frames self.old.contacts self.old) }
    {
        if self.contacts.is_empty() {
            self.give_up();
            return;
        }
        self.move_up(alloc, out);
    }

    /// The contact with a peer ends. Nothing is kept for it any more: packets that only it had yet to acknowledge are
    /// released, and waiting packets that then enter the window are numbered and sent. With nobody left in contact
    /// window and waiting list are emptied, and the numbers that the waiting packets would have had are passed over.
    /// (This project's profile.)
    pub fn peer_leaves(&mut self, alloc: Global, peer: Addr, out: &mut Outbox)
        requires { has_joined peer.word self.old.contacts ≡ true }
        ensures after { self.new ≡ leaving self.old peer.word }
        ensures frames { Adds out.old out.new (leaving_frames self.old peer.word) }
        ensures short { All IsShort (leaving_frames self.old peer.word) }
    {
        self.forget(peer);
        self.follow_departure(alloc, out);
    }

    /// Takes what a peer tells of its own broadcast.
    fn inform(&mut self, alloc: Global, peer: Addr, start: u16, next: u16)
        requires { has_joined peer.word self.old.contacts ≡ true }
        ensures { self.new ≡ informed self.old peer.word start next }
    {
        match place_of(self.contacts.as_slice(), peer) {
            Some(place) => self.contacts[place].tell(alloc, start, next),
            None => unreachable!(),
        }
    }

    /// Takes what a peer acknowledges.
    fn credit(&mut self, peer: Addr, number: u16)
        requires { has_joined peer.word self.old.contacts ≡ true }
        ensures { self.new ≡ credited self.old peer.word number }
    {
        let numbered = self.window.numbered();
        match place_of(self.contacts.as_slice(), peer) {
            Some(place) => self.contacts[place].acknowledge(numbered, number),
            None => unreachable!(),
        }
    }

    /// The unacknowledged packets beside their numbers.
    fn unacked(&self) -> &[Kept]
        ensures kept { result.now ≡ kept_of self.now.sending }
        ensures long { All (λ kept. 32 ≤ length kept.packet) result.now }
        ensures short { (acknowledgement gap : ℕ) → All IsShort (repeat_frames self.now acknowledgement gap) }
    {
        self.window.unacked()
    }

    /// Sends the unacknowledged packets again that are among the `gap` ones behind an acknowledgement. (TIPC 2.0
    /// draft.)
    fn repeat(&self, alloc: Global, acknowledgement: u16, gap: u16, out: &mut Outbox)
        ensures frames { Adds out.old out.new (repeat_frames self.now acknowledgement gap) }
        ensures short { All IsShort (repeat_frames self.now acknowledgement gap) }
    {
        for kept in self.unacked() {
            if is_behind(acknowledgement, gap, kept) {
                self.cast(alloc, kept.number, kept.packet.as_slice(), out);
            }
        }
    }

    /// Takes what a peer in step acknowledges and misses.
    fn answer(
        &mut self,
        alloc: Global,
        peer: Addr,
        acknowledgement: u16,
        gap: u16,
        out: &mut Outbox,
    )
        requires { has_joined peer.word self.old.contacts ≡ true }
        ensures after { self.new ≡ answered self.old peer.word acknowledgement }
        ensures frames { Adds out.old out.new (answered_frames self.old peer.word acknowledgement gap) }
        ensures short { All IsShort (answered_frames self.old peer.word acknowledgement gap) }
    {
        self.credit(peer, acknowledgement);
        self.release();
        self.repeat(alloc, acknowledgement, gap, out);
        self.flush(alloc, out);
    }

    /// Takes the broadcast fields of a STATE of a peer. The first one of a contact tells the start, and from then on
    /// this node is in step with the peer's broadcast. Acknowledgement and gap are read where the peer says that it
    /// is in step: packets that all peers in contact acknowledged are released, those that the peer misses are
    /// sent again, and waiting packets move up. (TIPC 2.0 draft; start and in-step: this project's profile.)
    #[tactic(auto, using(tipc_outside::proofs::Adding::gains_none))]
    pub fn state(&mut self, alloc: Global, peer: Addr, seen: BroadcastState, out: &mut Outbox)
        requires { has_joined peer.word self.old.contacts ≡ true }
        ensures after { self.new ≡ stating self.old peer.word seen }
        ensures frames { Adds out.old out.new (stating_frames self.old peer.word seen) }
        ensures short { All IsShort (stating_frames self.old peer.word seen) }
    {
        self.inform(alloc, peer, seen.start, seen.next);
        if seen.in_step {
            self.answer(alloc, peer, seen.acknowledged, seen.gap, out);
        }
    }

    /// What a broadcast packet that arrived will make of the broadcast link. It comes from a boot of its previous node
    /// and is for a set of members: bit `n - 1` stands for node `n`. `by` is the arrival's number at this node.
    ///
    /// It is ignored, in this order, with `Epoch` where the previous node is in contact with another boot number, with
    /// `OutOfStep` where it isn't in contact or this node isn't in step with its broadcast, and with `NotMember` where
    /// this node isn't a member. Else it is taken where it is the wanted one, and with it those behind it that are
    /// held; it is deferred where it is one of the next 49 and isn't held; else it is ignored with `Old`. A packet that
    /// is taken is given as it was accepted. Nothing is changed yet: [`Broadcast::commit`] does it. (TIPC 2.0 draft;
    /// boot and members: this project's profile.)
    ///
    /// # Errors
    ///
    /// Where memory runs out for a packet whose number is read: one that is ignored before that takes no memory.
    pub fn prepare(
        &self,
        alloc: Global,
        boot: u32,
        members: u32,
        packet: &Packet<'_>,
        by: u64,
    ) -> Result<CastArriving, NoMemory>
        requires { Fits (view packet.now) }
        ensures arriving { IfOk result (λ a. a ≡ coming_at self.now boot members (view packet.now) by) }
        ensures heard_only { OnErr result (refusal_of self.now boot members packet.now.previous ≡ None) }
    {
        let peer = Addr {
            word: packet.previous,
        };
        let Some(contact) = self.contact(peer) else {
            return Ok(CastArriving {
                peer,
                window: None,
                outcome: LinkOutcome::Ignored(Why::OutOfStep),
            });
        };
        let (window, outcome) = contact.prepare(alloc, self.own, boot, members, packet, by)?;
        Ok(CastArriving {
            peer,
            window,
            outcome,
        })
    }

    /// Takes a broadcast packet that arrived, as [`Broadcast::prepare`] told of it when the broadcast link was as it
    /// is, and answers what it told. It takes no memory.
    pub fn commit(&mut self, cast: CastArriving) -> LinkOutcome
        requires { (boot members by : ℕ) × (p : Fields) × (cast ≡ coming_at self.old boot members p by) }
        ensures outcome { result ≡ cast.outcome }
        ensures few { TakesFew result }
        ensures after { (boot members by : ℕ) (p : Fields) → cast ≡ coming_at self.old boot members p by →
            self.new ≡ arriving self.old boot members p by }
    {
        let CastArriving {
            peer,
            window,
            outcome,
        } = cast;
        self.take(peer, window);
        outcome
    }

    /// Lets the receive window of a node's broadcast do what a packet makes of it; nothing, where the node isn't in
    /// contact.
    fn take(&mut self, peer: Addr, window: Option<WindowArrival>)
        requires { (boot members : ℕ) × (t : Taken) ×
            (window ≡ coming_of self.old boot members t (contact_with peer.word self.old.contacts)) }
        ensures { (boot members : ℕ) (t : Taken) →
            window ≡ coming_of self.old boot members t (contact_with peer.word self.old.contacts) →
            self.new ≡ hearing self.old peer.word boot members t }
    {
        match place_of(self.contacts.as_slice(), peer) {
            Some(place) => self.contacts[place].commit(window),
            None => {}
        }
    }

    /// A broadcast packet arrived: [`Broadcast::prepare`] and [`Broadcast::commit`] in one call.
    ///
    /// # Errors
    ///
    /// Where memory runs out for a packet whose number is read. Nothing is changed then.
    pub fn arrive(
        &mut self,
        alloc: Global,
        boot: u32,
        members: u32,
        packet: &Packet<'_>,
        by: u64,
    ) -> Result<LinkOutcome, NoMemory>
        requires { Fits (view packet.now) }
        ensures outcome { IfOk result (λ o. o ≡ arriving_outcome self.old boot members (view packet.now) by) }
        ensures after { OnOk result (self.new ≡ arriving self.old boot members (view packet.now) by) }
        ensures heard_only { OnErr result (refusal_of self.old boot members packet.now.previous ≡ None) }
        ensures err { OnErr result (self.new ≡ self.old) }
    {
        let cast = self.prepare(alloc, boot, members, packet, by)?;
        Ok(self.commit(cast))
    }
}

/// Whether an unacknowledged packet is among the `gap` ones behind an acknowledgement.
fn is_behind(acknowledgement: u16, gap: u16, kept: &Kept) -> bool
    ensures { result ≡ is_behind acknowledgement gap kept.now }
{
    let distance = number_distance(acknowledgement, kept.number);
    0 < distance && distance <= gap
}
