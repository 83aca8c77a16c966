//! A session: the packets of a link end that is up, sent and taken.

ghost use Rattle.std.specs.Prelude.{◌≡◌, ◌+◌, ◌-◌, ◌<◌, ◌≤◌, [], ◌∷◌, ◌==◌, false, true, if◌then◌else◌, List, ℕ, None, Err, count_by, length, take, slice_get, All, IfNone, IfOk, IfSome, OnErr, OnOk, Some};
ghost use Rattle.tipc_types.specs.Position.{number_of};
ghost use Rattle.tipc_header.specs.Spelling.{view};
ghost use Rattle.tipc_header.specs.Grammar.{Fits};
ghost use Rattle.tipc_outside.specs.Frames.{made_as, Adds, AddsFirst, Gains};
ghost use Rattle.tipc_types.specs.declared.packet_lists.Kept.{Kept};
ghost use Rattle.tipc_types.specs.declared.packet_lists.Taken.{Taken};
ghost use Rattle.tipc_send_window.specs.Sending.{IsSending, kept_of};
ghost use Rattle.tipc_recv_window.specs.Receiving.{coming, next_of};
ghost use Rattle.tipc_link.specs.Records.{is_early_tunnel, is_next, is_tunnel, named, tunnelled, tunnelled_outcome};
ghost use Rattle.tipc_link.specs.Links.{name_of};
ghost use Rattle.tipc_link.specs.Sessions.{is_behind};

use crate::changeover::{HandedOver, is_tunnel};
use crate::hearing::{Hearing, is_only_deferred};
use crate::joining::{joined_with, may_be_joined};
use crate::record::Record;
use std::alloc::{AllocError, Global};
use std::marker::Model;
use tipc_bundle::may_be_bundled;
use tipc_header::{Header, Packet, State, encode_frame, stamp_frame};
use tipc_outside::{Class, Outbox};
use tipc_recv_window::{LinkOutcome, Place, RecvWindow, WindowArrival};
use tipc_send_window::{SendWindow, WINDOW};
use tipc_types::{
    Addr, BroadcastState, Bytes, Kept, NoMemory, OldSession, Pieces, Taken, To, number_distance,
    sequence_number,
};

/// How many packets may be taken before a STATE is sent. (This project's profile.)
const UNANSWERED: u64 = 16;

/// What one end of a link to a peer on one bearer keeps in one session: what it sends, and the receiving record.
#[derive(Drop)]
pub(crate) struct Session {
    own: Addr,
    peer: Addr,
    bearer: u8,
    epoch: u64,
    peer_epoch: u64,
    window: SendWindow,
    /// What is received of the peer. It outlives the session.
    received: Record,
    /// How many packets were taken since the last frame.
    unanswered: u64,
    /// How many broadcast packets were taken since the last frame.
    broadcasts: u64,
    /// Whether the last arrival asks for a STATE.
    owes: bool,
}

impl Model for Session {
    ghost use Rattle.tipc_link.specs.Sessions.{SessionEnd};
    ghost use Rattle.tipc_link.specs.Hearings.{IsSession};

    ghost Value = { SessionEnd };

    ghost view = { λ l. record {
      own = l.own.word;
      peer = l.peer.word;
      bearer = l.bearer;
      epoch = l.epoch;
      peer_epoch = l.peer_epoch;
      sending = l.window;
      record_epoch = l.received.epoch;
      taken = l.received.taken;
      held = l.received.held;
      shown = l.received.shown;
      unanswered = record { packets = l.unanswered; broadcasts = l.broadcasts };
      owes = l.owes;
    } };

    ghost invariant = { λ l.
        IsSession l.bearer (record { packets = l.unanswered; broadcasts = l.broadcasts }) l.window l.received };
}

impl Session {
    ghost use Rattle.tipc_types.specs.Limits.{window_size};
    ghost use Rattle.tipc_link.specs.Sessions.{all_answered, answer_frames, answered, begun_with, flush_frames, flushed, gap, given_up, highest, is_due, is_numbered, noted, packet_frame, put, priority_of, receiving, receiving_record, after_acknowledgement, repeat_frames, repeated, sent, spoke, state_fields, state_frame, after_state, took, tunnel_count, waiting_given, wanted, with_broadcast, with_last, with_record, IsPut, IsWaiting, MayJoin, SessionEnd};
    ghost use Rattle.tipc_send_window.specs.Sending.{room};
    ghost use Rattle.tipc_link.specs.Hearings.{coming_of, IsHearing, IsJoined};

    /// An end that is up, in the session of these two epochs, over a bearer 0 or 1, with this receiving record.
    pub fn established(
        alloc: Global,
        own: Addr,
        peer: Addr,
        bearer: u8,
        epoch: u64,
        peer_epoch: u64,
        received: Record,
    ) -> Session
        requires { bearer ≤ 1 }
        ensures { result ≡ begun_with own.word peer.word bearer epoch peer_epoch received }
    {
        Session {
            own,
            peer,
            bearer,
            epoch,
            peer_epoch,
            window: SendWindow::new(alloc),
            received,
            unanswered: 0,
            broadcasts: 0,
            owes: false,
        }
    }

    /// An end that is as this one.
    pub fn copy(&self) -> Result<Session, NoMemory>
        ensures { IfOk result (λ session. session ≡ self.now) }
    {
        Ok(Session {
            own: self.own,
            peer: self.peer,
            bearer: self.bearer,
            epoch: self.epoch,
            peer_epoch: self.peer_epoch,
            window: self.window.copy()?,
            received: self.received.copy()?,
            unanswered: self.unanswered,
            broadcasts: self.broadcasts,
            owes: self.owes,
        })
    }

    /// Its receiving record.
    pub fn received(&self) -> &Record
        ensures { result.now ≡ receiving_record self.now }
    {
        &self.received
    }

    /// Its receiving record, where the session is over.
    pub fn into_received(self) -> Record
        ensures { result ≡ receiving_record self }
    {
        self.received
    }

    /// How many packets it has taken.
    fn taken(&self) -> u64
        ensures { result ≡ self.now.taken }
    {
        self.received.taken()
    }

    /// How many packets each direction numbered in this session: the own one exactly, and the peer's as taken.
    pub fn numbered(&self) -> (u64, u64)
        ensures own { result.0 ≡ self.now.sending.numbered }
        ensures peer { result.1 ≡ self.now.taken }
    {
        (self.window.numbered(), self.taken())
    }

    /// The end's own epoch.
    pub fn epoch(&self) -> u64
        ensures { result ≡ self.now.epoch }
    {
        self.epoch
    }

    /// Its bearer and the end's own epoch, which name it to the peer.
    pub fn name(&self) -> OldSession
        ensures value { result ≡ name_of self.now }
        ensures bearer { result.bearer ≤ 1 }
    {
        OldSession {
            bearer: self.bearer,
            epoch: self.epoch,
        }
    }

    /// The numbers of unacknowledged and of waiting packets.
    pub fn load(&self) -> (u32, u32)
        ensures unacked { result.0 ≡ length self.now.sending.unacked }
        ensures waiting { result.1 ≡ length self.now.sending.waiting }
    {
        (self.window.unacked().len() as u32, self.window.waiting())
    }

    /// Puts packets on the link, and sends those that the window of 50 has room for. A packet that is alone, and is
    /// payload or name items, joins the last packet that waits, where that is a bundle or such a packet and the bundle
    /// has at most 1,452 bytes. Words 2 and 3 of a packet are written when it is sent; a message names its node in word
    /// 3 from the start, also in a bundle. (TIPC 2.0 draft; the limits: this project's profile.)
    ///
    /// # Errors
    ///
    /// Where memory runs out. Nothing is changed then.
    pub fn send(&mut self, alloc: Global, pieces: Pieces, out: &mut Outbox) -> Result<(), NoMemory>
        requires { All IsWaiting pieces }
        ensures ok { OnOk result ((put : SessionEnd) × IsPut self.old pieces put × (self.new ≡ flushed put) ×
            Adds out.old out.new (flush_frames put)) }
        ensures err { OnErr result ((self.new ≡ self.old) × (out.new ≡ out.old)) }
    {
        self.put(alloc, pieces)?;
        self.flush(alloc, out);
        Ok(())
    }

    /// Puts packets behind those that wait, or joins one to the last of them.
    fn put(&mut self, alloc: Global, pieces: Pieces) -> Result<(), NoMemory>
        requires { All IsWaiting pieces }
        ensures ok { OnOk result (IsPut self.old pieces self.new) }
        ensures err { OnErr result (self.new ≡ self.old) }
    {
        if let Some(bundle) = self.bundle_with(alloc, &pieces)? {
            self.join(bundle);
            return Ok(());
        }
        self.wait(pieces)
    }

    /// Puts packets behind those that wait.
    fn wait(&mut self, pieces: Pieces) -> Result<(), NoMemory>
        requires { All IsWaiting pieces }
        ensures ok { OnOk result (self.new ≡ put self.old pieces) }
        ensures err { OnErr result (self.new ≡ self.old) }
    {
        self.window.put(pieces)
    }

    /// The bundle of the last packet that waits and the only one of these. None exactly where they may not be joined.
    fn bundle_with(&self, alloc: Global, pieces: &Pieces) -> Result<Option<Bytes>, NoMemory>
        ensures some { IfOk result (λ given. IfSome given (λ bundle. IsJoined self.now pieces.now bundle)) }
        ensures none { IfOk result (λ given. IfNone given ((packets : List (List ℕ)) (packet : List ℕ) →
            pieces.now ≡ packet ∷ [] → MayJoin self.now packets packet → ⊥)) }
    {
        let (Some(packet), Some(last)) = (only_piece(pieces), self.window.last()) else {
            return Ok(None);
        };
        if !may_be_bundled(packet) || !may_be_joined(last) {
            return Ok(None);
        }
        joined_with(alloc, last, packet)
    }

    /// Puts a bundle in the place of the last packet that waits.
    fn join(&mut self, bundle: Bytes)
        requires waits { 0 < length self.old.sending.waiting }
        requires bundle { IsWaiting bundle }
        ensures { self.new ≡ with_last self.old bundle }
    {
        let _last = self.window.swap_last(bundle);
    }

    /// The frame of a packet under a number.
    fn packet_frame(&self, alloc: Global, number: u16, packet: &[u8]) -> Result<Bytes, AllocError>
        requires { 16 ≤ length packet.now }
        ensures { IfOk result (λ f. f ≡ (packet_frame self.now number packet.now).frame) }
    {
        let acknowledgement = sequence_number(self.taken());
        let frame = stamp_frame(
            alloc,
            self.epoch,
            self.peer_epoch,
            packet,
            acknowledgement,
            number,
            self.own.word,
        )?;
        Ok(Bytes::from_vec(frame))
    }

    /// Sends a packet under a number.
    fn send_packet(&self, alloc: Global, class: Class, number: u16, packet: &[u8], out: &mut Outbox)
        requires { 16 ≤ length packet.now }
        ensures { Gains out.old out.new (made_as class (packet_frame self.now number packet.now ∷ [])) }
    {
        match self.packet_frame(alloc, number, packet) {
            Ok(frame) => out.put(class, self.bearer, To::Node(self.peer), frame),
            Err(_) => out.lose(class),
        }
    }

    /// Numbers the first packet that waits, and sends it.
    fn send_next(&mut self, alloc: Global, out: &mut Outbox)
        requires waiting { 0 < length self.old.sending.waiting }
        requires window { length self.old.sending.unacked < window_size }
        ensures after { self.new ≡ sent 1 self.old }
        ensures frame { (q : List ℕ) → slice_get self.old.sending.waiting 0 ≡ Some q →
            Adds out.old out.new (packet_frame self.old (number_of (self.old.sending.numbered + 1)) q ∷ []) }
    {
        let number = sequence_number(self.window.numbered() + 1);
        match self.window.first() {
            Some(packet) => self.send_packet(alloc, Class::Numbered, number, packet, out),
            None => unreachable!(),
        }
        let _number = self.window.due();
        self.unanswered = 0;
        self.broadcasts = 0;
    }

    /// How many of the waiting packets the window has room for.
    fn room(&self) -> usize
        ensures { result ≡ room self.now.sending }
    {
        WINDOW
            .saturating_sub(self.window.in_flight())
            .min(self.window.waiting() as usize)
    }

    /// Sends waiting packets until the window is full or none waits.
    pub(crate) fn flush(&mut self, alloc: Global, out: &mut Outbox)
        ensures after { self.new ≡ flushed self.old }
        ensures frames { Adds out.old out.new (flush_frames self.old) }
    {
        let count = self.room();
        for _ in 0..count {
            self.send_next(alloc, out);
        }
    }

    /// The receive window.
    fn receive_window(&self) -> &RecvWindow
        ensures value { result.now ≡ receiving self.now }
        ensures wants { result.now.wanted ≡ self.now.taken + 1 }
        ensures next { next_of result.now ≡ None }
    {
        self.received.window()
    }

    /// Keeps the highest next position that the peer has shown, and asks for a STATE where more is missing, or at a
    /// probe.
    #[tactic(auto, unfolding(crate::specs::Sessions::highest))]
    pub(crate) fn note(&mut self, next: u16, probe: bool)
        ensures { self.new ≡ noted self.old next probe }
    {
        let window = self.receive_window();
        let position = window.wanted_position() + u64::from(window.ahead(next));
        self.owes = probe || window.shows_more(next);
        self.received.show(position);
    }

    /// Releases every packet up to the one with this number.
    pub(crate) fn acknowledge(&mut self, number: u16)
        ensures { self.new ≡ after_acknowledgement self.old number }
    {
        self.window.acknowledge(number);
    }

    /// The unacknowledged packets in order, beside their numbers.
    pub fn unacked(&self) -> &[Kept]
        ensures kept { result.now ≡ kept_of self.now.sending }
        ensures few { length result.now ≤ window_size }
        ensures waited { All (λ (k : Kept). IsWaiting k.packet) result.now }
    {
        self.window.unacked()
    }

    /// Sends the unacknowledged packets again that are among the `gap` ones behind an acknowledgement. (TIPC 2.0
    /// draft.)
    pub(crate) fn repeat(&mut self, alloc: Global, acknowledgement: u16, gap: u16, out: &mut Outbox)
        ensures after { self.new ≡ spoke self.old (repeated self.old acknowledgement gap) }
        ensures frames { AddsFirst out.old out.new (repeat_frames self.old acknowledgement gap) }
    {
        if self.send_missing(alloc, acknowledgement, gap, out) {
            self.unanswered = 0;
            self.broadcasts = 0;
        }
    }

    /// Sends those packets again, and says whether there is one.
    fn send_missing(&self, alloc: Global, acknowledgement: u16, gap: u16, out: &mut Outbox) -> bool
        ensures after { (if result then record self.now { unanswered = all_answered } else self.now) ≡
            spoke self.now (repeated self.now acknowledgement gap) }
        ensures frames { AddsFirst out.old out.new (repeat_frames self.now acknowledgement gap) }
    {
        let mut any = false;
        for kept in self.unacked() {
            if is_behind(acknowledgement, gap, kept) {
                let packet = kept.packet.as_slice();
                self.send_packet(alloc, Class::Repeated, kept.number, packet, out);
                any = true;
            }
        }
        any
    }

    /// What a packet that arrived in this session makes of it: as [`Record::prepare`].
    #[tactic(auto, using(crate::proofs::Arrivals::hears_at))]
    pub fn prepare(&self, alloc: Global, packet: &Packet<'_>, by: u64) -> Result<Hearing, NoMemory>
        requires { Fits (view packet.now) }
        ensures by { IfOk result (λ h. h.by ≡ by) }
        ensures hearing { IfOk result (λ h. IsHearing self.now (view packet.now) h) }
        ensures numbered { OnErr result (is_numbered packet.now.header ≡ true) }
    {
        self.received.prepare(alloc, packet, by)
    }

    /// Does what a packet with a number makes of the receive window: nothing, where it is a tunnel packet that isn't
    /// the wanted one.
    #[tactic(auto, using(crate::proofs::Standing::coming_none, crate::proofs::Standing::coming_some))]
    pub(crate) fn take_or_pass(&mut self, window: Option<WindowArrival>)
        requires { (t : Taken) × (window ≡ coming_of (receiving self.old) t) }
        ensures { (t : Taken) → window ≡ coming_of (receiving self.old) t → self.new ≡ took self.old t }
    {
        match window {
            Some(arrival) => self.take(arrival),
            None => self.pass_over(),
        }
    }

    /// Lets the receive window do what a packet with a number makes of it. The only packet that is deferred asks for a
    /// STATE.
    fn take(&mut self, arrival: WindowArrival)
        requires { (t : Taken) × (is_early_tunnel (receiving self.old) t ≡ false) ×
            (arrival ≡ coming (receiving self.old) t) }
        ensures { (t : Taken) → is_early_tunnel (receiving self.old) t ≡ false →
            arrival ≡ coming (receiving self.old) t → self.new ≡ took self.old t }
    {
        let place = arrival.place();
        let before = self.received.taken();
        self.received.commit(arrival);
        self.unanswered += self.received.taken() - before;
        self.owes = is_only_deferred(place, self.received.window());
    }

    /// Passes over a tunnel packet that isn't the wanted one: like any that is old, it asks for no STATE.
    #[tactic(auto, using(crate::proofs::Takings::took_early))]
    fn pass_over(&mut self)
        ensures { (t : Taken) → is_early_tunnel (receiving self.old) t ≡ true → self.new ≡ took self.old t }
    {
        self.owes = is_only_deferred(Place::Old, self.receive_window());
    }

    /// A tunnel packet on the other link names this epoch of the peer: a new receiving record is made where that is
    /// above the record's, and nothing of it is unanswered.
    #[tactic(auto, using(crate::proofs::Takings::named_above, crate::proofs::Takings::named_below, crate::proofs::Takings::with_itself))]
    pub fn name_epoch(&mut self, alloc: Global, epoch: u64)
        ensures { self.new ≡ with_record self.old (named (Some (receiving_record self.old)) epoch) }
    {
        if self.received.epoch() >= epoch {
            return;
        }
        self.renew(Record::new(alloc, epoch));
    }

    /// Takes a packet that came in such a tunnel packet: as [`Record::receive`], on the record that the tunnel packet
    /// names.
    ///
    /// # Errors
    ///
    /// Where memory runs out for the wanted packet. Nothing is changed then.
    #[tactic(auto, using(crate::proofs::Takings::named_above, crate::proofs::Takings::named_below, crate::proofs::Takings::tunnelled_epoch))]
    pub fn take_tunnelled(
        &mut self,
        alloc: Global,
        epoch: u64,
        packet: Taken,
    ) -> Result<LinkOutcome, NoMemory>
        ensures outcome { IfOk result (λ o. o ≡ tunnelled_outcome
            (named (Some (receiving_record self.old)) epoch) epoch packet) }
        ensures after { OnOk result (self.new ≡ with_record self.old
            (tunnelled (named (Some (receiving_record self.old)) epoch) epoch packet)) }
        ensures wanted { OnErr result (is_next (named (Some (receiving_record self.old)) epoch) epoch packet ≡ true) }
        ensures err { OnErr result (self.new ≡ self.old) }
    {
        if self.received.epoch() >= epoch {
            return self.receive(alloc, epoch, packet);
        }
        let mut received = Record::new(alloc, epoch);
        let outcome = received.receive(alloc, epoch, packet)?;
        self.renew(received);
        Ok(outcome)
    }

    /// Takes such a packet on the record that there is.
    #[tactic(auto, using(crate::proofs::Takings::with_same, crate::proofs::Takings::with_itself, crate::proofs::Takings::tunnelled_epoch))]
    fn receive(&mut self, alloc: Global, epoch: u64, packet: Taken) -> Result<LinkOutcome, NoMemory>
        ensures outcome { IfOk result (λ o. o ≡ tunnelled_outcome (receiving_record self.old) epoch packet) }
        ensures after { OnOk result (self.new ≡ with_record self.old
            (tunnelled (receiving_record self.old) epoch packet)) }
        ensures wanted { OnErr result (is_next (receiving_record self.old) epoch packet ≡ true) }
        ensures err { OnErr result (self.new ≡ self.old) }
    {
        self.received.receive(alloc, epoch, packet)
    }

    /// Puts a record of another epoch in the place of this one.
    #[tactic(auto, using(crate::proofs::Takings::with_other))]
    fn renew(&mut self, received: Record)
        requires { (received.epoch == self.old.record_epoch) ≡ false }
        ensures { self.new ≡ with_record self.old received }
    {
        self.received = received;
        self.unanswered = 0;
    }

    /// Gives its packets, and the session in which they were numbered.
    pub fn hand_over(&mut self) -> HandedOver
        ensures unacked { result.unacked ≡ kept_of self.old.sending }
        ensures waiting { result.waiting ≡ self.old.sending.waiting }
        ensures session { (result.old.bearer ≡ self.old.bearer) × (result.old.epoch ≡ self.old.epoch) ×
            (result.own.word ≡ self.old.own) }
        ensures after { self.new ≡ given_up self.old }
        ensures bearer { result.old.bearer ≤ 1 }
        ensures few { length result.unacked ≤ window_size }
        ensures window { IsSending self.old.sending }
        ensures waited { All (λ (k : Kept). IsWaiting k.packet) result.unacked }
        ensures wait { All IsWaiting result.waiting }
    {
        let (unacked, waiting) = self.window.hand_over();
        HandedOver {
            unacked,
            waiting,
            old: OldSession {
                bearer: self.bearer,
                epoch: self.epoch,
            },
            own: self.own,
        }
    }

    /// Gives the packets that wait.
    pub fn take_waiting(&mut self) -> Pieces
        ensures given { result ≡ self.old.sending.waiting }
        ensures after { self.new ≡ waiting_given self.old }
        ensures wait { All IsWaiting result }
    {
        self.window.take_waiting()
    }

    /// How many of its packets are tunnel packets, unacknowledged or waiting; counted up to 4,294,967,295.
    #[tactic(auto, using(crate::proofs::Repeating::kept_tunnels))]
    pub fn tunnels(&self) -> u32
        ensures { result ≡ tunnel_count self.now }
    {
        let unacked = tunnels_kept(self.window.unacked());
        let waiting = self
            .window
            .waiting_packets()
            .iter()
            .filter(|packet| is_tunnel(packet.as_slice()))
            .count();
        (unacked + waiting).min(u32::MAX as usize) as u32
    }

    /// Whether a STATE is due, where the arrival took so many broadcast packets, and `asks` says whether it asks for
    /// one by them.
    fn is_due(&self, broadcasts: u32, asks: bool) -> bool
        ensures { result ≡ is_due (with_broadcast self.now broadcasts asks) }
    {
        asks || self.owes
            || self.unanswered >= UNANSWERED
            || self.broadcasts + u64::from(broadcasts) >= UNANSWERED
    }

    /// Sends the STATE that is due where the last arrival asks for one, or once 16 packets or 16 broadcast packets were
    /// taken since the last frame on this link. The arrival took so many broadcast packets, and `asks` says whether it
    /// asks for a STATE by what it shows or brings of the broadcast. `shown` fills the broadcast fields of the STATE.
    /// (This project's profile.)
    pub fn answer(
        &mut self,
        alloc: Global,
        broadcasts: u32,
        asks: bool,
        shown: BroadcastState,
        out: &mut Outbox,
    )
        ensures after { self.new ≡ answered (with_broadcast self.old broadcasts asks) }
        ensures frames { Adds out.old out.new (answer_frames (with_broadcast self.old broadcasts asks) shown) }
    {
        if self.is_due(broadcasts, asks) {
            self.tell(alloc, Class::Answer, shown, false, out);
        } else {
            self.broadcasts += u64::from(broadcasts);
        }
        self.owes = false;
    }

    /// Sends a STATE: one that the link's states ask for, or one that answers an arrival.
    pub(crate) fn tell(
        &mut self,
        alloc: Global,
        class: Class,
        broadcast: BroadcastState,
        probe: bool,
        out: &mut Outbox,
    )
        ensures after { self.new ≡ after_state self.old }
        ensures frames { Gains out.old out.new (made_as class (state_frame self.old broadcast probe ∷ [])) }
    {
        let frame = self.state_frame(alloc, broadcast, probe);
        self.unanswered = 0;
        self.broadcasts = 0;
        match frame {
            Ok(frame) => out.put(class, self.bearer, To::Node(self.peer), frame),
            Err(_) => out.lose(class),
        }
    }

    /// How many packets are missing: up to the first that is held, or up to the next position that was shown.
    fn gap(&self) -> u16
        ensures value { result ≡ gap self.now }
        ensures within { result ≤ window_size }
    {
        self.receive_window().gap_to(self.received.shown())
    }

    /// The priority of the bearer's links.
    fn priority(&self) -> u8
        ensures value { result ≡ priority_of self.now.bearer }
        ensures within { result < 32 }
    {
        if self.bearer == 0 { 11 } else { 10 }
    }

    /// The frame of a STATE.
    #[tactic(auto, unfolding(crate::specs::Sessions::state_fields))]
    pub(crate) fn state_frame(
        &self,
        alloc: Global,
        broadcast: BroadcastState,
        probe: bool,
    ) -> Result<Bytes, AllocError>
        ensures { IfOk result (λ f. f ≡ (state_frame self.now broadcast probe).frame) }
    {
        let own = self.own.word;
        let peer = self.peer.word;
        let packet = Packet {
            acknowledgement: sequence_number(self.taken()),
            sequence: 0,
            previous: own,
            header: Header::State(State {
                gap: self.gap(),
                broadcast_acknowledgement: broadcast.acknowledged,
                next: sequence_number(self.window.numbered() + 1),
                broadcast_next: broadcast.next,
                broadcast_start: broadcast.start,
                broadcast_gap: broadcast.gap,
                destination_node: peer,
                probe,
                in_step: broadcast.in_step,
                priority: self.priority(),
            }),
            rest: &[],
        };
        Ok(Bytes::from_vec(encode_frame(alloc, self.epoch, self.peer_epoch, &packet)?))
    }
}

/// The only one of these packets. None exactly where they are none or several.
fn only_piece(pieces: &Pieces) -> Option<&[u8]>
    ensures some { IfSome result (λ packet. pieces.now ≡ packet.now ∷ []) }
    ensures none { IfNone result ((packet : List ℕ) → pieces.now ≡ packet ∷ [] → ⊥) }
{
    match pieces.as_slice() {
        [packet] => Some(packet.as_slice()),
        _ => None,
    }
}

/// How many of these packets are tunnel packets.
fn tunnels_kept(kept: &[Kept]) -> usize
    ensures { result ≡ count_by (λ k. is_tunnel k.packet) kept.now }
{
    kept.iter()
        .filter(|kept| is_tunnel(kept.packet.as_slice()))
        .count()
}

/// Whether an unacknowledged packet is among the `gap` ones behind an acknowledgement.
fn is_behind(acknowledgement: u16, gap: u16, kept: &Kept) -> bool
    ensures { result ≡ is_behind acknowledgement gap kept.now }
{
    let distance = number_distance(acknowledgement, kept.number);
    0 < distance && distance <= gap
}
