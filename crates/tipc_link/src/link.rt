//! A link end: its states, its session while it is up, and the frames that it sends.

ghost use Rattle.std.specs.Prelude.{◌≡◌, ℕ, ◌⊎◌, ◌<◌, ◌≤◌, [], true, false, is_some, Some, None, Err, length, All, IfNone, IfOk, IfSome, OnErr, OnOk};
ghost use Rattle.tipc_types.specs.LinkStates.{is_up};
ghost use Rattle.tipc_header.specs.Grammar.{Fits, ResetFits};
ghost use Rattle.tipc_header.specs.Spelling.{view};
ghost use Rattle.tipc_outside.specs.Frames.{Adds, AddsFirst};
ghost use Rattle.tipc_link_fsm.specs.Table.{on_cut, on_reset, on_tick, contact_ended, forget_peer};
ghost use Rattle.tipc_link.specs.Links.{change_outcome, is_down, is_heard, is_reset_unknown, known, outcome_of};
ghost use Rattle.tipc_link.specs.Records.{kept_for, unheard};
ghost use Rattle.tipc_link.specs.Sessions.{SessionEnd, IsPut, IsWaiting, content_of, flush_frames, flushed, is_numbered};
ghost use Rattle.tipc_link.specs.Hearings.{IsArriving, IsHearing};

use crate::arriving::Arriving;
use crate::hearing::{Hearing, is_heard};
use crate::record::Record;
use crate::session::Session;
use std::alloc::{AllocError, Global};
use std::marker::Model;
use tipc_header::{Header, HeaderContent, Notice, Packet, Reset, encode_frame};
use tipc_link_fsm::{Change, LinkFsm};
use tipc_outside::{Class, Outbox};
use tipc_recv_window::LinkOutcome;
use tipc_send_window::OfferFault;
use tipc_types::{
    Addr, BroadcastState, Bytes, LinkState, NoMemory, Pieces, Reply, TakenList, To, Why,
};

/// What an arrival did to a link: to its state, and what it brought.
#[derive(Clone, Debug, Drop, PartialEq)]
pub struct LinkArrival {
    /// What became of the link's state.
    pub change: Change,
    /// What was taken.
    pub outcome: LinkOutcome,
}

/// One end of a link to a peer on one bearer, through its resets and sessions.
///
/// RESET and ACTIVATE show the contact numbers of [`Link::show_contact`]. Nothing is sent on a cut bearer. (States:
/// TIPC 2.0 draft; epochs and contact numbers: this project's profile.)
#[derive(Drop)]
pub struct Link {
    own: Addr,
    peer: Addr,
    bearer: u8,
    mended: bool,
    pub(crate) fsm: LinkFsm,
    contact: u64,
    peer_contact: u64,
    /// The present session or the last one, with the receiving record.
    pub(crate) session: Option<Session>,
    /// The receiving record, where tunnel packets on the other link came before there was a session.
    pub(crate) early: Option<Record>,
}

impl Model for Link {
    ghost use Rattle.std.specs.Prelude.{option_map};
    ghost use Rattle.tipc_link.specs.Records.{early_of};
    ghost use Rattle.tipc_link.specs.Links.{LinkEnd};
    ghost use Rattle.tipc_link.specs.Hearings.{IsLink};

    ghost Value = { LinkEnd };

    ghost view = { λ l. record {
      own = l.own.word;
      peer = l.peer.word;
      bearer = l.bearer;
      mended = l.mended;
      fsm = l.fsm;
      contact = l.contact;
      peer_contact = l.peer_contact;
      session = l.session;
      early = option_map early_of l.early;
    } };

    ghost invariant = { λ l. IsLink l.bearer l.early };
}

impl Link {
    ghost use Rattle.tipc_link.specs.Links.{activate_frames, after, answered_with, count_of, cut_end, ended_end, follow_frames, followed, forget_frames, frames, frames_with, heard_outcome, session_load, made, mend_frames, mended_end, notice, numbers_of, on_bearer, record_of, reset_frames, session_of, shown_by, state_frames, with_fsm, with_session};

    /// A link end in RESET_UNKNOWN under this epoch, on a bearer 0 or 1 that counts as cut.
    pub fn new(own: Addr, peer: Addr, bearer: u8, epoch: u64) -> Link
        requires { bearer ≤ 1 }
        ensures { result ≡ made own.word peer.word bearer epoch }
    {
        Link {
            own,
            peer,
            bearer,
            mended: false,
            fsm: LinkFsm::new(epoch),
            contact: epoch,
            peer_contact: 0,
            session: None,
            early: None,
        }
    }

    /// An end that is as this one.
    pub fn copy(&self) -> Result<Link, NoMemory>
        ensures { IfOk result (λ link. link ≡ self.now) }
    {
        Ok(Link {
            own: self.own,
            peer: self.peer,
            bearer: self.bearer,
            mended: self.mended,
            fsm: self.fsm.copy()?,
            contact: self.contact,
            peer_contact: self.peer_contact,
            session: copy_session(&self.session)?,
            early: copy_record(&self.early)?,
        })
    }

    /// Sets the contact numbers that RESET and ACTIVATE show: the node's own, and the highest that the peer has shown.
    pub fn show_contact(&mut self, own: u64, peer: u64)
        ensures { self.new ≡ record self.old { contact = own; peer_contact = peer } }
    {
        self.contact = own;
        self.peer_contact = peer;
    }

    /// The frame of a RESET or an ACTIVATE.
    fn notice(&self, alloc: Global, header: Header) -> Result<Bytes, AllocError>
        requires kind { (header ≡ Header.Reset (shown_by self.now)) ⊎ (header ≡ Header.Activate (shown_by self.now)) }
        requires fits { ResetFits (shown_by self.now) }
        ensures { IfOk result (λ f. f ≡ (notice self.now header).frame) }
    {
        let own = self.own.word;
        let packet = Packet {
            acknowledgement: 0,
            sequence: 0,
            previous: own,
            header,
            rest: &[],
        };
        let peer_epoch = known_epoch(&self.fsm);
        Ok(Bytes::from_vec(encode_frame(alloc, self.fsm.own(), peer_epoch, &packet)?))
    }

    /// What RESET and ACTIVATE say.
    fn shown(&self) -> Reset
        ensures value { result ≡ shown_by self.now }
        ensures fits { ResetFits result }
    {
        let peer = self.peer.word;
        let contact = self.contact;
        let peer_contact = self.peer_contact;
        Reset {
            destination_node: peer,
            priority: if self.bearer == 0 { 11 } else { 10 },
            contact,
            peer_contact,
        }
    }

    /// Sends a RESET or an ACTIVATE, where the bearer is mended.
    #[tactic(auto, using(tipc_outside::proofs::Adding::gains_none))]
    fn send_notice(&self, alloc: Global, header: Header, out: &mut Outbox)
        requires kind { (header ≡ Header.Reset (shown_by self.now)) ⊎ (header ≡ Header.Activate (shown_by self.now)) }
        requires fits { ResetFits (shown_by self.now) }
        ensures { AddsFirst out.old out.new (on_bearer self.now (notice self.now header)) }
    {
        if !self.mended {
            return;
        }
        match self.notice(alloc, header) {
            Ok(frame) => out.put(Class::Notice, self.bearer, To::Node(self.peer), frame),
            Err(_) => out.lose(Class::Notice),
        }
    }

    /// Sends a RESET.
    pub(crate) fn send_reset(&self, alloc: Global, out: &mut Outbox)
        ensures { AddsFirst out.old out.new (reset_frames self.now) }
    {
        self.send_notice(alloc, Header::Reset(self.shown()), out);
    }

    /// Sends an ACTIVATE.
    fn send_activate(&self, alloc: Global, out: &mut Outbox)
        ensures { AddsFirst out.old out.new (activate_frames self.now) }
    {
        self.send_notice(alloc, Header::Activate(self.shown()), out);
    }

    /// Gives the receiving record, and with it the last session: an end that goes up begins another.
    #[tactic(auto, using(crate::proofs::Takings::early_whole))]
    fn take_record(&mut self) -> Option<Record>
        ensures given { result ≡ record_of self.old }
        ensures after { self.new ≡ record self.old { session = None; early = None } }
    {
        let early = self.early.take();
        match self.session.take() {
            Some(session) => Some(session.into_received()),
            None => early,
        }
    }

    /// Begins a session, whose first frame is a STATE. It keeps a receiving record of the peer's epoch.
    fn begin(&mut self, alloc: Global, shown: BroadcastState, out: &mut Outbox)
        ensures after { self.new ≡ followed self.old Change.Up }
        ensures frames { AddsFirst out.old out.new (follow_frames self.old Change.Up shown) }
    {
        let peer_epoch = known_epoch(&self.fsm);
        let received = kept_for(alloc, self.take_record(), peer_epoch);
        let mut session = Session::established(
            alloc,
            self.own,
            self.peer,
            self.bearer,
            self.fsm.own(),
            peer_epoch,
            received,
        );
        session.tell(alloc, Class::State, shown, false, out);
        self.session = Some(session);
    }

    /// Sends a STATE of the session.
    #[tactic(auto, using(tipc_outside::proofs::Adding::gains_none))]
    fn tell(&mut self, alloc: Global, shown: BroadcastState, probe: bool, out: &mut Outbox)
        ensures after { self.new ≡ followed self.old (Change.Answer (Reply.State probe)) }
        ensures frames { AddsFirst out.old out.new (state_frames self.old.session shown probe) }
    {
        match &mut self.session {
            Some(session) => session.tell(alloc, Class::State, shown, probe, out),
            None => {}
        }
    }

    /// Does what a change of the link states calls for.
    #[tactic(auto, using(tipc_outside::proofs::Adding::gains_none))]
    pub(crate) fn follow(
        &mut self,
        alloc: Global,
        change: Change,
        shown: BroadcastState,
        out: &mut Outbox,
    )
        ensures after { self.new ≡ followed self.old change }
        ensures frames { AddsFirst out.old out.new (follow_frames self.old change shown) }
    {
        match change {
            Change::Up => self.begin(alloc, shown, out),
            Change::Answer(Reply::Reset) => self.send_reset(alloc, out),
            Change::Answer(Reply::Activate) => self.send_activate(alloc, out),
            Change::Answer(Reply::State { probe }) => self.tell(alloc, shown, probe, out),
            Change::Stay => {}
            Change::Down(_) => {}
            Change::Ignore(_) => {}
        }
    }

    /// The bearer is mended: an end in RESET_UNKNOWN sends RESET.
    #[tactic(auto, using(tipc_outside::proofs::Adding::gains_none))]
    pub fn mend(&mut self, alloc: Global, out: &mut Outbox)
        ensures after { self.new ≡ mended_end self.old }
        ensures frames { AddsFirst out.old out.new (mend_frames self.old) }
    {
        self.mended = true;
        if is_reset_unknown(self.fsm.state()) {
            self.send_reset(alloc, out);
        }
    }

    /// The bearer is cut: a link that is up goes down. `held` says that the pair's other link is up, so that the end is
    /// Held.
    pub fn cut(&mut self, held: bool) -> Change
        ensures change { result ≡ (on_cut self.old.fsm held).change }
        ensures after { self.new ≡ cut_end self.old held }
    {
        self.mended = false;
        self.fsm.on_cut(held)
    }

    /// A tick: an end in reset says so again, a link that is up sends a STATE or, silent for too long, goes down.
    pub fn tick(
        &mut self,
        alloc: Global,
        held: bool,
        shown: BroadcastState,
        out: &mut Outbox,
    ) -> Change
        ensures change { result ≡ (on_tick self.old.fsm held).change }
        ensures after { self.new ≡ after self.old (on_tick self.old.fsm held) }
        ensures frames { AddsFirst out.old out.new (frames self.old (on_tick self.old.fsm held) shown) }
    {
        let change = self.fsm.on_tick(held);
        self.follow(alloc, change, shown, out);
        change
    }

    /// Puts packets on a link that is up, unless too many wait there: as [`Link::put`].
    ///
    /// # Errors
    ///
    /// Congested exactly where at least `limit` packets wait, with the counts of the packets unacknowledged and
    /// waiting; else NoMemory. Either changes nothing.
    pub fn send(
        &mut self,
        alloc: Global,
        pieces: Pieces,
        limit: u32,
        out: &mut Outbox,
    ) -> Result<(), OfferFault>
        requires up { is_up self.old.fsm.state ≡ true }
        requires session { is_some self.old.session ≡ true }
        requires pieces { All IsWaiting pieces }
        ensures ok { (s : SessionEnd) → self.old.session ≡ Some s →
            OnOk result ((length s.sending.waiting < limit) ×
            ((put : SessionEnd) × IsPut s pieces put × (self.new ≡ with_session self.old (flushed put)) ×
            Adds out.old out.new (flush_frames put))) }
        ensures congested { (s : SessionEnd) → self.old.session ≡ Some s → limit ≤ length s.sending.waiting →
            result ≡ Err (OfferFault.Congested (length s.sending.unacked) (length s.sending.waiting)) }
        ensures congested_only { (s : SessionEnd) (in_flight waiting : ℕ) → self.old.session ≡ Some s →
            result ≡ Err (OfferFault.Congested in_flight waiting) → limit ≤ length s.sending.waiting }
        ensures err { OnErr result ((self.new ≡ self.old) × (out.new ≡ out.old)) }
    {
        let Some((in_flight, waiting)) = self.load() else {
            unreachable!()
        };
        if waiting >= limit {
            return Err(OfferFault::Congested { in_flight, waiting });
        }
        self.put(alloc, pieces, out)?;
        Ok(())
    }

    /// Puts packets on a link that is up, and sends those that the window of 50 has room for: as [`Session::send`].
    ///
    /// # Errors
    ///
    /// Where memory runs out. Nothing is changed then.
    pub fn put(&mut self, alloc: Global, pieces: Pieces, out: &mut Outbox) -> Result<(), NoMemory>
        requires up { is_up self.old.fsm.state ≡ true }
        requires session { is_some self.old.session ≡ true }
        requires pieces { All IsWaiting pieces }
        ensures ok { (s : SessionEnd) → self.old.session ≡ Some s →
            OnOk result ((put : SessionEnd) × IsPut s pieces put × (self.new ≡ with_session self.old (flushed put)) ×
            Adds out.old out.new (flush_frames put)) }
        ensures err { OnErr result ((self.new ≡ self.old) × (out.new ≡ out.old)) }
    {
        match &mut self.session {
            Some(session) => session.send(alloc, pieces, out),
            None => unreachable!(),
        }
    }

    /// What a packet that arrived under an envelope of these two epochs makes of the link: the sender's own, and this
    /// end's as the sender knows it. `held` says that the pair's other link is up, and `by` is the arrival's number at
    /// this node.
    ///
    /// It tells what becomes of the link's state, and what the session takes of a STATE or a packet with a number.
    /// Nothing is changed yet: [`Link::commit`] does it.
    ///
    /// # Errors
    ///
    /// Where memory runs out for a packet with a number that the session hears.
    pub fn prepare(
        &self,
        alloc: Global,
        sender_epoch: u64,
        receiver_epoch: u64,
        packet: &Packet<'_>,
        held: bool,
        by: u64,
    ) -> Result<Arriving, NoMemory>
        requires { Fits (view packet.now) }
        ensures states { IfOk result (λ a. a.states ≡ outcome_of self.now.fsm packet.now.header sender_epoch
            receiver_epoch held) }
        ensures by { IfOk result (λ a. a.hearing.by ≡ by) }
        ensures arriving { IfOk result (λ a. IsArriving self.now (view packet.now) a) }
        ensures heard_only { OnErr result
            (is_heard packet.now.header (outcome_of self.now.fsm packet.now.header sender_epoch receiver_epoch
            held).change ≡ true) }
        ensures numbered { OnErr result (is_numbered packet.now.header ≡ true) }
    {
        let mut fsm = self.fsm.copy()?;
        let change = change_of(&mut fsm, &packet.header, sender_epoch, receiver_epoch, held);
        let hearing = self.prepare_session(alloc, &fsm, change, packet, by)?;
        Ok(Arriving {
            fsm,
            change,
            hearing,
        })
    }

    /// What a packet makes of the session, where the link states are these after it.
    fn prepare_session(
        &self,
        alloc: Global,
        fsm: &LinkFsm,
        change: Change,
        packet: &Packet<'_>,
        by: u64,
    ) -> Result<Hearing, NoMemory>
        requires { Fits (view packet.now) }
        ensures by { IfOk result (λ h. h.by ≡ by) }
        ensures arriving { IfOk result (λ h. IsArriving self.now (view packet.now)
            (record { states = record { after = fsm.now; change = change }; hearing = h })) }
        ensures heard_only { OnErr result (is_heard packet.now.header change ≡ true) }
        ensures numbered { OnErr result (is_numbered packet.now.header ≡ true) }
    {
        if !is_heard(&packet.header, change) {
            return Ok(Hearing::without_window(by, change_outcome(alloc, change)));
        }
        match change {
            Change::Up => self.prepare_first(alloc, fsm, packet, by),
            Change::Stay => self.prepare_more(alloc, packet, by),
            Change::Down(_) => unreachable!(),
            Change::Answer(_) => unreachable!(),
            Change::Ignore(_) => unreachable!(),
        }
    }

    /// What a packet makes of the session that begins with it.
    fn prepare_first(
        &self,
        alloc: Global,
        fsm: &LinkFsm,
        packet: &Packet<'_>,
        by: u64,
    ) -> Result<Hearing, NoMemory>
        requires { Fits (view packet.now) }
        ensures by { IfOk result (λ h. h.by ≡ by) }
        ensures hearing { IfOk result (λ h. IsHearing (session_of (with_fsm self.now fsm.now)) (view packet.now) h) }
        ensures numbered { OnErr result (is_numbered packet.now.header ≡ true) }
    {
        let peer_epoch = known_epoch(fsm);
        match self.kept(peer_epoch) {
            Some(received) => received.prepare(alloc, packet, by),
            None => Record::new(alloc, peer_epoch).prepare(alloc, packet, by),
        }
    }

    /// The receiving record, where it is of this epoch of the peer: a link that goes up under it keeps that.
    #[tactic(auto, using(crate::proofs::KeptRecords::kept_same, crate::proofs::KeptRecords::kept_other))]
    fn kept(&self, epoch: u64) -> Option<&Record>
        ensures some { IfSome result (λ received. received.now ≡ kept_for (record_of self.now) epoch) }
        ensures none { IfNone result (unheard epoch ≡ kept_for (record_of self.now) epoch) }
    {
        let received = self.received()?;
        if received.epoch() == epoch {
            Some(received)
        } else {
            None
        }
    }

    /// The receiving record. None exactly where there is none.
    #[tactic(auto, using(crate::proofs::Takings::early_whole))]
    fn received(&self) -> Option<&Record>
        ensures some { IfSome result (λ received. record_of self.now ≡ Some received.now) }
        ensures none { IfNone result (record_of self.now ≡ None) }
    {
        match &self.session {
            Some(session) => Some(session.received()),
            None => match &self.early {
                Some(received) => Some(received),
                None => None,
            },
        }
    }

    /// What a packet makes of the session that there is.
    fn prepare_more(&self, alloc: Global, packet: &Packet<'_>, by: u64) -> Result<Hearing, NoMemory>
        requires { Fits (view packet.now) }
        ensures by { IfOk result (λ h. h.by ≡ by) }
        ensures hearing { (s : SessionEnd) → self.now.session ≡ Some s →
            IfOk result (λ h. IsHearing s (view packet.now) h) }
        ensures outcome { IfOk result (λ h. h.outcome ≡ heard_outcome self.now.session by
            (content_of (view packet.now))) }
        ensures numbered { OnErr result (is_numbered packet.now.header ≡ true) }
    {
        match &self.session {
            Some(session) => session.prepare(alloc, packet, by),
            None => Ok(Hearing::without_window(by, LinkOutcome::Took(TakenList::new(alloc)))),
        }
    }

    /// Takes a RESET under this epoch of its sender: as [`Link::prepare`] and [`Link::commit`], but for want of
    /// memory, since it needs none but for its frame.
    pub fn reset(
        &mut self,
        alloc: Global,
        sender_epoch: u64,
        held: bool,
        shown: BroadcastState,
        out: &mut Outbox,
    ) -> LinkArrival
        ensures change { result.change ≡ (on_reset self.old.fsm sender_epoch held).change }
        ensures outcome { result.outcome ≡ change_outcome (on_reset self.old.fsm sender_epoch held).change }
        ensures after { self.new ≡ after self.old (on_reset self.old.fsm sender_epoch held) }
        ensures frames { AddsFirst out.old out.new (frames self.old (on_reset self.old.fsm sender_epoch held) shown) }
    {
        let change = self.fsm.on_reset(sender_epoch, held);
        self.follow(alloc, change, shown, out);
        LinkArrival {
            change,
            outcome: change_outcome(alloc, change),
        }
    }

    /// Sends the STATE that is due where the last arrival asks for one, or once 16 packets or 16 broadcast packets were
    /// taken since the last frame on this link. Nothing is sent where the link isn't up.
    ///
    /// The arrival took so many broadcast packets. `due` says that it asks for a STATE by the broadcast: it deferred
    /// the only deferred broadcast packet, or showed that the peer has broadcast more. `shown` fills the broadcast
    /// fields. (This project's profile.)
    #[tactic(auto, using(tipc_outside::proofs::Adding::gains_none))]
    pub fn answer(
        &mut self,
        alloc: Global,
        broadcast: u32,
        due: bool,
        shown: BroadcastState,
        out: &mut Outbox,
    )
        ensures after { self.new ≡ answered_with self.old broadcast due }
        ensures frames { Adds out.old out.new (frames_with self.old broadcast due shown) }
    {
        if !self.is_up() {
            return;
        }
        match &mut self.session {
            Some(session) => session.answer(alloc, broadcast, due, shown, out),
            None => {}
        }
    }

    /// How many packets each direction numbered in the present session, or the last one: the own ones exactly, and the
    /// peer's as taken. None exactly where there was no session.
    pub fn numbered(&self) -> Option<(u64, u64)>
        ensures { result ≡ numbers_of self.now.session }
    {
        match &self.session {
            Some(session) => Some(session.numbered()),
            None => None,
        }
    }

    /// The numbers of unacknowledged and of waiting packets of the present session, or the last one. None exactly where
    /// there was no session.
    pub fn load(&self) -> Option<(u32, u32)>
        ensures { result ≡ session_load self.now.session }
    {
        match &self.session {
            Some(session) => Some(session.load()),
            None => None,
        }
    }

    /// The own epoch of the present session, or of the last one, and how many packets were numbered in it. None exactly
    /// where there was no session.
    pub fn last_count(&self) -> Option<(u64, u64)>
        ensures { result ≡ count_of self.now.session }
    {
        match &self.session {
            Some(session) => Some((session.epoch(), session.numbered().0)),
            None => None,
        }
    }

    /// Its own epoch.
    pub fn own_epoch(&self) -> u64
        ensures { result ≡ self.now.fsm.own }
    {
        self.fsm.own()
    }

    /// The peer's epoch, where it is known.
    pub fn peer_epoch(&self) -> Option<u64>
        ensures { result ≡ self.now.fsm.peer }
    {
        self.fsm.peer()
    }

    /// Its state.
    pub fn state(&self) -> LinkState
        ensures { result ≡ self.now.fsm.state }
    {
        self.fsm.state()
    }

    /// Whether the link is up.
    pub fn is_up(&self) -> bool
        ensures { result ≡ is_up self.now.fsm.state }
    {
        self.fsm.state().is_up()
    }

    /// The peer showed a higher contact number while there was no contact: the end forgets the peer's epoch. An end
    /// that is up has a contact, which ends.
    #[tactic(auto, using(tipc_outside::proofs::Adding::gains_none))]
    pub fn forget_peer(&mut self, alloc: Global, out: &mut Outbox) -> Change
        ensures change { result ≡ (forget_peer self.old.fsm).change }
        ensures after { self.new ≡ with_fsm self.old (forget_peer self.old.fsm).after }
        ensures frames { AddsFirst out.old out.new (forget_frames self.old) }
    {
        let change = self.fsm.forget_peer();
        if is_down(change) {
            self.send_reset(alloc, out);
        }
        change
    }

    /// The contact ended: the end takes the next epoch, forgets the peer's and sends RESET.
    pub fn contact_ended(&mut self, alloc: Global, out: &mut Outbox) -> Change
        ensures change { result ≡ (contact_ended self.old.fsm).change }
        ensures after { self.new ≡ ended_end self.old }
        ensures frames { AddsFirst out.old out.new (reset_frames (ended_end self.old)) }
    {
        let change = self.fsm.contact_ended();
        self.send_reset(alloc, out);
        change
    }
}

/// A session, or none, that is as this one.
fn copy_session(session: &Option<Session>) -> Result<Option<Session>, NoMemory>
    ensures { IfOk result (λ copy. copy ≡ session.now) }
{
    match session {
        Some(session) => Ok(Some(session.copy()?)),
        None => Ok(None),
    }
}

/// The peer's epoch in an envelope: 0 where it isn't known.
fn known_epoch(fsm: &LinkFsm) -> u64
    ensures { result ≡ known fsm.now.peer }
{
    fsm.peer().unwrap_or(0)
}

/// A record, or none, that is as this one.
fn copy_record(early: &Option<Record>) -> Result<Option<Record>, NoMemory>
    ensures { IfOk result (λ copy. copy ≡ early.now) }
{
    match early {
        Some(received) => Ok(Some(received.copy()?)),
        None => Ok(None),
    }
}

/// The record with which a link goes up under this epoch of the peer: the one of that epoch, or a new one.
#[tactic(auto, using(crate::proofs::KeptRecords::kept_same, crate::proofs::KeptRecords::kept_other))]
fn kept_for(alloc: Global, kept: Option<Record>, epoch: u64) -> Record
    ensures { result ≡ kept_for kept epoch }
{
    if let Some(received) = kept {
        if received.epoch() == epoch {
            return received;
        }
    }
    Record::new(alloc, epoch)
}

/// Whether a change took the link down.
pub fn is_down(change: Change) -> bool
    ensures { result ≡ is_down change }
{
    match change {
        Change::Down(_) => true,
        Change::Up => false,
        Change::Stay => false,
        Change::Answer(_) => false,
        Change::Ignore(_) => false,
    }
}

/// Gives a packet to the link states.
fn change_of(
    fsm: &mut LinkFsm,
    header: &Header,
    sender_epoch: u64,
    receiver_epoch: u64,
    held: bool,
) -> Change
    ensures change { result ≡ (outcome_of fsm.old header.now sender_epoch receiver_epoch held).change }
    ensures after { fsm.new ≡ (outcome_of fsm.old header.now sender_epoch receiver_epoch held).after }
{
    match header.content() {
        HeaderContent::Notice(Notice::Reset(_)) => fsm.on_reset(sender_epoch, held),
        HeaderContent::Notice(Notice::Activate(_)) => fsm.on_activate(sender_epoch, receiver_epoch),
        HeaderContent::State(_) | HeaderContent::Numbered => fsm.on_traffic(
            sender_epoch,
            receiver_epoch,
        ),
        HeaderContent::Discovery => Change::Ignore(Why::Epoch),
    }
}

/// What an arrival brought that no session heard.
fn change_outcome(alloc: Global, change: Change) -> LinkOutcome
    ensures { result ≡ change_outcome change }
{
    match change {
        Change::Ignore(why) => LinkOutcome::Ignored(why),
        Change::Stay => LinkOutcome::Took(TakenList::new(alloc)),
        Change::Up => LinkOutcome::Took(TakenList::new(alloc)),
        Change::Down(_) => LinkOutcome::Took(TakenList::new(alloc)),
        Change::Answer(_) => LinkOutcome::Took(TakenList::new(alloc)),
    }
}

/// Whether a link end in this state says RESET.
fn is_reset_unknown(state: LinkState) -> bool
    ensures { result ≡ is_reset_unknown state }
{
    match state {
        LinkState::ResetUnknown => true,
        LinkState::ResetReset => false,
        LinkState::WorkingWorking => false,
        LinkState::WorkingUnknown => false,
        LinkState::Held => false,
    }
}
