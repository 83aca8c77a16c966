//! Packets that arrive, as a link and its session take them: what is sent again leaves before what moves up.

ghost use Rattle.std.specs.Prelude.{◌≡◌, Some, true, IfOk, OnErr, OnOk};
ghost use Rattle.tipc_types.specs.declared.packet_lists.Taken.{Taken};
ghost use Rattle.tipc_header.specs.Spelling.{view};
ghost use Rattle.tipc_header.specs.Grammar.{Fits};
ghost use Rattle.tipc_outside.specs.Frames.{Adds, AddsFirst, Gains};
ghost use Rattle.tipc_link.specs.Links.{is_heard, outcome_of};
ghost use Rattle.tipc_link.specs.Sessions.{SessionEnd, content_of, is_numbered};
ghost use Rattle.tipc_link.specs.Hearings.{IsArriving, IsHearing};

use crate::arriving::Arriving;
use crate::hearing::{Hearing, is_heard};
use crate::link::{Link, LinkArrival};
use crate::session::Session;
use std::alloc::Global;
use tipc_header::{HeaderContent, Packet, State};
use tipc_outside::Outbox;
use tipc_recv_window::LinkOutcome;
use tipc_types::{BroadcastState, NoMemory};

impl Session {
    ghost use Rattle.tipc_link.specs.Sessions.{again_frames, arrival_frames, arrived, heard, moved_at, moved_frames, outcome, receiving, after_acknowledgement, took, Content};
    ghost use Rattle.tipc_link.specs.Hearings.{coming_of};

    /// Takes a packet that arrived in this session, as it was prepared: the acknowledgement is read first, and packets
    /// that the peer misses are sent again; then what moves up is sent.
    pub fn hear(
        &mut self,
        alloc: Global,
        hearing: Hearing,
        packet: &Packet<'_>,
        out: &mut Outbox,
    ) -> LinkOutcome
        requires { IsHearing self.old (view packet.now) hearing }
        ensures answer { result ≡ outcome self.old hearing.by (content_of (view packet.now)) }
        ensures after { self.new ≡ arrived self.old hearing.by packet.now.acknowledgement
            (content_of (view packet.now)) }
        ensures frames { Gains out.old out.new (arrival_frames self.old hearing.by packet.now.acknowledgement
            (content_of (view packet.now))) }
    {
        let outcome = self.take_in(alloc, hearing, packet, out);
        self.move_up(alloc, packet, out);
        outcome
    }

    /// Sends what moves up once this packet was taken: nothing, where it is none of a session.
    #[tactic(auto, using(tipc_outside::proofs::Adding::gains_none), unfolding(crate::specs::Sessions::content_of))]
    fn move_up(&mut self, alloc: Global, packet: &Packet<'_>, out: &mut Outbox)
        ensures after { self.new ≡ moved_at (content_of (view packet.now)) self.old }
        ensures frames { Adds out.old out.new (moved_frames (content_of (view packet.now)) self.old) }
    {
        match packet.header.content() {
            HeaderContent::Notice(_) | HeaderContent::Discovery => {}
            HeaderContent::State(_) | HeaderContent::Numbered => self.flush(alloc, out),
        }
    }

    /// Takes such a packet, and sends again what the peer misses. Nothing moves up yet.
    #[tactic(auto, using(tipc_outside::proofs::Adding::gains_none), unfolding(crate::specs::Sessions::content_of))]
    fn take_in(
        &mut self,
        alloc: Global,
        hearing: Hearing,
        packet: &Packet<'_>,
        out: &mut Outbox,
    ) -> LinkOutcome
        requires { IsHearing self.old (view packet.now) hearing }
        ensures answer { result ≡ outcome self.old hearing.by (content_of (view packet.now)) }
        ensures after { self.new ≡ heard self.old hearing.by packet.now.acknowledgement (content_of (view packet.now)) }
        ensures frames { AddsFirst out.old out.new (again_frames self.old packet.now.acknowledgement
            (content_of (view packet.now))) }
    {
        match packet.header.content() {
            HeaderContent::Notice(_) | HeaderContent::Discovery => hearing.outcome,
            HeaderContent::State(state) => {
                self.hear_state(alloc, packet.acknowledgement, &state, out);
                hearing.outcome
            }
            HeaderContent::Numbered => self.hear_numbered(packet.acknowledgement, hearing),
        }
    }

    /// Takes a STATE.
    fn hear_state(&mut self, alloc: Global, acknowledgement: u16, state: &State, out: &mut Outbox)
        ensures after { self.new ≡ heard self.old 0 acknowledgement
            (Content.Shows state.now.next state.now.gap state.now.probe) }
        ensures frames { AddsFirst out.old out.new (again_frames self.old acknowledgement
            (Content.Shows state.now.next state.now.gap state.now.probe)) }
    {
        self.acknowledge(acknowledgement);
        self.repeat(alloc, acknowledgement, state.gap, out);
        self.note(state.next, state.probe);
    }

    /// Takes a packet with a number.
    fn hear_numbered(&mut self, acknowledgement: u16, hearing: Hearing) -> LinkOutcome
        requires { (t : Taken) × (hearing.window ≡ coming_of (receiving self.old) t) }
        ensures answer { result ≡ hearing.outcome }
        ensures after { (t : Taken) → hearing.window ≡ coming_of (receiving self.old) t →
            self.new ≡ took (after_acknowledgement self.old acknowledgement) t }
    {
        let Hearing {
            window,
            outcome,
            ..
        } = hearing;
        self.take_or_pass(window);
        self.acknowledge(acknowledgement);
        outcome
    }
}

impl Link {
    ghost use Rattle.tipc_link.specs.Links.{arrival_end, heard_by, heard_end, link_frames, link_outcome};

    /// Takes a packet that arrived, as [`Link::prepare`] told of it when the link was as it is. `shown` fills the
    /// broadcast fields of a STATE that is sent.
    ///
    /// What becomes of the link's state is told again, and what the session took. After Down(PeerReset) without another
    /// link that is up the contact ends, and then the same RESET is to be given again. Frames of link states and
    /// packets that are sent again leave first, and behind them the packets that are numbered then. (This project's
    /// profile.)
    pub fn commit(
        &mut self,
        alloc: Global,
        arriving: Arriving,
        packet: &Packet<'_>,
        shown: BroadcastState,
        out: &mut Outbox,
    ) -> LinkArrival
        requires { IsArriving self.old (view packet.now) arriving }
        ensures change { result.change ≡ arriving.states.change }
        ensures outcome { result.outcome ≡ link_outcome self.old arriving.states (view packet.now) arriving.hearing.by }
        ensures after { self.new ≡ arrival_end self.old arriving.states (view packet.now) arriving.hearing.by }
        ensures frames { Gains out.old out.new (link_frames self.old arriving.states
            (view packet.now) arriving.hearing.by shown) }
    {
        let change = arriving.change;
        self.fsm = arriving.fsm;
        self.follow(alloc, change, shown, out);
        let outcome = if is_heard(&packet.header, change) {
            self.hear(alloc, arriving.hearing, packet, out)
        } else {
            arriving.hearing.into_outcome()
        };
        LinkArrival { change, outcome }
    }

    /// Takes a packet that arrived under an envelope of these two epochs: [`Link::prepare`] and [`Link::commit`] in one
    /// call.
    ///
    /// # Errors
    ///
    /// Where memory runs out for a packet with a number that the session hears. Nothing is changed then, and nothing is
    /// sent.
    pub fn arrive(
        &mut self,
        alloc: Global,
        sender_epoch: u64,
        receiver_epoch: u64,
        packet: &Packet<'_>,
        held: bool,
        by: u64,
        shown: BroadcastState,
        out: &mut Outbox,
    ) -> Result<LinkArrival, NoMemory>
        requires { Fits (view packet.now) }
        ensures change { IfOk result (λ a. a.change ≡ (outcome_of self.old.fsm packet.now.header sender_epoch
            receiver_epoch held).change) }
        ensures outcome { IfOk result (λ a. a.outcome ≡ link_outcome self.old
            (outcome_of self.old.fsm packet.now.header sender_epoch receiver_epoch held) (view packet.now) by) }
        ensures after { OnOk result (self.new ≡ arrival_end self.old
            (outcome_of self.old.fsm packet.now.header sender_epoch receiver_epoch held) (view packet.now) by) }
        ensures frames { OnOk result (Gains out.old out.new
            (link_frames self.old (outcome_of self.old.fsm packet.now.header sender_epoch receiver_epoch held)
            (view packet.now) by shown)) }
        ensures heard_only { OnErr result
            (is_heard packet.now.header (outcome_of self.old.fsm packet.now.header sender_epoch receiver_epoch
            held).change ≡ true) }
        ensures numbered { OnErr result (is_numbered packet.now.header ≡ true) }
        ensures err { OnErr result ((self.new ≡ self.old) × (out.new ≡ out.old)) }
    {
        let arriving = self.prepare(alloc, sender_epoch, receiver_epoch, packet, held, by)?;
        Ok(self.commit(alloc, arriving, packet, shown, out))
    }

    /// Gives a packet to the session that there is.
    #[tactic(auto, using(tipc_outside::proofs::Adding::gains_none))]
    fn hear(
        &mut self,
        alloc: Global,
        hearing: Hearing,
        packet: &Packet<'_>,
        out: &mut Outbox,
    ) -> LinkOutcome
        requires { (s : SessionEnd) → self.old.session ≡ Some s → IsHearing s (view packet.now) hearing }
        ensures outcome { result ≡ hearing.outcome }
        ensures after { self.new ≡ heard_end self.old hearing.by packet.now.acknowledgement
            (content_of (view packet.now)) }
        ensures frames { Gains out.old out.new (heard_by self.old.session hearing.by packet.now.acknowledgement
            (content_of (view packet.now))) }
    {
        match &mut self.session {
            Some(session) => session.hear(alloc, hearing, packet, out),
            None => hearing.into_outcome(),
        }
    }
}
