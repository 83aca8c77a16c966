//! What a pair of links asks of a link end when traffic changes over from one of them to the other.

ghost use Rattle.std.specs.Prelude.{◌≡◌, ◌≤◌, false, true, is_some, length, option_map, Some, None, All, IfOk, IfSome, OnErr, OnOk};
ghost use Rattle.tipc_types.specs.LinkStates.{is_up};
ghost use Rattle.tipc_outside.specs.Frames.{AddsFirst};
ghost use Rattle.tipc_types.specs.declared.packet_lists.Kept.{Kept};
ghost use Rattle.tipc_types.specs.declared.packet_lists.Taken.{Taken};
ghost use Rattle.tipc_types.specs.declared.link_words.OldSession.{OldSession};
ghost use Rattle.tipc_send_window.specs.Sending.{IsSending, kept_of};
ghost use Rattle.tipc_link_fsm.specs.Table.{on_peer_tunnel, release};
ghost use Rattle.tipc_link.specs.Records.{bytes_of, is_changeover, is_next, is_tunnel, named, tunnelled, tunnelled_outcome};
ghost use Rattle.tipc_link.specs.Links.{is_answer};
ghost use Rattle.tipc_link.specs.Sessions.{IsWaiting, SessionEnd};
ghost use Rattle.tipc_link.specs.Hearings.{HoldsNone};

use crate::link::Link;
use crate::record::Record;
use std::alloc::Global;
use tipc_header::{CHANGEOVER_USER, Header, decode, user_number};
use tipc_link_fsm::Change;
use tipc_outside::Outbox;
use tipc_recv_window::LinkOutcome;
use tipc_types::{Addr, Bytes, Kept, KeptList, NoMemory, OldSession, Pieces, Taken};

/// What a link that went down had in its lists.
#[derive(Drop)]
pub struct HandedOver {
    /// The unacknowledged packets in order, beside their numbers.
    pub unacked: KeptList,
    /// The packets that waited, in order.
    pub waiting: Pieces,
    /// The session in which the unacknowledged ones were numbered.
    pub old: OldSession,
    /// The node that sent them.
    pub own: Addr,
}

impl Link {
    ghost use Rattle.tipc_types.specs.Limits.{window_size};
    ghost use Rattle.tipc_link.specs.Links.{handed_over, name_of, named_end, record_of, release_frames, tunnelled_down, tunnelled_end, tunnels_of, unacked_of, waiting_of, with_fsm, without_waiting};

    /// Gives the packets of a link that went down, unacknowledged and waiting, and the session in which they were
    /// numbered. The end keeps them until this call. (This project's profile.)
    pub fn hand_over(&mut self) -> HandedOver
        requires down { is_up self.old.fsm.state ≡ false }
        requires session { is_some self.old.session ≡ true }
        ensures handed { (s : SessionEnd) → self.old.session ≡ Some s →
            (result.unacked ≡ kept_of s.sending) × (result.waiting ≡ s.sending.waiting)
            × (result.old.bearer ≡ s.bearer) × (result.old.epoch ≡ s.epoch) × (result.own.word ≡ s.own) }
        ensures after { self.new ≡ handed_over self.old }
        ensures bearer { result.old.bearer ≤ 1 }
        ensures few { length result.unacked ≤ window_size }
        ensures window { (s : SessionEnd) → self.old.session ≡ Some s → IsSending s.sending }
        // Each may be put on the other link, as it is or in a tunnel packet.
        ensures waited { All (λ (k : Kept). IsWaiting k.packet) result.unacked }
        ensures wait { All IsWaiting result.waiting }
    {
        match &mut self.session {
            Some(session) => session.hand_over(),
            None => unreachable!(),
        }
    }

    /// Gives the packets that wait on the link, in order; none where there was no session. (This project's profile.)
    pub fn take_waiting(&mut self, alloc: Global) -> Pieces
        ensures given { result ≡ waiting_of self.old.session }
        ensures after { self.new ≡ without_waiting self.old }
        ensures wait { All IsWaiting result }
    {
        match &mut self.session {
            Some(session) => session.take_waiting(),
            None => Pieces::new(alloc),
        }
    }

    /// The unacknowledged packets in order, beside their numbers: of the present session, or the last one. Each may be
    /// put into a tunnel packet, or is one. None where there was no session. (This project's profile.)
    pub fn unacked(&self) -> &[Kept]
        ensures kept { result.now ≡ unacked_of self.now.session }
        ensures few { length result.now ≤ window_size }
        ensures waited { All (λ (k : Kept). IsWaiting k.packet) result.now }
    {
        match &self.session {
            Some(session) => session.unacked(),
            None => &[],
        }
    }

    /// The session in which those packets have their numbers, by its bearer and the end's own epoch. None exactly where
    /// there was no session.
    pub fn session(&self) -> Option<OldSession>
        ensures value { result ≡ option_map name_of self.now.session }
        ensures bearer { IfSome result (λ (o : OldSession). o.bearer ≤ 1) }
    {
        match &self.session {
            Some(session) => Some(session.name()),
            None => None,
        }
    }

    /// How many of the unacknowledged and the waiting packets are tunnel packets; counted up to 4,294,967,295.
    pub fn tunnels(&self) -> u32
        ensures { result ≡ tunnels_of self.now.session }
    {
        match &self.session {
            Some(session) => session.tunnels(),
            None => 0,
        }
    }

    /// An original tunnel packet on the other link names this epoch of the peer: a link that is up under it goes down
    /// by the cause PeerTunnel, and is Held, since the other link is up. (This project's profile.)
    pub fn peer_tunnel(&mut self, epoch: u64) -> Change
        ensures change { result ≡ (on_peer_tunnel self.old.fsm epoch).change }
        ensures after { self.new ≡ tunnelled_down self.old epoch }
    {
        self.fsm.on_peer_tunnel(epoch)
    }

    /// The other link has no tunnel packet any more: an end that is Held is released, and sends RESET. (This project's
    /// profile.)
    #[tactic(auto, using(tipc_outside::proofs::Adding::gains_none))]
    pub fn release(&mut self, alloc: Global, out: &mut Outbox) -> Change
        ensures change { result ≡ (release self.old.fsm).change }
        ensures after { self.new ≡ with_fsm self.old (release self.old.fsm).after }
        ensures frames { AddsFirst out.old out.new (release_frames self.old) }
    {
        let change = self.fsm.release();
        if is_answer(change) {
            self.send_reset(alloc, out);
        }
        change
    }

    /// A tunnel packet on the other link names this epoch of the peer: where that is above the receiving record's, and
    /// where there is no record, a new one is made, of which the first packet is wanted. (This project's profile.)
    pub fn name_epoch(&mut self, alloc: Global, epoch: u64)
        ensures { self.new ≡ named_end self.old epoch }
    {
        match &mut self.session {
            Some(session) => session.name_epoch(alloc, epoch),
            None => name_early(alloc, &mut self.early, epoch),
        }
    }

    /// Takes a packet with a number that came in a tunnel packet on the other link, which names this epoch of the peer;
    /// None stands for a placeholder, which has no bytes. `by` is the arrival's number at this node.
    ///
    /// The epoch is named first, as by [`Link::name_epoch`]. A packet of the record's epoch is taken where it is the
    /// wanted one, and with it those behind it that are held. Any other is ignored with `Old`: none is deferred. (This
    /// project's profile.)
    ///
    /// # Errors
    ///
    /// Where memory runs out for the wanted packet. Nothing is changed then.
    pub fn take_tunnelled(
        &mut self,
        alloc: Global,
        epoch: u64,
        number: u16,
        inner: Option<Bytes>,
        by: u64,
    ) -> Result<LinkOutcome, NoMemory>
        ensures outcome { IfOk result (λ o.
            o ≡ tunnelled_outcome (named (record_of self.old) epoch) epoch
            (record { number = number; packet = bytes_of inner; by = by })) }
        ensures after { OnOk result
            (self.new ≡ tunnelled_end self.old epoch (record { number = number; packet = bytes_of inner; by = by })) }
        ensures wanted { OnErr result (is_next (named (record_of self.old) epoch) epoch
            (record { number = number; packet = bytes_of inner; by = by }) ≡ true) }
        ensures err { OnErr result (self.new ≡ self.old) }
    {
        let packet = Taken {
            number,
            packet: bytes_or_none(alloc, inner),
            by,
        };
        match &mut self.session {
            Some(session) => session.take_tunnelled(alloc, epoch, packet),
            None => take_early(alloc, &mut self.early, epoch, packet),
        }
    }
}

/// Whether a change asks for a frame.
fn is_answer(change: Change) -> bool
    ensures { result ≡ is_answer change }
{
    match change {
        Change::Answer(_) => true,
        Change::Up => false,
        Change::Stay => false,
        Change::Down(_) => false,
        Change::Ignore(_) => false,
    }
}

/// The bytes of an inner packet: a placeholder has none.
fn bytes_or_none(alloc: Global, inner: Option<Bytes>) -> Bytes
    ensures { result ≡ bytes_of inner }
{
    match inner {
        Some(packet) => packet,
        None => Bytes::new(alloc),
    }
}

/// Makes a new record where there is none, or one of a lower epoch.
#[tactic(auto, using(crate::proofs::Takings::named_above, crate::proofs::Takings::named_below, crate::proofs::Takings::named_none))]
fn name_early(alloc: Global, early: &mut Option<Record>, epoch: u64)
    ensures after { early.new ≡ Some (named early.old epoch) }
    ensures held { HoldsNone early.old → HoldsNone early.new }
{
    let below = match early {
        Some(kept) => kept.epoch() < epoch,
        None => true,
    };
    if below {
        *early = Some(Record::new(alloc, epoch));
    }
}

/// Takes a packet of a tunnel packet where there was no session.
#[tactic(auto, using(crate::proofs::Takings::named_above, crate::proofs::Takings::named_below, crate::proofs::Takings::named_none, crate::proofs::Takings::tunnelled_none))]
fn take_early(
    alloc: Global,
    early: &mut Option<Record>,
    epoch: u64,
    packet: Taken,
) -> Result<LinkOutcome, NoMemory>
    ensures outcome { IfOk result (λ o. o ≡ tunnelled_outcome (named early.old epoch) epoch packet) }
    ensures after { OnOk result (early.new ≡ Some (tunnelled (named early.old epoch) epoch packet)) }
    ensures wanted { OnErr result (is_next (named early.old epoch) epoch packet ≡ true) }
    ensures held { HoldsNone early.old → HoldsNone early.new }
    ensures err { OnErr result (early.new ≡ early.old) }
{
    if let Some(kept) = early {
        if kept.epoch() >= epoch {
            return kept.receive(alloc, epoch, packet);
        }
    }
    let mut new = Record::new(alloc, epoch);
    let outcome = new.receive(alloc, epoch, packet)?;
    *early = Some(new);
    Ok(outcome)
}

/// Whether the bytes are a tunnel packet, as they are decoded.
#[tactic(auto, unfolding(crate::specs::Records::is_tunnel))]
fn is_decoded_tunnel(packet: &[u8]) -> bool
    ensures { result ≡ is_tunnel packet.now }
{
    match decode(packet) {
        Ok(packet) => is_changeover(&packet.header),
        Err(_) => false,
    }
}

/// Whether the bytes are a tunnel packet. Those that name another user aren't decoded.
#[tactic(auto, using(crate::proofs::TunnelUsers::no_tunnel))]
pub fn is_tunnel(packet: &[u8]) -> bool
    ensures { result ≡ is_tunnel packet.now }
{
    if packet.len() >= 4 && user_number(packet) != CHANGEOVER_USER {
        return false;
    }
    is_decoded_tunnel(packet)
}

/// Whether a packet is a tunnel packet.
pub(crate) fn is_changeover(header: &Header) -> bool
    ensures { result ≡ is_changeover header.now }
{
    matches!(header, Header::Changeover(_))
}
