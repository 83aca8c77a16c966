//! The receiving record of a link end, which outlives the session that began it.

ghost use Rattle.std.specs.Prelude.{◌≡◌, ◌+◌, ◌≤◌, ◌&&◌, false, true, max, None, IfOk, OnErr, OnOk};
ghost use Rattle.tipc_types.specs.Position.{number_of};
ghost use Rattle.tipc_types.specs.declared.packet_lists.Taken.{Taken};
ghost use Rattle.tipc_header.specs.Spelling.{spelling, view};
ghost use Rattle.tipc_header.specs.Grammar.{Fits};
ghost use Rattle.tipc_recv_window.specs.Receiving.{coming, next_of};

use crate::changeover::is_changeover;
use crate::hearing::{Hearing, waiting_bytes};
use std::alloc::Global;
use std::marker::Model;
use tipc_header::{HeaderContent, Packet};
use tipc_recv_window::{LinkOutcome, RecvWindow, WindowArrival};
use tipc_types::{NoMemory, Taken, TakenList, Why};

/// What was received of a peer under one of its epochs: how many packets were taken, and which are held behind them.
#[derive(Drop)]
pub(crate) struct Record {
    /// The peer's epoch.
    epoch: u64,
    window: RecvWindow,
    /// The position that the peer's next packet will have, as far as the peer has shown.
    shown: u64,
}

impl Model for Record {
    ghost use Rattle.std.specs.Prelude.{◌-◌};
    ghost use Rattle.tipc_link.specs.Records.{Received};
    ghost use Rattle.tipc_link.specs.Hearings.{IsRecord};

    ghost Value = { Received };

    ghost view = { λ r. record {
      epoch = r.epoch;
      taken = r.window.wanted - 1;
      held = r.window.held;
      shown = r.shown;
    } };

    ghost invariant = { λ r. IsRecord r.window r.shown };
}

impl Record {
    ghost use Rattle.tipc_link.specs.Records.{advanced_by, freed, is_early_tunnel, is_next, tunnelled, tunnelled_outcome, unheard, window_of, with_coming};
    ghost use Rattle.tipc_link.specs.Sessions.{as_waiting, brought, content_of, is_numbered};
    ghost use Rattle.tipc_link.specs.Hearings.{IsWindowHearing, numbered_hearing};

    /// A new record of this epoch of the peer: the first packet is wanted.
    pub fn new(alloc: Global, epoch: u64) -> Record
        ensures { result ≡ unheard epoch }
    {
        Record {
            epoch,
            window: RecvWindow::new(alloc, 1),
            shown: 1,
        }
    }

    /// A record that is as this one.
    pub fn copy(&self) -> Result<Record, NoMemory>
        ensures { IfOk result (λ copy. copy ≡ self.now) }
    {
        Ok(Record {
            epoch: self.epoch,
            window: self.window.copy()?,
            shown: self.shown,
        })
    }

    /// The peer's epoch.
    pub fn epoch(&self) -> u64
        ensures { result ≡ self.now.epoch }
    {
        self.epoch
    }

    /// How many packets were taken.
    pub fn taken(&self) -> u64
        ensures { result ≡ self.now.taken }
    {
        self.window.wanted_position() - 1
    }

    /// The receive window.
    pub fn window(&self) -> &RecvWindow
        ensures value { result.now ≡ window_of self.now }
        ensures wants { result.now.wanted ≡ self.now.taken + 1 }
        ensures next { next_of result.now ≡ None }
    {
        &self.window
    }

    /// The position that the peer's next packet will have, as far as the peer has shown.
    pub fn shown(&self) -> u64
        ensures { result ≡ self.now.shown }
    {
        self.shown
    }

    /// The peer showed that its next packet will have this position, at most 32,767 ahead of the wanted one.
    pub fn show(&mut self, position: u64)
        requires { position ≤ self.old.taken + 32768 }
        ensures { self.new ≡ record self.old { shown = max self.old.shown position } }
    {
        self.shown = self.shown.max(position);
    }

    /// What a packet that arrived makes of it. `by` is the arrival's number at this node. A packet that carries nothing
    /// for a link end that is up is ignored with `Epoch`.
    ///
    /// A packet with a number is taken where it is the wanted one, and with it those behind it that are held; it is
    /// deferred where it is one of the next 49, isn't held and is no tunnel packet; else it is ignored with `Old`. A
    /// packet that is taken is given as it waited to be sent. (TIPC 2.0 draft; this project's profile.)
    ///
    /// # Errors
    ///
    /// Where memory runs out for a packet with a number.
    #[tactic(auto, unfolding(crate::specs::Sessions::content_of))]
    pub fn prepare(&self, alloc: Global, packet: &Packet<'_>, by: u64) -> Result<Hearing, NoMemory>
        requires { Fits (view packet.now) }
        ensures by { IfOk result (λ h. h.by ≡ by) }
        ensures hearing { IfOk result (λ h. IsWindowHearing (window_of self.now) (view packet.now) h) }
        ensures numbered { OnErr result (is_numbered packet.now.header ≡ true) }
    {
        match packet.header.content() {
            HeaderContent::Notice(_) | HeaderContent::Discovery => {
                Ok(Hearing::without_window(by, LinkOutcome::Ignored(Why::Epoch)))
            }
            HeaderContent::State(_) => {
                Ok(Hearing::without_window(by, LinkOutcome::Took(TakenList::new(alloc))))
            }
            HeaderContent::Numbered => self.prepare_numbered(alloc, packet, by),
        }
    }

    /// What a packet with a number makes of it: a tunnel packet doesn't wait for those before it.
    fn prepare_numbered(
        &self,
        alloc: Global,
        packet: &Packet<'_>,
        by: u64,
    ) -> Result<Hearing, NoMemory>
        requires { Fits (view packet.now) }
        ensures { IfOk result (λ h. h ≡ numbered_hearing (window_of self.now)
            (brought packet.now.sequence (spelling (as_waiting (view packet.now))) by)) }
    {
        if self.is_early_tunnel(packet, by) {
            return Ok(Hearing::without_window(by, LinkOutcome::Ignored(Why::Old)));
        }
        self.prepare_in_window(alloc, packet, by)
    }

    /// Whether a packet is a tunnel packet, and not the wanted one.
    fn is_early_tunnel(&self, packet: &Packet<'_>, by: u64) -> bool
        requires { Fits (view packet.now) }
        ensures { result ≡ is_early_tunnel (window_of self.now)
            (brought packet.now.sequence (spelling (as_waiting (view packet.now))) by) }
    {
        is_changeover(&packet.header) && packet.sequence != self.window().wanted()
    }

    /// What a packet with a number makes of the receive window.
    fn prepare_in_window(
        &self,
        alloc: Global,
        packet: &Packet<'_>,
        by: u64,
    ) -> Result<Hearing, NoMemory>
        requires fits { Fits (view packet.now) }
        requires waits { is_early_tunnel (window_of self.now)
            (brought packet.now.sequence (spelling (as_waiting (view packet.now))) by) ≡ false }
        ensures { IfOk result (λ h. h ≡ numbered_hearing (window_of self.now)
            (brought packet.now.sequence (spelling (as_waiting (view packet.now))) by)) }
    {
        let number = packet.sequence;
        let taken = Taken {
            number,
            packet: waiting_bytes(alloc, packet)?,
            by,
        };
        let (arrival, due) = self.window().prepare(alloc, taken)?;
        let outcome = LinkOutcome::at(arrival.place(), due);
        Ok(Hearing {
            by,
            window: Some(arrival),
            outcome,
        })
    }

    /// Lets the receive window do what a packet with a number makes of it.
    pub fn commit(&mut self, arrival: WindowArrival)
        requires { (t : Taken) × (arrival ≡ coming (window_of self.old) t) }
        ensures after { (t : Taken) → arrival ≡ coming (window_of self.old) t → self.new ≡ with_coming self.old t }
        ensures more { self.old.taken ≤ self.new.taken }
        ensures free { next_of (window_of self.old) ≡ None }
    {
        self.window.commit(arrival);
    }

    /// Takes a packet of this epoch of the peer that came in a tunnel packet on the other link: the wanted one, with
    /// those behind it that are held. Any other is ignored with `Old`. (This project's profile.)
    ///
    /// # Errors
    ///
    /// Where memory runs out for the wanted packet. Nothing is changed then.
    #[tactic(auto, unfolding(crate::specs::Records::is_next))]
    pub fn receive(
        &mut self,
        alloc: Global,
        epoch: u64,
        packet: Taken,
    ) -> Result<LinkOutcome, NoMemory>
        ensures outcome { IfOk result (λ o. o ≡ tunnelled_outcome self.old epoch packet) }
        ensures after { OnOk result (self.new ≡ tunnelled self.old epoch packet) }
        ensures wanted { OnErr result (is_next self.old epoch packet ≡ true) }
        ensures err { OnErr result (self.new ≡ self.old) }
    {
        if epoch != self.epoch() || packet.number != self.window().wanted() {
            return Ok(LinkOutcome::Ignored(Why::Old));
        }
        Ok(LinkOutcome::Took(self.take_wanted(alloc, packet)?))
    }

    /// Takes the wanted packet, with those behind it that are held.
    fn take_wanted(&mut self, alloc: Global, packet: Taken) -> Result<TakenList, NoMemory>
        requires { packet.number ≡ number_of (self.old.taken + 1) }
        ensures due { IfOk result (λ due. due ≡ freed self.old packet) }
        ensures after { OnOk result (self.new ≡ advanced_by self.old packet) }
        ensures err { OnErr result (self.new ≡ self.old) }
    {
        let (arrival, due) = self.window().prepare(alloc, packet)?;
        self.commit(arrival);
        Ok(due)
    }
}
