//! The state of a link end, and the table of its changes.

ghost use Rattle.std.specs.Prelude.{◌≡◌, ◌&&◌, ◌≤◌, ◌↔◌, true, false, not};
ghost use Rattle.tipc_types.specs.LinkStates.{is_up};
ghost use Rattle.tipc_link_fsm.specs.Table.{fresh, is_in_reset, is_held, is_last, is_peer, is_session, next_epoch, lowered, apart, forgot_peer, heard, up_tick, on_reset, on_activate, on_traffic, on_tick, on_cut, on_peer_tunnel, release, forget_peer, contact_ended};
ghost use Rattle.tipc_link_fsm.specs.Ends.{IsSound};

use crate::changes::Change;
use std::marker::Model;
use tipc_types::{Cause, LinkState, NoMemory, Reply, Why};

/// After so many ticks without a word from the peer a link goes down at the next one.
const MOST_SILENT_TICKS: u8 = 4;

/// One end of a link: its own epoch, the peer's epoch or none, the highest epoch of the peer that was taken,
/// its state and its silent count. (States: TIPC 2.0 draft; epochs, Held and the silent count: this project's
/// profile.)
///
/// An epoch has the boot number in its upper 32 bits and a count in its lower ones. An arriving frame has two: its
/// sender's own (`sender_epoch`), and the receiver's as the sender knows it (`receiver_epoch`).
#[derive(Drop)]
pub struct LinkFsm {
    own: u64,
    peer: Option<u64>,
    highest: u64,
    state: LinkState,
    silent: u8,
}

impl Model for LinkFsm {
    ghost use Rattle.tipc_link_fsm.specs.Table.{Fsm};
    ghost use Rattle.tipc_link_fsm.specs.Ends.{IsSound};

    ghost Value = { Fsm };

    ghost view = { λ f. record {
      own = f.own;
      peer = f.peer;
      highest = f.highest;
      state = f.state;
      silent = f.silent;
    } };

    ghost invariant = { λ f.
        IsSound (record { own = f.own; peer = f.peer; highest = f.highest; state = f.state; silent = f.silent }) };
}

impl LinkFsm {
    /// A link end in RESET_UNKNOWN with this epoch, which knows no epoch of the peer.
    pub fn new(epoch: u64) -> LinkFsm
        ensures { result ≡ fresh epoch }
    {
        LinkFsm {
            own: epoch,
            peer: None,
            highest: 0,
            state: LinkState::ResetUnknown,
            silent: 0,
        }
    }

    /// An equal value. It takes no memory.
    pub fn copy(&self) -> Result<LinkFsm, NoMemory>
        ensures { result ≡ Ok self.now }
    {
        Ok(LinkFsm {
            own: self.own,
            peer: self.peer,
            highest: self.highest,
            state: self.state,
            silent: self.silent,
        })
    }

    /// A RESET arrived. `held` says that the pair's other link is up, so that an end that goes down is Held.
    ///
    /// After Down(PeerReset) without `held` the contact ends, and then the same RESET is to be given again.
    #[tactic(auto, unfolding(crate::specs::Table::on_reset))]
    pub fn on_reset(&mut self, sender_epoch: u64, held: bool) -> Change
        ensures after { self.new ≡ (on_reset self.old sender_epoch held).after }
        ensures change { result ≡ (on_reset self.old sender_epoch held).change }
    {
        if is_held(self.state) {
            return Change::Ignore(Why::Held);
        }
        if sender_epoch < self.highest || self.state.is_up() && self.is_peer(sender_epoch) {
            return Change::Ignore(Why::Epoch);
        }
        if self.state.is_up() {
            self.lower(held);
            return Change::Down(Cause::PeerReset);
        }
        self.peer = Some(sender_epoch);
        self.highest = sender_epoch;
        self.state = LinkState::ResetReset;
        Change::Answer(Reply::Activate)
    }

    /// An ACTIVATE arrived.
    #[tactic(auto, unfolding(crate::specs::Table::on_activate))]
    pub fn on_activate(&mut self, sender_epoch: u64, receiver_epoch: u64) -> Change
        ensures after { self.new ≡ (on_activate self.old sender_epoch receiver_epoch).after }
        ensures change { result ≡ (on_activate self.old sender_epoch receiver_epoch).change }
    {
        if is_held(self.state) {
            return Change::Ignore(Why::Held);
        }
        if self.may_go_up() && receiver_epoch == self.own && sender_epoch >= self.highest {
            self.peer = Some(sender_epoch);
            self.highest = sender_epoch;
            self.state = LinkState::WorkingWorking;
            return Change::Up;
        }
        if self.state.is_up() && self.is_session(sender_epoch, receiver_epoch) {
            self.hear();
            return Change::Stay;
        }
        Change::Ignore(Why::Epoch)
    }

    /// A STATE or a numbered packet arrived. It is taken by the link where the answer is Up or Stay.
    #[tactic(auto, unfolding(crate::specs::Table::on_traffic))]
    pub fn on_traffic(&mut self, sender_epoch: u64, receiver_epoch: u64) -> Change
        ensures after { self.new ≡ (on_traffic self.old sender_epoch receiver_epoch).after }
        ensures change { result ≡ (on_traffic self.old sender_epoch receiver_epoch).change }
    {
        if !self.is_session(sender_epoch, receiver_epoch) {
            return Change::Ignore(Why::Epoch);
        }
        if self.state == LinkState::ResetReset && self.may_go_up() {
            self.state = LinkState::WorkingWorking;
            return Change::Up;
        }
        if self.state.is_up() {
            self.hear();
            return Change::Stay;
        }
        Change::Ignore(Why::Epoch)
    }

    /// A tick. `held` says that the pair's other link is up.
    #[tactic(auto, unfolding(crate::specs::Table::on_tick))]
    pub fn on_tick(&mut self, held: bool) -> Change
        ensures after { self.new ≡ (on_tick self.old held).after }
        ensures change { result ≡ (on_tick self.old held).change }
    {
        match self.state {
            LinkState::ResetUnknown => Change::Answer(Reply::Reset),
            LinkState::ResetReset => Change::Answer(Reply::Activate),
            LinkState::Held => Change::Stay,
            LinkState::WorkingWorking | LinkState::WorkingUnknown => self.up_tick(held),
        }
    }

    /// The bearer was cut at this node. `held` says that the pair's other link is up.
    #[tactic(auto, unfolding(crate::specs::Table::on_cut))]
    pub fn on_cut(&mut self, held: bool) -> Change
        ensures after { self.new ≡ (on_cut self.old held).after }
        ensures change { result ≡ (on_cut self.old held).change }
    {
        if !self.state.is_up() {
            return Change::Stay;
        }
        self.lower(held);
        Change::Down(Cause::Cut)
    }

    /// An original tunnel packet of this link, with this epoch of the peer, came on the pair's other link.
    #[tactic(auto, unfolding(crate::specs::Table::on_peer_tunnel))]
    pub fn on_peer_tunnel(&mut self, epoch: u64) -> Change
        ensures after { self.new ≡ (on_peer_tunnel self.old epoch).after }
        ensures change { result ≡ (on_peer_tunnel self.old epoch).change }
    {
        if !(self.state.is_up() && self.is_peer(epoch)) {
            return Change::Stay;
        }
        self.lower(true);
        Change::Down(Cause::PeerTunnel)
    }

    /// The pair's other link has no tunnel packet any more: a Held end is released.
    #[tactic(auto, unfolding(crate::specs::Table::release))]
    pub fn release(&mut self) -> Change
        ensures after { self.new ≡ (release self.old).after }
        ensures change { result ≡ (release self.old).change }
    {
        if !is_held(self.state) {
            return Change::Stay;
        }
        self.state = LinkState::ResetUnknown;
        Change::Answer(Reply::Reset)
    }

    /// The peer showed a higher contact number while there was no contact. An end that is up, which
    /// has a contact, goes down as by `contact_ended`.
    #[tactic(auto, unfolding(crate::specs::Table::forget_peer, crate::specs::Table::contact_ended))]
    pub fn forget_peer(&mut self) -> Change
        ensures after { self.new ≡ (forget_peer self.old).after }
        ensures change { result ≡ (forget_peer self.old).change }
    {
        if self.state.is_up() {
            return self.contact_ended();
        }
        self.forget();
        Change::Stay
    }

    /// The contact with the peer ended. A RESET is to be sent after either answer.
    #[tactic(auto, unfolding(crate::specs::Table::contact_ended))]
    pub fn contact_ended(&mut self) -> Change
        ensures after { self.new ≡ (contact_ended self.old).after }
        ensures change { result ≡ (contact_ended self.old).change }
    {
        let was_up = self.state.is_up();
        self.part();
        if was_up {
            Change::Down(Cause::ContactEnded)
        } else {
            Change::Answer(Reply::Reset)
        }
    }

    /// Its own epoch.
    pub fn own(&self) -> u64
        ensures { result ≡ self.now.own }
    {
        self.own
    }

    /// The peer's epoch, where it is known.
    pub fn peer(&self) -> Option<u64>
        ensures { result ≡ self.now.peer }
    {
        self.peer
    }

    /// Its state.
    pub fn state(&self) -> LinkState
        ensures value { result ≡ self.now.state }
        ensures sound { IsSound self.now }
    {
        self.state
    }

    /// For how many ticks the peer wasn't heard, at most 4. It is at least 2 exactly in WORKING_UNKNOWN.
    pub fn silent(&self) -> u8
        ensures value { result ≡ self.now.silent }
        ensures bound { result ≤ 4 }
        ensures unknown { (2 ≤ result) ↔ (self.now.state ≡ LinkState.WorkingUnknown) }
    {
        self.silent
    }

    /// Whether the peer's epoch is known and is this one.
    fn is_peer(&self, sender_epoch: u64) -> bool
        ensures { result ≡ is_peer self.now.peer sender_epoch }
    {
        match self.peer {
            Some(peer) => peer == sender_epoch,
            None => false,
        }
    }

    /// Whether the two epochs of a frame are those of the session.
    fn is_session(&self, sender_epoch: u64, receiver_epoch: u64) -> bool
        ensures { result ≡ is_session self.now sender_epoch receiver_epoch }
    {
        self.is_peer(sender_epoch) && receiver_epoch == self.own
    }

    /// Whether it is in reset, and may go up under its own epoch.
    fn may_go_up(&self) -> bool
        ensures { result ≡ (is_in_reset self.now.state && not (is_last self.now.own)) }
    {
        matches!(self.state, LinkState::ResetUnknown | LinkState::ResetReset) && !is_last(self.own)
    }

    /// Takes it down.
    fn lower(&mut self, held: bool)
        ensures { self.new ≡ lowered self.old held }
    {
        self.own = next_epoch(self.own);
        self.state = if held {
            LinkState::Held
        } else {
            LinkState::ResetUnknown
        };
        self.silent = 0;
    }

    /// Ends its contact.
    fn part(&mut self)
        ensures { self.new ≡ apart self.old }
    {
        self.lower(false);
        self.forget();
    }

    /// Forgets the peer's epoch.
    fn forget(&mut self)
        requires { is_up self.old.state ≡ false }
        ensures { self.new ≡ forgot_peer self.old }
    {
        self.peer = None;
        self.state = LinkState::ResetUnknown;
    }

    /// Notes that the peer of an up end was heard.
    fn hear(&mut self)
        requires { is_up self.old.state ≡ true }
        ensures { self.new ≡ heard self.old }
    {
        self.state = LinkState::WorkingWorking;
        self.silent = 0;
    }

    /// A tick at an up end.
    fn up_tick(&mut self, held: bool) -> Change
        requires { is_up self.old.state ≡ true }
        ensures after { self.new ≡ (up_tick self.old held).after }
        ensures change { result ≡ (up_tick self.old held).change }
    {
        if self.silent == MOST_SILENT_TICKS {
            self.lower(held);
            return Change::Down(Cause::Silent);
        }
        let probe = self.silent >= 1;
        self.state = if probe {
            LinkState::WorkingUnknown
        } else {
            LinkState::WorkingWorking
        };
        self.silent += 1;
        Change::Answer(Reply::State { probe })
    }
}

/// Whether a link end in this state is held.
fn is_held(state: LinkState) -> bool
    ensures { result ≡ is_held state }
{
    state == LinkState::Held
}

/// Whether an epoch is the last of its boot: its count is at its greatest.
#[tactic(auto, unfolding(crate::specs::Table::is_last))]
fn is_last(epoch: u64) -> bool
    ensures { result ≡ is_last epoch }
{
    epoch % 4_294_967_296 == 4_294_967_295
}

/// The epoch after this one; the last of a boot is kept.
#[tactic(auto, unfolding(crate::specs::Table::is_last))]
fn next_epoch(epoch: u64) -> u64
    ensures { result ≡ next_epoch epoch }
{
    if is_last(epoch) { epoch } else { epoch + 1 }
}
