//! What follows when a link of a pair went up or down: contact begins and ends, failover, switch and release.

ghost use Rattle.std.specs.Prelude.{◌≡◌, ◌+◌, ◌≤◌, [], ◌∷◌, ◌++◌, true, false, ℕ, List, Some, None, is_some, option_map, All, IfSome, IfOk, OnErr, OnOk};
ghost use Rattle.std.specs.List.{flat_map};
ghost use Rattle.tipc_types.specs.LinkStates.{is_up};
ghost use Rattle.tipc_outside.specs.Frames.{Adds, AddsFirst};
ghost use Rattle.tipc_link_fsm.specs.Table.{is_last};
ghost use Rattle.tipc_link.specs.Links.{LinkEnd, handed_over, reset_frames, without_waiting};
ghost use Rattle.tipc_link.specs.Sessions.{SessionEnd, IsWaiting, flush_frames, put};
ghost use Rattle.tipc_pair.specs.Changeovers.{ended_with, forgetting, is_clear, let_go, let_go_frames, loaded, parted_end, shown_with, up_told};
ghost use Rattle.tipc_pair.specs.Facing.{is_up_at, made_of, state_of};
ghost use Rattle.tipc_pair.specs.PairFacts.{HasChanged, IsSessionOn};
ghost use Rattle.tipc_pair.specs.Runs.{left_by, taken_over, BeginsWithTunnel, IsListed};
ghost use Rattle.tipc_send_window.specs.Sending.{kept_of};

use crate::leaving::Leaving;
use crate::link_ends::{LinkEnds, is_held, is_up, state_of};
use crate::runs::{add_all, add_plain, run_of};
use crate::transitions::Transition;
use std::alloc::Global;
use tipc_contact::Contact;
use tipc_link::{HandedOver, Link};
use tipc_link_fsm::Change;
use tipc_outside::Outbox;
use tipc_reassembly::Reassembly;
use tipc_tunnel::TunnelKind;
use tipc_types::{Cause, LinkState, NoMemory, Pieces};

impl LinkEnds {
    ghost use Rattle.tipc_pair.specs.Changeovers.{contact_begins, contact_ends, fail_over, following, forgotten, gone_down, gone_up, parted, release_near, released, risen, switch};
    ghost use Rattle.tipc_pair.specs.Courses.{AddsCourse};
    ghost use Rattle.tipc_pair.specs.Facing.{in_contact};

    /// Does what a change of the near link asks for. `epoch` is the one that the peer's frame showed, where a frame did
    /// it.
    ///
    /// # Errors
    ///
    /// Where memory runs out. The pair may be in any state then.
    #[tactic(auto, using(tipc_outside::proofs::Adding::gains_none))]
    pub(crate) fn follow(
        &mut self,
        alloc: Global,
        change: Change,
        epoch: u64,
        event: &mut Leaving,
    ) -> Result<(), NoMemory>
        requires { HasChanged self.old change }
        ensures after { OnOk result (self.new ≡ (following self.old change epoch).pair) }
        ensures adds { OnOk result (AddsCourse event.old event.new (following self.old change epoch)) }
    {
        match change {
            Change::Up => self.go_up(alloc, event),
            Change::Down(cause) => self.go_down(alloc, cause, epoch, event),
            Change::Stay => Ok(()),
            Change::Answer(_) => Ok(()),
            Change::Ignore(_) => Ok(()),
        }
    }

    /// The near link went up.
    fn go_up(&mut self, alloc: Global, event: &mut Leaving) -> Result<(), NoMemory>
        requires { is_up_at self.old.near ≡ true }
        ensures after { OnOk result (self.new ≡ (following self.old Change.Up 0).pair) }
        ensures adds { OnOk result (AddsCourse event.old event.new (following self.old Change.Up 0)) }
    {
        event.tell(self.up_told())?;
        self.begin_or_switch(alloc, event)
    }

    /// What is told of a near link that went up.
    fn up_told(&self) -> Transition
        ensures { result ≡ up_told self.now.bearer self.now.near }
    {
        let (own_epoch, peer_epoch) = match &self.near {
            Some(link) => (link.own_epoch(), link.peer_epoch().unwrap_or(0)),
            None => (0, 0),
        };
        Transition::LinkUp {
            bearer: self.bearer,
            own_epoch,
            peer_epoch,
        }
    }

    /// The first link that goes up begins the contact. A second one takes the traffic over where its priority is the
    /// higher one, which is bearer 0's.
    #[tactic(auto, using(tipc_outside::proofs::Adding::gains_none))]
    fn begin_or_switch(&mut self, alloc: Global, event: &mut Leaving) -> Result<(), NoMemory>
        requires { is_up_at self.old.near ≡ true }
        ensures after { OnOk result (self.new ≡ (gone_up self.old).pair) }
        ensures adds { OnOk result (AddsCourse event.old event.new (gone_up self.old)) }
    {
        if !self.far_is_up() {
            return self.begin_contact(alloc, event);
        }
        if self.bearer == 0 {
            return self.switch(alloc, event);
        }
        Ok(())
    }

    /// The near link went down.
    fn go_down(
        &mut self,
        alloc: Global,
        cause: Cause,
        epoch: u64,
        event: &mut Leaving,
    ) -> Result<(), NoMemory>
        requires { HasChanged self.old (Change.Down cause) }
        ensures after { OnOk result (self.new ≡ (following self.old (Change.Down cause) epoch).pair) }
        ensures adds { OnOk result (AddsCourse event.old event.new (following self.old (Change.Down cause) epoch)) }
    {
        event.tell(Transition::LinkDown {
            bearer: self.bearer,
            cause,
            shown_epoch: shown_with(cause, epoch),
        })?;
        self.fail_over_or_end(alloc, event)
    }

    /// Where the far link is up it gets what the near one leaves, which went down; else the contact ends.
    fn fail_over_or_end(&mut self, alloc: Global, event: &mut Leaving) -> Result<(), NoMemory>
        requires near { is_up_at self.old.near ≡ false }
        requires session { IfSome self.old.near (λ (e : LinkEnd). is_some e.session ≡ true) }
        requires going_on { is_last self.old.contact ≡ false }
        ensures after { OnOk result (self.new ≡ (gone_down self.old).pair) }
        ensures adds { OnOk result (AddsCourse event.old event.new (gone_down self.old)) }
    {
        if self.far_is_up() {
            return self.fail_over(alloc, event);
        }
        let seen = self.numbers.seen;
        self.end_contact(alloc, seen, 0, event)
    }

    /// The contact begins, with no message begun.
    #[tactic(auto, using(tipc_outside::proofs::Adding::gains_none))]
    fn begin_contact(&mut self, alloc: Global, event: &mut Leaving) -> Result<(), NoMemory>
        ensures after { OnOk result (self.new ≡ (contact_begins self.old).pair) }
        ensures adds { OnOk result (AddsCourse event.old event.new (contact_begins self.old)) }
    {
        let contact = self.contact_numbers();
        self.reassembly = Reassembly::new(alloc);
        event.tell(Transition::ContactUp { contact })
    }

    /// This contact ends: links that are still up go down, the node takes the next contact number, each end the next
    /// epoch, and the begun message is dropped. `seen` is the highest contact number that the peer has shown then, and
    /// `shown` is that where it ends the contact, or 0.
    fn end_contact(
        &mut self,
        alloc: Global,
        seen: u64,
        shown: u64,
        event: &mut Leaving,
    ) -> Result<(), NoMemory>
        requires { is_last self.old.contact ≡ false }
        ensures after { OnOk result (self.new ≡ (contact_ends (record self.old { seen = seen })
            (self.old.contact, self.old.seen) shown).pair) }
        ensures adds { OnOk result (AddsCourse event.old event.new
            (contact_ends (record self.old { seen = seen }) (self.old.contact, self.old.seen) shown)) }
    {
        let bearer = self.bearer;
        let contact = self.contact_numbers();
        self.face(0);
        self.tell_ended(event)?;
        self.part(alloc, seen, event);
        let states = self.states();
        self.face(bearer);
        event.tell(Transition::ContactDown {
            contact,
            states,
            shown,
        })
    }

    /// Tells which links go down with the contact: the near one, then the far one, where it is up.
    fn tell_ended(&self, event: &mut Leaving) -> Result<(), NoMemory>
        ensures { OnOk result (event.new ≡ record event.old {
          changes = event.old.changes ++ flat_map ended_with (made_of self.now.near ++ made_of self.now.far);
        }) }
    {
        tell_end(&self.near, self.bearer, event)?;
        tell_end(&self.far, 1 - self.bearer, event)
    }

    /// The node takes the next contact number, and each end its next epoch, and says RESET: the near one first. The
    /// begun message is dropped.
    fn part(&mut self, alloc: Global, seen: u64, event: &mut Leaving)
        requires { is_last self.old.contact ≡ false }
        ensures after { self.new ≡ parted (record self.old { seen = seen }) }
        ensures changes { event.new.changes ≡ event.old.changes }
        ensures frames { AddsFirst event.old.out event.new.out
            (flat_map reset_frames (made_of self.new.near ++ made_of self.new.far)) }
    {
        let own = next_number(self.numbers.own);
        self.numbers = Contact { own, seen };
        part_end(alloc, &mut self.near, own, seen, &mut event.out);
        part_end(alloc, &mut self.far, own, seen, &mut event.out);
        self.reassembly = Reassembly::new(alloc);
    }

    /// The states of the near end and the far one.
    fn states(&self) -> (Option<LinkState>, Option<LinkState>)
        ensures { result ≡ (state_of self.now.near, state_of self.now.far) }
    {
        (state_of(&self.near), state_of(&self.far))
    }

    /// The peer shows a contact number above the highest seen: a contact ends, and without contact each end forgets the
    /// peer's epoch.
    #[tactic(auto, using(tipc_outside::proofs::Adding::gains_none))]
    pub(crate) fn rise(
        &mut self,
        alloc: Global,
        number: u64,
        event: &mut Leaving,
    ) -> Result<(), NoMemory>
        ensures after { OnOk result (self.new ≡ (risen self.old number).pair) }
        ensures adds { OnOk result (AddsCourse event.old event.new (risen self.old number)) }
    {
        if self.in_contact() {
            return self.end_contact(alloc, number, number, event);
        }
        self.forget(alloc, number, event);
        Ok(())
    }

    /// Without contact each end forgets the peer's epoch, and shows this as the highest contact number that the peer
    /// has shown.
    fn forget(&mut self, alloc: Global, seen: u64, event: &mut Leaving)
        requires { in_contact self.old ≡ false }
        ensures after { self.new ≡ forgotten self.old seen }
        ensures changes { event.new.changes ≡ event.old.changes }
        ensures frames { AddsFirst event.old.out event.new.out [] }
    {
        let own = self.numbers.own;
        self.numbers.seen = seen;
        forget_end(alloc, &mut self.near, own, seen, &mut event.out);
        forget_end(alloc, &mut self.far, own, seen, &mut event.out);
    }

    /// The near link went down while the far one is up: that one gets, behind all that it has, originals of the
    /// unacknowledged packets, and the packets that waited, but for tunnel packets. (This project's profile.)
    fn fail_over(&mut self, alloc: Global, event: &mut Leaving) -> Result<(), NoMemory>
        requires near { is_up_at self.old.near ≡ false }
        requires session { IfSome self.old.near (λ (e : LinkEnd). is_some e.session ≡ true) }
        requires far { is_up_at self.old.far ≡ true }
        ensures after { OnOk result (self.new ≡ (fail_over self.old).pair) }
        ensures adds { OnOk result (AddsCourse event.old event.new (fail_over self.old)) }
    {
        let Some(near) = &mut self.near else {
            return Ok(());
        };
        let pieces = left_by(alloc, near)?;
        let Some(far) = &mut self.far else {
            return Ok(());
        };
        load(alloc, far, pieces, &mut event.out)
    }

    /// The near link went up, and becomes active in place of the far one: it gets duplicates of that one's
    /// unacknowledged packets, and behind them the packets that waited there. (This project's profile.)
    fn switch(&mut self, alloc: Global, event: &mut Leaving) -> Result<(), NoMemory>
        requires near { is_up_at self.old.near ≡ true }
        requires far { is_up_at self.old.far ≡ true }
        ensures after { OnOk result (self.new ≡ (switch self.old).pair) }
        ensures adds { OnOk result (AddsCourse event.old event.new (switch self.old)) }
    {
        let Some(far) = &mut self.far else {
            return Ok(());
        };
        let pieces = taken_over(alloc, far)?;
        let Some(near) = &mut self.near else {
            return Ok(());
        };
        load(alloc, near, pieces, &mut event.out)
    }

    /// Releases either end that is held, once the other link has no tunnel packet any more.
    #[tactic(auto, unfolding(crate::specs::Changeovers::released, crate::specs::Courses::going_on))]
    pub(crate) fn release(&mut self, alloc: Global, event: &mut Leaving)
        ensures after { self.new ≡ (released self.old).pair }
        ensures adds { AddsCourse event.old event.new (released self.old) }
        ensures quiet { event.new.changes ≡ event.old.changes }
    {
        // Each call ends here, and hardly ever is an end held: only then are the packets looked at.
        if !is_held(&self.near) && !is_held(&self.far) {
            return;
        }
        self.release_near(alloc, event);
        self.turn();
        self.release_near(alloc, event);
        self.turn();
    }

    /// Releases the near end, where it is held and the far link has no tunnel packet.
    #[tactic(auto, using(tipc_outside::proofs::Adding::gains_none))]
    fn release_near(&mut self, alloc: Global, event: &mut Leaving)
        ensures after { self.new ≡ (release_near self.old).pair }
        ensures adds { AddsCourse event.old event.new (release_near self.old) }
        ensures quiet { event.new.changes ≡ event.old.changes }
    {
        if !is_clear(&self.far) {
            return;
        }
        let_go(alloc, &mut self.near, &mut event.out);
    }
}

/// Whether there is an end, and its link has no tunnel packet.
fn is_clear(link: &Option<Link>) -> bool
    ensures { result ≡ is_clear link.now }
{
    match link {
        Some(link) => link.tunnels() == 0,
        None => false,
    }
}

/// Releases an end that is held.
#[tactic(auto, using(tipc_outside::proofs::Adding::gains_none))]
fn let_go(alloc: Global, link: &mut Option<Link>, out: &mut Outbox)
    ensures after { link.new ≡ option_map let_go link.old }
    ensures frames { AddsFirst out.old out.new (let_go_frames link.old) }
{
    match link {
        Some(link) => {
            link.release(alloc, out);
        }
        None => {}
    }
}

/// The epoch that the frame of a peer showed, where that took the link down; else 0.
fn shown_with(cause: Cause, epoch: u64) -> u64
    ensures { result ≡ shown_with cause epoch }
{
    match cause {
        Cause::PeerReset => epoch,
        Cause::PeerTunnel => epoch,
        Cause::Cut => 0,
        Cause::Silent => 0,
        Cause::ContactEnded => 0,
    }
}

/// The contact number that follows this one of the same boot.
#[tactic(auto, unfolding(tipc_link_fsm::specs::Table::is_last))]
fn next_number(number: u64) -> u64
    requires { is_last number ≡ false }
    ensures { result ≡ number + 1 }
{
    number + 1
}

/// Tells that a link goes down with the contact, where it is up.
fn tell_end(link: &Option<Link>, bearer: u8, event: &mut Leaving) -> Result<(), NoMemory>
    requires { IfSome link.now (λ (e : LinkEnd). e.bearer ≡ bearer) }
    ensures { OnOk result (event.new ≡ record event.old {
      changes = event.old.changes ++
          flat_map ended_with (made_of link.now);
    }) }
{
    if !is_up(link) {
        return Ok(());
    }
    event.tell(Transition::LinkDown {
        bearer,
        cause: Cause::ContactEnded,
        shown_epoch: 0,
    })
}

/// An end takes its next epoch, and says RESET with these contact numbers.
#[tactic(auto, using(tipc_outside::proofs::Adding::gains_none))]
fn part_end(alloc: Global, link: &mut Option<Link>, own: u64, seen: u64, out: &mut Outbox)
    ensures after { link.new ≡ option_map (parted_end own seen) link.old }
    ensures frames { AddsFirst out.old out.new (flat_map reset_frames (made_of link.new)) }
{
    match link {
        Some(link) => {
            link.show_contact(own, seen);
            link.contact_ended(alloc, out);
        }
        None => {}
    }
}

/// An end whose link isn't up forgets the peer's epoch, and shows these contact numbers, of which its own one stays.
#[tactic(auto, using(tipc_outside::proofs::Adding::gains_none))]
fn forget_end(alloc: Global, link: &mut Option<Link>, own: u64, seen: u64, out: &mut Outbox)
    requires contact { IfSome link.old (λ (e : LinkEnd). e.contact ≡ own) }
    requires down { is_up_at link.old ≡ false }
    ensures after { link.new ≡ option_map (forgetting seen) link.old }
    ensures frames { AddsFirst out.old out.new [] }
{
    match link {
        Some(link) => {
            link.show_contact(own, seen);
            link.forget_peer(alloc, out);
        }
        None => {}
    }
}

/// What a link that went down leaves to the other one. It gives all of it up.
fn left_by(alloc: Global, link: &mut Link) -> Result<Pieces, NoMemory>
    requires down { is_up link.old.fsm.state ≡ false }
    requires session { is_some link.old.session ≡ true }
    requires bearer { link.old.bearer ≤ 1 }
    requires on { IfSome link.old.session (IsSessionOn link.old.bearer) }
    ensures after { link.new ≡ handed_over link.old }
    ensures pieces { (s : SessionEnd) → link.old.session ≡ Some s → IfOk result (λ pieces. pieces ≡ left_by s) }
    ensures listed { IfOk result (λ pieces. All IsListed pieces) }
    ensures run { IfOk result (λ pieces. BeginsWithTunnel pieces) }
{
    let left = link.hand_over();
    let mut pieces = run_of(
        alloc,
        TunnelKind::Original,
        left.old,
        left.own.word,
        left.unacked.as_slice(),
    )?;
    add_plain(&mut pieces, left.waiting)?;
    Ok(pieces)
}

/// What a link that takes the traffic over gets of this one, which is up and keeps its unacknowledged packets.
fn taken_over(alloc: Global, link: &mut Link) -> Result<Pieces, NoMemory>
    requires up { is_up link.old.fsm.state ≡ true }
    requires session { is_some link.old.session ≡ true }
    requires bearer { link.old.bearer ≤ 1 }
    requires on { IfSome link.old.session (IsSessionOn link.old.bearer) }
    ensures after { link.new ≡ without_waiting link.old }
    ensures pieces { (s : SessionEnd) → link.old.session ≡ Some s → IfOk result (λ pieces. pieces ≡ taken_over s) }
    ensures listed { IfOk result (λ pieces. All IsListed pieces) }
    ensures run { IfOk result (λ pieces. BeginsWithTunnel pieces) }
{
    let waiting = link.take_waiting(alloc);
    let kept = kept_of(link)?;
    let mut pieces = run_of(
        alloc,
        TunnelKind::Duplicate,
        kept.old,
        kept.own.word,
        kept.unacked.as_slice(),
    )?;
    add_all(&mut pieces, waiting)?;
    Ok(pieces)
}

/// The unacknowledged packets of a link that is up and keeps them. They are those of a copy that goes down.
#[tactic(auto, unfolding(tipc_link_fsm::specs::Table::on_cut))]
fn kept_of(link: &Link) -> Result<HandedOver, NoMemory>
    requires up { is_up link.now.fsm.state ≡ true }
    requires session { is_some link.now.session ≡ true }
    ensures { (s : SessionEnd) → link.now.session ≡ Some s →
        IfOk result (λ h. (h.unacked ≡ kept_of s.sending) × (h.old.bearer ≡ s.bearer) × (h.old.epoch ≡ s.epoch) ×
        (h.own.word ≡ s.own)) }
{
    let mut copy = link.copy()?;
    copy.cut(true);
    Ok(copy.hand_over())
}

/// Puts the packets of a run, and those behind it, behind all that a link has; packets that wait move up.
fn load(alloc: Global, link: &mut Link, pieces: Pieces, out: &mut Outbox) -> Result<(), NoMemory>
    requires up { is_up link.old.fsm.state ≡ true }
    requires session { is_some link.old.session ≡ true }
    requires pieces { All IsWaiting pieces }
    requires run { BeginsWithTunnel pieces }
    ensures after { (s : SessionEnd) → link.old.session ≡ Some s →
        OnOk result (link.new ≡ loaded link.old s pieces) }
    ensures frames { (s : SessionEnd) → link.old.session ≡ Some s →
        OnOk result (Adds out.old out.new (flush_frames (put s pieces))) }
    ensures err { OnErr result (link.new ≡ link.old) }
{
    link.put(alloc, pieces, out)?;
    Ok(())
}
