//! The two link ends of a pair, seen from one of them.

ghost use Rattle.tipc_pair.specs.Runs.{IsListed};
ghost use Rattle.tipc_outside.specs.declared.outgoing.Outgoing.{Outgoing};
ghost use Rattle.std.specs.Prelude.{All, ℕ, List, ◌<◌, Err, ◌≡◌, ◌≤◌, ◌||◌, ◌==◌, [], ◌++◌, true, false, if◌then◌else◌, nat_lt, Some, None, length, IfOk, IfNone, IfSome, OnErr, OnOk};
ghost use Rattle.tipc_outside.specs.Frames.{Adds, AddsFirst};
ghost use Rattle.tipc_link.specs.Links.{LinkEnd};
ghost use Rattle.tipc_pair.specs.Facing.{is_held_at, is_up_at, state_of};
ghost use Rattle.tipc_pair.specs.PairCalls.{last_count_of, load_of, numbered_of};
ghost use Rattle.tipc_link.specs.Sessions.{SessionEnd};
ghost use Rattle.tipc_link_fsm.specs.Table.{is_last};

use crate::leaving::Leaving;
use std::alloc::Global;
use std::marker::Model;
use tipc_contact::{Contact, Standing};
use tipc_link::Link;
use tipc_outside::Outbox;
use tipc_reassembly::Reassembly;
use tipc_send_window::OfferFault;
use tipc_types::{Addr, BroadcastState, LinkState, NoMemory, Pieces};

/// The link ends of a pair, of which one is the near one: all calls are at the near link, and [`LinkEnds::face`] says
/// which that is.
#[derive(Drop)]
pub(crate) struct LinkEnds {
    pub(crate) own: Addr,
    pub(crate) peer: Addr,
    pub(crate) numbers: Contact,
    /// The bearer of the near link.
    pub(crate) bearer: u8,
    pub(crate) near: Option<Link>,
    pub(crate) far: Option<Link>,
    /// What is begun of what was taken on either link.
    pub(crate) reassembly: Reassembly,
}

impl Model for LinkEnds {
    ghost use Rattle.tipc_pair.specs.Facing.{PairEnds};
    ghost use Rattle.tipc_pair.specs.PairFacts.{IsPairOfEnds};

    ghost Value = { PairEnds };

    ghost view = { λ p. record {
      own = p.own.word;
      peer = p.peer.word;
      contact = p.numbers.own;
      seen = p.numbers.seen;
      bearer = p.bearer;
      near = p.near;
      far = p.far;
      begun = p.reassembly;
    } };

    ghost invariant = { λ p. IsPairOfEnds (record {
      own = p.own.word;
      peer = p.peer.word;
      contact = p.numbers.own;
      seen = p.numbers.seen;
      bearer = p.bearer;
      near = p.near;
      far = p.far;
      begun = p.reassembly;
    }) };
}

impl LinkEnds {
    ghost use Rattle.tipc_pair.specs.PairFacts.{IsPairOfEnds};
    ghost use Rattle.tipc_pair.specs.Facing.{active, alone, facing, in_contact, turned, with_made};
    ghost use Rattle.tipc_pair.specs.Courses.{AddsCourse};
    ghost use Rattle.tipc_pair.specs.PairCalls.{answered_near, at_bearer, cut_at, cut_near, mended, session_at, tick_near, ticked, Puts};

    /// The pair of a node that has just begun this boot: no end is made.
    pub(crate) fn new(alloc: Global, own: Addr, peer: Addr, boot: u32) -> LinkEnds
        ensures { result ≡ alone own.word peer.word boot }
    {
        LinkEnds {
            own,
            peer,
            numbers: Contact::new(boot),
            bearer: 0,
            near: None,
            far: None,
            reassembly: Reassembly::new(alloc),
        }
    }

    /// A pair that is as this one.
    pub(crate) fn copy(&self) -> Result<LinkEnds, NoMemory>
        ensures { IfOk result (λ ends. ends ≡ self.now) }
    {
        Ok(LinkEnds {
            own: self.own,
            peer: self.peer,
            numbers: self.numbers,
            bearer: self.bearer,
            near: copy_link(&self.near)?,
            far: copy_link(&self.far)?,
            reassembly: self.reassembly.copy()?,
        })
    }

    /// The far link becomes the near one.
    pub(crate) fn turn(&mut self)
        ensures { self.new ≡ turned self.old }
    {
        let near = self.near.take();
        self.near = self.far.take();
        self.far = near;
        self.bearer = 1 - self.bearer;
    }

    /// The link of this bearer becomes the near one, or stays it.
    #[tactic(auto, unfolding(crate::specs::Facing::facing))]
    pub(crate) fn face(&mut self, bearer: u8)
        requires { bearer ≤ 1 }
        ensures after { self.new ≡ facing bearer self.old }
        ensures bearer { self.new.bearer ≡ bearer }
    {
        if self.bearer != bearer {
            self.turn();
        }
    }

    /// Makes the near end, which is on a bearer that counts as cut.
    pub(crate) fn make(&mut self)
        requires { self.old.near ≡ None }
        ensures { self.new ≡ with_made self.old }
    {
        let mut link = Link::new(self.own, self.peer, self.bearer, self.numbers.own);
        link.show_contact(self.numbers.own, self.numbers.seen);
        self.near = Some(link);
    }

    /// Whether the near link is up.
    pub(crate) fn near_is_up(&self) -> bool
        ensures { result ≡ is_up_at self.now.near }
    {
        is_up(&self.near)
    }

    /// Whether the far link is up.
    pub(crate) fn far_is_up(&self) -> bool
        ensures { result ≡ is_up_at self.now.far }
    {
        is_up(&self.far)
    }

    /// Whether the node is in contact with the peer: a link is up.
    pub(crate) fn in_contact(&self) -> bool
        ensures value { result ≡ in_contact self.now }
        // The contact number isn't the last of its boot then.
        ensures going_on { result ≡ true → is_last self.now.contact ≡ false }
    {
        is_up(&self.near) || is_up(&self.far)
    }

    /// What is true of every pair is true of it. It does nothing.
    pub(crate) fn sound(&self)
        ensures { IsPairOfEnds self.now }
    {
        let _ = &self.bearer;
    }

    /// The contact numbers: the node's own, and the highest that the peer has shown.
    pub(crate) fn contact_numbers(&self) -> (u64, u64)
        ensures own { result.0 ≡ self.now.contact }
        ensures seen { result.1 ≡ self.now.seen }
    {
        (self.numbers.own, self.numbers.seen)
    }

    /// How a contact number that the peer shows stands to the highest seen.
    pub(crate) fn standing(&self, number: u64) -> Standing
        ensures { result ≡ (if nat_lt number self.now.seen then Standing.Lower else
            (if number == self.now.seen then Standing.Same else Standing.Higher)) }
    {
        let mut numbers = self.numbers;
        numbers.show(number)
    }

    /// The near link's bearer is mended: as [`Link::mend`].
    #[tactic(auto, using(tipc_outside::proofs::Adding::gains_none))]
    pub(crate) fn mend(&mut self, alloc: Global, out: &mut Outbox)
        ensures after { self.new ≡ (mended self.old).pair }
        ensures frames { AddsFirst out.old out.new (mended self.old).states }
    {
        let Some(link) = &mut self.near else {
            return;
        };
        link.mend(alloc, out);
    }

    /// Sends the STATE that is due after an arrival on the near link: as [`Link::answer`].
    #[tactic(auto, using(tipc_outside::proofs::Adding::gains_none))]
    pub(crate) fn answer(
        &mut self,
        alloc: Global,
        broadcast: u32,
        due: bool,
        shown: BroadcastState,
        out: &mut Outbox,
    )
        ensures after { self.new ≡ (answered_near broadcast due shown self.old).pair }
        ensures frames { Adds out.old out.new (answered_near broadcast due shown self.old).states }
    {
        let Some(link) = &mut self.near else {
            return;
        };
        link.answer(alloc, broadcast, due, shown, out);
    }

    /// Puts packets on the near link, which is up: as [`Link::send`].
    ///
    /// # Errors
    ///
    /// Congested exactly where at least `limit` packets wait; else NoMemory. Either changes nothing.
    pub(crate) fn send(
        &mut self,
        alloc: Global,
        pieces: Pieces,
        limit: u32,
        out: &mut Outbox,
    ) -> Result<(), OfferFault>
        requires up { is_up_at self.old.near ≡ true }
        requires pieces { All IsListed pieces }
        ensures ok { OnOk result ((frames : List Outgoing) × ((puts : Puts self.old pieces self.new frames) ×
            (length puts.session.sending.waiting < limit)) ×
            Adds out.old out.new frames) }
        ensures congested { (s : SessionEnd) → session_at self.old.near ≡ Some s → limit ≤ length s.sending.waiting →
            result ≡ Err (OfferFault.Congested (length s.sending.unacked) (length s.sending.waiting)) }
        ensures congested_only { (s : SessionEnd) (in_flight waiting : ℕ) → session_at self.old.near ≡ Some s →
            result ≡ Err (OfferFault.Congested in_flight waiting) → limit ≤ length s.sending.waiting }
        ensures err { OnErr result ((self.new ≡ self.old) × (out.new ≡ out.old)) }
    {
        let Some(link) = &mut self.near else {
            unreachable!()
        };
        link.send(alloc, pieces, limit, out)
    }

    /// The end on a bearer, or none.
    #[tactic(auto, unfolding(crate::specs::Facing::facing))]
    pub(crate) fn end_on(&self, bearer: u8) -> &Option<Link>
        requires { bearer ≤ 1 }
        ensures { result.now ≡ (facing bearer self.now).near }
    {
        if self.bearer == bearer {
            &self.near
        } else {
            &self.far
        }
    }

    /// The bearer of the active link. None exactly where no link is up.
    pub(crate) fn active(&self) -> Option<u8>
        ensures { result ≡ active self.now }
    {
        if is_up(self.end_on(0)) {
            return Some(0);
        }
        if is_up(self.end_on(1)) {
            return Some(1);
        }
        None
    }

    /// The near link's bearer is cut, and then either end may be released.
    pub(crate) fn cut(&mut self, alloc: Global, event: &mut Leaving) -> Result<(), NoMemory>
        ensures after { OnOk result (self.new ≡ (cut_near self.old).pair) }
        ensures adds { OnOk result (AddsCourse event.old event.new (cut_near self.old)) }
    {
        self.cut_link(alloc, event)?;
        self.release(alloc, event);
        Ok(())
    }

    /// The near link's bearer is cut: a link that is up goes down, and is held where the far link is up.
    #[tactic(auto, using(tipc_outside::proofs::Adding::gains_none))]
    fn cut_link(&mut self, alloc: Global, event: &mut Leaving) -> Result<(), NoMemory>
        ensures after { OnOk result (self.new ≡ (cut_at self.old self.old.near).pair) }
        ensures adds { OnOk result (AddsCourse event.old event.new (cut_at self.old self.old.near)) }
    {
        let held = self.far_is_up();
        let Some(link) = &mut self.near else {
            return Ok(());
        };
        let change = link.cut(held);
        self.follow(alloc, change, 0, event)
    }

    /// A tick of both links, bearer 0's first, and then either end may be released.
    pub(crate) fn tick(
        &mut self,
        alloc: Global,
        shown: BroadcastState,
        event: &mut Leaving,
    ) -> Result<(), NoMemory>
        ensures after { OnOk result (self.new ≡ (ticked shown self.old).pair) }
        ensures adds { OnOk result (AddsCourse event.old event.new (ticked shown self.old)) }
        ensures bearer { self.old.bearer ≡ 0 → OnOk result (self.new.bearer ≡ 0) }
    {
        self.tick_on(alloc, 0, shown, event)?;
        self.tick_on(alloc, 1, shown, event)?;
        self.release(alloc, event);
        Ok(())
    }

    /// A tick of the link of a bearer.
    fn tick_on(
        &mut self,
        alloc: Global,
        bearer: u8,
        shown: BroadcastState,
        event: &mut Leaving,
    ) -> Result<(), NoMemory>
        requires { bearer ≤ 1 }
        ensures after { OnOk result (self.new ≡ (at_bearer bearer self.old (tick_near shown)).pair) }
        ensures adds { OnOk result (AddsCourse event.old event.new (at_bearer bearer self.old (tick_near shown))) }
        ensures bearer { OnOk result (self.new.bearer ≡ self.old.bearer) }
    {
        let before = self.bearer;
        self.face(bearer);
        self.tick_near(alloc, shown, event)?;
        self.face(before);
        Ok(())
    }

    /// A tick of the near link.
    #[tactic(auto, using(tipc_outside::proofs::Adding::gains_none))]
    fn tick_near(
        &mut self,
        alloc: Global,
        shown: BroadcastState,
        event: &mut Leaving,
    ) -> Result<(), NoMemory>
        ensures after { OnOk result (self.new ≡ (tick_near shown self.old).pair) }
        ensures adds { OnOk result (AddsCourse event.old event.new (tick_near shown self.old)) }
    {
        let held = self.far_is_up();
        let Some(link) = &mut self.near else {
            return Ok(());
        };
        let change = link.tick(alloc, held, shown, &mut event.out);
        self.follow(alloc, change, 0, event)
    }
}

/// An end, or none, that is as this one.
fn copy_link(link: &Option<Link>) -> Result<Option<Link>, NoMemory>
    ensures { IfOk result (λ copy. copy ≡ link.now) }
{
    match link {
        Some(link) => Ok(Some(link.copy()?)),
        None => Ok(None),
    }
}

/// Whether there is an end, and its link is up.
pub(crate) fn is_up(link: &Option<Link>) -> bool
    ensures { result ≡ is_up_at link.now }
{
    match link {
        Some(link) => link.is_up(),
        None => false,
    }
}

/// Whether there is an end, and it is held.
pub(crate) fn is_held(link: &Option<Link>) -> bool
    ensures { result ≡ is_held_at link.now }
{
    match link {
        Some(link) => matches!(link.state(), LinkState::Held),
        None => false,
    }
}

/// The state of an end. None exactly where there is none.
pub(crate) fn state_of(link: &Option<Link>) -> Option<LinkState>
    ensures { result ≡ state_of link.now }
{
    match link {
        Some(link) => Some(link.state()),
        None => None,
    }
}

/// The load of an end: zeros where there is none, or its link isn't up.
pub(crate) fn load_of(link: &Option<Link>) -> (u32, u32)
    ensures { result ≡ load_of link.now }
{
    match link {
        Some(link) if link.is_up() => link.load().unwrap_or((0, 0)),
        _ => (0, 0),
    }
}

/// The own epoch of an end's present session, or of its last one, and how many packets were numbered in it. None
/// exactly where there is no end, or it had no session.
pub(crate) fn last_count_of(link: &Option<Link>) -> Option<(u64, u64)>
    ensures { result ≡ last_count_of link.now }
{
    match link {
        Some(link) => link.last_count(),
        None => None,
    }
}

/// How many packets each direction of an end numbered. None exactly where there is none, or it had no session.
pub(crate) fn numbered_of(link: &Option<Link>) -> Option<(u64, u64)>
    ensures { result ≡ numbered_of link.now }
{
    match link {
        Some(link) => link.numbered(),
        None => None,
    }
}
