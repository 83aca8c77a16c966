//! What a packet will make of a pair, told before anything is changed.

ghost use Rattle.std.specs.Prelude.{◌≡◌, ◌≤◌, ℕ, [], Some, IfOk, OnErr};
ghost use Rattle.std.specs.List.{list_all};
ghost use Rattle.tipc_header.specs.Grammar.{Fits};
ghost use Rattle.tipc_header.specs.Spelling.{view};
ghost use Rattle.tipc_link.specs.Hearings.{ArrivingState};
ghost use Rattle.tipc_link.specs.Parts.{is_quiet};
ghost use Rattle.tipc_pair.specs.PairOpenings.{are_plain, is_plain};
ghost use Rattle.tipc_pair.specs.Messages.{OpensTo};
ghost use Rattle.tipc_pair.specs.declared.changes.PairOutcome.{PairOutcome};

use crate::changes::{Incoming, PairOutcome};
use crate::leaving::Leaving;
use crate::link_ends::{LinkEnds, is_up};
use crate::transitions::Transition;
use std::alloc::Global;
use tipc_contact::Standing;
use tipc_header::{Header, HeaderContent, Notice, Packet};
use tipc_link::{Arriving, is_tunnel};
use tipc_link_fsm::Change;
use tipc_reassembly::Reassembly;
use tipc_recv_window::LinkOutcome;
use tipc_types::{BroadcastState, NoMemory, Taken, Why};

/// How a packet will change a pair.
#[derive(Drop)]
pub(crate) enum Way {
    /// It shows a contact number below the highest seen, and is passed over.
    Passes,
    /// It takes no link up or down and brings nothing through a tunnel: what its link makes of it, and the message that
    /// is begun then. Nothing else of the pair is copied.
    Quiet(Arriving, Reassembly),
    /// Any other packet: the pair after it, seen from the link that it arrives on, and what is told of it.
    Whole(Box<LinkEnds>, Leaving),
}

impl Way {
    ghost use Rattle.tipc_pair.specs.Preparing.{changes_of};

    /// What will be told of links and contact.
    pub(crate) fn changes(&self) -> &[Transition]
        ensures { result.now ≡ changes_of self.now }
    {
        match self {
            Way::Whole(_, told) => told.changes.as_slice(),
            Way::Quiet(_, _) => &[],
            Way::Passes => &[],
        }
    }
}

impl LinkEnds {
    ghost use Rattle.tipc_pair.specs.Changeovers.{released};
    ghost use Rattle.tipc_pair.specs.Courses.{Course, IsToldOf};
    ghost use Rattle.tipc_pair.specs.Facing.{facing, is_up_at};
    ghost use Rattle.tipc_pair.specs.PairArrivals.{hears, Arrives};
    ghost use Rattle.tipc_pair.specs.PairOpenings.{standing_with, HearsAndOpens, IsQuiet};
    ghost use Rattle.tipc_pair.specs.Preparing.{changes_of, IsPrepared};

    /// How a packet that arrives on a bearer will change the pair, and what it will give.
    ///
    /// # Errors
    ///
    /// Where memory runs out for a packet that isn't a RESET or an ACTIVATE below the highest contact number seen.
    pub(crate) fn prepare(
        &self,
        alloc: Global,
        bearer: u8,
        incoming: &Incoming<'_>,
    ) -> Result<(Way, PairOutcome), NoMemory>
        requires bearer { bearer ≤ 1 }
        requires fits { Fits (view incoming.now.packet) }
        ensures prepared { IfOk result (λ told.
            IsPrepared (facing bearer self.now) incoming.now.sender_epoch incoming.now.receiver_epoch
            (view incoming.now.packet) incoming.now.by incoming.now.shown told.0 told.1) }
        ensures passing { OnErr result (standing_with self.now incoming.now.packet.header ≡ Standing.Lower → ⊥) }
    {
        match self.standing_with(&incoming.packet.header) {
            Standing::Lower => Ok((Way::Passes, PairOutcome::Ignored(Why::Contact))),
            Standing::Higher => self.prepare_in_copy(alloc, bearer, incoming),
            Standing::Same => self.prepare_same(alloc, bearer, incoming),
        }
    }

    /// A packet that shows no contact number, or the highest one: as [`LinkEnds::prepare`].
    fn prepare_same(
        &self,
        alloc: Global,
        bearer: u8,
        incoming: &Incoming<'_>,
    ) -> Result<(Way, PairOutcome), NoMemory>
        requires bearer { bearer ≤ 1 }
        requires fits { Fits (view incoming.now.packet) }
        requires same { standing_with self.now incoming.now.packet.header ≡ Standing.Same }
        ensures { IfOk result (λ told.
            IsPrepared (facing bearer self.now) incoming.now.sender_epoch incoming.now.receiver_epoch
            (view incoming.now.packet) incoming.now.by incoming.now.shown told.0 told.1) }
    {
        let Some(arriving) = self.prepare_quietly(alloc, bearer, incoming)? else {
            return self.prepare_in_copy(alloc, bearer, incoming);
        };
        let mut reassembly = self.reassembly.copy()?;
        let given = opened(alloc, &mut reassembly, arriving.outcome())?;
        Ok((Way::Quiet(arriving, reassembly), given))
    }

    /// Any packet: the pair after it is made beside this one.
    fn prepare_in_copy(
        &self,
        alloc: Global,
        bearer: u8,
        incoming: &Incoming<'_>,
    ) -> Result<(Way, PairOutcome), NoMemory>
        requires bearer { bearer ≤ 1 }
        requires fits { Fits (view incoming.now.packet) }
        ensures { IfOk result (λ told.
            IsPrepared (facing bearer self.now) incoming.now.sender_epoch incoming.now.receiver_epoch
            (view incoming.now.packet) incoming.now.by incoming.now.shown told.0 told.1) }
    {
        let mut event = Leaving::new(alloc);
        let mut next = self.copy()?;
        next.face(bearer);
        let given = next.take_any(alloc, incoming, &mut event)?;
        Ok((Way::Whole(Box::new(alloc, next)?, event), given))
    }

    /// What a packet will make of the link of a bearer, where it takes no link up or down and brings nothing through a
    /// tunnel. None for any other packet.
    fn prepare_quietly(
        &self,
        alloc: Global,
        bearer: u8,
        incoming: &Incoming<'_>,
    ) -> Result<Option<Arriving>, NoMemory>
        requires bearer { bearer ≤ 1 }
        requires fits { Fits (view incoming.now.packet) }
        ensures { IfOk result (λ found. (a : ArrivingState) → found ≡ Some a →
            IsQuiet (facing bearer self.now) incoming.now.sender_epoch incoming.now.receiver_epoch
            (view incoming.now.packet) incoming.now.by a) }
    {
        let Some(link) = self.end_on(bearer) else {
            return Ok(None);
        };
        let arriving = link.prepare(
            alloc,
            incoming.sender_epoch,
            incoming.receiver_epoch,
            &incoming.packet,
            self.is_up_beside(bearer),
            incoming.by,
        )?;
        if !is_quiet(arriving.change()) {
            return Ok(None);
        }
        if !are_plain(arriving.outcome()) {
            return Ok(None);
        }
        Ok(Some(arriving))
    }

    /// Whether the link of the other bearer is up.
    #[tactic(auto, unfolding(crate::specs::Facing::facing))]
    fn is_up_beside(&self, bearer: u8) -> bool
        requires { bearer ≤ 1 }
        ensures { result ≡ is_up_at (facing bearer self.now).far }
    {
        if self.bearer == bearer {
            is_up(&self.far)
        } else {
            is_up(&self.near)
        }
    }

    /// Takes a packet on a bearer, as [`LinkEnds::prepare`] told of it when the pair was as it is. What it tells and
    /// sends is given back.
    pub(crate) fn commit(
        &mut self,
        alloc: Global,
        bearer: u8,
        way: Way,
        packet: &Packet<'_>,
        shown: BroadcastState,
    ) -> Leaving
        requires bearer { bearer ≤ 1 }
        requires prepared { (es : ℕ) × (er : ℕ) × (by : ℕ) × (given : PairOutcome) ×
            IsPrepared (facing bearer self.old) es er (view packet.now) by shown way given }
        ensures told { (es er by : ℕ) (given : PairOutcome) →
            IsPrepared (facing bearer self.old) es er (view packet.now) by shown way given → (c : Course) ×
            Arrives (facing bearer self.old) es er (view packet.now) by shown c given ×
            (self.new ≡ facing self.old.bearer c.pair) × IsToldOf c result }
        ensures changes { result.changes ≡ changes_of way }
        ensures bearer { self.new.bearer ≡ self.old.bearer }
    {
        let before = self.bearer;
        self.face(bearer);
        let told = self.take(alloc, way, packet, shown);
        self.face(before);
        told
    }

    /// The same at the near link.
    fn take(
        &mut self,
        alloc: Global,
        way: Way,
        packet: &Packet<'_>,
        shown: BroadcastState,
    ) -> Leaving
        requires prepared { (es : ℕ) × (er : ℕ) × (by : ℕ) × (given : PairOutcome) ×
            IsPrepared self.old es er (view packet.now) by shown way given }
        ensures told { (es er by : ℕ) (given : PairOutcome) →
            IsPrepared self.old es er (view packet.now) by shown way given →
            (c : Course) × Arrives self.old es er (view packet.now) by shown c given × (self.new ≡ c.pair) ×
            IsToldOf c result }
        ensures changes { result.changes ≡ changes_of way }
    {
        match way {
            Way::Passes => self.let_pass(alloc),
            Way::Quiet(arriving, reassembly) => {
                self.take_quietly(alloc, arriving, reassembly, packet, shown)
            }
            Way::Whole(ends, told) => {
                *self = Box::into_inner(ends);
                told
            }
        }
    }

    /// A packet is passed over: either end may be released, as with each call.
    fn let_pass(&mut self, alloc: Global) -> Leaving
        ensures after { self.new ≡ (released self.old).pair }
        ensures told { IsToldOf (released self.old) result }
        ensures quiet { result.changes ≡ [] }
    {
        let mut event = Leaving::new(alloc);
        self.release(alloc, &mut event);
        event
    }

    /// Takes a packet that takes no link up or down and brings nothing through a tunnel.
    fn take_quietly(
        &mut self,
        alloc: Global,
        arriving: Arriving,
        reassembly: Reassembly,
        packet: &Packet<'_>,
        shown: BroadcastState,
    ) -> Leaving
        requires quiet { (es : ℕ) × (er : ℕ) × (by : ℕ) × IsQuiet self.old es er (view packet.now) by arriving }
        requires same { standing_with self.old packet.now.header ≡ Standing.Same }
        ensures told { (es er by : ℕ) (given : PairOutcome) → IsQuiet self.old es er (view packet.now) by arriving →
            OpensTo self.old.begun arriving.hearing.outcome given reassembly →
            (c : Course) × Arrives self.old es er (view packet.now) by shown c given × (self.new ≡ c.pair) ×
            IsToldOf c result }
        ensures quiet { result.changes ≡ [] }
    {
        let mut event = Leaving::new(alloc);
        self.meet_quietly(alloc, arriving, reassembly, packet, shown, &mut event);
        self.release(alloc, &mut event);
        event
    }

    /// Gives such a packet to the near link; this message is begun then.
    fn meet_quietly(
        &mut self,
        alloc: Global,
        arriving: Arriving,
        reassembly: Reassembly,
        packet: &Packet<'_>,
        shown: BroadcastState,
        event: &mut Leaving,
    )
        requires quiet { (es : ℕ) × (er : ℕ) × (by : ℕ) × IsQuiet self.old es er (view packet.now) by arriving }
        requires same { standing_with self.old packet.now.header ≡ Standing.Same }
        ensures told { (es er by : ℕ) (given : PairOutcome) → IsQuiet self.old es er (view packet.now) by arriving →
            OpensTo self.old.begun arriving.hearing.outcome given reassembly →
            HearsAndOpens (hears packet.now.header es er (view packet.now) by shown self.old) given
            self.new event.old event.new }
        ensures quiet { event.new.changes ≡ event.old.changes }
    {
        let Some(link) = &mut self.near else {
            unreachable!()
        };
        link.commit(alloc, arriving, packet, shown, &mut event.out);
        self.reassembly = reassembly;
    }

    /// How the contact number that a packet shows stands to the highest seen. One that shows none stands as the
    /// highest.
    fn standing_with(&self, header: &Header) -> Standing
        ensures { result ≡ standing_with self.now header.now }
    {
        match header.content() {
            HeaderContent::Notice(Notice::Reset(said)) => self.standing(said.contact),
            HeaderContent::Notice(Notice::Activate(said)) => self.standing(said.contact),
            HeaderContent::State(_) => Standing::Same,
            HeaderContent::Numbered => Standing::Same,
            HeaderContent::Discovery => Standing::Same,
        }
    }
}

/// Whether a link stays up or down with this change, and begins no session.
fn is_quiet(change: Change) -> bool
    ensures { result ≡ is_quiet change }
{
    match change {
        Change::Up => false,
        Change::Down(_) => false,
        Change::Stay => true,
        Change::Answer(_) => true,
        Change::Ignore(_) => true,
    }
}

/// Whether all that a link takes is plain.
fn are_plain(outcome: &LinkOutcome) -> bool
    ensures { result ≡ are_plain outcome.now }
{
    match outcome {
        LinkOutcome::Took(taken) => all_plain(taken.as_slice()),
        LinkOutcome::Deferred => true,
        LinkOutcome::Ignored(_) => true,
    }
}

/// Whether each of these packets is plain.
fn all_plain(taken: &[Taken]) -> bool
    ensures { result ≡ list_all is_plain taken.now }
{
    taken.iter().all(|packet| is_plain(packet))
}

/// Whether a packet that was taken has bytes, and is no tunnel packet.
fn is_plain(packet: &Taken) -> bool
    ensures { result ≡ is_plain packet.now }
{
    !packet.packet.is_empty() && !is_tunnel(packet.packet.as_slice())
}

/// Opens what a link made of an arrival.
fn opened(
    alloc: Global,
    reassembly: &mut Reassembly,
    outcome: &LinkOutcome,
) -> Result<PairOutcome, NoMemory>
    ensures ok { IfOk result (λ given. OpensTo reassembly.old outcome.now given reassembly.new) }
    ensures err { OnErr result (reassembly.new ≡ reassembly.old) }
{
    match outcome {
        LinkOutcome::Took(taken) => {
            let opened = reassembly.open(alloc, taken.as_slice())?;
            Ok(PairOutcome::Took(opened))
        }
        LinkOutcome::Deferred => Ok(PairOutcome::Deferred),
        LinkOutcome::Ignored(why) => Ok(PairOutcome::Ignored(*why)),
    }
}
