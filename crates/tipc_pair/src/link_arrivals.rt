//! Packets that arrive on a link of a pair.

ghost use Rattle.std.specs.Prelude.{◌≡◌, ◌==◌, ◌&&◌, ◌++◌, ◌<◌, [], true, false, ℕ, Some, None, is_some, drop, length, IfOk, OnErr, OnOk};
ghost use Rattle.tipc_header.specs.Grammar.{Fits};
ghost use Rattle.tipc_header.specs.Spelling.{view};
ghost use Rattle.tipc_header.specs.declared.packet.ChangeoverType.{ChangeoverType};
ghost use Rattle.tipc_tunnel.specs.Unwrapped.{tunnelled};
ghost use Rattle.tipc_pair.specs.PairArrivals.{freed_by, inner_taken, restored, taken_in, with_bytes};
ghost use Rattle.tipc_pair.specs.PairOpenings.{told_by};

use crate::changes::{Incoming, PairOutcome};
use crate::leaving::Leaving;
use crate::link_ends::LinkEnds;
use std::alloc::Global;
use tipc_contact::Standing;
use tipc_header::{HeaderContent, Notice, Packet, decode};
use tipc_link::{Link, is_down, waiting_bytes};
use tipc_link_fsm::Change;
use tipc_recv_window::LinkOutcome;
use tipc_tunnel::{Tunnel, TunnelKind, unwrap_packet};
use tipc_types::{BroadcastState, Bytes, NoMemory, TakenList, Why};

/// What a tunnel packet carries for the other link of its pair.
#[derive(Drop)]
struct Carried {
    kind: TunnelKind,
    epoch: u64,
    count: u16,
    number: u16,
    /// The packet inside; nothing for a placeholder, and in an empty run.
    inner: Bytes,
    /// The number of the arrival that brought it.
    by: u64,
}

impl LinkEnds {
    ghost use Rattle.tipc_pair.specs.Changeovers.{risen};
    ghost use Rattle.tipc_pair.specs.Courses.{AddsCourse, Course};
    ghost use Rattle.tipc_pair.specs.Facing.{other};
    ghost use Rattle.tipc_pair.specs.PairArrivals.{activate_higher, activate_shown, behind, hears, met_near, reset_change, reset_given, reset_near, reset_shown, taken_down, tunnelled_at, Arrives, IsHeardAs};
    ghost use Rattle.tipc_pair.specs.PairOpenings.{Frees, IsCarriedIn, NoneCarriedIn, Opens, Unwrapped};

    /// Takes a packet that arrived on the near link.
    ///
    /// # Errors
    ///
    /// Where memory runs out. The pair may be in any state then.
    pub(crate) fn take_any(
        &mut self,
        alloc: Global,
        incoming: &Incoming<'_>,
        event: &mut Leaving,
    ) -> Result<PairOutcome, NoMemory>
        requires fits { Fits (view incoming.now.packet) }
        ensures { IfOk result (λ given. (c : Course) ×
            Arrives self.old incoming.now.sender_epoch incoming.now.receiver_epoch
            (view incoming.now.packet) incoming.now.by incoming.now.shown c given × (self.new ≡ c.pair) ×
            AddsCourse event.old event.new c) }
    {
        let outcome = self.hear(alloc, incoming, event)?;
        let given = self.open(alloc, outcome, event)?;
        self.release(alloc, event);
        Ok(given)
    }

    /// What the near link makes of a packet, with what follows for the pair.
    fn hear(
        &mut self,
        alloc: Global,
        incoming: &Incoming<'_>,
        event: &mut Leaving,
    ) -> Result<LinkOutcome, NoMemory>
        requires fits { Fits (view incoming.now.packet) }
        ensures { IfOk result (λ outcome.
            IsHeardAs (hears incoming.now.packet.header incoming.now.sender_epoch incoming.now.receiver_epoch
            (view incoming.now.packet) incoming.now.by incoming.now.shown self.old)
            self.new event.old event.new outcome) }
    {
        match incoming.packet.header.content() {
            HeaderContent::Notice(Notice::Reset(said)) => self.hear_reset(
                alloc,
                incoming.sender_epoch,
                said.contact,
                incoming.shown,
                event,
            ),
            HeaderContent::Notice(Notice::Activate(said)) => {
                self.hear_activate(alloc, said.contact, incoming, event)
            }
            HeaderContent::State(_) => self.meet(alloc, incoming, event),
            HeaderContent::Numbered => self.meet(alloc, incoming, event),
            HeaderContent::Discovery => self.meet(alloc, incoming, event),
        }
    }

    /// Gives a packet to the near link, and does what its change asks for.
    #[tactic(auto, using(tipc_outside::proofs::Adding::gains_none))]
    fn meet(
        &mut self,
        alloc: Global,
        incoming: &Incoming<'_>,
        event: &mut Leaving,
    ) -> Result<LinkOutcome, NoMemory>
        requires fits { Fits (view incoming.now.packet) }
        ensures { IfOk result (λ outcome.
            IsHeardAs (met_near incoming.now.sender_epoch incoming.now.receiver_epoch
            (view incoming.now.packet) incoming.now.by incoming.now.shown self.old)
            self.new event.old event.new outcome) }
    {
        let held = self.far_is_up();
        let Some(link) = &mut self.near else {
            return Ok(LinkOutcome::Ignored(Why::Unknown));
        };
        let arrival = link.arrive(
            alloc,
            incoming.sender_epoch,
            incoming.receiver_epoch,
            &incoming.packet,
            held,
            incoming.by,
            incoming.shown,
            &mut event.out,
        )?;
        self.follow(alloc, arrival.change, incoming.sender_epoch, event)?;
        Ok(arrival.outcome)
    }

    /// An ACTIVATE, which shows this contact number.
    fn hear_activate(
        &mut self,
        alloc: Global,
        number: u64,
        incoming: &Incoming<'_>,
        event: &mut Leaving,
    ) -> Result<LinkOutcome, NoMemory>
        requires fits { Fits (view incoming.now.packet) }
        ensures { IfOk result (λ outcome.
            IsHeardAs (activate_shown number
            (met_near incoming.now.sender_epoch incoming.now.receiver_epoch
            (view incoming.now.packet) incoming.now.by incoming.now.shown) self.old)
            self.new event.old event.new outcome) }
    {
        match self.standing(number) {
            Standing::Lower => Ok(LinkOutcome::Ignored(Why::Contact)),
            Standing::Same => self.meet(alloc, incoming, event),
            Standing::Higher => { self.rise_and_meet(alloc, number, incoming, event) }
        }
    }

    /// An ACTIVATE that shows a contact number above the highest seen. Where a contact ended it took nothing.
    fn rise_and_meet(
        &mut self,
        alloc: Global,
        number: u64,
        incoming: &Incoming<'_>,
        event: &mut Leaving,
    ) -> Result<LinkOutcome, NoMemory>
        requires fits { Fits (view incoming.now.packet) }
        ensures { IfOk result (λ outcome.
            IsHeardAs (activate_higher number
            (met_near incoming.now.sender_epoch incoming.now.receiver_epoch
            (view incoming.now.packet) incoming.now.by incoming.now.shown) self.old)
            self.new event.old event.new outcome) }
    {
        let ended = self.in_contact();
        self.rise(alloc, number, event)?;
        if ended {
            return Ok(LinkOutcome::Took(TakenList::new(alloc)));
        }
        self.meet(alloc, incoming, event)
    }

    /// A RESET under this epoch, which shows this contact number.
    fn hear_reset(
        &mut self,
        alloc: Global,
        sender_epoch: u64,
        number: u64,
        shown: BroadcastState,
        event: &mut Leaving,
    ) -> Result<LinkOutcome, NoMemory>
        ensures { IfOk result
            (λ outcome. IsHeardAs (reset_shown number sender_epoch shown self.old) self.new event.old event.new
            outcome) }
    {
        match self.standing(number) {
            Standing::Lower => Ok(LinkOutcome::Ignored(Why::Contact)),
            Standing::Same => self.take_reset(alloc, sender_epoch, shown, event),
            Standing::Higher => self.rise_and_reset(alloc, sender_epoch, number, shown, event),
        }
    }

    /// A RESET that shows a contact number above the highest seen.
    fn rise_and_reset(
        &mut self,
        alloc: Global,
        sender_epoch: u64,
        number: u64,
        shown: BroadcastState,
        event: &mut Leaving,
    ) -> Result<LinkOutcome, NoMemory>
        ensures { IfOk result (λ outcome.
            IsHeardAs (behind (risen self.old number) (reset_near sender_epoch shown)) self.new event.old event.new
            outcome) }
    {
        self.rise(alloc, number, event)?;
        self.take_reset(alloc, sender_epoch, shown, event)
    }

    /// A RESET under this epoch, which shows the highest contact number. Where it took the last link down the contact
    /// ended, and it is given to the end again.
    fn take_reset(
        &mut self,
        alloc: Global,
        sender_epoch: u64,
        shown: BroadcastState,
        event: &mut Leaving,
    ) -> Result<LinkOutcome, NoMemory>
        ensures { IfOk result (λ outcome. IsHeardAs (reset_near sender_epoch shown self.old) self.new event.old
            event.new outcome) }
    {
        let held = self.far_is_up();
        let (change, outcome) = self.give_reset(alloc, sender_epoch, held, shown, event)?;
        if is_down(change) && !held {
            return Ok(self.give_reset(alloc, sender_epoch, false, shown, event)?.1);
        }
        Ok(outcome)
    }

    /// Gives a RESET to the near end, and does what its change asks for.
    #[tactic(auto, using(tipc_outside::proofs::Adding::gains_none))]
    fn give_reset(
        &mut self,
        alloc: Global,
        sender_epoch: u64,
        held: bool,
        shown: BroadcastState,
        event: &mut Leaving,
    ) -> Result<(Change, LinkOutcome), NoMemory>
        ensures change { IfOk result (λ given. given.0 ≡ reset_change sender_epoch held self.old.near) }
        ensures does { IfOk result (λ given.
            IsHeardAs (reset_given sender_epoch held shown self.old self.old.near) self.new event.old event.new
            given.1) }
    {
        let Some(link) = &mut self.near else {
            return Ok((Change::Stay, LinkOutcome::Ignored(Why::Unknown)));
        };
        let arrival = link.reset(alloc, sender_epoch, held, shown, &mut event.out);
        self.follow(alloc, arrival.change, sender_epoch, event)?;
        Ok((arrival.change, arrival.outcome))
    }

    /// Opens what the near link made of an arrival.
    fn open(
        &mut self,
        alloc: Global,
        outcome: LinkOutcome,
        event: &mut Leaving,
    ) -> Result<PairOutcome, NoMemory>
        ensures { IfOk result (λ given. Opens self.old outcome given self.new event.old event.new) }
    {
        match outcome {
            LinkOutcome::Took(taken) => self.open_taken(alloc, taken, event),
            LinkOutcome::Deferred => Ok(PairOutcome::Deferred),
            LinkOutcome::Ignored(why) => Ok(PairOutcome::Ignored(why)),
        }
    }

    /// Opens the packets that the near link took.
    fn open_taken(
        &mut self,
        alloc: Global,
        taken: TakenList,
        event: &mut Leaving,
    ) -> Result<PairOutcome, NoMemory>
        ensures { IfOk result (λ given. Opens self.old (LinkOutcome.Took taken) given self.new event.old event.new) }
    {
        let carried = self.unwrap(alloc, taken, event)?;
        let given = self.reassembly.open(alloc, carried.as_slice())?;
        Ok(PairOutcome::Took(given))
    }

    /// What is to be opened of the packets that the near link took. Only the first of them can be a tunnel packet: what
    /// it frees in the far link's record comes before the packets behind it. Placeholders have no bytes, and are left
    /// out.
    fn unwrap(
        &mut self,
        alloc: Global,
        taken: TakenList,
        event: &mut Leaving,
    ) -> Result<TakenList, NoMemory>
        ensures { IfOk result (λ opened. Unwrapped self.old taken opened self.new event.old event.new) }
    {
        let mut opened = TakenList::new(alloc);
        let Some(carried) = self.carried_in(alloc, &taken)? else {
            add_with_bytes(&mut opened, taken)?;
            return Ok(opened);
        };
        let freed = self.take_carried(alloc, carried, event)?;
        add_with_bytes(&mut opened, freed)?;
        add_with_bytes(&mut opened, without_first(taken))?;
        Ok(opened)
    }

    /// What the first of these packets carries for the far link. None exactly where there is no such packet, it is no
    /// tunnel packet that unwraps, or it speaks of another bearer than the far link's, or of one that has no end.
    fn carried_in(&self, alloc: Global, taken: &TakenList) -> Result<Option<Carried>, NoMemory>
        ensures some { IfOk result (λ found. (carried : Carried) → found ≡ Some carried →
            IsCarriedIn self.now taken.now carried) }
        ensures none { IfOk result (λ found. found ≡ None → NoneCarriedIn self.now taken.now) }
    {
        let [first, ..] = taken.as_slice() else {
            return Ok(None);
        };
        let Ok(packet) = decode(first.packet.as_slice()) else {
            return Ok(None);
        };
        let Ok(tunnel) = unwrap_packet(&packet) else {
            return Ok(None);
        };
        if !self.is_of_far(&tunnel) {
            return Ok(None);
        }
        Ok(Some(carried_by(alloc, &tunnel, first.by)?))
    }

    /// Whether a tunnel packet speaks of the far link, which has an end.
    fn is_of_far(&self, tunnel: &Tunnel<'_>) -> bool
        ensures { result ≡ ((tunnel.now.old.bearer == other self.now.bearer) && is_some self.now.far) }
    {
        tunnel.old.bearer == 1 - self.bearer && self.far.is_some()
    }

    /// Takes what came in a tunnel packet on the near link: an original of the far link's present session takes that
    /// link down first.
    fn take_carried(
        &mut self,
        alloc: Global,
        carried: Carried,
        event: &mut Leaving,
    ) -> Result<TakenList, NoMemory>
        ensures { IfOk result (λ freed. Frees self.old (told_by
            (other self.old.bearer) carried) carried.by freed self.new event.old event.new) }
    {
        self.take_far_down(alloc, carried.kind, carried.epoch, event)?;
        let Some(link) = &mut self.far else {
            return Ok(TakenList::new(alloc));
        };
        let freed = take_inner(alloc, link, carried)?;
        Ok(freed)
    }

    /// A packet of the far link came through the near one. If it is the original, a far link that is up under this
    /// epoch of the peer goes down.
    #[tactic(auto, using(tipc_outside::proofs::Adding::gains_none))]
    fn take_far_down(
        &mut self,
        alloc: Global,
        kind: TunnelKind,
        epoch: u64,
        event: &mut Leaving,
    ) -> Result<(), NoMemory>
        ensures after { OnOk result (self.new ≡ (taken_down kind epoch self.old).pair) }
        ensures adds { OnOk result (AddsCourse event.old event.new (taken_down kind epoch self.old)) }
    {
        match kind {
            TunnelKind::Duplicate => Ok(()),
            TunnelKind::Original => self.take_original(alloc, epoch, event),
        }
    }

    /// The original of a packet of the far link came through the near one: a far link that is up under this epoch of
    /// the peer goes down.
    fn take_original(
        &mut self,
        alloc: Global,
        epoch: u64,
        event: &mut Leaving,
    ) -> Result<(), NoMemory>
        ensures after { OnOk result (self.new ≡ (taken_down ChangeoverType.Original epoch self.old).pair) }
        ensures adds { OnOk result (AddsCourse event.old event.new
            (taken_down ChangeoverType.Original epoch self.old)) }
    {
        self.turn();
        self.take_down(alloc, epoch, event)?;
        self.turn();
        Ok(())
    }

    /// The original of a packet of the near link came through the far one: a near link that is up under this epoch of
    /// the peer goes down.
    #[tactic(auto, using(tipc_outside::proofs::Adding::gains_none))]
    fn take_down(&mut self, alloc: Global, epoch: u64, event: &mut Leaving) -> Result<(), NoMemory>
        ensures after { OnOk result (self.new ≡ (tunnelled_at epoch self.old self.old.near).pair) }
        ensures adds { OnOk result (AddsCourse event.old event.new (tunnelled_at epoch self.old self.old.near)) }
    {
        let Some(link) = &mut self.near else {
            return Ok(());
        };
        let change = link.peer_tunnel(epoch);
        self.follow(alloc, change, epoch, event)
    }
}

/// What a tunnel packet carries, which came by this arrival.
fn carried_by(alloc: Global, tunnel: &Tunnel<'_>, by: u64) -> Result<Carried, NoMemory>
    ensures tunnel { IfOk result (λ carried. told_by tunnel.now.old.bearer carried ≡ tunnelled tunnel.now) }
    ensures by { IfOk result (λ carried. carried.by ≡ by) }
{
    Ok(Carried {
        kind: tunnel.kind,
        epoch: tunnel.old.epoch,
        count: tunnel.count,
        number: tunnel.number,
        inner: Bytes::from_slice(alloc, tunnel.inner)?,
        by,
    })
}

/// Gives the packet inside a tunnel packet to the record of its link, as it waited to be sent there. An empty run only
/// names an epoch.
fn take_inner(alloc: Global, link: &mut Link, carried: Carried) -> Result<TakenList, NoMemory>
    ensures freed { (bearer : ℕ) → IfOk result (λ freed. freed ≡
        freed_by (told_by bearer carried) carried.by link.old) }
    ensures after { (bearer : ℕ) → OnOk result (link.new ≡ inner_taken (told_by bearer carried) carried.by link.old) }
    ensures err { OnErr result (link.new ≡ link.old) }
{
    if carried.count == 0 {
        link.name_epoch(alloc, carried.epoch);
        return Ok(TakenList::new(alloc));
    }
    let outcome = link.take_tunnelled(
        alloc,
        carried.epoch,
        carried.number,
        Some(restored(alloc, carried.inner)?),
        carried.by,
    )?;
    Ok(taken_in(alloc, outcome))
}

/// A packet as it waited to be sent on its own link. What is no packet stays as it is.
#[tactic(auto, unfolding(crate::specs::PairArrivals::restored))]
fn restored(alloc: Global, packet: Bytes) -> Result<Bytes, NoMemory>
    ensures { IfOk result (λ bytes. bytes ≡ restored packet) }
{
    let Ok(waited) = decode(packet.as_slice()) else {
        return Ok(packet);
    };
    waiting_bytes(alloc, &waited)
}

/// The packets that were taken.
fn taken_in(alloc: Global, outcome: LinkOutcome) -> TakenList
    ensures { result ≡ taken_in outcome }
{
    match outcome {
        LinkOutcome::Took(taken) => taken,
        LinkOutcome::Deferred => TakenList::new(alloc),
        LinkOutcome::Ignored(_) => TakenList::new(alloc),
    }
}

/// The packets behind the first one.
fn without_first(taken: TakenList) -> TakenList
    requires { 0 < length taken }
    ensures { result ≡ drop 1 taken }
{
    let mut behind = taken;
    behind.remove_first();
    behind
}

/// Adds those of the packets that have bytes behind others, in order.
#[tactic(auto, using(crate::proofs::Listed::bytes_append))]
fn add_with_bytes(packets: &mut TakenList, more: TakenList) -> Result<(), NoMemory>
    ensures { OnOk result (packets.new ≡ packets.old ++ with_bytes more) }
{
    let more = more.into_vec()?;
    for packet in more {
        if !packet.packet.is_empty() {
            packets.push(packet)?;
        }
    }
    Ok(())
}
