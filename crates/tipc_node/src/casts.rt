//! A broadcast packet that arrives: what it will make of the node is made first, which may find no memory, and then the
//! node is changed by steps that take none.

ghost use Rattle.std.specs.Prelude.{◌≡◌, ◌≤◌, ◌+◌, ◌-◌, ◌++◌, ◌∷◌, ℕ, List, [], Bool, true, false, Err, None, Some, is_some, length, slice_index_or, sum_by, IfOk, OnErr, OnOk};
ghost use Rattle.std.specs.List.{list_all};
ghost use Rattle.tipc_types.specs.Address.{node_word};
ghost use Rattle.tipc_types.specs.Limits.{window_size};
ghost use Rattle.tipc_outside.specs.Frames.{Adds};
ghost use Rattle.tipc_broadcast.specs.Casting.{TakesFew};
ghost use Rattle.tipc_journal.specs.Room.{entry_bytes, free_entries, free_message_bytes, has_journal_room};
ghost use Rattle.tipc_pair.specs.Messages.{OpensTo};
ghost use Rattle.tipc_node.specs.CastArrivals.{cast_answering};
ghost use Rattle.tipc_node.specs.CastHearings.{alone_after, alone_entries, answered_for, cast_count, cast_course, cast_frames, cast_link, coming_for, is_alone, spread_by, spread_entries, spread_in, with_joining, CastsDue, IsCastDue, IsCastPrepared, IsComing, IsPreparedAt};
ghost use Rattle.tipc_node.specs.Drafts.{own_of, start_of, with_sockets_in};
ghost use Rattle.tipc_node.specs.Hearings.{is_plain, AllDelivered};
ghost use Rattle.tipc_node.specs.Multicasts.{is_multicast};
ghost use Rattle.tipc_node.specs.declared.neighbours.Neighbour.{Neighbour};
ghost use Rattle.tipc_node.specs.Neighbours.{with_pair};
ghost use Rattle.tipc_node.specs.Nodes.{entries_in, neighbour_of};

use crate::cores::Core;
use crate::drafts::{Draft, keep};
use crate::frames::{Delivery, Due, are_few, arrival_answer, fits, prepare_deliveries};
use crate::neighbours::Neighbour;
use crate::steps::{NodeFault, has_journal_room, record};
use std::alloc::Global;
use tipc_broadcast::{Broadcast, CastArriving};
use tipc_journal::{Entry, Journal, PortList};
use tipc_outside::Outbox;
use tipc_pair::PairOutcome;
use tipc_reassembly::Reassembly;
use tipc_recv_window::LinkOutcome;
use tipc_sockets::{Sockets, Spreading};
use tipc_types::{Addr, Answer, Arrival, By, EventNote, Flow, Form, Message, NoMemory, TakenList};

/// The numbers of members are below this bit. (This project's profile.)
const MEMBERS: u64 = 1 << 32;

/// What a broadcast packet will make of a node.
#[derive(Drop)]
pub struct CastHearing {
    /// The number of the arrival at this node.
    pub number: u64,
    /// What it will make of the broadcast link.
    pub arriving: CastArriving,
    /// What will be begun of the peer's broadcast.
    pub casts: Reassembly,
    /// What it delivers.
    pub deliveries: Vec<Delivery>,
    /// What will have become of it.
    pub answer: Arrival,
}

/// Opens what the broadcast link makes of an arrival.
fn opened(
    alloc: Global,
    casts: &mut Reassembly,
    outcome: &LinkOutcome,
) -> Result<PairOutcome, NoMemory>
    ensures { IfOk result (λ given. OpensTo casts.old outcome.now given casts.new) }
{
    match outcome {
        LinkOutcome::Took(taken) => Ok(PairOutcome::Took(casts.open(alloc, taken.as_slice())?)),
        LinkOutcome::Deferred => Ok(PairOutcome::Deferred),
        LinkOutcome::Ignored(why) => Ok(PairOutcome::Ignored(*why)),
    }
}

/// What a broadcast packet will make of a node; `number` is the arrival's number at it. Nothing is changed yet.
fn prepare_cast(
    alloc: Global,
    broadcast: &Broadcast,
    neighbour: &Neighbour,
    number: u64,
    due: &Due<'_>,
) -> Result<CastHearing, NoMemory>
    requires at { IsCastDue (Some neighbour.now) due.now }
    ensures number { IfOk result (λ h. h.number ≡ number) }
    ensures prepared { IfOk result (λ h. IsCastPrepared broadcast.now neighbour.now due.now h) }
{
    let boot = (due.first % MEMBERS) as u32;
    let members = (due.second % MEMBERS) as u32;
    let arriving = broadcast.prepare(alloc, boot, members, &due.packet, number)?;
    let mut casts = neighbour.casts.copy()?;
    let given = opened(alloc, &mut casts, arriving.outcome())?;
    let contact = neighbour.contact_numbers();
    let deliveries = prepare_deliveries(alloc, Flow::Broadcast, due.peer, contact, &given)?;
    if !are_few(deliveries.as_slice()) {
        return Err(NoMemory);
    }
    let answer = arrival_answer(&given, deliveries.as_slice());
    Ok(CastHearing {
        number,
        arriving,
        casts,
        deliveries,
        answer,
    })
}

/// What a STATE on the bearer of a broadcast arrival may be due for.
#[derive(Clone, Copy)]
struct CastCount {
    /// Whether the packet was taken, or waits.
    is_heard: bool,
    /// How many packets were taken.
    taken: u32,
    /// Whether the packet waits.
    is_deferred: bool,
}

/// How many packets were taken.
fn packet_count(taken: &TakenList) -> u32
    requires { length taken.now ≤ window_size }
    ensures { result ≡ length taken.now }
{
    taken.len() as u32
}

/// What a STATE may be due for by what the broadcast link made of an arrival.
fn cast_count(outcome: &LinkOutcome) -> CastCount
    requires few { TakesFew outcome.now }
    ensures { result ≡ cast_count outcome.now }
{
    match outcome {
        LinkOutcome::Took(taken) => CastCount {
            is_heard: true,
            taken: packet_count(taken),
            is_deferred: false,
        },
        LinkOutcome::Deferred => CastCount {
            is_heard: true,
            taken: 0,
            is_deferred: true,
        },
        LinkOutcome::Ignored(_) => CastCount {
            is_heard: false,
            taken: 0,
            is_deferred: false,
        },
    }
}

/// Whether a message is a multicast, or there is none.
fn is_multicast(message: &Option<Message>) -> bool
    ensures { result ≡ is_multicast message.now }
{
    match message {
        None => true,
        Some(Message::Payload { form, .. }) => *form == Form::Multicast,
        Some(Message::Items { .. }) => false,
    }
}

/// Whether an arrival delivers one multicast at most, and nothing else with a message: what becomes of it is known
/// before it is there.
fn is_alone(deliveries: &[Delivery]) -> bool
    ensures { result ≡ is_alone deliveries.now }
{
    match deliveries {
        [] => true,
        [one] => is_multicast(&one.message),
        _ => false,
    }
}

/// What is told of a broadcast arrival that delivers one multicast at most, and what that makes of the sockets.
#[derive(Drop)]
struct CastTold {
    /// What is told.
    entries: Vec<Entry>,
    /// What it makes of the sockets.
    spreading: Option<Spreading>,
}

/// What is told of a delivery that is a multicast or has no message, and what it makes of the sockets.
fn tell_cast(alloc: Global, sockets: &Sockets, delivery: Delivery) -> Result<CastTold, NoMemory>
    ensures entries { IfOk result (λ told. told.entries.items ≡
        delivery.entry ∷ spread_entries sockets.now delivery.message) }
    ensures spreading { IfOk result (λ told. told.spreading ≡ spread_by sockets.now delivery.message) }
{
    let mut entries = Vec::new(alloc);
    entries.push(delivery.entry)?;
    let Some(m) = delivery.message else {
        return Ok(CastTold {
            entries,
            spreading: None,
        });
    };
    let spreading = sockets.spreading(alloc, &m, true)?;
    let ports = PortList::from_slice(alloc, spreading.ports())?;
    entries.push(Entry::Queued { ports })?;
    Ok(CastTold {
        entries,
        spreading: Some(spreading),
    })
}

/// What is told of a broadcast arrival that delivers one multicast at most, and what that makes of the sockets.
fn tell_alone(
    alloc: Global,
    sockets: &Sockets,
    deliveries: Vec<Delivery>,
) -> Result<CastTold, NoMemory>
    requires { is_alone deliveries.items ≡ true }
    ensures entries { IfOk result (λ told. told.entries.items ≡ alone_entries sockets.now deliveries.items) }
    ensures spreading { IfOk result (λ told. told.spreading ≡ spread_in sockets.now deliveries.items) }
{
    let mut left = deliveries;
    match left.pop() {
        Some(delivery) => tell_cast(alloc, sockets, delivery),
        None => Ok(CastTold {
            entries: Vec::new(alloc),
            spreading: None,
        }),
    }
}

impl Draft {
    /// This is begun of the broadcast of the peer of that number.
    fn set_casts(&mut self, peer: u8, casts: Reassembly)
        requires peer { (1 ≤ peer) × (peer ≤ 32) }
        requires there { is_some (slice_index_or self.old.work.neighbours peer None) ≡ true }
        ensures { (x : Neighbour) → slice_index_or self.old.work.neighbours peer None ≡ Some x →
            self.new ≡ record self.old { work = with_joining self.old.work peer x casts } }
    {
        let Some(neighbour) = &mut self.neighbours[peer as usize] else {
            unreachable!()
        };
        neighbour.casts = casts;
    }

    /// So it is, and the neighbour was copied before.
    fn begin_casts(&mut self, peer: u8, casts: Reassembly) -> Result<(), NoMemory>
        requires peer { (1 ≤ peer) × (peer ≤ 32) }
        requires there { is_some (slice_index_or self.old.work.neighbours peer None) ≡ true }
        ensures begun { (x : Neighbour) → slice_index_or self.old.work.neighbours peer None ≡ Some x →
            OnOk result (self.new.work ≡ with_joining self.old.work peer x casts) }
        ensures out { self.new.out ≡ self.old.out }
        ensures start { start_of self.new ≡ start_of self.old }
    {
        keep(&mut self.copies, self.neighbours.as_slice(), peer)?;
        let Some(neighbour) = &mut self.neighbours[peer as usize] else {
            unreachable!()
        };
        neighbour.casts = casts;
        Ok(())
    }

    /// This is begun of the broadcast of the peer of that number, and what its packet gave is delivered. The journal is
    /// made ready for the step.
    fn cast_in(
        &mut self,
        alloc: Global,
        journal: &mut Journal,
        peer: u8,
        casts: Reassembly,
        deliveries: Vec<Delivery>,
    ) -> Result<(), NoMemory>
        requires peer { (1 ≤ peer) × (peer ≤ 32) }
        requires there { is_some (slice_index_or self.old.work.neighbours peer None) ≡ true }
        requires plain { list_all is_plain (entries_in deliveries.items) ≡ true }
        ensures delivered { (x : Neighbour) → slice_index_or self.old.work.neighbours peer None ≡ Some x →
            OnOk result (AllDelivered (own_of self.old) peer (with_joining self.old.work peer x casts) deliveries.items
            self.new.work self.old.out self.new.out) }
        ensures journal { journal.new.entries ≡ journal.old.entries }
        ensures kept { journal.new.kept ≡ journal.old.kept }
        ensures spare { OnOk result (length self.new.work.inside + 2 ≤ journal.new.spare) }
        ensures fits { OnOk result ((length self.new.work.inside ≤ free_entries - 4) ×
            (sum_by entry_bytes self.new.work.inside ≤ free_message_bytes)) }
        ensures start { start_of self.new ≡ start_of self.old }
    {
        self.begin_casts(peer, casts)?;
        self.deliver_all(alloc, peer, deliveries)?;
        if !fits(self.inside.as_slice()) {
            return Err(NoMemory);
        }
        journal.reserve(self.inside.len() as u64 + 2)?;
        Ok(())
    }

    /// A multicast is queued as it was told, where one was.
    fn spread_told(&mut self, spreading: Option<Spreading>)
        requires { (ds : List Delivery) × (spreading ≡ spread_in self.old.work.sockets ds) }
        ensures { (ds : List Delivery) → spreading ≡ spread_in self.old.work.sockets ds →
            self.new ≡ with_sockets_in self.old (alone_after self.old.work.sockets ds) }
    {
        match spreading {
            Some(spreading) => self.spread(spreading),
            None => {}
        }
    }
}

/// The STATE that is due on a bearer after a broadcast arrival leaves, where the packet wasn't ignored.
fn answer_cast(
    alloc: Global,
    broadcast: &Broadcast,
    neighbour: &mut Neighbour,
    due: &Due<'_>,
    outcome: &LinkOutcome,
    out: &mut Outbox,
)
    requires peer { (1 ≤ due.now.peer) × (due.now.peer ≤ 32) }
    requires bearer { due.now.bearer ≤ 1 }
    requires few { TakesFew outcome.now }
    ensures after { neighbour.new ≡ with_pair neighbour.old (cast_answering outcome.now due.now.bearer
        (node_word due.now.peer) broadcast.now neighbour.old).pair }
    ensures frames { Adds out.old out.new (cast_answering outcome.now due.now.bearer
        (node_word due.now.peer) broadcast.now neighbour.old).states }
{
    let count = cast_count(outcome);
    if !count.is_heard {
        return;
    }
    let peer = Addr::node(due.peer);
    let asks = count.is_deferred && broadcast.deferred(peer) == 1;
    let shown = broadcast.shown(peer);
    neighbour
        .pair
        .answer(alloc, due.bearer, count.taken, asks, shown, out);
}

/// The broadcast link takes a packet that arrived, as it was prepared, and the STATE that is due on the bearer leaves.
fn commit_cast(
    alloc: Global,
    broadcast: &mut Broadcast,
    neighbour: &mut Neighbour,
    due: &Due<'_>,
    arriving: CastArriving,
    out: &mut Outbox,
)
    requires peer { (1 ≤ due.now.peer) × (due.now.peer ≤ 32) }
    requires bearer { due.now.bearer ≤ 1 }
    requires prepared { IsComing broadcast.old due.now arriving }
    ensures link { (by : ℕ) → arriving ≡ coming_for broadcast.old due.now by →
        broadcast.new ≡ cast_link broadcast.old due.now by }
    ensures answered { (by : ℕ) → arriving ≡ coming_for broadcast.old due.now by →
        neighbour.new ≡ with_pair neighbour.old (cast_course broadcast.old due.now by neighbour.old).pair }
    ensures frames { (by : ℕ) → arriving ≡ coming_for broadcast.old due.now by →
        Adds out.old out.new (cast_frames broadcast.old due.now by neighbour.old) }
{
    let outcome = broadcast.commit(arriving);
    answer_cast(alloc, broadcast, neighbour, due, &outcome, out);
}

impl Draft {
    /// The broadcast link takes a packet that arrived, as it was prepared, and the neighbour from which it comes sends
    /// the STATE that is due on the bearer.
    fn follow_cast(
        &mut self,
        alloc: Global,
        broadcast: &mut Broadcast,
        due: &Due<'_>,
        arriving: CastArriving,
        out: &mut Outbox,
    )
        requires peer { (1 ≤ due.now.peer) × (due.now.peer ≤ 32) }
        requires bearer { due.now.bearer ≤ 1 }
        requires prepared { IsComing broadcast.old due.now arriving }
        requires there { is_some (slice_index_or self.old.work.neighbours due.now.peer None) ≡ true }
        ensures link { (by : ℕ) → arriving ≡ coming_for broadcast.old due.now by →
            broadcast.new ≡ cast_link broadcast.old due.now by }
        ensures answered { (by : ℕ) (y : Neighbour) → arriving ≡ coming_for broadcast.old due.now by →
            slice_index_or self.old.work.neighbours due.now.peer None ≡ Some y →
            self.new ≡ record self.old { work = answered_for broadcast.old due.now by self.old.work y } }
        ensures frames { (by : ℕ) (y : Neighbour) → arriving ≡ coming_for broadcast.old due.now by →
            slice_index_or self.old.work.neighbours due.now.peer None ≡ Some y →
            Adds out.old out.new (cast_frames broadcast.old due.now by y) }
    {
        let Some(neighbour) = &mut self.neighbours[due.peer as usize] else {
            unreachable!()
        };
        commit_cast(alloc, broadcast, neighbour, due, arriving, out);
    }
}

impl Core {
    /// A broadcast packet arrives that gives one multicast at most: as [`Core::hear_cast`]. What can fail is done
    /// first, and nothing is copied.
    fn cast_alone(
        &mut self,
        alloc: Global,
        by: By,
        due: &Due<'_>,
        heard: CastHearing,
        out: &mut Outbox,
    ) -> Result<Arrival, NoMemory>
        requires due { IsCastDue (neighbour_of self.old due.now.peer) due.now }
        requires room { has_journal_room self.old.journal ≡ true }
        requires prepared { IsPreparedAt self.old.casting (neighbour_of self.old due.now.peer) due.now heard }
        requires alone { is_alone heard.deliveries.items ≡ true }
        ensures heard { IfOk result (λ a. CastsDue self.old self.new by heard.number due.now out.old out.new a) }
        ensures err { OnErr result ((self.new ≡ self.old) × (out.new ≡ out.old)) }
    {
        let CastTold { entries, spreading } = tell_alone(
            alloc,
            self.draft.sockets(),
            heard.deliveries,
        )?;
        if !fits(entries.as_slice()) {
            return Err(NoMemory);
        }
        self.journal.reserve(entries.len() as u64 + 2)?;
        self.draft.set_casts(due.peer, heard.casts);
        self.draft
            .follow_cast(alloc, &mut self.broadcast, due, heard.arriving, out);
        self.draft.spread_told(spreading);
        let note = EventNote::Arrive {
            bearer: due.bearer,
            number: heard.number,
        };
        let kept = Answer::Arrived(heard.answer);
        record(&mut self.journal, by, note, entries, kept);
        Ok(heard.answer)
    }

    /// A broadcast packet arrives that gives more: as [`Core::hear_cast`]. Where memory runs out, the node is made what
    /// it was.
    fn cast_each(
        &mut self,
        alloc: Global,
        by: By,
        due: &Due<'_>,
        heard: CastHearing,
        out: &mut Outbox,
    ) -> Result<Arrival, NoMemory>
        requires due { IsCastDue (neighbour_of self.old due.now.peer) due.now }
        requires room { has_journal_room self.old.journal ≡ true }
        requires prepared { IsPreparedAt self.old.casting (neighbour_of self.old due.now.peer) due.now heard }
        ensures heard { IfOk result (λ a. CastsDue self.old self.new by heard.number due.now out.old out.new a) }
        ensures err { OnErr result ((self.new ≡ self.old) × (out.new ≡ out.old)) }
    {
        let before = self.draft.sockets().copy()?;
        let Ok(()) = self.draft.cast_in(
            alloc,
            &mut self.journal,
            due.peer,
            heard.casts,
            heard.deliveries,
        )
        else {
            self.draft.take_back(alloc, before);
            return Err(NoMemory);
        };
        let note = EventNote::Arrive {
            bearer: due.bearer,
            number: heard.number,
        };
        let kept = Answer::Arrived(heard.answer);
        self.draft
            .conclude(alloc, &mut self.journal, by, note, kept, out);
        self.draft
            .follow_cast(alloc, &mut self.broadcast, due, heard.arriving, out);
        Ok(heard.answer)
    }

    /// A broadcast packet arrives, and there is room for the call: as [`Core::hear_cast`].
    fn take_cast(
        &mut self,
        alloc: Global,
        by: By,
        number: u64,
        due: &Due<'_>,
        out: &mut Outbox,
    ) -> Result<Arrival, NoMemory>
        requires due { IsCastDue (neighbour_of self.old due.now.peer) due.now }
        requires room { has_journal_room self.old.journal ≡ true }
        ensures heard { IfOk result (λ a. CastsDue self.old self.new by number due.now out.old out.new a) }
        ensures err { OnErr result ((self.new ≡ self.old) × (out.new ≡ out.old)) }
    {
        let Some(neighbour) = self.neighbour(due.peer) else {
            unreachable!()
        };
        let heard = prepare_cast(alloc, &self.broadcast, neighbour, number, due)?;
        if is_alone(heard.deliveries.as_slice()) {
            self.cast_alone(alloc, by, due, heard, out)
        } else {
            self.cast_each(alloc, by, due, heard, out)
        }
    }

    /// A broadcast packet of a peer arrives; `number` is its number among all that arrived at this node. It is ignored
    /// for the first reason that the broadcast link has. What it gives is recorded as delivered, and has its fate: a
    /// multicast waits at each own port that offers in its range to other nodes and has room. A STATE that is due on
    /// the bearer of the arrival is sent last, where a link is up there.
    ///
    /// # Errors
    ///
    /// JournalFull exactly where the journal has no room for a call, else NoMemory. Neither changes anything.
    pub(crate) fn hear_cast(
        &mut self,
        alloc: Global,
        by: By,
        number: u64,
        due: &Due<'_>,
        out: &mut Outbox,
    ) -> Result<Arrival, NodeFault>
        requires due { IsCastDue (neighbour_of self.old due.now.peer) due.now }
        ensures heard { IfOk result (λ a. CastsDue self.old self.new by number due.now out.old out.new a) }
        ensures room { OnOk result (has_journal_room self.old.journal ≡ true) }
        ensures full { has_journal_room self.old.journal ≡ false → result ≡ Err NodeFault.JournalFull }
        ensures only { result ≡ Err NodeFault.JournalFull → has_journal_room self.old.journal ≡ false }
        ensures err { OnErr result ((self.new ≡ self.old) × (out.new ≡ out.old)) }
    {
        if !has_journal_room(&self.journal) {
            return Err(NodeFault::JournalFull);
        }
        let arrived = self.take_cast(alloc, by, number, due, out)?;
        Ok(arrived)
    }
}
