//! Nodes and the air between them, and what may happen to them.

ghost use Rattle.std.specs.Prelude.{◌≡◌, ◌≢◌, ◌+◌, ◌<◌, ◌≤◌, ◌==◌, ◌||◌, ◌&&◌, [], List, ℕ, Bool, true, false, Some, None, length, slice_get, slice_index_or, is_some, if◌then◌else◌, IfErr, IfOk, OnErr, OnOk};
ghost use Rattle.tipc_types.specs.Address.{node_word};
ghost use Rattle.tipc_replay.specs.Choices.{ChoosesAt};
ghost use Rattle.tipc_replay.specs.Calls.{counts_at, has_room_at, is_call_at, is_recorded, node_of, CallStops, CanDoAt, CanHappenAt, HasNextBoot, RecordStops};
ghost use Rattle.tipc_replay.specs.Due.{frame_for, unarrived};
ghost use Rattle.tipc_replay.specs.Events.{AreSettled, DidAt, IsSettledAt, JoinsAt};
ghost use Rattle.tipc_replay.specs.Growth.{StageGrows};
ghost use Rattle.tipc_replay.specs.Replayed.{IsReplayed};
ghost use Rattle.tipc_replay.specs.States.{empty_replay, has_member, MemberState};
ghost use Rattle.tipc_replay.specs.Steady.{IsSteady};
ghost use Rattle.tipc_replay.specs.Steps.{stage, Becomes, Happens, IsArrival, IsReplayJoined, IsReplayStep};

use crate::air::Air;
use crate::events::WorldEvent;
use crate::flying::{emit, find, met_before, met_sender};
use crate::members::Member;
use std::alloc::Global;
use std::marker::Model;
use tipc_node::NodeFault;
use tipc_outside::Outbox;
use tipc_pick::{Chooser, Pick};
use tipc_types::{Answer, By, NoMemory};

/// Why an event didn't happen: the journal of its node has no room for the call, or memory ran out. Nothing is changed
/// then.
pub type ReplayFault = NodeFault;

/// The numbers of nodes are from 1 to 32.
const NUMBERS: usize = 33;

/// Nodes over all their boots and the air between them, which is every frame that was ever sent, of which any may
/// arrive at any time. Events are made with any caller, call number and stamp, and with any chooser.
#[derive(Drop)]
pub struct Replay {
    pub(crate) members: Vec<Option<Member>>,
    pub(crate) air: Air,
    pub(crate) lost: bool,
}

impl Model for Replay {
    ghost use Rattle.tipc_replay.specs.States.{ReplayState};
    ghost use Rattle.tipc_replay.specs.Steady.{IsSteady};

    ghost Value = { ReplayState };

    ghost view = { λ r. record { members = r.members.items; air = r.air; lost = r.lost } };

    ghost invariant = { λ r. IsSteady r.members.items r.air };
}

/// Makes room for the node of every number, without changing any look-up.
fn widen(members: &mut Vec<Option<Member>>) -> Result<(), NoMemory>
    ensures same { (m : ℕ) → slice_index_or members.new.items m None ≡ slice_index_or members.old.items m None }
    ensures wide { OnOk result (33 ≤ length members.new.items) }
    ensures err { OnErr result (members.new.items ≡ members.old.items) }
{
    members.reserve(NUMBERS)?;
    let missing = NUMBERS.saturating_sub(members.len());
    for _ in 0..missing {
        members.push_reserved(None);
    }
    Ok(())
}

/// Adds a node without links, which has just begun this boot.
fn add_at(
    members: &mut Vec<Option<Member>>,
    alloc: Global,
    n: u8,
    boot: u32,
) -> Result<(), NoMemory>
    requires number { (1 ≤ n) × (n ≤ 32) }
    requires boot { 1 ≤ boot }
    ensures joins { OnOk result (JoinsAt members.old.items members.new.items n boot) }
    ensures err { OnErr result (members.new.items ≡ members.old.items) }
{
    let member = Member::new(alloc, n, boot)?;
    widen(members)?;
    members[n as usize] = Some(member);
    Ok(())
}

/// What became of an event.
#[derive(Drop)]
pub struct Happened {
    /// Its answer.
    pub answer: Answer,
    /// Whether it counts as an event: an arrival of no frame, or of one that is too old, is none.
    pub counted: bool,
    /// Whether a frame was lost for want of memory.
    pub lost: bool,
}

/// Whether the journal of a node has room for a call. Where the node isn't there, it has.
fn room_at(members: &[Option<Member>], n: u8) -> bool
    ensures { result ≡ has_room_at members.now n }
{
    match members.get(n as usize) {
        Some(Some(member)) => member.has_room(),
        _ => true,
    }
}

/// Whether an event can be recorded, where it is one that is.
///
/// # Errors
///
/// JournalFull exactly where the journal of its node has no room for it.
fn check_room(members: &[Option<Member>], event: &WorldEvent) -> Result<(), NodeFault>
    ensures room { OnOk result (is_recorded event.now ≡ true → has_room_at members.now (node_of event.now) ≡ true) }
    ensures full { IfErr result (CallStops (is_recorded event.now) (has_room_at members.now (node_of event.now))) }
{
    if event.is_recorded() && !room_at(members, event.node()) {
        return Err(NodeFault::JournalFull);
    }
    Ok(())
}

/// Lets an event other than an arrival happen at its node, whose frames are put into the box.
fn happen_at<P: Pick>(
    members: &mut Vec<Option<Member>>,
    chooser: &mut Chooser<P>,
    alloc: Global,
    by: By,
    event: WorldEvent,
    out: &mut Outbox,
) -> Result<Answer, NodeFault>
    requires can { CanDoAt members.old.items event }
    requires there { is_some (slice_index_or members.old.items (node_of event) None) ≡ true }
    requires settled { AreSettled members.old.items }
    ensures did { IfOk result (λ a. DidAt members.old.items members.new.items by event [] out.old out.new a) }
    ensures chose { IfOk result (λ a. ChoosesAt P.gives members.old.items event a chooser.old chooser.new) }
    ensures room { is_recorded event ≡ true → OnOk result (has_room_at members.old.items (node_of event) ≡ true) }
    ensures full { IfErr result (CallStops (is_recorded event) (has_room_at members.old.items (node_of event))) }
    ensures err { OnErr result ((members.new.items ≡ members.old.items) × (out.new ≡ out.old)
        × (chooser.new ≡ chooser.old)) }
{
    match &mut members[event.node() as usize] {
        Some(member) => member.happen(alloc, by, event, chooser, out),
        None => unreachable!(),
    }
}

/// Lets a frame arrive at a node, whose frames are put into the box.
fn arrive_at(
    members: &mut Vec<Option<Member>>,
    alloc: Global,
    by: By,
    node: u8,
    bearer: u8,
    place: u64,
    frame: &[u8],
    out: &mut Outbox,
) -> Result<Answer, NodeFault>
    requires there { is_some (slice_index_or members.old.items node None) ≡ true }
    ensures did { IfOk result (λ a. DidAt members.old.items members.new.items by
        (WorldEvent.Arrive node bearer place) frame.now out.old out.new a) }
    ensures room { OnOk result (has_room_at members.old.items node ≡ true) }
    ensures full { IfErr result (RecordStops (has_room_at members.old.items node)) }
    ensures err { OnErr result ((members.new.items ≡ members.old.items) × (out.new ≡ out.old)) }
{
    match &mut members[node as usize] {
        Some(member) => member.arrive(alloc, by, bearer, place, frame, out),
        None => unreachable!(),
    }
}

/// Lets an event other than an arrival happen to the nodes, the air and the chooser.
fn turn<P: Pick>(
    members: &mut Vec<Option<Member>>,
    air: &mut Air,
    chooser: &mut Chooser<P>,
    alloc: Global,
    by: By,
    event: WorldEvent,
) -> Result<Happened, NodeFault>
    requires can { CanHappenAt members.old.items event }
    requires next { HasNextBoot members.old.items event }
    requires other { (node bearer frame : ℕ) → event ≢ WorldEvent.Arrive node bearer frame }
    requires settled { AreSettled members.old.items }
    requires steady { IsSteady members.old.items air.old }
    ensures happens { IfOk result (λ h. Happens (stage members.old.items air.old)
        (stage members.new.items air.new) by event [] h.answer h.lost × (h.counted ≡ true)) }
    ensures chose { IfOk result (λ h. ChoosesAt P.gives members.old.items event h.answer chooser.old chooser.new) }
    ensures room { OnOk result (is_recorded event ≡ true → has_room_at members.old.items (node_of event) ≡ true) }
    ensures full { IfErr result (CallStops (is_recorded event) (has_room_at members.old.items (node_of event))) }
    ensures err { OnErr result ((members.new.items ≡ members.old.items) × (air.new ≡ air.old)
        × (chooser.new ≡ chooser.old)) }
{
    check_room(members, &event)?;
    let node = event.node();
    let met = met_before(members, alloc, &event)?;
    let mut out = Outbox::new(alloc);
    let answer = happen_at(members, chooser, alloc, by, event, &mut out)?;
    let lost = emit(members, &met, air, node, out);
    Ok(Happened {
        answer,
        lost,
        counted: true,
    })
}

/// Lets the frame of that place in a bearer's air arrive at a node.
fn arrive(
    members: &mut Vec<Option<Member>>,
    air: &mut Air,
    alloc: Global,
    by: By,
    node: u8,
    bearer: u8,
    place: u64,
) -> Result<Happened, NodeFault>
    requires there { is_some (slice_index_or members.old.items node None) ≡ true }
    requires settled { AreSettled members.old.items }
    requires steady { IsSteady members.old.items air.old }
    ensures arrives { IfOk result (λ h. IsArrival (stage members.old.items air.old)
        (stage members.new.items air.new) by node bearer place h.answer h.lost) }
    ensures counted { IfOk result (λ h.
        h.counted ≡ counts_at members.old.items air.old (WorldEvent.Arrive node bearer place)) }
    ensures room { OnOk result (is_call_at members.old.items air.old (WorldEvent.Arrive node bearer place) ≡ true →
        has_room_at members.old.items node ≡ true) }
    ensures full { IfErr result (CallStops
        (is_call_at members.old.items air.old (WorldEvent.Arrive node bearer place))
        (has_room_at members.old.items node)) }
    ensures err { OnErr result ((members.new.items ≡ members.old.items) × (air.new ≡ air.old)) }
{
    let sent = match find(members, air, node, bearer, place) {
        Ok(sent) => sent,
        Err(answer) => {
            return Ok(Happened {
                answer,
                lost: false,
                counted: false,
            });
        }
    };
    let frame = sent.frame.as_slice();
    let met = met_sender(members, node, frame);
    let mut out = Outbox::new(alloc);
    let answer = arrive_at(members, alloc, by, node, bearer, place, frame, &mut out)?;
    let lost = emit(members, &met, air, node, out);
    Ok(Happened {
        answer,
        lost,
        counted: true,
    })
}

/// Lets an event happen to the nodes, the air and the chooser.
fn happen<P: Pick>(
    members: &mut Vec<Option<Member>>,
    air: &mut Air,
    chooser: &mut Chooser<P>,
    alloc: Global,
    by: By,
    event: WorldEvent,
) -> Result<Happened, NodeFault>
    requires can { CanHappenAt members.old.items event }
    requires next { HasNextBoot members.old.items event }
    requires settled { AreSettled members.old.items }
    requires steady { IsSteady members.old.items air.old }
    ensures becomes { IfOk result (λ h. Becomes (stage members.old.items air.old) by event
        (stage members.new.items air.new) h.answer h.lost) }
    ensures chose { IfOk result (λ h. ChoosesAt P.gives members.old.items event h.answer chooser.old chooser.new) }
    ensures counted { IfOk result (λ h. h.counted ≡ counts_at members.old.items air.old event) }
    ensures room { OnOk result (is_call_at members.old.items air.old event ≡ true →
        has_room_at members.old.items (node_of event) ≡ true) }
    ensures full { IfErr result
        (CallStops (is_call_at members.old.items air.old event) (has_room_at members.old.items (node_of event))) }
    ensures err { OnErr result ((members.new.items ≡ members.old.items) × (air.new ≡ air.old)
        × (chooser.new ≡ chooser.old)) }
{
    match event {
        WorldEvent::Arrive {
            node,
            bearer,
            frame,
        } => arrive(members, air, alloc, by, node, bearer, frame),
        other => turn(members, air, chooser, alloc, by, other),
    }
}

impl Replay {
    /// No nodes, among which nothing has happened.
    pub fn new(alloc: Global) -> Replay
        ensures empty { result ≡ empty_replay }
        ensures good { IsReplayed result.members result.air }
    {
        let replay = Replay {
            members: Vec::new(alloc),
            air: Air::new(alloc),
            lost: false,
        };
        replay.good();
        replay
    }

    /// Tells what is always true of the nodes and the air between them. It does nothing.
    pub fn good(&self)
        ensures { IsReplayed self.now.members self.now.air }
    {
        let _ = &self.members;
    }

    /// Tells what each event keeps of the nodes and the air between them, from which all that [`Replay::good`] tells
    /// follows. It does nothing.
    pub fn steady(&self)
        ensures { IsSteady self.now.members self.now.air }
    {
        let _ = &self.members;
    }

    /// Adds a node that has just begun this boot, and knows nobody.
    ///
    /// # Errors
    ///
    /// NoMemory, and then nothing is changed.
    pub fn add_node(&mut self, alloc: Global, n: u8, boot: u32) -> Result<(), NoMemory>
        requires range { (1 ≤ n) × (n ≤ 32) }
        requires boot { 1 ≤ boot }
        requires absent { has_member self.old.members n ≡ false }
        ensures joins { OnOk result (IsReplayJoined self.old self.new n boot) }
        ensures good { IsReplayed self.new.members self.new.air }
        ensures err { OnErr result (self.new ≡ self.old) }
    {
        let joined = self.join(alloc, n, boot);
        self.good();
        joined
    }

    /// Adds a node.
    fn join(&mut self, alloc: Global, n: u8, boot: u32) -> Result<(), NoMemory>
        requires range { (1 ≤ n) × (n ≤ 32) }
        requires boot { 1 ≤ boot }
        requires absent { has_member self.old.members n ≡ false }
        ensures joins { OnOk result (IsReplayJoined self.old self.new n boot) }
        ensures err { OnErr result (self.new ≡ self.old) }
    {
        add_at(&mut self.members, alloc, n, boot)?;
        Ok(())
    }

    /// Lets an event happen, as the call of that caller, call number and stamp where it is one that is recorded. The
    /// clause `happened` says exactly what becomes of the nodes and the air, and what the answer is. A message by name
    /// that was sent went to the match that the chooser gives for its turn, and the chooser goes to its next turn in
    /// such a step alone: the clause `chose` says so.
    ///
    /// # Errors
    ///
    /// JournalFull exactly where the event is recorded and the journal of its node has no room for it, else NoMemory.
    /// Nothing is changed then.
    pub fn step<P: Pick>(
        &mut self,
        alloc: Global,
        event: WorldEvent,
        by: By,
        chooser: &mut Chooser<P>,
    ) -> Result<Answer, ReplayFault>
        requires can { CanHappenAt self.old.members event }
        requires next { HasNextBoot self.old.members event }
        ensures happened { IfOk result (IsReplayStep self.old by event self.new) }
        ensures chose { IfOk result (λ a. ChoosesAt P.gives self.old.members event a chooser.old chooser.new) }
        ensures room { OnOk result (is_call_at self.old.members self.old.air event ≡ true →
            has_room_at self.old.members (node_of event) ≡ true) }
        ensures full { IfErr result (CallStops (is_call_at self.old.members self.old.air event)
            (has_room_at self.old.members (node_of event))) }
        ensures nodes { (n : ℕ) → has_member self.new.members n ≡ has_member self.old.members n }
        ensures grows { StageGrows (stage self.old.members self.old.air) (stage self.new.members self.new.air) }
        ensures good { IsReplayed self.new.members self.new.air }
        ensures err { OnErr result ((self.new ≡ self.old) × (chooser.new ≡ chooser.old)) }
    {
        let happened = self.happen(alloc, event, by, chooser);
        self.good();
        Ok(happened?.answer)
    }

    /// Lets an event happen, as [`Replay::step`] does, and says besides whether it counts as an event, and whether a
    /// frame was lost in it for want of memory, which no clause tells.
    ///
    /// # Errors
    ///
    /// As those of [`Replay::step`].
    pub fn happen<P: Pick>(
        &mut self,
        alloc: Global,
        event: WorldEvent,
        by: By,
        chooser: &mut Chooser<P>,
    ) -> Result<Happened, ReplayFault>
        requires can { CanHappenAt self.old.members event }
        requires next { HasNextBoot self.old.members event }
        ensures happened { IfOk result (λ h. IsReplayStep self.old by event self.new h.answer) }
        ensures chose { IfOk result (λ h. ChoosesAt P.gives self.old.members event h.answer chooser.old chooser.new) }
        ensures counted { IfOk result (λ h. h.counted ≡ counts_at self.old.members self.old.air event) }
        ensures room { OnOk result (is_call_at self.old.members self.old.air event ≡ true →
            has_room_at self.old.members (node_of event) ≡ true) }
        ensures full { IfErr result (CallStops (is_call_at self.old.members self.old.air event)
            (has_room_at self.old.members (node_of event))) }
        ensures err { OnErr result ((self.new ≡ self.old) × (chooser.new ≡ chooser.old)) }
    {
        let happened = happen(&mut self.members, &mut self.air, chooser, alloc, by, event)?;
        self.lost |= happened.lost;
        Ok(happened)
    }
}
