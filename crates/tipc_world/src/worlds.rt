//! The world: nodes and the air between them, its events, and the limits at which it stops.

ghost use Rattle.std.specs.Prelude.{◌≡◌, ◌+◌, ◌<◌, ◌≤◌, ◌==◌, ◌||◌, ◌&&◌, ◌++◌, ℕ, Bool, true, false, if◌then◌else◌, IfErr, IfOk, OnErr, OnOk};
ghost use Rattle.tipc_pick.specs.Choosing.{Choosing};
ghost use Rattle.tipc_replay.specs.Calls.{counts_at, CanHappenAt};
ghost use Rattle.tipc_replay.specs.Skies.{air_size};
ghost use Rattle.tipc_replay.specs.States.{ReplayState};
ghost use Rattle.tipc_world.specs.Events.{CanHappen};
ghost use Rattle.tipc_world.specs.Good.{IsGood};
ghost use Rattle.tipc_world.specs.Growth.{Grows};
ghost use Rattle.tipc_world.specs.Limits.{IsAnswered, Stops};
ghost use Rattle.tipc_world.specs.Merged.{merged, recorded_by, AddsAtFault};
ghost use Rattle.tipc_world.specs.RoundParts.{IsKept};
ghost use Rattle.tipc_world.specs.States.{is_there, no_nodes};
ghost use Rattle.tipc_world.specs.Steps.{by_in, IsJoined};

use crate::faults::{Limit, WorldFault};
use std::alloc::Global;
use std::marker::Model;
use tipc_pick::{Chooser, Pick};
use tipc_replay::{Replay, WorldEvent};
use tipc_types::{Answer, By, NoMemory};

/// The most events of a world. (This project's profile.)
const MOST_EVENTS: u64 = 300_000;

/// The most frames in the air of both bearers together. (This project's profile.)
const MOST_FRAMES: usize = 100_000;

/// Nodes and the air between them, whose calls are counted and stamped, and the chooser that says to which of those
/// that a name finds a message goes.
#[derive(Drop)]
pub struct World<P: Pick> {
    pub(crate) replay: Replay,
    events: u64,
    stamps: u64,
    chooser: Chooser<P>,
}

impl<P: Pick> Model for World<P> {
    ghost use Rattle.tipc_world.specs.Answered.{AreOrderly};
    ghost use Rattle.tipc_world.specs.States.{WorldView};
    ghost use Rattle.tipc_world.specs.Steady.{IsSteady};

    ghost Value = { WorldView P };

    ghost view = { λ w. record {
      state = record {
        members = w.replay.members;
        air = w.replay.air;
        events = w.events;
        stamps = w.stamps;
        lost = w.replay.lost;
      };
      chooser = w.chooser;
    } };

    ghost invariant = { λ w. IsSteady w.replay.members w.events w.stamps ×
        AreOrderly P.gives w.replay.members w.stamps w.chooser };
}

/// Whether one more event may happen to the nodes.
///
/// # Errors
///
/// The limit of events, exactly where the event counts as one and as many have happened.
fn begin(replay: &Replay, events: u64, event: &WorldEvent) -> Result<(), WorldFault>
    requires { CanHappenAt replay.now.members event.now }
    ensures ok { OnOk result (counts_at replay.now.members replay.now.air event.now ≡ true → events < 300000) }
    ensures err { IfErr result (λ fault. (fault ≡ WorldFault.Limit Limit.Events) × (300000 ≤ events)
        × (counts_at replay.now.members replay.now.air event.now ≡ true)) }
{
    if events < MOST_EVENTS || !replay.counts(event) {
        Ok(())
    } else {
        Err(WorldFault::Limit(Limit::Events))
    }
}

/// Who makes an event and when: the call of that stamp.
fn by_of(replay: &Replay, stamp: u64, event: &WorldEvent) -> By
    ensures { result ≡ by_in replay.now.members stamp event.now }
{
    By {
        stamp,
        caller: 0,
        call: replay.calls(event.node()),
    }
}

/// A count, and one more where there is one.
fn after(count: u64, more: bool) -> u64
    requires { count ≤ 300000 }
    ensures { result ≡ (if more then count + 1 else count) }
{
    if more { count + 1 } else { count }
}

/// Whether an event is a call that is recorded.
fn is_call(recorded: bool, counted: bool) -> bool
    ensures { result ≡ (recorded && counted) }
{
    recorded && counted
}

/// Whether the air has more frames than it may have, after an event that counts.
fn is_over(counted: bool, replay: &Replay) -> bool
    ensures over { result ≡ true → (counted ≡ true) × (100000 < air_size replay.now.air) }
    ensures within { result ≡ false → counted ≡ true → air_size replay.now.air ≤ 100000 }
{
    counted && replay.has_more_frames(MOST_FRAMES)
}

impl<P: Pick> World<P> {
    /// A world without nodes, whose messages by name go where the chooser says, from its turn 0 on.
    pub fn new(alloc: Global, chooser: Chooser<P>) -> World<P>
        requires start { chooser.turn ≡ 0 }
        ensures empty { result ≡ record { state = no_nodes; chooser = chooser } }
        ensures good { IsGood P.gives result }
    {
        let world = World {
            replay: Replay::new(alloc),
            events: 0,
            stamps: 0,
            chooser,
        };
        world.good();
        world
    }

    /// Tells what is always true of a world. It does nothing.
    pub fn good(&self)
        ensures { IsGood P.gives self.now }
    {
        self.replay.good();
    }

    /// Tells what every world keeps, with which the laws of settling begin. It does nothing.
    pub fn kept(&self)
        ensures { IsKept self.now.state }
    {
        self.replay.steady();
    }

    /// Adds a node in its first boot, which knows nobody.
    ///
    /// # Errors
    ///
    /// NoMemory, and then nothing is changed.
    pub fn add_node(&mut self, alloc: Global, n: u8) -> Result<(), NoMemory>
        requires range { (1 ≤ n) × (n ≤ 32) }
        requires absent { is_there self.old.state n ≡ false }
        ensures joins { OnOk result (IsJoined self.old.state self.new.state n) }
        ensures chooser { self.new.chooser ≡ self.old.chooser }
        ensures there { OnOk result ((m : ℕ) → is_there self.new.state m ≡ (m == n || is_there self.old.state m)) }
        ensures grows { Grows self.old.state self.new.state }
        ensures good { IsGood P.gives self.new }
        ensures err { OnErr result (self.new ≡ self.old) }
    {
        let joined = self.join(alloc, n);
        self.good();
        joined
    }

    /// Adds a node.
    fn join(&mut self, alloc: Global, n: u8) -> Result<(), NoMemory>
        requires range { (1 ≤ n) × (n ≤ 32) }
        requires absent { is_there self.old.state n ≡ false }
        ensures joins { OnOk result (IsJoined self.old.state self.new.state n) }
        ensures chooser { self.new.chooser ≡ self.old.chooser }
        ensures err { OnErr result (self.new ≡ self.old) }
    {
        self.replay.add_node(alloc, n, 1)?;
        Ok(())
    }

    /// Lets an event happen. The clause `answered` says exactly what becomes of the world, and what the answer is.
    ///
    /// # Errors
    ///
    /// Limit exactly where a limit is reached: at 300,000 events, where the event counts as one; where the journal of
    /// the node has no room for the call; and after an event that takes the air of both bearers past 100,000 frames,
    /// which happened then. Else NoMemory. At all but the limit of frames nothing is changed. The clause `stops` says
    /// so. To which match a message by name goes is a part of the clause `good`. The clauses `recorded` and `kept` say
    /// which calls stand in all journals then, in order of their stamps.
    pub fn step(&mut self, alloc: Global, event: WorldEvent) -> Result<Answer, WorldFault>
        requires { CanHappen self.old.state event }
        ensures answered { IfOk result (IsAnswered self.old.state event self.new.state) }
        ensures stops { IfErr result (Stops self.old.state event self.new.state) }
        ensures nodes { (m : ℕ) → is_there self.new.state m ≡ is_there self.old.state m }
        ensures pick { self.new.chooser.pick ≡ self.old.chooser.pick }
        ensures grows { Grows self.old.state self.new.state }
        ensures good { IsGood P.gives self.new }
        ensures recorded { IfOk result (λ answered.
            merged self.new.state ≡ merged self.old.state ++ recorded_by self.old.state event answered) }
        ensures kept { IfErr result (AddsAtFault self.old.state event self.new.state) }
    {
        self.good();
        let answer = self.advance(alloc, event);
        self.good();
        answer
    }

    /// Lets an event happen.
    fn advance(&mut self, alloc: Global, event: WorldEvent) -> Result<Answer, WorldFault>
        requires { CanHappen self.old.state event }
        ensures answered { IfOk result (IsAnswered self.old.state event self.new.state) }
        ensures stops { IfErr result (Stops self.old.state event self.new.state) }
        ensures pick { self.new.chooser.pick ≡ self.old.chooser.pick }
    {
        self.replay.good();
        begin(&self.replay, self.events, &event)?;
        let recorded = event.is_recorded();
        let by = by_of(&self.replay, self.stamps, &event);
        let happened = self.replay.happen(alloc, event, by, &mut self.chooser)?;
        self.events = after(self.events, happened.counted);
        self.stamps = after(self.stamps, is_call(recorded, happened.counted));
        if is_over(happened.counted, &self.replay) {
            return Err(WorldFault::Limit(Limit::Frames));
        }
        Ok(happened.answer)
    }
}
