//! Frames that arrive where they are for, and rounds of ticks and arrivals until nothing is under way.

ghost use Rattle.std.specs.Prelude.{◌≡◌, ◌≤◌, ◌+◌, ◌*◌, true, if◌then◌else◌, is_some, IfOk, IfSome, OnOk};
ghost use Rattle.tipc_world.specs.Acknowledged.{AllCastsAreReleased, AllIsAcknowledged};
ghost use Rattle.tipc_world.specs.Courses.{numbers, Continues, Maybe, Takes, TakesAll, TakesCounted};
ghost use Rattle.tipc_world.specs.Ends.{ends_of, AreBefore};
ghost use Rattle.tipc_world.specs.Good.{IsGood};
ghost use Rattle.tipc_world.specs.Measures.{NoMoreIsUnderWay};
ghost use Rattle.tipc_world.specs.Poised.{load_under_way, ComesToRest, IsDownWorld, IsPoised, StaysPoised};
ghost use Rattle.tipc_replay.specs.Due.{frame_for};
ghost use Rattle.tipc_replay.specs.Readers.{world_load};
ghost use Rattle.tipc_world.specs.Settling.{arrival_asked, arrival_at, is_among, settled_by, tick_asked, Arrivals, Delivers, IsForOne, MakesRounds, Round, Settles};
ghost use Rattle.tipc_world.specs.States.{is_there};

use crate::faults::WorldFault;
use crate::places::Places;
use crate::worlds::World;
use std::alloc::Global;
use tipc_pick::Pick;
use tipc_replay::WorldEvent;
use tipc_types::{EventNote, To};

/// One more than the highest number of a node.
const NUMBERS: u8 = 33;

/// The nodes that frames arrive at.
#[derive(Clone, Copy, Debug, PartialEq, Eq)]
pub enum Receivers {
    /// Every node.
    Any,
    /// These two alone.
    Both(u8, u8),
}

impl Receivers {
    /// Whether a node is one of them.
    pub fn has(self, node: u8) -> bool
        ensures { result ≡ is_among self node }
    {
        match self {
            Receivers::Any => true,
            Receivers::Both(first, second) => node == first || node == second,
        }
    }
}

/// What a world is after rounds of ticks and arrivals. (This project's profile.)
#[derive(Clone, Copy, Debug, PartialEq, Eq)]
pub enum Settled {
    /// No packet is unacknowledged, and none waits.
    Quiet,
    /// Packets are under way.
    Unsettled {
        /// How many are unacknowledged.
        unacked: u64,
        /// How many wait.
        waiting: u64,
    },
}

/// The arrival of the frame at a place of a bearer's air at a node.
fn arrival(bearer: u8, place: u64, node: u8) -> WorldEvent
    ensures { result ≡ WorldEvent.Arrive node bearer place }
{
    WorldEvent::Arrive {
        node,
        bearer,
        frame: place,
    }
}

/// One for what happened, and none for what didn't.
fn counted(happened: bool) -> u64
    ensures { result ≡ (if happened then 1 else 0) }
{
    u64::from(happened)
}

/// Lets the frames of a bearer from a place on and before another arrive.
fn deliver_on<P: Pick>(
    alloc: Global,
    bearer: u8,
    first: u64,
    end: u64,
    world: &mut World<P>,
) -> Result<(), WorldFault>
    requires bearer { bearer ≤ 1 }
    requires ordered { first ≤ end }
    ensures comes { TakesAll (arrival_asked Receivers.Any bearer) (numbers * first) (numbers * end)
        world.old.state result world.new.state }
    ensures continues { Continues P.gives world.old world.new }
{
    for place in first..end {
        world.arrive(alloc, Receivers::Any, bearer, place)?;
    }
    Ok(())
}

/// Lets the frames from some places on and before others arrive, those of bearer 0 and then those of bearer 1.
fn deliver_both<P: Pick>(
    alloc: Global,
    places: Places,
    ends: Places,
    world: &mut World<P>,
) -> Result<(), WorldFault>
    requires { AreBefore places ends }
    ensures comes { Arrivals places ends world.old.state result world.new.state }
    ensures continues { Continues P.gives world.old world.new }
{
    deliver_on(alloc, 0, places.first, ends.first, world)?;
    deliver_on(alloc, 1, places.second, ends.second, world)
}

/// Lets the frames from some places on arrive that are in the air now, those of bearer 0 and then those of bearer 1,
/// and answers the places behind them.
fn deliver<P: Pick>(
    alloc: Global,
    places: Places,
    world: &mut World<P>,
) -> Result<Places, WorldFault>
    requires { AreBefore places (ends_of world.old.state.air) }
    ensures comes { Delivers places world.old.state result world.new.state }
    ensures behind { IfOk result (λ ends. AreBefore ends (ends_of world.new.state.air)) }
    ensures continues { Continues P.gives world.old world.new }
{
    let ends = world.ends();
    deliver_both(alloc, places, ends, world)?;
    Ok(ends)
}

/// Lets a tick pass at a node where it is there, and answers whether it is.
fn tick<P: Pick>(alloc: Global, node: u8, world: &mut World<P>) -> Result<bool, WorldFault>
    ensures comes { Takes tick_asked node world.old.state result world.new.state }
    ensures continues { Continues P.gives world.old world.new }
{
    if !world.has_node(node) {
        return Ok(false);
    }
    let event = WorldEvent::Call {
        node,
        call: EventNote::Tick,
    };
    world.step(alloc, event)?;
    Ok(true)
}

/// Lets a tick pass at every node, in order of address.
fn tick_all<P: Pick>(alloc: Global, world: &mut World<P>) -> Result<(), WorldFault>
    ensures comes { TakesAll tick_asked 1 numbers world.old.state result world.new.state }
    ensures continues { Continues P.gives world.old world.new }
{
    for node in 1..NUMBERS {
        tick(alloc, node, world)?;
    }
    Ok(())
}

/// Makes a round: a tick passes at every node, and then the frames from some places on arrive that are in the air. It
/// answers the places behind them.
fn round<P: Pick>(alloc: Global, places: Places, world: &mut World<P>) -> Result<Places, WorldFault>
    requires { AreBefore places (ends_of world.old.state.air) }
    ensures comes { Round places world.old.state result world.new.state }
    ensures behind { IfOk result (λ ends. AreBefore ends (ends_of world.new.state.air)) }
    ensures continues { Continues P.gives world.old world.new }
{
    tick_all(alloc, world)?;
    deliver(alloc, places, world)
}

/// Whether packets are under way, and how many.
fn settled_by<P: Pick>(world: &World<P>) -> Settled
    ensures { result ≡ settled_by (world_load world.now.state.members) }
{
    let (unacked, waiting) = world.load();
    if unacked == 0 && waiting == 0 {
        Settled::Quiet
    } else {
        Settled::Unsettled { unacked, waiting }
    }
}

/// Makes so many rounds. In each of them the frames arrive that were sent since the first began and haven't arrived
/// in one before.
fn make_rounds<P: Pick>(alloc: Global, rounds: u32, world: &mut World<P>) -> Result<(), WorldFault>
    ensures comes { MakesRounds rounds world.old.state result world.new.state }
    ensures continues { Continues P.gives world.old world.new }
{
    let mut places = world.ends();
    for _ in 0..rounds {
        places = round(alloc, places, world)?;
    }
    Ok(())
}

impl<P: Pick> World<P> {
    /// Lets the frame at a place of a bearer's air arrive at each node that it is for, where that is one of the
    /// receivers and is there, in order of address. It answers at how many nodes the frame arrived so; where it is too
    /// old, that counts as one where it did.
    ///
    /// # Errors
    ///
    /// The first fault of an arrival, as [`World::step`] answers it: the arrivals before it happened.
    pub fn arrive(
        &mut self,
        alloc: Global,
        among: Receivers,
        bearer: u8,
        place: u64,
    ) -> Result<u64, WorldFault>
        requires { bearer ≤ 1 }
        ensures comes { TakesCounted (arrival_asked among bearer) (numbers * place) (numbers * (place + 1))
            self.old.state result self.new.state }
        ensures few { IfOk result (λ count. count ≤ numbers) }
        ensures continues { Continues P.gives self.old self.new }
        ensures good { IsGood P.gives self.new }
    {
        let arrived = self.take(alloc, among, bearer, place);
        self.good();
        arrived
    }

    /// Lets the frame at a place of a bearer's air arrive where it is for. Where that is one node alone, no other is
    /// asked.
    fn take(
        &mut self,
        alloc: Global,
        among: Receivers,
        bearer: u8,
        place: u64,
    ) -> Result<u64, WorldFault>
        requires { bearer ≤ 1 }
        ensures comes { TakesCounted (arrival_asked among bearer) (numbers * place) (numbers * (place + 1))
            self.old.state result self.new.state }
        ensures few { IfOk result (λ count. count ≤ numbers) }
        ensures continues { Continues P.gives self.old self.new }
    {
        let Some(node) = self.only_receiver(bearer, place) else {
            return self.reach_each(alloc, among, bearer, place);
        };
        let reached = self.reach(alloc, among, bearer, place, node)?;
        Ok(counted(reached))
    }

    /// Lets the frame at a place of a bearer's air arrive at each node that it is for.
    fn reach_each(
        &mut self,
        alloc: Global,
        among: Receivers,
        bearer: u8,
        place: u64,
    ) -> Result<u64, WorldFault>
        requires { bearer ≤ 1 }
        ensures comes { TakesCounted (arrival_asked among bearer) (numbers * place) (numbers * (place + 1))
            self.old.state result self.new.state }
        ensures few { IfOk result (λ count. count ≤ numbers) }
        ensures continues { Continues P.gives self.old self.new }
    {
        let mut count = 0;
        for node in 0..NUMBERS {
            if self.try_to_reach(alloc, among, bearer, place, node)? {
                count += 1;
            }
        }
        Ok(count)
    }

    /// Lets the frame at a place of a bearer's air arrive at a node, where the frame is for it, and it is one of the
    /// receivers and is there. It answers whether the frame arrived so.
    fn try_to_reach(
        &mut self,
        alloc: Global,
        among: Receivers,
        bearer: u8,
        place: u64,
        node: u8,
    ) -> Result<bool, WorldFault>
        requires { bearer ≤ 1 }
        ensures comes { Maybe (arrival_at among bearer self.old.state place node) self.old.state result self.new.state }
        ensures continues { Continues P.gives self.old self.new }
    {
        if !among.has(node) || !self.has_node(node) || !self.is_for(node, bearer, place) {
            return Ok(false);
        }
        self.step(alloc, arrival(bearer, place, node))?;
        Ok(true)
    }

    /// Lets the frame at a place of a bearer's air arrive at a node that it is for, where that is one of the receivers
    /// and is there. It answers whether the frame arrived so.
    fn reach(
        &mut self,
        alloc: Global,
        among: Receivers,
        bearer: u8,
        place: u64,
        node: u8,
    ) -> Result<bool, WorldFault>
        requires bearer { bearer ≤ 1 }
        requires is_for { is_some (frame_for self.old.state.air node bearer place) ≡ true }
        ensures comes { Maybe (arrival_at among bearer self.old.state place node) self.old.state result self.new.state }
        ensures continues { Continues P.gives self.old self.new }
    {
        if !among.has(node) || !self.has_node(node) {
            return Ok(false);
        }
        self.step(alloc, arrival(bearer, place, node))?;
        Ok(true)
    }

    /// Whether there is a frame at that place of a bearer's air, and it is for a node, which is there.
    fn is_for(&self, node: u8, bearer: u8, place: u64) -> bool
        requires { is_there self.now.state node ≡ true }
        ensures { result ≡ is_some (frame_for self.now.state.air node bearer place) }
    {
        self.good();
        self.replay.is_for(node, bearer, place)
    }

    /// The node that the frame at a place of a bearer's air is for, where it is for one alone.
    fn only_receiver(&self, bearer: u8, place: u64) -> Option<u8>
        ensures only { IfSome result (λ node. IsForOne self.now.state.air bearer place node) }
        ensures range { IfSome result (λ node. node ≤ 32) }
    {
        match self.frame(bearer, place)?.to {
            To::Node(address) => address.number(),
            To::All => None,
        }
    }

    /// Makes so many rounds. In each of them every node ticks, in order of address, and then the frames arrive that
    /// were sent since this call began and haven't arrived in one of its rounds yet: those of bearer 0 first, and on a
    /// bearer in order. Frames that are sent while frames arrive wait for the next round. It answers whether packets
    /// are under way then.
    ///
    /// Where it answers Ok, no frame was lost. Then a world that was poised (each two nodes have a link on each bearer
    /// that isn't cut at one of them) stays poised, and no more is under way than before. 200 rounds acknowledge all
    /// that its links and broadcast links had numbered; and 16 rounds, with 16 more for each packet and each message
    /// that was under way, bring it to rest: the answer is [`Settled::Quiet`], and all that nodes in contact accepted
    /// for one another is delivered. A world in which no link end is up or held is poised after four rounds. (This
    /// project's profile.)
    ///
    /// # Errors
    ///
    /// The first fault of an event, as [`World::step`] answers it: the events before it happened. NoMemory too where
    /// all rounds were made and a frame was lost, in one of them or before.
    pub fn settle(&mut self, alloc: Global, rounds: u32) -> Result<Settled, WorldFault>
        ensures comes { Settles rounds self.old.state result self.new.state }
        ensures continues { Continues P.gives self.old self.new }
        ensures good { IsGood P.gives self.new }
        ensures poised { OnOk result (IsPoised self.old.state → StaysPoised self.old.state self.new.state) }
        ensures comes_up { OnOk result (IsDownWorld self.old.state → 4 ≤ rounds → IsPoised self.new.state) }
        ensures under_way { OnOk result (IsPoised self.old.state → NoMoreIsUnderWay self.old.state self.new.state) }
        ensures acknowledged { OnOk result (IsPoised self.old.state → 200 ≤ rounds
            → AllIsAcknowledged self.old.state self.new.state) }
        ensures broadcast { OnOk result (IsPoised self.old.state → 200 ≤ rounds
            → AllCastsAreReleased self.old.state self.new.state) }
        ensures quiet { IfOk result (λ settled. IsPoised self.old.state
            → 16 + 16 * load_under_way self.old.state ≤ rounds → ComesToRest settled self.new.state) }
    {
        self.kept();
        let settled = self.go_round(alloc, rounds);
        self.good();
        settled
    }

    /// Makes so many rounds, and answers whether packets are under way then.
    fn go_round(&mut self, alloc: Global, rounds: u32) -> Result<Settled, WorldFault>
        ensures comes { Settles rounds self.old.state result self.new.state }
        ensures continues { Continues P.gives self.old self.new }
    {
        make_rounds(alloc, rounds, self)?;
        if self.lost() {
            return Err(WorldFault::NoMemory);
        }
        Ok(settled_by(self))
    }
}
