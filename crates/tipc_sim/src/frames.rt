//! Lines that move frames: arrivals, `pump` and `settle`.

ghost use Rattle.std.specs.Prelude.{◌≡◌, ◌≤◌, ◌*◌};
ghost use Rattle.tipc_world.specs.Events.{CanHappen};
ghost use Rattle.tipc_world.specs.Courses.{numbers, Continues, Drains, Once};
ghost use Rattle.tipc_world.specs.Settling.{arrival_asked};
ghost use Rattle.tipc_sim.specs.Meanings.{told_of_settled, Pumps, SettlesLine};

use std::alloc::Global;
use tipc_pick::Pick;
use tipc_report::Told;
use tipc_types::Answer;
use tipc_world::{Receivers, Settled, World, WorldEvent, WorldFault};

/// Lets an event happen.
pub fn make<P: Pick>(
    alloc: Global,
    event: WorldEvent,
    world: &mut World<P>,
) -> Result<Answer, WorldFault>
    requires { CanHappen world.old.state event }
    ensures comes { Once event world.old.state result world.new.state }
    ensures continues { Continues P.gives world.old world.new }
{
    world.step(alloc, event)
}

/// Lets the frames of a bearer from a place on arrive at the receivers, with those that are sent meanwhile, until none
/// is left, and answers how many arrived.
pub fn empty_air<P: Pick>(
    alloc: Global,
    among: Receivers,
    bearer: u8,
    first: u64,
    world: &mut World<P>,
) -> Result<u64, WorldFault>
    requires { bearer ≤ 1 }
    ensures comes { Drains (arrival_asked among bearer) bearer (numbers * first) world.old.state result
        world.new.state }
    ensures continues { Continues P.gives world.old world.new }
{
    let mut place = first;
    let mut count = 0;
    while place < world.air_len(bearer) {
        count += world.arrive(alloc, among, bearer, place)?;
        place += 1;
    }
    Ok(count)
}

/// Pumps the frames of a bearer from a place on: they arrive at the nodes that they are for, until none is left.
pub fn pump<P: Pick>(
    alloc: Global,
    bearer: u8,
    place: u64,
    world: &mut World<P>,
) -> Result<Told, WorldFault>
    requires { bearer ≤ 1 }
    ensures comes { Pumps bearer place world.old.state result world.new.state }
    ensures continues { Continues P.gives world.old world.new }
{
    let count = empty_air(alloc, Receivers::Any, bearer, place, world)?;
    Ok(Told::Pumped(count))
}

/// How it is told whether packets are under way.
fn told_of_settled(settled: Settled) -> Told
    ensures { result ≡ told_of_settled settled }
{
    match settled {
        Settled::Quiet => Told::Quiet,
        Settled::Unsettled { unacked, waiting } => Told::Unsettled { unacked, waiting },
    }
}

/// Makes so many rounds, and tells whether packets are under way then.
pub fn settle<P: Pick>(alloc: Global, rounds: u32, world: &mut World<P>) -> Result<Told, WorldFault>
    ensures comes { SettlesLine rounds world.old.state result world.new.state }
    ensures continues { Continues P.gives world.old world.new }
{
    let settled = world.settle(alloc, rounds)?;
    Ok(told_of_settled(settled))
}
