//! The line that links two nodes on a bearer.

ghost use Rattle.std.specs.Prelude.{◌≡◌, ◌≤◌, true};
ghost use Rattle.tipc_world.specs.States.{is_there};
ghost use Rattle.tipc_world.specs.Courses.{Continues};
ghost use Rattle.tipc_sim.specs.Meanings.{told_of_link, Links, MendsBoth, MendsCut};

use crate::frames::{empty_air, make};
use std::alloc::Global;
use tipc_pick::Pick;
use tipc_report::Told;
use tipc_types::EventNote;
use tipc_world::{Receivers, World, WorldEvent, WorldFault};

/// Mends a bearer of a node where it is cut.
fn mend_cut<P: Pick>(
    alloc: Global,
    node: u8,
    bearer: u8,
    world: &mut World<P>,
) -> Result<(), WorldFault>
    requires there { is_there world.old.state node ≡ true }
    requires bearer { bearer ≤ 1 }
    ensures comes { MendsCut node bearer world.old.state result world.new.state }
    ensures continues { Continues P.gives world.old world.new }
{
    if !world.is_mended(node, bearer) {
        let event = WorldEvent::Call {
            node,
            call: EventNote::Mend { bearer },
        };
        make(alloc, event, world)?;
    }
    Ok(())
}

/// Mends a bearer of two nodes where it is cut, of the one and then of the other.
fn mend_both<P: Pick>(
    alloc: Global,
    first: u8,
    second: u8,
    bearer: u8,
    world: &mut World<P>,
) -> Result<(), WorldFault>
    requires first { is_there world.old.state first ≡ true }
    requires second { is_there world.old.state second ≡ true }
    requires bearer { bearer ≤ 1 }
    ensures comes { MendsBoth first second bearer world.old.state result world.new.state }
    ensures continues { Continues P.gives world.old world.new }
{
    mend_cut(alloc, first, bearer, world)?;
    mend_cut(alloc, second, bearer, world)
}

/// Whether both link ends between two nodes on a bearer are up.
fn told_of_link<P: Pick>(first: u8, second: u8, bearer: u8, world: &World<P>) -> Told
    ensures { result ≡ told_of_link world.now.state.members first second bearer }
{
    if world.is_up(first, second, bearer) && world.is_up(second, first, bearer) {
        Told::Up
    } else {
        Told::Down
    }
}

/// Mends a bearer of two nodes where it is cut, and lets the frames that are sent there meanwhile arrive at the two,
/// each at the one that it is for, until none is left. It tells whether both link ends are up then.
pub fn link<P: Pick>(
    alloc: Global,
    first: u8,
    second: u8,
    bearer: u8,
    world: &mut World<P>,
) -> Result<Told, WorldFault>
    requires first { is_there world.old.state first ≡ true }
    requires second { is_there world.old.state second ≡ true }
    requires bearer { bearer ≤ 1 }
    ensures comes { Links first second bearer world.old.state result world.new.state }
    ensures continues { Continues P.gives world.old world.new }
{
    let place = world.air_len(bearer);
    mend_both(alloc, first, second, bearer, world)?;
    empty_air(alloc, Receivers::Both(first, second), bearer, place, world)?;
    Ok(told_of_link(first, second, bearer, world))
}
