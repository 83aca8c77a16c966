//! The locked nodes of a plan, with the passes of their callers and movers.

ghost use Rattle.std.specs.Prelude.{◌≡◌, ◌+◌, ◌*◌, ◌≤◌, All, length, map, replicate, IfOk};
ghost use Rattle.tipc_stamp.specs.Seats.{new_seat};
ghost use Rattle.tipc_work.specs.Plans.{IsLivePlan};
ghost use Rattle.tipc_work.specs.Worked.{CanWork};

use crate::plans::LivePlan;
use std::alloc::Global;
use std::collections::VecDeque;
use tipc_node_lock::{NodeLock, Pass};
use tipc_pick::Chooser;
use tipc_stamp::{StampSeat, Stamps};
use tipc_types::{Addr, NoMemory};

/// The locks of a plan's nodes, in order, and the passes of each: one for each caller, and a last one for the mover.
#[derive(Drop)]
pub struct Nodes<'s, P> {
    /// The locks of nodes 1, 2 and so on.
    pub locks: Vec<NodeLock<'s, P>>,
    /// The passes of each of these.
    pub passes: Vec<Vec<Pass>>,
}

/// So many of the seats that wait, which are all new.
#[tactic(auto, using(crate::proofs::Locking::seat_is, crate::proofs::Locking::others_are, crate::proofs::Locking::seats_more))]
fn take_seats(
    alloc: Global,
    stamps: &Stamps,
    waiting: &mut VecDeque<StampSeat>,
    count: u32,
) -> Result<Vec<StampSeat>, NoMemory>
    requires new { waiting.old.items ≡ replicate (length waiting.old.items) (new_seat stamps.now) }
    requires count { count ≤ length waiting.old.items }
    ensures taken { IfOk result (λ seats. seats.items ≡ replicate count (new_seat stamps.now)) }
    ensures left { IfOk result (λ _. (waiting.new.items ≡ replicate (length waiting.new.items) (new_seat stamps.now))
        × (length waiting.new.items + count ≡ length waiting.old.items)) }
{
    let mut seats = Vec::with_capacity(alloc, count as usize)?;
    for _ in 0..count {
        let Some(seat) = waiting.pop_front() else {
            unreachable!()
        };
        seats.push(seat)?;
    }
    Ok(seats)
}

/// The nodes of a plan in their first boot, each behind a lock, with a chooser for each, and a new seat for each caller
/// and each mover.
///
/// # Errors
///
/// Where memory runs out.
#[tactic(auto, using(crate::proofs::Locking::seats_fit, crate::proofs::Locking::seats_count, crate::proofs::Locking::callers_all, crate::proofs::Locking::turn_is))]
pub fn lock_nodes<'s, P: Drop>(
    alloc: Global,
    plan: &LivePlan,
    choosers: Vec<Chooser<P>>,
    stamps: &'s Stamps,
    seats: Vec<StampSeat>,
) -> Result<Nodes<'s, P>, NoMemory>
    requires plan { IsLivePlan plan.now }
    requires choosers { (length choosers.items ≡ plan.now.nodes) × All (λ chooser. chooser.turn ≡ 0) choosers.items }
    requires seats { seats.items ≡ replicate (plan.now.nodes * (plan.now.callers + 1)) (new_seat stamps.now) }
    ensures can { IfOk result (λ n. CanWork plan.now n.locks.items (map (λ v. v.items) n.passes.items)
        (2 * plan.now.nodes) plan.now.nodes) }
    ensures callers { IfOk result (λ n. All (λ lock. lock.callers ≡ plan.now.callers + 1) n.locks.items) }
{
    let callers = u32::from(plan.callers) + 1;
    let mut locks = Vec::with_capacity(alloc, choosers.len())?;
    let mut passes = Vec::with_capacity(alloc, choosers.len())?;
    let mut choosers = VecDeque::from_vec(choosers);
    let mut waiting = VecDeque::from_vec(seats);
    let mut node = 0;
    while let Some(chooser) = choosers.pop_front() {
        node += 1;
        let seats = take_seats(alloc, stamps, &mut waiting, callers)?;
        let (lock, its) = NodeLock::new(
            alloc,
            Addr::node(node),
            1,
            chooser,
            callers,
            stamps,
            seats,
        )?;
        locks.push(lock)?;
        passes.push(its)?;
    }
    Ok(Nodes { locks, passes })
}
