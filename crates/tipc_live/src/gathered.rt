//! What is gathered of a run.

ghost use Rattle.std.specs.Prelude.{◌≡◌, true, IfOk};
ghost use Rattle.tipc_replay.specs.States.{empty_replay};
ghost use Rattle.tipc_live.specs.Auditing.{Audits};
ghost use Rattle.tipc_live.specs.Gathering.{nothing_gathered};
ghost use Rattle.tipc_live.specs.Nodes.{can_audit};

use crate::answers::Audit;
use crate::audits::audit;
use std::alloc::Global;
use std::marker::Model;
use tipc_node_lock::LockedNode;
use tipc_pick::Pick;
use tipc_replay::Replay;
use tipc_types::NoMemory;

/// The nodes of a run, taken out of their locks with their passes in them, the replay of their audit, and the bearers.
#[derive(Drop)]
pub struct Gathered<P, B> {
    nodes: Vec<LockedNode<P>>,
    replay: Replay,
    bearers: Vec<B>,
}

impl<P, B> Model for Gathered<P, B> {
    ghost use Rattle.tipc_live.specs.Gathering.{GatheredState};

    ghost Value = { GatheredState P B };

    ghost view = { λ g. record { nodes = g.nodes.items; replay = g.replay; bearers = g.bearers.items } };
}

impl<P, B> Gathered<P, B> {
    /// Nothing yet.
    pub fn new(alloc: Global) -> Gathered<P, B>
        ensures { result ≡ nothing_gathered }
    {
        Gathered {
            nodes: Vec::new(alloc),
            replay: Replay::new(alloc),
            bearers: Vec::new(alloc),
        }
    }

    /// The nodes.
    pub fn nodes(&self) -> &[LockedNode<P>]
        ensures { result.now ≡ self.now.nodes }
    {
        self.nodes.as_slice()
    }

    /// The replay.
    pub fn replay(&self) -> &Replay
        ensures { result.now ≡ self.now.replay }
    {
        &self.replay
    }

    /// The bearers.
    pub fn bearers(&self) -> &[B]
        ensures { result.now ≡ self.now.bearers }
    {
        self.bearers.as_slice()
    }
}

impl<P: Drop, B: Drop> Gathered<P, B> {
    /// Keeps these nodes and these bearers, in place of those before.
    pub fn gather(&mut self, nodes: Vec<LockedNode<P>>, bearers: Vec<B>)
        ensures { self.new ≡ record self.old { nodes = nodes.items; bearers = bearers.items } }
    {
        self.nodes = nodes;
        self.bearers = bearers;
    }
}

impl<P: Pick, B> Gathered<P, B> {
    /// Audits the nodes in the replay, which is empty before.
    ///
    /// # Errors
    ///
    /// As those of [`audit`].
    pub fn audit(&mut self, alloc: Global) -> Result<Audit, NoMemory>
        requires can { can_audit self.old.nodes ≡ true }
        requires empty { self.old.replay ≡ empty_replay }
        ensures audited { IfOk result (Audits P.gives self.old.nodes self.new.replay) }
        ensures same { (self.new.nodes ≡ self.old.nodes) × (self.new.bearers ≡ self.old.bearers) }
    {
        audit(alloc, self.nodes.as_slice(), &mut self.replay)
    }
}
