//! What is told of a world. None of these takes memory but `links` and `table`.

ghost use Rattle.std.specs.Prelude.{◌≡◌, ◌<◌, ◌≤◌, ◌^◌, length, map, slice_get, IfOk};
ghost use Rattle.std.specs.Option.{option_copied};
ghost use Rattle.tipc_replay.specs.Readers.{links_of, world_load, table_of};
ghost use Rattle.tipc_replay.specs.Skies.{air_on};
ghost use Rattle.tipc_replay.specs.States.{arrivals_at, flow_of, is_mended_at, is_link_up_at, node_at, past_at};
ghost use Rattle.tipc_world.specs.States.{is_there};

use crate::worlds::World;
use std::alloc::Global;
use tipc_journal::Journal;
use tipc_node::Node;
use tipc_pick::Pick;
use tipc_replay::{Arrived, FlowCounts, Sent};
use tipc_types::{List, NoMemory, PeerLinks, Sequence};

impl<P: Pick> World<P> {
    /// Whether a node is there.
    pub fn has_node(&self, n: u8) -> bool
        ensures { result ≡ is_there self.now.state n }
    {
        self.replay.has_node(n)
    }

    /// A node in its present boot, with its journal: None exactly where it isn't there.
    pub fn node(&self, n: u8) -> Option<&Node>
        ensures { option_copied result ≡ node_at self.now.state.members n }
    {
        self.replay.node(n)
    }

    /// The journals of the boots of a node before its present one, in order. Where it isn't there, there are none.
    pub fn past(&self, n: u8) -> &[Journal]
        ensures { map (λ j. j.entries) result.now ≡ past_at self.now.state.members n }
    {
        self.replay.past(n)
    }

    /// Every frame that ever arrived at a node, in order. Where it isn't there, there are none.
    pub fn arrivals(&self, n: u8) -> &[Arrived]
        ensures { result.now ≡ arrivals_at self.now.state.members n }
    {
        self.replay.arrivals(n)
    }

    /// Every frame that was ever sent on a bearer, in order.
    pub fn air(&self, bearer: u8) -> &[Sent]
        ensures { result.now ≡ air_on bearer self.now.state.air }
    {
        self.replay.air(bearer)
    }

    /// Whether a frame was lost for want of memory.
    pub fn lost(&self) -> bool
        ensures { result ≡ self.now.state.lost }
    {
        self.replay.lost()
    }

    /// How many messages node `a` accepted for node `b` in the contact in which it is with it, and how many of them
    /// were delivered, in all boots: None exactly where it is in none. A count stops at the last number of 64 bits.
    pub fn flow(&self, a: u8, b: u8) -> Option<FlowCounts>
        requires { (1 ≤ a) × (a ≤ 32) × (1 ≤ b) × (b ≤ 32) }
        ensures { result ≡ flow_of self.now.state.members a b }
    {
        self.replay.flow(a, b)
    }

    /// Whether the link end at node `a` to node `b` on a bearer is up.
    pub fn is_up(&self, a: u8, b: u8, bearer: u8) -> bool
        ensures { result ≡ is_link_up_at self.now.state.members a b bearer }
    {
        self.replay.is_up(a, b, bearer)
    }

    /// Whether a bearer is mended at a node.
    pub fn is_mended(&self, n: u8, bearer: u8) -> bool
        ensures { result ≡ is_mended_at self.now.state.members n bearer }
    {
        self.replay.is_mended(n, bearer)
    }

    /// How many frames were ever sent on a bearer.
    pub fn air_len(&self, bearer: u8) -> u64
        ensures len { result ≡ length (air_on bearer self.now.state.air) }
        ensures few { result < 2 ^ 58 }
    {
        self.replay.air_len(bearer)
    }

    /// The frame of that place in a bearer's air, from 0 on: None exactly where there is no such frame.
    pub fn frame(&self, bearer: u8, place: u64) -> Option<&Sent>
        ensures { option_copied result ≡ slice_get (air_on bearer self.now.state.air) place }
    {
        self.replay.frame(bearer, place)
    }

    /// The numbers of packets unacknowledged and waiting at all nodes. Each stops at the last number of 64 bits.
    pub fn load(&self) -> (u64, u64)
        ensures { result ≡ world_load self.now.state.members }
    {
        self.replay.load()
    }

    /// The link ends of a node, in order of the peers.
    ///
    /// # Errors
    ///
    /// Where memory runs out.
    pub fn links(&self, alloc: Global, n: u8) -> Result<Sequence<PeerLinks>, NoMemory>
        ensures { IfOk result (λ links. links ≡ links_of self.now.state.members n) }
    {
        self.replay.links(alloc, n)
    }

    /// The publications of zone and cluster scope that a node knows, in order of type, bounds, node, port and key.
    ///
    /// # Errors
    ///
    /// Where memory runs out.
    pub fn table(&self, alloc: Global, n: u8) -> Result<List, NoMemory>
        ensures { IfOk result (λ ps. ps ≡ table_of self.now.state.members n) }
    {
        self.replay.table(alloc, n)
    }
}
