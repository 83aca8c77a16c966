//! What is told of nodes and the air between them. None of these takes memory but `links` and `table`.

ghost use Rattle.std.specs.Prelude.{◌≡◌, ◌<◌, ◌≤◌, ◌+◌, ◌^◌, ◌++◌, [], Some, None, length, is_some, map, nat_lt, slice_get, option_map, IfOk, IfSome, OnOk};
ghost use Rattle.std.specs.Option.{option_copied};
ghost use Rattle.tipc_pair.specs.Facing.{state_of, states_of};
ghost use Rattle.tipc_types.specs.declared.message_forms.Flow.TheVariants.{Zero};
ghost use Rattle.tipc_replay.specs.Readers.{link_shown, links_of, world_load, node_number, table_of, unacked_in, waiting_in};
ghost use Rattle.tipc_replay.specs.Calls.{counts_at, CanHappenAt};
ghost use Rattle.tipc_replay.specs.Due.{frame_for};
ghost use Rattle.tipc_replay.specs.Skies.{air_on, air_size};
ghost use Rattle.tipc_replay.specs.States.{accepted_at, arrivals_at, calls_recorded, counted, delivered_at, flow_of, is_mended_at, has_member, is_link_up_at, link_at, node_at, pair_at, past_at};

use crate::air::{Arrived, Sent};
use crate::events::WorldEvent;
use crate::flying::{contact_at, find, is_for};
use crate::members::Member;
use crate::replays::Replay;
use crate::tables::told_of;
use std::alloc::Global;
use tipc_journal::Journal;
use tipc_node::Node;
use tipc_types::{Addr, LinkState, List, NoMemory, PeerLinks, Publication, Sequence};

/// How many messages of one contact were accepted at one node and delivered at the other, each at most the last number
/// of 64 bits.
#[derive(Clone, Copy, Debug, PartialEq, Eq)]
pub struct FlowCounts {
    /// The messages that the one node accepted for the other.
    pub accepted: u64,
    /// The messages that the other delivered from it.
    pub delivered: u64,
}

/// The number of the node of an address, where it is one of the 32.
#[tactic(auto, unfolding(crate::specs::Readers::node_number))]
pub fn number_of(address: Addr) -> Option<u8>
    ensures value { result ≡ node_number address.word }
    ensures range { IfSome result (λ n. (1 ≤ n) × (n ≤ 32)) }
{
    address.number()
}

/// The numbers of packets unacknowledged and waiting at a node, where it is there.
fn load_at(member: &Option<Member>) -> (u64, u64)
    ensures { (result.0 ≡ unacked_in member.now) × (result.1 ≡ waiting_in member.now) }
{
    match member {
        Some(member) => member.load(),
        None => (0, 0),
    }
}

/// The numbers of packets unacknowledged and waiting at all nodes.
#[tactic(auto, unfolding(crate::specs::Readers::world_load))]
fn load_all(members: &[Option<Member>]) -> (u64, u64)
    ensures { result ≡ world_load members.now }
{
    let mut unacked = 0_u64;
    let mut waiting = 0_u64;
    for member in members {
        let (in_flight, queued) = load_at(member);
        unacked = unacked.saturating_add(in_flight);
        waiting = waiting.saturating_add(queued);
    }
    (unacked, waiting)
}

/// How many messages node `a` accepted for node `b` in a contact.
#[tactic(auto, using(crate::proofs::streams::Flows::accepted_none), unfolding(crate::specs::States::accepted_at, crate::specs::States::history_at, crate::specs::States::member_at))]
fn accepted_at(members: &[Option<Member>], a: u8, b: u8, contact: (u64, u64)) -> u64
    requires { (1 ≤ b) × (b ≤ 32) }
    ensures { result ≡ counted (length (accepted_at members.now a b contact.0 contact.1 Zero)) }
{
    match members.get(a as usize) {
        Some(Some(member)) => member.accepted_count(b, contact),
        _ => 0,
    }
}

/// How many messages were delivered at node `b` from node `a` in a contact.
#[tactic(auto, using(crate::proofs::streams::Flows::delivered_none), unfolding(crate::specs::States::delivered_at, crate::specs::States::history_at, crate::specs::States::member_at))]
fn delivered_at(members: &[Option<Member>], b: u8, a: u8, contact: (u64, u64)) -> u64
    requires { (1 ≤ a) × (a ≤ 32) }
    ensures { result ≡ counted (length (delivered_at members.now b a contact.0 contact.1 Zero)) }
{
    match members.get(b as usize) {
        Some(Some(member)) => member.delivered_count(a, contact),
        _ => 0,
    }
}

/// The counts of the contact in which node `a` is with node `b`.
#[tactic(auto, unfolding(crate::specs::States::flow_of))]
fn flow_at(members: &[Option<Member>], a: u8, b: u8) -> Option<FlowCounts>
    requires { (1 ≤ a) × (a ≤ 32) × (1 ≤ b) × (b ≤ 32) }
    ensures { result ≡ flow_of members.now a b }
{
    let contact = contact_at(members, a, b)?;
    Some(FlowCounts {
        accepted: accepted_at(members, a, b, contact),
        delivered: delivered_at(members, b, a, (contact.1, contact.0)),
    })
}

/// The state of the link end at node `a` to node `b` on a bearer.
#[tactic(auto, unfolding(crate::specs::States::pair_at, crate::specs::States::member_at))]
fn link_at(members: &[Option<Member>], a: u8, b: u8, bearer: u8) -> Option<LinkState>
    ensures { result ≡ state_of (link_at members.now a b bearer) }
{
    match members.get(a as usize) {
        Some(Some(member)) => member.link(b, bearer),
        _ => None,
    }
}

/// The states of the link ends at node `a` to node `b`, on bearer 0 and on bearer 1.
#[tactic(auto, unfolding(crate::specs::States::pair_at, crate::specs::States::member_at))]
fn states_at(
    members: &[Option<Member>],
    a: u8,
    b: u8,
) -> Option<(Option<LinkState>, Option<LinkState>)>
    ensures { result ≡ option_map states_of (pair_at members.now a b) }
{
    match members.get(a as usize) {
        Some(Some(member)) => member.links(b),
        _ => None,
    }
}

/// Whether a bearer is mended at a node.
#[tactic(auto, unfolding(crate::specs::States::member_at))]
fn is_mended_at(members: &[Option<Member>], n: u8, bearer: u8) -> bool
    ensures { result ≡ is_mended_at members.now n bearer }
{
    match members.get(n as usize) {
        Some(Some(member)) => member.is_mended(bearer),
        _ => false,
    }
}

/// Adds the link ends of node `n` to a peer, where it has one.
fn add_link(
    links: &mut Vec<PeerLinks>,
    members: &[Option<Member>],
    n: u8,
    peer: u8,
) -> Result<(), NoMemory>
    requires { (1 ≤ peer) × (peer ≤ 32) }
    ensures { OnOk result (links.new.items ≡ links.old.items ++ link_shown peer (pair_at members.now n peer)) }
{
    if let Some((first, second)) = states_at(members, n, peer) {
        links.push(PeerLinks {
            peer: Addr::node(peer),
            first,
            second,
        })?;
    }
    Ok(())
}

/// The link ends of node `n`, in order of the peers.
#[tactic(auto, using(crate::proofs::streams::Flows::links_more), unfolding(crate::specs::Readers::links_up_to))]
fn links_at(members: &[Option<Member>], alloc: Global, n: u8) -> Result<Vec<PeerLinks>, NoMemory>
    ensures { IfOk result (λ links. links.items ≡ links_of members.now n) }
{
    let mut links = Vec::new(alloc);
    for peer in 1..33_u8 {
        add_link(&mut links, members, n, peer)?;
    }
    Ok(links)
}

/// The publications that node `n` knows and that are seen in the cluster.
#[tactic(auto, using(crate::proofs::names::Shown::none_known), unfolding(crate::specs::Readers::table_of, crate::specs::States::member_at, crate::specs::States::journal_now))]
fn table_at(members: &[Option<Member>], alloc: Global, n: u8) -> Result<Vec<Publication>, NoMemory>
    ensures { IfOk result (λ ps. ps.items ≡ table_of members.now n) }
{
    match members.get(n as usize) {
        Some(Some(member)) => told_of(alloc, member.names()),
        _ => Ok(Vec::new(alloc)),
    }
}

impl Replay {
    /// Whether a node is there.
    pub fn has_node(&self, n: u8) -> bool
        ensures { result ≡ has_member self.now.members n }
    {
        match self.members.get(n as usize) {
            Some(Some(_)) => true,
            _ => false,
        }
    }

    /// A node in its present boot, with its journal: None exactly where it isn't there.
    pub fn node(&self, n: u8) -> Option<&Node>
        ensures { option_copied result ≡ node_at self.now.members n }
    {
        match self.members.get(n as usize) {
            Some(Some(member)) => Some(member.node()),
            _ => None,
        }
    }

    /// The journals of the boots of a node before its present one, in order. Where it isn't there, there are none.
    pub fn past(&self, n: u8) -> &[Journal]
        ensures { map (λ j. j.entries) result.now ≡ past_at self.now.members n }
    {
        match self.members.get(n as usize) {
            Some(Some(member)) => member.past(),
            _ => &[],
        }
    }

    /// Every frame that ever arrived at a node, in order. Where it isn't there, there are none.
    pub fn arrivals(&self, n: u8) -> &[Arrived]
        ensures { result.now ≡ arrivals_at self.now.members n }
    {
        match self.members.get(n as usize) {
            Some(Some(member)) => member.arrivals(),
            _ => &[],
        }
    }

    /// Every frame that was ever sent on a bearer, in order.
    pub fn air(&self, bearer: u8) -> &[Sent]
        ensures { result.now ≡ air_on bearer self.now.air }
    {
        self.air.sent(bearer)
    }

    /// Whether a frame was lost for want of memory.
    pub fn lost(&self) -> bool
        ensures { result ≡ self.now.lost }
    {
        self.lost
    }

    /// How many messages node `a` accepted for node `b` in the contact in which it is with it, and how many of them
    /// were delivered, in all boots: None exactly where it is in none. A count stops at the last number of 64 bits.
    pub fn flow(&self, a: u8, b: u8) -> Option<FlowCounts>
        requires { (1 ≤ a) × (a ≤ 32) × (1 ≤ b) × (b ≤ 32) }
        ensures { result ≡ flow_of self.now.members a b }
    {
        flow_at(&self.members, a, b)
    }

    /// Whether the link end at node `a` to node `b` on a bearer is up.
    pub fn is_up(&self, a: u8, b: u8, bearer: u8) -> bool
        ensures { result ≡ is_link_up_at self.now.members a b bearer }
    {
        match link_at(&self.members, a, b, bearer) {
            Some(state) => state.is_up(),
            None => false,
        }
    }

    /// Whether a bearer is mended at a node.
    pub fn is_mended(&self, n: u8, bearer: u8) -> bool
        ensures { result ≡ is_mended_at self.now.members n bearer }
    {
        is_mended_at(&self.members, n, bearer)
    }

    /// How many frames were ever sent on a bearer.
    pub fn air_len(&self, bearer: u8) -> u64
        ensures len { result ≡ length (air_on bearer self.now.air) }
        ensures few { result < 2 ^ 58 }
    {
        self.air.len(bearer)
    }

    /// Whether there is a frame at that place of a bearer's air, from 0 on, and it is for a node.
    #[tactic(auto, unfolding(crate::specs::Due::frame_for))]
    pub fn is_for(&self, n: u8, bearer: u8, place: u64) -> bool
        requires { (1 ≤ n) × (n ≤ 32) }
        ensures { result ≡ is_some (frame_for self.now.air n bearer place) }
    {
        match self.air.frame(bearer, place) {
            Some(sent) => is_for(sent.from, sent.to, n),
            None => false,
        }
    }

    /// The frame of that place in a bearer's air, from 0 on: None exactly where there is no such frame.
    pub fn frame(&self, bearer: u8, place: u64) -> Option<&Sent>
        ensures { option_copied result ≡ slice_get (air_on bearer self.now.air) place }
    {
        self.air.frame(bearer, place)
    }

    /// The numbers of packets unacknowledged and waiting at all nodes. Each stops at the last number of 64 bits.
    pub fn load(&self) -> (u64, u64)
        ensures { result ≡ world_load self.now.members }
    {
        load_all(&self.members)
    }

    /// The link ends of a node, in order of the peers.
    ///
    /// # Errors
    ///
    /// Where memory runs out.
    pub fn links(&self, alloc: Global, n: u8) -> Result<Sequence<PeerLinks>, NoMemory>
        ensures { IfOk result (λ links. links ≡ links_of self.now.members n) }
    {
        Ok(Sequence::from_vec(links_at(&self.members, alloc, n)?))
    }

    /// Whether an event counts as one: an arrival of no frame for its node, or of one that is too old, is none.
    pub fn counts(&self, event: &WorldEvent) -> bool
        requires { CanHappenAt self.now.members event.now }
        ensures { result ≡ counts_at self.now.members self.now.air event.now }
    {
        match event {
            WorldEvent::Arrive {
                node,
                bearer,
                frame,
            } => find(&self.members, &self.air, *node, *bearer, *frame).is_ok(),
            _ => true,
        }
    }

    /// How many calls the present boot of a node has recorded. Where the node isn't there, there are none.
    pub fn calls(&self, n: u8) -> u64
        ensures { result ≡ calls_recorded self.now.members n }
    {
        match self.members.get(n as usize) {
            Some(Some(member)) => member.calls(),
            _ => 0,
        }
    }

    /// Whether the air has more frames than so many, on both bearers together.
    pub fn has_more_frames(&self, most: usize) -> bool
        ensures { result ≡ nat_lt most (air_size self.now.air) }
    {
        self.air.is_over(most)
    }

    /// The publications of zone and cluster scope that a node knows, in order of type, bounds, node, port and key.
    ///
    /// # Errors
    ///
    /// Where memory runs out.
    pub fn table(&self, alloc: Global, n: u8) -> Result<List, NoMemory>
        ensures { IfOk result (λ ps. ps ≡ table_of self.now.members n) }
    {
        Ok(List::from_vec(table_at(&self.members, alloc, n)?))
    }
}
