//! A node over all its boots, with their journals.

ghost use Rattle.std.specs.Prelude.{◌≡◌, ◌+◌, ◌<◌, ◌≤◌, [], ℕ, true, false, None, length, map, nat_eq, option_and_then, option_map, IfErr, IfOk, OnErr, OnOk};
ghost use Rattle.indexmap.specs.IndexMap.{insert_entry, spare};
ghost use Rattle.tipc_types.specs.Address.{node_word};
ghost use Rattle.tipc_header.specs.Reading.{word_at};
ghost use Rattle.tipc_journal.specs.Matches.{names};
ghost use Rattle.tipc_journal.specs.Streams.{accepted, delivered};
ghost use Rattle.tipc_link.specs.Links.{numbered_in};
ghost use Rattle.tipc_pair.specs.Facing.{contact_between, is_up_at, state_of, states_of};
ghost use Rattle.tipc_pair.specs.PairCalls.{last_count_of};
ghost use Rattle.tipc_node.specs.Calls.{CanPerform};
ghost use Rattle.tipc_node.specs.Nodes.{is_mended_on, node_load};
ghost use Rattle.tipc_journal.specs.Room.{has_journal_room};
ghost use Rattle.tipc_node.specs.Turns.{pair_in};
ghost use Rattle.tipc_replay.specs.Choices.{Chooses};
ghost use Rattle.tipc_replay.specs.Calls.{is_recorded, CallStops, CanDo, RecordStops};
ghost use Rattle.tipc_replay.specs.Effects.{Did};
ghost use Rattle.tipc_replay.specs.Events.{IsSettledAt};
ghost use Rattle.tipc_replay.specs.Members.{last_in, noted, noted_both, over_in, over_with, sender_of, AreNoted, IsFresh, IsNewcomer, IsRestarted};
ghost use Rattle.tipc_replay.specs.Numbers.{own_in, seen_in};
ghost use Rattle.tipc_replay.specs.States.{cast_count_of, count_in, count_of, counted, history, joined, link_in, stream_of};

use crate::air::Arrived;
use crate::events::WorldEvent;
use crate::readers::number_of;
use indexmap::IndexMap;
use std::alloc::Global;
use std::marker::Model;
use tipc_journal::Journal;
use tipc_node::{Node, NodeFault};
use tipc_outside::Outbox;
use tipc_pick::{Chooser, Pick};
use tipc_types::{Addr, Answer, By, EventNote, Flow, LinkState, NoMemory, Publication};

/// How many packets were numbered in sessions that are over, by the peer's number, the bearer, and the node's own
/// epoch.
type Counts = IndexMap<(u8, u8, u64), u64>;

/// How many numbers the broadcast link used in boots that are over, by boot.
type Casts = IndexMap<u64, u64>;

/// A node over all its boots.
#[derive(Drop)]
pub struct Member {
    node: Node,
    past: Vec<Journal>,
    calls: u64,
    arrivals: Vec<Arrived>,
    counts: Counts,
    casts: Casts,
}

impl Model for Member {
    ghost use Rattle.std.specs.Prelude.{◌≤◌, length, map};
    ghost use Rattle.tipc_replay.specs.States.{MemberState};

    ghost Value = { MemberState };

    ghost view = { λ m. record {
      node = m.node;
      past = map (λ j. j.entries) m.past.items;
      calls = m.calls;
      arrivals = m.arrivals.items;
      counts = m.counts.entries;
      casts = m.casts.entries;
    } };

    ghost invariant = { λ m. m.calls ≤ length m.node.journal };
}

/// What is noted of a session: the peer's number, the bearer, the node's own epoch, and how many packets it has
/// numbered.
type Tally = ((u8, u8, u64), u64);

/// Notes how many packets a session has numbered. There is room for one more number.
fn note(counts: &mut Counts, last: Option<Tally>)
    requires room { 0 < spare counts.old }
    ensures noted { counts.new.entries ≡ noted counts.old.entries last }
    ensures spare { spare counts.old ≤ spare counts.new + 1 }
{
    let Some((session, numbered)) = last else {
        return;
    };
    match counts.insert(session, numbered) {
        Ok(_) => {}
        Err(_) => unreachable!(),
    }
}

/// The own epoch of the session with a peer on a bearer, or of the last one, and how many packets were numbered in it:
/// None exactly where there was none.
fn last_count(node: &Node, peer: u8, bearer: u8) -> Option<(u64, u64)>
    ensures { result ≡ last_count_of (link_in node.now peer bearer) }
{
    if bearer > 1 {
        return None;
    }
    node.neighbour(peer)?.pair.last_count(bearer)
}

/// The session with a peer on a bearer, or the last one: None exactly where there was none.
fn last_session(node: &Node, peer: u8, bearer: u8) -> Option<Tally>
    ensures { result ≡ last_in peer bearer (link_in node.now peer bearer) }
{
    let (epoch, numbered) = last_count(node, peer, bearer)?;
    Some(((peer, bearer, epoch), numbered))
}

/// The last session with a peer on a bearer whose link is down.
fn over_with(node: &Node, peer: u8, bearer: u8) -> Option<Tally>
    ensures { result ≡ over_in peer bearer (link_in node.now peer bearer) }
{
    if is_link_up(node, peer, bearer) {
        return None;
    }
    last_session(node, peer, bearer)
}

/// Whether the link to a peer on a bearer is up.
fn is_link_up(node: &Node, peer: u8, bearer: u8) -> bool
    ensures { result ≡ is_up_at (link_in node.now peer bearer) }
{
    match link_state(node, peer, bearer) {
        Some(state) => state.is_up(),
        None => false,
    }
}

/// The state of the link end to a peer on a bearer: None exactly where there is none.
fn link_state(node: &Node, peer: u8, bearer: u8) -> Option<LinkState>
    ensures { result ≡ state_of (link_in node.now peer bearer) }
{
    if bearer > 1 {
        return None;
    }
    node.links(peer, bearer)
}

/// Notes how many packets the sessions with a peer have numbered, on both bearers. There is room for as many numbers.
fn note_both(counts: &mut Counts, node: &Node, peer: u8)
    requires room { 2 ≤ spare counts.old }
    ensures noted { counts.new.entries ≡ noted_both counts.old.entries node.now peer }
    ensures spare { spare counts.old ≤ spare counts.new + 2 }
{
    note(counts, last_session(node, peer, 0));
    note(counts, last_session(node, peer, 1));
}

/// Notes how many packets the sessions with all peers have numbered. There is room for as many numbers.
fn note_all(counts: &mut Counts, node: &Node)
    requires room { 66 ≤ spare counts.old }
    ensures { AreNoted counts.old.entries counts.new.entries node.now 33 }
{
    for peer in 0..33_u8 {
        note_both(counts, node, peer);
    }
}

/// Notes how many numbers the broadcast link of a node used in its boot. There is room for one more number.
fn note_casts(casts: &mut Casts, node: &Node)
    requires room { 0 < spare casts.old }
    ensures { casts.new.entries ≡ insert_entry nat_eq casts.old.entries node.now.boot
        node.now.casting.sending.numbered }
{
    match casts.insert(u64::from(node.boot()), node.broadcast_numbered()) {
        Ok(_) => {}
        Err(_) => unreachable!(),
    }
}

/// The word in which a frame names its sender.
#[tactic(auto, unfolding(tipc_header::specs::Reading::word_at))]
fn sender_word(frame: &[u8]) -> u32
    requires { 32 ≤ length frame.now }
    ensures { result ≡ word_at 7 frame.now }
{
    u32::from_be_bytes([frame[28], frame[29], frame[30], frame[31]])
}

/// The number of the node that a frame names as its sender: None exactly where it names none of the 32.
pub fn sender_of(frame: &[u8]) -> Option<u8>
    ensures { result ≡ sender_of frame.now }
{
    if frame.len() < 32 {
        return None;
    }
    number_of(Addr {
        word: sender_word(frame),
    })
}

/// How many messages were accepted for a peer in a contact, in these journals: the count stops at the last number of
/// 64 bits.
fn accepted_in(journals: &[Journal], peer: u8, contact: (u64, u64)) -> u64
    requires { (1 ≤ peer) × (peer ≤ 32) }
    ensures { result ≡
        counted (length (accepted (joined journals.now) (stream_of peer contact.0 contact.1 Flow.Zero))) }
{
    let mut count = 0_u64;
    for journal in journals {
        count = count.saturating_add(journal.accepted_count(Addr::node(peer), contact, Flow::Zero));
    }
    count
}

/// How many messages were delivered from a peer in a contact, in these journals: the count stops at the last number of
/// 64 bits.
fn delivered_in(journals: &[Journal], peer: u8, contact: (u64, u64)) -> u64
    requires { (1 ≤ peer) × (peer ≤ 32) }
    ensures { result ≡
        counted (length (delivered (joined journals.now) (stream_of peer contact.0 contact.1 Flow.Zero))) }
{
    let mut count = 0_u64;
    for journal in journals {
        count = count.saturating_add(journal.delivered_count(
            Addr::node(peer),
            contact,
            Flow::Zero,
        ));
    }
    count
}

/// The node of a number, which has just begun this boot.
fn node_in(alloc: Global, n: u8, boot: u32) -> Result<Node, NoMemory>
    requires number { (1 ≤ n) × (n ≤ 32) }
    requires boot { 1 ≤ boot }
    ensures { IfOk result (λ node. IsFresh node (node_word n) boot) }
{
    let address = Addr::node(n);
    let node = Node::new(alloc, address, boot)?;
    Ok(node)
}

impl Member {
    /// A node that has just begun this boot.
    pub fn new(alloc: Global, n: u8, boot: u32) -> Result<Member, NoMemory>
        requires number { (1 ≤ n) × (n ≤ 32) }
        requires boot { 1 ≤ boot }
        ensures { IfOk result (λ m. IsNewcomer m n boot) }
    {
        Ok(Member {
            node: node_in(alloc, n, boot)?,
            past: Vec::new(alloc),
            calls: 0,
            arrivals: Vec::new(alloc),
            counts: IndexMap::new(alloc),
            casts: IndexMap::new(alloc),
        })
    }

    /// How many calls its present boot has recorded.
    pub fn calls(&self) -> u64
        ensures { result ≡ self.now.calls }
    {
        self.calls
    }

    /// Whether its journal has room for a call.
    pub fn has_room(&self) -> bool
        ensures { result ≡ has_journal_room self.now.node.journal }
    {
        self.node.has_room()
    }

    /// How many packets are noted for a peer on a bearer under an epoch.
    #[tactic(auto, unfolding(crate::specs::States::count_in))]
    fn noted(&self, peer: u8, bearer: u8, epoch: u64) -> u64
        ensures { result ≡ count_in self.now.counts peer bearer epoch }
    {
        match self.counts.get(&(peer, bearer, epoch)) {
            Some(count) => *count,
            None => 0,
        }
    }

    /// How many packets the session with a peer on a bearer has numbered, where the epoch is its own.
    fn numbered(&self, peer: u8, bearer: u8, epoch: u64) -> Option<u64>
        ensures { result ≡ option_and_then (λ e. numbered_in e.session epoch) (link_in self.now.node peer bearer) }
    {
        match last_count(&self.node, peer, bearer) {
            Some((last, numbered)) if last == epoch => Some(numbered),
            _ => None,
        }
    }

    /// How many packets were numbered for a peer on a bearer under an epoch.
    #[tactic(auto, unfolding(crate::specs::States::count_of))]
    pub fn count(&self, peer: u8, bearer: u8, epoch: u64) -> u64
        ensures { result ≡ count_of self.now peer bearer epoch }
    {
        match self.numbered(peer, bearer, epoch) {
            Some(count) => count,
            None => self.noted(peer, bearer, epoch),
        }
    }

    /// How many numbers its broadcast link used in a boot.
    #[tactic(auto, unfolding(crate::specs::States::cast_count_of, crate::specs::States::casts_noted))]
    pub fn cast_count(&self, boot: u64) -> u64
        ensures { result ≡ cast_count_of self.now boot }
    {
        if boot == u64::from(self.node.boot()) {
            return self.node.broadcast_numbered();
        }
        match self.casts.get(&boot) {
            Some(count) => *count,
            None => 0,
        }
    }

    /// The node's contact number for a peer, and the highest that the peer has shown.
    pub fn contact_numbers(&self, peer: u8) -> (u64, u64)
        ensures own { result.0 ≡ own_in self.now.node.boot (pair_in self.now.node peer) }
        ensures seen { result.1 ≡ seen_in (pair_in self.now.node peer) }
    {
        match self.node.neighbour(peer) {
            Some(neighbour) => (neighbour.pair.own_contact(), neighbour.pair.peer_contact()),
            None => (u64::from(self.node.boot()) * (1 << 32) + 1, 0),
        }
    }

    /// How many calls the boot has recorded after one more.
    ///
    /// # Errors
    ///
    /// JournalFull exactly where the journal has no room for a call.
    #[tactic(auto, using(crate::proofs::calls::Calls::call_fits))]
    fn begin(&self) -> Result<u64, NodeFault>
        ensures ok { IfOk result (λ calls. (calls ≡ self.now.calls + 1) ×
            (has_journal_room self.now.node.journal ≡ true)) }
        ensures full { IfErr result (λ fault.
            (fault ≡ NodeFault.JournalFull) × (has_journal_room self.now.node.journal ≡ false)) }
    {
        if self.node.has_room() {
            Ok(self.calls + 1)
        } else {
            Err(NodeFault::JournalFull)
        }
    }

    /// How many messages it accepted for a peer in a contact, in all its boots: the count stops at the last number of
    /// 64 bits.
    pub fn accepted_count(&self, peer: u8, contact: (u64, u64)) -> u64
        requires { (1 ≤ peer) × (peer ≤ 32) }
        ensures { result ≡
            counted (length (accepted (history self.now) (stream_of peer contact.0 contact.1 Flow.Zero))) }
    {
        accepted_in(self.past.as_slice(), peer, contact).saturating_add(
            self.node.accepted_count(peer, contact),
        )
    }

    /// How many messages were delivered at it from a peer in a contact, in all its boots: the count stops at the last
    /// number of 64 bits.
    pub fn delivered_count(&self, peer: u8, contact: (u64, u64)) -> u64
        requires { (1 ≤ peer) × (peer ≤ 32) }
        ensures { result ≡
            counted (length (delivered (history self.now) (stream_of peer contact.0 contact.1 Flow.Zero))) }
    {
        delivered_in(self.past.as_slice(), peer, contact).saturating_add(
            self.node.delivered_count(peer, contact),
        )
    }

    /// The node in its present boot.
    pub fn node(&self) -> &Node
        ensures { result.now ≡ self.now.node }
    {
        &self.node
    }

    /// The journals of the boots before the present one, in order.
    pub fn past(&self) -> &[Journal]
        ensures { map (λ j. j.entries) result.now ≡ self.now.past }
    {
        &self.past
    }

    /// Every frame that ever arrived at it, in order.
    pub fn arrivals(&self) -> &[Arrived]
        ensures { result.now ≡ self.now.arrivals }
    {
        &self.arrivals
    }

    /// The contact with the peer: None exactly where it isn't in contact with it.
    pub fn contact(&self, peer: u8) -> Option<(u64, u64)>
        ensures { result ≡ option_and_then contact_between (pair_in self.now.node peer) }
    {
        self.node.contact(peer)
    }

    /// The state of the link end to the peer on a bearer: None exactly where there is none.
    pub fn link(&self, peer: u8, bearer: u8) -> Option<LinkState>
        ensures { result ≡ state_of (link_in self.now.node peer bearer) }
    {
        link_state(&self.node, peer, bearer)
    }

    /// The states of the link ends to the peer on bearer 0 and on bearer 1: None exactly where it has none on either.
    pub fn links(&self, peer: u8) -> Option<(Option<LinkState>, Option<LinkState>)>
        ensures { result ≡ option_map states_of (pair_in self.now.node peer) }
    {
        let pair = &self.node.neighbour(peer)?.pair;
        Some((pair.state(0), pair.state(1)))
    }

    /// Whether a bearer is mended.
    pub fn is_mended(&self, bearer: u8) -> bool
        ensures { result ≡ is_mended_on self.now.node.mended bearer }
    {
        self.node.is_mended(bearer)
    }

    /// The numbers of packets unacknowledged and waiting on all its links that are up.
    pub fn load(&self) -> (u64, u64)
        ensures { result ≡ node_load self.now.node }
    {
        self.node.load()
    }

    /// All publications that it knows, in order of node, port and key.
    pub fn names(&self) -> &[Publication]
        ensures { result.now ≡ names self.now.node.journal }
    {
        self.node.names()
    }

    /// Performs a call, for which the chooser says to which match a message by name goes.
    pub fn perform<P: Pick>(
        &mut self,
        alloc: Global,
        by: By,
        call: EventNote,
        chooser: &mut Chooser<P>,
        out: &mut Outbox,
    ) -> Result<Answer, NodeFault>
        requires can { CanPerform call }
        ensures did { IfOk result (λ a. (node : ℕ) →
            Did by (WorldEvent.Call node call) [] self.old self.new out.old out.new a) }
        ensures chose { IfOk result (λ a. (node : ℕ) →
            Chooses P.gives self.old (WorldEvent.Call node call) a chooser.old chooser.new) }
        ensures room { OnOk result (has_journal_room self.old.node.journal ≡ true) }
        ensures full { IfErr result (RecordStops (has_journal_room self.old.node.journal)) }
        ensures err { OnErr result ((self.new ≡ self.old) × (out.new ≡ out.old) × (chooser.new ≡ chooser.old)) }
    {
        let calls = self.begin()?;
        let answer = self.node.perform(alloc, by, call, chooser, out)?;
        self.calls = calls;
        Ok(answer)
    }

    /// Is restarted: its journal is kept, its sessions and the numbers of its broadcast link are noted, and it begins
    /// its next boot.
    pub fn restart(&mut self, alloc: Global) -> Result<Answer, NodeFault>
        requires settled { (n : ℕ) × IsSettledAt self.old n }
        requires next { self.old.node.boot < 4294967295 }
        ensures ok { IfOk result (λ a. IsRestarted self.old self.new × (a ≡ Answer.Done)) }
        ensures full { IfErr result (λ fault. fault ≡ NodeFault.NoMemory) }
        ensures err { OnErr result (self.new ≡ self.old) }
    {
        self.past.reserve(1)?;
        self.counts.reserve(66)?;
        self.casts.reserve(1)?;
        let next = Node::new(alloc, self.node.own(), self.node.boot() + 1)?;
        note_all(&mut self.counts, &self.node);
        note_casts(&mut self.casts, &self.node);
        let last = std::mem::replace(&mut self.node, next);
        self.past.push_reserved(last.into_journal());
        self.calls = 0;
        Ok(Answer::Done)
    }

    /// How many frames arrived at it.
    fn arrived(&self) -> u64
        ensures { result ≡ length self.now.arrivals }
    {
        self.arrivals.len() as u64
    }

    /// The last session with the sender of a frame on a bearer, where the link to it there is down.
    fn last_with(&self, frame: &[u8], bearer: u8) -> Option<Tally>
        ensures { result ≡ over_with self.now (sender_of frame.now) bearer }
    {
        over_with(&self.node, sender_of(frame)?, bearer)
    }

    /// A frame arrives on a bearer, which is the one at that place of the bearer's air. The last session with its
    /// sender there is noted where the link is down, since a new one may begin in its place.
    pub fn arrive(
        &mut self,
        alloc: Global,
        by: By,
        bearer: u8,
        place: u64,
        frame: &[u8],
        out: &mut Outbox,
    ) -> Result<Answer, NodeFault>
        ensures did { IfOk result (λ a. (node : ℕ) →
            Did by (WorldEvent.Arrive node bearer place) frame.now self.old self.new out.old out.new a) }
        ensures room { OnOk result (has_journal_room self.old.node.journal ≡ true) }
        ensures full { IfErr result (RecordStops (has_journal_room self.old.node.journal)) }
        ensures err { OnErr result ((self.new ≡ self.old) × (out.new ≡ out.old)) }
    {
        let calls = self.begin()?;
        let number = self.arrived();
        let last = self.last_with(frame, bearer);
        self.arrivals.reserve(1)?;
        self.counts.reserve(1)?;
        let arrival = self.node.arrive(alloc, by, bearer, number, frame, out)?;
        note(&mut self.counts, last);
        self.arrivals.push_reserved(Arrived {
            bearer,
            frame: place,
        });
        self.calls = calls;
        Ok(Answer::Arrived(arrival))
    }

    /// Lets an event other than an arrival happen. Its answers are those of the calls above.
    pub fn happen<P: Pick>(
        &mut self,
        alloc: Global,
        by: By,
        event: WorldEvent,
        chooser: &mut Chooser<P>,
        out: &mut Outbox,
    ) -> Result<Answer, NodeFault>
        requires can { CanDo self.old.node event }
        requires settled { (n : ℕ) × IsSettledAt self.old n }
        ensures did { IfOk result (λ a. Did by event [] self.old self.new out.old out.new a) }
        ensures chose { IfOk result (λ a. Chooses P.gives self.old event a chooser.old chooser.new) }
        ensures room { is_recorded event ≡ true → OnOk result (has_journal_room self.old.node.journal ≡ true) }
        ensures full { IfErr result (CallStops (is_recorded event) (has_journal_room self.old.node.journal)) }
        ensures err { OnErr result ((self.new ≡ self.old) × (out.new ≡ out.old) × (chooser.new ≡ chooser.old)) }
    {
        match event {
            WorldEvent::Restart { .. } => self.restart(alloc),
            WorldEvent::Call { node: _, call } => self.perform(alloc, by, call, chooser, out),
            WorldEvent::Arrive { .. } => unreachable!(),
        }
    }
}
