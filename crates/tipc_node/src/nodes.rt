//! The node, its calls, and what arrives at it.

ghost use Rattle.std.specs.Prelude.{◌≡◌, ℕ, ◌+◌, ◌%◌, ◌^◌, ◌<◌, ◌≤◌, [], true, false, if◌then◌else◌, None, Some, Err, length, unwrap_or, IfOk, IfSome, IfNone, IsOk, OnErr, OnOk};
ghost use Rattle.tipc_types.specs.Address.{node_word, IsNodeWord};
ghost use Rattle.tipc_journal.specs.Streams.{accepted, delivered};
ghost use Rattle.tipc_journal.specs.Counting.{is_sent_by_name};
ghost use Rattle.tipc_journal.specs.Matches.{names};
ghost use Rattle.tipc_journal.specs.Licensed.{IsPicked};
ghost use Rattle.tipc_pair.specs.Facing.{state_of};
ghost use Rattle.tipc_pair.specs.PairCalls.{numbered_of};
ghost use Rattle.tipc_sockets.specs.SocketTables.{no_sockets, queue_at};
ghost use Rattle.tipc_node.specs.Arrivals.{Arrived};
ghost use Rattle.tipc_node.specs.Calls.{CanPerform, HasInstances, Performed, TakesNoMemory};
ghost use Rattle.tipc_broadcast.specs.Casting.{booted};
ghost use Rattle.tipc_node.specs.Discovery.{nobody_heard};
ghost use Rattle.tipc_node.specs.Nodes.{contact_with, end_with, is_mended_on, node_load, neighbour_of, promising};
ghost use Rattle.tipc_journal.specs.Room.{has_journal_room};
ghost use Rattle.tipc_node.specs.Numbers.{IsBounded};
ghost use Rattle.tipc_node.specs.Sharing.{SharesNames};
ghost use Rattle.tipc_node.specs.Telling.{IsTold};
ghost use Rattle.tipc_node.specs.Valid.{GrewByStep, IsValid};

use crate::cores::Core;
use crate::neighbours::Neighbour;
use crate::steps::{NodeFault, has_journal_room};
use std::alloc::Global;
use std::marker::Model;
use tipc_journal::{Entry, Journal};
use tipc_outside::Outbox;
use tipc_pick::{Chooser, Pick};
use tipc_types::{Addr, Answer, Arrival, By, EventNote, Flow, LinkState, NoMemory, Publication};

/// A node in one boot. Its journal tells of its contacts and its links, its frames are for the peers whose numbers they
/// name, and what it told a peer, and heard from it, makes the two agree on their names. It has a link end to each peer
/// that it found, on the bearer on which it heard it. Its broadcast link has just the peers in contact.
#[derive(Drop)]
pub struct Node {
    core: Core,
}

impl Model for Node {
    ghost use Rattle.tipc_node.specs.Discovery.{AreFound};
    ghost use Rattle.tipc_node.specs.Nodes.{NodeState};
    ghost use Rattle.tipc_node.specs.Sharing.{SharesNames};
    ghost use Rattle.tipc_node.specs.Telling.{ArePacked, IsTold};
    ghost use Rattle.tipc_node.specs.Turns.{AreCast, AreNamed};

    ghost Value = { NodeState };

    ghost view = { λ n. n.core };

    ghost invariant = { λ n. IsTold n.core × AreNamed n.core × ArePacked n.core × SharesNames n.core ×
        AreFound n.core × AreCast n.core };
}

/// A publication of it has a range with instances. It does nothing.
fn ranged(call: &EventNote)
    ensures { HasInstances call.now }
{
    if let EventNote::Publish { range, .. } = call {
        let _ = range.lower();
    }
}

impl Node {
    /// A node of that boot, which knows nobody and has no sockets and no history. Its bearers are cut.
    pub fn new(alloc: Global, own: Addr, boot: u32) -> Result<Node, NoMemory>
        requires node { IsNodeWord own.word }
        requires boot { 1 ≤ boot }
        ensures own { IfOk result (λ n. (n.own ≡ own.word) × (n.boot ≡ boot) × (n.mended ≡ (false, false))) }
        ensures alone { IfOk result (λ n. (peer : ℕ) → neighbour_of n peer ≡ None) }
        ensures empty { IfOk result (λ n. (n.sockets ≡ no_sockets own.word boot) × (n.journal ≡ [])) }
        ensures unheard { IfOk result (λ n. n.found ≡ nobody_heard own.word) }
        ensures ticks { IfOk result (λ n. n.ticks ≡ 0) }
        ensures casting { IfOk result (λ n. n.casting ≡ booted own.word boot) }
        ensures promised { IfOk result (λ n. n.promised ≡ 0) }
        ensures told { IfOk result (λ n. IsTold n) }
        ensures shares { IfOk result (λ n. SharesNames n) }
        ensures bounded { IfOk result (λ n. IsBounded n) }
    {
        let core = Core::new(alloc, own, boot)?;
        core.sound();
        Ok(Node { core })
    }

    /// What it keeps of the peer: None exactly where it has no link end to it.
    pub fn neighbour(&self, peer: u8) -> Option<&Neighbour>
        ensures some { IfSome result (λ x. neighbour_of self.now peer ≡ Some x.now) }
        ensures none { IfNone result (neighbour_of self.now peer ≡ None) }
    {
        self.core.neighbour(peer)
    }

    /// Whether a bearer is mended. There are two: 0 and 1.
    pub fn is_mended(&self, bearer: u8) -> bool
        ensures { result ≡ is_mended_on self.now.mended bearer }
    {
        self.core.is_mended(bearer)
    }

    /// Its address.
    pub fn own(&self) -> Addr
        ensures { result.word ≡ self.now.own }
    {
        self.core.own()
    }

    /// Its boot number.
    pub fn boot(&self) -> u32
        ensures { result ≡ self.now.boot }
    {
        self.core.boot()
    }

    /// Whether its journal has room for a call: 65,536 free entries and 4,194,304 free message bytes.
    pub fn has_room(&self) -> bool
        ensures { result ≡ has_journal_room self.now.journal }
    {
        has_journal_room(self.core.journal())
    }

    /// Its journal.
    pub fn journal(&self) -> &[Entry]
        ensures { result.now ≡ self.now.journal }
    {
        self.core.journal().entries()
    }

    /// How many messages were accepted for the peer in a contact: this node's contact number, then the peer's.
    pub fn accepted_count(&self, peer: u8, contact: (u64, u64)) -> u64
        requires { (1 ≤ peer) × (peer ≤ 32) }
        ensures { result ≡ length (accepted self.now.journal
            (record { peer = record { word = node_word peer }; contact = contact; flow = Flow.Zero })) }
    {
        self.core
            .journal()
            .accepted_count(Addr::node(peer), contact, Flow::Zero)
    }

    /// How many messages were delivered from the peer in a contact: this node's contact number, then the peer's.
    pub fn delivered_count(&self, peer: u8, contact: (u64, u64)) -> u64
        requires { (1 ≤ peer) × (peer ≤ 32) }
        ensures { result ≡ length (delivered self.now.journal
            (record { peer = record { word = node_word peer }; contact = contact; flow = Flow.Zero })) }
    {
        self.core
            .journal()
            .delivered_count(Addr::node(peer), contact, Flow::Zero)
    }

    /// The contact with the peer: this node's contact number, then the peer's. None exactly where it isn't in
    /// contact with it.
    pub fn contact(&self, peer: u8) -> Option<(u64, u64)>
        ensures { result ≡ contact_with self.now peer }
    {
        self.neighbour(peer)?.pair.contact()
    }

    /// The numbers of packets unacknowledged and waiting, each on all its links together that are up, and on its
    /// broadcast link.
    pub fn load(&self) -> (u64, u64)
        ensures { result ≡ node_load self.now }
    {
        self.core.load()
    }

    /// How many broadcast packets it numbered in this boot, and passed over.
    pub fn broadcast_numbered(&self) -> u64
        ensures { result ≡ self.now.casting.sending.numbered }
    {
        self.core.broadcast_numbered()
    }

    /// The state of the link end to the peer on a bearer, 0 or 1: None exactly where there is none.
    pub fn links(&self, peer: u8, bearer: u8) -> Option<LinkState>
        requires { bearer ≤ 1 }
        ensures { result ≡ state_of (end_with bearer (neighbour_of self.now peer)) }
    {
        self.neighbour(peer)?.pair.state(bearer)
    }

    /// How many packets each direction numbered in the present link session with the peer on a bearer, 0 or 1, or in
    /// the last one: the own ones exactly, and the peer's as taken. None exactly where there is no link end, or it had
    /// no session.
    pub fn numbered(&self, peer: u8, bearer: u8) -> Option<(u64, u64)>
        requires { bearer ≤ 1 }
        ensures { result ≡ numbered_of (end_with bearer (neighbour_of self.now peer)) }
    {
        self.neighbour(peer)?.pair.numbered(bearer)
    }

    /// How many messages wait at a port, 128 at most: 0 where it isn't there.
    pub fn queued(&self, port: u32) -> u32
        ensures count { result ≡ length (unwrap_or (queue_at self.now.sockets port) []) }
        ensures most { result ≤ 128 }
    {
        self.core.draft.sockets().queued(port)
    }

    /// All publications that it knows, in order of node, port and key.
    #[tactic(auto, using(crate::proofs::journal::Refusing::told_names))]
    pub fn names(&self) -> &[Publication]
        ensures held { result.now ≡ self.now.sockets.names }
        ensures told { result.now ≡ names self.now.journal }
    {
        self.core.draft.sockets().names()
    }

    /// Promises that so many calls, at least, find their memory: as many among `receive`, `cancel`, `next_event` and a
    /// `withdraw` of which no peer is told are made though memory has run out. Each call or arrival that is recorded
    /// uses one of them up, and takes no memory that is promised.
    ///
    /// # Errors
    ///
    /// NoMemory changes nothing.
    pub fn reserve(&mut self, calls: u64) -> Result<(), NoMemory>
        ensures ok { OnOk result (self.new ≡ promising self.old calls) }
        ensures err { OnErr result (self.new ≡ self.old) }
    {
        self.core.reserve(calls)
    }

    /// For how many calls memory is promised.
    pub fn promised(&self) -> u64
        ensures { result ≡ self.now.promised }
    {
        self.core.promised()
    }

    /// Gives up its journal: the boot is over.
    pub fn into_journal(self) -> Journal
        ensures { result.entries ≡ self.journal }
    {
        self.core.into_journal()
    }

    /// Performs a call, and answers it: a socket is made or closed, names are published there and withdrawn, a message
    /// is sent to a port, by name or to every port with a publication that overlaps a range, or taken from an inbox; a
    /// subscription is made or cancelled, or its next event is taken; a bearer is mended or cut; a tick passes. The
    /// call is one step of the journal. The chooser says to which of those that a name finds a message goes, and turns
    /// where one was sent so.
    ///
    /// # Errors
    ///
    /// JournalFull exactly where the journal has no room for a call, else NoMemory. Neither changes anything. A call
    /// that takes no memory, where memory was promised, doesn't fail for want of it: see [`Node::reserve`].
    pub fn perform<P: Pick>(
        &mut self,
        alloc: Global,
        by: By,
        call: EventNote,
        chooser: &mut Chooser<P>,
        out: &mut Outbox,
    ) -> Result<Answer, NodeFault>
        requires can { CanPerform call }
        ensures ok { IfOk result (λ a. Performed self.old by call self.new out.old out.new a) }
        ensures picked { IfOk result (λ a. (turn : ℕ) → turn % 2 ^ 64 ≡ chooser.old.turn →
            IsPicked (P.gives chooser.old.pick) turn (record { word = self.old.own }) self.old.journal call a) }
        ensures turns { IfOk result (λ a. chooser.new ≡ record {
          pick = chooser.old.pick;
          turn = if is_sent_by_name call a then (chooser.old.turn + 1) % 2 ^ 64 else chooser.old.turn;
        }) }
        ensures room { OnOk result (has_journal_room self.old.journal ≡ true) }
        ensures full { has_journal_room self.old.journal ≡ false → result ≡ Err NodeFault.JournalFull }
        ensures only { result ≡ Err NodeFault.JournalFull → has_journal_room self.old.journal ≡ false }
        ensures succeeds { 0 < self.old.promised → has_journal_room self.old.journal ≡ true →
            TakesNoMemory self.old.sockets call → IsOk result }
        ensures bounded { IsBounded self.new }
        ensures err { OnErr result ((self.new ≡ self.old) × (out.new ≡ out.old) × (chooser.new ≡ chooser.old)) }
    {
        ranged(&call);
        let answer = self.core.perform(alloc, by, call, chooser, out);
        self.core.sound();
        answer
    }

    /// A frame arrives on a bearer; `number` is its number among all that arrived at this node. A packet that it brings
    /// is taken by the link of the node that it names as its sender, or by the broadcast link where it is one of
    /// broadcast; a message that is given is recorded as delivered and has its fate: it waits at its port, or goes
    /// back, or is dropped. A STATE that is due is sent last. A request of discovery is answered by a response to its
    /// sender; a sender that is new on the bearer gets its link end, whose RESET is sent. A frame that is stopped is
    /// ignored for the first reason that holds. The arrival is one step of the journal.
    ///
    /// # Errors
    ///
    /// JournalFull exactly where the journal has no room for a call, else NoMemory. Neither changes anything.
    pub fn arrive(
        &mut self,
        alloc: Global,
        by: By,
        bearer: u8,
        number: u64,
        frame: &[u8],
        out: &mut Outbox,
    ) -> Result<Arrival, NodeFault>
        ensures ok { IfOk result (λ a. Arrived self.old by bearer number frame.now self.new out.old out.new a) }
        ensures grew { OnOk result (GrewByStep self.old.journal self.new.journal) }
        ensures valid { IsValid self.new }
        ensures bounded { IsBounded self.new }
        ensures room { OnOk result (has_journal_room self.old.journal ≡ true) }
        ensures full { has_journal_room self.old.journal ≡ false → result ≡ Err NodeFault.JournalFull }
        ensures only { result ≡ Err NodeFault.JournalFull → has_journal_room self.old.journal ≡ false }
        ensures err { OnErr result ((self.new ≡ self.old) × (out.new ≡ out.old)) }
    {
        let arrival = self.core.arrive(alloc, by, bearer, number, frame, out);
        self.core.sound();
        arrival
    }
}
