//! What peers are told of names: messages that are put for one peer, or for each with which there is a contact.

ghost use Rattle.std.specs.Prelude.{◌≡◌, ◌+◌, ◌*◌, ◌-◌, ◌≤◌, ◌++◌, ℕ, List, true, None, Option, option_map, Some, All, length, slice_index_or, slice_set, sum_by, IfOk, OnErr, OnOk};
ghost use Rattle.tipc_message.specs.Wire.{IsCarried};
ghost use Rattle.tipc_journal.specs.Names.{is_clusterwide};
ghost use Rattle.tipc_journal.specs.Room.{counted_bytes, entry_bytes, free_entries, free_message_bytes};
ghost use Rattle.tipc_name_dist.specs.Items.{telling, tellings};
ghost use Rattle.tipc_pair.specs.Facing.{in_contact};
ghost use Rattle.tipc_sockets.specs.SocketTables.{SocketTable};
ghost use Rattle.tipc_outside.specs.Frames.{no_frames};
ghost use Rattle.tipc_node.specs.Drafts.{own_of, peer_in_contact, start_of, IsIdle, PutEach, ToldEach, ToldPeers};
ghost use Rattle.tipc_node.specs.Nodes.{load_with, waiting_in};
ghost use Rattle.tipc_node.specs.Sockets.{crowd_refusal, crowded_answer, first_crowded, with_sockets_of};
ghost use Rattle.tipc_node.specs.Works.{is_in_contact, work_of};

use crate::drafts::{Draft, keep};
use crate::fates::put_on;
use crate::neighbours::{NUMBERS, Neighbour, load_at};
use std::alloc::Global;
use tipc_journal::{Entry, Journal};
use tipc_name_dist::item;
use tipc_outside::Outbox;
use tipc_types::{Addr, Answer, Message, NoMemory, Publication, Scope};

/// No name item is put while so many packets wait on the link to a peer. (This project's profile.)
const NAMES_LIMIT: u32 = 1_000;

/// Whether a publication is seen in the cluster.
pub fn is_clusterwide(p: &Publication) -> bool
    ensures { result ≡ is_clusterwide p.now.scope }
{
    match p.scope {
        Scope::Zone | Scope::Cluster => true,
        Scope::Node => false,
    }
}

/// Adds what peers are told of a publication, or of its withdrawal.
fn add_telling(
    alloc: Global,
    messages: &mut Vec<Message>,
    p: &Publication,
    withdrawal: bool,
) -> Result<(), NoMemory>
    ensures { OnOk result (messages.new.items ≡ messages.old.items ++ telling withdrawal p.now) }
{
    if is_clusterwide(p) {
        messages.push(item(alloc, p, withdrawal)?)?;
    }
    Ok(())
}

/// What peers are told of a publication, or of its withdrawal: a message, or none where it isn't seen in the cluster.
pub fn telling(alloc: Global, p: &Publication, withdrawal: bool) -> Result<Vec<Message>, NoMemory>
    ensures value { IfOk result (λ messages. messages.items ≡ telling withdrawal p.now) }
    ensures carried { IfOk result (λ messages. All IsCarried messages.items) }
    ensures few { IfOk result (λ messages. length messages.items ≤ 1) }
    ensures light { IfOk result (λ messages. sum_by counted_bytes messages.items ≤ 20) }
{
    let mut messages = Vec::new(alloc);
    add_telling(alloc, &mut messages, p, withdrawal)?;
    Ok(messages)
}

/// What peers are told of publications, or of their withdrawals: a message for each that is seen in the cluster.
pub fn tellings(
    alloc: Global,
    publications: &[Publication],
    withdrawal: bool,
) -> Result<Vec<Message>, NoMemory>
    ensures value { IfOk result (λ messages. messages.items ≡ tellings withdrawal publications.now) }
    ensures carried { IfOk result (λ messages. All IsCarried messages.items) }
    ensures few { IfOk result (λ messages. length messages.items ≤ length publications.now) }
    ensures light { IfOk result (λ messages.
        sum_by counted_bytes messages.items ≤ 20 * length publications.now) }
{
    let mut messages = Vec::new(alloc);
    for p in publications {
        add_telling(alloc, &mut messages, p, withdrawal)?;
    }
    Ok(messages)
}

/// The number of packets that wait on the link to a peer: none where there is no contact with it.
fn waiting_at(neighbours: &[Option<Neighbour>], peer: u8) -> u32
    ensures { result ≡ waiting_in (load_with (slice_index_or neighbours.now peer None)) }
{
    match neighbours.get(peer as usize) {
        Some(place) => load_at(place).1,
        None => 0,
    }
}

/// What a call is answered that would tell peers, for the lowest one on whose link too many packets wait.
fn first_crowded(neighbours: &[Option<Neighbour>]) -> Option<Answer>
    ensures { result ≡ option_map (crowded_answer neighbours.now) (first_crowded neighbours.now) }
{
    for number in 1..NUMBERS {
        let waiting = waiting_at(neighbours, number as u8);
        if waiting >= NAMES_LIMIT {
            let peer = number as u8;
            return Some(Answer::NamesCongested { peer, waiting });
        }
    }
    None
}

/// Why peers aren't told by these messages: too many packets wait on the link to one. None where there are no
/// messages.
pub fn crowd_refusal(neighbours: &[Option<Neighbour>], messages: &[Message]) -> Option<Answer>
    ensures { result ≡ crowd_refusal neighbours.now messages.now }
{
    if messages.is_empty() {
        return None;
    }
    first_crowded(neighbours)
}

/// Puts messages on the link to the neighbour of that number, one behind the other, and tells that they are accepted.
/// Where memory runs out some of them may have been put: the caller has a copy of what was.
fn put_each_on(
    neighbour: &mut Neighbour,
    alloc: Global,
    own: Addr,
    peer: u8,
    messages: &[Message],
    inside: &mut Vec<Entry>,
    out: &mut Outbox,
) -> Result<(), NoMemory>
    requires peer { (1 ≤ peer) × (peer ≤ 32) }
    requires carried { All IsCarried messages.now }
    requires contact { in_contact neighbour.old.pair ≡ true }
    ensures puts { OnOk result ((xs : List (Option Neighbour)) (s : SocketTable) →
        slice_index_or xs peer None ≡ Some neighbour.old →
        PutEach own.word (work_of xs s inside.old.items) peer messages.now
        (work_of (slice_set xs peer (Some neighbour.new)) s inside.new.items) out.old out.new) }
    ensures contact { OnOk result (in_contact neighbour.new.pair ≡ true) }
    ensures few { OnOk result (length inside.new.items ≡ length inside.old.items + length messages.now) }
    ensures light { OnOk result (sum_by entry_bytes inside.new.items ≡
        sum_by entry_bytes inside.old.items + sum_by counted_bytes messages.now) }
{
    for m in messages {
        put_on(neighbour, alloc, own, peer, m.clone()?, inside, out)?;
    }
    Ok(())
}

/// Whether there is contact with the peer of that number.
fn is_in_contact(neighbours: &[Option<Neighbour>], peer: u8) -> bool
    ensures { result ≡ is_in_contact neighbours.now peer }
{
    match neighbours.get(peer as usize) {
        Some(Some(neighbour)) => neighbour.is_met(),
        _ => false,
    }
}

impl Draft {
    /// Puts messages on the link to the peer of that number, one behind the other, and tells that they are accepted.
    pub(crate) fn put_each(
        &mut self,
        alloc: Global,
        peer: u8,
        messages: &[Message],
    ) -> Result<(), NoMemory>
        requires peer { (1 ≤ peer) × (peer ≤ 32) }
        requires carried { All IsCarried messages.now }
        requires contact { is_in_contact self.old.work.neighbours peer ≡ true }
        ensures puts { OnOk result ((s : SocketTable) → PutEach (own_of self.old) (with_sockets_of self.old.work s) peer
            messages.now (with_sockets_of self.new.work s) self.old.out self.new.out) }
        ensures contact { OnOk result ((k : ℕ) →
            is_in_contact self.new.work.neighbours k ≡ is_in_contact self.old.work.neighbours k) }
        ensures few { OnOk result (length self.new.work.inside ≤
            length self.old.work.inside + length messages.now) }
        ensures light { OnOk result (sum_by entry_bytes self.new.work.inside ≤
            sum_by entry_bytes self.old.work.inside + sum_by counted_bytes messages.now) }
        ensures sockets { self.new.work.sockets ≡ self.old.work.sockets }
        ensures start { start_of self.new ≡ start_of self.old }
    {
        keep(&mut self.copies, self.neighbours.as_slice(), peer)?;
        let Some(neighbour) = &mut self.neighbours[peer as usize] else {
            unreachable!()
        };
        put_each_on(
            neighbour,
            alloc,
            self.own,
            peer,
            messages,
            &mut self.inside,
            &mut self.out,
        )
    }

    /// Puts messages for the peer of that number, where there is contact with it.
    fn tell_peer(&mut self, alloc: Global, peer: u8, messages: &[Message]) -> Result<(), NoMemory>
        requires peer { (1 ≤ peer) × (peer ≤ 32) }
        requires carried { All IsCarried messages.now }
        ensures told { OnOk result ((s : SocketTable) → ToldEach (own_of self.old) (with_sockets_of self.old.work s)
            messages.now (peer_in_contact self.old.work.neighbours peer) (with_sockets_of self.new.work s)
            self.old.out self.new.out) }
        ensures contact { OnOk result ((k : ℕ) →
            is_in_contact self.new.work.neighbours k ≡ is_in_contact self.old.work.neighbours k) }
        ensures few { OnOk result (length self.new.work.inside ≤
            length self.old.work.inside + length messages.now) }
        ensures light { OnOk result (sum_by entry_bytes self.new.work.inside ≤
            sum_by entry_bytes self.old.work.inside + sum_by counted_bytes messages.now) }
        ensures sockets { self.new.work.sockets ≡ self.old.work.sockets }
        ensures start { start_of self.new ≡ start_of self.old }
    {
        if !is_in_contact(self.neighbours(), peer) {
            return Ok(());
        }
        self.put_each(alloc, peer, messages)
    }

    /// Puts the same messages, 1,024 at most of one item each, for every peer with which there is contact, in order of
    /// their numbers.
    fn tell_peers(&mut self, alloc: Global, messages: &[Message]) -> Result<(), NoMemory>
        requires carried { All IsCarried messages.now }
        requires few { length messages.now ≤ 1024 }
        requires light { sum_by counted_bytes messages.now ≤ 20480 }
        ensures told { OnOk result ((s : SocketTable) → ToldPeers (own_of self.old) (with_sockets_of self.old.work s)
            messages.now (with_sockets_of self.new.work s) self.old.out self.new.out) }
        ensures few { OnOk result (length self.new.work.inside ≤ length self.old.work.inside + 32768) }
        ensures light { OnOk result (sum_by entry_bytes self.new.work.inside ≤
            sum_by entry_bytes self.old.work.inside + 655360) }
        ensures sockets { self.new.work.sockets ≡ self.old.work.sockets }
        ensures start { start_of self.new ≡ start_of self.old }
    {
        if messages.is_empty() {
            return Ok(());
        }
        for peer in 1..NUMBERS {
            self.tell_peer(alloc, peer as u8, messages)?;
        }
        Ok(())
    }

    /// Tells every peer in contact by these messages, and makes the journal ready for the step.
    fn share_by(
        &mut self,
        alloc: Global,
        journal: &mut Journal,
        messages: &[Message],
    ) -> Result<(), NoMemory>
        requires carried { All IsCarried messages.now }
        requires few { (length messages.now ≤ 1024) × (length self.old.work.inside ≤ 1024) }
        requires light { (sum_by counted_bytes messages.now ≤ 20480) ×
            (sum_by entry_bytes self.old.work.inside ≡ 0) }
        ensures told { OnOk result ((s : SocketTable) → ToldPeers (own_of self.old) (with_sockets_of self.old.work s)
            messages.now (with_sockets_of self.new.work s) self.old.out self.new.out) }
        ensures journal { journal.new.entries ≡ journal.old.entries }
        ensures kept { journal.new.kept ≡ journal.old.kept }
        ensures spare { OnOk result (length self.new.work.inside + 2 ≤ journal.new.spare) }
        ensures fits { OnOk result ((length self.new.work.inside ≤ free_entries - 2) ×
            (sum_by entry_bytes self.new.work.inside ≤ free_message_bytes)) }
        ensures sockets { self.new.work.sockets ≡ self.old.work.sockets }
        ensures start { start_of self.new ≡ start_of self.old }
    {
        self.tell_peers(alloc, messages)?;
        journal.reserve(self.inside.len() as u64 + 2)
    }

    /// Tells every peer in contact by these messages, 1,024 at most of one item each, in a step that begins with these
    /// entries, and makes the journal ready for it. Where memory runs out nothing is drafted, and the neighbours are
    /// as they were.
    pub(crate) fn share(
        &mut self,
        alloc: Global,
        journal: &mut Journal,
        inside: Vec<Entry>,
        messages: &[Message],
    ) -> Result<(), NoMemory>
        requires idle { IsIdle self.old }
        requires carried { All IsCarried messages.now }
        requires few { (length messages.now ≤ 1024) × (length inside.items ≤ 1024) }
        requires light { (sum_by counted_bytes messages.now ≤ 20480) × (sum_by entry_bytes inside.items ≡ 0) }
        ensures told { OnOk result ((s : SocketTable) → ToldPeers (own_of self.old)
            (work_of self.old.work.neighbours s inside.items) messages.now (with_sockets_of self.new.work s)
            no_frames self.new.out) }
        ensures journal { journal.new.entries ≡ journal.old.entries }
        ensures kept { journal.new.kept ≡ journal.old.kept }
        ensures spare { OnOk result (length self.new.work.inside + 2 ≤ journal.new.spare) }
        ensures fits { OnOk result ((length self.new.work.inside ≤ free_entries - 2) ×
            (sum_by entry_bytes self.new.work.inside ≤ free_message_bytes)) }
        ensures sockets { self.new.work.sockets ≡ self.old.work.sockets }
        ensures start { start_of self.new ≡ (self.old.work.neighbours, own_of self.old) }
        ensures err { OnErr result ((self.new.work.neighbours ≡ self.old.work.neighbours) × IsIdle self.new) }
    {
        self.inside = inside;
        let Ok(()) = self.share_by(alloc, journal, messages) else {
            self.undo(alloc);
            return Err(NoMemory);
        };
        Ok(())
    }
}
