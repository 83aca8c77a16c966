//! A step that may fail: a node works on a draft of it, with copies of what its neighbours were, so that they are made
//! what they were where memory runs out.

ghost use Rattle.std.specs.Prelude.{◌≡◌, ℕ, ◌+◌, ◌-◌, ◌<◌, ◌≤◌, ◌++◌, List, [], true, None, Some, fold, is_some, length, slice_index_or, slice_set, sum_by, take, vec_capacity, IfOk, OnErr, OnOk};
ghost use Rattle.std.specs.List.{list_all};
ghost use Rattle.tipc_types.specs.Address.{IsNodeWord};
ghost use Rattle.tipc_outside.specs.declared.outgoing.Outgoing.{Outgoing};
ghost use Rattle.tipc_outside.specs.Frames.{no_frames, Adds};
ghost use Rattle.tipc_journal.specs.Room.{entry_bytes, free_entries, free_message_bytes, has_journal_room};
ghost use Rattle.tipc_journal.specs.Steps.{step_entries};
ghost use Rattle.tipc_sockets.specs.SocketTables.{no_sockets, with_watchers};
ghost use Rattle.tipc_sockets.specs.Telling.{after_entry};
ghost use Rattle.tipc_topology.specs.Changing.{due, ended_at, passed};
ghost use Rattle.tipc_node.specs.Drafts.{own_of, restored, start_of, with_copy, with_sockets_in, IsIdle};
ghost use Rattle.tipc_node.specs.Nodes.{is_change, step_of};
ghost use Rattle.tipc_node.specs.Works.{work_of};

use crate::fates::purge_ended;
use crate::frames::fits;
use crate::neighbours::{NUMBERS, Neighbour};
use crate::steps::record;
use std::alloc::Global;
use std::marker::Model;
use std::mem::replace;
use tipc_journal::{Entry, Journal};
use tipc_outside::Outbox;
use tipc_sockets::Sockets;
use tipc_types::{Addr, Answer, By, EventNote, NoMemory};

/// What a node works on in a step: its neighbours, its sockets, what happened in the step so far, and the frames that
/// leave with it. Between two steps nothing is drafted.
#[derive(Drop)]
pub struct Draft {
    pub(crate) own: Addr,
    pub(crate) neighbours: Vec<Option<Neighbour>>,
    /// A copy of each neighbour that the step changed, as it was before.
    pub(crate) copies: Vec<Option<Neighbour>>,
    pub(crate) sockets: Sockets,
    /// What happened in the step so far.
    pub(crate) inside: Vec<Entry>,
    /// The frames that leave with it.
    pub(crate) out: Outbox,
}

impl Model for Draft {
    ghost use Rattle.std.specs.Prelude.{◌≡◌};
    ghost use Rattle.tipc_node.specs.Drafts.{AreTables, DraftState};
    ghost use Rattle.tipc_node.specs.Works.{work_of};

    ghost Value = { DraftState };

    ghost view = { λ d. record {
      work = work_of d.neighbours.items d.sockets d.inside.items;
      copies = d.copies.items;
      out = d.out;
    } };

    ghost invariant = { λ d. (d.sockets.own ≡ d.own.word) × AreTables d.neighbours.items d.copies.items };
}

/// Puts a place for each number, at which nobody is, into an empty table that has room.
fn fill(table: &mut Vec<Option<Neighbour>>)
    requires empty { table.old.items ≡ [] }
    requires room { 33 ≤ vec_capacity table.old }
    ensures wide { length table.new.items ≡ 33 }
    ensures nobody { (k : ℕ) → slice_index_or table.new.items k None ≡ None }
{
    for _ in 0..NUMBERS {
        table.push_reserved(None);
    }
}

/// A table with a place for each number, at which nobody is.
fn nobody(alloc: Global) -> Result<Vec<Option<Neighbour>>, NoMemory>
    ensures wide { IfOk result (λ table. length table.items ≡ 33) }
    ensures nobody { IfOk result (λ table. (k : ℕ) → slice_index_or table.items k None ≡ None) }
{
    let mut table = Vec::with_capacity(alloc, NUMBERS)?;
    fill(&mut table);
    Ok(table)
}

/// Takes all copies out of their table.
fn drop_copies(copies: &mut Vec<Option<Neighbour>>)
    requires wide { length copies.old.items ≡ 33 }
    ensures wide { length copies.new.items ≡ 33 }
    ensures nobody { (k : ℕ) → slice_index_or copies.new.items k None ≡ None }
{
    copies.clear();
    fill(copies);
}

/// Copies a neighbour before it is changed, where that wasn't done yet.
pub fn keep(
    copies: &mut Vec<Option<Neighbour>>,
    neighbours: &[Option<Neighbour>],
    peer: u8,
) -> Result<(), NoMemory>
    requires wide { peer < length copies.old.items }
    requires some { 1 ≤ peer }
    requires there { is_some (slice_index_or neighbours.now peer None) ≡ true }
    ensures same { restored copies.new.items neighbours.now ≡ restored copies.old.items neighbours.now }
    ensures wide { length copies.new.items ≡ length copies.old.items }
    ensures first { slice_index_or copies.new.items 0 None ≡ slice_index_or copies.old.items 0 None }
    ensures kept { OnOk result (is_some (slice_index_or copies.new.items peer None) ≡ true) }
{
    if copies[peer as usize].is_some() {
        return Ok(());
    }
    let Some(neighbour) = &neighbours[peer as usize] else {
        unreachable!()
    };
    copies[peer as usize] = Some(neighbour.copy()?);
    Ok(())
}

/// Makes the neighbour at a place what it was, where it was copied.
fn put_copy(neighbours: &mut Vec<Option<Neighbour>>, place: usize, copy: Option<Neighbour>)
    requires { place < length neighbours.old.items }
    ensures { neighbours.new.items ≡ with_copy neighbours.old.items place copy }
{
    let Some(copy) = copy else {
        return;
    };
    neighbours[place] = Some(copy);
}

/// Makes each neighbour that was copied what it was.
fn restore(copies: &mut Vec<Option<Neighbour>>, neighbours: &mut Vec<Option<Neighbour>>)
    requires wide { length copies.old.items ≡ 33 }
    requires same { length neighbours.old.items ≡ 33 }
    ensures neighbours { neighbours.new.items ≡ restored copies.old.items neighbours.old.items }
    ensures wide { length copies.new.items ≡ 33 }
    ensures nobody { (k : ℕ) → slice_index_or copies.new.items k None ≡ None }
{
    while let Some(copy) = copies.pop() {
        put_copy(neighbours, copies.len(), copy);
    }
    fill(copies);
}

impl Draft {
    /// The draft of a node that knows nobody and has no sockets.
    pub fn new(alloc: Global, own: Addr, boot: u32) -> Result<Draft, NoMemory>
        requires node { IsNodeWord own.word }
        requires boot { 1 ≤ boot }
        ensures alone { IfOk result (λ d. (peer : ℕ) → slice_index_or d.work.neighbours peer None ≡ None) }
        ensures sockets { IfOk result (λ d. d.work.sockets ≡ no_sockets own.word boot) }
        ensures idle { IfOk result IsIdle }
    {
        Ok(Draft {
            own,
            neighbours: nobody(alloc)?,
            copies: nobody(alloc)?,
            sockets: Sockets::new(alloc, own, boot),
            inside: Vec::new(alloc),
            out: Outbox::new(alloc),
        })
    }

    /// The own address.
    pub fn own(&self) -> Addr
        ensures { result.word ≡ own_of self.now }
    {
        self.own
    }

    /// What is kept of each peer, by number.
    pub fn neighbours(&self) -> &[Option<Neighbour>]
        ensures value { result.now ≡ self.now.work.neighbours }
        ensures wide { length self.now.work.neighbours ≡ 33 }
        ensures nobody { slice_index_or self.now.work.neighbours 0 None ≡ None }
    {
        self.neighbours.as_slice()
    }

    /// The sockets.
    pub fn sockets(&self) -> &Sockets
        ensures { result.now ≡ self.now.work.sockets }
    {
        &self.sockets
    }

    /// Takes the neighbours as they are after a call in which all take part, in a step with these entries inside, of
    /// which so many, the first, tell of links and contacts: the names of each peer with which the contact ended are
    /// forgotten. The journal is made ready for the step. Where memory runs out nothing is changed.
    pub fn take_over(
        &mut self,
        journal: &mut Journal,
        after: Vec<Option<Neighbour>>,
        inside: &[Entry],
        changed: usize,
    ) -> Result<(), NoMemory>
        requires wide { length after.items ≡ 33 }
        requires nobody { slice_index_or after.items 0 None ≡ None }
        requires within { changed ≤ length inside.now }
        requires changes { list_all is_change (take changed inside.now) ≡ true }
        ensures after { OnOk result (self.new ≡ record self.old {
          work = work_of after.items (fold after_entry self.old.work.sockets (take changed inside.now))
              self.old.work.inside;
        }) }
        ensures journal { journal.new.entries ≡ journal.old.entries }
        ensures kept { journal.new.kept ≡ journal.old.kept }
        ensures spare { OnOk result (length inside.now + 2 ≤ journal.new.spare) }
        ensures fits { OnOk result ((length inside.now ≤ free_entries - 4) ×
            (sum_by entry_bytes inside.now ≤ free_message_bytes)) }
        ensures err { OnErr result (self.new ≡ self.old) }
    {
        if !fits(inside) {
            return Err(NoMemory);
        }
        journal.reserve(inside.len() as u64 + 2)?;
        self.neighbours = after;
        purge_ended(&mut self.sockets, &inside[..changed]);
        Ok(())
    }

    /// Lets a tick pass for the subscriptions.
    pub fn pass(&mut self)
        ensures { self.new ≡ with_sockets_in self.old (with_watchers self.old.work.sockets
            (passed (fold (λ t number. ended_at number t) self.old.work.sockets.watchers
            (due self.old.work.sockets.watchers.kept)))) }
    {
        self.sockets.pass();
    }

    /// Takes out what is kept of the peer of that number.
    pub fn take_place(&mut self, peer: u8) -> Option<Neighbour>
        requires { (1 ≤ peer) × (peer ≤ 32) }
        ensures place { result ≡ slice_index_or self.old.work.neighbours peer None }
        ensures within { peer < length self.old.work.neighbours }
        ensures after { self.new ≡ record self.old {
          work = record self.old.work {
            neighbours = slice_set self.old.work.neighbours peer None;
          };
        } }
    {
        self.neighbours[peer as usize].take()
    }

    /// Keeps this of the peer of that number.
    pub fn set_place(&mut self, peer: u8, neighbour: Neighbour)
        requires { (1 ≤ peer) × (peer ≤ 32) }
        ensures { self.new ≡ record self.old {
          work = record self.old.work {
            neighbours = slice_set self.old.work.neighbours peer (Some neighbour);
          };
        } }
    {
        self.neighbours[peer as usize] = Some(neighbour);
    }

    /// Makes the neighbours what they were before a step that found no memory. Nothing is drafted then.
    pub fn undo(&mut self, alloc: Global)
        ensures start { (self.new.work.neighbours, own_of self.new) ≡ start_of self.old }
        ensures sockets { self.new.work.sockets ≡ self.old.work.sockets }
        ensures idle { IsIdle self.new }
    {
        restore(&mut self.copies, &mut self.neighbours);
        self.inside.clear();
        self.out = Outbox::new(alloc);
    }

    /// Makes the neighbours and the sockets what they were before a step that found no memory. Nothing is drafted then.
    pub fn take_back(&mut self, alloc: Global, before: Sockets)
        requires { before.own ≡ own_of self.old }
        ensures start { (self.new.work.neighbours, own_of self.new) ≡ start_of self.old }
        ensures sockets { self.new.work.sockets ≡ before }
        ensures idle { IsIdle self.new }
    {
        self.undo(alloc);
        self.sockets = before;
    }

    /// Records the step as it was drafted, and lets its frames leave. Nothing is drafted then.
    pub fn conclude(
        &mut self,
        alloc: Global,
        journal: &mut Journal,
        by: By,
        note: EventNote,
        answer: Answer,
        out: &mut Outbox,
    )
        requires room { has_journal_room journal.old.entries ≡ true }
        requires few { length self.old.work.inside ≤ free_entries - 2 }
        requires spare { length self.old.work.inside + 2 ≤ journal.old.spare }
        requires bytes { sum_by entry_bytes self.old.work.inside ≤ free_message_bytes }
        ensures journal { journal.new.entries ≡ journal.old.entries ++ step_entries
            (step_of by note self.old.work.inside answer) }
        ensures kept { journal.new.kept ≡ journal.old.kept - 1 }
        ensures frames { (frames : List Outgoing) → Adds no_frames self.old.out frames → Adds out.old out.new frames }
        ensures neighbours { self.new.work.neighbours ≡ self.old.work.neighbours }
        ensures sockets { self.new.work.sockets ≡ self.old.work.sockets }
        ensures idle { IsIdle self.new }
    {
        out.append(replace(&mut self.out, Outbox::new(alloc)));
        let inside = replace(&mut self.inside, Vec::new(alloc));
        record(journal, by, note, inside, answer);
        drop_copies(&mut self.copies);
    }
}
