//! What a caller calls a locked node with.

ghost use Rattle.std.specs.Prelude.{◌≡◌, ◌<◌, ◌≤◌, ◌^◌, length, IfOk};
ghost use Rattle.std.specs.List.{list_all};
ghost use Rattle.tipc_node_lock.specs.Locks.{has_one_pass, is_one_per_caller, is_sole_pass};
ghost use Rattle.tipc_node_lock.specs.Passes.{IsOfSameCaller, has_taker, marked_full, marked_short, new_pass, passes_from, with_handed, ReceivesAt};

use crate::inboxes::{NoSocket, PortTaker, taker_position};
use std::alloc::Global;
use std::collections::VecDeque;
use std::marker::Model;
use std::sync::Wait;
use tipc_stamp::StampSeat;
use tipc_types::{Addr, Answer, EventNote, Message, NoMemory};

/// A call that a caller made: its stamp, the call, and its answer as the node's journal keeps it. (This project's
/// profile.)
#[derive(Drop)]
pub struct MadeCall {
    /// The call's place among all calls of all nodes.
    pub stamp: u64,
    /// What was called.
    pub call: EventNote,
    /// How it was answered; of a message that was received, only that one was given.
    pub answer: Answer,
}

/// What one caller calls a locked node with. It may go to another thread. It holds the takers of just the ports whose
/// sockets it made and didn't close since.
///
/// Contracts see its seat, its node's address, the caller's number there, from 1 on, the calls that it made, whether it
/// was told that the journal is full, whether memory ran out when it moved messages, how many frames it was handed, and
/// its takers.
#[derive(Drop)]
pub struct Pass {
    pub(crate) seat: StampSeat,
    own: Addr,
    pub(crate) caller: u32,
    pub(crate) made: Vec<MadeCall>,
    full: bool,
    short: bool,
    handed: u64,
    pub(crate) takers: Vec<PortTaker>,
}

impl Model for Pass {
    ghost use Rattle.std.specs.Prelude.{◌≤◌};
    ghost use Rattle.tipc_node_lock.specs.Passes.{HoldsTakers, PassState};

    ghost Value = { PassState };

    ghost view = { λ p. record {
      seat = p.seat;
      own = p.own.word;
      caller = p.caller;
      made = p.made.items;
      full = p.full;
      short = p.short;
      handed = p.handed;
      takers = p.takers.items;
    } };

    ghost invariant = { λ p. (1 ≤ p.caller) × HoldsTakers p.made.items p.takers.items };
}

impl Pass {
    /// The pass of a caller that made no call.
    fn new(alloc: Global, own: Addr, caller: u32, seat: StampSeat) -> Pass
        requires { 1 ≤ caller }
        ensures { result ≡ new_pass own.word caller seat }
    {
        Pass {
            seat,
            own,
            caller,
            made: Vec::new(alloc),
            full: false,
            short: false,
            handed: 0,
            takers: Vec::new(alloc),
        }
    }

    /// The address of its node.
    pub fn own(&self) -> Addr
        ensures { result.word ≡ self.now.own }
    {
        self.own
    }

    /// The caller's number at its node, from 1 on.
    pub fn caller(&self) -> u32
        ensures number { result ≡ self.now.caller }
        ensures least { 1 ≤ self.now.caller }
    {
        self.caller
    }

    /// The calls that the caller made with it, in order: those that were answered, not those that the lock refused.
    pub fn made(&self) -> &[MadeCall]
        ensures { result.now ≡ self.now.made }
    {
        self.made.as_slice()
    }

    /// Whether a call was refused since the journal had no room for it.
    pub fn is_full(&self) -> bool
        ensures { result ≡ self.now.full }
    {
        self.full
    }

    /// Whether memory ran out in one of its calls when messages were to be moved.
    pub fn is_short(&self) -> bool
        ensures { result ≡ self.now.short }
    {
        self.short
    }

    /// Whether it holds the taker of a port's inbox.
    pub fn has_taker(&self, port: u32) -> bool
        ensures { result ≡ has_taker self.now port }
    {
        self.takers.iter().any(|taker| taker.port == port)
    }

    /// How many frames it was handed, 2^64 - 1 at most.
    pub fn handed(&self) -> u64
        ensures { result ≡ self.now.handed }
    {
        self.handed
    }

    /// Marks that the journal was full.
    pub(crate) fn fill(&mut self)
        ensures { self.new ≡ marked_full self.old }
    {
        self.full = true;
    }

    /// Marks that memory ran out when messages were to be moved.
    pub(crate) fn run_short(&mut self)
        ensures { self.new ≡ marked_short self.old }
    {
        self.short = true;
    }

    /// Takes the first message that is held in a port's inbox. This may wait for the thread that gives.
    ///
    /// # Errors
    ///
    /// Exactly where it doesn't hold the taker of that inbox.
    pub(crate) fn receive<R: Wait>(
        &mut self,
        rt: &R,
        port: u32,
    ) -> Result<Option<Message>, NoSocket>
        ensures received { ReceivesAt self.old port result self.new }
        ensures same { IsOfSameCaller self.old self.new }
    {
        match taker_position(self.takers.as_slice(), port) {
            Some(place) => Ok(self.takers[place].take(rt)),
            None => Err(NoSocket),
        }
    }

    /// Counts frames that it was handed.
    pub(crate) fn hand(&mut self, frames: u64)
        ensures { self.new ≡ with_handed self.old frames }
    {
        self.handed = self.handed.saturating_add(frames);
    }
}

/// A pass for each seat, whose callers count from 1.
pub(crate) fn new_passes(
    alloc: Global,
    own: Addr,
    seats: Vec<StampSeat>,
) -> Result<Vec<Pass>, NoMemory>
    requires { length seats.items < 2 ^ 32 }
    ensures { IfOk result (λ passes. passes.items ≡ passes_from own.word 1 seats.items) }
{
    let mut passes = Vec::with_capacity(alloc, seats.len())?;
    let mut caller = 0;
    let mut waiting = VecDeque::from_vec(seats);
    while let Some(seat) = waiting.pop_front() {
        caller += 1;
        passes.push(Pass::new(alloc, own, caller, seat))?;
    }
    Ok(passes)
}

/// Whether there is one pass, and no more, of the caller with that number.
fn has_one_pass(passes: &[Pass], caller: u32) -> bool
    ensures { result ≡ has_one_pass passes.now caller }
{
    passes.iter().filter(|pass| pass.caller() == caller).count() == 1
}

/// Whether a pass is of the node at this address, and of a caller with a number up to this one that has no other pass.
fn is_sole_pass(passes: &[Pass], own: Addr, callers: u32, pass: &Pass) -> bool
    ensures { result ≡ is_sole_pass own.word callers passes.now pass.now }
{
    pass.own().word == own.word && pass.caller() <= callers && has_one_pass(passes, pass.caller())
}

/// Whether each of them is such a pass.
fn are_sole(passes: &[Pass], own: Addr, callers: u32) -> bool
    ensures { result ≡ list_all (is_sole_pass own.word callers passes.now) passes.now }
{
    passes
        .iter()
        .all(|pass| is_sole_pass(passes, own, callers, pass))
}

/// Whether the passes are one for each caller from 1 on, all of the node at this address.
#[tactic(auto, unfolding(crate::specs::Locks::is_one_per_caller))]
pub(crate) fn is_one_per_caller(own: Addr, callers: u32, passes: &[Pass]) -> bool
    ensures { result ≡ is_one_per_caller own.word callers passes.now }
{
    passes.len() == callers as usize && are_sole(passes, own, callers)
}
