//! Messages move, behind a locked call: what waits at the ports is received, as caller 0, and offered to the inboxes of
//! the sockets.

ghost use Rattle.std.specs.Prelude.{◌≡◌, ◌<◌, true, false, length, IfOk, MatchOption, OnErr};
ghost use Rattle.tipc_types.specs.declared.node_calls.Answer.TheVariants.{Received};
ghost use Rattle.tipc_types.specs.declared.message_forms.Message.{Message};
ghost use Rattle.tipc_sockets.specs.SocketTables.{has_port};
ghost use Rattle.tipc_node.specs.Calls.{Performed};
ghost use Rattle.tipc_node.specs.Sockets.{waiting_at};
ghost use Rattle.tipc_node_lock.specs.Advances.{Advances, MovesOn, IsOpenAt, MovesAll};
ghost use Rattle.tipc_node_lock.specs.Moves.{HasMovedAll, IsClearedAt, MovingStops};
ghost use Rattle.tipc_node_lock.specs.Passes.{PassState};

use crate::counts::count_call;
use crate::locked::{LockedNode, next_by};
use crate::passes::Pass;
use std::alloc::Global;
use std::sync::Wait;
use tipc_node::{Node, NodeFault};
use tipc_outside::Outbox;
use tipc_pick::{Chooser, Pick};
use tipc_stamp::Stamps;
use tipc_types::{Answer, By, EventNote, Message};

/// How the moving goes on behind a message.
#[derive(Clone, Copy, Debug, PartialEq, Eq)]
pub(crate) enum Onward {
    /// The place is free for the next message.
    Here,
    /// The message stands by, so that the next place has its turn.
    Next,
    /// No more is moved.
    Stop,
}

/// The message that was received.
fn received(answer: Answer) -> Message
    requires { (m : Message) × (answer ≡ Received m) }
    ensures { answer ≡ Received result }
{
    match answer {
        Answer::Received(message) => message,
        _ => unreachable!(),
    }
}

/// Receives the first message that waits at a port, as a call of the node. Nothing is changed at any fault.
fn receive_first<P: Pick>(
    node: &mut Node,
    alloc: Global,
    by: By,
    port: u32,
    chooser: &mut Chooser<P>,
    out: &mut Outbox,
) -> Result<Message, NodeFault>
    requires there { has_port node.old.sockets port ≡ true }
    requires waits { 0 < length (waiting_at node.old.sockets port) }
    ensures ok { IfOk result (λ message.
        Performed node.old by (EventNote.Receive port) node.new out.old out.new (Received message)) }
    ensures chooser { chooser.new ≡ chooser.old }
    ensures err { OnErr result ((node.new ≡ node.old) × (out.new ≡ out.old)) }
{
    let call = EventNote::Receive { port };
    let answer = node.perform(alloc, by, call, chooser, out)?;
    Ok(received(answer))
}

impl<P> LockedNode<P> {
    /// Offers the message that stands by at a place once more, where one does. Answers the place's port where none
    /// stands by then.
    fn offer_standing<R: Wait>(&mut self, rt: &R, index: usize) -> Option<u32>
        requires { index < length self.old.places }
        ensures moves { (p : PassState) → Advances index 0 self.old self.new p p }
        ensures open { MatchOption result (IsClearedAt self.new index) (λ port. IsOpenAt index port self.new) }
    {
        let place = &mut self.places[index];
        place.offer_again(rt);
        if !place.is_free() {
            return None;
        }
        Some(place.port)
    }
}

impl<P: Pick> LockedNode<P> {
    /// Moves the first message that waits at the port of a place, at which none stands by.
    fn move_one<R: Wait>(
        &mut self,
        rt: &R,
        alloc: Global,
        stamps: &Stamps,
        pass: &mut Pass,
        index: usize,
        port: u32,
    ) -> Onward
        requires seat { pass.old.seat.of_table ≡ stamps.now }
        requires open { IsOpenAt index port self.old }
        requires waits { 0 < length (waiting_at self.old.node.sockets port) }
        ensures moves { Advances index 1 self.old self.new pass.old pass.new }
        ensures on { MovesOn index port self.old result self.new pass.new }
    {
        if !self.node.has_room() || pass.seat.is_spent() {
            return Onward::Stop;
        }
        let by = next_by(stamps, &mut pass.seat, self.counts.as_slice(), 0);
        let Ok(message) = receive_first(
            &mut self.node,
            alloc,
            by,
            port,
            &mut self.chooser,
            &mut self.out,
        ) else {
            pass.run_short();
            return Onward::Stop;
        };
        count_call(&mut self.counts, 0);
        let place = &mut self.places[index];
        place.offer(rt, message);
        if place.is_free() {
            return Onward::Here;
        }
        Onward::Next
    }

    /// Moves the messages that wait at the port of a place, one after the other, behind the one that stands by. Answers
    /// whether the next place has its turn.
    fn move_at<R: Wait>(
        &mut self,
        rt: &R,
        alloc: Global,
        stamps: &Stamps,
        pass: &mut Pass,
        index: usize,
    ) -> bool
        requires seat { pass.old.seat.of_table ≡ stamps.now }
        requires place { index < length self.old.places }
        ensures moves { Advances index 128 self.old self.new pass.old pass.new }
        ensures cleared { result ≡ true → IsClearedAt self.new index }
        ensures stopped { result ≡ false → MovingStops self.new pass.new }
    {
        let Some(port) = self.offer_standing(rt, index) else {
            return true
        };
        let waiting = self.node.queued(port);
        for _ in 0..waiting {
            match self.move_one(rt, alloc, stamps, pass, index, port) {
                Onward::Here => {}
                Onward::Next => return true,
                Onward::Stop => return false,
            }
        }
        true
    }

    /// Moves messages place by place, in the order in which the sockets were made, until all are moved for which the
    /// inboxes have a place, or the journal has no room, the seat is spent, or memory runs out, which is marked in the
    /// pass. It looks at each place in turn, also where nothing waits, so a call costs time for each socket of the
    /// node.
    pub(crate) fn move_all<R: Wait>(
        &mut self,
        rt: &R,
        alloc: Global,
        stamps: &Stamps,
        pass: &mut Pass,
    )
        requires seat { pass.old.seat.of_table ≡ stamps.now }
        ensures moves { MovesAll self.old self.new pass.old pass.new }
        ensures rests { HasMovedAll self.new pass.new }
    {
        for index in 0..self.places.len() {
            if !self.move_at(rt, alloc, stamps, pass, index) {
                return;
            }
        }
    }
}
