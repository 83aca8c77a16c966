//! The queue between a thread that gives messages and one that takes them, and its two ends.

ghost use Rattle.std.specs.Prelude.{◌≡◌, ◌+◌, ◌≤◌, length, IfOk, MatchOption, MatchResult};
ghost use Rattle.tipc_inbox.specs.Ends.{gave, heard_of, heard_from, new_giver, new_taker, took, IsFront};

use crate::rule::{Compare, InOrder, Log, Offer, Part, Spare, Take, Unite};
use crossbeam_queue::{Pass, RuledArrayQueue};
use std::alloc::Global;
use std::marker::Model;
use std::mem;
use std::sync::Wait;
use tipc_types::{Message, NoMemory};

/// The most messages that an inbox holds. (This project's profile.)
const MOST_HELD: usize = 128;

/// A queue of at most 128 messages. Threads share it by reference: one gives, by its `Giver`, and one takes, by its
/// `Taker`.
///
/// Contracts see which queue it is.
#[derive(Drop)]
pub struct Inbox {
    queue: RuledArrayQueue<Message, Log, InOrder>,
}

impl Model for Inbox {
    ghost use Rattle.std.specs.Prelude.{◌≡◌};
    ghost use Rattle.atomic_table.specs.Seated.{TableId};
    ghost use Rattle.crossbeam_queue.specs.Passes.{ruled_capacity};

    ghost Value = { TableId };

    ghost view = { λ i. i.queue.table.shared.table_id };

    ghost invariant = { λ i. ruled_capacity i.queue ≡ 128 };
}

/// The end of an inbox that gives. There is one for each inbox.
///
/// Contracts see the queue that it is of, the messages that it offered and that weren't given back, in order, and how
/// many were taken as far as it heard.
#[derive(Drop)]
pub struct Giver {
    pass: Pass<Message, Log>,
}

impl Model for Giver {
    ghost use Rattle.std.specs.Prelude.{◌≡◌, true, false, []};
    ghost use Rattle.tipc_inbox.specs.Ends.{GiverState};
    ghost use Rattle.tipc_inbox.specs.Turns.{log};

    ghost Value = { GiverState };

    ghost view = { λ g.
        record { of_inbox = g.pass.table_id; offered = g.pass.me.0.client.offered; takings = g.pass.me.0.client.takings } };

    ghost invariant = { λ g. (g.pass.me.1 ≡ [])
        × (g.pass.me.0.client ≡ log true false g.pass.me.0.client.offered [] g.pass.me.0.client.takings 0) };
}

/// The end of an inbox that takes. There is one for each inbox.
///
/// Contracts see the queue that it is of, the messages that it took, in order, and how many were offered as far as it
/// heard.
#[derive(Drop)]
pub struct Taker {
    pass: Pass<Message, Log>,
}

impl Model for Taker {
    ghost use Rattle.std.specs.Prelude.{◌≡◌, true, false, []};
    ghost use Rattle.tipc_inbox.specs.Ends.{TakerState};
    ghost use Rattle.tipc_inbox.specs.Turns.{log};

    ghost Value = { TakerState };

    ghost view = { λ t.
        record { of_inbox = t.pass.table_id; taken = t.pass.me.0.client.taken; offers = t.pass.me.0.client.offers } };

    ghost invariant = { λ t. (t.pass.me.1 ≡ [])
        × (t.pass.me.0.client ≡ log false true [] t.pass.me.0.client.taken 0 t.pass.me.0.client.offers) };
}

impl Inbox {
    /// An inbox that holds nothing, with its two ends.
    ///
    /// # Errors
    ///
    /// Where memory runs out.
    pub fn new(alloc: Global) -> Result<(Inbox, Giver, Taker), NoMemory>
        ensures { IfOk result (λ r. (r.1 ≡ new_giver r.0) × (r.2 ≡ new_taker r.0)) }
    {
        let (queue, mut pass) = RuledArrayQueue::ruled(alloc, MOST_HELD)?;
        let other = queue.another::<Part>(&mut pass);
        Ok((Inbox { queue }, Giver { pass }, Taker { pass: other }))
    }

    /// Offers a message: it comes behind those that were offered before. It takes no memory. It may wait for the thread
    /// that takes, while that is in the middle of a call.
    ///
    /// # Errors
    ///
    /// The message comes back only where the giver offered at least 128 more than it heard that were taken.
    pub fn offer<R: Wait>(&self, rt: &R, giver: &mut Giver, message: Message) -> Result<(), Message>
        requires { giver.old.of_inbox ≡ self.now }
        ensures { MatchResult result (λ _. giver.new ≡ gave giver.old message) (λ back. (back ≡ message)
            × (giver.new ≡ giver.old) × (giver.old.takings + 128 ≤ length giver.old.offered)) }
    {
        self.queue.push_as::<Offer, R>(rt, &mut giver.pass, message)
    }

    /// Takes the first message that is held. It takes no memory. It may wait for the thread that gives, while that is
    /// in the middle of a call.
    ///
    /// None comes only where the taker took at least as many as it heard that were offered.
    pub fn take<R: Wait>(&self, rt: &R, taker: &mut Taker) -> Option<Message>
        requires { taker.old.of_inbox ≡ self.now }
        ensures { MatchOption result ((taker.new ≡ taker.old) × (taker.old.offers ≤ length taker.old.taken))
            (λ message. taker.new ≡ took taker.old message) }
    {
        self.queue.pop_as::<Take, R>(rt, &mut taker.pass)
    }

    /// Compares the two ends: what was taken is a front of what was offered, and at most 128 messages are held. Each
    /// end hears how much the other did.
    pub fn compare(&self, giver: &mut Giver, taker: &mut Taker)
        requires giver { giver.old.of_inbox ≡ self.now }
        requires taker { taker.old.of_inbox ≡ self.now }
        ensures front { IsFront taker.old.taken giver.old.offered }
        ensures giver { giver.new ≡ heard_of giver.old (length taker.old.taken) }
        ensures taker { taker.new ≡ heard_from taker.old (length giver.old.offered) }
    {
        let spare = self.queue.another::<Spare>(&mut giver.pass);
        let other = mem::replace(&mut taker.pass, spare);
        self.queue.absorb::<Unite>(&mut giver.pass, other);
        self.queue.learn_as::<Compare>(&mut giver.pass);
        taker.pass = self.queue.another::<Part>(&mut giver.pass);
    }
}
