//! A medium in memory, over which the nodes of one program hear each other.

ghost use Rattle.std.specs.Prelude.{◌≡◌, ◌+◌, ◌-◌, ◌^◌, ◌<◌, ◌≤◌, ◌++◌, ◌∷◌, ℕ, Ok, [], vec_len, option_to_list, All, IfOk, OnOk, OnErr};
ghost use Rattle.tipc_outside.specs.Carried.{Reaches, waiting_for, with_frame};

use crate::transport::{Heard, is_for};
use std::alloc::Global;
use std::collections::VecDeque;
use std::marker::Model;
use std::sync::{Mutex, Wait};
use tipc_types::{Body, NoMemory, To};

/// How many nodes a cluster has at most (this project's profile).
const MOST_NODES: u8 = 32;

/// How many frames wait for a node at most; what comes behind them is lost.
const MOST_WAITING: usize = 4_096;

/// The frames that wait for one node on one bearer, in order.
#[derive(Drop)]
struct Queue {
    frames: VecDeque<Body>,
}

impl Model for Queue {
    ghost use Rattle.std.specs.Prelude.{ℕ, List};

    ghost Value = { List (List ℕ) };

    ghost view = { λ q. q.frames.items };
}

impl Queue {
    /// A queue in which nothing waits.
    fn new(alloc: Global) -> Queue
        ensures { result ≡ [] }
    {
        Queue {
            frames: VecDeque::new(alloc),
        }
    }

    /// Puts a frame last, unless the queue is full.
    fn add(&mut self, frame: &Body) -> Result<(), NoMemory>
        ensures ok { OnOk result (self.new ≡ with_frame self.old frame.now) }
        ensures err { OnErr result (self.new ≡ self.old) }
    {
        if self.frames.len() >= MOST_WAITING {
            return Ok(());
        }
        self.frames.push_back(frame.clone()?)?;
        Ok(())
    }

    /// Puts the first frame into `into`, in place of what stands there, and takes it away.
    fn take(&mut self, alloc: Global, into: &mut Vec<u8>) -> Result<Heard, NoMemory>
        ensures frame { result ≡ Ok Heard.Frame → self.old ≡ into.new.items ∷ self.new }
        ensures nothing { result ≡ Ok Heard.Nothing → self.old ≡ [] }
        ensures unchanged { (result ≡ Ok Heard.Frame → ⊥) → (self.new ≡ self.old) × (into.new.items ≡ into.old.items) }
    {
        let Some(frame) = self.frames.front() else {
            return Ok(Heard::Nothing);
        };
        *into = Vec::from_slice(alloc, frame.as_slice())?;
        self.frames.pop_front();
        Ok(Heard::Frame)
    }
}

/// The frames that wait for each node on one bearer, in order of the nodes.
#[derive(Drop)]
struct Queues {
    queues: Vec<Queue>,
}

impl Model for Queues {
    ghost use Rattle.std.specs.Prelude.{◌≡◌, ℕ, List, vec_len};

    ghost Value = { List (List (List ℕ)) };

    ghost view = { λ q. q.queues.items };

    ghost invariant = { λ q. vec_len q.queues ≡ 32 };
}

impl Queues {
    /// Queues in which nothing waits.
    fn new(alloc: Global) -> Result<Queues, NoMemory>
        ensures { IfOk result (λ queues. All (λ frames. frames ≡ []) queues) }
    {
        let mut queues = Vec::with_capacity(alloc, usize::from(MOST_NODES))?;
        for _ in 0..MOST_NODES {
            queues.push(Queue::new(alloc))?;
        }
        Ok(Queues { queues })
    }

    /// Lets a frame come to each node that it is for. Where memory runs out it came only to the first of them.
    fn send(&mut self, from: u8, to: To, frame: &Body) -> Result<(), NoMemory>
        ensures ok { OnOk result (Reaches from to frame.now 32 self.old self.new) }
        ensures err { OnErr result ((count : ℕ) × Reaches from to frame.now count self.old self.new) }
    {
        for index in 0..MOST_NODES {
            if is_for(from, to, index + 1) {
                self.queues[usize::from(index)].add(frame)?;
            }
        }
        Ok(())
    }

    /// Puts the first frame that waits for a node into `into`, in place of what stands there, and takes it away.
    fn receive(&mut self, alloc: Global, node: u8, into: &mut Vec<u8>) -> Result<Heard, NoMemory>
        requires node { (1 ≤ node) × (node ≤ 32) }
        ensures frame { result ≡ Ok Heard.Frame
            → waiting_for node self.old ≡ into.new.items ∷ waiting_for node self.new }
        ensures nothing { result ≡ Ok Heard.Nothing → waiting_for node self.old ≡ [] }
        ensures others { (other : ℕ) → 1 ≤ other → (other ≡ node → ⊥) →
            waiting_for other self.new ≡ waiting_for other self.old }
        ensures unchanged { (result ≡ Ok Heard.Frame → ⊥) → (self.new ≡ self.old) × (into.new.items ≡ into.old.items) }
    {
        self.queues[usize::from(node - 1)].take(alloc, into)
    }
}

/// A medium that the bearers of up to 32 nodes share, two for each node. It keeps the frames that wait for each of
/// them, each bearer's under a lock of its own. A node that doesn't hear loses what comes while 4,096 frames wait for
/// it.
#[derive(Drop)]
pub struct Medium {
    first: Mutex<Queues>,
    second: Mutex<Queues>,
}

impl Medium {
    /// A medium that carries nothing.
    ///
    /// # Errors
    ///
    /// Where memory runs out.
    pub fn new(alloc: Global) -> Result<Medium, NoMemory> {
        Ok(Medium {
            first: Mutex::new(Queues::new(alloc)?),
            second: Mutex::new(Queues::new(alloc)?),
        })
    }

    /// Lets a frame from a node come to those that it is for on a bearer.
    pub(crate) fn send<R: Wait>(
        &self,
        rt: &R,
        bearer: u8,
        from: u8,
        to: To,
        frame: &Body,
    ) -> Result<(), NoMemory> {
        self.of_bearer(bearer).lock(rt).send(from, to, frame)
    }

    /// Takes the first frame that waits for a node on a bearer.
    pub(crate) fn receive<R: Wait>(
        &self,
        rt: &R,
        alloc: Global,
        bearer: u8,
        node: u8,
        into: &mut Vec<u8>,
    ) -> Result<Heard, NoMemory>
        requires node { (1 ≤ node) × (node ≤ 32) }
        ensures unchanged { (result ≡ Ok Heard.Frame → ⊥) → into.new.items ≡ into.old.items }
    {
        self.of_bearer(bearer).lock(rt).receive(alloc, node, into)
    }

    /// What waits on bearer 0 or on the other one.
    fn of_bearer(&self, bearer: u8) -> &Mutex<Queues> {
        if bearer == 0 {
            &self.first
        } else {
            &self.second
        }
    }
}
