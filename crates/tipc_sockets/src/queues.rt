//! The queue of a socket: the messages that wait for its owner.

ghost use Rattle.std.specs.Prelude.{◌≡◌, true, nat_eq, All, ◌<◌, ◌≤◌, ◌+◌, ◌++◌, ◌∷◌, [], length, drop, slice_get, nat_le, nat_lt, replicate, IfOk, OnErr, OnOk};
ghost use Rattle.std.specs.List.{AllPairs};
ghost use Rattle.std.specs.Map.{lookup};
ghost use Rattle.tipc_types.specs.declared.message_forms.Message.{Message};
ghost use Rattle.tipc_sockets.specs.Fates.{may_wait};
ghost use Rattle.tipc_sockets.specs.SocketTables.{queued, queued_at_each};

use indexmap::IndexMap;
use std::alloc::{AllocError, Global};
use std::collections::VecDeque;
use std::marker::Model;
use tipc_types::{Message, NoMemory};

/// The most messages that wait at a socket. (This project's profile.)
pub const MOST_MESSAGES: usize = 128;

/// The messages that wait at a socket, at most 128, in order. Their places are made with it.
#[derive(Drop)]
pub(crate) struct Queue {
    waiting: VecDeque<Message>,
}

impl Model for Queue {
    ghost use Rattle.std.specs.Prelude.{◌≤◌, List, length};
    ghost use Rattle.std.specs.VecDeque.{deque_capacity};
    ghost use Rattle.tipc_types.specs.declared.message_forms.Message.{Message};

    ghost Value = { List Message };

    ghost view = { λ q. q.waiting.items };

    ghost invariant = { λ q. (128 ≤ deque_capacity q.waiting) × (length q.waiting.items ≤ 128) };
}

impl Clone for Queue {
    ghost use Rattle.std.specs.Prelude.{◌≡◌};

    ghost is_clone = { λ x y. y ≡ x };

    fn clone(&self) -> Result<Queue, AllocError> {
        let mut waiting = self.waiting.clone()?;
        waiting.reserve(MOST_MESSAGES - waiting.len())?;
        Ok(Queue { waiting })
    }
}

impl Queue {
    /// A queue in which nothing waits, with places for 128 messages.
    pub(crate) fn new(alloc: Global) -> Result<Queue, NoMemory>
        ensures { IfOk result (λ queue. queue ≡ []) }
    {
        Ok(Queue {
            waiting: VecDeque::with_capacity(alloc, MOST_MESSAGES)?,
        })
    }

    /// How many messages wait.
    pub(crate) fn len(&self) -> u32
        ensures count { result ≡ length self.now }
        ensures most { result ≤ 128 }
    {
        self.waiting.len() as u32
    }

    /// Whether fewer than 128 messages wait.
    pub(crate) fn has_room(&self) -> bool
        ensures { result ≡ nat_lt (length self.now) 128 }
    {
        self.waiting.len() < MOST_MESSAGES
    }

    /// Whether so many messages more have places here.
    pub(crate) fn has_places(&self, count: u32) -> bool
        ensures { result ≡ nat_le (length self.now + count) 128 }
    {
        let free = MOST_MESSAGES - self.waiting.len();
        count as usize <= free
    }

    /// Puts a message last. It takes no memory.
    pub(crate) fn put(&mut self, message: Message)
        requires { length self.old < 128 }
        ensures { self.new ≡ self.old ++ message ∷ [] }
    {
        self.waiting.push_back_reserved(message);
    }

    /// Takes the first message: None exactly where none waits.
    pub(crate) fn take(&mut self) -> Option<Message>
        ensures first { result ≡ slice_get self.old 0 }
        ensures rest { self.new ≡ drop 1 self.old }
    {
        self.waiting.pop_front()
    }
}

/// The queues of a node's ports.
pub(crate) type Queues = IndexMap<u32, Queue>;

/// Whether one more message may wait at a port: it is there, and fewer than 128 wait.
pub(crate) fn may_wait(queues: &Queues, port: u32) -> bool
    ensures { result ≡ may_wait (lookup (nat_eq port) queues.now.entries) }
{
    match queues.get(&port) {
        Some(queue) => queue.has_room(),
        None => false,
    }
}

/// Puts a message last at a port that has room. It takes no memory.
pub(crate) fn put(queues: &mut Queues, port: u32, message: Message)
    requires { may_wait (lookup (nat_eq port) queues.old.entries) ≡ true }
    ensures { queues.new.entries ≡ queued message queues.old.entries port }
{
    if let Some(queue) = queues.get_mut(&port) {
        queue.put(message);
    }
}

/// So many copies of a message.
pub(crate) fn copies(
    alloc: Global,
    message: &Message,
    count: usize,
) -> Result<Vec<Message>, NoMemory>
    ensures { IfOk result (λ made. made.items ≡ replicate count message.now) }
{
    let mut made = Vec::with_capacity(alloc, count)?;
    for _ in 0..count {
        made.push(message.clone()?)?;
    }
    Ok(made)
}

/// Puts a copy of a message last at each of these ports, which rise and have room. It takes no memory.
pub(crate) fn put_each(queues: &mut Queues, ports: &[u32], copies: Vec<Message>)
    requires rising { AllPairs (λ port later. port < later) ports.now }
    requires room { All (λ port. may_wait (lookup (nat_eq port) queues.old.entries) ≡ true) ports.now }
    requires count { length copies.items ≡ length ports.now }
    ensures { (m : Message) → copies.items ≡ replicate (length ports.now) m →
        queues.new.entries ≡ queued_at_each m queues.old.entries ports.now }
{
    let mut left = copies;
    for port in ports {
        match left.pop() {
            Some(copy) => put(queues, *port, copy),
            None => unreachable!(),
        }
    }
}
