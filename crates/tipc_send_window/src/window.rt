//! The send window: packets that aren't acknowledged, and packets that wait for room.

ghost use Rattle.std.specs.Prelude.{◌≡◌, ℕ, ◌+◌, ◌-◌, ◌<◌, ◌≤◌, ◌⊎◌, [], length, slice_get, IfNone, IfOk, IfSome, OnErr, OnOk};
ghost use Rattle.tipc_types.specs.Position.{number_of};

use std::alloc::{AllocError, Global};
use std::collections::VecDeque;
use std::marker::Model;
use std::mem;
use tipc_types::{Bytes, Kept, KeptList, NoMemory, Pieces, number_distance, sequence_number};

/// How many packets may be unacknowledged at a time. (TIPC 2.0 draft, default window.)
pub const WINDOW: usize = 50;

/// Room for a full window behind as many acknowledged packets.
const ROOM: usize = 2 * WINDOW;

/// No packet gets a higher position: memory ends long before.
const LAST_POSITION: u64 = 1 << 62;

/// Why packets weren't offered. Nothing is changed then.
#[derive(Clone, Copy, Debug, PartialEq, Eq)]
pub enum OfferFault {
    /// At least as many packets wait as the limit allows.
    Congested {
        /// How many packets are unacknowledged.
        in_flight: u32,
        /// How many packets wait.
        waiting: u32,
    },
    /// Memory ran out.
    NoMemory,
}

impl From<AllocError> for OfferFault {
    ghost use Rattle.tipc_send_window.specs.declared.window.OfferFault.TheVariants.{NoMemory};

    ghost from_gives = { λ _ e. e ≡ NoMemory };

    fn from(_error: AllocError) -> OfferFault {
        OfferFault::NoMemory
    }
}

impl From<NoMemory> for OfferFault {
    ghost use Rattle.tipc_send_window.specs.declared.window.OfferFault.TheVariants as fault;

    ghost from_gives = { λ _ e. e ≡ fault.NoMemory };

    fn from(_error: NoMemory) -> OfferFault {
        OfferFault::NoMemory
    }
}

/// The packets of one direction of a link, from their offer to their acknowledgement.
///
/// Packets are taken in the order in which they were offered. One is numbered when it enters the window; those
/// behind it wait without numbers. The first has number 1, and numbers go round after 65,535. (TIPC 2.0 draft;
/// numbering on entry to the window is this project's profile.)
#[derive(Drop)]
pub struct SendWindow {
    numbered: u64,
    /// The last packets that were numbered. The first `released` of them are acknowledged: they are cleared once
    /// that moves no more packets than it clears.
    stored: Vec<Kept>,
    released: usize,
    waiting: VecDeque<Bytes>,
}

impl Model for SendWindow {
    ghost use Rattle.std.specs.Prelude.{drop, vec_capacity, vec_len};
    ghost use Rattle.std.specs.VecDeque.{deque_len};
    ghost use Rattle.tipc_send_window.specs.Sending.{IsStored, packets_of, Sending};

    ghost Value = { Sending };

    ghost view = { λ w. record {
      numbered = w.numbered;
      unacked = packets_of (drop w.released w.stored.items);
      waiting = w.waiting.items;
    } };

    ghost invariant = { λ w.
        IsStored w.numbered w.released (vec_len w.stored) (vec_capacity w.stored) (deque_len w.waiting)
        w.stored.items };
}

impl SendWindow {
    ghost use Rattle.tipc_types.specs.Limits.{window_size};
    ghost use Rattle.tipc_send_window.specs.Sending.{acknowledged, emptied, fresh, IsSending, kept_of, moved, offered, passed_over, released, swapped, without_waiting};

    /// A window in which nothing was numbered, so that the first packet will have number 1.
    pub fn new(alloc: Global) -> SendWindow
        ensures { result ≡ fresh }
    {
        SendWindow {
            numbered: 0,
            stored: Vec::new(alloc),
            released: 0,
            waiting: VecDeque::new(alloc),
        }
    }

    /// A window that holds the same.
    pub fn copy(&self) -> Result<SendWindow, NoMemory>
        ensures { IfOk result (λ window. window ≡ self.now) }
    {
        let mut stored = Vec::with_capacity(*self.stored.allocator(), ROOM)?;
        stored.extend_with_clones(self.unacked())?;
        Ok(SendWindow {
            numbered: self.numbered,
            stored,
            released: 0,
            waiting: self.waiting.clone()?,
        })
    }

    /// How many packets were numbered, which is the position of the last of them.
    pub fn numbered(&self) -> u64
        ensures value { result ≡ self.now.numbered }
        ensures window { IsSending self.now }
    {
        self.numbered
    }

    /// The unacknowledged packets in order, beside their numbers.
    pub fn unacked(&self) -> &[Kept]
        ensures kept { result.now ≡ kept_of self.now }
        ensures within { length result.now ≤ window_size }
        ensures count { length result.now ≡ length self.now.unacked }
    {
        &self.stored[self.released..]
    }

    /// How many packets wait.
    pub fn waiting(&self) -> u32
        ensures { result ≡ length self.now.waiting }
    {
        self.waiting.len() as u32
    }

    /// The packets that wait, in order.
    pub fn waiting_packets(&self) -> &VecDeque<Bytes>
        ensures { result.now.items ≡ self.now.waiting }
    {
        &self.waiting
    }

    /// The first packet that waits: None exactly where none does.
    pub fn first(&self) -> Option<&[u8]>
        ensures some { IfSome result (λ packet. slice_get self.now.waiting 0 ≡ Some packet.now) }
        ensures none { IfNone result (self.now.waiting ≡ []) }
    {
        match self.waiting.front() {
            Some(first) => Some(first.as_slice()),
            None => None,
        }
    }

    /// The last packet that waits: None exactly where none does.
    pub fn last(&self) -> Option<&[u8]>
        ensures some { IfSome result (λ packet. slice_get self.now.waiting (length self.now.waiting - 1) ≡
            Some packet.now) }
        ensures none { IfNone result (self.now.waiting ≡ []) }
    {
        match self.waiting.back() {
            Some(last) => Some(last.as_slice()),
            None => None,
        }
    }

    /// How many packets are unacknowledged.
    pub fn in_flight(&self) -> usize
        ensures { result ≡ length self.now.unacked }
    {
        self.stored.len() - self.released
    }

    /// Puts packets behind all others, to wait, unless too many wait already: as [`SendWindow::put`]. The offer may
    /// pass the limit. (Limits: this project's profile.)
    ///
    /// # Errors
    ///
    /// Congested exactly where at least `limit` packets wait, with the counts of the packets unacknowledged and
    /// waiting; else NoMemory. Either changes nothing.
    pub fn offer(&mut self, pieces: Pieces, limit: u32) -> Result<(), OfferFault>
        ensures ok { OnOk result ((length self.old.waiting < limit) × (self.new ≡ offered self.old pieces)) }
        ensures congested { limit ≤ length self.old.waiting →
            result ≡ Err (OfferFault.Congested (length self.old.unacked) (length self.old.waiting)) }
        ensures congested_only { (in_flight waiting : ℕ) → result ≡ Err (OfferFault.Congested in_flight waiting) →
            (limit ≤ length self.old.waiting) × (in_flight ≡ length self.old.unacked) ×
            (waiting ≡ length self.old.waiting) }
        ensures err { OnErr result (self.new ≡ self.old) }
        ensures window { IsSending self.new }
    {
        let waiting = self.waiting();
        if waiting >= limit {
            let in_flight = (self.stored.len() - self.released) as u32;
            return Err(OfferFault::Congested { in_flight, waiting });
        }
        self.put(pieces)?;
        Ok(())
    }

    /// Puts packets behind all others, to wait. It makes the room that `due` needs.
    ///
    /// # Errors
    ///
    /// Where memory runs out. More than 4,294,967,295 waiting packets, and positions past 2^62, count as that. Nothing
    /// is changed then.
    pub fn put(&mut self, pieces: Pieces) -> Result<(), NoMemory>
        ensures ok { OnOk result (self.new ≡ offered self.old pieces) }
        ensures err { OnErr result (self.new ≡ self.old) }
        ensures window { IsSending self.new }
    {
        let waiting = self.waiting();
        let more = pieces.len();
        if more as u64 > LAST_POSITION - self.numbered - waiting as u64
            || more > (u32::MAX - waiting) as usize
        {
            return Err(NoMemory);
        }
        self.stored.reserve(ROOM - self.stored.len())?;
        pieces.move_to(&mut self.waiting)?;
        Ok(())
    }

    /// Numbers the first packet that waits, and gives its number: None exactly where the window is full or
    /// nothing waits.
    pub fn due(&mut self) -> Option<u16>
        ensures some { IfSome result (λ number.
            (number ≡ number_of (self.old.numbered + 1)) × (self.new ≡ moved self.old)
            × (0 < length self.old.waiting) × (length self.old.unacked < window_size)) }
        ensures none { IfNone result ((self.new ≡ self.old) ×
            ((self.old.waiting ≡ []) ⊎ (length self.old.unacked ≡ window_size))) }
        ensures window { IsSending self.new }
    {
        if self.in_flight() >= WINDOW {
            return None;
        }
        let packet = self.waiting.pop_front()?;
        self.numbered += 1;
        let number = sequence_number(self.numbered);
        self.stored.push_reserved(Kept { number, packet });
        Some(number)
    }

    /// Releases every packet up to the one with this number. A number that no unacknowledged packet has changes
    /// nothing. (TIPC 2.0 draft.)
    #[tactic(auto, unfolding(crate::specs::Sending::release_count))]
    pub fn acknowledge(&mut self, number: u16)
        ensures after { self.new ≡ acknowledged self.old number }
        ensures window { IsSending self.new }
    {
        let in_flight = self.in_flight();
        let acked = sequence_number(self.numbered - in_flight as u64);
        let past = number_distance(acked, number) as usize;
        if past <= in_flight {
            self.release(past);
        }
    }

    /// Releases the first `count` of the unacknowledged packets.
    fn release(&mut self, count: usize)
        requires { count ≤ length self.old.unacked }
        ensures { self.new ≡ released self.old count }
    {
        let released = self.released + count;
        if released < self.stored.len() - released {
            self.released = released;
        } else {
            self.stored.drain(..released);
            self.released = 0;
        }
    }

    /// Puts a packet in the place of the last that waits, and gives that one.
    pub fn swap_last(&mut self, packet: Bytes) -> Bytes
        requires { 0 < length self.old.waiting }
        ensures given { slice_get self.old.waiting (length self.old.waiting - 1) ≡ Some result }
        ensures after { self.new ≡ swapped self.old packet }
        ensures window { IsSending self.new }
    {
        match self.waiting.pop_back() {
            Some(last) => {
                self.waiting.push_back_reserved(packet);
                last
            }
            None => unreachable!(),
        }
    }

    /// Gives the packets that wait, in order, and then none waits.
    pub fn take_waiting(&mut self) -> Pieces
        ensures given { result ≡ self.old.waiting }
        ensures after { self.new ≡ without_waiting self.old }
        ensures window { IsSending self.new }
    {
        let empty = VecDeque::new(*self.waiting.allocator());
        Pieces::from_vec(mem::replace(&mut self.waiting, empty).into_vec())
    }

    /// Gives every packet: the unacknowledged ones in order, beside their numbers, and those that wait. Those were
    /// never numbered. It takes no memory.
    pub fn hand_over(&mut self) -> (KeptList, Pieces)
        ensures unacked { result.0 ≡ kept_of self.old }
        ensures waiting { result.1 ≡ self.old.waiting }
        ensures after { self.new ≡ emptied self.old }
        ensures window { IsSending self.new }
    {
        let waiting = self.take_waiting();
        (self.take_unacked(), waiting)
    }

    /// Gives the unacknowledged packets in order, beside their numbers, where none waits.
    fn take_unacked(&mut self) -> KeptList
        requires { self.old.waiting ≡ [] }
        ensures given { result ≡ kept_of self.old }
        ensures after { self.new ≡ emptied self.old }
    {
        self.stored.drain(..self.released);
        self.released = 0;
        let empty = Vec::new(*self.stored.allocator());
        KeptList::from_vec(mem::replace(&mut self.stored, empty))
    }

    /// Gives up every packet, unacknowledged or waiting. The numbers that the waiting packets would have had are
    /// passed over, and count as numbered. (This project's profile, for a broadcast that nobody is left to hear.)
    pub fn pass_over(&mut self)
        ensures after { self.new ≡ passed_over self.old }
        ensures window { IsSending self.new }
    {
        self.numbered += self.waiting.len() as u64;
        self.waiting.clear();
        self.stored.clear();
        self.released = 0;
    }
}
