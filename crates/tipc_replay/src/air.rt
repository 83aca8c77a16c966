//! The air: frames that were sent, and frames that arrived.

ghost use Rattle.std.specs.Prelude.{◌≡◌, ◌<◌, ◌≤◌, ◌^◌, [], ◌∷◌, Some, None, length, nat_lt, slice_get, IfOk, IfSome, IfNone, OnErr, OnOk};
ghost use Rattle.tipc_replay.specs.Skies.{air_on, air_size, empty_air, with_sent};

use std::alloc::Global;
use std::marker::Model;
use std::mem::size_of_val;
use tipc_types::{Addr, Bytes, NoMemory, To};

/// A frame that was sent on a bearer. It stays in that bearer's air for ever: it may arrive again, late, or never.
#[derive(Clone, Debug, Drop, PartialEq)]
pub struct Sent {
    /// The node that sent it.
    pub from: Addr,
    /// Whom it is for.
    pub to: To,
    /// Its bytes.
    pub frame: Bytes,
    /// The contact in which its sender was with the receiver before the event that sent it: its own number, and the
    /// receiver's. Where it was in none, the contact numbers that it had after the event: its own, and the highest that
    /// the receiver had shown.
    pub contact: (u64, u64),
    /// How many packets its sender had numbered after the event, on this bearer, under the first epoch of the envelope.
    pub numbered: u64,
    /// How many packets the receiver had numbered by then, on this bearer, under the second epoch.
    pub peer_numbered: u64,
    /// How many numbers the sender's broadcast link had used after the event, in its boot of then.
    pub casts: u64,
    /// The receiver's boot by then; 1 where the frame is for all.
    pub peer_boot: u32,
    /// How many numbers the receiver's broadcast link had used by then, in that boot; 0 where the frame is for all.
    pub peer_casts: u64,
}

/// A frame that arrived at a node.
#[derive(Clone, Copy, Debug, PartialEq, Eq)]
pub struct Arrived {
    /// The bearer on which it came, 0 or 1.
    pub bearer: u8,
    /// Its place in the air of that bearer, from 0.
    pub frame: u64,
}

/// How many frames there are. Together they take fewer bytes than 64 bits count, so they are fewer than 2^58.
fn count(sent: &[Sent]) -> u64
    ensures len { result ≡ length sent.now }
    ensures few { result < 2 ^ 58 }
{
    let _bytes = size_of_val(sent);
    sent.len() as u64
}

/// Every frame that was ever sent, on each of the two bearers.
#[derive(Drop)]
pub struct Air {
    first: Vec<Sent>,
    second: Vec<Sent>,
}

impl Model for Air {
    ghost use Rattle.tipc_replay.specs.Skies.{AirState};

    ghost Value = { AirState };

    ghost view = { λ a. record { first = a.first.items; second = a.second.items } };
}

impl Air {
    /// An air without a frame.
    pub fn new(alloc: Global) -> Air
        ensures { result ≡ empty_air }
    {
        Air {
            first: Vec::new(alloc),
            second: Vec::new(alloc),
        }
    }

    /// The frame of that place in the air of a bearer, from 0 on: None exactly where there is no such frame.
    pub fn frame(&self, bearer: u8, place: u64) -> Option<&Sent>
        ensures some { IfSome result (λ f. slice_get (air_on bearer self.now) place ≡ Some f.now) }
        ensures none { IfNone result (slice_get (air_on bearer self.now) place ≡ None) }
    {
        match bearer {
            0 => self.first.get(place as usize),
            1 => self.second.get(place as usize),
            _ => None,
        }
    }

    /// Every frame that was ever sent on a bearer, in order.
    pub fn sent(&self, bearer: u8) -> &[Sent]
        ensures { result.now ≡ air_on bearer self.now }
    {
        match bearer {
            0 => &self.first,
            1 => &self.second,
            _ => &[],
        }
    }

    /// How many frames were ever sent on a bearer.
    pub fn len(&self, bearer: u8) -> u64
        ensures len { result ≡ length (air_on bearer self.now) }
        ensures few { result < 2 ^ 58 }
    {
        count(self.sent(bearer))
    }

    /// Whether more frames than so many were ever sent, on both bearers together.
    pub fn is_over(&self, most: usize) -> bool
        ensures { result ≡ nat_lt most (air_size self.now) }
    {
        let first = self.first.len();
        first > most || self.second.len() > most - first
    }

    /// Keeps a frame that was sent on a bearer, 0 or 1.
    ///
    /// # Errors
    ///
    /// NoMemory, and then nothing is changed.
    pub fn push(&mut self, bearer: u8, sent: Sent) -> Result<(), NoMemory>
        requires { bearer ≤ 1 }
        ensures sent { OnOk result (self.new ≡ with_sent self.old bearer (sent ∷ [])) }
        ensures err { OnErr result (self.new ≡ self.old) }
    {
        match bearer {
            0 => self.first.push(sent)?,
            _ => self.second.push(sent)?,
        }
        Ok(())
    }
}
