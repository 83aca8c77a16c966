//! The bodies of messages: a short one stands in its place, and the copies of a longer one share it.

ghost use Rattle.std.specs.Prelude.{◌≡◌, ◌≤◌, ◌<◌, ◌==◌, ◌^◌, length, take, IfOk};
ghost use Rattle.tipc_types.specs.Bodies.{bytes_of, IsHeld};

use crate::memory::NoMemory;
use std::alloc::{AllocError, Global};
use std::marker::Model;
use std::sync::ArcSlice;

/// How many bytes a body has at most that takes no memory of its own.
const MOST_SHORT: usize = 14;

/// Where the bytes of a body stand.
#[derive(Debug, Drop)]
pub(crate) enum HeldBytes {
    /// So many, the first of these.
    Short(u8, [u8; MOST_SHORT]),
    /// So many, the first of these, which every copy shares.
    Shared(u32, ArcSlice<u8>),
}

impl HeldBytes {
    /// These bytes, at most MOST_SHORT.
    fn short(bytes: &[u8]) -> HeldBytes
        requires { length bytes.now ≤ 14 }
        ensures value { bytes_of result ≡ bytes.now }
        ensures held { IsHeld result }
    {
        let mut held = [0; MOST_SHORT];
        held[..bytes.len()].copy_from_slice(bytes);
        HeldBytes::Short(bytes.len() as u8, held)
    }

    /// The bytes of a vector. More than 4,294,967,295 count as want of memory.
    fn shared(bytes: Vec<u8>) -> Result<HeldBytes, NoMemory>
        ensures value { IfOk result (λ held. bytes_of held ≡ bytes.items) }
        ensures held { IfOk result (λ held. IsHeld held) }
    {
        let len = bytes.len();
        if len > u32::MAX as usize {
            return Err(NoMemory);
        }
        Ok(HeldBytes::Shared(len as u32, ArcSlice::from_vec(bytes)?))
    }
}

/// The body of a message: bytes that never change but at the end, where they may be cut, so that every copy shares
/// them. Contracts see the list of them.
#[derive(Debug, Drop)]
pub struct Body {
    held: HeldBytes,
}

impl Model for Body {
    ghost use Rattle.std.specs.Prelude.{ℕ, List};
    ghost use Rattle.tipc_types.specs.Bodies.{bytes_of, IsHeld};

    ghost Value = { List ℕ };

    ghost view = { λ b. bytes_of b.held };

    ghost invariant = { λ b. IsHeld b.held };
}

impl PartialEq for Body {
    ghost use Rattle.std.specs.Prelude.{nat_eq};
    ghost use Rattle.std.specs.Cmp.{partial_equiv_from_equiv};
    ghost use Rattle.std.specs.Cmp.Lexicographic.{pointwise, nat_list_eq_equiv};

    ghost eq = { pointwise nat_eq };

    ghost laws = { partial_equiv_from_equiv nat_list_eq_equiv };

    fn eq(&self, other: &Body) -> bool {
        self.as_slice() == other.as_slice()
    }
}

impl Clone for Body {
    ghost use Rattle.std.specs.Prelude.{◌≡◌};

    ghost is_clone = { λ body copy. copy ≡ body };

    fn clone(&self) -> Result<Body, AllocError> {
        let held = match &self.held {
            HeldBytes::Short(len, bytes) => HeldBytes::Short(*len, *bytes),
            HeldBytes::Shared(len, bytes) => HeldBytes::Shared(*len, bytes.clone()?),
        };
        Ok(Body { held })
    }
}

impl Body {
    /// The bytes of a vector.
    ///
    /// # Errors
    ///
    /// Where memory runs out. More than 4,294,967,295 bytes count as that.
    pub fn from_vec(bytes: Vec<u8>) -> Result<Body, NoMemory>
        ensures { IfOk result (λ body. body ≡ bytes.items) }
    {
        if bytes.len() <= MOST_SHORT {
            let held = HeldBytes::short(bytes.as_slice());
            return Ok(Body { held });
        }
        Ok(Body {
            held: HeldBytes::shared(bytes)?,
        })
    }

    /// These bytes.
    ///
    /// # Errors
    ///
    /// Where memory runs out. More than 4,294,967,295 bytes count as that.
    pub fn from_slice(alloc: Global, bytes: &[u8]) -> Result<Body, NoMemory>
        ensures { IfOk result (λ body. body ≡ bytes.now) }
    {
        if bytes.len() <= MOST_SHORT {
            let held = HeldBytes::short(bytes);
            return Ok(Body { held });
        }
        Ok(Body {
            held: HeldBytes::shared(Vec::from_slice(alloc, bytes)?)?,
        })
    }

    /// How many bytes it has.
    pub fn len(&self) -> usize
        ensures { result ≡ length self.now }
    {
        match &self.held {
            HeldBytes::Short(len, _) => *len as usize,
            HeldBytes::Shared(len, _) => *len as usize,
        }
    }

    /// Whether it has none.
    pub fn is_empty(&self) -> bool
        ensures { result ≡ (length self.now == 0) }
    {
        self.len() == 0
    }

    /// Its bytes.
    pub fn as_slice(&self) -> &[u8]
        ensures { result.now ≡ self.now }
    {
        match &self.held {
            HeldBytes::Short(len, bytes) => &bytes[..*len as usize],
            HeldBytes::Shared(len, bytes) => &bytes.as_slice()[..*len as usize],
        }
    }

    /// Keeps the first bytes, at most so many. It takes no memory.
    pub fn truncate(&mut self, most: usize)
        ensures { self.new ≡ take most self.old }
    {
        match &mut self.held {
            HeldBytes::Short(len, _) => *len = most.min(*len as usize) as u8,
            HeldBytes::Shared(len, _) => *len = most.min(*len as usize) as u32,
        }
    }
}
