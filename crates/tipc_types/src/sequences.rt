//! Lists of values, whose growth may find no memory.

ghost use Rattle.std.specs.Prelude.{◌≡◌, ◌==◌, ◌++◌, ◌∷◌, [], length, IfOk, OnErr, OnOk};

use crate::few::Few;
use crate::memory::NoMemory;
use std::alloc::{AllocError, Global};
use std::marker::Model;

/// A list of values, which contracts see as that list and nothing else: its capacity is not part of it.
#[derive(Debug, Drop)]
pub struct Sequence<T> {
    stored: Vec<T>,
}

/// Bytes: a packet, a frame, a message's body.
pub type Bytes = Sequence<u8>;

/// The packets that one message is cut into, in order.
pub type Pieces = Few<Bytes>;

/// The packets inside a bundle, in order.
pub type Inner = Sequence<Bytes>;

impl<T> Model for Sequence<T> {
    ghost use Rattle.std.specs.Prelude.{List};

    ghost Value = { List T };

    ghost view = { λ s. s.stored.items };
}

impl<T: PartialEq> PartialEq for Sequence<T> {
    ghost use Rattle.std.specs.Cmp.Lexicographic.{pointwise, lists_per};

    ghost eq = { λ x y. pointwise T.eq x y };

    ghost laws = { lists_per T.laws };

    fn eq(&self, other: &Sequence<T>) -> bool {
        self.stored.as_slice() == other.stored.as_slice()
    }
}

impl<T: Clone> Clone for Sequence<T> {
    ghost use Rattle.std.specs.Prelude.{◌≡◌};

    ghost is_clone = { λ x y. ((a b : T) → T.is_clone a b → b ≡ a) → y ≡ x };

    fn clone(&self) -> Result<Sequence<T>, AllocError> {
        Ok(Sequence {
            stored: self.stored.clone()?,
        })
    }
}

impl<T> Sequence<T> {
    /// The empty list.
    pub fn new(alloc: Global) -> Sequence<T>
        ensures { result ≡ [] }
    {
        Sequence {
            stored: Vec::new(alloc),
        }
    }

    /// The list of a vector's elements.
    pub fn from_vec(stored: Vec<T>) -> Sequence<T>
        ensures { result ≡ stored.items }
    {
        Sequence { stored }
    }

    /// The vector of its elements.
    pub fn into_vec(self) -> Vec<T>
        ensures { result.items ≡ self }
    {
        self.stored
    }

    /// How many elements it has.
    pub fn len(&self) -> usize
        ensures { result ≡ length self.now }
    {
        self.stored.len()
    }

    /// Whether it has none.
    pub fn is_empty(&self) -> bool
        ensures { result ≡ (length self.now == 0) }
    {
        self.stored.is_empty()
    }

    /// Its elements.
    pub fn as_slice(&self) -> &[T]
        ensures { result.now ≡ self.now }
    {
        self.stored.as_slice()
    }
}

impl<T: Drop> Sequence<T> {
    /// Adds an element at the end.
    ///
    /// # Errors
    ///
    /// Where memory runs out. The list is unchanged then.
    pub fn push(&mut self, item: T) -> Result<(), NoMemory>
        ensures ok { OnOk result (self.new ≡ self.old ++ item ∷ []) }
        ensures err { OnErr result (self.new ≡ self.old) }
    {
        self.stored.push(item)?;
        Ok(())
    }
}

impl<T: Copy> Sequence<T> {
    /// A list of the same elements.
    ///
    /// # Errors
    ///
    /// Where memory runs out.
    pub fn from_slice(alloc: Global, items: &[T]) -> Result<Sequence<T>, NoMemory>
        ensures { IfOk result (λ copy. copy ≡ items.now) }
    {
        Ok(Sequence {
            stored: Vec::from_slice(alloc, items)?,
        })
    }
}
