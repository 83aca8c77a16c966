//! Lists that mostly have one value, which takes no memory of its own.

ghost use Rattle.std.specs.Prelude.{◌≡◌, ◌==◌, ◌+◌, ◌<◌, ◌++◌, ◌∷◌, [], length, drop, vec_len, vec_capacity, IfOk, OnErr, OnOk};
ghost use Rattle.std.specs.Mem.{FitsInMemory};
ghost use Rattle.std.specs.VecDeque.{deque_len};
ghost use Rattle.tipc_types.specs.Fews.{values_of};

use crate::memory::NoMemory;
use std::alloc::{AllocError, Global};
use std::collections::VecDeque;
use std::marker::Model;
use std::mem::replace;
use std::slice;

/// How many places a list gets with its second value.
const PLACES: usize = 4;

/// Where the values of a list stand.
#[derive(Debug, Drop)]
pub(crate) enum HeldValues<T> {
    /// There are none.
    Nothing,
    /// The only one stands here.
    One(T),
    /// They stand apart.
    Several(Vec<T>),
}

/// A list of values, which contracts see as that list and nothing else. Where it has one value alone it takes no memory
/// but its own.
#[derive(Debug, Drop)]
pub struct Few<T> {
    alloc: Global,
    held: HeldValues<T>,
}

impl<T> Model for Few<T> {
    ghost use Rattle.std.specs.Prelude.{List};
    ghost use Rattle.tipc_types.specs.Fews.{values_of};

    ghost Value = { List T };

    ghost view = { λ s. values_of s.held };
}

impl<T: PartialEq> PartialEq for Few<T> {
    ghost use Rattle.std.specs.Cmp.Lexicographic.{pointwise, lists_per};

    ghost eq = { λ x y. pointwise T.eq x y };

    ghost laws = { lists_per T.laws };

    fn eq(&self, other: &Few<T>) -> bool {
        match &self.held {
            HeldValues::Nothing => other.is_empty(),
            HeldValues::One(value) => match &other.held {
                HeldValues::Nothing => false,
                HeldValues::One(other) => *value == *other,
                HeldValues::Several(others) => match others.as_slice() {
                    [other] => *value == *other,
                    _ => false,
                },
            },
            HeldValues::Several(values) => match &other.held {
                HeldValues::Nothing => values.is_empty(),
                HeldValues::One(other) => match values.as_slice() {
                    [value] => *value == *other,
                    _ => false,
                },
                HeldValues::Several(others) => values.as_slice() == others.as_slice(),
            },
        }
    }
}

impl<T: Clone> Clone for Few<T> {
    ghost use Rattle.std.specs.Prelude.{◌≡◌};

    ghost is_clone = { λ x y. ((a b : T) → T.is_clone a b → b ≡ a) → y ≡ x };

    fn clone(&self) -> Result<Few<T>, AllocError> {
        let held = match &self.held {
            HeldValues::Nothing => HeldValues::Nothing,
            HeldValues::One(value) => HeldValues::One(value.clone()?),
            HeldValues::Several(values) => HeldValues::Several(values.clone()?),
        };
        Ok(Few {
            alloc: self.alloc,
            held,
        })
    }
}

impl<T> Few<T> {
    /// The empty list.
    pub fn new(alloc: Global) -> Few<T>
        ensures { result ≡ [] }
    {
        Few {
            alloc,
            held: HeldValues::Nothing,
        }
    }

    /// The list of this value alone.
    pub fn one(alloc: Global, value: T) -> Few<T>
        ensures { result ≡ value ∷ [] }
    {
        Few {
            alloc,
            held: HeldValues::One(value),
        }
    }

    /// The list of a vector's elements.
    pub fn from_vec(values: Vec<T>) -> Few<T>
        ensures { result ≡ values.items }
    {
        Few {
            alloc: *values.allocator(),
            held: HeldValues::Several(values),
        }
    }

    /// How many values it has.
    pub fn len(&self) -> usize
        ensures { result ≡ length self.now }
    {
        match &self.held {
            HeldValues::Nothing => 0,
            HeldValues::One(_) => 1,
            HeldValues::Several(values) => values.len(),
        }
    }

    /// Whether it has none.
    pub fn is_empty(&self) -> bool
        ensures { result ≡ (length self.now == 0) }
    {
        self.len() == 0
    }

    /// Its values.
    pub fn as_slice(&self) -> &[T]
        requires { FitsInMemory T.row }
        ensures { result.now ≡ self.now }
    {
        match &self.held {
            HeldValues::Nothing => &[],
            HeldValues::One(value) => slice::from_ref(value),
            HeldValues::Several(values) => values.as_slice(),
        }
    }
}

/// Moves values into an empty vector, or gives the one in which they stand.
fn gathered<T: Drop>(held: HeldValues<T>, empty: Vec<T>) -> Vec<T>
    requires empty { empty.items ≡ [] }
    requires room { vec_len empty < vec_capacity empty }
    ensures { result.items ≡ values_of held }
{
    match held {
        HeldValues::Nothing => empty,
        HeldValues::One(value) => {
            let mut values = empty;
            values.push_reserved(value);
            values
        }
        HeldValues::Several(values) => values,
    }
}

impl<T: Drop> Few<T> {
    /// Takes the first value out, where there is one.
    pub fn remove_first(&mut self)
        ensures { self.new ≡ drop 1 self.old }
    {
        match &mut self.held {
            HeldValues::Nothing => {}
            HeldValues::One(_) => self.held = HeldValues::Nothing,
            HeldValues::Several(values) => {
                values.drain(..values.len().min(1));
            }
        }
    }

    /// Adds a value at the end.
    ///
    /// # Errors
    ///
    /// Where memory runs out. The list is unchanged then.
    pub fn push(&mut self, value: T) -> Result<(), NoMemory>
        ensures ok { OnOk result (self.new ≡ self.old ++ value ∷ []) }
        ensures err { OnErr result (self.new ≡ self.old) }
    {
        match &mut self.held {
            HeldValues::Nothing => {
                self.held = HeldValues::One(value);
                Ok(())
            }
            HeldValues::One(_) => self.widen(value),
            HeldValues::Several(values) => {
                values.push(value)?;
                Ok(())
            }
        }
    }

    /// Adds a value at the end, in a vector.
    fn widen(&mut self, value: T) -> Result<(), NoMemory>
        ensures ok { OnOk result (self.new ≡ self.old ++ value ∷ []) }
        ensures err { OnErr result (self.new ≡ self.old) }
    {
        let room = Vec::with_capacity(self.alloc, PLACES)?;
        let mut values = gathered(replace(&mut self.held, HeldValues::Nothing), room);
        let pushed = values.push(value);
        self.held = HeldValues::Several(values);
        pushed?;
        Ok(())
    }

    /// The vector of its values.
    ///
    /// # Errors
    ///
    /// Where memory runs out.
    pub fn into_vec(self) -> Result<Vec<T>, NoMemory>
        ensures { IfOk result (λ values. values.items ≡ self) }
    {
        let room = Vec::with_capacity(self.alloc, 1)?;
        Ok(gathered(self.held, room))
    }

    /// Puts its values last into a list, in order.
    ///
    /// # Errors
    ///
    /// Where memory runs out. The list is unchanged then.
    pub fn move_to(self, list: &mut VecDeque<T>) -> Result<(), NoMemory>
        ensures items { OnOk result (list.new.items ≡ list.old.items ++ self) }
        ensures len { OnOk result (deque_len list.new ≡ deque_len list.old + length self) }
        ensures err { OnErr result (list.new.items ≡ list.old.items) }
        ensures err_len { OnErr result (deque_len list.new ≡ deque_len list.old) }
    {
        match self.held {
            HeldValues::Nothing => Ok(()),
            HeldValues::One(value) => {
                list.push_back(value)?;
                Ok(())
            }
            HeldValues::Several(values) => {
                list.append(&mut VecDeque::from_vec(values))?;
                Ok(())
            }
        }
    }
}

impl<T: Copy> Few<T> {
    /// A list of the same values.
    ///
    /// # Errors
    ///
    /// Where memory runs out.
    pub fn from_slice(alloc: Global, values: &[T]) -> Result<Few<T>, NoMemory>
        ensures { IfOk result (λ copy. copy ≡ values.now) }
    {
        match values {
            [] => Ok(Few::new(alloc)),
            [value] => Ok(Few::one(alloc, *value)),
            _ => Ok(Few::from_vec(Vec::from_slice(alloc, values)?)),
        }
    }
}
