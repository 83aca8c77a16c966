//! The subscriptions of one node, and the calls that they take.

ghost use Rattle.std.specs.Prelude.{◌≡◌, ◌≤◌, ◌<◌, ◌+◌, ◌++◌, ◌⊎◌, ◌↔◌, false, true, ℕ, [], None, Some, Err, All, drop, fold, length, map, position, slice_get, take, IfErr, IfOk, IfSome, IfNone, IsErr, IsOk, OnErr, OnOk};
ghost use Rattle.std.specs.List.{AllPairs};
ghost use Rattle.tipc_topology.specs.Watchers.{added, is_due, removed, ticked, with_room, Watcher};
ghost use Rattle.tipc_types.specs.declared.services.Publication.{Publication};
ghost use Rattle.tipc_topology.specs.Changing.{changed, due, ended_at, events_left, has_number, no_watchers, of_number, passed, subscribed, with_event_taken, with_addition, with_kept, with_loss, with_room_for, without_number, is_filter, is_of_one};

use crate::changes::{TableChange, in_order};
use crate::watch::{PORTS, SERVICE, Watch};
use std::alloc::{AllocError, AllocFailed, Global};
use std::marker::Model;
use tipc_name_table::Names;
use tipc_types::{Event, NoMemory, Publication, Sequence, ServiceRange, Subscription};

/// The most subscriptions of a node at a time. (This project's profile.)
pub const MOST_SUBSCRIPTIONS: usize = 256;

/// The most subscriptions of a node in one boot. (This project's profile.)
pub const MOST_MADE: u32 = 4_294_967_295;

/// Numbers of subscriptions in order.
pub type SubscriptionNumbers = Sequence<u32>;

/// Why a subscription isn't made. Nothing is changed then.
#[derive(Clone, Copy, Debug, PartialEq, Eq)]
pub enum TopologyFault {
    /// The lower bound is above the upper.
    BadRange,
    /// The filter is neither 1 nor 2.
    BadFilter,
    /// 256 subscriptions are there, or 4,294,967,295 were made in this boot.
    Full,
    /// Memory ran out.
    NoMemory,
}

impl From<NoMemory> for TopologyFault {
    ghost use Rattle.std.specs.Prelude.{◌≡◌};
    ghost use Rattle.tipc_topology.specs.declared.topology.TopologyFault.TheVariants as fault;

    ghost from_gives = { λ _ e. e ≡ fault.NoMemory };

    fn from(_error: NoMemory) -> TopologyFault {
        TopologyFault::NoMemory
    }
}

/// No subscription of this number is there.
#[derive(Clone, Copy, Debug, PartialEq, Eq)]
pub struct Unknown;

/// The subscriptions of a node in one boot.
#[derive(Drop)]
pub struct Topology {
    made: u32,
    room: usize,
    kept: Vec<Watch>,
}

impl Model for Topology {
    ghost use Rattle.std.specs.Prelude.{◌≤◌, length};
    ghost use Rattle.tipc_topology.specs.Changing.{AreKept, Watchers};

    ghost Value = { Watchers };

    ghost view = { λ t. record { made = t.made; room = t.room; kept = t.kept.items } };

    ghost invariant = { λ t. AreKept (record { made = t.made; room = t.room; kept = t.kept.items })
        × (length t.kept.items ≤ 256) };
}

/// Where the subscription of a number is.
fn place_of(kept: &[Watch], number: u32) -> Option<usize>
    ensures { result ≡ position (has_number number) kept.now }
{
    kept.iter().position(|w| w.number() == number)
}

/// Makes room in each for so many additions, in order, as far as memory goes.
fn make_room_in_each(kept: &mut [Watch], additions: usize) -> Result<(), NoMemory>
    requires { All (λ (w : Watcher). w.room ≤ additions) kept.old }
    ensures ok { OnOk result (kept.new ≡ map (with_room additions) kept.old) }
    ensures err { OnErr result ((done : ℕ) ×
        (kept.new ≡ map (with_room additions) (take done kept.old) ++ drop done kept.old)) }
{
    for watch in kept.iter_mut() {
        let Ok(()) = watch.make_room(additions) else {
            return Err(NoMemory);
        };
    }
    Ok(())
}

/// Keeps room in each for no more than so many additions.
fn limit_room_in_each(kept: &mut [Watch], additions: usize)
    requires { All (λ (w : Watcher). additions ≤ w.room) kept.old }
    ensures { kept.new ≡ map (with_room additions) kept.old }
{
    for watch in kept.iter_mut() {
        watch.limit_room(additions);
    }
}

/// Tells each of an added publication. It takes no memory.
fn add_to_each(kept: &mut [Watch], p: &Publication)
    requires { All (λ (w : Watcher). 1 ≤ w.room) kept.old }
    ensures { kept.new ≡ map (λ w. added w p.now) kept.old }
{
    for watch in kept.iter_mut() {
        watch.add(p);
    }
}

/// Tells each of removed publications, one after another. It takes no memory.
fn remove_from_each(kept: &mut [Watch], ps: &[Publication])
    ensures { kept.new ≡ map (λ w. fold removed w ps.now) kept.old }
{
    for watch in kept.iter_mut() {
        watch.remove_each(ps);
    }
}

/// Lets a tick pass for each. It takes no memory.
fn tick_each(kept: &mut [Watch])
    ensures { kept.new ≡ map ticked kept.old }
{
    for watch in kept.iter_mut() {
        watch.tick();
    }
}

/// The numbers of those that time out in this tick.
fn due(alloc: Global, kept: &[Watch]) -> Result<Vec<u32>, AllocError>
    ensures { IfOk result (λ numbers. numbers.items ≡ due kept.now) }
{
    kept.iter()
        .filter(|w| w.is_due())
        .map(|w| w.number())
        .collect(alloc)
}

impl Topology {
    /// No subscription, at the beginning of a boot.
    pub fn new(alloc: Global) -> Topology
        ensures { result ≡ no_watchers }
    {
        Topology {
            made: 0,
            room: 0,
            kept: Vec::new(alloc),
        }
    }

    /// Makes a subscription and answers its number: 1, 2, 3 and so on in a boot. The publications in the table that it
    /// watches are told of first, in order of lower, upper, node, port and key; under filter 2 (service) the first of
    /// each distinct range alone, under filter 1 (ports) each.
    ///
    /// # Errors
    ///
    /// `BadRange` exactly where the lower bound is above the upper; else `BadFilter` exactly where the filter is
    /// neither 1 nor 2; else `Full` exactly where 256 subscriptions are there or 4,294,967,295 were made in this boot;
    /// else `NoMemory` where memory runs out.
    pub fn subscribe<N: Names>(
        &mut self,
        alloc: Global,
        s: Subscription,
        names: &N,
    ) -> Result<u32, TopologyFault>
        ensures number { IfOk result (λ number. number ≡ self.old.made + 1) }
        ensures ok { OnOk result (self.new ≡ subscribed s (N.table names.now) self.old) }
        ensures range { (result ≡ Err TopologyFault.BadRange) ↔ (s.upper < s.lower) }
        ensures filter { (result ≡ Err TopologyFault.BadFilter) ↔ ((s.lower ≤ s.upper) × (is_filter s ≡ false)) }
        ensures full { (result ≡ Err TopologyFault.Full) ↔ ((s.lower ≤ s.upper) × (is_filter s ≡ true) ×
            ((256 ≤ length self.old.kept) ⊎ (4294967295 ≤ self.old.made))) }
        ensures err { OnErr result (self.new ≡ self.old) }
    {
        let Ok(range) = ServiceRange::new(s.range_kind, s.lower, s.upper) else {
            return Err(TopologyFault::BadRange);
        };
        if s.filter != PORTS && s.filter != SERVICE {
            return Err(TopologyFault::BadFilter);
        }
        if self.kept.len() >= MOST_SUBSCRIPTIONS || self.made >= MOST_MADE {
            return Err(TopologyFault::Full);
        }
        let there = names.overlapping(alloc, range)?;
        let there = in_order(alloc, there.as_slice())?;
        let number = self.made + 1;
        let watch = Watch::new(alloc, number, s, self.room, there.as_slice())?;
        let Ok(()) = self.kept.push(watch) else {
            return Err(TopologyFault::NoMemory);
        };
        self.made = number;
        Ok(number)
    }

    /// Tells each subscription of a change of the table. A purge is told in the order of lower, upper, node, port, key.
    /// A removed publication is told of where one is known that the subscription watches.
    ///
    /// # Errors
    ///
    /// `NoMemory` where memory runs out, which it doesn't at an added publication where room was reserved, nor at a
    /// removed one. It changes nothing.
    pub fn changed(&mut self, alloc: Global, change: &TableChange) -> Result<(), NoMemory>
        ensures ok { OnOk result (self.new ≡ changed change.now self.old) }
        ensures err { OnErr result (self.new ≡ self.old) }
        ensures succeeds { is_of_one change.now ≡ true → 1 ≤ self.old.room → IsOk result }
        ensures removal { (p : Publication) → change.now ≡ TableChange.Removed p → IsOk result }
    {
        match change {
            TableChange::Added(p) => self.added(p)?,
            TableChange::Removed(p) => self.lost(&[*p]),
            TableChange::Purged(ps) => {
                let ordered = in_order(alloc, ps.as_slice())?;
                self.lost(ordered.as_slice());
            }
        }
        Ok(())
    }

    /// Tells each subscription of an added publication.
    ///
    /// # Errors
    ///
    /// `NoMemory` where memory runs out, which it doesn't where room was reserved. It changes nothing.
    pub fn added(&mut self, p: &Publication) -> Result<(), NoMemory>
        ensures ok { OnOk result (self.new ≡ changed (TableChange.Added p.now) self.old) }
        ensures err { OnErr result (self.new ≡ self.old) }
        ensures succeeds { 1 ≤ self.old.room → IsOk result }
    {
        self.make_room(1)?;
        self.add(p);
        Ok(())
    }

    /// Tells each subscription of an added publication that there is room for. It takes no memory.
    fn add(&mut self, p: &Publication)
        requires { 1 ≤ self.old.room }
        ensures { self.new ≡ with_addition p.now self.old }
    {
        add_to_each(self.kept.as_mut_slice(), p);
        self.room -= 1;
    }

    /// Tells each subscription of publications that aren't known any more, one after another in this order. It takes no
    /// memory.
    pub fn lost(&mut self, ordered: &[Publication])
        ensures { self.new ≡ with_loss ordered.now self.old }
    {
        remove_from_each(self.kept.as_mut_slice(), ordered);
    }

    /// Makes room for so many additions, where there isn't as much.
    fn make_room(&mut self, additions: usize) -> Result<(), NoMemory>
        ensures ok { OnOk result (self.new ≡ with_room_for additions self.old) }
        ensures err { OnErr result (self.new ≡ self.old) }
        ensures succeeds { additions ≤ self.old.room → IsOk result }
    {
        if additions <= self.room {
            return Ok(());
        }
        let Ok(()) = make_room_in_each(self.kept.as_mut_slice(), additions) else {
            limit_room_in_each(self.kept.as_mut_slice(), self.room);
            return Err(NoMemory);
        };
        self.room = additions;
        Ok(())
    }

    /// Makes room for so many additions: so many calls of `added` take no memory then.
    ///
    /// # Errors
    ///
    /// `NoMemory` where memory runs out. It changes nothing.
    pub fn reserve(&mut self, additions: u64) -> Result<(), NoMemory>
        ensures ok { OnOk result (self.new ≡ with_room_for additions self.old) }
        ensures err { OnErr result (self.new ≡ self.old) }
    {
        self.make_room(additions as usize)
    }

    /// Lets a tick pass, and answers the numbers of the subscriptions that timed out, rising. Each was told so as the
    /// last of its events: kind 3, its own bounds, port 0 and node 0. That is at the first tick at which as many ticks
    /// as its timeout, and at least one, have passed; the timeout 4,294,967,295 is for ever.
    ///
    /// # Errors
    ///
    /// `NoMemory` where memory runs out. It changes nothing.
    pub fn tick(&mut self, alloc: Global) -> Result<SubscriptionNumbers, NoMemory>
        ensures numbers { IfOk result (λ numbers. numbers ≡ due self.old.kept) }
        ensures rising { IfOk result (λ numbers. AllPairs (λ (n later : ℕ). n < later) numbers) }
        ensures ok { OnOk result (self.new ≡ with_kept self.old (map ticked self.old.kept)) }
        ensures err { OnErr result (self.new ≡ self.old) }
    {
        let numbers = self.due(alloc)?;
        self.pass();
        Ok(numbers)
    }

    /// The numbers of the subscriptions that time out in the next tick, rising; 256 at most.
    pub fn due(&self, alloc: Global) -> Result<SubscriptionNumbers, NoMemory>
        ensures numbers { IfOk result (λ numbers. numbers ≡ due self.now.kept) }
        ensures rising { IfOk result (λ numbers. AllPairs (λ (n later : ℕ). n < later) numbers) }
        ensures few { IfOk result (λ numbers. length numbers ≤ 256) }
    {
        let numbers = due(alloc, self.kept.as_slice())?;
        Ok(SubscriptionNumbers::from_vec(numbers))
    }

    /// Lets a tick pass, as `tick` does, where the numbers of those that time out are known: they end one after
    /// another, and then the tick passes for all. It takes no memory.
    pub fn pass(&mut self)
        ensures ticked { self.new ≡ with_kept self.old (map ticked self.old.kept) }
        ensures parts { self.new ≡ passed (fold (λ t n. ended_at n t) self.old (due self.old.kept)) }
    {
        tick_each(self.kept.as_mut_slice());
    }

    /// Takes the first event of a subscription that wasn't taken yet: None exactly where none is left. It takes no
    /// memory.
    ///
    /// # Errors
    ///
    /// `Unknown` exactly where no subscription of the number is there. It changes nothing.
    pub fn next_event(&mut self, number: u32) -> Result<Option<Event>, Unknown>
        ensures first { IfOk result (λ event. event ≡ slice_get (events_left (of_number self.old number)) 0) }
        ensures ok { OnOk result (self.new ≡ with_kept self.old (with_event_taken number self.old.kept)) }
        ensures unknown { IsErr result ↔ (of_number self.old number ≡ None) }
        ensures err { OnErr result (self.new ≡ self.old) }
    {
        let Some(at) = place_of(self.kept.as_slice(), number) else {
            return Err(Unknown);
        };
        Ok(self.kept[at].take())
    }

    /// Cancels a subscription, which isn't there any more then. It takes no memory.
    ///
    /// # Errors
    ///
    /// `Unknown` exactly where no subscription of the number is there. It changes nothing.
    pub fn cancel(&mut self, number: u32) -> Result<(), Unknown>
        ensures ok { OnOk result (self.new ≡ with_kept self.old (without_number number self.old.kept)) }
        ensures unknown { IsErr result ↔ (of_number self.old number ≡ None) }
        ensures err { OnErr result (self.new ≡ self.old) }
    {
        let Some(at) = place_of(self.kept.as_slice(), number) else {
            return Err(Unknown);
        };
        self.kept.remove(at);
        Ok(())
    }

    /// The same subscriptions, with the same events, room, and number for the next.
    pub fn copy(&self) -> Result<Topology, NoMemory>
        ensures { IfOk result (λ copy. copy ≡ self.now) }
    {
        Ok(Topology {
            made: self.made,
            room: self.room,
            kept: self.kept.clone()?,
        })
    }
}
