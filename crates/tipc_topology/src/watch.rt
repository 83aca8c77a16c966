//! One subscription.

ghost use Rattle.std.specs.Prelude.{◌≡◌, ◌==◌, ◌≤◌, ◌<◌, ◌+◌, ◌&&◌, ◌*◌, false, true, ℕ, [], fold, length, nat_eq, nat_le, slice_get, IfOk, IfNone, IfSome, IsOk, OnErr, OnOk};
ghost use Rattle.indexmap.specs.IndexMap.{spare};
ghost use Rattle.tipc_types.specs.declared.services.Publication.{Publication};
ghost use Rattle.tipc_types.specs.Watching.{event_of, timeout_of};
ghost use Rattle.tipc_topology.specs.Watchers.{added, began, blank, concerns, count_at, is_due, is_per_port, loses, one_fewer, one_more, bounds_of, removed, ticked, total, with_room, without_first};

use crate::changes::is_watched;
use indexmap::IndexMap;
use std::alloc::{AllocError, Global};
use std::collections::VecDeque;
use std::marker::Model;
use tipc_types::{Event, NoMemory, Publication, Subscription};

/// The timeout of a subscription that lasts for ever. (Programmer's guide.)
const FOR_EVER: u32 = 4_294_967_295;

/// The filter under which each publication has its event. (Programmer's guide.)
pub(crate) const PORTS: u32 = 1;

/// The filter under which each distinct range has its event. (Programmer's guide.)
pub(crate) const SERVICE: u32 = 2;

/// What an event tells: a publication was added. (Programmer's guide.)
const PUBLISHED: u32 = 1;

/// What an event tells: a publication was removed. (Programmer's guide.)
const WITHDRAWN: u32 = 2;

/// What an event tells: the subscription timed out. (Programmer's guide.)
const TIMED_OUT: u32 = 3;

/// A subscription that is kept, with the events that weren't taken yet. While it lasts it has places for the timeout,
/// for the withdrawal of each publication that it knows of, and for the additions that it has room for, each with its
/// withdrawal.
#[derive(Drop)]
pub(crate) struct Watch {
    number: u32,
    asked: Subscription,
    left: u32,
    ended: bool,
    counts: IndexMap<(u32, u32), u64>,
    known: usize,
    events: VecDeque<Event>,
    room: usize,
}

impl Model for Watch {
    ghost use Rattle.std.specs.Prelude.{◌≡◌, ◌≤◌, ◌+◌, ◌*◌, false, length};
    ghost use Rattle.std.specs.VecDeque.{deque_capacity};
    ghost use Rattle.indexmap.specs.IndexMap.{spare};
    ghost use Rattle.tipc_topology.specs.Watchers.{total, Watcher};

    ghost Value = { Watcher };

    ghost view = { λ w. record {
      number = w.number;
      asked = w.asked;
      left = w.left;
      ended = w.ended;
      counts = w.counts.entries;
      known = w.known;
      events = w.events.items;
      room = w.room;
    } };

    ghost invariant = { λ w.
        (w.ended ≡ false → length w.events.items + w.known + 2 * w.room + 1 ≤ deque_capacity w.events) ×
        (w.room ≤ spare w.counts) × (total w.counts.entries ≤ w.known) ×
        (w.asked.filter ≡ 1 → total w.counts.entries ≡ 0) };
}

/// The event that tells of a publication; its bounds are cut to the subscription's.
fn event_of(what: u32, s: &Subscription, p: &Publication) -> Event
    ensures { result ≡ event_of what s.now p.now }
{
    Event {
        what,
        lower: p.range.lower().max(s.lower),
        upper: p.range.upper().min(s.upper),
        at_port: p.at.port,
        at_node: p.at.node.word,
        subscription: *s,
    }
}

/// The event that tells that the subscription timed out.
fn timeout_of(s: &Subscription) -> Event
    ensures { result ≡ timeout_of s.now }
{
    Event {
        what: TIMED_OUT,
        lower: s.lower,
        upper: s.upper,
        at_port: 0,
        at_node: 0,
        subscription: *s,
    }
}

/// The bounds of a publication's range.
fn bounds_of(p: &Publication) -> (u32, u32)
    ensures { result ≡ bounds_of p.now }
{
    (p.range.lower(), p.range.upper())
}

/// How many publications of a range are counted.
fn count_at(counts: &IndexMap<(u32, u32), u64>, range: (u32, u32)) -> u64
    ensures { result ≡ count_at counts.now.entries range }
{
    match counts.get(&range) {
        Some(count) => *count,
        None => 0,
    }
}

/// Counts one publication of a range more, and answers whether it is the first. It takes no memory.
#[tactic(auto, using(crate::proofs::Counts::count_most, crate::proofs::Counts::total_more))]
fn count_up(counts: &mut IndexMap<(u32, u32), u64>, range: (u32, u32)) -> bool
    requires spare { 1 ≤ spare counts.old }
    requires total { total counts.old.entries < 18446744073709551615 }
    ensures first { result ≡ (count_at counts.old.entries range == 0) }
    ensures counts { counts.new.entries ≡ one_more counts.old.entries range }
    ensures total { total counts.new.entries ≡ total counts.old.entries + 1 }
    ensures spare { spare counts.old ≤ spare counts.new + 1 }
{
    let count = count_at(counts, range);
    match counts.insert(range, count + 1) {
        Ok(_) => {}
        Err(_) => unreachable!(),
    }
    count == 0
}

/// Counts one publication of a range fewer, and answers whether none is left. It takes no memory.
#[tactic(auto, using(crate::proofs::Counts::total_one_fewer))]
fn count_down(counts: &mut IndexMap<(u32, u32), u64>, range: (u32, u32)) -> bool
    ensures last { result ≡ nat_le (count_at counts.old.entries range) 1 }
    ensures counts { counts.new.entries ≡ one_fewer counts.old.entries range }
    ensures total { 1 ≤ count_at counts.old.entries range →
        total counts.new.entries + 1 ≡ total counts.old.entries }
    ensures spare { spare counts.old ≤ spare counts.new }
{
    let count = count_at(counts, range);
    if count <= 1 {
        counts.shift_remove(&range);
        return true;
    }
    match counts.get_mut(&range) {
        Some(counted) => *counted = count - 1,
        None => unreachable!(),
    }
    false
}

/// How many places for events a subscription wants that knows of so many publications and has so much room: one for
/// each withdrawal, one for the timeout, and two for each addition, which is withdrawn later. None where no number says
/// it.
fn places_for(known: usize, room: usize) -> Option<usize>
    ensures { IfSome result (λ places. places ≡ known + 2 * room + 1) }
{
    room.checked_mul(2)?.checked_add(known)?.checked_add(1)
}

impl Watch {
    /// A subscription that was told of nothing yet, with room for so many additions.
    fn blank(
        alloc: Global,
        number: u32,
        asked: Subscription,
        room: usize,
    ) -> Result<Watch, NoMemory>
        ensures { IfOk result (λ w. w ≡ blank number asked room) }
    {
        let Some(places) = places_for(0, room) else {
            return Err(NoMemory);
        };
        let events = VecDeque::with_capacity(alloc, places)?;
        let mut counts = IndexMap::new(alloc);
        counts.reserve(room)?;
        Ok(Watch {
            number,
            asked,
            left: asked.timeout.max(1),
            ended: false,
            counts,
            known: 0,
            events,
            room,
        })
    }

    /// A new subscription: it was told of the publications that are there, in this order, and has room for so many
    /// additions more.
    pub(crate) fn new(
        alloc: Global,
        number: u32,
        asked: Subscription,
        room: usize,
        there: &[Publication],
    ) -> Result<Watch, NoMemory>
        ensures { IfOk result (λ w. w ≡ began number asked room there.now) }
    {
        let Some(additions) = room.checked_add(there.len()) else {
            return Err(NoMemory);
        };
        let mut watch = Watch::blank(alloc, number, asked, additions)?;
        for p in there {
            watch.add(p);
        }
        Ok(watch)
    }

    /// Its number.
    pub(crate) fn number(&self) -> u32
        ensures { result ≡ self.now.number }
    {
        self.number
    }

    /// Whether a publication changes anything for it: it lasts, and watches the publication's range.
    fn concerns(&self, p: &Publication) -> bool
        ensures { result ≡ concerns self.now p.now }
    {
        !self.ended && is_watched(&self.asked, p)
    }

    /// Tells it of an added publication. It takes no memory.
    #[tactic(auto, unfolding(crate::specs::Watchers::added))]
    pub(crate) fn add(&mut self, p: &Publication)
        requires { 1 ≤ self.old.room }
        ensures { self.new ≡ added self.old p.now }
    {
        if !self.concerns(p) {
            self.room -= 1;
            return;
        }
        self.known += 1;
        self.room -= 1;
        if self.asked.filter == PORTS {
            self.events
                .push_back_reserved(event_of(PUBLISHED, &self.asked, p));
            return;
        }
        if !count_up(&mut self.counts, bounds_of(p)) {
            return;
        }
        self.events
            .push_back_reserved(event_of(PUBLISHED, &self.asked, p));
    }

    /// Whether a removed publication changes anything for it: it watches the publication, and knows of one, or of one
    /// of the same range where it wants each distinct range.
    #[tactic(auto, using(crate::proofs::Counts::count_most))]
    fn loses(&self, p: &Publication) -> bool
        ensures loses { result ≡ loses self.now p.now }
        ensures known { result ≡ true → 1 ≤ self.now.known }
        ensures counted { result ≡ true → is_per_port self.now ≡ false →
            1 ≤ count_at self.now.counts (bounds_of p.now) }
    {
        if !self.concerns(p) {
            return false;
        }
        if self.asked.filter == PORTS {
            return self.known > 0;
        }
        count_at(&self.counts, bounds_of(p)) > 0
    }

    /// Tells it of a removed publication. It takes no memory.
    #[tactic(auto, unfolding(crate::specs::Watchers::removed))]
    fn remove(&mut self, p: &Publication)
        ensures { self.new ≡ removed self.old p.now }
    {
        if !self.loses(p) {
            return;
        }
        self.known -= 1;
        if self.asked.filter == PORTS {
            self.events
                .push_back_reserved(event_of(WITHDRAWN, &self.asked, p));
            return;
        }
        if !count_down(&mut self.counts, bounds_of(p)) {
            return;
        }
        self.events
            .push_back_reserved(event_of(WITHDRAWN, &self.asked, p));
    }

    /// Tells it of removed publications one after another. It takes no memory.
    pub(crate) fn remove_each(&mut self, ps: &[Publication])
        ensures { self.new ≡ fold removed self.old ps.now }
    {
        for p in ps {
            self.remove(p);
        }
    }

    /// Whether it times out in this tick.
    pub(crate) fn is_due(&self) -> bool
        ensures { result ≡ is_due self.now }
    {
        !self.ended && self.asked.timeout != FOR_EVER && self.left <= 1
    }

    /// Lets a tick pass. It takes no memory.
    #[tactic(auto, unfolding(crate::specs::Watchers::ticked))]
    pub(crate) fn tick(&mut self)
        ensures { self.new ≡ ticked self.old }
    {
        if self.is_due() {
            self.events.push_back_reserved(timeout_of(&self.asked));
            self.left = 0;
            self.ended = true;
            return;
        }
        if self.asked.timeout != FOR_EVER {
            self.left = self.left.saturating_sub(1);
        }
    }

    /// Makes room for so many additions, at least as many as it has room for.
    ///
    /// # Errors
    ///
    /// `NoMemory` where memory runs out. It changes nothing.
    pub(crate) fn make_room(&mut self, additions: usize) -> Result<(), NoMemory>
        requires { self.old.room ≤ additions }
        ensures ok { OnOk result (self.new ≡ with_room additions self.old) }
        ensures err { OnErr result (self.new ≡ self.old) }
    {
        let Some(places) = places_for(self.known, additions) else {
            return Err(NoMemory);
        };
        self.events.reserve(places)?;
        self.counts.reserve(additions)?;
        self.room = additions;
        Ok(())
    }

    /// Keeps room for no more than so many additions.
    pub(crate) fn limit_room(&mut self, additions: usize)
        requires { additions ≤ self.old.room }
        ensures { self.new ≡ with_room additions self.old }
    {
        self.room = additions;
    }

    /// Takes the first event that wasn't taken yet: None exactly where none is left. It takes no memory.
    pub(crate) fn take(&mut self) -> Option<Event>
        ensures first { result ≡ slice_get self.old.events 0 }
        ensures rest { self.new ≡ without_first self.old }
    {
        self.events.pop_front()
    }
}

impl Clone for Watch {
    ghost use Rattle.std.specs.Prelude.{◌≡◌};

    ghost is_clone = { λ x y. y ≡ x };

    fn clone(&self) -> Result<Watch, AllocError> {
        let mut events = self.events.clone()?;
        let Some(places) = places_for(self.known, self.room) else {
            return Err(AllocError);
        };
        events.reserve(places)?;
        let mut counts = self.counts.clone()?;
        counts.reserve(self.room)?;
        Ok(Watch {
            number: self.number,
            asked: self.asked,
            left: self.left,
            ended: self.ended,
            counts,
            known: self.known,
            events,
            room: self.room,
        })
    }
}
