//! The receive window: the next number, and the packets that came before their turn.

ghost use Rattle.std.specs.Prelude.{◌≡◌, ◌+◌, ◌-◌, ◌<◌, ◌≤◌, ◌^◌, ◌++◌, ◌∷◌, ◌⊎◌, ◌↔◌, [], drop, false, true, is_some, length, replicate, position, slice_index_or, IfOk, IfSome, IsTrue, None, OnErr, Some};
ghost use Rattle.std.specs.VecDeque.{deque_capacity};
ghost use Rattle.tipc_types.specs.declared.packet_lists.Taken.{Taken};
ghost use Rattle.tipc_recv_window.specs.Receiving.{filled};
ghost use Rattle.tipc_types.specs.Position.{number_of};
ghost use Rattle.tipc_types.specs.Limits.{window_size};

use crate::outcomes::Place;
use std::alloc::Global;
use std::collections::VecDeque;
use std::marker::Model;
use tipc_types::{Bytes, NoMemory, Taken, TakenList, number_distance, sequence_number};

/// How many packets, from the wanted one on, are kept when they arrive. (TIPC 2.0 draft, default window.)
pub const WINDOW: usize = 50;

/// A number further ahead of the wanted one lies behind it.
const FURTHEST_AHEAD: usize = 32_767;

/// No packet behind this position is held: memory ends long before.
const LAST_POSITION: u64 = 1 << 62;

/// The packets of one direction of a link as they arrive: which one is wanted, and those behind it that came early.
///
/// The packet that is wanted can be taken as soon as it arrived; the next 49 are deferred until then. Everything
/// else is old. (TIPC 2.0 draft.)
#[derive(Drop)]
pub struct RecvWindow {
    wanted: u64,
    /// The packet at each distance from the wanted one, as far as it arrived.
    held: VecDeque<Option<Taken>>,
}

impl Model for RecvWindow {
    ghost use Rattle.tipc_recv_window.specs.Receiving.{IsReceiving, Receiving};

    ghost Value = { Receiving };

    ghost view = { λ w. record { wanted = w.wanted; held = w.held.items } };

    ghost invariant = { λ w. IsReceiving (record { wanted = w.wanted; held = w.held.items }) };
}

/// What a numbered packet will make of a receive window, and the memory that it takes: [`RecvWindow::prepare`] tells
/// it, and [`RecvWindow::commit`] does it.
#[derive(Drop)]
pub struct WindowArrival {
    /// The position that the window wants.
    wanted: u64,
    /// Where the packet stands.
    place: Place,
    /// How many packets are taken.
    count: usize,
    /// The packet, where it is to be held behind the wanted one, with room for the packets of a window.
    held: VecDeque<Option<Taken>>,
}

impl Model for WindowArrival {
    ghost use Rattle.std.specs.Prelude.{None, slice_index_or};
    ghost use Rattle.std.specs.VecDeque.{deque_capacity};
    ghost use Rattle.tipc_recv_window.specs.Receiving.{Coming, HasRoom};

    ghost Value = { Coming };

    ghost view = { λ a. record {
      wanted = a.wanted;
      place = a.place;
      held = slice_index_or a.held.items 0 None;
      count = a.count;
    } };

    ghost invariant = { λ a. HasRoom a.wanted a.held.items a.count (deque_capacity a.held) };
}

impl WindowArrival {
    /// Where the packet stands.
    pub fn place(&self) -> Place
        ensures { result ≡ self.now.place }
    {
        self.place
    }
}

/// Takes the packet out that stands alone in its room, where there is one.
fn take_held(room: &mut VecDeque<Option<Taken>>) -> Option<Taken>
    requires { length room.old.items ≤ 1 }
    ensures packet { result ≡ slice_index_or room.old.items 0 None }
    ensures empty { room.new.items ≡ [] }
    ensures room { deque_capacity room.new ≡ deque_capacity room.old }
{
    room.pop_front()?
}

impl RecvWindow {
    ghost use Rattle.tipc_types.specs.Limits.{window_size};
    ghost use Rattle.tipc_recv_window.specs.Receiving.{after_take, ahead, arrived_at, coming, deferred_count, drained, fresh, gap_of, gap_to, held_at, IsReceiving, missing, next_of, past_wanted, place_at, run_of, shows_more, with_packet};

    /// A window that wants the packet with the number `next` and holds none.
    pub fn new(alloc: Global, next: u16) -> RecvWindow
        ensures { result ≡ fresh next }
    {
        RecvWindow {
            wanted: next as u64,
            held: VecDeque::new(alloc),
        }
    }

    /// A window that holds the same.
    pub fn copy(&self) -> Result<RecvWindow, NoMemory>
        ensures { IfOk result (λ window. window ≡ self.now) }
    {
        Ok(RecvWindow {
            wanted: self.wanted,
            held: self.held.clone()?,
        })
    }

    /// The number of the packet that is wanted.
    pub fn wanted(&self) -> u16
        ensures value { result ≡ number_of self.now.wanted }
        ensures window { IsReceiving self.now }
    {
        sequence_number(self.wanted)
    }

    /// The position of the packet that is wanted.
    pub fn wanted_position(&self) -> u64
        ensures value { result ≡ self.now.wanted }
        ensures window { IsReceiving self.now }
    {
        self.wanted
    }

    /// How many packets are held behind the wanted one.
    pub fn deferred(&self) -> u32
        ensures { result ≡ deferred_count self.now }
    {
        self.held
            .iter()
            .skip(1)
            .filter(|packet| packet.is_some())
            .count() as u32
    }

    /// Whether a packet is held behind the wanted one.
    pub fn has_deferred(&self) -> bool
        ensures { IsTrue result ↔ (0 < deferred_count self.now) }
    {
        self.deferred() > 0
    }

    /// How far the first packet that is held lies past the wanted one, and 0 where none is held.
    pub fn gap(&self) -> u16
        ensures value { result ≡ gap_of self.now }
        ensures near { result < window_size }
    {
        self.first_held().unwrap_or(0) as u16
    }

    /// How far a next number that the peer shows is ahead of the wanted one: 0 where it is more than 32,767 ahead, and
    /// so behind. (This project's profile.)
    #[tactic(auto, unfolding(crate::specs::Receiving::ahead))]
    pub fn ahead(&self, number: u16) -> u16
        ensures value { result ≡ ahead self.now number }
        ensures within { result ≤ 32767 }
    {
        let past = self.distance(number);
        if past <= FURTHEST_AHEAD {
            past as u16
        } else {
            0
        }
    }

    /// Whether a next number that the peer shows is 1 to 50 past the wanted one: the peer has sent more than was taken.
    /// (This project's profile.)
    pub fn shows_more(&self, number: u16) -> bool
        ensures { result ≡ shows_more self.now number }
    {
        let past = self.distance(number);
        0 < past && past <= WINDOW
    }

    /// How many packets are missing where none is held, up to the next position that the peer showed, as far as a
    /// window reaches.
    fn missing(&self, shown: u64) -> u16
        ensures value { result ≡ missing self.now shown }
        ensures within { result ≤ window_size }
    {
        let missing = shown.saturating_sub(self.wanted);
        if missing <= WINDOW as u64 {
            missing as u16
        } else {
            0
        }
    }

    /// How many packets are missing: up to the first that is held, or up to the next position that the peer showed. At
    /// most 50. (TIPC 2.0 draft; what was shown: this project's profile.)
    #[tactic(auto, unfolding(crate::specs::Receiving::gap_to))]
    pub fn gap_to(&self, shown: u64) -> u16
        ensures value { result ≡ gap_to self.now shown }
        ensures within { result ≤ window_size }
    {
        let gap = self.gap();
        if gap == 0 { self.missing(shown) } else { gap }
    }

    /// Takes in a packet with its number and the arrival number of its frame, and says where it stands. It is held
    /// unless it is old. NoMemory comes for a packet that isn't old alone, and then nothing is changed; positions
    /// past 2^62 count as want of memory. (TIPC 2.0 draft, with a window of 50.)
    pub fn arrive(&mut self, number: u16, packet: Bytes, by: u64) -> Result<Place, NoMemory>
        ensures ok { IfOk result (λ place. (place ≡ place_at self.old (past_wanted self.old number))
            × (self.new ≡ arrived_at self.old (past_wanted self.old number)
            (record { number = number; packet = packet; by = by }))) }
        ensures err { OnErr result (self.new ≡ self.old) }
        ensures not_old { OnErr result (place_at self.old (past_wanted self.old number) ≡ Place.Old → ⊥) }
        ensures window { IsReceiving self.new }
    {
        let distance = self.distance(number);
        let place = self.place_at(distance);
        if place == Place::Old {
            return Ok(Place::Old);
        }
        if self.is_last() {
            return Err(NoMemory);
        }
        self.held.reserve(WINDOW - self.held.len())?;
        fill(&mut self.held, distance, Taken { number, packet, by });
        Ok(place)
    }

    /// Gives the wanted packet, and the next one is wanted: None exactly where the wanted packet isn't held, and
    /// then nothing is changed.
    pub fn take_next(&mut self) -> Option<Taken>
        ensures given { result ≡ next_of self.old }
        ensures after { self.new ≡ after_take self.old }
        ensures window { IsReceiving self.new }
    {
        if !self.is_held(0) {
            return None;
        }
        self.wanted += 1;
        self.held.pop_front()?
    }

    /// What a packet will make of the window, where the wanted one isn't held, and the packets that can be taken with
    /// it, in order: the wanted one and those behind it, up to the first that isn't held. Nothing is changed yet:
    /// [`RecvWindow::commit`] does it.
    ///
    /// # Errors
    ///
    /// Where memory runs out, but not for an old packet; positions past 2^62 count as want of memory.
    pub fn prepare(
        &self,
        alloc: Global,
        packet: Taken,
    ) -> Result<(WindowArrival, TakenList), NoMemory>
        requires { next_of self.now ≡ None }
        ensures arrival { IfOk result (λ told. told.0 ≡ coming self.now packet) }
        ensures due { IfOk result (λ told. told.1 ≡ run_of (with_packet self.now packet).held) }
        ensures not_old { OnErr result (place_at self.now (past_wanted self.now packet.number) ≡ Place.Old →
            2 ^ 62 < self.now.wanted + window_size) }
    {
        if self.is_last() {
            return Err(NoMemory);
        }
        let place = self.place_at(self.distance(packet.number));
        match place {
            Place::InOrder => {
                let run = self.run_from(alloc, packet)?;
                Ok((self.passing(alloc, place, run.len()), run))
            }
            Place::Deferred => Ok((self.holding(alloc, packet)?, TakenList::new(alloc))),
            Place::Old => Ok((self.passing(alloc, place, 0), TakenList::new(alloc))),
        }
    }

    /// Does what a packet makes of the window, as [`RecvWindow::prepare`] told of it when the window was as it is: what
    /// can be taken is, or the packet is held. It takes no memory.
    pub fn commit(&mut self, arrival: WindowArrival)
        requires free { next_of self.old ≡ None }
        requires arrival { (packet : Taken) × (arrival ≡ coming self.old packet) }
        ensures after { (packet : Taken) → arrival ≡ coming self.old packet →
            self.new ≡ drained (with_packet self.old packet) }
    {
        let WindowArrival { held, count, .. } = arrival;
        let mut room = held;
        match take_held(&mut room) {
            None => self.pass(count),
            Some(packet) => self.hold(room, packet),
        }
    }

    /// An arrival after which so many packets are taken, and none is held besides.
    fn passing(&self, alloc: Global, place: Place, count: usize) -> WindowArrival
        requires counted { self.now.wanted + window_size ≤ 2 ^ 62 }
        requires few { count ≤ window_size }
        ensures { result ≡ record { wanted = self.now.wanted; place = place; held = None; count = count } }
    {
        WindowArrival {
            wanted: self.wanted,
            place,
            count,
            held: VecDeque::new(alloc),
        }
    }

    /// An arrival after which the packet is held.
    fn holding(&self, alloc: Global, packet: Taken) -> Result<WindowArrival, NoMemory>
        requires { self.now.wanted + window_size ≤ 2 ^ 62 }
        ensures { IfOk result (λ arrival. arrival ≡
            record { wanted = self.now.wanted; place = Place.Deferred; held = Some packet; count = 0 }) }
    {
        let mut held = VecDeque::with_capacity(alloc, WINDOW)?;
        held.push_back_reserved(Some(packet));
        Ok(WindowArrival {
            wanted: self.wanted,
            place: Place::Deferred,
            count: 0,
            held,
        })
    }

    /// The wanted packet, and those that are held right behind it.
    fn run_from(&self, alloc: Global, first: Taken) -> Result<TakenList, NoMemory>
        ensures { IfOk result (λ run. run ≡ first ∷ run_of (drop 1 self.now.held)) }
    {
        let mut run = TakenList::one(alloc, first);
        for place in 1..self.held.len() {
            match &self.held[place] {
                Some(packet) => run.push(packet.clone()?)?,
                None => return Ok(run),
            }
        }
        Ok(run)
    }

    /// The first packets are taken, and the next one is wanted.
    fn pass(&mut self, count: usize)
        requires few { count ≤ window_size }
        requires counted { self.old.wanted + window_size ≤ 2 ^ 62 }
        ensures { self.new ≡ record { wanted = self.old.wanted + count; held = drop count self.old.held } }
    {
        self.wanted += count as u64;
        let held = count.min(self.held.len());
        self.held.drain(..held);
    }

    /// Holds a packet behind the wanted one, in new room.
    fn hold(&mut self, room: VecDeque<Option<Taken>>, packet: Taken)
        requires room { (room.items ≡ []) × (window_size ≤ deque_capacity room) }
        requires near { past_wanted self.old packet.number < window_size }
        requires number { packet.number < 2 ^ 16 }
        requires counted { self.old.wanted + window_size ≤ 2 ^ 62 }
        ensures { self.new ≡ record {
          wanted = self.old.wanted;
          held = filled self.old.held
              (past_wanted self.old packet.number) packet;
        } }
    {
        let distance = self.distance(packet.number);
        let mut held = room;
        match held.append(&mut self.held) {
            Ok(()) => {}
            Err(_) => unreachable!(),
        }
        fill(&mut held, distance, packet);
        self.held = held;
    }

    /// Whether a position behind the wanted one is too high.
    fn is_last(&self) -> bool
        ensures counted { result ≡ false → self.now.wanted + window_size ≤ 2 ^ 62 }
        ensures last { result ≡ true → 2 ^ 62 < self.now.wanted + window_size }
        ensures window { IsReceiving self.now }
    {
        self.wanted > LAST_POSITION - WINDOW as u64
    }

    /// How far a number lies past the wanted one.
    fn distance(&self, number: u16) -> usize
        ensures { result ≡ past_wanted self.now number }
    {
        number_distance(sequence_number(self.wanted), number) as usize
    }

    /// Where a packet stands at a distance from the wanted one.
    fn place_at(&self, distance: usize) -> Place
        ensures value { result ≡ place_at self.now distance }
        ensures near { distance < window_size ⊎ (result ≡ Place.Old) }
    {
        if distance >= WINDOW || self.is_held(distance) {
            Place::Old
        } else if distance == 0 {
            Place::InOrder
        } else {
            Place::Deferred
        }
    }

    /// Whether the packet at a distance from the wanted one is held.
    fn is_held(&self, distance: usize) -> bool
        ensures { result ≡ is_some (held_at self.now distance) }
    {
        match self.held.get(distance) {
            Some(packet) => packet.is_some(),
            None => false,
        }
    }

    /// How far the first packet that is held lies past the wanted one.
    fn first_held(&self) -> Option<usize>
        ensures place { result ≡ position (λ packet. is_some packet) self.now.held }
        ensures near { IfSome result (λ distance. distance < window_size) }
    {
        self.held.iter().position(|packet| packet.is_some())
    }
}

/// Holds a packet at a place of a list that has room; places that it didn't have are made empty.
fn fill(held: &mut VecDeque<Option<Taken>>, place: usize, packet: Taken)
    requires near { place < window_size }
    requires room { window_size ≤ deque_capacity held.old }
    ensures { held.new.items ≡ filled held.old.items place packet }
{
    widen(held, place);
    held[place] = Some(packet);
}

/// Makes a list that has room long enough for a place, by empty places at its end.
fn widen(held: &mut VecDeque<Option<Taken>>, place: usize)
    requires near { place < window_size }
    requires room { window_size ≤ deque_capacity held.old }
    ensures { held.new.items ≡ held.old.items ++ replicate (place + 1 - length held.old.items) None }
{
    for _ in held.len()..place + 1 {
        held.push_back_reserved(None);
    }
}
