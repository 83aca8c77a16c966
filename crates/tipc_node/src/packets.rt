//! What a node makes of a peer by what it hears of it.

ghost use Rattle.std.specs.Prelude.{◌≡◌, ◌≤◌, ℕ, Some, true, false, IfOk};
ghost use Rattle.tipc_outside.specs.Frames.{Adds};
ghost use Rattle.tipc_header.specs.Spelling.{view};
ghost use Rattle.tipc_pair.specs.Courses.{sent_in};
ghost use Rattle.tipc_pair.specs.Facing.{in_contact};
ghost use Rattle.tipc_pair.specs.PairTurns.{Outset};
ghost use Rattle.tipc_pair.specs.Preparing.{Prepares, changes_of};
ghost use Rattle.tipc_node.specs.Casting.{stated_in, CanBeTold};
ghost use Rattle.tipc_node.specs.Hearings.{HasHeard, IsPrepared};
ghost use Rattle.tipc_node.specs.Neighbours.{answered_neighbour, answering, heard_neighbour, HearsAt};
ghost use Rattle.tipc_pair.specs.Contacts.{begins, ends};

use crate::frames::{Delivery, Due, Hearing};
use crate::neighbours::Neighbour;
use std::alloc::Global;
use tipc_header::Packet;
use tipc_outside::Outbox;
use tipc_pair::{PairArriving, TransitionList};
use tipc_types::{Arrival, BroadcastState, NoMemory};

/// What came of a packet that a neighbour heard.
#[derive(Drop)]
pub struct HeardPacket {
    /// What became of the links and the contact.
    pub changes: TransitionList,
    /// What it tells of broadcast, where it is a STATE that was taken.
    pub stated: Option<BroadcastState>,
    /// What it delivers.
    pub deliveries: Vec<Delivery>,
    /// What became of the arrival.
    pub answer: Arrival,
}

impl Neighbour {
    /// Takes a packet, as its pair told of it when it was as it is; a STATE shows this of the broadcast link.
    pub fn take(
        &mut self,
        alloc: Global,
        arriving: PairArriving,
        packet: &Packet<'_>,
        shown: BroadcastState,
        out: &mut Outbox,
    ) -> TransitionList
        requires { (es : ℕ) × (er : ℕ) × (by : ℕ) × Prepares self.old.pair es er (view packet.now) by shown arriving }
        ensures takes { (es er by : ℕ) → Prepares self.old.pair es er (view packet.now) by shown arriving →
            (o : Outset) × HearsAt self.old arriving.bearer es er (view packet.now) by shown o ×
            (o.given ≡ arriving.outcome) × (o.course.changes ≡ result) × (self.new ≡ heard_neighbour self.old o) ×
            Adds out.old out.new (sent_in o.course) }
        ensures changes { result ≡ changes_of arriving.way }
        // Where a contact begins there is one.
        ensures contact { begins result ≡ true → in_contact self.new.pair ≡ true }
        ensures once { begins result ≡ true → ends result ≡ false }
        // The contact begins or ends once at most, and a STATE is taken only in one.
        ensures told { CanBeTold (in_contact self.old.pair) result (stated_in packet.now.header arriving.outcome) }
    {
        self.pair.sound();
        let mut event = Outbox::new(alloc);
        let arrival = self.pair.commit(alloc, arriving, packet, shown, &mut event);
        out.append(event);
        self.begin_anew(alloc, arrival.changes.as_slice());
        arrival.changes
    }

    /// Hears the packet that is due, as it was prepared when the neighbour was as it is.
    pub fn hear(
        &mut self,
        alloc: Global,
        due: &Due<'_>,
        heard: Hearing,
        out: &mut Outbox,
    ) -> HeardPacket
        requires { IsPrepared (Some self.old) due.now heard }
        ensures heard { HasHeard self.old due.now heard.number heard.shown self.new result out.old out.new }
        ensures changes { result.changes ≡ changes_of heard.arriving.way }
        ensures stated { result.stated ≡ heard.stated }
        // Where a contact begins there is one.
        ensures contact { begins result.changes ≡ true → in_contact self.new.pair ≡ true }
        ensures told { CanBeTold (in_contact self.old.pair) result.changes result.stated }
    {
        let packet = &due.packet;
        HeardPacket {
            changes: self.take(alloc, heard.arriving, packet, heard.shown, out),
            stated: heard.stated,
            deliveries: heard.deliveries,
            answer: heard.answer,
        }
    }

    /// Sends the STATE that is due on a bearer, 0 or 1: it may be asked for by the broadcast, and shows this of the
    /// broadcast link.
    pub fn answer(
        &mut self,
        alloc: Global,
        bearer: u8,
        asks: bool,
        shown: BroadcastState,
        out: &mut Outbox,
    )
        requires { bearer ≤ 1 }
        ensures after { self.new ≡ answered_neighbour bearer asks shown self.old }
        ensures frames { Adds out.old out.new (answering bearer asks shown self.old).states }
    {
        self.pair.answer(alloc, bearer, 0, asks, shown, out);
    }

    /// A neighbour that is as this one.
    pub fn copy(&self) -> Result<Neighbour, NoMemory>
        ensures { IfOk result (λ copy. copy ≡ self.now) }
    {
        Ok(Neighbour {
            pair: self.pair.copy()?,
            casts: self.casts.copy()?,
        })
    }
}
