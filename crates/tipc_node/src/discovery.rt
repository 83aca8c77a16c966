//! Discovery: a node asks on its bearers who is there, answers those who ask, and makes a link end to each that is new.

ghost use Rattle.std.specs.Prelude.{◌≡◌, ◌≤◌, ◌<◌, ◌++◌, ◌∷◌, ℕ, [], true, false, if◌then◌else◌, None, Err, slice_index_or, IfOk, OnErr, OnOk};
ghost use Rattle.tipc_types.specs.Address.{node_word};
ghost use Rattle.tipc_types.specs.declared.identity.To.{To};
ghost use Rattle.tipc_outside.specs.declared.outgoing.Outgoing.{Outgoing};
ghost use Rattle.tipc_outside.specs.Frames.{Adds, AddsFirst};
ghost use Rattle.tipc_header.specs.declared.packet.DiscoveryType.TheVariants.{Response};
ghost use Rattle.tipc_header.specs.Frames.{frame_of};
ghost use Rattle.tipc_header.specs.Grammar.{Fits};
ghost use Rattle.tipc_header.specs.Spelling.{spelling, view};
ghost use Rattle.tipc_journal.specs.Room.{has_journal_room};
ghost use Rattle.tipc_node.specs.declared.neighbours.Upkeep.TheVariants as upkeep;
ghost use Rattle.tipc_node.specs.Drafts.{with_neighbours_in};
ghost use Rattle.tipc_node.specs.Discovery.{AreFound, asks_on, discovered_frames, discovered_node, discovery_frame, has_link_up, is_request, next_tick, request_on, requests_by, responses, tick_requests, welcomed, welcome_frames};
ghost use Rattle.tipc_node.specs.Hearings.{FindsAt, FindsDue};
ghost use Rattle.tipc_node.specs.Nodes.{after_all, end_with, parts_of, recorded};
ghost use Rattle.tipc_pair.specs.Facing.{is_up_at};

use crate::cores::Core;
use crate::drafts::Draft;
use crate::frames::Due;
use crate::neighbours::{Neighbour, Upkeep, acquaintance, is_mended_on};
use crate::steps::{NodeFault, begin, record};
use std::alloc::{AllocError, Global};
use tipc_discovery::{Found, Neighbours};
use tipc_header::{Discovery, DiscoveryType, Header, Packet, encode_frame};
use tipc_outside::{Class, Outbox};
use tipc_types::{Addr, Answer, Arrival, By, Bytes, EventNote, To};

/// At each tick of this number a node asks on each bearer that is mended. (This project's profile.)
const TICKS_BETWEEN_REQUESTS: u8 = 8;

/// The ticks of a boot when one more passed, counted up to the eighth and then again from the first.
pub fn next_tick(ticks: u8) -> u8
    requires { ticks < 8 }
    ensures value { result ≡ next_tick ticks }
    ensures few { result < 8 }
{
    (ticks + 1) % TICKS_BETWEEN_REQUESTS
}

/// The frame that brings a discovery packet of a node in this boot.
fn discovery_frame(alloc: Global, boot: u32, packet: &Packet<'_>) -> Result<Bytes, AllocError>
    requires { Fits (view packet.now) }
    ensures { IfOk result (λ f. f ≡ frame_of boot 0 (spelling (view packet.now))) }
{
    Ok(Bytes::from_vec(encode_frame(alloc, boot as u64, 0, packet)?))
}

/// Sends a discovery packet of a node in this boot.
fn send(alloc: Global, boot: u32, packet: &Packet<'_>, bearer: u8, to: To, event: &mut Outbox)
    requires { Fits (view packet.now) }
    ensures { AddsFirst event.old event.new (record {
      bearer = bearer;
      to = to;
      frame = frame_of boot 0 (spelling (view packet.now));
    } ∷ []) }
{
    match discovery_frame(alloc, boot, packet) {
        Ok(frame) => event.put(Class::Notice, bearer, to, frame),
        Err(_) => event.lose(Class::Notice),
    }
}

/// Whether a packet asks who is there.
fn is_request(header: &Header) -> bool
    ensures { result ≡ is_request header.now }
{
    matches!(
        header,
        Header::Discovery(Discovery {
            discovery_type: DiscoveryType::Request,
            ..
        })
    )
}

/// Answers a packet of a peer, where it asks who is there.
#[tactic(auto, unfolding(crate::specs::Discovery::discovery_frame), using(tipc_outside::proofs::Adding::gains_none))]
fn respond(alloc: Global, boot: u32, found: &Neighbours, due: &Due<'_>, event: &mut Outbox)
    requires { (1 ≤ due.now.peer) × (due.now.peer ≤ 32) }
    ensures { AddsFirst event.old event.new (if is_request due.now.packet.header then record {
      bearer = due.now.bearer;
      to = To.Node (record { word = node_word due.now.peer });
      frame = discovery_frame found.now.own boot Response;
    } ∷ [] else []) }
{
    if !is_request(&due.packet.header) {
        return;
    }
    let to = To::Node(Addr::node(due.peer));
    send(alloc, boot, &found.response(), due.bearer, to, event);
}

/// Makes the link end to a peer on a bearer, 0 or 1, on which there is none and which is mended: its RESET leaves.
fn make_end(
    alloc: Global,
    draft: &mut Draft,
    own: Addr,
    boot: u32,
    due: &Due<'_>,
    event: &mut Outbox,
)
    requires peer { (1 ≤ due.now.peer) × (due.now.peer ≤ 32) }
    requires bearer { due.now.bearer ≤ 1 }
    requires alone { end_with due.now.bearer (slice_index_or draft.old.work.neighbours due.now.peer None) ≡ None }
    ensures after { draft.new ≡ with_neighbours_in draft.old
        (welcomed own.word boot Found.New due.now.peer due.now.bearer draft.old.work.neighbours) }
    ensures frames { AddsFirst event.old event.new
        (welcome_frames own.word boot Found.New due.now.peer due.now.bearer draft.old.work.neighbours) }
{
    let place = draft.take_place(due.peer);
    let mut neighbour = acquaintance(alloc, own, boot, due.peer, place);
    neighbour.make(alloc, due.bearer, event);
    draft.set_place(due.peer, neighbour);
}

/// Makes the link end to a peer on a bearer, 0 or 1, which is mended, where the peer is new there.
#[tactic(auto, using(tipc_outside::proofs::Adding::gains_none))]
fn welcome(
    alloc: Global,
    draft: &mut Draft,
    own: Addr,
    boot: u32,
    found: Found,
    due: &Due<'_>,
    event: &mut Outbox,
)
    requires peer { (1 ≤ due.now.peer) × (due.now.peer ≤ 32) }
    requires bearer { due.now.bearer ≤ 1 }
    requires alone { found ≡ Found.New →
        end_with due.now.bearer (slice_index_or draft.old.work.neighbours due.now.peer None) ≡ None }
    ensures after { draft.new ≡ with_neighbours_in draft.old
        (welcomed own.word boot found due.now.peer due.now.bearer draft.old.work.neighbours) }
    ensures frames { AddsFirst event.old event.new
        (welcome_frames own.word boot found due.now.peer due.now.bearer draft.old.work.neighbours) }
{
    match found {
        Found::New => make_end(alloc, draft, own, boot, due, event),
        Found::Known => {}
        Found::Ignored(_) => {}
    }
}

/// Whether the link to a neighbour is up on a bearer, 0 or 1.
#[tactic(auto, using(crate::proofs::work::Discovery::up_by_state, crate::proofs::work::Discovery::down_by_state))]
fn is_up_there(place: &Option<Neighbour>, bearer: u8) -> bool
    requires { bearer ≤ 1 }
    ensures { result ≡ is_up_at (end_with bearer place.now) }
{
    let Some(neighbour) = place else {
        return false;
    };
    match neighbour.pair.state(bearer) {
        Some(state) => state.is_up(),
        None => false,
    }
}

/// Whether a link to one of these neighbours is up on a bearer, 0 or 1.
fn has_link_up(neighbours: &[Option<Neighbour>], bearer: u8) -> bool
    requires { bearer ≤ 1 }
    ensures { result ≡ has_link_up bearer neighbours.now }
{
    for place in neighbours {
        if is_up_there(place, bearer) {
            return true;
        }
    }
    false
}

impl Core {
    /// A discovery packet of the network arrives from another node; `number` is its number among all that arrived at
    /// this node. A request is answered by a response to its sender on that bearer. Where the sender is new on the
    /// bearer the link end is made, whose RESET leaves behind the response. No message is taken.
    ///
    /// # Errors
    ///
    /// JournalFull exactly where the journal has no room for a call, else NoMemory. Neither changes anything.
    pub(crate) fn find(
        &mut self,
        alloc: Global,
        by: By,
        number: u64,
        due: &Due<'_>,
        out: &mut Outbox,
    ) -> Result<Arrival, NodeFault>
        requires due { FindsAt self.old due.now }
        requires found { AreFound self.old }
        ensures found { IfOk result (λ a. FindsDue self.old self.new by number due.now out.old out.new a) }
        ensures room { OnOk result (has_journal_room self.old.journal ≡ true) }
        ensures full { has_journal_room self.old.journal ≡ false → result ≡ Err NodeFault.JournalFull }
        ensures only { result ≡ Err NodeFault.JournalFull → has_journal_room self.old.journal ≡ false }
        ensures err { OnErr result ((self.new ≡ self.old) × (out.new ≡ out.old)) }
    {
        self.sound();
        begin(&mut self.journal, 0)?;
        let found = self.found.heard(&due.packet, due.bearer)?;
        let mut event = Outbox::new(alloc);
        respond(alloc, self.boot, &self.found, due, &mut event);
        welcome(
            alloc,
            &mut self.draft,
            self.own,
            self.boot,
            found,
            due,
            &mut event,
        );
        out.append(event);
        let note = EventNote::Arrive {
            bearer: due.bearer,
            number,
        };
        let kept = Answer::Arrived(Arrival::Took(0));
        record(&mut self.journal, by, note, Vec::new(alloc), kept);
        Ok(Arrival::Took(0))
    }

    /// Asks all on a bearer who is there.
    #[tactic(auto, unfolding(crate::specs::Discovery::discovery_frame))]
    fn request(&self, alloc: Global, bearer: u8, event: &mut Outbox)
        ensures { AddsFirst event.old event.new (request_on self.now bearer ∷ []) }
    {
        let packet = self.found.request();
        send(alloc, self.boot, &packet, bearer, To::All, event);
    }

    /// Whether it asks on a bearer, 0 or 1, at a tick, after which the neighbours are these.
    fn asks_on(&self, bearer: u8, after: &[Option<Neighbour>]) -> bool
        requires bearer { bearer ≤ 1 }
        requires after { after.now ≡ after_all (parts_of upkeep.Tick self.now) }
        ensures { result ≡ asks_on self.now bearer }
    {
        is_mended_on(self.mended, bearer)
            && (!has_link_up(after, bearer) || next_tick(self.ticks) == 0)
    }

    /// Asks on a bearer, 0 or 1, where it is time for that at a tick, after which the neighbours are these.
    #[tactic(auto, using(tipc_outside::proofs::Adding::gains_none))]
    fn request_at_tick(
        &self,
        alloc: Global,
        bearer: u8,
        after: &[Option<Neighbour>],
        event: &mut Outbox,
    )
        requires bearer { bearer ≤ 1 }
        requires after { after.now ≡ after_all (parts_of upkeep.Tick self.now) }
        ensures { AddsFirst event.old event.new (tick_requests self.now bearer) }
    {
        if !self.asks_on(bearer, after) {
            return;
        }
        self.request(alloc, bearer, event);
    }

    /// Asks who is there where something happened to all neighbours, which are these then: on a bearer that is mended,
    /// and at a tick on each bearer that is mended and on which no link is up, at an eighth one on each that is mended.
    #[tactic(auto, unfolding(crate::specs::Discovery::requests_by), using(tipc_outside::proofs::Adding::gains_none, tipc_outside::proofs::Adding::first_more))]
    pub(crate) fn ask(
        &self,
        alloc: Global,
        upkeep: Upkeep,
        after: &[Option<Neighbour>],
        event: &mut Outbox,
    )
        requires { after.now ≡ after_all (parts_of upkeep self.now) }
        ensures { AddsFirst event.old event.new (requests_by upkeep self.now) }
    {
        match upkeep {
            Upkeep::Mend(bearer) => self.request(alloc, bearer, event),
            Upkeep::Cut(_) => {}
            Upkeep::Tick => {
                self.request_at_tick(alloc, 0, after, event);
                self.request_at_tick(alloc, 1, after, event);
            }
        }
    }
}
