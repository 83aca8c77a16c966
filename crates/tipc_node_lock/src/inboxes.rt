//! The inboxes of a node's sockets, each between two ends: the place behind the lock gives, and the pass that made the
//! socket takes.

ghost use Rattle.std.specs.Prelude.{◌≡◌, ◌==◌, ◌≤◌, ◌<◌, true, None, not, filter, is_some, length, unwrap_or, vec_capacity, vec_len, IfOk, MatchOption};
ghost use Rattle.std.specs.List.{position};
ghost use Rattle.atomic_table.specs.Seated.{TableId};
ghost use Rattle.tipc_node_lock.specs.Inboxes.{new_place, new_port_taker, places_after, takers_after, having_taken, Offers};

use std::alloc::Global;
use std::marker::Model;
use std::sync::{Arc, Wait};
use tipc_inbox::{Giver, Inbox, Taker};
use tipc_types::{Answer, EventNote, Message, NoMemory};

/// The pass that was used holds no taker of that port's inbox: it made no such socket, or closed it.
#[derive(Clone, Copy, Debug, PartialEq, Eq)]
pub struct NoSocket;

/// The place of a socket behind the lock: the end of its inbox that gives, and a message that stands by, since the
/// inbox gave it back.
#[derive(Drop)]
pub struct Place {
    pub(crate) port: u32,
    inbox: Arc<Inbox, Global>,
    giver: Giver,
    standing: Option<Message>,
}

impl Model for Place {
    ghost use Rattle.std.specs.Prelude.{◌≡◌};
    ghost use Rattle.std.specs.Arc.{arc_value};
    ghost use Rattle.tipc_node_lock.specs.Inboxes.{PlaceState};

    ghost Value = { PlaceState };

    ghost view = { λ p. record { port = p.port; giver = p.giver; standing = p.standing } };

    ghost invariant = { λ p. p.giver.of_inbox ≡ arc_value p.inbox };
}

/// What a pass has of a socket: the end of its inbox that takes.
#[derive(Drop)]
pub struct PortTaker {
    pub(crate) port: u32,
    inbox: Arc<Inbox, Global>,
    taker: Taker,
}

impl Model for PortTaker {
    ghost use Rattle.std.specs.Prelude.{◌≡◌};
    ghost use Rattle.std.specs.Arc.{arc_value};
    ghost use Rattle.tipc_node_lock.specs.Inboxes.{PortTakerState};

    ghost Value = { PortTakerState };

    ghost view = { λ t. record { port = t.port; taker = t.taker } };

    ghost invariant = { λ t. t.taker.of_inbox ≡ arc_value t.inbox };
}

/// An inbox with its ends, for a socket that is to be made.
#[derive(Drop)]
pub(crate) struct NewInbox {
    inbox: Arc<Inbox, Global>,
    other: Arc<Inbox, Global>,
    giver: Giver,
    taker: Taker,
}

impl Model for NewInbox {
    ghost use Rattle.std.specs.Prelude.{◌≡◌};
    ghost use Rattle.std.specs.Arc.{arc_value};
    ghost use Rattle.atomic_table.specs.Seated.{TableId};
    ghost use Rattle.tipc_inbox.specs.Ends.{new_giver, new_taker};

    ghost Value = { TableId };

    ghost view = { λ i. arc_value i.inbox };

    ghost invariant = { λ i. (arc_value i.other ≡ arc_value i.inbox) × (i.giver ≡ new_giver (arc_value i.inbox)) ×
        (i.taker ≡ new_taker (arc_value i.inbox)) };
}

impl NewInbox {
    /// An inbox that holds nothing.
    ///
    /// # Errors
    ///
    /// Where memory runs out.
    pub(crate) fn new(alloc: Global) -> Result<NewInbox, NoMemory> {
        let (inbox, giver, taker) = Inbox::new(alloc)?;
        let inbox = Arc::new(alloc, inbox)?;
        let other = Arc::try_clone(&inbox)?;
        Ok(NewInbox {
            inbox,
            other,
            giver,
            taker,
        })
    }

    /// Its two ends, for a port.
    pub(crate) fn at(self, port: u32) -> (Place, PortTaker)
        ensures place { result.0 ≡ new_place self port }
        ensures taker { result.1 ≡ new_port_taker self port }
    {
        let NewInbox {
            inbox,
            other,
            giver,
            taker,
        } = self;
        let place = Place {
            port,
            inbox,
            giver,
            standing: None,
        };
        let taker = PortTaker {
            port,
            inbox: other,
            taker,
        };
        (place, taker)
    }
}

impl Place {
    /// The port.
    pub fn port(&self) -> u32
        ensures { result ≡ self.now.port }
    {
        self.port
    }

    /// The message that stands by, if one does.
    pub fn standing(&self) -> Option<&Message>
        ensures { is_some result ≡ is_some self.now.standing }
    {
        self.standing.as_ref()
    }

    /// Whether no message stands by.
    pub(crate) fn is_free(&self) -> bool
        ensures { result ≡ not (is_some self.now.standing) }
    {
        self.standing.is_none()
    }

    /// Offers a message to the inbox. It stands by where the inbox gives it back. This may wait for the thread that
    /// takes.
    pub(crate) fn offer<R: Wait>(&mut self, rt: &R, message: Message)
        requires { self.old.standing ≡ None }
        ensures { Offers self.old message self.new }
    {
        match self.inbox.offer(rt, &mut self.giver, message) {
            Ok(()) => {}
            Err(back) => self.standing = Some(back),
        }
    }

    /// Offers the message that stands by once more, where one does.
    pub(crate) fn offer_again<R: Wait>(&mut self, rt: &R)
        ensures { MatchOption self.old.standing (self.new ≡ self.old)
            (λ message. Offers (record self.old { standing = None }) message self.new) }
    {
        if let Some(message) = self.standing.take() {
            self.offer(rt, message);
        }
    }
}

impl PortTaker {
    /// The port.
    pub fn port(&self) -> u32
        ensures { result ≡ self.now.port }
    {
        self.port
    }

    /// Takes the first message that the inbox holds. This may wait for the thread that gives.
    pub(crate) fn take<R: Wait>(&mut self, rt: &R) -> Option<Message>
        ensures { MatchOption result ((self.new ≡ self.old) × (self.old.taker.offers ≤ length self.old.taker.taken))
            (λ message. self.new ≡ having_taken self.old message) }
    {
        self.inbox.take(rt, &mut self.taker)
    }
}

/// Takes the place of a port out, where it is there.
pub(crate) fn drop_place(places: &mut Vec<Place>, port: u32)
    ensures { places.new.items ≡ filter (λ place. not (place.port == port)) places.old.items }
{
    places.retain(|place| place.port != port);
}

/// Takes the taker of a port out, where it is there.
pub(crate) fn drop_taker(takers: &mut Vec<PortTaker>, port: u32)
    ensures { takers.new.items ≡ filter (λ taker. not (taker.port == port)) takers.old.items }
{
    takers.retain(|taker| taker.port != port);
}

/// The inbox that a call needs: one for the socket that it makes.
///
/// # Errors
///
/// Where memory runs out.
pub(crate) fn inbox_for(alloc: Global, call: &EventNote) -> Result<Option<NewInbox>, NoMemory>
    ensures { IfOk result (λ inbox. call.now ≡ EventNote.Socket → is_some inbox ≡ true) }
{
    match call {
        EventNote::Socket => Ok(Some(NewInbox::new(alloc)?)),
        _ => Ok(None),
    }
}

/// Puts the ends of this inbox behind the others, where a call that made a socket was answered so.
fn open(
    places: &mut Vec<Place>,
    takers: &mut Vec<PortTaker>,
    inbox: Option<NewInbox>,
    answer: &Answer,
)
    requires room { (vec_len places.old < vec_capacity places.old) × (vec_len takers.old < vec_capacity takers.old) }
    requires inbox { is_some inbox ≡ true }
    ensures places { (other : TableId) →
        places.new.items ≡ places_after places.old.items (unwrap_or inbox other) EventNote.Socket answer.now }
    ensures takers { (other : TableId) →
        takers.new.items ≡ takers_after takers.old.items (unwrap_or inbox other) EventNote.Socket answer.now }
{
    let Some(inbox) = inbox else { unreachable!() };
    if let Answer::Socket(port) = answer {
        let (place, taker) = inbox.at(*port);
        places.push_reserved(place);
        takers.push_reserved(taker);
    }
}

/// Takes the ends of a port's inbox out, where a call that closed its socket was answered so.
fn close(places: &mut Vec<Place>, takers: &mut Vec<PortTaker>, port: u32, answer: &Answer)
    ensures places { (inbox : TableId) →
        places.new.items ≡ places_after places.old.items inbox (EventNote.Close port) answer.now }
    ensures takers { (inbox : TableId) →
        takers.new.items ≡ takers_after takers.old.items inbox (EventNote.Close port) answer.now }
{
    if let Answer::Done = answer {
        drop_place(places, port);
        drop_taker(takers, port);
    }
}

/// Follows a call that was answered so: a socket that was made has this inbox, and one that was closed has none. It
/// takes no memory.
pub(crate) fn follow(
    places: &mut Vec<Place>,
    takers: &mut Vec<PortTaker>,
    inbox: Option<NewInbox>,
    call: &EventNote,
    answer: &Answer,
)
    requires room { (vec_len places.old < vec_capacity places.old) × (vec_len takers.old < vec_capacity takers.old) }
    requires inbox { call.now ≡ EventNote.Socket → is_some inbox ≡ true }
    ensures places { (other : TableId) →
        places.new.items ≡ places_after places.old.items (unwrap_or inbox other) call.now answer.now }
    ensures takers { (other : TableId) →
        takers.new.items ≡ takers_after takers.old.items (unwrap_or inbox other) call.now answer.now }
{
    match call {
        EventNote::Socket => open(places, takers, inbox, answer),
        EventNote::Close { port } => close(places, takers, *port, answer),
        _ => {}
    }
}

/// Where the taker of a port is, if one is there.
pub(crate) fn taker_position(takers: &[PortTaker], port: u32) -> Option<usize>
    ensures { result ≡ position (λ t. t.port == port) takers.now }
{
    takers.iter().position(|taker| taker.port == port)
}
