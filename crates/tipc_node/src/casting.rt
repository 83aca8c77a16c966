//! What a node's events make of its broadcast link: peers join it and leave it as contacts begin and end, and a STATE
//! that is taken is read.

ghost use Rattle.std.specs.Prelude.{◌≡◌, ◌≤◌, ◌∷◌, [], true, filter, is_some, IfOk, OnErr, OnOk};
ghost use Rattle.std.specs.List.{find, list_any};
ghost use Rattle.tipc_types.specs.Address.{node_word};
ghost use Rattle.tipc_outside.specs.Frames.{Adds};
ghost use Rattle.tipc_broadcast.specs.Contacts.{has_joined};
ghost use Rattle.tipc_broadcast.specs.Deeds.{after_deeds, deeds_frames};
ghost use Rattle.tipc_pair.specs.Contacts.{is_of_contact};
ghost use Rattle.tipc_node.specs.Arrivals.{asks_peer};
ghost use Rattle.tipc_node.specs.Casting.{arrival_deeds, bearer_deeds, boot_of_contact, contact_deeds, deed_of, broadcast_in, state_deeds, stated_in, CanBeTold, IsContactChange};
ghost use Rattle.tipc_node.specs.Neighbours.{IsOnBearer};

use crate::neighbours::Upkeep;
use std::alloc::Global;
use tipc_broadcast::Broadcast;
use tipc_header::{Header, State};
use tipc_outside::Outbox;
use tipc_pair::{PairOutcome, Transition};
use tipc_types::{Addr, BroadcastState, NoMemory};

/// Whether a contact began or ended.
fn is_of_contact(change: &Transition) -> bool
    ensures { result ≡ is_of_contact change.now }
{
    match change {
        Transition::ContactUp { .. } => true,
        Transition::ContactDown { .. } => true,
        Transition::LinkUp { .. } => false,
        Transition::LinkDown { .. } => false,
    }
}

/// The first change of the contact among these, where there is one.
fn contact_change(changes: &[Transition]) -> Option<Transition>
    ensures { result ≡ find is_of_contact changes.now }
{
    changes.iter().copied().find(|change| is_of_contact(change))
}

/// The boot number in a contact number: its upper 32 bits.
fn boot_of_contact(contact: u64) -> u32
    ensures { result ≡ boot_of_contact contact }
{
    (contact >> 32) as u32
}

/// Whether the contact changed by one of these changes.
pub fn changes_contact(changes: &[Transition]) -> bool
    ensures { result ≡ list_any is_of_contact changes.now }
{
    changes.iter().any(|change| is_of_contact(change))
}

/// The contact with a peer, of which it is told, begins or ends: it joins the broadcast link, or leaves it. Where
/// memory runs out nothing is changed.
fn follow_change(
    broadcast: &mut Broadcast,
    alloc: Global,
    peer: u8,
    change: &Transition,
    out: &mut Outbox,
) -> Result<(), NoMemory>
    requires peer { (1 ≤ peer) × (peer ≤ 32) }
    requires change { IsContactChange (has_joined (node_word peer) broadcast.old.contacts) (change.now ∷ []) }
    ensures after { OnOk result (broadcast.new ≡ after_deeds (deed_of peer change.now) broadcast.old) }
    ensures frames { OnOk result (Adds out.old out.new (deeds_frames (deed_of peer change.now) broadcast.old)) }
    ensures err { OnErr result ((broadcast.new ≡ broadcast.old) × (out.new ≡ out.old)) }
{
    match change {
        Transition::ContactUp { contact } => {
            broadcast.peer_joins(Addr::node(peer), boot_of_contact(contact.1))?;
            Ok(())
        }
        Transition::ContactDown { .. } => {
            broadcast.peer_leaves(alloc, Addr::node(peer), out);
            Ok(())
        }
        Transition::LinkUp { .. } => Ok(()),
        Transition::LinkDown { .. } => Ok(()),
    }
}

/// These changes are told of the links to a peer, and of the contact with it: where that begins or ends the peer joins
/// the broadcast link, or leaves it. Where memory runs out nothing is changed.
pub fn follow_contact(
    broadcast: &mut Broadcast,
    alloc: Global,
    peer: u8,
    changes: &[Transition],
    out: &mut Outbox,
) -> Result<(), NoMemory>
    requires peer { (1 ≤ peer) × (peer ≤ 32) }
    requires changes { IsContactChange (has_joined (node_word peer) broadcast.old.contacts)
        (filter is_of_contact changes.now) }
    ensures after { OnOk result (broadcast.new ≡ after_deeds (contact_deeds peer changes.now) broadcast.old) }
    ensures frames { OnOk result (Adds out.old out.new (deeds_frames (contact_deeds peer changes.now) broadcast.old)) }
    ensures err { OnErr result ((broadcast.new ≡ broadcast.old) × (out.new ≡ out.old)) }
{
    match contact_change(changes) {
        Some(change) => follow_change(broadcast, alloc, peer, &change, out),
        None => Ok(()),
    }
}

/// What a STATE tells of broadcast.
fn broadcast_in(said: &State) -> BroadcastState
    ensures { result ≡ broadcast_in said.now }
{
    BroadcastState {
        acknowledged: said.broadcast_acknowledgement,
        next: said.broadcast_next,
        start: said.broadcast_start,
        gap: said.broadcast_gap,
        in_step: said.in_step,
    }
}

/// What an arrival tells of broadcast: that is told by a STATE that the links took.
pub fn stated_in(header: &Header, outcome: &PairOutcome) -> Option<BroadcastState>
    ensures { result ≡ stated_in header.now outcome.now }
{
    let Header::State(said) = header else {
        return None;
    };
    match outcome {
        PairOutcome::Took(_) => Some(broadcast_in(said)),
        PairOutcome::Deferred => None,
        PairOutcome::Ignored(_) => None,
    }
}

/// Takes what a peer in contact tells of broadcast, where it does. Answers whether a STATE is due, since the peer sent
/// more than was taken of it.
pub fn take_state(
    broadcast: &mut Broadcast,
    alloc: Global,
    peer: u8,
    stated: Option<BroadcastState>,
    out: &mut Outbox,
) -> bool
    requires peer { (1 ≤ peer) × (peer ≤ 32) }
    requires joined { is_some stated ≡ true → has_joined (node_word peer) broadcast.old.contacts ≡ true }
    ensures after { broadcast.new ≡ after_deeds (state_deeds peer stated) broadcast.old }
    ensures frames { Adds out.old out.new (deeds_frames (state_deeds peer stated) broadcast.old) }
    ensures asks { result ≡ asks_peer peer stated broadcast.new }
{
    let Some(seen) = stated else {
        return false;
    };
    let node = Addr::node(peer);
    broadcast.state(alloc, node, seen, out);
    broadcast.shows_more(node, seen.next)
}

/// An arrival from a peer told this of the links and the contact, and of broadcast: the peer joins the broadcast link
/// or leaves it, and a STATE is taken. Answers whether one is due, since the peer sent more than was taken of it. Where
/// memory runs out nothing is changed.
pub fn follow_arrival(
    broadcast: &mut Broadcast,
    alloc: Global,
    peer: u8,
    changes: &[Transition],
    stated: Option<BroadcastState>,
    out: &mut Outbox,
) -> Result<bool, NoMemory>
    requires peer { (1 ≤ peer) × (peer ≤ 32) }
    requires told { CanBeTold (has_joined (node_word peer) broadcast.old.contacts) changes.now stated }
    ensures after { OnOk result (broadcast.new ≡ after_deeds (arrival_deeds peer changes.now stated) broadcast.old) }
    ensures frames { OnOk result (Adds out.old out.new
        (deeds_frames (arrival_deeds peer changes.now stated) broadcast.old)) }
    ensures asks { IfOk result (λ asks. asks ≡ asks_peer peer stated broadcast.new) }
    ensures err { OnErr result ((broadcast.new ≡ broadcast.old) × (out.new ≡ out.old)) }
{
    follow_contact(broadcast, alloc, peer, changes, out)?;
    Ok(take_state(broadcast, alloc, peer, stated, out))
}

/// A bearer is mended or cut at the broadcast link too.
pub fn bear(broadcast: &mut Broadcast, upkeep: Upkeep)
    requires { IsOnBearer upkeep }
    ensures { broadcast.new ≡ after_deeds (bearer_deeds upkeep) broadcast.old }
{
    match upkeep {
        Upkeep::Mend(bearer) => broadcast.mend(bearer),
        Upkeep::Cut(bearer) => broadcast.cut(bearer),
        Upkeep::Tick => {}
    }
}
