//! What a message comes to at a node: its fate at the sockets, or its way on a link.

ghost use Rattle.std.specs.Prelude.{◌≡◌, ◌≤◌, ◌++◌, ◌∷◌, [], true, None, Some, fold, is_some, length, IfOk, IfSome, IfNone, OnErr, OnOk};
ghost use Rattle.std.specs.List.{list_all};
ghost use Rattle.tipc_journal.specs.Dues.{comes_home};
ghost use Rattle.tipc_pair.specs.Facing.{in_contact};
ghost use Rattle.tipc_message.specs.Wire.{IsCarried};
ghost use Rattle.tipc_sockets.specs.Fates.{after_fate};
ghost use Rattle.tipc_sockets.specs.Telling.{after_entry, fate_entry, origin_of};
ghost use Rattle.tipc_node.specs.Messages.{destination_of};
ghost use Rattle.tipc_node.specs.Nodes.{is_change, load_with};
ghost use Rattle.tipc_node.specs.Works.{back_of, fate_of, neighbour_at, waiting_to, work_of, PutsOn};

use crate::messages::pieces;
use crate::neighbours::Neighbour;
use std::alloc::Global;
use tipc_journal::Entry;
use tipc_name_table::Names;
use tipc_outside::Outbox;
use tipc_sockets::{Fate, Sockets};
use tipc_types::{Addr, Form, Message, NoMemory};

/// The address word that node 0 would have: the numbers of nodes are counted from it.
const NODE_ZERO: u32 = 0x0100_1000;

/// The numbers of packets unacknowledged and waiting on the active link to the node of an address: None exactly where
/// there is no contact with it.
pub fn load_to(neighbours: &[Option<Neighbour>], node: Addr) -> Option<(u32, u32)>
    ensures { result ≡ load_with (neighbour_at neighbours.now node) }
{
    match neighbours.get(node.word.saturating_sub(NODE_ZERO) as usize) {
        Some(Some(neighbour)) => neighbour.load(),
        _ => None,
    }
}

/// The number of packets that wait on the active link to the node of an address: None exactly where there is no contact
/// with it.
pub fn waiting_to(neighbours: &[Option<Neighbour>], node: Addr) -> Option<u32>
    ensures { result ≡ waiting_to neighbours.now node }
{
    let (_, waiting) = load_to(neighbours, node)?;
    Some(waiting)
}

/// The node that a message is for.
pub fn destination(m: &Message) -> Addr
    ensures { result ≡ destination_of m.now }
{
    match m {
        Message::Payload { to, .. } => to.node,
        Message::Items { .. } => Addr { word: 0 },
    }
}

/// The node that a message comes from.
fn origin(m: &Message) -> Addr
    ensures { result ≡ origin_of m.now }
{
    match m {
        Message::Payload { from, .. } => from.node,
        Message::Items { .. } => Addr { word: 0 },
    }
}

/// Whether a message that this node makes has a fate at this node.
pub fn comes_home(own: Addr, m: &Message) -> bool
    ensures { result ≡ comes_home own m.now }
{
    let Message::Payload { form, to, .. } = m else {
        return false;
    };
    match form {
        Form::Multicast => true,
        Form::Connected | Form::Named | Form::Direct => to.node.word == own.word,
    }
}

/// The entry of a return.
fn returned_entry(back: &Message) -> Entry
    ensures { result ≡ fate_entry (Fate.Returned back.now) }
{
    match back {
        Message::Payload { code, .. } => Entry::Returned { code: *code },
        Message::Items { .. } => Entry::Dropped { place: 0 },
    }
}

/// The entry that tells a fate, and the message that goes back by it, where one does.
fn told(fate: Fate) -> (Entry, Option<Message>)
    ensures entry { result.0 ≡ fate_entry fate }
    ensures back { result.1 ≡ back_of fate }
{
    match fate {
        Fate::Queued(ports) => (Entry::Queued { ports }, None),
        Fate::Returned(back) => (returned_entry(&back), Some(back)),
        Fate::ReturnDropped(waiting) => (Entry::ReturnDropped { waiting }, None),
        Fate::Dropped => (Entry::Dropped { place: 0 }, None),
    }
}

/// Gives a message its fate at the sockets, and tells it: a message that arrived, or that the node sent to itself. What
/// goes back by it is the answer.
pub fn meet(
    alloc: Global,
    sockets: &mut Sockets,
    neighbours: &[Option<Neighbour>],
    arrived: bool,
    m: Message,
    inside: &mut Vec<Entry>,
) -> Result<Option<Message>, NoMemory>
    ensures back { IfOk result (λ back. back ≡
        back_of (fate_of (work_of neighbours.now sockets.old inside.old.items) arrived m)) }
    ensures sockets { OnOk result (sockets.new ≡
        after_fate sockets.old m (fate_of (work_of neighbours.now sockets.old inside.old.items) arrived m)) }
    ensures entries { OnOk result (inside.new.items ≡ inside.old.items
        ++ fate_entry (fate_of (work_of neighbours.now sockets.old inside.old.items) arrived m) ∷ []) }
    ensures err { OnErr result ((sockets.new ≡ sockets.old) × (inside.new.items ≡ inside.old.items)) }
{
    inside.reserve(1)?;
    let waiting = waiting_to(neighbours, origin(&m));
    let fate = sockets.dispatch(alloc, m, arrived, waiting)?;
    let (entry, back) = told(fate);
    inside.push_reserved(entry);
    Ok(back)
}

/// Puts a message on the active link to the neighbour of that number, in the packets that it takes. The answer is the
/// entry that tells that it is accepted.
pub fn accept(
    neighbour: &mut Neighbour,
    alloc: Global,
    own: Addr,
    peer: u8,
    m: Message,
    out: &mut Outbox,
) -> Result<Entry, NoMemory>
    requires peer { (1 ≤ peer) × (peer ≤ 32) }
    requires carried { IsCarried m }
    requires contact { in_contact neighbour.old.pair ≡ true }
    ensures put { IfOk result (λ entry. PutsOn own.word neighbour.old neighbour.new peer m [] (entry ∷ [])
        out.old out.new) }
    ensures err { OnErr result ((neighbour.new ≡ neighbour.old) × (out.new ≡ out.old)) }
{
    let pieces = pieces(alloc, own, &m)?;
    let entry = neighbour.accepted(peer, m);
    neighbour.send(alloc, pieces, out)?;
    Ok(entry)
}

/// Puts a message on the active link to the neighbour of that number, in the packets that it takes, and tells that it
/// is accepted.
pub fn put_on(
    neighbour: &mut Neighbour,
    alloc: Global,
    own: Addr,
    peer: u8,
    m: Message,
    inside: &mut Vec<Entry>,
    out: &mut Outbox,
) -> Result<(), NoMemory>
    requires peer { (1 ≤ peer) × (peer ≤ 32) }
    requires carried { IsCarried m }
    requires contact { in_contact neighbour.old.pair ≡ true }
    ensures put { OnOk result (PutsOn own.word neighbour.old neighbour.new peer m inside.old.items inside.new.items
        out.old out.new) }
    ensures err { OnErr result ((neighbour.new ≡ neighbour.old) × (inside.new.items ≡ inside.old.items) ×
        (out.new ≡ out.old)) }
{
    inside.reserve(1)?;
    let entry = accept(neighbour, alloc, own, peer, m, out)?;
    inside.push_reserved(entry);
    Ok(())
}

/// Forgets the names of a peer with which the contact ended by this entry.
fn purge_by(sockets: &mut Sockets, entry: &Entry)
    requires { is_change entry.now ≡ true }
    ensures { sockets.new ≡ after_entry sockets.old entry.now }
{
    match entry {
        Entry::ContactDown { peer, .. } => sockets.purge(*peer),
        Entry::LinkUp { .. } | Entry::LinkDown { .. } | Entry::ContactUp { .. } => {}
        Entry::Step { .. }
        | Entry::Accepted { .. }
        | Entry::Delivered { .. }
        | Entry::Published { .. }
        | Entry::Withdrawn { .. }
        | Entry::Learned { .. }
        | Entry::Forgot { .. }
        | Entry::Queued { .. }
        | Entry::Returned { .. }
        | Entry::ReturnDropped { .. }
        | Entry::Dropped { .. }
        | Entry::Subscribed { .. }
        | Entry::Cancelled { .. }
        | Entry::TimedOut { .. }
        | Entry::Answered { .. } => unreachable!(),
    }
}

/// Forgets the names of each peer with which the contact ended, as these entries tell of links and contacts.
pub fn purge_ended(sockets: &mut Sockets, entries: &[Entry])
    requires { list_all is_change entries.now ≡ true }
    ensures { sockets.new ≡ fold after_entry sockets.old entries.now }
{
    for entry in entries {
        purge_by(sockets, entry);
    }
}
