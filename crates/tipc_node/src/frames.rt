//! What an arriving frame is to a node, and what it delivers.

ghost use Rattle.std.specs.Prelude.{◌≡◌, ◌<◌, ◌^◌, ◌≤◌, ◌-◌, ◌↔◌, true, false, All, None, Some, is_some, length, slice_index_or, sum_by, IfErr, IfOk, IfSome, IfNone};
ghost use Rattle.tipc_types.specs.Address.{node_word};
ghost use Rattle.tipc_header.specs.declared.frames.FrameKind.TheVariants.{Casts};
ghost use Rattle.tipc_header.specs.Faults.{fault_of};
ghost use Rattle.tipc_header.specs.Frames.{frame_of, kind_in};
ghost use Rattle.tipc_header.specs.Grammar.{Fits};
ghost use Rattle.tipc_header.specs.Spelling.{spelling, view};
ghost use Rattle.tipc_journal.specs.Room.{entry_bytes, free_entries, free_message_bytes};
ghost use Rattle.tipc_reassembly.specs.declared.opening.Opened.TheVariants.{Whole};
ghost use Rattle.tipc_pair.specs.Messages.{opened_in, HasNoFault};
ghost use Rattle.tipc_node.specs.Hearings.{IsLooked, IsPrepared};
ghost use Rattle.tipc_node.specs.Messages.{in_flow, is_of_items};
ghost use Rattle.tipc_node.specs.Nodes.{arrival_answer, deliveries_of, delivered_by, delivery_of, end_with, is_other, message_count, stop_among, stop_by_kind, taken_count};

use crate::casting::stated_in;
use crate::neighbours::{Bearers, Neighbour, is_mended_on};
use crate::steps::{FREE_ENTRIES, FREE_MESSAGE_BYTES};
use std::alloc::Global;
use tipc_discovery::is_of_network;
use tipc_header::{FrameKind, Header, Packet, decode, kind_of, open_frame};
use tipc_journal::{Arrivals, Entry, entry_bytes};
use tipc_message::message_from;
use tipc_pair::{Incoming, PairArriving, PairOutcome};
use tipc_reassembly::Opened;
use tipc_types::{Addr, Arrival, BroadcastState, Flow, Message, NoMemory, Why};

/// The most entries of what an arrival delivers, of the free entries that a call needs.
pub const MOST_TOLD: usize = FREE_ENTRIES as usize - 4;

/// A packet of another node that nothing stops, and the two numbers of its envelope: a link packet is due at the link
/// of a bearer to its sender.
#[derive(Clone, Copy)]
pub struct Due<'a> {
    /// What kind it is.
    pub kind: FrameKind,
    /// The bearer, 0 or 1.
    pub bearer: u8,
    /// The sender's number.
    pub peer: u8,
    /// The first number of the envelope.
    pub first: u64,
    /// The second number of the envelope.
    pub second: u64,
    /// The packet.
    pub packet: Packet<'a>,
}

/// The packet of a frame that arrives on a bearer, or the first reason that stops it.
#[tactic(auto, unfolding(crate::specs::Nodes::stop_among))]
pub fn look<'a>(
    own: Addr,
    mended: Bearers,
    neighbours: &[Option<Neighbour>],
    bearer: u8,
    frame: &'a [u8],
) -> Result<Due<'a>, Why>
    ensures brings { IfOk result (λ d. IsLooked own.word frame.now d) }
    ensures bearer { IfOk result (λ d. d.bearer ≡ bearer) }
    ensures kind { IfOk result (λ d. kind_in frame.now ≡ d.kind) }
    ensures boot { IfOk result (λ d. d.kind ≡ Casts → d.first < 2 ^ 32) }
    ensures passes { IfOk result (λ d. stop_by_kind d.kind d.packet.header d.bearer
        (slice_index_or neighbours.now d.peer None) ≡ None) }
    ensures clear { IfOk result (λ d. stop_among own.word mended neighbours.now bearer frame.now ≡ None) }
    ensures stopped { IfErr result (λ why. stop_among own.word mended neighbours.now bearer frame.now ≡ Some why) }
{
    if !is_mended_on(mended, bearer) {
        return Err(Why::Cut);
    }
    let Some(opened) = open_frame(frame) else {
        return Err(Why::Envelope);
    };
    let packet = match decode(opened.packet) {
        Ok(packet) => packet,
        Err(fault) => return Err(Why::Header(fault.number())),
    };
    let Some(peer) = sender_of(own, packet.previous) else {
        return Err(Why::Own);
    };
    let kind = kind_of(opened.first, &packet.header);
    if let Some(why) = stop_by_kind(kind, &packet.header, neighbours, peer, bearer) {
        return Err(why);
    }
    Ok(Due {
        kind,
        bearer,
        peer,
        first: opened.first,
        second: opened.second,
        packet,
    })
}

/// What stops a packet of this kind and header that arrives on a bearer, 0 or 1, from another node, the peer.
fn stop_by_kind(
    kind: FrameKind,
    header: &Header,
    neighbours: &[Option<Neighbour>],
    peer: u8,
    bearer: u8,
) -> Option<Why>
    requires { bearer ≤ 1 }
    ensures { result ≡ stop_by_kind kind header.now bearer (slice_index_or neighbours.now peer None) }
{
    match kind {
        FrameKind::Finds if is_of_network(header) => None,
        FrameKind::Finds => Some(Why::Network),
        FrameKind::Links if has_end(neighbours, peer, bearer) => None,
        FrameKind::Links => Some(Why::Unknown),
        FrameKind::Casts if is_known(neighbours, peer) => None,
        FrameKind::Casts => Some(Why::Unknown),
    }
}

/// The number of the node that a packet names as its sender: None exactly where it names no other of the 32.
#[tactic(auto, unfolding(crate::specs::Nodes::is_other))]
fn sender_of(own: Addr, previous: u32) -> Option<u8>
    ensures other { IfSome result (λ peer. (1 ≤ peer) × (peer ≤ 32) × (previous ≡ node_word peer) ×
        (is_other own.word previous ≡ true)) }
    ensures own { IfNone result (is_other own.word previous ≡ false) }
{
    let previous = Addr { word: previous };
    match previous.number() {
        Some(peer) if previous.word != own.word => Some(peer),
        _ => None,
    }
}

/// Whether there is a link end to the peer, on whatever bearer.
fn is_known(neighbours: &[Option<Neighbour>], peer: u8) -> bool
    ensures { result ≡ is_some (slice_index_or neighbours.now peer None) }
{
    matches!(neighbours.get(peer as usize), Some(Some(_)))
}

/// Whether there is a link end to the peer on a bearer, 0 or 1.
fn has_end(neighbours: &[Option<Neighbour>], peer: u8, bearer: u8) -> bool
    requires { bearer ≤ 1 }
    ensures { result ≡ is_some (end_with bearer (slice_index_or neighbours.now peer None)) }
{
    match neighbours.get(peer as usize) {
        Some(Some(neighbour)) => neighbour.pair.state(bearer).is_some(),
        _ => false,
    }
}

/// What a member of what was given comes to.
#[derive(Drop)]
pub struct Delivery {
    /// Its entry in the journal.
    pub entry: Entry,
    /// Its message once more, for its port, where it has one.
    pub message: Option<Message>,
}

/// The entry of a whole packet that was given in a flow of a contact: its message is delivered, or the packet is
/// dropped where it carries none.
fn delivered_entry(
    flow: Flow,
    peer: u8,
    contact: (u64, u64),
    message: Option<Message>,
    arrivals: Arrivals,
) -> Entry
    requires peer { (1 ≤ peer) × (peer ≤ 32) }
    ensures { result ≡ delivered_by flow peer contact message arrivals }
{
    match message {
        Some(message) => Entry::Delivered {
            peer: Addr::node(peer),
            contact,
            flow,
            message,
            by: arrivals,
        },
        None => Entry::Dropped { place: 0 },
    }
}

/// Whether there is a message, and it is one of name items.
fn is_of_items(message: &Option<Message>) -> bool
    ensures { result ≡ is_of_items message.now }
{
    matches!(message, Some(Message::Items { .. }))
}

/// The message that is delivered in a flow, of one that a packet carries: name items are told to each peer by itself,
/// so none is broadcast. (This project's profile.)
fn in_flow(flow: Flow, message: Option<Message>) -> Option<Message>
    ensures { result ≡ in_flow flow message }
{
    match flow {
        Flow::Zero => message,
        Flow::One => message,
        Flow::Broadcast => { if is_of_items(&message) { None } else { message } }
    }
}

/// What a whole packet comes to that was given in a flow of a contact.
fn whole_delivery(
    alloc: Global,
    flow: Flow,
    peer: u8,
    contact: (u64, u64),
    packet: &[u8],
    by: &Arrivals,
) -> Result<Delivery, NoMemory>
    requires peer { (1 ≤ peer) × (peer ≤ 32) }
    requires sound { fault_of packet.now ≡ None }
    ensures { IfOk result (λ d. d ≡ delivery_of flow peer contact (Whole packet.now by.now)) }
{
    let Ok(packet) = decode(packet) else {
        unreachable!()
    };
    let message = in_flow(flow, message_from(alloc, &packet)?);
    let recorded = message.clone()?;
    Ok(Delivery {
        entry: delivered_entry(flow, peer, contact, recorded, by.clone()?),
        message,
    })
}

/// What a member of what was given in a flow of a contact comes to.
fn delivery_from(
    alloc: Global,
    flow: Flow,
    peer: u8,
    contact: (u64, u64),
    opened: &Opened,
) -> Result<Delivery, NoMemory>
    requires peer { (1 ≤ peer) × (peer ≤ 32) }
    requires sound { HasNoFault opened.now }
    ensures { IfOk result (λ d. d ≡ delivery_of flow peer contact opened.now) }
{
    match opened {
        Opened::Whole { packet, by } => {
            whole_delivery(alloc, flow, peer, contact, packet.as_slice(), by)
        }
        Opened::Passed { place } => Ok(Delivery {
            entry: Entry::Dropped { place: *place },
            message: None,
        }),
    }
}

/// What all that was given in a flow of a contact comes to.
fn deliveries(
    alloc: Global,
    flow: Flow,
    peer: u8,
    contact: (u64, u64),
    opened: &[Opened],
) -> Result<Vec<Delivery>, NoMemory>
    requires peer { (1 ≤ peer) × (peer ≤ 32) }
    requires sound { All HasNoFault opened.now }
    ensures { IfOk result (λ ds. ds.items ≡ deliveries_of flow peer contact opened.now) }
{
    let mut deliveries = Vec::new(alloc);
    for given in opened {
        deliveries.push(delivery_from(alloc, flow, peer, contact, given)?)?;
    }
    Ok(deliveries)
}

/// What all that an arrival gives in a flow of a contact comes to.
pub fn prepare_deliveries(
    alloc: Global,
    flow: Flow,
    peer: u8,
    contact: (u64, u64),
    outcome: &PairOutcome,
) -> Result<Vec<Delivery>, NoMemory>
    requires peer { (1 ≤ peer) × (peer ≤ 32) }
    requires sound { All HasNoFault (opened_in outcome.now) }
    ensures { IfOk result (λ ds. ds.items ≡ deliveries_of flow peer contact (opened_in outcome.now)) }
{
    match outcome {
        PairOutcome::Took(opened) => deliveries(alloc, flow, peer, contact, opened.as_slice()),
        PairOutcome::Deferred => Ok(Vec::new(alloc)),
        PairOutcome::Ignored(_) => Ok(Vec::new(alloc)),
    }
}

/// Whether these entries have room in the step that tells of a call, beside its begin, its end, and two more: exactly
/// where there are 65,532 at most, with 4,194,304 message bytes at most.
///
/// They always have: a call changes the links and the contact of a pair three times at most. What an arrival gives at
/// once came in the packets that were held, 50 at most, and in this one, beside a message that was begun. A frame has
/// at most 1,516 bytes, and each user's message in it has three entries at most in 24 bytes or more, each message of
/// items one more than it has items, of 20 bytes: some ten thousand entries at most, and some 300,000 bytes with the
/// returns. A greeting has 1,024 items at most, in 15 messages.
pub fn fits(entries: &[Entry]) -> bool
    ensures { (result ≡ true) ↔
        ((length entries.now ≤ free_entries - 4) × (sum_by entry_bytes entries.now ≤ free_message_bytes)) }
{
    let mut left = FREE_MESSAGE_BYTES;
    for entry in entries {
        let bytes = entry_bytes(entry);
        if bytes > left {
            return false;
        }
        left -= bytes;
    }
    entries.len() <= MOST_TOLD
}

/// How many messages a delivery has.
fn taken_count(message: &Option<Message>) -> u32
    ensures value { result ≡ taken_count message.now }
    ensures one { result ≤ 1 }
{
    match message {
        Some(_) => 1,
        None => 0,
    }
}

/// How many messages there are.
pub fn message_count(deliveries: &[Delivery]) -> u32
    requires { length deliveries.now ≤ free_entries - 4 }
    ensures { result ≡ message_count deliveries.now }
{
    let mut count = 0;
    for delivery in deliveries {
        count += taken_count(&delivery.message);
    }
    count
}

/// What became of an arrival that gives this, with these deliveries.
pub fn arrival_answer(outcome: &PairOutcome, deliveries: &[Delivery]) -> Arrival
    requires { length deliveries.now ≤ free_entries - 4 }
    ensures { result ≡ arrival_answer outcome.now deliveries.now }
{
    match outcome {
        PairOutcome::Took(_) => Arrival::Took(message_count(deliveries)),
        PairOutcome::Deferred => Arrival::Deferred,
        PairOutcome::Ignored(why) => Arrival::Ignored(*why),
    }
}

/// Whether there are so few deliveries that their entries have room in a step: 65,532 at most.
pub fn are_few(deliveries: &[Delivery]) -> bool
    ensures { (result ≡ true) ↔ (length deliveries.now ≤ free_entries - 4) }
{
    deliveries.len() <= MOST_TOLD
}

/// What a packet will make of a neighbour, what it delivers, and what will have become of it.
#[derive(Drop)]
pub struct Hearing {
    /// The number of the arrival at this node.
    pub number: u64,
    /// What a STATE to the neighbour shows of the broadcast link before the arrival.
    pub shown: BroadcastState,
    /// What it will make of the pair.
    pub arriving: PairArriving,
    /// What it tells of broadcast, where it is a STATE that will be taken.
    pub stated: Option<BroadcastState>,
    /// What it delivers.
    pub deliveries: Vec<Delivery>,
    /// What will have become of it.
    pub answer: Arrival,
}

/// What a packet will make of a neighbour; `number` is the arrival's number at this node, and `shown` is what a STATE
/// to the neighbour shows of the broadcast link. Nothing is changed yet.
pub fn prepare(
    alloc: Global,
    neighbour: &Neighbour,
    number: u64,
    due: &Due<'_>,
    shown: BroadcastState,
) -> Result<Hearing, NoMemory>
    requires peer { (1 ≤ due.now.peer) × (due.now.peer ≤ 32) }
    requires bearer { due.now.bearer ≤ 1 }
    requires fits { Fits (view due.now.packet) }
    ensures number { IfOk result (λ h. h.number ≡ number) }
    ensures shown { IfOk result (λ h. h.shown ≡ shown) }
    ensures prepared { IfOk result (λ h. IsPrepared (Some neighbour.now) due.now h) }
{
    let incoming = Incoming {
        sender_epoch: due.first,
        receiver_epoch: due.second,
        packet: due.packet,
        by: number,
        shown,
    };
    let arriving = neighbour.pair.prepare(alloc, due.bearer, &incoming)?;
    let contact = neighbour.contact_numbers();
    let deliveries = prepare_deliveries(alloc, Flow::Zero, due.peer, contact, arriving.outcome())?;
    if !are_few(deliveries.as_slice()) {
        return Err(NoMemory);
    }
    let answer = arrival_answer(arriving.outcome(), deliveries.as_slice());
    let stated = stated_in(&due.packet.header, arriving.outcome());
    Ok(Hearing {
        number,
        shown,
        arriving,
        stated,
        deliveries,
        answer,
    })
}
