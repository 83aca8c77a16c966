//! Frames that leave a node and come into the air, and those of the air that arrive.

ghost use Rattle.std.specs.Prelude.{All, ◌≡◌, ◌<◌, ◌≤◌, ◌∷◌, ◌⊎◌, [], ℕ, true, false, Some, None, length, drop, is_some, if◌then◌else◌, slice_get, slice_index_or, unwrap_or, IfOk, IfSome, IfNone, IfErr, OnErr, OnOk};
ghost use Rattle.tipc_types.specs.Address.{node_word};
ghost use Rattle.tipc_types.specs.Limits.{most_age};
ghost use Rattle.tipc_outside.specs.Frames.{frames_leaving};
ghost use Rattle.tipc_replay.specs.Air.{airborne, number_of_node, loose, met_in, met_sender, receiver_of, with_leaving, Emits, IsOut};
ghost use Rattle.tipc_replay.specs.Calls.{may_end_contact, node_of};
ghost use Rattle.tipc_replay.specs.Due.{age_of, aging_by_header, aging_of, cast_age, frame_for, is_for, is_state, peer_cast_age, session_age, state_age, unarrived};
ghost use Rattle.tipc_replay.specs.Members.{sender_of};
ghost use Rattle.tipc_replay.specs.Skies.{air_on};
ghost use Rattle.tipc_replay.specs.States.{boot_at, cast_count_at, contact_at, count_at, numbers_at, pair_at};

use crate::air::{Air, Sent};
use crate::events::WorldEvent;
use crate::members::{Member, sender_of};
use std::alloc::Global;
use std::collections::VecDeque;
use tipc_header::{FrameKind, Header, decode, kind_of, open_frame};
use tipc_link::is_traffic;
use tipc_outside::{Outbox, Outgoing};
use tipc_types::{Addr, Answer, NoMemory, To};

/// A frame is too old once more packets than this were numbered since it was sent. (This project's profile.)
const OLDEST: u64 = 30_000;

/// The contacts in which a node is, by peer.
type Contacts = Vec<Option<(u64, u64)>>;

/// The contacts in which a node was before an event, of those that may end in it.
#[derive(Drop)]
pub enum Met {
    /// None may end.
    Lasting,
    /// The contact with the sender of what arrives may end, and no other.
    Sender {
        /// The sender's number.
        peer: u8,
        /// The contact with it.
        contact: Option<(u64, u64)>,
    },
    /// All may end: the contacts by the peer's number.
    Everyone(Contacts),
}

/// The first contact number of the first boot.
const FIRST_CONTACT: u64 = 4_294_967_297;

/// How many packets node `a` has numbered for node `b` on a bearer under an epoch.
#[tactic(auto, unfolding(crate::specs::States::count_at, crate::specs::States::member_at))]
fn count_at(members: &[Option<Member>], a: u8, b: u8, bearer: u8, epoch: u64) -> u64
    ensures { result ≡ count_at members.now a b bearer epoch }
{
    match members.get(a as usize) {
        Some(Some(member)) => member.count(b, bearer, epoch),
        _ => 0,
    }
}

/// How many numbers the broadcast link of node `n` used in a boot.
#[tactic(auto, unfolding(crate::specs::States::cast_count_at, crate::specs::States::member_at))]
fn cast_count_at(members: &[Option<Member>], n: u8, boot: u64) -> u64
    ensures { result ≡ cast_count_at members.now n boot }
{
    match members.get(n as usize) {
        Some(Some(member)) => member.cast_count(boot),
        _ => 0,
    }
}

/// The boot of node `n`; one that isn't there counts as one that has just begun its first.
#[tactic(auto, unfolding(crate::specs::States::boot_at, crate::specs::States::member_at))]
fn boot_at(members: &[Option<Member>], n: u8) -> u32
    ensures { result ≡ boot_at members.now n }
{
    match members.get(n as usize) {
        Some(Some(member)) => member.node().boot(),
        _ => 1,
    }
}

/// How many numbers the broadcast link of node `n` used in its present boot.
fn cast_now(members: &[Option<Member>], n: u8) -> u64
    ensures { result ≡ cast_count_at members.now n (boot_at members.now n) }
{
    cast_count_at(members, n, u64::from(boot_at(members, n)))
}

/// The contact number of node `a` for node `b`, and the highest that it was shown.
#[tactic(auto, unfolding(crate::specs::States::boot_at, crate::specs::States::pair_at, crate::specs::States::member_at))]
fn contact_numbers(members: &[Option<Member>], a: u8, b: u8) -> (u64, u64)
    ensures { result ≡ numbers_at members.now a b }
{
    match members.get(a as usize) {
        Some(Some(member)) => member.contact_numbers(b),
        _ => (FIRST_CONTACT, 0),
    }
}

/// The contact in which node `a` is with node `b`.
#[tactic(auto, unfolding(crate::specs::States::contact_at, crate::specs::States::pair_at, crate::specs::States::member_at))]
pub fn contact_at(members: &[Option<Member>], a: u8, b: u8) -> Option<(u64, u64)>
    ensures { result ≡ contact_at members.now a b }
{
    match members.get(a as usize) {
        Some(Some(member)) => member.contact(b),
        _ => None,
    }
}

/// The contacts in which node `a` is, by peer.
fn contacts_of(members: &[Option<Member>], alloc: Global, a: u8) -> Result<Contacts, NoMemory>
    ensures each { IfOk result (λ met. (b : ℕ) → b ≤ 32 → slice_index_or met.items b None ≡
        contact_at members.now a b) }
    ensures few { IfOk result (λ met. length met.items ≡ 33) }
{
    let mut met = Vec::new(alloc);
    met.reserve(33)?;
    for b in 0..33_u8 {
        met.push_reserved(contact_at(members, a, b));
    }
    Ok(met)
}

/// The contacts that may end in an event other than an arrival, before it: all that its node has, or none.
pub fn met_before(
    members: &[Option<Member>],
    alloc: Global,
    event: &WorldEvent,
) -> Result<Met, NoMemory>
    ensures each { IfOk result (λ met. (b : ℕ) → b ≤ 32 → met_in met b ≡
        (if may_end_contact event.now then contact_at members.now (node_of event.now) b else None)) }
    ensures beyond { IfOk result (λ met. (b : ℕ) → 32 < b → met_in met b ≡ None) }
{
    if !event.may_end_contact() {
        return Ok(Met::Lasting);
    }
    let contacts = contacts_of(members, alloc, event.node())?;
    Ok(Met::Everyone(contacts))
}

/// The contact of node `a` that may end as a frame arrives: that with the sender that the frame names.
pub fn met_sender(members: &[Option<Member>], a: u8, frame: &[u8]) -> Met
    ensures { result ≡ met_sender members.now a (sender_of frame.now) }
{
    match sender_of(frame) {
        Some(peer) => Met::Sender {
            peer,
            contact: contact_at(members, a, peer),
        },
        None => Met::Lasting,
    }
}

/// The contact in which a node was with a peer, where it may end.
fn met_with(met: &Met, b: u8) -> Option<(u64, u64)>
    ensures { result ≡ met_in met.now b }
{
    match met {
        Met::Lasting => None,
        Met::Sender { peer, contact } => { if b == *peer { *contact } else { None } }
        Met::Everyone(contacts) => match contacts.get(b as usize) {
            Some(contact) => *contact,
            None => None,
        },
    }
}

// ---- the age of a frame

/// What the age of a frame is counted by.
#[derive(Clone, Copy)]
pub enum Aging {
    /// Nothing: it is never too old.
    Never,
    /// The broadcast link of its sender in a boot.
    Cast {
        /// The boot, which is the first number of the envelope.
        boot: u64,
    },
    /// Its session.
    Numbered {
        /// The sender's epoch.
        sender: u64,
        /// The receiver's epoch.
        receiver: u64,
    },
    /// Its session, and the broadcast links of both nodes: a STATE speaks of all three.
    State {
        /// The sender's epoch.
        sender: u64,
        /// The receiver's epoch.
        receiver: u64,
    },
}

/// Whether a packet is a STATE.
fn is_state(header: &Header) -> bool
    ensures { result ≡ is_state header.now }
{
    match header {
        Header::State(_) => true,
        _ => false,
    }
}

/// What the age of a link packet is counted by: that of a STATE or a numbered packet alone grows.
fn aging_by_header(sender: u64, receiver: u64, header: &Header) -> Aging
    ensures { result ≡ aging_by_header sender receiver header.now }
{
    if !is_traffic(header) {
        return Aging::Never;
    }
    if is_state(header) {
        return Aging::State { sender, receiver };
    }
    Aging::Numbered { sender, receiver }
}

/// What the age of a frame is counted by.
fn aging_of(frame: &[u8]) -> Aging
    ensures { result ≡ aging_of frame.now }
{
    let Some(opened) = open_frame(frame) else {
        return Aging::Never;
    };
    let Ok(packet) = decode(opened.packet) else {
        return Aging::Never;
    };
    match kind_of(opened.first, &packet.header) {
        FrameKind::Finds => Aging::Never,
        FrameKind::Casts => Aging::Cast { boot: opened.first },
        FrameKind::Links => aging_by_header(opened.first, opened.second, &packet.header),
    }
}

/// The number of the node that sent a frame.
fn sender_number(sent: &Sent) -> u8
    requires { (n_from : ℕ) × (1 ≤ n_from) × (n_from ≤ 32) × (sent.now.from.word ≡ node_word n_from) }
    ensures { result ≡ number_of_node sent.now.from.word }
{
    let Some(from) = sent.from.number() else {
        unreachable!()
    };
    from
}

/// How many packets were numbered since a frame was sent to node `n` on a bearer, in that bearer's session of two
/// epochs, the sender's and the receiver's: the larger number of its two directions.
fn session_age(
    members: &[Option<Member>],
    sent: &Sent,
    n: u8,
    bearer: u8,
    sender: u64,
    receiver: u64,
) -> u64
    requires sender { (n_from : ℕ) × (1 ≤ n_from) × (n_from ≤ 32) × (sent.now.from.word ≡ node_word n_from) }
    ensures { result ≡ session_age members.now sent.now n bearer sender receiver }
{
    let from = sender_number(sent);
    let own = count_at(members, from, n, bearer, sender).saturating_sub(sent.numbered);
    let peer = count_at(members, n, from, bearer, receiver).saturating_sub(sent.peer_numbered);
    own.max(peer)
}

/// How many numbers the broadcast link of its sender used in a boot since a frame was sent.
fn cast_age(members: &[Option<Member>], sent: &Sent, boot: u64) -> u64
    requires { (n_from : ℕ) × (1 ≤ n_from) × (n_from ≤ 32) × (sent.now.from.word ≡ node_word n_from) }
    ensures { result ≡ cast_age members.now sent.now boot }
{
    cast_count_at(members, sender_number(sent), boot).saturating_sub(sent.casts)
}

/// How many numbers the broadcast link of node `n` used since a frame was sent to it, in the boot of then.
fn peer_cast_age(members: &[Option<Member>], sent: &Sent, n: u8) -> u64
    ensures { result ≡ peer_cast_age members.now sent.now n }
{
    cast_count_at(members, n, u64::from(sent.peer_boot)).saturating_sub(sent.peer_casts)
}

/// The largest of these numbers, which is the age of a STATE. The sender's boot is that of the first epoch.
fn state_age(
    members: &[Option<Member>],
    sent: &Sent,
    n: u8,
    bearer: u8,
    sender: u64,
    receiver: u64,
) -> u64
    requires { (n_from : ℕ) × (1 ≤ n_from) × (n_from ≤ 32) × (sent.now.from.word ≡ node_word n_from) }
    ensures { result ≡ state_age members.now sent.now n bearer sender receiver }
{
    let session = session_age(members, sent, n, bearer, sender, receiver);
    let own = cast_age(members, sent, sender >> 32);
    let peer = peer_cast_age(members, sent, n);
    session.max(own.max(peer))
}

/// Whether a frame that was sent to node `n` on a bearer would be too old, whatever its packet is. That isn't read.
fn may_be_too_old(members: &[Option<Member>], sent: &Sent, n: u8, bearer: u8) -> bool
    requires { (n_from : ℕ) × (1 ≤ n_from) × (n_from ≤ 32) × (sent.now.from.word ≡ node_word n_from) }
    ensures { result ≡ false → age_of members.now sent.now n bearer ≤ most_age }
{
    let Some(opened) = open_frame(sent.frame.as_slice()) else {
        return false;
    };
    state_age(members, sent, n, bearer, opened.first, opened.second) > OLDEST
        || cast_age(members, sent, opened.first) > OLDEST
}

/// The age of a frame that was sent to node `n` on a bearer.
#[tactic(auto, unfolding(crate::specs::Due::age_of))]
fn age_of(members: &[Option<Member>], sent: &Sent, n: u8, bearer: u8) -> u64
    requires { (n_from : ℕ) × (1 ≤ n_from) × (n_from ≤ 32) × (sent.now.from.word ≡ node_word n_from) }
    ensures { result ≡ age_of members.now sent.now n bearer }
{
    match aging_of(sent.frame.as_slice()) {
        Aging::Never => 0,
        Aging::Cast { boot } => cast_age(members, sent, boot),
        Aging::Numbered { sender, receiver } => {
            session_age(members, sent, n, bearer, sender, receiver)
        }
        Aging::State { sender, receiver } => {
            state_age(members, sent, n, bearer, sender, receiver)
        }
    }
}

// ---- the frame that arrives

/// Whether a frame from an address is for a node: one to all is for each node but its sender.
pub fn is_for(from: Addr, to: To, node: u8) -> bool
    requires { (1 ≤ node) × (node ≤ 32) }
    ensures { result ≡ is_for from to node }
{
    match to {
        To::Node(address) => address.word == Addr::node(node).word,
        To::All => from.word != Addr::node(node).word,
    }
}

/// The frame of that place in a bearer's air, where it is for the node.
#[tactic(auto, unfolding(crate::specs::Due::frame_for))]
fn frame_for(air: &Air, node: u8, bearer: u8, place: u64) -> Option<&Sent>
    requires { (1 ≤ node) × (node ≤ 32) }
    ensures some { IfSome result (λ f. frame_for air.now node bearer place ≡ Some f.now) }
    ensures none { IfNone result (frame_for air.now node bearer place ≡ None) }
{
    let sent = air.frame(bearer, place)?;
    if !is_for(sent.from, sent.to, node) {
        return None;
    }
    Some(sent)
}

/// The frame of that place in a bearer's air that arrives at a node, or the answer where none does: NoFrame exactly
/// where there is none for that node, TooOld exactly where its age is more than 30,000 (`age_of`): the largest count of
/// numbers, of those that the frame speaks of, that were used since it was sent.
#[tactic(auto, unfolding(crate::specs::Due::unarrived))]
pub fn find<'a>(
    members: &[Option<Member>],
    air: &'a Air,
    node: u8,
    bearer: u8,
    place: u64,
) -> Result<&'a Sent, Answer>
    requires number { (1 ≤ node) × (node ≤ 32) }
    requires senders { (k : ℕ) (f : Sent) → slice_get (air_on bearer air.now) k ≡ Some f →
        (n : ℕ) × (1 ≤ n) × (n ≤ 32) × (f.from.word ≡ node_word n) }
    ensures found { IfOk result (λ f. (frame_for air.now node bearer place ≡ Some f.now)
        × (unarrived members.now air.now node bearer place ≡ None)) }
    ensures none { IfErr result (λ why. unarrived members.now air.now node bearer place ≡ Some why) }
{
    let Some(sent) = frame_for(air, node, bearer, place) else {
        return Err(Answer::NoFrame);
    };
    if !may_be_too_old(members, sent, node, bearer) {
        return Ok(sent);
    }
    let age = age_of(members, sent, node, bearer);
    if age > OLDEST {
        return Err(Answer::TooOld(age));
    }
    Ok(sent)
}

// ---- frames that leave

/// The contact that stands beside a frame from node `a` to a node: that in which it was before, where it may have
/// ended, or else its contact numbers.
fn told_in(members: &[Option<Member>], met: &Met, a: u8, to: u8) -> (u64, u64)
    ensures { result ≡ unwrap_or (met_in met.now to) (numbers_at members.now a to) }
{
    match met_with(met, to) {
        Some(contact) => contact,
        None => contact_numbers(members, a, to),
    }
}

/// The number of the node that a frame of node `a` is for; 0 where it is for all.
#[tactic(auto, using(crate::proofs::frames::Routes::to_number))]
fn receiver_of(outgoing: &Outgoing, a: u8) -> u8
    requires { IsOut a outgoing.now }
    ensures { result ≡ receiver_of outgoing.now.to }
{
    let To::Node(address) = outgoing.to else {
        return 0;
    };
    let Some(number) = address.number() else {
        unreachable!()
    };
    number
}

/// The frame that leaves node `a`, as the air keeps it.
fn airborne(members: &[Option<Member>], met: &Met, a: u8, outgoing: Outgoing) -> Sent
    requires number { (1 ≤ a) × (a ≤ 32) }
    requires outward { IsOut a outgoing }
    ensures { result ≡ airborne (met_in met.now) members.now a outgoing }
{
    let to = receiver_of(&outgoing, a);
    let Some(opened) = open_frame(outgoing.frame.as_slice()) else {
        unreachable!()
    };
    let (first, second) = (opened.first, opened.second);
    Sent {
        from: Addr::node(a),
        to: outgoing.to,
        contact: told_in(members, met, a, to),
        numbered: count_at(members, a, to, outgoing.bearer, first),
        peer_numbered: count_at(members, to, a, outgoing.bearer, second),
        casts: cast_now(members, a),
        peer_boot: boot_at(members, to),
        peer_casts: cast_now(members, to),
        frame: outgoing.frame,
    }
}

/// Brings a frame that leaves node `a` into the air of its bearer.
///
/// # Errors
///
/// NoMemory, and then nothing is changed.
fn release_one(
    members: &[Option<Member>],
    met: &Met,
    air: &mut Air,
    a: u8,
    outgoing: Outgoing,
) -> Result<(), NoMemory>
    requires number { (1 ≤ a) × (a ≤ 32) }
    requires outward { IsOut a outgoing }
    ensures came { OnOk result (air.new ≡ with_leaving air.old (met_in met.now) members.now a (outgoing ∷ [])) }
    ensures err { OnErr result (air.new ≡ air.old) }
{
    let bearer = outgoing.bearer;
    let sent = airborne(members, met, a, outgoing);
    air.push(bearer, sent)
}

/// Brings frames that leave node `a` into the air, in order, up to one that finds no memory. It answers whether there
/// was one.
fn release(
    members: &[Option<Member>],
    met: &Met,
    air: &mut Air,
    a: u8,
    frames: Vec<Outgoing>,
) -> bool
    requires number { (1 ≤ a) × (a ≤ 32) }
    requires outward { All (IsOut a) frames.items }
    ensures { Emits air.old air.new (met_in met.now) members.now a
        (loose frames.items) result }
{
    let mut waiting = VecDeque::from_vec(frames);
    while let Some(outgoing) = waiting.pop_front() {
        let Ok(()) = release_one(members, met, air, a, outgoing) else {
            return true;
        };
    }
    false
}

/// Brings what left node `a` in an event into the air. Before it the node was in these contacts, of those that may end
/// in it. It answers whether a frame was lost for want of memory.
#[tactic(auto, using(crate::proofs::frames::Released::emits_boxed))]
pub fn emit(members: &[Option<Member>], met: &Met, air: &mut Air, a: u8, out: Outbox) -> bool
    requires number { (1 ≤ a) × (a ≤ 32) }
    requires outward { All (IsOut a) (frames_leaving out) }
    ensures { Emits air.old air.new (met_in met.now) members.now a out result }
{
    let lost = out.lost();
    let unreleased = release(members, met, air, a, out.into_frames());
    lost || unreleased
}
