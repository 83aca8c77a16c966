//! Packets to bytes.

ghost use Rattle.std.specs.Prelude.{◌≡◌, ◌+◌, ◌*◌, ◌≤◌, ◌++◌, length, OnOk, OnErr, vec_len, vec_capacity};
ghost use Rattle.tipc_header.specs.Users.{is_destination_droppable, is_source_droppable};
ghost use Rattle.tipc_header.specs.Spelling.{view, bit, below_type, word, words, word_0, word_1, word_2, two_words, addressing_words, state_words, reset_words, changeover_words, user_words, number_words, spelling};
ghost use Rattle.tipc_header.specs.Grammar.{StateFits, ResetFits, ChangeoverFits, HeaderFits, Fits};

use crate::packet::{Addressing, Changeover, Header, Packet, Reset, State};
use std::alloc::AllocError;

/// A flag as a bit.
fn bit_of(flag: bool) -> u32
    ensures { result ≡ bit flag }
{
    if flag { 1 } else { 0 }
}

/// The destination-droppable bit of word 0.
fn destination_droppable(header: &Header) -> u32
    ensures { result ≡ bit (is_destination_droppable header.now) }
{
    match header {
        Header::Payload(payload) => bit_of(payload.destination_droppable),
        _ => 0,
    }
}

/// The source-droppable bit of word 0.
fn source_droppable(header: &Header) -> u32
    ensures { result ≡ bit (is_source_droppable header.now) }
{
    match header {
        Header::Payload(payload) => bit_of(payload.source_droppable),
        _ => 0,
    }
}

/// Word 0: version, user, header size, the three flags and the message size.
#[tactic(auto, unfolding(crate::specs::Spelling::word_0))]
fn first_word(packet: &Packet<'_>) -> u32
    requires { Fits (view packet.now) }
    ensures { result ≡ word_0 (view packet.now) }
{
    let header = &packet.header;
    (2 << 29)
        + (u32::from(header.user()) << 25)
        + ((header.words() as u32) << 21)
        + (bit_of(header.is_non_sequenced()) << 20)
        + (destination_droppable(header) << 19)
        + (source_droppable(header) << 18)
        + packet.size() as u32
}

/// Word 1: the type, and what each user has below it.
#[tactic(auto, unfolding(crate::specs::Spelling::word_1))]
fn second_word(header: &Header) -> u32
    requires { HeaderFits header.now }
    ensures { result ≡ word_1 header.now }
{
    (u32::from(header.message_type()) << 29) + below_type(header)
}

/// Word 1 without the type.
fn below_type(header: &Header) -> u32
    requires { HeaderFits header.now }
    ensures { result ≡ below_type header.now }
{
    match header {
        Header::Payload(payload) => {
            (u32::from(payload.error_code) << 25)
                + (u32::from(payload.reroute_count) << 21)
                + (u32::from(payload.lookup_scope) << 19)
                + u32::from(payload.broadcast_acknowledgement)
        }
        Header::State(state) => {
            (u32::from(state.gap) << 16) + u32::from(state.broadcast_acknowledgement)
        }
        Header::Bundler(bundle) => u32::from(bundle.broadcast_acknowledgement),
        Header::Changeover(changeover) => u32::from(changeover.broadcast_acknowledgement),
        Header::NameDistributor(distribution) => u32::from(distribution.broadcast_acknowledgement),
        Header::Fragmenter(fragment) => u32::from(fragment.broadcast_acknowledgement),
        Header::Reset(_) | Header::Activate(_) | Header::Discovery(_) => 0,
    }
}

/// Word 2: the acknowledgement and the packet's own number.
#[tactic(auto, unfolding(crate::specs::Spelling::word_2))]
fn third_word(packet: &Packet<'_>) -> u32
    ensures { result ≡ word_2 (view packet.now) }
{
    (u32::from(packet.acknowledgement) << 16) + u32::from(packet.sequence)
}

/// Appends these bytes, for which there is room.
pub(crate) fn put_bytes(into: &mut Vec<u8>, bytes: &[u8])
    requires { vec_len into.old + length bytes.now ≤ vec_capacity into.old }
    ensures items { into.new.items ≡ into.old.items ++ bytes.now }
    ensures len { vec_len into.new ≡ vec_len into.old + length bytes.now }
    ensures room { vec_capacity into.old ≤ vec_capacity into.new }
{
    match into.extend_from_slice(bytes) {
        Ok(()) => {}
        Err(_) => unreachable!(),
    }
}

/// Appends a word.
#[tactic(auto, unfolding(crate::specs::Spelling::word))]
fn put_word(into: &mut Vec<u8>, number: u32)
    requires { vec_len into.old + 4 ≤ vec_capacity into.old }
    ensures items { into.new.items ≡ into.old.items ++ word number }
    ensures len { vec_len into.new ≡ vec_len into.old + 4 }
    ensures room { vec_capacity into.old ≤ vec_capacity into.new }
{
    let bytes = number.to_be_bytes();
    into.push_reserved(bytes[0]);
    into.push_reserved(bytes[1]);
    into.push_reserved(bytes[2]);
    into.push_reserved(bytes[3]);
}

/// Appends these words, for which there is room.
pub(crate) fn put_words(into: &mut Vec<u8>, numbers: &[u32])
    requires { vec_len into.old + 4 * length numbers.now ≤ vec_capacity into.old }
    ensures items { into.new.items ≡ into.old.items ++ words numbers.now }
    ensures len { vec_len into.new ≡ vec_len into.old + 4 * length numbers.now }
    ensures room { vec_capacity into.old ≤ vec_capacity into.new }
{
    for number in numbers {
        put_word(into, *number);
    }
}

/// Appends a number of 64 bits.
pub(crate) fn put_long(into: &mut Vec<u8>, number: u64)
    requires { vec_len into.old + 8 ≤ vec_capacity into.old }
    ensures items { into.new.items ≡ into.old.items ++ words (two_words number) }
    ensures len { vec_len into.new ≡ vec_len into.old + 8 }
    ensures room { vec_capacity into.old ≤ vec_capacity into.new }
{
    put_words(into, &[(number >> 32) as u32, (number % (1 << 32)) as u32]);
}

/// Appends the words of payload from word 6 on.
fn put_addressing(into: &mut Vec<u8>, addressing: &Addressing)
    requires { vec_len into.old + 4 * length (addressing_words addressing.now) ≤ vec_capacity into.old }
    ensures items { into.new.items ≡ into.old.items ++ words (addressing_words addressing.now) }
    ensures len { vec_len into.new ≡ vec_len into.old + 4 * length (addressing_words addressing.now) }
    ensures room { vec_capacity into.old ≤ vec_capacity into.new }
{
    match *addressing {
        Addressing::Connected => {}
        Addressing::Multicast {
            origin_node,
            destination_node,
            name_type,
            lower,
            upper,
        } => {
            put_words(
                into,
                &[origin_node, destination_node, name_type, lower, upper],
            );
        }
        Addressing::Named {
            origin_node,
            destination_node,
            name_type,
            instance,
        } => {
            put_words(into, &[origin_node, destination_node, name_type, instance]);
        }
        Addressing::Direct {
            origin_node,
            destination_node,
        } => {
            put_words(into, &[origin_node, destination_node]);
        }
    }
}

/// Appends the words of a STATE from word 4 on.
fn put_state(into: &mut Vec<u8>, state: &State)
    requires fits { StateFits state.now }
    requires room { vec_len into.old + 24 ≤ vec_capacity into.old }
    ensures items { into.new.items ≡ into.old.items ++ words (state_words state.now) }
    ensures len { vec_len into.new ≡ vec_len into.old + 24 }
    ensures room { vec_capacity into.old ≤ vec_capacity into.new }
{
    let numbers = (u32::from(state.next) << 16) + u32::from(state.broadcast_next);
    let broadcast = (u32::from(state.broadcast_start) << 16) + u32::from(state.broadcast_gap);
    let about = (u32::from(state.priority) << 2)
        + (bit_of(state.in_step) << 1)
        + bit_of(state.probe);
    put_words(
        into,
        &[numbers, broadcast, 0, state.destination_node, about, 0],
    );
}

/// Appends the words of a RESET or an ACTIVATE from word 4 on, and its contact numbers.
fn put_reset(into: &mut Vec<u8>, reset: &Reset)
    requires fits { ResetFits reset.now }
    requires room { vec_len into.old + 40 ≤ vec_capacity into.old }
    ensures items { into.new.items ≡ into.old.items ++ words (reset_words reset.now ++
        (two_words reset.now.contact ++ two_words reset.now.peer_contact)) }
    ensures len { vec_len into.new ≡ vec_len into.old + 40 }
    ensures room { vec_capacity into.old ≤ vec_capacity into.new }
{
    put_words(
        into,
        &[
            0,
            0,
            0,
            reset.destination_node,
            u32::from(reset.priority) << 2,
            0,
        ],
    );
    put_long(into, reset.contact);
    put_long(into, reset.peer_contact);
}

/// Appends the words of a tunnel packet from word 4 on, and the epoch of the other link.
fn put_changeover(into: &mut Vec<u8>, changeover: &Changeover)
    requires fits { ChangeoverFits changeover.now }
    requires room { vec_len into.old + 32 ≤ vec_capacity into.old }
    ensures items { into.new.items ≡ into.old.items ++ words (changeover_words changeover.now ++
        two_words changeover.now.old_epoch) }
    ensures len { vec_len into.new ≡ vec_len into.old + 32 }
    ensures room { vec_capacity into.old ≤ vec_capacity into.new }
{
    let numbers = (u32::from(changeover.count) << 16) + u32::from(changeover.inner_number);
    put_words(
        into,
        &[numbers, u32::from(changeover.old_bearer), 0, 0, 0, 0],
    );
    put_long(into, changeover.old_epoch);
}

/// Appends the words from word 4 on, and the numbers behind them.
fn put_header(into: &mut Vec<u8>, header: &Header)
    requires fits { HeaderFits header.now }
    requires room { vec_len into.old + 4 * length (user_words header.now ++
        number_words header.now) ≤ vec_capacity into.old }
    ensures items { into.new.items ≡ into.old.items ++ words (user_words header.now ++ number_words header.now) }
    ensures len { vec_len into.new ≡ vec_len into.old + 4 * length (user_words header.now ++ number_words header.now) }
    ensures room { vec_capacity into.old ≤ vec_capacity into.new }
{
    match header {
        Header::Payload(payload) => {
            put_words(into, &[payload.origin_port, payload.destination_port]);
            put_addressing(into, &payload.addressing);
        }
        Header::Bundler(bundle) => put_words(into, &[u32::from(bundle.count) << 16, 0, 0, 0, 0, 0]),
        Header::State(state) => put_state(into, state),
        Header::Reset(reset) => put_reset(into, reset),
        Header::Activate(activate) => put_reset(into, activate),
        Header::Changeover(changeover) => put_changeover(into, changeover),
        Header::NameDistributor(_) => put_words(into, &[0, 0, 0, 0, 0, 0]),
        Header::Fragmenter(fragment) => put_words(
            into,
            &[u32::from(fragment.number), 0, 0, 0, 0, 0],
        ),
        Header::Discovery(discovery) => put_words(into, &[discovery.network, 0, 0, 0, 0, 0]),
    }
}

/// Appends the one spelling of a packet.
///
/// # Errors
///
/// `AllocError` where memory runs out; the bytes in `into` are then as they were.
#[tactic(auto, unfolding(crate::specs::Spelling::spelling))]
pub fn encode(packet: &Packet<'_>, into: &mut Vec<u8>) -> Result<(), AllocError>
    requires { Fits (view packet.now) }
    ensures ok { OnOk result (into.new.items ≡ into.old.items ++ spelling (view packet.now)) }
    ensures err { OnErr result (into.new.items ≡ into.old.items) }
{
    into.reserve(packet.size())?;
    let front = [
        first_word(packet),
        second_word(&packet.header),
        third_word(packet),
        packet.previous,
    ];
    put_words(into, &front);
    put_header(into, &packet.header);
    put_bytes(into, packet.rest);
    Ok(())
}
