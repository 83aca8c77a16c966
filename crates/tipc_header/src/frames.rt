//! Frames: an envelope of 16 bytes and one packet.

ghost use Rattle.std.specs.Prelude.{◌≡◌, ◌+◌, [], ◌∷◌, take, drop, ◌^◌, ◌<◌, ◌≤◌, ◌⊎◌, ◌↔◌, ◌++◌, List, ℕ, length, IfOk, IfSome, IsNone, vec_len, vec_capacity};
ghost use Rattle.tipc_header.specs.Grammar.{Fits};
ghost use Rattle.tipc_header.specs.Spelling.{from_bit, spelling, view, words};
ghost use Rattle.tipc_header.specs.Frames.{envelope, first_of, frame_of, kind_of, stamped};
ghost use Rattle.tipc_header.specs.Reading.{long_at};

use crate::bits::long;
use crate::encoding::{encode, put_bytes, put_long, put_words};
use crate::packet::{Header, Packet};
use std::alloc::{AllocError, Global};

/// The most bytes of a frame: an envelope and a packet of 1,500 bytes. (This project's profile.)
pub const MOST_FRAME_BYTES: usize = 1_516;

/// A frame that was opened. For a link packet the numbers are the sender's link epoch, and the receiver's as the
/// sender knows it, or 0. (This project's profile.)
#[derive(Clone, Copy, Debug, PartialEq, Eq)]
pub struct Frame<'a> {
    /// The first number of the envelope.
    pub first: u64,
    /// The second number of the envelope.
    pub second: u64,
    /// The packet's bytes.
    pub packet: &'a [u8],
}

/// What kind a frame is, by the first number of its envelope and the header of its packet. (This project's profile.)
#[derive(Clone, Copy, Debug, PartialEq, Eq)]
pub enum FrameKind {
    /// A discovery packet, by which nodes find one another.
    Finds,
    /// A broadcast packet, which a node casts to all of its peers: payload or a fragment, under the boot number of its
    /// sender.
    Casts,
    /// A link packet: every other one. Those that a link sends are under its epoch, which is 2^32 or more.
    Links,
}

/// The lowest number that can be an epoch: the boot number, from 1 on, is above the 32 lower bits.
const LEAST_EPOCH: u64 = 4_294_967_296;

/// What kind a packet with this header is, under an envelope with this first number.
pub fn kind_of(first: u64, header: &Header) -> FrameKind
    ensures { result ≡ kind_of first header.now }
{
    match header {
        Header::Discovery(_) => FrameKind::Finds,
        Header::Payload(_) | Header::Fragmenter(_) if first < LEAST_EPOCH => FrameKind::Casts,
        _ => FrameKind::Links,
    }
}

/// Opens a frame: None exactly where it has fewer than 16 bytes or more than 1,516.
pub fn open_frame(bytes: &[u8]) -> Option<Frame<'_>>
    ensures none { IsNone result ↔ ((length bytes.now < 16) ⊎ (1516 < length bytes.now)) }
    ensures some { IfSome result (λ f. bytes.now ≡ frame_of f.first f.second f.packet.now) }
    ensures places { IfSome result (λ f. (f.first ≡ first_of bytes.now) × (f.second ≡ long_at 2 bytes.now) ×
        (f.packet.now ≡ drop 16 bytes.now)) }
{
    if bytes.len() < 16 || bytes.len() > MOST_FRAME_BYTES {
        return None;
    }
    Some(Frame {
        first: long(bytes, 0),
        second: long(bytes, 2),
        packet: &bytes[16..],
    })
}

/// Word 2 of a packet.
fn numbers_word(acknowledgement: u16, sequence: u16) -> u32
    ensures { result ≡ from_bit 16 acknowledgement + sequence }
{
    (u32::from(acknowledgement) << 16) + u32::from(sequence)
}

/// Appends an envelope, for which there is room.
#[tactic(auto, unfolding(crate::specs::Frames::envelope))]
fn put_envelope(into: &mut Vec<u8>, first: u64, second: u64)
    requires { vec_len into.old + 16 ≤ vec_capacity into.old }
    ensures items { into.new.items ≡ into.old.items ++ envelope first second }
    ensures len { vec_len into.new ≡ vec_len into.old + 16 }
    ensures room { vec_capacity into.old ≤ vec_capacity into.new }
{
    put_long(into, first);
    put_long(into, second);
}

/// Appends a packet with these words 2 and 3, for which there is room.
fn put_stamped(into: &mut Vec<u8>, packet: &[u8], numbers: u32, previous: u32)
    requires words { 16 ≤ length packet.now }
    requires room { vec_len into.old + length packet.now ≤ vec_capacity into.old }
    ensures { into.new.items ≡ into.old.items ++ (take 8 packet.now ++
        (words (numbers ∷ previous ∷ []) ++ drop 16 packet.now)) }
{
    put_bytes(into, &packet[..8]);
    put_words(into, &[numbers, previous]);
    put_bytes(into, &packet[16..]);
}

/// The frame of a packet.
pub fn encode_frame(
    alloc: Global,
    first: u64,
    second: u64,
    packet: &Packet<'_>,
) -> Result<Vec<u8>, AllocError>
    requires { Fits (view packet.now) }
    ensures { IfOk result (λ frame. frame.items ≡ frame_of first second (spelling (view packet.now))) }
{
    let mut frame = Vec::with_capacity(alloc, 16 + packet.size())?;
    put_envelope(&mut frame, first, second);
    encode(packet, &mut frame)?;
    Ok(frame)
}

/// The frame of a packet whose bytes are given, with these words 2 and 3 in place of its own.
#[tactic(auto, unfolding(crate::specs::Frames::stamped))]
pub fn stamp_frame(
    alloc: Global,
    first: u64,
    second: u64,
    packet: &[u8],
    acknowledgement: u16,
    sequence: u16,
    previous: u32,
) -> Result<Vec<u8>, AllocError>
    requires { 16 ≤ length packet.now }
    ensures { IfOk result (λ frame. frame.items ≡ frame_of first second
        (stamped acknowledgement sequence previous packet.now)) }
{
    let mut frame = Vec::with_capacity(alloc, 16 + packet.len())?;
    put_envelope(&mut frame, first, second);
    put_stamped(
        &mut frame,
        packet,
        numbers_word(acknowledgement, sequence),
        previous,
    );
    Ok(frame)
}
