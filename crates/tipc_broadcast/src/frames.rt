//! The frames of broadcast packets.

ghost use Rattle.std.specs.Prelude.{◌≡◌, ◌≤◌, All, IfOk, length, map};
ghost use Rattle.tipc_broadcast.specs.Frames.{accepted_frame, numbered_frame};

use std::alloc::{AllocError, Global};
use tipc_header::stamp_frame;
use tipc_types::{Addr, Bytes, Pieces};

/// The frame of a packet of this boot of a node for these members, before it has a number.
fn accepted_frame(
    alloc: Global,
    own: Addr,
    boot: u32,
    members: u32,
    packet: &[u8],
) -> Result<Bytes, AllocError>
    requires { 16 ≤ length packet.now }
    ensures { IfOk result (λ frame. frame ≡ accepted_frame own.word boot members packet.now) }
{
    let frame = stamp_frame(
        alloc,
        u64::from(boot),
        u64::from(members),
        packet,
        0,
        0,
        own.word,
    )?;
    Ok(Bytes::from_vec(frame))
}

/// The frames of packets of this boot of a node for these members, before they have numbers.
pub(crate) fn accepted_frames(
    alloc: Global,
    own: Addr,
    boot: u32,
    members: u32,
    pieces: &Pieces,
) -> Result<Pieces, AllocError>
    requires { All (λ piece. 16 ≤ length piece) pieces.now }
    ensures { IfOk result (λ frames. frames ≡ map (accepted_frame own.word boot members) pieces.now) }
{
    let mut frames = Vec::new(alloc);
    for piece in pieces.as_slice() {
        frames.push(accepted_frame(alloc, own, boot, members, piece.as_slice())?)?;
    }
    Ok(Pieces::from_vec(frames))
}

/// The frame with a number, which is word 2 of the packet behind the envelope: it acknowledges nothing.
#[tactic(auto, unfolding(crate::specs::Frames::numbered_frame))]
pub(crate) fn numbered_frame(alloc: Global, number: u16, frame: &[u8]) -> Result<Bytes, AllocError>
    requires { 32 ≤ length frame.now }
    ensures { IfOk result (λ numbered. numbered ≡ numbered_frame number frame.now) }
{
    let front = &frame[..24];
    let behind = &frame[28..];
    let word = u32::from(number).to_be_bytes();
    let mut numbered = Vec::with_capacity(alloc, frame.len())?;
    numbered.extend_from_slice(front)?;
    numbered.extend_from_slice(&word)?;
    numbered.extend_from_slice(behind)?;
    Ok(Bytes::from_vec(numbered))
}
