//! A long message is cut into fragments.

ghost use Rattle.std.specs.Prelude.{◌≡◌, ◌+◌, ◌*◌, ◌/◌, ◌<◌, ◌≤◌, All, length, take, drop, IfOk};
ghost use Rattle.tipc_types.specs.Limits.{most_packet_bytes};
ghost use Rattle.tipc_fragments.specs.Cutting.{count_of, kind_of, fragment_fields, packets_of, piece_after};
ghost use Rattle.tipc_header.specs.Spelling.{spelling};

use std::alloc::Global;
use tipc_header::{Fragment, FragmentType, Header, Packet, encode};
use tipc_types::{Bytes, NoMemory, Pieces};

/// How many bytes of its message each fragment has but the last, which has what is left: with the header of 40
/// bytes a packet has at most 1,452. (This project's profile.)
pub const FRAGMENT_BYTES: usize = 1_412;

/// The least bytes of a message that is cut: one byte more than a packet holds.
pub const LEAST_CUT: usize = 1_453;

/// The most bytes of a message: the longest header, of 44 bytes, and 66,000 bytes of a user. (This project's profile.)
pub const MOST_CUT: usize = 66_044;

/// Which place in a message of `count` fragments the one has that stands behind `before` others.
fn kind(count: usize, before: usize) -> FragmentType
    requires { before < count }
    ensures { result ≡ kind_of count before }
{
    if before == 0 {
        FragmentType::First
    } else if before + 1 == count {
        FragmentType::Last
    } else {
        FragmentType::Middle
    }
}

/// The bytes of a message in the fragment that stands behind `before` others.
fn bytes_after(message: &[u8], before: usize) -> &[u8]
    requires within { length message.now ≤ 66044 }
    requires before { 1412 * before < length message.now }
    ensures { result.now ≡ take 1412 (drop (1412 * before) message.now) }
{
    let start = FRAGMENT_BYTES * before;
    let end = message.len().min(start + FRAGMENT_BYTES);
    &message[start..end]
}

/// The packet of the fragment that stands behind `before` others.
fn fragment(alloc: Global, message: &[u8], before: usize) -> Result<Bytes, NoMemory>
    requires within { length message.now ≤ 66044 }
    requires before { before < count_of message.now }
    ensures { IfOk result (λ packet. packet ≡ spelling (fragment_fields (piece_after message.now before))) }
{
    let fragment = Fragment {
        fragment_type: kind(message.len().div_ceil(FRAGMENT_BYTES), before),
        broadcast_acknowledgement: 0,
        number: before as u16 + 1,
    };
    let packet = Packet {
        acknowledgement: 0,
        sequence: 0,
        previous: 0,
        header: Header::Fragmenter(fragment),
        rest: bytes_after(message, before),
    };
    let mut bytes = Vec::new(alloc);
    encode(&packet, &mut bytes)?;
    Ok(Bytes::from_vec(bytes))
}

/// Cuts a message, which is the bytes of its packet, into fragments: the packets of user 12 as they wait to be sent,
/// words 2 and 3 zero. They are numbered from 1, and each but the last has 1,412 bytes of the message.
/// (Fragmentation: TIPC 2.0 draft; the lengths: this project's profile.)
///
/// # Errors
///
/// Where memory runs out.
pub fn cut(alloc: Global, message: &[u8]) -> Result<Pieces, NoMemory>
    requires long { 1453 ≤ length message.now }
    requires within { length message.now ≤ 66044 }
    ensures packets { IfOk result (λ packets. packets ≡ packets_of message.now) }
    ensures sizes { IfOk result (All (λ packet. length packet ≤ most_packet_bytes)) }
{
    let mut packets = Pieces::new(alloc);
    for before in 0..message.len().div_ceil(FRAGMENT_BYTES) {
        packets.push(fragment(alloc, message, before)?)?;
    }
    Ok(packets)
}
