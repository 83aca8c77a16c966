//! Packets as they wait to be sent.

ghost use Rattle.std.specs.Prelude.{◌≡◌, ◌≤◌, length, IfOk};
ghost use Rattle.tipc_header.specs.Grammar.{Fits};
ghost use Rattle.tipc_header.specs.Spelling.{spelling};
ghost use Rattle.tipc_message.specs.Wire.{waiting_packet};

use std::alloc::Global;
use tipc_header::{Header, Packet, encode};
use tipc_types::{Addr, Bytes, NoMemory};

/// The bytes of the packet of this node with this header, and the bytes behind it.
pub(crate) fn encoded(
    alloc: Global,
    own: Addr,
    header: Header,
    rest: &[u8],
) -> Result<Bytes, NoMemory>
    requires { Fits (waiting_packet own.word header rest.now) }
    ensures spelled { IfOk result (λ bytes. bytes ≡ spelling (waiting_packet own.word header rest.now)) }
    ensures long { IfOk result (λ bytes. 24 ≤ length bytes) }
{
    let packet = Packet {
        acknowledgement: 0,
        sequence: 0,
        previous: own.word,
        header,
        rest,
    };
    let mut bytes = Vec::new(alloc);
    encode(&packet, &mut bytes)?;
    Ok(Bytes::from_vec(bytes))
}
