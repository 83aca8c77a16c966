//! A packet as lines: its fields, what follows them, and the packet inside a tunnel packet.

ghost use Rattle.std.specs.Prelude.{◌≡◌, ◌≤◌, ◌+◌, ◌*◌, ◌++◌, IfOk, OnOk, codes, length, true};
ghost use Rattle.std.specs.Fmt.{decimal};
ghost use Rattle.tipc_header.specs.Spelling.{view};
ghost use Rattle.tipc_tunnel.specs.Tunnels.{inner_number, is_tunnel};
ghost use Rattle.tipc_dissect.specs.Lines.{shown_line};
ghost use Rattle.tipc_dissect.specs.Packets.{carried_text, inner, item_text, items_text, outer, packet_text, rest_text, whole_text};

use crate::lines::{put_bytes, put_line};
use crate::table::put_table;
use std::alloc::Global;
use tipc_header::{Header, Packet, decode, word};
use tipc_tunnel::unwrap_packet;
use tipc_types::NoMemory;

/// How far in the lines of a frame's packet stand.
pub(crate) const OUTER: &str = " ";

/// How far in those of a packet inside it stand.
const INNER: &str = "  ";

/// How many bytes an item has: five words.
const ITEM_SIZE: usize = 20;

/// The text of the item of this index.
fn item_text(alloc: Global, rest: &[u8], index: usize) -> Result<Vec<u8>, NoMemory>
    requires { 20 * index + 20 ≤ length rest.now }
    ensures { IfOk result (λ text. text.items ≡ item_text index rest.now) }
{
    let first = 5 * index;
    let kind = word(rest, first);
    let lower = word(rest, first + 1);
    let upper = word(rest, first + 2);
    let port = word(rest, first + 3);
    let key = word(rest, first + 4);
    Ok(format!(in alloc; "{kind},{lower},{upper},{port},{key}")?.into_bytes())
}

/// Appends a line for each item.
#[tactic(auto, unfolding(crate::specs::Packets::items_text))]
fn put_items(into: &mut Vec<u8>, indent: &str, rest: &[u8]) -> Result<(), NoMemory>
    ensures { OnOk result (into.new.items ≡ into.old.items ++ items_text indent.now rest.now) }
{
    let alloc = *into.allocator();
    for index in 0..rest.len() / ITEM_SIZE {
        let item = item_text(alloc, rest, index)?;
        put_line(into, indent, "item", item.as_slice())?;
    }
    Ok(())
}

/// Appends what follows the fields.
fn put_rest(into: &mut Vec<u8>, indent: &str, packet: &Packet<'_>) -> Result<(), NoMemory>
    ensures { OnOk result (into.new.items ≡ into.old.items ++
        rest_text indent.now packet.now.header packet.now.rest.now) }
{
    match packet.header {
        Header::Payload(_) | Header::Bundler(_) | Header::Fragmenter(_) => {
            put_bytes(into, indent, "rest", packet.rest)
        }
        Header::NameDistributor(_) => put_items(into, indent, packet.rest),
        Header::State(_)
        | Header::Reset(_)
        | Header::Activate(_)
        | Header::Changeover(_)
        | Header::Discovery(_) => Ok(()),
    }
}

/// Appends a packet, without what a tunnel packet carries.
#[tactic(auto, unfolding(crate::specs::Packets::packet_text))]
fn put_packet(into: &mut Vec<u8>, indent: &str, packet: &Packet<'_>) -> Result<(), NoMemory>
    ensures { OnOk result (into.new.items ≡ into.old.items ++ packet_text indent.now (view packet.now)) }
{
    put_table(into, indent, packet)?;
    put_rest(into, indent, packet)
}

/// Appends the packet inside a tunnel packet, which has so many bytes.
fn put_inner(into: &mut Vec<u8>, size: usize, packet: &Packet<'_>) -> Result<(), NoMemory>
    ensures { OnOk result (into.new.items ≡ into.old.items ++ (shown_line outer (codes "inner") (decimal size) ++
        packet_text inner (view packet.now))) }
{
    let alloc = *into.allocator();
    let size = format!(in alloc; "{size}")?.into_bytes();
    put_line(into, OUTER, "inner", size.as_slice())?;
    put_packet(into, INNER, packet)
}

/// Appends what a tunnel packet carries: nothing, a packet, or bytes that aren't one that may stand there.
fn put_carried(into: &mut Vec<u8>, packet: &Packet<'_>, rest: &[u8]) -> Result<(), NoMemory>
    requires tunnel { is_tunnel packet.now.header ≡ true }
    requires rest { rest.now ≡ packet.now.rest.now }
    ensures { OnOk result (into.new.items ≡ into.old.items ++
        carried_text (inner_number packet.now.header) rest.now) }
{
    let Ok(tunnel) = unwrap_packet(packet) else {
        return put_bytes(into, OUTER, "inner bad", rest);
    };
    if tunnel.inner.is_empty() {
        return put_line(into, OUTER, "inner", b"none");
    }
    match decode(tunnel.inner) {
        Ok(inner) => put_inner(into, tunnel.inner.len(), &inner),
        Err(_) => unreachable!(),
    }
}

/// Appends a packet with all that is in it.
#[tactic(auto, unfolding(crate::specs::Packets::whole_text))]
pub(crate) fn put_whole(into: &mut Vec<u8>, packet: &Packet<'_>) -> Result<(), NoMemory>
    ensures { OnOk result (into.new.items ≡ into.old.items ++ whole_text (view packet.now)) }
{
    put_packet(into, OUTER, packet)?;
    match packet.header {
        Header::Changeover(_) => put_carried(into, packet, packet.rest),
        _ => Ok(()),
    }
}
