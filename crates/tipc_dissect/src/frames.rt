//! A frame as text.

ghost use Rattle.std.specs.Prelude.{◌≡◌, ◌≤◌, ◌++◌, IfOk, OnErr, OnOk, codes, drop, length};
ghost use Rattle.std.specs.Fmt.{decimal};
ghost use Rattle.tipc_header.specs.Reading.{fields_at};
ghost use Rattle.tipc_header.specs.Spelling.{view};
ghost use Rattle.tipc_dissect.specs.Lines.{fields_text, shown_line};
ghost use Rattle.tipc_dissect.specs.Packets.{outer};
ghost use Rattle.tipc_dissect.specs.Frames.{envelope_fields, envelope_line, fault_line, fault_name, frame_text, text};

use crate::lines::{Value, put_fields};
use crate::packets::{OUTER, put_whole};
use std::alloc::Global;
use tipc_header::{HeaderFault, Packet, decode, long};
use tipc_types::NoMemory;

/// How many bytes the envelope of a frame has: two numbers of 64 bits. (This project's profile.)
const ENVELOPE_SIZE: usize = 16;

/// How a fault of a packet is called.
fn fault_name(fault: HeaderFault) -> &'static str
    ensures { result.now ≡ fault_name fault }
{
    match fault {
        HeaderFault::Short => "Short",
        HeaderFault::Version => "Version",
        HeaderFault::HeaderSize => "HeaderSize",
        HeaderFault::Size => "Size",
        HeaderFault::User => "User",
        HeaderFault::Type => "Type",
        HeaderFault::Reserved => "Reserved",
    }
}

/// The line of too few bytes for an envelope.
fn envelope_line(alloc: Global, line: u32) -> Result<Vec<u8>, NoMemory>
    ensures { IfOk result (λ text. text.items ≡ envelope_line line) }
{
    Ok(format!(in alloc; "{line} envelope\n")?.into_bytes())
}

/// The line of a frame whose packet has this fault.
fn fault_line(alloc: Global, line: u32, fault: HeaderFault) -> Result<Vec<u8>, NoMemory>
    ensures { IfOk result (λ text. text.items ≡ fault_line line fault) }
{
    let number = fault.number();
    let name = fault_name(fault);
    Ok(format!(in alloc; "{line} fault {number} {name}\n")?.into_bytes())
}

/// The first line of a frame of so many bytes.
fn size_line(alloc: Global, line: u32, size: usize) -> Result<Vec<u8>, NoMemory>
    ensures { IfOk result (λ text. text.items ≡ shown_line (decimal line) (codes " frame") (decimal size)) }
{
    Ok(format!(in alloc; "{line} frame {size}\n")?.into_bytes())
}

/// Appends the two numbers of a frame's envelope.
fn put_envelope(into: &mut Vec<u8>, frame: &[u8]) -> Result<(), NoMemory>
    requires { 16 ≤ length frame.now }
    ensures { OnOk result (into.new.items ≡ into.old.items ++ fields_text outer (envelope_fields frame.now)) }
{
    let first = long(frame, 0);
    let second = long(frame, 2);
    let fields = [
        ("envelope-first", Value::Number(first)),
        ("envelope-second", Value::Number(second)),
    ];
    put_fields(into, OUTER, &fields)
}

/// The lines of a frame with this packet.
fn frame_text(
    alloc: Global,
    line: u32,
    frame: &[u8],
    packet: &Packet<'_>,
) -> Result<Vec<u8>, NoMemory>
    requires enveloped { 16 ≤ length frame.now }
    requires packet { view packet.now ≡ fields_at (drop 16 frame.now) }
    ensures { IfOk result (λ text. text.items ≡ frame_text line frame.now) }
{
    let mut text = size_line(alloc, line, frame.len())?;
    put_envelope(&mut text, frame)?;
    put_whole(&mut text, packet)?;
    Ok(text)
}

/// The text of a frame.
#[tactic(auto, unfolding(crate::specs::Frames::text))]
fn text_of(alloc: Global, line: u32, frame: &[u8]) -> Result<Vec<u8>, NoMemory>
    ensures { IfOk result (λ whole. whole.items ≡ text line frame.now) }
{
    if frame.len() < ENVELOPE_SIZE {
        return envelope_line(alloc, line);
    }
    match decode(&frame[ENVELOPE_SIZE..]) {
        Ok(packet) => frame_text(alloc, line, frame, &packet),
        Err(fault) => fault_line(alloc, line, fault),
    }
}

/// Appends the text of a frame, under the number of its line. (This project's profile.) Where memory runs out, nothing is
/// appended.
///
/// Fewer than 16 bytes are told as `envelope`. A frame whose packet doesn't decode is told by the packet's fault. Any
/// other is told by its size in bytes and a line for each field: numbers in decimal, addresses as zone, cluster and
/// node, bytes in lower-case hexadecimal. What a tunnel packet carries stands one space further in.
pub fn dissect(line: u32, frame: &[u8], into: &mut Vec<u8>) -> Result<(), NoMemory>
    ensures ok { OnOk result (into.new.items ≡ into.old.items ++ text line frame.now) }
    ensures err { OnErr result (into.new.items ≡ into.old.items) }
{
    let alloc = *into.allocator();
    let whole = text_of(alloc, line, frame)?;
    into.extend_from_slice(whole.as_slice())?;
    Ok(())
}
