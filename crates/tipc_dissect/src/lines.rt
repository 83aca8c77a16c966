//! The lines of fields, and of bytes.

ghost use Rattle.std.specs.Prelude.{◌≡◌, ◌∷◌, ◌++◌, [], IfOk, OnOk, length, map};
ghost use Rattle.std.specs.Fmt.{decimal};
ghost use Rattle.tipc_dissect.specs.Lines.{bytes_text, field_line, fields_text, shown_line};

use std::alloc::Global;
use tipc_types::NoMemory;

/// How many numbers a node, and a cluster, has room for in an address: 12 bits. (TIPC 2.0 draft.)
const NUMBERS: u32 = 4096;

/// What stands behind the name of a field.
#[derive(Clone, Copy, Debug, PartialEq, Eq)]
pub(crate) enum Value {
    /// A number, shown in decimal.
    Number(u64),
    /// An address, shown as zone, cluster and node.
    Address(u32),
}

/// The line of a number.
fn number_line(alloc: Global, indent: &str, name: &str, number: u64) -> Result<Vec<u8>, NoMemory>
    ensures { IfOk result (λ line. line.items ≡ shown_line indent.now name.now (decimal number)) }
{
    Ok(format!(in alloc; "{indent}{name} {number}\n")?.into_bytes())
}

/// The line of an address.
fn address_line(alloc: Global, indent: &str, name: &str, word: u32) -> Result<Vec<u8>, NoMemory>
    ensures { IfOk result (λ line. line.items ≡ field_line indent.now (name.now, Value.Address word)) }
{
    let zone = word >> 24;
    let cluster = (word >> 12) % NUMBERS;
    let node = word % NUMBERS;
    Ok(format!(in alloc; "{indent}{name} {zone}.{cluster}.{node}\n")?.into_bytes())
}

/// The line of a field.
fn field_line(alloc: Global, indent: &str, name: &str, value: Value) -> Result<Vec<u8>, NoMemory>
    ensures { IfOk result (λ line. line.items ≡ field_line indent.now (name.now, value)) }
{
    match value {
        Value::Number(number) => number_line(alloc, indent, name, number),
        Value::Address(word) => address_line(alloc, indent, name, word),
    }
}

/// Appends the lines of fields, each a name and a value.
#[tactic(auto, unfolding(crate::specs::Lines::fields_text))]
pub(crate) fn put_fields(
    into: &mut Vec<u8>,
    indent: &str,
    fields: &[(&str, Value)],
) -> Result<(), NoMemory>
    ensures { OnOk result (into.new.items ≡ into.old.items ++ fields_text indent.now
        (map (λ field. (field.0.now, field.1)) fields.now)) }
{
    let alloc = *into.allocator();
    for (name, value) in fields {
        let line = field_line(alloc, indent, name, *value)?;
        into.extend_from_slice(line.as_slice())?;
    }
    Ok(())
}

/// Appends a line with this text.
pub(crate) fn put_line(
    into: &mut Vec<u8>,
    indent: &str,
    name: &str,
    text: &[u8],
) -> Result<(), NoMemory>
    ensures { OnOk result (into.new.items ≡ into.old.items ++ shown_line indent.now name.now text.now) }
{
    into.extend_from_slice(indent.as_bytes())?;
    into.extend_from_slice(name.as_bytes())?;
    into.push(b' ')?;
    into.extend_from_slice(text)?;
    into.push(b'\n')?;
    Ok(())
}

/// Appends the line of some bytes.
pub(crate) fn put_bytes(
    into: &mut Vec<u8>,
    indent: &str,
    name: &str,
    bytes: &[u8],
) -> Result<(), NoMemory>
    ensures { OnOk result (into.new.items ≡ into.old.items ++ shown_line indent.now name.now (bytes_text bytes.now)) }
{
    if bytes.is_empty() {
        return put_line(into, indent, name, b"-");
    }
    let alloc = *into.allocator();
    let digits = hex::encode(alloc, bytes)?.into_bytes();
    put_line(into, indent, name, digits.as_slice())
}
