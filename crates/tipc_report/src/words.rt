//! Words and numbers in a row.

ghost use Rattle.std.specs.Prelude.{◌≡◌, ◌∷◌, ◌++◌, ◌%◌, [], IfOk, codes};
ghost use Rattle.std.specs.Fmt.{decimal};
ghost use Rattle.tipc_report.specs.Closing.{spaced};
ghost use Rattle.tipc_report.specs.Answering.{port_text};

use std::alloc::Global;
use tipc_types::{NoMemory, PortId};

/// How many numbers the lowest 12 bits of an address have room for. (TIPC 2.0 draft.)
const NUMBERS: u32 = 4_096;

/// The node's number in an address.
pub fn number_in(address: u32) -> u32
    ensures { result ≡ address % 4096 }
{
    address % NUMBERS
}

/// A word alone.
pub fn word(alloc: Global, word: &str) -> Result<Vec<u8>, NoMemory>
    ensures { IfOk result (λ text. text.items ≡ word.now) }
{
    Ok(Vec::from_slice(alloc, word.as_bytes())?)
}

/// A word and a number.
pub fn numbered(alloc: Global, word: &str, number: u64) -> Result<Vec<u8>, NoMemory>
    ensures { IfOk result (λ text. text.items ≡ spaced (word.now ∷ decimal number ∷ [])) }
{
    Ok(format!(in alloc; "{word} {number}")?.into_bytes())
}

/// A word and two numbers.
pub fn numbered_twice(
    alloc: Global,
    word: &str,
    first: u64,
    second: u64,
) -> Result<Vec<u8>, NoMemory>
    ensures { IfOk result (λ text. text.items ≡ spaced (word.now ∷ decimal first ∷ decimal second ∷ [])) }
{
    Ok(format!(in alloc; "{word} {first} {second}")?.into_bytes())
}

/// A word and a port.
pub fn at_port(alloc: Global, word: &str, port: PortId) -> Result<Vec<u8>, NoMemory>
    ensures { IfOk result (λ text. text.items ≡ spaced (word.now ∷ port_text port.node.word port.port ∷ [])) }
{
    let node = number_in(port.node.word);
    let port = port.port;
    Ok(format!(in alloc; "{word} {node}:{port}")?.into_bytes())
}

/// A word, two numbers and a port.
pub fn event(
    alloc: Global,
    word: &str,
    bounds: (u32, u32),
    port: (u32, u32),
) -> Result<Vec<u8>, NoMemory>
    ensures { IfOk result (λ text. text.items ≡ spaced (word.now ∷ decimal bounds.0 ∷ decimal bounds.1 ∷
        port_text port.0 port.1 ∷ [])) }
{
    let (lower, upper) = bounds;
    let (address, port) = port;
    let node = number_in(address);
    Ok(format!(in alloc; "{word} {lower} {upper} {node}:{port}")?.into_bytes())
}

/// The words of a flow.
pub fn flow(alloc: Global, accepted: u64, delivered: u64) -> Result<Vec<u8>, NoMemory>
    ensures { IfOk result (λ text. text.items ≡ spaced (codes "accepted" ∷ decimal accepted ∷ codes "delivered" ∷
        decimal delivered ∷ [])) }
{
    Ok(format!(in alloc; "accepted {accepted} delivered {delivered}")?.into_bytes())
}
