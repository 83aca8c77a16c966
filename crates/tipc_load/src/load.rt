//! The script that a number stands for.

ghost use Rattle.std.specs.Prelude.{◌≡◌, ◌∷◌, ◌++◌, [], ℕ, IfOk, OnOk, drop, length, take};
ghost use Rattle.std.specs.List.{All};
ghost use Rattle.tipc_types.specs.declared.message_forms.Importance.{Importance};
ghost use Rattle.tipc_types.specs.declared.node_calls.EventNote.{EventNote};
ghost use Rattle.tipc_script.specs.declared.lines.Line.{Line};
ghost use Rattle.tipc_script.specs.Kinds.{pattern};
ghost use Rattle.tipc_script.specs.Grammar.{Asks};
ghost use Rattle.tipc_load.specs.Load.{drawn_line, first_nodes, generated, generated_lines};
ghost use Rattle.tipc_load.specs.Clear.{IsClear, IsOneLine};
ghost use Rattle.tipc_load.specs.Spelling.{spelling_of};

use crate::draws::Draws;
use std::alloc::Global;
use tipc_types::NoMemory;

/// How many lines are drawn.
const DRAWN_LINES: u32 = 1000;

/// How the nodes come in: their bearers are mended, and each offers five instances of a service of its own, whose type
/// is 1000 and the node's number.
const OPENING: &[u8] = b"node 1
node 2
node 3
node 4
mend 1 0
mend 1 1
mend 2 0
mend 2 1
mend 3 0
mend 3 1
mend 4 0
mend 4 1
settle 12
socket 1
socket 2
socket 3
socket 4
publish 1 1 1001 1 1 cluster 1
publish 1 1 1001 2 2 cluster 2
publish 1 1 1001 3 3 cluster 3
publish 1 1 1001 4 4 cluster 4
publish 1 1 1001 5 5 cluster 5
publish 2 1 1002 1 1 cluster 1
publish 2 1 1002 2 2 cluster 2
publish 2 1 1002 3 3 cluster 3
publish 2 1 1002 4 4 cluster 4
publish 2 1 1002 5 5 cluster 5
publish 3 1 1003 1 1 cluster 1
publish 3 1 1003 2 2 cluster 2
publish 3 1 1003 3 3 cluster 3
publish 3 1 1003 4 4 cluster 4
publish 3 1 1003 5 5 cluster 5
publish 4 1 1004 1 1 cluster 1
publish 4 1 1004 2 2 cluster 2
publish 4 1 1004 3 3 cluster 3
publish 4 1 1004 4 4 cluster 4
publish 4 1 1004 5 5 cluster 5
settle 12
";

/// The end: all bearers are mended, the nodes settle, and each two of them are asked how many messages went between
/// them.
const CLOSING: &[u8] = b"mend 1 0
mend 1 1
mend 2 0
mend 2 1
mend 3 0
mend 3 1
mend 4 0
mend 4 1
settle 40
settle 400
flow 1 2
flow 1 3
flow 1 4
flow 2 1
flow 2 3
flow 2 4
flow 3 1
flow 3 2
flow 3 4
flow 4 1
flow 4 2
flow 4 3
";

/// A line that sends from a node to an instance of another's service, or of its own.
fn send_text(
    alloc: Global,
    node: u32,
    service: u32,
    instance: u32,
    count: u32,
) -> Result<Vec<u8>, NoMemory>
    ensures { IfOk result (λ text. text.items ≡
        spelling_of (Line.Call node (EventNote.SendName 1 service instance Importance.Low (pattern count)))) }
{
    Ok(format!(in alloc; "send {node} 1 name {service} {instance} low *{count}")?.into_bytes())
}

/// The line that a drawn number stands for. Its lowest four bits say which line it is: of sixteen nine send, three
/// receive, two settle, one cuts and one mends. Bits 4 and 5 say the node, bits 6 and 7 whose service a message is for,
/// those from 8 on, modulo 5, which of its instances, bit 11 the bearer, and those from 12 on, modulo 3,000, how long
/// the message is.
fn drawn_text(alloc: Global, draw: u32) -> Result<Vec<u8>, NoMemory>
    ensures { IfOk result (λ text. text.items ≡ spelling_of (drawn_line draw)) }
{
    let node = 1 + draw / 16 % 4;
    let bearer = draw / 2048 % 2;
    match draw % 16 {
        0..=8 => send_text(
            alloc,
            node,
            1001 + draw / 64 % 4,
            1 + draw / 256 % 5,
            draw / 4096 % 3000,
        ),
        9..=11 => Ok(format!(in alloc; "receive {node} 1")?.into_bytes()),
        12 | 13 => Ok(Vec::from_slice(alloc, b"settle 1")?),
        14 => Ok(format!(in alloc; "cut {node} {bearer}")?.into_bytes()),
        _ => Ok(format!(in alloc; "mend {node} {bearer}")?.into_bytes()),
    }
}

/// Appends a line and its newline.
fn push_line(script: &mut Vec<u8>, line: &[u8]) -> Result<(), NoMemory>
    ensures { OnOk result (script.new.items ≡ script.old.items ++ (line.now ++ 10 ∷ [])) }
{
    script.extend_from_slice(line)?;
    script.push(b'\n')?;
    Ok(())
}

/// The script that a number stands for.
///
/// # Errors
///
/// Where memory runs out.
pub fn generate(alloc: Global, seed: u64) -> Result<Vec<u8>, NoMemory>
    ensures { IfOk result (λ script. script.items ≡ generated seed) }
{
    let mut script = Vec::from_slice(alloc, OPENING)?;
    let mut draws = Draws::new(seed);
    for _ in 0..DRAWN_LINES {
        let line = drawn_text(alloc, draws.draw())?;
        push_line(&mut script, line.as_slice())?;
    }
    script.extend_from_slice(CLOSING)?;
    Ok(script)
}

/// Each generated script is sound: its lines are in the grammar, the first four make nodes 1 to 4, and no other line
/// has a fault where these nodes are there. So a run of it meets no bad line.
pub fn loads_are_sound()
    ensures asked { (seed : ℕ) → All (λ line. Asks (spelling_of line) line) (generated_lines seed) }
    ensures first { (seed : ℕ) → take 4 (generated_lines seed) ≡ first_nodes }
    ensures clear { (seed : ℕ) → All (λ line. IsClear (spelling_of line)) (drop 4 (generated_lines seed)) }
    ensures count { (seed : ℕ) → length (generated_lines seed) ≡ 1060 }
    ensures whole { (seed : ℕ) → All (λ line. IsOneLine (spelling_of line)) (generated_lines seed) }
{}
