//! Report lines: a number, a text and a newline.

ghost use Rattle.std.specs.Prelude.{◌≡◌, ◌++◌, OnOk, OnErr, IfOk};
ghost use Rattle.tipc_report.specs.Closing.{bad_text, limit_text, why_word};
ghost use Rattle.tipc_report.specs.Text.{line_of, told_line, bad_line, limit_line, seed_line};

use crate::limits::Which;
use crate::told::{Told, told_text};
use std::alloc::Global;
use tipc_script::LineWhy;
use tipc_types::NoMemory;

/// Appends a line with this text, or nothing.
fn print_text(line: u32, text: &[u8], into: &mut Vec<u8>) -> Result<(), NoMemory>
    ensures ok { OnOk result (into.new.items ≡ into.old.items ++ line_of line text.now) }
    ensures err { OnErr result (into.new.items ≡ into.old.items) }
{
    let alloc = *into.allocator();
    let mut whole = format!(in alloc; "{line} ")?.into_bytes();
    whole.extend_from_slice(text)?;
    whole.push(b'\n')?;
    into.extend_from_slice(whole.as_slice())?;
    Ok(())
}

/// How the reason of a refused line is written.
fn why_word(why: LineWhy) -> &'static str
    ensures { result.now ≡ why_word why }
{
    match why {
        LineWhy::Command => "command",
        LineWhy::Number => "number",
        LineWhy::Word => "word",
        LineWhy::Body => "body",
        LineWhy::End => "end",
        LineWhy::Node => "node",
    }
}

/// What is written of a line that is refused.
fn bad_text(alloc: Global, place: u32, why: LineWhy) -> Result<Vec<u8>, NoMemory>
    ensures { IfOk result (λ text. text.items ≡ bad_text place why) }
{
    let word = why_word(why);
    Ok(format!(in alloc; "bad {place} {word}")?.into_bytes())
}

/// What is written where a limit is reached.
fn limit_text(alloc: Global, which: Which) -> Result<Vec<u8>, NoMemory>
    ensures { IfOk result (λ text. text.items ≡ limit_text which) }
{
    let word = which.word();
    let number = which.number();
    Ok(format!(in alloc; "limit {word} {number}")?.into_bytes())
}

/// Appends the line of what is told of a script's line: the number of the script's line, a space, the text and a newline.
/// (This project's profile.) Where memory runs out, nothing is appended.
///
/// No line of a script is answered `Got`, `BadFilter` or with received items; they have texts so that
/// nothing is asked of the caller.
#[tactic(auto, unfolding(crate::specs::Text::told_line))]
pub fn print(line: u32, told: &Told, into: &mut Vec<u8>) -> Result<(), NoMemory>
    ensures ok { OnOk result (into.new.items ≡ into.old.items ++ told_line line told.now) }
    ensures err { OnErr result (into.new.items ≡ into.old.items) }
{
    let alloc = *into.allocator();
    let text = told_text(alloc, told)?;
    print_text(line, text.as_slice(), into)
}

/// Appends the line that ends a report where the script's line is refused: its number, ` bad `, the byte
/// place from 1, a space, the reason and a newline. Where memory runs out, nothing is appended.
#[tactic(auto, unfolding(crate::specs::Text::bad_line))]
pub fn print_bad(line: u32, place: u32, why: LineWhy, into: &mut Vec<u8>) -> Result<(), NoMemory>
    ensures ok { OnOk result (into.new.items ≡ into.old.items ++ bad_line line place why) }
    ensures err { OnErr result (into.new.items ≡ into.old.items) }
{
    let alloc = *into.allocator();
    let text = bad_text(alloc, place, why)?;
    print_text(line, text.as_slice(), into)
}

/// Appends the line that ends a report where a limit is reached: the number of the script's line (0 for
/// the script as a whole), ` limit `, the limit, a space, how many there may be and a newline. Where
/// memory runs out, nothing is appended.
#[tactic(auto, unfolding(crate::specs::Text::limit_line))]
pub fn print_limit(line: u32, which: Which, into: &mut Vec<u8>) -> Result<(), NoMemory>
    ensures ok { OnOk result (into.new.items ≡ into.old.items ++ limit_line line which) }
    ensures err { OnErr result (into.new.items ≡ into.old.items) }
{
    let alloc = *into.allocator();
    let text = limit_text(alloc, which)?;
    print_text(line, text.as_slice(), into)
}

/// Appends the first line of the report of a generated script: `gen `, the number that it was made from, and a newline. Where memory runs
/// out, nothing is appended.
#[tactic(auto, unfolding(crate::specs::Text::seed_line))]
pub fn print_seed(seed: u32, into: &mut Vec<u8>) -> Result<(), NoMemory>
    ensures ok { OnOk result (into.new.items ≡ into.old.items ++ seed_line seed) }
    ensures err { OnErr result (into.new.items ≡ into.old.items) }
{
    let alloc = *into.allocator();
    let line = format!(in alloc; "gen {seed}\n")?.into_bytes();
    into.extend_from_slice(line.as_slice())?;
    Ok(())
}
