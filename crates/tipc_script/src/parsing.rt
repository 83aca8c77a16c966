//! A line of a script is read.

ghost use Rattle.std.specs.Prelude.{◌≡◌, ◌+◌, ◌<◌, ◌^◌, IfOk, length, None, List, ℕ};
ghost use Rattle.tipc_script.specs.Kinds.{is_remark};
ghost use Rattle.tipc_script.specs.Grammar.{frame_rows, service_rows, subscription_rows, traffic_rows, row_among, row_of, asked_by, nodes_by, asked, nodes_of, Asks};
ghost use Rattle.tipc_script.specs.Faults.{IsReadBy, Tells, Reads, fault_by, fault_of};
ghost use Rattle.tipc_script.specs.declared.lines.Line.{Line};
ghost use Rattle.tipc_script.specs.Splitting.{whole, first_token, behind};

use crate::faults::{LineFault, LineWhy};
use crate::lines::{Command, Line};
use crate::tokens::{Tokens, is_word};
use crate::{forms, sends, services, subscriptions};
use std::alloc::Global;
use tipc_types::Sequence;

/// The fault of a line that begins with none of these words.
const NO_SUCH_WORD: LineFault = LineFault::BadLine {
    place: 1,
    why: LineWhy::Command,
};

/// What follows a first word, and that the word is one.
#[tactic(auto, unfolding(crate::specs::Grammar::row_of))]
fn line_behind(alloc: Global, word: &[u8], tokens: &mut Tokens<'_>) -> Result<Command, LineFault>
    ensures { IsReadBy (row_of word.now) tokens.old result }
{
    if is_word(word, b"node") {
        return forms::node_line(alloc, tokens);
    }
    if is_word(word, b"mend") {
        return forms::mend_line(alloc, tokens);
    }
    if is_word(word, b"cut") {
        return forms::cut_line(alloc, tokens);
    }
    if is_word(word, b"tick") {
        return forms::tick_line(alloc, tokens);
    }
    if is_word(word, b"restart") {
        return forms::restart_line(alloc, tokens);
    }
    if is_word(word, b"link") {
        return forms::link_line(alloc, tokens);
    }
    if is_word(word, b"mark") {
        return forms::mark_line(alloc, tokens);
    }
    service_line(alloc, word, tokens)
}

/// The same for the first words of lines about sockets, services, subscriptions, messages, frames and links.
fn service_line(alloc: Global, word: &[u8], tokens: &mut Tokens<'_>) -> Result<Command, LineFault>
    ensures { IsReadBy (row_among service_rows word.now) tokens.old result }
{
    if is_word(word, b"socket") {
        return forms::socket_line(alloc, tokens);
    }
    if is_word(word, b"close") {
        return services::close_line(alloc, tokens);
    }
    if is_word(word, b"publish") {
        return services::publish_line(alloc, tokens);
    }
    if is_word(word, b"withdraw") {
        return services::withdraw_line(alloc, tokens);
    }
    subscription_line(alloc, word, tokens)
}

/// The same for the first words of lines about subscriptions, messages, frames and links.
fn subscription_line(
    alloc: Global,
    word: &[u8],
    tokens: &mut Tokens<'_>,
) -> Result<Command, LineFault>
    ensures { IsReadBy (row_among subscription_rows word.now) tokens.old result }
{
    if is_word(word, b"subscribe") {
        return subscriptions::subscribe_line(alloc, tokens);
    }
    if is_word(word, b"event") {
        return subscriptions::event_line(alloc, tokens);
    }
    if is_word(word, b"cancel") {
        return subscriptions::cancel_line(alloc, tokens);
    }
    traffic_line(alloc, word, tokens)
}

/// The same for the first words of lines about messages, frames and links.
fn traffic_line(alloc: Global, word: &[u8], tokens: &mut Tokens<'_>) -> Result<Command, LineFault>
    ensures { IsReadBy (row_among traffic_rows word.now) tokens.old result }
{
    if is_word(word, b"send") {
        return sends::send_line(alloc, tokens);
    }
    if is_word(word, b"repeat") {
        return sends::repeat_line(alloc, tokens);
    }
    if is_word(word, b"receive") {
        return forms::receive_line(alloc, tokens);
    }
    if is_word(word, b"drain") {
        return forms::drain_line(alloc, tokens);
    }
    if is_word(word, b"burst") {
        return sends::burst_line(alloc, tokens);
    }
    frame_line(alloc, word, tokens)
}

/// The same for the first words of lines about frames and links.
fn frame_line(alloc: Global, word: &[u8], tokens: &mut Tokens<'_>) -> Result<Command, LineFault>
    ensures { IsReadBy (row_among frame_rows word.now) tokens.old result }
{
    if is_word(word, b"arrive") {
        return forms::arrive_line(alloc, tokens);
    }
    if is_word(word, b"pump") {
        return forms::pump_line(alloc, tokens);
    }
    if is_word(word, b"settle") {
        return forms::settle_line(alloc, tokens);
    }
    if is_word(word, b"air") {
        return forms::air_line(alloc, tokens);
    }
    if is_word(word, b"show") {
        return forms::show_line(alloc, tokens);
    }
    if is_word(word, b"links") {
        return forms::links_line(alloc, tokens);
    }
    if is_word(word, b"table") {
        return forms::table_line(alloc, tokens);
    }
    if is_word(word, b"flow") {
        return forms::flow_line(alloc, tokens);
    }
    Err(NO_SUCH_WORD)
}

/// Whether a line is done as nothing: it is empty, or begins with `#`. (This project's profile.)
pub fn is_remark(line: &[u8]) -> bool
    ensures { result ≡ is_remark line.now }
{
    match line {
        [] => true,
        [first, ..] => *first == b'#',
    }
}

/// A line that is no remark.
#[tactic(auto, unfolding(crate::specs::Grammar::row_of))]
fn line_of_words(alloc: Global, line: &[u8]) -> Result<Command, LineFault>
    requires { length line.now < 2 ^ 31 }
    ensures fault { Tells result (fault_by (row_of (first_token (whole line.now))) (behind (whole line.now))) }
    ensures line { IfOk result (λ c. c.line ≡ asked_by (row_of (first_token (whole line.now)))
        (behind (whole line.now))) }
    ensures nodes { IfOk result (λ c. c.nodes ≡ nodes_by (row_of (first_token (whole line.now)))
        (behind (whole line.now))) }
{
    let mut tokens = Tokens::new(line);
    let Some(word) = tokens.next() else {
        return Err(NO_SUCH_WORD);
    };
    line_behind(alloc, word, &mut tokens)
}

/// The command of a line, or its first fault.
#[tactic(auto, unfolding(crate::specs::Grammar::asked, crate::specs::Grammar::nodes_of, crate::specs::Faults::fault_of))]
fn command_of(alloc: Global, line: &[u8]) -> Result<Command, LineFault>
    requires { length line.now < 2 ^ 31 }
    ensures fault { Tells result (fault_of line.now) }
    ensures exact { IfOk result (λ c. c.line ≡ asked line.now) }
    ensures nodes { IfOk result (λ c. c.nodes ≡ nodes_of line.now) }
{
    if is_remark(line) {
        return Ok(Command {
            line: Line::Nothing,
            nodes: Sequence::new(alloc),
        });
    }
    line_of_words(alloc, line)
}

/// Reads a line of a script, given without its newline. (This project's profile.)
///
/// A line has at most 2,147,483,647 bytes. Bytes that are no text are bytes that no token takes. Whether
/// the nodes of the line are there isn't looked at: `nodes` of the command says what is to be asked of
/// them, and `LineWhy::Node` is never answered here.
///
/// # Errors
///
/// BadLine only where the line isn't in the grammar, with the place and the reason of its first fault. NoMemory where
/// memory runs out, whether the line is in the grammar or not.
pub fn parse_line(alloc: Global, line: &[u8]) -> Result<Command, LineFault>
    requires { length line.now < 2 ^ 31 }
    // What is read is a line of the grammar, with its values.
    ensures found { IfOk result (λ c. Asks line.now c.line) }
    // A line of the grammar is read with its values, unless memory runs out.
    ensures only { (wanted : Line) → Asks line.now wanted → Reads result wanted }
    // Which fault it is, and where: none exactly where the line is read.
    ensures fault { Tells result (fault_of line.now) }

    ensures exact { IfOk result (λ c. c.line ≡ asked line.now) }
    ensures nodes { IfOk result (λ c. c.nodes ≡ nodes_of line.now) }
{
    command_of(alloc, line)
}

/// The grammar and the faults agree: a text asks for a line exactly where it has no fault, and then for
/// that line alone.
pub fn grammar()
    ensures found { (text : List ℕ) → fault_of text ≡ None → Asks text (asked text) }
    ensures only { (text : List ℕ) (wanted : Line) → Asks text wanted → (fault_of text ≡ None) × (asked text ≡ wanted) }
{}
