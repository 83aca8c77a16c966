//! The text of a message that was received.

ghost use Rattle.std.specs.Prelude.{◌≡◌, ◌∷◌, [], IfOk, length, codes};
ghost use Rattle.std.specs.Fmt.{decimal};
ghost use Rattle.tipc_report.specs.Closing.{spaced};
ghost use Rattle.tipc_report.specs.Answering.{is_shown, body_text, port_text, message_text};

use crate::words::{number_in, word};
use std::alloc::Global;
use tipc_script::is_visible;
use tipc_types::{Body, Message, NoMemory, PortId};

/// The most bytes of a body that is shown.
const LONGEST_SHOWN: usize = 64;

/// Whether a body is shown.
fn is_shown(body: &[u8]) -> bool
    ensures { result ≡ is_shown body.now }
{
    !body.is_empty() && body.len() <= LONGEST_SHOWN && is_visible(body)
}

/// A body as it is shown.
#[tactic(auto, unfolding(crate::specs::Answering::body_text))]
fn shown(body: &[u8]) -> &[u8]
    ensures { result.now ≡ body_text body.now }
{
    if is_shown(body) { body } else { b"-" }
}

/// What comes before the body of a message.
fn message_head(alloc: Global, from: PortId, code: u8, len: usize) -> Result<Vec<u8>, NoMemory>
    ensures { IfOk result (λ text. text.items ≡ spaced (codes "got" ∷ port_text from.node.word from.port ∷
        decimal code ∷ decimal len ∷ [])) }
{
    let node = number_in(from.node.word);
    let port = from.port;
    Ok(format!(in alloc; "got {node}:{port} {code} {len}")?.into_bytes())
}

/// The text of a user's message that was taken.
#[tactic(auto, using(crate::proofs::Spacing::spaced_more))]
fn payload_text(alloc: Global, from: PortId, code: u8, body: &Body) -> Result<Vec<u8>, NoMemory>
    ensures { IfOk result (λ text. text.items ≡ spaced (codes "got" ∷ port_text from.node.word from.port ∷
        decimal code ∷ decimal (length body.now) ∷ body_text body.now ∷ [])) }
{
    let mut text = message_head(alloc, from, code, body.len())?;
    text.push(b' ')?;
    text.extend_from_slice(shown(body.as_slice()))?;
    Ok(text)
}

/// The text of a message that was taken.
pub fn message_text(alloc: Global, message: &Message) -> Result<Vec<u8>, NoMemory>
    ensures { IfOk result (λ text. text.items ≡ message_text message.now) }
{
    match message {
        Message::Payload {
            importance: _,
            form: _,
            from,
            to: _,
            name_kind: _,
            lower: _,
            upper: _,
            code,
            droppable: _,
            body,
        } => payload_text(alloc, *from, *code, body),
        Message::Items {
            withdrawal: _,
            items: _,
        } => word(alloc, "got"),
    }
}
