//! The text of a node's links.

ghost use Rattle.std.specs.Prelude.{◌≡◌, ◌∷◌, ◌++◌, IfOk};
ghost use Rattle.tipc_report.specs.Telling.{end_letter, peer_text, links_text};

use crate::words::{number_in, word};
use std::alloc::Global;
use tipc_types::{LinkState, NoMemory, PeerLinks};

/// The letter of a link end.
fn end_letter(end: Option<LinkState>) -> &'static str
    ensures { result.now ≡ end_letter end }
{
    match end {
        None => "-",
        Some(LinkState::ResetUnknown | LinkState::ResetReset) => "R",
        Some(LinkState::WorkingWorking | LinkState::WorkingUnknown) => "W",
        Some(LinkState::Held) => "H",
    }
}

/// The text of the link ends to one peer, with a space in front.
fn peer_text(alloc: Global, links: &PeerLinks) -> Result<Vec<u8>, NoMemory>
    ensures { IfOk result (λ text. text.items ≡ 32 ∷ peer_text links.now) }
{
    let node = number_in(links.peer.word);
    let first = end_letter(links.first);
    let second = end_letter(links.second);
    Ok(format!(in alloc; " {node}:{first}{second}")?.into_bytes())
}

/// The text of the link ends of a node.
pub fn links_text(alloc: Global, peers: &[PeerLinks]) -> Result<Vec<u8>, NoMemory>
    ensures { IfOk result (λ text. text.items ≡ links_text peers.now) }
{
    let mut text = word(alloc, "links")?;
    for links in peers {
        let peer = peer_text(alloc, links)?;
        text.extend_from_slice(peer.as_slice())?;
    }
    Ok(text)
}
