//! The text of the publications that a node knows.

ghost use Rattle.std.specs.Prelude.{◌≡◌, ◌∷◌, ◌++◌, IfOk};
ghost use Rattle.tipc_report.specs.Telling.{publication_text, table_text};

use crate::words::{number_in, word};
use std::alloc::Global;
use tipc_types::{NoMemory, Publication};

/// The text of a publication, with a space in front.
fn publication_text(alloc: Global, p: &Publication) -> Result<Vec<u8>, NoMemory>
    ensures { IfOk result (λ text. text.items ≡ 32 ∷ publication_text p.now) }
{
    let (kind, lower, upper) = (p.range.kind(), p.range.lower(), p.range.upper());
    let node = number_in(p.at.node.word);
    let (port, key) = (p.at.port, p.key);
    Ok(format!(in alloc; " {kind},{lower},{upper},{node}:{port},{key}")?.into_bytes())
}

/// The text of the publications that a node knows.
pub fn table_text(alloc: Global, publications: &[Publication]) -> Result<Vec<u8>, NoMemory>
    ensures { IfOk result (λ text. text.items ≡ table_text publications.now) }
{
    let mut text = word(alloc, "table")?;
    for p in publications {
        let shown = publication_text(alloc, p)?;
        text.extend_from_slice(shown.as_slice())?;
    }
    Ok(text)
}
