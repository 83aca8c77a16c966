//! The item messages of a node: one for a publication or a withdrawal, and those with which a contact begins.

ghost use Rattle.std.specs.Prelude.{◌≡◌, ◌<◌, ◌++◌, ◌∷◌, [], false, length, IfOk, OnOk};
ghost use Rattle.tipc_journal.specs.Names.{is_clusterwide};
ghost use Rattle.tipc_name_dist.specs.Items.{item_of, items_for, IsBulk};

use std::alloc::Global;
use tipc_types::{Item, ItemList, Message, NoMemory, Publication, Scope};

/// The most items of a message. (This project's profile.)
pub const MOST_ITEMS: usize = 70;

/// A publication as an item.
fn item_of(p: &Publication) -> Item
    ensures { result ≡ item_of p.now }
{
    Item {
        kind: p.range.kind(),
        lower: p.range.lower(),
        upper: p.range.upper(),
        port: p.at.port,
        key: p.key,
    }
}

/// Whether a publication is seen in the cluster: one of zone scope is treated as one of cluster scope.
fn is_clusterwide(p: &Publication) -> bool
    ensures { result ≡ is_clusterwide p.now.scope }
{
    match p.scope {
        Scope::Zone | Scope::Cluster => true,
        Scope::Node => false,
    }
}

/// The message that tells of one publication, or of its withdrawal. (TIPC 2.0 draft, name distributor.)
///
/// # Errors
///
/// `NoMemory` where memory runs out.
pub fn item(alloc: Global, p: &Publication, withdrawal: bool) -> Result<Message, NoMemory>
    ensures { IfOk result (λ m. m ≡ Message.Items withdrawal (item_of p.now ∷ [])) }
{
    let mut items = ItemList::new(alloc);
    items.push(item_of(p))?;
    Ok(Message::Items { withdrawal, items })
}

/// A message that tells of publications.
fn telling(items: ItemList) -> Message
    ensures { result ≡ Message.Items false items }
{
    Message::Items {
        withdrawal: false,
        items,
    }
}

/// Adds what a message tells of a publication: nothing where it isn't seen in the cluster.
fn add(items: &mut ItemList, p: &Publication) -> Result<(), NoMemory>
    ensures { OnOk result (items.new ≡ items.old ++ items_for p.now) }
{
    if !is_clusterwide(p) {
        return Ok(());
    }
    items.push(item_of(p))
}

/// Closes a message that is full.
fn close(alloc: Global, messages: &mut Vec<Message>, items: &mut ItemList) -> Result<(), NoMemory>
    ensures full { length items.old ≡ 70 →
        OnOk result ((messages.new.items ≡ messages.old.items ++ Message.Items false items.old ∷ []) ×
        (items.new ≡ [])) }
    ensures more { length items.old < 70 →
        OnOk result ((messages.new.items ≡ messages.old.items) × (items.new ≡ items.old)) }
{
    if items.len() != MOST_ITEMS {
        return Ok(());
    }
    let full = std::mem::replace(items, ItemList::new(alloc));
    messages.push(telling(full))?;
    Ok(())
}

/// The messages with which a contact begins: they tell of the live publications that are seen in the cluster, in the
/// order of publishing, at most 70 in each. Where there are none, there is no message. (TIPC 2.0 draft, name
/// distributor; the number is this project's profile.)
///
/// # Errors
///
/// `NoMemory` where memory runs out.
pub fn bulk(alloc: Global, live: &[Publication]) -> Result<Vec<Message>, NoMemory>
    ensures { IfOk result (λ messages. IsBulk live.now messages.items) }
{
    let mut messages = Vec::new(alloc);
    let mut items = ItemList::new(alloc);
    for p in live {
        add(&mut items, p)?;
        close(alloc, &mut messages, &mut items)?;
    }
    if items.is_empty() {
        return Ok(messages);
    }
    messages.push(telling(items))?;
    Ok(messages)
}
