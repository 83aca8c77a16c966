//! Messages of items as the packets of the name distributor.

ghost use Rattle.std.specs.Prelude.{◌≡◌, ◌+◌, ◌*◌, ◌≤◌, ◌++◌, Some, length, IfOk, OnOk};
ghost use Rattle.tipc_types.specs.declared.message_forms.Message.TheVariants as message;
ghost use Rattle.tipc_header.specs.Grammar.{Fits};
ghost use Rattle.tipc_header.specs.Spelling.{spelling, word};
ghost use Rattle.tipc_message.specs.ItemWords.{item_at, item_bytes, items_bytes, items_of, AreInWords, IsInWords};
ghost use Rattle.tipc_message.specs.Wire.{distribution_of, is_withdrawal, items_packet, message_of};

use crate::encoding::encoded;
use std::alloc::Global;
use tipc_header::{DistributionType, Header, NameDistribution, word};
use tipc_types::{Addr, Bytes, Item, ItemList, Message, NoMemory};

/// How many bytes an item has in a packet: five words.
const ITEM_BYTES: usize = 20;

/// Appends a word.
#[tactic(auto, unfolding(tipc_header::specs::Spelling::word))]
fn put_word(into: &mut Vec<u8>, number: u32) -> Result<(), NoMemory>
    ensures { OnOk result (into.new.items ≡ into.old.items ++ word number) }
{
    into.extend_from_slice(&number.to_be_bytes())?;
    Ok(())
}

/// Appends an item.
fn put_item(into: &mut Vec<u8>, item: &Item) -> Result<(), NoMemory>
    ensures bytes { OnOk result (into.new.items ≡ into.old.items ++ item_bytes item.now) }
    ensures words { OnOk result (IsInWords item.now) }
{
    let Item {
        kind,
        lower,
        upper,
        port,
        key,
    } = *item;
    put_word(into, kind)?;
    put_word(into, lower)?;
    put_word(into, upper)?;
    put_word(into, port)?;
    put_word(into, key)?;
    Ok(())
}

/// Items as bytes.
#[tactic(auto, unfolding(crate::specs::ItemWords::items_bytes))]
fn items_bytes(alloc: Global, items: &[Item]) -> Result<Vec<u8>, NoMemory>
    ensures bytes { IfOk result (λ bytes. bytes.items ≡ items_bytes items.now) }
    ensures words { OnOk result (AreInWords items.now) }
{
    let mut bytes = Vec::new(alloc);
    for item in items {
        put_item(&mut bytes, item)?;
    }
    Ok(bytes)
}

/// The type of the packet of publications or withdrawals.
fn distribution_type(withdrawal: bool) -> DistributionType
    ensures { result ≡ distribution_of withdrawal }
{
    match withdrawal {
        true => DistributionType::Withdrawal,
        false => DistributionType::Publication,
    }
}

/// The bytes of the packet of this node's publications or withdrawals.
pub(crate) fn distribution_bytes(
    alloc: Global,
    own: Addr,
    withdrawal: bool,
    items: &[Item],
) -> Result<Bytes, NoMemory>
    requires { (1 ≤ length items.now) × (length items.now ≤ 70) }
    ensures spelled { IfOk result (λ bytes. Fits (items_packet own.word withdrawal items.now) ×
        (bytes ≡ spelling (items_packet own.word withdrawal items.now)) ×
        (message_of (items_packet own.word withdrawal items.now) ≡ Some (message.Items withdrawal items.now))) }
    ensures long { IfOk result (λ bytes. 24 ≤ length bytes) }
{
    let header = NameDistribution {
        distribution_type: distribution_type(withdrawal),
        broadcast_acknowledgement: 0,
    };
    let rest = items_bytes(alloc, items)?;
    encoded(alloc, own, Header::NameDistributor(header), rest.as_slice())
}

/// The item of this index.
fn item_at(bytes: &[u8], index: usize) -> Item
    requires { 20 * index + 20 ≤ length bytes.now }
    ensures { result ≡ item_at index bytes.now }
{
    let first = 5 * index;
    Item {
        kind: word(bytes, first),
        lower: word(bytes, first + 1),
        upper: word(bytes, first + 2),
        port: word(bytes, first + 3),
        key: word(bytes, first + 4),
    }
}

/// The items in bytes.
#[tactic(auto, unfolding(crate::specs::ItemWords::items_of))]
fn items_of(alloc: Global, bytes: &[u8]) -> Result<ItemList, NoMemory>
    ensures { IfOk result (λ items. items ≡ items_of bytes.now) }
{
    let mut items = ItemList::new(alloc);
    for index in 0..bytes.len() / ITEM_BYTES {
        items.push(item_at(bytes, index))?;
    }
    Ok(items)
}

/// Whether a packet is one of withdrawals.
fn is_withdrawal(distribution_type: DistributionType) -> bool
    ensures { result ≡ is_withdrawal distribution_type }
{
    match distribution_type {
        DistributionType::Withdrawal => true,
        DistributionType::Publication => false,
    }
}

/// The message of the packet with this header, and these bytes behind it.
pub(crate) fn distribution_message(
    alloc: Global,
    distribution: &NameDistribution,
    bytes: &[u8],
) -> Result<Message, NoMemory>
    ensures { IfOk result (λ m. m ≡
        message.Items (is_withdrawal distribution.now.distribution_type) (items_of bytes.now)) }
{
    let items = items_of(alloc, bytes)?;
    Ok(Message::Items {
        withdrawal: is_withdrawal(distribution.distribution_type),
        items,
    })
}
