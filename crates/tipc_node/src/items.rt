//! What a node learns of a peer's items.

ghost use Rattle.std.specs.Prelude.{◌≡◌, ◌≤◌, ◌^◌, ◌++◌, ◌∷◌, [], Some, None, fold, find, if◌then◌else◌, option_map, option_to_list, IfOk, IsErr, OnOk};
ghost use Rattle.tipc_types.specs.Address.{IsNodeWord};
ghost use Rattle.tipc_types.specs.Tables.{is_named};
ghost use Rattle.tipc_name_dist.specs.Applying.{can_be_put, learnt_entries};
ghost use Rattle.tipc_sockets.specs.Telling.{after_entry};
ghost use Rattle.tipc_sockets.specs.Learning.{fitting, learnt_by};

use tipc_journal::Entry;
use tipc_name_dist::told_by;
use tipc_name_table::{NameFault, Names};
use tipc_sockets::Sockets;
use tipc_types::{Addr, Item, Message, NoMemory, Publication};

/// Learns a publication of a peer, and answers how that is told: None exactly where there is no place for it.
fn learn(sockets: &mut Sockets, publication: &Publication) -> Result<Option<Entry>, NoMemory>
    requires { IsNodeWord publication.now.at.node.word }
    ensures told { IfOk result (λ told. told ≡ (if can_be_put sockets.old.names publication.now
        then Some (Entry.Learned publication.now) else None)) }
    ensures after { IfOk result (λ told. sockets.new ≡ fold after_entry sockets.old (option_to_list told)) }
    ensures own { sockets.new.own ≡ sockets.old.own }
{
    match sockets.publish(*publication) {
        Ok(()) => Ok(Some(Entry::Learned {
            publication: *publication,
        })),
        Err(NameFault::NoMemory) => Err(NoMemory),
        Err(NameFault::Duplicate) | Err(NameFault::Full) => Ok(None),
    }
}

/// Forgets the publication of a peer that has this key, and answers how that is told: None exactly where it isn't
/// held.
fn forget(sockets: &mut Sockets, from: Addr, key: u32) -> Option<Entry>
    ensures told { result ≡ option_map Entry.Forgot (find (is_named from.word key) sockets.old.names) }
    ensures after { sockets.new ≡ fold after_entry sockets.old (option_to_list result) }
{
    match sockets.withdraw(from, key) {
        Ok(publication) => Some(Entry::Forgot { publication }),
        Err(_) => None,
    }
}

/// Applies one item of a peer, and answers how that is told: None exactly where it doesn't fit.
fn apply_item(
    sockets: &mut Sockets,
    from: Addr,
    withdrawal: bool,
    item: &Item,
) -> Result<Option<Entry>, NoMemory>
    requires { IsNodeWord from.word }
    ensures told { IfOk result (λ told. told ≡
        option_map (learnt_by withdrawal) (fitting from.word withdrawal sockets.old.names item.now)) }
    ensures after { IfOk result (λ told. sockets.new ≡ fold after_entry sockets.old (option_to_list told)) }
    ensures own { sockets.new.own ≡ sockets.old.own }
{
    let Some(publication) = told_by(from, item) else {
        return Ok(None);
    };
    if withdrawal {
        Ok(forget(sockets, from, item.key))
    } else {
        learn(sockets, &publication)
    }
}

/// Tells that the item at this place doesn't fit. A place that a u32 doesn't count can't be told, which counts as want
/// of memory. (No packet has so many items.)
fn tell_misfit(inside: &mut Vec<Entry>, place: usize) -> Result<(), NoMemory>
    ensures far { 2 ^ 32 ≤ place → IsErr result }
    ensures told { OnOk result (inside.new.items ≡ inside.old.items ++ Entry.Dropped place ∷ []) }
{
    if place > u32::MAX as usize {
        return Err(NoMemory);
    }
    inside.push(Entry::Dropped {
        place: place as u32,
    })?;
    Ok(())
}

/// Applies the items of a peer's message one after the other, up to the first that doesn't fit, and tells what is
/// learned or forgotten by them. Where memory runs out some of them may have been applied: the caller has a copy of
/// the sockets.
pub fn apply_items(
    sockets: &mut Sockets,
    from: Addr,
    withdrawal: bool,
    items: &[Item],
    inside: &mut Vec<Entry>,
) -> Result<(), NoMemory>
    requires { IsNodeWord from.word }
    ensures sockets { OnOk result (sockets.new ≡ fold after_entry sockets.old
        (learnt_entries from.word sockets.old.names (Message.Items withdrawal items.now))) }
    ensures told { OnOk result (inside.new.items ≡ inside.old.items
        ++ learnt_entries from.word sockets.old.names (Message.Items withdrawal items.now)) }
    ensures own { sockets.new.own ≡ sockets.old.own }
{
    for place in 0..items.len() {
        let Some(entry) = apply_item(sockets, from, withdrawal, &items[place])? else {
            return tell_misfit(inside, place);
        };
        inside.push(entry)?;
    }
    Ok(())
}
