//! One publication more in the three orders, and one less.

ghost use Rattle.std.specs.Prelude.{◌≡◌, ◌≤◌, ◌↔◌, ◌++◌, ◌∷◌, Contains, Err, OnErr, OnOk, List, count_by, false, filter, not, true};
ghost use Rattle.std.specs.List.{list_any};
ghost use Rattle.std.specs.List.Sorted.{IsStrictlySortedBy};
ghost use Rattle.tipc_types.specs.declared.services.Publication.{Publication};
ghost use Rattle.tipc_types.specs.Tables.{is_named, is_of, put, without, IsInOrder};
ghost use Rattle.tipc_name_index.specs.Ranges.{begins_before, name_before, name_cmp, range_cmp, AreSame};

use crate::searches::{name_place_for, named_in, place_for, range_place_for, those_of};
use tipc_name_table::{MOST_PUBLICATIONS, NameFault};
use tipc_types::{Addr, Publication};

/// Whether one of a node and key is held, by the same publications in the order of names.
fn is_held(names: &[Publication], node: Addr, key: u32) -> bool
    requires { IsStrictlySortedBy name_cmp names.now }
    ensures { (held : List Publication) → AreSame held names.now → result ≡ list_any (is_named node.word key) held }
{
    named_in(names, node, key).is_some()
}

/// How many publications of a node are held.
fn count_of(held: &[Publication], node: Addr) -> usize
    requires { IsInOrder held.now }
    ensures { result ≡ count_by (is_of node.word) held.now }
{
    those_of(held, node).len()
}

/// Whether a publication of a node and key may be added. Those of the node are counted only where so many are held in
/// all.
///
/// # Errors
///
/// `Duplicate` exactly where one of that node and key is held; else `Full` exactly where 1,024 of that node are held.
pub(crate) fn check(
    held: &[Publication],
    names: &[Publication],
    node: Addr,
    key: u32,
) -> Result<(), NameFault>
    requires held { IsInOrder held.now }
    requires names { IsStrictlySortedBy name_cmp names.now }
    requires alike { AreSame held.now names.now }
    ensures duplicate { (result ≡ Err NameFault.Duplicate) ↔ (list_any (is_named node.word key) held.now ≡ true) }
    ensures full { (result ≡ Err NameFault.Full) ↔ ((list_any (is_named node.word key) held.now ≡ false) ×
        (1024 ≤ count_by (is_of node.word) held.now)) }
{
    if is_held(names, node, key) {
        return Err(NameFault::Duplicate);
    }
    if held.len() >= MOST_PUBLICATIONS && count_of(held, node) >= MOST_PUBLICATIONS {
        return Err(NameFault::Full);
    }
    Ok(())
}

/// Puts a publication in its place in the three orders.
///
/// # Errors
///
/// `NoMemory` where memory runs out. It changes nothing.
pub(crate) fn put_each(
    held: &mut Vec<Publication>,
    ranges: &mut Vec<Publication>,
    names: &mut Vec<Publication>,
    p: &Publication,
) -> Result<(), NameFault>
    requires held { IsInOrder held.old.items }
    requires ranges { IsStrictlySortedBy range_cmp ranges.old.items }
    requires names { IsStrictlySortedBy name_cmp names.old.items }
    ensures held { OnOk result (held.new.items ≡ put p.now held.old.items) }
    ensures ranges { OnOk result (ranges.new.items ≡ filter (λ q. begins_before q p.now) ranges.old.items
        ++ p.now ∷ filter (λ q. not (begins_before q p.now)) ranges.old.items) }
    ensures names { OnOk result (names.new.items ≡
        filter (name_before p.now.at.node.word p.now.key) names.old.items
        ++ p.now ∷ filter (λ q. not (name_before p.now.at.node.word p.now.key q)) names.old.items) }
    ensures err { OnErr result ((result ≡ Err NameFault.NoMemory) × (held.new.items ≡ held.old.items) ×
        (ranges.new.items ≡ ranges.old.items) × (names.new.items ≡ names.old.items)) }
{
    let Ok(()) = ranges.reserve(1) else {
        return Err(NameFault::NoMemory);
    };
    let Ok(()) = names.reserve(1) else {
        return Err(NameFault::NoMemory);
    };
    let at = place_for(held.as_slice(), p);
    held.insert(at, *p)?;
    let at = range_place_for(ranges.as_slice(), p);
    match ranges.insert(at, *p) {
        Ok(()) => {}
        Err(_) => unreachable!(),
    }
    let at = name_place_for(names.as_slice(), p.at.node, p.key);
    match names.insert(at, *p) {
        Ok(()) => Ok(()),
        Err(_) => unreachable!(),
    }
}

/// Takes a publication out of those that stand in order of node, port and key. It takes no memory.
pub(crate) fn take_out(held: &mut Vec<Publication>, p: &Publication)
    requires ordered { IsInOrder held.old.items }
    requires there { Contains held.old.items p.now }
    requires one { count_by (is_named p.now.at.node.word p.now.key) held.old.items ≤ 1 }
    ensures { held.new.items ≡ without p.now.at.node.word p.now.key held.old.items }
{
    let at = place_for(held.as_slice(), p);
    let _ = held.remove(at);
}

/// Takes a publication out of those that stand in the order of ranges. It takes no memory.
pub(crate) fn take_range_out(ranges: &mut Vec<Publication>, p: &Publication)
    requires ordered { IsStrictlySortedBy range_cmp ranges.old.items }
    requires there { Contains ranges.old.items p.now }
    requires one { count_by (is_named p.now.at.node.word p.now.key) ranges.old.items ≤ 1 }
    ensures { ranges.new.items ≡ without p.now.at.node.word p.now.key ranges.old.items }
{
    let at = range_place_for(ranges.as_slice(), p);
    let _ = ranges.remove(at);
}

/// Takes a publication out of those that stand in the order of names. It takes no memory.
pub(crate) fn take_name_out(names: &mut Vec<Publication>, p: &Publication)
    requires ordered { IsStrictlySortedBy name_cmp names.old.items }
    requires there { Contains names.old.items p.now }
    requires one { count_by (is_named p.now.at.node.word p.now.key) names.old.items ≤ 1 }
    ensures { names.new.items ≡ without p.now.at.node.word p.now.key names.old.items }
{
    let at = name_place_for(names.as_slice(), p.at.node, p.key);
    let _ = names.remove(at);
}
