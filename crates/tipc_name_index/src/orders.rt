//! The three orders in which publications are kept. What comes later in an order is looked at only where all before it
//! ties.

ghost use Rattle.std.specs.Prelude.{◌≡◌, IsPermutation, IsSortedBy};
ghost use Rattle.tipc_types.specs.Tables.{is_named, place_cmp, stands_before};
ghost use Rattle.tipc_name_index.specs.Ranges.{name_before, range_cmp};

use std::cmp::Ordering;
use tipc_types::{Addr, Publication};

/// How two publications stand to each other in the order of node, port and key.
pub(crate) fn place_cmp(p: &Publication, q: &Publication) -> Ordering
    ensures { result ≡ place_cmp p.now q.now }
{
    if p.at.node.word != q.at.node.word {
        return p.at.node.word.cmp(&q.at.node.word);
    }
    if p.at.port != q.at.port {
        return p.at.port.cmp(&q.at.port);
    }
    p.key.cmp(&q.key)
}

/// How two publications stand to each other in the order of ranges: by service type, bounds, node, port and key.
pub(crate) fn range_cmp(p: &Publication, q: &Publication) -> Ordering
    ensures { result ≡ range_cmp p.now q.now }
{
    if p.range.kind() != q.range.kind() {
        return p.range.kind().cmp(&q.range.kind());
    }
    if p.range.lower() != q.range.lower() {
        return p.range.lower().cmp(&q.range.lower());
    }
    if p.range.upper() != q.range.upper() {
        return p.range.upper().cmp(&q.range.upper());
    }
    place_cmp(p, q)
}

/// Whether a publication stands before the name of a node and key in the order of names, which is that of node and key.
pub(crate) fn name_before(p: &Publication, node: Addr, key: u32) -> bool
    ensures { result ≡ name_before node.word key p.now }
{
    if p.at.node.word != node.word {
        return p.at.node.word < node.word;
    }
    p.key < key
}

/// Whether a publication is that of a node and key.
pub(crate) fn is_named(p: &Publication, node: Addr, key: u32) -> bool
    ensures { result ≡ is_named node.word key p.now }
{
    p.at.node.word == node.word && p.key == key
}

/// Puts publications in order of node, port and key. It takes no memory.
pub(crate) fn put_in_order(found: &mut Vec<Publication>)
    ensures same { IsPermutation found.old.items found.new.items }
    ensures ordered { IsSortedBy stands_before found.new.items }
{
    found.sort_unstable_by(|p, q| place_cmp(p, q));
}
