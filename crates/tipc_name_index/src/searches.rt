//! Searches by halves in publications that are kept in order.

ghost use Rattle.std.specs.Prelude.{◌≡◌, ◌≤◌, drop, filter, find, length, not, take};
ghost use Rattle.std.specs.List.Sorted.{IsStrictlySortedBy};
ghost use Rattle.tipc_types.specs.Tables.{is_named, is_of, stands_before, IsInOrder};
ghost use Rattle.tipc_name_index.specs.Ranges.{begins_before, may_reach, name_before, name_cmp, range_cmp};

use crate::orders::{is_named, name_before, place_cmp, range_cmp};
use tipc_types::{Addr, Publication};

/// How many of the publications that stand in order of node, port and key stand before this one.
pub(crate) fn place_for(held: &[Publication], p: &Publication) -> usize
    requires { IsInOrder held.now }
    ensures within { result ≤ length held.now }
    ensures before { take result held.now ≡ filter (λ q. stands_before q p.now) held.now }
    ensures behind { drop result held.now ≡ filter (λ q. not (stands_before q p.now)) held.now }
{
    held.partition_point(|q| place_cmp(q, p).is_lt())
}

/// How many of the publications that stand in the order of ranges stand before this one.
pub(crate) fn range_place_for(ranges: &[Publication], p: &Publication) -> usize
    requires { IsStrictlySortedBy range_cmp ranges.now }
    ensures within { result ≤ length ranges.now }
    ensures before { take result ranges.now ≡ filter (λ q. begins_before q p.now) ranges.now }
    ensures behind { drop result ranges.now ≡ filter (λ q. not (begins_before q p.now)) ranges.now }
{
    ranges.partition_point(|q| range_cmp(q, p).is_lt())
}

/// How many of the publications that stand in the order of names stand before the name of a node and key.
pub(crate) fn name_place_for(names: &[Publication], node: Addr, key: u32) -> usize
    requires { IsStrictlySortedBy name_cmp names.now }
    ensures within { result ≤ length names.now }
    ensures before { take result names.now ≡ filter (name_before node.word key) names.now }
    ensures behind { drop result names.now ≡ filter (λ q. not (name_before node.word key q)) names.now }
{
    names.partition_point(|q| name_before(q, node, key))
}

/// The publication of a node and key among those that stand in the order of names.
pub(crate) fn named_in(names: &[Publication], node: Addr, key: u32) -> Option<Publication>
    requires { IsStrictlySortedBy name_cmp names.now }
    ensures { result ≡ find (is_named node.word key) names.now }
{
    let at = name_place_for(names, node, key);
    if at >= names.len() {
        return None;
    }
    let p = names[at];
    if !is_named(&p, node, key) {
        return None;
    }
    Some(p)
}

/// Those of a node, which stand together in the order of node, port and key.
pub(crate) fn those_of(held: &[Publication], node: Addr) -> &[Publication]
    requires { IsInOrder held.now }
    ensures { result.now ≡ filter (is_of node.word) held.now }
{
    let first = held.partition_point(|p| p.at.node.word < node.word);
    let from = &held[first..];
    let count = from.partition_point(|p| p.at.node.word <= node.word);
    &from[..count]
}

/// Those of a service type that begin no later than at an instance, which stand together in the order of ranges.
pub(crate) fn those_that_may_reach(
    ranges: &[Publication],
    kind: u32,
    instance: u32,
) -> &[Publication]
    requires { IsStrictlySortedBy range_cmp ranges.now }
    ensures { result.now ≡ filter (may_reach kind instance) ranges.now }
{
    let first = ranges.partition_point(|p| p.range.kind() < kind);
    let from = &ranges[first..];
    let count = from.partition_point(|p| {
        p.range.kind() < kind || (p.range.kind() == kind && p.range.lower() <= instance)
    });
    &from[..count]
}
