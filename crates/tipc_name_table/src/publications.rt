//! What is asked of publications and of lists of them.

ghost use Rattle.std.specs.Prelude.{◌≡◌, ◌≤◌, length, insert, count_by, filter, find, IfOk};
ghost use Rattle.std.specs.List.{list_any};
ghost use Rattle.tipc_types.specs.Matching.{covers, overlaps};
ghost use Rattle.tipc_types.specs.Tables.{is_named, is_of, place_of, put, stands_before, without, without_node};

use std::alloc::{AllocError, Global};
use tipc_types::{Addr, Publication, ServiceRange};

/// Whether a publication covers an instance of a service type.
fn covers(p: &Publication, kind: u32, instance: u32) -> bool
    ensures { result ≡ covers kind instance p.now }
{
    p.range.kind() == kind && p.range.lower() <= instance && instance <= p.range.upper()
}

/// Whether a publication shares an instance with a range of its service type.
fn overlaps(p: &Publication, range: &ServiceRange) -> bool
    ensures { result ≡ overlaps range.now p.now }
{
    p.range.kind() == range.kind()
        && p.range.lower() <= range.upper()
        && range.lower() <= p.range.upper()
}

/// Whether a publication is that of a node and key.
fn is_named(p: &Publication, node: Addr, key: u32) -> bool
    ensures { result ≡ is_named node.word key p.now }
{
    p.at.node.word == node.word && p.key == key
}

/// Whether a publication is of a node.
fn is_of(p: &Publication, node: Addr) -> bool
    ensures { result ≡ is_of node.word p.now }
{
    p.at.node.word == node.word
}

/// What publications stand in the order of: node, port and key.
fn place(p: &Publication) -> [u32; 3]
    ensures { result ≡ place_of p.now }
{
    [p.at.node.word, p.at.port, p.key]
}

/// Whether a publication stands before another one.
fn stands_before(p: &Publication, other: &Publication) -> bool
    ensures { result ≡ stands_before p.now other.now }
{
    place(p).cmp(&place(other)).is_lt()
}

/// Whether one of that node and key is among them.
pub fn is_held(table: &[Publication], node: Addr, key: u32) -> bool
    ensures { result ≡ list_any (is_named node.word key) table.now }
{
    table.iter().any(|p| is_named(p, node, key))
}

/// How many of a node are among them.
pub(crate) fn count_of(table: &[Publication], node: Addr) -> usize
    ensures { result ≡ count_by (is_of node.word) table.now }
{
    table.iter().filter(|p| is_of(p, node)).count()
}

/// The first of that node and key.
pub fn named(table: &[Publication], node: Addr, key: u32) -> Option<Publication>
    ensures { result ≡ find (is_named node.word key) table.now }
{
    table.iter().copied().find(|p| is_named(p, node, key))
}

/// Where a publication is put: behind those that stand before it.
pub(crate) fn place_for(table: &[Publication], p: &Publication) -> usize
    ensures within { result ≤ length table.now }
    ensures put { insert table.now result p.now ≡ put p.now table.now }
{
    let mut at = 0;
    while at < table.len() && stands_before(&table[at], p) {
        at += 1;
    }
    at
}

/// Those that cover an instance.
pub fn covering(
    alloc: Global,
    table: &[Publication],
    kind: u32,
    instance: u32,
) -> Result<Vec<Publication>, AllocError>
    ensures { IfOk result (λ ps. ps.items ≡ filter (covers kind instance) table.now) }
{
    table
        .iter()
        .copied()
        .filter(|p| covers(p, kind, instance))
        .collect(alloc)
}

/// Those that share an instance with a range.
pub fn sharing(
    alloc: Global,
    table: &[Publication],
    range: &ServiceRange,
) -> Result<Vec<Publication>, AllocError>
    ensures { IfOk result (λ ps. ps.items ≡ filter (overlaps range.now) table.now) }
{
    table
        .iter()
        .copied()
        .filter(|p| overlaps(p, range))
        .collect(alloc)
}

/// Takes those of a node and key out.
pub(crate) fn remove_named(table: &mut Vec<Publication>, node: Addr, key: u32)
    ensures { table.new.items ≡ without node.word key table.old.items }
{
    table.retain(|p| !is_named(p, node, key));
}

/// Takes those of a node out.
pub fn remove_node(table: &mut Vec<Publication>, node: Addr)
    ensures { table.new.items ≡ without_node node.word table.old.items }
{
    table.retain(|p| !is_of(p, node));
}
