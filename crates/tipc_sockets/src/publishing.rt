//! Questions about a node's own publications, and what follows where some are added or taken out.

ghost use Rattle.std.specs.Prelude.{◌≡◌, ◌≤◌, ◌&&◌, ◌==◌, ◌++◌, ◌∷◌, [], if◌then◌else◌, find, filter, not, IfOk, OnErr, OnOk};
ghost use Rattle.std.specs.List.{list_any};
ghost use Rattle.tipc_types.specs.Span.{Span};
ghost use Rattle.tipc_types.specs.Tables.{is_of, without as without_named, without_node};
ghost use Rattle.tipc_types.specs.Matching.{covers, overlaps};
ghost use Rattle.tipc_journal.specs.Names.{is_clusterwide};
ghost use Rattle.tipc_sockets.specs.Fates.{aimed_at, is_offered};
ghost use Rattle.tipc_topology.specs.declared.changes.TableChange.{TableChange};
ghost use Rattle.tipc_topology.specs.Changing.{changed, with_loss};
ghost use Rattle.tipc_sockets.specs.Publishing.{has_key, is_at, is_key_at};

use std::alloc::{AllocError, Global};
use tipc_name_table::Names;
use tipc_topology::{Leaving, Topology};
use tipc_types::{Addr, NoMemory, Publication, Scope};

/// Service types below this one can't be published. (This project's profile.)
pub(crate) const FIRST_KIND: u32 = 64;

/// Why nothing is published at a port. Nothing is changed then.
#[derive(Clone, Copy, Debug, PartialEq, Eq)]
pub enum PublishFault {
    /// The port isn't there.
    NoSocket,
    /// The service type is below 64.
    Reserved,
    /// This key is live at this node.
    Duplicate(u32),
    /// 1,024 own publications are live.
    Full,
    /// Memory ran out.
    NoMemory,
}

/// Why nothing is withdrawn at a port. Nothing is changed then.
#[derive(Clone, Copy, Debug, PartialEq, Eq)]
pub enum WithdrawFault {
    /// The port isn't there.
    NoSocket,
    /// The key isn't live at that port.
    Unknown,
}

/// Whether a publication is seen in the whole cluster.
fn is_clusterwide(scope: Scope) -> bool
    ensures { result ≡ is_clusterwide scope }
{
    match scope {
        Scope::Zone | Scope::Cluster => true,
        Scope::Node => false,
    }
}

/// Whether a publication covers an instance of a service type.
fn covers(p: &Publication, kind: u32, instance: u32) -> bool
    ensures { result ≡ covers kind instance p.now }
{
    p.range.kind() == kind && p.range.lower() <= instance && instance <= p.range.upper()
}

/// Whether a publication has an instance from `lower` to `upper` of a service type.
fn overlaps(p: &Publication, kind: u32, lower: u32, upper: u32) -> bool
    ensures { result ≡ overlaps (record { kind = kind; lower = lower; upper = upper }) p.now }
{
    p.range.kind() == kind && p.range.lower() <= upper && lower <= p.range.upper()
}

/// Whether a publication is of a node.
pub(crate) fn is_of(p: &Publication, node: Addr) -> bool
    ensures { result ≡ is_of node.word p.now }
{
    p.at.node.word == node.word
}

/// Whether a key is among them.
pub(crate) fn has_key(live: &[Publication], key: u32) -> bool
    ensures { result ≡ list_any (has_key key) live.now }
{
    live.iter().any(|p| p.key == key)
}

/// The one of a port and key.
pub(crate) fn find_at(live: &[Publication], port: u32, key: u32) -> Option<Publication>
    ensures { result ≡ find (λ p. is_at port p && has_key key p) live.now }
{
    live.iter()
        .copied()
        .find(|p| p.at.port == port && p.key == key)
}

/// Whether a port offers an instance to other nodes.
pub(crate) fn is_offered(live: &[Publication], port: u32, kind: u32, instance: u32) -> bool
    ensures { result ≡ is_offered live.now port kind instance }
{
    live.iter().any(|p| p.at.port == port && is_clusterwide(p.scope) && covers(p, kind, instance))
}

/// Those that a multicast from `lower` to `upper` of a service type is for.
pub(crate) fn aimed_at(
    alloc: Global,
    live: &[Publication],
    arrived: bool,
    kind: u32,
    lower: u32,
    upper: u32,
) -> Result<Vec<Publication>, AllocError>
    ensures { IfOk result (λ ps. ps.items ≡
        aimed_at live.now arrived (record { kind = kind; lower = lower; upper = upper })) }
{
    live.iter()
        .copied()
        .filter(|p| overlaps(p, kind, lower, upper) && (!arrived || is_clusterwide(p.scope)))
        .collect(alloc)
}

/// Whether one is at a port.
pub(crate) fn is_any_at(live: &[Publication], port: u32) -> bool
    ensures { result ≡ list_any (is_at port) live.now }
{
    live.iter().any(|p| p.at.port == port)
}

/// Those at a port, in their order.
pub(crate) fn all_at(
    alloc: Global,
    live: &[Publication],
    port: u32,
) -> Result<Vec<Publication>, AllocError>
    ensures { IfOk result (λ ps. ps.items ≡ filter (is_at port) live.now) }
{
    live.iter()
        .copied()
        .filter(|p| p.at.port == port)
        .collect(alloc)
}

/// Takes the one of a node and key out.
pub(crate) fn remove_named(live: &mut Vec<Publication>, node: Addr, key: u32)
    ensures { live.new.items ≡ without_named node.word key live.old.items }
{
    live.retain(|p| !(p.at.node.word == node.word && p.key == key));
}

/// Takes those of a node out.
pub(crate) fn remove_node(live: &mut Vec<Publication>, node: Addr)
    ensures { live.new.items ≡ without_node node.word live.old.items }
{
    live.retain(|p| !is_of(p, node));
}

/// Takes those at a port out.
pub(crate) fn remove_at(live: &mut Vec<Publication>, port: u32)
    ensures { live.new.items ≡ filter (λ p. not (is_at port p)) live.old.items }
{
    live.retain(|p| p.at.port != port);
}

/// Those of a node, in their order.
pub(crate) fn those_of(
    alloc: Global,
    all: &[Publication],
    node: Addr,
) -> Result<Vec<Publication>, AllocError>
    ensures { IfOk result (λ ps. ps.items ≡ filter (is_of node.word) all.now) }
{
    all.iter()
        .copied()
        .filter(|p| is_of(p, node))
        .collect(alloc)
}

/// Withdraws those of a node that have the key of one that is live at a port. It takes no memory.
pub(crate) fn withdraw_those_at<N: Names>(names: &mut N, live: &[Publication], own: Addr, port: u32)
    ensures { N.table names.new ≡ filter (λ p. not (is_of own.word p && is_key_at port live.now p))
        (N.table names.old) }
{
    for p in live {
        if p.at.port == port {
            let _ = names.withdraw(own, p.key);
        }
    }
}

/// Tells the subscribers that a publication isn't known any more. It takes no memory.
pub(crate) fn lose(topology: &mut Topology, p: &Publication)
    ensures { topology.new ≡ with_loss (p.now ∷ []) topology.old }
{
    topology.lost(&[*p]);
}

/// Tells the subscribers that the publications at a port aren't known any more, in their order. It takes no memory.
pub(crate) fn lose_those_at(topology: &mut Topology, live: &[Publication], port: u32)
    ensures { topology.new ≡ with_loss (filter (is_at port) live.now) topology.old }
{
    for p in live {
        if p.at.port == port {
            lose(topology, p);
        }
    }
}

/// Follows a publication that was added to the names, of which there are so many now: it is live where it is an own
/// one, the subscribers are told, and there are places for all where they are lost.
///
/// # Errors
///
/// `NoMemory` where memory runs out. It changes nothing, but there may be more places.
pub(crate) fn note_added(
    live: &mut Vec<Publication>,
    topology: &mut Topology,
    leaving: &mut Leaving,
    own: Addr,
    p: &Publication,
    count: usize,
) -> Result<(), NoMemory>
    ensures live { OnOk result (live.new.items ≡ (if is_of own.word p.now then live.old.items ++ p.now ∷ [] else
        live.old.items)) }
    ensures told { OnOk result (topology.new ≡ changed (TableChange.Added p.now) topology.old) }
    ensures places { OnOk result (count ≤ leaving.new) }
    ensures kept { leaving.old ≤ leaving.new }
    ensures same_live { OnErr result (live.new.items ≡ live.old.items) }
    ensures same_told { OnErr result (topology.new ≡ topology.old) }
{
    leaving.reserve(count)?;
    live.reserve(1)?;
    topology.added(p)?;
    if is_of(p, own) {
        match live.push(*p) {
            Ok(()) => {}
            Err(_) => unreachable!(),
        }
    }
    Ok(())
}
