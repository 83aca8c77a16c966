//! What every name table does: publications, withdrawals, and the sockets that a name finds.

ghost use Rattle.std.specs.Prelude.{◌≡◌, ◌<◌, ◌≤◌, ◌↔◌, ℕ, List, Err, None, Some, false, true, count_by, find, filter, length, IfOk, OnErr, OnOk};
ghost use Rattle.std.specs.List.{list_any};
ghost use Rattle.tipc_types.specs.Address.{IsNodeWord};
ghost use Rattle.tipc_types.specs.declared.services.Publication.{Publication};
ghost use Rattle.tipc_types.specs.Matching.{covers, overlaps};
ghost use Rattle.tipc_types.specs.Tables.{is_named, is_of, put, without, without_node, IsTable};

use std::alloc::Global;
use tipc_types::{Addr, List, NoMemory, Publication, ServiceRange};

/// The most publications of one node. (This project's profile.)
pub const MOST_PUBLICATIONS: usize = 1_024;

/// Why a publication isn't added. Nothing is changed then.
#[derive(Clone, Copy, Debug, PartialEq, Eq)]
pub enum NameFault {
    /// A publication of that node and key is held.
    Duplicate,
    /// 1,024 publications of that node are held.
    Full,
    /// Memory ran out.
    NoMemory,
}

/// No publication of that node and key is held.
#[derive(Clone, Copy, Debug, PartialEq, Eq)]
pub struct Unknown;

/// A name table: publications, of which node and key name one. Ranges may overlap, also those of one node.
/// (Programmer's guide, service ranges; the order, the keys and the limit are this project's profile.)
pub trait Names {
    /// The publications that are held, in order of node, port and key.
    ghost table: { Self → List Publication };

    /// Adds a publication of one of the 32 nodes.
    ///
    /// # Errors
    ///
    /// `Duplicate` exactly where one of that node and key is held; else `Full` exactly where 1,024 of that node are
    /// held; else `NoMemory` where memory runs out. An error changes nothing.
    fn publish(&mut self, p: Publication) -> Result<(), NameFault>
        requires { IsNodeWord p.at.node.word }
        ensures ok { OnOk result (table self.new ≡ put p (table self.old)) }
        ensures duplicate { (result ≡ Err NameFault.Duplicate) ↔
            (list_any (is_named p.at.node.word p.key) (table self.old) ≡ true) }
        ensures full { (result ≡ Err NameFault.Full) ↔
            ((list_any (is_named p.at.node.word p.key) (table self.old) ≡ false) ×
            (1024 ≤ count_by (is_of p.at.node.word) (table self.old))) }
        ensures err { OnErr result (table self.new ≡ table self.old) }
        ensures sound { IsTable (table self.new) };

    /// Takes the publication of a node and key out. It takes no memory.
    ///
    /// # Errors
    ///
    /// `Unknown` exactly where none is held. It changes nothing.
    fn withdraw(&mut self, node: Addr, key: u32) -> Result<Publication, Unknown>
        ensures ok { IfOk result (λ p. find (is_named node.word key) (table self.old) ≡ Some p) }
        ensures after { OnOk result (table self.new ≡ without node.word key (table self.old)) }
        ensures unknown { OnErr result (find (is_named node.word key) (table self.old) ≡ None) }
        ensures err { OnErr result (table self.new ≡ table self.old) }
        ensures sound { IsTable (table self.new) };

    /// All publications of a service type that cover an instance, those of every node, in order of node, port and key:
    /// 1,024 at most of each of the 32 nodes.
    fn matches(&self, alloc: Global, kind: u32, instance: u32) -> Result<List, NoMemory>
        ensures matches { IfOk result (λ ps. ps ≡ filter (covers kind instance) (table self.now)) }
        ensures few { IfOk result (λ ps. length ps ≤ 32768) }
        ensures sound { IsTable (table self.now) };

    /// All publications that share an instance with a range of their service type, in order of node, port and key.
    fn overlapping(&self, alloc: Global, range: ServiceRange) -> Result<List, NoMemory>
        ensures overlap { IfOk result (λ ps. ps ≡ filter (overlaps range) (table self.now)) }
        ensures sound { IsTable (table self.now) };

    /// Takes all publications of a node out. It takes no memory.
    fn purge(&mut self, node: Addr)
        ensures others { table self.new ≡ without_node node.word (table self.old) }
        ensures sound { IsTable (table self.new) };
}
