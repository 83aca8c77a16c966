//! The plain list.

ghost use Rattle.std.specs.Prelude.{◌≡◌, [], IfOk};

use crate::names::{MOST_PUBLICATIONS, NameFault, Names, Unknown};
use crate::publications::{
    count_of, covering, is_held, named, place_for, remove_named, remove_node, sharing,
};
use std::alloc::{AllocFailed, Global};
use std::marker::Model;
use tipc_types::{Addr, List, NoMemory, Publication, ServiceRange};

/// A name table that is a list of its publications, in order of node, port and key. A look-up goes through all of it.
#[derive(Drop)]
pub struct NameTable {
    held: Vec<Publication>,
}

impl Model for NameTable {
    ghost use Rattle.std.specs.Prelude.{List};
    ghost use Rattle.tipc_types.specs.declared.services.Publication.{Publication};
    ghost use Rattle.tipc_types.specs.Tables.{AreOfCluster, IsTable};

    ghost Value = { List Publication };

    ghost view = { λ t. t.held.items };

    ghost invariant = { λ t. IsTable t.held.items × AreOfCluster t.held.items };
}

impl From<AllocFailed<Publication>> for NameFault {
    ghost use Rattle.std.specs.Prelude.{◌≡◌};
    ghost use Rattle.tipc_name_table.specs.declared.names.NameFault.TheVariants as fault;

    ghost from_gives = { λ _ e. e ≡ fault.NoMemory };

    fn from(_error: AllocFailed<Publication>) -> NameFault {
        NameFault::NoMemory
    }
}

impl NameTable {
    /// A table without publications.
    pub fn new(alloc: Global) -> NameTable
        ensures { result ≡ [] }
    {
        NameTable {
            held: Vec::new(alloc),
        }
    }

    /// The publications that are held, in order of node, port and key.
    pub fn as_slice(&self) -> &[Publication]
        ensures { result.now ≡ self.now }
    {
        self.held.as_slice()
    }

    /// The same table.
    pub fn copy(&self) -> Result<NameTable, NoMemory>
        ensures { IfOk result (λ copy. copy ≡ self.now) }
    {
        Ok(NameTable {
            held: self.held.clone()?,
        })
    }
}

impl Names for NameTable {
    ghost table = { λ t. t };

    fn publish(&mut self, p: Publication) -> Result<(), NameFault> {
        if is_held(self.held.as_slice(), p.at.node, p.key) {
            return Err(NameFault::Duplicate);
        }
        if count_of(self.held.as_slice(), p.at.node) >= MOST_PUBLICATIONS {
            return Err(NameFault::Full);
        }
        let at = place_for(self.held.as_slice(), &p);
        self.held.insert(at, p)?;
        Ok(())
    }

    fn withdraw(&mut self, node: Addr, key: u32) -> Result<Publication, Unknown> {
        let Some(p) = named(self.held.as_slice(), node, key) else {
            return Err(Unknown);
        };
        remove_named(&mut self.held, node, key);
        Ok(p)
    }

    fn matches(&self, alloc: Global, kind: u32, instance: u32) -> Result<List, NoMemory> {
        Ok(List::from_vec(covering(alloc, self.held.as_slice(), kind, instance)?))
    }

    fn overlapping(&self, alloc: Global, range: ServiceRange) -> Result<List, NoMemory> {
        Ok(List::from_vec(sharing(alloc, self.held.as_slice(), &range)?))
    }

    fn purge(&mut self, node: Addr) {
        remove_node(&mut self.held, node);
    }
}
