//! The index.

ghost use Rattle.std.specs.Prelude.{◌≡◌, [], IfOk};

use crate::changes::{check, put_each, take_name_out, take_out, take_range_out};
use crate::orders::put_in_order;
use crate::searches::{named_in, those_that_may_reach};
use std::alloc::{AllocError, Global};
use std::marker::Model;
use tipc_name_table::{NameFault, Names, Unknown, covering, remove_node, sharing};
use tipc_types::{Addr, List, NoMemory, Publication, ServiceRange};

/// A name table that holds its publications three times: in order of node, port and key; in order of service type,
/// lower bound, upper bound, node, port and key; and in order of node and key. Places are found by halves. A
/// publication and a withdrawal cost no pass, but what stands behind is moved on; a look-up costs one over those of its
/// service type that begin no later than at its last instance.
#[derive(Drop)]
pub struct NameIndex {
    held: Vec<Publication>,
    ranges: Vec<Publication>,
    named: Vec<Publication>,
}

impl Model for NameIndex {
    ghost use Rattle.std.specs.Prelude.{List};
    ghost use Rattle.tipc_types.specs.declared.services.Publication.{Publication};
    ghost use Rattle.tipc_name_index.specs.Ranges.{IsIndex};

    ghost Value = { List Publication };

    ghost view = { λ t. t.held.items };

    ghost invariant = { λ t. IsIndex t.held.items t.ranges.items t.named.items };
}

/// The same publications, copied in one piece.
fn copy_of(publications: &Vec<Publication>) -> Result<Vec<Publication>, AllocError>
    ensures { IfOk result (λ copy. copy.items ≡ publications.now.items) }
{
    Vec::from_slice(*publications.allocator(), publications.as_slice())
}

impl NameIndex {
    /// A table without publications.
    pub fn new(alloc: Global) -> NameIndex
        ensures { result ≡ [] }
    {
        NameIndex {
            held: Vec::new(alloc),
            ranges: Vec::new(alloc),
            named: Vec::new(alloc),
        }
    }

    /// The publications that are held, in order of node, port and key.
    pub fn as_slice(&self) -> &[Publication]
        ensures { result.now ≡ self.now }
    {
        self.held.as_slice()
    }

    /// The same table.
    pub fn copy(&self) -> Result<NameIndex, NoMemory>
        ensures { IfOk result (λ copy. copy ≡ self.now) }
    {
        Ok(NameIndex {
            held: copy_of(&self.held)?,
            ranges: copy_of(&self.ranges)?,
            named: copy_of(&self.named)?,
        })
    }
}

impl Names for NameIndex {
    ghost table = { λ t. t };

    fn publish(&mut self, p: Publication) -> Result<(), NameFault> {
        check(
            self.held.as_slice(),
            self.named.as_slice(),
            p.at.node,
            p.key,
        )?;
        put_each(&mut self.held, &mut self.ranges, &mut self.named, &p)?;
        Ok(())
    }

    fn withdraw(&mut self, node: Addr, key: u32) -> Result<Publication, Unknown> {
        let Some(p) = named_in(self.named.as_slice(), node, key) else {
            return Err(Unknown);
        };
        take_out(&mut self.held, &p);
        take_range_out(&mut self.ranges, &p);
        take_name_out(&mut self.named, &p);
        Ok(p)
    }

    fn matches(&self, alloc: Global, kind: u32, instance: u32) -> Result<List, NoMemory> {
        let near = those_that_may_reach(self.ranges.as_slice(), kind, instance);
        let mut found = covering(alloc, near, kind, instance)?;
        put_in_order(&mut found);
        Ok(List::from_vec(found))
    }

    fn overlapping(&self, alloc: Global, range: ServiceRange) -> Result<List, NoMemory> {
        let near = those_that_may_reach(self.ranges.as_slice(), range.kind(), range.upper());
        let mut found = sharing(alloc, near, &range)?;
        put_in_order(&mut found);
        Ok(List::from_vec(found))
    }

    fn purge(&mut self, node: Addr) {
        remove_node(&mut self.held, node);
        remove_node(&mut self.ranges, node);
        remove_node(&mut self.named, node);
    }
}
