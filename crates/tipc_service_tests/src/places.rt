//! Nodes and ranges that the tests share, and which publications were found.

ghost use Rattle.std.specs.Prelude.{◌≡◌, ◌≤◌};
ghost use Rattle.tipc_types.specs.Address.{IsNodeWord};

use std::process::Abort;
use tipc_types::{Addr, Publication, ServiceRange};

/// Node 1 or 2.
pub fn node(n: u8) -> Addr
    ensures { IsNodeWord result.word }
{
    if n == 1 { Addr::node(1) } else { Addr::node(2) }
}

/// A range of service type 100.
pub fn range(rt: &impl Abort, bounds: (u32, u32)) -> ServiceRange {
    let Ok(range) = ServiceRange::new(100, bounds.0, bounds.1) else {
        panic!(rt; "the range has no instances");
    };
    range
}

/// The keys of publications are these.
pub fn keys_are(rt: &impl Abort, ps: &[Publication], keys: &[u32]) {
    assert!(rt; ps.len() == keys.len());
    for (p, key) in ps.iter().zip(keys) {
        assert!(rt; p.key == *key);
    }
}
