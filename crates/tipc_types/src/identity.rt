//! Who is who: nodes, ports, and whom a frame is for.

ghost use Rattle.std.specs.Prelude.{◌≡◌, ◌+◌, ◌≤◌, ◌<◌, ◌↔◌, IfNone, IfSome};
ghost use Rattle.tipc_types.specs.Address.{node_word, IsNodeWord};

/// The address word of node 0 of zone 1 and cluster 1.
const CLUSTER_WORD: u32 = 0x0100_1000;

/// A network address: zone (8 bits), cluster (12 bits) and node (12 bits), as
/// `zone << 24 | cluster << 12 | node`. (TIPC 2.0 draft.)
///
/// A packet may name any address. Those of this cluster are `<1.1.n>` with `n` from 1 to 32
/// (this project's profile).
#[derive(Clone, Copy, Debug, PartialEq, Eq, PartialOrd, Ord, Hash)]
pub struct Addr {
    /// The address as one word.
    pub word: u32,
}

impl Addr {
    /// The address `<1.1.n>`.
    pub fn node(n: u8) -> Addr
        requires { (1 ≤ n) × (n ≤ 32) }
        ensures { result.word ≡ node_word n }
    {
        Addr {
            word: CLUSTER_WORD + n as u32,
        }
    }

    /// The node's number, from 1 to 32: None exactly where this is no address of this cluster.
    pub fn number(self) -> Option<u8>
        ensures some { IfSome result (λ n. (1 ≤ n) × (n ≤ 32) × (self.word ≡ node_word n)) }
        ensures none { IfNone result (IsNodeWord self.word → ⊥) }
    {
        if self.word <= CLUSTER_WORD || self.word > CLUSTER_WORD + 32 {
            return None;
        }
        Some((self.word - CLUSTER_WORD) as u8)
    }
}

/// A port: its node and its number there, from 1 on. (TIPC 2.0 draft.)
#[derive(Clone, Copy, Debug, PartialEq, Eq, PartialOrd, Ord, Hash)]
pub struct PortId {
    /// The node.
    pub node: Addr,
    /// The port's number at that node.
    pub port: u32,
}

/// Whom a frame is sent to on a bearer.
#[derive(Clone, Copy, Debug, PartialEq, Eq)]
pub enum To {
    /// One node.
    Node(Addr),
    /// Every other node.
    All,
}
