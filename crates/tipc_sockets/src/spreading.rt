//! What a multicast will make of the sockets, before anything of them is changed.

ghost use Rattle.std.specs.Prelude.{◌≡◌};

use std::marker::Model;
use tipc_journal::PortList;
use tipc_types::Message;

/// What a multicast will make of the sockets, and the memory that it takes: [`crate::Sockets::spreading`] tells it, and
/// [`crate::Sockets::spread`] does it.
#[derive(Drop)]
pub struct Spreading {
    /// The ports to which it is queued, rising.
    pub(crate) ports: PortList,
    /// A copy of it for each of them.
    pub(crate) copies: Vec<Message>,
}

impl Model for Spreading {
    ghost use Rattle.tipc_sockets.specs.Fates.{Spread};

    ghost Value = { Spread };

    ghost view = { λ s. record { ports = s.ports; copies = s.copies.items } };
}

impl Spreading {
    /// The ports to which it is queued, rising.
    pub fn ports(&self) -> &[u32]
        ensures { result.now ≡ self.now.ports }
    {
        self.ports.as_slice()
    }
}
