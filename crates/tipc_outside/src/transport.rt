//! What a node asks of a bearer: to send a frame and to hear one.

ghost use Rattle.std.specs.Prelude.{◌≡◌, ◌+◌, ◌-◌, ◌^◌, ◌≤◌, ℕ, Ok, IsErrOf};
ghost use Rattle.tipc_outside.specs.Carried.{is_for};
ghost use Rattle.tipc_outside.specs.Causes.{Rose, counted};

use tipc_types::{Addr, To};

/// Why a bearer didn't send or receive.
#[derive(Clone, Copy, Debug, PartialEq, Eq)]
pub enum BearerFault {
    /// The outside failed.
    Failed,
    /// Memory ran out.
    NoMemory,
}

/// What a look at a bearer found.
#[derive(Clone, Copy, Debug, PartialEq, Eq)]
pub enum Heard {
    /// A frame.
    Frame,
    /// No frame.
    Nothing,
}

/// What carries frames between nodes. No clause tells what stands in a bearer. Each count stops at u64::MAX.
pub trait Bearer {
    /// How often it has failed.
    ghost faults: { Self → ℕ };

    /// How often `send` was called.
    ghost tried: { Self → ℕ };

    /// How many frames `receive` has given.
    ghost given: { Self → ℕ };

    /// Sends a frame to one node or to all others. Failed comes only where the count of faults rose in this call.
    fn send(&mut self, to: To, frame: &[u8]) -> Result<(), BearerFault>
        ensures later { faults self.old ≤ faults self.new }
        ensures cause { IsErrOf result BearerFault.Failed → Rose (faults self.old) (faults self.new) }
        ensures tried { tried self.new ≡ counted (tried self.old) }
        ensures given { given self.new ≡ given self.old };

    /// Puts the next frame into `into`, or answers Nothing where this call's own look found none. Failed comes
    /// only where the count of faults rose in this call.
    fn receive(&mut self, into: &mut Vec<u8>) -> Result<Heard, BearerFault>
        ensures later { faults self.old ≤ faults self.new }
        ensures cause { IsErrOf result BearerFault.Failed → Rose (faults self.old) (faults self.new) }
        ensures tried { tried self.new ≡ tried self.old }
        ensures frame { result ≡ Ok Heard.Frame → given self.new ≡ counted (given self.old) }
        ensures other { (result ≡ Ok Heard.Frame → ⊥) → given self.new ≡ given self.old };
}

/// Whether a frame from the node of one number comes to that of another: one to all comes to each but its sender.
pub fn is_for(from: u8, to: To, node: u8) -> bool
    requires { (1 ≤ node) × (node ≤ 32) }
    ensures { result ≡ is_for from to node }
{
    match to {
        To::Node(addr) => addr == Addr::node(node),
        To::All => from != node,
    }
}
