//! An honest run is audited Yes.

use crate::calling::audits;
use crate::calls::Call;
use crate::plays::{Act, after};
use tipc_live::*;

/// Both bearers of both nodes are mended, the nodes find each other, and a message by name goes from node 1 to node 2, which is in its third
/// boot.
static HONEST: [Act; 12] = [
    Act::One(Call::Mend(false)),
    Act::Two(Call::Mend(false)),
    Act::One(Call::Mend(true)),
    Act::Two(Call::Mend(true)),
    Act::PassTime(6),
    Act::Two(Call::Socket(true)),
    Act::Two(Call::Publish),
    Act::PassTime(1),
    Act::One(Call::Socket(false)),
    Act::One(Call::SendName),
    Act::PassTime(1),
    Act::Two(Call::Take(1)),
];

#[test]
fn an_honest_run_is_audited_yes(rt: HostRuntime) {
    let nodes = after(&rt, rt.alloc(), &HONEST);
    audits(&rt, rt.alloc(), nodes, &Audit::Yes);
}
