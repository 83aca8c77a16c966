//! The plan of a live run, and what it has each caller call.

ghost use Rattle.std.specs.Prelude.{◌≡◌, false, IfOk};
ghost use Rattle.tipc_node.specs.Calls.{CanPerform};
ghost use Rattle.tipc_node_lock.specs.Sections.{is_receive};
ghost use Rattle.tipc_work.specs.Plans.{IsLivePlan, is_again, port_made, publishing, named_send};

use std::alloc::Global;
use tipc_types::{Answer, Body, EventNote, Importance, NoMemory, Scope, ServiceRange};

/// How many nodes a live run has, how many callers each of them, and how many messages each caller sends. (This
/// project's profile.)
#[derive(Clone, Copy, Debug, PartialEq, Eq)]
pub struct LivePlan {
    /// Whether the bearers are sockets of UDP, and not a medium in memory.
    pub udp: bool,
    /// From 2 to 8.
    pub nodes: u8,
    /// The callers of each node, from 1 to 8.
    pub callers: u8,
    /// The messages of each caller, from 1 to 1,000.
    pub messages: u32,
}

/// The service type that stands for node 0; those of the nodes follow. (This project's profile.)
const FIRST_TYPE: u32 = 2000;

/// The port that a caller works at, by the answer to its socket: 0 where none was made.
pub(crate) fn port_made(answer: &Answer) -> u32
    ensures { result ≡ port_made answer.now }
{
    match answer {
        Answer::Socket(port) => *port,
        _ => 0,
    }
}

/// How a caller of a node publishes itself at a port.
pub(crate) fn publishing(node: u8, caller: u32, port: u32) -> EventNote
    ensures call { result ≡ publishing node caller port }
    ensures can { CanPerform result × (is_receive result ≡ false) }
{
    let Ok(range) = ServiceRange::new(FIRST_TYPE + u32::from(node), caller, caller) else {
        unreachable!()
    };
    EventNote::Publish {
        port,
        range,
        scope: Scope::Cluster,
        key: caller,
    }
}

/// How a caller of a node sends its message of this number, which is for the caller with its number at the next node.
///
/// # Errors
///
/// Where memory runs out.
pub(crate) fn named_send(
    alloc: Global,
    plan: &LivePlan,
    node: u8,
    caller: u32,
    port: u32,
    number: u32,
) -> Result<EventNote, NoMemory>
    requires { IsLivePlan plan.now }
    ensures call { IfOk result (λ call. call ≡ named_send plan.now node caller port number) }
    ensures can { IfOk result (λ call. CanPerform call × (is_receive call ≡ false)) }
{
    Ok(EventNote::SendName {
        port,
        kind: FIRST_TYPE + u32::from(node % plan.nodes + 1),
        instance: caller,
        importance: Importance::Low,
        body: Body::from_slice(alloc, &u64::from(number).to_be_bytes())?,
    })
}

/// Whether a message that was answered so is tried again.
pub(crate) fn is_again(answer: &Answer) -> bool
    ensures { result ≡ is_again answer.now }
{
    match answer {
        Answer::NoName => true,
        Answer::Congested { .. } => true,
        _ => false,
    }
}
