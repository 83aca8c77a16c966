//! The words of a live run.

ghost use Rattle.std.specs.Prelude.{◌≡◌, IfSome, map};
ghost use Rattle.std.specs.String.{string_bytes};
ghost use Rattle.tipc_work.specs.Plans.{IsLivePlan};
ghost use Rattle.tipc_sim.specs.LiveWords.{live_plan, medium_of, plan_behind};

use tipc_script::number_in;
use tipc_work::LivePlan;

/// The fewest nodes of a plan. (This project's profile.)
const FEWEST_NODES: u32 = 2;

/// The most nodes of a plan. (This project's profile.)
const MOST_NODES: u32 = 8;

/// The most callers of each node. (This project's profile.)
const MOST_CALLERS: u32 = 8;

/// The most messages of each caller. (This project's profile.)
const MOST_MESSAGES: u32 = 1_000;

/// Whether the bearers are sockets of UDP: `memory` or `udp`.
fn is_udp(medium: &str) -> Option<bool>
    ensures { result ≡ medium_of medium.now }
{
    if medium == "memory" {
        return Some(false);
    }
    if medium == "udp" {
        return Some(true);
    }
    None
}

/// The plan of these words, which stand behind `live`.
#[tactic(auto, unfolding(crate::specs::LiveWords::plan_behind))]
fn plan_behind(medium: &str, nodes: &str, callers: &str, messages: &str) -> Option<LivePlan>
    ensures plan { result ≡ plan_behind medium.now nodes.now callers.now messages.now }
    ensures live { IfSome result IsLivePlan }
{
    let udp = is_udp(medium)?;
    let nodes = number_in(nodes.as_bytes(), FEWEST_NODES, MOST_NODES)?;
    let callers = number_in(callers.as_bytes(), 1, MOST_CALLERS)?;
    let messages = number_in(messages.as_bytes(), 1, MOST_MESSAGES)?;
    Some(LivePlan {
        udp,
        nodes: nodes as u8,
        callers: callers as u8,
        messages,
    })
}

/// The plan that the words after the program's name are, if any: `live`, `memory` or `udp`, the number of nodes from 2
/// to 8, of callers of each node from 1 to 8, and of messages of each caller from 1 to 1,000, in decimal digits without
/// sign or leading zero. (This project's profile.)
pub fn live_plan(words: &[String]) -> Option<LivePlan>
    ensures plan { result ≡ live_plan (map string_bytes words.now) }
    ensures live { IfSome result IsLivePlan }
{
    match words {
        [live, medium, nodes, callers, messages] => {
            if live.as_str() != "live" {
                return None;
            }
            plan_behind(
                medium.as_str(),
                nodes.as_str(),
                callers.as_str(),
                messages.as_str(),
            )
        }
        _ => None,
    }
}
