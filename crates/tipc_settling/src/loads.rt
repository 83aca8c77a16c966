//! What is under way at a node doesn't grow by itself. The laws do nothing when they run.

ghost use Rattle.std.specs.Prelude.{ℕ, List, []};
ghost use Rattle.tipc_outside.specs.declared.outgoing.Outgoing.{Outgoing};
ghost use Rattle.tipc_types.specs.declared.node_calls.Answer.{Answer};
ghost use Rattle.tipc_types.specs.declared.node_calls.Answer.TheVariants.{Arrived};
ghost use Rattle.tipc_types.specs.declared.node_calls.Arrival.{Arrival};
ghost use Rattle.tipc_types.specs.declared.node_calls.By.{By};
ghost use Rattle.tipc_types.specs.declared.node_calls.EventNote.TheVariants.{Arrive, Tick};
ghost use Rattle.tipc_node.specs.Arrivals.{Arrives};
ghost use Rattle.tipc_node.specs.Calls.{CallTurn, Performs};
ghost use Rattle.tipc_node.specs.Nodes.{NodeState};
ghost use Rattle.tipc_node.specs.Sockets.{kept_answer};
ghost use Rattle.tipc_settling.specs.Loads.{AddsNothing, IsCalm, PutsNothing};

/// By an arrival or a tick that tells nothing of links and contacts no more is under way than before: each packet that
/// isn't acknowledged yet counts once, a message that was accepted and isn't delivered three times, and one that came
/// back once. So a message that is delivered makes room for its return and for the packet of that. (This project's
/// profile.)
pub fn calm_events_add_nothing()
    ensures arrives { (n n' : NodeState) (by : By) (bearer number : ℕ) (bytes : List ℕ) (frames : List Outgoing)
        (answered : Arrival) → Arrives n n' by bearer number bytes frames answered
        → CallTurn n n' by (Arrive bearer number) bytes (Arrived answered) frames → IsCalm n n' → AddsNothing n n' }
    ensures ticks { (n n' : NodeState) (by : By) (frames : List Outgoing) (answered : Answer)
        → Performs n by Tick n' frames answered
        → CallTurn n n' by Tick [] (kept_answer answered) frames → IsCalm n n' → AddsNothing n n' }
{}

/// So it is with the packets that were ever put on links, whether they are acknowledged by now or not. (This project's
/// profile.)
pub fn calm_events_put_nothing()
    ensures arrives { (n n' : NodeState) (by : By) (bearer number : ℕ) (bytes : List ℕ) (frames : List Outgoing)
        (answered : Arrival) → Arrives n n' by bearer number bytes frames answered
        → CallTurn n n' by (Arrive bearer number) bytes (Arrived answered) frames → IsCalm n n' → PutsNothing n n' }
    ensures ticks { (n n' : NodeState) (by : By) (frames : List Outgoing) (answered : Answer)
        → Performs n by Tick n' frames answered
        → CallTurn n n' by Tick [] (kept_answer answered) frames → IsCalm n n' → PutsNothing n n' }
{}
