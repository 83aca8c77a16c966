//! Laws of a node's turns. They do nothing when they run.

ghost use Rattle.std.specs.Prelude.{◌≡◌, ℕ, List, [], None, All};
ghost use Rattle.tipc_outside.specs.declared.outgoing.Outgoing.{Outgoing};
ghost use Rattle.tipc_types.specs.declared.node_calls.Answer.{Answer};
ghost use Rattle.tipc_types.specs.declared.node_calls.Answer.TheVariants.{Arrived};
ghost use Rattle.tipc_types.specs.declared.node_calls.Arrival.{Arrival};
ghost use Rattle.tipc_types.specs.declared.node_calls.By.{By};
ghost use Rattle.tipc_types.specs.declared.node_calls.EventNote.{EventNote};
ghost use Rattle.tipc_types.specs.declared.node_calls.EventNote.TheVariants.{Arrive};
ghost use Rattle.tipc_node.specs.Arrivals.{Arrives};
ghost use Rattle.tipc_node.specs.Calls.{CallTurn, CanPerform, Performs};
ghost use Rattle.tipc_node.specs.Ends.{HasRightEnds};
ghost use Rattle.tipc_node.specs.Nodes.{NodeState, neighbour_of, pair_with};
ghost use Rattle.tipc_node.specs.Numbers.{AreLow, HasOwnNumbers, IsBounded, NeverFalls, own_epoch_on};
ghost use Rattle.tipc_node.specs.Originals.{BringsEnded, NameEnded};
ghost use Rattle.tipc_node.specs.Turns.{frames_to};
ghost use Rattle.tipc_node.specs.Sockets.{kept_answer};

/// The link ends of a node are right, whatever it does and whatever arrives: each was silent for at most 4 ticks, and
/// for none where its link isn't up; a contact number or an epoch is at most as far above the first one of the boot as
/// the journal has entries; and a link is up only where the node's bearer is mended, of which its end tells. (This
/// project's profile.)
pub fn link_ends_stay_right()
    ensures begins { (n : NodeState) → ((b : ℕ) → neighbour_of n b ≡ None) → HasRightEnds n }
    ensures performs { (n n' : NodeState) (by : By) (call : EventNote) (frames : List Outgoing) (answered : Answer)
        → CanPerform call → Performs n by call n' frames answered
        → CallTurn n n' by call [] (kept_answer answered) frames → HasRightEnds n → HasRightEnds n' }
    ensures arrives { (n n' : NodeState) (by : By) (bearer number : ℕ) (bytes : List ℕ) (frames : List Outgoing)
        (answered : Arrival) → Arrives n n' by bearer number bytes frames answered
        → CallTurn n n' by (Arrive bearer number) bytes (Arrived answered) frames → HasRightEnds n → HasRightEnds n' }
{}

/// No contact number and no own epoch of a node falls in its boot, whatever it does and whatever arrives, so a link end
/// that was made stays; each is of the node's boot; and the count in each, which is its lower half, is below
/// 4,000,000,000. (This project's profile.)
pub fn numbers_never_fall()
    ensures turns { (n n' : NodeState) (by : By) (note : EventNote) (bytes : List ℕ) (kept : Answer)
        (frames : List Outgoing) → CallTurn n n' by note bytes kept frames → (b : ℕ)
        → NeverFalls (pair_with n b) (pair_with n' b) }
    ensures begins { (n : NodeState) → ((b : ℕ) → neighbour_of n b ≡ None) → IsBounded n → HasOwnNumbers n }
    ensures goes_on { (n n' : NodeState) (by : By) (note : EventNote) (bytes : List ℕ) (kept : Answer)
        (frames : List Outgoing) → CallTurn n n' by note bytes kept frames → HasOwnNumbers n → HasOwnNumbers n' }
    ensures low { (n : NodeState) → HasRightEnds n → HasOwnNumbers n → IsBounded n → AreLow n }
{}

/// An original tunnel packet that waits or is unacknowledged at a node, or leaves it, names a session that is over,
/// whatever the node does and whatever arrives: its epoch is below the own epoch of the link end on the bearer that it
/// names. (This project's profile.)
pub fn originals_name_ended_sessions()
    ensures begins { (n : NodeState) → ((b : ℕ) → neighbour_of n b ≡ None) → NameEnded n }
    ensures goes_on { (n n' : NodeState) (by : By) (note : EventNote) (bytes : List ℕ) (kept : Answer)
        (frames : List Outgoing) → CallTurn n n' by note bytes kept frames → HasOwnNumbers n → NameEnded n
        → NameEnded n' }
    ensures leaves { (n n' : NodeState) (by : By) (note : EventNote) (bytes : List ℕ) (kept : Answer)
        (frames : List Outgoing) → CallTurn n n' by note bytes kept frames → HasOwnNumbers n → NameEnded n → (b : ℕ)
        → All (BringsEnded (own_epoch_on (pair_with n' b))) (frames_to b frames) }
{}
