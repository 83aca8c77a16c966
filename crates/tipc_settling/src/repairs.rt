//! How what was lost comes after all, by the frames of ticks alone. The laws do nothing when they run.

ghost use Rattle.std.specs.Prelude.{◌≡◌, ◌≤◌, ℕ, List, [], None, is_some, length, true};
ghost use Rattle.tipc_types.specs.Limits.{most_frame_bytes};
ghost use Rattle.tipc_types.specs.Address.{node_word};
ghost use Rattle.tipc_header.specs.declared.frames.FrameKind.TheVariants.{Links};
ghost use Rattle.tipc_header.specs.Frames.{kind_in};
ghost use Rattle.tipc_header.specs.Spelling.{Fields};
ghost use Rattle.tipc_outside.specs.declared.outgoing.Outgoing.{Outgoing};
ghost use Rattle.tipc_types.specs.declared.node_calls.Answer.{Answer};
ghost use Rattle.tipc_types.specs.declared.node_calls.By.{By};
ghost use Rattle.tipc_types.specs.declared.node_calls.EventNote.TheVariants.{Tick};
ghost use Rattle.tipc_node.specs.Calls.{CallTurn, Performs};
ghost use Rattle.tipc_node.specs.Nodes.{NodeState, end_with, is_mended_on, is_other, neighbour_of, stop_of};
ghost use Rattle.tipc_node.specs.Turns.{IsFrom};
ghost use Rattle.tipc_node.specs.Sockets.{kept_answer};
ghost use Rattle.tipc_settling.specs.Loads.{IsCalm};
ghost use Rattle.tipc_settling.specs.Repairs.{NodesHear, SaysStateTo, SessionsHear};

/// By a tick that tells nothing of links and contacts each link end of the node that is up tells its peer the STATE of
/// its session as it stood. (TIPC 2.0 draft: link supervision; a STATE at each tick is this project's profile.)
pub fn ticks_tell_states()
    ensures { (n n' : NodeState) (by : By) (frames : List Outgoing) (answered : Answer)
        → Performs n by Tick n' frames answered → CallTurn n n' by Tick [] (kept_answer answered) frames
        → IsCalm n n' → (peer bearer : ℕ) → bearer ≤ 1 → SaysStateTo n n' frames peer bearer }
{}

/// A link end that is up hears each STATE and each numbered packet of its session: the session goes on from what that
/// makes of it, and the packets that a gap asks for are sent again; in an arrival by which nothing is told of links and
/// contact, and whose tunnel packet names no epoch above that of the record which it is counted in. (TIPC 2.0 draft.)
pub fn packets_of_a_session_are_heard()
    ensures { SessionsHear }
{}

/// So it is at a node: what arrives of a peer's session, where the node's end is up in it, is heard, whatever comes of
/// its messages. (TIPC 2.0 draft.)
pub fn nodes_hear_their_peers()
    ensures { NodesHear }
{}

/// Nothing stops a link packet of another node that comes on a mended bearer, in a frame of its size, where the node
/// has a link end to its sender on that bearer. (This project's profile.)
pub fn nothing_stops_a_peer()
    ensures { (n : NodeState) (bearer : ℕ) (bytes : List ℕ) (peer es er : ℕ) (p : Fields) → IsFrom peer bytes es er p
        → kind_in bytes ≡ Links → is_mended_on n.mended bearer ≡ true → 16 ≤ length bytes
        → length bytes ≤ most_frame_bytes → is_other n.own (node_word peer) ≡ true
        → is_some (end_with bearer (neighbour_of n peer)) ≡ true → stop_of n bearer bytes ≡ None }
{}
