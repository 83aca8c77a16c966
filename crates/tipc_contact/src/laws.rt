//! Laws of two nodes, over everything that either does and says. They do nothing when they run.

ghost use Rattle.std.specs.Prelude.{◌≡◌, ◌≤◌, ◌<◌, ◌++◌, ◌∷◌, [], ℕ, List, Some, false, slice_get};
ghost use Rattle.tipc_link_fsm.specs.Table.{Fsm, is_last};
ghost use Rattle.tipc_contact.specs.Order.{AreInOrder, WasShown};
ghost use Rattle.tipc_contact.specs.Peers.{ArePeers};
ghost use Rattle.tipc_contact.specs.Sides.{acted, alone, Action, IsSaid, MayAct, Notice, Side};

/// What holds of two nodes that know nothing of each other goes on to hold, whatever either of them does and says.
pub fn two_nodes_stay_peers()
    ensures start { (a b : ℕ) → ArePeers (alone a) [] (alone b) [] }
    ensures acts { (a b : Side) (said_a said_b : List Notice) (action : Action) → ArePeers a said_a b said_b →
        MayAct a said_b action → ArePeers (acted a action) said_a b said_b }
    ensures says { (a b : Side) (said_a said_b : List Notice) (m : Notice) → ArePeers a said_a b said_b →
        IsSaid a m → ArePeers a (said_a ++ m ∷ []) b said_b }
    ensures turned { (a b : Side) (said_a said_b : List Notice) → ArePeers a said_a b said_b →
        ArePeers b said_b a said_a }
{}

/// A frame that shows the two epochs of a link end, its peer's and its own, was sent in the contact in which the end is
/// now: the sender's contact number then is the highest that the end's node has seen, and the highest that the sender
/// had seen is the end's node's own. So the two ends of a session are in one contact, but for one of the last epoch.
pub fn a_session_is_in_one_contact()
    ensures sent { (a b : Side) (said_a said_b : List Notice) → ArePeers a said_a b said_b →
        (place : ℕ) (m : Notice) (end : Fsm) → slice_get said_a place ≡ Some m →
        b.ends m.bearer ≡ Some end → end.peer ≡ Some m.es → m.er ≡ end.own → is_last m.es ≡ false →
        is_last end.own ≡ false → (m.contact ≡ b.seen) × (m.peer_contact ≡ b.own) }
    ensures now { (a b : Side) (said_a said_b : List Notice) → ArePeers a said_a b said_b →
        (bearer : ℕ) (one other : Fsm) → a.ends bearer ≡ Some one → b.ends bearer ≡ Some other →
        one.peer ≡ Some other.own → other.peer ≡ Some one.own → is_last one.own ≡ false → is_last other.own ≡ false →
        (a.own ≡ b.seen) × (b.own ≡ a.seen) }
{}

/// No action lowers a node's contact number, and the end of a contact raises it: so each is entered at most once.
pub fn contact_numbers_rise()
    ensures no_lower { (a : Side) (heard : List Notice) (action : Action) → MayAct a heard action →
        a.own ≤ (acted a action).own }
    ensures higher { (a : Side) → a.own < (acted a Action.ContactEnded).own }
{}

/// Two nodes that know nothing of each other agree on the order of their contacts, and go on to agree, whatever either
/// of them does and says: where the one has seen a higher number of the other than the other shows in a notice, the
/// other hasn't seen a higher number than the one shows. A higher number that a node takes from the other was shown by
/// it.
pub fn two_nodes_stay_in_order()
    ensures start { (a b : ℕ) → AreInOrder (alone a) [] (alone b) [] }
    ensures acts { (a b : Side) (said_a said_b : List Notice) (action : Action) → AreInOrder a said_a b said_b →
        MayAct a said_b action → WasShown said_b action → AreInOrder (acted a action) said_a b said_b }
    ensures says { (a b : Side) (said_a said_b : List Notice) (m : Notice) → AreInOrder a said_a b said_b →
        IsSaid a m → AreInOrder a (said_a ++ m ∷ []) b said_b }
    ensures turned { (a b : Side) (said_a said_b : List Notice) → AreInOrder a said_a b said_b →
        AreInOrder b said_b a said_a }
{}
