//! Laws of look-ups in a name table, for callers: each is the contract of a function that does nothing. A look-up is
//! the list of the publications that pass a test, as covering an instance or overlapping a range.

ghost use Rattle.std.specs.Prelude.{◌≡◌, ◌⊎◌, ℕ, Bool, List, [], true, Contains, filter, if◌then◌else◌};
ghost use Rattle.tipc_types.specs.declared.services.Publication.{Publication};
ghost use Rattle.tipc_types.specs.Matching.{closest};
ghost use Rattle.tipc_types.specs.Tables.{is_of, put, without, without_node, IsInOrder};

/// Where one more is published, a look-up has it in its place where it passes, and is as before where it doesn't.
pub fn one_more_is_published()
    ensures looked_up { (test : Publication → Bool) → (p : Publication) → (ps : List Publication) → IsInOrder ps →
        filter test (put p ps) ≡ (if test p then put p (filter test ps) else filter test ps) }
    ensures held { (p : Publication) → (q : Publication) → (ps : List Publication) → Contains (put p ps) q →
        (q ≡ p) ⊎ Contains ps q }
    ensures itself { (p : Publication) → (ps : List Publication) → Contains (put p ps) p }
    ensures others { (p : Publication) → (q : Publication) → (ps : List Publication) → Contains ps q →
        Contains (put p ps) q }
{}

/// Where one is withdrawn, or those of a node are purged, so they are in each look-up, and nothing else changes there.
pub fn some_are_taken_out()
    ensures withdrawn { (test : Publication → Bool) → (node : ℕ) → (key : ℕ) → (ps : List Publication) →
        filter test (without node key ps) ≡ without node key (filter test ps) }
    ensures purged { (test : Publication → Bool) → (node : ℕ) → (ps : List Publication) →
        filter test (without_node node ps) ≡ without_node node (filter test ps) }
{}

/// What is looked up stands in order of node, port and key, and so do the closest of it.
pub fn look_ups_are_in_order()
    ensures looked_up { (test : Publication → Bool) → (ps : List Publication) → IsInOrder ps →
        IsInOrder (filter test ps) }
    ensures closest { (own : ℕ) → (ps : List Publication) → IsInOrder ps → IsInOrder (closest own ps) }
{}

/// Something is closest where anything is found, and all that is closest was found. Where something of the own node was
/// found, all that is closest is of it.
pub fn the_closest_are_some()
    ensures some { (own : ℕ) → (ps : List Publication) → closest own ps ≡ [] → ps ≡ [] }
    ensures found { (own : ℕ) → (p : Publication) → (ps : List Publication) → Contains (closest own ps) p →
        Contains ps p }
    ensures own { (own : ℕ) → (p : Publication) → (q : Publication) → (ps : List Publication) → Contains ps p →
        is_of own p ≡ true →
        Contains (closest own ps) q → is_of own q ≡ true }
{}
