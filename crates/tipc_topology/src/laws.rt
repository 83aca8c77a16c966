//! Laws of what subscribers are told, for callers: each is the contract of a function that does nothing.

ghost use Rattle.std.specs.Prelude.{◌≡◌, ◌++◌, ◌∷◌, [], ℕ, List, None, Some, filter, fold, map, slice_get};
ghost use Rattle.tipc_types.specs.declared.node_calls.Event.{Event};
ghost use Rattle.tipc_types.specs.declared.node_calls.Subscription.{Subscription};
ghost use Rattle.tipc_types.specs.declared.services.Publication.{Publication};
ghost use Rattle.tipc_types.specs.Watching.{in_order, is_watched};
ghost use Rattle.tipc_topology.specs.declared.changes.TableChange.{TableChange};
ghost use Rattle.tipc_topology.specs.Transitions.{told_all, transitions, ArePossible};
ghost use Rattle.tipc_topology.specs.Changing.{due, ended_at, passed, with_kept, AreKept, Watchers};
ghost use Rattle.tipc_topology.specs.Watchers.{began, ticked, without_first, Watcher};

/// The events of a subscription that was told of changes, and of which none was taken, are its transitions: those that
/// are there at its beginning, as additions in order, and then those of each change.
pub fn events_are_transitions()
    ensures { (number : ℕ) (s : Subscription) (room : ℕ) →
        (there : List Publication) (cs : List TableChange) →
        ArePossible there cs →
        (told_all (began number s room (in_order (filter (is_watched s) there))) cs).events ≡ transitions s there cs }
{}

/// What was taken and what is left are all events together: one that is taken goes from the front of what is left to
/// the end of what was taken, and where none is left, all were taken.
pub fn taken_events_are_a_front()
    ensures next { (all taken : List Event) (w : Watcher) (e : Event) →
        all ≡ taken ++ w.events → slice_get w.events 0 ≡ Some e →
        all ≡ (taken ++ e ∷ []) ++ (without_first w).events }
    ensures last { (all taken : List Event) (w : Watcher) →
        all ≡ taken ++ w.events → slice_get w.events 0 ≡ None → all ≡ taken }
{}

/// In a tick the subscriptions that are due end, one after another; none is due then, and the tick passes for all.
pub fn a_tick_ends_and_passes()
    ensures parts { (t : Watchers) → AreKept t →
        passed (fold (λ u number. ended_at number u) t (due t.kept)) ≡ with_kept t (map ticked t.kept) }
    ensures ended { (t : Watchers) → AreKept t → due (fold (λ u number. ended_at number u) t (due t.kept)).kept ≡ [] }
{}
