//! A law of discovery, for callers: the contract of a function that does nothing.

ghost use Rattle.std.specs.Prelude.{◌≡◌, ℕ, List};
ghost use Rattle.tipc_header.specs.declared.packet.Header.{Header};
ghost use Rattle.tipc_discovery.specs.declared.neighbours.Found.{Found};
ghost use Rattle.tipc_discovery.specs.declared.neighbours.Found.TheVariants as found;
ghost use Rattle.tipc_discovery.specs.Finding.{after_hearing, found_of};

/// A neighbour is new on a bearer once: when it was heard there it is known, and it stays so whatever is heard then.
pub fn a_neighbour_is_new_once()
    ensures once { (own : ℕ) → (previous : ℕ) → (header : Header) → (heard : List ℕ) →
        found_of own previous header heard ≡ found.New →
        found_of own previous header (after_hearing found.New previous heard) ≡ found.Known }
    ensures stays { (own : ℕ) → (previous : ℕ) → (other : ℕ) → (header : Header) → (result : Found) →
        (heard : List ℕ) → found_of own previous header heard ≡ found.Known →
        found_of own previous header (after_hearing result other heard) ≡ found.Known }
{}
