//! What a run keeps beside its world: where it counts frames from, and the places of its pump.

ghost use Rattle.std.specs.Prelude.{◌≡◌};
ghost use Rattle.tipc_world.specs.Ends.{place_on};
ghost use Rattle.tipc_sim.specs.Noted.{marked, no_notes, pumped, pumped_to};

use std::marker::Model;
use tipc_world::Places;

/// What a script keeps beside the world: where it counts the frames of each bearer from, and how far it has pumped
/// them. (This project's profile.)
#[derive(Drop)]
pub struct Notes {
    bases: Places,
    places: Places,
}

impl Model for Notes {
    ghost use Rattle.tipc_sim.specs.Noted.{NotesState};

    ghost Value = { NotesState };

    ghost view = { λ n. record { bases = n.bases; places = n.places } };
}

impl Notes {
    /// Before the first line: frames count from the first one, and none is pumped.
    pub fn new() -> Notes
        ensures { result ≡ no_notes }
    {
        let first = Places {
            first: 0,
            second: 0,
        };
        Notes {
            bases: first,
            places: first,
        }
    }

    /// The place in the air of a bearer of the frame that the script calls 0.
    pub fn base(&self, bearer: u8) -> u64
        ensures { result ≡ place_on bearer self.now.bases }
    {
        self.bases.on(bearer)
    }

    /// The places in the air of both bearers of the next frames that are pumped.
    pub fn places(&self) -> Places
        ensures { result ≡ self.now.places }
    {
        self.places
    }

    /// Lets frames count, and be pumped, from these places on.
    pub fn mark(&mut self, ends: Places)
        ensures { self.new ≡ marked ends }
    {
        self.bases = ends;
        self.places = ends;
    }

    /// Notes that the frames of a bearer before this place were pumped.
    pub fn pump_to(&mut self, bearer: u8, place: u64)
        ensures { self.new ≡ pumped self.old bearer place }
    {
        self.places = self.places.with(bearer, place);
    }

    /// Notes that the frames of both bearers before these places were pumped.
    pub fn pump_both_to(&mut self, places: Places)
        ensures { self.new ≡ pumped_to self.old places }
    {
        self.places = places;
    }
}
