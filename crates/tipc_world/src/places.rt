//! A place in the air of each of the two bearers.

ghost use Rattle.std.specs.Prelude.{◌≡◌};
ghost use Rattle.tipc_world.specs.Ends.{ends_of, place_on, with_place};

use crate::worlds::World;
use tipc_pick::Pick;

/// A place in the air of each bearer.
#[derive(Clone, Copy, Debug, PartialEq, Eq)]
pub struct Places {
    /// In that of bearer 0.
    pub first: u64,
    /// In that of bearer 1.
    pub second: u64,
}

impl Places {
    /// The place in the air of a bearer, 0 or 1.
    pub fn on(self, bearer: u8) -> u64
        ensures { result ≡ place_on bearer self }
    {
        match bearer {
            0 => self.first,
            _ => self.second,
        }
    }

    /// The same with another place in the air of a bearer, 0 or 1.
    pub fn with(self, bearer: u8, place: u64) -> Places
        ensures { result ≡ with_place self bearer place }
    {
        match bearer {
            0 => Places {
                first: place,
                second: self.second,
            },
            _ => Places {
                first: self.first,
                second: place,
            },
        }
    }
}

impl<P: Pick> World<P> {
    /// The places behind the last frames of both bearers.
    pub fn ends(&self) -> Places
        ensures { result ≡ ends_of self.now.state.air }
    {
        Places {
            first: self.air_len(0),
            second: self.air_len(1),
        }
    }
}
