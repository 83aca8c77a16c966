//! The numbers of a contact: the own one, and the highest that the peer has shown.

ghost use Rattle.std.specs.Prelude.{◌≡◌, ◌+◌, ◌-◌, ◌^◌, ◌<◌, ◌==◌, nat_lt, if◌then◌else◌};
ghost use Rattle.tipc_contact.specs.Sides.{first_number};

/// How a contact number that a peer shows stands to the highest one seen of it before.
#[derive(Clone, Copy, Debug, PartialEq, Eq)]
pub enum Standing {
    /// It is lower: the frame is of an ended contact.
    Lower,
    /// It is the same.
    Same,
    /// It is higher, and is the highest seen from now on.
    Higher,
}

/// The contact numbers of a node and a peer: the node's own, and the highest that the peer has shown, 0 where it has
/// shown none. They have a boot number in their upper 32 bits, and a count from 1 in the lower ones. (This project's
/// profile.)
#[derive(Clone, Copy, Debug, PartialEq, Eq)]
pub struct Contact {
    /// The node's own number.
    pub own: u64,
    /// The highest number that the peer has shown.
    pub seen: u64,
}

impl Contact {
    /// The first contact number of a boot, which is at least 1. The peer has shown none.
    pub fn new(boot: u32) -> Contact
        ensures { (result.own ≡ first_number boot) × (result.seen ≡ 0) }
    {
        Contact {
            own: u64::from(boot) * 4_294_967_296 + 1,
            seen: 0,
        }
    }

    /// The peer shows a number.
    pub fn show(&mut self, number: u64) -> Standing
        ensures standing { result ≡ (if nat_lt number self.old.seen then Standing.Lower else
            (if number == self.old.seen then Standing.Same else Standing.Higher)) }
        ensures after { (self.new.own ≡ self.old.own) × (self.new.seen ≡
            (if nat_lt number self.old.seen then self.old.seen else number)) }
    {
        if number < self.seen {
            return Standing::Lower;
        }
        if number == self.seen {
            return Standing::Same;
        }
        self.seen = number;
        Standing::Higher
    }
}
