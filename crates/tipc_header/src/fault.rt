//! The rules of the grammar that bytes may break, in the order in which they are asked.

ghost use Rattle.std.specs.Prelude.{◌≡◌};

/// Why bytes are no packet: the first of these rules that they break. The order and the numbers are
/// this project's profile.
#[derive(Clone, Copy, Debug, PartialEq, Eq)]
pub enum HeaderFault {
    /// There are fewer than 24 bytes.
    Short = 1,
    /// The version isn't 2.
    Version = 2,
    /// The header size isn't 6, 8, 10 or 11 words, or there are fewer bytes than that.
    HeaderSize = 3,
    /// The size field isn't the number of bytes, or more than 66,000 bytes follow a payload header.
    Size = 4,
    /// No user has this number.
    User = 5,
    /// The user has no such type, or the type has another header size.
    Type = 6,
    /// A field that must be zero isn't, the non-sequenced bit is wrong, an error code is over 5, or
    /// the number of bytes behind the header or a count breaks the rule of the user.
    Reserved = 7,
}

impl HeaderFault {
    ghost use Rattle.tipc_header.specs.Faults.{number_of};

    /// The number of the fault, from 1, in the order in which they are looked for.
    pub fn number(self) -> u8
        ensures { result ≡ number_of self }
    {
        self as u8
    }
}
