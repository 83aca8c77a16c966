//! Positions in a session and the 16 bits of them that a packet carries.

ghost use Rattle.std.specs.Prelude.{◌≡◌};
ghost use Rattle.tipc_types.specs.Position.{distance_of, number_of};

/// How many sequence numbers there are: the numbers go round after 65,535. (TIPC 2.0 draft.)
const NUMBERS: u64 = 65_536;

/// The sequence number of the packet at a position. Positions count the packets of one direction from 1 on,
/// without bound.
#[tactic(auto, unfolding(crate::specs::Position::number_of))]
pub fn sequence_number(position: u64) -> u16
    ensures { result ≡ number_of position }
{
    (position % NUMBERS) as u16
}

/// How far the number `to` lies past the number `from`, from 0 to 65,535.
#[tactic(auto, unfolding(crate::specs::Position::distance_of))]
pub fn number_distance(from: u16, to: u16) -> u16
    ensures { result ≡ distance_of from to }
{
    ((to as u64 + NUMBERS - from as u64) % NUMBERS) as u16
}
