//! How a packet that was lost comes after all while a world settles. The laws do nothing when they run.

ghost use Rattle.std.specs.Prelude.{◌≡◌, ℕ, false};
ghost use Rattle.tipc_world.specs.declared.places.Places.{Places};
ghost use Rattle.tipc_world.specs.CastRows.{CastWindowsAreReleased, FourRoundsReleaseCasts, RoundCasts};
ghost use Rattle.tipc_world.specs.HeardWorlds.{BeginsRound};
ghost use Rattle.tipc_world.specs.Measures.{FourRoundsBringLess, FourRoundsBringLessCast, NoMoreIsUnderWay};
ghost use Rattle.tipc_world.specs.Poised.{IsPoised};
ghost use Rattle.tipc_world.specs.RoundParts.{IsKept, IsRound};
ghost use Rattle.tipc_world.specs.Rows.{FourRoundsRelease, RoundBrings, WasUp, WindowsAreReleased};
ghost use Rattle.tipc_world.specs.Settling.{Rounds};
ghost use Rattle.tipc_world.specs.States.{WorldState};

/// What each round of a call that began in a poised world makes of a packet that was numbered on a link that is up,
/// whatever was lost before: its receiver is shown that it was numbered; the receiver asks for it, and it is sent
/// again; it is taken; and it is released. Nothing of it is undone, so four rounds release the first packet that isn't
/// acknowledged, and four for each packet of a window whatever was numbered. (TIPC 2.0 draft: gaps in STATE messages;
/// the rounds are this project's profile.)
pub fn a_lost_packet_comes_in_four_rounds()
    ensures round { (start : WorldState) (places : Places) (outset : WorldState) (ends : Places) (now : WorldState)
        (a b bearer position : ℕ) → IsRound places outset ends now → BeginsRound start places outset now
        → WasUp start a b bearer → RoundBrings start places outset ends now a b bearer position }
    ensures release { FourRoundsRelease }
    ensures window { WindowsAreReleased }
{}

/// What each round of a call that began in a poised world makes of a broadcast packet that has its number, at each node
/// to which a link of its sender was up, whatever was lost before: the node is shown that the packet has a number; it
/// asks for it, and it is sent again to all; it is taken; and it is acknowledged. Nothing of it is undone. Once all
/// nodes in contact have acknowledged it, it is released: so four rounds release the first packet that isn't
/// acknowledged by all, and four for each packet of a window whatever has a number. (TIPC 2.0 draft: broadcast fields
/// of STATE messages; the rounds are this project's profile.)
pub fn a_lost_broadcast_comes_in_four_rounds()
    ensures round { (start : WorldState) (places : Places) (outset : WorldState) (ends : Places) (now : WorldState)
        (a b bearer position : ℕ) → IsRound places outset ends now → BeginsRound start places outset now
        → WasUp start a b bearer → RoundCasts places outset ends now a b bearer position }
    ensures release { FourRoundsReleaseCasts }
    ensures window { CastWindowsAreReleased }
{}

/// While a world that was poised settles, no more is under way than when the call began: of all nodes together, their
/// packets and the weight of what they accepted grew by no more than the weight of what was delivered. (This project's
/// profile.)
pub fn no_more_is_under_way()
    ensures { (start : WorldState) (rounds : ℕ) (places : Places) (now : WorldState)
        → IsKept start → IsPoised start → Rounds start rounds places now → now.lost ≡ false
        → NoMoreIsUnderWay start now }
{}

/// Where a packet isn't acknowledged on a link that was up when such a call began, four rounds leave less under way;
/// and so they do where a packet of a broadcast isn't acknowledged by all. (This project's profile.)
pub fn four_rounds_leave_less()
    ensures links { FourRoundsBringLess }
    ensures casts { FourRoundsBringLessCast }
{}
