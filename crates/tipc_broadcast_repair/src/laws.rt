//! The steps by which a broadcast packet that a member lost comes to it after all. They do nothing when they run.
//!
//! Each speaks of a caster and one member that are in a contact, whatever was lost and whatever came before. One after
//! the other they bring a packet that has its number: a STATE takes the member in step and shows that the packet is
//! missing, a STATE tells the gap, the packet is sent again to all and taken, and a STATE acknowledges it; when all
//! members in contact have acknowledged it, it is released.

ghost use Rattle.tipc_broadcast_repair.specs.Laws.{CastGapsAreRepeated, CastGapsAreTold, HearersGoOn, CastHearingsGoOn, CastRepeatsAreTaken, CastStatesAcknowledge, CastStatesGoOn, CastStatesRelease, StatesShowCasts, ToldMembersGoOn};

/// Whatever the caster hears, what each member acknowledged and what all did doesn't fall; and whatever a member hears
/// of the caster, it stays in step, and neither the place that it wants nor the next position that was shown falls.
pub fn nothing_falls()
    ensures states { CastStatesGoOn }
    ensures hearings { CastHearingsGoOn }
    ensures told { ToldMembersGoOn }
    ensures heard { HearersGoOn }
{}

/// Once a member has heard a STATE of the caster in the contact, it is in step, and has each packet that had its number
/// when the STATE was told, or was shown that one is missing. (TIPC 2.0 draft, broadcast fields of a STATE.)
pub fn a_state_shows()
    ensures { StatesShowCasts }
{}

/// Where a member was shown more than it took, its STATE says that it is in step, what it took, and a gap of 1 to 50
/// packets behind that.
pub fn a_gap_is_told()
    ensures { CastGapsAreTold }
{}

/// When the caster hears that STATE, it sends the first packet of the gap again to all, on each bearer that is mended.
pub fn a_gap_is_repeated()
    ensures { CastGapsAreRepeated }
{}

/// When a member hears a packet that is for it, the wanted one or one before that, it has taken that one.
pub fn a_repeat_is_taken()
    ensures { CastRepeatsAreTaken }
{}

/// Once the caster has heard a STATE of a member, what the member took is acknowledged; and what all members in contact
/// acknowledged is released.
pub fn a_state_releases()
    ensures acknowledges { CastStatesAcknowledge }
    ensures releases { CastStatesRelease }
{}
