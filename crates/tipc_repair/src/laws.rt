//! The steps by which a packet that was lost comes after all. They do nothing when they run.
//!
//! Each speaks of a direction of a session as it stands, from the end that sends to the end that receives, whatever was
//! lost and whatever came before. One after the other they bring a packet that was numbered: a STATE shows that it is
//! missing, a STATE tells the gap, the packet is sent again and taken, and a STATE releases it. None of them is undone
//! by what comes between.

ghost use Rattle.tipc_repair.specs.Laws.{AnswersGoOn, EarlierGapsAreRepeated, EarlierStatesRelease, EarlierStatesShow, FlushesGoOn, GapsAreRepeated, GapsAreTold, HearingsGoOn, PutsGoOn, RecordsGoOn, RepeatsAreTaken, StatesRelease, StatesShow, TellingsGoOn};

/// Whatever an end does in a session, what it numbered, what was acknowledged of its packets, what it took of its
/// peer's, and the next position that the peer has shown don't fall: when it hears any packet, when packets are put or
/// move up, when it sends a STATE or the one that is due, and when a packet comes through the other link.
pub fn never_falls()
    ensures heard { HearingsGoOn }
    ensures flushed { FlushesGoOn }
    ensures put { PutsGoOn }
    ensures told { TellingsGoOn }
    ensures answered { AnswersGoOn }
    ensures recorded { RecordsGoOn }
{}

/// Once the receiver has heard a STATE of the sender, it was shown the sender's next position, and so that every packet
/// was sent that was numbered. (TIPC 2.0 draft: the next number in a STATE.)
pub fn a_state_shows()
    ensures { StatesShow }
{}

/// Where the receiver was shown more than it took, its STATE tells a gap of 1 to 50 packets, all of which were
/// numbered.
pub fn a_gap_is_told()
    ensures { GapsAreTold }
{}

/// When the sender hears that STATE, it sends every packet of the gap again.
pub fn a_gap_is_repeated()
    ensures { GapsAreRepeated }
{}

/// When the receiver hears a packet that is the wanted one, or one before it, it has taken that one.
pub fn a_repeat_is_taken()
    ensures { RepeatsAreTaken }
{}

/// Once the sender has heard a STATE of the receiver, what the receiver took is acknowledged, and no more than that.
pub fn a_state_releases()
    ensures { StatesRelease }
{}

/// A STATE serves as well where both ends have gone on since it was told: the receiver was shown the position that it
/// shows, or has taken it; what it acknowledges is acknowledged; and where no more than that was, the packets of its
/// gap are sent again. (TIPC 2.0 draft.)
pub fn an_earlier_state_serves()
    ensures shows { EarlierStatesShow }
    ensures releases { EarlierStatesRelease }
    ensures repeats { EarlierGapsAreRepeated }
{}
