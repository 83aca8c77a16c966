//! The laws of link ends, for callers: the contracts of functions that do nothing.

ghost use Rattle.tipc_link.specs.Laws.{AnswersStayJoined, ArrivalsStayJoined, BeginJoined, JoinedGivePrefix, PutsStayJoined, StatesStayJoined, TurnJoined};
ghost use Rattle.tipc_link.specs.Outliving.{FramesStayOf, JoinedAreOf, NamesNeverLower, OwnEpochKeeps, TunnelsStayOf, TunnelsTakeNext};

/// Two ends of a session stay joined: what one of them numbered is what the other takes, at its place, once and in
/// order. So it is when they begin; when packets are put at either end, and move up or join a packet that waits; when
/// an end sends a STATE; when any frame arrives of all that were ever sent, again and in any order, as long as neither
/// end numbered more than 30,000 packets since it was sent, with the packets that are sent again and those that move
/// up; and when an end answers. So what was taken at either end is a prefix of what was numbered at the other.
pub fn two_ends_stay_joined()
    ensures begin { BeginJoined }
    ensures either { TurnJoined }
    ensures put { PutsStayJoined }
    ensures state { StatesStayJoined }
    ensures arrival { ArrivalsStayJoined }
    ensures answer { AnswersStayJoined }
    ensures prefix { JoinedGivePrefix }
{}

/// A receiving record outlives the session of its sender. It has of the packets that were numbered in that session the
/// first ones taken, and but for 50 all: so it is while two ends are joined, and so it stays, also once the sender's
/// link fell, when packets of the session come through the other link, as themselves or as placeholders, and when
/// frames of it arrive late. What comes through the other link is taken in order. A link that goes up under the
/// record's epoch keeps it, and no tunnel packet lowers that epoch.
pub fn a_record_outlives_its_session()
    ensures joined { JoinedAreOf }
    ensures tunnelled { TunnelsStayOf }
    ensures next { TunnelsTakeNext }
    ensures heard { FramesStayOf }
    ensures kept { OwnEpochKeeps }
    ensures named { NamesNeverLower }
{}
