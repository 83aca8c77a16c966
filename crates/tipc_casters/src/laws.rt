//! What is promised of a caster and all its members. The functions do nothing: their contracts are the laws.
ghost use Rattle.tipc_casters.specs.Deeds.{DoingKeeps};
ghost use Rattle.tipc_casters.specs.Laws.{Begins, Enters, GivesAPrefix, Hears, HearsState, Joins, Leaves, Quits, Restarts, Sends, States, StatesApart, Tells, TellsMember};
ghost use Rattle.tipc_casters.specs.Messages.{GivesMessages};
ghost use Rattle.tipc_casters.specs.MemberTurns.{TurnsStayCast};
ghost use Rattle.tipc_casters.specs.Reading.{FramesAreRead, FramesAreWritten};
ghost use Rattle.tipc_casters.specs.ViewLaws.{BeginsCast, EntersStaysCast, HearsOtherStaysCast, KeepsStaysCast, LearnsStaysCast, MeetsStaysCast, PartsStaysCast, QuitsStaysCast, RestartsStaysCast, SameStaysCast, SaysStaysCast, SendsStaysCast, TakesStaysCast, TellsStaysCast};
ghost use Rattle.tipc_casters.specs.Views.{CastsAreTrue, FrontsAreCast};

/// A caster that did nothing yet and members that were in no contact with it stand in the law of broadcast; and they go
/// on to stand there, whatever happens to any of them: contacts begin and end on either side, messages are sent, STATEs
/// and broadcast frames arrive, late, again or never, and nodes restart.
pub fn a_caster_and_its_members()
    ensures begins { Begins }
    ensures joins { Joins }
    ensures leaves { Leaves }
    ensures sends { Sends }
    ensures states_apart { StatesApart }
    ensures states { States }
    ensures restarts { Restarts }
    ensures enters { Enters }
    ensures quits { Quits }
    ensures is_told { HearsState }
    ensures hears { Hears }
    ensures tells { Tells }
    ensures tells_member { TellsMember }
{}

/// Each member is given, in each of its contacts, past ones too, a front of the packets that were accepted for it in
/// that contact, once and in order.
pub fn each_member_is_given_a_prefix()
    ensures { GivesAPrefix }
{}

/// The packets that a member was given in a contact, past ones too, are joined to whole messages, and these are a front
/// of the messages that were accepted for it in that contact: where it was given all packets, they are the messages,
/// and none is begun.
pub fn each_member_is_given_a_front_of_the_messages()
    ensures { GivesMessages }
{}

/// What is decoded of a broadcast frame in the air is what was cast: its boot and its members, and the packet as it was
/// accepted, under its number.
pub fn frames_are_read_as_they_were_cast()
    ensures { FramesAreRead }
{}

/// Every broadcast frame that a caster ever sent is to all, brings a packet that names the caster, and has at most
/// 1,516 bytes.
pub fn frames_are_written_by_the_caster()
    ensures { FramesAreWritten }
{}

/// Deeds at its broadcast link that the caster does one behind the other leave it and its members in the law of
/// broadcast.
pub fn deeds_of_a_caster_keep()
    ensures { DoingKeeps }
{}

/// A caster and its members, as a world tells of them by what can be looked up there, stay cast, whatever happens to
/// any of them and whatever of all that was ever sent comes into the air. And in each contact the messages that a
/// member was given are a front of those that were accepted for it; each broadcast frame in the air brings the packet
/// at its place of those that were accepted in its boot, for just the nodes of its set.
pub fn a_caster_and_its_members_are_seen()
    ensures begins { BeginsCast }
    ensures same { SameStaysCast }
    ensures parts { PartsStaysCast }
    ensures meets { MeetsStaysCast }
    ensures hears_other { HearsOtherStaysCast }
    ensures sends { SendsStaysCast }
    ensures restarts { RestartsStaysCast }
    ensures tells { TellsStaysCast }
    ensures says { SaysStaysCast }
    ensures enters { EntersStaysCast }
    ensures quits { QuitsStaysCast }
    ensures keeps { KeepsStaysCast }
    ensures learns { LearnsStaysCast }
    ensures takes { TakesStaysCast }
    ensures turns { TurnsStayCast }
    ensures front { FrontsAreCast }
    ensures truth { CastsAreTrue }
{}
