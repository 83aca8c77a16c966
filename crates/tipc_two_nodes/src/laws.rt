//! Laws of two nodes with a pair each. They do nothing when they run.

ghost use Rattle.tipc_two_nodes.specs.Joined.{StandingAreJoined};
ghost use Rattle.tipc_two_nodes.specs.Known.{ContactTellsPresent, NothingHigherIsKnown, PresentTellsContact};
ghost use Rattle.tipc_two_nodes.specs.Order.{BothInOne, EnteredNotYounger, EnteredPast, EnteredRise, EntersMet, HeardInContact, NoneMet, SeenNoHigher, SessionInContact, StepsMet, TurnedMet};
ghost use Rattle.tipc_two_nodes.specs.Quiet.{QuietIsGiven};
ghost use Rattle.tipc_two_nodes.specs.Reaching.{ReachedAreFronts, ReachedAreSeen};
ghost use Rattle.tipc_two_nodes.specs.Sights.{EndsSeen, FramesSeen, FrontsSeen, GivesSeen, RestartsSeen, StartsSeen, TurnedSeen, TurnsSeen};
ghost use Rattle.tipc_two_nodes.specs.Truth.{FramesFit, TruthsSeen};

/// Two nodes go on talking as a world tells of them: by what they keep, what their journals record, and the frames that
/// came into the air. Each turn of a node at its pair leaves them so, whatever it sends is lost, and whatever of all
/// that was ever sent arrives, on either bearer. What an arrival gives is whole, and a front of what the other put; so
/// is what was given; each link end keeps the numbers of its node; each frame in the air is a packet of its node, in at
/// most 1,516 bytes; and what a STATE or a numbered packet says of its contact is so.
pub fn two_nodes_are_seen()
    ensures starts { StartsSeen }
    ensures turned { TurnedSeen }
    ensures restarts { RestartsSeen }
    ensures turns { TurnsSeen }
    ensures gives { GivesSeen }
    ensures front { FrontsSeen }
    ensures ends { EndsSeen }
    ensures frames { FramesSeen }
    ensures truths { TruthsSeen }
    ensures fit { FramesFit }
{}

/// Two nodes that are seen to talk agree on the order of their contacts, whatever either does then: both in contact are
/// in the same one; each contact that a node was in is older than its present one, and no younger than that of the
/// other; a STATE or a numbered packet of the session in which a link is up was told in the present contact; and so was
/// one that a pair hears, in the contact in which the pair is after it.
pub fn two_nodes_agree_on_their_contacts()
    ensures none { NoneMet }
    ensures turned { TurnedMet }
    ensures enters { EntersMet }
    ensures steps { StepsMet }
    ensures seen { SeenNoHigher }
    ensures both { BothInOne }
    ensures rise { EnteredRise }
    ensures past { EnteredPast }
    ensures no_younger { EnteredNotYounger }
    ensures session { SessionInContact }
    ensures heard { HeardInContact }
{}

/// Whatever two nodes do from the beginning, turn by turn and restart by restart in any order, and whatever of all that
/// they ever sent arrives, as often and as late as it may: what either was given in a contact is a front of what the
/// other put in it. (This project's profile.)
pub fn what_is_given_is_a_front()
    ensures seen { ReachedAreSeen }
    ensures front { ReachedAreFronts }
{}

/// What two nodes that talk know of each other. Nothing is above what the other has: no contact number, and no epoch,
/// also where it was forgotten or the other one has no link end yet. A link end that knows the present epoch of the
/// other one has seen its present contact number; and of a node without contact, one that has seen that number knows no
/// other epoch.
pub fn what_nodes_know()
    ensures no_higher { NothingHigherIsKnown }
    ensures contact { PresentTellsContact }
    ensures present { ContactTellsPresent }
{}

/// Two link ends that are up on a bearer, each with the other's epoch, are in sessions that are joined: what one
/// numbered the other took, holds or lacks, and was shown no more than the next position. So what tipc_repair says of a
/// packet that was lost is true of them, both ways.
pub fn links_that_stand_are_joined()
    ensures { StandingAreJoined }
{}

/// Where no packet is unacknowledged or waits at either link of a node to another one, all messages that it put in its
/// contact were given, in order.
pub fn quiet_links_gave_everything()
    ensures { QuietIsGiven }
{}
