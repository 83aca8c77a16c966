//! Why no link goes down while a world settles. They do nothing when they run.
//!
//! Each speaks of a footing on which a node stands with a peer, as the peer with it: its contact number and its epochs.
//! As long as whatever arrives shows what its sender has at present, both stay as they are, and links only go up.

ghost use Rattle.tipc_settling.specs.Bearers.{SendsOnMended};
ghost use Rattle.tipc_settling.specs.Beginnings.{BeginsStill, SendsUnderPresent, ShowsPresentContact, StandsAnew, TrafficTellsUp};
ghost use Rattle.tipc_settling.specs.Events.{ArrivalsAreCalm, ArrivalsEndSilence, ArrivalsHear, ArrivalsSendUnderPresent, ArrivalsStayStill, EventsAddSilence, EventsAreCalm, EventsSendUnderPresent, EventsStayStill, EventsTellNothing};
ghost use Rattle.tipc_settling.specs.Findings.{ArrivalsFind, NodesAsk};
ghost use Rattle.tipc_settling.specs.Freshness.{AckedIsNumbered, AirAcknowledgesNumbered, FewAreNumbered, TurnsAcknowledgeNoMore};
ghost use Rattle.tipc_settling.specs.Laws.{ActivatesAreHarmless, NumbersAreHarmless, ReleasesAreHarmless, ResetsAreHarmless, TicksAreHarmless, TrafficIsHarmless, TunnelsAreHarmless, TurnsStayStill, TurnsTellNothing};
ghost use Rattle.tipc_settling.specs.Rises.{ActivatesTakeUp, ArrivalsMakeAnswer, ArrivalsTakeUp, ArrivalsTakeUpAnswering, ArrivalsTellAnswer, ArrivalsTellContact, EventsHearUps, EventsKeepEnds, EventsTellAnswer, HeardEndsAnswer, NodesSayNotice, NoticesTellContact, ResetsMakeAnswer, StatesTakeUp, TicksSayNotice, TurnsTellAnswer, UpsWereHeard};
ghost use Rattle.tipc_settling.specs.Silence.{SilenceGrowsByTicks, TicksSayState, WordsAreTaken, WordsEndSilence};

/// What comes to a link end while its peer has one epoch and one contact number takes nothing down: a RESET or an
/// ACTIVATE that shows both, a STATE or a numbered packet that shows the epoch, a tick where the link was silent for at
/// most three, an original tunnel packet that names another epoch, a release, and the peer's contact number where it
/// was not seen before. (The rows of the table of link states.)
pub fn what_shows_the_present_is_harmless()
    ensures resets { ResetsAreHarmless }
    ensures activates { ActivatesAreHarmless }
    ensures traffic { TrafficIsHarmless }
    ensures ticks { TicksAreHarmless }
    ensures tunnels { TunnelsAreHarmless }
    ensures releases { ReleasesAreHarmless }
    ensures numbers { NumbersAreHarmless }
{}

/// A pair between which and its peer nothing goes down stays so through each turn in which no bearer is cut, both links
/// were heard where a tick passes, and what is heard shows what the peer has at present: its epochs and its contact
/// number stay, a link that is up stays up, an end that knows the peer's epoch goes on to show it, and what it knows of
/// the peer is no more than that has.
pub fn nothing_goes_down_at_a_pair()
    ensures { TurnsStayStill }
{}

/// Where what is heard is heard on links alone that were up, such a turn tells nothing of links and contact.
pub fn a_still_pair_tells_nothing()
    ensures { TurnsTellNothing }
{}

/// So it is at a node, in each of its events, with the pair to each other node: it stays still, and what leaves for
/// that node is under the present epoch; where link packets come to links alone that were up, the step tells nothing of
/// them and of the contact; and a link is silent for one tick more by a tick at most.
pub fn nothing_goes_down_at_a_node()
    ensures still { EventsStayStill }
    ensures tells { EventsTellNothing }
    ensures calm { EventsAreCalm }
    ensures sends { EventsSendUnderPresent }
    ensures silence { EventsAddSilence }
{}

/// And so it is by the arrival of any frame, where of those that aren't stopped the link packets of the peer show what
/// it has at present: of a frame that is stopped, on a bearer that is cut, say, nothing is asked.
pub fn nothing_goes_down_by_an_arrival()
    ensures still { ArrivalsStayStill }
    ensures calm { ArrivalsAreCalm }
    ensures sends { ArrivalsSendUnderPresent }
{}

/// Two nodes that talk are still on the footing of any moment at which no link between them is up, or each is up with
/// what the peer has at present. And a RESET or an ACTIVATE in the air under the present epoch of its sender, but the
/// last of a boot, shows its present contact number.
pub fn stillness_begins_at_any_moment()
    ensures begins { BeginsStill }
    ensures shows { ShowsPresentContact }
{}

/// A still pair is still on the footing of any later moment too: a link that came up meanwhile stays up, an end that
/// began to answer goes on to, and one that isn't held stays so.
pub fn what_came_up_stays_up()
    ensures { StandsAnew }
{}

/// A STATE or a numbered packet in the air under the present epoch of its sender's link end was sent by a link that is
/// up.
pub fn what_is_told_in_a_session_tells_of_it()
    ensures { TrafficTellsUp }
{}

/// Each frame of the links that leaves a still pair is under the present epoch of its node.
pub fn what_leaves_shows_the_present()
    ensures { SendsUnderPresent }
{}

/// A link is silent for one tick more by a tick at most, and by nothing else; and a link of a still pair isn't silent
/// when it has heard an ACTIVATE, a STATE or a numbered packet that shows what both nodes have at present. A link that
/// is up takes the first two, and at a node at which nothing stops them the link isn't silent then.
pub fn links_that_hear_are_not_silent()
    ensures grows { SilenceGrowsByTicks }
    ensures ends { WordsEndSilence }
    ensures taken { WordsAreTaken }
    ensures arrivals { ArrivalsEndSilence }
{}

/// While no bearer is mended or cut, each frame of the links that leaves a node leaves on a mended bearer. So on a
/// bearer that is cut at either node neither hears the other.
pub fn what_leaves_is_on_mended_bearers()
    ensures { SendsOnMended }
{}

/// At a tick a link of a still pair that is up, and was silent for at most three ticks, says STATE in a session of the
/// present epochs of both nodes.
pub fn ticks_of_links_that_are_up_say_state()
    ensures { TicksSayState }
{}

/// While frames arrive that were sent before some moment, a link numbers at most a window's packets more than it had
/// numbered then: no more was acknowledged at that moment, frames in the air acknowledge no more, and a turn in which
/// no more is acknowledged leaves it so.
pub fn at_most_a_window_is_numbered_more()
    ensures begins { AckedIsNumbered }
    ensures air { AirAcknowledgesNumbered }
    ensures turns { TurnsAcknowledgeNoMore }
    ensures few { FewAreNumbered }
{}

/// A link between two nodes between which nothing goes down comes up: an end that isn't held, and isn't at the last
/// epoch of its boot, answers its peer once it heard a RESET that shows the present; it is up once it heard an ACTIVATE
/// under the present epochs of both; and an end that answers is up once it heard a STATE or a numbered packet under
/// them. By a RESET or an ACTIVATE a pair has seen its peer's contact number. At a tick an end that is in reset, on a
/// mended bearer, says RESET, or ACTIVATE where it heard its peer's reset.
pub fn what_shows_the_present_takes_links_up()
    ensures resets { ResetsMakeAnswer }
    ensures activates { ActivatesTakeUp }
    ensures states { StatesTakeUp }
    ensures contact { NoticesTellContact }
    ensures ticks { TicksSayNotice }
{}

/// An end that heard a reset of its peer answers it, where the peer had no contact when stillness began, and its
/// contact number was seen since.
pub fn ends_that_heard_a_reset_answer()
    ensures { HeardEndsAnswer }
{}

/// An ACTIVATE that shows the peer's present epoch leaves a still pair only from an end that answers that epoch, also
/// when the turn, or the event of the node, is over: so the peer whose link goes up by it has an end towards it that
/// answers.
pub fn activates_leave_ends_that_answer()
    ensures turns { TurnsTellAnswer }
    ensures events { EventsTellAnswer }
    ensures arrivals { ArrivalsTellAnswer }
{}

/// A link goes up by what its end hears alone: an ACTIVATE, a STATE or a numbered packet on its bearer, under the
/// present epoch of its own end.
pub fn links_go_up_by_what_they_hear()
    ensures turns { UpsWereHeard }
    ensures events { EventsHearUps }
{}

/// At a tick a node asks who is there on each mended bearer on which no link of it is up then; and a discovery packet
/// that nothing stops leaves an end to its sender on its bearer.
pub fn nodes_that_settle_find_one_another()
    ensures asks { NodesAsk }
    ensures finds { ArrivalsFind }
{}

/// A link end that was made stays made, in each event of its node.
pub fn ends_that_were_made_stay()
    ensures { EventsKeepEnds }
{}

/// A link packet of a peer that isn't stopped is heard in a turn of the pair to that peer, whatever becomes of it.
pub fn arrivals_hear_in_turns()
    ensures { ArrivalsHear }
{}

/// So at a node a RESET of its peer makes an end answer, an ACTIVATE takes it up, and so does a STATE where it answers;
/// either notice tells the peer's contact number; and a tick that tells of no link and no contact says what the node's
/// ends in reset say.
pub fn links_come_up_at_a_node()
    ensures resets { ArrivalsMakeAnswer }
    ensures activates { ArrivalsTakeUp }
    ensures states { ArrivalsTakeUpAnswering }
    ensures contact { ArrivalsTellContact }
    ensures ticks { NodesSayNotice }
{}
