//! What is promised of a caster and its members, and how calls of the broadcast link are events of that law. The
//! functions do nothing: their contracts are the laws.
ghost use Rattle.tipc_broadcast_law.specs.Lines.{JoinLines, LeaveLines, SendLines, StateLines};
ghost use Rattle.tipc_broadcast_law.specs.Listening.{EnterRuns, HearRuns, QuitRuns, TakenIsShown, TellRuns};
ghost use Rattle.tipc_broadcast_law.specs.Promises.{AcknowledgedIsTaken, AllAreNear, AllReleaseInOrder, BeginsSound, EventsKeep, MessagesStandTogether, PacketsAreNear, RunsKeep, TakesAPrefix, WindowOf50};
ghost use Rattle.tipc_broadcast_law.specs.Steps.{AcknowledgementRuns, AcknowledgementsTellPlaces, FlushRuns, JoinRuns, LeaveRuns, ReleaseIsSilent, SendRuns, StartsAreShown, StateRuns, ToldPlacesShow};

/// A caster that accepted nothing and members that were in no contact meet the law.
pub fn it_holds_at_the_begin()
    ensures { BeginsSound }
{}

/// Every event keeps the law.
pub fn every_event_keeps_it()
    ensures { EventsKeep }
{}

/// Whatever happens one after the other keeps the law.
pub fn it_always_holds()
    ensures { RunsKeep }
{}

/// Each member takes, from its start in a contact on, a front of the packets that were accepted for it in that
/// contact, once and in order.
pub fn each_member_takes_a_prefix()
    ensures { TakesAPrefix }
{}

/// What is accepted for a member is made of whole messages: the packets of one message stand side by side.
pub fn messages_stand_together()
    ensures { MessagesStandTogether }
{}

/// A packet that a member acknowledged in the present contact was taken by it.
pub fn acknowledged_is_taken()
    ensures { AcknowledgedIsTaken }
{}

/// Packets that nobody in contact has yet to acknowledge are the first ones, and every member that has yet to
/// acknowledge a numbered packet is one that it was accepted for, in the present contact.
pub fn packets_are_released_in_order()
    ensures { AllReleaseInOrder }
{}

/// At most 50 packets are numbered past the acknowledgement of any member in contact.
pub fn at_most_50_are_in_flight()
    ensures { WindowOf50 }
{}

/// A packet for a member lies less than 296 places past the one that it wants, and at most 30,542 before it where at
/// most 30,000 were numbered since it was sent: numbers of 16 bits tell places.
pub fn numbers_tell_places()
    ensures { PacketsAreNear }
{}

/// The same is so of a packet that is for the member in another contact than that in which it is: it lies before the
/// place that the member wants, or is for it in that contact.
pub fn packets_of_other_contacts_are_near()
    ensures { AllAreNear }
{}

/// Packets that move up are numbered, one after the other, as the law allows.
pub fn moving_up_is_numbering()
    ensures { FlushRuns }
{}

/// The release of packets changes nothing that the law speaks of.
pub fn a_release_is_no_event()
    ensures { ReleaseIsSilent }
{}

/// A number of 16 bits in a STATE tells the place that the member acknowledges.
pub fn acknowledgements_tell_places()
    ensures { AcknowledgementsTellPlaces }
{}

/// A peer that joins begins a contact in the law.
pub fn joining_is_an_event()
    ensures { JoinRuns }
{}

/// A peer that leaves ends its contact in the law; what is then given up is passed over, and what moves up is numbered.
pub fn leaving_is_a_run()
    ensures { LeaveRuns }
{}

/// A message that is sent is accepted packet by packet, with nothing between, and what moves up is numbered.
pub fn sending_is_a_run()
    ensures { SendRuns }
{}

/// What a peer acknowledges is acknowledged in the law, or was before.
pub fn acknowledging_is_an_event()
    ensures { AcknowledgementRuns }
{}

/// A whole STATE of a peer is a run of the law: it acknowledges, and what moves up is numbered.
pub fn a_state_is_a_run()
    ensures { StateRuns }
{}

/// A STATE to a member in contact shows the number of its start: the first place that is for it.
pub fn states_show_the_start()
    ensures { StartsAreShown }
{}

/// What a member's STATE told of the place up to which it has everything is told by its number of 16 bits, where at
/// most 30,000 packets were numbered since: also where the member took nothing yet.
pub fn states_show_what_was_taken()
    ensures { ToldPlacesShow }
{}

/// A contact that begins at a member begins there in the law.
pub fn entering_is_an_event()
    ensures { EnterRuns }
{}

/// A contact that ends at a member ends there in the law.
pub fn quitting_is_an_event()
    ensures { QuitRuns }
{}

/// A STATE of the caster takes the member in step, or changes nothing: it shows the start of the contact.
pub fn being_told_is_an_event()
    ensures { TellRuns }
{}

/// The arrival of any broadcast packet at a member is a run of the law: whatever its place, its boot and its number. It
/// takes the packets at the place that the member wants, one after the other, and gives just these.
pub fn hearing_is_a_run()
    ensures { HearRuns }
{}

/// A STATE of a member in step shows the number of the place that it wants.
pub fn states_show_what_is_wanted()
    ensures { TakenIsShown }
{}

/// What is unacknowledged and what waits are the frames of the packets at their places, each with the set of the
/// members for which it was accepted. So it is after a message was sent, and each frame that leaves is one of a packet
/// that has its number.
pub fn sending_keeps_the_lines()
    ensures { SendLines }
{}

/// So it is after a peer has joined.
pub fn joining_keeps_the_lines()
    ensures { JoinLines }
{}

/// So it is after a peer has left, and each frame that leaves then is one of a packet that has its number.
pub fn leaving_keeps_the_lines()
    ensures { LeaveLines }
{}

/// So it is after a STATE of a peer, and each frame that leaves then, also one that is sent again, is one of a packet
/// that has its number, for the members for which it was accepted.
pub fn a_state_keeps_the_lines()
    ensures { StateLines }
{}
