//! Laws of two links and the tunnels between them. They do nothing when they run.

ghost use Rattle.std.specs.Prelude.{◌≡◌, ℕ, true, false, List, [], ◌∷◌};
ghost use Rattle.tipc_changeover.specs.Distances.{Bounded};
ghost use Rattle.tipc_changeover.specs.Laws.{BoundedFromEither, EndedArePast, FramesAreNear, FullHoldsPlain, IsOpened, NoneMissing, PastAreTaken, PlaceholderHoldsTunnel, ReachedAreBounded, ReachedAreSound, ReachedTakeFront, ResetAreTaken, SoundFromEither, SoundTakeFront, StayBounded, StaySound, TunnelsAreNear};
ghost use Rattle.tipc_changeover.specs.Links.{slots, First};
ghost use Rattle.tipc_changeover.specs.Reached.{begun, IsReached};
ghost use Rattle.tipc_changeover.specs.Slots.{Plain, LinkSlot, Tunnel};
ghost use Rattle.tipc_changeover.specs.Sound.{Sound};
ghost use Rattle.tipc_changeover.specs.Stories.{failover_story, told_from};
ghost use Rattle.tipc_changeover.specs.Weaker.{deferred, failed_waiting_first, failed_without_run, next_behind, next_on_first, next_on_second, nothing_given_back, one_carried, one_given_over, one_in_flight, one_on_second, one_taken, one_waits, recorded_anew, released_early, switched_without_run, taken_again, waiting_overtakes, Misleads};

/// Two links that haven't been up yet are sound, and stay so whatever happens at either of them. What is sound is so
/// from either link.
pub fn two_links_stay_sound()
    ensures start { Sound First begun }
    ensures each { StaySound }
    ensures reached { ReachedAreSound }
    ensures either { SoundFromEither }
{}

/// Whatever happened since the begin of a contact, the plain packets that were taken are the first ones that were
/// put, each once and in their order.
pub fn what_is_taken_is_a_front_of_what_was_put()
    ensures reached { ReachedTakeFront }
    ensures sound { SoundTakeFront }
{}

/// A tunnel packet at the next place of its link's record is in order or old: no place before its own is missing, and
/// it never has to be deferred.
pub fn a_tunnel_packet_is_never_deferred()
    ensures order { NoneMissing }
    ensures opens { IsOpened }
{}

/// What a switch or a failover sends anew leaves out no plain packet: a full tunnel packet holds the one of its
/// place, and a placeholder stands for a tunnel packet alone, which spoke of an earlier place of the placeholder's
/// own session.
pub fn a_placeholder_leaves_out_no_plain_packet()
    ensures full { FullHoldsPlain }
    ensures placeholder { PlaceholderHoldsTunnel }
{}

/// An end that isn't held has nothing left of its ended sessions, and one that is reset has nothing left: all its
/// plain packets were taken.
pub fn a_released_end_has_nothing_left()
    ensures ended { EndedArePast }
    ensures taken { PastAreTaken }
    ensures reset { ResetAreTaken }
{}

/// The places of two links stay near to one another, whatever happens: a slot with a number is at most a window
/// beyond what was taken of its session, and a tunnel packet that is opened speaks of a place less than a window
/// behind it. So the lower 16 bits of a place tell which one is meant.
pub fn places_stay_near()
    ensures start { Bounded begun }
    ensures each { StayBounded }
    ensures reached { ReachedAreBounded }
    ensures either { BoundedFromEither }
    ensures frames { FramesAreNear }
    ensures tunnels { TunnelsAreNear }
{}

/// A failover, told whole: two packets are on the second link, the first link has taken the flow over with their
/// duplicates, and goes down before anything of it arrives. The second link gets placeholders for the duplicates and
/// the third packet in a full tunnel packet, and all three are taken in their order.
pub fn a_failover_with_placeholders()
    ensures reached { IsReached (told_from begun failover_story) }
    ensures carried { slots (told_from begun failover_story).far ≡
        Plain 1 ∷ Plain 2 ∷ Tunnel 1 1 false ∷ Tunnel 1 2 false ∷ Tunnel 1 3 true ∷ [] }
    ensures delivered { (told_from begun failover_story).delivered ≡ 1 ∷ 2 ∷ 3 ∷ [] }
{}

/// No weaker rule does: what each of these makes of a state that is reached leads, by events that may happen, to
/// packets that are taken out of order or twice. An end released while unacknowledged tunnel packets speak of it;
/// waiting packets put in front of the run of a failover; a switch without duplicates; a failover without a run; a
/// record begun anew when the receiver's link goes up with its own session; a tunnel packet whose inner packet is
/// deferred.
pub fn no_weaker_rule_does()
    ensures released_early { Misleads (told_from begun one_given_over) (released_early (told_from begun one_given_over))
        nothing_given_back }
    ensures waiting_first { Misleads (told_from begun one_waits) (failed_waiting_first (told_from begun one_waits))
        waiting_overtakes }
    ensures no_duplicates { Misleads (told_from begun one_on_second)
        (switched_without_run (told_from begun one_on_second)) next_on_first }
    ensures no_run { Misleads (told_from begun one_in_flight) (failed_without_run (told_from begun one_in_flight))
        next_on_second }
    ensures record_anew { Misleads (told_from begun one_taken) (recorded_anew (told_from begun one_taken)) taken_again }
    ensures deferred { Misleads (told_from begun one_carried) (deferred (told_from begun one_carried)) next_behind }
{}
