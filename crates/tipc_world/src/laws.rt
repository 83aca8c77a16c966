//! Laws of the rounds in which a world settles. They do nothing when they run.

ghost use Rattle.std.specs.Prelude.{◌≡◌, ◌≤◌, ◌<◌, ◌+◌, ◌*◌, ◌/◌, ℕ, Bool, List, true, false, Some, Ok, filter, length, slice_get};
ghost use Rattle.tipc_types.specs.Address.{node_word};
ghost use Rattle.tipc_outside.specs.declared.outgoing.Outgoing.{Outgoing};
ghost use Rattle.tipc_types.specs.declared.node_calls.Answer.{Answer};
ghost use Rattle.tipc_replay.specs.declared.air.Sent.{Sent};
ghost use Rattle.tipc_replay.specs.declared.events.WorldEvent.{WorldEvent};
ghost use Rattle.tipc_replay.specs.declared.events.WorldEvent.TheVariants.{Arrive};
ghost use Rattle.tipc_replay.specs.Calls.{node_of};
ghost use Rattle.tipc_replay.specs.Air.{airborne, is_on};
ghost use Rattle.tipc_replay.specs.Due.{frame_for, is_for};
ghost use Rattle.tipc_replay.specs.Readers.{world_load};
ghost use Rattle.tipc_replay.specs.Skies.{air_on};
ghost use Rattle.tipc_replay.specs.States.{contact_at, MemberState};
ghost use Rattle.tipc_world.specs.Courses.{numbers, Asks, Goes, Takes};
ghost use Rattle.tipc_world.specs.Ends.{ends_of, place_on, AreBefore};
ghost use Rattle.tipc_world.specs.declared.places.Places.{Places};
ghost use Rattle.tipc_world.specs.declared.settling.Receivers.TheVariants.{Any};
ghost use Rattle.tipc_world.specs.declared.settling.Settled.TheVariants.{Quiet};
ghost use Rattle.tipc_world.specs.CalmWorlds.{IsCalmWorld};
ghost use Rattle.tipc_world.specs.HeardWorlds.{BeginsRound, StandsCalm};
ghost use Rattle.tipc_world.specs.Poised.{packets_under_way, IsDownWorld, IsPoised, StaysPoised};
ghost use Rattle.tipc_world.specs.RisingWorlds.{AreUpsAnswered, IsRisingWorld};
ghost use Rattle.tipc_world.specs.RoundParts.{ComesFrom, EachNode, GoesByRounds, GrowsNoMore, HappensWhole, HasArrivedOnce, HasTickedOnce, IsKept, IsRound, PartsAt, PartsAtRound, RoundStep, TickBrings};
ghost use Rattle.tipc_world.specs.Settling.{arrival_asked, settled_by, tick_asked, Round, Rounds};
ghost use Rattle.tipc_world.specs.States.{is_there, WorldState};
ghost use Rattle.tipc_world.specs.StillWorlds.{HasHeardAll, IsStillWorld, MayBeStill};

/// A course parts at each of its numbers, and the rounds of a call part at each round: what stands before, and what
/// behind. A round has its parts: every node ticks, and then frames arrive on bearer 0, and then on bearer 1. (This
/// project's profile.)
pub fn rounds_have_their_parts()
    ensures course { (asks : Asks) (first number : ℕ) (start : WorldState) (end count : ℕ) (now : WorldState)
        → first ≤ number → number < end → Goes asks first start end count now
        → PartsAt asks first number end start now }
    ensures rounds { (start : WorldState) (made rounds : ℕ) (places : Places) (now : WorldState)
        → made ≤ rounds → Rounds start rounds places now → PartsAtRound start made rounds places now }
    ensures round { (places : Places) (start : WorldState) (ends : Places) (now : WorldState)
        → Round places start (Ok ends) now → IsRound places start ends now }
{}

/// What a number of a round comes to, where no frame is lost: nothing; a node ticks; or a frame of the air that isn't
/// too old arrives at a node that it is for. Each frame in the air then stood there before, or left in that event; and
/// where a number of its node grows by no more than another one does, the totals of all nodes do. Through all rounds of
/// a call in which no frame is lost, the same nodes are there, in their boots and with the bearers mended that were;
/// all that was sent and that happened stays; and what every world keeps is kept. (This project's profile.)
pub fn settling_goes_by_events()
    ensures ticks { (from : Places) (number : ℕ) (old : WorldState) (made : Bool) (new : WorldState)
        → Takes tick_asked number old (Ok made) new → new.lost ≡ false → RoundStep from old new }
    ensures arrives { (from : Places) (bearer number : ℕ) (old : WorldState) (made : Bool) (new : WorldState)
        → bearer ≤ 1 → place_on bearer from ≤ number / numbers
        → Takes (arrival_asked Any bearer) number old (Ok made) new → new.lost ≡ false → RoundStep from old new }
    ensures frames { (old new : WorldState) (event : WorldEvent) (bytes : List ℕ) (answered : Answer)
        (h : HappensWhole old new event bytes answered) (bearer place : ℕ) (f : Sent) → bearer ≤ 1
        → slice_get (air_on bearer new.air) place ≡ Some f → ComesFrom old new (node_of event) h.frames bearer place f }
    ensures totals { (number other : MemberState → ℕ) (start old new : WorldState) (event : WorldEvent) (bytes : List ℕ)
        (answered : Answer) (h : HappensWhole old new event bytes answered)
        → number h.after + other h.before ≤ number h.before + other h.after → GrowsNoMore number other start old
        → GrowsNoMore number other start new }
    ensures goes_on { (start : WorldState) (rounds : ℕ) (places : Places) (now : WorldState)
        → Rounds start rounds places now → now.lost ≡ false → GoesByRounds start places now }
{}

/// In a round in which no frame is lost, each node that is there ticks once: the ticks of the others leave it as it is,
/// and all frames that leave it stand in the air. (This project's profile.)
pub fn each_node_ticks_once_a_round()
    ensures { (places : Places) (start : WorldState) (ends : Places) (now : WorldState)
        (r : IsRound places start ends now) (n : ℕ) → now.lost ≡ false → 1 ≤ n → n ≤ 32 → is_there start n ≡ true
        → HasTickedOnce start r.ticked n }
{}

/// In a round in which no frame is lost, each frame that stands in the air at or behind the first places of the round,
/// after the ticks, arrives once at each node that it is for and that is there, and has its effect there if it isn't
/// too old then: on bearer 0, and on bearer 1 behind that. No other number of the round asks for this arrival. (This
/// project's profile.)
pub fn each_frame_arrives_once_a_round()
    ensures first { (places : Places) (start : WorldState) (ends : Places) (now : WorldState)
        (r : IsRound places start ends now) (place n : ℕ) (f : Sent) → now.lost ≡ false → n ≤ 32
        → is_there start n ≡ true → places.first ≤ place → frame_for r.ticked.air n 0 place ≡ Some f
        → HasArrivedOnce 0 places.first (length r.ticked.air.first) r.ticked r.between place n f }
    ensures second { (places : Places) (start : WorldState) (ends : Places) (now : WorldState)
        (r : IsRound places start ends now) (place n : ℕ) (f : Sent) → now.lost ≡ false → n ≤ 32
        → is_there start n ≡ true → places.second ≤ place → frame_for r.ticked.air n 1 place ≡ Some f
        → HasArrivedOnce 1 places.second (length r.ticked.air.second) r.between now place n f }
    ensures once { (bearer place n number : ℕ) (w : WorldState)
        → arrival_asked Any bearer w number ≡ Some (Arrive n bearer place) → number ≡ numbers * place + n }
{}

/// In a round in which no frame is lost, each frame that leaves a node at its tick arrives once, in the same round, at
/// each node that it is for and that is there, where the first places of the round aren't behind the ends of the air
/// with which it begins. (This project's profile.)
pub fn what_a_tick_sends_arrives()
    ensures first { (places : Places) (start : WorldState) (ends : Places) (now : WorldState)
        (r : IsRound places start ends now) (b n k : ℕ) (t : HasTickedOnce start r.ticked b) (o : Outgoing)
        → now.lost ≡ false → AreBefore places (ends_of start.air) → n ≤ 32 → is_there start n ≡ true
        → slice_get (filter (is_on 0) t.ticks.frames) k ≡ Some o
        → is_for (record { word = node_word b }) o.to n ≡ true
        → TickBrings 0 places.first (length r.ticked.air.first) start r.ticked r.ticked r.between n
        (airborne (contact_at t.before.members b) t.after.members b o) }
    ensures second { (places : Places) (start : WorldState) (ends : Places) (now : WorldState)
        (r : IsRound places start ends now) (b n k : ℕ) (t : HasTickedOnce start r.ticked b) (o : Outgoing)
        → now.lost ≡ false → AreBefore places (ends_of start.air) → n ≤ 32 → is_there start n ≡ true
        → slice_get (filter (is_on 1) t.ticks.frames) k ≡ Some o
        → is_for (record { word = node_word b }) o.to n ≡ true
        → TickBrings 1 places.second (length r.ticked.air.second) start r.ticked r.between now n
        (airborne (contact_at t.before.members b) t.after.members b o) }
{}

/// A world in which no packet is under way is quiet. (This project's profile.)
pub fn no_packets_are_quiet()
    ensures { (w : WorldState) → packets_under_way w ≡ 0 → settled_by (world_load w.members) ≡ Quiet }
{}

/// While a world settles nothing goes down. Where each link that is up is up with what the peer has at present, as in a
/// poised world and in one in which no link is up or held, each two nodes are still from the begin of the call on, and
/// each round keeps them so in which no frame is lost and that begins when each node has heard all others in the last
/// three ticks: contact numbers and epochs stay, links that were up stay up, and what is sent shows what its sender has
/// at present. (This project's profile.)
pub fn nothing_goes_down_in_a_round()
    ensures poised { (w : WorldState) → IsKept w → IsPoised w → MayBeStill w }
    ensures down { (w : WorldState) → IsDownWorld w → MayBeStill w }
    ensures begins { (start : WorldState) → IsKept start → MayBeStill start → start.lost ≡ false
        → IsStillWorld start start }
    ensures round { (start : WorldState) (places : Places) (outset : WorldState) (ends : Places) (now : WorldState)
        → IsKept start → AreBefore (ends_of start.air) places → IsRound places outset ends now → now.lost ≡ false
        → IsStillWorld start outset → EachNode HasHeardAll outset → IsStillWorld start now }
{}

/// And from a poised world on nothing goes up: each round keeps each link up just where it was, and all that is sent is
/// sent on bearers that are mended. (This project's profile.)
pub fn a_poised_world_stays_calm()
    ensures begins { (start : WorldState) → IsKept start → IsPoised start → start.lost ≡ false
        → IsCalmWorld start start }
    ensures round { (start : WorldState) (places : Places) (outset : WorldState) (ends : Places) (now : WorldState)
        → IsKept start → IsPoised start → AreBefore (ends_of start.air) places → IsRound places outset ends now
        → now.lost ≡ false → IsCalmWorld start outset → EachNode HasHeardAll outset → IsCalmWorld start now }
{}

/// In a poised world each node has heard all others in the last three ticks. And each round of a call that began in one
/// leaves each node so: what each node says at its tick of a link that is up arrives in the round, none of whose frames
/// is too old, and ends the silence at the other end. So the call leaves each link up just where it was through all its
/// rounds, and the world is poised again after it. (This project's profile.)
pub fn a_poised_world_hears_itself()
    ensures begins { (w : WorldState) → IsKept w → IsPoised w → EachNode HasHeardAll w }
    ensures round { (start : WorldState) (places : Places) (outset : WorldState) (ends : Places) (now : WorldState)
        → IsRound places outset ends now → BeginsRound start places outset now → EachNode HasHeardAll now }
    ensures call { (start : WorldState) (rounds : ℕ) (places : Places) (now : WorldState) → IsKept start
        → IsPoised start → Rounds start rounds places now → now.lost ≡ false → StandsCalm start places now }
    ensures again { (start : WorldState) (places : Places) (now : WorldState) → IsKept start → IsPoised start
        → StandsCalm start places now → StaysPoised start now }
{}

/// In a world in which no link is up or held nothing goes down in the first four rounds either in which no frame is
/// lost, while links come up: no link is silent for more ticks than rounds were made. And each link that is up is
/// answered: the end of its peer knows its present epoch, and is up or heard a reset. (This project's profile.)
pub fn links_that_come_up_are_answered()
    ensures begins { (start : WorldState) → IsKept start → IsDownWorld start → start.lost ≡ false
        → IsRisingWorld start 0 start × AreUpsAnswered start start }
    ensures round { (start : WorldState) (most : ℕ) (places : Places) (outset : WorldState) (ends : Places)
        (now : WorldState) → IsKept start → most ≤ 3 → AreBefore (ends_of start.air) places
        → IsRound places outset ends now → now.lost ≡ false → IsRisingWorld start most outset
        → AreUpsAnswered start outset → IsRisingWorld start (most + 1) now × AreUpsAnswered start now }
{}

/// A world in which no link is up or held is poised after four rounds or more in which no frame is lost: each two nodes
/// stand on each bearer that is mended at both. (This project's profile.)
pub fn a_new_world_comes_up()
    ensures { (start : WorldState) (rounds : ℕ) (places : Places) (now : WorldState) → 4 ≤ rounds → IsKept start
        → IsDownWorld start → Rounds start rounds places now → now.lost ≡ false → IsPoised now }
{}
