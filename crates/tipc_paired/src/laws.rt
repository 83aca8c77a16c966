//! Laws of the two nodes of a pair. They do nothing when they run.
//!
//! A node's deeds are the parts of which its calls are made: a link end is called, a session reads an acknowledgement,
//! packets are numbered, a frame is told. So what holds through each deed holds through each call, through calls one
//! after the other in one event, and through all events. Frames may be lost, repeated and reordered, and may arrive
//! long after a session, a contact or a boot ended: whatever a node ever told may arrive at any time.

ghost use Rattle.std.specs.Prelude.{ℕ};
ghost use Rattle.tipc_types.specs.Prefixes.{IsPrefixOf};
ghost use Rattle.tipc_paired.specs.Deeds.{DoesDeed, DoesAll};
ghost use Rattle.tipc_paired.specs.Facts.{BegunWasNamed, HeardWasTaken, NamesCount, RisesAreOfPeer, SameRecordsStay, TunnelsCount, UpIsOnRecord};
ghost use Rattle.tipc_paired.specs.Paired.{ArePaired, IsNew};
ghost use Rattle.tipc_paired.specs.Views.{View};

/// What holds of two nodes at the beginning goes on to hold, whatever either does: on each bearer, in each session.
/// `all` is for deeds one after the other, as those of one event.
pub fn two_nodes_stay_paired()
    ensures start { (x y : View) → IsNew x → IsNew y → ArePaired x y }
    ensures turned { (x y : View) → ArePaired x y → ArePaired y x }
    ensures does { (x y next : View) → ArePaired x y → DoesDeed x y next → ArePaired next y }
    ensures all { (x y next : View) → ArePaired x y → DoesAll x y next → ArePaired next y }
{}

/// What a node took of a session of its peer is a prefix of what the peer numbered in it: no packet is lost between two
/// that were taken, none is taken twice, and none out of order.
pub fn what_is_taken_was_numbered()
    ensures { (x y : View) → ArePaired x y → (bearer epoch : ℕ) →
        IsPrefixOf ((x.wires bearer).got epoch) ((y.wires bearer).line epoch) }
{}

/// What a node learns from its peer is so: an acknowledgement that is heard names no more than what the peer took; a
/// link goes up under an epoch that the peer has on the bearer, or had before, and not under one with which it is Held;
/// and the receiving record is of that epoch then.
pub fn what_is_heard_is_so()
    ensures acknowledged { HeardWasTaken }
    ensures risen { RisesAreOfPeer }
    ensures recorded { UpIsOnRecord }
{}

/// A tunnel packet speaks of a session that began in the contact, so it names an epoch that the node itself named
/// before. The receiving record of a link end, up or down, then counts what comes of that session: its next packets.
pub fn a_record_counts_what_comes_through_the_other_link()
    ensures named { BegunWasNamed }
    ensures names { NamesCount }
    ensures tunnels { TunnelsCount }
    ensures same { SameRecordsStay }
{}
