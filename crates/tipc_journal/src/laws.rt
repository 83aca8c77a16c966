//! Laws of what a journal is read for. Each says what one more entry, or one more step, changes, so that
//! no caller has to look into a whole journal. They do nothing when they run.

ghost use Rattle.std.specs.Prelude.{◌≡◌, ◌<◌, ◌+◌, ◌&&◌, nat_lt, ℕ, Bool, true, false, not, List, [], ◌∷◌, ◌++◌, if◌then◌else◌, drop, filter, length};
ghost use Rattle.std.specs.List.{All, list_all, list_any};
ghost use Rattle.tipc_types.specs.Prefixes.{IsPrefixOf};
ghost use Rattle.tipc_types.specs.declared.message_forms.Flow.{Flow};
ghost use Rattle.tipc_types.specs.declared.message_forms.Message.{Message};
ghost use Rattle.tipc_types.specs.declared.services.Publication.{Publication};
ghost use Rattle.tipc_types.specs.Tables.{is_of, put};
ghost use Rattle.tipc_journal.specs.declared.entries.Entry.TheVariants.{Delivered};
ghost use Rattle.tipc_journal.specs.Contacts.{contact, contact_after, up_epochs, epochs_after};
ghost use Rattle.tipc_journal.specs.Counting.{call_by, calls_of, is_sent_by_name, names_sent, names_sent_before, stamps, AllAnsweredToCallers, CallsCount, IsAnsweredToCaller, StampsRise};
ghost use Rattle.tipc_journal.specs.Dues.{Due, NothingDue, FateDue, due_after, due_behind, first_due};
ghost use Rattle.tipc_journal.specs.Fates.{AllHaveFates, AllMayStand, HasFates, IsFate, MayStand, due_in, is_fate, scene_at, scene_in};
ghost use Rattle.tipc_journal.specs.Licensed.{event_given, events_given, is_send, sends_in, AllLicensed, AllPicked, IsLicensed};
ghost use Rattle.tipc_journal.specs.Matches.{arranged, names, names_after};
ghost use Rattle.tipc_journal.specs.Names.{live, live_after, learned, learned_after, table, is_at_home, AreAtHome};
ghost use Rattle.tipc_journal.specs.Prefixes.{list_with};
ghost use Rattle.tipc_journal.specs.Queues.{ever_queued, step_queued, queued_by, taken_count, is_taking, queue, queue_inside, IsFed, sockets, sockets_after};
ghost use Rattle.tipc_journal.specs.Refusals.{is_subscribed, made_by, sockets_made, subscriptions_made};
ghost use Rattle.tipc_journal.specs.Room.{message_bytes, entry_bytes};
ghost use Rattle.tipc_journal.specs.Steps.{NodeStep, PlacedStep, step_entries, steps, IsWhole, IsInside};
ghost use Rattle.tipc_journal.specs.Streams.{Stream, accepted, accepted_message, delivered, delivered_message, is_items};
ghost use Rattle.tipc_journal.specs.Subscriptions.{watching, watching_after, subscriptions, subscriptions_after, transitions, told_by_entry};

use crate::entries::Entry;
use tipc_types::Addr;

/// One more entry adds its message bytes.
pub fn bytes_add_up()
    ensures { (J : List Entry) (e : Entry) → message_bytes (J ++ e ∷ []) ≡ message_bytes J + entry_bytes e }
{}

/// One more entry adds its message to those accepted in a stream where it is an Accepted of that stream,
/// and nothing where it isn't.
pub fn accepted_follows()
    ensures { (J : List Entry) (e : Entry) (s : Stream) →
        accepted (J ++ e ∷ []) s ≡ list_with (accepted J s) (accepted_message s e) }
{}

/// One more entry adds its message to those delivered in a stream where it is a Delivered of that stream,
/// and nothing where it isn't.
pub fn delivered_follows()
    ensures { (J : List Entry) (e : Entry) (s : Stream) →
        delivered (J ++ e ∷ []) s ≡ list_with (delivered J s) (delivered_message s e) }
{}

/// One more entry begins a contact (ContactUp), ends it (ContactDown) or leaves it.
pub fn contact_follows()
    ensures { (J : List Entry) (e : Entry) (p : Addr) → contact (J ++ e ∷ []) p ≡ contact_after p (contact J p) e }
{}

/// One more entry takes a link up (LinkUp), down (LinkDown) or leaves it.
pub fn links_follow()
    ensures { (J : List Entry) (e : Entry) (p : Addr) (x : ℕ) →
        up_epochs (J ++ e ∷ []) p x ≡ epochs_after p x (up_epochs J p x) e }
{}

/// One more entry adds to the own publications (Published), removes from them (Withdrawn) or leaves them.
pub fn live_follows()
    ensures { (J : List Entry) (e : Entry) → live (J ++ e ∷ []) ≡ live_after (live J) e }
{}

/// One more entry adds to the peers' publications (Learned), removes from them (Forgot, ContactDown)
/// or leaves them.
pub fn learned_follows()
    ensures { (J : List Entry) (e : Entry) → learned (J ++ e ∷ []) ≡ learned_after (learned J) e }
{}

/// One more entry adds a subscription (Subscribed), removes one (Cancelled) or leaves them.
pub fn subscriptions_follow()
    ensures there { (J : List Entry) (e : Entry) →
        subscriptions (J ++ e ∷ []) ≡ subscriptions_after (subscriptions J) e }
    ensures lasting { (J : List Entry) (e : Entry) (n : ℕ) →
        watching (J ++ e ∷ []) n ≡ watching_after n (watching J n) e }
{}

/// One more entry adds what it tells a subscription behind the journal before it.
pub fn transitions_follow()
    ensures { (J : List Entry) (e : Entry) (n : ℕ)
        → transitions (J ++ e ∷ []) n ≡ transitions J n ++ told_by_entry n J e }
{}

/// One more whole step behind whole steps is the last step, beside the journal before it.
pub fn steps_follow()
    ensures last { (J : List Entry) (s : NodeStep) → IsWhole J → IsInside s.inside →
        steps (J ++ step_entries s) ≡ steps J ++ record { before = J; step = s } ∷ [] }
    ensures whole { (J : List Entry) (s : NodeStep) → IsWhole J → IsInside s.inside → IsWhole (J ++ step_entries s) }
{}

/// One more whole step adds what it queues to a port, counts as a receive or not, and makes or closes a socket.
pub fn queues_follow()
    ensures queued { (own : Addr) (J : List Entry) (s : NodeStep) (port : ℕ) → IsWhole J → IsInside s.inside →
        ever_queued own (J ++ step_entries s) port ≡ ever_queued own J port ++ step_queued own port s }
    ensures taken { (J : List Entry) (s : NodeStep) (port : ℕ) → IsWhole J → IsInside s.inside →
        taken_count (J ++ step_entries s) port
        ≡ taken_count J port + (if is_taking port s.event s.answer then 1 else 0) }
    ensures sockets { (J : List Entry) (s : NodeStep) → IsWhole J → IsInside s.inside →
        sockets (J ++ step_entries s) ≡ sockets_after (sockets J) s.event s.answer }
    ensures queue { (own : Addr) (J : List Entry) (s : NodeStep) (port : ℕ) → IsWhole J → IsInside s.inside →
        IsFed own J port →
        queue own (J ++ step_entries s) port
        ≡ drop (if is_taking port s.event s.answer then 1 else 0)
        (queue_inside own J (first_due own s.event s.answer) s.inside port) }
    ensures fed { (own : Addr) (J : List Entry) (s : NodeStep) (port : ℕ) → IsWhole J → IsInside s.inside →
        IsFed own J port →
        (is_taking port s.event s.answer ≡ true →
        0 < length (queue_inside own J (first_due own s.event s.answer) s.inside port)) →
        IsFed own (J ++ step_entries s) port }
{}

/// One more entry of an unfinished step puts what is due behind the queue of a port where it is a Queued to it, and
/// says what is due next. At the beginning of the step the queue is that of the journal before it.
pub fn queues_follow_inside()
    ensures begin { (own : Addr) (J : List Entry) (d : Due) (port : ℕ) →
        queue_inside own J d [] port ≡ queue own J port }
    ensures more { (own : Addr) (J : List Entry) (d : Due) (front : List Entry) (e : Entry) (port : ℕ) →
        queue_inside own J d (front ++ e ∷ []) port
        ≡ queue_inside own J d front port ++ queued_by port (due_behind own d front) e }
    ensures due { (own : Addr) (d : Due) (front : List Entry) (e : Entry) →
        due_behind own d (front ++ e ∷ []) ≡ due_after own (due_behind own d front) e }
{}

/// One more entry of an unfinished step changes what is read entry by entry as one more entry of a journal does.
pub fn readings_follow_inside()
    ensures live { (J front : List Entry) (e : Entry) →
        live (J ++ (front ++ e ∷ [])) ≡ live_after (live (J ++ front)) e }
    ensures learned { (J front : List Entry) (e : Entry) →
        learned (J ++ (front ++ e ∷ [])) ≡ learned_after (learned (J ++ front)) e }
    ensures names { (own : Addr) (J front : List Entry) (e : Entry) → AreAtHome own (J ++ front) →
        is_at_home own e ≡ true →
        names (J ++ (front ++ e ∷ [])) ≡ names_after (names (J ++ front)) e }
    ensures contact { (J front : List Entry) (e : Entry) (p : Addr) →
        contact (J ++ (front ++ e ∷ [])) p ≡ contact_after p (contact (J ++ front) p) e }
    ensures links { (J front : List Entry) (e : Entry) (p : Addr) (x : ℕ) →
        up_epochs (J ++ (front ++ e ∷ [])) p x ≡ epochs_after p x (up_epochs (J ++ front) p x) e }
{}

/// One more whole step changes what is read entry by entry as the entries that it made do: its Step and its
/// Answered change nothing.
pub fn readings_follow_steps()
    ensures live { (J : List Entry) (s : NodeStep) → live (J ++ step_entries s) ≡ live (J ++ s.inside) }
    ensures learned { (J : List Entry) (s : NodeStep) → learned (J ++ step_entries s) ≡ learned (J ++ s.inside) }
    ensures table { (J : List Entry) (s : NodeStep) → table (J ++ step_entries s) ≡ table (J ++ s.inside) }
    ensures names { (J : List Entry) (s : NodeStep) → names (J ++ step_entries s) ≡ names (J ++ s.inside) }
    ensures contact { (J : List Entry) (s : NodeStep) (p : Addr) →
        contact (J ++ step_entries s) p ≡ contact (J ++ s.inside) p }
    ensures links { (J : List Entry) (s : NodeStep) (p : Addr) (x : ℕ) →
        up_epochs (J ++ step_entries s) p x ≡ up_epochs (J ++ s.inside) p x }
    ensures subscriptions { (J : List Entry) (s : NodeStep) →
        subscriptions (J ++ step_entries s) ≡ subscriptions (J ++ s.inside) }
    ensures watching { (J : List Entry) (s : NodeStep) (n : ℕ) →
        watching (J ++ step_entries s) n ≡ watching (J ++ s.inside) n }
    ensures transitions { (J : List Entry) (s : NodeStep) (n : ℕ) →
        transitions (J ++ step_entries s) n ≡ transitions (J ++ s.inside) n }
    ensures accepted { (J : List Entry) (n : NodeStep) (s : Stream) →
        accepted (J ++ step_entries n) s ≡ accepted J s ++ accepted n.inside s }
    ensures delivered { (J : List Entry) (n : NodeStep) (s : Stream) →
        delivered (J ++ step_entries n) s ≡ delivered J s ++ delivered n.inside s }
{}

/// One more entry of this node puts a publication into the table in order, takes some out of it, or leaves it, by
/// its kind.
pub fn names_follow()
    ensures table { (own : Addr) (J : List Entry) (e : Entry) → AreAtHome own J → is_at_home own e ≡ true →
        names (J ++ e ∷ []) ≡ names_after (names J) e }
    ensures home { (own : Addr) (J : List Entry) (e : Entry) → AreAtHome own J → is_at_home own e ≡ true →
        AreAtHome own (J ++ e ∷ []) }
    ensures own { (own : Addr) (J : List Entry) → AreAtHome own J → list_all (is_of own.word) (live J) ≡ true }
    ensures peers { (own : Addr) (J : List Entry) → AreAtHome own J →
        list_all (λ p. not (is_of own.word p)) (learned J) ≡ true }
{}

/// What is looked up in publications in order is in order what is looked up in them, and something is found in the
/// ones exactly where it is found in the others.
pub fn look_ups_are_arranged()
    ensures looked_up { (test : Publication → Bool) (ps : List Publication) →
        filter test (arranged ps) ≡ arranged (filter test ps) }
    ensures found { (test : Publication → Bool) (ps : List Publication) →
        list_any test (arranged ps) ≡ list_any test ps }
    ensures more { (ps : List Publication) (p : Publication) → arranged (ps ++ p ∷ []) ≡ put p (arranged ps) }
{}

/// One more entry that may stand where it stands leaves all so; and one more whole step in which each message has
/// its fate leaves a journal in which each has.
pub fn fates_follow()
    ensures inside { (own : Addr) (J : List Entry) (d : Due) (front : List Entry) (e : Entry) →
        AllMayStand own J d front →
        MayStand (scene_at own J d front) (due_behind own d front) e → AllMayStand own J d (front ++ e ∷ []) }
    ensures step { (own : Addr) (J : List Entry) (s : NodeStep) → IsWhole J → IsInside s.inside → AllHaveFates own J →
        HasFates own (record { before = J; step = s }) → AllHaveFates own (J ++ step_entries s) }
{}

/// In a step in which each message has its fate, what is due behind some of its entries stands next: so each payload
/// message that was delivered is followed by its fate. And no fate stands but where a message has it.
pub fn what_is_due_stands_next()
    ensures next { (own : Addr) (p : PlacedStep) (front rest : List Entry) → HasFates own p →
        p.step.inside ≡ front ++ rest → (due_in own p front ≡ NothingDue → ⊥) →
        (e : Entry) × (more : List Entry) × (rest ≡ e ∷ more) × MayStand (scene_in own p front) (due_in own p front) e }
    ensures delivered { (own : Addr) (p : PlacedStep) (front : List Entry) (peer : Addr) (numbers : ℕ × ℕ) (flow : Flow)
        (m : Message) (by : List ℕ) (rest : List Entry) → HasFates own p → is_items m ≡ false →
        p.step.inside ≡ front ++ Delivered peer numbers flow m by ∷ rest →
        (e : Entry) × (more : List Entry) × (rest ≡ e ∷ more)
        × IsFate (scene_in own p (front ++ Delivered peer numbers flow m by ∷ [])) m true e }
    ensures fates { (own : Addr) (p : PlacedStep) (front : List Entry) (e : Entry) (rest : List Entry) →
        HasFates own p →
        is_fate e ≡ true → p.step.inside ≡ front ++ e ∷ rest →
        (m : Message) × (arrived : Bool) × (due_in own p front ≡ FateDue m arrived) ×
        IsFate (scene_in own p front) m arrived e }
{}

/// One more whole step adds what it counts for: a send by name, an event that was given, a socket or subscriptions
/// that were made.
pub fn counts_follow()
    ensures names { (J : List Entry) (s : NodeStep) → IsWhole J → IsInside s.inside →
        names_sent (J ++ step_entries s) ≡ names_sent J + (if is_sent_by_name s.event s.answer then 1 else 0) }
    ensures before { (J : List Entry) (s : NodeStep) (stamp : ℕ) → IsWhole J → IsInside s.inside →
        names_sent_before (J ++ step_entries s) stamp
        ≡ names_sent_before J stamp + (if nat_lt s.by.stamp stamp && is_sent_by_name s.event s.answer then 1 else 0) }
    ensures all { (J : List Entry) (stamp : ℕ) → All (λ x. x < stamp) (stamps J) →
        names_sent_before J stamp ≡ names_sent J }
    ensures events { (J : List Entry) (s : NodeStep) (n : ℕ) → IsWhole J → IsInside s.inside →
        events_given (J ++ step_entries s) n ≡ list_with (events_given J n) (event_given n s.event s.answer) }
    ensures sockets { (J : List Entry) (s : NodeStep) → IsWhole J → IsInside s.inside →
        sockets_made (J ++ step_entries s) ≡ list_with (sockets_made J) (made_by s.event s.answer) }
    ensures subscriptions { (J : List Entry) (s : NodeStep) →
        subscriptions_made (J ++ step_entries s) ≡ subscriptions_made (J ++ s.inside) }
    ensures subscribed { (J : List Entry) (e : Entry) →
        subscriptions_made (J ++ e ∷ []) ≡ subscriptions_made J + (if is_subscribed e then 1 else 0) }
{}

/// Stamps rise, and the calls of each caller are counted from 0, with one more whole step whose stamp is above all
/// before and whose call is the next one of its caller.
pub fn stamps_and_calls_follow()
    ensures stamps { (J : List Entry) (s : NodeStep) → IsWhole J → IsInside s.inside →
        stamps (J ++ step_entries s) ≡ stamps J ++ s.by.stamp ∷ [] }
    ensures rise { (J : List Entry) (s : NodeStep) → IsWhole J → IsInside s.inside → StampsRise J →
        All (λ x. x < s.by.stamp) (stamps J) → StampsRise (J ++ step_entries s) }
    ensures calls { (J : List Entry) (s : NodeStep) (caller : ℕ) → IsWhole J → IsInside s.inside →
        calls_of (J ++ step_entries s) caller ≡ list_with (calls_of J caller) (call_by caller s) }
    ensures callers { (J : List Entry) (s : NodeStep) → IsWhole J → IsInside s.inside → AllAnsweredToCallers J →
        IsAnsweredToCaller s → AllAnsweredToCallers (J ++ step_entries s) }
    ensures count { (J : List Entry) (s : NodeStep) → IsWhole J → IsInside s.inside → CallsCount J →
        s.call ≡ length (calls_of J s.caller) → CallsCount (J ++ step_entries s) }
{}

/// One more licensed step leaves all licensed, and no more was received than was queued. One more entry of an
/// unfinished step is a send or not, by its kind and what is due.
pub fn licences_follow()
    ensures step { (own : Addr) (J : List Entry) (s : NodeStep) → IsWhole J → IsInside s.inside → AllLicensed own J →
        IsLicensed own (record { before = J; step = s }) → AllLicensed own (J ++ step_entries s) }
    ensures fed { (own : Addr) (J : List Entry) (s : NodeStep) (port : ℕ) → IsWhole J → IsInside s.inside →
        IsFed own J port →
        IsLicensed own (record { before = J; step = s }) → IsFed own (J ++ step_entries s) port }
    ensures inside { (own : Addr) (d : Due) (front : List Entry) (e : Entry) →
        sends_in own d (front ++ e ∷ [])
        ≡ sends_in own d front ++ (if is_send (due_behind own d front) e then e ∷ [] else []) }
    ensures told { (own : Addr) (J : List Entry) (s : NodeStep) (n : ℕ) → IsWhole J → IsInside s.inside →
        IsLicensed own (record { before = J; step = s }) → IsPrefixOf (events_given J n) (transitions J n) →
        IsPrefixOf (events_given (J ++ step_entries s) n) (transitions (J ++ step_entries s) n) }
{}
