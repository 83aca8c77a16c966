//! Laws of what the sockets of a node hold, beside its journal: each is the contract of a function that does nothing.

ghost use Rattle.std.specs.Prelude.{◌≡◌, ◌<◌, ◌+◌, ◌++◌, ◌∷◌, ℕ, Bool, List, Option, [], None, Some, false, true, is_some, filter, length, slice_get, unwrap_or};
ghost use Rattle.std.specs.List.{list_any};
ghost use Rattle.tipc_types.specs.declared.identity.Addr.{Addr};
ghost use Rattle.tipc_journal.specs.declared.entries.Entry.{Entry};
ghost use Rattle.tipc_types.specs.declared.message_forms.Message.{Message};
ghost use Rattle.tipc_types.specs.declared.services.Publication.{Publication};
ghost use Rattle.tipc_types.specs.declared.node_calls.Answer.TheVariants.{Done, Socket as Made, Got, Next};
ghost use Rattle.tipc_types.specs.declared.node_calls.Event.{Event};
ghost use Rattle.tipc_types.specs.declared.node_calls.EventNote.TheVariants.{Socket, Close, Receive, NextEvent, Tick};
ghost use Rattle.tipc_journal.specs.Contacts.{contact};
ghost use Rattle.tipc_journal.specs.Dues.{Due, FateDue, due_behind, first_due};
ghost use Rattle.tipc_journal.specs.Fates.{scene_at, IsFate};
ghost use Rattle.tipc_journal.specs.Licensed.{event_given, events_given};
ghost use Rattle.tipc_journal.specs.Names.{is_at_home};
ghost use Rattle.tipc_journal.specs.Queues.{is_taking, queued_by, sockets_after};
ghost use Rattle.tipc_journal.specs.Refusals.{is_among, is_subscribed, made_by, subscriptions_made};
ghost use Rattle.tipc_journal.specs.Steps.{NodeStep, step_entries, IsInside, IsWhole};
ghost use Rattle.tipc_journal.specs.Subscriptions.{change_events as entry_events, subscriptions, timeouts, transitions};
ghost use Rattle.tipc_types.specs.declared.node_calls.Subscription.{Subscription};
ghost use Rattle.tipc_sockets.specs.Entries.{change_of, events_where};
ghost use Rattle.tipc_ports.specs.Numbers.{port_number};
ghost use Rattle.tipc_topology.specs.Changing.{due, events_left, of_number, passed, with_event_taken as taken_one, with_kept};
ghost use Rattle.tipc_sockets.specs.Fates.{after_fate, fate};
ghost use Rattle.tipc_sockets.specs.Publishing.{closed, is_at, withdrawn_each};
ghost use Rattle.tipc_sockets.specs.SocketTables.{no_sockets, queue_at, with_first_taken, with_queues, with_socket, with_watchers, AreSockets, SocketTable};
ghost use Rattle.tipc_sockets.specs.Telling.{after_entry, fate_entry, is_for_one_there, is_payload, is_of_subscriptions, is_placed, is_tick, origin_of, AreTold, MayFollow};

/// An empty journal tells what new sockets hold.
pub fn new_sockets_are_told()
    ensures { (own : Addr) (boot : ℕ) (d : Due) → AreTold own [] d [] (no_sockets own.word boot) }
{}

/// One more entry that queues nothing tells what the sockets hold after it, and what their subscribers are told.
pub fn entries_tell_of_sockets()
    ensures { (own : Addr) (J : List Entry) (d : Due) (front : List Entry) (s : SocketTable) (e : Entry) →
        AreTold own J d front s → AreSockets s → is_at_home own e ≡ true →
        ((port : ℕ) → queued_by port (due_behind own d front) e ≡ []) → is_placed s e ≡ true → MayFollow s e →
        AreTold own J d (front ++ e ∷ []) (after_entry s e) }
{}

/// The fate that the sockets give a user's message may stand where it is due, and tells what they hold after it. A
/// message by name that didn't arrive is for a port that is there.
pub fn fates_tell_of_sockets()
    ensures may { (own : Addr) (J : List Entry) (d : Due) (front : List Entry) (s : SocketTable) (m : Message) →
        (arrived : Bool) → (waiting : Option ℕ) → AreTold own J d front s → AreSockets s → is_payload m ≡ true →
        is_some waiting ≡ is_some (contact (J ++ front) (origin_of m)) →
        (arrived ≡ false → is_for_one_there s m ≡ true) →
        IsFate (scene_at own J d front) m arrived (fate_entry (fate s arrived waiting m)) }
    ensures told { (own : Addr) (J : List Entry) (d : Due) (front : List Entry) (s : SocketTable) (m : Message) →
        (arrived : Bool) → (waiting : Option ℕ) → AreTold own J d front s → AreSockets s →
        due_behind own d front ≡ FateDue m arrived →
        AreTold own J d (front ++ fate_entry (fate s arrived waiting m) ∷ [])
        (after_fate s m (fate s arrived waiting m)) }
{}

/// Where the publications at a port are withdrawn one after the other, in the order of publishing, nothing is
/// published there any more, and closing the port then leaves what closing it at once does.
pub fn a_closing_withdraws_in_turn()
    ensures sockets { (s : SocketTable) (ps : List Publication) → AreSockets s → AreSockets (withdrawn_each s ps) }
    ensures bare { (s : SocketTable) (port : ℕ) → AreSockets s →
        list_any (is_at port) (withdrawn_each s (filter (is_at port) s.live)).live ≡ false }
    ensures same { (s : SocketTable) (port : ℕ) → AreSockets s →
        closed (withdrawn_each s (filter (is_at port) s.live)) port ≡ closed s port }
{}

/// One more whole step tells what the sockets hold after its call: a socket that is made is there with an empty
/// queue; one that is closed, where nothing is published there any more, isn't; a received message is taken, and so is
/// an event that is given; a tick passes for the subscriptions, where those that were due have ended; and by any other
/// call nothing changes.
pub fn steps_tell_of_sockets()
    ensures made { (own : Addr) (J : List Entry) (st : NodeStep) (s : SocketTable) (later : Due) (port : ℕ) →
        IsWhole J → IsInside st.inside → AreTold own J (first_due own st.event st.answer) st.inside s →
        st.event ≡ Socket → st.answer ≡ Made port → port ≡ port_number s.ports.boot (s.ports.made + 1) →
        AreTold own (J ++ step_entries st) later [] (with_socket s port) }
    ensures closed { (own : Addr) (J : List Entry) (st : NodeStep) (s : SocketTable) (later : Due) (port : ℕ) →
        IsWhole J → IsInside st.inside → AreTold own J (first_due own st.event st.answer) st.inside s →
        st.event ≡ Close port → st.answer ≡ Done → AreSockets s → list_any (is_at port) s.live ≡ false →
        AreTold own (J ++ step_entries st) later [] (closed s port) }
    ensures taken { (own : Addr) (J : List Entry) (st : NodeStep) (s : SocketTable) (later : Due) (port : ℕ) →
        IsWhole J → IsInside st.inside → AreTold own J (first_due own st.event st.answer) st.inside s →
        st.event ≡ Receive port → st.answer ≡ Got → 0 < length (unwrap_or (queue_at s port) []) →
        AreTold own (J ++ step_entries st) later [] (with_queues s (with_first_taken s.queues port)) }
    ensures others { (own : Addr) (J : List Entry) (st : NodeStep) (s : SocketTable) (later : Due) →
        IsWhole J → IsInside st.inside → AreTold own J (first_due own st.event st.answer) st.inside s →
        ((ports : List ℕ) → sockets_after ports st.event st.answer ≡ ports) → made_by st.event st.answer ≡ None →
        ((port : ℕ) → is_taking port st.event st.answer ≡ false) → is_tick st.event ≡ false →
        ((n : ℕ) → event_given n st.event st.answer ≡ None) → AreTold own (J ++ step_entries st) later [] s }
    ensures given { (own : Addr) (J : List Entry) (st : NodeStep) (s : SocketTable) (later : Due) (number : ℕ)
        (e : Event) →
        IsWhole J → IsInside st.inside → AreTold own J (first_due own st.event st.answer) st.inside s →
        st.event ≡ NextEvent number → st.answer ≡ Next e →
        slice_get (events_left (of_number s.watchers number)) 0 ≡ Some e →
        AreTold own (J ++ step_entries st) later []
        (with_watchers s (with_kept s.watchers (taken_one number s.watchers.kept))) }
    ensures passed { (own : Addr) (J : List Entry) (st : NodeStep) (s : SocketTable) (later : Due) →
        IsWhole J → IsInside st.inside → AreTold own J (first_due own st.event st.answer) st.inside s →
        st.event ≡ Tick → st.answer ≡ Done → list_any is_subscribed st.inside ≡ false → due s.watchers.kept ≡ [] →
        AreTold own (J ++ step_entries st) later [] (with_watchers s (passed s.watchers)) }
{}

/// What the journal says of a call on subscriptions is what the sockets hold: which are there, how many are, and how
/// many were made; the next event of one is the first that wasn't taken; and those that are due in a tick, whatever the
/// tick made before that isn't of subscriptions, are those that time out in it.
pub fn subscriptions_are_told()
    ensures there { (own : Addr) (J : List Entry) (d : Due) (s : SocketTable) (number : ℕ) → AreTold own J d [] s →
        is_among (subscriptions J) number ≡ is_some (of_number s.watchers number) }
    ensures counted { (own : Addr) (J : List Entry) (d : Due) (s : SocketTable) → AreTold own J d [] s →
        (length (subscriptions J) ≡ length s.watchers.kept) × (subscriptions_made J ≡ s.watchers.made) }
    ensures next { (own : Addr) (J : List Entry) (d : Due) (s : SocketTable) (number : ℕ) → AreTold own J d [] s →
        is_some (of_number s.watchers number) ≡ true →
        slice_get (transitions J number) (length (events_given J number)) ≡
        slice_get (events_left (of_number s.watchers number)) 0 }
    ensures due { (own : Addr) (J : List Entry) (d : Due) (front : List Entry) (s : SocketTable) →
        AreTold own J d front s → list_any is_of_subscriptions front ≡ false → due s.watchers.kept ≡ timeouts J }
{}

/// The events of a subscriber at an entry of a journal are those at the change of the table that the entry tells of.
pub fn entries_are_changes()
    ensures { (s : Subscription) (there : List Publication) (e : Entry) →
        entry_events s there e ≡ events_where s there (change_of there e) }
{}
