//! Laws of reassembly, for callers: each is the contract of a function that does nothing.

ghost use Rattle.std.specs.Prelude.{◌≡◌, ◌++◌, [], ℕ, All, List, map};
ghost use Rattle.std.specs.List.{flat_map};
ghost use Rattle.tipc_types.specs.Prefixes.{IsPrefixOf};
ghost use Rattle.tipc_types.specs.declared.packet_lists.Taken.{Taken};
ghost use Rattle.tipc_fragments.specs.Joining.{fresh, Joining};
ghost use Rattle.tipc_fragments.specs.Streams.{Item, items_of};
ghost use Rattle.tipc_bundle.specs.Bundles.{IsInner};
ghost use Rattle.tipc_reassembly.specs.declared.opening.Opened.{Opened};
ghost use Rattle.tipc_reassembly.specs.Opening.{Brings, BringsAll};
ghost use Rattle.tipc_reassembly.specs.Slots.{came_by, came_of, packets_in, slot_bytes, slot_items, BringsItems, HasOpened, IsSlot, IsWholePacket, OpensFront, Slot};
ghost use Rattle.tipc_reassembly.specs.Tracing.{IsAmong, IsBegunBy, IsOpenedBy};

/// One thing comes of a packet, and of packets that are taken one after the other.
pub fn one_thing_comes_of_packets()
    ensures one { (s : Joining) (bytes : List ℕ) (by : ℕ) (opened : List Opened) (more : List Opened)
        (last : Joining) (after : Joining) →
        Brings s bytes by opened last → Brings s bytes by more after → (opened ≡ more) × (last ≡ after) }
    ensures all { (s : Joining) (taken : List Taken) (opened : List Opened) (more : List Opened) (last : Joining)
        (after : Joining) →
        BringsAll s taken opened last → BringsAll s taken more after → (opened ≡ more) × (last ≡ after) }
{}

/// What a sender put into packets comes out of them: the packet that is joined from whole packets gives these, and a
/// fragment's packet gives what the joiner makes of the fragment.
pub fn a_slot_brings_its_items()
    ensures one { (slot : Slot) (s : Joining) (by : ℕ) (opened : List Opened) (last : Joining) → IsSlot slot →
        Brings s (slot_bytes slot) by opened last → BringsItems s (came_by by slot) opened last }
    ensures all { (slots : List Slot) (s : Joining) (taken : List Taken) (opened : List Opened) (last : Joining) →
        All IsSlot slots →
        map (λ t. t.packet) taken ≡ map slot_bytes slots → BringsAll s taken opened last →
        BringsItems s (came_of slots taken) opened last }
{}

/// Messages of payload or name items are sent, each in a packet of its own, in a bundle, or in fragments. Where a front
/// of what is sent of them is taken, only whole packets come out, and these are a front of the messages, in order.
/// Where everything is taken they are the messages, and none is begun.
pub fn slots_of_messages_give_a_front()
    ensures { (messages : List (List ℕ)) (slots : List Slot) (taken : List Taken) (opened : List Opened)
        (last : Joining) →
        All IsInner messages → All IsSlot slots → IsPrefixOf (flat_map slot_items slots) (flat_map items_of messages) →
        map (λ t. t.packet) taken ≡ map slot_bytes slots → BringsAll fresh taken opened last →
        OpensFront messages (flat_map slot_items slots) opened last }
{}

/// The same, step by step: what came so far is kept as the items that were taken and the messages that they gave.
pub fn messages_are_given_step_by_step()
    ensures none { HasOpened [] [] fresh }
    ensures more { (messages : List (List ℕ)) (items : List Item) (given : List (List ℕ)) (begun : Joining)
        (slots : List Slot) (taken : List Taken) (opened : List Opened) (last : Joining) →
        HasOpened items given begun → All IsInner messages →
        IsPrefixOf (items ++ flat_map slot_items slots) (flat_map items_of messages) → All IsSlot slots →
        map (λ t. t.packet) taken ≡ map slot_bytes slots → BringsAll begun taken opened last →
        HasOpened (items ++ flat_map slot_items slots) (given ++ packets_in opened) last × All IsWholePacket opened }
    ensures front { (messages : List (List ℕ)) (items : List Item) (given : List (List ℕ)) (begun : Joining) →
        HasOpened items given begun →
        All IsInner messages → IsPrefixOf items (flat_map items_of messages) → IsPrefixOf given messages }
    ensures every { (messages : List (List ℕ)) (items : List Item) (given : List (List ℕ)) (begun : Joining) →
        HasOpened items given begun →
        All IsInner messages → items ≡ flat_map items_of messages → (given ≡ messages) × (begun ≡ fresh) }
{}

/// The arrivals of a whole packet are those that brought it: one, where it came alone or inside a bundle, and else
/// those of its fragments, each by its own, in order. So it is whatever was taken before and whatever is begun.
pub fn what_is_opened_is_traced()
    ensures none { (before : List Taken) → IsBegunBy (IsAmong before) fresh }
    ensures begun { (before : List Taken) (taken : List Taken) (s : Joining) (opened : List Opened) (last : Joining) →
        IsBegunBy (IsAmong before) s → BringsAll s taken opened last → IsBegunBy (IsAmong (before ++ taken)) last }
    ensures opened { (before : List Taken) (taken : List Taken) (s : Joining) (opened : List Opened) (last : Joining) →
        IsBegunBy (IsAmong before) s → BringsAll s taken opened last →
        All (IsOpenedBy (IsAmong (before ++ taken))) opened }
{}
