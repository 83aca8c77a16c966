//! Laws of tunnel packets, for callers: each is the contract of a function that does nothing.

ghost use Rattle.std.specs.Prelude.{◌≡◌, ◌+◌, ◌≤◌, ◌<◌, ◌^◌, ℕ, List, length};
ghost use Rattle.tipc_header.specs.Frames.{sent_as, stamped};
ghost use Rattle.tipc_header.specs.Grammar.{Fits};
ghost use Rattle.tipc_header.specs.Spelling.{Fields, renumbered, spelling};
ghost use Rattle.tipc_tunnel.specs.Tunnels.{may_stand_in_tunnel, numbered, tunnel_packet, Carries, IsTunnellable, IsNumbered, IsTunnel, Tunnelled};

/// A tunnel packet is a packet of the grammar, as it waits and as it is sent under whatever numbers and by whatever
/// node. It has 48 bytes more than it carries.
pub fn tunnels_are_packets()
    ensures fits { (t : Tunnelled) → IsTunnel t → Fits (tunnel_packet t) }
    ensures sent { (t : Tunnelled) → (acknowledgement : ℕ) → (sequence : ℕ) → (previous : ℕ) → IsTunnel t →
        acknowledgement < 2 ^ 16 → sequence < 2 ^ 16 → previous < 2 ^ 32 →
        Fits (sent_as acknowledgement sequence previous (tunnel_packet t)) }
    ensures size { (t : Tunnelled) → length (spelling (tunnel_packet t)) ≡ 48 + length t.inner }
{}

/// A tunnel packet that was sent, under whatever numbers and by whatever node, carries what was put into it, and
/// nothing else.
pub fn wrapped_packets_are_unwrapped()
    ensures carried { (t : Tunnelled) → (packet : Fields) → (acknowledgement : ℕ) → (sequence : ℕ) → (previous : ℕ) →
        IsTunnel t →
        acknowledgement < 2 ^ 16 → sequence < 2 ^ 16 → previous < 2 ^ 32 → Fits packet →
        stamped acknowledgement sequence previous (spelling (tunnel_packet t)) ≡ spelling packet → Carries packet t }
    ensures alone { (packet : Fields) → (t : Tunnelled) → (u : Tunnelled) → Carries packet t → Carries packet u →
        t ≡ u }
{}

/// Two tunnel packets that are spelled alike are the same.
pub fn one_tunnel_a_packet()
    ensures { (t : Tunnelled) → (u : Tunnelled) → IsTunnel t → IsTunnel u →
        spelling (tunnel_packet t) ≡ spelling (tunnel_packet u) → t ≡ u }
{}

/// An inner packet under another number is the same packet but for that number, and may stand inside a tunnel packet. A
/// packet that has its number is as it was.
pub fn inner_packets_keep_all_but_the_number()
    ensures packet { (p : Fields) → (number : ℕ) → Fits p →
        numbered number (spelling p) ≡ spelling (renumbered p p.acknowledgement number) }
    ensures inside { (bytes : List ℕ) → (number : ℕ) → IsTunnellable bytes → number < 2 ^ 16 →
        IsNumbered number (numbered number bytes) }
    ensures same { (bytes : List ℕ) → (number : ℕ) → IsNumbered number bytes → numbered number bytes ≡ bytes }
    ensures size { (bytes : List ℕ) → (number : ℕ) → IsTunnellable bytes
        → length (numbered number bytes) ≡ length bytes }
{}
