//! Laws of frames as text, for callers. Each is the contract of a function that does nothing.

ghost use Rattle.std.specs.Prelude.{◌≡◌, ◌<◌, ◌≤◌, ◌^◌, ◌↔◌, ℕ, List, None, Some, drop, length, slice_index, true};
ghost use Rattle.hex.specs.Hex.{encode_lower};
ghost use Rattle.tipc_header.specs.declared.fault.HeaderFault.{HeaderFault};
ghost use Rattle.tipc_header.specs.Faults.{fault_of};
ghost use Rattle.tipc_tunnel.specs.Tunnels.{IsNumbered};
ghost use Rattle.tipc_dissect.specs.Digits.{bad_place, spelled_frame};
ghost use Rattle.tipc_dissect.specs.Frames.{envelope_line, fault_line, text, IsDecodable};
ghost use Rattle.tipc_dissect.specs.Packets.{is_inner_packet};

/// A text tells the frame: two frames with one text are the same bytes, on the same line.
pub fn texts_tell_frames_apart()
    ensures { (m : ℕ) → (n : ℕ) → (f : List ℕ) → (g : List ℕ) → m < 2 ^ 64 → n < 2 ^ 64 → IsDecodable f → IsDecodable g →
        text m f ≡ text n g → (m ≡ n) × (f ≡ g) }
{}

/// A fault is told exactly where decoding gives it, and a missing envelope exactly where there are too few bytes.
pub fn faults_are_told()
    ensures fault { (line : ℕ) → (frame : List ℕ) → (fault : HeaderFault) → line < 2 ^ 64 →
        (text line frame ≡ fault_line line fault) ↔ ((16 ≤ length frame) × (fault_of (drop 16 frame) ≡ Some fault)) }
    ensures envelope { (line : ℕ) → (frame : List ℕ) → line < 2 ^ 64 →
        (text line frame ≡ envelope_line line) ↔ (length frame < 16) }
{}

/// What is shown as the packet inside a tunnel packet is what a link may take out of one.
pub fn inner_packets_are_unwrapped()
    ensures { (number : ℕ) → (bytes : List ℕ) → ((i : ℕ) → slice_index bytes i < 256) →
        (is_inner_packet number bytes ≡ true) ↔ IsNumbered number bytes }
{}

/// A line that is read as a frame is that frame in lower-case hexadecimal.
pub fn frames_are_spelled()
    ensures { (line : List ℕ) → bad_place line ≡ None → line ≡ encode_lower (spelled_frame line) }
{}
