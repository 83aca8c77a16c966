//! The words of links: states, causes, replies, reasons, and what frames say of a session.

ghost use Rattle.std.specs.Prelude.{◌≡◌};
ghost use Rattle.tipc_types.specs.LinkStates.{is_up};

/// The state of a link end. It is up in the two working states. (TIPC 2.0 draft; Held is this project's profile.)
#[derive(Clone, Copy, Debug, PartialEq, Eq)]
pub enum LinkState {
    /// Down, and the peer's reset wasn't heard.
    ResetUnknown,
    /// Down, and the peer's reset was heard.
    ResetReset,
    /// Up, and the peer was heard lately.
    WorkingWorking,
    /// Up, and the peer wasn't heard for at least two ticks.
    WorkingUnknown,
    /// Down, and kept so until the pair's other link has handed over what this one had.
    Held,
}

impl LinkState {
    /// Whether a link in this state is up.
    pub fn is_up(self) -> bool
        ensures { result ≡ is_up self }
    {
        matches!(self, LinkState::WorkingWorking | LinkState::WorkingUnknown)
    }
}

/// Why a link went down. (This project's profile.)
#[derive(Clone, Copy, Debug, PartialEq, Eq)]
pub enum Cause {
    /// Its bearer was cut at this node.
    Cut,
    /// The peer wasn't heard for too many ticks.
    Silent,
    /// The peer reset its end.
    PeerReset,
    /// The peer handed this link's packets over on the other link.
    PeerTunnel,
    /// The contact ended.
    ContactEnded,
}

/// The link protocol frame that a change of a link end calls for, as far as its bearer is mended.
#[derive(Clone, Copy, Debug, PartialEq, Eq)]
pub enum Reply {
    /// A RESET.
    Reset,
    /// An ACTIVATE.
    Activate,
    /// A STATE.
    State {
        /// Whether it asks the peer for a STATE.
        probe: bool,
    },
}

/// Why an arrival is ignored, in the order in which the reasons are looked at. (This project's profile.)
#[derive(Clone, Copy, Debug, PartialEq, Eq)]
pub enum Why {
    /// The bearer is cut.
    Cut,
    /// The frame has fewer than 16 bytes or more than 1,516.
    Envelope,
    /// The packet doesn't decode: the number of the decoder's fault.
    Header(u8),
    /// The previous node is this one, or no node of this cluster.
    Own,
    /// A discovery packet of another network.
    Network,
    /// There is no link end to the previous node.
    Unknown,
    /// The shown contact number is below the highest seen.
    Contact,
    /// The link end is held.
    Held,
    /// The epochs aren't those of the session.
    Epoch,
    /// The peer's broadcast isn't in step with this node.
    OutOfStep,
    /// This node isn't one of the broadcast's members.
    NotMember,
    /// The packet was taken before, or is too far ahead.
    Old,
}

/// The session of a link that failed or was left: its bearer and the sender's epoch.
#[derive(Clone, Copy, Debug, PartialEq, Eq)]
pub struct OldSession {
    /// The bearer, 0 or 1.
    pub bearer: u8,
    /// The sender's link epoch.
    pub epoch: u64,
}

/// The broadcast fields of a STATE. Numbers are modulo 65,536. (This project's profile.)
#[derive(Clone, Copy, Debug, PartialEq, Eq)]
pub struct BroadcastState {
    /// The last broadcast number of the peer that was taken.
    pub acknowledged: u16,
    /// The number that the sender's next broadcast packet will have.
    pub next: u16,
    /// The first broadcast number of this contact.
    pub start: u16,
    /// How many broadcast packets of the peer are missing.
    pub gap: u16,
    /// Whether the sender is in step with the peer's broadcast.
    pub in_step: bool,
}
