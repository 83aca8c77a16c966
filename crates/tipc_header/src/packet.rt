//! The values of packets.

ghost use Rattle.std.specs.Prelude.{◌≡◌};

/// A packet: the fields that every packet has, the header of its user, and the bytes that follow.
#[derive(Clone, Copy, Debug, PartialEq, Eq)]
pub struct Packet<'a> {
    /// The last number that the sender took from the link. 0 in RESET, ACTIVATE and discovery.
    pub acknowledgement: u16,
    /// The packet's own number on the link. 0 in link protocol and discovery packets.
    pub sequence: u16,
    /// The address of the node that put the packet on the bearer.
    pub previous: u32,
    /// The user of the packet, with the fields that it adds.
    pub header: Header,
    /// What follows the fields: user bytes, inner packets, name items or a piece of a message.
    pub rest: &'a [u8],
}

/// The header fields of each user (TIPC 2.0 draft; the places of the fields are this project's profile).
#[derive(Clone, Copy, Debug, PartialEq, Eq)]
pub enum Header {
    /// Users 0 to 3, a message between ports.
    Payload(Payload),
    /// User 6, several packets in one.
    Bundler(Bundle),
    /// User 7 of type 0, STATE.
    State(State),
    /// User 7 of type 1, RESET.
    Reset(Reset),
    /// User 7 of type 2, ACTIVATE.
    Activate(Reset),
    /// User 10, a packet of a link that went down or gave way, on the other link.
    Changeover(Changeover),
    /// User 11, publications and withdrawals of names.
    NameDistributor(NameDistribution),
    /// User 12, a piece of a message.
    Fragmenter(Fragment),
    /// User 13, link configuration, by which nodes find each other.
    Discovery(Discovery),
}

/// A message between ports. The bytes of the user follow, at most 66,000.
#[derive(Clone, Copy, Debug, PartialEq, Eq)]
pub struct Payload {
    /// 0 low, 1 medium, 2 high, 3 critical. It is also the user.
    pub importance: u8,
    /// Whether the receiver may drop the message in place of returning it.
    pub destination_droppable: bool,
    /// Whether the sender may drop the message where the link is congested.
    pub source_droppable: bool,
    /// Why a message came back: 0 it didn't, 1 no name, 2 no port, 3 no node, 4 overload, 5 the
    /// connection was shut down.
    pub error_code: u8,
    /// How often the message was sent on to another port, at most 15.
    pub reroute_count: u8,
    /// How far a name is looked up, at most 3.
    pub lookup_scope: u8,
    /// The last broadcast number that the sender took; 0 from nodes of this project, which tell it in STATE.
    pub broadcast_acknowledgement: u16,
    /// The number of the port that the message comes from.
    pub origin_port: u32,
    /// The number of the port that the message is for; 0 in a multicast from nodes of this project.
    pub destination_port: u32,
    /// How the message finds its port, which is also the message type.
    pub addressing: Addressing,
}

/// How a message is addressed: its type, and the fields that the type adds to the header.
#[derive(Clone, Copy, Debug, PartialEq, Eq)]
pub enum Addressing {
    /// Type 0, 6 words: by a connection.
    Connected,
    /// Type 1, 11 words: to every port that has a name in a range.
    Multicast {
        /// The address of the node that the message comes from.
        origin_node: u32,
        /// The address of the node that the message is for; 0 from nodes of this project. The decoder takes any.
        destination_node: u32,
        /// The service type of the name.
        name_type: u32,
        /// The lowest instance of the range.
        lower: u32,
        /// The highest instance of the range.
        upper: u32,
    },
    /// Type 2, 10 words: to one port that has a name.
    Named {
        /// The address of the node that the message comes from.
        origin_node: u32,
        /// The address of the node that the message is for.
        destination_node: u32,
        /// The service type of the name.
        name_type: u32,
        /// The instance of the name.
        instance: u32,
    },
    /// Type 3, 8 words: to a port by its number.
    Direct {
        /// The address of the node that the message comes from.
        origin_node: u32,
        /// The address of the node that the message is for.
        destination_node: u32,
    },
}

/// Several packets in one. They follow, each padded to a multiple of 4 bytes.
#[derive(Clone, Copy, Debug, PartialEq, Eq)]
pub struct Bundle {
    /// The last broadcast number that the sender took; 0 from nodes of this project, which tell it in STATE.
    pub broadcast_acknowledgement: u16,
    /// The number of inner packets, at least 2.
    pub count: u16,
}

/// What an end of a link that is up tells the other. Nothing follows.
#[derive(Clone, Copy, Debug, PartialEq, Eq)]
pub struct State {
    /// How many packets are missed before the first that is held, at most 8,191.
    pub gap: u16,
    /// The last broadcast number of this peer that the sender took; 0 from a sender that isn't in step.
    pub broadcast_acknowledgement: u16,
    /// The number that the sender's next packet on the link will have.
    pub next: u16,
    /// The number that the sender's next broadcast packet will have.
    pub broadcast_next: u16,
    /// The first broadcast number that this peer is to take.
    pub broadcast_start: u16,
    /// How many broadcast packets are missed.
    pub broadcast_gap: u16,
    /// The address of the node that the packet is for.
    pub destination_node: u32,
    /// Whether an answer is asked for.
    pub probe: bool,
    /// Whether the sender is in step with the peer's broadcast.
    pub in_step: bool,
    /// The priority of the link, at most 31.
    pub priority: u8,
}

/// What an end of a link in reset tells the other, in RESET and ACTIVATE. Nothing follows.
#[derive(Clone, Copy, Debug, PartialEq, Eq)]
pub struct Reset {
    /// The address of the node that the packet is for.
    pub destination_node: u32,
    /// The priority of the link, at most 31.
    pub priority: u8,
    /// The sender's contact number.
    pub contact: u64,
    /// The contact number of the peer, or 0 where it isn't known.
    pub peer_contact: u64,
}

/// A packet of another link, or a sign that there is none. The inner packet follows, or nothing.
#[derive(Clone, Copy, Debug, PartialEq, Eq)]
pub struct Changeover {
    /// What became of the other link, which is also the message type.
    pub changeover_type: ChangeoverType,
    /// The last broadcast number that the sender took; 0 from nodes of this project, which tell it in STATE.
    pub broadcast_acknowledgement: u16,
    /// How many packets the run has. In a run of 0 the inner number is 0 and nothing follows.
    pub count: u16,
    /// The number that the inner packet has on its own link.
    pub inner_number: u16,
    /// The bearer of the other link, 0 or 1.
    pub old_bearer: u8,
    /// The epoch of the other link's session.
    pub old_epoch: u64,
}

/// Whether the link of a tunnel packet's inner packet keeps that packet too, or has given it up. (TIPC 2.0 draft.)
#[derive(Clone, Copy, Debug, PartialEq, Eq)]
pub enum ChangeoverType {
    /// Type 0: the other link is up and keeps its packet, of which this is a copy.
    Duplicate,
    /// Type 1: the other link went down, and its packet travels here alone.
    Original,
}

/// Publications or withdrawals: 1 to 70 items of 20 bytes follow.
#[derive(Clone, Copy, Debug, PartialEq, Eq)]
pub struct NameDistribution {
    /// What the items are, which is also the message type.
    pub distribution_type: DistributionType,
    /// The last broadcast number that the sender took; 0 from nodes of this project, which tell it in STATE.
    pub broadcast_acknowledgement: u16,
}

/// Whether names are published or withdrawn. (TIPC 2.0 draft.)
#[derive(Clone, Copy, Debug, PartialEq, Eq)]
pub enum DistributionType {
    /// Type 0: the items are published.
    Publication,
    /// Type 1: the items are withdrawn.
    Withdrawal,
}

/// A piece of a message, of 1 to 1,412 bytes, which follow.
#[derive(Clone, Copy, Debug, PartialEq, Eq)]
pub struct Fragment {
    /// Which piece it is, which is also the message type.
    pub fragment_type: FragmentType,
    /// The last broadcast number that the sender took; 0 from nodes of this project, which tell it in STATE.
    pub broadcast_acknowledgement: u16,
    /// The place of the piece in its message, from 1.
    pub number: u16,
}

/// Which piece of its message a fragment is. (TIPC 2.0 draft.)
#[derive(Clone, Copy, Debug, PartialEq, Eq)]
pub enum FragmentType {
    /// Type 0: the first piece.
    First,
    /// Type 1: a piece between the first and the last.
    Middle,
    /// Type 2: the last piece.
    Last,
}

/// How nodes of a network find each other. Nothing follows.
#[derive(Clone, Copy, Debug, PartialEq, Eq)]
pub struct Discovery {
    /// Whether it asks or answers, which is also the message type.
    pub discovery_type: DiscoveryType,
    /// The identity of the network.
    pub network: u32,
}

/// Whether a node asks who is there, or answers. (TIPC 2.0 draft.)
#[derive(Clone, Copy, Debug, PartialEq, Eq)]
pub enum DiscoveryType {
    /// Type 0: the sender asks who is there.
    Request,
    /// Type 1: the sender answers a request.
    Response,
}

impl Addressing {
    ghost use Rattle.tipc_header.specs.Users.{addressing_type, addressing_size};

    /// The message type, from 0 to 3.
    pub fn message_type(&self) -> u8
        ensures { result ≡ addressing_type self.now }
    {
        match self {
            Addressing::Connected => 0,
            Addressing::Multicast { .. } => 1,
            Addressing::Named { .. } => 2,
            Addressing::Direct { .. } => 3,
        }
    }

    /// The header size in words.
    pub fn words(&self) -> usize
        ensures { result ≡ addressing_size self.now }
    {
        match self {
            Addressing::Connected => 6,
            Addressing::Multicast { .. } => 11,
            Addressing::Named { .. } => 10,
            Addressing::Direct { .. } => 8,
        }
    }
}

impl Header {
    ghost use Rattle.tipc_header.specs.Users.{user_of, type_of, header_size, is_non_sequenced, is_destination_droppable, is_source_droppable};
    ghost use Rattle.tipc_header.specs.Spelling.{numbers_size};

    /// The number of the user.
    pub fn user(&self) -> u8
        ensures { result ≡ user_of self.now }
    {
        match self {
            Header::Payload(payload) => payload.importance,
            Header::Bundler(_) => 6,
            Header::State(_) | Header::Reset(_) | Header::Activate(_) => 7,
            Header::Changeover(_) => 10,
            Header::NameDistributor(_) => 11,
            Header::Fragmenter(_) => 12,
            Header::Discovery(_) => 13,
        }
    }

    /// The number of the message type, from 0 to 3.
    pub fn message_type(&self) -> u8
        ensures { result ≡ type_of self.now }
    {
        match self {
            Header::Payload(payload) => payload.addressing.message_type(),
            Header::Bundler(_) | Header::State(_) => 0,
            Header::Reset(_) => 1,
            Header::Activate(_) => 2,
            Header::Changeover(changeover) => changeover.changeover_type as u8,
            Header::NameDistributor(distribution) => distribution.distribution_type as u8,
            Header::Fragmenter(fragment) => fragment.fragment_type as u8,
            Header::Discovery(discovery) => discovery.discovery_type as u8,
        }
    }

    /// The header size in words.
    pub fn words(&self) -> usize
        ensures { result ≡ header_size self.now }
    {
        match self {
            Header::Payload(payload) => payload.addressing.words(),
            _ => 10,
        }
    }

    /// Whether packets of this user have no sequence number.
    pub fn is_non_sequenced(&self) -> bool
        ensures { result ≡ is_non_sequenced self.now }
    {
        matches!(
            self,
            Header::State(_) | Header::Reset(_) | Header::Activate(_) | Header::Discovery(_)
        )
    }

    /// How many bytes the numbers behind the header take.
    pub(crate) fn numbers_size(&self) -> usize
        ensures { result ≡ numbers_size self.now }
    {
        match self {
            Header::Reset(_) | Header::Activate(_) => 16,
            Header::Changeover(_) => 8,
            _ => 0,
        }
    }
}

impl Packet<'_> {
    ghost use Rattle.tipc_header.specs.Spelling.{view, size_of};

    /// The message size in bytes: how long the packet is when it is spelled.
    pub fn size(&self) -> usize
        ensures { result ≡ size_of (view self.now) }
    {
        4 * self.header.words() + self.header.numbers_size() + self.rest.len()
    }
}
