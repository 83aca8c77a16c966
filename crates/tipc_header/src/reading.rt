//! The header of each user, read from bytes that have one.

ghost use Rattle.std.specs.Prelude.{◌≡◌, ◌*◌, ◌≤◌, length};
ghost use Rattle.tipc_header.specs.Reading.{user_at, type_at, addressing_at, payload_at, bundle_at, state_at, reset_at, changeover_at, distribution_at, fragment_at, discovery_at, header_at};
ghost use Rattle.tipc_header.specs.Faults.{size_of_type, HasFields};

use crate::bits::{byte_field, field_of, is_set, long, short_field, word};
use crate::packet::{
    Addressing, Bundle, Changeover, ChangeoverType, Discovery, DiscoveryType, DistributionType,
    Fragment, FragmentType, Header, NameDistribution, Payload, Reset, State,
};

/// How a message of this type is addressed.
#[tactic(auto, unfolding(crate::specs::Reading::addressing_at))]
fn addressing(message_type: u32, bytes: &[u8]) -> Addressing
    requires { 4 * size_of_type 0 message_type ≤ length bytes.now }
    ensures { result ≡ addressing_at message_type bytes.now }
{
    match message_type {
        0 => Addressing::Connected,
        1 => Addressing::Multicast {
            origin_node: word(bytes, 6),
            destination_node: word(bytes, 7),
            name_type: word(bytes, 8),
            lower: word(bytes, 9),
            upper: word(bytes, 10),
        },
        2 => Addressing::Named {
            origin_node: word(bytes, 6),
            destination_node: word(bytes, 7),
            name_type: word(bytes, 8),
            instance: word(bytes, 9),
        },
        _ => Addressing::Direct {
            origin_node: word(bytes, 6),
            destination_node: word(bytes, 7),
        },
    }
}

/// The header of a message between ports, of this type.
#[tactic(auto, unfolding(crate::specs::Reading::payload_at))]
fn payload(message_type: u32, bytes: &[u8]) -> Header
    requires { 4 * size_of_type 0 message_type ≤ length bytes.now }
    ensures { result ≡ payload_at (user_at bytes.now) message_type bytes.now }
{
    Header::Payload(Payload {
        importance: byte_field(bytes, 0, 28, 25),
        destination_droppable: is_set(bytes, 0, 19),
        source_droppable: is_set(bytes, 0, 18),
        error_code: byte_field(bytes, 1, 28, 25),
        reroute_count: byte_field(bytes, 1, 24, 21),
        lookup_scope: byte_field(bytes, 1, 20, 19),
        broadcast_acknowledgement: short_field(bytes, 1, 15, 0),
        origin_port: word(bytes, 4),
        destination_port: word(bytes, 5),
        addressing: addressing(message_type, bytes),
    })
}

/// The header of a bundle.
#[tactic(auto, unfolding(crate::specs::Reading::bundle_at))]
fn bundle(bytes: &[u8]) -> Header
    requires { 40 ≤ length bytes.now }
    ensures { result ≡ bundle_at bytes.now }
{
    Header::Bundler(Bundle {
        broadcast_acknowledgement: short_field(bytes, 1, 15, 0),
        count: short_field(bytes, 4, 31, 16),
    })
}

/// The header of a STATE.
#[tactic(auto, unfolding(crate::specs::Reading::state_at))]
fn state(bytes: &[u8]) -> Header
    requires { 40 ≤ length bytes.now }
    ensures { result ≡ state_at bytes.now }
{
    Header::State(State {
        gap: short_field(bytes, 1, 28, 16),
        broadcast_acknowledgement: short_field(bytes, 1, 15, 0),
        next: short_field(bytes, 4, 31, 16),
        broadcast_next: short_field(bytes, 4, 15, 0),
        broadcast_start: short_field(bytes, 5, 31, 16),
        broadcast_gap: short_field(bytes, 5, 15, 0),
        destination_node: word(bytes, 7),
        probe: is_set(bytes, 8, 0),
        in_step: is_set(bytes, 8, 1),
        priority: byte_field(bytes, 8, 6, 2),
    })
}

/// The fields of a RESET or an ACTIVATE.
#[tactic(auto, unfolding(crate::specs::Reading::reset_at))]
fn reset(bytes: &[u8]) -> Reset
    requires { 56 ≤ length bytes.now }
    ensures { result ≡ reset_at bytes.now }
{
    Reset {
        destination_node: word(bytes, 7),
        priority: byte_field(bytes, 8, 6, 2),
        contact: long(bytes, 10),
        peer_contact: long(bytes, 12),
    }
}

/// The header of a tunnel packet of this type.
#[tactic(auto, unfolding(crate::specs::Reading::changeover_at))]
fn changeover(message_type: u32, bytes: &[u8]) -> Header
    requires { 48 ≤ length bytes.now }
    ensures { result ≡ changeover_at message_type bytes.now }
{
    Header::Changeover(Changeover {
        changeover_type: if message_type == 0 {
            ChangeoverType::Duplicate
        } else {
            ChangeoverType::Original
        },
        broadcast_acknowledgement: short_field(bytes, 1, 15, 0),
        count: short_field(bytes, 4, 31, 16),
        inner_number: short_field(bytes, 4, 15, 0),
        old_bearer: byte_field(bytes, 5, 0, 0),
        old_epoch: long(bytes, 10),
    })
}

/// The header of name items of this type.
#[tactic(auto, unfolding(crate::specs::Reading::distribution_at))]
fn distribution(message_type: u32, bytes: &[u8]) -> Header
    requires { 40 ≤ length bytes.now }
    ensures { result ≡ distribution_at message_type bytes.now }
{
    Header::NameDistributor(NameDistribution {
        distribution_type: if message_type == 0 {
            DistributionType::Publication
        } else {
            DistributionType::Withdrawal
        },
        broadcast_acknowledgement: short_field(bytes, 1, 15, 0),
    })
}

/// The header of a fragment of this type.
#[tactic(auto, unfolding(crate::specs::Reading::fragment_at))]
fn fragment(message_type: u32, bytes: &[u8]) -> Header
    requires { 40 ≤ length bytes.now }
    ensures { result ≡ fragment_at message_type bytes.now }
{
    Header::Fragmenter(Fragment {
        fragment_type: match message_type {
            0 => FragmentType::First,
            1 => FragmentType::Middle,
            _ => FragmentType::Last,
        },
        broadcast_acknowledgement: short_field(bytes, 1, 15, 0),
        number: short_field(bytes, 4, 15, 0),
    })
}

/// The header of a discovery packet of this type.
#[tactic(auto, unfolding(crate::specs::Reading::discovery_at))]
fn discovery(message_type: u32, bytes: &[u8]) -> Header
    requires { 40 ≤ length bytes.now }
    ensures { result ≡ discovery_at message_type bytes.now }
{
    Header::Discovery(Discovery {
        discovery_type: if message_type == 0 {
            DiscoveryType::Request
        } else {
            DiscoveryType::Response
        },
        network: word(bytes, 4),
    })
}

/// The header of bytes that have every field of their user and type.
#[tactic(auto, unfolding(crate::specs::Reading::header_at))]
pub(crate) fn header(bytes: &[u8]) -> Header
    requires { HasFields bytes.now }
    ensures { result ≡ header_at (user_at bytes.now) (type_at bytes.now) bytes.now }
{
    let message_type = field_of(bytes, 1, 31, 29);
    match field_of(bytes, 0, 28, 25) {
        0..=3 => payload(message_type, bytes),
        6 => bundle(bytes),
        7 => match message_type {
            0 => state(bytes),
            1 => Header::Reset(reset(bytes)),
            _ => Header::Activate(reset(bytes)),
        },
        10 => changeover(message_type, bytes),
        11 => distribution(message_type, bytes),
        12 => fragment(message_type, bytes),
        _ => discovery(message_type, bytes),
    }
}
