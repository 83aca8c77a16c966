//! The table of fields: the lines of a packet's words, in their order. A field of fewer than 64 bits is shown as a number
//! of 64.

ghost use Rattle.std.specs.Prelude.{◌≡◌, ◌++◌, OnOk};
ghost use Rattle.tipc_header.specs.Spelling.{bit, view};
ghost use Rattle.tipc_header.specs.Users.{is_destination_droppable, is_source_droppable};
ghost use Rattle.tipc_dissect.specs.Lines.{fields_text};
ghost use Rattle.tipc_dissect.specs.Table.{addressing_fields, broadcast_fields, fields_of, gap_fields, message_fields, numbered_fields, numbers_fields, port_fields, reset_fields, start_fields, link_state_fields, tunnel_fields, user_fields, word_1_fields};

use crate::lines::{Value, put_fields};
use tipc_header::{Addressing, Changeover, Header, Packet, Payload, Reset, State};
use tipc_types::NoMemory;

/// A flag as one bit.
fn bit_of(flag: bool) -> u64
    ensures { result ≡ bit flag }
{
    if flag { 1 } else { 0 }
}

/// Whether the receiver may drop the message. Only payload has one.
fn is_destination_droppable(header: &Header) -> bool
    ensures { result ≡ is_destination_droppable header.now }
{
    match header {
        Header::Payload(payload) => payload.destination_droppable,
        _ => false,
    }
}

/// Whether the sender may drop the message. Only payload has one.
fn is_source_droppable(header: &Header) -> bool
    ensures { result ≡ is_source_droppable header.now }
{
    match header {
        Header::Payload(payload) => payload.source_droppable,
        _ => false,
    }
}

/// Appends word 0, and the type.
fn put_start(into: &mut Vec<u8>, indent: &str, packet: &Packet<'_>) -> Result<(), NoMemory>
    ensures { OnOk result (into.new.items ≡ into.old.items ++ fields_text indent.now (start_fields (view packet.now))) }
{
    let header = &packet.header;
    let non_sequenced = bit_of(header.is_non_sequenced());
    let destination_droppable = bit_of(is_destination_droppable(header));
    let source_droppable = bit_of(is_source_droppable(header));
    let fields = [
        ("user", Value::Number(header.user() as u64)),
        ("words", Value::Number(header.words() as u64)),
        ("non-sequenced", Value::Number(non_sequenced)),
        (
            "destination-droppable",
            Value::Number(destination_droppable),
        ),
        ("source-droppable", Value::Number(source_droppable)),
        ("size", Value::Number(packet.size() as u64)),
        ("type", Value::Number(header.message_type() as u64)),
    ];
    put_fields(into, indent, &fields)
}

/// Appends word 1 of payload. No packet has a bit for the flow, so it is 0.
fn put_message(into: &mut Vec<u8>, indent: &str, payload: &Payload) -> Result<(), NoMemory>
    ensures { OnOk result (into.new.items ≡ into.old.items ++ fields_text indent.now (message_fields payload.now)) }
{
    let broadcast_acknowledgement = payload.broadcast_acknowledgement as u64;
    let fields = [
        ("code", Value::Number(payload.error_code as u64)),
        ("reroute", Value::Number(payload.reroute_count as u64)),
        ("scope", Value::Number(payload.lookup_scope as u64)),
        ("flow", Value::Number(0)),
        ("broadcast-ack", Value::Number(broadcast_acknowledgement)),
    ];
    put_fields(into, indent, &fields)
}

/// Appends word 1 of a STATE.
fn put_gap(into: &mut Vec<u8>, indent: &str, state: &State) -> Result<(), NoMemory>
    ensures { OnOk result (into.new.items ≡ into.old.items ++ fields_text indent.now (gap_fields state.now)) }
{
    let broadcast_acknowledgement = state.broadcast_acknowledgement as u64;
    let fields = [
        ("gap", Value::Number(state.gap as u64)),
        ("broadcast-ack", Value::Number(broadcast_acknowledgement)),
    ];
    put_fields(into, indent, &fields)
}

/// Appends the broadcast acknowledgement.
fn put_broadcast(into: &mut Vec<u8>, indent: &str, acknowledgement: u16) -> Result<(), NoMemory>
    ensures { OnOk result (into.new.items ≡ into.old.items ++ fields_text indent.now (broadcast_fields acknowledgement)) }
{
    let acknowledgement = acknowledgement as u64;
    put_fields(
        into,
        indent,
        &[("broadcast-ack", Value::Number(acknowledgement))],
    )
}

/// Appends word 1, below the type.
fn put_word_1(into: &mut Vec<u8>, indent: &str, header: &Header) -> Result<(), NoMemory>
    ensures { OnOk result (into.new.items ≡ into.old.items ++ fields_text indent.now (word_1_fields header.now)) }
{
    match header {
        Header::Payload(payload) => put_message(into, indent, payload),
        Header::Bundler(bundle) => put_broadcast(into, indent, bundle.broadcast_acknowledgement),
        Header::State(state) => put_gap(into, indent, state),
        Header::Changeover(changeover) => {
            put_broadcast(into, indent, changeover.broadcast_acknowledgement)
        }
        Header::NameDistributor(distribution) => {
            put_broadcast(into, indent, distribution.broadcast_acknowledgement)
        }
        Header::Fragmenter(fragment) => {
            put_broadcast(into, indent, fragment.broadcast_acknowledgement)
        }
        Header::Reset(_) | Header::Activate(_) | Header::Discovery(_) => {
            put_fields(into, indent, &[])
        }
    }
}

/// Appends words 2 and 3 of a packet that has a sequence number.
fn put_numbered(into: &mut Vec<u8>, indent: &str, packet: &Packet<'_>) -> Result<(), NoMemory>
    ensures { OnOk result (into.new.items ≡ into.old.items ++ fields_text indent.now
        (numbered_fields (view packet.now))) }
{
    let fields = [
        ("ack", Value::Number(packet.acknowledgement as u64)),
        ("sequence", Value::Number(packet.sequence as u64)),
        ("previous", Value::Address(packet.previous)),
    ];
    put_fields(into, indent, &fields)
}

/// Appends words 2 and 3.
fn put_numbers(into: &mut Vec<u8>, indent: &str, packet: &Packet<'_>) -> Result<(), NoMemory>
    ensures { OnOk result (into.new.items ≡ into.old.items ++ fields_text indent.now
        (numbers_fields packet.now.header (view packet.now))) }
{
    let previous = ("previous", Value::Address(packet.previous));
    let acknowledgement = packet.acknowledgement as u64;
    match packet.header {
        Header::State(_) => {
            let fields = [("ack", Value::Number(acknowledgement)), previous];
            put_fields(into, indent, &fields)
        }
        Header::Reset(_) | Header::Activate(_) | Header::Discovery(_) => {
            put_fields(into, indent, &[previous])
        }
        Header::Payload(_)
        | Header::Bundler(_)
        | Header::Changeover(_)
        | Header::NameDistributor(_)
        | Header::Fragmenter(_) => put_numbered(into, indent, packet),
    }
}

/// Appends the words of payload behind its ports.
fn put_addressing(into: &mut Vec<u8>, indent: &str, addressing: &Addressing) -> Result<(), NoMemory>
    ensures { OnOk result (into.new.items ≡ into.old.items ++ fields_text indent.now
        (addressing_fields addressing.now)) }
{
    match addressing {
        Addressing::Connected => put_fields(into, indent, &[]),
        Addressing::Multicast {
            origin_node,
            destination_node,
            name_type,
            lower,
            upper,
        } => {
            let fields = [
                ("origin-node", Value::Address(*origin_node)),
                ("destination-node", Value::Address(*destination_node)),
                ("name-type", Value::Number(*name_type as u64)),
                ("lower", Value::Number(*lower as u64)),
                ("upper", Value::Number(*upper as u64)),
            ];
            put_fields(into, indent, &fields)
        }
        Addressing::Named {
            origin_node,
            destination_node,
            name_type,
            instance,
        } => {
            let fields = [
                ("origin-node", Value::Address(*origin_node)),
                ("destination-node", Value::Address(*destination_node)),
                ("name-type", Value::Number(*name_type as u64)),
                ("lower", Value::Number(*instance as u64)),
            ];
            put_fields(into, indent, &fields)
        }
        Addressing::Direct {
            origin_node,
            destination_node,
        } => {
            let fields = [
                ("origin-node", Value::Address(*origin_node)),
                ("destination-node", Value::Address(*destination_node)),
            ];
            put_fields(into, indent, &fields)
        }
    }
}

/// Appends words 4 and on of payload.
fn put_payload(into: &mut Vec<u8>, indent: &str, payload: &Payload) -> Result<(), NoMemory>
    ensures { OnOk result (into.new.items ≡ into.old.items ++ fields_text indent.now
        (port_fields payload.now ++ addressing_fields payload.now.addressing)) }
{
    let origin = payload.origin_port as u64;
    let destination = payload.destination_port as u64;
    let fields = [
        ("origin-port", Value::Number(origin)),
        ("destination-port", Value::Number(destination)),
    ];
    put_fields(into, indent, &fields)?;
    put_addressing(into, indent, &payload.addressing)
}

/// Appends words 4 to 9 of a STATE.
fn put_state(into: &mut Vec<u8>, indent: &str, state: &State) -> Result<(), NoMemory>
    ensures { OnOk result (into.new.items ≡ into.old.items ++ fields_text indent.now (link_state_fields state.now)) }
{
    let probe = bit_of(state.probe);
    let in_step = bit_of(state.in_step);
    let broadcast_start = state.broadcast_start as u64;
    let fields = [
        ("next", Value::Number(state.next as u64)),
        ("broadcast-next", Value::Number(state.broadcast_next as u64)),
        ("broadcast-start", Value::Number(broadcast_start)),
        ("broadcast-gap", Value::Number(state.broadcast_gap as u64)),
        ("destination-node", Value::Address(state.destination_node)),
        ("probe", Value::Number(probe)),
        ("in-step", Value::Number(in_step)),
        ("priority", Value::Number(state.priority as u64)),
    ];
    put_fields(into, indent, &fields)
}

/// Appends words 4 and on of a RESET or an ACTIVATE, with the contact numbers behind them.
fn put_reset(into: &mut Vec<u8>, indent: &str, reset: &Reset) -> Result<(), NoMemory>
    ensures { OnOk result (into.new.items ≡ into.old.items ++ fields_text indent.now (reset_fields reset.now)) }
{
    let fields = [
        ("destination-node", Value::Address(reset.destination_node)),
        ("priority", Value::Number(reset.priority as u64)),
        ("contact", Value::Number(reset.contact)),
        ("peer-contact", Value::Number(reset.peer_contact)),
    ];
    put_fields(into, indent, &fields)
}

/// Appends words 4 and on of a tunnel packet, with the epoch behind them.
fn put_tunnel(into: &mut Vec<u8>, indent: &str, changeover: &Changeover) -> Result<(), NoMemory>
    ensures { OnOk result (into.new.items ≡ into.old.items ++ fields_text indent.now (tunnel_fields changeover.now)) }
{
    let inner_number = changeover.inner_number as u64;
    let fields = [
        ("count", Value::Number(changeover.count as u64)),
        ("inner-number", Value::Number(inner_number)),
        ("old-bearer", Value::Number(changeover.old_bearer as u64)),
        ("old-epoch", Value::Number(changeover.old_epoch)),
    ];
    put_fields(into, indent, &fields)
}

/// Appends words 4 and on. No packet has a bit for a fragment's flow, so it is 0.
fn put_user(into: &mut Vec<u8>, indent: &str, header: &Header) -> Result<(), NoMemory>
    ensures { OnOk result (into.new.items ≡ into.old.items ++ fields_text indent.now (user_fields header.now)) }
{
    match header {
        Header::Payload(payload) => put_payload(into, indent, payload),
        Header::Bundler(bundle) => {
            let count = bundle.count as u64;
            put_fields(into, indent, &[("count", Value::Number(count))])
        }
        Header::State(state) => put_state(into, indent, state),
        Header::Reset(reset) | Header::Activate(reset) => put_reset(into, indent, reset),
        Header::Changeover(changeover) => put_tunnel(into, indent, changeover),
        Header::NameDistributor(_) => put_fields(into, indent, &[]),
        Header::Fragmenter(fragment) => {
            let fields = [
                ("fragment", Value::Number(fragment.number as u64)),
                ("flow", Value::Number(0)),
            ];
            put_fields(into, indent, &fields)
        }
        Header::Discovery(discovery) => {
            let network = discovery.network as u64;
            put_fields(into, indent, &[("network", Value::Number(network))])
        }
    }
}

/// Appends the lines of all fields of a packet.
pub(crate) fn put_table(
    into: &mut Vec<u8>,
    indent: &str,
    packet: &Packet<'_>,
) -> Result<(), NoMemory>
    ensures { OnOk result (into.new.items ≡ into.old.items ++ fields_text indent.now (fields_of (view packet.now))) }
{
    put_start(into, indent, packet)?;
    put_word_1(into, indent, &packet.header)?;
    put_numbers(into, indent, packet)?;
    put_user(into, indent, &packet.header)
}
