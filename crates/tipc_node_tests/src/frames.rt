//! For each reason a frame that is ignored for it, at a node that has one peer; and what the same frames are to the node in its next boot.

use crate::peers::{arrive, calls, link, new_node, node_in};
use std::alloc::Global;
use std::process::Abort;
use std::test::Fail;
use tipc_journal::Entry;
use tipc_node::Node;
use tipc_outside::Outbox;
use tipc_types::{Answer, Arrival, EventNote, NoMemory, Why};

/// The frame of a message of node 1 to port 1 of node 2, its first packet on the link: two epochs, and the header.
static MESSAGE: [u32; 12] = [
    1,
    1,
    1,
    1,
    0x4100_0025,
    0x6000_0000,
    0x0000_0001,
    0x0100_1001,
    0x0000_0001,
    0x0000_0001,
    0x0100_1001,
    0x0100_1002,
];

/// A bundle of two messages of a byte each, the second packet of node 1 on the link, with a byte behind the first message that isn't zero.
static BAD_BUNDLE: [u32; 32] = [
    1,
    1,
    1,
    1,
    0x4d40_0070,
    0,
    0x0000_0002,
    0x0100_1001,
    0x0002_0000,
    0,
    0,
    0,
    0,
    0,
    0x4100_0021,
    0x6000_0000,
    0,
    0x0100_1001,
    1,
    1,
    0x0100_1001,
    0x0100_1002,
    0x6100_0001,
    0x4100_0021,
    0x6000_0000,
    0,
    0x0100_1001,
    1,
    1,
    0x0100_1001,
    0x0100_1002,
    0x6200_0000,
];

/// A multicast of node 1 of one byte to nodes 2 and 3, its first packet on the broadcast link: its boot, the set of its members, and the header.
static MULTICAST: [u32; 15] = [
    0,
    1,
    0,
    0b110,
    0x4168_002d,
    0x2010_0000,
    0x0000_0001,
    0x0100_1001,
    0x0000_0001,
    0,
    0x0100_1001,
    0,
    200,
    6,
    7,
];

/// A discovery request of node 3 in its first boot.
static REQUEST: [u32; 14] = [
    0,
    1,
    0,
    0,
    0x5b50_0028,
    0,
    0,
    0x0100_1003,
    4_711,
    0,
    0,
    0,
    0,
    0,
];

/// The same of another network.
static OTHER_NETWORK: [u32; 14] = [
    0,
    1,
    0,
    0,
    0x5b50_0028,
    0,
    0,
    0x0100_1003,
    4_712,
    0,
    0,
    0,
    0,
    0,
];

/// That of node 32.
static LAST_REQUEST: [u32; 14] = [
    0,
    1,
    0,
    0,
    0x5b50_0028,
    0,
    0,
    0x0100_1020,
    4_711,
    0,
    0,
    0,
    0,
    0,
];

/// A frame.
#[derive(Clone, Copy)]
enum Frame {
    /// No byte.
    Empty,
    /// A byte too few for an envelope.
    Short,
    /// An envelope alone.
    Envelope,
    /// The message, with its five bytes.
    Message,
    /// The bundle.
    BadBundle,
    /// The multicast, with its byte.
    Multicast,
    /// The request.
    Request,
    /// The request of a node of another network.
    OtherNetwork,
    /// The request of node 32.
    LastRequest,
}

/// A frame that arrives, and what is answered.
enum Heard {
    /// It arrives on bearer 1, which is cut, and is ignored for that.
    Cut(Frame),
    /// It arrives as it is, and is answered so.
    Whole(Frame, Arrival),
    /// It arrives with another word in this place, and is ignored for this reason.
    Changed(Frame, usize, u32, Why),
    /// It arrives with another word in this place, and is kept until the packets before it have come.
    Early(Frame, usize, u32),
}

/// What isn't a packet of another node of the cluster, whatever the links are.
static NO_PACKETS: [Heard; 18] = [
    Heard::Cut(Frame::Message),
    Heard::Cut(Frame::Empty),
    Heard::Whole(Frame::Short, Arrival::Ignored(Why::Envelope)),
    Heard::Whole(Frame::Envelope, Arrival::Ignored(Why::Header(1))),
    Heard::Changed(Frame::Message, 4, 0x2100_0025, Why::Header(2)),
    Heard::Changed(Frame::Message, 4, 0x40e0_0025, Why::Header(3)),
    Heard::Changed(Frame::Message, 4, 0x4100_0026, Why::Header(4)),
    Heard::Changed(Frame::Message, 4, 0x4b00_0025, Why::Header(5)),
    Heard::Changed(Frame::Message, 5, 0x4000_0000, Why::Header(6)),
    Heard::Changed(Frame::Message, 4, 0x4102_0025, Why::Header(7)),
    Heard::Changed(Frame::Message, 7, 0x0100_1002, Why::Own),
    Heard::Changed(Frame::Message, 7, 0x0100_1021, Why::Own),
    Heard::Changed(Frame::Message, 7, 0x0100_1000, Why::Own),
    Heard::Changed(Frame::Request, 7, 0x0100_1002, Why::Own),
    Heard::Changed(Frame::Request, 7, 0x0100_1021, Why::Own),
    Heard::Changed(Frame::Request, 7, 0x0100_1000, Why::Own),
    Heard::Changed(Frame::OtherNetwork, 7, 0x0100_1002, Why::Own),
    Heard::Whole(Frame::OtherNetwork, Arrival::Ignored(Why::Network)),
];

/// Link packets: those of a stranger or of another session are ignored, one is taken once, and a bundle that can't be taken apart gives nothing.
static LINKS: [Heard; 7] = [
    Heard::Changed(Frame::Message, 7, 0x0100_1003, Why::Unknown),
    Heard::Changed(Frame::Message, 1, 2, Why::Epoch),
    Heard::Changed(Frame::Message, 0, 2, Why::Epoch),
    Heard::Changed(Frame::Message, 3, 2, Why::Epoch),
    Heard::Whole(Frame::Message, Arrival::Took(1)),
    Heard::Whole(Frame::Message, Arrival::Ignored(Why::Old)),
    Heard::Whole(Frame::BadBundle, Arrival::Took(0)),
];

/// Broadcast packets of a node whose broadcast is in step: those of a stranger, of another boot or for others are ignored, and one is taken once.
static BROADCASTS: [Heard; 7] = [
    Heard::Changed(Frame::Multicast, 7, 0x0100_1003, Why::Unknown),
    Heard::Changed(Frame::Multicast, 1, 2, Why::Epoch),
    Heard::Changed(Frame::Multicast, 3, 0b101, Why::NotMember),
    Heard::Changed(Frame::Multicast, 6, 0, Why::Old),
    Heard::Early(Frame::Multicast, 6, 2),
    Heard::Whole(Frame::Multicast, Arrival::Took(2)),
    Heard::Whole(Frame::Multicast, Arrival::Ignored(Why::Old)),
];

/// What the same frames are to a node that knows nobody, and those of the nodes that it finds then.
static OF_STRANGERS: [Heard; 12] = [
    Heard::Changed(Frame::Message, 7, 0x0100_1003, Why::Unknown),
    Heard::Changed(Frame::Message, 1, 2, Why::Unknown),
    Heard::Changed(Frame::Message, 0, 2, Why::Unknown),
    Heard::Changed(Frame::Message, 3, 2, Why::Unknown),
    Heard::Whole(Frame::Message, Arrival::Ignored(Why::Unknown)),
    Heard::Whole(Frame::Message, Arrival::Ignored(Why::Unknown)),
    Heard::Whole(Frame::BadBundle, Arrival::Ignored(Why::Unknown)),
    Heard::Whole(Frame::Multicast, Arrival::Ignored(Why::Unknown)),
    Heard::Whole(Frame::Request, Arrival::Took(0)),
    Heard::Whole(Frame::Request, Arrival::Took(0)),
    Heard::Whole(Frame::LastRequest, Arrival::Took(0)),
    Heard::Whole(Frame::OtherNetwork, Arrival::Ignored(Why::Network)),
];

impl Heard {
    /// The frame.
    fn frame(&self) -> Frame {
        match self {
            Heard::Cut(frame)
            | Heard::Whole(frame, _)
            | Heard::Changed(frame, _, _, _)
            | Heard::Early(frame, _, _) => *frame,
        }
    }

    /// The place of a word, and the word that stands there instead, if any.
    fn change(&self) -> Option<(usize, u32)> {
        match self {
            Heard::Changed(_, place, word, _) | Heard::Early(_, place, word) => {
                Some((*place, *word))
            }
            Heard::Cut(_) | Heard::Whole(_, _) => None,
        }
    }

    /// The bearer on which it arrives.
    fn bearer(&self) -> u8 {
        match self {
            Heard::Cut(_) => 1,
            _ => 0,
        }
    }

    /// What is answered.
    fn answer(&self) -> Arrival {
        match self {
            Heard::Cut(_) => Arrival::Ignored(Why::Cut),
            Heard::Whole(_, answer) => *answer,
            Heard::Changed(_, _, _, why) => Arrival::Ignored(*why),
            Heard::Early(_, _, _) => Arrival::Deferred,
        }
    }
}

/// The words of a frame.
fn words_of(frame: Frame) -> &'static [u32] {
    match frame {
        Frame::Empty => &[],
        Frame::Short => &[1, 1, 1],
        Frame::Envelope => &[0, 0, 0, 0],
        Frame::Message => &MESSAGE,
        Frame::BadBundle => &BAD_BUNDLE,
        Frame::Multicast => &MULTICAST,
        Frame::Request => &REQUEST,
        Frame::OtherNetwork => &OTHER_NETWORK,
        Frame::LastRequest => &LAST_REQUEST,
    }
}

/// The bytes behind its words.
fn body_of(frame: Frame) -> &'static [u8] {
    match frame {
        Frame::Short => b"abc",
        Frame::Message => b"hello",
        Frame::Multicast => b"m",
        _ => b"",
    }
}

/// The word in a place, where that one stands in the frame.
fn word_in(change: Option<(usize, u32)>, place: usize, word: u32) -> u32 {
    match change {
        Some((at, other)) => { if at == place { other } else { word } }
        None => word,
    }
}

/// The bytes that arrive, the highest byte of each word first.
fn bytes_of(alloc: Global, heard: &Heard) -> Result<Vec<u8>, NoMemory> {
    let words = words_of(heard.frame());
    let mut bytes = Vec::new(alloc);
    for place in 0..words.len() {
        let word = word_in(heard.change(), place, words[place]);
        bytes.extend_from_slice(&word.to_be_bytes())?;
    }
    bytes.extend_from_slice(body_of(heard.frame()))?;
    Ok(bytes)
}

/// A frame arrives, and is answered so.
fn hears(rt: &impl Abort, alloc: Global, node: &mut Node, heard: &Heard) -> Result<(), Fail> {
    let frame = bytes_of(alloc, heard)?;
    let mut out = Outbox::new(alloc);
    let answer = arrive(alloc, node, heard.bearer(), frame.as_slice(), &mut out)?;
    assert!(rt; answer == heard.answer());
    Ok(())
}

/// These frames arrive one after the other.
fn hears_all(rt: &impl Abort, alloc: Global, node: &mut Node, all: &[Heard]) -> Result<(), Fail> {
    for heard in all {
        hears(rt, alloc, node, heard)?;
    }
    Ok(())
}

/// How many messages a node dropped.
fn dropped(node: &Node) -> usize {
    node.journal()
        .iter()
        .filter(|entry| matches!(entry, Entry::Dropped { .. }))
        .count()
}

/// Node 2, which has a peer, hears all of them.
fn hears_of_its_peer(rt: &impl Abort, alloc: Global, node: &mut Node) -> Result<(), Fail> {
    hears_all(rt, alloc, node, &NO_PACKETS)?;
    hears_all(rt, alloc, node, &LINKS)?;
    assert!(rt; dropped(node) == 1);
    hears_all(rt, alloc, node, &BROADCASTS)
}

/// The same, behind the link that makes them peers.
fn hears_behind_a_link(
    rt: &impl Abort,
    alloc: Global,
    peer: &mut Node,
    node: &mut Node,
) -> Result<(), Fail> {
    link(rt, alloc, peer, node)?;
    hears_of_its_peer(rt, alloc, node)
}

/// The same of a node that did nothing before.
fn hears_with_a_peer(rt: &impl Abort, alloc: Global, node: &mut Node) -> Result<(), Fail> {
    let mut peer = new_node(alloc, 1)?;
    hears_behind_a_link(rt, alloc, &mut peer, node)
}

/// A node that knows nobody mends its bearer 0 and hears them.
fn hears_of_strangers(rt: &impl Abort, alloc: Global, node: &mut Node) -> Result<(), Fail> {
    let mend = EventNote::Mend { bearer: 0 };
    calls(rt, alloc, node, mend, Answer::Done, &mut Outbox::new(alloc))?;
    hears_all(rt, alloc, node, &NO_PACKETS)?;
    hears_all(rt, alloc, node, &OF_STRANGERS)
}

#[test]
fn a_frame_is_ignored_for_the_first_reason(rt: HostRuntime) -> Result<(), Fail> {
    let mut node = new_node(rt.alloc(), 2)?;
    hears_with_a_peer(&rt, rt.alloc(), &mut node)
}

#[test]
fn in_its_next_boot_a_node_knows_nobody(rt: HostRuntime) -> Result<(), Fail> {
    let mut node = node_in(rt.alloc(), 2, 2)?;
    hears_of_strangers(&rt, rt.alloc(), &mut node)
}
