//! Packets in order are opened to messages: payload, items, bundles and runs of fragments.

ghost use Rattle.std.specs.Prelude.{◌≡◌, ◌∷◌, [], map, IfOk, OnErr};
ghost use Rattle.tipc_header.specs.Faults.{fault_of};
ghost use Rattle.tipc_fragments.specs.Cutting.{piece_of};
ghost use Rattle.tipc_fragments.specs.Joining.{after, answer_of, fresh, Joining};
ghost use Rattle.tipc_fragments.specs.declared.joining.Joined.TheVariants as joined;
ghost use Rattle.tipc_bundle.specs.Splitting.{IsBundle};
ghost use Rattle.tipc_reassembly.specs.declared.opening.Opened.TheVariants.{Passed};
ghost use Rattle.tipc_reassembly.specs.Opening.{brought_by, is_payload, joined_members, Brings, BringsAll};

use std::alloc::Global;
use std::marker::Model;
use tipc_bundle::{SplitFault, split};
use tipc_fragments::{Arrivals, JoinFault, Joined, Joiner};
use tipc_header::{Fragment, Header, decode};
use tipc_types::{Bytes, Few, Inner, NoMemory, Taken};

/// What comes of packets that were taken.
#[derive(Clone, Debug, Drop, PartialEq)]
pub enum Opened {
    /// A whole packet: payload or name items.
    Whole {
        /// Its bytes.
        packet: Bytes,
        /// The arrival numbers of the frames that brought it, in order.
        by: Arrivals,
    },
    /// A packet that is passed over.
    Passed {
        /// The first bad place of a bundle, in bytes from the begin of its header, or 0.
        place: u32,
    },
}

/// What came of packets that were taken, in order.
pub type OpenedList = Few<Opened>;

/// Whether a packet with this header is payload.
fn is_payload(header: &Header) -> bool
    ensures { result ≡ is_payload header.now }
{
    matches!(header, Header::Payload(_))
}

/// A list of one.
fn only(alloc: Global, opened: Opened) -> OpenedList
    ensures { result ≡ opened ∷ [] }
{
    OpenedList::one(alloc, opened)
}

/// A whole packet that came by one arrival.
fn whole(alloc: Global, packet: Bytes, by: u64) -> Opened
    ensures { result ≡ brought_by by packet }
{
    Opened::Whole {
        packet,
        by: Arrivals::one(alloc, by),
    }
}

/// A packet that is opened as it is.
fn message(alloc: Global, packet: &[u8], by: u64) -> Result<OpenedList, NoMemory>
    ensures { IfOk result (λ opened. opened ≡ brought_by by packet.now ∷ []) }
{
    let packet = Bytes::from_slice(alloc, packet)?;
    Ok(only(alloc, whole(alloc, packet, by)))
}

/// Packets that are opened as they are.
fn messages(alloc: Global, packets: Inner, by: u64) -> Result<OpenedList, NoMemory>
    ensures { IfOk result (λ opened. opened ≡ map (brought_by by) packets) }
{
    let mut opened = OpenedList::new(alloc);
    for packet in packets.into_vec() {
        opened.push(whole(alloc, packet, by))?;
    }
    Ok(opened)
}

/// What a bundle brings: the packets inside, or it is passed over.
fn bundle(alloc: Global, bundle: &[u8], by: u64) -> Result<OpenedList, NoMemory>
    requires { IsBundle bundle.now }
    ensures { IfOk result (λ opened. (s : Joining) → Brings s bundle.now by opened s) }
{
    match split(alloc, bundle) {
        Ok(packets) => messages(alloc, packets, by),
        Err(SplitFault::BadInner { place }) => Ok(only(alloc, Opened::Passed { place })),
        Err(SplitFault::NoMemory) => Err(NoMemory),
    }
}

/// What a message brings that was joined: itself, where it is payload.
fn joined(message: Bytes, arrivals: Arrivals) -> Opened
    requires { fault_of message ≡ None }
    ensures { joined_members (Ok (joined.Whole message arrivals)) ≡ result ∷ [] }
{
    let Ok(packet) = decode(message.as_slice()) else {
        unreachable!()
    };
    if !is_payload(&packet.header) {
        return Opened::Passed { place: 0 };
    }
    Opened::Whole {
        packet: message,
        by: arrivals,
    }
}

/// What a fragment brings that wasn't joined, unless memory ran out.
fn faulty(fault: JoinFault) -> Result<Opened, NoMemory>
    ensures ok { IfOk result (λ opened. (opened ≡ Passed 0) × (fault ≡ JoinFault.NoMemory → ⊥)) }
    ensures err { OnErr result (fault ≡ JoinFault.NoMemory) }
{
    match fault {
        JoinFault::NoMemory => Err(NoMemory),
        _ => Ok(Opened::Passed { place: 0 }),
    }
}

/// Opens the packets that a link took, in their order: whole packets, bundles and fragments of messages, of which at
/// most one is begun at a time. (TIPC 2.0 draft; what is passed over is this project's profile.)
#[derive(Drop)]
pub struct Reassembly {
    joiner: Joiner,
}

impl Model for Reassembly {
    ghost use Rattle.tipc_fragments.specs.Joining.{Joining};

    ghost Value = { Joining };

    ghost view = { λ r. r.joiner };
}

impl Reassembly {
    /// One with no message begun.
    pub fn new(alloc: Global) -> Reassembly
        ensures { result ≡ fresh }
    {
        Reassembly {
            joiner: Joiner::new(alloc),
        }
    }

    /// One that has begun the same message.
    pub fn copy(&self) -> Result<Reassembly, NoMemory>
        ensures { IfOk result (λ r. r ≡ self.now) }
    {
        Ok(Reassembly {
            joiner: self.joiner.copy()?,
        })
    }

    /// Gives a fragment to the joiner.
    fn join(
        &mut self,
        alloc: Global,
        fragment: Fragment,
        bytes: &[u8],
        by: u64,
    ) -> Result<OpenedList, NoMemory>
        ensures ok { let it = piece_of fragment.fragment_type fragment.number bytes.now in
            IfOk result (λ opened. (opened ≡ joined_members (answer_of self.old it by)) ×
            (self.new ≡ after self.old it by)) }
        ensures err { OnErr result (self.new ≡ self.old) }
    {
        let mut opened = Vec::new(alloc);
        opened.reserve(1)?;
        let kind = fragment.fragment_type;
        match self.joiner.add(kind, fragment.number, bytes, by) {
            Ok(Joined::More) => {}
            Ok(Joined::Whole { message, arrivals }) => {
                opened.push_reserved(joined(message, arrivals));
            }
            Err(fault) => opened.push_reserved(faulty(fault)?),
        }
        Ok(OpenedList::from_vec(opened))
    }

    /// Opens one packet.
    fn open_one(&mut self, alloc: Global, taken: &Taken) -> Result<OpenedList, NoMemory>
        ensures ok { IfOk result (λ opened. Brings self.old taken.now.packet taken.now.by opened self.new) }
        ensures err { OnErr result (self.new ≡ self.old) }
    {
        let bytes = taken.packet.as_slice();
        let Ok(packet) = decode(bytes) else {
            return Ok(only(alloc, Opened::Passed { place: 0 }));
        };
        match packet.header {
            Header::Payload(_) | Header::NameDistributor(_) => message(alloc, bytes, taken.by),
            Header::Bundler(_) => bundle(alloc, bytes, taken.by),
            Header::Fragmenter(fragment) => self.join(alloc, fragment, packet.rest, taken.by),
            _ => Ok(only(alloc, Opened::Passed { place: 0 })),
        }
    }

    /// Opens packets one after the other.
    fn open_each(&mut self, alloc: Global, taken: &[Taken]) -> Result<OpenedList, NoMemory>
        ensures { IfOk result (λ opened. BringsAll self.old taken.now opened self.new) }
    {
        let mut opened = Vec::new(alloc);
        for packet in taken {
            let mut more = self.open_one(alloc, packet)?.into_vec()?;
            opened.append(&mut more)?;
        }
        Ok(OpenedList::from_vec(opened))
    }

    /// Opens packets that were taken one after the other. A packet of payload or name items comes out as it is, a
    /// bundle gives the packets inside, and the last fragment of a message gives the message. What doesn't split or
    /// join is passed over, and so is a packet of another user, and a joined message that isn't payload.
    ///
    /// # Errors
    ///
    /// Where memory runs out for a packet. Nothing is changed then.
    pub fn open(&mut self, alloc: Global, taken: &[Taken]) -> Result<OpenedList, NoMemory>
        ensures ok { IfOk result (λ opened. BringsAll self.old taken.now opened self.new) }
        ensures some { OnErr result (taken.now ≡ [] → ⊥) }
        ensures err { OnErr result (self.new ≡ self.old) }
    {
        match taken {
            [] => Ok(OpenedList::new(alloc)),
            [one] => self.open_one(alloc, one),
            _ => {
                let mut next = self.copy()?;
                let opened = next.open_each(alloc, taken)?;
                *self = next;
                Ok(opened)
            }
        }
    }
}
