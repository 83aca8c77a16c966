//! What a discovery frame tells of its sender, and the neighbours that were heard on each bearer.

ghost use Rattle.std.specs.Prelude.{◌≡◌, ◌≤◌, ◌-◌, ◌==◌, ◌++◌, ◌∷◌, [], false, IfOk, OnErr, OnOk};
ghost use Rattle.std.specs.List.{list_any};
ghost use Rattle.tipc_types.specs.Address.{IsNodeWord};
ghost use Rattle.tipc_header.specs.Grammar.{Fits};
ghost use Rattle.tipc_header.specs.Spelling.{view};
ghost use Rattle.tipc_header.specs.declared.packet.DiscoveryType.TheVariants.{Request, Response};
ghost use Rattle.tipc_discovery.specs.Hearing.{discovery_packet, has_node, heard_on, is_of_network, Neighbourhood};
ghost use Rattle.tipc_discovery.specs.Finding.{after_hearing, found_of};

use indexmap::IndexSet;
use std::alloc::Global;
use std::marker::Model;
use tipc_header::{Discovery, DiscoveryType, Header, Packet};
use tipc_types::{Addr, NoMemory, Why};

/// The identity of the network. (This project's profile.)
pub const NETWORK: u32 = 4_711;

/// The other nodes of the cluster that a node heard, on each of its two bearers, in the order in which it first heard
/// them.
#[derive(Drop)]
pub struct Neighbours {
    own: Addr,
    on_bearer_0: IndexSet<u32>,
    on_bearer_1: IndexSet<u32>,
}

impl Model for Neighbours {
    ghost use Rattle.tipc_types.specs.Address.{IsNodeWord};
    ghost use Rattle.tipc_discovery.specs.Hearing.{Neighbourhood};

    ghost Value = { Neighbourhood };

    ghost view = { λ n. record {
      own = n.own.word;
      on_bearer_0 = n.on_bearer_0.keys;
      on_bearer_1 = n.on_bearer_1.keys;
    } };

    ghost invariant = { λ n. IsNodeWord n.own.word };
}

/// What a discovery packet showed.
#[derive(Clone, Copy, Debug, PartialEq, Eq)]
pub enum Found {
    /// A neighbour that wasn't heard on this bearer before.
    New,
    /// A neighbour that was heard on this bearer before.
    Known,
    /// Nothing: why the packet is ignored.
    Ignored(Why),
}

/// Whether an address word is that of a node of the cluster.
fn is_node(word: u32) -> bool
    ensures { result ≡ has_node word }
{
    Addr { word }.number().is_some()
}

/// Whether a packet is a discovery packet of the network 4711. (This project's profile.)
pub fn is_of_network(header: &Header) -> bool
    ensures { result ≡ is_of_network header.now }
{
    match header {
        Header::Discovery(discovery) => discovery.network == NETWORK,
        _ => false,
    }
}

/// What a packet of this previous node shows to a node, where it is known whether that was heard before.
#[tactic(auto, unfolding(crate::specs::Finding::found_of))]
fn finding(own: u32, previous: u32, header: &Header, heard: &IndexSet<u32>) -> Found
    ensures { result ≡ found_of own previous header.now heard.now.keys }
{
    if previous == own || !is_node(previous) {
        return Found::Ignored(Why::Own);
    }
    if !is_of_network(header) {
        return Found::Ignored(Why::Network);
    }
    if heard.contains(&previous) {
        return Found::Known;
    }
    Found::New
}

/// Adds a neighbour that isn't there behind the others.
fn add(heard: &mut IndexSet<u32>, word: u32) -> Result<(), NoMemory>
    requires { list_any (λ other. word == other) heard.old.keys ≡ false }
    ensures ok { OnOk result (heard.new.keys ≡ heard.old.keys ++ word ∷ []) }
    ensures err { OnErr result (heard.new.keys ≡ heard.old.keys) }
{
    heard.insert(word)?;
    Ok(())
}

/// Hears a packet of this previous node on a bearer, of whose neighbours these were heard before.
fn hear(
    own: u32,
    previous: u32,
    header: &Header,
    heard: &mut IndexSet<u32>,
) -> Result<Found, NoMemory>
    ensures found { IfOk result (λ f. f ≡ found_of own previous header.now heard.old.keys) }
    ensures after { IfOk result (λ f. heard.new.keys ≡ after_hearing f previous heard.old.keys) }
    ensures err { OnErr result (heard.new.keys ≡ heard.old.keys) }
    ensures new_only { OnErr result (found_of own previous header.now heard.old.keys ≡ Found.New) }
{
    match finding(own, previous, header, heard) {
        Found::New => {
            add(heard, previous)?;
            Ok(Found::New)
        }
        Found::Known => Ok(Found::Known),
        Found::Ignored(why) => Ok(Found::Ignored(why)),
    }
}

impl Neighbours {
    /// Nobody was heard by this node, which is one of the 32.
    pub fn new(alloc: Global, own: Addr) -> Neighbours
        requires { IsNodeWord own.word }
        ensures { result ≡ record { own = own.word; on_bearer_0 = []; on_bearer_1 = [] } }
    {
        Neighbours {
            own,
            on_bearer_0: IndexSet::new(alloc),
            on_bearer_1: IndexSet::new(alloc),
        }
    }

    /// Hears a discovery packet on a bearer, 0 or 1. (This project's profile.)
    ///
    /// It is ignored as `Own` where the previous node is this one or none of the 32; else as `Network` where it is no
    /// discovery packet of the network 4711; else its previous node is `Known` where it was heard on that bearer
    /// before, and `New` where it wasn't.
    ///
    /// # Errors
    ///
    /// `NoMemory` where memory runs out for a neighbour that is new. It changes nothing.
    pub fn heard(&mut self, packet: &Packet<'_>, bearer: u8) -> Result<Found, NoMemory>
        requires { bearer ≤ 1 }
        ensures found { IfOk result (λ f. f ≡ found_of self.old.own packet.now.previous packet.now.header
            (heard_on bearer self.old)) }
        ensures own { self.new.own ≡ self.old.own }
        ensures here { IfOk result (λ f. heard_on bearer self.new ≡
            after_hearing f packet.now.previous (heard_on bearer self.old)) }
        ensures there { heard_on (1 - bearer) self.new ≡ heard_on (1 - bearer) self.old }
        ensures err { OnErr result (self.new ≡ self.old) }
        ensures new_only { OnErr result
            (found_of self.old.own packet.now.previous packet.now.header (heard_on bearer self.old) ≡ Found.New) }
    {
        if bearer == 0 {
            return hear(
                self.own.word,
                packet.previous,
                &packet.header,
                &mut self.on_bearer_0,
            );
        }
        hear(
            self.own.word,
            packet.previous,
            &packet.header,
            &mut self.on_bearer_1,
        )
    }

    /// The packet that asks who is there. It takes no memory.
    pub fn request(&self) -> Packet<'static>
        ensures packet { view result ≡ discovery_packet self.now.own Request }
        ensures fits { Fits (view result) }
    {
        discovery_packet(self.own, DiscoveryType::Request)
    }

    /// The packet that answers a request. It takes no memory.
    pub fn response(&self) -> Packet<'static>
        ensures packet { view result ≡ discovery_packet self.now.own Response }
        ensures fits { Fits (view result) }
    {
        discovery_packet(self.own, DiscoveryType::Response)
    }

    /// The same neighbours.
    pub fn copy(&self) -> Result<Neighbours, NoMemory>
        ensures { IfOk result (λ copy. copy ≡ self.now) }
    {
        Ok(Neighbours {
            own: self.own,
            on_bearer_0: self.on_bearer_0.clone()?,
            on_bearer_1: self.on_bearer_1.clone()?,
        })
    }
}

/// A discovery packet of a node.
fn discovery_packet(own: Addr, discovery_type: DiscoveryType) -> Packet<'static>
    requires { IsNodeWord own.word }
    ensures packet { view result ≡ discovery_packet own.word discovery_type }
    ensures fits { Fits (view result) }
{
    Packet {
        acknowledgement: 0,
        sequence: 0,
        previous: own.word,
        header: Header::Discovery(Discovery {
            discovery_type,
            network: NETWORK,
        }),
        rest: &[],
    }
}
