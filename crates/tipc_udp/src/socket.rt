//! A bearer over a UDP socket.

ghost use Rattle.std.specs.Prelude.{◌≡◌, ◌+◌, ◌-◌, ◌*◌, ◌^◌, ◌<◌, ◌≤◌, ◌⊎◌, Err, Ok, length, IfOk, IsErrOf, OnErr, OnOk};
ghost use Rattle.tipc_outside.specs.Causes.{Rose, counted};
ghost use Rattle.tipc_udp.specs.Sockets.{IsLoopback, counting};

use mio::net::UdpSocket;
use std::alloc::AllocError;
use std::io::ErrorKind;
use std::marker::Model;
use std::net::{Ipv4Addr, Net, SocketAddr};
use tipc_outside::{Bearer, BearerFault, Heard, is_for};
use tipc_types::To;

/// How many bytes of a datagram are handed on at most. The longest frame of a node has 1,516, so a node can still tell
/// that a longer one isn't a frame.
const MOST_BYTES: usize = 2_048;

/// How far the port of a node's bearer 1 lies above that of its bearer 0.
const PORTS_OF_BEARER: u16 = 64;

/// A node's bearer over UDP. It stands at the port `base + 64 * bearer + node` of 127.0.0.1, and takes what comes there
/// from whomever. Trusted edge: what is sent arrives or not, and what is heard is the system's word.
#[derive(Drop)]
pub struct UdpBearer {
    socket: UdpSocket,
    node: u8,
    bearer: u8,
    base: u16,
    nodes: u8,
    faults: u64,
    tried: u64,
    given: u64,
}

impl Model for UdpBearer {
    ghost use Rattle.std.specs.Prelude.{◌≤◌};
    ghost use Rattle.tipc_udp.specs.Sockets.{Bound};

    ghost Value = { Bound };

    ghost view = { λ b. record {
      node = b.node;
      bearer = b.bearer;
      base = b.base;
      nodes = b.nodes;
      faults = b.faults;
      tried = b.tried;
      given = b.given;
    } };

    ghost invariant = { λ b. (b.nodes ≤ 32) × (b.bearer ≤ 1) × (b.base ≤ 65439) };
}

impl UdpBearer {
    /// Bearer 0 or 1 of a node among so many, which are numbered from 1 and share the base of their ports.
    ///
    /// # Errors
    ///
    /// Failed where the system refuses the socket, as it does where another has the port.
    pub fn bind(
        rt: &impl Net,
        node: u8,
        bearer: u8,
        base: u16,
        nodes: u8,
    ) -> Result<UdpBearer, BearerFault>
        requires node { (1 ≤ node) × (node ≤ nodes) × (nodes ≤ 32) }
        requires bearer { bearer ≤ 1 }
        requires base { base ≤ 65439 }
        ensures ok { IfOk result (λ b. b ≡ record {
          node = node;
          bearer = bearer;
          base = base;
          nodes = nodes;
          faults = 0;
          tried = 0;
          given = 0;
        }) }
        ensures err { OnErr result (result ≡ Err BearerFault.Failed) }
    {
        let Ok(socket) = UdpSocket::bind(rt, address(base, bearer, node)) else {
            return Err(BearerFault::Failed);
        };
        Ok(UdpBearer {
            socket,
            node,
            bearer,
            base,
            nodes,
            faults: 0,
            tried: 0,
            given: 0,
        })
    }

    /// Sends a frame to each node that it is for, and answers whether the system took each datagram.
    fn sends(&self, to: To, frame: &[u8]) -> bool {
        let mut all_sent = true;
        for node in 1..=self.nodes {
            if is_for(self.node, to, node) {
                let address = address(self.base, self.bearer, node);
                all_sent &= self.socket.send_to(frame, address).is_ok();
            }
        }
        all_sent
    }

    /// Counts a fault.
    fn fault(&mut self) -> BearerFault
        ensures fault { result ≡ BearerFault.Failed }
        ensures later { self.old.faults ≤ self.new.faults }
        ensures count { self.new ≡ counting self.old (counted self.old.faults) self.old.tried self.old.given }
    {
        self.faults = self.faults.saturating_add(1);
        BearerFault::Failed
    }
}

/// Where a node's bearer stands.
fn address(base: u16, bearer: u8, node: u8) -> SocketAddr
    requires { (base ≤ 65439) × (bearer ≤ 1) × (node ≤ 32) }
    ensures { IsLoopback result (base + 64 * bearer + node) }
{
    let port = base + PORTS_OF_BEARER * u16::from(bearer) + u16::from(node);
    SocketAddr::from((Ipv4Addr::LOCALHOST, port))
}

/// Puts these bytes in the place of all that stood there. Where memory runs out nothing changes.
fn replace(into: &mut Vec<u8>, bytes: &[u8]) -> Result<(), AllocError>
    ensures ok { OnOk result (into.new.items ≡ bytes.now) }
    ensures err { OnErr result (into.new.items ≡ into.old.items) }
{
    into.reserve(bytes.len())?;
    into.clear();
    match into.extend_from_slice(bytes) {
        Ok(()) => Ok(()),
        Err(_) => unreachable!(),
    }
}

impl Bearer for UdpBearer {
    ghost faults = { λ b. b.faults };

    ghost tried = { λ b. b.tried };

    ghost given = { λ b. b.given };

    /// A frame to all goes to each other node, one to an address that no node has to nobody. It fails, and counts one
    /// fault, exactly where the system refuses a datagram; the other ones were sent.
    fn send(&mut self, to: To, frame: &[u8]) -> Result<(), BearerFault>
        ensures later { self.old.faults ≤ self.new.faults }
        ensures cause { IsErrOf result BearerFault.Failed → Rose self.old.faults self.new.faults }
        ensures tried { self.new.tried ≡ counted self.old.tried }
        ensures given { self.new.given ≡ self.old.given }
        ensures ok { OnOk result (self.new ≡ counting self.old self.old.faults (counted self.old.tried)
            self.old.given) }
        ensures err { OnErr result ((result ≡ Err BearerFault.Failed) ×
            (self.new ≡ counting self.old (counted self.old.faults) (counted self.old.tried) self.old.given)) }
    {
        self.tried = self.tried.saturating_add(1);
        if self.sends(to, frame) {
            return Ok(());
        }
        Err(self.fault())
    }

    /// A datagram is handed on as it is, but for what it has behind its first 2,048 bytes. It comes in place of what
    /// `into` held; at every other answer `into` is as it was. Where memory runs out the datagram is lost.
    fn receive(&mut self, into: &mut Vec<u8>) -> Result<Heard, BearerFault>
        ensures later { self.old.faults ≤ self.new.faults }
        ensures cause { IsErrOf result BearerFault.Failed → Rose self.old.faults self.new.faults }
        ensures tried { self.new.tried ≡ self.old.tried }
        ensures frame { result ≡ Ok Heard.Frame → self.new.given ≡ counted self.old.given }
        ensures other { (result ≡ Ok Heard.Frame → ⊥) → self.new.given ≡ self.old.given }
        ensures gave { result ≡ Ok Heard.Frame → (length into.new.items ≤ 2048) ×
            (self.new ≡ counting self.old self.old.faults self.old.tried (counted self.old.given)) }
        ensures none { (result ≡ Ok Heard.Frame → ⊥) → into.new.items ≡ into.old.items }
        ensures fault { result ≡ Err BearerFault.Failed →
            self.new ≡ counting self.old (counted self.old.faults) self.old.tried self.old.given }
        ensures no_fault { (result ≡ Ok Heard.Nothing) ⊎ (result ≡ Err BearerFault.NoMemory) → self.new ≡ self.old }
    {
        let mut datagram = [0; MOST_BYTES];
        match self.socket.recv_from(&mut datagram) {
            Ok((count, _)) => {
                if replace(into, &datagram[..count]).is_err() {
                    return Err(BearerFault::NoMemory);
                }
                self.given = self.given.saturating_add(1);
                Ok(Heard::Frame)
            }
            Err(error) if error.kind() == ErrorKind::WouldBlock => Ok(Heard::Nothing),
            Err(_) => Err(self.fault()),
        }
    }
}
