//! The ports of a node in one boot, with what each holds.

ghost use Rattle.std.specs.Prelude.{◌≡◌, ◌+◌, ◌*◌, ◌≤◌, ◌<◌, ◌⊎◌, ◌↔◌, ◌++◌, ◌∷◌, [], Err, length, Contains, IfOk, IsErr, IsTrue, OnErr, OnOk};
ghost use Rattle.tipc_ports.specs.Numbers.{port_number, without_port, ArePresent, PortTable};

use indexmap::IndexSet;
use std::alloc::{AllocError, AllocFailed, Global};
use std::marker::Model;
use tipc_types::NoMemory;

/// The most ports of a node at a time. (This project's profile.)
pub const MOST_PORTS: usize = 256;

/// The most ports that are made in one boot. (This project's profile.)
pub const MOST_MADE: u32 = 1_048_575;

/// The ports of a node in one boot: those that are there, in the order in which they were made, and how many were made.
///
/// A port that was closed doesn't come back: its number isn't used again in the boot. Numbers of another boot are other
/// ones, as long as no 4,096 boots lie between.
#[derive(Drop)]
pub struct Ports {
    boot: u32,
    made: u32,
    present: IndexSet<u32>,
}

impl Model for Ports {
    ghost use Rattle.std.specs.Prelude.{◌≤◌};
    ghost use Rattle.tipc_ports.specs.Numbers.{ArePresent, PortTable};

    ghost Value = { PortTable };

    ghost view = { λ p. record { boot = p.boot; made = p.made; present = p.present.keys } };

    ghost invariant = { λ p. (1 ≤ p.boot) × (p.made ≤ 1048575) × ArePresent p.boot p.made p.present.keys };
}

/// Why no port was made. Nothing is changed then.
#[derive(Clone, Copy, Debug, PartialEq, Eq)]
pub enum PortFault {
    /// 256 ports are there, or 1,048,575 were made in this boot.
    Full,
    /// Memory ran out.
    NoMemory,
}

impl From<AllocFailed<u32>> for PortFault {
    ghost use Rattle.std.specs.Prelude.{◌≡◌};
    ghost use Rattle.tipc_ports.specs.declared.ports.PortFault.TheVariants as fault;

    ghost from_gives = { λ _ e. e ≡ fault.NoMemory };

    fn from(_error: AllocFailed<u32>) -> PortFault {
        PortFault::NoMemory
    }
}

/// No port of this number is there.
#[derive(Clone, Copy, Debug, PartialEq, Eq)]
pub struct Unknown;

/// The number of the port that is made as the `count`-th of a boot.
fn port_number(boot: u32, count: u32) -> u32
    requires boot { 1 ≤ boot }
    requires count { count ≤ 1048575 }
    ensures { result ≡ port_number boot count }
{
    (boot - 1) % 4_096 * 1_048_576 + count
}

impl Ports {
    /// No port is there, and none was made in this boot. Boots are counted from 1.
    pub fn new(alloc: Global, boot: u32) -> Ports
        requires { 1 ≤ boot }
        ensures { result ≡ record { boot = boot; made = 0; present = [] } }
    {
        Ports {
            boot,
            made: 0,
            present: IndexSet::new(alloc),
        }
    }

    /// Makes a port, and answers its number: `(boot - 1) mod 4096 * 1048576` and how many were made with it. (This
    /// project's profile.)
    ///
    /// # Errors
    ///
    /// `Full` exactly where 256 ports are there or 1,048,575 were made in this boot; else `NoMemory` where memory runs
    /// out.
    pub fn make(&mut self) -> Result<u32, PortFault>
        ensures number { IfOk result (λ port. port ≡ port_number self.old.boot (self.old.made + 1)) }
        ensures ok { IfOk result (λ port. self.new ≡
            record { boot = self.old.boot; made = self.old.made + 1; present = self.old.present ++ port ∷ [] }) }
        ensures full { (result ≡ Err PortFault.Full) ↔ ((256 ≤ length self.old.present) ⊎ (1048575 ≤ self.old.made)) }
        ensures err { OnErr result (self.new ≡ self.old) }
    {
        if self.present.len() >= MOST_PORTS || self.made >= MOST_MADE {
            return Err(PortFault::Full);
        }
        let port = port_number(self.boot, self.made + 1);
        self.present.insert(port)?;
        self.made += 1;
        Ok(port)
    }

    /// Closes a port. It takes no memory.
    ///
    /// # Errors
    ///
    /// `Unknown` exactly where it isn't there.
    pub fn close(&mut self, port: u32) -> Result<(), Unknown>
        ensures ok { OnOk result (self.new ≡
            record { boot = self.old.boot; made = self.old.made; present = without_port port self.old.present }) }
        ensures there { OnOk result (Contains self.old.present port) }
        ensures unknown { OnErr result (Contains self.old.present port → ⊥) }
        ensures err { OnErr result (self.new ≡ self.old) }
    {
        if !self.present.shift_remove(&port) {
            return Err(Unknown);
        }
        Ok(())
    }

    /// Whether the port is there.
    pub fn has(&self, port: u32) -> bool
        ensures { IsTrue result ↔ Contains self.now.present port }
    {
        self.present.contains(&port)
    }

    /// The ports that are there, in the order in which they were made, which is that of their numbers. Each was made in
    /// this boot.
    pub fn as_slice(&self) -> &[u32]
        ensures ports { result.now ≡ self.now.present }
        ensures present { ArePresent self.now.boot self.now.made self.now.present }
    {
        self.present.as_slice()
    }

    /// The same ports, with the same number for the next.
    pub fn copy(&self) -> Result<Ports, NoMemory>
        ensures { IfOk result (λ copy. copy ≡ self.now) }
    {
        Ok(Ports {
            boot: self.boot,
            made: self.made,
            present: self.present.clone()?,
        })
    }
}
