//! Service ranges, scopes and publications.

ghost use Rattle.std.specs.Prelude.{◌≡◌, ◌<◌, ◌≤◌, ◌↔◌, IfOk, IsErr};

use crate::identity::PortId;
use crate::sequences::Sequence;
use std::marker::Model;

/// A service type and a range of instances of it, both bounds included. The lower bound is at most
/// the upper. (Programmer's guide, service ranges.)
#[derive(Clone, Copy, Debug, PartialEq, Eq)]
pub struct ServiceRange {
    kind: u32,
    lower: u32,
    upper: u32,
}

impl Model for ServiceRange {
    ghost use Rattle.std.specs.Prelude.{◌≤◌};
    ghost use Rattle.tipc_types.specs.Span.{Span};

    ghost Value = { Span };

    ghost view = { λ r. record { kind = r.kind; lower = r.lower; upper = r.upper } };

    ghost invariant = { λ r. r.lower ≤ r.upper };

    ghost inverse = { λ s. record { kind = s.kind; lower = s.lower; upper = s.upper } };
}

/// The lower bound of a range is above the upper one.
#[derive(Clone, Copy, Debug, PartialEq, Eq)]
pub struct BadRange;

impl ServiceRange {
    /// The range of a service type from `lower` to `upper`: BadRange exactly where `lower` is above `upper`.
    pub fn new(kind: u32, lower: u32, upper: u32) -> Result<ServiceRange, BadRange>
        ensures ok { IfOk result (λ r. (r.kind ≡ kind) × (r.lower ≡ lower) × (r.upper ≡ upper)) }
        ensures bad { IsErr result ↔ (upper < lower) }
    {
        if lower > upper {
            return Err(BadRange);
        }
        Ok(ServiceRange { kind, lower, upper })
    }

    /// The service type.
    pub fn kind(&self) -> u32
        ensures { result ≡ self.now.kind }
    {
        self.kind
    }

    /// The lowest instance.
    pub fn lower(&self) -> u32
        ensures value { result ≡ self.now.lower }
        ensures ordered { result ≤ self.now.upper }
    {
        self.lower
    }

    /// The highest instance.
    pub fn upper(&self) -> u32
        ensures value { result ≡ self.now.upper }
        ensures ordered { self.now.lower ≤ result }
    {
        self.upper
    }
}

/// How far a publication is seen. (Programmer's guide.)
#[derive(Clone, Copy, Debug, PartialEq, Eq)]
pub enum Scope {
    /// The zone: treated as the cluster (this project's profile).
    Zone,
    /// Every node of the cluster.
    Cluster,
    /// The own node alone.
    Node,
}

/// A service range bound to a port. Its node and key name it. (Programmer's guide.)
#[derive(Clone, Copy, Debug, PartialEq, Eq)]
pub struct Publication {
    /// What is offered.
    pub range: ServiceRange,
    /// Who sees it.
    pub scope: Scope,
    /// The port that offers it.
    pub at: PortId,
    /// The key that its publisher chose.
    pub key: u32,
}

/// Publications in order.
pub type List = Sequence<Publication>;
