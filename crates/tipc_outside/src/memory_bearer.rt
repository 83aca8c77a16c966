//! A bearer over memory.

ghost use Rattle.std.specs.Prelude.{◌≡◌, ◌↔◌, ◌+◌, ◌-◌, ◌^◌, ◌<◌, ◌≤◌, Err, Ok, Result, true, false, IsErrOf, OnOk, OnErr, if◌then◌else◌};
ghost use Rattle.tipc_outside.specs.Carried.{asked, called, gave};
ghost use Rattle.tipc_outside.specs.Causes.{Rose, counted};
ghost use Rattle.tipc_outside.specs.Memory.{is_failing};
ghost use Rattle.tipc_types.specs.Address.{IsNodeWord, node_word};

use crate::medium::Medium;
use crate::transport::{Bearer, BearerFault, Heard};
use std::alloc::Global;
use std::marker::Model;
use std::sync::Wait;
use tipc_types::{Addr, Body, NoMemory, To};

/// A node's bearer over a medium in memory. Its calls are those of `send` and `receive` together, numbered from 1; it
/// fails at those that it is told. It waits for the medium, and keeps the handle by which it may.
#[derive(Drop)]
pub struct MemoryBearer<'m, R: Wait + Drop> {
    rt: R,
    alloc: Global,
    medium: &'m Medium,
    node: u8,
    bearer: u8,
    failing: Vec<u64>,
    calls: u64,
    faults: u64,
    tried: u64,
    given: u64,
}

impl<'m, R: Wait + Drop> Model for MemoryBearer<'m, R> {
    ghost use Rattle.std.specs.Prelude.{◌≤◌};
    ghost use Rattle.tipc_outside.specs.Carried.{Carrying};

    ghost Value = { Carrying };

    ghost view = { λ b. record {
      node = b.node;
      bearer = b.bearer;
      calls = b.calls;
      failing = b.failing.items;
      faults = b.faults;
      tried = b.tried;
      given = b.given;
    } };

    ghost invariant = { λ b. (1 ≤ b.node) × (b.node ≤ 32) };
}

impl<'m, R: Wait + Drop> MemoryBearer<'m, R> {
    /// Bearer 0 or 1 of a node of the cluster, whose calls of these numbers fail.
    pub fn new(
        rt: R,
        alloc: Global,
        medium: &'m Medium,
        node: Addr,
        bearer: u8,
        failing: Vec<u64>,
    ) -> MemoryBearer<'m, R>
        requires node { IsNodeWord node.word }
        requires bearer { bearer ≤ 1 }
        ensures place { (node.word ≡ node_word result.node) × (result.bearer ≡ bearer) }
        ensures failing { (result.failing ≡ failing.items) × (result.calls ≡ 0) }
        ensures counts { (result.faults ≡ 0) × (result.tried ≡ 0) × (result.given ≡ 0) }
    {
        let Some(number) = node.number() else {
            unreachable!()
        };
        MemoryBearer {
            rt,
            alloc,
            medium,
            node: number,
            bearer,
            failing,
            calls: 0,
            faults: 0,
            tried: 0,
            given: 0,
        }
    }

    /// Counts a call, and fails where it is one of those that do.
    fn begin_call(&mut self) -> Result<(), BearerFault>
        ensures later { self.old.faults ≤ self.new.faults }
        ensures after { self.new ≡ called self.old }
        ensures fails { result ≡ (if is_failing self.old.failing self.old.calls then Err BearerFault.Failed
            else Ok tt) }
    {
        self.calls = self.calls.saturating_add(1);
        if self.failing.contains(&self.calls) {
            self.faults = self.faults.saturating_add(1);
            return Err(BearerFault::Failed);
        }
        Ok(())
    }

    /// Hands a frame to the medium.
    fn carry(&self, to: To, frame: &[u8]) -> Result<(), NoMemory> {
        let frame = Body::from_slice(self.alloc, frame)?;
        self.medium
            .send(&self.rt, self.bearer, self.node, to, &frame)
    }
}

impl<'m, R: Wait + Drop> Bearer for MemoryBearer<'m, R> {
    ghost faults = { λ b. b.faults };

    ghost tried = { λ b. b.tried };

    ghost given = { λ b. b.given };

    /// It fails exactly at the calls of its list, and then sends nothing.
    fn send(&mut self, to: To, frame: &[u8]) -> Result<(), BearerFault>
        ensures later { self.old.faults ≤ self.new.faults }
        ensures cause { IsErrOf result BearerFault.Failed → Rose self.old.faults self.new.faults }
        ensures tried { self.new.tried ≡ counted self.old.tried }
        ensures given { self.new.given ≡ self.old.given }
        ensures failing { IsErrOf result BearerFault.Failed ↔ (is_failing self.old.failing self.old.calls ≡ true) }
        ensures after { self.new ≡ asked (called self.old) }
    {
        self.tried = self.tried.saturating_add(1);
        self.begin_call()?;
        match self.carry(to, frame) {
            Ok(()) => Ok(()),
            Err(NoMemory) => Err(BearerFault::NoMemory),
        }
    }

    /// It fails exactly at the calls of its list. A frame comes in place of what `into` held; at every other answer
    /// `into` is as it was. Where memory runs out the frame waits on.
    fn receive(&mut self, into: &mut Vec<u8>) -> Result<Heard, BearerFault>
        ensures later { self.old.faults ≤ self.new.faults }
        ensures cause { IsErrOf result BearerFault.Failed → Rose self.old.faults self.new.faults }
        ensures tried { self.new.tried ≡ self.old.tried }
        ensures frame { result ≡ Ok Heard.Frame → self.new.given ≡ counted self.old.given }
        ensures other { (result ≡ Ok Heard.Frame → ⊥) → self.new.given ≡ self.old.given }
        ensures gave { result ≡ Ok Heard.Frame → self.new ≡ gave (called self.old) }
        ensures none { (result ≡ Ok Heard.Frame → ⊥) →
            (self.new ≡ called self.old) × (into.new.items ≡ into.old.items) }
        ensures failing { IsErrOf result BearerFault.Failed ↔ (is_failing self.old.failing self.old.calls ≡ true) }
    {
        self.begin_call()?;
        match self
            .medium
            .receive(&self.rt, self.alloc, self.bearer, self.node, into)
        {
            Ok(Heard::Frame) => {
                self.given = self.given.saturating_add(1);
                Ok(Heard::Frame)
            }
            Ok(Heard::Nothing) => Ok(Heard::Nothing),
            Err(NoMemory) => Err(BearerFault::NoMemory),
        }
    }
}
