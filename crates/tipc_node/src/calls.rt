//! The calls on sockets, names and subscriptions.

ghost use Rattle.std.specs.Prelude.{◌≡◌, ◌∷◌, ◌<◌, ◌≤◌, List, [], true, None, All, is_some, length, map, slice_get, sum_by, IfOk, IsOk, OnErr, OnOk};
ghost use Rattle.tipc_types.specs.declared.message_forms.Message.{Message};
ghost use Rattle.tipc_outside.specs.Frames.{Adds};
ghost use Rattle.tipc_outside.specs.declared.outgoing.Outgoing.{Outgoing};
ghost use Rattle.tipc_journal.specs.declared.entries.Entry.TheVariants.{Withdrawn};
ghost use Rattle.tipc_journal.specs.Licensed.{next_answer};
ghost use Rattle.tipc_sockets.specs.Publishing.{closed, own_publication, published, published_at, withdrawn};
ghost use Rattle.tipc_sockets.specs.SocketTables.{has_port};
ghost use Rattle.tipc_node.specs.Calls.{Performs, plan_of};
ghost use Rattle.tipc_node.specs.Drafts.{own_of, with_sockets_in};
ghost use Rattle.tipc_node.specs.Plans.{CarriesOut, names_plan};
ghost use Rattle.tipc_journal.specs.Room.{counted_bytes, entry_bytes, has_journal_room};
ghost use Rattle.tipc_message.specs.Wire.{IsCarried};
ghost use Rattle.tipc_node.specs.Sockets.{told_withdrawal, first_answer, kept_answer, publication_refusal, with_names_changed, CanChangeNames};
ghost use Rattle.tipc_node.specs.Nodes.{recorded};
ghost use Rattle.tipc_node.specs.Works.{concluded, work_of};

use crate::cores::Core;
use crate::drafts::Draft;
use crate::steps::{make_ready, record, record_alone, record_one};
use crate::tellings::{crowd_refusal, is_clusterwide, telling, tellings};
use std::alloc::Global;
use tipc_journal::Entry;
use tipc_name_table::MOST_PUBLICATIONS;
use tipc_outside::Outbox;
use tipc_ports::{MOST_PORTS, PortFault};
use tipc_sockets::PublishFault;
use tipc_topology::{MOST_SUBSCRIPTIONS, TopologyFault};
use tipc_types::{
    Answer, By, Event, EventNote, Message, NoMemory, PortId, Publication, Scope, ServiceRange,
    Subscription,
};

/// What the journal keeps of the first message at a port, and what a receive answers.
fn first_answers(first: Option<Message>) -> (Answer, Answer)
    ensures kept { (waiting : List Message) → first ≡ slice_get waiting 0 →
        result.0 ≡ kept_answer (first_answer waiting) }
    ensures answer { (waiting : List Message) → first ≡ slice_get waiting 0 → result.1 ≡ first_answer waiting }
{
    match first {
        Some(message) => (Answer::Got, Answer::Received(message)),
        None => (Answer::Empty, Answer::Empty),
    }
}

/// The withdrawals of these publications.
fn withdrawals(alloc: Global, publications: &[Publication]) -> Result<Vec<Entry>, NoMemory>
    ensures { IfOk result (λ entries. entries.items ≡ map Withdrawn publications.now) }
{
    let inside = publications
        .iter()
        .copied()
        .map(|publication| Entry::Withdrawn { publication })
        .collect(alloc)?;
    Ok(inside)
}

/// What a call for the next event answers, where this one is next.
fn event_answer(first: &Option<Event>) -> Answer
    ensures { result ≡ next_answer first.now }
{
    match first {
        Some(event) => Answer::Next(*event),
        None => Answer::NoEvent,
    }
}

/// One entry, as a list.
fn alone(alloc: Global, entry: Entry) -> Result<Vec<Entry>, NoMemory>
    ensures { IfOk result (λ entries. entries.items ≡ entry ∷ []) }
{
    let mut inside = Vec::with_capacity(alloc, 1)?;
    inside.push_reserved(entry);
    Ok(inside)
}

/// A change of the own names, of which peers are told.
#[derive(Clone, Copy)]
enum NameChange {
    /// A port is closed, and what is published there withdrawn.
    Close(u32),
    /// A range is published at a port.
    Publish {
        port: u32,
        range: ServiceRange,
        scope: Scope,
        key: u32,
    },
    /// The publication of a key at a port is withdrawn.
    Withdraw {
        port: u32,
        key: u32,
    },
}

impl Draft {
    /// Closes a port that is there.
    fn close(&mut self, port: u32)
        requires { has_port self.old.work.sockets port ≡ true }
        ensures { self.new ≡ with_sockets_in self.old (closed self.old.work.sockets port) }
    {
        let Ok(()) = self.sockets.close(port) else {
            unreachable!()
        };
    }

    /// Publishes a range at a port of this node, where nothing speaks against it. There is an error only where memory
    /// runs out, and nothing is changed then.
    fn publish(
        &mut self,
        port: u32,
        range: ServiceRange,
        scope: Scope,
        key: u32,
    ) -> Result<(), NoMemory>
        requires { publication_refusal self.old.work.sockets port range.kind key ≡ None }
        ensures ok { OnOk result (self.new ≡ with_sockets_in self.old (published self.old.work.sockets
            (own_publication (own_of self.old) port range scope key))) }
        ensures err { OnErr result (self.new ≡ self.old) }
    {
        match self.sockets.publish_at(port, range, scope, key) {
            Ok(()) => Ok(()),
            Err(PublishFault::NoMemory) => Err(NoMemory),
            Err(PublishFault::NoSocket) => unreachable!(),
            Err(PublishFault::Reserved) => unreachable!(),
            Err(PublishFault::Duplicate(_)) => unreachable!(),
            Err(PublishFault::Full) => unreachable!(),
        }
    }

    /// Withdraws the publication of a key at a port where it is live.
    fn withdraw(&mut self, port: u32, key: u32)
        requires there { has_port self.old.work.sockets port ≡ true }
        requires live { is_some (published_at self.old.work.sockets port key) ≡ true }
        ensures { self.new ≡ with_sockets_in self.old (withdrawn self.old.work.sockets (own_of self.old) key) }
    {
        let Ok(_) = self.sockets.withdraw_at(port, key) else {
            unreachable!()
        };
    }

    /// Changes the own names, where nothing speaks against it. There is an error only where memory runs out, and
    /// nothing is changed then.
    fn change_names(&mut self, change: NameChange) -> Result<(), NoMemory>
        requires { CanChangeNames self.old.work.sockets change }
        ensures ok { OnOk result (self.new ≡ with_sockets_in self.old
            (with_names_changed self.old.work.sockets change)) }
        ensures err { OnErr result (self.new ≡ self.old) }
    {
        match change {
            NameChange::Close(port) => {
                self.close(port);
                Ok(())
            }
            NameChange::Publish {
                port,
                range,
                scope,
                key,
            } => self.publish(port, range, scope, key),
            NameChange::Withdraw { port, key } => {
                self.withdraw(port, key);
                Ok(())
            }
        }
    }
}

impl Core {
    /// Makes a socket, and answers its port: Full exactly where 256 are there, or 1,048,575 were made in this boot.
    pub(crate) fn socket(&mut self, alloc: Global, by: By) -> Result<Answer, NoMemory>
        requires room { has_journal_room self.old.journal ≡ true }
        ensures ok { IfOk result (CarriesOut self.old by EventNote.Socket
            (plan_of self.old EventNote.Socket None) self.new []) }
        ensures err { OnErr result (self.new ≡ self.old) }
    {
        self.journal.reserve(2)?;
        let note = EventNote::Socket;
        match self.draft.sockets.make(alloc) {
            Ok(port) => {
                record(
                    &mut self.journal,
                    by,
                    note,
                    Vec::new(alloc),
                    Answer::Socket(port),
                );
                Ok(Answer::Socket(port))
            }
            Err(PortFault::Full) => {
                self.refuse(alloc, by, note, Answer::Full(MOST_PORTS as u32))
            }
            Err(PortFault::NoMemory) => Err(NoMemory),
        }
    }

    /// Changes the own names, and tells every peer in contact of it by these messages, 1,024 at most of one item each;
    /// the step begins with these entries. NamesCongested exactly where there are messages and 1,000 packets wait on
    /// the link to a peer: the lowest is named.
    fn announce(
        &mut self,
        alloc: Global,
        by: By,
        note: EventNote,
        change: NameChange,
        inside: Vec<Entry>,
        told: &[Message],
        out: &mut Outbox,
    ) -> Result<Answer, NoMemory>
        requires room { has_journal_room self.old.journal ≡ true }
        requires can { CanChangeNames self.old.sockets change }
        requires carried { All IsCarried told.now }
        requires few { (length told.now ≤ 1024) × (length inside.items ≤ 1024) }
        requires light { (sum_by counted_bytes told.now ≤ 20480) × (sum_by entry_bytes inside.items ≡ 0) }
        ensures ok { IfOk result (λ a. (frames : List Outgoing) × CarriesOut self.old by note (names_plan self.old None
            (work_of self.old.neighbours (with_names_changed self.old.sockets change) inside.items) told.now)
            self.new frames a × Adds out.old out.new frames) }
        ensures err { OnErr result ((self.new ≡ self.old) × (out.new ≡ out.old)) }
    {
        if let Some(why) = crowd_refusal(self.draft.neighbours(), told) {
            return self.refuse(alloc, by, note, why);
        }
        self.draft.share(alloc, &mut self.journal, inside, told)?;
        let Ok(()) = self.draft.change_names(change) else {
            self.draft.undo(alloc);
            return Err(NoMemory);
        };
        self.draft
            .conclude(alloc, &mut self.journal, by, note, Answer::Done, out);
        Ok(Answer::Done)
    }

    /// Closes a socket: what is published there is withdrawn, of which peers are told, and what waits there is
    /// dropped. NoSocket exactly where the port isn't there, else NamesCongested exactly where peers are to be told
    /// and 1,000 packets wait on the link to one: the lowest is named.
    pub(crate) fn close(
        &mut self,
        alloc: Global,
        by: By,
        port: u32,
        out: &mut Outbox,
    ) -> Result<Answer, NoMemory>
        requires room { has_journal_room self.old.journal ≡ true }
        ensures ok { IfOk result (λ a. (frames : List Outgoing) ×
            Performs self.old by (EventNote.Close port) self.new frames a × Adds out.old out.new frames) }
        ensures err { OnErr result ((self.new ≡ self.old) × (out.new ≡ out.old)) }
    {
        let note = EventNote::Close { port };
        if !self.draft.sockets().has(port) {
            return self.refuse(alloc, by, note, Answer::NoSocket);
        }
        self.sound();
        let those = self.draft.sockets().live_at(alloc, port)?;
        let told = tellings(alloc, those.as_slice(), true)?;
        let inside = withdrawals(alloc, those.as_slice())?;
        let change = NameChange::Close(port);
        self.announce(alloc, by, note, change, inside, told.as_slice(), out)
    }

    /// Why a publication of a service type and key is refused at a port, as far as the sockets tell it: the first
    /// reason that holds.
    fn publication_refusal(&self, port: u32, kind: u32, key: u32) -> Option<Answer>
        ensures { result ≡ publication_refusal self.now.sockets port kind key }
    {
        match self.draft.sockets().publish_refusal(port, kind, key)? {
            PublishFault::NoSocket => Some(Answer::NoSocket),
            PublishFault::Reserved => Some(Answer::Reserved),
            PublishFault::Duplicate(key) => Some(Answer::Duplicate(key)),
            PublishFault::Full => Some(Answer::Full(MOST_PUBLICATIONS as u32)),
            PublishFault::NoMemory => None,
        }
    }

    /// Publishes a range at a port, of which peers are told where it is seen in the cluster: refused for the first
    /// reason that holds. NamesCongested is the last: peers are to be told, and 1,000 packets wait on the link to one;
    /// the lowest is named.
    pub(crate) fn publish(
        &mut self,
        alloc: Global,
        by: By,
        port: u32,
        range: ServiceRange,
        scope: Scope,
        key: u32,
        out: &mut Outbox,
    ) -> Result<Answer, NoMemory>
        requires room { has_journal_room self.old.journal ≡ true }
        ensures ok { IfOk result (λ a. (frames : List Outgoing) ×
            Performs self.old by (EventNote.Publish port range scope key) self.new frames a ×
            Adds out.old out.new frames) }
        ensures err { OnErr result ((self.new ≡ self.old) × (out.new ≡ out.old)) }
    {
        let note = EventNote::Publish {
            port,
            range,
            scope,
            key,
        };
        if let Some(why) = self.publication_refusal(port, range.kind(), key) {
            return self.refuse(alloc, by, note, why);
        }
        self.sound();
        let publication = self.own_publication(port, range, scope, key);
        let told = telling(alloc, &publication, false)?;
        let inside = alone(alloc, Entry::Published { publication })?;
        let change = NameChange::Publish {
            port,
            range,
            scope,
            key,
        };
        self.announce(alloc, by, note, change, inside, told.as_slice(), out)
    }

    /// The publication of a range at a port of this node.
    fn own_publication(&self, port: u32, range: ServiceRange, scope: Scope, key: u32) -> Publication
        ensures { result ≡ own_publication self.now.own port range scope key }
    {
        Publication {
            range,
            scope,
            at: PortId {
                node: self.own,
                port,
            },
            key,
        }
    }

    /// Records a call that is refused for this reason, which is given twice, and changes nothing else. It takes no
    /// memory that was promised.
    fn refuse_ready(
        &mut self,
        by: By,
        note: EventNote,
        kept: Answer,
        why: Answer,
    ) -> Result<Answer, NoMemory>
        requires room { has_journal_room self.old.journal ≡ true }
        requires same { kept ≡ why }
        ensures ok { IfOk result (λ a. (a ≡ why) × (self.new ≡ recorded self.old by note [] why)) }
        ensures succeeds { 0 < self.old.promised → IsOk result }
        ensures err { OnErr result (self.new ≡ self.old) }
    {
        make_ready(&mut self.journal)?;
        record_alone(&mut self.journal, by, note, kept);
        Ok(why)
    }

    /// Withdraws this publication of a key at a port, of which no peer is told. It takes no memory that was promised.
    fn withdraw_here(
        &mut self,
        by: By,
        port: u32,
        key: u32,
        publication: Publication,
    ) -> Result<Answer, NoMemory>
        requires room { has_journal_room self.old.journal ≡ true }
        requires port { has_port self.old.sockets port ≡ true }
        requires there { published_at self.old.sockets port key ≡ Some publication }
        ensures ok { IfOk result (λ a. (a ≡ Answer.Done) × (self.new ≡ concluded self.old by
            (EventNote.Withdraw port key) (work_of self.old.neighbours
            (withdrawn self.old.sockets self.old.sockets.own key) (Withdrawn publication ∷ [])) Answer.Done)) }
        ensures succeeds { 0 < self.old.promised → IsOk result }
        ensures err { OnErr result (self.new ≡ self.old) }
    {
        make_ready(&mut self.journal)?;
        self.draft.withdraw(port, key);
        let note = EventNote::Withdraw { port, key };
        let inside = Entry::Withdrawn { publication };
        record_one(&mut self.journal, by, note, inside, Answer::Done);
        Ok(Answer::Done)
    }

    /// Withdraws the publication of a key at a port, of which peers are told where it is seen in the cluster:
    /// NoSocket exactly where the port isn't there, else Unknown exactly where that key isn't live at it, else
    /// NamesCongested exactly where peers are to be told and 1,000 packets wait on the link to one: the lowest is
    /// named.
    pub(crate) fn withdraw(
        &mut self,
        alloc: Global,
        by: By,
        port: u32,
        key: u32,
        out: &mut Outbox,
    ) -> Result<Answer, NoMemory>
        requires room { has_journal_room self.old.journal ≡ true }
        ensures ok { IfOk result (λ a. (frames : List Outgoing) ×
            Performs self.old by (EventNote.Withdraw port key) self.new frames a × Adds out.old out.new frames) }
        ensures succeeds { 0 < self.old.promised → told_withdrawal self.old.sockets port key ≡ [] → IsOk result }
        ensures err { OnErr result ((self.new ≡ self.old) × (out.new ≡ out.old)) }
    {
        let note = EventNote::Withdraw { port, key };
        if !self.draft.sockets().has(port) {
            return self.refuse_ready(by, note, Answer::NoSocket, Answer::NoSocket);
        }
        let Some(publication) = self.draft.sockets().published_at(port, key) else {
            return self.refuse_ready(by, note, Answer::Unknown, Answer::Unknown);
        };
        self.sound();
        if !is_clusterwide(&publication) {
            return self.withdraw_here(by, port, key, publication);
        }
        let told = telling(alloc, &publication, true)?;
        let inside = alone(alloc, Entry::Withdrawn { publication })?;
        let change = NameChange::Withdraw { port, key };
        self.announce(alloc, by, note, change, inside, told.as_slice(), out)
    }

    /// Takes the first message that waits at a port: NoSocket exactly where the port isn't there, Empty exactly where
    /// none waits there.
    pub(crate) fn receive(&mut self, by: By, port: u32) -> Result<Answer, NoMemory>
        requires room { has_journal_room self.old.journal ≡ true }
        ensures ok { IfOk result (CarriesOut self.old by (EventNote.Receive port)
            (plan_of self.old (EventNote.Receive port) None) self.new []) }
        ensures succeeds { 0 < self.old.promised → IsOk result }
        ensures err { OnErr result (self.new ≡ self.old) }
    {
        make_ready(&mut self.journal)?;
        let (kept, answer) = match self.draft.sockets.receive(port) {
            Ok(first) => first_answers(first),
            Err(_) => (Answer::NoSocket, Answer::NoSocket),
        };
        let note = EventNote::Receive { port };
        record_alone(&mut self.journal, by, note, kept);
        Ok(answer)
    }

    /// Makes a subscription, and answers its number: BadRange exactly where its lower bound is above the upper, else
    /// BadFilter exactly where its filter is neither 1 nor 2, else Full exactly where 256 are there, or 4,294,967,295
    /// were made in this boot.
    pub(crate) fn subscribe(
        &mut self,
        alloc: Global,
        by: By,
        subscription: Subscription,
    ) -> Result<Answer, NoMemory>
        requires room { has_journal_room self.old.journal ≡ true }
        ensures ok { IfOk result (CarriesOut self.old by (EventNote.Subscribe subscription)
            (plan_of self.old (EventNote.Subscribe subscription) None) self.new []) }
        ensures err { OnErr result (self.new ≡ self.old) }
    {
        let note = EventNote::Subscribe { subscription };
        self.journal.reserve(3)?;
        let mut inside = Vec::with_capacity(alloc, 1)?;
        match self.draft.sockets.subscribe(alloc, subscription) {
            Ok(number) => {
                inside.push_reserved(Entry::Subscribed {
                    number,
                    subscription,
                });
                record(
                    &mut self.journal,
                    by,
                    note,
                    inside,
                    Answer::Subscribed(number),
                );
                Ok(Answer::Subscribed(number))
            }
            Err(TopologyFault::BadRange) => self.refuse(alloc, by, note, Answer::BadRange),
            Err(TopologyFault::BadFilter) => self.refuse(alloc, by, note, Answer::BadFilter),
            Err(TopologyFault::Full) => {
                self.refuse(alloc, by, note, Answer::Full(MOST_SUBSCRIPTIONS as u32))
            }
            Err(TopologyFault::NoMemory) => Err(NoMemory),
        }
    }

    /// Cancels a subscription: Unknown exactly where none of that number is there.
    pub(crate) fn cancel(&mut self, by: By, number: u32) -> Result<Answer, NoMemory>
        requires room { has_journal_room self.old.journal ≡ true }
        ensures ok { IfOk result (CarriesOut self.old by (EventNote.Cancel number)
            (plan_of self.old (EventNote.Cancel number) None) self.new []) }
        ensures succeeds { 0 < self.old.promised → IsOk result }
        ensures err { OnErr result (self.new ≡ self.old) }
    {
        make_ready(&mut self.journal)?;
        let note = EventNote::Cancel { number };
        let Ok(()) = self.draft.sockets.cancel(number) else {
            record_alone(&mut self.journal, by, note, Answer::Unknown);
            return Ok(Answer::Unknown);
        };
        let inside = Entry::Cancelled { number };
        record_one(&mut self.journal, by, note, inside, Answer::Done);
        Ok(Answer::Done)
    }

    /// Takes the first event of a subscription that wasn't taken yet: Unknown exactly where none of that number is
    /// there, NoEvent exactly where each event was taken.
    pub(crate) fn next_event(&mut self, by: By, number: u32) -> Result<Answer, NoMemory>
        requires room { has_journal_room self.old.journal ≡ true }
        ensures ok { IfOk result (CarriesOut self.old by (EventNote.NextEvent number)
            (plan_of self.old (EventNote.NextEvent number) None) self.new []) }
        ensures succeeds { 0 < self.old.promised → IsOk result }
        ensures err { OnErr result (self.new ≡ self.old) }
    {
        make_ready(&mut self.journal)?;
        let note = EventNote::NextEvent { number };
        let Ok(first) = self.draft.sockets.next_event(number) else {
            record_alone(&mut self.journal, by, note, Answer::Unknown);
            return Ok(Answer::Unknown);
        };
        let kept = event_answer(&first);
        record_alone(&mut self.journal, by, note, kept);
        Ok(event_answer(&first))
    }
}
