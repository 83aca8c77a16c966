//! The calls that send a message, to a port and by name.

ghost use Rattle.std.specs.Prelude.{◌≡◌, ℕ, ◌+◌, ◌%◌, ◌^◌, ◌≤◌, List, [], false, true, if◌then◌else◌, None, Some, is_some, length, slice_index_or, sum_by, unwrap_or, IfOk, OnErr, OnOk};
ghost use Rattle.tipc_outside.specs.Frames.{Adds};
ghost use Rattle.tipc_outside.specs.declared.outgoing.Outgoing.{Outgoing};
ghost use Rattle.tipc_journal.specs.Counting.{is_sent_by_name};
ghost use Rattle.tipc_journal.specs.Dues.{comes_home};
ghost use Rattle.tipc_journal.specs.Licensed.{IsPickedOf};
ghost use Rattle.tipc_journal.specs.Refusals.{longest_body};
ghost use Rattle.tipc_journal.specs.Room.{counted_bytes, entry_bytes, has_journal_room};
ghost use Rattle.tipc_message.specs.Wire.{IsPayload};
ghost use Rattle.tipc_sockets.specs.Telling.{origin_of};
ghost use Rattle.tipc_node.specs.Calls.{Performs, sender_refusal};
ghost use Rattle.tipc_node.specs.Drafts.{own_of, with_sockets_in};
ghost use Rattle.tipc_node.specs.Messages.{destination_of};
ghost use Rattle.tipc_node.specs.Nodes.{is_met};
ghost use Rattle.tipc_node.specs.Plans.{CarriesOut, message_plan, way_refusal};
ghost use Rattle.tipc_node.specs.Sockets.{found_at, kept_answer};
ghost use Rattle.tipc_node.specs.Works.{Work, begun, concluded, work_of, Puts, GivesFate};

use crate::cores::Core;
use crate::drafts::Draft;
use crate::fates::{comes_home, destination, load_to, meet};
use crate::messages::{MOST_BODY_BYTES, direct, limit, name_note, named, port_note};
use crate::neighbours::Neighbour;
use crate::steps::{record, record_entry};
use std::alloc::Global;
use tipc_journal::Entry;
use tipc_outside::Outbox;
use tipc_pick::{Chooser, Pick};
use tipc_sockets::Sockets;
use tipc_types::{Addr, Answer, Body, By, EventNote, Importance, Message, NoMemory, PortId};

/// A message that the node sent to itself has its fate, and a return has its own: nothing leaves.
fn settle(
    alloc: Global,
    sockets: &mut Sockets,
    neighbours: &[Option<Neighbour>],
    m: Message,
    inside: &mut Vec<Entry>,
) -> Result<(), NoMemory>
    requires origin { (origin_of m).word ≡ sockets.old.own }
    ensures settles { OnOk result (GivesFate sockets.old.own
        (work_of neighbours.now sockets.old inside.old.items) false m
        (work_of neighbours.now sockets.new inside.new.items) []) }
    ensures few { OnOk result (length inside.new.items ≤ length inside.old.items + 2) }
    ensures light { OnOk result (sum_by entry_bytes inside.new.items ≡ sum_by entry_bytes inside.old.items) }
    ensures err { OnErr result (sockets.new ≡ sockets.old) }
{
    let Some(back) = meet(alloc, sockets, neighbours, false, m, inside)? else {
        return Ok(());
    };
    meet(alloc, sockets, neighbours, false, back, inside)?;
    Ok(())
}

impl Draft {
    /// A message that the node sent to itself has its fate, in a step that does nothing else: what is told of it isn't
    /// drafted. A return has its own fate, so nothing leaves.
    fn settle_alone(
        &mut self,
        alloc: Global,
        m: Message,
        inside: &mut Vec<Entry>,
    ) -> Result<(), NoMemory>
        requires origin { (origin_of m).word ≡ own_of self.old }
        ensures settles { OnOk result (GivesFate (own_of self.old)
            (work_of self.old.work.neighbours self.old.work.sockets inside.old.items) false m
            (work_of self.old.work.neighbours self.new.work.sockets inside.new.items) []) }
        ensures few { OnOk result (length inside.new.items ≤ length inside.old.items + 2) }
        ensures light { OnOk result (sum_by entry_bytes inside.new.items ≡ sum_by entry_bytes inside.old.items) }
        ensures rest { self.new ≡ with_sockets_in self.old self.new.work.sockets }
        ensures err { OnErr result (self.new ≡ self.old) }
    {
        settle(
            alloc,
            &mut self.sockets,
            self.neighbours.as_slice(),
            m,
            inside,
        )
    }
}

impl Core {
    /// Why the sender of a message is refused: its port isn't there, or the body is too long.
    pub(crate) fn sender_refusal(&self, port: u32, body: &Body) -> Option<Answer>
        ensures { result ≡ sender_refusal self.now port body.now }
    {
        if !self.draft.sockets().has(port) {
            return Some(Answer::NoSocket);
        }
        if body.len() > MOST_BODY_BYTES {
            return Some(Answer::TooLong(body.len() as u64));
        }
        None
    }

    /// Why a message for a node is refused on its way: there is no contact with it, or as many packets wait as the
    /// limit says. A message for the own node needs no link.
    fn way_refusal(&self, node: Addr, limit: u32) -> Option<Answer>
        ensures { result ≡ way_refusal self.now node limit }
    {
        if node.word == self.own.word {
            return None;
        }
        let Some((in_flight, waiting)) = load_to(self.draft.neighbours(), node) else {
            return Some(Answer::NoNode);
        };
        if waiting >= limit {
            return Some(Answer::Congested { in_flight, waiting });
        }
        None
    }

    /// Sends a message to a port of the own node.
    fn send_home(
        &mut self,
        alloc: Global,
        by: By,
        note: EventNote,
        m: Message,
        sent: Answer,
    ) -> Result<(), NoMemory>
        requires room { has_journal_room self.old.journal ≡ true }
        requires origin { (origin_of m).word ≡ self.old.own }
        ensures sent { OnOk result ((w : Work) × GivesFate self.old.own (begun self.old) false m w [] ×
            (self.new ≡ concluded self.old by note w sent)) }
        ensures err { OnErr result (self.new ≡ self.old) }
    {
        self.journal.reserve(4)?;
        let mut inside = Vec::new(alloc);
        self.draft.settle_alone(alloc, m, &mut inside)?;
        record(&mut self.journal, by, note, inside, sent);
        Ok(())
    }

    /// Puts a message on the link to the peer, with which there is a contact.
    fn send_away(
        &mut self,
        alloc: Global,
        by: By,
        note: EventNote,
        peer: u8,
        m: Message,
        sent: Answer,
        out: &mut Outbox,
    ) -> Result<(), NoMemory>
        requires room { has_journal_room self.old.journal ≡ true }
        requires peer { (1 ≤ peer) × (peer ≤ 32) }
        requires payload { IsPayload m }
        requires small { counted_bytes m ≤ longest_body }
        requires contact { is_met (slice_index_or self.old.neighbours peer None) ≡ true }
        ensures sent { OnOk result ((w : Work) × (frames : List Outgoing)
            × Puts self.old.own (begun self.old) peer m w frames ×
            (self.new ≡ concluded self.old by note w sent) × Adds out.old out.new frames) }
        ensures err { OnErr result ((self.new ≡ self.old) × (out.new ≡ out.old)) }
    {
        self.journal.reserve(3)?;
        let accepted = self.draft.put_alone(alloc, peer, m, out)?;
        record_entry(&mut self.journal, by, note, accepted, sent);
        Ok(())
    }

    /// Sends a message that nothing speaks against but its way. The answer is why it is refused there: None where it is
    /// sent.
    fn send_to(
        &mut self,
        alloc: Global,
        by: By,
        note: EventNote,
        m: Message,
        limit: u32,
        sent: Answer,
        out: &mut Outbox,
    ) -> Result<Option<Answer>, NoMemory>
        requires room { has_journal_room self.old.journal ≡ true }
        requires origin { (origin_of m).word ≡ self.old.own }
        requires payload { IsPayload m }
        requires small { counted_bytes m ≤ longest_body }
        requires kept { kept_answer sent ≡ sent }
        ensures way { IfOk result (λ why. why ≡ way_refusal self.old (destination_of m) limit) }
        ensures sends { IfOk result (λ why. (frames : List Outgoing)
            × CarriesOut self.old by note (message_plan self.old None m limit sent) self.new frames (unwrap_or why sent)
            × Adds out.old out.new frames) }
        ensures err { OnErr result ((self.new ≡ self.old) × (out.new ≡ out.old)) }
    {
        let to = destination(&m);
        if let Some(why) = self.way_refusal(to, limit) {
            let refused = self.refuse(alloc, by, note, why)?;
            return Ok(Some(refused));
        }
        if comes_home(self.own, &m) {
            self.send_home(alloc, by, note, m, sent)?;
            return Ok(None);
        }
        // The packets on the link to it were counted, so it is one of the 32 nodes.
        let _ = self.draft.neighbours();
        let Some(peer) = to.number() else {
            unreachable!()
        };
        self.send_away(alloc, by, note, peer, m, sent, out)?;
        Ok(None)
    }

    /// Sends a message to a port. NoSocket exactly where the sending port isn't there, else TooLong exactly where the
    /// body has more than 66,000 bytes, else, where it is for another node, NoNode exactly where there is no contact
    /// with that node, else Congested exactly where as many packets wait on the link as the limit of the importance.
    pub(crate) fn send_port(
        &mut self,
        alloc: Global,
        by: By,
        port: u32,
        to: PortId,
        importance: Importance,
        body: Body,
        out: &mut Outbox,
    ) -> Result<Answer, NoMemory>
        requires room { has_journal_room self.old.journal ≡ true }
        ensures ok { IfOk result (λ a. (frames : List Outgoing) ×
            Performs self.old by (EventNote.SendPort port to importance body) self.new frames a ×
            Adds out.old out.new frames) }
        ensures err { OnErr result ((self.new ≡ self.old) × (out.new ≡ out.old)) }
    {
        if let Some(why) = self.sender_refusal(port, &body) {
            let note = port_note(port, to, importance, body);
            return self.refuse(alloc, by, note, why);
        }
        let note = port_note(port, to, importance, body.clone()?);
        let m = direct(self.own, port, to, importance, body);
        let most = limit(importance);
        let refused = self.send_to(alloc, by, note, m, most, Answer::Sent, out)?;
        Ok(refused.unwrap_or(Answer::Sent))
    }

    /// Sends a message by name, to the one that the chooser gives of those that the name finds, closest first. As
    /// [`Core::send_port`], and NoName exactly where the sender isn't refused and the name finds nothing. The chooser
    /// turns where the message was sent.
    pub(crate) fn send_name<P: Pick>(
        &mut self,
        alloc: Global,
        by: By,
        port: u32,
        kind: u32,
        instance: u32,
        importance: Importance,
        body: Body,
        chooser: &mut Chooser<P>,
        out: &mut Outbox,
    ) -> Result<Answer, NoMemory>
        requires room { has_journal_room self.old.journal ≡ true }
        ensures ok { IfOk result (λ a. (frames : List Outgoing) ×
            Performs self.old by (EventNote.SendName port kind instance importance body) self.new frames a ×
            Adds out.old out.new frames) }
        ensures picked { IfOk result (λ a. (turn : ℕ) → turn % 2 ^ 64 ≡ chooser.old.turn →
            IsPickedOf (P.gives chooser.old.pick) turn (found_at self.old kind instance) a) }
        ensures turns { IfOk result (λ a. chooser.new ≡ record {
          pick = chooser.old.pick;
          turn = if is_sent_by_name (EventNote.SendName port kind instance importance body) a
              then (chooser.old.turn + 1) % 2 ^ 64 else chooser.old.turn;
        }) }
        ensures err { OnErr result ((self.new ≡ self.old) × (out.new ≡ out.old) × (chooser.new ≡ chooser.old)) }
    {
        if let Some(why) = self.sender_refusal(port, &body) {
            let note = name_note(port, kind, instance, importance, body);
            return self.refuse(alloc, by, note, why);
        }
        let found = self.draft.sockets().closest(alloc, kind, instance)?;
        if found.is_empty() {
            let note = name_note(port, kind, instance, importance, body);
            return self.refuse(alloc, by, note, Answer::NoName);
        }
        let to = found.as_slice()[chooser.choose(found.len() as u64) as usize].at;
        let note = name_note(port, kind, instance, importance, body.clone()?);
        let m = named(self.own, port, to, kind, instance, importance, body);
        let most = limit(importance);
        let refused = self.send_to(alloc, by, note, m, most, Answer::SentTo(to), out)?;
        if let Some(why) = refused {
            return Ok(why);
        }
        chooser.advance();
        Ok(Answer::SentTo(to))
    }
}
