//! A line is read in its world, and what it asks for is done.

ghost use Rattle.std.specs.Prelude.{◌≡◌, ◌+◌, ◌<◌, ◌≤◌, ◌^◌, ◌||◌, ℕ, true, length, slice_get, IfErr, IfOk, OnOk, find};
ghost use Rattle.tipc_world.specs.Events.{CanHappen};
ghost use Rattle.tipc_replay.specs.Skies.{air_on};
ghost use Rattle.tipc_replay.specs.States.{counted};
ghost use Rattle.tipc_world.specs.States.{is_there};
ghost use Rattle.tipc_world.specs.Good.{IsGood};
ghost use Rattle.tipc_world.specs.Growth.{Grows};
ghost use Rattle.tipc_script.specs.Grammar.{asked};
ghost use Rattle.tipc_script.specs.Faults.{Tells};
ghost use Rattle.tipc_sim.specs.Nodes.{is_misplaced, fault_where, makes, CanBeDone};
ghost use Rattle.tipc_world.specs.Courses.{Continues};
ghost use Rattle.tipc_world.specs.Ends.{place_on};
ghost use Rattle.tipc_sim.specs.Happenings.{beside, event_of, scene, shown, told_of, told_of_flow, written_line, Answers, Composed, Conversed, IsBegun, IsLimited, Moves, Repeated};
ghost use Rattle.tipc_sim.specs.Meanings.{Pumps};
ghost use Rattle.tipc_sim.specs.Messages.{is_call, low_message, Bursts, SendsAgain};
ghost use Rattle.tipc_sim.specs.Noted.{pumped, NotesState};
ghost use Rattle.tipc_world.specs.declared.faults.Limit.{Limit};
ghost use Rattle.tipc_sim.specs.Steps.{IsAnswered};

use crate::frames::{make, pump, settle};
use crate::linking::link;
use crate::messages::{Socket, burst, receive_all, repeat};
use crate::notes::Notes;
use std::alloc::Global;
use tipc_pick::Pick;
use tipc_report::{Told, print};
use tipc_script::{Line, LineFault, LineWhy, NodeToken, parse_line};
use tipc_types::{Addr, Answer, Body, EventNote, Importance, NoMemory, PortId};
use tipc_world::{FlowCounts, World, WorldEvent, WorldFault};

/// Whether a node that has to be there isn't, or one that mustn't be there is.
fn is_misplaced<P: Pick>(token: &NodeToken, world: &World<P>) -> bool
    ensures { result ≡ is_misplaced (is_there world.now.state) token.now }
{
    if token.there {
        return !world.has_node(token.node);
    }
    world.has_node(token.node)
}

/// The first of these nodes, from the left, that is wrongly there or absent.
fn first_misplaced<P: Pick>(nodes: &[NodeToken], world: &World<P>) -> Option<NodeToken>
    ensures { result ≡ find (is_misplaced (is_there world.now.state)) nodes.now }
{
    nodes
        .iter()
        .find(|token| is_misplaced(token, world))
        .copied()
}

/// What a line asks for, which can be done, or its first fault.
#[tactic(auto, using(crate::proofs::NodeLaws::sound_can_be_done), unfolding(crate::specs::Nodes::fault_where))]
pub fn line_in<P: Pick>(alloc: Global, text: &[u8], world: &World<P>) -> Result<Line, LineFault>
    requires { length text.now < 2 ^ 31 }
    ensures fault { Tells result (fault_where (is_there world.now.state) text.now) }
    ensures line { IfOk result (λ line. line ≡ asked text.now) }
    ensures can { IfOk result (CanBeDone (is_there world.now.state)) }
{
    let command = parse_line(alloc, text)?;
    if let Some(token) = first_misplaced(command.nodes.as_slice(), world) {
        return Err(LineFault::BadLine {
            place: token.place,
            why: LineWhy::Node,
        });
    }
    Ok(command.line)
}

/// The event that a line is, or the line where it is none or several.
fn event_of(line: Line, notes: &Notes) -> Result<WorldEvent, Line>
    ensures event { IfOk result (λ event. event_of line notes.now ≡ Some event) }
    ensures other { IfErr result (λ other. (other ≡ line) × (event_of line notes.now ≡ None)) }
{
    match line {
        Line::Call { node, call } => Ok(WorldEvent::Call { node, call }),
        Line::Restart { node } => Ok(WorldEvent::Restart { node }),
        Line::Arrive {
            node,
            bearer,
            frame,
        } => Ok(WorldEvent::Arrive {
            node,
            bearer,
            frame: notes.base(bearer).saturating_add(frame),
        }),
        other => Err(other),
    }
}

/// Pumps the frames of a bearer that aren't pumped yet.
fn pump_on<P: Pick>(
    alloc: Global,
    bearer: u8,
    world: &mut World<P>,
    notes: &mut Notes,
) -> Result<Told, WorldFault>
    requires { bearer ≤ 1 }
    ensures comes { Pumps bearer (place_on bearer notes.old.places) world.old.state result world.new.state }
    ensures noted { OnOk result (notes.new ≡ pumped notes.old bearer (length (air_on bearer world.new.state.air))) }
    ensures continues { Continues P.gives world.old world.new }
{
    let told = pump(alloc, bearer, notes.places().on(bearer), world)?;
    notes.pump_to(bearer, world.air_len(bearer));
    Ok(told)
}

/// Sends, pumps and receives so many times at most, where pumping goes on from the frames that aren't pumped yet.
fn burst_on<P: Pick>(
    alloc: Global,
    times: u32,
    message: &WorldEvent,
    at: Socket,
    world: &mut World<P>,
    notes: &mut Notes,
) -> Result<Told, WorldFault>
    requires can { CanHappen world.old.state message.now }
    requires sends { is_call message.now ≡ true }
    requires there { is_there world.old.state at.node ≡ true }
    ensures comes { Moves (Bursts times message.now
        (WorldEvent.Call at.node (EventNote.Receive at.port)) notes.old.places) notes.old world.old.state
        (beside result notes.new) world.new.state }
    ensures continues { Continues P.gives world.old world.new }
{
    let (moved, places) = burst(alloc, times, message, at, notes.places(), world)?;
    notes.pump_both_to(places);
    Ok(Told::Moved(moved))
}

/// Sends a message again and again, so many times at most, and tells how often it was sent and the last answer.
fn repeat_on<P: Pick>(
    alloc: Global,
    times: u32,
    message: &WorldEvent,
    world: &mut World<P>,
) -> Result<Told, WorldFault>
    requires some { 1 ≤ times }
    requires can { CanHappen world.old.state message.now }
    requires sends { is_call message.now ≡ true }
    ensures comes { (notes : NotesState) → Repeated (SendsAgain times message.now) notes world.old.state
        (beside result notes) world.new.state }
    ensures continues { Continues P.gives world.old world.new }
{
    let (count, last) = repeat(alloc, times, message, world)?;
    Ok(Told::Times { count, last })
}

/// A message of low importance from a port of a node to a socket.
fn low_message(node: u8, port: u32, at: Socket, body: Body) -> WorldEvent
    requires { (1 ≤ at.node) × (at.node ≤ 32) }
    ensures { result ≡ low_message node port at.node at.port body }
{
    let to = PortId {
        node: Addr::node(at.node),
        port: at.port,
    };
    let call = EventNote::SendPort {
        port,
        to,
        importance: Importance::Low,
        body,
    };
    WorldEvent::Call { node, call }
}

/// The frame of a bearer of that number since the last mark, where there is one.
fn shown<P: Pick>(bearer: u8, frame: u64, world: &World<P>, notes: &Notes) -> Result<Told, NoMemory>
    ensures { IfOk result (λ told. told ≡ shown (slice_get (air_on bearer world.now.state.air)
        (counted (place_on bearer notes.now.bases + frame)))) }
{
    let Some(sent) = world.frame(bearer, notes.base(bearer).saturating_add(frame)) else {
        return Ok(Told::Answer(Answer::NoFrame));
    };
    Ok(Told::Frame {
        from: sent.from,
        to: sent.to,
        bytes: sent.frame.clone()?,
    })
}

/// What is told of a contact: how many messages were accepted and delivered in it, or that there is none.
fn told_of_flow(counts: Option<FlowCounts>) -> Told
    ensures { result ≡ told_of_flow counts }
{
    match counts {
        None => Told::NoContact,
        Some(counts) => Told::Flow {
            accepted: counts.accepted,
            delivered: counts.delivered,
        },
    }
}

/// What is told of a line that leaves everything as it is.
fn tell<P: Pick>(
    alloc: Global,
    line: &Line,
    world: &World<P>,
    notes: &Notes,
) -> Result<Told, NoMemory>
    requires { CanBeDone (is_there world.now.state) line.now }
    ensures { IfOk result (λ told. told ≡ told_of line.now notes.now world.now.state) }
{
    Ok(match line {
        Line::Air { bearer } => {
            Told::Air(world.air_len(*bearer).saturating_sub(notes.base(*bearer)))
        }
        Line::Show { bearer, frame } => shown(*bearer, *frame, world, notes)?,
        Line::Links { node } => Told::Links(world.links(alloc, *node)?),
        Line::Table { node } => Told::Table(world.table(alloc, *node)?),
        Line::Flow { from, to } => told_of_flow(world.flow(*from, *to)),
        Line::BadRange { .. } => Told::Answer(Answer::BadRange),
        _ => Told::Nothing,
    })
}

/// Does what a line asks for that sends and receives messages again and again, or leaves everything as it is.
fn converse<P: Pick>(
    alloc: Global,
    line: Line,
    world: &mut World<P>,
    notes: &mut Notes,
) -> Result<Told, WorldFault>
    requires can { CanBeDone (is_there world.old.state) line }
    ensures comes { Conversed line notes.old world.old.state (beside result notes.new) world.new.state }
    ensures continues { Continues P.gives world.old world.new }
{
    match line {
        Line::Repeat { times, node, call } => {
            let message = WorldEvent::Call { node, call };
            repeat_on(alloc, times, &message, world)
        }
        Line::Drain { node, port } => {
            let told = receive_all(alloc, Socket::new(node, port), world)?;
            Ok(told)
        }
        Line::Burst {
            node,
            port,
            to_node,
            to_port,
            times,
            body,
        } => {
            let at = Socket::new(to_node, to_port);
            let message = low_message(node, port, at, body);
            burst_on(alloc, times, &message, at, world, notes)
        }
        other => Ok(tell(alloc, &other, world, notes)?),
    }
}

/// Does what a line asks for that isn't one event.
fn compose<P: Pick>(
    alloc: Global,
    line: Line,
    world: &mut World<P>,
    notes: &mut Notes,
) -> Result<Told, WorldFault>
    requires can { CanBeDone (is_there world.old.state) line }
    requires good { IsGood P.gives world.old }
    ensures good { IsGood P.gives world.new }
    ensures nodes { OnOk result ((n : ℕ) → is_there world.new.state n ≡ (makes line n || is_there world.old.state n)) }
    ensures grows { Grows world.old.state world.new.state }
    ensures comes { Composed line notes.old world.old.state (beside result notes.new) world.new.state }
{
    let told = match line {
        Line::Node { node } => {
            world.add_node(alloc, node)?;
            Told::Answer(Answer::Done)
        }
        Line::Link {
            first,
            second,
            bearer,
        } => link(alloc, first, second, bearer, world)?,
        Line::Mark => {
            notes.mark(world.ends());
            Told::Answer(Answer::Done)
        }
        Line::Pump { bearer } => pump_on(alloc, bearer, world, notes)?,
        Line::Settle { rounds } => settle(alloc, rounds, world)?,
        other => return converse(alloc, other, world, notes),
    };
    Ok(told)
}

/// Does what a line asks for.
pub fn answer_of<P: Pick>(
    alloc: Global,
    line: Line,
    world: &mut World<P>,
    notes: &mut Notes,
) -> Result<Told, WorldFault>
    requires can { CanBeDone (is_there world.old.state) line }
    requires good { IsGood P.gives world.old }
    ensures good { IsGood P.gives world.new }
    ensures nodes { OnOk result ((n : ℕ) → is_there world.new.state n ≡ (makes line n || is_there world.old.state n)) }
    ensures grows { Grows world.old.state world.new.state }
    ensures comes { Answers line notes.old world.old.state (beside result notes.new) world.new.state }
{
    match event_of(line, notes) {
        Ok(event) => Ok(Told::Answer(make(alloc, event, world)?)),
        Err(other) => compose(alloc, other, world, notes),
    }
}

/// The printed line of what is told; nothing of a line before the first that is written.
fn told_text(alloc: Global, from: u32, number: u32, told: &Told) -> Result<Vec<u8>, NoMemory>
    ensures { IfOk result (λ text. text.items ≡ written_line from number told.now) }
{
    let mut text = Vec::new(alloc);
    if from <= number {
        print(number, told, &mut text)?;
    }
    Ok(text)
}

/// Does what a line asks for, and answers the printed line of what is told of it; nothing of a line before the first
/// that is written. Where a frame was lost for want of memory nothing is printed, nor is a limit told that was reached.
pub fn do_line<P: Pick>(
    alloc: Global,
    from: u32,
    number: u32,
    line: Line,
    world: &mut World<P>,
    notes: &mut Notes,
) -> Result<Vec<u8>, WorldFault>
    requires can { CanBeDone (is_there world.old.state) line }
    requires good { IsGood P.gives world.old }
    ensures good { IsGood P.gives world.new }
    ensures grows { Grows world.old.state world.new.state }
    ensures answered { IfOk result (λ text. IsAnswered from number line (scene world.old.state notes.old)
        (scene world.new.state notes.new) text.items) }
    ensures limited { IfErr result (λ fault. (stop : Limit) → fault ≡ WorldFault.Limit stop →
        IsLimited line (scene world.old.state notes.old) stop world.new.state) }
    ensures begun { IfErr result (λ fault. fault ≡ WorldFault.NoMemory →
        IsBegun line (scene world.old.state notes.old) world.new.state) }
{
    let came = answer_of(alloc, line, world, notes);
    if world.lost() {
        return Err(WorldFault::NoMemory);
    }
    Ok(told_text(alloc, from, number, &came?)?)
}
