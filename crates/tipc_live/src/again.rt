//! A call that is made again in the replay.

ghost use Rattle.std.specs.Prelude.{◌≡◌, ◌<◌, ◌≤◌, ◌↔◌, false, true, IfOk, IsTrue, MatchOption};
ghost use Rattle.tipc_node.specs.Calls.{CanPerform};
ghost use Rattle.tipc_replay.specs.Calls.{CanHappenAt, HasNextBoot, has_room_at, node_of};
ghost use Rattle.tipc_replay.specs.Choices.{ChoosesAt};
ghost use Rattle.tipc_replay.specs.States.{has_member};
ghost use Rattle.tipc_replay.specs.Steps.{IsReplayStep};
ghost use Rattle.tipc_replay.specs.declared.events.WorldEvent.TheVariants.{Call};
ghost use Rattle.tipc_live.specs.Again.{CanBeAgain, IsOutcomeOf, IsOutcomeOfBytes, IsOutcomeOfCall, HasFrame, HasNoFrame, IsLatest, IsUnmade, became};

use std::alloc::Global;
use tipc_pick::{Chooser, Pick};
use tipc_replay::{Replay, ReplayFault, WorldEvent};
use tipc_types::{Answer, By, Bytes, EventNote, NoMemory};

/// What became of a call that was to be made again.
#[derive(Clone, Copy, Debug, PartialEq, Eq)]
pub enum Again {
    /// It was made.
    Made,
    /// The journal has no room for it.
    Full,
    /// There is no frame that could arrive.
    NoFrame,
    /// The frame is too old: so many packets were numbered since it was sent.
    TooOld(u64),
}

/// Lets an event happen: None where the journal of its node has no room for it. Memory ran out, too, where a frame was
/// lost for want of it.
fn happen<P: Pick>(
    replay: &mut Replay,
    alloc: Global,
    event: WorldEvent,
    by: By,
    chooser: &mut Chooser<&P>,
) -> Result<Option<Answer>, NoMemory>
    requires can { CanHappenAt replay.old.members event }
    requires next { HasNextBoot replay.old.members event }
    ensures { IfOk result (λ made. MatchOption made
        (IsUnmade replay.old replay.new chooser.old chooser.new ×
        (has_room_at replay.old.members (node_of event) ≡ false))
        (λ a. IsReplayStep replay.old by event replay.new a ×
        ChoosesAt (λ p. P.gives p.now) replay.old.members event a chooser.old chooser.new)) }
{
    let answer = match replay.step(alloc, event, by, chooser) {
        Ok(answer) => Some(answer),
        Err(ReplayFault::JournalFull) => None,
        Err(ReplayFault::NoMemory) => return Err(NoMemory),
    };
    if replay.lost() {
        return Err(NoMemory);
    }
    Ok(answer)
}

/// Whether the frame of that place in the air of a bearer is for node `n` and has these bytes.
fn has_frame(replay: &Replay, n: u8, bearer: u8, place: u64, bytes: &[u8]) -> bool
    requires { (1 ≤ n) × (n ≤ 32) }
    ensures { IsTrue result ↔ HasFrame replay.now.air n bearer bytes.now place }
{
    match replay.frame(bearer, place) {
        Some(sent) => sent.frame.as_slice() == bytes && replay.is_for(n, bearer, place),
        None => false,
    }
}

/// The place of the latest frame in the air of a bearer that is for node `n` and has these bytes.
fn latest_frame(replay: &Replay, n: u8, bearer: u8, bytes: &[u8]) -> Option<u64>
    requires { (1 ≤ n) × (n ≤ 32) }
    ensures { MatchOption result (HasNoFrame replay.now.air n bearer bytes.now)
        (IsLatest replay.now.air n bearer bytes.now) }
{
    let mut place = replay.air_len(bearer);
    while place > 0 {
        place -= 1;
        if has_frame(replay, n, bearer, place, bytes) {
            return Some(place);
        }
    }
    None
}

/// What became of an arrival that was answered so.
fn became(answer: &Answer) -> Again
    ensures { result ≡ became answer.now }
{
    match answer {
        Answer::TooOld(count) => Again::TooOld(*count),
        _ => Again::Made,
    }
}

/// Lets the latest frame with these bytes arrive at node `n` on a bearer.
fn arrive_again<P: Pick>(
    replay: &mut Replay,
    alloc: Global,
    n: u8,
    by: By,
    bearer: u8,
    bytes: &[u8],
    chooser: &mut Chooser<&P>,
) -> Result<Again, NoMemory>
    requires number { (1 ≤ n) × (n ≤ 32) }
    requires there { has_member replay.old.members n ≡ true }
    requires bearer { bearer ≤ 1 }
    ensures { IfOk result (IsOutcomeOfBytes (λ p. P.gives p.now) replay.old replay.new n by bearer bytes.now
        chooser.old chooser.new) }
{
    let Some(frame) = latest_frame(replay, n, bearer, bytes) else {
        return Ok(Again::NoFrame);
    };
    let event = WorldEvent::Arrive {
        node: n,
        bearer,
        frame,
    };
    match happen(replay, alloc, event, by, chooser)? {
        Some(answer) => Ok(became(&answer)),
        None => Ok(Again::Full),
    }
}

/// The event in which node `n` makes an equal call.
fn event_of(n: u8, call: &EventNote) -> Result<WorldEvent, NoMemory>
    ensures { IfOk result (λ event. event ≡ Call n call.now) }
{
    Ok(WorldEvent::Call {
        node: n,
        call: call.clone()?,
    })
}

/// Makes a call of node `n` again that is no arrival.
fn call_again<P: Pick>(
    replay: &mut Replay,
    alloc: Global,
    n: u8,
    by: By,
    call: &EventNote,
    chooser: &mut Chooser<&P>,
) -> Result<Again, NoMemory>
    requires there { has_member replay.old.members n ≡ true }
    requires can { CanPerform call.now }
    ensures { IfOk result (IsOutcomeOfCall (λ p. P.gives p.now) replay.old replay.new n by call.now chooser.old
        chooser.new) }
{
    let event = event_of(n, call)?;
    match happen(replay, alloc, event, by, chooser)? {
        Some(_) => Ok(Again::Made),
        None => Ok(Again::Full),
    }
}

/// Makes a call of node `n` again, where the frames that arrived there have these bytes.
///
/// # Errors
///
/// Where memory runs out, also for a frame that leaves.
pub fn make_again<P: Pick>(
    replay: &mut Replay,
    alloc: Global,
    n: u8,
    by: By,
    call: &EventNote,
    heard: &[Bytes],
    chooser: &mut Chooser<&P>,
) -> Result<Again, NoMemory>
    requires number { (1 ≤ n) × (n ≤ 32) }
    requires there { has_member replay.old.members n ≡ true }
    requires can { CanBeAgain heard.now call.now }
    ensures { IfOk result (IsOutcomeOf (λ p. P.gives p.now) replay.old replay.new heard.now n by call.now chooser.old
        chooser.new) }
{
    match call {
        EventNote::Arrive { bearer, number } => {
            let bytes = heard[*number as usize].as_slice();
            arrive_again(replay, alloc, n, by, *bearer, bytes, chooser)
        }
        _ => call_again(replay, alloc, n, by, call, chooser),
    }
}
