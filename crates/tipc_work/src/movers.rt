//! What the mover of a node does in a live run: it carries frames between the node and its two bearers.

ghost use Rattle.std.specs.Prelude.{◌≡◌, ◌≤◌, false, length, IfOk, OnOk, if◌then◌else◌};
ghost use Rattle.tipc_node_lock.specs.Locks.{IsPassOf};
ghost use Rattle.tipc_work.specs.Called.{DrawsFor, MayDrawFor};
ghost use Rattle.tipc_work.specs.Moved.{AsksBearer, CarriesFrames, CarriesNothing, CarriesOn, HasMended, HasMoved, LooksAtBearer, TicksNot, TicksOnce};
ghost use Rattle.tipc_work.specs.Shown.{IsUnusedPass};

use crate::workers::{Post, Worker};
use std::sync::Wait;
use std::thread;
use tipc_node_lock::Pass;
use tipc_outside::{Bearer, BearerFault, Clock, Gate, Heard, Outgoing};
use tipc_pick::Pick;
use tipc_types::{EventNote, NoMemory, To};

/// How many turns a mover has at most. (This project's profile.)
const MOST_TURNS: u32 = 1_000_000;

/// How many turns a mover has after all callers have ended. (This project's profile.)
const TURNS_BEHIND: u32 = 64;

/// The two bearers of a node, the frame that came last, and whether a bearer was seen to fail.
#[derive(Drop)]
struct Bearers<B> {
    first: B,
    second: B,
    frame: Vec<u8>,
    failed: bool,
}

/// A mover: its pass, its node's bearers 0 and 1, and a clock with the last time that it told.
#[derive(Drop)]
struct Mover<B, C> {
    pass: Worker,
    bearers: Bearers<B>,
    clock: C,
    time: u64,
}

/// The pass and the bearers of a mover behind a run, and whether a bearer failed.
#[derive(Drop)]
pub(crate) struct Moved<B> {
    pub(crate) pass: Pass,
    pub(crate) first: B,
    pub(crate) second: B,
    pub(crate) failed: bool,
}

/// Looks at a bearer once: whether it gave a frame, which stands in `frame` then. A bearer that fails or finds no
/// memory gave none.
#[tactic(auto, using(crate::proofs::Carrying::looks_frame, crate::proofs::Carrying::looks_nothing, crate::proofs::Carrying::looks_short, crate::proofs::Carrying::looks_failed))]
fn look<B: Bearer>(bearer: &mut B, frame: &mut Vec<u8>, failed: &mut bool) -> bool
    ensures { LooksAtBearer B.tried B.given B.faults bearer.old failed.old result bearer.new failed.new }
{
    match bearer.receive(frame) {
        Ok(Heard::Frame) => true,
        Ok(Heard::Nothing) => false,
        Err(BearerFault::Failed) => {
            *failed = true;
            false
        }
        Err(BearerFault::NoMemory) => false,
    }
}

/// Asks a bearer to send a frame. One that it doesn't take is lost.
#[tactic(auto, using(crate::proofs::Carrying::asks_failed, crate::proofs::Carrying::asks_done))]
fn ask<B: Bearer>(bearer: &mut B, to: To, frame: &[u8], failed: &mut bool)
    ensures { AsksBearer B.tried B.given B.faults bearer.old failed.old bearer.new failed.new }
{
    if let Err(BearerFault::Failed) = bearer.send(to, frame) {
        *failed = true;
    }
}

impl<B: Bearer> Bearers<B> {
    /// Looks at one of them.
    #[tactic(auto, using(crate::proofs::Carrying::looks_first, crate::proofs::Carrying::looks_second))]
    fn look_at(&mut self, bearer: u8) -> bool
        ensures { CarriesFrames B.tried B.given B.faults (if result then 1 else 0) 0 self.old self.new }
    {
        match bearer {
            0 => look(&mut self.first, &mut self.frame, &mut self.failed),
            _ => look(&mut self.second, &mut self.frame, &mut self.failed),
        }
    }

    /// Sends a frame on its bearer.
    #[tactic(auto, using(crate::proofs::Carrying::asks_first, crate::proofs::Carrying::asks_second))]
    fn send_one(&mut self, frame: &Outgoing)
        ensures { CarriesFrames B.tried B.given B.faults 0 1 self.old self.new }
    {
        let bytes = frame.frame.as_slice();
        match frame.bearer {
            0 => ask(&mut self.first, frame.to, bytes, &mut self.failed),
            _ => ask(&mut self.second, frame.to, bytes, &mut self.failed),
        }
    }

    /// Sends frames, each on its bearer, in order.
    #[tactic(auto, using(crate::proofs::Carrying::carries_none, crate::proofs::Carrying::carries_one))]
    fn send_each(&mut self, frames: &[Outgoing])
        ensures { CarriesFrames B.tried B.given B.faults 0 (length frames.now) self.old self.new }
    {
        for frame in frames {
            self.send_one(frame);
        }
    }
}

impl<B: Bearer, C> Mover<B, C> {
    /// Takes a frame from a bearer, if it has one, which arrives at the node. Answers whether one came.
    #[tactic(auto, using(crate::proofs::Carrying::goes_hearing, crate::proofs::Carrying::goes_waiting, crate::proofs::Carrying::no_tick_hearing, crate::proofs::Carrying::no_tick_still))]
    fn hear<R: Wait, P: Pick, G: Gate>(
        &mut self,
        rt: &R,
        post: &Post<'_, '_, '_, P, G>,
        bearer: u8,
    ) -> Result<bool, NoMemory>
        requires pass { IsPassOf post.now.lock.now self.old.pass }
        requires left { MayDrawFor 1 self.old.pass }
        requires bearer { bearer ≤ 1 }
        ensures goes { OnOk result (CarriesOn B.tried B.given B.faults self.old self.new) }
        ensures ticks { OnOk result (TicksNot self.old self.new) }
        ensures stays { IsPassOf post.now.lock.now self.new.pass }
        ensures few { DrawsFor 1 self.old.pass self.new.pass }
    {
        if !self.bearers.look_at(bearer) {
            return Ok(false);
        }
        let frame = self.bearers.frame.as_slice();
        let _ = self.pass.arrive(rt, post, bearer, frame)?;
        Ok(true)
    }

    /// Sends the frames that are to leave the node. Answers whether there were any.
    #[tactic(auto, using(crate::proofs::Carrying::goes_sending, crate::proofs::Carrying::no_tick_sending))]
    fn send_out<R: Wait, P: Pick, G: Gate>(&mut self, rt: &R, post: &Post<'_, '_, '_, P, G>) -> bool
        requires pass { IsPassOf post.now.lock.now self.old.pass }
        ensures goes { CarriesOn B.tried B.given B.faults self.old self.new }
        ensures ticks { TicksNot self.old self.new }
        ensures stays { IsPassOf post.now.lock.now self.new.pass }
        ensures seat { self.new.pass.seat ≡ self.old.pass.seat }
    {
        let leaving = self.pass.outgoing(rt, post);
        let frames = leaving.frames();
        self.bearers.send_each(frames);
        !frames.is_empty()
    }
}

impl<B: Drop, C: Drop> Mover<B, C> {
    /// Mends bearer 0 and then bearer 1 at the node.
    #[tactic(auto, using(crate::proofs::Carrying::has_mended))]
    fn mend<R: Wait, P: Pick, G: Gate>(
        &mut self,
        rt: &R,
        post: &Post<'_, '_, '_, P, G>,
    ) -> Result<(), NoMemory>
        requires unused { IsUnusedPass post.now.lock.now self.old.pass.caller self.old.pass }
        ensures mended { OnOk result (HasMended self.old self.new) }
        ensures stays { IsPassOf post.now.lock.now self.new.pass }
        ensures few { DrawsFor 2 self.old.pass self.new.pass }
    {
        let _ = self.pass.perform(rt, post, EventNote::Mend { bearer: 0 })?;
        let _ = self.pass.perform(rt, post, EventNote::Mend { bearer: 1 })?;
        Ok(())
    }

    /// Gives pass and bearers back.
    fn end(self) -> Result<Moved<B>, NoMemory>
        ensures pass { IfOk result (λ moved. (moved.pass ≡ self.pass) × (self.pass.short ≡ false)) }
        ensures bearers { IfOk result (λ moved. (moved.first ≡ self.bearers.first) ×
            (moved.second ≡ self.bearers.second) × (moved.failed ≡ self.bearers.failed)) }
    {
        let Mover { pass, bearers, .. } = self;
        let Bearers {
            first,
            second,
            failed,
            ..
        } = bearers;
        let pass = pass.into_pass();
        if pass.is_short() {
            return Err(NoMemory);
        }
        Ok(Moved {
            pass,
            first,
            second,
            failed,
        })
    }
}

impl<B, C: Clock> Mover<B, C> {
    /// A mover whose bearers didn't fail, with the time of its clock.
    fn new<P, G>(
        post: &Post<'_, '_, '_, P, G>,
        pass: Pass,
        first: B,
        second: B,
        mut clock: C,
    ) -> Mover<B, C>
        ensures pass { result.pass ≡ pass }
        ensures bearers { (result.bearers.first ≡ first) × (result.bearers.second ≡ second) ×
            (result.bearers.failed ≡ false) }
        ensures told { C.last result.clock ≡ result.time }
    {
        let time = clock.now();
        let bearers = Bearers {
            first,
            second,
            frame: Vec::new(post.alloc),
            failed: false,
        };
        Mover {
            pass: Worker::new(post, pass, 0),
            bearers,
            clock,
            time,
        }
    }

    /// Lets a tick pass at the node where the clock went on.
    #[tactic(auto, using(crate::proofs::Carrying::ticks_still, crate::proofs::Carrying::ticks_onward, crate::proofs::Carrying::nothing_still, crate::proofs::Carrying::nothing_ticked))]
    fn tick<R: Wait, P: Pick, G: Gate>(
        &mut self,
        rt: &R,
        post: &Post<'_, '_, '_, P, G>,
    ) -> Result<(), NoMemory>
        requires pass { IsPassOf post.now.lock.now self.old.pass }
        requires left { MayDrawFor 1 self.old.pass }
        requires told { C.last self.old.clock ≡ self.old.time }
        ensures ticks { OnOk result (TicksOnce C.last self.old self.new) }
        ensures carries { OnOk result (CarriesNothing self.old self.new) }
        ensures stays { IsPassOf post.now.lock.now self.new.pass }
        ensures few { DrawsFor 1 self.old.pass self.new.pass }
    {
        let now = self.clock.now();
        if now <= self.time {
            return Ok(());
        }
        self.time = now;
        let _ = self.pass.perform(rt, post, EventNote::Tick)?;
        Ok(())
    }
}

impl<B: Bearer, C: Clock> Mover<B, C> {
    /// Takes a turn: hears what each bearer has, ticks where the clock went on, and sends what is to leave. Answers
    /// whether a frame came or left.
    #[tactic(auto, using(crate::proofs::Carrying::turn_goes, crate::proofs::Carrying::turn_ticks))]
    fn turn<R: Wait, P: Pick, G: Gate>(
        &mut self,
        rt: &R,
        post: &Post<'_, '_, '_, P, G>,
    ) -> Result<bool, NoMemory>
        requires pass { IsPassOf post.now.lock.now self.old.pass }
        requires left { MayDrawFor 3 self.old.pass }
        requires told { C.last self.old.clock ≡ self.old.time }
        ensures goes { OnOk result (CarriesOn B.tried B.given B.faults self.old self.new) }
        ensures ticks { OnOk result (TicksOnce C.last self.old self.new) }
        ensures stays { IsPassOf post.now.lock.now self.new.pass }
        ensures few { DrawsFor 3 self.old.pass self.new.pass }
    {
        let first = self.hear(rt, post, 0)?;
        let second = self.hear(rt, post, 1)?;
        self.tick(rt, post)?;
        let left = self.send_out(rt, post);
        Ok(first || second || left)
    }

    /// Takes its turns, until all callers have ended and some turns more. It yields its thread where no frame came or
    /// left.
    #[tactic(auto, using(crate::proofs::Carrying::goes_none, crate::proofs::Carrying::goes_then))]
    fn go_on<R: Wait, P: Pick, G: Gate>(
        &mut self,
        rt: &R,
        post: &Post<'_, '_, '_, P, G>,
    ) -> Result<(), NoMemory>
        requires pass { IsPassOf post.now.lock.now self.old.pass }
        requires left { MayDrawFor 3000000 self.old.pass }
        requires told { C.last self.old.clock ≡ self.old.time }
        ensures goes { OnOk result (CarriesOn B.tried B.given B.faults self.old self.new) }
    {
        let mut left = TURNS_BEHIND;
        for _ in 0..MOST_TURNS {
            if post.have_all_ended() {
                if left == 0 {
                    return Ok(());
                }
                left -= 1;
            }
            if !self.turn(rt, post)? {
                thread::yield_now();
            }
        }
        Ok(())
    }
}

/// Mends a node's bearers and carries frames between them and the node, until all callers have ended; then gives pass
/// and bearers back.
///
/// # Errors
///
/// Where memory ran out in one of its calls.
#[tactic(auto, using(crate::proofs::Carrying::unused_at, crate::proofs::Carrying::move_done))]
pub(crate) fn move_frames<R: Wait, P: Pick, G: Gate, B: Bearer + Drop, C: Clock + Drop>(
    rt: &R,
    post: &Post<'_, '_, '_, P, G>,
    pass: Pass,
    first: B,
    second: B,
    clock: C,
) -> Result<Moved<B>, NoMemory>
    requires unused { IsUnusedPass post.now.lock.now pass.caller pass }
    ensures { IfOk result (λ m. HasMoved B.tried B.given B.faults post.now.lock.now pass.caller first second m.pass
        m.failed m.first m.second) }
{
    let mut mover = Mover::new(post, pass, first, second, clock);
    mover.mend(rt, post)?;
    mover.go_on(rt, post)?;
    Ok(mover.end()?)
}
