//! Frames on their way out of a node.

ghost use Rattle.std.specs.Prelude.{◌≡◌, ◌∷◌, ◌++◌, [], true, drop, take};
ghost use Rattle.tipc_outside.specs.Frames.{is_lost, leaves_first, frames_leaving, made_as, no_frames, Adds, AddsFirst, Gains, Made};

use std::alloc::Global;
use std::marker::Model;
use tipc_types::{Bytes, To};

/// A frame that goes out.
#[derive(Clone, Debug, Drop, PartialEq)]
pub struct Outgoing {
    /// The bearer, 0 or 1.
    pub bearer: u8,
    /// Whom it is for.
    pub to: To,
    /// Its bytes: the envelope and one packet.
    pub frame: Bytes,
}

/// What a frame is to the event that sends it. Frames of link states and repeated packets leave first, as they are
/// made, and all others behind them. (This project's profile.)
#[derive(Clone, Copy, Debug, PartialEq, Eq)]
pub enum Class {
    /// A RESET, an ACTIVATE, or a discovery packet.
    Notice,
    /// A STATE that a link's states ask for.
    State,
    /// A packet that is sent again.
    Repeated,
    /// A packet that is numbered in the event.
    Numbered,
    /// A broadcast packet, a new one or one that is sent again.
    Broadcast,
    /// The STATE that answers an arrival.
    Answer,
}

impl Class {
    /// Whether frames of this class leave before those of the other ones.
    fn leaves_first(self) -> bool
        ensures { result ≡ leaves_first self }
    {
        match self {
            Class::Notice => true,
            Class::State => true,
            Class::Repeated => true,
            Class::Numbered => false,
            Class::Broadcast => false,
            Class::Answer => false,
        }
    }
}

/// The frames of an event, or of several one after the other. Each is put in by its class, and they are parted when
/// they leave: those that leave first, in the order in which they were put, and behind them the others in theirs. A
/// frame that finds no memory is lost, and so is each that would leave behind it.
#[derive(Debug, Drop)]
pub struct Outbox {
    /// Those that leave first, and behind them the others.
    frames: Vec<Outgoing>,
    /// How many leave first.
    first: usize,
    /// Whether one of those that leave first was lost.
    first_lost: bool,
    /// Whether one of the others was lost.
    lost: bool,
}

impl Model for Outbox {
    ghost use Rattle.std.specs.Prelude.{◌≤◌, drop, take, vec_len};
    ghost use Rattle.tipc_outside.specs.Frames.{Out};

    ghost Value = { Out };

    ghost view = { λ o. record {
      first = record { frames = take o.first o.frames.items; lost = o.first_lost };
      behind = record { frames = drop o.first o.frames.items; lost = o.lost };
    } };

    ghost invariant = { λ o. o.first ≤ vec_len o.frames };
}

impl Outbox {
    /// A box with no frame.
    pub fn new(alloc: Global) -> Outbox
        ensures { result ≡ no_frames }
    {
        Outbox {
            frames: Vec::new(alloc),
            first: 0,
            first_lost: false,
            lost: false,
        }
    }

    /// Puts a frame last. Where that finds no memory, or a frame was lost before, it is lost.
    #[tactic(auto, using(crate::proofs::Boxes::put_last, crate::proofs::Boxes::lose_last))]
    pub fn push(&mut self, bearer: u8, to: To, frame: Bytes)
        ensures { Adds self.old self.new (record { bearer = bearer; to = to; frame = frame } ∷ []) }
    {
        if self.lost() {
            self.lost = true;
            return;
        }
        let Ok(()) = self.frames.push(Outgoing { bearer, to, frame }) else {
            self.lost = true;
            return;
        };
    }

    /// Puts a frame behind those that leave first. Where that finds no memory, or one of those was lost before, it is
    /// lost.
    #[tactic(auto, using(crate::proofs::Boxes::put_first, crate::proofs::Boxes::lose_first))]
    fn push_first(&mut self, bearer: u8, to: To, frame: Bytes)
        ensures { AddsFirst self.old self.new (record { bearer = bearer; to = to; frame = frame } ∷ []) }
    {
        if self.first_lost {
            return;
        }
        let Ok(()) = self
            .frames
            .insert(self.first, Outgoing { bearer, to, frame })
        else {
            self.first_lost = true;
            return;
        };
        self.first += 1;
    }

    /// Puts a frame of this class behind those that leave before it.
    #[tactic(auto, using(crate::proofs::Boxes::first_as, crate::proofs::Boxes::behind_as))]
    pub fn put(&mut self, class: Class, bearer: u8, to: To, frame: Bytes)
        ensures { Gains self.old self.new
            (made_as class (record { bearer = bearer; to = to; frame = frame } ∷ [])) }
    {
        if class.leaves_first() {
            self.push_first(bearer, to, frame);
        } else {
            self.push(bearer, to, frame);
        }
    }

    /// Tells that a frame of this class couldn't be made for want of memory.
    #[tactic(auto, using(crate::proofs::Boxes::first_as, crate::proofs::Boxes::behind_as, crate::proofs::Boxes::lose_first, crate::proofs::Boxes::lose_last))]
    pub fn lose(&mut self, class: Class)
        ensures { (frame : Outgoing) → Gains self.old self.new (made_as class (frame ∷ [])) }
    {
        if class.leaves_first() {
            self.first_lost = true;
        } else {
            self.lost = true;
        }
    }

    /// Tells that a frame that was to leave last couldn't be made for want of memory.
    pub fn mark_lost(&mut self)
        ensures { self.new ≡ record self.old { behind = record self.old.behind { lost = true } } }
    {
        self.lost = true;
    }

    /// Whether a frame was lost for want of memory.
    pub fn lost(&self) -> bool
        ensures { result ≡ is_lost self.now }
    {
        self.first_lost || self.lost
    }

    /// Gives the frames away, in the order in which they leave.
    pub fn into_frames(self) -> Vec<Outgoing>
        ensures { result.items ≡ frames_leaving self }
    {
        let mut frames = self.frames;
        if self.first_lost {
            frames.truncate(self.first);
        }
        frames
    }

    /// The frames, in the order in which they leave.
    pub fn frames(&self) -> &[Outgoing]
        ensures { result.now ≡ frames_leaving self.now }
    {
        if self.first_lost {
            &self.frames[..self.first]
        } else {
            self.frames.as_slice()
        }
    }

    /// Whether nothing was put into it, and nothing lost.
    fn is_untouched(&self) -> bool
        ensures { result ≡ true → self.now ≡ no_frames }
    {
        self.frames.is_empty() && !self.first_lost && !self.lost
    }

    /// Puts the frames of another box of the same event among those of this one: those that leave first, and those
    /// behind them, each behind those that are there.
    #[tactic(auto, using(crate::proofs::Boxes::merged, crate::proofs::Boxes::replaced))]
    pub fn merge(&mut self, event: Outbox)
        ensures { (made : Made) → Gains no_frames event made → Gains self.old self.new made }
    {
        if self.is_untouched() {
            *self = event;
            return;
        }
        let Outbox {
            frames,
            first,
            first_lost,
            lost,
        } = event;
        self.put_all(first, frames);
        self.first_lost = self.first_lost || first_lost;
        self.lost = self.lost || lost;
    }

    /// Puts frames into it, of which so many leave first.
    #[tactic(auto, using(crate::proofs::Boxes::merging_done))]
    fn put_all(&mut self, first: usize, frames: Vec<Outgoing>)
        ensures { Gains self.old self.new
            (record { first = take first frames.items; behind = drop first frames.items }) }
    {
        let mut left = first;
        for frame in frames {
            if left > 0 {
                left -= 1;
                self.push_first(frame.bearer, frame.to, frame.frame);
            } else {
                self.push(frame.bearer, frame.to, frame.frame);
            }
        }
    }

    /// Puts the frames of an event that ended behind those of this box, as they leave: here they are parted, and stand
    /// one behind the other from then on.
    #[tactic(auto, using(crate::proofs::Boxes::sent_whole, crate::proofs::Boxes::sent_lost))]
    pub fn append(&mut self, event: Outbox)
        ensures { (made : Made) → Gains no_frames event made → Adds self.old self.new (made.first ++ made.behind) }
    {
        let lost = event.lost();
        self.push_all(event.into_frames());
        if lost {
            self.mark_lost();
        }
    }

    /// Puts frames last, in order.
    fn push_all(&mut self, frames: Vec<Outgoing>)
        ensures { Adds self.old self.new frames.items }
    {
        for frame in frames {
            self.push(frame.bearer, frame.to, frame.frame);
        }
    }
}
