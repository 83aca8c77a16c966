//! What an event has told so far, and the frames that leave in it.

ghost use Rattle.std.specs.Prelude.{◌≡◌, ◌++◌, ◌∷◌, [], OnOk};
ghost use Rattle.tipc_outside.specs.Frames.{no_frames, Gains, Made};

use crate::transitions::{Transition, TransitionList};
use std::alloc::Global;
use std::marker::Model;
use tipc_outside::Outbox;
use tipc_types::NoMemory;

/// What an event has told so far, and its frames.
#[derive(Drop)]
pub(crate) struct Leaving {
    pub(crate) changes: TransitionList,
    pub(crate) out: Outbox,
}

impl Model for Leaving {
    ghost use Rattle.tipc_pair.specs.Courses.{LeavingState};

    ghost Value = { LeavingState };

    ghost view = { λ l. record { changes = l.changes; out = l.out } };
}

impl Leaving {
    /// Nothing was told, and no frame was made.
    pub(crate) fn new(alloc: Global) -> Leaving
        ensures changes { result.changes ≡ [] }
        ensures out { result.out ≡ no_frames }
    {
        Leaving {
            changes: TransitionList::new(alloc),
            out: Outbox::new(alloc),
        }
    }

    /// Tells one more transition.
    pub(crate) fn tell(&mut self, transition: Transition) -> Result<(), NoMemory>
        ensures { OnOk result (self.new ≡ record self.old { changes = self.old.changes ++ transition ∷ [] }) }
    {
        self.changes.push(transition)
    }

    /// Sends the frames, and gives what was told.
    pub(crate) fn leave(self, out: &mut Outbox) -> TransitionList
        ensures changes { result ≡ self.changes }
        ensures frames { (made : Made) → Gains no_frames self.out made → Gains out.old out.new made }
    {
        let Leaving {
            changes,
            out: frames,
        } = self;
        out.merge(frames);
        changes
    }
}
