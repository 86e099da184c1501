//! What tells the room for recordings.
ghost use Rattle.std.specs.Prelude.{ℕ, Result};
ghost use Rattle.metric_contents.specs.declared.refusal.Refusal.{Refusal as refusals};
ghost use Rattle.metric_handles.specs.declared.jobs.Need.{Need as needs};

use crate::jobs::Need;
use metric_contents::Refusal;
use metric_history::Book;
use metric_provider::{Gate, Provider, Recorder};
use std::sync::Wait;

/// What tells the room for recordings. As a trait, so that what asks for room cannot but ask it.
pub(crate) trait Rooms {
    // What an answer comes to.
    ghost tells: { Self → needs → Result ℕ refusals → Type 0 };

    /// How many recordings may still be made on the instrument of a need.
    fn room(&self, need: &Need) -> Result<u64, Refusal>
        ensures { tells self.now need.now result };
}

/// A recorder of a provider.
#[derive(Drop)]
pub(crate) struct RoomsOf<'a, R, B: Book, G: Gate> {
    pub recorder: &'a Recorder,
    pub rt: &'a R,
    pub provider: &'a Provider<B, G>,
}

impl<R: Wait, B: Book, G: Gate> Rooms for RoomsOf<'_, R, B, G> {
    ghost use Rattle.metric_handles.specs.Jobs.{TellsNeed};

    ghost tells = { λ rooms need result.
        TellsNeed rooms.provider.now rooms.recorder.now need result };

    fn room(&self, need: &Need) -> Result<u64, Refusal> {
        if need.plan != self.provider.plan().fingerprint() {
            return Err(Refusal::Stranger);
        }
        self.recorder.room(self.rt, self.provider, need.instrument)
    }
}
