//! The seat of a reader, with what may still be shown of each instrument.
ghost use Rattle.std.specs.Prelude.{◌≡◌};
ghost use Rattle.metric_periodic.specs.Outlets.{AreRefused, CollectsTold, NotesHanded, next_showing};

use crate::collecting::collect_all;
use crate::each::{Collection, RefusedInstrument};
use crate::ended::Uncollected;
use crate::shown::{Shown, begin, is_told, note_one};
use metric_history::{Batch, Book};
use metric_provider::{Collector, Gate, Provider};
use std::alloc::Global;
use std::marker::Model;
use std::sync::Wait;

/// The seat of a reader, with what may still be shown of each instrument.
#[derive(Drop)]
pub(crate) struct Showing {
    pub seat: Collector,
    pub shown: Vec<Shown>,
}

impl Model for Showing {
    ghost use Rattle.metric_periodic.specs.Outlets.{Showing};

    ghost Value = { Showing };

    ghost view = { λ s. record { seat = s.seat; shown = s.shown.items } };
}

impl Showing {
    /// Collects each instrument once. The batches that are handed on, and what was refused.
    pub(crate) fn collect<R: Wait, B: Book, G: Gate>(
        &mut self,
        rt: &R,
        alloc: Global,
        provider: &Provider<B, G>,
        now: u64,
    ) -> (Vec<Batch>, Option<Uncollected>)
        ensures { CollectsTold provider.now now self.old self.new result.0.items result.1 }
    {
        let Ok(mut given) = collect_all(rt, alloc, provider, &mut self.seat, now) else {
            return (Vec::new(alloc), Some(Uncollected::All));
        };
        let shown = self.shown.as_slice();
        given.batches.retain(|batch| is_told(shown, batch));
        let Collection { batches, refused } = given;
        (batches, uncollected(refused))
    }

    /// Notes that these batches were handed on, and whether one was refused.
    pub(crate) fn note(&mut self, batches: &[Batch], is_refused: bool)
        ensures { NotesHanded is_refused batches.now self.old self.new }
    {
        for batch in batches {
            note_one(&mut self.shown, batch, is_refused);
        }
    }

    /// Goes on with the seat of the next run.
    pub(crate) fn begin(&mut self, seat: Collector)
        ensures { self.new ≡ next_showing self.old seat }
    {
        self.seat = seat;
        begin(&mut self.shown);
    }
}

// What was refused to a collection: these instruments, or nothing if there are none.
fn uncollected(refused: Vec<RefusedInstrument>) -> Option<Uncollected>
    ensures { AreRefused refused.items result }
{
    if refused.is_empty() {
        None
    } else {
        Some(Uncollected::Instruments(refused))
    }
}
