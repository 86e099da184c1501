//! What an exporter may still show of each instrument.
ghost use Rattle.std.specs.Prelude.{◌≡◌, ◌∷◌, [], map};
ghost use Rattle.metric_periodic.specs.Shown.{Notes, in_next_run, is_told};

use metric_export::has_points;
use metric_history::Batch;

/// What an exporter may still show of an instrument, by what an outlet handed on.
#[derive(Clone, Copy, Drop)]
pub struct Shown {
    /// Whether points of the run that is going.
    pub this_run: bool,
    /// Whether points of a run that has ended.
    pub ended_run: bool,
}

/// Whether a batch is handed on: it has points, or takes the place of those of an ended run.
pub(crate) fn is_told(shown: &[Shown], batch: &Batch) -> bool
    ensures { result ≡ is_told shown.now batch.now }
{
    has_points(batch)
        || shown
            .get(batch.instrument as usize)
            .is_some_and(|one| one.ended_run)
}

/// Notes that a batch was handed on, and whether one of its collection was refused.
pub(crate) fn note_one(shown: &mut Vec<Shown>, batch: &Batch, is_refused: bool)
    ensures { Notes is_refused (batch.now ∷ []) shown.old.items shown.new.items }
{
    if let Some(one) = shown.get_mut(batch.instrument as usize) {
        one.this_run |= has_points(batch);
        one.ended_run &= is_refused;
    }
}

/// Notes that the next run begins.
pub(crate) fn begin(shown: &mut [Shown])
    ensures { shown.new ≡ map in_next_run shown.old }
{
    for one in shown.iter_mut() {
        *one = in_next_run(*one);
    }
}

fn in_next_run(shown: Shown) -> Shown
    ensures { result ≡ in_next_run shown }
{
    Shown {
        this_run: false,
        ended_run: shown.this_run || shown.ended_run,
    }
}
