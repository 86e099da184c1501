//! What a reader has seen.
ghost use Rattle.std.specs.Prelude.{◌≡◌};
ghost use Rattle.metric_slot.specs.Sightings.{nothing_seen, seen_of};

use metric_history::Batch;

/// What a reader has seen of one instrument: its last batch.
#[derive(Clone, Copy, Debug, PartialEq, Eq, Drop)]
pub struct Seen {
    /// How many recordings that batch counted; 0 before one.
    pub mark: u64,
    /// The time of that batch, in nanoseconds; when the run started, before one.
    pub time: u64,
}

impl Seen {
    /// Before the first batch of a run that started at a time in nanoseconds.
    pub fn nothing(start: u64) -> Seen
        ensures { result ≡ nothing_seen start }
    {
        Seen {
            mark: 0,
            time: start,
        }
    }

    /// After a batch.
    pub fn of(batch: &Batch) -> Seen
        ensures { result ≡ seen_of batch.now }
    {
        Seen {
            mark: batch.mark,
            time: batch.time,
        }
    }
}
