//! What has counted recordings.
ghost use Rattle.std.specs.Prelude.{◌≡◌};
ghost use Rattle.metric_seat.specs.Settlements.{Numbers};

use metric_core::Cell;
use metric_history::Book;

/// What has counted the recordings of one instrument: its state, or several states that have them together.
pub trait Tally {
    // What it has counted.
    ghost numbers: { Self → Numbers };

    /// The least value that may be recorded.
    fn least(&self) -> i64
        ensures { result ≡ (numbers self.now).lo };

    /// How many recordings the recorder of a number has made.
    fn spent_by(&self, recorder: u32) -> u128
        ensures { result ≡ (numbers self.now).spent recorder };

    /// How many recordings were accepted.
    fn counted(&self) -> u64
        ensures { result ≡ (numbers self.now).count };

    /// The sum of all accepted values.
    fn summed(&self) -> i128
        ensures { result ≡ (numbers self.now).total };
}

impl<B: Book> Tally for Cell<B> {
    ghost use Rattle.metric_seat.specs.Settlements.{numbers_of};

    ghost numbers = { λ cell. numbers_of cell };

    fn least(&self) -> i64 {
        self.lo()
    }

    fn spent_by(&self, recorder: u32) -> u128 {
        u128::from(self.spent(recorder))
    }

    fn counted(&self) -> u64 {
        self.count()
    }

    fn summed(&self) -> i128 {
        self.sum()
    }
}
