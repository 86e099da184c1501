//! The numbers of runs.
ghost use Rattle.std.specs.Prelude.{◌≡◌, ℕ};
ghost use Rattle.metric_io.specs.Counts.{next_count};

use std::marker::Model;

/// Numbers for runs. Seats of two providers of one plan that started at one moment are told apart by their number
/// alone, so a process makes one `Runs`, with which [`open`](crate::open) opens each provider, and takes the number of
/// each roll-over from it: 1, 2, 3 and so on. That they rise by one is proved; that a process has but one `Runs` is up
/// to the process, and where it has two, seats of another plan or another start are strangers still. 2^64 - 1 is given
/// again after it was given; no process gets there, and [`Provider::roll_over`](crate::Provider::roll_over) refuses the
/// number of the run that is going.
///
/// Contracts see the number that was given last, 0 before the first.
#[derive(Debug, Drop)]
pub struct Runs {
    last: u64,
}

impl Model for Runs {
    ghost Value = { ℕ };

    ghost view = { λ runs. runs.last };
}

impl Runs {
    /// No number has been given yet.
    pub fn new() -> Runs
        ensures { result ≡ 0 }
    {
        Runs { last: 0 }
    }

    // The number that is given next.
    pub(crate) fn coming(&self) -> u64
        ensures { result ≡ next_count self.now }
    {
        self.last.saturating_add(1)
    }

    /// The number of the next run.
    pub fn next(&mut self) -> u64
        ensures number { result ≡ next_count self.old }
        ensures given { self.new ≡ result }
    {
        self.last = self.coming();
        self.last
    }
}
