//! What a run is told from all others by.
ghost use Rattle.std.specs.Prelude.{◌≡◌};
ghost use Rattle.metric_seat.specs.Seats.{is_same_run, run_of};

use metric_plan::Plan;

/// What a run is told from all others by. Seats that were made for one serve no other.
#[derive(Clone, Copy, Debug, Drop)]
pub struct RunId {
    /// The fingerprint of its plan.
    pub plan: u64,
    /// The number that was given to it.
    pub number: u64,
    /// When it started, in nanoseconds.
    pub start: u64,
}

impl RunId {
    /// The run of a plan that has this number and started at this time in nanoseconds.
    pub fn of(plan: &Plan, number: u64, start: u64) -> RunId
        ensures { result ≡ run_of plan.now number start }
    {
        RunId {
            plan: plan.fingerprint(),
            number,
            start,
        }
    }

    /// Whether both are one run.
    #[inline(always)]
    pub fn is(&self, other: RunId) -> bool
        ensures { result ≡ is_same_run self.now other }
    {
        self.number == other.number && self.start == other.start && self.plan == other.plan
    }
}
