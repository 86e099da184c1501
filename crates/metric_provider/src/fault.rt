//! Why a collection of all instruments ends early, and why a provider does not go over into the next run.

use metric_contents::Refusal;
use metric_history::Batch;
use metric_seat::FinishFault;
use std::fmt;

/// Where a collection of all instruments ended, and the batches of the instruments before.
#[derive(Drop)]
pub struct AllFault {
    /// A batch of each instrument before the one that refused, in order.
    pub done: Vec<Batch>,
    /// The number of the instrument that refused, 0 when out of memory for the list.
    pub instrument: u32,
    /// Why.
    pub refusal: Refusal,
}

impl fmt::Display for AllFault {
    ghost use Rattle.std.specs.Prelude.{Some, codes};
    ghost use Rattle.metric_seat.specs.Faults.{refused_text};

    ghost output = { λ fault.
        Some (refused_text (codes "instrument ") fault.instrument fault.refusal) };

    fn fmt<W: fmt::Write>(&self, f: &mut fmt::Formatter<W>) -> fmt::Result {
        let instrument = self.instrument;
        let refusal = self.refusal;
        write!(f, "instrument {instrument}: {refusal}")
    }
}

impl fmt::Debug for AllFault {
    fn fmt<W: fmt::Write>(&self, f: &mut fmt::Formatter<W>) -> fmt::Result {
        write!(f, "{self}")
    }
}

impl std::error::Error for AllFault {}

/// Why a provider does not go over into the next run of its plan, in the order in which the faults are tried.
#[derive(Clone, Copy, Debug, PartialEq, Eq, Drop)]
pub enum RollFault {
    /// The next run was to have the number of this one, by which their seats are told apart.
    SameRun,
    /// The next run was to start before this time in nanoseconds, the greatest of a reader's last batch, or the start
    /// of this run before one: its windows would lie in those of this run.
    Early(u64),
    /// The provider is not finished, or memory ran out for the next one.
    Finish(FinishFault),
}

impl fmt::Display for RollFault {
    ghost use Rattle.std.specs.Prelude.{Some};
    ghost use Rattle.metric_provider.specs.Faults.{roll_fault_text};

    ghost output = { λ fault. Some (roll_fault_text fault) };

    fn fmt<W: fmt::Write>(&self, f: &mut fmt::Formatter<W>) -> fmt::Result {
        match self {
            RollFault::SameRun => f.write_str("the next run has the number of this one"),
            RollFault::Early(time) => {
                write!(
                    f,
                    "the next run starts before {time}, the last time of this one"
                )
            }
            RollFault::Finish(fault) => write!(f, "{fault}"),
        }
    }
}

impl std::error::Error for RollFault {}
