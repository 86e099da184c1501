//! Why a table does not take a value.
use metric_contents::Refusal;
use std::alloc::AllocError;

/// Why a table does not take a value. The table is then as it was.
#[derive(Clone, Copy, Debug, PartialEq, Eq, Drop)]
pub enum SeriesFault {
    /// The sum or the count of the series into which the value falls would leave its range.
    SumRange,
    /// Out of memory.
    Memory,
}

impl From<AllocError> for SeriesFault {
    ghost use Rattle.std.specs.Prelude.{◌≡◌};
    ghost use Rattle.metric_series.specs.declared.fault.SeriesFault.TheVariants.{Memory};

    ghost from_gives = { λ _ fault. fault ≡ Memory };

    fn from(_refused: AllocError) -> SeriesFault {
        SeriesFault::Memory
    }
}

impl From<SeriesFault> for Refusal {
    ghost use Rattle.std.specs.Prelude.{◌≡◌};
    ghost use Rattle.metric_series.specs.Calls.{refusal_of};

    ghost from_gives = { λ fault refusal. refusal ≡ refusal_of fault };

    fn from(fault: SeriesFault) -> Refusal {
        match fault {
            SeriesFault::SumRange => Refusal::SumRange,
            SeriesFault::Memory => Refusal::Memory,
        }
    }
}
