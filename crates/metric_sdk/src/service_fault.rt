//! One error for the calls of a service.
use metric_catalogue::Catalogue;
use metric_check::ClaimFault;
use metric_contents::Refusal;
use metric_export::ExportFault;
use metric_history::Book;
use metric_plan::{CheckFault, Plan};
use metric_provider::{
    AllFault, Collector, FinishFault, Gate, Provider, Recorder, RollFault, SetsFault,
};
use metric_setup::SetupFault;
use metric_views::Config;
use std::alloc::AllocError;
use thiserror::Error;

/// Why a call of a service failed. `?` makes it of every fault of a call that hands things back beside its fault, and
/// of the plain faults; what was handed back is let go, so where it is to be kept, look into the error first.
#[derive(Clone, Copy, Debug, PartialEq, Eq, Drop, Error)]
pub enum ServiceFault {
    /// Two texts, or three, do not give a certified plan.
    #[error("{0}")]
    Setup(SetupFault),
    /// A certificate does not show that a catalogue and a config are safe.
    #[error("check {0}")]
    Check(ClaimFault),
    /// A recording, a grant or the collection of one instrument was refused.
    #[error("refused: {0}")]
    Refused(Refusal),
    /// A recording of a list was refused, at this place.
    #[error("refused at {0}: {1}")]
    RefusedAt(usize, Refusal),
    /// The collection of all instruments was refused, at the instrument of this number.
    #[error("collection of instrument {0} refused: {1}")]
    Uncollected(u32, Refusal),
    /// An exporter did not take a batch, or could not be shut down.
    #[error("export {0}")]
    Export(ExportFault),
    /// A provider was not finished.
    #[error("finish {0}")]
    Finish(FinishFault),
    /// A provider did not roll over.
    #[error("roll over: {0}")]
    Roll(RollFault),
    /// Out of memory.
    #[error("memory")]
    Memory,
}

impl From<SetupFault> for ServiceFault {
    ghost use Rattle.std.specs.Prelude.{◌≡◌};
    ghost use Rattle.metric_sdk.specs.declared.service_fault.ServiceFault.TheVariants.{Setup};

    ghost from_gives = { λ cause fault. fault ≡ Setup cause };

    fn from(cause: SetupFault) -> ServiceFault {
        ServiceFault::Setup(cause)
    }
}

impl From<Refusal> for ServiceFault {
    ghost use Rattle.std.specs.Prelude.{◌≡◌};
    ghost use Rattle.metric_sdk.specs.declared.service_fault.ServiceFault.TheVariants.{Refused};

    ghost from_gives = { λ cause fault. fault ≡ Refused cause };

    fn from(cause: Refusal) -> ServiceFault {
        ServiceFault::Refused(cause)
    }
}

impl From<SetsFault> for ServiceFault {
    ghost use Rattle.std.specs.Prelude.{◌≡◌};
    ghost use Rattle.metric_sdk.specs.declared.service_fault.ServiceFault.TheVariants.{RefusedAt};

    ghost from_gives = { λ cause fault. fault ≡ RefusedAt cause.place cause.refusal };

    fn from(cause: SetsFault) -> ServiceFault {
        ServiceFault::RefusedAt(cause.place, cause.refusal)
    }
}

impl From<AllFault> for ServiceFault {
    ghost use Rattle.std.specs.Prelude.{◌≡◌};
    ghost use Rattle.metric_sdk.specs.declared.service_fault.ServiceFault.TheVariants.{Uncollected};

    ghost from_gives = { λ cause fault. fault ≡ Uncollected cause.instrument cause.refusal };

    fn from(cause: AllFault) -> ServiceFault {
        ServiceFault::Uncollected(cause.instrument, cause.refusal)
    }
}

impl From<ExportFault> for ServiceFault {
    ghost use Rattle.std.specs.Prelude.{◌≡◌};
    ghost use Rattle.metric_sdk.specs.declared.service_fault.ServiceFault.TheVariants.{Export};

    ghost from_gives = { λ cause fault. fault ≡ Export cause };

    fn from(cause: ExportFault) -> ServiceFault {
        ServiceFault::Export(cause)
    }
}

impl From<AllocError> for ServiceFault {
    ghost use Rattle.std.specs.Prelude.{◌≡◌};
    ghost use Rattle.metric_sdk.specs.declared.service_fault.ServiceFault.TheVariants.{Memory};

    ghost from_gives = { λ _ fault. fault ≡ Memory };

    fn from(_refused: AllocError) -> ServiceFault {
        ServiceFault::Memory
    }
}

impl From<(Collector, AllFault)> for ServiceFault {
    ghost use Rattle.std.specs.Prelude.{◌≡◌};
    ghost use Rattle.metric_sdk.specs.declared.service_fault.ServiceFault.TheVariants.{Uncollected};

    ghost from_gives = { λ left fault. fault ≡ Uncollected left.1.instrument left.1.refusal };

    fn from(left: (Collector, AllFault)) -> ServiceFault {
        ServiceFault::from(left.1)
    }
}

impl From<(Catalogue, Config, ClaimFault)> for ServiceFault {
    ghost use Rattle.std.specs.Prelude.{◌≡◌};
    ghost use Rattle.metric_sdk.specs.declared.service_fault.ServiceFault.TheVariants.{Check};

    ghost from_gives = { λ left fault. fault ≡ Check left.2 };

    fn from(left: (Catalogue, Config, ClaimFault)) -> ServiceFault {
        ServiceFault::Check(left.2)
    }
}

impl From<(Catalogue, Config, CheckFault)> for ServiceFault {
    ghost use Rattle.std.specs.Prelude.{◌≡◌};
    ghost use Rattle.metric_check.specs.Findings.{of_none};
    ghost use Rattle.metric_sdk.specs.declared.service_fault.ServiceFault.TheVariants.{Check};

    ghost from_gives = { λ left fault. fault ≡ Check (of_none left.2) };

    fn from(left: (Catalogue, Config, CheckFault)) -> ServiceFault {
        ServiceFault::Check(ClaimFault::of_none(left.2))
    }
}

impl<G: Gate> From<(Plan, G, AllocError)> for ServiceFault {
    ghost use Rattle.std.specs.Prelude.{◌≡◌};
    ghost use Rattle.metric_sdk.specs.declared.service_fault.ServiceFault.TheVariants.{Memory};

    ghost from_gives = { λ _ fault. fault ≡ Memory };

    fn from(_left: (Plan, G, AllocError)) -> ServiceFault {
        ServiceFault::Memory
    }
}

impl<B: Book, G: Gate> From<(Provider<B, G>, Vec<Recorder>, FinishFault)> for ServiceFault {
    ghost use Rattle.std.specs.Prelude.{◌≡◌};
    ghost use Rattle.metric_sdk.specs.declared.service_fault.ServiceFault.TheVariants.{Finish};

    ghost from_gives = { λ left fault. fault ≡ Finish left.2 };

    fn from(left: (Provider<B, G>, Vec<Recorder>, FinishFault)) -> ServiceFault {
        ServiceFault::Finish(left.2)
    }
}

impl<B: Book, G: Gate> From<(Provider<B, G>, Vec<Recorder>, RollFault)> for ServiceFault {
    ghost use Rattle.std.specs.Prelude.{◌≡◌};
    ghost use Rattle.metric_sdk.specs.declared.service_fault.ServiceFault.TheVariants.{Roll};

    ghost from_gives = { λ left fault. fault ≡ Roll left.2 };

    fn from(left: (Provider<B, G>, Vec<Recorder>, RollFault)) -> ServiceFault {
        ServiceFault::Roll(left.2)
    }
}
