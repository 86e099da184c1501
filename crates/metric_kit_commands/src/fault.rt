//! Why a command stops.
ghost use Rattle.std.specs.Prelude.{◌≡◌};
ghost use Rattle.metric_kit_commands.specs.Faults.{status_of};

use metric_audit::AuditFault;
use metric_catalogue::CatalogueFault;
use metric_cert::CertFault;
use metric_check::ClaimFault;
use metric_io::{Broken, ReadFault};
use metric_make::MakeFault;
use metric_parts::InputFault;
use metric_seat::FinishFault;
use metric_setup::SetupFault;
use metric_views::ViewFault;
use std::alloc::{AllocError, Global};
use thiserror::Error;

/// Why a command stops. A fault is the first, in the order of the format, that the input has; the line that
/// it prints is the one that goes to standard error.
#[derive(Clone, Copy, Debug, PartialEq, Eq, Drop, Error)]
pub enum KitFault {
    /// The source failed, or the input passes a limit.
    #[error("refused: input")]
    Read,
    /// A line of the input is not of the format.
    #[error("refused: input line {line}")]
    Input {
        /// The line's number, counted from 1.
        line: u64,
    },
    /// The catalogue is none.
    #[error("refused: catalogue {0}")]
    Catalogue(CatalogueFault),
    /// The config is none.
    #[error("refused: config {0}")]
    Config(ViewFault),
    /// The certificate is none.
    #[error("refused: certificate {0}")]
    Certificate(CertFault),
    /// There is no plan of the catalogue and the config: the certificate does not show that they are safe, or
    /// the budgets of a trial cannot be counted.
    #[error("refused: check {0}")]
    Check(ClaimFault),
    /// The catalogue and the config are not safe, so there is no certificate.
    #[error("refused: make {0}")]
    Make(MakeFault),
    /// The journal of an instrument does not agree with its slips and batches. It never comes: what runs gives
    /// agrees.
    #[error("refused: audit {0}")]
    Audit(AuditFault),
    /// What the recorders were told could not be settled.
    #[error("refused: finish {0}")]
    Finish(FinishFault),
    /// The sink failed, or took nothing of something.
    #[error("refused: write")]
    Write,
    /// Out of memory.
    #[error("refused: memory")]
    Memory,
}

impl KitFault {
    /// The exit status of a program that stops with the fault.
    pub fn status(&self) -> u8
        ensures { result ≡ status_of self.now }
    {
        match self {
            KitFault::Catalogue(_)
            | KitFault::Config(_)
            | KitFault::Certificate(_)
            | KitFault::Check(_)
            | KitFault::Make(_)
            | KitFault::Audit(_)
            | KitFault::Finish(_) => 1,
            KitFault::Read | KitFault::Input { .. } => 3,
            KitFault::Memory => 4,
            KitFault::Write => 5,
        }
    }

    /// The line that tells the fault, without its end. Fails only when out of memory.
    pub fn line(&self, alloc: Global) -> Result<String, AllocError> {
        self.to_string(alloc)
    }
}

impl From<AllocError> for KitFault {
    ghost use Rattle.metric_kit_commands.specs.declared.fault.KitFault.TheVariants.{Memory};

    ghost from_gives = { λ _ fault. fault ≡ Memory };

    fn from(_refused: AllocError) -> KitFault {
        KitFault::Memory
    }
}

impl From<Broken> for KitFault {
    ghost use Rattle.metric_kit_commands.specs.declared.fault.KitFault.TheVariants.{Write};

    ghost from_gives = { λ _ fault. fault ≡ Write };

    fn from(_broken: Broken) -> KitFault {
        KitFault::Write
    }
}

impl From<ReadFault> for KitFault {
    ghost use Rattle.metric_kit_commands.specs.Faults.{from_read};

    ghost from_gives = { λ fault kit. kit ≡ from_read fault };

    fn from(fault: ReadFault) -> KitFault {
        match fault {
            ReadFault::Read => KitFault::Read,
            ReadFault::Memory => KitFault::Memory,
        }
    }
}

impl From<InputFault> for KitFault {
    ghost use Rattle.metric_kit_commands.specs.Faults.{from_input};

    ghost from_gives = { λ fault kit. kit ≡ from_input fault };

    fn from(fault: InputFault) -> KitFault {
        match fault {
            InputFault::Input { line } => KitFault::Input { line },
            InputFault::Memory => KitFault::Memory,
        }
    }
}

impl From<SetupFault> for KitFault {
    ghost use Rattle.metric_kit_commands.specs.Faults.{from_setup};

    ghost from_gives = { λ fault kit. kit ≡ from_setup fault };

    fn from(fault: SetupFault) -> KitFault {
        match fault {
            SetupFault::Catalogue(fault) => KitFault::Catalogue(fault),
            SetupFault::Config(fault) => KitFault::Config(fault),
            SetupFault::Certificate(fault) => KitFault::Certificate(fault),
            SetupFault::Check(fault) => KitFault::Check(fault),
            SetupFault::Unsafe(fault) => KitFault::Make(fault),
            SetupFault::Memory => KitFault::Memory,
        }
    }
}

impl From<AuditFault> for KitFault {
    ghost use Rattle.metric_kit_commands.specs.Faults.{from_audit};

    ghost from_gives = { λ fault kit. kit ≡ from_audit fault };

    fn from(fault: AuditFault) -> KitFault {
        match fault {
            AuditFault::Slips { .. } | AuditFault::Entry { .. } | AuditFault::Batch { .. } => {
                KitFault::Audit(fault)
            }
            AuditFault::Memory => KitFault::Memory,
        }
    }
}
