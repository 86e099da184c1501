//! Why a call of an exporter fails.
ghost use Rattle.std.specs.Prelude.{◌≡◌, Err};
ghost use Rattle.metric_export.specs.Exports.{is_taken};
ghost use Rattle.metric_export.specs.Faults.{name_of, number_of};

use metric_io::Broken;
use std::alloc::AllocError;
use std::fmt;

/// Why a call of an exporter fails.
#[derive(Clone, Copy, Debug, PartialEq, Eq, Drop)]
pub enum ExportFault {
    /// The device failed, or took nothing of something, in this call or an earlier one.
    Write,
    /// The exporter was shut down before.
    ShutDown,
    /// Out of memory. Nothing of the batch was written.
    Memory,
    /// The batch did not go out. The exporter keeps it, and tries it again later: who hands it in again exports it
    /// twice.
    Kept,
    /// The batch, or one that the exporter keeps, is of another plan than the call's. Nothing was changed.
    OtherPlan,
    /// The batch, or one that the exporter keeps, is of a reader whose batches the exporter does not take. Nothing was
    /// changed.
    OtherReader,
}

impl ExportFault {
    /// Whether the exporter keeps the batch for which it answers this fault.
    pub fn is_kept(&self) -> bool
        ensures { result ≡ is_taken (Err self.now) }
    {
        match self {
            ExportFault::Kept => true,
            ExportFault::Write
            | ExportFault::ShutDown
            | ExportFault::Memory
            | ExportFault::OtherPlan
            | ExportFault::OtherReader => false,
        }
    }

    /// The fault's number in printed texts.
    pub fn number(&self) -> u8
        ensures { result ≡ number_of self.now }
    {
        match self {
            ExportFault::Write => 1,
            ExportFault::ShutDown => 2,
            ExportFault::Memory => 3,
            ExportFault::Kept => 4,
            ExportFault::OtherPlan => 5,
            ExportFault::OtherReader => 6,
        }
    }

    /// The fault's name in printed texts.
    pub fn name(&self) -> &'static str
        ensures { result.now ≡ name_of self.now }
    {
        match self {
            ExportFault::Write => "Write",
            ExportFault::ShutDown => "ShutDown",
            ExportFault::Memory => "Memory",
            ExportFault::Kept => "Kept",
            ExportFault::OtherPlan => "OtherPlan",
            ExportFault::OtherReader => "OtherReader",
        }
    }
}

impl fmt::Display for ExportFault {
    ghost use Rattle.std.specs.Prelude.{Some};
    ghost use Rattle.metric_export.specs.Faults.{export_fault_text};

    ghost output = { λ fault. Some (export_fault_text fault) };

    fn fmt<W: fmt::Write>(&self, f: &mut fmt::Formatter<W>) -> fmt::Result {
        write!(f, "{} {}", self.number(), self.name())
    }
}

impl std::error::Error for ExportFault {}

impl From<AllocError> for ExportFault {
    ghost use Rattle.metric_export.specs.declared.fault.ExportFault.TheVariants.{Memory};

    ghost from_gives = { λ _ fault. fault ≡ Memory };

    fn from(_refused: AllocError) -> ExportFault {
        ExportFault::Memory
    }
}

impl From<Broken> for ExportFault {
    ghost use Rattle.metric_export.specs.declared.fault.ExportFault.TheVariants.{Write};

    ghost from_gives = { λ _ fault. fault ≡ Write };

    fn from(_broken: Broken) -> ExportFault {
        ExportFault::Write
    }
}
