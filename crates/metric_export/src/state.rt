//! Whether an exporter still takes calls.
ghost use Rattle.std.specs.Prelude.{◌≡◌};
ghost use Rattle.metric_export.specs.States.{Admits, state_after};

use crate::fault::ExportFault;

/// Whether an exporter still takes calls.
#[derive(Clone, Copy, Debug, PartialEq, Eq, Drop)]
pub enum ExporterState {
    /// It takes calls.
    Open,
    /// Its device failed for good: each call answers [`ExportFault::Write`].
    Broken,
    /// It was shut down: each call answers [`ExportFault::ShutDown`].
    ShutDown,
}

impl ExporterState {
    /// Ok where an exporter in this state takes a call, and otherwise the fault that it answers.
    pub fn admit(self) -> Result<(), ExportFault>
        ensures { Admits self result }
    {
        match self {
            ExporterState::Open => Ok(()),
            ExporterState::Broken => Err(ExportFault::Write),
            ExporterState::ShutDown => Err(ExportFault::ShutDown),
        }
    }

    /// The state after a call with this answer, for an exporter that a fault of its device breaks.
    pub fn after(self, answer: &Result<(), ExportFault>) -> ExporterState
        ensures { result ≡ state_after self answer.now }
    {
        match answer {
            Err(ExportFault::Write) => ExporterState::Broken,
            _ => self,
        }
    }
}
