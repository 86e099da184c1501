//! An exporter that keeps its batches in memory.
ghost use Rattle.std.specs.Prelude.{◌≡◌, [], Some};
ghost use Rattle.std.specs.Io.KnownBytes.{Keeps};
ghost use Rattle.metric_export.specs.Keepings.{KeepsBatch, OnlyFlushed, OnlyShutDown};
ghost use Rattle.metric_export.specs.States.{Answers, GoesOn};

use crate::belonging::own_plan;
use crate::copies::push_copy;
use crate::exporter::MetricExporter;
use crate::fault::ExportFault;
use crate::state::ExporterState;
use metric_history::Batch;
use metric_plan::Plan;
use std::alloc::Global;
use std::marker::Model;

/// An exporter that keeps a copy of each batch in memory, for tests of a service (Metrics SDK, in-memory exporter). It
/// writes nothing, and a batch is refused only when out of memory, after a shutdown, or if it is of another plan.
/// Contracts see the batches, in order, and its state.
///
/// A [`ListTicker`](crate::ListTicker) is the ticker by hand that goes with it.
#[derive(Drop)]
pub struct KeepingExporter {
    batches: Vec<Batch>,
    state: ExporterState,
}

impl Model for KeepingExporter {
    ghost use Rattle.metric_export.specs.Keepings.{KeepingValue};

    ghost Value = { KeepingValue };

    ghost view = { λ e. record { batches = e.batches.items; state = e.state } };
}

impl KeepingExporter {
    /// An exporter that keeps no batch yet.
    pub fn new(alloc: Global) -> KeepingExporter
        ensures { result ≡ record { batches = []; state = ExporterState.Open } }
    {
        KeepingExporter {
            batches: Vec::new(alloc),
            state: ExporterState::Open,
        }
    }

    /// The batches, in order.
    pub fn batches(&self) -> &[Batch]
        ensures { result.now ≡ self.now.batches }
    {
        &self.batches
    }

    /// The batches, in order.
    pub fn into_batches(self) -> Vec<Batch>
        ensures { result.items ≡ self.batches }
    {
        let KeepingExporter { batches, state: _ } = self;
        batches
    }
}

impl MetricExporter for KeepingExporter {
    ghost text = { λ _ _ _. [] };

    ghost contents = { λ _. Some [] };

    ghost failures = { λ _. 0 };

    ghost state = { λ e. e.state };

    ghost export_gives = { KeepsBatch };

    ghost flush_gives = { OnlyFlushed };

    ghost shutdown_gives = { OnlyShutDown };

    fn takes(&self, _plan: u64, _reader: u32) -> bool {
        true
    }

    fn export(&mut self, alloc: Global, plan: &Plan, batch: &Batch) -> Result<(), ExportFault> {
        self.state.admit()?;
        own_plan(plan, batch)?;
        if push_copy(alloc, &mut self.batches, batch) {
            Ok(())
        } else {
            Err(ExportFault::Memory)
        }
    }

    fn force_flush(&mut self) -> Result<(), ExportFault> {
        self.state.admit()
    }

    fn retry(&mut self, _alloc: Global, _plan: &Plan) -> Result<(), ExportFault> {
        Ok(())
    }

    fn shutdown(&mut self) -> Result<(), ExportFault> {
        let answer = self.state.admit();
        self.state = ExporterState::ShutDown;
        answer
    }
}
