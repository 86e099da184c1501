//! An exporter that fails as a test wants it.
ghost use Rattle.std.specs.Prelude.{◌≡◌, [], None};
ghost use Rattle.metric_export.specs.States.{GoesOn};
ghost use Rattle.metric_export.specs.declared.state.ExporterState.TheVariants.{ShutDown};

use metric_sdk::{Batch, CutSink, ExportFault, ExporterState, MetricExporter, Plan, own_plan};
use std::alloc::Global;

/// An exporter whose calls of these numbers, counted from 1, fail, that answers one of another number that the batch is
/// kept, and of which flushes fail or not. It keeps the time of each batch that it takes, with how many points the
/// first stream has.
#[derive(Drop)]
pub(crate) struct Failing {
    pub(crate) taken: Vec<(u64, usize)>,
    pub(crate) number: u64,
    fails_at: &'static [u64],
    keeps_at: u64,
    flushes: bool,
    failures: u64,
    state: ExporterState,
}

impl MetricExporter for Failing {
    ghost text = { λ _ _ _. [] };

    ghost contents = { λ _. None };

    ghost failures = { λ e. e.failures };

    ghost state = { λ e. e.state };

    ghost export_gives = { λ old new _ _ answer. GoesOn old.state new.state answer };

    ghost shutdown_gives = { λ _ new _. new.state ≡ ShutDown };

    fn takes(&self, _plan: u64, _reader: u32) -> bool {
        true
    }

    fn export(&mut self, _alloc: Global, plan: &Plan, batch: &Batch) -> Result<(), ExportFault> {
        self.state.admit()?;
        own_plan(plan, batch)?;
        self.number = self.number.saturating_add(1);
        if self.number == self.keeps_at {
            return Err(ExportFault::Kept);
        }
        if self.fails_at.contains(&self.number) {
            self.failures = self.failures.saturating_add(1);
            return Err(ExportFault::Write);
        }
        match self.taken.push((batch.time, points_of(batch))) {
            Ok(()) => Ok(()),
            Err(_) => Err(ExportFault::Memory),
        }
    }

    fn force_flush(&mut self) -> Result<(), ExportFault> {
        self.state.admit()?;
        if self.flushes {
            return Ok(());
        }
        self.failures = self.failures.saturating_add(1);
        Err(ExportFault::Write)
    }

    fn retry(&mut self, _alloc: Global, _plan: &Plan) -> Result<(), ExportFault> {
        Ok(())
    }

    fn shutdown(&mut self) -> Result<(), ExportFault> {
        let answer = self.state.admit();
        self.state = ExporterState::ShutDown;
        answer
    }
}

/// How many points the first stream of a batch has.
pub(crate) fn points_of(batch: &Batch) -> usize {
    match batch.streams.as_slice().first() {
        Some(stream) => stream.points.as_slice().len(),
        None => 0,
    }
}

/// An exporter whose calls of these numbers fail, and that has taken nothing.
pub(crate) fn failing_at(alloc: Global, fails_at: &'static [u64]) -> Failing {
    Failing {
        taken: Vec::new(alloc),
        number: 0,
        fails_at,
        keeps_at: 0,
        flushes: true,
        failures: 0,
        state: ExporterState::Open,
    }
}

/// One that takes three batches, keeps the next one and refuses two more, and of which each flush fails.
pub(crate) fn unsteady(alloc: Global) -> Failing {
    let mut exporter = failing_at(alloc, &[5, 6]);
    exporter.keeps_at = 4;
    exporter.flushes = false;
    exporter
}

/// A sink that has room for so many bytes, and of which flushes work or not.
pub(crate) fn sink_of(alloc: Global, room: Option<usize>, flushes: bool) -> CutSink {
    let sink = CutSink::new(alloc, room);
    if flushes {
        sink
    } else {
        sink.with_failing_flush()
    }
}
