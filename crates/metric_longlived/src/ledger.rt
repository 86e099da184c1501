//! An exporter of the service's own: it adds up what it is handed, and looks whether a window is missing.
ghost use Rattle.std.specs.Prelude.{[], None};

use metric_sdk::{Batch, ExportFault, ExporterState, MetricExporter, Plan, PointValue, own_plan};
use std::alloc::Global;
use std::sync::atomic::{AtomicBool, Ordering};

/// What the exporter writes to, as a connection. It may be out for a while.
#[derive(Drop)]
pub struct Device {
    is_out: AtomicBool,
}

impl Device {
    /// A device that is there.
    pub fn new() -> Device {
        Device {
            is_out: AtomicBool::new(false),
        }
    }

    /// Lets the device be out, or be there again.
    pub fn set_out(&self, is_out: bool) {
        self.is_out.store(is_out, Ordering::SeqCst);
    }
}

/// An exporter that adds up the sums that it is handed.
#[derive(Drop)]
pub struct Ledger<'a> {
    device: &'a Device,
    sum: i64,
    mark: u64,
    gaps: u64,
    failures: u64,
    state: ExporterState,
}

impl<'a> Ledger<'a> {
    /// An exporter to a device, that was handed nothing yet.
    pub fn new(device: &'a Device) -> Ledger<'a> {
        Ledger {
            device,
            sum: 0,
            mark: 0,
            gaps: 0,
            failures: 0,
            state: ExporterState::Open,
        }
    }

    /// The sum of all that was exported.
    pub fn sum(&self) -> i64 {
        self.sum
    }

    /// How many windows did not begin where the one before ended, nor with a run.
    pub fn gaps(&self) -> u64 {
        self.gaps
    }
}

// The sum of the points of a batch.
fn sum_in(batch: &Batch) -> i64 {
    let mut all: i64 = 0;
    for stream in batch.streams.as_slice() {
        for point in stream.points.as_slice() {
            if let PointValue::Sum(sum) = &point.value {
                all = all.saturating_add(*sum);
            }
        }
    }
    all
}

// 1 where the window of a batch begins neither where the one before ended nor with a run, else 0.
fn gap_before(batch: &Batch, mark: u64) -> u64 {
    u64::from(batch.from != mark && batch.from != 0)
}

impl MetricExporter for Ledger<'_> {
    ghost text = { λ _ _ _. [] };

    ghost contents = { λ _. None };

    ghost failures = { λ e. e.failures };

    ghost state = { λ e. e.state };

    ghost export_gives = { λ _ _ _ _ _. Unit {0} };

    ghost shutdown_gives = { λ _ _ _. Unit {0} };

    fn takes(&self, _plan: u64, _reader: u32) -> bool {
        true
    }

    fn export(&mut self, _alloc: Global, plan: &Plan, batch: &Batch) -> Result<(), ExportFault> {
        self.state.admit()?;
        own_plan(plan, batch)?;
        if self.device.is_out.load(Ordering::SeqCst) {
            self.failures = self.failures.saturating_add(1);
            return Err(ExportFault::Write);
        }
        self.gaps = self.gaps.saturating_add(gap_before(batch, self.mark));
        self.mark = batch.mark;
        self.sum = self.sum.saturating_add(sum_in(batch));
        Ok(())
    }

    fn force_flush(&mut self) -> Result<(), ExportFault> {
        self.state.admit()
    }

    fn retry(&mut self, _alloc: Global, _plan: &Plan) -> Result<(), ExportFault> {
        Ok(())
    }

    fn shutdown(&mut self) -> Result<(), ExportFault> {
        let answer = self.state.admit();
        self.state = ExporterState::ShutDown;
        answer
    }
}
