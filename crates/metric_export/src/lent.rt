//! An exporter that is lent.
use crate::exporter::MetricExporter;
use crate::fault::ExportFault;
use metric_history::Batch;
use metric_plan::Plan;
use std::alloc::Global;

/// An exporter that is lent takes each call as it does itself, so a reader that takes its exporter can be lent one.
impl<E: MetricExporter> MetricExporter for &mut E {
    ghost text = { λ e. E.text e.now };

    ghost contents = { λ e. E.contents e.now };

    ghost failures = { λ e. E.failures e.now };

    ghost state = { λ e. E.state e.now };

    ghost takes = { λ e. E.takes e.now };

    ghost export_gives = { λ old new. E.export_gives old.now new.now };

    ghost flush_gives = { λ old new. E.flush_gives old.now new.now };

    ghost retry_gives = { λ old new. E.retry_gives old.now new.now };

    ghost shutdown_gives = { λ old new. E.shutdown_gives old.now new.now };

    fn takes(&self, plan: u64, reader: u32) -> bool {
        MetricExporter::takes(&**self, plan, reader)
    }

    fn export(&mut self, alloc: Global, plan: &Plan, batch: &Batch) -> Result<(), ExportFault> {
        MetricExporter::export(&mut **self, alloc, plan, batch)
    }

    fn force_flush(&mut self) -> Result<(), ExportFault> {
        MetricExporter::force_flush(&mut **self)
    }

    fn retry(&mut self, alloc: Global, plan: &Plan) -> Result<(), ExportFault> {
        MetricExporter::retry(&mut **self, alloc, plan)
    }

    fn shutdown(&mut self) -> Result<(), ExportFault> {
        MetricExporter::shutdown(&mut **self)
    }
}
