//! Batches handed on to an exporter in order.
ghost use Rattle.std.specs.Prelude.{◌≡◌, ◌≤◌, length};
ghost use Rattle.metric_export.specs.ExporterCalls.{IsExport};
ghost use Rattle.metric_export.specs.Handings.{HandsOnInOrder, TakesOrRefuses, has_points, is_pointed};

use crate::exporter::MetricExporter;
use crate::fault::ExportFault;
use metric_history::{Batch, StreamPoints};
use metric_plan::Plan;
use std::alloc::Global;

/// What became of batches that were handed on in order.
#[derive(Clone, Copy, Debug, PartialEq, Eq, Drop)]
pub struct Handed {
    /// How many were taken, from the first on: they went out, or the exporter keeps them.
    pub taken: usize,
    /// Why the next one was refused, where one was. Nobody has that one nor those after it.
    pub refused: Option<ExportFault>,
}

/// Whether a batch has a point: one that has none tells nothing, and need not be handed on.
pub fn has_points(batch: &Batch) -> bool
    ensures { result ≡ has_points batch.now }
{
    batch.streams.as_slice().iter().any(is_pointed)
}

// Whether a stream has a point.
fn is_pointed(stream: &StreamPoints) -> bool
    ensures { result ≡ is_pointed stream.now }
{
    !stream.points.as_slice().is_empty()
}

/// Hands batches on in order, each once, up to the first that the exporter refuses. One that it keeps to try it again
/// ([`ExportFault::Kept`]) is not refused.
pub fn export_each<E: MetricExporter>(
    exporter: &mut E,
    alloc: Global,
    plan: &Plan,
    batches: &[Batch],
) -> Handed
    ensures handed { HandsOnInOrder (IsExport E.MetricExporter plan.now) exporter.old exporter.new
        batches.now result.taken result.refused }
    ensures within { result.taken ≤ length batches.now }
{
    for (taken, batch) in batches.iter().enumerate() {
        match refused(exporter, alloc, plan, batch) {
            None => {}
            Some(fault) => {
                return Handed {
                    taken,
                    refused: Some(fault),
                };
            }
        }
    }
    Handed {
        taken: batches.len(),
        refused: None,
    }
}

// Hands a batch on. Why it was refused, where it was.
fn refused<E: MetricExporter>(
    exporter: &mut E,
    alloc: Global,
    plan: &Plan,
    batch: &Batch,
) -> Option<ExportFault>
    ensures { TakesOrRefuses (IsExport E.MetricExporter plan.now) exporter.old exporter.new
        batch.now result }
{
    match exporter.export(alloc, plan, batch) {
        Ok(()) | Err(ExportFault::Kept) => None,
        Err(fault) => Some(fault),
    }
}
