//! Batches of the plan by which they are to go out, and of the readers whose batches are taken.
ghost use Rattle.std.specs.Prelude.{◌≡◌, IfErr, OnErr, OnOk, false, true};
ghost use Rattle.metric_export.specs.Exports.{answer_to, is_own, refused_as};
ghost use Rattle.metric_export.specs.Queues.{refuses_any};

use crate::exporter::MetricExporter;
use crate::fault::ExportFault;
use metric_history::Batch;
use metric_plan::Plan;

/// Refuses a batch of another plan, as each exporter does before anything else but a shutdown: its numbers mean other
/// names there. An exporter of one's own that takes the batches of any reader begins with it.
///
/// # Errors
///
/// [`ExportFault::OtherPlan`] exactly where the batch was not collected of this plan or one of the same texts.
pub fn own_plan(plan: &Plan, batch: &Batch) -> Result<(), ExportFault>
    ensures own { OnOk result (is_own plan.now batch.now ≡ true) }
    ensures other { OnErr result (is_own plan.now batch.now ≡ false) }
    ensures fault { IfErr result (λ fault. fault ≡ ExportFault.OtherPlan) }
{
    if is_own(plan, batch) {
        Ok(())
    } else {
        Err(ExportFault::OtherPlan)
    }
}

/// The same, and then refuses a batch of a reader whose batches are not taken. An exporter of one's own that serves
/// some readers alone begins with it.
///
/// # Errors
///
/// Those of [`own_plan`]; then [`ExportFault::OtherReader`] exactly where the batch's reader is not one of those.
pub fn own_batch(plan: &Plan, batch: &Batch, is_taken: bool) -> Result<(), ExportFault>
    ensures { result ≡ answer_to (refused_as (is_own plan.now batch.now) is_taken) }
{
    if !is_own(plan, batch) {
        Err(ExportFault::OtherPlan)
    } else if !is_taken {
        Err(ExportFault::OtherReader)
    } else {
        Ok(())
    }
}

fn is_own(plan: &Plan, batch: &Batch) -> bool
    ensures { result ≡ is_own plan.now batch.now }
{
    batch.plan == plan.fingerprint()
}

// The same of batches and an exporter, one after the other.
pub(crate) fn own_batches<E: MetricExporter>(
    exporter: &E,
    plan: &Plan,
    batches: &[Batch],
) -> Result<(), ExportFault>
    ensures { result ≡ answer_to (refuses_any (E.takes exporter.now) plan.now batches.now) }
{
    for batch in batches {
        own_batch(plan, batch, exporter.takes(batch.plan, batch.reader))?;
    }
    Ok(())
}
