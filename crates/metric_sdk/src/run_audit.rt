//! The audit of a run by its totals.
ghost use Rattle.metric_audit.specs.RunAudits.{AuditsRun};

use metric_audit::{Extent, RunAuditFault, RunLists, audit_all};
use metric_history::Batch;
use metric_plan::Plan;
use metric_provider::Totals;
use std::alloc::Global;

/// Audits a run over books that keep their entries, as one of [`open_audited`](crate::open_audited), by its totals: of
/// each instrument the journal, the slips and the batches, as [`audit`](metric_audit::audit) says. The run began at a
/// start in nanoseconds.
///
/// All batches that its readers were told since then are handed in, also those without points, since each begins where
/// the one before ended: those of one reader and one instrument in the order in which they were told, else in any.
///
/// # Errors
///
/// The first [`RunAuditFault`]. `Memory` can come in place of any.
pub fn audit_run(
    alloc: Global,
    plan: &Plan,
    totals: &Totals,
    start: u64,
    batches: Vec<Batch>,
    extent: Extent,
) -> Result<(), RunAuditFault>
    ensures { AuditsRun plan.now start extent totals.now.journals.items totals.now.slips.items
        batches.items result }
{
    let lists = RunLists {
        journals: totals.journals.as_slice(),
        slips: totals.slips.as_slice(),
    };
    audit_all(alloc, plan, start, &lists, batches, extent)
}
