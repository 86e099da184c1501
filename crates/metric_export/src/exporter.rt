//! What every exporter promises.
ghost use Rattle.std.specs.Prelude.{◌≡◌, ℕ, Bool, true, Err, List, Ok, Option, Result, Some};
ghost use Rattle.std.specs.Io.KnownBytes.{Keeps};
ghost use Rattle.metric_io.specs.Counts.{HasFailed};
ghost use Rattle.metric_history.specs.declared.batch.Batch.{Batch};
ghost use Rattle.metric_plan.specs.Plans.{PlanValue};
ghost use Rattle.metric_export.specs.Exports.{Exports, refuses};
ghost use Rattle.metric_export.specs.States.{Answers, GoesOn, refused_in};
ghost use Rattle.metric_export.specs.declared.fault.ExportFault.{ExportFault};
ghost use Rattle.metric_export.specs.declared.state.ExporterState.{ExporterState};

use crate::fault::ExportFault;
use metric_history::Batch;
use metric_plan::Plan;
use std::alloc::Global;

/// What batches are handed on to (Metrics SDK, push metric exporter).
///
/// Contracts see in which text the exporter hands on a batch; the bytes that it handed on, where it
/// knows them; the count of the failures of its device, which stops at 2^64 - 1; its state; whose
/// batches it takes; and what it says of its calls beside that, by which a caller can promise each
/// call that it makes. After
/// [`shutdown`](MetricExporter::shutdown), whatever it answered, every call answers
/// [`ExportFault::ShutDown`]. An exporter may go on after a failure, as one over a network does, or be
/// broken by it, as a [`TextExporter`](crate::TextExporter) is.
pub trait MetricExporter {
    // The text in which a batch is handed on. No call changes it.
    ghost text: { Self → PlanValue → Batch → List ℕ };

    // What was handed on, where the exporter knows it.
    ghost contents: { Self → Option (List ℕ) };

    // How often the device failed.
    ghost failures: { Self → ℕ };

    // Whether the exporter takes calls.
    ghost state: { Self → ExporterState };

    // Whether the exporter takes the batches of a reader, by the plan's fingerprint and the reader's number. No call
    // changes it.
    ghost takes: { Self → ℕ → ℕ → Bool } = { λ _ _ _. true };

    // What an export does to the exporter, by the plan, the batch and the answer.
    ghost export_gives: { Self → Self → PlanValue → Batch
        → Result (Unit {0}) ExportFault → Type 0 };

    // What a flush does to it, by the answer.
    ghost flush_gives: { Self → Self → Result (Unit {0}) ExportFault → Type 0 } = { λ _ _ _.
        Unit {0} };

    // What a new try of what it keeps does to it, by the plan and the answer: nothing, where nothing else is said.
    ghost retry_gives: { Self → Self → PlanValue
        → Result (Unit {0}) ExportFault → Type 0 } = { λ old new _ answer.
            (new ≡ old) × (answer ≡ Ok tt) };

    // What a shutdown does to it, by the answer.
    ghost shutdown_gives: { Self → Self → Result (Unit {0}) ExportFault → Type 0 };

    /// Whether the exporter takes the batches of a reader: one that takes those of any answers `true`, and leaves the
    /// ghost `takes` as it is. One whose output has room for one reader alone, as a page of cumulative streams, was made
    /// for that reader. The plan is told by its fingerprint, the reader by its number, as each batch has them.
    fn takes(&self, plan: u64, reader: u32) -> bool
        ensures { result ≡ takes self.now plan reader };

    /// Hands on a batch of the plan.
    ///
    /// # Errors
    ///
    /// - [`ExportFault::Write`] only where the device failed, in this call or an earlier one; a prefix
    ///   of the text was handed on.
    /// - [`ExportFault::ShutDown`] exactly where the exporter was shut down.
    /// - [`ExportFault::Memory`], and nothing was handed on.
    /// - [`ExportFault::Kept`], and the exporter keeps the batch, to try it again by itself.
    /// - [`ExportFault::OtherPlan`] where the batch is of another plan, unless the exporter was shut down or is broken:
    ///   then it answers that. One that keeps batches answers it also where one of these is of another plan.
    /// - [`ExportFault::OtherReader`] where the batch is of the plan and of a reader whose batches the exporter does not
    ///   take, again unless it was shut down or is broken. One that keeps batches answers it also for one of these.
    fn export(&mut self, alloc: Global, plan: &Plan, batch: &Batch) -> Result<(), ExportFault>
        ensures text { Exports (contents self.old) (contents self.new)
            (text self.old plan.now batch.now) result }
        ensures same_text { text self.new ≡ text self.old }
        ensures same_takes { takes self.new ≡ takes self.old }
        ensures answer { Answers (state self.old)
            (HasFailed (failures self.old) (failures self.new)) result }
        ensures state { GoesOn (state self.old) (state self.new) result }
        ensures others { (why : ExportFault)
            → refuses (takes self.old) plan.now batch.now ≡ Some why
            → result ≡ Err (refused_in why (state self.old)) }
        ensures gives { export_gives self.old self.new plan.now batch.now result };

    /// Passes on what the exporter may still hold back. No text is added. The errors are those of
    /// [`export`](MetricExporter::export).
    fn force_flush(&mut self) -> Result<(), ExportFault>
        ensures text { Keeps (contents self.old) (contents self.new) }
        ensures same_text { text self.new ≡ text self.old }
        ensures same_takes { takes self.new ≡ takes self.old }
        ensures answer { Answers (state self.old)
            (HasFailed (failures self.old) (failures self.new)) result }
        ensures state { GoesOn (state self.old) (state self.new) result }
        ensures gives { flush_gives self.old self.new result };

    /// Tries again at once what the exporter keeps of earlier calls, as at the end of a service. An exporter that never
    /// answers [`ExportFault::Kept`] keeps nothing: it answers `Ok`, and leaves the ghost `retry_gives` as it is. Nothing
    /// is appended that contracts know: one that keeps batches tells no `contents`.
    ///
    /// # Errors
    ///
    /// [`ExportFault::Kept`] where something is kept still, [`ExportFault::OtherPlan`] where something of another plan
    /// is, [`ExportFault::OtherReader`] where something of a reader is whose batches are not taken, and what an exporter
    /// of batches says else.
    fn retry(&mut self, alloc: Global, plan: &Plan) -> Result<(), ExportFault>
        ensures text { Keeps (contents self.old) (contents self.new) }
        ensures same_text { text self.new ≡ text self.old }
        ensures same_takes { takes self.new ≡ takes self.old }
        ensures state { GoesOn (state self.old) (state self.new) result }
        ensures gives { retry_gives self.old self.new plan.now result };

    /// Flushes, and takes no call from then on, whatever it answers. No text is added. The errors are
    /// those of [`export`](MetricExporter::export).
    fn shutdown(&mut self) -> Result<(), ExportFault>
        ensures text { Keeps (contents self.old) (contents self.new) }
        ensures answer { Answers (state self.old)
            (HasFailed (failures self.old) (failures self.new)) result }
        ensures state { state self.new ≡ ExporterState.ShutDown }
        ensures gives { shutdown_gives self.old self.new result };
}
