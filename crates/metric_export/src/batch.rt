//! The bytes of one batch, written to a sink.
ghost use Rattle.std.specs.Prelude.{◌≡◌, ◌≢◌, ◌++◌, [], true, Err, IfOk, IsErrOf, None, OnOk, Some};
ghost use Rattle.metric_io.specs.Counts.{HasFailed};
ghost use Rattle.metric_export.specs.Exports.{Exports, KeepsNone, plan_text, refuses};
ghost use Rattle.metric_export.specs.declared.fault.ExportFault.{ExportFault};

use crate::belonging::own_batch;
use crate::encoding::{Encoding, Plain};
use crate::fault::ExportFault;
use metric_history::Batch;
use metric_io::{Sink, write_all};
use metric_plan::Plan;
use std::alloc::{AllocError, Global};

/// Writes the text of a batch to a sink, by as many writes as the sink takes. The text is made first,
/// so that a sink is written only where there is memory for all of it.
///
/// # Errors
///
/// - [`ExportFault::OtherPlan`] exactly where the batch is of another plan, before anything else. In an encoding that is
///   made for other readers than the batch's, [`ExportFault::OtherReader`] then.
/// - [`ExportFault::Write`] where the sink fails or takes nothing. It then holds a prefix of the text.
/// - [`ExportFault::Memory`], before anything is written.
pub fn write_batch<W: Sink>(
    alloc: Global,
    sink: &mut W,
    plan: &Plan,
    batch: &Batch,
) -> Result<(), ExportFault>
    ensures text { Exports (W.contents sink.old) (W.contents sink.new)
        (plan_text plan.now batch.now) result }
    ensures counted { OnOk result (W.failures sink.new ≡ W.failures sink.old) }
    ensures failed { IsErrOf result ExportFault.Write →
        HasFailed (W.failures sink.old) (W.failures sink.new) }
    ensures memory { IsErrOf result ExportFault.Memory → sink.new ≡ sink.old }
    ensures others { (why : ExportFault)
        → refuses (λ _ _. true) plan.now batch.now ≡ Some why → result ≡ Err why }
    ensures unwritten { refuses (λ _ _. true) plan.now batch.now ≢ None → sink.new ≡ sink.old }
    ensures unkept { KeepsNone (refuses (λ _ _. true) plan.now batch.now) result }
    ensures not_shut_down { IsErrOf result ExportFault.ShutDown → ⊥ }
{
    write_encoded(alloc, sink, &Plain, plan, batch)
}

/// [`write_batch`] in another encoding.
///
/// # Errors
///
/// Those of [`write_batch`].
pub fn write_encoded<W: Sink, E: Encoding>(
    alloc: Global,
    sink: &mut W,
    encoding: &E,
    plan: &Plan,
    batch: &Batch,
) -> Result<(), ExportFault>
    ensures text { Exports (W.contents sink.old) (W.contents sink.new)
        (E.text encoding.now plan.now batch.now) result }
    ensures counted { OnOk result (W.failures sink.new ≡ W.failures sink.old) }
    ensures failed { IsErrOf result ExportFault.Write →
        HasFailed (W.failures sink.old) (W.failures sink.new) }
    ensures memory { IsErrOf result ExportFault.Memory → sink.new ≡ sink.old }
    ensures others { (why : ExportFault)
        → refuses (E.takes encoding.now) plan.now batch.now ≡ Some why → result ≡ Err why }
    ensures unwritten { refuses (E.takes encoding.now) plan.now batch.now ≢ None
        → sink.new ≡ sink.old }
    ensures unkept { KeepsNone (refuses (E.takes encoding.now) plan.now batch.now) result }
    ensures not_shut_down { IsErrOf result ExportFault.ShutDown → ⊥ }
{
    own_batch(plan, batch, encoding.takes(batch.plan, batch.reader))?;
    let text = text_of(alloc, encoding, plan, batch)?;
    write_all(sink, &text)?;
    Ok(())
}

fn text_of<E: Encoding>(
    alloc: Global,
    encoding: &E,
    plan: &Plan,
    batch: &Batch,
) -> Result<Vec<u8>, AllocError>
    ensures { IfOk result (λ text.
        text.items ≡ E.text encoding.now plan.now batch.now) }
{
    let mut text = Vec::new(alloc);
    encoding.push(alloc, &mut text, plan, batch)?;
    Ok(text)
}
