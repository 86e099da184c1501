//! What is left of a budget.
ghost use Rattle.std.specs.Prelude.{◌≡◌};
ghost use Rattle.metric_handles.specs.Left.{left_of};

use metric_plan::Plan;
use metric_provider::Recorder;

/// How many recordings of the budget that the plan declares for the seat's recorder on an instrument the seat was not
/// told of yet; nothing where the seat has no such instrument. What a recorder was granted beside its budget is known
/// to the provider alone: a seat that recorded by a grant has 0 left here.
pub fn left(recorder: &Recorder, plan: &Plan, instrument: u32) -> Option<u64>
    ensures { result ≡ left_of plan.now recorder.now instrument }
{
    let told = recorder.accepted(instrument)?;
    let budget = plan.catalogue().budget(recorder.number(), instrument);
    Some(budget.saturating_sub(told.count))
}
