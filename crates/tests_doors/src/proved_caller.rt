//! Callers with contracts of their own. `crates/metric_sdk/CALLING.md` shows them.
ghost use Rattle.std.specs.Prelude.{◌≡◌, ◌∷◌, [], IfOk};
ghost use Rattle.metric_marked.specs.Marks.{StandsMarked};
ghost use Rattle.metric_provider.specs.Totals.{told_totals};
ghost use Rattle.metric_sdk.specs.Headline.{RunsAreExact};

use metric_sdk::{
    Collector, MeterProvider, Recorder, Runs, ServiceFault, SetupFault, Totals, open,
};
use std::alloc::Global;
use std::sync::Wait;

/// Opens a service. Each run of a core of its plan is exact, whatever the texts are.
pub(crate) fn opened<R: Wait>(
    rt: &R,
    alloc: Global,
    catalogue: &str,
    config: &str,
) -> Result<(MeterProvider, Vec<Recorder>, Vec<Collector>), SetupFault>
    ensures exact { IfOk result (λ opened. RunsAreExact StandsMarked opened.0.plan) }
{
    open(rt, alloc, catalogue, config, 0, &mut Runs::new())
}

/// Ends a run of one recorder. Its totals are exactly what the recorder was told.
pub(crate) fn totals_of_one<R: Wait>(
    rt: &R,
    alloc: Global,
    provider: MeterProvider,
    recorder: Recorder,
) -> Result<Totals, ServiceFault>
    ensures told { IfOk result (λ totals. totals.instruments.items
        ≡ told_totals (recorder ∷ []) 0 provider.plan.facts.instruments) }
{
    let mut recorders = Vec::new(alloc);
    if recorders.push(recorder).is_err() {
        return Err(ServiceFault::Memory);
    }
    Ok(provider.finish(rt, alloc, recorders)?)
}
