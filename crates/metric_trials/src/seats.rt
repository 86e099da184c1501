//! A provider with the seats of its recorders and readers.
ghost use Rattle.std.specs.Prelude.{IsTrue};

use crate::asserted::{OrFail, Stop, hold};
use metric_audit::{AuditFault, audit};
use metric_history::{Batch, Book};
use metric_plan::Plan;
use metric_provider::{Collector, NoGate, Provider, Recorder, Totals, start_with_lanes};
use std::alloc::Global;

/// When a run starts, in nanoseconds.
pub(crate) const START: u64 = 0;

/// A provider over a book, and the seats of its recorders and readers, in order.
pub(crate) struct Seats<B: Book> {
    pub provider: Provider<B, NoGate>,
    pub recorders: Vec<Recorder>,
    pub collectors: Vec<Collector>,
}

impl<B: Book> Drop for Seats<B> {
    // A call of its own, so that what owns seats does not carry the steps of dropping each part.
    fn drop(self) {
        let Seats {
            provider: _provider,
            recorders: _recorders,
            collectors: _collectors,
        } = self;
    }
}

impl<B: Book> Seats<B> {
    /// The provider, and the seats of its recorders and readers.
    pub(crate) fn into_all(self) -> (Provider<B, NoGate>, Vec<Recorder>, Vec<Collector>) {
        let Seats {
            provider,
            recorders,
            collectors,
        } = self;
        (provider, recorders, collectors)
    }

    /// What the provider comes to.
    pub(crate) fn finish<R: Stop>(self, rt: &R, alloc: Global) -> Totals {
        let (provider, recorders, _collectors) = self.into_all();
        provider.finish(rt, alloc, recorders).ok().or_fail(rt)
    }
}

/// The seats of a certified plan, where an instrument has so many lanes at most, or the plan when out of memory.
pub(crate) fn started<R: Stop, B: Book>(
    rt: &R,
    alloc: Global,
    plan: Plan,
    run: u64,
    lanes: u32,
) -> Result<Seats<B>, Plan>
    requires { IsTrue plan.is_certified }
{
    match start_with_lanes(rt, alloc, plan, START, run, NoGate, lanes) {
        Ok((provider, recorders, collectors)) => Ok(Seats {
            provider,
            recorders,
            collectors,
        }),
        Err((plan, _gate, _error)) => Err(plan),
    }
}

/// The same, which has to succeed, of the first run.
pub(crate) fn seats_of<R: Stop, B: Book>(rt: &R, alloc: Global, plan: Plan, lanes: u32) -> Seats<B>
    requires { IsTrue plan.is_certified }
{
    started(rt, alloc, plan, 1, lanes).ok().or_fail(rt)
}

/// Audits an instrument. How many entries its journal has.
pub(crate) fn audited<R: Stop>(
    rt: &R,
    alloc: Global,
    plan: &Plan,
    instrument: u32,
    totals: &Totals,
    batches: &[Batch],
) -> Result<u64, AuditFault> {
    let at = instrument as usize;
    let entries = totals.journals.get(at).or_fail(rt).as_slice();
    let slips = totals.slips.get(at).or_fail(rt).as_slice();
    hold(rt, at < plan.all_facts().len(), "the instrument is there");
    hold(
        rt,
        slips.len() == plan.catalogue().recorders().len(),
        "each recorder has slips",
    );
    audit(alloc, plan, instrument, START, entries, slips, batches)?;
    Ok(entries.len() as u64)
}
