//! Services that tests open: a provider with the seats of its recorders and readers.
use crate::asserted::OrFail;
use metric_handles::{Counted, take_recorder};
use metric_sdk::{
    Attr, Batch, Collector, Marked, MeterProvider, NoGate, Plan, Recorder, ValueRef,
    certified_plan, start,
};
use std::alloc::Global;
use std::process::Abort;
use std::sync::Wait;

/// A provider with its seats, as the door hands them out.
pub(crate) type Seats = (MeterProvider, Vec<Recorder>, Vec<Collector>);

/// The same, of which a test lends the parts.
pub(crate) struct Service {
    pub(crate) provider: MeterProvider,
    pub(crate) recorders: Vec<Recorder>,
    pub(crate) readers: Vec<Collector>,
}

impl Drop for Service {
    // A call of its own, so that what owns a service does not carry the steps of dropping each part.
    fn drop(self) {
        let Service {
            provider: _provider,
            recorders: _recorders,
            readers: _readers,
        } = self;
    }
}

impl Service {
    /// The service of these seats.
    pub(crate) fn of((provider, recorders, readers): Seats) -> Service {
        Service {
            provider,
            recorders,
            readers,
        }
    }

    /// A service since 0, in the run of a number.
    pub(crate) fn new<R: Abort + Wait>(
        rt: &R,
        alloc: Global,
        catalogue: &str,
        config: &str,
        run: u64,
    ) -> Service {
        let plan = certified_plan(alloc, catalogue, config).or_fail(rt);
        match start::<R, Marked, NoGate>(rt, alloc, plan, 0, run, NoGate) {
            Ok(seats) => Service::of(seats),
            Err((_, _, refused)) => Err(refused).or_fail(rt),
        }
    }

    /// Its parts.
    pub(crate) fn into_seats(self) -> Seats {
        let Service {
            provider,
            recorders,
            readers,
        } = self;
        (provider, recorders, readers)
    }

    /// Takes the seat of the recorder of this name.
    pub(crate) fn take<R: Abort>(&mut self, rt: &R, name: &str) -> Recorder {
        let taken = take_recorder(self.provider.plan(), &mut self.recorders, name);
        taken.expect(rt, "no such recorder")
    }

    /// Makes a recording of the first recorder.
    pub(crate) fn record<R: Abort + Wait>(
        &mut self,
        rt: &R,
        instrument: u32,
        attrs: &[Attr<'_>],
        value: i64,
    ) {
        let recorder = self.recorders.first_mut().expect(rt, "no recorder");
        let answer = recorder.record(rt, &self.provider, instrument, attrs, value);
        answer.or_fail(rt)
    }

    /// What the first reader collects of an instrument.
    pub(crate) fn collect<R: Abort + Wait>(
        &mut self,
        rt: &R,
        alloc: Global,
        instrument: u32,
        now: u64,
    ) -> Batch {
        let reader = self.readers.first_mut().expect(rt, "no reader");
        let answer = reader.collect(rt, alloc, &self.provider, instrument, now);
        answer.or_fail(rt)
    }
}

/// A counter without keys, and a budget of nine recordings.
pub(crate) const HITS: &str = "format = 1
[[meter]]
name = 'm'
[[meter.instrument]]
name = 'hits'
kind = 'counter'
range = [0, 100]
[[recorder]]
name = 'r'
budget = [{ instrument = 0, amount = 9 }]
";

/// A counter of one recorder.
pub(crate) const ORDERS: &str = "format = 1
[[meter]]
name = 'shop'
[[meter.instrument]]
name = 'orders'
kind = 'counter'
range = [1, 100]
key = [{ name = 'country', values = ['de', 'fr'] }]
[[recorder]]
name = 'till'
budget = [{ instrument = 0, amount = 9 }]
";

/// Another one, whose key has the same values in another order.
pub(crate) const REFUNDS: &str = "format = 1
[[meter]]
name = 'shop'
[[meter.instrument]]
name = 'refunds'
kind = 'counter'
range = [1, 100]
key = [{ name = 'country', values = ['fr', 'de'] }]
[[recorder]]
name = 'till'
budget = [{ instrument = 0, amount = 9 }]
";

/// Attributes of both.
pub(crate) const GERMAN: [Attr<'static>; 1] = [Attr {
    key: "country",
    value: ValueRef::Text("de"),
}];

/// A delta reader.
pub(crate) const DELTA: &str = "format = 1
[[reader]]
name = 'd'
temporality = { counter = 'delta' }
";

/// A cumulative reader.
pub(crate) const CUMULATIVE: &str = "format = 1\n[[reader]]\nname = 'c'\n";

/// The counter without keys for a delta reader, after a recording of 5.
pub(crate) fn hit_once<R: Abort + Wait>(rt: &R, alloc: Global, run: u64) -> Service {
    let mut service = Service::new(rt, alloc, HITS, DELTA, run);
    service.record(rt, 0, &[], 5);
    service
}

/// A seat that counts its refusals.
pub(crate) fn counted<R: Abort, S: Drop>(
    rt: &R,
    alloc: Global,
    plan: &Plan,
    seat: S,
) -> Counted<S> {
    match Counted::new(alloc, plan, seat) {
        Ok(seat) => seat,
        Err((_, refused)) => Err(refused).or_fail(rt),
    }
}
