//! A provider with its seats, and what they answer to events.
use crate::asserted::OrFail;
use crate::page::Page;
use metric_contents::{Attr, OwnedAttr, Refusal};
use metric_history::{Book, Event, Reply};
use metric_marked::Marked;
use metric_provider::{Collector, NoGate, Provider, Recorder, start_with_lanes};
use metric_sdk::certified_plan;
use std::alloc::Global;
use std::process::Abort;
use std::sync::Wait;

/// A provider over a book, and the seats of its recorders and readers, in order.
pub(crate) struct BookSeats<B: Book> {
    pub(crate) provider: Provider<B, NoGate>,
    pub(crate) recorders: Vec<Recorder>,
    pub(crate) collectors: Vec<Collector>,
}

impl<B: Book> Drop for BookSeats<B> {
    // A call of its own, so that what owns seats does not carry the steps of dropping each part.
    fn drop(self) {
        let BookSeats {
            provider: _provider,
            recorders: _recorders,
            collectors: _collectors,
        } = self;
    }
}

/// The seats of a provider over running tables, as a service has them.
pub(crate) type Seats = BookSeats<Marked>;

/// A provider of a catalogue and a config, with its seats.
pub(crate) fn seats_of<R: Abort + Wait, B: Book>(
    rt: &R,
    alloc: Global,
    catalogue: &str,
    config: &str,
    since: u64,
    run: u64,
) -> BookSeats<B> {
    seats_in_lanes(rt, alloc, catalogue, config, since, (run, 1))
}

/// The same in a run of a number, where an instrument has so many lanes at most.
pub(crate) fn seats_in_lanes<R: Abort + Wait, B: Book>(
    rt: &R,
    alloc: Global,
    catalogue: &str,
    config: &str,
    since: u64,
    (run, lanes): (u64, u32),
) -> BookSeats<B> {
    let plan = certified_plan(alloc, catalogue, config).or_fail(rt);
    match start_with_lanes(rt, alloc, plan, since, run, NoGate, lanes) {
        Ok(made) => seated(made),
        Err((_, _, refused)) => Err(refused).or_fail(rt),
    }
}

/// A provider, and the seats of its recorders and readers, one by one.
pub(crate) type Parts<B> = (Provider<B, NoGate>, Vec<Recorder>, Vec<Collector>);

/// These seats.
pub(crate) fn seated<B: Book>((provider, recorders, collectors): Parts<B>) -> BookSeats<B> {
    BookSeats {
        provider,
        recorders,
        collectors,
    }
}

fn borrowed<'a, R: Abort>(rt: &R, alloc: Global, owned: &'a [OwnedAttr]) -> Vec<Attr<'a>> {
    let mut attrs = Vec::new(alloc);
    for attr in owned {
        let attr = Attr {
            key: attr.key.as_str(),
            value: attr.value.as_ref(),
        };
        attrs.push(attr).or_fail(rt);
    }
    attrs
}

impl<B: Book> BookSeats<B> {
    /// The provider, and the seats of its recorders and readers.
    pub(crate) fn into_parts(self) -> Parts<B> {
        let BookSeats {
            provider,
            recorders,
            collectors,
        } = self;
        (provider, recorders, collectors)
    }

    /// The answer to a recording. Where there is no such seat, it is that of a core.
    pub(crate) fn record<R: Wait>(
        &mut self,
        rt: &R,
        recorder: u32,
        instrument: u32,
        attrs: &[Attr<'_>],
        value: i64,
    ) -> Reply {
        let Some(seat) = self.recorders.get_mut(recorder as usize) else {
            return Reply::Refused(Refusal::UnknownRecorder);
        };
        match seat.record(rt, &self.provider, instrument, attrs, value) {
            Ok(()) => Reply::Accepted,
            Err(refusal) => Reply::Refused(refusal),
        }
    }

    // The answer to a collection. Where there is no such seat, it is that of a core.
    fn collect<R: Wait>(
        &mut self,
        rt: &R,
        alloc: Global,
        reader: u32,
        instrument: u32,
        now: u64,
    ) -> Reply {
        let Some(seat) = self.collectors.get_mut(reader as usize) else {
            return Reply::Refused(Refusal::UnknownReader);
        };
        match seat.collect(rt, alloc, &self.provider, instrument, now) {
            Ok(batch) => Reply::Collected(batch),
            Err(refusal) => Reply::Refused(refusal),
        }
    }

    fn close<R: Wait>(&self, rt: &R, instrument: u32) -> Reply {
        match self.provider.close(rt, instrument) {
            Ok(()) => Reply::Done,
            Err(refusal) => Reply::Refused(refusal),
        }
    }

    fn grant<R: Wait>(&self, rt: &R, recorder: u32, instrument: u32, amount: u64) -> Reply {
        match self.provider.grant(rt, recorder, instrument, amount) {
            Ok(()) => Reply::Granted,
            Err(refusal) => Reply::Refused(refusal),
        }
    }

    /// The answer of a seat or the provider to an event.
    pub(crate) fn answer<R: Abort + Wait>(
        &mut self,
        rt: &R,
        alloc: Global,
        event: &Event,
    ) -> Reply {
        match event {
            Event::Record {
                recorder,
                instrument,
                attrs,
                value,
            } => {
                let attrs = borrowed(rt, alloc, attrs.as_slice());
                self.record(rt, *recorder, *instrument, &attrs, *value)
            }
            Event::Collect {
                reader,
                instrument,
                now,
            } => self.collect(rt, alloc, *reader, *instrument, *now),
            Event::Close { instrument } => self.close(rt, *instrument),
            Event::Grant {
                recorder,
                instrument,
                amount,
            } => self.grant(rt, *recorder, *instrument, *amount),
        }
    }

    /// Writes a line for the answer to each event.
    pub(crate) fn tell_answers<R: Abort + Wait>(
        &mut self,
        page: &mut Page<'_, R>,
        events: &[Event],
    ) {
        for event in events {
            page.reply(&self.answer(page.rt, page.alloc, event));
        }
    }
}
