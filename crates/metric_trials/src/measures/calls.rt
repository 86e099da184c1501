//! What a seat records.
use crate::asserted::{OrFail, Stop};
use crate::series::Cycle;
use metric_contents::Refusal;
use metric_history::Book;
use metric_provider::{Measurement, NoGate, Provider, Recorder};

/// How recordings are made.
#[derive(Clone, Copy, PartialEq, Eq)]
pub(crate) enum How {
    /// Each with its three attributes.
    Attributes,
    /// Each with its set key in hand.
    Sets,
    /// The same, each list of [`LIST`] of them under one lock.
    Lists,
}

/// The way of a word.
pub(crate) fn how_of(word: &str) -> Option<How> {
    match word {
        "attributes" => Some(How::Attributes),
        "sets" => Some(How::Sets),
        "lists" => Some(How::Lists),
        _ => None,
    }
}

/// How many recordings are made under one lock.
pub(crate) const LIST: u32 = 16;

/// Recordings on an instrument, over and over.
#[derive(Clone, Copy)]
pub(crate) struct Calls<'a> {
    pub how: How,
    pub instrument: u32,
    /// How many series there are, for recordings with attributes.
    pub series: u32,
    /// The recordings with set keys.
    pub recordings: &'a [Measurement],
}

impl Calls<'_> {
    /// Makes so many rounds. How many recordings there were.
    pub(crate) fn repeat<R: Stop, B: Book>(
        self,
        rt: &R,
        provider: &Provider<B, NoGate>,
        recorder: &mut Recorder,
        rounds: u32,
    ) -> u64 {
        if self.how == How::Attributes {
            return self.record_each(rt, provider, recorder, rounds.saturating_mul(self.series));
        }
        for _ in 0..rounds {
            self.record_round(rt, provider, recorder).or_fail(rt);
        }
        u64::from(rounds).wrapping_mul(self.recordings.len() as u64)
    }

    /// Makes so many recordings with attributes. How many there were.
    pub(crate) fn record_each<R: Stop, B: Book>(
        self,
        rt: &R,
        provider: &Provider<B, NoGate>,
        recorder: &mut Recorder,
        events: u32,
    ) -> u64 {
        let mut cycle = Cycle::new(self.series);
        for _ in 0..events {
            let attributes = cycle.attributes();
            recorder
                .record(rt, provider, self.instrument, &attributes, cycle.value())
                .or_fail(rt);
            cycle.step();
        }
        u64::from(events)
    }

    /// Makes each recording with a set key once.
    pub(crate) fn record_round<R: Stop, B: Book>(
        self,
        rt: &R,
        provider: &Provider<B, NoGate>,
        recorder: &mut Recorder,
    ) -> Result<(), Refusal> {
        if self.how == How::Lists {
            return self.record_lists(rt, provider, recorder);
        }
        for one in self.recordings {
            recorder.record_set(rt, provider, self.instrument, one.set, one.value)?;
        }
        Ok(())
    }

    fn record_lists<R: Stop, B: Book>(
        self,
        rt: &R,
        provider: &Provider<B, NoGate>,
        recorder: &mut Recorder,
    ) -> Result<(), Refusal> {
        for list in self.recordings.chunks(LIST as usize) {
            if let Err(fault) = recorder.record_sets(rt, provider, self.instrument, list) {
                return Err(fault.refusal);
            }
        }
        Ok(())
    }
}
