//! What the thread of a recorder does, and what it was told.
use crate::asserted::{OrFail, Stop};
use crate::soak::INSTRUMENTS;
use crate::soak::figures::{BEYOND, CLOSED as REFUSED, Figures, GRANTS};
use metric_contents::{Attr, Refusal};
use metric_history::Book;
use metric_provider::{NoGate, Provider, Recorder};

// The histogram, of which recorders ask for more than their budget, and the counter that is closed midway.
const ASKED: u32 = 2;

const CLOSED: u32 = 4;

// The number of recordings for which a recorder asks at once.
const MORE: u64 = 50;

// Series are named by two keys: the first has one of so many values, the second the rest of that by the other number.
const FIRST: u32 = 10;

const SECOND: u32 = 3;

// How far values go above the least that their instrument takes, and the least of each.
const VALUES: u32 = 10;

const LEAST: [i64; INSTRUMENTS] = [0, -5, 0, -5, 0, 0];

/// What a recorder was told of an instrument, counted beside the seat.
#[derive(Clone, Copy)]
pub(crate) struct Tally {
    pub count: u64,
    pub sum: i64,
}

/// Before the first recording.
pub(crate) const NOTHING: Tally = Tally { count: 0, sum: 0 };

// One recording.
#[derive(Clone, Copy)]
struct One {
    instrument: u32,
    first: u32,
    value: i64,
}

/// A seat that records, with what it was told.
#[derive(Drop)]
pub(crate) struct Worker {
    pub recorder: Recorder,
    pub told: [Tally; INSTRUMENTS],
    pub figures: Figures,
}

impl Worker {
    /// Before its first recording.
    pub(crate) fn new(recorder: Recorder) -> Worker {
        Worker {
            recorder,
            told: [NOTHING; INSTRUMENTS],
            figures: Figures::new(),
        }
    }

    /// Makes so many recordings, in turn on each instrument. The first recorder closes an instrument midway.
    pub(crate) fn work<R: Stop, B: Book>(
        &mut self,
        rt: &R,
        provider: &Provider<B, NoGate>,
        events: u32,
    ) {
        for turn in 0..events {
            if turn == events / 2 && self.recorder.number() == 0 {
                provider.close(rt, CLOSED).or_fail(rt);
            }
            let one = self.recording(turn);
            self.record(rt, provider, one).or_fail(rt);
        }
    }

    // The recording of a turn.
    fn recording(&self, turn: u32) -> One {
        let count = INSTRUMENTS as u32;
        let instrument = turn % count;
        let place = (turn / count).wrapping_add(self.recorder.number());
        let least = LEAST.get(instrument as usize).copied().unwrap_or(0);
        One {
            instrument,
            first: place % FIRST,
            value: least.wrapping_add(i64::from(place % VALUES)),
        }
    }

    // Makes a recording. Refused is what may not be.
    fn record<R: Stop, B: Book>(
        &mut self,
        rt: &R,
        provider: &Provider<B, NoGate>,
        one: One,
    ) -> Result<(), Refusal> {
        let first = Attr::whole("first", i64::from(one.first));
        let second = Attr::whole("second", i64::from(one.first % SECOND));
        let answer = self
            .recorder
            .record(rt, provider, one.instrument, &[first, second], one.value);
        match answer {
            Ok(()) => {
                self.tell(one);
                Ok(())
            }
            Err(Refusal::Closed) if one.instrument == CLOSED => {
                self.figures.add(REFUSED, 1);
                Ok(())
            }
            Err(Refusal::Budget) => self.ask(rt, provider, one.instrument),
            Err(refusal) => Err(refusal),
        }
    }

    fn tell(&mut self, one: One) {
        if let Some(tally) = self.told.get_mut(one.instrument as usize) {
            tally.count = tally.count.wrapping_add(1);
            tally.sum = tally.sum.wrapping_add(one.value);
        }
    }

    // Asks for more of an instrument whose budget is spent. Only one has some to spare.
    fn ask<R: Stop, B: Book>(
        &mut self,
        rt: &R,
        provider: &Provider<B, NoGate>,
        instrument: u32,
    ) -> Result<(), Refusal> {
        self.figures.add(BEYOND, 1);
        match self.recorder.ask(rt, provider, instrument, MORE) {
            Ok(()) => {
                self.figures.add(GRANTS, 1);
                Ok(())
            }
            Err(Refusal::NoSpare) if instrument != ASKED => Ok(()),
            Err(refusal) => Err(refusal),
        }
    }

    /// The seat.
    pub(crate) fn into_seat(self) -> Recorder {
        let Worker {
            recorder,
            told: _,
            figures: _,
        } = self;
        recorder
    }
}
