//! Events and their replies.
ghost use Rattle.std.specs.Prelude.{◌≡◌};

use crate::batch::Batch;
use metric_base::Items;
use metric_contents::{OwnedAttr, Refusal};

/// One step on the state of one instrument. Times are in nanoseconds.
#[derive(Drop)]
pub enum Event {
    /// A measurement (Metrics API, instrument).
    Record {
        /// The number of the recorder.
        recorder: u32,
        /// The number of the instrument.
        instrument: u32,
        /// The attributes.
        attrs: Items<OwnedAttr>,
        /// The value.
        value: i64,
    },
    /// A collection (Metrics SDK, collect).
    Collect {
        /// The number of the reader.
        reader: u32,
        /// The number of the instrument.
        instrument: u32,
        /// The time at which it is asked for.
        now: u64,
    },
    /// The end of recordings on an instrument.
    Close {
        /// The number of the instrument.
        instrument: u32,
    },
    /// A grant: recordings of the instrument's spare budget for a recorder, beside its budget.
    Grant {
        /// The number of the recorder.
        recorder: u32,
        /// The number of the instrument.
        instrument: u32,
        /// How many recordings.
        amount: u64,
    },
}

/// What an event is answered.
#[derive(Drop)]
pub enum Reply {
    /// The recording counts.
    Accepted,
    /// What the collection reports.
    Collected(Batch),
    /// The instrument is closed.
    Done,
    /// The recorder may make as many recordings more.
    Granted,
    /// The event has changed nothing.
    Refused(Refusal),
}

impl Event {
    ghost use Rattle.metric_history.specs.Events.{attr_count, instrument_of};

    /// The number of the instrument.
    pub fn instrument(&self) -> u32
        ensures { result ≡ instrument_of self.now }
    {
        match self {
            Event::Record { instrument, .. } => *instrument,
            Event::Collect { instrument, .. } => *instrument,
            Event::Close { instrument } => *instrument,
            Event::Grant { instrument, .. } => *instrument,
        }
    }

    /// How many attributes it has.
    pub fn attr_count(&self) -> usize
        ensures { result ≡ attr_count self.now }
    {
        match self {
            Event::Record { attrs, .. } => attrs.len(),
            Event::Collect { .. } | Event::Close { .. } | Event::Grant { .. } => 0,
        }
    }
}
