//! What looks like a mistake in a catalogue and a config.
ghost use Rattle.std.specs.Prelude.{◌≡◌};
ghost use Rattle.metric_lint.specs.Kinds.{is_kind, kind_of};

use crate::limit::Limit;
use metric_contents::Kind;
use std::fmt;

/// What looks like a mistake in a catalogue and a config that are read. Views, instruments, streams, readers and
/// recorders have their numbers.
#[derive(Clone, Copy, Debug, PartialEq, Eq, Drop)]
pub enum Remark {
    /// The view selects the instrument and itself names an aggregation that does not fit it.
    Unfit {
        /// The number of the view.
        view: u32,
        /// The number of the instrument.
        instrument: u32,
    },
    /// Two streams have one identity (Metrics data model, identity), of which `first` is the first.
    Collision {
        /// The number of the first stream of the identity.
        first: u32,
        /// The number of the later stream.
        later: u32,
    },
    /// The view selects no instrument.
    SelectsNothing {
        /// The number of the view.
        view: u32,
    },
    /// No instrument that the view selects declares the key at this place of a list of the view.
    UnknownKey {
        /// The number of the view.
        view: u32,
        /// The list.
        list: KeyList,
        /// The place in the list, counted from 0.
        place: u32,
    },
    /// The view gives boundaries, there are readers, and no stream of it is a histogram.
    UnusedBoundaries {
        /// The number of the view.
        view: u32,
    },
    /// The view has no criterion and no setting, so that each instrument gets a stream by it and nothing else is
    /// changed.
    SaysNothing {
        /// The number of the view.
        view: u32,
    },
    /// The view excludes the key at this place of its list of kept keys too, so that it is left out.
    KeptAndExcluded {
        /// The number of the view.
        view: u32,
        /// The place in the list of kept keys, counted from 0.
        place: u32,
    },
    /// No recorder has a budget for the instrument, and it has no spare, so nobody can record on it.
    Unrecorded {
        /// The number of the instrument.
        instrument: u32,
    },
    /// The instrument lists the combinations that it allows, and none.
    NothingAllowed {
        /// The number of the instrument.
        instrument: u32,
    },
    /// The instrument allows one value alone, which tells nothing: of what is added up only 0, since another one
    /// counts.
    OneValue {
        /// The number of the instrument.
        instrument: u32,
    },
    /// The instrument lists the combinations that it allows, and none of them has the value, so that no recording can.
    UnusedValue {
        /// The number of the instrument.
        instrument: u32,
        /// The number of the key.
        key: u32,
        /// The place of the value in the list of the key, counted from 0.
        value: u32,
    },
    /// Each boundary of the stream is outside the range of its instrument, so that one bucket takes each value.
    OneBucket {
        /// The number of the stream.
        stream: u32,
    },
    /// Most boundaries of the stream are outside the range of its instrument, or the range ends a hundred times beyond
    /// the last one, so that they look like numbers of another unit.
    FarBoundaries {
        /// The number of the stream.
        stream: u32,
    },
    /// The budgets of the instrument and its spare are together more than is safe.
    OverBudget {
        /// The number of the instrument.
        instrument: u32,
        /// What is not safe with one recording more than are safe.
        limit: Limit,
    },
    /// The recorder has no budget, so it can record nothing without a grant, and an instrument has nothing to grant.
    NoBudget {
        /// The number of the recorder.
        recorder: u32,
    },
    /// The catalogue has no recorder, so nothing can be recorded.
    NoRecorder,
    /// There are instruments, and the reader has no stream: each is dropped.
    NoStream {
        /// The number of the reader.
        reader: u32,
    },
    /// The reader has delta streams of instruments of a kind that has a level: up-down counters, of which it tells by
    /// how much they rose or fell and never where they stand, or gauges, of which it tells nothing that was not
    /// recorded anew.
    LevelDelta {
        /// The number of the reader.
        reader: u32,
        /// The kind, which is `UpDownCounter` or `Gauge`.
        kind: Kind,
    },
    /// The config has no reader, so nothing is collected.
    NoReader,
}

/// A list of keys of a view (Metrics SDK, stream configuration).
#[derive(Clone, Copy, Debug, PartialEq, Eq, Drop)]
pub enum KeyList {
    /// The keys that are kept.
    Keep,
    /// The keys that are left out.
    Exclude,
}

impl KeyList {
    // The name of the list's field in a config.
    fn field(self) -> &'static str {
        match self {
            KeyList::Keep => "keep",
            KeyList::Exclude => "exclude",
        }
    }
}

impl Remark {
    /// The name of its kind, by which it is allowed or denied.
    pub fn kind(&self) -> &'static str
        ensures { result.now ≡ kind_of self.now }
    {
        match self {
            Remark::Unfit { .. } => "unfit",
            Remark::Collision { .. } => "collision",
            Remark::SelectsNothing { .. } => "selects-nothing",
            Remark::UnknownKey { .. } => "unknown-key",
            Remark::UnusedBoundaries { .. } => "unused-boundaries",
            Remark::SaysNothing { .. } => "says-nothing",
            Remark::KeptAndExcluded { .. } => "kept-and-excluded",
            Remark::Unrecorded { .. } => "unrecorded",
            Remark::NothingAllowed { .. } => "nothing-allowed",
            Remark::OneValue { .. } => "one-value",
            Remark::UnusedValue { .. } => "unused-value",
            Remark::OneBucket { .. } => "one-bucket",
            Remark::FarBoundaries { .. } => "far-boundaries",
            Remark::OverBudget { .. } => "over-budget",
            Remark::NoBudget { .. } => "no-budget",
            Remark::NoRecorder => "no-recorder",
            Remark::NoStream { .. } => "no-stream",
            Remark::LevelDelta { .. } => "level-delta",
            Remark::NoReader => "no-reader",
        }
    }
}

/// Whether a kind of remark has this name.
pub fn is_kind(name: &str) -> bool
    ensures { result ≡ is_kind name.now }
{
    matches!(
        name,
        "unfit"
            | "collision"
            | "selects-nothing"
            | "unknown-key"
            | "unused-boundaries"
            | "says-nothing"
            | "kept-and-excluded"
            | "unrecorded"
            | "nothing-allowed"
            | "one-value"
            | "unused-value"
            | "one-bucket"
            | "far-boundaries"
            | "over-budget"
            | "no-budget"
            | "no-recorder"
            | "no-stream"
            | "level-delta"
            | "no-reader"
    )
}

impl fmt::Display for Remark {
    fn fmt<W: fmt::Write>(&self, f: &mut fmt::Formatter<W>) -> fmt::Result {
        match *self {
            Remark::Unfit { view, instrument } => write_unfit(f, view, instrument),
            Remark::Collision { first, later } => {
                write!(f, "stream {later} has the identity of stream {first}")
            }
            Remark::SelectsNothing { view } => write!(f, "view {view} selects no instrument"),
            Remark::UnknownKey { view, list, place } => write_unknown(f, view, list, place),
            Remark::UnusedBoundaries { view } => {
                write!(
                    f,
                    "view {view} gives boundaries, but no stream of it is a histogram"
                )
            }
            Remark::SaysNothing { view } => write!(f, "view {view} says nothing"),
            Remark::KeptAndExcluded { view, place } => {
                write!(f, "view {view} excludes the key keep[{place}]")
            }
            Remark::Unrecorded { instrument } => {
                write!(f, "instrument {instrument} has no budget and no spare")
            }
            Remark::NothingAllowed { instrument } => {
                write!(f, "instrument {instrument} allows no combination")
            }
            Remark::OneValue { instrument } => {
                write!(f, "instrument {instrument} has one value alone")
            }
            Remark::UnusedValue {
                instrument,
                key,
                value,
            } => write_unused(f, instrument, key, value),
            Remark::OneBucket { stream } => {
                write!(f, "one bucket of stream {stream} takes each value")
            }
            Remark::FarBoundaries { stream } => {
                write!(f, "boundaries of stream {stream} are far from its values")
            }
            Remark::OverBudget { instrument, .. } => {
                write!(f, "instrument {instrument} has larger budgets than is safe")
            }
            Remark::NoBudget { recorder } => write!(f, "recorder {recorder} has no budget"),
            Remark::NoRecorder => f.write_str("there is no recorder"),
            Remark::NoStream { reader } => write!(f, "reader {reader} has no stream"),
            Remark::LevelDelta { reader, kind } => {
                write!(f, "reader {reader} has delta streams of {kind:?}")
            }
            Remark::NoReader => f.write_str("there is no reader"),
        }
    }
}

fn write_unfit<W: fmt::Write>(
    f: &mut fmt::Formatter<W>,
    view: u32,
    instrument: u32,
) -> fmt::Result {
    write!(
        f,
        "view {view} names an aggregation that does not fit instrument {instrument}"
    )
}

fn write_unknown<W: fmt::Write>(
    f: &mut fmt::Formatter<W>,
    view: u32,
    list: KeyList,
    place: u32,
) -> fmt::Result {
    let list = list.field();
    write!(
        f,
        "view {view}: no selected instrument declares the key {list}[{place}]"
    )
}

fn write_unused<W: fmt::Write>(
    f: &mut fmt::Formatter<W>,
    instrument: u32,
    key: u32,
    value: u32,
) -> fmt::Result {
    write!(
        f,
        "instrument {instrument} allows no combination with value {value} of key {key}"
    )
}
