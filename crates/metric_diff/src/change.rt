//! What differs between two catalogues and configs.
ghost use Rattle.std.specs.Prelude.{◌≡◌};
ghost use Rattle.metric_diff.specs.Breaking.{breaks, is_breaking, refuses};

/// What differs between an old catalogue and config and new ones. Readers, streams, instruments, keys, values and
/// recorders have their numbers, each in its own file.
#[derive(Clone, Copy, Drop)]
pub enum Change {
    /// The old reader is none of the new ones.
    ReaderGone {
        /// The number of the old reader.
        old: usize,
    },
    /// The new reader is none of the old ones.
    ReaderNew {
        /// The number of the new reader.
        new: usize,
    },
    /// A reader has another name.
    ReaderRenamed {
        /// The number of the old reader.
        old: usize,
        /// The number of the new one.
        new: usize,
    },
    /// The old stream has the name of an earlier one, and no new one has its name so.
    CollisionGone {
        /// The number of the old stream.
        old: usize,
    },
    /// The new stream has the name of an earlier one, and no old one has its name so.
    CollisionNew {
        /// The number of the new stream.
        new: usize,
    },
    /// The old stream is none of the new ones.
    StreamGone {
        /// The number of the old stream.
        old: usize,
    },
    /// The new stream is none of the old ones.
    StreamNew {
        /// The number of the new stream.
        new: usize,
    },
    /// A part of a stream differs.
    StreamChanged {
        /// The number of the old stream.
        old: usize,
        /// The number of the new one.
        new: usize,
        /// What differs.
        part: StreamPart,
    },
    /// How many series a stream may have is another number.
    SeriesChanged {
        /// The number of the old stream.
        old: usize,
        /// The number of the new one.
        new: usize,
    },
    /// A stream no longer keeps a key.
    KeyGone {
        /// The number of the old stream.
        old: usize,
        /// The number of the new one.
        new: usize,
        /// The number of the key, of the old instrument.
        key: usize,
    },
    /// A stream keeps a key that it did not keep.
    KeyNew {
        /// The number of the old stream.
        old: usize,
        /// The number of the new one.
        new: usize,
        /// The number of the key, of the new instrument.
        key: usize,
    },
    /// The old instrument is none of the new ones.
    InstrumentGone {
        /// The number of the old instrument.
        old: usize,
    },
    /// The new instrument is none of the old ones.
    InstrumentNew {
        /// The number of the new instrument.
        new: usize,
    },
    /// A part of what is declared of an instrument differs.
    InstrumentChanged {
        /// The number of the old instrument.
        old: usize,
        /// The number of the new one.
        new: usize,
        /// What differs.
        part: InstrumentPart,
    },
    /// An instrument no longer declares a key.
    DeclaredKeyGone {
        /// The number of the old instrument.
        old: usize,
        /// The number of the new one.
        new: usize,
        /// The number of the key, of the old instrument.
        key: usize,
    },
    /// An instrument declares a key that it did not declare.
    DeclaredKeyNew {
        /// The number of the old instrument.
        old: usize,
        /// The number of the new one.
        new: usize,
        /// The number of the key, of the new instrument.
        key: usize,
        /// Whether each recording has to give it a value.
        is_required: bool,
    },
    /// A key that could be left out no longer can, or the other way round.
    KeyTurned {
        /// The number of the old instrument.
        old: usize,
        /// The number of the new one.
        new: usize,
        /// The number of the key, of the old instrument.
        key: usize,
        /// The number of the key, of the new one.
        other: usize,
        /// Whether each recording has to give it a value now.
        is_required: bool,
    },
    /// A key no longer declares a value. A value of another type is another value.
    ValueGone {
        /// The number of the old instrument.
        old: usize,
        /// The number of the new one.
        new: usize,
        /// The number of the key, of the old instrument.
        key: usize,
        /// The number of the value, of the old key.
        value: usize,
    },
    /// A key declares a value that it did not declare.
    ValueNew {
        /// The number of the old instrument.
        old: usize,
        /// The number of the new one.
        new: usize,
        /// The number of the key, of the new instrument.
        key: usize,
        /// The number of the value, of the new key.
        value: usize,
    },
    /// Recordings of a combination of values are refused, of which each is declared still.
    CombinationGone {
        /// The number of the old instrument.
        old: usize,
        /// The number of the new one.
        new: usize,
        /// The number of the combination, of the old instrument.
        row: usize,
    },
    /// Recordings of a combination of values are no longer refused, of which each was declared before.
    CombinationNew {
        /// The number of the old instrument.
        old: usize,
        /// The number of the new one.
        new: usize,
        /// The number of the combination, of the new instrument.
        row: usize,
    },
    /// The budget of a recorder for an instrument is another one.
    BudgetChanged {
        /// The number of the old instrument.
        old: usize,
        /// The number of the new one.
        new: usize,
        /// The number of the old recorder.
        recorder: usize,
        /// The number of the new one.
        other: usize,
        /// Whether it is less.
        is_less: bool,
    },
    /// The greatest sum of budgets and spare that is safe is another one.
    HeadroomChanged {
        /// The number of the old instrument.
        old: usize,
        /// The number of the new one.
        new: usize,
    },
    /// The old recorder is none of the new ones.
    RecorderGone {
        /// The number of the old recorder.
        old: usize,
    },
    /// The new recorder is none of the old ones.
    RecorderNew {
        /// The number of the new recorder.
        new: usize,
    },
}

/// A part of a stream in which two may differ, though they are known by the same reader, meter and name.
#[derive(Clone, Copy, Drop)]
pub enum StreamPart {
    /// Capitals of the name.
    Name,
    /// The description.
    Description,
    /// The unit.
    Unit,
    /// The kind of the instrument.
    Kind,
    /// Whether its points are sums, last values or histograms.
    Aggregation,
    /// The boundaries of a histogram, of which an old one is none of the new ones.
    Boundaries,
    /// The boundaries of a histogram, to which some were added.
    MoreBoundaries,
    /// The limit of series.
    Limit,
    /// Delta or cumulative.
    Temporality,
    /// The instrument that it is of.
    Instrument,
}

/// A part of what is declared of an instrument, in which two may differ, though they are known by the same meter and
/// name.
#[derive(Clone, Copy, Drop)]
pub enum InstrumentPart {
    /// Capitals of the name.
    Name,
    /// The description.
    Description,
    /// The unit.
    Unit,
    /// The kind.
    Kind,
    /// The advised boundaries.
    Advice,
    /// The range, which has lost a value.
    Range,
    /// The range, which has lost none.
    WiderRange,
    /// The spare budget, which is less.
    Spare,
    /// The spare budget, which is more.
    MoreSpare,
    /// The combinations of values, which are listed now and were not.
    Listed,
    /// The combinations of values, which are no longer listed, so that each is allowed.
    Unlisted,
}

impl Change {
    /// Whether it breaks what is built on the streams, as dashboards and alerts, or refuses what could be recorded: what
    /// a name stands for goes, or is spelled or made otherwise; or a recording that was declared no longer is.
    pub fn is_breaking(&self) -> bool
        ensures { result ≡ is_breaking self.now }
    {
        match *self {
            Change::ReaderGone { .. } => true,
            Change::ReaderNew { .. } => false,
            Change::ReaderRenamed { .. } => false,
            Change::CollisionGone { .. } => false,
            Change::CollisionNew { .. } => true,
            Change::StreamGone { .. } => true,
            Change::StreamNew { .. } => false,
            Change::StreamChanged { part, .. } => breaks(part),
            Change::SeriesChanged { .. } => false,
            Change::KeyGone { .. } => true,
            Change::KeyNew { .. } => false,
            Change::InstrumentGone { .. } => true,
            Change::InstrumentNew { .. } => false,
            Change::InstrumentChanged { part, .. } => refuses(part),
            Change::DeclaredKeyGone { .. } => true,
            Change::DeclaredKeyNew { is_required, .. } => is_required,
            Change::KeyTurned { is_required, .. } => is_required,
            Change::ValueGone { .. } => true,
            Change::ValueNew { .. } => false,
            Change::CombinationGone { .. } => true,
            Change::CombinationNew { .. } => false,
            Change::BudgetChanged { is_less, .. } => is_less,
            Change::HeadroomChanged { .. } => false,
            Change::RecorderGone { .. } => true,
            Change::RecorderNew { .. } => false,
        }
    }
}

// Whether it breaks something that a part of a stream differs.
fn breaks(part: StreamPart) -> bool
    ensures { result ≡ breaks part }
{
    match part {
        StreamPart::Name => true,
        StreamPart::Description => false,
        StreamPart::Unit => true,
        StreamPart::Kind => true,
        StreamPart::Aggregation => true,
        StreamPart::Boundaries => true,
        StreamPart::MoreBoundaries => false,
        StreamPart::Limit => false,
        StreamPart::Temporality => true,
        StreamPart::Instrument => true,
    }
}

// Whether recordings are refused since a part of an instrument differs.
fn refuses(part: InstrumentPart) -> bool
    ensures { result ≡ refuses part }
{
    match part {
        InstrumentPart::Name => false,
        InstrumentPart::Description => false,
        InstrumentPart::Unit => false,
        InstrumentPart::Kind => true,
        InstrumentPart::Advice => false,
        InstrumentPart::Range => true,
        InstrumentPart::WiderRange => false,
        InstrumentPart::Spare => true,
        InstrumentPart::MoreSpare => false,
        InstrumentPart::Listed => true,
        InstrumentPart::Unlisted => false,
    }
}
