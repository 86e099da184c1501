//! The kinds of changes, by their names.
ghost use Rattle.std.specs.Prelude.{◌≡◌};
ghost use Rattle.std.specs.List.{list_any};
ghost use Rattle.std.specs.Str.{bytes_eq};
ghost use Rattle.metric_diff.specs.Kinds.{declared_kind, is_change, kind_of, part_kind};

use crate::change::{Change, InstrumentPart, StreamPart};

// The names of all kinds.
const KINDS: [&str; 33] = [
    "gone-reader",
    "new-reader",
    "gone-collision",
    "new-collision",
    "gone-stream",
    "new-stream",
    "gone-key",
    "new-key",
    "gone-instrument",
    "new-instrument",
    "gone-value",
    "new-value",
    "gone-combination",
    "new-combination",
    "gone-recorder",
    "new-recorder",
    "reader",
    "series",
    "name",
    "description",
    "unit",
    "kind",
    "aggregation",
    "boundaries",
    "limit",
    "temporality",
    "instrument",
    "key",
    "range",
    "spare",
    "combinations",
    "budget",
    "headroom",
];

impl Change {
    /// The name of its kind, by which it is allowed or denied: what differs, or what is gone or new behind `gone-` or
    /// `new-`.
    pub fn kind(&self) -> &'static str
        ensures { result.now ≡ kind_of self.now }
    {
        match *self {
            Change::ReaderGone { .. } => "gone-reader",
            Change::ReaderNew { .. } => "new-reader",
            Change::ReaderRenamed { .. } => "reader",
            Change::CollisionGone { .. } => "gone-collision",
            Change::CollisionNew { .. } => "new-collision",
            Change::StreamGone { .. } => "gone-stream",
            Change::StreamNew { .. } => "new-stream",
            Change::StreamChanged { part, .. } => part_kind(part),
            Change::SeriesChanged { .. } => "series",
            Change::KeyGone { .. } | Change::DeclaredKeyGone { .. } => "gone-key",
            Change::KeyNew { .. } | Change::DeclaredKeyNew { .. } => "new-key",
            Change::InstrumentGone { .. } => "gone-instrument",
            Change::InstrumentNew { .. } => "new-instrument",
            Change::InstrumentChanged { part, .. } => declared_kind(part),
            Change::KeyTurned { .. } => "key",
            Change::ValueGone { .. } => "gone-value",
            Change::ValueNew { .. } => "new-value",
            Change::CombinationGone { .. } => "gone-combination",
            Change::CombinationNew { .. } => "new-combination",
            Change::BudgetChanged { .. } => "budget",
            Change::HeadroomChanged { .. } => "headroom",
            Change::RecorderGone { .. } => "gone-recorder",
            Change::RecorderNew { .. } => "new-recorder",
        }
    }
}

fn part_kind(part: StreamPart) -> &'static str
    ensures { result.now ≡ part_kind part }
{
    match part {
        StreamPart::Name => "name",
        StreamPart::Description => "description",
        StreamPart::Unit => "unit",
        StreamPart::Kind => "kind",
        StreamPart::Aggregation => "aggregation",
        StreamPart::Boundaries | StreamPart::MoreBoundaries => "boundaries",
        StreamPart::Limit => "limit",
        StreamPart::Temporality => "temporality",
        StreamPart::Instrument => "instrument",
    }
}

fn declared_kind(part: InstrumentPart) -> &'static str
    ensures { result.now ≡ declared_kind part }
{
    match part {
        InstrumentPart::Name => "name",
        InstrumentPart::Description => "description",
        InstrumentPart::Unit => "unit",
        InstrumentPart::Kind => "kind",
        InstrumentPart::Advice => "boundaries",
        InstrumentPart::Range | InstrumentPart::WiderRange => "range",
        InstrumentPart::Spare | InstrumentPart::MoreSpare => "spare",
        InstrumentPart::Listed | InstrumentPart::Unlisted => "combinations",
    }
}

/// Whether a kind of change has this name.
#[tactic(auto, using(crate::proofs::KindNames::kinds_are))]
pub fn is_change(name: &str) -> bool
    ensures { result ≡ is_change name.now }
{
    is_among(&KINDS, name)
}

fn is_among(words: &[&str], name: &str) -> bool
    ensures { result ≡ list_any (λ word. bytes_eq name.now word.now) words.now }
{
    words.iter().any(|word| name == *word)
}
