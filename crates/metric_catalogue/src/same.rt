//! Whether two catalogues declare the same.
ghost use Rattle.std.specs.Prelude.{◌≡◌, ◌↔◌, IsTrue};

use metric_base::{Boundaries, Shared, is_same};
use metric_combinations::Combinations;
use metric_contents::{Budget, Contents, Instrument, Key, Kind, Meter, Recorder};
use metric_names::AttrValue;

// A value that is compared with another, exactly.
trait Same {
    ghost use Rattle.std.specs.Prelude.{◌≡◌, ◌↔◌, IsTrue};

    fn equals(&self, other: &Self) -> bool
        ensures { IsTrue result ↔ (self.now ≡ other.now) };
}

// Whether two lists have the same values.
fn are_same<T: Same>(a: &[T], b: &[T]) -> bool
    ensures { IsTrue result ↔ (a.now ≡ b.now) }
{
    if a.len() != b.len() {
        return false;
    }
    for (at, value) in a.iter().enumerate() {
        if !value.equals(&b[at]) {
            return false;
        }
    }
    true
}

/// Whether both declare the same.
pub(crate) fn are_same_contents(a: &Contents, b: &Contents) -> bool
    ensures { IsTrue result ↔ (a.now ≡ b.now) }
{
    a.format == b.format
        && are_same(a.meters.as_slice(), b.meters.as_slice())
        && are_same(a.instruments.as_slice(), b.instruments.as_slice())
        && are_same(a.recorders.as_slice(), b.recorders.as_slice())
}

impl Same for i64 {
    fn equals(&self, other: &i64) -> bool {
        is_same(self, other)
    }
}

impl Same for AttrValue {
    fn equals(&self, other: &AttrValue) -> bool {
        is_same(self, other)
    }
}

impl Same for Meter {
    fn equals(&self, other: &Meter) -> bool {
        is_same(&self.name, &other.name)
            && is_same(&self.version, &other.version)
            && is_same(&self.schema_url, &other.schema_url)
    }
}

impl Same for Key {
    fn equals(&self, other: &Key) -> bool {
        is_same(&self.name, &other.name)
            && are_same(self.values.as_slice(), other.values.as_slice())
            && self.optional == other.optional
    }
}

impl Same for Budget {
    fn equals(&self, other: &Budget) -> bool {
        self.instrument == other.instrument && self.amount == other.amount
    }
}

impl Same for Recorder {
    fn equals(&self, other: &Recorder) -> bool {
        is_same(&self.name, &other.name)
            && are_same(self.budgets.as_slice(), other.budgets.as_slice())
    }
}

impl Same for Instrument {
    fn equals(&self, other: &Instrument) -> bool {
        self.meter == other.meter
            && is_same_text(self.name.get().as_str(), other.name.get().as_str())
            && is_same_kind(self.kind, other.kind)
            && is_same_text(self.unit.get().as_str(), other.unit.get().as_str())
            && is_same(self.description.get(), other.description.get())
            && self.lo == other.lo
            && self.hi == other.hi
            && is_same_advice(&self.advice, &other.advice)
            && are_same(self.keys.as_slice(), other.keys.as_slice())
            && are_same_rows(&self.allowed, &other.allowed)
            && self.spare == other.spare
    }
}

fn is_same_text(a: &str, b: &str) -> bool
    ensures { IsTrue result ↔ (a.now ≡ b.now) }
{
    a == b
}

fn is_same_kind(a: Kind, b: Kind) -> bool
    ensures { IsTrue result ↔ (a ≡ b) }
{
    match (a, b) {
        (Kind::Counter, Kind::Counter)
        | (Kind::UpDownCounter, Kind::UpDownCounter)
        | (Kind::Histogram, Kind::Histogram)
        | (Kind::Gauge, Kind::Gauge) => true,
        _ => false,
    }
}

fn is_same_advice(a: &Option<Shared<Boundaries>>, b: &Option<Shared<Boundaries>>) -> bool
    ensures { IsTrue result ↔ (a.now ≡ b.now) }
{
    match (a, b) {
        (Some(a), Some(b)) => are_same(a.get().as_slice(), b.get().as_slice()),
        (None, None) => true,
        _ => false,
    }
}

fn are_same_rows(a: &Option<Combinations>, b: &Option<Combinations>) -> bool
    ensures { IsTrue result ↔ (a.now ≡ b.now) }
{
    match (a, b) {
        (Some(a), Some(b)) => is_same(a, b),
        (None, None) => true,
        _ => false,
    }
}
