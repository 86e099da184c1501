//! Whether points are the same.
ghost use Rattle.std.specs.Prelude.{◌≡◌, ◌↔◌, IsTrue};

use metric_base::is_same;
use metric_contents::SetKey;
use metric_history::{Point, StreamPoints};

// A value that is compared with another, exactly.
trait Same {
    ghost use Rattle.std.specs.Prelude.{◌≡◌, ◌↔◌, IsTrue};

    fn equals(&self, other: &Self) -> bool
        ensures { IsTrue result ↔ (self.now ≡ other.now) };
}

// Whether two lists have the same values.
fn are_same<T: Same>(a: &[T], b: &[T]) -> bool
    ensures { IsTrue result ↔ (a.now ≡ b.now) }
{
    if a.len() != b.len() {
        return false;
    }
    for (at, value) in a.iter().enumerate() {
        if !value.equals(&b[at]) {
            return false;
        }
    }
    true
}

// Whether two series are the same, or both the overflow series.
fn is_same_series(a: &Option<SetKey>, b: &Option<SetKey>) -> bool
    ensures { IsTrue result ↔ (a.now ≡ b.now) }
{
    match (a, b) {
        (Some(a), Some(b)) => *a == *b,
        (None, None) => true,
        _ => false,
    }
}

impl Same for Point {
    fn equals(&self, other: &Point) -> bool {
        is_same_series(&self.set, &other.set) && is_same(&self.value, &other.value)
    }
}

impl Same for StreamPoints {
    fn equals(&self, other: &StreamPoints) -> bool {
        self.stream == other.stream && are_same(self.points.as_slice(), other.points.as_slice())
    }
}

/// Whether the points of each stream are the same.
pub(crate) fn are_same_streams(a: &[StreamPoints], b: &[StreamPoints]) -> bool
    ensures { IsTrue result ↔ (a.now ≡ b.now) }
{
    are_same(a, b)
}
