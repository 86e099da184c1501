//! The order of streams by what tells them apart.
ghost use Rattle.std.specs.Prelude.{◌≡◌};
ghost use Rattle.metric_resolve.specs.Collisions.{identity_with};
ghost use Rattle.metric_resolve.specs.Identities.{identity_order, scope_order};

use metric_contents::Meter;
use metric_views::Stream;
use std::cmp::Ordering;

/// The order of two streams, each with the meter of its instrument, by their identities (Metrics data
/// model, identity): by reader, meter name, version and schema URL, and then by name without ASCII case.
/// Texts are compared by bytes.
pub fn identity_order(
    left: &Stream,
    left_meter: &Meter,
    right: &Stream,
    right_meter: &Meter,
) -> Ordering
    ensures { result
        ≡ identity_order (identity_with left.now left_meter.now)
        (identity_with right.now right_meter.now) }
{
    match left.reader.cmp(&right.reader) {
        Ordering::Equal => match scope_order(left_meter, right_meter) {
            Ordering::Equal => left.name.get().fold_order(right.name.get()),
            order => order,
        },
        order => order,
    }
}

// The order of meters by name, version and schema URL.
fn scope_order(left: &Meter, right: &Meter) -> Ordering
    ensures { result ≡ scope_order left.now right.now }
{
    match left.name.as_str().cmp(right.name.as_str()) {
        Ordering::Equal => match left.version.as_str().cmp(right.version.as_str()) {
            Ordering::Equal => left.schema_url.as_str().cmp(right.schema_url.as_str()),
            order => order,
        },
        order => order,
    }
}
