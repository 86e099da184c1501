//! Remarks on the values that an instrument may be recorded with.
ghost use Rattle.std.specs.Prelude.{◌≡◌, ◌==◌, ◌<◌, ◌≤◌, ◌*ℤ◌, ◌++◌, ◌||◌, OnOk, Some, count_by, int_le, int_lt, length, not, pos};
ghost use Rattle.std.specs.List.{flat_map, list_all, list_any};
ghost use Rattle.metric_lint.specs.Values.{allows_nothing, are_far, are_far_of, are_most_outside, ends_before, has_far, has_one_value, is_one_bucket, is_one_bucket_of, is_outside, is_sum, look_far, stream_remark, stream_remarks, tell_apart, tells_nothing, value_remarks};

use crate::linting::add_when;
use crate::remark::Remark;
use metric_base::Items;
use metric_catalogue::Catalogue;
use metric_contents::{Instrument, Kind};
use metric_views::{Stream, StreamAggregation};
use std::alloc::AllocError;

/// Puts the remarks on the values of an instrument last.
pub(crate) fn add_values(
    remarks: &mut Items<Remark>,
    instrument: &Instrument,
    number: u32,
) -> Result<(), AllocError>
    ensures { OnOk result (remarks.new ≡ remarks.old ++ value_remarks instrument.now number) }
{
    let allows_nothing = allows_nothing(instrument);
    let remark = Remark::NothingAllowed { instrument: number };
    add_when(remarks, allows_nothing, remark)?;
    let has_one = has_one_value(instrument);
    add_when(remarks, has_one, Remark::OneValue { instrument: number })
}

// Whether an instrument lists combinations, and none.
fn allows_nothing(instrument: &Instrument) -> bool
    ensures { result ≡ allows_nothing instrument.now.allowed }
{
    match &instrument.allowed {
        Some(combinations) => combinations.rows().is_empty(),
        None => false,
    }
}

// Whether an instrument has one value, which tells nothing: of a sum only 0, since another one counts.
fn has_one_value(instrument: &Instrument) -> bool
    ensures { result ≡ has_one_value instrument.now }
{
    instrument.lo == instrument.hi && (instrument.lo == 0 || !is_sum(instrument.kind))
}

// Whether the values of a kind are added up.
fn is_sum(kind: Kind) -> bool
    ensures { result ≡ is_sum kind }
{
    match kind {
        Kind::Counter | Kind::UpDownCounter => true,
        Kind::Histogram | Kind::Gauge => false,
    }
}

/// Puts a remark last for each stream whose buckets tell nothing.
pub(crate) fn add_streams(
    remarks: &mut Items<Remark>,
    catalogue: &Catalogue,
    streams: &[Stream],
) -> Result<(), AllocError>
    requires { length streams.now ≤ 2097152 }
    ensures { OnOk result (remarks.new ≡ remarks.old ++ stream_remarks catalogue.now streams.now) }
{
    for (number, stream) in streams.iter().enumerate() {
        add_stream(remarks, catalogue, stream, number as u32)?;
    }
    Ok(())
}

// Puts the remarks on the buckets of the stream of this number last.
fn add_stream(
    remarks: &mut Items<Remark>,
    catalogue: &Catalogue,
    stream: &Stream,
    number: u32,
) -> Result<(), AllocError>
    ensures { OnOk result (remarks.new ≡ remarks.old
        ++ stream_remark catalogue.now (number, stream.now)) }
{
    let is_one = tells_nothing(catalogue, stream);
    add_when(remarks, is_one, Remark::OneBucket { stream: number })?;
    let is_far = has_far(catalogue, stream);
    add_when(remarks, is_far, Remark::FarBoundaries { stream: number })
}

// Whether one bucket of a stream takes each of several values.
fn tells_nothing(catalogue: &Catalogue, stream: &Stream) -> bool
    ensures { result ≡ tells_nothing catalogue.now stream.now }
{
    match catalogue.instruments().get(stream.instrument as usize) {
        Some(instrument) => is_one_bucket_of(instrument, &stream.aggregation),
        None => false,
    }
}

fn is_one_bucket_of(instrument: &Instrument, aggregation: &StreamAggregation) -> bool
    ensures { result ≡ is_one_bucket_of (Some instrument.now) aggregation.now }
{
    match aggregation {
        StreamAggregation::Sum => false,
        StreamAggregation::LastValue => false,
        StreamAggregation::Histogram(boundaries) => {
            let boundaries = boundaries.get().as_slice();
            is_one_bucket(instrument.lo, instrument.hi, boundaries)
        }
    }
}

// Whether there are boundaries, and none of them tells values of a range apart.
fn is_one_bucket(lo: i64, hi: i64, boundaries: &[i64]) -> bool
    ensures { result ≡ is_one_bucket lo hi boundaries.now }
{
    lo < hi && !boundaries.is_empty() && are_outside(lo, hi, boundaries)
}

// Whether each boundary is outside a range.
fn are_outside(lo: i64, hi: i64, boundaries: &[i64]) -> bool
    ensures { result ≡ list_all (is_outside lo hi) boundaries.now }
{
    boundaries
        .iter()
        .all(|boundary| is_outside(lo, hi, *boundary))
}

// Whether a boundary is below each value, or above or at each.
fn is_outside(lo: i64, hi: i64, boundary: i64) -> bool
    ensures { result ≡ is_outside lo hi boundary }
{
    boundary < lo || hi <= boundary
}

// Whether the boundaries of a stream are far from its values.
fn has_far(catalogue: &Catalogue, stream: &Stream) -> bool
    ensures { result ≡ has_far catalogue.now stream.now }
{
    match catalogue.instruments().get(stream.instrument as usize) {
        Some(instrument) => are_far_of(instrument, &stream.aggregation),
        None => false,
    }
}

fn are_far_of(instrument: &Instrument, aggregation: &StreamAggregation) -> bool
    ensures { result ≡ are_far_of (Some instrument.now) aggregation.now }
{
    match aggregation {
        StreamAggregation::Sum => false,
        StreamAggregation::LastValue => false,
        StreamAggregation::Histogram(boundaries) => {
            let boundaries = boundaries.get().as_slice();
            are_far(instrument.lo, instrument.hi, boundaries)
        }
    }
}

// Whether boundaries tell values of a range apart, and most are outside, or the range ends far beyond the last one.
fn are_far(lo: i64, hi: i64, boundaries: &[i64]) -> bool
    ensures { result ≡ are_far lo hi boundaries.now }
{
    tell_apart(lo, hi, boundaries) && look_far(lo, hi, boundaries)
}

fn tell_apart(lo: i64, hi: i64, boundaries: &[i64]) -> bool
    ensures { result ≡ tell_apart lo hi boundaries.now }
{
    lo < hi && !are_outside(lo, hi, boundaries)
}

// Whether boundaries look like numbers of another unit than a range.
fn look_far(lo: i64, hi: i64, boundaries: &[i64]) -> bool
    ensures { result ≡ look_far lo hi boundaries.now }
{
    are_most_outside(lo, hi, boundaries) || ends_before(hi, boundaries)
}

fn are_most_outside(lo: i64, hi: i64, boundaries: &[i64]) -> bool
    ensures { result ≡ are_most_outside lo hi boundaries.now }
{
    inside_count(lo, hi, boundaries) < outside_count(lo, hi, boundaries)
}

fn inside_count(lo: i64, hi: i64, boundaries: &[i64]) -> usize
    ensures { result ≡ count_by (λ boundary. not (is_outside lo hi boundary)) boundaries.now }
{
    boundaries
        .iter()
        .filter(|boundary| !is_outside(lo, hi, **boundary))
        .count()
}

fn outside_count(lo: i64, hi: i64, boundaries: &[i64]) -> usize
    ensures { result ≡ count_by (is_outside lo hi) boundaries.now }
{
    boundaries
        .iter()
        .filter(|boundary| is_outside(lo, hi, **boundary))
        .count()
}

// Whether the greatest value is a hundred times each boundary, of which one is above 0, or more.
fn ends_before(hi: i64, boundaries: &[i64]) -> bool
    ensures { result ≡ ends_before hi boundaries.now }
{
    has_positive(boundaries) && are_hundredths(hi, boundaries)
}

fn has_positive(boundaries: &[i64]) -> bool
    ensures { result ≡ list_any (λ boundary. int_lt (pos 0) boundary) boundaries.now }
{
    boundaries.iter().any(|boundary| 0 < *boundary)
}

fn are_hundredths(hi: i64, boundaries: &[i64]) -> bool
    ensures { result ≡ list_all (λ boundary. int_le (boundary *ℤ pos 100) hi) boundaries.now }
{
    boundaries
        .iter()
        .all(|boundary| is_hundredth(hi, *boundary))
}

fn is_hundredth(hi: i64, boundary: i64) -> bool
    ensures { result ≡ int_le (boundary *ℤ pos 100) hi }
{
    i128::from(boundary) * 100 <= i128::from(hi)
}
