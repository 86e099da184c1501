//! Sums over the recordings of a window, made by reading it through. They allocate no memory.
ghost use Rattle.std.specs.Prelude.{◌≡◌, true, if◌then◌else◌, ◌*◌, ◌^◌, ◌-◌, pos, ◌+ℤ◌, neg_ℤ, ◌≤ℤ◌, length};
ghost use Rattle.metric_aggregate.specs.Range.{fits_i64, sum_in_range};
ghost use Rattle.metric_aggregate.specs.Value.{sum_of};
ghost use Rattle.metric_history.specs.Aggregations.{stream_aggregation};
ghost use Rattle.metric_history.specs.Series.{series, all_series, has, rows, place_found, belongs as is_row};
ghost use Rattle.metric_history.specs.Points.{values};
ghost use Rattle.metric_history.specs.Windows.{fits_stream as is_in_range};

use crate::series::{has_place, series_of};
use metric_contents::SetKey;
use metric_history::Entry;
use metric_views::{Stream, StreamAggregation};

/// Whether a recording of the window belongs to a series, or, without one, to the overflow series.
#[tactic(auto, using(metric_history::specs::SeriesLaws::known_place))]
pub fn belongs(stream: &Stream, window: &[Entry], place: &Option<SetKey>, entry: &Entry) -> bool
    requires { let kept = stream.now.kept in
        has (all_series kept window.now) (series kept entry.now) ≡ true }
    ensures { result ≡ is_row stream.now window.now place.now entry.now }
{
    let key = series_of(stream.kept.get().as_slice(), entry);
    match place {
        Some(place) => key == *place,
        None => !has_place(
            stream.kept.get().as_slice(),
            stream.limit as usize,
            window,
            &key,
        ),
    }
}

// What a recording adds to a sum.
fn share(is_row: bool, entry: &Entry) -> i128
    ensures value { result ≡ (if is_row then entry.now.value else pos 0) }
    ensures low { neg_ℤ (pos (2 ^ 63)) ≤ℤ result }
    ensures high { result ≤ℤ pos (2 ^ 63) }
{
    let value = i128::from(entry.value);
    if is_row { value } else { 0 }
}

/// The sum of the recordings of a series, or, without one, of the overflow series.
#[tactic(auto, using(metric_history::specs::SeriesLaws::has_own_series))]
pub fn sum_of_rows(stream: &Stream, window: &[Entry], place: &Option<SetKey>) -> i128
    ensures sum { result ≡ sum_of (values (rows stream.now window.now place.now)) }
    ensures low { neg_ℤ (pos (2 ^ 63 * length window.now)) ≤ℤ result }
    ensures high { result ≤ℤ pos (2 ^ 63 * length window.now) }
{
    let mut sum: i128 = 0;
    for entry in window {
        let share = share(belongs(stream, window, place, entry), entry);
        sum += share;
    }
    sum
}

const LEAST: i128 = -9_223_372_036_854_775_808;

const PAST: i128 = 9_223_372_036_854_775_808;

// A sum with one value more.
fn sum_with(sum: &i128, entry: &Entry) -> i128
    requires low { neg_ℤ (pos (2 ^ 127 - 2 ^ 63)) ≤ℤ sum.now }
    requires high { sum.now ≤ℤ pos (2 ^ 127 - 2 ^ 63) }
    ensures { result ≡ sum.now +ℤ entry.now.value }
{
    *sum + i128::from(entry.value)
}

fn is_i64(sum: &i128) -> bool
    ensures { result ≡ fits_i64 sum.now }
{
    LEAST <= *sum && *sum < PAST
}

// Whether a sum is in range, where the stream keeps it.
fn takes_sum(stream: &Stream, sum: &i128) -> bool
    ensures { result ≡ sum_in_range (stream_aggregation stream.now) sum.now }
{
    match &stream.aggregation {
        StreamAggregation::LastValue => true,
        StreamAggregation::Sum => is_i64(sum),
        StreamAggregation::Histogram(_) => !stream.kind.is_monotonic() || is_i64(sum),
    }
}

// The series into which a recording falls that is the window's next.
fn place_of(stream: &Stream, window: &[Entry], entry: &Entry) -> Option<SetKey>
    ensures { result ≡ place_found stream.now window.now entry.now }
{
    let key = series_of(stream.kept.get().as_slice(), entry);
    let is_held = has_place(
        stream.kept.get().as_slice(),
        stream.limit as usize,
        window,
        &key,
    );
    if is_held { Some(key) } else { None }
}

/// Whether the series into which a recording falls stays in range with it.
pub fn fits_stream(stream: &Stream, window: &[Entry], entry: &Entry) -> bool
    ensures { result ≡ is_in_range stream.now window.now entry.now }
{
    let place = place_of(stream, window, entry);
    let sum = sum_with(&sum_of_rows(stream, window, &place), entry);
    takes_sum(stream, &sum)
}
