//! Worked values, each aggregator through its trait.
use crate::asserted::{OrFail, assert_equal};
use metric_aggregate::{Aggregate, BucketAgg, HistogramParameters, LastAgg, PointValue, SumAgg};
use metric_base::{Boundaries, Copied, Few, Shared, copy_all, is_rising, is_same};
use std::alloc::Global;
use std::process::Abort;

#[derive(Clone, Copy)]
enum Kind {
    Sum,
    Last,
    // Boundaries, and whether the sum is kept.
    Buckets(&'static [i64], bool),
}

const DEFAULTS: &[i64] = &[
    0, 5, 10, 25, 50, 75, 100, 250, 500, 750, 1000, 2500, 5000, 7500, 10000,
];

// Values, and what is read of them; the first value that does not fit ends them.
const READ: &[(Kind, &[i64], &str)] = &[
    (Kind::Sum, &[], "nothing"),
    (Kind::Sum, &[7], "Sum(7) true None"),
    (
        Kind::Sum,
        &[i64::MAX, -1],
        "Sum(9223372036854775806) true None",
    ),
    (
        Kind::Sum,
        &[i64::MAX, 0, 1],
        "Sum(9223372036854775807) true Some(1)",
    ),
    (
        Kind::Sum,
        &[i64::MIN, -1],
        "Sum(-9223372036854775808) true Some(-1)",
    ),
    (Kind::Last, &[], "nothing"),
    (Kind::Last, &[3, -1], "Last(-1) true None"),
    (Kind::Buckets(&[5], true), &[], "nothing"),
    (
        Kind::Buckets(&[], true),
        &[7],
        "Buckets { count: 1, counts: Items { items: [1] }, sum: Some(7), min: 7, max: 7 } true None",
    ),
    (
        Kind::Buckets(&[5], true),
        &[5, 6],
        "Buckets { count: 2, counts: Items { items: [1, 1] }, sum: Some(11), min: 5, max: 6 } true None",
    ),
    (
        Kind::Buckets(DEFAULTS, true),
        &[0, 5, 6, 10000, 10001],
        "Buckets { count: 5, counts: Items { items: [1, 1, 1, 0, 0, 0, 0, 0, 0, 0, 0, 0, 0, 0, 1, 1] }, sum: Some(20012), min: 0, max: 10001 } true None",
    ),
    (
        Kind::Buckets(DEFAULTS, false),
        &[-3, 4],
        "Buckets { count: 2, counts: Items { items: [1, 1, 0, 0, 0, 0, 0, 0, 0, 0, 0, 0, 0, 0, 0, 0] }, sum: None, min: -3, max: 4 } true None",
    ),
    (
        Kind::Buckets(&[0], true),
        &[i64::MIN, -1],
        "Buckets { count: 1, counts: Items { items: [1, 0] }, sum: Some(-9223372036854775808), min: -9223372036854775808, max: -9223372036854775808 } true Some(-1)",
    ),
    (
        Kind::Buckets(&[0], false),
        &[i64::MIN, -1],
        "Buckets { count: 2, counts: Items { items: [2, 0] }, sum: None, min: -9223372036854775808, max: -1 } true None",
    ),
];

// Adds values up to the first that does not fit, and gives that one.
fn add_all<A: Aggregate>(aggregate: &mut A, values: &[i64]) -> Option<i64> {
    for value in values {
        if !aggregate.fits(*value) {
            return Some(*value);
        }
        aggregate.add(*value);
    }
    None
}

// The text of a value's copy, and of a value for which there was no room.
fn text_of<R: Abort>(rt: &R, alloc: Global, value: &PointValue, refused: Option<i64>) -> String {
    let copy = value.copy(alloc).or_fail(rt);
    let is_copy = is_same(value, &copy);
    format!(in alloc; "{copy:?} {is_copy} {refused:?}").or_fail(rt)
}

fn told<R: Abort, A: Aggregate>(
    rt: &R,
    alloc: Global,
    parameters: &A::Parameters,
    values: &[i64],
) -> String {
    let mut aggregate = A::with_parameters(alloc, parameters).or_fail(rt);
    let refused = add_all(&mut aggregate, values);
    if aggregate.is_empty() {
        return String::from_str(alloc, "nothing").or_fail(rt);
    }
    text_of(rt, alloc, &aggregate.read(alloc).or_fail(rt), refused)
}

fn boundaries<R: Abort>(rt: &R, alloc: Global, numbers: &[i64]) -> Boundaries {
    let items = copy_all(alloc, numbers).or_fail(rt);
    if items.len() > 128 || !is_rising(items.as_slice()) {
        panic!(rt; "not boundaries");
    }
    Boundaries::from_few(Few::from_items(items))
}

fn told_between<R: Abort>(
    rt: &R,
    alloc: Global,
    numbers: &[i64],
    keeps_sum: bool,
    values: &[i64],
) -> String {
    let parameters = HistogramParameters {
        boundaries: Shared::new(alloc, boundaries(rt, alloc, numbers)).or_fail(rt),
        keeps_sum,
    };
    told::<R, BucketAgg>(rt, alloc, &parameters, values)
}

fn told_by<R: Abort>(rt: &R, alloc: Global, kind: Kind, values: &[i64]) -> String {
    match kind {
        Kind::Sum => told::<R, SumAgg>(rt, alloc, &(), values),
        Kind::Last => told::<R, LastAgg>(rt, alloc, &(), values),
        Kind::Buckets(numbers, keeps_sum) => told_between(rt, alloc, numbers, keeps_sum, values),
    }
}

#[test]
fn values_are_read_together(rt: HostRuntime) {
    for (kind, values, wanted) in READ {
        let told = told_by(&rt, rt.alloc(), *kind, values);
        assert_equal(&rt, told.as_str(), *wanted);
    }
}
