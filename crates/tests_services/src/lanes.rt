//! Lanes of one instrument, on which threads record and collect at once.
use crate::asserted::{OrFail, assert_equal};
use crate::seats::{BookSeats, seats_in_lanes};
use metric_aggregate::PointValue;
use metric_contents::Attr;
use metric_history::{Batch, Point};
use metric_provider::{Collector, Recorder};
use metric_sdk::MeterProvider;
use std::alloc::Global;
use std::process::Abort;
use std::sync::Wait;
use std::sync::atomic::{AtomicBool, Ordering};
use std::thread::{Threads, join};

// How often each recorder records, and how often a reader collects at most.
const TURNS: u32 = 5_000;

const COLLECTIONS: u32 = 1_000_000;

// A counter of two recorders, each with a series of its own.
const CATALOGUE: &str = "format = 1
[[meter]]
name = 'm'
[[meter.instrument]]
name = 'c'
kind = 'counter'
range = [0, 1]
key = [{ name = 'by', values = ['first', 'second'] }]
[[recorder]]
name = 'first'
budget = [{ instrument = 0, amount = 5000 }]
[[recorder]]
name = 'second'
budget = [{ instrument = 0, amount = 5000 }]
";

const SERIES: [&str; 2] = ["first", "second"];

// Two cumulative readers.
const CONFIG: &str = "format = 1\nreader = [{ name = 'a' }, { name = 'b' }]\n";

// Records by the first recorder and then by the second, in turn, and says when all is recorded.
fn record_in_turn<R: Abort + Wait>(
    rt: &R,
    provider: &MeterProvider,
    mut seats: Vec<Recorder>,
    is_done: &AtomicBool,
) {
    for _ in 0..TURNS {
        for (seat, series) in seats.iter_mut().zip(&SERIES) {
            let attrs = [Attr::text("by", series)];
            seat.record(rt, provider, 0, &attrs, 1).or_fail(rt);
        }
    }
    is_done.store(true, Ordering::SeqCst);
}

// The sum of the series of a place in the points of a batch.
fn sum_at(batch: &Batch, place: u16) -> i64 {
    let mut sum: i64 = 0;
    for stream in batch.streams.as_slice() {
        for point in stream.points.as_slice() {
            sum = sum.wrapping_add(own_sum(point, place));
        }
    }
    sum
}

fn own_sum(point: &Point, place: u16) -> i64 {
    match (&point.set, &point.value) {
        (Some([own, ..]), PointValue::Sum(sum)) if *own == place => *sum,
        _ => 0,
    }
}

// Collects until all is recorded. The sums of both series in the last batch; none where a batch had another number of
// recordings of the first recorder than of the second one, or one more.
fn sums_in_order<R: Abort + Wait>(
    rt: &R,
    alloc: Global,
    provider: &MeterProvider,
    mut reader: Collector,
    is_done: &AtomicBool,
) -> Option<(i64, i64)> {
    for _ in 0..COLLECTIONS {
        let is_last = is_done.load(Ordering::SeqCst);
        let batch = reader.collect(rt, alloc, provider, 0, 0).or_fail(rt);
        let (first, second) = (sum_at(&batch, 1), sum_at(&batch, 2));
        if first != second && first != second.wrapping_add(1) {
            return None;
        }
        if is_last {
            return Some((first, second));
        }
    }
    None
}

// What both readers see while the recorders record.
fn seen<R: Abort + Threads + Wait + Sync>(
    rt: &R,
    alloc: Global,
    seats: BookSeats<metric_sdk::Marked>,
) -> (Option<(i64, i64)>, Option<(i64, i64)>) {
    let (provider, recorders, mut collectors) = seats.into_parts();
    let (Some(second), Some(first)) = (collectors.pop(), collectors.pop()) else {
        panic!(rt; "no two readers");
    };
    let (provider, done) = (&provider, AtomicBool::new(false));
    let is_done = &done;
    let readers = move || {
        join(
            rt,
            move || sums_in_order(rt, alloc, provider, first, is_done),
            move || sums_in_order(rt, alloc, provider, second, is_done),
        )
    };
    let (_, both) = join(
        rt,
        move || record_in_turn(rt, provider, recorders, is_done),
        readers,
    );
    both
}

#[test]
fn a_collection_of_lanes_is_one_step(rt: HostRuntime) {
    for lanes in [1, 2] {
        let seats = seats_in_lanes(&rt, rt.alloc(), CATALOGUE, CONFIG, 0, (1, lanes));
        let all = Some((5_000, 5_000));
        assert_equal(&rt, seen(&rt, rt.alloc(), seats), (all, all));
    }
}
