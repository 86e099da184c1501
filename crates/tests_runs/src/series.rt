//! Tables of series: which are held, the order of their points, the overflow point, and what is put back or emptied.
use crate::asserted::{OrFail, assert_equal};
use crate::plans::plan_of;
use metric_series::{SeriesTable, Table};
use metric_views::Stream;
use std::alloc::Global;
use std::process::Abort;

const CATALOGUE: &str = "format = 1
[[meter]]
name = 'm'
[[meter.instrument]]
name = 'hits'
kind = 'counter'
range = [0, 9]
key = [{ name = 'route', values = ['/a', '/b', '/c'] }]
";

// A stream of each aggregation, which holds two series.
const CONFIG: &str = "format = 1
[[reader]]
name = 'main'
[[view]]
aggregation = 'sum'
limit = 2
[[view]]
aggregation = 'last_value'
limit = 2
[[view]]
aggregation = 'explicit_bucket_histogram'
boundaries = [3]
limit = 2
";

// Entries of the key with values. After each list the table is emptied.
const VALUES: &[&[(u16, i64)]] = &[
    &[(2, 5), (1, 1), (2, 2)],
    &[],
    &[(1, 1), (2, i64::MAX), (3, 3), (2, 1), (1, 4), (3, 2)],
];

// Where each value of a list falls, and the points after them.
const TOLD: &str = "\
New(0);New(1);Held(0);
Some([1, 0, 0, 0, 0, 0, 0, 0]) Sum(1)
Some([2, 0, 0, 0, 0, 0, 0, 0]) Sum(7)

New(0);New(1);NewOverflow;SumRange;Held(0);Overflow;
Some([1, 0, 0, 0, 0, 0, 0, 0]) Sum(5)
Some([2, 0, 0, 0, 0, 0, 0, 0]) Sum(9223372036854775807)
None Sum(5)
New(0);New(1);Held(0);
Some([1, 0, 0, 0, 0, 0, 0, 0]) Last(1)
Some([2, 0, 0, 0, 0, 0, 0, 0]) Last(2)

New(0);New(1);NewOverflow;Held(1);Held(0);Overflow;
Some([1, 0, 0, 0, 0, 0, 0, 0]) Last(4)
Some([2, 0, 0, 0, 0, 0, 0, 0]) Last(1)
None Last(2)
New(0);New(1);Held(0);
Some([1, 0, 0, 0, 0, 0, 0, 0]) Buckets { count: 1, counts: Items { items: [1, 0] }, sum: Some(1), min: 1, max: 1 }
Some([2, 0, 0, 0, 0, 0, 0, 0]) Buckets { count: 2, counts: Items { items: [1, 1] }, sum: Some(7), min: 2, max: 5 }

New(0);New(1);NewOverflow;SumRange;Held(0);Overflow;
Some([1, 0, 0, 0, 0, 0, 0, 0]) Buckets { count: 2, counts: Items { items: [1, 1] }, sum: Some(5), min: 1, max: 4 }
Some([2, 0, 0, 0, 0, 0, 0, 0]) Buckets { count: 1, counts: Items { items: [0, 1] }, sum: Some(9223372036854775807), min: 9223372036854775807, max: 9223372036854775807 }
None Buckets { count: 2, counts: Items { items: [2, 0] }, sum: Some(5), min: 2, max: 3 }
";

// Makes a table ready for a value. An even one is put there, an odd one is put back and then added by one call.
#[tactic(auto, using(crate::specs::Taking::takes_any))]
fn write_added<R: Abort>(
    out: &mut String,
    rt: &R,
    table: &mut SeriesTable,
    entry: u16,
    value: i64,
) {
    let set = [entry, 0, 0, 0, 0, 0, 0, 0];
    match table.ready(&set, value) {
        Ok(place) if value % 2 == 0 => {
            table.put(place, value);
            write!(out, "{place:?};").or_fail(rt)
        }
        Ok(place) => {
            table.unready(place);
            table.add(&set, value).or_fail(rt);
            write!(out, "{place:?};").or_fail(rt)
        }
        Err(fault) => write!(out, "{fault:?};").or_fail(rt),
    }
}

fn write_all_added<R: Abort>(
    out: &mut String,
    rt: &R,
    table: &mut SeriesTable,
    values: &[(u16, i64)],
) {
    for (entry, value) in values {
        write_added(out, rt, table, *entry, *value);
    }
    out.push_str("\n").or_fail(rt);
}

fn write_points<R: Abort>(out: &mut String, rt: &R, alloc: Global, table: &SeriesTable) {
    for point in table.points(alloc).or_fail(rt) {
        write!(out, "{:?} {:?}\n", point.set, point.value).or_fail(rt);
    }
}

fn write_table<R: Abort>(out: &mut String, rt: &R, alloc: Global, table: &mut SeriesTable) {
    for values in VALUES {
        write_all_added(out, rt, table, values);
        write_points(out, rt, alloc, table);
        table.reset();
    }
}

fn write_tables<R: Abort>(out: &mut String, rt: &R, alloc: Global, streams: &[Stream]) {
    for stream in streams {
        let mut table = SeriesTable::new(alloc, stream).or_fail(rt);
        write_table(out, rt, alloc, &mut table);
    }
}

fn told<R: Abort>(rt: &R, alloc: Global) -> String {
    let plan = plan_of(rt, alloc, CATALOGUE, CONFIG);
    let mut out = String::new(alloc);
    write_tables(&mut out, rt, alloc, plan.streams());
    out
}

#[test]
fn a_table_holds_the_first_series_up_to_the_limit(rt: HostRuntime) {
    assert_equal(&rt, told(&rt, rt.alloc()).as_str(), TOLD);
}
