//! Dense tables: the ranks of sets, and the points after them. A case of `tests/` runs scripts over them.
ghost use Rattle.std.specs.Prelude.{◌≡◌, ◌==◌, true};
ghost use Rattle.std.specs.List.{list_all};
ghost use Rattle.metric_facts.specs.Facts.{is_entry, is_full_set};
ghost use Rattle.metric_facts.specs.Products.{AreDense};
ghost use Rattle.tests_runs.specs.Taking.{TakesFullSets};

use crate::asserted::{OrFail, assert_equal};
use crate::plans::dense_plan_of;
use metric_catalogue::Catalogue;
use metric_cert::By;
use metric_contents::SetKey;
use metric_dense::{DenseTable, dense_table};
use metric_facts::{Facts, KeyFacts};
use metric_make::make;
use metric_plan::Plan;
use metric_series::Table;
use metric_views::Config;
use std::alloc::Global;
use std::process::Abort;

const CATALOGUE: &str = "format = 1
[[meter]]
name = 'm'
[[meter.instrument]]
name = 'hits'
kind = 'counter'
range = [0, 100]
key = [{ name = 'route', values = ['/a', '/b'] }]
[[meter.instrument]]
name = 'heat'
kind = 'gauge'
range = [-9, 9]
key = [{ name = 'a', values = [1, 2] }, { name = 'b', values = [1, 2, 3], optional = true }]
";

const CONFIG: &str = "format = 1
[[reader]]
name = 'main'
";

// Instruments, each with the first two entries of set keys and values.
const ADDED: &[(u32, &[(u16, u16, i64)])] = &[
    (0, &[(2, 0, 5), (1, 0, 1), (2, 0, 2)]),
    (1, &[(1, 3, 4), (2, 0, -6), (2, 3, 3), (1, 0, 8), (1, 3, 9)]),
];

// How many series each stream can have; then of each instrument the place of each value, the points after them, and how
// many are left once the table is emptied.
const TOLD: &str = "\
2 sets, by product: true
8 sets, by product: true
Held(1);Held(0);Held(1);
Some([1, 0, 0, 0, 0, 0, 0, 0]) Sum(1)
Some([2, 0, 0, 0, 0, 0, 0, 0]) Sum(7)
0
Held(3);Held(4);Held(7);Held(0);Held(3);
Some([1, 0, 0, 0, 0, 0, 0, 0]) Last(8)
Some([1, 3, 0, 0, 0, 0, 0, 0]) Last(9)
Some([2, 0, 0, 0, 0, 0, 0, 0]) Last(-6)
Some([2, 3, 0, 0, 0, 0, 0, 0]) Last(3)
0
";

// Whether an entry names a value of the key, or is 0 where the key may be left out.
fn is_entry(key: &KeyFacts, entry: u16) -> bool
    ensures { result ≡ is_entry key.now entry }
{
    if entry == 0 {
        key.optional
    } else {
        entry <= key.values
    }
}

// Whether each entry is 0.
fn are_zero(entries: &[u16]) -> bool
    ensures { result ≡ list_all (λ entry. entry == 0) entries.now }
{
    entries.iter().all(|entry| *entry == 0)
}

// Whether the entries are a full set of the keys.
fn is_full(keys: &[KeyFacts], entries: &[u16]) -> bool
    ensures { result ≡ is_full_set keys.now entries.now }
{
    match (keys.split_first(), entries.split_first()) {
        (None, _) => are_zero(entries),
        (Some(_), None) => false,
        (Some((key, keys)), Some((entry, rest))) => is_entry(key, *entry) && is_full(keys, rest),
    }
}

// Makes a table ready for a value. An even one is put there, an odd one is put back and then added by one call.
fn write_added<R: Abort>(
    out: &mut String,
    rt: &R,
    table: &mut DenseTable,
    keys: &[KeyFacts],
    set: &SetKey,
    value: i64,
)
    requires takes { TakesFullSets table.old keys.now }
    requires full { is_full_set keys.now set.now ≡ true }
    ensures { TakesFullSets table.new keys.now }
{
    match table.ready(set, value) {
        Ok(place) if value % 2 == 0 => {
            table.put(place, value);
            write!(out, "{place:?};").or_fail(rt)
        }
        Ok(place) => {
            table.unready(place);
            table.add(set, value).or_fail(rt);
            write!(out, "{place:?};").or_fail(rt)
        }
        Err(fault) => Err(fault).or_fail(rt),
    }
}

fn write_all_added<R: Abort>(
    out: &mut String,
    rt: &R,
    table: &mut DenseTable,
    keys: &[KeyFacts],
    added: &[(u16, u16, i64)],
)
    requires { TakesFullSets table.old keys.now }
{
    for (first, second, value) in added {
        let set = [*first, *second, 0, 0, 0, 0, 0, 0];
        if !is_full(keys, &set) {
            panic!(rt; "no set of the instrument");
        }
        write_added(out, rt, table, keys, &set, *value);
    }
    out.push_str("\n").or_fail(rt);
}

// The points, and how many there are once the table is emptied.
fn write_points<R: Abort>(out: &mut String, rt: &R, alloc: Global, table: &mut DenseTable) {
    for point in table.points(alloc).or_fail(rt) {
        write!(out, "{:?} {:?}\n", point.set, point.value).or_fail(rt);
    }
    table.reset();
    let left = table.points(alloc).or_fail(rt).len();
    write!(out, "{left}\n").or_fail(rt);
}

// What the table of an instrument's first stream tells.
fn write_table<R: Abort>(
    out: &mut String,
    rt: &R,
    alloc: Global,
    facts: &Facts,
    added: &[(u16, u16, i64)],
)
    requires { AreDense facts.now }
{
    let keys = facts.keys.as_slice();
    let streams = facts.streams.as_slice();
    let [numbered, ..] = streams else {
        panic!(rt; "no stream");
    };
    if !numbered.by_product {
        panic!(rt; "not by product");
    }
    let mut table = dense_table(alloc, keys, &numbered.stream).or_fail(rt);
    write_all_added(out, rt, &mut table, keys, added);
    write_points(out, rt, alloc, &mut table);
}

fn write_instrument<R: Abort>(
    out: &mut String,
    rt: &R,
    alloc: Global,
    plan: &Plan,
    instrument: u32,
    added: &[(u16, u16, i64)],
) {
    if instrument as usize >= plan.all_facts().len() {
        panic!(rt; "no such instrument");
    }
    // For the proof alone: the catalogue is sound.
    let _sound = plan.catalogue().instruments();
    write_table(out, rt, alloc, plan.facts(instrument), added);
}

// What the certificate says of each stream.
fn write_sets<R: Abort>(out: &mut String, rt: &R, alloc: Global) {
    let catalogue = Catalogue::read(alloc, CATALOGUE).or_fail(rt);
    let config = Config::read(alloc, CONFIG).or_fail(rt);
    let certificate = make(alloc, &catalogue, &config).or_fail(rt);
    for stream in certificate.claims().streams.as_slice() {
        let is_by_product = matches!(stream.by, By::Product);
        writeln!(out, "{} sets, by product: {is_by_product}", stream.sets).or_fail(rt);
    }
}

fn tables_told<R: Abort>(rt: &R, alloc: Global) -> String {
    let plan = dense_plan_of(rt, alloc, CATALOGUE, CONFIG);
    let mut out = String::new(alloc);
    write_sets(&mut out, rt, alloc);
    for (instrument, added) in ADDED {
        write_instrument(&mut out, rt, alloc, &plan, *instrument, added);
    }
    out
}

#[test]
fn a_dense_table_has_a_place_for_each_series(rt: HostRuntime) {
    assert_equal(&rt, tables_told(&rt, rt.alloc()).as_str(), TOLD);
}
