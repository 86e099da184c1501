//! What the run of each instrument depends on.
use crate::asserted::{OrFail, assert_equal};
use crate::plans::plan_of;
use metric_facts::{Facts, same_facts};
use metric_plan::Plan;
use std::alloc::Global;
use std::process::Abort;

const SHOP: &str = "format = 2
[[meter]]
name = 'm'
[[meter.instrument]]
name = 'hits'
kind = 'counter'
range = [0, 9]
key = [{ name = 'a', values = [1, 2] }, { name = 'b', values = [1], optional = true }]
allowed = [[2, 1], [1, 0]]
[[meter.instrument]]
name = 'heat'
kind = 'gauge'
range = [-9, 5]
[[meter.instrument]]
name = 'wait'
kind = 'histogram'
range = [0, 1]
[[meter.instrument]]
name = 'stock'
kind = 'up_down_counter'
range = [-1, 1]
[[recorder]]
name = 'r'
budget = [{ instrument = 0, amount = 7 }]
[[recorder]]
name = 's'
budget = [{ instrument = 3, amount = 8 }, { instrument = 0, amount = 9 }]
[[recorder]]
name = 't'
[[recorder]]
name = 'u'
budget = [{ instrument = 1, amount = 1 }]
";

const CONFIG: &str = "format = 1
[[reader]]
name = 'main'
temporality = { gauge = 'delta' }
[[reader]]
name = 'other'
temporality = { counter = 'delta', gauge = 'delta' }
[[view]]
instrument_name = 'hits'
[[view]]
instrument_name = 'h*'
stream_name = 'again'
[[view]]
instrument_name = 'wait'
aggregation = 'drop'
";

// The number, the least and the greatest value, keys, budgets, whether readers are delta, the listed combinations, and
// streams.
const SHOWN: &str = "\
[0, 0, 9] [KeyFacts { values: 2, optional: false }, KeyFacts { values: 1, optional: true }] [7, 9, 0, 0] [false, true] [[2, 1, 0, 0, 0, 0, 0, 0], [1, 0, 0, 0, 0, 0, 0, 0]] 0 1 4 5
[1, -9, 5] [] [0, 0, 0, 1] [true, true] 2 6
[2, 0, 1] [] [0, 0, 0, 0] [false, false]
[3, -1, 1] [] [0, 8, 0, 0] [false, false] 3 7
";

fn write_allowed<R: Abort>(out: &mut String, rt: &R, facts: &Facts) {
    if let Some(allowed) = &facts.allowed {
        let rows = allowed.rows();
        write!(out, " {rows:?}").or_fail(rt);
    }
}

fn write_streams<R: Abort>(out: &mut String, rt: &R, facts: &Facts) {
    for stream in facts.streams.as_slice() {
        let number = stream.number;
        write!(out, " {number}").or_fail(rt);
    }
    out.push_str("\n").or_fail(rt);
}

fn write_facts<R: Abort>(out: &mut String, rt: &R, facts: &Facts) {
    let numbers = [i64::from(facts.instrument), facts.lo, facts.hi];
    let keys = facts.keys.as_slice();
    let budgets = facts.budgets.as_slice();
    let delta = facts.delta.as_slice();
    write!(out, "{numbers:?} {keys:?} {budgets:?} {delta:?}").or_fail(rt);
    write_allowed(out, rt, facts);
    write_streams(out, rt, facts);
}

fn write_all<R: Abort>(out: &mut String, rt: &R, all: &[Facts]) {
    for facts in all {
        write_facts(out, rt, facts);
    }
}

fn shown<R: Abort>(rt: &R, alloc: Global) -> String {
    let plan = plan_of(rt, alloc, SHOP, CONFIG);
    let mut out = String::new(alloc);
    write_all(&mut out, rt, plan.all_facts());
    out
}

#[test]
fn each_instrument_has_its_facts(rt: HostRuntime) {
    assert_equal(&rt, shown(&rt, rt.alloc()).as_str(), SHOWN);
}

// What an instrument says of its combinations, what another says, and whether both have the same facts.
const LISTS: [(&str, &str, bool); 6] = [
    ("", "", true),
    ("", "allowed = []", false),
    (
        "allowed = [[1, 0], [2, 1]]",
        "allowed = [[1, 0], [2, 1]]",
        true,
    ),
    ("allowed = [[1, 0], [2, 1]]", "allowed = [[1, 0]]", false),
    (
        "allowed = [[1, 0], [2, 1]]",
        "allowed = [[1, 0], [1, 1]]",
        false,
    ),
    (
        "allowed = [[1, 0], [2, 1]]",
        "allowed = [[2, 1], [1, 0]]",
        false,
    ),
];

fn listed<R: Abort>(rt: &R, alloc: Global, allowed: &str) -> Plan {
    let text = format!(in alloc;
        "format = 2
[[meter]]
name = 'm'
[[meter.instrument]]
name = 'hits'
kind = 'counter'
range = [0, 9]
key = [{{ name = 'a', values = [1, 2] }}, {{ name = 'b', values = [1], optional = true }}]
{allowed}
"
    )
    .or_fail(rt);
    plan_of(rt, alloc, text.as_str(), CONFIG)
}

fn have_same_facts(plan: &Plan, other: &Plan) -> bool {
    match (plan.all_facts().first(), other.all_facts().first()) {
        (Some(facts), Some(others)) => same_facts(facts, others),
        _ => false,
    }
}

#[test]
fn facts_tell_the_listed_combinations(rt: HostRuntime) {
    for (allowed, other, same) in LISTS {
        let plan = listed(&rt, rt.alloc(), allowed);
        let others = listed(&rt, rt.alloc(), other);
        assert_equal(&rt, have_same_facts(&plan, &others), same);
    }
}
