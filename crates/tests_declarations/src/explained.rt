//! What a host is told of a refusal, and of tables that do not stand in a text.
use crate::asserted::{OrFail, assert_equal};
use metric_catalogue::{Catalogue, CatalogueFault, CataloguePlace};
use metric_contents::Attr;
use metric_lint::{explain_refusal, locate_in_catalogue, locate_in_config};
use metric_names::ValueRef;
use metric_views::ConfigPlace;
use std::alloc::{AllocError, Global};

const JOBS: &str = r#"
format = 1
[[meter]]
name = "jobs"
[[meter.instrument]]
name = "jobs.processed"
kind = "counter"
range = [1, 100]
key = [
    { name = "kind", values = ["print", "scan"] },
    { name = "retry", values = [true], optional = true },
]
[[meter.instrument]]
name = "queue"
kind = "gauge"
range = [-5, 5]
[[meter.instrument]]
name = "level"
kind = "up_down_counter"
range = [-4, 2]
[[recorder]]
name = "main"
budget = [
    { instrument = 0, amount = 1000 },
    { instrument = 1, amount = 7 },
    { instrument = 2, amount = 9 },
]
"#;

const PRINT: Attr<'static> = Attr {
    key: "kind",
    value: ValueRef::Text("print"),
};

const SCAN: Attr<'static> = Attr {
    key: "kind",
    value: ValueRef::Text("scan"),
};

const SHRED: Attr<'static> = Attr {
    key: "kind",
    value: ValueRef::Text("shred"),
};

const RETRY: Attr<'static> = Attr {
    key: "retry",
    value: ValueRef::Flag(true),
};

const RETRY_TWICE: Attr<'static> = Attr {
    key: "retry",
    value: ValueRef::Whole(2),
};

const ZONE: Attr<'static> = Attr {
    key: "zo\nne",
    value: ValueRef::Flag(true),
};

// An instrument, attributes and a value, and what is told of their refusal.
const EXPLAINED: &[(u32, &[Attr<'static>], i64, &str)] = &[
    (0, &[PRINT, RETRY], 100, ""),
    (1, &[], -5, ""),
    (3, &[ZONE, ZONE], 0, "there is no instrument 3"),
    (
        0,
        &[SHRED, RETRY, ZONE, RETRY, ZONE],
        0,
        "jobs.processed: key \"retry\" stands twice",
    ),
    (
        0,
        &[SHRED, ZONE],
        0,
        "jobs.processed: key \"zo\\nne\" is not declared",
    ),
    (
        0,
        &[RETRY_TWICE, SHRED],
        0,
        "jobs.processed: key \"retry\" has no value 2",
    ),
    (
        0,
        &[SHRED],
        0,
        "jobs.processed: key \"kind\" has no value \"shred\"",
    ),
    (0, &[RETRY], 0, "jobs.processed: key \"kind\" is missing"),
    (
        0,
        &[PRINT],
        101,
        "jobs.processed: value 101 is not in the range from 1 to 100",
    ),
];

// The same of a catalogue that allows two combinations alone.
const PAIRED: &[(u32, &[Attr<'static>], i64, &str)] = &[
    (0, &[PRINT, RETRY], 0, ""),
    (0, &[SCAN], 9, ""),
    (
        0,
        &[RETRY, SCAN],
        10,
        "pairs: the values are not allowed together",
    ),
    (
        0,
        &[SCAN],
        10,
        "pairs: value 10 is not in the range from 0 to 9",
    ),
];

const PAIRS: &str = "format = 2
[[meter]]
name = 'm'
[[meter.instrument]]
name = 'pairs'
kind = 'counter'
range = [0, 9]
key = [{ name = 'kind', values = ['print', 'scan'] }, { name = 'retry', values = [true], optional = true }]
allowed = [[1, 1], [2, 0]]
";

// Promises nothing of the catalogue, so that no test is proved by the parts of its text.
fn catalogue_of(alloc: Global, text: &str) -> Result<Catalogue, CatalogueFault> {
    Catalogue::read(alloc, text)
}

fn explained(
    alloc: Global,
    catalogue: &Catalogue,
    case: &(u32, &'static [Attr<'static>], i64, &'static str),
) -> Result<String, AllocError> {
    match explain_refusal(catalogue, case.0, case.1, case.2) {
        Some(explanation) => format!(in alloc; "{explanation}"),
        None => Ok(String::new(alloc)),
    }
}

#[test]
fn refusals_are_explained(rt: HostRuntime) {
    for (text, cases) in [(JOBS, EXPLAINED), (PAIRS, PAIRED)] {
        let catalogue = catalogue_of(rt.alloc(), text).or_fail(&rt);
        for case in cases {
            let told = explained(rt.alloc(), &catalogue, case).or_fail(&rt);
            assert_equal(&rt, told.as_str(), case.3);
        }
    }
}

const TABLES: &str = "format = 1
[[meter]]
[[reader]]
";

// Cases of `tests/` have where tables stand.
#[test]
fn what_does_not_stand_in_a_catalogue_is_not_located(rt: HostRuntime) {
    for (place, stands) in [
        (CataloguePlace::Meter(0), true),
        (CataloguePlace::Meter(1), false),
        (CataloguePlace::Recorder(0), false),
    ] {
        let found = locate_in_catalogue(rt.alloc(), TABLES, place).or_fail(&rt);
        assert_equal(&rt, found.is_some(), stands);
    }
}

#[test]
fn what_does_not_stand_in_a_config_is_not_located(rt: HostRuntime) {
    for (place, stands) in [
        (ConfigPlace::Reader(0), true),
        (ConfigPlace::Reader(1), false),
        (ConfigPlace::View(0), false),
    ] {
        let found = locate_in_config(rt.alloc(), TABLES, place).or_fail(&rt);
        assert_equal(&rt, found.is_some(), stands);
    }
}
