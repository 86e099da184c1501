//! The printed texts of faults, refusals and remarks that no program prints as they are.
use crate::asserted::{OrFail, assert_equal};
use metric_catalogue::CatalogueFault;
use metric_contents::{Kind, Refusal};
use metric_exposure::ExposureFault;
use metric_glob::PatternFault;
use metric_lint::{KeyList, Limit, Remark};
use metric_names::{NameFault, UnitFault};
use metric_parts::InputFault;
use metric_views::ViewFault;
use std::alloc::Global;
use std::fmt::Display;
use std::process::Abort;

// Asserts that each is printed so.
fn assert_printed<R: Abort, T: Display>(rt: &R, alloc: Global, rows: &[(T, &str)]) {
    for (row, wanted) in rows {
        let told = row.to_string(alloc).or_fail(rt);
        assert_equal(rt, told.as_str(), *wanted);
    }
}

const PATTERNS: &[(PatternFault, &str)] = &[
    (PatternFault::Empty, "1 Empty"),
    (PatternFault::BadCharacter { at: 2 }, "2 BadCharacter at 2"),
    (PatternFault::TooLong, "3 TooLong"),
    (PatternFault::Memory, "4 Memory"),
];

const NAMES: &[(NameFault, &str)] = &[
    (NameFault::Empty, "1 Empty"),
    (NameFault::FirstLetter, "2 FirstLetter"),
    (NameFault::BadCharacter { at: 3 }, "3 BadCharacter at 3"),
    (NameFault::TooLong, "4 TooLong"),
    (NameFault::Memory, "5 Memory"),
];

const UNITS: &[(UnitFault, &str)] = &[
    (UnitFault::BadCharacter { at: 4 }, "1 BadCharacter at 4"),
    (UnitFault::TooLong, "2 TooLong"),
    (UnitFault::Memory, "3 Memory"),
];

#[test]
fn faults_of_words_are_printed(rt: HostRuntime) {
    assert_printed(&rt, rt.alloc(), PATTERNS);
    assert_printed(&rt, rt.alloc(), NAMES);
    assert_printed(&rt, rt.alloc(), UNITS);
}

#[test]
fn want_of_memory_is_printed(rt: HostRuntime) {
    let alloc = rt.alloc();
    assert_printed(&rt, alloc, &[(InputFault::Memory, "memory")]);
    assert_printed(&rt, alloc, &[(CatalogueFault::Memory, "18 Memory")]);
    assert_printed(&rt, alloc, &[(ViewFault::Memory, "11 Memory")]);
}

const REFUSALS: &[(Refusal, &str)] = &[
    (Refusal::Stranger, "12 Stranger"),
    (Refusal::UnknownInstrument, "1 UnknownInstrument"),
    (Refusal::UnknownRecorder, "2 UnknownRecorder"),
    (Refusal::UnknownReader, "2 UnknownReader"),
    (Refusal::DuplicateKey, "3 DuplicateKey"),
    (Refusal::UnknownKey, "4 UnknownKey"),
    (Refusal::UnknownValue, "5 UnknownValue"),
    (Refusal::MissingKey, "6 MissingKey"),
    (Refusal::Combination, "13 Combination"),
    (Refusal::ValueRange, "7 ValueRange"),
    (Refusal::Closed, "8 Closed"),
    (Refusal::Budget, "9 Budget"),
    (Refusal::SumRange, "10 SumRange"),
    (Refusal::Memory, "11 Memory"),
];

#[test]
fn refusals_have_numbers_and_names(rt: HostRuntime) {
    assert_printed(&rt, rt.alloc(), REFUSALS);
}

const REMARKS: &[(Remark, &str)] = &[
    (
        Remark::Unfit {
            view: 0,
            instrument: 1,
        },
        "view 0 names an aggregation that does not fit instrument 1",
    ),
    (
        Remark::Collision { first: 1, later: 2 },
        "stream 2 has the identity of stream 1",
    ),
    (
        Remark::SelectsNothing { view: 1 },
        "view 1 selects no instrument",
    ),
    (
        Remark::UnknownKey {
            view: 2,
            list: KeyList::Keep,
            place: 2,
        },
        "view 2: no selected instrument declares the key keep[2]",
    ),
    (
        Remark::UnknownKey {
            view: 2,
            list: KeyList::Exclude,
            place: 1,
        },
        "view 2: no selected instrument declares the key exclude[1]",
    ),
    (
        Remark::UnusedBoundaries { view: 2 },
        "view 2 gives boundaries, but no stream of it is a histogram",
    ),
    (
        Remark::KeptAndExcluded { view: 2, place: 1 },
        "view 2 excludes the key keep[1]",
    ),
    (
        Remark::Unrecorded { instrument: 1 },
        "instrument 1 has no budget and no spare",
    ),
    (
        Remark::NothingAllowed { instrument: 1 },
        "instrument 1 allows no combination",
    ),
    (
        Remark::OneValue { instrument: 4 },
        "instrument 4 has one value alone",
    ),
    (
        Remark::UnusedValue {
            instrument: 1,
            key: 2,
            value: 3,
        },
        "instrument 1 allows no combination with value 3 of key 2",
    ),
    (
        Remark::LevelDelta {
            reader: 4,
            kind: Kind::Gauge,
        },
        "reader 4 has delta streams of Gauge",
    ),
    (
        Remark::OneBucket { stream: 2 },
        "one bucket of stream 2 takes each value",
    ),
    (
        Remark::FarBoundaries { stream: 3 },
        "boundaries of stream 3 are far from its values",
    ),
    (
        Remark::OverBudget {
            instrument: 0,
            limit: Limit::SumHigh,
        },
        "instrument 0 has larger budgets than is safe",
    ),
    (Remark::NoBudget { recorder: 1 }, "recorder 1 has no budget"),
    (Remark::NoRecorder, "there is no recorder"),
    (Remark::NoStream { reader: 5 }, "reader 5 has no stream"),
    (Remark::NoReader, "there is no reader"),
];

#[test]
fn remarks_are_printed(rt: HostRuntime) {
    assert_printed(&rt, rt.alloc(), REMARKS);
}

const EXPOSURES: &[(ExposureFault, &str)] = &[
    (ExposureFault::Delta { stream: 4 }, "1 Delta of stream 4"),
    (
        ExposureFault::Boundary { stream: 1 },
        "2 Boundary of stream 1",
    ),
    (
        ExposureFault::Nameless { stream: 2 },
        "3 Nameless of stream 2",
    ),
    (
        ExposureFault::NameCollision {
            stream: 3,
            with: Some(2),
        },
        "4 NameCollision of stream 3 and stream 2",
    ),
    (
        ExposureFault::NameCollision {
            stream: 3,
            with: None,
        },
        "4 NameCollision of stream 3 and the target",
    ),
    (
        ExposureFault::BadLabel { stream: 0, key: 1 },
        "5 BadLabel of stream 0, key 1",
    ),
    (
        ExposureFault::LabelCollision { stream: 0, key: 2 },
        "6 LabelCollision of stream 0, key 2",
    ),
    (
        ExposureFault::ValueCollision { stream: 5, key: 0 },
        "7 ValueCollision of stream 5, key 0",
    ),
    (ExposureFault::Memory, "8 Memory"),
];

#[test]
fn faults_of_exposures_are_printed(rt: HostRuntime) {
    assert_printed(&rt, rt.alloc(), EXPOSURES);
}
