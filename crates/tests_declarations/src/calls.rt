//! What calls answer where no program asks: tables that are made, sets of no catalogue, what is not declared.
use crate::asserted::{OrFail, assert_equal, assert_true};
use metric_base::{Copied, is_same};
use metric_catalogue::{Catalogue, CatalogueFault};
use metric_combinations::{CombinationRows, Combinations};
use metric_table::{FieldFaults, empty_table, format_up_to, insert, tabled, whole_in};
use std::alloc::{AllocError, Global};
use std::process::Abort;
use toml::Value;

const FAULTS: FieldFaults<()> = FieldFaults {
    missing: (),
    wrong_kind: (),
    unknown: (),
    too_many: (),
    memory: (),
};

#[test]
fn a_table_is_made(rt: HostRuntime) {
    let alloc = rt.alloc();
    let mut made = empty_table(alloc);
    for (name, number) in [("b", 1), ("format", 2), ("b", 3)] {
        let key = String::from_str(alloc, name).or_fail(&rt);
        insert(&mut made, key, Value::Integer(number)).or_fail(&rt);
    }
    assert_equal(&rt, format_up_to(&made, 255, &FAULTS), Ok(2));
    let told = shown(alloc, &tabled(made)).or_fail(&rt);
    assert_equal(
        &rt,
        told.as_str(),
        "Table({\"b\": Integer(3), \"format\": Integer(2)})",
    );
}

fn shown(alloc: Global, value: &Value) -> Result<String, AllocError> {
    format!(in alloc; "{value:?}")
}

#[test]
fn a_value_that_is_no_whole_number_counts_as_0(rt: HostRuntime) {
    let text = String::from_str(rt.alloc(), "é").or_fail(&rt);
    for (value, number) in [(Value::Integer(2), 2), (Value::String(text), 0)] {
        assert_equal(&rt, whole_in(&value), number);
    }
}

// The combinations of these rows.
fn allowed<R: Abort>(rt: &R, alloc: Global, rows: &[[u16; 8]]) -> Combinations {
    let mut read = CombinationRows::new(alloc);
    for row in rows {
        assert_true(rt, read.push(*row).or_fail(rt));
    }
    if read.len() > 4096 {
        read = CombinationRows::new(alloc);
    }
    read.finish(alloc).or_fail(rt)
}

#[test]
fn a_set_of_the_greatest_entries_is_in_no_list(rt: HostRuntime) {
    for rows in [
        &[] as &[[u16; 8]],
        &[[0; 8], [7, 1, 1001, 0, 0, 0, 0, 65_534]],
    ] {
        let all = allowed(&rt, rt.alloc(), rows);
        assert_equal(&rt, all.contains(&[u16::MAX; 8]), false);
        assert_true(&rt, is_same(&all.copy(rt.alloc()).or_fail(&rt), &all));
    }
}

const SHOP: &str = "format = 2
[[meter]]
name = 'shop'
[[meter.instrument]]
name = 'hits'
kind = 'counter'
range = [0, 9]
spare = 7
[[recorder]]
name = 'till'
budget = [{ instrument = 0, amount = 7 }]
";

// Promises nothing of the catalogue, so that no test is proved by the parts of its text.
fn shop(alloc: Global) -> Result<Catalogue, CatalogueFault> {
    Catalogue::read(alloc, SHOP)
}

#[test]
fn what_is_not_declared_has_no_budget_and_no_spare(rt: HostRuntime) {
    let shop = shop(rt.alloc()).or_fail(&rt);
    assert_equal(&rt, shop.format(), 2);
    let budgets = (shop.budget(0, 0), shop.budget(0, 1), shop.budget(9, 0));
    assert_equal(&rt, budgets, (7, 0, 0));
    assert_equal(&rt, (shop.spare(0), shop.spare(1)), (7, 0));
}
