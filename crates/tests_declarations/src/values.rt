//! Values of attributes: their copies, and how they are printed in Rust.
use crate::asserted::{OrFail, assert_equal, assert_true};
use metric_base::{Copied, Text, copy_all, is_same};
use metric_names::{AttrValue, ValueRef};
use std::alloc::Global;
use std::process::Abort;

// The value that a borrowed one is.
fn owned<R: Abort>(rt: &R, alloc: Global, value: ValueRef<'_>) -> AttrValue {
    match value {
        ValueRef::Text(text) => AttrValue::Text(Text::new(alloc, text).or_fail(rt)),
        ValueRef::Whole(number) => AttrValue::Whole(number),
        ValueRef::Flag(flag) => AttrValue::Flag(flag),
    }
}

// Whether the copy of a value is the value, by each way to compare them.
fn is_copied<R: Abort>(rt: &R, alloc: Global, value: ValueRef<'_>) -> bool {
    let own = owned(rt, alloc, value);
    let copy = own.copy(alloc).or_fail(rt);
    is_same(&copy, &own) && value.is(&copy) && copy.as_ref().is(&own)
}

// Whether the copy of a list of values is the list.
fn are_copied<R: Abort>(rt: &R, alloc: Global, values: &[ValueRef<'_>]) -> bool {
    let mut own = Vec::new(alloc);
    for value in values {
        own.push(owned(rt, alloc, *value)).or_fail(rt);
    }
    copy_all(alloc, own.as_slice()).or_fail(rt).as_slice() == own.as_slice()
}

#[test]
fn values_are_copied(rt: HostRuntime) {
    let values = [
        ValueRef::Text("1"),
        ValueRef::Whole(1),
        ValueRef::Flag(true),
    ];
    for value in &values {
        assert_true(&rt, is_copied(&rt, rt.alloc(), *value));
    }
    assert_true(&rt, are_copied(&rt, rt.alloc(), &values));
}

// Values, each as it is printed for users and for programmers.
const PRINTED: [(ValueRef<'static>, &str, &str); 4] = [
    (ValueRef::Text("a\"b"), "a\"b", "Text(\"a\\\"b\")"),
    (ValueRef::Text(""), "", "Text(\"\")"),
    (ValueRef::Whole(-7), "-7", "Whole(-7)"),
    (ValueRef::Flag(true), "true", "Flag(true)"),
];

// A value as it is printed in both ways, borrowed or owned.
fn printed<R: Abort>(rt: &R, alloc: Global, value: ValueRef<'_>, is_owned: bool) -> String {
    if is_owned {
        let own = owned(rt, alloc, value);
        format!(in alloc; "{own} {own:?}").or_fail(rt)
    } else {
        format!(in alloc; "{value} {value:?}").or_fail(rt)
    }
}

#[test]
fn values_print_as_in_rust(rt: HostRuntime) {
    for (value, shown, told) in &PRINTED {
        let due = format!(in rt.alloc(); "{shown} {told}").or_fail(&rt);
        for is_owned in [false, true] {
            let text = printed(&rt, rt.alloc(), *value, is_owned);
            assert_equal(&rt, text.as_str(), due.as_str());
        }
    }
}
