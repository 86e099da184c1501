//! Texts, lists, shared values and copies.
use crate::asserted::{OrFail, assert_equal, assert_true};
use metric_base::{Copied, Exact, Few, Items, Shared, Text, copy_all, is_same};
use std::alloc::Global;
use std::collections::HashSet;
use std::process::Abort;

// The bytes of a text that is shared, then copied, and then handed back.
fn shared_and_copied<R: Abort>(rt: &R, alloc: Global, text: &str) -> String {
    let text = Text::from_string(String::from_str(alloc, text).or_fail(rt));
    let shared = Shared::new(alloc, text).or_fail(rt).copy(alloc).or_fail(rt);
    shared.get().copy(alloc).or_fail(rt).into_string()
}

// Whether a text is found by the hash of another one of the same bytes.
fn is_found<R: Abort>(rt: &R, alloc: Global, text: &str) -> bool {
    let mut texts = HashSet::new(alloc);
    texts.insert(Text::new(alloc, text).or_fail(rt)).or_fail(rt);
    texts.contains(&Text::new(alloc, text).or_fail(rt))
}

#[test]
fn texts_keep_their_bytes(rt: HostRuntime) {
    for text in ["é\"", ""] {
        assert_equal(&rt, shared_and_copied(&rt, rt.alloc(), text).as_str(), text);
        assert_true(&rt, is_found(&rt, rt.alloc(), text));
    }
}

// Whether the copy of a value is the value.
fn is_copied<R: Abort, T: Copied + Exact + Drop>(rt: &R, alloc: Global, value: &T) -> bool {
    is_same(&value.copy(alloc).or_fail(rt), value)
}

// Whether a list with a bound, the list without it and the copies of both have these values.
fn are_kept<R: Abort>(rt: &R, alloc: Global, values: [u64; 2]) -> bool {
    let few: Few<u64, 2> = Few::from_items(copy_all(alloc, &values).or_fail(rt));
    let is_few_copied = few.len() == values.len() && is_copied(rt, alloc, &few);
    let items = Items::from_vec(few.into_items().into_vec());
    is_few_copied && is_copied(rt, alloc, &items) && items.as_slice() == values.as_slice()
}

// Whether a list has all of these texts, and its copy has them too.
fn are_texts_copied<R: Abort>(rt: &R, alloc: Global, texts: &[&str]) -> bool {
    let mut list = Items::new(alloc);
    for text in texts {
        list.push(Text::new(alloc, text).or_fail(rt)).or_fail(rt);
    }
    !list.is_empty() && list.len() == texts.len() && is_copied(rt, alloc, &list)
}

// A number, an absent one and one that is there.
fn are_numbers_copied<R: Abort>(rt: &R, alloc: Global) -> bool {
    let absent: Option<u64> = None;
    is_copied(rt, alloc, &-7i64)
        && is_copied(rt, alloc, &7u16)
        && absent.copy(alloc).or_fail(rt) == absent
        && Some(7u64).copy(alloc).or_fail(rt) == Some(7)
}

#[test]
fn lists_and_numbers_are_copied(rt: HostRuntime) {
    assert_true(&rt, are_kept(&rt, rt.alloc(), [7, 9]));
    assert_true(&rt, are_texts_copied(&rt, rt.alloc(), &["a", "", "b"]));
    assert_true(&rt, are_numbers_copied(&rt, rt.alloc()));
}
