//! Values that no allowed combination has.
use crate::named::instrument_of;
use crate::shown::Quoted;
use crate::sources::Pair;
use metric_contents::Key;
use metric_names::{AttrValue, ValueRef};
use std::alloc::{AllocError, Global};
use std::fmt;

// The value of a key, as a person reads it.
#[derive(Clone, Copy)]
struct ShownValue<'v>(ValueRef<'v>);

impl fmt::Display for ShownValue<'_> {
    fn fmt<W: fmt::Write>(&self, f: &mut fmt::Formatter<W>) -> fmt::Result {
        match self.0 {
            ValueRef::Text(text) => f.write(Quoted(text)),
            ValueRef::Whole(number) => f.write(number),
            ValueRef::Flag(flag) => f.write(flag),
        }
    }
}

// What is told of a value of a key of an instrument.
pub(crate) fn words_of_unused(
    alloc: Global,
    pair: Pair<'_>,
    instrument: u32,
    key: u32,
    value: u32,
) -> Result<String, AllocError> {
    let told = instrument_of(pair.catalogue, instrument);
    let Some(key) = key_at(pair, instrument, key) else {
        return format!(in alloc; "{told}: a value is in no allowed combination");
    };
    let name = Quoted(key.name.as_str());
    match value_at(key, value) {
        Some(value) => format!(in alloc;
            "{told}: key {name}: no allowed combination has the value {value}, so that it can never be recorded"
        ),
        None => format!(in alloc; "{told}: key {name}: a value is in no allowed combination"),
    }
}

fn key_at<'t>(pair: Pair<'t>, instrument: u32, key: u32) -> Option<&'t Key> {
    let instrument = pair.catalogue.instruments().get(instrument as usize)?;
    instrument.keys.as_slice().get(key as usize)
}

fn value_at(key: &Key, value: u32) -> Option<ShownValue<'_>> {
    let value: &AttrValue = key.values.as_slice().get(value as usize)?;
    Some(ShownValue(value.as_ref()))
}
