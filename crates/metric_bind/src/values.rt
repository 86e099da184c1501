//! The types of keys, and their values.
use crate::drafting::{Draft, number_text, put_text, text_at};
use crate::key_types::{KeyType, are_texts, is_flag, is_long, labels_of, span_of};
use crate::naming::{Shape, Style, names_of};
use crate::quoting::said;
use crate::tree::Row;
use metric_contents::{Instrument, Meter};
use metric_names::{AttrValue, ValueRef};
use std::alloc::{AllocError, Global};

/// Adds the types with their values. The number of the first of them, for each type.
pub(crate) fn add_types(
    alloc: Global,
    draft: &mut Draft,
    types: &[KeyType<'_>],
    instruments: &[Instrument],
    meters: &[Meter],
) -> Result<Vec<usize>, AllocError> {
    let labels = labels_of(alloc, types, instruments, meters)?;
    let mut things = Vec::new(alloc);
    for label in &labels {
        things.push(ValueRef::Text(label.as_str()))?;
    }
    let names = names_of(alloc, things.as_slice(), draft.types())?;
    let uppers = names_of(alloc, things.as_slice(), UPPER)?;
    let mut numbers = Vec::new(alloc);
    for (number, own) in types.iter().enumerate() {
        let name = text_at(names.as_slice(), number);
        let upper = text_at(uppers.as_slice(), number);
        let row = type_row(alloc, draft, *own, name, upper);
        let label = text_at(labels.as_slice(), number);
        numbers.push(add_type(alloc, draft, row, *own, label)?)?;
    }
    Ok(numbers)
}

// How constants are named after a type.
const UPPER: Style = Style {
    shape: Shape::Upper,
    taken: &[],
};

fn type_row(alloc: Global, draft: &Draft, own: KeyType<'_>, name: &str, upper: &str) -> Row {
    let values = own.key.values.as_slice();
    let key = own.key.name.as_str();
    let mut row = Row::new(alloc, "type", 0);
    row.put("type", String::from_str(alloc, name));
    row.put("TYPE", String::from_str(alloc, upper));
    put_text(alloc, draft, &mut row, ["quoted_key", "said_key"], key);
    row.put("key_bytes", number_text(alloc, key.len()));
    row.put("count", number_text(alloc, values.len()));
    put_flags(alloc, &mut row, values);
    let span = span_of(values);
    row.put_if(alloc, "names", !is_flag(values) && span.is_none());
    row.put_if(alloc, "many", is_long(own.key));
    row.put_if(alloc, "texts", are_texts(values));
    if let Some((least, most)) = span {
        row.put("least", format!(in alloc; "{least}"));
        row.put("most", format!(in alloc; "{most}"));
        row.put("least_c", whole_for_c(alloc, least));
        row.put("most_c", whole_for_c(alloc, most));
    }
    row
}

/// Tells of a key whose values are the flags which number each has.
pub(crate) fn put_flags(alloc: Global, row: &mut Row, values: &[AttrValue]) {
    if !is_flag(values) {
        return;
    }
    let is_first = matches!(values.first(), Some(AttrValue::Flag(true)));
    let (yes, no) = if is_first { ("1", "2") } else { ("2", "1") };
    row.put("yes", String::from_str(alloc, yes));
    row.put("no", String::from_str(alloc, no));
}

fn add_type(
    alloc: Global,
    draft: &mut Draft,
    row: Row,
    own: KeyType<'_>,
    label: &str,
) -> Result<usize, AllocError> {
    let values = own.key.values.as_slice();
    let whose = format!(in alloc; "the key {label:?}")?;
    let language = draft.language;
    let number = draft.add_named(alloc, row, language.types.whole, whose.as_str())?;
    if span_of(values).is_some() {
        add_span(alloc, draft, number, values)?;
    } else {
        add_values(alloc, draft, number, values, whose.as_str())?;
    }
    Ok(number)
}

fn add_span(
    alloc: Global,
    draft: &mut Draft,
    above: usize,
    values: &[AttrValue],
) -> Result<(), AllocError> {
    for (place, value) in values.iter().enumerate() {
        let row = value_row(alloc, draft, above, place, value);
        draft.add(row)?;
    }
    Ok(())
}

fn add_values(
    alloc: Global,
    draft: &mut Draft,
    above: usize,
    values: &[AttrValue],
    whose: &str,
) -> Result<(), AllocError> {
    let mut things = Vec::new(alloc);
    for value in values {
        things.push(value.as_ref())?;
    }
    let language = draft.language;
    let names = names_of(alloc, things.as_slice(), language.values.style)?;
    for (place, value) in values.iter().enumerate() {
        let mut row = value_row(alloc, draft, above, place, value);
        row.put(
            "value",
            String::from_str(alloc, text_at(names.as_slice(), place)),
        );
        put_piece(alloc, &mut row, place, values.len());
        let whose = told_value(alloc, whose, value)?;
        draft.add_named(alloc, row, language.values.whole, whose.as_str())?;
    }
    Ok(())
}

// Tells of the first value of a piece of the list, how long that is. A compiler may refuse the whole list.
fn put_piece(alloc: Global, row: &mut Row, place: usize, count: usize) {
    if place % PIECE == 0 {
        row.put("piece", number_text(alloc, place / PIECE));
        let left = count.saturating_sub(place);
        row.put("size", number_text(alloc, left.min(PIECE)));
    }
}

// How many values are in a piece.
const PIECE: usize = 256;

// Whose a value's name is.
fn told_value(alloc: Global, whose: &str, value: &AttrValue) -> Result<String, AllocError> {
    match value {
        AttrValue::Text(text) => format!(in alloc; "{whose}, value {text:?}"),
        _ => format!(in alloc; "{whose}, value {value}"),
    }
}

// A value without its name.
fn value_row(alloc: Global, draft: &Draft, above: usize, place: usize, value: &AttrValue) -> Row {
    let mut row = Row::new(alloc, "value", above);
    row.put("rank", number_text(alloc, place.saturating_add(1)));
    row.put("said_value", said_value(alloc, value));
    match value {
        AttrValue::Text(text) => {
            row.put("text", draft.quoted(alloc, text.as_str()));
            row.put("bytes", number_text(alloc, text.as_str().len()));
        }
        AttrValue::Whole(number) => {
            row.put("whole", format!(in alloc; "{number}"));
            row.put("whole_c", whole_for_c(alloc, *number));
        }
        AttrValue::Flag(true) => row.put_if(alloc, "is_true", true),
        AttrValue::Flag(false) => row.put_if(alloc, "is_false", true),
    }
    row
}

fn said_value(alloc: Global, value: &AttrValue) -> Result<String, AllocError> {
    let shown = format!(in alloc; "{value}")?;
    said(alloc, shown.as_str())
}

// A whole number as a constant of C, which has no literal for the least one.
fn whole_for_c(alloc: Global, number: i64) -> Result<String, AllocError> {
    if number == i64::MIN {
        String::from_str(alloc, "INT64_MIN")
    } else {
        format!(in alloc; "INT64_C({number})")
    }
}
