//! Why a value is none of what its field takes.
use crate::mistake::Wrong;
use crate::tables::list_of;
use metric_glob::{Pattern, PatternFault};
use metric_names::{Name, NameFault, Unit, UnitFault};
use std::alloc::Global;
use toml::Value;

// What is told where a value is not found.
const ABSENT: Wrong<'static> = Wrong::Plain(" is wrong");

// What the entries of a list are to be.
#[derive(Clone, Copy)]
pub(crate) enum Entries {
    Tables,
    Numbers,
    Texts,
}

// That a value is none of what is expected.
pub(crate) fn of_value<'v>(value: Option<&'v Value>, expected: &'static str) -> Wrong<'v> {
    match value {
        Some(value) => Wrong::NotA(value, expected),
        None => ABSENT,
    }
}

// That a value is no text, or none of these words.
pub(crate) fn of_word<'v>(value: Option<&'v Value>, words: &'static [&'static str]) -> Wrong<'v> {
    match text_of(value) {
        Some(text) => Wrong::NoneOf(text, words),
        None => of_value(value, "text"),
    }
}

// That a value is no whole number, or the number of no format.
pub(crate) fn of_format<'v>(
    value: Option<&'v Value>,
    what: &'static str,
    formats: &'static str,
) -> Wrong<'v> {
    match number_of(value) {
        Some(number) => Wrong::Unsupported(what, number, formats),
        None => of_value(value, "a whole number"),
    }
}

// That a value is no list, or has an entry that is none of what it is to be.
pub(crate) fn of_list<'v>(value: Option<&'v Value>, entries: Entries) -> Wrong<'v> {
    let Some(values) = values_of(value) else {
        return of_value(value, "a list");
    };
    let mut number = 0u32;
    for value in values {
        if !is_among(value, entries) {
            return Wrong::EntryNotA(number, value, words_of(entries));
        }
        number = number.saturating_add(1);
    }
    of_value(value, "a list")
}

fn is_among(value: &Value, entries: Entries) -> bool {
    match entries {
        Entries::Tables => value.as_table().is_some(),
        Entries::Numbers => value.as_integer().is_some(),
        Entries::Texts => value.as_str().is_some(),
    }
}

fn words_of(entries: Entries) -> &'static str {
    match entries {
        Entries::Tables => "a table",
        Entries::Numbers => "a whole number",
        Entries::Texts => "text",
    }
}

// That boundaries do not rise, with the first two that do not.
pub(crate) fn of_boundaries<'v>(value: Option<&'v Value>) -> Wrong<'v> {
    let mut before = None;
    for value in values_of(value).unwrap_or(&[]) {
        let number = value.as_integer();
        if let (Some(first), Some(second)) = (before, number) {
            if second <= first {
                return Wrong::Order(first, second, "boundaries must rise");
            }
        }
        before = number;
    }
    ABSENT
}

// Why a range is none: its numbers fall, else they begin below 0 where none of its kind may.
pub(crate) fn of_range<'v>(value: Option<&'v Value>) -> Wrong<'v> {
    match values_of(value) {
        Some([first, second]) => match (first.as_integer(), second.as_integer()) {
            (Some(first), Some(second)) if second < first => {
                Wrong::Order(first, second, "the second is below the first")
            }
            (Some(first), Some(second)) => {
                Wrong::Order(first, second, "this kind takes nothing below 0")
            }
            _ => ABSENT,
        },
        _ => ABSENT,
    }
}

// That a range among values ends before it begins.
pub(crate) fn of_span<'v>(value: Option<&'v Value>) -> Wrong<'v> {
    let Some(Value::Table(span)) = value else {
        return ABSENT;
    };
    match (number_of(span.get("from")), number_of(span.get("to"))) {
        (Some(first), Some(last)) => Wrong::Order(first, last, "the second is below the first"),
        _ => ABSENT,
    }
}

// The value of a list that stands before, too, there or in a range.
pub(crate) fn of_repeated<'v>(value: Option<&'v Value>) -> Wrong<'v> {
    let values = values_of(value).unwrap_or(&[]);
    for (place, value) in values.iter().enumerate() {
        if values.iter().take(place).any(|other| meets(other, value)) {
            return match value {
                Value::Table(_) => Wrong::Plain(": a range has a value that is listed before it"),
                value => Wrong::Repeated(value),
            };
        }
    }
    ABSENT
}

// Whether two entries of a list have a value in common.
fn meets(first: &Value, second: &Value) -> bool {
    match (span_in(first), span_in(second)) {
        (Some((from, to)), Some((start, end))) => from <= end && start <= to,
        _ => first == second,
    }
}

// The first and the last of the whole numbers that an entry stands for.
fn span_in(value: &Value) -> Option<(i64, i64)> {
    match value {
        Value::Integer(number) => Some((*number, *number)),
        Value::Table(span) => Some((
            span.get("from")?.as_integer()?,
            span.get("to")?.as_integer()?,
        )),
        _ => None,
    }
}

// Why a text is no name of an instrument. A name is tried before memory is allocated for it, so if that runs out it is
// one.
pub(crate) fn of_name<'v>(alloc: Global, value: Option<&'v Value>) -> Wrong<'v> {
    let Some(text) = text_of(value) else {
        return of_value(value, "text");
    };
    match Name::parse(alloc, text) {
        Ok(_) | Err(NameFault::Memory) => ABSENT,
        Err(NameFault::Empty) => of_value(value, "a name, which has one letter at least"),
        Err(NameFault::FirstLetter) => of_value(value, "a name, which begins with a letter"),
        Err(NameFault::BadCharacter { at }) => Wrong::Character(text, at, "name"),
        Err(NameFault::TooLong) => Wrong::TooMany("255 characters"),
    }
}

// Why a text is no unit.
pub(crate) fn of_unit<'v>(alloc: Global, value: Option<&'v Value>) -> Wrong<'v> {
    let Some(text) = text_of(value) else {
        return of_value(value, "text");
    };
    match Unit::parse(alloc, text) {
        Ok(_) | Err(UnitFault::Memory) => ABSENT,
        Err(UnitFault::BadCharacter { at }) => Wrong::Character(text, at, "unit"),
        Err(UnitFault::TooLong) => Wrong::TooMany("63 characters"),
    }
}

// Why a text is no pattern of names.
pub(crate) fn of_pattern<'v>(alloc: Global, value: Option<&'v Value>) -> Wrong<'v> {
    let Some(text) = text_of(value) else {
        return of_value(value, "text");
    };
    match Pattern::parse(alloc, text) {
        Ok(_) | Err(PatternFault::Memory) => ABSENT,
        Err(PatternFault::Empty) => of_value(value, "a pattern, which has one character at least"),
        Err(PatternFault::BadCharacter { at }) => Wrong::Character(text, at, "pattern"),
        Err(PatternFault::TooLong) => Wrong::TooMany("255 characters"),
    }
}

fn text_of(value: Option<&Value>) -> Option<&str> {
    value?.as_str()
}

pub(crate) fn number_of(value: Option<&Value>) -> Option<i64> {
    value?.as_integer()
}

fn values_of(value: Option<&Value>) -> Option<&[Value]> {
    list_of(value?)
}
