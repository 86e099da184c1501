//! Names of a language for what a catalogue calls anything.
//!
//! A plain name is made of the words of a text. One that several share, that is no name or that is taken is escaped, which
//! tells any two texts apart. So names depend on which texts there are, and not on their order.
use metric_names::{ValueRef, first_other_than_printable};
use std::alloc::{AllocError, Global};
use std::fmt::Write;

/// How the words of a name are put together.
#[derive(Clone, Copy, PartialEq, Drop)]
pub(crate) enum Shape {
    /// As `OneTwo`.
    Camel,
    /// As `oneTwo`.
    Low,
    /// As `one_two`.
    Snake,
    /// As `ONE_TWO`.
    Upper,
}

/// How things of one kind are named: their shape, and the names that are taken.
#[derive(Clone, Copy, Drop)]
pub(crate) struct Style {
    /// The shape.
    pub shape: Shape,
    /// The names that are taken.
    pub taken: &'static [&'static [&'static str]],
}

/// A name for each of the things, in order. Fails only when out of memory.
pub(crate) fn names_of(
    alloc: Global,
    things: &[ValueRef<'_>],
    style: Style,
) -> Result<Vec<String>, AllocError> {
    let plain = plain_names(alloc, things, style.shape)?;
    let mut sorted: Vec<&str> = plain.iter().map(|name| name.as_str()).collect(alloc)?;
    sorted.sort_unstable();
    let mut names = Vec::new(alloc);
    for (thing, own) in things.iter().zip(&plain) {
        names.push(name_of(alloc, *thing, own.as_str(), sorted.as_slice(), style)?)?;
    }
    Ok(names)
}

fn plain_names(
    alloc: Global,
    things: &[ValueRef<'_>],
    shape: Shape,
) -> Result<Vec<String>, AllocError> {
    let mut plain = Vec::new(alloc);
    for thing in things {
        plain.push(plain_name(alloc, *thing, shape)?)?;
    }
    Ok(plain)
}

fn name_of(
    alloc: Global,
    thing: ValueRef<'_>,
    own: &str,
    sorted: &[&str],
    style: Style,
) -> Result<String, AllocError> {
    let is_taken = style.taken.iter().any(|names| names.contains(&own));
    if own.is_empty() || is_shared(own, sorted) || is_taken && style.shape == Shape::Camel {
        escaped_name(alloc, thing, style.shape)
    } else if is_taken {
        format!(in alloc; "{own}_")
    } else {
        String::from_str(alloc, own)
    }
}

/// Whether a text stands more than once among texts that are in order.
pub(crate) fn is_shared(own: &str, sorted: &[&str]) -> bool {
    let place = sorted.partition_point(|text| *text < own);
    matches!(sorted.get(place.saturating_add(1)), Some(next) if *next == own)
}

// The plain name, or the empty text where there is none.
fn plain_name(alloc: Global, thing: ValueRef<'_>, shape: Shape) -> Result<String, AllocError> {
    match thing {
        ValueRef::Text(text) => shaped(alloc, spoken(text), shape),
        ValueRef::Whole(number) if number < 0 => {
            let text = format!(in alloc; "minus{}", number.unsigned_abs())?;
            shaped(alloc, text.as_str(), shape)
        }
        ValueRef::Whole(number) => {
            let text = format!(in alloc; "n{number}")?;
            shaped(alloc, text.as_str(), shape)
        }
        ValueRef::Flag(flag) => shaped(alloc, if flag { "true" } else { "false" }, shape),
    }
}

// The text, or the word for one without a word; nothing for one that has other characters than printable ASCII.
fn spoken(text: &str) -> &str {
    match text {
        "" => "empty",
        "/" => "slash",
        "*" => "star",
        "-" => "dash",
        "_" => "underscore",
        "." => "dot",
        "+" => "plus",
        "?" => "question",
        "#" => "hash",
        _ if first_other_than_printable(text.as_bytes()).is_some() => "",
        _ => text,
    }
}

// The words of a text in a shape. A digit does not stand first.
fn shaped(alloc: Global, text: &str, shape: Shape) -> Result<String, AllocError> {
    let mut name = String::new(alloc);
    let mut is_fresh = true;
    for byte in text.as_bytes() {
        if byte.is_ascii_alphanumeric() {
            push_letter(&mut name, *byte, is_fresh, shape)?;
            is_fresh = false;
        } else {
            is_fresh = true;
        }
    }
    Ok(name)
}

fn push_letter(
    name: &mut String,
    byte: u8,
    is_fresh: bool,
    shape: Shape,
) -> Result<(), AllocError> {
    let is_first = name.is_empty();
    if is_first && byte.is_ascii_digit() {
        name.push(cased('n', true, true, shape))?;
    } else if is_fresh && !is_first && matches!(shape, Shape::Snake | Shape::Upper) {
        name.push('_')?;
    }
    name.push(cased(char::from(byte), is_first, is_fresh, shape))
}

fn cased(letter: char, is_first: bool, is_fresh: bool, shape: Shape) -> char {
    match shape {
        Shape::Camel if is_fresh => letter.to_ascii_uppercase(),
        Shape::Low if is_first => letter.to_ascii_lowercase(),
        Shape::Low if is_fresh => letter.to_ascii_uppercase(),
        Shape::Camel | Shape::Low => letter,
        Shape::Snake => letter.to_ascii_lowercase(),
        Shape::Upper => letter.to_ascii_uppercase(),
    }
}

// A name that only this thing has: what it is, and each byte of its text but letters and digits as `_` and two digits.
fn escaped_name(alloc: Global, thing: ValueRef<'_>, shape: Shape) -> Result<String, AllocError> {
    let text = format!(in alloc; "{thing}")?;
    let mut name = String::from_str(alloc, escaped_begin(thing, shape))?;
    for byte in text.as_bytes() {
        if byte.is_ascii_alphanumeric() {
            name.push(char::from(*byte))?;
        } else {
            write!(name, "_{byte:02x}")?;
        }
    }
    Ok(name)
}

// No plain name begins so: a plain one has no `_`, no small letter, or no two `_` side by side.
fn escaped_begin(thing: ValueRef<'_>, shape: Shape) -> &'static str {
    match (thing, shape) {
        (ValueRef::Text(_), Shape::Camel) => "T_",
        (ValueRef::Text(_), Shape::Snake) => "t__",
        (ValueRef::Text(_), _) => "t_",
        (ValueRef::Whole(_), Shape::Camel) => "I_",
        (ValueRef::Whole(_), Shape::Snake) => "i__",
        (ValueRef::Whole(_), _) => "i_",
        (ValueRef::Flag(_), Shape::Camel) => "B_",
        (ValueRef::Flag(_), Shape::Snake) => "b__",
        (ValueRef::Flag(_), _) => "b_",
    }
}
