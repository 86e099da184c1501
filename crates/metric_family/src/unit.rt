//! What a unit is called in a name.
ghost use Rattle.std.specs.Prelude.{◌≡◌, ◌<◌, IfOk, IfSome, length, reverse};
ghost use Rattle.std.specs.List.{after_first, before_first, list_any, position_from};
ghost use Rattle.std.specs.Option.{option_map};
ghost use Rattle.std.specs.Str.{bytes_eq};
ghost use Rattle.metric_family.specs.Units.{after_per, is_brace, is_slash, led, main_words, one_named, or_then};
ghost use Rattle.metric_family.specs.Units.{per_name, per_words};
ghost use Rattle.metric_family.specs.Units.{quantity_named, size_named, time_named, trimmed, unit_name, unit_parts};
ghost use Rattle.metric_family.specs.Words.{joined};

use crate::words::{push_part, push_words, split_around};
use std::alloc::{AllocError, Global};

/// What a unit adds to a name, with `_` between.
#[tactic(auto, unfolding(crate::specs::Units::unit_parts, crate::specs::Words::joined))]
pub(crate) fn unit_words(alloc: Global, unit: &[u8]) -> Result<Vec<u8>, AllocError>
    ensures { IfOk result (λ text. text.items ≡ joined (unit_parts unit.now)) }
{
    let mut out = main_words(alloc, unit)?;
    let per = per_words(alloc, unit)?;
    if !per.is_empty() {
        push_part(&mut out, per.as_slice())?;
    }
    Ok(out)
}

/// What stands before the first slash of a unit, by its words.
#[tactic(auto, unfolding(crate::specs::Units::main_words, crate::specs::Units::side))]
pub(crate) fn main_words(alloc: Global, unit: &[u8]) -> Result<Vec<u8>, AllocError>
    ensures { IfOk result (λ text. text.items ≡ main_words unit.now) }
{
    let (main, _per) = split_slash(unit);
    let mut out = Vec::new(alloc);
    if has_brace(main) {
        return Ok(out);
    }
    push_words(&mut out, unit_name(trimmed(main)), b"")?;
    Ok(out)
}

/// What stands after the first slash of a unit, by its words and with `per_` before it.
#[tactic(auto, unfolding(crate::specs::Units::per_words, crate::specs::Units::side))]
pub(crate) fn per_words(alloc: Global, unit: &[u8]) -> Result<Vec<u8>, AllocError>
    ensures { IfOk result (λ text. text.items ≡ per_words unit.now) }
{
    let (_main, per) = split_slash(unit);
    let mut words = Vec::new(alloc);
    if has_brace(per) {
        return Ok(words);
    }
    push_words(&mut words, per_name(trimmed(per)), b"")?;
    after_per(alloc, words)
}

// The same with `per_` before it, unless it is empty.
fn after_per(alloc: Global, words: Vec<u8>) -> Result<Vec<u8>, AllocError>
    ensures { IfOk result (λ text. text.items ≡ after_per words.items) }
{
    if words.is_empty() {
        return Ok(words);
    }
    let mut out = Vec::from_slice(alloc, b"per_")?;
    out.extend_from_slice(words.as_slice())?;
    Ok(out)
}

// What stands before the first slash, and what stands after it.
fn split_slash(unit: &[u8]) -> (&[u8], &[u8])
    ensures before { result.0.now ≡ before_first is_slash unit.now }
    ensures after { result.1.now ≡ after_first is_slash unit.now }
{
    split_around(unit, first_slash(unit))
}

fn first_slash(unit: &[u8]) -> Option<usize>
    ensures place { result ≡ position_from is_slash 0 unit.now }
    ensures bound { IfSome result (λ place. place < length unit.now) }
{
    unit.iter().position(|byte| *byte == b'/')
}

fn has_brace(text: &[u8]) -> bool
    ensures { result ≡ list_any is_brace text.now }
{
    text.iter().any(|byte| *byte == b'{' || *byte == b'}')
}

// A text without spaces at both ends.
#[tactic(auto, unfolding(crate::specs::Units::trimmed))]
fn trimmed(text: &[u8]) -> &[u8]
    ensures { result.now ≡ trimmed text.now }
{
    without_last_spaces(without_first_spaces(text))
}

// It calls itself at most as often as a unit has characters, which are 63.
fn without_first_spaces(text: &[u8]) -> &[u8]
    ensures { result.now ≡ led text.now }
{
    let Some((first, others)) = text.split_first() else {
        return text;
    };
    if *first != b' ' {
        return text;
    }
    without_first_spaces(others)
}

// The same from the end.
fn without_last_spaces(text: &[u8]) -> &[u8]
    ensures { result.now ≡ reverse (led (reverse text.now)) }
{
    let Some((last, others)) = text.split_last() else {
        return text;
    };
    if *last != b' ' {
        return text;
    }
    without_last_spaces(others)
}

// What a unit before the slash is called.
#[tactic(auto, unfolding(crate::specs::Units::unit_name))]
fn unit_name(unit: &[u8]) -> &[u8]
    ensures { result.now ≡ unit_name unit.now }
{
    match named(unit) {
        Some(name) => name.as_bytes(),
        None => unit,
    }
}

fn named(unit: &[u8]) -> Option<&'static str>
    ensures { option_map (λ name. name.now) result
        ≡ or_then (time_named unit.now) (or_then (size_named unit.now) (quantity_named unit.now)) }
{
    if let Some(name) = time_named(unit) {
        return Some(name);
    }
    if let Some(name) = size_named(unit) {
        return Some(name);
    }
    quantity_named(unit)
}

// What a unit after the slash is called.
#[tactic(auto, unfolding(crate::specs::Units::per_name))]
fn per_name(unit: &[u8]) -> &[u8]
    ensures { result.now ≡ per_name unit.now }
{
    match one_named(unit) {
        Some(name) => name.as_bytes(),
        None => unit,
    }
}

fn is(unit: &[u8], name: &str) -> bool
    ensures { result ≡ bytes_eq unit.now name.now }
{
    unit == name.as_bytes()
}

fn time_named(unit: &[u8]) -> Option<&'static str>
    ensures { option_map (λ name. name.now) result ≡ time_named unit.now }
{
    if is(unit, "d") {
        Some("days")
    } else if is(unit, "h") {
        Some("hours")
    } else if is(unit, "min") {
        Some("minutes")
    } else if is(unit, "s") {
        Some("seconds")
    } else if is(unit, "ms") {
        Some("milliseconds")
    } else if is(unit, "us") {
        Some("microseconds")
    } else if is(unit, "ns") {
        Some("nanoseconds")
    } else {
        None
    }
}

fn size_named(unit: &[u8]) -> Option<&'static str>
    ensures { option_map (λ name. name.now) result ≡ size_named unit.now }
{
    if is(unit, "By") {
        Some("bytes")
    } else if is(unit, "KiBy") {
        Some("kibibytes")
    } else if is(unit, "MiBy") {
        Some("mebibytes")
    } else if is(unit, "GiBy") {
        Some("gibibytes")
    } else if is(unit, "TiBy") {
        Some("tibibytes")
    } else if is(unit, "KBy") {
        Some("kilobytes")
    } else if is(unit, "MBy") {
        Some("megabytes")
    } else if is(unit, "GBy") {
        Some("gigabytes")
    } else if is(unit, "TBy") {
        Some("terabytes")
    } else {
        None
    }
}

fn quantity_named(unit: &[u8]) -> Option<&'static str>
    ensures { option_map (λ name. name.now) result ≡ quantity_named unit.now }
{
    if is(unit, "m") {
        Some("meters")
    } else if is(unit, "V") {
        Some("volts")
    } else if is(unit, "A") {
        Some("amperes")
    } else if is(unit, "J") {
        Some("joules")
    } else if is(unit, "W") {
        Some("watts")
    } else if is(unit, "g") {
        Some("grams")
    } else if is(unit, "Cel") {
        Some("celsius")
    } else if is(unit, "Hz") {
        Some("hertz")
    } else if is(unit, "1") {
        Some("")
    } else if is(unit, "%") {
        Some("percent")
    } else {
        None
    }
}

fn one_named(unit: &[u8]) -> Option<&'static str>
    ensures { option_map (λ name. name.now) result ≡ one_named unit.now }
{
    if is(unit, "s") {
        Some("second")
    } else if is(unit, "m") {
        Some("minute")
    } else if is(unit, "h") {
        Some("hour")
    } else if is(unit, "d") {
        Some("day")
    } else if is(unit, "w") {
        Some("week")
    } else if is(unit, "mo") {
        Some("month")
    } else if is(unit, "y") {
        Some("year")
    } else {
        None
    }
}
