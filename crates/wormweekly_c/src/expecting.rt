//! Whether an instrument means what a host was made for.
ghost use Rattle.std.specs.Prelude.{◌≡◌, ◌≢◌, ◌⊎◌, ◌++◌, Some, codes, map, IfOk, option_and_then, option_map};
ghost use Rattle.metric_contents.specs.Attributes.{given_by};
ghost use Rattle.metric_meaning.specs.Agreeing.{shape_by};
ghost use Rattle.wormweekly_c.specs.Attributes.{attributes_from};
ghost use Rattle.wormweekly_c.specs.Codes.{WhereHeld, recorder_in};
ghost use Rattle.wormweekly_c.specs.Explaining.{BeginsWith};
ghost use Rattle.wormweekly_c.specs.Meanings.{AnswersExpected, AnswersMeaning, TellsOther, bare_text, front_text, in_line, kind_of, shape_of};

use crate::attributes::{Attribute, Unread, all_attributes};
use crate::codes::{DONE, FAULT, MEMORY, NO_TEXT, NOT_OPEN, UNKNOWN};
use crate::handles::Handle;
use crate::held::Held;
use crate::texts::copy_front;
use metric_catalogue::Catalogue;
use metric_contents::{Attr, Kind};
use metric_meaning::{Difference, Expected, first_difference};
use metric_names::ValueRef;
use metric_text::push_text;
use std::alloc::{AllocError, Global};

/// Compares the instrument of a number with what a host was made for, as a program that was made from a catalogue asks
/// once. The texts are first the names of its meter and its own, and its unit, each without a key, and then for each
/// key in order its values in order, each with the key's name; bit i of `optional` says that key i may be left out.
/// Done exactly where these are its meter, name, kind and unit, these are its first keys, each optional exactly where
/// that is said, its values begin with these, and each further key may be left out. Then a set key that is written for
/// them names the same attributes. What is different first is told in a line, as far as there is room, with its whole
/// length.
#[unsafe(no_mangle)]
pub extern "C" fn wormweekly_expect(
    alloc: Global,
    recorder: &mut Handle,
    instrument: u32,
    kind: u32,
    texts: &[u8],
    declared: &[Attribute],
    optional: u32,
    fault: &mut [u8],
    fault_length: &mut usize,
) -> u32
    ensures answer { let given = attributes_from declared.now texts.now in
        let asked = option_and_then (shape_of kind optional) given in
        WhereHeld (recorder_in recorder.old) (result ≡ 100) (λ own.
        AnswersExpected own.plan.facts.contents instrument asked
        fault.old fault.new fault_length.new result) }
    ensures recorder { recorder.new.value ≡ recorder.old.value }
    ensures fault { result ≢ 103 → (fault.new ≡ fault.old) × (fault_length.new ≡ 0) }
{
    *fault_length = 0;
    let held = recorder.take(alloc);
    let code = match held.as_deref() {
        Some(Held::Recorder(own)) => compare_given(
            alloc,
            own.plan.get().catalogue(),
            instrument,
            kind,
            texts,
            declared,
            optional,
            fault,
            fault_length,
        ),
        _ => NOT_OPEN,
    };
    recorder.put(alloc, held);
    code
}

// Reads what is declared, and compares it.
fn compare_given(
    alloc: Global,
    catalogue: &Catalogue,
    instrument: u32,
    kind: u32,
    texts: &[u8],
    declared: &[Attribute],
    optional: u32,
    fault: &mut [u8],
    fault_length: &mut usize,
) -> u32
    ensures answer { let given = attributes_from declared.now texts.now in
        let asked = option_and_then (shape_of kind optional) given in
        AnswersExpected catalogue.now instrument asked
        fault.old fault.new fault_length.new result }
    ensures fault { result ≢ 103
        → (fault.new ≡ fault.old) × (fault_length.new ≡ fault_length.old) }
{
    match all_attributes(alloc, texts, declared) {
        Err(Unread::NoText) => NO_TEXT,
        Err(Unread::Memory) => MEMORY,
        Ok(attrs) => match expected_of(kind, optional, attrs.as_slice()) {
            None => NO_TEXT,
            Some(expected) => compare(alloc, catalogue, instrument, &expected, fault, fault_length),
        },
    }
}

// What was read as the instrument that a host was made for.
fn expected_of<'a>(kind: u32, optional: u32, attrs: &'a [Attr<'a>]) -> Option<Expected<'a>>
    ensures { option_map shape_by result ≡ shape_of kind optional (map given_by attrs.now) }
{
    let kind = kind_of(kind)?;
    let (meter, rest) = front_text(attrs)?;
    let (name, rest) = front_text(rest)?;
    let (unit, keys) = front_text(rest)?;
    Some(Expected {
        meter,
        name,
        kind,
        unit,
        keys,
        optional,
    })
}

// The kind of a number.
fn kind_of(number: u32) -> Option<Kind>
    ensures { result ≡ kind_of number }
{
    match number {
        0 => Some(Kind::Counter),
        1 => Some(Kind::UpDownCounter),
        2 => Some(Kind::Histogram),
        3 => Some(Kind::Gauge),
        _ => None,
    }
}

// The text that stands first, and what follows.
fn front_text<'a>(attrs: &'a [Attr<'a>]) -> Option<(&'a str, &'a [Attr<'a>])>
    ensures { option_map (λ front. (front.0.now, map given_by front.1.now)) result
        ≡ front_text (map given_by attrs.now) }
{
    let (attr, others) = attrs.split_first()?;
    Some((bare_text(attr)?, others))
}

// A text without a key.
fn bare_text<'a>(attr: &Attr<'a>) -> Option<&'a str>
    ensures { option_map (λ text. text.now) result ≡ bare_text (given_by attr.now) }
{
    match attr.value {
        ValueRef::Text(text) if attr.key.is_empty() => Some(text),
        _ => None,
    }
}

fn compare(
    alloc: Global,
    catalogue: &Catalogue,
    instrument: u32,
    expected: &Expected<'_>,
    fault: &mut [u8],
    fault_length: &mut usize,
) -> u32
    ensures answer { AnswersMeaning catalogue.now instrument (shape_by expected.now)
        fault.old fault.new fault_length.new result ⊎ (result ≡ 11) }
    ensures fault { result ≢ 103
        → (fault.new ≡ fault.old) × (fault_length.new ≡ fault_length.old) }
{
    let number = instrument as usize;
    let Some(_own) = catalogue.instruments().get(number) else {
        return UNKNOWN;
    };
    match first_difference(catalogue, number, expected) {
        None => DONE,
        Some(difference) => match line_of(alloc, expected, &difference) {
            Err(_) => MEMORY,
            Ok(line) => {
                *fault_length = copy_front(line.as_slice(), fault);
                FAULT
            }
        },
    }
}

// The difference in a line.
fn line_of(
    alloc: Global,
    expected: &Expected<'_>,
    difference: &Difference<'_, '_>,
) -> Result<Vec<u8>, AllocError>
    ensures { IfOk result (λ line. TellsOther (shape_by expected.now) line.items) }
{
    let text = named(alloc, expected, difference)?;
    let line = in_line(alloc, text.as_slice())?;
    Ok(line)
}

// The difference behind the names that are asked for.
fn named(
    alloc: Global,
    expected: &Expected<'_>,
    difference: &Difference<'_, '_>,
) -> Result<Vec<u8>, AllocError>
    ensures { let name = expected.now.name.now ++ codes ": " in
        IfOk result (λ text. BeginsWith (expected.now.meter.now ++ (codes "/" ++ name)) text.items) }
{
    let words = format!(in alloc; "{difference}")?;
    let mut text = Vec::new(alloc);
    push_text(&mut text, expected.meter)?;
    push_text(&mut text, "/")?;
    push_text(&mut text, expected.name)?;
    push_text(&mut text, ": ")?;
    push_text(&mut text, words.as_str())?;
    Ok(text)
}

// A blank for each control character.
fn in_line(alloc: Global, text: &[u8]) -> Result<Vec<u8>, AllocError>
    ensures { IfOk result (λ line. line.items ≡ map in_line text.now) }
{
    let mut line = Vec::new(alloc);
    for byte in text {
        line.push((*byte).max(b' '))?;
    }
    Ok(line)
}
