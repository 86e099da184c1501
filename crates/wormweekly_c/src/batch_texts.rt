//! The texts of a batch: of its streams, of their keys and of the values of attributes.
ghost use Rattle.std.specs.Prelude.{◌≡◌, ◌≢◌, length, option_map};
ghost use Rattle.std.specs.Option.{MatchOption, option_copied};
ghost use Rattle.wormweekly_c.specs.Codes.{WhereHeld, reader_in};
ghost use Rattle.wormweekly_c.specs.Texts.{AnswersAll, AnswersText};
ghost use Rattle.wormweekly_c.specs.Walking.{attribute_of, entry_value, instrument_at, key_at, key_name, meter_at, meter_text, stream_text, text_at, text_of_value};
ghost use Rattle.metric_lines.specs.Keys.{value_at};

use crate::attributes::Attribute;
use crate::batches::stream_at;
use crate::codes::{NOT_OPEN, UNKNOWN};
use crate::handles::Handle;
use crate::held::Held;
use crate::texts::{copy_all, write_found};
use metric_contents::{Instrument, Key, Meter, Values};
use metric_hosted::HostedReader;
use metric_names::AttrValue;
use metric_views::Stream;
use std::alloc::Global;

/// Writes a text of the stream at a place of the batch, if there is room for all of it, and its length: its name (0),
/// unit (1) or description (2); its meter's name (3), version (4) or schema URL (5).
#[unsafe(no_mangle)]
pub extern "C" fn wormweekly_stream_text(
    alloc: Global,
    reader: &mut Handle,
    at: usize,
    kind: u32,
    out: &mut [u8],
    text_length: &mut usize,
) -> u32
    ensures answer { WhereHeld (reader_in reader.old) (result ≡ 100) (λ own.
        MatchOption (text_at own at kind) (result ≡ 106) (λ text.
        AnswersText text out.old out.new text_length.new result)) }
    ensures reader { reader.new.value ≡ reader.old.value }
    ensures refused { result ≢ 0 → out.new ≡ out.old }
    ensures length { result ≢ 0 → result ≢ 102 → text_length.new ≡ text_length.old }
{
    let held = reader.take(alloc);
    let code = match held.as_deref() {
        Some(Held::Reader(own)) => write_found(text_at(own, at, kind), out, text_length),
        _ => NOT_OPEN,
    };
    reader.put(alloc, held);
    code
}

/// Writes the name of a key that the instrument of the stream at a place declares, under the same rule.
#[unsafe(no_mangle)]
pub extern "C" fn wormweekly_key(
    alloc: Global,
    reader: &mut Handle,
    at: usize,
    key: usize,
    out: &mut [u8],
    text_length: &mut usize,
) -> u32
    ensures answer { WhereHeld (reader_in reader.old) (result ≡ 100) (λ own.
        MatchOption (key_name own at key) (result ≡ 106) (λ text.
        AnswersText text out.old out.new text_length.new result)) }
    ensures reader { reader.new.value ≡ reader.old.value }
    ensures refused { result ≢ 0 → out.new ≡ out.old }
    ensures length { result ≢ 0 → result ≢ 102 → text_length.new ≡ text_length.old }
{
    let held = reader.take(alloc);
    let code = match held.as_deref() {
        Some(Held::Reader(own)) => write_found(key_name(own, at, key), out, text_length),
        _ => NOT_OPEN,
    };
    reader.put(alloc, held);
    code
}

/// Writes the value that an entry of a set key names for a key of the stream at a place: as an attribute without its
/// key, and its text, if there is room for all of it; only the attribute where there is none.
#[unsafe(no_mangle)]
pub extern "C" fn wormweekly_value(
    alloc: Global,
    reader: &mut Handle,
    at: usize,
    key: usize,
    entry: u16,
    value: &mut Attribute,
    out: &mut [u8],
) -> u32
    ensures answer { WhereHeld (reader_in reader.old) (result ≡ 100) (λ own.
        MatchOption (entry_value own at key entry) (result ≡ 106) (λ v.
        (value.new ≡ attribute_of v) × AnswersAll (text_of_value v) out.old out.new result)) }
    ensures reader { reader.new.value ≡ reader.old.value }
    ensures refused { result ≢ 0 → out.new ≡ out.old }
    ensures value { result ≢ 0 → result ≢ 102 → value.new ≡ value.old }
{
    let held = reader.take(alloc);
    let code = match held.as_deref() {
        Some(Held::Reader(own)) => write_entry(own, at, key, entry, value, out),
        _ => NOT_OPEN,
    };
    reader.put(alloc, held);
    code
}

// Writes the value that an entry names, where there is one.
fn write_entry(
    own: &HostedReader,
    at: usize,
    key: usize,
    entry: u16,
    value: &mut Attribute,
    out: &mut [u8],
) -> u32
    ensures answer { MatchOption (entry_value own.now at key entry) (result ≡ 106) (λ v.
        (value.new ≡ attribute_of v) × AnswersAll (text_of_value v) out.old out.new result) }
    ensures refused { result ≢ 0 → out.new ≡ out.old }
    ensures value { result ≢ 0 → result ≢ 102 → value.new ≡ value.old }
{
    match entry_value(own, at, key, entry) {
        None => UNKNOWN,
        Some(found) => write_value(found, value, out),
    }
}

fn instrument_at(own: &HostedReader, at: usize) -> Option<&Instrument>
    ensures { option_copied result ≡ instrument_at own.now at }
{
    let stream = stream_at(own, at)?;
    let all = own.plan.get().catalogue().instruments();
    all.get(stream.instrument as usize)
}

fn meter_at(own: &HostedReader, at: usize) -> Option<&Meter>
    ensures { option_copied result ≡ meter_at own.now at }
{
    let instrument = instrument_at(own, at)?;
    let all = own.plan.get().catalogue().meters();
    all.get(instrument.meter as usize)
}

fn text_at(own: &HostedReader, at: usize, kind: u32) -> Option<&str>
    ensures { option_map (λ text. text.now) result ≡ text_at own.now at kind }
{
    if kind < 3 {
        let stream = stream_at(own, at)?;
        return Some(stream_text(stream, kind));
    }
    if kind < 6 {
        let meter = meter_at(own, at)?;
        return Some(meter_text(meter, kind));
    }
    None
}

fn stream_text(stream: &Stream, kind: u32) -> &str
    ensures { result.now ≡ stream_text stream.now kind }
{
    match kind {
        0 => stream.name.get().as_str(),
        1 => stream.unit.get().as_str(),
        _ => stream.description.get().as_str(),
    }
}

fn meter_text(meter: &Meter, kind: u32) -> &str
    ensures { result.now ≡ meter_text meter.now kind }
{
    match kind {
        3 => meter.name.as_str(),
        4 => meter.version.as_str(),
        _ => meter.schema_url.as_str(),
    }
}

fn key_at(own: &HostedReader, at: usize, number: usize) -> Option<&Key>
    ensures { option_copied result ≡ key_at own.now at number }
{
    let instrument = instrument_at(own, at)?;
    instrument.keys.as_slice().get(number)
}

fn key_name(own: &HostedReader, at: usize, number: usize) -> Option<&str>
    ensures { option_map (λ text. text.now) result ≡ key_name own.now at number }
{
    let key = key_at(own, at, number)?;
    Some(key.name.as_str())
}

fn entry_value(own: &HostedReader, at: usize, number: usize, entry: u16) -> Option<&AttrValue>
    ensures { option_copied result ≡ entry_value own.now at number entry }
{
    let key = key_at(own, at, number)?;
    value_at(&key.values, entry)
}

// The value that an entry of a set key names.
fn value_at(values: &Values, entry: u16) -> Option<&AttrValue>
    ensures { option_copied result ≡ value_at values.now entry }
{
    if entry == 0 {
        return None;
    }
    values.as_slice().get(usize::from(entry - 1))
}

// Writes a value as an attribute without its key, and its text.
fn write_value(found: &AttrValue, value: &mut Attribute, out: &mut [u8]) -> u32
    ensures value { value.new ≡ attribute_of found.now }
    ensures text { AnswersAll (text_of_value found.now) out.old out.new result }
    ensures refused { result ≢ 0 → out.new ≡ out.old }
{
    let text = text_of_value(found);
    *value = attribute_of(found, text.len());
    copy_all(text, out)
}

fn text_of_value(value: &AttrValue) -> &[u8]
    ensures { result.now ≡ text_of_value value.now }
{
    match value {
        AttrValue::Text(text) => text.as_str().as_bytes(),
        AttrValue::Whole(_) | AttrValue::Flag(_) => &[],
    }
}

fn attribute_of(value: &AttrValue, text: usize) -> Attribute
    requires { text ≡ length (text_of_value value.now) }
    ensures { result ≡ attribute_of value.now }
{
    let (kind, whole) = match value {
        AttrValue::Text(_) => (0, 0),
        AttrValue::Whole(whole) => (1, *whole),
        AttrValue::Flag(false) => (2, 0),
        AttrValue::Flag(true) => (3, 0),
    };
    Attribute {
        key: 0,
        kind,
        text,
        whole,
    }
}
