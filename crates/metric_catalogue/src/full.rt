//! A catalogue as the text of a file, in full: each key where it is used, each recorder by itself, each budget by the
//! number of its instrument.
ghost use Rattle.std.specs.Prelude.{◌≡◌, ◌≤◌, ◌^◌, length, sum_by};
ghost use Rattle.metric_catalogue.specs.InFull.{fits_in_full, instrument_weight, key_weight, value_weight};

use metric_combinations::Combinations;
use metric_contents::{Contents, Instrument, Key, Kind, Meter, Recorder};
use metric_names::AttrValue;
use metric_table::insert;
use std::alloc::{AllocError, Global};
use toml::{Table, Value};

// What the values of all keys may come to, in bytes.
const MOST_WEIGHT: u128 = 8_388_608;

// Whether the values of all keys, each time that an instrument has one, come to no more than fits.
pub(crate) fn fits(contents: &Contents) -> bool
    ensures { result ≡ fits_in_full contents.now }
{
    full_weight(contents.instruments.as_slice()) <= MOST_WEIGHT
}

fn full_weight(instruments: &[Instrument]) -> u128
    requires { length instruments.now ≤ 512 }
    ensures { result ≡ sum_by instrument_weight instruments.now }
{
    let mut weight = 0u128;
    for instrument in instruments {
        weight += instrument_weight(instrument);
    }
    weight
}

fn instrument_weight(instrument: &Instrument) -> u128
    ensures exact { result ≡ instrument_weight instrument.now }
    ensures few { result ≤ 2 ^ 78 }
{
    keys_weight(instrument.keys.as_slice())
}

fn keys_weight(keys: &[Key]) -> u128
    requires { length keys.now ≤ 8 }
    ensures exact { result ≡ sum_by key_weight keys.now }
    ensures few { result ≤ 2 ^ 78 }
{
    let mut weight = 0u128;
    for key in keys {
        weight += key_weight(key);
    }
    weight
}

fn key_weight(key: &Key) -> u128
    ensures exact { result ≡ key_weight key.now }
    ensures few { result ≤ 2 ^ 75 }
{
    values_weight(key.values.as_slice())
}

fn values_weight(values: &[AttrValue]) -> u128
    requires { length values.now ≤ 1000 }
    ensures exact { result ≡ sum_by value_weight values.now }
    ensures few { result ≤ 2 ^ 75 }
{
    let mut weight = 0u128;
    for value in values {
        weight += value_weight(value);
    }
    weight
}

// What a value counts for: a text its bytes, each value a little more.
fn value_weight(value: &AttrValue) -> u128
    ensures exact { result ≡ value_weight value.now }
    ensures few { result ≤ 2 ^ 65 }
{
    match value {
        AttrValue::Text(text) => text.as_str().len() as u128 + 16,
        _ => 16,
    }
}

// The text of what a catalogue declares.
pub(crate) fn printed(alloc: Global, contents: &Contents) -> Result<String, AllocError> {
    let mut meters = Vec::new(alloc);
    for (number, meter) in contents.meters.as_slice().iter().enumerate() {
        meters.push(meter_value(alloc, contents, number, meter)?)?;
    }
    let mut recorders = Vec::new(alloc);
    for recorder in contents.recorders.as_slice() {
        recorders.push(recorder_value(alloc, recorder)?)?;
    }
    let mut table = Table::new(alloc);
    put(
        alloc,
        &mut table,
        "format",
        Value::Integer(i64::from(contents.format)),
    )?;
    put(alloc, &mut table, "meter", Value::Array(meters))?;
    put(alloc, &mut table, "recorder", Value::Array(recorders))?;
    match toml::table_to_string(alloc, &table) {
        Ok(printed) => Ok(printed),
        Err(_) => Err(AllocError),
    }
}

fn meter_value(
    alloc: Global,
    contents: &Contents,
    number: usize,
    meter: &Meter,
) -> Result<Value, AllocError> {
    let mut instruments = Vec::new(alloc);
    for instrument in contents.instruments.as_slice() {
        if instrument.meter as usize == number {
            instruments.push(instrument_value(alloc, instrument)?)?;
        }
    }
    let mut table = Table::new(alloc);
    put(
        alloc,
        &mut table,
        "name",
        worded(alloc, meter.name.as_str())?,
    )?;
    put_text(alloc, &mut table, "version", meter.version.as_str())?;
    put_text(alloc, &mut table, "schema_url", meter.schema_url.as_str())?;
    put_list(alloc, &mut table, "instrument", instruments)?;
    Ok(Value::Table(table))
}

fn instrument_value(alloc: Global, instrument: &Instrument) -> Result<Value, AllocError> {
    let mut table = Table::new(alloc);
    put_text(alloc, &mut table, "name", instrument.name.get().as_str())?;
    put_text(alloc, &mut table, "kind", kind_name(instrument.kind))?;
    put_text(alloc, &mut table, "unit", instrument.unit.get().as_str())?;
    put_text(
        alloc,
        &mut table,
        "description",
        instrument.description.get().as_str(),
    )?;
    let range = numbers(alloc, &[instrument.lo, instrument.hi])?;
    put(alloc, &mut table, "range", range)?;
    if let Some(boundaries) = &instrument.advice {
        let boundaries = numbers(alloc, boundaries.get().as_slice())?;
        put(alloc, &mut table, "boundaries", boundaries)?;
    }
    put_limits(alloc, &mut table, instrument)?;
    Ok(Value::Table(table))
}

fn put_limits(alloc: Global, table: &mut Table, instrument: &Instrument) -> Result<(), AllocError> {
    let mut keys = Vec::new(alloc);
    for key in instrument.keys.as_slice() {
        keys.push(key_value(alloc, key)?)?;
    }
    put_list(alloc, table, "key", keys)?;
    if let Some(allowed) = &instrument.allowed {
        let rows = rows_value(alloc, allowed, instrument.keys.len())?;
        put(alloc, table, "allowed", rows)?;
    }
    if instrument.spare > 0 {
        put(alloc, table, "spare", whole(instrument.spare))?;
    }
    Ok(())
}

fn kind_name(kind: Kind) -> &'static str {
    match kind {
        Kind::Counter => "counter",
        Kind::UpDownCounter => "up_down_counter",
        Kind::Histogram => "histogram",
        Kind::Gauge => "gauge",
    }
}

fn key_value(alloc: Global, key: &Key) -> Result<Value, AllocError> {
    let mut values = Vec::new(alloc);
    for value in key.values.as_slice() {
        values.push(match value {
            AttrValue::Text(text) => worded(alloc, text.as_str())?,
            AttrValue::Whole(number) => Value::Integer(*number),
            AttrValue::Flag(flag) => Value::Boolean(*flag),
        })?;
    }
    let mut table = Table::new(alloc);
    put_text(alloc, &mut table, "name", key.name.as_str())?;
    put(alloc, &mut table, "values", Value::Array(values))?;
    if key.optional {
        put(alloc, &mut table, "optional", Value::Boolean(true))?;
    }
    Ok(Value::Table(table))
}

// The rows of combinations, each with an entry for each of so many keys.
fn rows_value(alloc: Global, allowed: &Combinations, keys: usize) -> Result<Value, AllocError> {
    let mut rows = Vec::new(alloc);
    for row in allowed.rows() {
        let mut entries = Vec::new(alloc);
        for entry in row.iter().take(keys) {
            entries.push(Value::Integer(i64::from(*entry)))?;
        }
        rows.push(Value::Array(entries))?;
    }
    Ok(Value::Array(rows))
}

fn recorder_value(alloc: Global, recorder: &Recorder) -> Result<Value, AllocError> {
    let mut budgets = Vec::new(alloc);
    for budget in recorder.budgets.as_slice() {
        let mut table = Table::new(alloc);
        put(
            alloc,
            &mut table,
            "instrument",
            Value::Integer(i64::from(budget.instrument)),
        )?;
        put(alloc, &mut table, "amount", whole(budget.amount))?;
        budgets.push(Value::Table(table))?;
    }
    let mut table = Table::new(alloc);
    put_text(alloc, &mut table, "name", recorder.name.as_str())?;
    put_list(alloc, &mut table, "budget", budgets)?;
    Ok(Value::Table(table))
}

fn put(alloc: Global, table: &mut Table, name: &str, value: Value) -> Result<(), AllocError> {
    insert(table, String::from_str(alloc, name)?, value)
}

// Puts a text, unless it is empty.
fn put_text(alloc: Global, table: &mut Table, name: &str, text: &str) -> Result<(), AllocError> {
    if text.is_empty() {
        return Ok(());
    }
    put(alloc, table, name, worded(alloc, text)?)
}

// Puts a list, unless it is empty.
fn put_list(
    alloc: Global,
    table: &mut Table,
    name: &str,
    values: Vec<Value>,
) -> Result<(), AllocError> {
    if values.is_empty() {
        return Ok(());
    }
    put(alloc, table, name, Value::Array(values))
}

fn worded(alloc: Global, text: &str) -> Result<Value, AllocError> {
    Ok(Value::String(String::from_str(alloc, text)?))
}

fn numbers(alloc: Global, numbers: &[i64]) -> Result<Value, AllocError> {
    let mut values = Vec::new(alloc);
    for number in numbers {
        values.push(Value::Integer(*number))?;
    }
    Ok(Value::Array(values))
}

// A number of recordings, which is at most 2^63 - 1.
fn whole(number: u64) -> Value {
    Value::Integer(i64::try_from(number).unwrap_or(i64::MAX))
}
