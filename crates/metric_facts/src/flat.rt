//! Facts as one list of bytes.
ghost use Rattle.std.specs.Prelude.{◌≡◌, ◌++◌, ◌∷◌, [], IfOk, OnOk, slice_get, take};
ghost use Rattle.std.specs.BTreeMap as tree;
ghost use Rattle.std.specs.List.{list_all};
ghost use Rattle.std.specs.Ordering.{nat_cmp};
ghost use Rattle.std.specs.Option.{option_and_then, option_copied};
ghost use Rattle.metric_facts.specs.Flat.{
  aggregation_number,
  boundaries_of,
  details_of,
  details_seen,
  flat_allowed,
  flat_details,
  flat_details_after,
  flat_each,
  flat_facts,
  flat_flag,
  flat_instrument,
  flat_key,
  flat_list,
  flat_number,
  flat_points,
  flat_row,
  flat_rows,
  flat_settings,
  flat_signed,
  flat_source,
  flat_stream,
  flat_streams,
  flat_text,
  is_of_keys,
  is_same_details,
  kind_number,
  repeats,
  view_number,
};

use crate::facts::{FactsFields, KeyFacts, NumberedStream};
use crate::full_sets::are_zero;
use crate::instruments::is_delta;
use metric_combinations::Combinations;
use metric_contents::{Kind, SetKey};
use metric_views::{Stream, StreamAggregation};
use std::alloc::{AllocError, Global};
use std::collections::BTreeMap;

// A value that is written as bytes, from which it is read again without a mark of its end.
trait Flat {
    ghost use Rattle.std.specs.Prelude.{List, ℕ};

    ghost flat: { Self → List ℕ };

    fn write(&self, bytes: &mut Vec<u8>) -> Result<(), AllocError>
        ensures { OnOk result (bytes.new.items ≡ bytes.old.items ++ Self.flat self.now) };
}

fn write_byte(bytes: &mut Vec<u8>, byte: u8) -> Result<(), AllocError>
    ensures { OnOk result (bytes.new.items ≡ bytes.old.items ++ byte ∷ []) }
{
    bytes.push(byte)?;
    Ok(())
}

// Writes a number in groups of seven bits.
#[tactic(auto, using(crate::proofs::FlatLaws::number_written))]
fn write_number(bytes: &mut Vec<u8>, number: u64) -> Result<(), AllocError>
    ensures { OnOk result (bytes.new.items ≡ bytes.old.items ++ flat_number number) }
{
    if number < 128 {
        return write_byte(bytes, number as u8);
    }
    write_byte(bytes, (number % 128) as u8 + 128)?;
    write_number(bytes, number / 128)
}

fn write_flag(bytes: &mut Vec<u8>, flag: bool) -> Result<(), AllocError>
    ensures { OnOk result (bytes.new.items ≡ bytes.old.items ++ flat_flag flag) }
{
    write_byte(bytes, if flag { 1 } else { 0 })
}

fn write_signed(bytes: &mut Vec<u8>, number: &i64) -> Result<(), AllocError>
    ensures { OnOk result (bytes.new.items ≡ bytes.old.items ++ flat_signed number.now) }
{
    write_flag(bytes, *number < 0)?;
    write_number(bytes, number.unsigned_abs())
}

impl Flat for bool {
    ghost use Rattle.metric_facts.specs.Flat.{flat_flag};

    ghost flat = { flat_flag };

    fn write(&self, bytes: &mut Vec<u8>) -> Result<(), AllocError> {
        write_flag(bytes, *self)
    }
}

impl Flat for u16 {
    ghost use Rattle.metric_facts.specs.Flat.{flat_number};

    ghost flat = { flat_number };

    fn write(&self, bytes: &mut Vec<u8>) -> Result<(), AllocError> {
        write_number(bytes, u64::from(*self))
    }
}

impl Flat for u64 {
    ghost use Rattle.metric_facts.specs.Flat.{flat_number};

    ghost flat = { flat_number };

    fn write(&self, bytes: &mut Vec<u8>) -> Result<(), AllocError> {
        write_number(bytes, *self)
    }
}

impl Flat for i64 {
    ghost use Rattle.metric_facts.specs.Flat.{flat_signed};

    ghost flat = { flat_signed };

    fn write(&self, bytes: &mut Vec<u8>) -> Result<(), AllocError> {
        write_signed(bytes, self)
    }
}

impl Flat for KeyFacts {
    ghost use Rattle.metric_facts.specs.Flat.{flat_key};

    ghost flat = { flat_key };

    fn write(&self, bytes: &mut Vec<u8>) -> Result<(), AllocError> {
        write_number(bytes, u64::from(self.values))?;
        write_flag(bytes, self.optional)
    }
}

fn write_each<T: Flat>(bytes: &mut Vec<u8>, values: &[T]) -> Result<(), AllocError>
    ensures { OnOk result (bytes.new.items ≡ bytes.old.items ++ flat_each T.flat values.now) }
{
    for value in values {
        value.write(bytes)?;
    }
    Ok(())
}

fn write_list<T: Flat>(bytes: &mut Vec<u8>, values: &[T]) -> Result<(), AllocError>
    ensures { OnOk result (bytes.new.items ≡ bytes.old.items ++ flat_list T.flat values.now) }
{
    write_number(bytes, values.len() as u64)?;
    write_each(bytes, values)
}

// A set key with all its entries.
impl Flat for [u16; 8] {
    ghost use Rattle.metric_facts.specs.Flat.{flat_list, flat_number};

    ghost flat = { flat_list flat_number };

    fn write(&self, bytes: &mut Vec<u8>) -> Result<(), AllocError> {
        write_list(bytes, self)
    }
}

fn write_text(bytes: &mut Vec<u8>, text: &str) -> Result<(), AllocError>
    ensures { OnOk result (bytes.new.items ≡ bytes.old.items ++ flat_text text.now) }
{
    write_number(bytes, text.len() as u64)?;
    bytes.extend_from_slice(text.as_bytes())
}

// The number of a view after 1, or 0 for the default.
fn number_of_view(view: Option<u32>) -> u64
    ensures { result ≡ view_number view }
{
    match view {
        None => 0,
        Some(view) => u64::from(view) + 1,
    }
}

fn number_of_kind(kind: Kind) -> u8
    ensures { result ≡ kind_number kind }
{
    match kind {
        Kind::Counter => 0,
        Kind::UpDownCounter => 1,
        Kind::Histogram => 2,
        Kind::Gauge => 3,
    }
}

fn number_of_aggregation(aggregation: &StreamAggregation) -> u8
    ensures { result ≡ aggregation_number aggregation.now }
{
    match aggregation {
        StreamAggregation::Sum => 0,
        StreamAggregation::LastValue => 1,
        StreamAggregation::Histogram(_) => 2,
    }
}

// The boundaries of a histogram.
fn boundaries_of(aggregation: &StreamAggregation) -> &[i64]
    ensures { result.now ≡ boundaries_of aggregation.now }
{
    match aggregation {
        StreamAggregation::Sum | StreamAggregation::LastValue => &[],
        StreamAggregation::Histogram(boundaries) => boundaries.get().as_slice(),
    }
}

// Writes of which reader and instrument a stream is, of which view, and of which kind.
fn write_source(bytes: &mut Vec<u8>, stream: &Stream) -> Result<(), AllocError>
    ensures { OnOk result (bytes.new.items ≡ bytes.old.items ++ flat_source stream.now) }
{
    write_number(bytes, u64::from(stream.reader))?;
    write_number(bytes, u64::from(stream.instrument))?;
    write_number(bytes, number_of_view(stream.view))?;
    write_byte(bytes, number_of_kind(stream.kind))
}

// Writes how the points of a stream are made, and of which series.
fn write_points(bytes: &mut Vec<u8>, stream: &Stream) -> Result<(), AllocError>
    ensures { OnOk result (bytes.new.items ≡ bytes.old.items ++ flat_points stream.now) }
{
    write_byte(bytes, number_of_aggregation(&stream.aggregation))?;
    write_list(bytes, stream.kept.get().as_slice())?;
    write_number(bytes, u64::from(stream.limit))?;
    write_flag(bytes, is_delta(stream.temporality))
}

// Writes what a stream has beside its details.
fn write_settings(bytes: &mut Vec<u8>, stream: &Stream) -> Result<(), AllocError>
    ensures { OnOk result (bytes.new.items ≡ bytes.old.items ++ flat_settings stream.now) }
{
    write_source(bytes, stream)?;
    write_points(bytes, stream)
}

// The texts and boundaries of a stream, which streams of one view mostly share.
#[derive(Clone, Copy)]
struct StreamDetails<'a> {
    name: &'a str,
    description: &'a str,
    unit: &'a str,
    boundaries: &'a [i64],
}

fn details_of(stream: &Stream) -> StreamDetails<'_>
    ensures { details_seen result ≡ details_of stream.now }
{
    StreamDetails {
        name: stream.name.get().as_str(),
        description: stream.description.get().as_str(),
        unit: stream.unit.get().as_str(),
        boundaries: boundaries_of(&stream.aggregation),
    }
}

fn is_same_details(a: &StreamDetails<'_>, b: &StreamDetails<'_>) -> bool
    ensures { result ≡ is_same_details (details_seen a.now) (details_seen b.now) }
{
    a.name == b.name
        && a.description == b.description
        && a.unit == b.unit
        && a.boundaries == b.boundaries
}

fn write_details(bytes: &mut Vec<u8>, details: &StreamDetails<'_>) -> Result<(), AllocError>
    ensures { OnOk result (
        bytes.new.items ≡ bytes.old.items ++ flat_details (details_seen details.now)) }
{
    write_text(bytes, details.name)?;
    write_text(bytes, details.description)?;
    write_text(bytes, details.unit)?;
    write_list(bytes, details.boundaries)
}

// Whether the details of a stream are those of an earlier one.
fn repeats(earlier: Option<&NumberedStream>, details: &StreamDetails<'_>) -> bool
    ensures { result ≡ repeats (option_copied earlier.entry) (details_seen details.now) }
{
    match earlier {
        None => false,
        Some(earlier) => is_same_details(&details_of(&earlier.stream), details),
    }
}

// Writes the details of a stream, or that they are those of an earlier one.
fn write_details_after(
    bytes: &mut Vec<u8>,
    earlier: Option<&NumberedStream>,
    stream: &Stream,
) -> Result<(), AllocError>
    ensures { OnOk result (bytes.new.items
        ≡ bytes.old.items
        ++ flat_details_after (option_copied earlier.entry) (details_of stream.now)) }
{
    let details = details_of(stream);
    if repeats(earlier, &details) {
        return write_byte(bytes, 0);
    }
    write_byte(bytes, 1)?;
    write_details(bytes, &details)
}

// Writes a stream after an earlier one of its view, if there is one.
fn write_stream(
    bytes: &mut Vec<u8>,
    earlier: Option<&NumberedStream>,
    numbered: &NumberedStream,
) -> Result<(), AllocError>
    ensures { OnOk result (bytes.new.items
        ≡ bytes.old.items ++ flat_stream (option_copied earlier.entry) numbered.now) }
{
    write_number(bytes, u64::from(numbered.number))?;
    write_flag(bytes, numbered.by_product)?;
    write_settings(bytes, &numbered.stream)?;
    write_details_after(bytes, earlier, &numbered.stream)
}

// The stream at the place that a map has for a view.
fn last_of<'a>(
    streams: &'a [NumberedStream],
    places: &BTreeMap<u64, usize>,
    view: u64,
) -> Option<&'a NumberedStream>
    ensures { option_copied result
        ≡ option_and_then (slice_get streams.now) (tree.get nat_cmp places.now view) }
{
    let place = places.get(&view)?;
    streams.get(*place)
}

// Writes streams, each after the last of its view, whose place the map has.
fn write_streams(
    alloc: Global,
    bytes: &mut Vec<u8>,
    streams: &[NumberedStream],
) -> Result<(), AllocError>
    ensures { OnOk result (bytes.new.items ≡ bytes.old.items ++ flat_streams [] streams.now) }
{
    let mut places = BTreeMap::new(alloc);
    for (place, numbered) in streams.iter().enumerate() {
        let view = number_of_view(numbered.stream.view);
        write_stream(bytes, last_of(streams, &places, view), numbered)?;
        places.insert(view, place)?;
    }
    Ok(())
}

// The entries of so many keys.
fn entries_of(keys: usize, row: &SetKey) -> &[u16]
    ensures { result.now ≡ take keys row.now }
{
    &row[..keys.min(row.len())]
}

// Whether the entries after those of so many keys are 0.
fn is_of_keys(keys: usize, row: &SetKey) -> bool
    ensures { result ≡ is_of_keys keys row.now }
{
    are_zero(&row[keys.min(row.len())..])
}

// Whether each row is of so many keys.
fn are_of_keys(keys: usize, rows: &[SetKey]) -> bool
    ensures { result ≡ list_all (is_of_keys keys) rows.now }
{
    rows.iter().all(|row| is_of_keys(keys, row))
}

// Writes the entries of so many keys of each row.
fn write_entries(bytes: &mut Vec<u8>, keys: usize, rows: &[SetKey]) -> Result<(), AllocError>
    ensures { OnOk result
        (bytes.new.items ≡ bytes.old.items ++ flat_each (flat_row keys) rows.now) }
{
    for row in rows {
        write_each(bytes, entries_of(keys, row))?;
    }
    Ok(())
}

// Writes rows, shortly where each is of so many keys, as those of a catalogue are.
fn write_rows(bytes: &mut Vec<u8>, keys: usize, rows: &[SetKey]) -> Result<(), AllocError>
    ensures { OnOk result (bytes.new.items ≡ bytes.old.items ++ flat_rows keys rows.now) }
{
    if are_of_keys(keys, rows) {
        write_byte(bytes, 0)?;
        write_number(bytes, rows.len() as u64)?;
        return write_entries(bytes, keys, rows);
    }
    write_byte(bytes, 1)?;
    write_list(bytes, rows)
}

// Writes the allowed combinations of so many keys, where these are listed.
fn write_allowed(
    bytes: &mut Vec<u8>,
    keys: usize,
    allowed: &Option<Combinations>,
) -> Result<(), AllocError>
    ensures { OnOk result (bytes.new.items ≡ bytes.old.items ++ flat_allowed keys allowed.now) }
{
    match allowed {
        None => write_byte(bytes, 0),
        Some(combinations) => {
            write_byte(bytes, 1)?;
            write_rows(bytes, keys, combinations.rows())
        }
    }
}

// Writes what an instrument has beside its streams and its combinations.
fn write_instrument(bytes: &mut Vec<u8>, facts: &FactsFields) -> Result<(), AllocError>
    ensures { OnOk result (bytes.new.items ≡ bytes.old.items ++ flat_instrument facts.now) }
{
    write_number(bytes, facts.plan)?;
    write_flag(bytes, facts.certified)?;
    write_number(bytes, u64::from(facts.instrument))?;
    write_list(bytes, facts.keys.as_slice())?;
    write_signed(bytes, &facts.lo)?;
    write_signed(bytes, &facts.hi)?;
    write_list(bytes, facts.budgets.as_slice())?;
    write_number(bytes, facts.spare)?;
    write_list(bytes, facts.delta.as_slice())
}

/// The bytes of facts. Fails only when out of memory.
pub fn flat_facts(alloc: Global, facts: &FactsFields) -> Result<Vec<u8>, AllocError>
    ensures { IfOk result (λ bytes. bytes.items ≡ flat_facts facts.now) }
{
    let mut bytes = Vec::new(alloc);
    write_instrument(&mut bytes, facts)?;
    let streams = facts.streams.as_slice();
    write_number(&mut bytes, streams.len() as u64)?;
    write_streams(alloc, &mut bytes, streams)?;
    write_allowed(&mut bytes, facts.keys.len(), &facts.allowed)?;
    Ok(bytes)
}
