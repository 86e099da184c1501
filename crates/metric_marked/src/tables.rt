//! What is done to all tables of an instrument.
ghost use Rattle.std.specs.Prelude.{◌≡◌, ◌≢◌, ◌≤◌, ℕ, true, false, List, [], length, vec_capacity, IfOk, IsErrOf, OnOk, OnErr};
ghost use Rattle.metric_facts.specs.Facts.{is_full_set};
ghost use Rattle.metric_facts.specs.Products.{AreAllByProduct, AreDense};
ghost use Rattle.metric_series.specs.Calls.{is_in_range};
ghost use Rattle.metric_marked.specs.Marks.{AddsAllPoints, AddsPoints, EmptiesOne, EmptiesReader, HaveRoom, JudgesAll, KeepPlaces, StandAll, TakeAll, TakesAll, weightier as more_serious};
ghost use Rattle.metric_marked.specs.StreamSeries.{stream_series};
ghost use Rattle.metric_marked.specs.Stepwise.{AddsTo, AreReady, EachAt, IsReadyFor, Puts, Restores};

use crate::stream_series::empty_series;
use crate::stream_table::StreamTable;
use metric_base::Items;
use metric_facts::Facts;
use metric_history::{Entry, StreamPoints};
use metric_series::{Place, SeriesFault, Table};
use std::alloc::{AllocError, Global};

/// The tables of the streams of an instrument without recordings. Set keys are hashed with the seed where a stream is
/// not by product.
pub(crate) fn empty_tables(
    alloc: Global,
    facts: &Facts,
    seed: u64,
) -> Result<Vec<StreamTable>, AllocError>
    requires { AreDense facts.now }
    ensures stand { IfOk result (λ tables. StandAll tables.items facts.now.streams (λ _. [])) }
    ensures takes { IfOk result (λ tables. (set : List ℕ)
        → is_full_set facts.now.keys set ≡ true → TakeAll tables.items set) }
    ensures room { IfOk result (λ tables. AreAllByProduct facts.now → HaveRoom tables.items) }
    ensures count { IfOk result (λ tables. length tables.items ≡ length facts.now.streams) }
{
    let keys = facts.keys.as_slice();
    let streams = facts.streams.as_slice();
    // Room for one more, which nobody writes: what lies behind is on other lines of cache.
    let mut tables = Vec::with_capacity(alloc, streams.len() + 1)?;
    for numbered in streams {
        tables.push(StreamTable {
            number: numbered.number,
            reader: numbered.stream.reader,
            table: empty_series(alloc, keys, numbered, seed)?,
        })?;
    }
    Ok(tables)
}

/// Whether each series into which a recording falls stays in range with it.
pub(crate) fn all_fit(tables: &[StreamTable], entry: &Entry) -> bool
    requires { TakeAll tables.now entry.now.set }
    ensures { JudgesAll tables.now entry.now result }
{
    for stream in tables {
        if !stream.table.fits(&entry.set, entry.value) {
            return false;
        }
    }
    true
}

// The fault of one table beside others: `SumRange` of any table goes before `Memory`.
fn weightier(fault: SeriesFault, others_fit: bool) -> SeriesFault
    ensures { result ≡ more_serious fault others_fit }
{
    if others_fit {
        fault
    } else {
        SeriesFault::SumRange
    }
}

// Makes each table ready for a recording, up to the first that refuses it. The places are those of the tables that
// are ready.
fn ready_all(
    tables: &mut [StreamTable],
    places: &mut Vec<Place>,
    entry: &Entry,
) -> Result<(), SeriesFault>
    requires takes { TakeAll tables.old entry.now.set }
    requires none { places.old.items ≡ [] }
    requires room { length tables.old ≤ vec_capacity places.old }
    ensures ready { EachAt (IsReadyFor entry.now) tables.old tables.new places.new.items }
    ensures within { length places.new.items ≤ length tables.old }
    ensures all { OnOk result (length places.new.items ≡ length tables.old) }
    ensures in_range { OnOk result (JudgesAll tables.old entry.now true) }
    ensures out_of_range { IsErrOf result SeriesFault.SumRange
        → JudgesAll tables.old entry.now false }
    ensures memory { HaveRoom tables.old → result ≢ Err SeriesFault.Memory }
    ensures room { vec_capacity places.new ≡ vec_capacity places.old }
{
    for stream in tables.iter_mut() {
        match stream.table.ready(&entry.set, entry.value) {
            Ok(place) => places.push_reserved(place),
            Err(fault) => return Err(fault),
        }
    }
    Ok(())
}

// Takes back what was made ready in the first tables, one for each place.
fn unready_all(tables: &mut [StreamTable], places: &[Place])
    requires { length places.now ≤ length tables.old }
    ensures { EachAt Restores tables.old tables.new places.now }
{
    for (index, place) in places.iter().enumerate() {
        tables[index].table.unready(*place);
    }
}

// Adds the value of a recording to each table, at its place.
fn put_all(tables: &mut [StreamTable], places: &[Place], entry: &Entry)
    requires one_each { length places.now ≤ length tables.old }
    requires ready { AreReady entry.now tables.old places.now }
    ensures { EachAt (Puts entry.now) tables.old tables.new places.now }
{
    for (index, place) in places.iter().enumerate() {
        tables[index].table.put(*place, entry.value);
    }
}

// Adds a recording to a table.
#[inline(always)]
fn add_to(stream: &mut StreamTable, entry: &Entry) -> Result<(), SeriesFault>
    requires { stream_series.takes stream.old.table entry.now.set }
    ensures { AddsTo entry.now stream.old stream.new result }
{
    stream.table.add(&entry.set, entry.value)
}

/// Adds a recording to each table, or to none where one of them refuses it. An instrument with one stream, as most
/// have, needs no places. All memory is taken before the first value is added, and none where each table has room for
/// all values. There is room for a place of each table; what the list of places has held is lost.
pub(crate) fn push_all(
    tables: &mut [StreamTable],
    places: &mut Vec<Place>,
    entry: &Entry,
) -> Result<(), SeriesFault>
    requires takes { TakeAll tables.old entry.now.set }
    requires room { length tables.old ≤ vec_capacity places.old }
    ensures room { vec_capacity places.new ≡ vec_capacity places.old }
    ensures in_range { JudgesAll tables.old entry.now (is_in_range result) }
    ensures memory { HaveRoom tables.old → result ≢ Err SeriesFault.Memory }
    ensures places { KeepPlaces tables.old tables.new }
    ensures stands { OnOk result (TakesAll tables.old tables.new entry.now) }
    ensures err { OnErr result (tables.new ≡ tables.old) }
{
    if tables.len() == 1 {
        return add_to(&mut tables[0], entry);
    }
    places.clear();
    if let Err(fault) = ready_all(tables, places, entry) {
        unready_all(tables, places);
        return Err(weightier(fault, all_fit(tables, entry)));
    }
    put_all(tables, places, entry);
    Ok(())
}

// Puts the points of a table last, where it is the reader's.
fn add_points(
    all: &mut Vec<StreamPoints>,
    alloc: Global,
    stream: &StreamTable,
    reader: u32,
) -> Result<(), AllocError>
    ensures { OnOk result (AddsPoints all.old.items all.new.items stream.now reader) }
{
    if stream.reader == reader {
        let points = stream.table.points(alloc)?;
        all.push(StreamPoints {
            stream: stream.number,
            points: Items::from_vec(points),
        })?;
    }
    Ok(())
}

/// The points of each table of a reader, in stream order.
pub(crate) fn points_of(
    alloc: Global,
    tables: &[StreamTable],
    reader: u32,
) -> Result<Vec<StreamPoints>, AllocError>
    ensures { IfOk result (λ all. AddsAllPoints [] all.items tables.now reader) }
{
    let mut all = Vec::new(alloc);
    for stream in tables {
        add_points(&mut all, alloc, stream, reader)?;
    }
    Ok(all)
}

// Empties a table, where it is the reader's.
fn empty_one(stream: &mut StreamTable, reader: u32)
    ensures { EmptiesOne stream.old stream.new reader }
{
    if stream.reader == reader {
        stream.table.reset();
    }
}

/// Empties the tables of a reader.
pub(crate) fn empty(tables: &mut [StreamTable], reader: u32)
    ensures { EmptiesReader tables.old tables.new reader }
{
    for stream in tables.iter_mut() {
        empty_one(stream, reader);
    }
}
