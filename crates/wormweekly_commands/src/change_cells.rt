//! What stood before, and what stands now.
use crate::change_sheet::reader_at;
use crate::comparing::Comparison;
use crate::rooms::Rooms;
use crate::rows::{instrument_name, instrument_word, kind_word, temporality_word};
use metric_base::Items;
use metric_contents::{Instrument, Key};
use metric_diff::{Change, InstrumentPart, StreamPart};
use metric_kit_commands::Declared;
use metric_lines::attribute_of;
use metric_names::AttrValue;
use metric_sheet::Cell;
use metric_views::{Stream, StreamAggregation};
use std::alloc::{AllocError, Global};

/// What stood before a change.
pub(crate) fn before_cell(
    alloc: Global,
    comparison: &Comparison,
    change: &Change,
) -> Result<Cell, AllocError> {
    let side = &comparison.old;
    let streams = comparison.old_streams.as_slice();
    match *change {
        Change::ReaderRenamed { old, .. } => Cell::text(alloc, reader_at(side, old)),
        Change::CollisionGone { old } => part_cell(
            alloc,
            side,
            streams.get(old),
            StreamPart::Instrument,
        ),
        Change::SeriesChanged { old, .. } => Ok(series_cell(&comparison.old_series, old)),
        Change::StreamChanged { old, part, .. } => part_cell(alloc, side, streams.get(old), part),
        Change::KeyGone { old, key, .. } => key_cell(alloc, &side.declared, streams.get(old), key),
        Change::InstrumentChanged { old, part, .. } => declared_cell(alloc, side, old, part),
        Change::DeclaredKeyGone { old, key, .. } | Change::KeyTurned { old, key, .. } => {
            declared_key_cell(alloc, side, old, key)
        }
        Change::ValueGone {
            old,
            key,
            value,
            ..
        } => value_cell(alloc, side, old, key, value),
        Change::CombinationGone { old, row, .. } => combination_cell(alloc, side, old, row),
        Change::BudgetChanged { old, recorder, .. } => Ok(budget_cell(side, recorder, old)),
        Change::HeadroomChanged { old, .. } => Ok(room_cell(side, old)),
        _ => Ok(Cell::Nothing),
    }
}

/// What stands now.
pub(crate) fn after_cell(
    alloc: Global,
    comparison: &Comparison,
    change: &Change,
) -> Result<Cell, AllocError> {
    let side = &comparison.new;
    let streams = comparison.new_streams.as_slice();
    match *change {
        Change::ReaderRenamed { new, .. } => Cell::text(alloc, reader_at(side, new)),
        Change::CollisionNew { new } => part_cell(
            alloc,
            side,
            streams.get(new),
            StreamPart::Instrument,
        ),
        Change::SeriesChanged { new, .. } => Ok(series_cell(&comparison.new_series, new)),
        Change::StreamChanged { new, part, .. } => part_cell(alloc, side, streams.get(new), part),
        Change::KeyNew { new, key, .. } => key_cell(alloc, &side.declared, streams.get(new), key),
        Change::InstrumentChanged { new, part, .. } => declared_cell(alloc, side, new, part),
        Change::DeclaredKeyNew { new, key, .. }
        | Change::KeyTurned {
            new,
            other: key,
            ..
        } => { declared_key_cell(alloc, side, new, key) }
        Change::ValueNew {
            new,
            key,
            value,
            ..
        } => value_cell(alloc, side, new, key, value),
        Change::CombinationNew { new, row, .. } => combination_cell(alloc, side, new, row),
        Change::BudgetChanged { new, other, .. } => Ok(budget_cell(side, other, new)),
        Change::HeadroomChanged { new, .. } => Ok(room_cell(side, new)),
        _ => Ok(Cell::Nothing),
    }
}

// How many series a stream may have.
fn series_cell(series: &Items<u128>, stream: usize) -> Cell {
    match series.as_slice().get(stream) {
        Some(count) => Cell::Number(*count),
        None => Cell::Nothing,
    }
}

fn part_cell(
    alloc: Global,
    side: &Rooms,
    stream: Option<&Stream>,
    part: StreamPart,
) -> Result<Cell, AllocError> {
    let Some(stream) = stream else {
        return Ok(Cell::Nothing);
    };
    match part {
        StreamPart::Name => Cell::text(alloc, stream.name.get().as_str()),
        StreamPart::Description => Cell::text(alloc, stream.description.get().as_str()),
        StreamPart::Unit => Cell::text(alloc, stream.unit.get().as_str()),
        StreamPart::Kind => Cell::text(alloc, instrument_word(stream.kind)),
        StreamPart::Aggregation => Cell::text(alloc, kind_word(stream)),
        StreamPart::Boundaries | StreamPart::MoreBoundaries => {
            aggregation_cell(alloc, &stream.aggregation)
        }
        StreamPart::Limit => Ok(Cell::Number(u128::from(stream.limit))),
        StreamPart::Temporality => Cell::text(alloc, temporality_word(stream.temporality)),
        StreamPart::Instrument => {
            let name = instrument_name(&side.declared.catalogue, stream.instrument);
            Cell::text(alloc, name)
        }
    }
}

/// The boundaries of a histogram.
pub(crate) fn aggregation_cell(
    alloc: Global,
    aggregation: &StreamAggregation,
) -> Result<Cell, AllocError> {
    match aggregation {
        StreamAggregation::Histogram(boundaries) => numbers_cell(
            alloc,
            boundaries.get().as_slice(),
        ),
        _ => Ok(Cell::Nothing),
    }
}

fn numbers_cell(alloc: Global, numbers: &[i64]) -> Result<Cell, AllocError> {
    let mut all = Vec::new(alloc);
    for number in numbers {
        all.push(*number)?;
    }
    Ok(Cell::Numbers(all))
}

fn instrument_at(side: &Rooms, number: usize) -> Option<&Instrument> {
    side.declared.catalogue.instruments().get(number)
}

fn declared_cell(
    alloc: Global,
    side: &Rooms,
    instrument: usize,
    part: InstrumentPart,
) -> Result<Cell, AllocError> {
    let Some(instrument) = instrument_at(side, instrument) else {
        return Ok(Cell::Nothing);
    };
    match part {
        InstrumentPart::Name => Cell::text(alloc, instrument.name.get().as_str()),
        InstrumentPart::Description => Cell::text(alloc, instrument.description.get().as_str()),
        InstrumentPart::Unit => Cell::text(alloc, instrument.unit.get().as_str()),
        InstrumentPart::Kind => Cell::text(alloc, instrument_word(instrument.kind)),
        InstrumentPart::Advice => match &instrument.advice {
            Some(boundaries) => numbers_cell(alloc, boundaries.get().as_slice()),
            None => Ok(Cell::Nothing),
        },
        InstrumentPart::Range | InstrumentPart::WiderRange => {
            numbers_cell(alloc, &[instrument.lo, instrument.hi])
        }
        InstrumentPart::Spare | InstrumentPart::MoreSpare => {
            Ok(Cell::Number(u128::from(instrument.spare)))
        }
        InstrumentPart::Listed | InstrumentPart::Unlisted => Ok(rows_cell(instrument)),
    }
}

// How many combinations an instrument lists.
fn rows_cell(instrument: &Instrument) -> Cell {
    match &instrument.allowed {
        Some(allowed) => Cell::Number(allowed.rows().len() as u128),
        None => Cell::Nothing,
    }
}

// A key that an instrument declares, and whether it is required.
fn declared_key_cell(
    alloc: Global,
    side: &Rooms,
    instrument: usize,
    key: usize,
) -> Result<Cell, AllocError> {
    let Some(key) = key_at(side, instrument, key) else {
        return Ok(Cell::Nothing);
    };
    let word = if key.optional { "optional" } else { "required" };
    let name = key.name.as_str();
    Ok(Cell::Text(format!(in alloc; "{name}, {word}")?))
}

fn key_at(side: &Rooms, instrument: usize, key: usize) -> Option<&Key> {
    let instrument = instrument_at(side, instrument)?;
    instrument.keys.as_slice().get(key)
}

// A key with a value, of which a text stands in quotes.
fn value_cell(
    alloc: Global,
    side: &Rooms,
    instrument: usize,
    key: usize,
    value: usize,
) -> Result<Cell, AllocError> {
    let Some(key) = key_at(side, instrument, key) else {
        return Ok(Cell::Nothing);
    };
    match key.values.as_slice().get(value) {
        Some(value) => Ok(Cell::Text(attribute_text(alloc, key.name.as_str(), value)?)),
        None => Ok(Cell::Nothing),
    }
}

fn attribute_text(alloc: Global, name: &str, value: &AttrValue) -> Result<String, AllocError> {
    match value {
        AttrValue::Text(text) => {
            let text = text.as_str();
            Ok(format!(in alloc; "{name}=\"{text}\"")?)
        }
        value => Ok(format!(in alloc; "{name}={value}")?),
    }
}

// The attributes that a combination of an instrument stands for.
fn combination_cell(
    alloc: Global,
    side: &Rooms,
    instrument: usize,
    row: usize,
) -> Result<Cell, AllocError> {
    match row_at(side, instrument, row) {
        Some((keys, row)) => Ok(Cell::Text(combination_text(alloc, keys, row)?)),
        None => Ok(Cell::Nothing),
    }
}

fn row_at(side: &Rooms, instrument: usize, row: usize) -> Option<(&[Key], &[u16])> {
    let instrument = instrument_at(side, instrument)?;
    let allowed = instrument.allowed.as_ref()?;
    let row = allowed.rows().get(row)?;
    Some((instrument.keys.as_slice(), row.as_slice()))
}

fn combination_text(alloc: Global, keys: &[Key], row: &[u16]) -> Result<String, AllocError> {
    let mut text = String::new(alloc);
    for (key, entry) in keys.iter().zip(row) {
        let Some(attribute) = attribute_of(key, true, *entry) else {
            continue;
        };
        if !text.is_empty() {
            text.push_str(", ")?;
        }
        text.push_str(attribute_text(alloc, attribute.key, attribute.value)?.as_str())?;
    }
    Ok(text)
}

// How many recordings a recorder may make on an instrument.
fn budget_cell(side: &Rooms, recorder: usize, instrument: usize) -> Cell {
    let recorder = u32::try_from(recorder).unwrap_or(u32::MAX);
    let instrument = u32::try_from(instrument).unwrap_or(u32::MAX);
    let amount = side.declared.catalogue.budget(recorder, instrument);
    Cell::Number(u128::from(amount))
}

// The name of a key of a stream's instrument, where there is one.
fn key_cell(
    alloc: Global,
    declared: &Declared,
    stream: Option<&Stream>,
    key: usize,
) -> Result<Cell, AllocError> {
    match key_name(declared, stream, key) {
        Some(name) => Cell::text(alloc, name),
        None => Ok(Cell::Nothing),
    }
}

fn key_name<'d>(declared: &'d Declared, stream: Option<&Stream>, key: usize) -> Option<&'d str> {
    let instruments = declared.catalogue.instruments();
    let instrument = instruments.get(stream?.instrument as usize)?;
    let key = instrument.keys.as_slice().get(key)?;
    Some(key.name.as_str())
}

// The greatest sum of budgets and spare that is safe for an instrument.
fn room_cell(side: &Rooms, instrument: usize) -> Cell {
    match side.rooms.as_slice().get(instrument) {
        Some(room) => Cell::Number(u128::from(room.most)),
        None => Cell::Nothing,
    }
}
