//! Meters, their instruments, and the keys of each.
use crate::drafting::{Draft, names_of_texts, number_text, put_text, text_at};
use crate::key_types::{KeyTypes, are_texts, is_long};
use crate::quoting::said;
use crate::tree::{Row, text_of};
use crate::values::put_flags;
use metric_contents::{Instrument, Key, Kind, Meter};
use std::alloc::{AllocError, Global};

/// The types of keys, each with the number of its thing.
#[derive(Clone, Copy)]
pub(crate) struct Typed<'t, 'c> {
    /// The types.
    pub types: &'t KeyTypes<'c>,
    /// The number of each.
    pub numbers: &'t [usize],
}

/// Adds the meters that have instruments, with all that they have.
pub(crate) fn add_meters(
    alloc: Global,
    draft: &mut Draft,
    meters: &[Meter],
    instruments: &[Instrument],
    typed: Typed<'_, '_>,
) -> Result<(), AllocError> {
    let mut texts = Vec::new(alloc);
    for meter in meters {
        texts.push(meter.name.as_str())?;
    }
    let names = names_of_texts(alloc, texts.as_slice(), draft.meters())?;
    for (number, meter) in meters.iter().enumerate() {
        if instruments.iter().any(|own| own.meter as usize == number) {
            let name = text_at(names.as_slice(), number);
            let above = add_meter(alloc, draft, number, meter.name.as_str(), name)?;
            add_instruments(alloc, draft, above, number, instruments, typed)?;
        }
    }
    Ok(())
}

fn add_meter(
    alloc: Global,
    draft: &mut Draft,
    number: usize,
    text: &str,
    name: &str,
) -> Result<usize, AllocError> {
    let mut row = Row::new(alloc, "meter", 0);
    row.put("meter", String::from_str(alloc, name));
    row.put("meter_bytes", number_text(alloc, text.len()));
    put_text(alloc, draft, &mut row, ["quoted_meter", "said_meter"], text);
    let whose = format!(in alloc; "meter {number} {text:?}")?;
    let language = draft.language;
    draft.add_named(alloc, row, language.meters.whole, whose.as_str())
}

fn add_instruments(
    alloc: Global,
    draft: &mut Draft,
    above: usize,
    meter: usize,
    instruments: &[Instrument],
    typed: Typed<'_, '_>,
) -> Result<(), AllocError> {
    let mut texts = Vec::new(alloc);
    for instrument in instruments {
        if instrument.meter as usize == meter {
            texts.push(instrument.name.get().as_str())?;
        }
    }
    let language = draft.language;
    let names = names_of_texts(alloc, texts.as_slice(), language.instruments.style)?;
    let mut place = 0usize;
    for (number, instrument) in instruments.iter().enumerate() {
        if instrument.meter as usize == meter {
            let name = text_at(names.as_slice(), place);
            place = place.saturating_add(1);
            add_instrument(alloc, draft, above, number, instrument, name, typed)?;
        }
    }
    Ok(())
}

fn add_instrument(
    alloc: Global,
    draft: &mut Draft,
    above: usize,
    number: usize,
    instrument: &Instrument,
    name: &str,
    typed: Typed<'_, '_>,
) -> Result<(), AllocError> {
    let mut row = instrument_row(alloc, draft, above, instrument);
    row.put("on", String::from_str(alloc, name));
    row.put("number", number_text(alloc, number));
    let whose = format!(in alloc; "instrument {number}")?;
    let language = draft.language;
    let above = draft.add_named(alloc, row, language.instruments.whole, whose.as_str())?;
    add_keys(alloc, draft, above, instrument, whose.as_str(), typed)
}

// An instrument without its name and number.
fn instrument_row(alloc: Global, draft: &Draft, above: usize, instrument: &Instrument) -> Row {
    let mut row = Row::new(alloc, "instrument", above);
    let name = instrument.name.get().as_str();
    put_text(alloc, draft, &mut row, ["quoted", "said"], name);
    let unit = instrument.unit.get().as_str();
    put_text(alloc, draft, &mut row, ["quoted_unit", "unit"], unit);
    row.put(
        "description",
        said(alloc, instrument.description.get().as_str()),
    );
    row.put("lo", format!(in alloc; "{}", instrument.lo));
    row.put("hi", format!(in alloc; "{}", instrument.hi));
    row.put_if(alloc, "allowed", instrument.allowed.is_some());
    put_kind(alloc, &mut row, instrument.kind);
    row.put("on_bytes", number_text(alloc, name.len()));
    row.put("unit_bytes", number_text(alloc, unit.len()));
    let keys = instrument.keys.as_slice();
    row.put_if(alloc, "has_keys", !keys.is_empty());
    row.put_if(alloc, "is_long", keys.iter().any(is_long));
    row.put("total", number_text(alloc, total_of(keys)));
    row.put("bits", format!(in alloc; "{}", bits_of(keys)));
    let rest = *RESTS.get(keys.len()).unwrap_or(&"");
    row.put("rest", String::from_str(alloc, rest));
    row
}

// What stands behind so many numbers of a set key, of which there are eight.
const RESTS: [&str; 9] = [
    "0, 0, 0, 0, 0, 0, 0, 0",
    ", 0, 0, 0, 0, 0, 0, 0",
    ", 0, 0, 0, 0, 0, 0",
    ", 0, 0, 0, 0, 0",
    ", 0, 0, 0, 0",
    ", 0, 0, 0",
    ", 0, 0",
    ", 0",
    "",
];

fn put_kind(alloc: Global, row: &mut Row, kind: Kind) {
    let [number, camel, upper, spoken] = match kind {
        Kind::Counter => ["0", "Counter", "COUNTER", "a counter"],
        Kind::UpDownCounter => [
            "1",
            "UpDownCounter",
            "UP_DOWN_COUNTER",
            "an up-down counter",
        ],
        Kind::Histogram => ["2", "Histogram", "HISTOGRAM", "a histogram"],
        Kind::Gauge => ["3", "Gauge", "GAUGE", "a gauge"],
    };
    row.put("kind_number", String::from_str(alloc, number));
    row.put("Kind", String::from_str(alloc, camel));
    row.put("KIND", String::from_str(alloc, upper));
    row.put("spoken", String::from_str(alloc, spoken));
    let adds = matches!(kind, Kind::Counter | Kind::UpDownCounter);
    row.put_if(alloc, "adds", adds);
}

// How many values the keys have.
fn total_of(keys: &[Key]) -> usize {
    let mut total = 0usize;
    for key in keys {
        total = total.saturating_add(key.values.as_slice().len());
    }
    total
}

// A bit for each key that may be left out.
fn bits_of(keys: &[Key]) -> u32 {
    let mut bits = 0u32;
    for (key, bit) in keys.iter().zip([1u32, 2, 4, 8, 16, 32, 64, 128]) {
        if key.optional {
            bits |= bit;
        }
    }
    bits
}

fn add_keys(
    alloc: Global,
    draft: &mut Draft,
    above: usize,
    instrument: &Instrument,
    whose: &str,
    typed: Typed<'_, '_>,
) -> Result<(), AllocError> {
    let mut texts = Vec::new(alloc);
    for key in instrument.keys.as_slice() {
        texts.push(key.name.as_str())?;
    }
    let language = draft.language;
    let names = names_of_texts(alloc, texts.as_slice(), language.keys.style)?;
    for (number, key) in instrument.keys.as_slice().iter().enumerate() {
        let mut row = key_row(alloc, draft, above, key, typed);
        row.put(
            "key",
            String::from_str(alloc, text_at(names.as_slice(), number)),
        );
        let whose = format!(in alloc; "{whose}, key {:?}", key.name)?;
        draft.add_named(alloc, row, language.keys.whole, whose.as_str())?;
    }
    Ok(())
}

// A key without its name.
fn key_row(alloc: Global, draft: &Draft, above: usize, key: &Key, typed: Typed<'_, '_>) -> Row {
    let number = typed.types.number_of(key);
    let number = number.and_then(|number| typed.numbers.get(number));
    let link = number.copied().unwrap_or(0);
    let mut row = Row::linked(alloc, "key", above, link);
    let own = text_of(draft.rows.as_slice(), link, "type");
    row.put("of", String::from_str(alloc, own));
    row.put("quoted_key", draft.quoted(alloc, key.name.as_str()));
    row.put_if(alloc, "may", key.optional);
    let values = key.values.as_slice();
    row.put_if(alloc, "texts", are_texts(values));
    put_flags(alloc, &mut row, values);
    row
}
