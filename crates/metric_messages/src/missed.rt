//! Why a view selects nothing.
use crate::named::instrument_of;
use crate::near::nearest;
use crate::sentence::write_three;
use crate::shown::Quoted;
use crate::sources::Pair;
use crate::standing_tables::kind_name;
use metric_base::Text;
use metric_contents::{Instrument, Kind, Meter};
use metric_views::{Criteria, is_of_kind, is_text};
use std::alloc::{AllocError, Global};
use std::fmt;

// A criterion of a view, with what an instrument has in its place.
#[derive(Clone, Copy)]
struct Missed<'t> {
    what: &'static str,
    own: &'t str,
    field: &'static str,
}

impl fmt::Display for Missed<'_> {
    fn fmt<W: fmt::Write>(&self, f: &mut fmt::Formatter<W>) -> fmt::Result {
        write_three(
            f,
            ("", &self.what),
            (" is ", &Quoted(self.own)),
            (", not as field ", &Quoted(self.field)),
            " says",
        )
    }
}

// What is told of a view that selects nothing: of the instrument that comes nearest, which criterion keeps it out.
pub(crate) fn words_of_nothing(
    alloc: Global,
    pair: Pair<'_>,
    view: u32,
) -> Result<String, AllocError> {
    let Some(own) = pair.config.views().get(view as usize) else {
        return format!(in alloc; "view {view} selects no instrument");
    };
    if pair.catalogue.instruments().is_empty() {
        return format!(in alloc; "view {view} selects no instrument: there is none");
    }
    match nearest_instrument(pair, &own.criteria) {
        Some((number, missed)) => {
            let instrument = instrument_of(pair.catalogue, number);
            format!(in alloc;
                "view {view} selects no instrument: {instrument} comes nearest, and {missed}"
            )
        }
        None => words_of_no_name(alloc, pair.catalogue.instruments(), view, &own.criteria),
    }
}

// What is told where no instrument has such a name, with the name that may have been meant.
fn words_of_no_name(
    alloc: Global,
    instruments: &[Instrument],
    view: u32,
    criteria: &Criteria,
) -> Result<String, AllocError> {
    let mut words = format!(in alloc;
        "view {view} selects no instrument: none has such a name as field \"instrument_name\" says"
    )?;
    if let Some(name) = near_name(alloc, instruments, criteria)? {
        write!(words, "; did you mean {name}?")?;
    }
    Ok(words)
}

fn near_name<'t>(
    alloc: Global,
    instruments: &'t [Instrument],
    criteria: &Criteria,
) -> Result<Option<&'t str>, AllocError> {
    let Some(pattern) = &criteria.instrument_name else {
        return Ok(None);
    };
    let mut names = Vec::new(alloc);
    for instrument in instruments {
        names.push(instrument.name.get().as_str())?;
    }
    Ok(nearest(pattern.as_str(), &names))
}

fn has_name(criteria: &Criteria, instrument: &Instrument) -> bool {
    match &criteria.instrument_name {
        Some(pattern) => pattern.matches(instrument.name.get()),
        None => true,
    }
}

// The first instrument of the name that misses the fewest criteria, with the first that it misses.
fn nearest_instrument<'t>(pair: Pair<'t>, criteria: &Criteria) -> Option<(u32, Missed<'t>)> {
    let mut found = None;
    let mut fewest = usize::MAX;
    for (number, instrument) in pair.catalogue.instruments().iter().enumerate() {
        if let Some((count, missed)) = misses(pair, criteria, instrument)
            && count < fewest
        {
            fewest = count;
            found = Some((number as u32, missed));
        }
    }
    found
}

// How many criteria an instrument of the name misses, and the first of them.
fn misses<'t>(
    pair: Pair<'t>,
    criteria: &Criteria,
    instrument: &'t Instrument,
) -> Option<(usize, Missed<'t>)> {
    if !has_name(criteria, instrument) {
        return None;
    }
    let meter = pair.catalogue.meters().get(instrument.meter as usize)?;
    let mut count = 0usize;
    let mut first = None;
    for missed in missed_by(criteria, meter, instrument) {
        if let Some(missed) = missed {
            count = count.saturating_add(1);
            first = first.or(Some(missed));
        }
    }
    Some((count, first?))
}

// The criteria but the name, where an instrument misses them. Each is named, so that a new one is not left out
// unnoticed.
fn missed_by<'t>(
    criteria: &Criteria,
    meter: &'t Meter,
    instrument: &'t Instrument,
) -> [Option<Missed<'t>>; 5] {
    let Criteria {
        instrument_name: _,
        instrument_type,
        instrument_unit,
        meter_name,
        meter_version,
        meter_schema_url,
    } = criteria;
    let unit = instrument.unit.get().as_str();
    let name = meter.name.as_str();
    let version = meter.version.as_str();
    let schema_url = meter.schema_url.as_str();
    [
        missed_kind(instrument_type, instrument.kind),
        missed_text(instrument_unit, "its unit", unit, "instrument_unit"),
        missed_text(meter_name, "the name of its meter", name, "meter_name"),
        missed_text(
            meter_version,
            "the version of its meter",
            version,
            "meter_version",
        ),
        missed_text(
            meter_schema_url,
            "the schema URL of its meter",
            schema_url,
            "meter_schema_url",
        ),
    ]
}

fn missed_kind<'t>(criterion: &Option<Kind>, kind: Kind) -> Option<Missed<'t>> {
    if is_of_kind(criterion, kind) {
        return None;
    }
    Some(Missed {
        what: "its kind",
        own: kind_name(kind),
        field: "instrument_type",
    })
}

fn missed_text<'t>(
    criterion: &Option<Text>,
    what: &'static str,
    own: &'t str,
    field: &'static str,
) -> Option<Missed<'t>> {
    if is_text(criterion, own) {
        return None;
    }
    Some(Missed { what, own, field })
}
