//! What of batches is reported: for each meter the streams of its instruments that have points.
ghost use Rattle.std.specs.Prelude.{◌≡◌, ◌<◌, ◌+◌, ◌^◌, ◌++◌, IfOk, OnOk, length, map};
ghost use Rattle.std.specs.List.{enumerate_from, filter_map, flat_map};
ghost use Rattle.std.specs.Option.{option_copied, option_map};
ghost use Rattle.metric_otlp.specs.Reported.{report_by, reported_by};
ghost use Rattle.metric_otlp.specs.Reports.{instrument_of, report_of, reported_by_meter, reported_of, reports_of};

use metric_catalogue::Catalogue;
use metric_contents::{Instrument, Key, Meter};
use metric_history::{Batch, Point, StreamPoints};
use metric_views::Stream;
use std::alloc::{AllocError, Global};

/// A stream with its points, at least one.
#[derive(Clone, Copy)]
pub(crate) struct Reported<'a> {
    /// The keys that its instrument declares.
    pub keys: &'a [Key],
    /// The batch that the points are of.
    pub batch: &'a Batch,
    /// The stream.
    pub stream: &'a Stream,
    /// Its points.
    pub points: &'a [Point],
}

/// What batches report of a meter.
#[derive(Drop)]
pub(crate) struct Report<'a> {
    /// The meter.
    pub meter: &'a Meter,
    /// The streams of its instruments that have points, at least one.
    pub streams: Vec<Reported<'a>>,
}

/// What batches report, of each meter that has points, in the order of the catalogue. A batch of no instrument of the
/// catalogue, and a stream whose number is not the plan's, are left out.
pub(crate) fn reports_of<'a>(
    alloc: Global,
    catalogue: &'a Catalogue,
    streams: &'a [Stream],
    batches: &'a [Batch],
) -> Result<Vec<Report<'a>>, AllocError>
    ensures { IfOk result (λ reports. map report_by reports.items
        ≡ reports_of catalogue.entry.now streams.entry.now batches.entry.now) }
{
    let mut reports = Vec::new(alloc);
    let meters = catalogue.meters();
    add_reports(alloc, &mut reports, catalogue, streams, batches, 0, meters)?;
    Ok(reports)
}

// Puts the reports of meters last, which are numbered from a number on: a catalogue has at most 64.
fn add_reports<'a>(
    alloc: Global,
    reports: &mut Vec<Report<'a>>,
    catalogue: &'a Catalogue,
    streams: &'a [Stream],
    batches: &'a [Batch],
    number: usize,
    meters: &'a [Meter],
) -> Result<(), AllocError>
    requires { number + length meters.now < 2 ^ 64 }
    ensures { OnOk result (map report_by reports.new.items ≡ map report_by reports.old.items
        ++ filter_map (report_of catalogue.entry.now streams.entry.now batches.entry.now)
        (enumerate_from number meters.entry.now)) }
{
    let Some((meter, others)) = meters.split_first() else {
        return Ok(());
    };
    if let Some(report) = report_of(alloc, catalogue, streams, batches, number, meter)? {
        reports.push(report)?;
    }
    add_reports(
        alloc,
        reports,
        catalogue,
        streams,
        batches,
        number + 1,
        others,
    )
}

// What batches report of a meter with its number, where that is anything.
fn report_of<'a>(
    alloc: Global,
    catalogue: &'a Catalogue,
    streams: &'a [Stream],
    batches: &'a [Batch],
    number: usize,
    meter: &'a Meter,
) -> Result<Option<Report<'a>>, AllocError>
    ensures { IfOk result (λ report. option_map report_by report
        ≡ report_of catalogue.entry.now streams.entry.now batches.entry.now
        (number, meter.entry.now)) }
{
    let mut found = Vec::new(alloc);
    add_batches(&mut found, catalogue, streams, number, batches)?;
    if found.is_empty() {
        return Ok(None);
    }
    Ok(Some(Report {
        meter,
        streams: found,
    }))
}

// Puts the streams of the batches of a meter's instruments last.
#[tactic(auto, using(metric_text::specs::ListLaws::steps))]
fn add_batches<'a>(
    found: &mut Vec<Reported<'a>>,
    catalogue: &'a Catalogue,
    streams: &'a [Stream],
    meter: usize,
    batches: &'a [Batch],
) -> Result<(), AllocError>
    ensures { OnOk result (map reported_by found.new.items ≡ map reported_by found.old.items
        ++ flat_map (reported_by_meter catalogue.entry.now streams.entry.now meter)
        batches.entry.now) }
{
    for batch in batches {
        add_batch(found, catalogue, streams, meter, batch)?;
    }
    Ok(())
}

// Puts the streams of a batch last, where its instrument is of the meter.
fn add_batch<'a>(
    found: &mut Vec<Reported<'a>>,
    catalogue: &'a Catalogue,
    streams: &'a [Stream],
    meter: usize,
    batch: &'a Batch,
) -> Result<(), AllocError>
    ensures { OnOk result (map reported_by found.new.items ≡ map reported_by found.old.items
        ++ reported_by_meter catalogue.entry.now streams.entry.now meter batch.entry.now) }
{
    match instrument_of(catalogue, meter, batch) {
        None => Ok(()),
        Some(instrument) => {
            let keys = instrument.keys.as_slice();
            add_streams(found, streams, keys, batch, batch.streams.as_slice())
        }
    }
}

// The instrument of a batch, where it is of the meter.
#[tactic(auto, unfolding(crate::specs::Reports::instrument_of))]
fn instrument_of<'a>(
    catalogue: &'a Catalogue,
    meter: usize,
    batch: &Batch,
) -> Option<&'a Instrument>
    ensures { option_copied result ≡ instrument_of catalogue.entry.now meter batch.now }
{
    let instrument = catalogue.instruments().get(batch.instrument as usize)?;
    if instrument.meter as usize == meter {
        Some(instrument)
    } else {
        None
    }
}

// Puts the streams that have points last.
fn add_streams<'a>(
    found: &mut Vec<Reported<'a>>,
    streams: &'a [Stream],
    keys: &'a [Key],
    batch: &'a Batch,
    all: &'a [StreamPoints],
) -> Result<(), AllocError>
    ensures { OnOk result (map reported_by found.new.items ≡ map reported_by found.old.items
        ++ filter_map (reported_of streams.entry.now keys.entry.now batch.entry.now)
        all.entry.now) }
{
    let Some((points, others)) = all.split_first() else {
        return Ok(());
    };
    if let Some(reported) = reported_of(streams, keys, batch, points) {
        found.push(reported)?;
    }
    add_streams(found, streams, keys, batch, others)
}

// The stream of some points, unless there are none.
fn reported_of<'a>(
    streams: &'a [Stream],
    keys: &'a [Key],
    batch: &'a Batch,
    points: &'a StreamPoints,
) -> Option<Reported<'a>>
    ensures { option_map reported_by result
        ≡ reported_of streams.entry.now keys.entry.now batch.entry.now points.entry.now }
{
    if points.points.is_empty() {
        return None;
    }
    let stream = streams.get(points.stream as usize)?;
    Some(Reported {
        keys,
        batch,
        stream,
        points: points.points.as_slice(),
    })
}
