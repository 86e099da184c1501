//! The lines of a batch, by streams.
ghost use Rattle.std.specs.Prelude.{◌≡◌, ◌++◌, ◌∷◌, [], IfOk, OnOk};
ghost use Rattle.std.specs.List.{flat_map};
ghost use Rattle.metric_exposition.specs.Sections.{batch_sections, reported_sections, stream_section};

use crate::dialect::Dialect;
use crate::exposition::{Room, Source, push_points};
use crate::header::push_header;
use crate::section::Section;
use metric_base::Items;
use metric_catalogue::Catalogue;
use metric_family::family_of;
use metric_history::{Batch, Point, StreamPoints};
use metric_views::Stream;
use std::alloc::{AllocError, Global};

/// The sections of a batch: of each stream that has points the lines of help, type and, in OpenMetrics, unit, and those
/// of its points. No time stands in them.
///
/// The streams are those of the plan, numbered from 0. A batch of no instrument of the catalogue is nothing, and a
/// stream whose number is not there is left out. Every number is exact. The names of families and labels are those that
/// Prometheus and the OpenTelemetry Collector make; that a server tells them apart, and that a point is cumulative, is
/// for the caller to know. Fails only when out of memory.
#[tactic(auto, unfolding(crate::specs::Sections::batch_sections))]
pub fn batch_sections(
    alloc: Global,
    dialect: Dialect,
    catalogue: &Catalogue,
    streams: &[Stream],
    batch: &Batch,
) -> Result<Items<Section>, AllocError>
    ensures { IfOk result (λ sections.
        sections ≡ batch_sections dialect catalogue.now streams.now batch.now) }
{
    let mut sections = Vec::new(alloc);
    let Some(instrument) = catalogue.instruments().get(batch.instrument as usize) else {
        return Ok(Items::from_vec(sections));
    };
    let Some(meter) = catalogue.meters().get(instrument.meter as usize) else {
        return Ok(Items::from_vec(sections));
    };
    let source = Source {
        dialect,
        meter,
        keys: instrument.keys.as_slice(),
        start: batch.start,
    };
    push_streams(
        alloc,
        &mut sections,
        &source,
        streams,
        batch.streams.as_slice(),
    )?;
    Ok(Items::from_vec(sections))
}

#[tactic(auto, using(metric_text::specs::ListLaws::steps))]
fn push_streams(
    alloc: Global,
    sections: &mut Vec<Section>,
    source: &Source<'_>,
    streams: &[Stream],
    reported: &[StreamPoints],
) -> Result<(), AllocError>
    ensures { OnOk result (sections.new.items ≡ sections.old.items ++ flat_map (reported_sections
        source.now.dialect source.now.meter.now source.now.keys.now streams.now source.now.start)
        reported.now) }
{
    for points in reported {
        push_reported(alloc, sections, source, streams, points)?;
    }
    Ok(())
}

// Puts the section of a stream last, if it has points and is there.
fn push_reported(
    alloc: Global,
    sections: &mut Vec<Section>,
    source: &Source<'_>,
    streams: &[Stream],
    points: &StreamPoints,
) -> Result<(), AllocError>
    ensures { OnOk result (sections.new.items ≡ sections.old.items ++ reported_sections
        source.now.dialect source.now.meter.now source.now.keys.now streams.now source.now.start
        points.now) }
{
    if points.points.is_empty() {
        return Ok(());
    }
    match streams.get(points.stream as usize) {
        Some(stream) => push_section(alloc, sections, source, stream, points.points.as_slice()),
        None => Ok(()),
    }
}

// Puts the section of a stream last.
fn push_section(
    alloc: Global,
    sections: &mut Vec<Section>,
    source: &Source<'_>,
    stream: &Stream,
    points: &[Point],
) -> Result<(), AllocError>
    ensures { OnOk result (sections.new.items ≡ sections.old.items
        ++ stream_section source.now.dialect source.now.meter.now source.now.keys.now
        source.now.start points.now stream.now ∷ []) }
{
    let section = section_of(alloc, source, stream, points)?;
    sections.push(section)?;
    Ok(())
}

// The section of a stream. The name of its family is made once.
fn section_of(
    alloc: Global,
    source: &Source<'_>,
    stream: &Stream,
    points: &[Point],
) -> Result<Section, AllocError>
    ensures { IfOk result (λ section. section ≡ stream_section source.now.dialect
        source.now.meter.now source.now.keys.now source.now.start points.now stream.now) }
{
    let family = family_of(alloc, stream)?;
    let mut header = Vec::new(alloc);
    push_header(alloc, &mut header, source.dialect, family.as_str(), stream)?;
    let mut lines = Vec::new(alloc);
    let mut room = Room {
        labels: Vec::new(alloc),
        head: Vec::new(alloc),
    };
    push_points(
        &mut lines,
        &mut room,
        source,
        family.as_str(),
        stream,
        points,
    )?;
    Ok(Section {
        family,
        header: Items::from_vec(header),
        lines: Items::from_vec(lines),
    })
}
