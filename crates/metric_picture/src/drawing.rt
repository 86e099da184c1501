//! The picture of a catalogue and a config.
use crate::change::{Look, StreamChanges, add_changes, looks_of};
use crate::clashes::clashes_of;
use crate::diagram::{Diagram, Link, Node, Tone};
use crate::exported::{each_stream, grouped_streams};
use crate::instruments::{each_instrument, grouped_instruments, stream_counts};
use crate::lanes::with_lanes;
use crate::links::Links;
use crate::slots::Slots;
use crate::svg::svg_of;
use crate::views::{tone_of, view_nodes};
use metric_catalogue::Catalogue;
use metric_contents::Instrument;
use metric_resolve::{Streams, resolve};
use metric_views::{Config, Stream, View};
use std::alloc::{AllocError, Global};

// Of more instruments or streams than these several share a box.
const MOST_INSTRUMENTS: usize = 40;

const MOST_STREAMS: usize = 120;

// Columns of the picture, from which there are links. Without views there is no column of them.
const INSTRUMENTS: usize = 0;

const VIEWS: usize = 1;

/// The text of a picture of a catalogue and a config, as an SVG: instruments, the views that select them, and the
/// streams that these give each reader, or that come by default. Fails only when out of memory.
pub fn draw(alloc: Global, catalogue: &Catalogue, config: &Config) -> Result<String, AllocError> {
    draw_with(alloc, catalogue, config, None)
}

/// The same of a new catalogue and config, with what a change does to the streams: those that are new or differ are
/// marked, those that go stand below, and last what the marks mean. Fails only when out of memory.
pub fn draw_change(
    alloc: Global,
    catalogue: &Catalogue,
    config: &Config,
    changes: StreamChanges<'_>,
) -> Result<String, AllocError> {
    draw_with(alloc, catalogue, config, Some(changes))
}

fn draw_with(
    alloc: Global,
    catalogue: &Catalogue,
    config: &Config,
    changes: Option<StreamChanges<'_>>,
) -> Result<String, AllocError> {
    let streams = resolve(alloc, catalogue, config)?;
    let diagram = diagram_of(alloc, catalogue, config, &streams, changes)?;
    svg_of(alloc, &diagram)
}

fn diagram_of(
    alloc: Global,
    catalogue: &Catalogue,
    config: &Config,
    streams: &Streams,
    changes: Option<StreamChanges<'_>>,
) -> Result<Diagram, AllocError> {
    let clashes = clashes_of(alloc, catalogue, config, streams)?;
    let looks = looks_of(alloc, &clashes, changes)?;
    let mut columns = columns_of(alloc, catalogue, config, streams.list(), &looks)?;
    let links = links_of(alloc, catalogue, config, streams.list(), &looks, &columns)?;
    if let Some(changes) = changes {
        add_changes(alloc, &mut columns.streams, changes)?;
    }
    let columns = columns.into_nodes(alloc, config.views().is_empty())?;
    Ok(Diagram { columns, links })
}

// The columns, from the left.
struct Columns {
    instruments: Slots,
    // Of each box of instruments, the lane of its default streams.
    views: Slots,
    streams: Slots,
}

impl Drop for Columns {
    // As that of a box.
    fn drop(self) {
        let Columns {
            instruments: _instruments,
            views: _views,
            streams: _streams,
        } = self;
    }
}

impl Columns {
    // Their boxes. Without views there are two columns.
    fn into_nodes(self, alloc: Global, is_direct: bool) -> Result<Vec<Vec<Node>>, AllocError> {
        let Columns {
            instruments,
            views,
            streams,
        } = self;
        let mut all = Vec::new(alloc);
        all.push(instruments.into_nodes())?;
        if !is_direct {
            all.push(views.into_nodes())?;
        }
        all.push(streams.into_nodes())?;
        Ok(all)
    }
}

fn columns_of(
    alloc: Global,
    catalogue: &Catalogue,
    config: &Config,
    list: &[Stream],
    looks: &[Look],
) -> Result<Columns, AllocError> {
    let is_grouped = catalogue.instruments().len() > MOST_INSTRUMENTS || list.len() > MOST_STREAMS;
    let instruments = instrument_slots(alloc, catalogue, list, is_grouped)?;
    let views = with_lanes(alloc, view_nodes(alloc, config)?, list, &instruments)?;
    let streams = if is_grouped {
        grouped_streams(alloc, catalogue, config, list, looks)?
    } else {
        each_stream(alloc, catalogue, config, list, looks)?
    };
    Ok(Columns {
        instruments,
        views,
        streams,
    })
}

fn instrument_slots(
    alloc: Global,
    catalogue: &Catalogue,
    streams: &[Stream],
    is_grouped: bool,
) -> Result<Slots, AllocError> {
    let counts = stream_counts(alloc, catalogue.instruments().len(), streams)?;
    if is_grouped {
        grouped_instruments(alloc, catalogue, &counts)
    } else {
        each_instrument(alloc, catalogue, &counts)
    }
}

// The links between the columns.
fn links_of(
    alloc: Global,
    catalogue: &Catalogue,
    config: &Config,
    streams: &[Stream],
    looks: &[Look],
    columns: &Columns,
) -> Result<Vec<Link>, AllocError> {
    if config.views().is_empty() {
        direct_links(alloc, streams, looks, columns)
    } else {
        view_links(alloc, catalogue, config, streams, looks, columns)
    }
}

// Without views there are two columns, with links from instruments to streams.
fn direct_links(
    alloc: Global,
    streams: &[Stream],
    looks: &[Look],
    columns: &Columns,
) -> Result<Vec<Link>, AllocError> {
    let (height, width) = (columns.instruments.nodes.len(), columns.streams.nodes.len());
    let mut links = Links::new(alloc, INSTRUMENTS, height, width)?;
    for (number, (stream, look)) in streams.iter().zip(looks).enumerate() {
        let from = columns.instruments.at(stream.instrument as usize);
        links.add(from, columns.streams.at(number), link_tone(*look))?;
    }
    let mut all = Vec::new(alloc);
    links.push_to(&mut all)?;
    Ok(all)
}

// With views there are links from instruments to these, and from these to streams.
fn view_links(
    alloc: Global,
    catalogue: &Catalogue,
    config: &Config,
    streams: &[Stream],
    looks: &[Look],
    columns: &Columns,
) -> Result<Vec<Link>, AllocError> {
    let (height, width) = (columns.instruments.nodes.len(), columns.views.nodes.len());
    let mut to_views = Links::new(alloc, INSTRUMENTS, height, width)?;
    let views = config.views();
    link_selected(&mut to_views, catalogue, views, &columns.instruments)?;
    let mut to_streams = Links::new(alloc, VIEWS, width, columns.streams.nodes.len())?;
    link_streams(&mut to_views, &mut to_streams, columns, streams, looks)?;
    all_links(alloc, &to_views, &to_streams)
}

// The links to views, and then those to streams.
fn all_links(alloc: Global, to_views: &Links, to_streams: &Links) -> Result<Vec<Link>, AllocError> {
    let mut links = Vec::new(alloc);
    to_views.push_to(&mut links)?;
    to_streams.push_to(&mut links)?;
    Ok(links)
}

// Links instruments to the views that select them.
fn link_selected(
    links: &mut Links,
    catalogue: &Catalogue,
    views: &[View],
    instruments: &Slots,
) -> Result<(), AllocError> {
    for (number, instrument) in catalogue.instruments().iter().enumerate() {
        link_views(links, catalogue, views, instrument, instruments.at(number))?;
    }
    Ok(())
}

fn link_views(
    links: &mut Links,
    catalogue: &Catalogue,
    views: &[View],
    instrument: &Instrument,
    slot: usize,
) -> Result<(), AllocError> {
    let Some(meter) = catalogue.meters().get(instrument.meter as usize) else {
        return Ok(());
    };
    for (number, view) in views.iter().enumerate() {
        if view.selects(meter, instrument) {
            links.add(slot, number, tone_of(&view.settings))?;
        }
    }
    Ok(())
}

// Links streams to their views or, default streams, by a lane to their instruments.
fn link_streams(
    to_views: &mut Links,
    to_streams: &mut Links,
    columns: &Columns,
    streams: &[Stream],
    looks: &[Look],
) -> Result<(), AllocError> {
    for (number, (stream, look)) in streams.iter().zip(looks).enumerate() {
        let tone = link_tone(*look);
        let from = match stream.view {
            Some(view) => view as usize,
            None => {
                let slot = columns.instruments.at(stream.instrument as usize);
                let lane = columns.views.at(slot);
                to_views.add(slot, lane, tone)?;
                lane
            }
        };
        to_streams.add(from, columns.streams.at(number), tone)?;
    }
    Ok(())
}

fn link_tone(look: Look) -> Tone {
    if look.clash.is_some() {
        Tone::Red
    } else {
        Tone::Plain
    }
}
