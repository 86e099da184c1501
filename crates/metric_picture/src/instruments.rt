//! The boxes of instruments.
use crate::diagram::{Node, Tone};
use crate::letters::isolated;
use crate::slots::Slots;
use metric_catalogue::Catalogue;
use metric_contents::{Instrument, Key, Kind};
use metric_views::Stream;
use std::alloc::{AllocError, Global};

/// How many streams each instrument has.
pub(crate) fn stream_counts(
    alloc: Global,
    instruments: usize,
    streams: &[Stream],
) -> Result<Vec<usize>, AllocError> {
    let mut counts = vec![in alloc; 0usize; instruments]?;
    for stream in streams {
        count_one(counts.as_mut_slice(), stream.instrument as usize);
    }
    Ok(counts)
}

/// Counts one more at a place, where there is such a place.
pub(crate) fn count_one(counts: &mut [usize], place: usize) {
    if let Some(count) = counts.get_mut(place) {
        *count = count.saturating_add(1);
    }
}

/// A box for each instrument.
pub(crate) fn each_instrument(
    alloc: Global,
    catalogue: &Catalogue,
    counts: &[usize],
) -> Result<Slots, AllocError> {
    let mut slots = Slots::new(alloc);
    for (instrument, count) in catalogue.instruments().iter().zip(counts) {
        slots.add(instrument_node(alloc, instrument, *count == 0)?)?;
    }
    Ok(slots)
}

fn instrument_node(
    alloc: Global,
    instrument: &Instrument,
    is_silent: bool,
) -> Result<Node, AllocError> {
    let title = String::from_str(alloc, instrument.name.get().as_str())?;
    let mut node = Node::new(alloc, title, instrument_tone(is_silent));
    add_lines(alloc, &mut node, instrument, is_silent)?;
    Ok(node)
}

// The kind of an instrument, its keys where it declares any, and that it gives no stream.
fn add_lines(
    alloc: Global,
    node: &mut Node,
    instrument: &Instrument,
    is_silent: bool,
) -> Result<(), AllocError> {
    node.add_line(kind_line(alloc, instrument))?;
    if !instrument.keys.as_slice().is_empty() {
        node.add_line(keys_line(alloc, instrument.keys.as_slice()))?;
    }
    if is_silent {
        node.add_line(String::from_str(alloc, "gives no stream"))?;
    }
    Ok(())
}

fn instrument_tone(is_silent: bool) -> Tone {
    if is_silent {
        Tone::Dropped
    } else {
        Tone::Plain
    }
}

// The kind of an instrument, and its unit where it has one.
fn kind_line(alloc: Global, instrument: &Instrument) -> Result<String, AllocError> {
    let mut line = String::from_str(alloc, kind_word(instrument.kind))?;
    let unit = instrument.unit.get().as_str();
    if !unit.is_empty() {
        line.push(' ')?;
        line.push_str(unit)?;
    }
    Ok(line)
}

fn keys_line(alloc: Global, keys: &[Key]) -> Result<String, AllocError> {
    let mut line = String::from_str(alloc, "keys:")?;
    for key in keys {
        line.push(' ')?;
        line.push_str(isolated(alloc, key.name.as_str())?.as_str())?;
    }
    Ok(line)
}

/// The kind of an instrument, in a word.
pub(crate) fn kind_word(kind: Kind) -> &'static str {
    match kind {
        Kind::Counter => "counter",
        Kind::UpDownCounter => "up-down counter",
        Kind::Histogram => "histogram",
        Kind::Gauge => "gauge",
    }
}

// The instruments of a meter and a kind, which share a box.
#[derive(Clone, Copy)]
struct Group {
    meter: u32,
    kind: Kind,
    // The number of the first of them.
    first: usize,
    // How many there are.
    count: usize,
    // How many of them give no stream.
    silent: usize,
}

/// A box for the instruments of a meter and a kind, with their names.
pub(crate) fn grouped_instruments(
    alloc: Global,
    catalogue: &Catalogue,
    counts: &[usize],
) -> Result<Slots, AllocError> {
    let mut slots = Slots::new(alloc);
    let groups = groups_of(alloc, catalogue.instruments(), counts, &mut slots.of)?;
    for group in groups.iter() {
        slots.nodes.push(group_node(alloc, catalogue, *group)?)?;
    }
    add_names(
        alloc,
        slots.nodes.as_mut_slice(),
        &slots.of,
        &groups,
        catalogue.instruments(),
    )?;
    Ok(slots)
}

// Adds the name of each instrument to the box that it shares.
fn add_names(
    alloc: Global,
    nodes: &mut [Node],
    of: &[usize],
    groups: &[Group],
    instruments: &[Instrument],
) -> Result<(), AllocError> {
    for (instrument, place) in instruments.iter().zip(of) {
        let is_shared = groups.get(*place).is_some_and(|group| group.count > 1);
        if let (true, Some(node)) = (is_shared, nodes.get_mut(*place)) {
            node.add_line(String::from_str(alloc, instrument.name.get().as_str()))?;
        }
    }
    Ok(())
}

// The groups of instruments, of which so many streams come, and of each instrument the number of its group.
fn groups_of(
    alloc: Global,
    instruments: &[Instrument],
    counts: &[usize],
    of: &mut Vec<usize>,
) -> Result<Vec<Group>, AllocError> {
    let mut groups = Vec::new(alloc);
    for (number, (instrument, count)) in instruments.iter().zip(counts).enumerate() {
        of.push(joined_group(&mut groups, number, instrument, *count)?)?;
    }
    Ok(groups)
}

// The number of the group that an instrument joins.
fn joined_group(
    groups: &mut Vec<Group>,
    number: usize,
    instrument: &Instrument,
    streams: usize,
) -> Result<usize, AllocError> {
    let silent = usize::from(streams == 0);
    for (place, group) in groups.iter_mut().enumerate() {
        if group.meter == instrument.meter && group.kind == instrument.kind {
            group.count = group.count.saturating_add(1);
            group.silent = group.silent.saturating_add(silent);
            return Ok(place);
        }
    }
    groups.push(Group {
        meter: instrument.meter,
        kind: instrument.kind,
        first: number,
        count: 1,
        silent,
    })?;
    Ok(groups.len().saturating_sub(1))
}

// The box of a group: that of its instrument where there is only one.
fn group_node(alloc: Global, catalogue: &Catalogue, group: Group) -> Result<Node, AllocError> {
    let meter = meter_line(alloc, catalogue, group.meter)?;
    match catalogue.instruments().get(group.first) {
        Some(instrument) if group.count == 1 => {
            let mut node = instrument_node(alloc, instrument, group.silent > 0)?;
            node.add_line(Ok(meter))?;
            Ok(node)
        }
        _ => several_node(alloc, group, meter),
    }
}

fn several_node(alloc: Global, group: Group, meter: String) -> Result<Node, AllocError> {
    let (count, silent) = (group.count, group.silent);
    let kind = kind_word(group.kind);
    let title = format!(in alloc; "{count} {kind}s")?;
    let mut node = Node::new(alloc, title, instrument_tone(silent == count));
    node.add_line(Ok(meter))?;
    if silent > 0 {
        node.add_line(format!(in alloc; "{silent} without a stream"))?;
    }
    Ok(node)
}

fn meter_line(alloc: Global, catalogue: &Catalogue, meter: u32) -> Result<String, AllocError> {
    let name = match catalogue.meters().get(meter as usize) {
        Some(meter) => meter.name.as_str(),
        None => "",
    };
    let name = isolated(alloc, name)?;
    format!(in alloc; "of meter {name}")
}
