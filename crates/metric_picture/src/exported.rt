//! The boxes of streams.
use crate::change::{Look, Mark};
use crate::clashes::Clash;
use crate::diagram::{Node, Tone};
use crate::letters::isolated;
use crate::slots::Slots;
use metric_catalogue::Catalogue;
use metric_contents::Key;
use metric_views::{Config, Stream, StreamAggregation, Temporality};
use std::alloc::{AllocError, Global};

/// A box for each stream, below the title of its reader.
pub(crate) fn each_stream(
    alloc: Global,
    catalogue: &Catalogue,
    config: &Config,
    streams: &[Stream],
    looks: &[Look],
) -> Result<Slots, AllocError> {
    let mut slots = Slots::new(alloc);
    let mut reader = None;
    for (stream, look) in streams.iter().zip(looks) {
        if reader != Some(stream.reader) {
            reader = Some(stream.reader);
            let title = reader_node(alloc, config, stream.reader as usize)?;
            slots.nodes.push(title)?;
        }
        slots.add(stream_node(alloc, catalogue, stream, *look)?)?;
    }
    Ok(slots)
}

fn reader_node(alloc: Global, config: &Config, reader: usize) -> Result<Node, AllocError> {
    let name = match config.readers().get(reader) {
        Some(reader) => reader.name.as_str(),
        None => "",
    };
    let name = isolated(alloc, name)?;
    let title = format!(in alloc; "reader {name}")?;
    Ok(Node::new(alloc, title, Tone::Title))
}

fn stream_node(
    alloc: Global,
    catalogue: &Catalogue,
    stream: &Stream,
    look: Look,
) -> Result<Node, AllocError> {
    let (sign, name) = (look.mark.sign(), stream.name.get().as_str());
    let title = format!(in alloc; "{sign}{name}")?;
    let mut node = Node::new(alloc, title, stream_tone(stream, look));
    let (kind, temporality) = (points_word(stream), temporality_word(stream.temporality));
    node.add_line(format!(in alloc; "{kind}, {temporality}"))?;
    add_kept(alloc, &mut node, catalogue, stream)?;
    if let Some(clash) = look.clash {
        node.add_line(String::from_str(alloc, clash.line()))?;
    }
    Ok(node)
}

// The keys that a stream keeps, where its instrument declares any.
fn add_kept(
    alloc: Global,
    node: &mut Node,
    catalogue: &Catalogue,
    stream: &Stream,
) -> Result<(), AllocError> {
    let keys = match catalogue.instruments().get(stream.instrument as usize) {
        Some(instrument) => instrument.keys.as_slice(),
        None => &[],
    };
    if keys.is_empty() {
        return Ok(());
    }
    node.add_line(kept_line(alloc, keys, stream.kept.get().as_slice()))
}

// Whether the view of a stream leaves a key out.
fn is_filtered(stream: &Stream) -> bool {
    stream.view.is_some() && stream.kept.get().as_slice().contains(&false)
}

fn stream_tone(stream: &Stream, look: Look) -> Tone {
    match look.mark {
        _ if look.clash.is_some() => Tone::Red,
        Mark::New => Tone::New,
        Mark::Differs => Tone::Differs,
        Mark::Same if is_filtered(stream) => Tone::Changed,
        Mark::Same => Tone::Plain,
    }
}

fn points_word(stream: &Stream) -> &'static str {
    match stream.aggregation {
        StreamAggregation::Sum if stream.kind.is_monotonic() => "sum",
        StreamAggregation::Sum => "up-down sum",
        StreamAggregation::LastValue => "last value",
        StreamAggregation::Histogram(_) => "histogram",
    }
}

fn temporality_word(temporality: Temporality) -> &'static str {
    match temporality {
        Temporality::Delta => "delta",
        Temporality::Cumulative => "cumulative",
    }
}

// The keys that a stream keeps.
fn kept_line(alloc: Global, keys: &[Key], kept: &[bool]) -> Result<String, AllocError> {
    let mut line = String::from_str(alloc, "keys:")?;
    for (key, is_kept) in keys.iter().zip(kept) {
        if *is_kept {
            line.push(' ')?;
            line.push_str(isolated(alloc, key.name.as_str())?.as_str())?;
        }
    }
    if !kept.contains(&true) {
        line.push_str(" none")?;
    }
    Ok(line)
}

// The streams of a reader and a view, which share a box.
#[derive(Clone, Copy)]
struct Group {
    // The number of the first of them.
    first: usize,
    // How many there are.
    count: usize,
    // How many of them collide.
    red: usize,
    // In what the first of them does.
    clash: Option<Clash>,
    // How many of them leave a key out.
    filtered: usize,
    // How many of them are new.
    new: usize,
    // How many of them differ from what they were.
    different: usize,
}

const NO_STREAM: Group = Group {
    first: usize::MAX,
    count: 0,
    red: 0,
    clash: None,
    filtered: 0,
    new: 0,
    different: 0,
};

/// A box for the streams of a reader and a view, below the title of the reader.
pub(crate) fn grouped_streams(
    alloc: Global,
    catalogue: &Catalogue,
    config: &Config,
    streams: &[Stream],
    looks: &[Look],
) -> Result<Slots, AllocError> {
    let groups = groups_of(alloc, config, streams, looks)?;
    let mut slots = Slots::new(alloc);
    add_groups(alloc, catalogue, config, streams, &groups, &mut slots)?;
    Ok(slots)
}

// Adds the boxes of groups, and puts each stream in its group's.
fn add_groups(
    alloc: Global,
    catalogue: &Catalogue,
    config: &Config,
    streams: &[Stream],
    groups: &[Group],
    slots: &mut Slots,
) -> Result<(), AllocError> {
    let width = config.views().len().saturating_add(1);
    let mut boxes = Vec::new(alloc);
    for (place, group) in groups.iter().enumerate() {
        let (reader, view) = (place / width, place % width);
        if view == 0 {
            slots.nodes.push(reader_node(alloc, config, reader)?)?;
        }
        boxes.push(slots.nodes.len())?;
        if group.count > 0 {
            let node = group_node(alloc, catalogue, streams, view, *group)?;
            slots.nodes.push(node)?;
        }
    }
    put_in_boxes(slots, &boxes, streams, width)
}

// Puts the number of the box of each stream last.
fn put_in_boxes(
    slots: &mut Slots,
    boxes: &[usize],
    streams: &[Stream],
    width: usize,
) -> Result<(), AllocError> {
    for stream in streams {
        let number = boxes.get(group_of(stream, width)).copied();
        slots.of.push(number.unwrap_or(usize::MAX))?;
    }
    Ok(())
}

// The groups of each reader: that of its default streams, and one for those of each view.
fn groups_of(
    alloc: Global,
    config: &Config,
    streams: &[Stream],
    looks: &[Look],
) -> Result<Vec<Group>, AllocError> {
    let width = config.views().len().saturating_add(1);
    let places = config.readers().len().saturating_mul(width);
    let mut groups = vec![in alloc; NO_STREAM; places]?;
    for (number, (stream, look)) in streams.iter().zip(looks).enumerate() {
        if let Some(group) = groups.get_mut(group_of(stream, width)) {
            *group = joined(*group, number, stream, *look);
        }
    }
    Ok(groups)
}

// A group with one more stream.
fn joined(group: Group, number: usize, stream: &Stream, look: Look) -> Group {
    Group {
        first: group.first.min(number),
        count: group.count.saturating_add(1),
        red: one_more(group.red, look.clash.is_some()),
        clash: group.clash.or(look.clash),
        filtered: one_more(group.filtered, is_filtered(stream)),
        new: one_more(group.new, look.mark == Mark::New),
        different: one_more(group.different, look.mark == Mark::Differs),
    }
}

// A count, with one more where it is one.
fn one_more(count: usize, is_one: bool) -> usize {
    count.saturating_add(usize::from(is_one))
}

// The place of a stream's group: default streams stand before those of views.
fn group_of(stream: &Stream, width: usize) -> usize {
    let view = match stream.view {
        Some(view) => (view as usize).saturating_add(1),
        None => 0,
    };
    (stream.reader as usize)
        .saturating_mul(width)
        .saturating_add(view)
}

// The box of a group: that of its stream where there is only one.
fn group_node(
    alloc: Global,
    catalogue: &Catalogue,
    streams: &[Stream],
    view: usize,
    group: Group,
) -> Result<Node, AllocError> {
    match streams.get(group.first) {
        Some(stream) if group.count == 1 => {
            let look = group.look();
            stream_node(alloc, catalogue, stream, look)
        }
        _ => several_node(alloc, view, group),
    }
}

impl Group {
    // How the only stream of it looks.
    fn look(&self) -> Look {
        let mark = if self.new > 0 {
            Mark::New
        } else if self.different > 0 {
            Mark::Differs
        } else {
            Mark::Same
        };
        Look {
            clash: self.clash,
            mark,
        }
    }

    // How its box looks.
    fn tone(&self) -> Tone {
        if self.red > 0 {
            Tone::Red
        } else if self.different > 0 || self.new > 0 && self.new < self.count {
            Tone::Differs
        } else if self.new > 0 {
            Tone::New
        } else if self.filtered > 0 {
            Tone::Changed
        } else {
            Tone::Plain
        }
    }
}

fn several_node(alloc: Global, view: usize, group: Group) -> Result<Node, AllocError> {
    let title = several_title(alloc, view, group.count)?;
    let mut node = Node::new(alloc, title, group.tone());
    add_count(alloc, &mut node, "", group.filtered, "with keys left out")?;
    add_count(alloc, &mut node, "", group.red, "in a collision")?;
    add_count(alloc, &mut node, "+ ", group.new, "new")?;
    add_count(alloc, &mut node, "~ ", group.different, "that differ")?;
    Ok(node)
}

// Adds a line of how many streams are so, where some are.
fn add_count(
    alloc: Global,
    node: &mut Node,
    sign: &str,
    count: usize,
    what: &str,
) -> Result<(), AllocError> {
    if count > 0 {
        node.add_line(format!(in alloc; "{sign}{count} {what}"))?;
    }
    Ok(())
}

fn several_title(alloc: Global, view: usize, count: usize) -> Result<String, AllocError> {
    if view == 0 {
        format!(in alloc; "{count} default streams")
    } else {
        let view = view.saturating_sub(1);
        format!(in alloc; "{count} streams of view {view}")
    }
}
