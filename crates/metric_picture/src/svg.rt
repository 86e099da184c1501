//! A diagram as a text.
use crate::diagram::{Diagram, Link, Node, Tone};
use crate::layout::{LINE, Layout, Place, WIDTH, layout_of};
use crate::letters::push_fitting;
use std::alloc::{AllocError, Global};

// What it shows, for those who do not see it.
const LABEL: &str = "Instruments, the views that select them, and the streams of each reader";

const STYLE: &str = "<style>
text { font: 12px sans-serif; fill: #222; unicode-bidi: isolate }
.t { font-weight: bold }
.d { fill: #666 }
rect { fill: #fff; stroke: #777; rx: 4px }
.changed { fill: #eef4ff; stroke: #2660c4 }
.dropped { fill: #f2f2f2; stroke: #999; stroke-dasharray: 4 3 }
.red { fill: #ffe9e9; stroke: #c80000; stroke-width: 2 }
.new { fill: #e6f6ea; stroke: #1a7f37; stroke-width: 2 }
.differs { fill: #fff6d9; stroke: #8a6100; stroke-width: 2; stroke-dasharray: 10 4 }
.gone { fill: #f3eaf7; stroke: #6f3a8c; stroke-dasharray: 3 3 }
path { fill: none; stroke: #999; stroke-width: 1.2 }
path.changed { fill: none; stroke: #2660c4 }
path.dropped { fill: none; stroke: #bbb }
path.red { fill: none; stroke: #c80000 }
</style>
";

/// The text of an SVG of a diagram. Fails only when out of memory.
pub(crate) fn svg_of(alloc: Global, diagram: &Diagram) -> Result<String, AllocError> {
    let layout = layout_of(alloc, diagram)?;
    let mut out = String::new(alloc);
    push_head(&mut out, &layout)?;
    for link in diagram.links.iter() {
        push_link(&mut out, &layout, *link)?;
    }
    for (nodes, places) in diagram.columns.iter().zip(layout.columns.iter()) {
        push_column(&mut out, nodes, places)?;
    }
    out.push_str("</svg>\n")?;
    Ok(out)
}

fn push_head(out: &mut String, layout: &Layout) -> Result<(), AllocError> {
    let (width, height) = (layout.width, layout.height);
    write!(
        out,
        "<svg xmlns=\"http://www.w3.org/2000/svg\" role=\"img\" aria-label=\"{LABEL}\" viewBox=\"0 0 {width} {height}\" width=\"{width}\" height=\"{height}\">\n"
    )?;
    out.push_str(STYLE)?;
    write!(
        out,
        "<path d=\"M0 0H{width}V{height}H0Z\" style=\"fill: #fff; stroke: none\"/>\n"
    )
}

fn push_column(out: &mut String, nodes: &[Node], places: &[Place]) -> Result<(), AllocError> {
    for (node, place) in nodes.iter().zip(places) {
        push_node(out, node, *place)?;
    }
    Ok(())
}

// Puts a box with its texts last.
fn push_node(out: &mut String, node: &Node, place: Place) -> Result<(), AllocError> {
    match node.tone {
        Tone::Lane => return Ok(()),
        Tone::Title => {}
        Tone::Plain
        | Tone::Changed
        | Tone::Dropped
        | Tone::Red
        | Tone::New
        | Tone::Differs
        | Tone::Gone => {
            push_frame(out, node.tone, place)?;
        }
    }
    push_line(out, "t", place, 0, node.title.as_str())?;
    for (number, line) in node.lines.iter().enumerate() {
        push_line(out, "d", place, number.saturating_add(1), line.as_str())?;
    }
    Ok(())
}

fn push_frame(out: &mut String, tone: Tone, place: Place) -> Result<(), AllocError> {
    let class = class_of(tone);
    let Place { x, y, height } = place;
    write!(
        out,
        "<rect class=\"{class}\" x=\"{x}\" y=\"{y}\" width=\"{WIDTH}\" height=\"{height}\"/>\n"
    )
}

// Puts a line of text of a box last.
fn push_line(
    out: &mut String,
    class: &str,
    place: Place,
    number: usize,
    text: &str,
) -> Result<(), AllocError> {
    let x = place.x.saturating_add(8);
    let y = number
        .saturating_add(1)
        .saturating_mul(LINE)
        .saturating_add(place.y);
    write!(out, "<text class=\"{class}\" x=\"{x}\" y=\"{y}\">")?;
    push_fitting(out, text)?;
    out.push_str("</text>\n")
}

// Puts a link last, where both of its boxes are there.
fn push_link(out: &mut String, layout: &Layout, link: Link) -> Result<(), AllocError> {
    let from = place_at(layout, link.column, link.from);
    let to = place_at(layout, link.column.saturating_add(1), link.to);
    match (from, to) {
        (Some(from), Some(to)) => push_curve(out, link.tone, from, to),
        _ => Ok(()),
    }
}

fn place_at(layout: &Layout, column: usize, number: usize) -> Option<Place> {
    layout.columns.get(column)?.get(number).copied()
}

// Puts the curve of a link last, and the line on which it passes a column.
fn push_curve(out: &mut String, tone: Tone, from: Place, to: Place) -> Result<(), AllocError> {
    let class = class_of(tone);
    let (start, first) = (from.x.saturating_add(WIDTH), middle(from));
    let (end, last) = (to.x, middle(to));
    let half = start.saturating_add(end.saturating_sub(start) / 2);
    write!(out, "<path class=\"{class}\" d=\"M{start} {first}")?;
    write!(out, "C{half} {first} {half} {last} {end} {last}")?;
    if to.height == 0 {
        let end = end.saturating_add(WIDTH);
        write!(out, "H{end}")?;
    }
    out.push_str("\"/>\n")
}

// The height at which links of a box begin and end.
fn middle(place: Place) -> usize {
    place.y.saturating_add(place.height / 2)
}

fn class_of(tone: Tone) -> &'static str {
    match tone {
        Tone::Plain | Tone::Title | Tone::Lane => "plain",
        Tone::Changed => "changed",
        Tone::Dropped => "dropped",
        Tone::Red => "red",
        Tone::New => "new",
        Tone::Differs => "differs",
        Tone::Gone => "gone",
    }
}
