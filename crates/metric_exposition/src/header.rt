//! The lines before the samples of a family.
ghost use Rattle.std.specs.Prelude.{◌≡◌, ◌++◌, OnOk};
ghost use Rattle.metric_exposition.specs.Headers.{described, header, header_suffix, unit_line, unit_lines};

use crate::dialect::Dialect;
use crate::piece::{Piece, push_pieces};
use metric_family::{MetricType, unit_text_of};
use metric_views::Stream;
use std::alloc::{AllocError, Global};

/// What the lines of help and of type say.
#[derive(Clone, Copy)]
pub(crate) struct Described<'a> {
    /// The name of a family.
    pub family: &'a str,
    /// What stands behind it.
    pub suffix: &'a str,
    /// What is told of it.
    pub help: &'a str,
    /// Its type.
    pub kind: &'a str,
}

/// Writes the lines before the samples of a stream, whose family has this name.
pub(crate) fn push_header(
    alloc: Global,
    out: &mut Vec<u8>,
    dialect: Dialect,
    family: &str,
    stream: &Stream,
) -> Result<(), AllocError>
    ensures { OnOk result (out.new.items
        ≡ out.old.items ++ header dialect family.now stream.now) }
{
    let kind = MetricType::of(stream);
    let is_open_metrics = dialect.is_open_metrics();
    let described = Described {
        family,
        suffix: header_suffix(is_open_metrics, kind),
        help: stream.description.get().as_str(),
        kind: kind.name(),
    };
    push_described(out, is_open_metrics, &described)?;
    push_units(alloc, out, is_open_metrics, family, stream)
}

// The text format calls a counter by the name of its samples.
fn header_suffix(is_open_metrics: bool, kind: MetricType) -> &'static str
    ensures { result.now ≡ header_suffix is_open_metrics kind }
{
    match kind {
        MetricType::Counter if !is_open_metrics => "_total",
        MetricType::Counter | MetricType::Gauge | MetricType::Histogram => "",
    }
}

/// Writes the lines of help and of type. Quotes in the help are escaped, or not.
#[tactic(auto, unfolding(crate::specs::Headers::described))]
pub(crate) fn push_described(
    out: &mut Vec<u8>,
    quotes: bool,
    text: &Described<'_>,
) -> Result<(), AllocError>
    ensures { OnOk result (out.new.items ≡ out.old.items ++ described quotes
        text.now.family.now text.now.suffix.now text.now.help.now text.now.kind.now) }
{
    let pieces = [
        Piece::Text("# HELP "),
        Piece::Text(text.family),
        Piece::Text(text.suffix),
        Piece::Text(" "),
        Piece::Escaped(quotes, text.help),
        Piece::Text("\n# TYPE "),
        Piece::Text(text.family),
        Piece::Text(text.suffix),
        Piece::Text(" "),
        Piece::Text(text.kind),
        Piece::Text("\n"),
    ];
    push_pieces(out, &pieces)
}

// Writes the line of the unit that a family's name tells; the text format has none.
fn push_units(
    alloc: Global,
    out: &mut Vec<u8>,
    is_open_metrics: bool,
    family: &str,
    stream: &Stream,
) -> Result<(), AllocError>
    ensures { OnOk result (out.new.items
        ≡ out.old.items ++ unit_lines is_open_metrics family.now stream.now) }
{
    if !is_open_metrics {
        return Ok(());
    }
    let unit = unit_text_of(alloc, stream)?;
    push_unit(out, family, unit.as_str())
}

#[tactic(auto, unfolding(crate::specs::Headers::unit_line))]
fn push_unit<'a>(out: &mut Vec<u8>, family: &'a str, unit: &'a str) -> Result<(), AllocError>
    ensures { OnOk result (out.new.items ≡ out.old.items ++ unit_line family.now unit.now) }
{
    if unit.is_empty() {
        return Ok(());
    }
    let pieces = [
        Piece::Text("# UNIT "),
        Piece::Text(family),
        Piece::Text(" "),
        Piece::Text(unit),
        Piece::Text("\n"),
    ];
    push_pieces(out, &pieces)
}
