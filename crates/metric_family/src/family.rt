//! The metric family of a stream.
ghost use Rattle.std.specs.Prelude.{◌≡◌, not, codes, filter, ◌∷◌, [], IfOk, OnOk};
ghost use Rattle.metric_family.specs.Families.{ends_with_unit, family, family_parts, is_ratio, left_out, named_parts};
ghost use Rattle.metric_family.specs.Families.{ratio_parts, unit_text, unless_digit};
ghost use Rattle.metric_family.specs.Words.{is_among, is_some, joined, with_parts, without, words};

use crate::ascii::text_of_ascii;
use crate::metric_type::MetricType;
use crate::unit::{main_words, per_words, unit_words};
use crate::words::{has_word, push_other, push_part, push_words};
use metric_base::Text;
use metric_views::{Stream, StreamAggregation};
use std::alloc::{AllocError, Global};

/// The name of a stream's family, without the `_total` of a counter's samples: the words of its name and those of its
/// unit, with `_` between. It is empty where no word is left, as of a counter that is called `total`. Fails only when
/// out of memory.
#[tactic(auto, unfolding(crate::specs::Families::family))]
pub fn family_of(alloc: Global, stream: &Stream) -> Result<Text, AllocError>
    ensures { IfOk result (λ name. name ≡ family stream.now) }
{
    let parts = family_parts(alloc, stream)?;
    let name = unless_digit(alloc, parts)?;
    Ok(text_of_ascii(name))
}

/// What `# UNIT` says of a stream's family (OpenMetrics): the words of its unit, where the family's name ends with `_`
/// and these; else the empty text. Fails only when out of memory.
#[tactic(auto, unfolding(crate::specs::Families::unit_text))]
pub fn unit_text_of(alloc: Global, stream: &Stream) -> Result<Text, AllocError>
    ensures { IfOk result (λ text. text ≡ unit_text stream.now) }
{
    let family = family_of(alloc, stream)?;
    let unit = unit_words(alloc, stream.unit.get().as_str().as_bytes())?;
    if !ends_with_unit(alloc, family.as_str().as_bytes(), unit.as_slice())? {
        return Text::new(alloc, "");
    }
    Ok(text_of_ascii(unit))
}

// The parts of a family, with `_` between.
#[tactic(auto, unfolding(crate::specs::Families::family_parts, crate::specs::Words::joined), using(crate::proofs::PartLaws::parts_append))]
fn family_parts(alloc: Global, stream: &Stream) -> Result<Vec<u8>, AllocError>
    ensures { IfOk result (λ text. text.items ≡ joined (family_parts stream.now)) }
{
    let name = stream.name.get().as_str().as_bytes();
    let unit = stream.unit.get().as_str().as_bytes();
    let is_ratio = is_ratio(stream);
    let other_than = left_out(MetricType::of(stream), is_ratio).as_bytes();
    let mut out = Vec::new(alloc);
    push_named(alloc, &mut out, name, unit, other_than)?;
    push_ratio(&mut out, is_ratio)?;
    Ok(out)
}

// Whether a stream has last values whose unit is 1.
#[tactic(auto, unfolding(crate::specs::Families::is_ratio))]
fn is_ratio(stream: &Stream) -> bool
    ensures { result ≡ is_ratio stream.now }
{
    matches!(stream.aggregation, StreamAggregation::LastValue) && stream.unit.get().as_str() == "1"
}

// The part that is left out of a name.
fn left_out(kind: MetricType, is_ratio: bool) -> &'static str
    ensures { result.now ≡ left_out kind is_ratio }
{
    match kind {
        MetricType::Counter => "total",
        MetricType::Gauge if is_ratio => "ratio",
        _ => "",
    }
}

fn push_ratio(out: &mut Vec<u8>, is_ratio: bool) -> Result<(), AllocError>
    ensures { OnOk result (out.new.items ≡ with_parts out.old.items (ratio_parts is_ratio)) }
{
    if !is_ratio {
        return Ok(());
    }
    push_part(out, b"ratio")
}

// Writes the words of a name and the parts of a unit that are none of these, each but one.
#[tactic(auto, unfolding(crate::specs::Families::named_parts))]
fn push_named(
    alloc: Global,
    out: &mut Vec<u8>,
    name: &[u8],
    unit: &[u8],
    other_than: &[u8],
) -> Result<(), AllocError>
    ensures { OnOk result (out.new.items
        ≡ with_parts out.old.items (without other_than.now (named_parts name.now unit.now))) }
{
    push_words(out, name, other_than)?;
    let main = main_words(alloc, unit)?;
    push_unit(out, name, main.as_slice(), other_than)?;
    let per = per_words(alloc, unit)?;
    push_unit(out, name, per.as_slice(), other_than)
}

// Writes a part of a unit, unless it is empty, a word of the name, or what is left out.
fn push_unit(
    out: &mut Vec<u8>,
    name: &[u8],
    part: &[u8],
    other_than: &[u8],
) -> Result<(), AllocError>
    ensures { OnOk result (out.new.items ≡ with_parts out.old.items (without other_than.now
        (filter (λ part. not (is_among (words name.now) part)) (filter is_some (part.now ∷ []))))) }
{
    if has_word(name, part) {
        return Ok(());
    }
    push_other(out, part, other_than)
}

// A name with `_` before it where it begins with a digit.
fn unless_digit(alloc: Global, name: Vec<u8>) -> Result<Vec<u8>, AllocError>
    ensures { IfOk result (λ text. text.items ≡ unless_digit name.items) }
{
    match name.as_slice() {
        [first, ..] if first.is_ascii_digit() => {
            let mut out = Vec::from_slice(alloc, b"_")?;
            out.extend_from_slice(name.as_slice())?;
            Ok(out)
        }
        _ => Ok(name),
    }
}

// Whether a name ends with `_` and the words of a unit.
fn ends_with_unit(alloc: Global, name: &[u8], unit: &[u8]) -> Result<bool, AllocError>
    ensures { IfOk result (λ answer. answer ≡ ends_with_unit name.now unit.now) }
{
    let mut end = Vec::from_slice(alloc, b"_")?;
    end.extend_from_slice(unit)?;
    Ok(name.ends_with(end.as_slice()))
}
