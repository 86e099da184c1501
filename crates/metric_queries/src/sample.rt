//! What the samples of a stream are called in a page.
ghost use Rattle.std.specs.Prelude.{◌≡◌, ◌++◌, ◌∷◌, [], codes, IfOk, IsUtf8, OnOk};
ghost use Rattle.metric_exposition.specs.Boundaries.{le_text};
ghost use Rattle.metric_exposition.specs.Samples.{les};
ghost use Rattle.metric_queries.specs.Samples.{plain, plain_if, samples_by, samples_of, tells_count, tells_created, tells_sum};

use metric_base::{Items, Text};
use metric_exposition::{Dialect, boundaries_of, push_boundary, sum_told};
use metric_family::{MetricType, family_of};
use metric_views::Stream;
use std::alloc::{AllocError, Global};

/// A sample of a stream.
#[derive(Drop)]
pub struct Sample {
    /// Its name.
    pub name: Text,
    /// The texts of the label `le` that its lines have; one that is empty for lines without it.
    pub marks: Items<Text>,
}

/// The samples of a stream. Fails only when out of memory.
#[tactic(auto, unfolding(crate::specs::Samples::samples_of))]
pub(crate) fn samples_of(
    alloc: Global,
    dialect: Dialect,
    stream: &Stream,
) -> Result<Items<Sample>, AllocError>
    ensures { IfOk result (λ samples. samples ≡ samples_of dialect stream.now) }
{
    let family = family_of(alloc, stream)?;
    samples_by(
        alloc,
        dialect,
        stream,
        family.as_str(),
        MetricType::of(stream),
    )
}

fn samples_by(
    alloc: Global,
    dialect: Dialect,
    stream: &Stream,
    family: &str,
    kind: MetricType,
) -> Result<Items<Sample>, AllocError>
    ensures { IfOk result (λ samples. samples
        ≡ samples_by dialect stream.now family.now kind) }
{
    let mut samples = Items::new(alloc);
    match kind {
        MetricType::Gauge => push_plain(alloc, &mut samples, true, family, "")?,
        MetricType::Counter => {
            push_plain(alloc, &mut samples, true, family, "_total")?;
            let created = tells_created(dialect);
            push_plain(alloc, &mut samples, created, family, "_created")?;
        }
        MetricType::Histogram => push_histogram(alloc, &mut samples, dialect, stream, family)?,
    }
    Ok(samples)
}

fn push_histogram(
    alloc: Global,
    samples: &mut Items<Sample>,
    dialect: Dialect,
    stream: &Stream,
    family: &str,
) -> Result<(), AllocError>
    ensures { OnOk result (samples.new ≡ samples.old
        ++ samples_by dialect stream.now family.now MetricType.Histogram) }
{
    let name = name_of(alloc, family, "_bucket")?;
    let marks = marks_of(alloc, boundaries_of(&stream.aggregation))?;
    samples.push(Sample { name, marks })?;
    let has_sum = tells_sum(dialect, stream);
    push_plain(alloc, samples, has_sum, family, "_sum")?;
    let has_count = tells_count(dialect, stream);
    push_plain(alloc, samples, has_count, family, "_count")?;
    push_plain(alloc, samples, tells_created(dialect), family, "_created")
}

// Puts a sample without the label of buckets last, where this holds.
fn push_plain(
    alloc: Global,
    samples: &mut Items<Sample>,
    test: bool,
    family: &str,
    suffix: &str,
) -> Result<(), AllocError>
    ensures { OnOk result (samples.new
        ≡ samples.old ++ plain_if test family.now suffix.now) }
{
    if !test {
        return Ok(());
    }
    let name = name_of(alloc, family, suffix)?;
    let mut marks = Items::new(alloc);
    marks.push(Text::new(alloc, "")?)?;
    samples.push(Sample { name, marks })
}

fn name_of(alloc: Global, family: &str, suffix: &str) -> Result<Text, AllocError>
    ensures { IfOk result (λ name. name ≡ family.now ++ suffix.now) }
{
    let mut name = String::from_str(alloc, family)?;
    name.push_str(suffix)?;
    Ok(Text::from_string(name))
}

// Whether it is told when series begin.
fn tells_created(dialect: Dialect) -> bool
    ensures { result ≡ tells_created dialect }
{
    dialect.created_at(0).is_some()
}

fn tells_sum(dialect: Dialect, stream: &Stream) -> bool
    ensures { result ≡ tells_sum dialect stream.now }
{
    let kept = if stream.kind.is_monotonic() {
        Some(0)
    } else {
        None
    };
    sum_told(dialect, boundaries_of(&stream.aggregation), kept).is_some()
}

fn tells_count(dialect: Dialect, stream: &Stream) -> bool
    ensures { result ≡ tells_count dialect stream.now }
{
    !dialect.is_open_metrics() || tells_sum(dialect, stream)
}

// How boundaries are written, the last of which is that of all values.
fn marks_of(alloc: Global, boundaries: &[i64]) -> Result<Items<Text>, AllocError>
    ensures { IfOk result (λ marks. marks ≡ les boundaries.now) }
{
    let mut marks = Items::new(alloc);
    for boundary in boundaries {
        marks.push(mark_of(alloc, *boundary)?)?;
    }
    marks.push(Text::new(alloc, "+Inf")?)?;
    Ok(marks)
}

fn mark_of(alloc: Global, boundary: i64) -> Result<Text, AllocError>
    ensures { IfOk result (λ text. text ≡ le_text boundary) }
{
    let mut out = Vec::new(alloc);
    push_boundary(&mut out, boundary)?;
    Ok(text_of_boundary(out))
}

// The text of these bytes. Allocates no memory.
fn text_of_boundary(bytes: Vec<u8>) -> Text
    requires { IsUtf8 bytes.items }
    ensures { result ≡ bytes.items }
{
    Text::from_string(String::from_utf8(bytes).unwrap())
}
