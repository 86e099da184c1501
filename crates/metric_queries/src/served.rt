//! A stream of a page, with what its lines have in common.
ghost use Rattle.std.specs.Prelude.{◌≡◌, IfOk, IfSome, map, nat_lt};
ghost use Rattle.metric_bounds.specs.Sets.{sets_of};
ghost use Rattle.metric_lines.specs.Keys.{kept_names};
ghost use Rattle.metric_family.specs.Labels.{label_of};
ghost use Rattle.metric_queries.specs.ByKeys.{IsServed};

use crate::sample::{Sample, samples_of};
use metric_base::{Items, Text};
use metric_bounds::{listed, product};
use metric_catalogue::Catalogue;
use metric_contents::{Instrument, Key, Meter};
use metric_exposition::Dialect;
use metric_family::{MetricType, family_of, label_of};
use metric_views::Stream;
use std::alloc::{AllocError, Global};

/// A stream of a page, with what its lines have in common.
#[derive(Drop)]
pub struct Served<'p> {
    pub(crate) number: usize,
    pub(crate) stream: &'p Stream,
    pub(crate) instrument: &'p Instrument,
    pub(crate) meter: &'p Meter,
    pub(crate) kind: MetricType,
    pub(crate) samples: Items<Sample>,
    // The name of its family.
    pub(crate) family: Text,
    // The labels of the kept keys.
    pub(crate) kept_labels: Items<Text>,
    // Whether it can have an overflow point.
    pub(crate) can_overflow: bool,
}

/// Puts the streams last that a page of a reader in a dialect has, whose streams are among those of all readers. Fails
/// only when out of memory.
pub fn add_page<'p>(
    alloc: Global,
    page: &mut Vec<Served<'p>>,
    dialect: Dialect,
    catalogue: &'p Catalogue,
    streams: &'p [Stream],
    reader: u32,
) -> Result<(), AllocError> {
    for (number, stream) in streams.iter().enumerate() {
        if stream.reader == reader {
            if let Some(served) = served_of(alloc, dialect, catalogue, number, stream)? {
                page.push(served)?;
            }
        }
    }
    Ok(())
}

/// The number of the first stream that has a sample of a name.
pub fn stream_named(streams: &[Served<'_>], name: &str) -> Option<usize> {
    for served in streams {
        let samples = served.samples.as_slice();
        if samples.iter().any(|sample| sample.name.as_str() == name) {
            return Some(served.number);
        }
    }
    None
}

// The stream of a number with what its lines have; nothing where its instrument or its meter is not declared.
fn served_of<'p>(
    alloc: Global,
    dialect: Dialect,
    catalogue: &'p Catalogue,
    number: usize,
    stream: &'p Stream,
) -> Result<Option<Served<'p>>, AllocError>
    ensures { IfOk result (λ found. IfSome found
        (IsServed dialect catalogue.now stream.now)) }
{
    let Some(instrument) = catalogue.instruments().get(stream.instrument as usize) else {
        return Ok(None);
    };
    let Some(meter) = catalogue.meters().get(instrument.meter as usize) else {
        return Ok(None);
    };
    let samples = samples_of(alloc, dialect, stream)?;
    let keys = instrument.keys.as_slice();
    let family = family_of(alloc, stream)?;
    let kept_labels = kept_labels(alloc, keys, stream.kept.get().as_slice())?;
    let can_overflow = can_overflow(alloc, catalogue, stream)?;
    Ok(Some(Served {
        number,
        stream,
        instrument,
        meter,
        kind: MetricType::of(stream),
        samples,
        family,
        kept_labels,
        can_overflow,
    }))
}

// The labels of the kept keys.
fn kept_labels(alloc: Global, keys: &[Key], kept: &[bool]) -> Result<Items<Text>, AllocError>
    ensures { IfOk result (λ labels. labels ≡ map label_of (kept_names keys.now kept.now)) }
{
    let mut labels = Items::new(alloc);
    for (key, keep) in keys.iter().zip(kept) {
        if *keep {
            let label = label_of(alloc, key.name.as_str())?;
            labels.push(label)?;
        }
    }
    Ok(labels)
}

// Whether a stream can have more sets than its limit.
#[tactic(auto, unfolding(metric_bounds::specs::Sets::sets_of))]
fn can_overflow(alloc: Global, catalogue: &Catalogue, stream: &Stream) -> Result<bool, AllocError>
    ensures { IfOk result (λ answer. answer
        ≡ nat_lt stream.now.limit (sets_of catalogue.now stream.now)) }
{
    let count = match listed(alloc, catalogue, stream)? {
        Some(list) => list.len() as u128,
        None => product(catalogue, stream),
    };
    Ok(u128::from(stream.limit) < count)
}
