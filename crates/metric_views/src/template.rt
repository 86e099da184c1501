//! What the streams of an instrument have in common, whatever the reader.
ghost use Rattle.std.specs.Prelude.{◌≡◌, IfOk, None, Some, map, unwrap_or};
ghost use Rattle.metric_views.specs.Streams.{advised, boundaries_for, is_excluded, is_kept, is_listed, is_wanted, names_histogram, no_settings, template_of, usual_boundaries};

use crate::choices::Aggregation;
use crate::config::{Settings, View};
use crate::texts::{Texts, copied_texts};
use metric_base::{Boundaries, Copied, Few, Items, Shared, Text};
use metric_contents::{Instrument, Key, Kind};
use metric_names::{Name, Unit};
use std::alloc::{AllocError, Global};

/// What the streams of an instrument by one view, or by the default, have in common for all readers
/// (Metrics SDK, stream configuration).
#[derive(Drop)]
pub struct Template {
    /// The number of the instrument.
    pub instrument: u32,
    /// The number of the view, or none for the default streams.
    pub view: Option<u32>,
    /// The kind of the instrument.
    pub kind: Kind,
    /// The name.
    pub name: Shared<Name>,
    /// The description.
    pub description: Shared<Text>,
    /// The unit.
    pub unit: Shared<Unit>,
    /// The aggregation, where the view names one.
    pub aggregation: Option<Aggregation>,
    /// The boundaries, where the aggregation is a histogram.
    pub boundaries: Shared<Boundaries>,
    /// Whether each declared key is kept, in declared order.
    pub kept: Shared<Few<bool, 8>>,
    /// The cardinality limit, where the view gives one.
    pub limit: Option<u32>,
}

impl Template {
    /// The template of the default streams of the instrument of this number. Fails only when out of memory.
    pub fn of_default(
        alloc: Global,
        number: u32,
        instrument: &Instrument,
    ) -> Result<Template, AllocError>
        ensures { IfOk result (λ t. t ≡ template_of number instrument.now None no_settings) }
    {
        template_of(alloc, number, instrument, None, &no_settings())
    }

    /// The template of the streams that the view of this number makes of the instrument of this number. Fails only when
    /// out of memory.
    pub fn of_view(
        alloc: Global,
        number: u32,
        instrument: &Instrument,
        view_number: u32,
        view: &View,
    ) -> Result<Template, AllocError>
        ensures { IfOk result (λ t. t
            ≡ template_of number instrument.now (Some view_number) view.now.settings) }
    {
        template_of(alloc, number, instrument, Some(view_number), &view.settings)
    }
}

// What the default stream is given: nothing.
fn no_settings() -> Settings
    ensures { result ≡ no_settings }
{
    Settings {
        stream_name: None,
        description: None,
        aggregation: None,
        boundaries: None,
        keep: None,
        exclude: None,
        limit: None,
    }
}

#[tactic(auto, unfolding(crate::specs::Streams::template_of))]
fn template_of(
    alloc: Global,
    number: u32,
    instrument: &Instrument,
    view: Option<u32>,
    settings: &Settings,
) -> Result<Template, AllocError>
    ensures { IfOk result (λ t. t ≡ template_of number instrument.now view settings.now) }
{
    let name = given_or(&settings.stream_name, &instrument.name);
    let description = given_or(&settings.description, &instrument.description);
    let Texts {
        name,
        description,
        unit,
    } = copied_texts(alloc, name, description, &instrument.unit)?;
    let boundaries = boundaries_for(alloc, instrument, settings)?;
    let kept = kept_keys(alloc, settings, &instrument.keys)?;
    Ok(Template {
        instrument: number,
        view,
        kind: instrument.kind,
        name,
        description,
        unit,
        aggregation: settings.aggregation,
        boundaries,
        kept,
        limit: settings.limit,
    })
}

// What a view gives, else the instrument's own.
fn given_or<'a, T>(given: &'a Option<T>, own: &'a T) -> &'a T
    ensures { result.now ≡ unwrap_or given.now own.now }
{
    match given {
        Some(value) => value,
        None => own,
    }
}

// The view's boundaries, else the advised, else the usual ones.
fn boundaries_for(
    alloc: Global,
    instrument: &Instrument,
    settings: &Settings,
) -> Result<Shared<Boundaries>, AllocError>
    ensures { IfOk result (λ b. b ≡ boundaries_for instrument.now settings.now) }
{
    match &settings.boundaries {
        Some(boundaries) => boundaries.copy(alloc),
        None => advised(
            alloc,
            names_histogram(&settings.aggregation),
            &instrument.advice,
        ),
    }
}

// The advice of an instrument, unless it is ignored, else the usual boundaries.
fn advised(
    alloc: Global,
    ignored: bool,
    advice: &Option<Shared<Boundaries>>,
) -> Result<Shared<Boundaries>, AllocError>
    ensures { IfOk result (λ b. b ≡ advised ignored advice.now) }
{
    match advice {
        Some(boundaries) if !ignored => boundaries.copy(alloc),
        _ => usual_boundaries(alloc),
    }
}

// The boundaries where neither view nor instrument gives any (Metrics SDK, explicit bucket histogram
// aggregation).
fn usual_boundaries(alloc: Global) -> Result<Shared<Boundaries>, AllocError>
    ensures { IfOk result (λ b. b ≡ usual_boundaries) }
{
    let boundaries = [
        0, 5, 10, 25, 50, 75, 100, 250, 500, 750, 1000, 2500, 5000, 7500, 10000,
    ];
    let boundaries = Items::from_vec(Vec::from_slice(alloc, &boundaries)?);
    Shared::new(alloc, Boundaries::from_few(Few::from_items(boundaries)))
}

// Whether a view itself names the histogram.
fn names_histogram(aggregation: &Option<Aggregation>) -> bool
    ensures { result ≡ names_histogram aggregation.now }
{
    matches!(aggregation, Some(Aggregation::ExplicitBucketHistogram))
}

// Whether each key is kept.
fn kept_keys(
    alloc: Global,
    settings: &Settings,
    keys: &Few<Key, 8>,
) -> Result<Shared<Few<bool, 8>>, AllocError>
    ensures { IfOk result (λ k. k ≡ map (is_kept settings.now.keep settings.now.exclude) keys.now) }
{
    let kept = kept_flags(alloc, settings, keys.as_slice())?;
    Shared::new(alloc, Few::from_items(Items::from_vec(kept)))
}

fn kept_flags(alloc: Global, settings: &Settings, keys: &[Key]) -> Result<Vec<bool>, AllocError>
    ensures { IfOk result (λ k. k.items
        ≡ map (λ key. is_kept settings.now.keep settings.now.exclude key) keys.now) }
{
    keys.iter().map(|key| is_kept(settings, key)).collect(alloc)
}

fn is_kept(settings: &Settings, key: &Key) -> bool
    ensures { result ≡ is_kept settings.now.keep settings.now.exclude key.now }
{
    is_wanted(&key.name, &settings.keep) && !is_excluded(&key.name, &settings.exclude)
}

fn is_wanted(name: &Text, keep: &Option<Few<Text, 64>>) -> bool
    ensures { result ≡ is_wanted name.now keep.now }
{
    match keep {
        Some(keys) => is_listed(name, keys.as_slice()),
        None => true,
    }
}

fn is_excluded(name: &Text, exclude: &Option<Few<Text, 64>>) -> bool
    ensures { result ≡ is_excluded name.now exclude.now }
{
    match exclude {
        Some(keys) => is_listed(name, keys.as_slice()),
        None => false,
    }
}

fn is_listed(name: &Text, keys: &[Text]) -> bool
    ensures { result ≡ is_listed name.now keys.now }
{
    keys.iter().any(|key| key.as_str() == name.as_str())
}
