//! What a config says, mixed into a fingerprint. Structs are taken apart, so that a field that is not mixed does not
//! compile.
ghost use Rattle.std.specs.Prelude.{◌≡◌};
ghost use Rattle.metric_plan.specs.ConfigFingerprints.{criteria_mixed, settings_mixed};
ghost use Rattle.metric_plan.specs.Mixing.{mixed_list, mixed_option, mixed_text};

use crate::mixing::{Mixed, mix_list, mix_number, mix_option};
use metric_base::{Boundaries, Few, Text};
use metric_views::{Aggregation, ByKind, Criteria, Reader, Settings, Temporality, View};

impl Mixed for Reader {
    ghost use Rattle.metric_plan.specs.ConfigFingerprints.{reader_mixed};

    ghost mixed = { reader_mixed };

    fn mix(&self, print: u64) -> u64 {
        let Reader {
            name,
            temporality,
            aggregation,
            limit,
        } = self;
        let print = name.mix(print);
        let print = temporality.mix(print);
        let print = aggregation.mix(print);
        limit.mix(print)
    }
}

impl<T: Mixed> Mixed for ByKind<T> {
    ghost use Rattle.metric_plan.specs.ConfigFingerprints.{choices_mixed};

    ghost mixed = { choices_mixed T.mixed };

    fn mix(&self, print: u64) -> u64 {
        let ByKind {
            counter,
            up_down_counter,
            histogram,
            gauge,
        } = self;
        let print = counter.mix(print);
        let print = up_down_counter.mix(print);
        let print = histogram.mix(print);
        gauge.mix(print)
    }
}

impl Mixed for Temporality {
    ghost use Rattle.metric_plan.specs.ConfigFingerprints.{temporality_mixed};

    ghost mixed = { temporality_mixed };

    fn mix(&self, print: u64) -> u64 {
        match self {
            Temporality::Delta => mix_number(print, 0),
            Temporality::Cumulative => mix_number(print, 1),
        }
    }
}

impl Mixed for Aggregation {
    ghost use Rattle.metric_plan.specs.ConfigFingerprints.{aggregation_mixed};

    ghost mixed = { aggregation_mixed };

    fn mix(&self, print: u64) -> u64 {
        match self {
            Aggregation::Default => mix_number(print, 0),
            Aggregation::Drop => mix_number(print, 1),
            Aggregation::Sum => mix_number(print, 2),
            Aggregation::LastValue => mix_number(print, 3),
            Aggregation::ExplicitBucketHistogram => mix_number(print, 4),
        }
    }
}

impl Mixed for Boundaries {
    ghost use Rattle.metric_plan.specs.Mixing.{mixed_list, mixed_signed};

    ghost mixed = { mixed_list mixed_signed };

    fn mix(&self, print: u64) -> u64 {
        mix_list(print, self.as_slice())
    }
}

impl Mixed for View {
    ghost use Rattle.metric_plan.specs.ConfigFingerprints.{view_mixed};

    ghost mixed = { view_mixed };

    fn mix(&self, print: u64) -> u64 {
        let View { criteria, settings } = self;
        mix_settings(mix_criteria(print, criteria), settings)
    }
}

fn mix_criteria(print: u64, criteria: &Criteria) -> u64
    ensures { result ≡ criteria_mixed print criteria.now }
{
    let Criteria {
        instrument_name,
        instrument_type,
        instrument_unit,
        meter_name,
        meter_version,
        meter_schema_url,
    } = criteria;
    let print = mix_option(print, instrument_name);
    let print = mix_option(print, instrument_type);
    let print = mix_option(print, instrument_unit);
    let print = mix_option(print, meter_name);
    let print = mix_option(print, meter_version);
    mix_option(print, meter_schema_url)
}

fn mix_settings(print: u64, settings: &Settings) -> u64
    ensures { result ≡ settings_mixed print settings.now }
{
    let Settings {
        stream_name,
        description,
        aggregation,
        boundaries,
        keep,
        exclude,
        limit,
    } = settings;
    let print = mix_option(print, stream_name);
    let print = mix_option(print, description);
    let print = mix_option(print, aggregation);
    let print = mix_option(print, boundaries);
    let print = mix_keys(print, keep);
    let print = mix_keys(print, exclude);
    mix_option(print, limit)
}

// A list of keys, where there is one.
fn mix_keys(print: u64, keys: &Option<Few<Text, 64>>) -> u64
    ensures { result ≡ mixed_option (mixed_list mixed_text) print keys.now }
{
    match keys {
        None => mix_number(print, 0),
        Some(keys) => mix_list(mix_number(print, 1), keys.as_slice()),
    }
}
