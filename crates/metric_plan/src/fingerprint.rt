//! What plans are told apart by. Structs are taken apart, so that a field that is not mixed does not compile.
ghost use Rattle.std.specs.Prelude.{◌≡◌};
ghost use Rattle.metric_plan.specs.Fingerprints.{config_mixed, contents_mixed, described_mixed, fingerprint_of};
ghost use Rattle.metric_plan.specs.Mixing.{mixed, mixed_list, mixed_option};

use crate::mixing::{Mixed, mix_flag, mix_list, mix_number, mix_option, mix_signed};
use metric_catalogue::Catalogue;
use metric_contents::{Budget, Instrument, Key, Kind, Meter, Recorder};
use metric_names::AttrValue;
use metric_views::Config;

// Where FNV-1a of 64 bits begins.
const FIRST: u64 = 0xCBF2_9CE4_8422_2325;

// The fingerprint of all that a catalogue and a config say.
#[tactic(auto, unfolding(crate::specs::Fingerprints::fingerprint_of))]
pub(crate) fn fingerprint_of(catalogue: &Catalogue, config: &Config) -> u64
    ensures { result ≡ fingerprint_of catalogue.now config.now }
{
    mix_config(mix_contents(FIRST, catalogue), config)
}

fn mix_contents(print: u64, catalogue: &Catalogue) -> u64
    ensures { result ≡ contents_mixed print catalogue.now }
{
    let print = mix_list(print, catalogue.meters());
    let print = mix_list(print, catalogue.instruments());
    mix_list(print, catalogue.recorders())
}

fn mix_config(print: u64, config: &Config) -> u64
    ensures { result ≡ config_mixed print config.now }
{
    let print = mix_list(print, config.readers());
    mix_list(print, config.views())
}

impl Mixed for Meter {
    ghost use Rattle.metric_plan.specs.Fingerprints.{meter_mixed};

    ghost mixed = { meter_mixed };

    fn mix(&self, print: u64) -> u64 {
        let Meter {
            name,
            version,
            schema_url,
        } = self;
        let print = name.mix(print);
        let print = version.mix(print);
        schema_url.mix(print)
    }
}

impl Mixed for Instrument {
    ghost use Rattle.metric_plan.specs.Fingerprints.{instrument_mixed};

    ghost mixed = { instrument_mixed };

    fn mix(&self, print: u64) -> u64 {
        // The fields that are left out here are mixed by the two calls that take the whole.
        let Instrument {
            meter: _,
            name: _,
            kind: _,
            unit: _,
            description: _,
            lo,
            hi,
            advice: _,
            keys,
            allowed: _,
            spare,
        } = self;
        let print = mix_described(print, self);
        let print = mix_signed(print, lo);
        let print = mix_signed(print, hi);
        let print = mix_list(print, keys.as_slice());
        let print = mix_allowed(print, self);
        mix_number(print, *spare)
    }
}

// What the streams of an instrument take of it.
fn mix_described(print: u64, instrument: &Instrument) -> u64
    ensures { result ≡ described_mixed print instrument.now }
{
    let print = instrument.meter.mix(print);
    let print = instrument.name.mix(print);
    let print = instrument.kind.mix(print);
    let print = instrument.unit.mix(print);
    let print = instrument.description.mix(print);
    mix_option(print, &instrument.advice)
}

// The combinations that it allows, where they are listed.
fn mix_allowed(print: u64, instrument: &Instrument) -> u64
    ensures { result ≡ mixed_option (mixed_list (mixed_list mixed)) print instrument.now.allowed }
{
    match &instrument.allowed {
        None => mix_number(print, 0),
        Some(combinations) => mix_list(mix_number(print, 1), combinations.rows()),
    }
}

impl Mixed for Kind {
    ghost use Rattle.metric_plan.specs.ConfigFingerprints.{kind_mixed};

    ghost mixed = { kind_mixed };

    fn mix(&self, print: u64) -> u64 {
        match self {
            Kind::Counter => mix_number(print, 0),
            Kind::UpDownCounter => mix_number(print, 1),
            Kind::Histogram => mix_number(print, 2),
            Kind::Gauge => mix_number(print, 3),
        }
    }
}

impl Mixed for Key {
    ghost use Rattle.metric_plan.specs.Fingerprints.{key_mixed};

    ghost mixed = { key_mixed };

    fn mix(&self, print: u64) -> u64 {
        let Key {
            name,
            optional,
            values,
        } = self;
        let print = name.mix(print);
        let print = mix_flag(print, *optional);
        mix_list(print, values.as_slice())
    }
}

impl Mixed for AttrValue {
    ghost use Rattle.metric_plan.specs.Fingerprints.{value_mixed};

    ghost mixed = { value_mixed };

    fn mix(&self, print: u64) -> u64 {
        match self {
            AttrValue::Text(text) => text.mix(mix_number(print, 0)),
            AttrValue::Whole(number) => mix_signed(mix_number(print, 1), number),
            AttrValue::Flag(flag) => mix_flag(mix_number(print, 2), *flag),
        }
    }
}

impl Mixed for Recorder {
    ghost use Rattle.metric_plan.specs.Fingerprints.{recorder_mixed};

    ghost mixed = { recorder_mixed };

    fn mix(&self, print: u64) -> u64 {
        let Recorder { name, budgets } = self;
        let print = name.mix(print);
        mix_list(print, budgets.as_slice())
    }
}

impl Mixed for Budget {
    ghost use Rattle.metric_plan.specs.Fingerprints.{budget_mixed};

    ghost mixed = { budget_mixed };

    fn mix(&self, print: u64) -> u64 {
        let Budget { instrument, amount } = self;
        mix_number(mix_number(print, u64::from(*instrument)), *amount)
    }
}
