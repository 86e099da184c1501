//! What the criteria of a view ask of an instrument.
ghost use Rattle.std.specs.Prelude.{◌≡◌, ◌↔◌, ◌∷◌, [], IsTrue};
ghost use Rattle.metric_glob.specs.Matching.{any_text};
ghost use Rattle.metric_cert.specs.Criteria.{holds};
ghost use Rattle.metric_cert.specs.Valid.{Holds, pattern_for};

use crate::reason::Criterion;
use metric_contents::{Instrument, Meter};
use metric_glob::Pattern;
use metric_views::{Criteria, is_of_kind, is_text};

impl Criterion {
    /// Whether a view does not give this criterion, or it holds for an instrument of a meter (Metrics SDK, instrument
    /// selection criteria). Allocates no memory.
    #[tactic(auto, using(crate::specs::CriteriaLaws::holding))]
    pub fn holds(self, criteria: &Criteria, meter: &Meter, instrument: &Instrument) -> bool
        ensures value { result ≡ holds self criteria.now meter.now instrument.now }
        ensures test { IsTrue result ↔ Holds self criteria.now meter.now instrument.now }
    {
        holds(self, criteria, meter, instrument)
    }
}

fn holds(criterion: Criterion, criteria: &Criteria, meter: &Meter, instrument: &Instrument) -> bool
    ensures { result ≡ holds criterion criteria.now meter.now instrument.now }
{
    match criterion {
        Criterion::InstrumentType => is_of_kind(&criteria.instrument_type, instrument.kind),
        Criterion::InstrumentUnit => is_text(
            &criteria.instrument_unit,
            instrument.unit.get().as_str(),
        ),
        Criterion::MeterName => is_text(&criteria.meter_name, meter.name.as_str()),
        Criterion::MeterVersion => is_text(&criteria.meter_version, meter.version.as_str()),
        Criterion::MeterSchemaUrl => is_text(&criteria.meter_schema_url, meter.schema_url.as_str()),
    }
}

/// The pattern of names that a view gives, or else that of any name.
pub fn pattern_for<'a>(criteria: &'a Criteria, any_name: &'a Pattern) -> &'a Pattern
    requires { any_name.now ≡ any_text ∷ [] }
    ensures { result.now ≡ pattern_for criteria.now }
{
    match &criteria.instrument_name {
        Some(pattern) => pattern,
        None => any_name,
    }
}
