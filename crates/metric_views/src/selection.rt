//! Which instruments a view selects.
ghost use Rattle.std.specs.Prelude.{◌≡◌, ◌↔◌, IsTrue};
ghost use Rattle.metric_glob.specs.Matching.{is_match};
ghost use Rattle.metric_views.specs.Selection.{Selects, is_kind, is_text, passes, selects};

use crate::config::{Criteria, View};
use metric_base::Text;
use metric_contents::{Instrument, Kind, Meter};
use metric_glob::Pattern;
use metric_names::Name;

impl View {
    /// Whether the view selects an instrument of a meter: every criterion that it gives holds (Metrics SDK, instrument
    /// selection criteria). Unit and meter fields are compared by bytes. Allocates no memory.
    #[tactic(auto, using(crate::proofs::Selecting::selecting))]
    pub fn selects(&self, meter: &Meter, instrument: &Instrument) -> bool
        ensures test { IsTrue result ↔ Selects self.now.criteria meter.now instrument.now }
        ensures value { result ≡ selects self.now.criteria meter.now instrument.now }
    {
        selects(&self.criteria, meter, instrument)
    }
}

// The criteria are taken apart, so that a new one is not left out here.
#[tactic(auto, unfolding(crate::specs::Selection::selects, crate::specs::Selection::selects_instrument, crate::specs::Selection::selects_meter,))]
fn selects(criteria: &Criteria, meter: &Meter, instrument: &Instrument) -> bool
    ensures { result ≡ selects criteria.now meter.now instrument.now }
{
    let Criteria {
        instrument_name,
        instrument_type,
        instrument_unit,
        meter_name,
        meter_version,
        meter_schema_url,
    } = criteria;
    is_named(instrument_name, instrument.name.get())
        && is_of_kind(instrument_type, instrument.kind)
        && is_text(instrument_unit, instrument.unit.get().as_str())
        && is_text(meter_name, meter.name.as_str())
        && is_text(meter_version, meter.version.as_str())
        && is_text(meter_schema_url, meter.schema_url.as_str())
}

fn is_named(criterion: &Option<Pattern>, name: &Name) -> bool
    ensures { result ≡ passes (λ pattern. is_match pattern name.now) criterion.now }
{
    match criterion {
        Some(pattern) => pattern.matches(name),
        None => true,
    }
}

/// Whether a criterion of the kind is not given, or asks for this kind (Metrics SDK, instrument selection
/// criteria).
pub fn is_of_kind(criterion: &Option<Kind>, kind: Kind) -> bool
    ensures { result ≡ passes (λ wanted. is_kind wanted kind) criterion.now }
{
    match criterion {
        Some(wanted) => is_kind(*wanted, kind),
        None => true,
    }
}

/// Whether a criterion of a text is not given, or is this text, byte by byte (Metrics SDK, instrument selection
/// criteria).
pub fn is_text(criterion: &Option<Text>, own: &str) -> bool
    ensures { result ≡ is_text own.now criterion.now }
{
    match criterion {
        Some(text) => text.as_str() == own,
        None => true,
    }
}

fn is_kind(kind: Kind, other: Kind) -> bool
    ensures { result ≡ is_kind kind other }
{
    match kind {
        Kind::Counter => matches!(other, Kind::Counter),
        Kind::UpDownCounter => matches!(other, Kind::UpDownCounter),
        Kind::Histogram => matches!(other, Kind::Histogram),
        Kind::Gauge => matches!(other, Kind::Gauge),
    }
}
