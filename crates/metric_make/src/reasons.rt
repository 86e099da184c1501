//! The reasons of all pairs of view and instrument.
ghost use Rattle.std.specs.Prelude.{◌≡◌, ◌∷◌, [], ◌<◌, IfOk, OnOk, length};
ghost use Rattle.std.specs.List.{AllZip};
ghost use Rattle.metric_glob.specs.Matching.{any_text};
ghost use Rattle.metric_make.specs.Making.{AddsReasons, IsEvidenceAt, IsMadeEvidence, IsMadeReason, first_miss};
ghost use Rattle.metric_cert.specs.Valid.{all_pairs};

use metric_base::Items;
use metric_catalogue::Catalogue;
use metric_cert::{Criterion, Evidence, SelectionReason, pattern_for};
use metric_contents::{Instrument, Meter};
use metric_glob::Pattern;
use metric_views::{Config, Criteria, View};
use std::alloc::{AllocError, Global};

// A reason for each pair, by view, then instrument.
pub(crate) fn reasons_of(
    alloc: Global,
    catalogue: &Catalogue,
    config: &Config,
) -> Result<Items<SelectionReason>, AllocError>
    ensures { IfOk result (AllZip (IsMadeReason catalogue.now config.now)
        (all_pairs catalogue.now config.now)) }
{
    let any_name = Pattern::any(alloc)?;
    let mut reasons = Items::new(alloc);
    for (number, view) in config.views().iter().enumerate() {
        let view_number = number as u32;
        add_view(alloc, catalogue, view_number, view, &any_name, &mut reasons)?;
    }
    Ok(reasons)
}

// Puts the reasons of a view last, one for each instrument.
fn add_view(
    alloc: Global,
    catalogue: &Catalogue,
    number: u32,
    view: &View,
    any_name: &Pattern,
    reasons: &mut Items<SelectionReason>,
) -> Result<(), AllocError>
    requires { any_name.now ≡ any_text ∷ [] }
    ensures { OnOk result (AddsReasons catalogue.now number view.now reasons.old reasons.new) }
{
    for instrument in 0..catalogue.instruments().len() as u32 {
        let evidence = evidence_at(alloc, catalogue, &view.criteria, any_name, instrument)?;
        reasons.push(SelectionReason {
            view: number,
            instrument,
            evidence,
        })?;
    }
    Ok(())
}

// The evidence for the instrument of a number.
fn evidence_at(
    alloc: Global,
    catalogue: &Catalogue,
    criteria: &Criteria,
    any_name: &Pattern,
    number: u32,
) -> Result<Evidence, AllocError>
    requires any { any_name.now ≡ any_text ∷ [] }
    requires known { number < length catalogue.now.instruments }
    ensures { IfOk result (IsEvidenceAt catalogue.now criteria.now number) }
{
    let instrument = &catalogue.instruments()[number as usize];
    let meter = &catalogue.meters()[instrument.meter as usize];
    evidence_of(alloc, criteria, any_name, meter, instrument)
}

// The first criterion that fails, else why the name matches the pattern or does not.
fn evidence_of(
    alloc: Global,
    criteria: &Criteria,
    any_name: &Pattern,
    meter: &Meter,
    instrument: &Instrument,
) -> Result<Evidence, AllocError>
    requires { any_name.now ≡ any_text ∷ [] }
    ensures { IfOk result (IsMadeEvidence criteria.now meter.now instrument.now) }
{
    match first_miss(criteria, meter, instrument) {
        Some(criterion) => Ok(Evidence::Miss(criterion)),
        None => {
            let pattern = pattern_for(criteria, any_name);
            let reason = pattern.why(alloc, instrument.name.get())?;
            Ok(Evidence::Name(reason))
        }
    }
}

// The first criterion that is given and fails.
#[tactic(auto, unfolding(crate::specs::Making::first_miss))]
fn first_miss(criteria: &Criteria, meter: &Meter, instrument: &Instrument) -> Option<Criterion>
    ensures { result ≡ first_miss criteria.now meter.now instrument.now }
{
    if !Criterion::InstrumentType.holds(criteria, meter, instrument) {
        Some(Criterion::InstrumentType)
    } else if !Criterion::InstrumentUnit.holds(criteria, meter, instrument) {
        Some(Criterion::InstrumentUnit)
    } else if !Criterion::MeterName.holds(criteria, meter, instrument) {
        Some(Criterion::MeterName)
    } else if !Criterion::MeterVersion.holds(criteria, meter, instrument) {
        Some(Criterion::MeterVersion)
    } else if !Criterion::MeterSchemaUrl.holds(criteria, meter, instrument) {
        Some(Criterion::MeterSchemaUrl)
    } else {
        None
    }
}
