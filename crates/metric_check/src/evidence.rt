//! Whether what shows that a view selects an instrument, or that it does not, is true.
ghost use Rattle.std.specs.Prelude.{◌≡◌, ◌↔◌, ◌∷◌, [], IsTrue};
ghost use Rattle.std.specs.Result.{result_err};
ghost use Rattle.metric_cert.specs.declared.reason.Evidence.TheVariants.{Name as OfName};
ghost use Rattle.metric_check.specs.Findings.{AllHold, EvidenceFinds};
ghost use Rattle.metric_check.specs.Known.{EachHolds};
ghost use Rattle.metric_glob.specs.Matching.{any_text};

use metric_cert::{Criterion, Evidence, pattern_for};
use metric_contents::{Instrument, Meter};
use metric_glob::{Pattern, Reason};
use metric_plan::CheckFault;
use metric_views::Criteria;

// The first fault of what is said of a view's criteria and an instrument of a meter. A view without a
// pattern is read as if it had the pattern of any name.
pub(crate) fn check_evidence(
    any: &Pattern,
    criteria: &Criteria,
    meter: &Meter,
    instrument: &Instrument,
    evidence: &Evidence,
) -> Result<(), CheckFault>
    requires { any.now ≡ any_text ∷ [] }
    ensures { EvidenceFinds evidence.now criteria.now meter.now instrument.now
        (result_err result) }
{
    match evidence {
        Evidence::Name(reason) => check_name(any, criteria, meter, instrument, reason),
        Evidence::Miss(criterion) => {
            if criterion.holds(criteria, meter, instrument) {
                Err(CheckFault::BadMiss)
            } else {
                Ok(())
            }
        }
    }
}

fn check_name(
    any: &Pattern,
    criteria: &Criteria,
    meter: &Meter,
    instrument: &Instrument,
    reason: &Reason,
) -> Result<(), CheckFault>
    requires { any.now ≡ any_text ∷ [] }
    ensures { EvidenceFinds (OfName reason.now) criteria.now meter.now instrument.now
        (result_err result) }
{
    let confirmed = pattern_for(criteria, any).confirms(instrument.name.get(), reason);
    match reason {
        Reason::Takes(_) => {
            if !confirmed {
                return Err(CheckFault::BadTakes);
            }
            if !all_hold(criteria, meter, instrument) {
                return Err(CheckFault::BadMiss);
            }
        }
        Reason::Rows(_) => {
            if !confirmed {
                return Err(CheckFault::BadRows);
            }
        }
    }
    Ok(())
}

// Whether each criterion beside the name holds, or is not given.
fn all_hold(criteria: &Criteria, meter: &Meter, instrument: &Instrument) -> bool
    ensures { IsTrue result ↔ AllHold criteria.now meter.now instrument.now }
{
    each_holds(criteria, meter, instrument)
}

fn each_holds(criteria: &Criteria, meter: &Meter, instrument: &Instrument) -> bool
    ensures { IsTrue result ↔ EachHolds criteria.now meter.now instrument.now }
{
    Criterion::InstrumentType.holds(criteria, meter, instrument)
        && Criterion::InstrumentUnit.holds(criteria, meter, instrument)
        && Criterion::MeterName.holds(criteria, meter, instrument)
        && Criterion::MeterVersion.holds(criteria, meter, instrument)
        && Criterion::MeterSchemaUrl.holds(criteria, meter, instrument)
}
