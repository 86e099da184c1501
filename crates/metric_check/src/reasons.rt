//! Whether a certificate has a true reason for each pair of a view and an instrument.
ghost use Rattle.std.specs.Prelude.{◌≡◌, ◌<◌, ◌∷◌, [], length};
ghost use Rattle.std.specs.Result.{result_err};
ghost use Rattle.metric_glob.specs.Matching.{any_text};
ghost use Rattle.metric_check.specs.Findings.{ReasonFinds, ReasonsFind, of_reason};
ghost use Rattle.metric_check.specs.Paired.{Told};

use crate::evidence::check_evidence;
use crate::fault::{ClaimFault, ClaimPlace};
use metric_catalogue::Catalogue;
use metric_cert::SelectionReason;
use metric_glob::Pattern;
use metric_plan::CheckFault;
use metric_views::Config;

// The first fault of the reasons. They stand by view, then instrument.
pub(crate) fn check_reasons(
    any: &Pattern,
    catalogue: &Catalogue,
    config: &Config,
    reasons: &[SelectionReason],
) -> Result<(), ClaimFault>
    requires { any.now ≡ any_text ∷ [] }
    ensures { ReasonsFind catalogue.now config.now reasons.now (result_err result) }
{
    let instruments = catalogue.instruments().len();
    let pairs = config.views().len() * instruments;
    for (place, reason) in reasons.iter().enumerate() {
        if place >= pairs {
            return Err(missing_reason(place));
        }
        let (view, instrument) = (place / instruments, place % instruments);
        check_reason_at(any, catalogue, config, place, view, instrument, reason)?;
    }
    if reasons.len() < pairs {
        return Err(missing_reason(reasons.len()));
    }
    Ok(())
}

fn missing_reason(place: usize) -> ClaimFault
    ensures { result ≡ of_reason place CheckFault.PairMissing }
{
    ClaimFault {
        fault: CheckFault::PairMissing,
        place: ClaimPlace::Reason(place),
    }
}

// The first fault of a reason where that of this pair is due, told with its number.
fn check_reason_at(
    any: &Pattern,
    catalogue: &Catalogue,
    config: &Config,
    place: usize,
    view: usize,
    instrument: usize,
    reason: &SelectionReason,
) -> Result<(), ClaimFault>
    requires any { any.now ≡ any_text ∷ [] }
    requires view { view < length config.now.views }
    requires instrument { instrument < length catalogue.now.instruments }
    ensures { Told (of_reason place)
        (ReasonFinds catalogue.now config.now (view, instrument) reason.now) (result_err result) }
{
    match check_reason(any, catalogue, config, view, instrument, reason) {
        Ok(()) => Ok(()),
        Err(fault) => Err(ClaimFault {
            fault,
            place: ClaimPlace::Reason(place),
        }),
    }
}

// The first fault of a reason where that of this pair is due.
fn check_reason(
    any: &Pattern,
    catalogue: &Catalogue,
    config: &Config,
    view: usize,
    instrument: usize,
    reason: &SelectionReason,
) -> Result<(), CheckFault>
    requires any { any.now ≡ any_text ∷ [] }
    requires view { view < length config.now.views }
    requires instrument { instrument < length catalogue.now.instruments }
    ensures { ReasonFinds catalogue.now config.now (view, instrument) reason.now
        (result_err result) }
{
    if reason.view as usize != view || reason.instrument as usize != instrument {
        return Err(CheckFault::PairMissing);
    }
    let criteria = &config.views()[view].criteria;
    let declared = &catalogue.instruments()[instrument];
    let meter = &catalogue.meters()[declared.meter as usize];
    check_evidence(any, criteria, meter, declared, &reason.evidence)
}
