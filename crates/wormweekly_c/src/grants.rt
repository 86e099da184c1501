//! Grants of what an instrument has to spare.
ghost use Rattle.std.specs.Prelude.{◌≡◌, ◌≢◌, Some};
ghost use Rattle.wormweekly_c.specs.Codes.{IsCodeOf, WhereHeld, instrument_in, instrument_of};
ghost use Rattle.wormweekly_c.specs.Granting.{IsGranted};
ghost use Rattle.metric_hosted.specs.Grants.{AnswersGranting};

use crate::codes::{NOT_OPEN, code_of};
use crate::handles::Handle;
use crate::held::Held;
use std::alloc::Global;

/// Grants the recorder of a number so many recordings on an instrument beside its budget, of what is left of the
/// instrument's spare budget.
#[unsafe(no_mangle)]
pub extern "C" fn wormweekly_grant(
    alloc: Global,
    instrument: &mut Handle,
    recorder: u32,
    amount: u64,
) -> u32
    ensures answer { WhereHeld (instrument_in instrument.old) (result ≡ 100) (λ h.
        IsCodeOf (AnswersGranting h recorder amount) result) }
    ensures done { let before = instrument_in instrument.old in
        result ≡ 0 → IsGranted before (instrument_in instrument.new) recorder amount }
    ensures refused { result ≢ 0 → instrument.new.value ≡ instrument.old.value }
{
    let Some(mut held) = instrument.take(alloc) else {
        return NOT_OPEN;
    };
    let code = grant_held(&mut held, recorder, amount);
    instrument.put(alloc, Some(held));
    code
}

fn grant_held(held: &mut Held, recorder: u32, amount: u64) -> u32
    ensures answer { WhereHeld (instrument_of (Some held.old)) (result ≡ 100) (λ h.
        IsCodeOf (AnswersGranting h recorder amount) result) }
    ensures done { let before = instrument_of (Some held.old) in
        result ≡ 0 → IsGranted before (instrument_of (Some held.new)) recorder amount }
    ensures refused { result ≢ 0 → held.new ≡ held.old }
{
    match held {
        Held::Instrument(held) => code_of(&held.grant(recorder, amount)),
        _ => NOT_OPEN,
    }
}
