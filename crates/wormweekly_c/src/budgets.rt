//! What is left of budgets, and what an instrument has to spare.
ghost use Rattle.std.specs.Prelude.{◌≡◌, ◌≢◌, Some};
ghost use Rattle.wormweekly_c.specs.Budgets.{AnswersAsk, AnswersBudget, IsGrantedTo};
ghost use Rattle.wormweekly_c.specs.Codes.{WhereBoth, WhereHeld, instrument_in, instrument_of, recorder_in, recorder_of};
ghost use Rattle.wormweekly_c.specs.Granting.{Grants};
ghost use Rattle.metric_hosted.specs.Budgets.{spare_of};

use crate::codes::{DONE, NOT_OPEN, code_of};
use crate::handles::Handle;
use crate::held::Held;
use metric_hosted::{Budget, Hosted, HostedRecorder, Spare};
use std::alloc::Global;

/// Writes how many recordings a recorder may make on an instrument, and how many of them are left.
#[unsafe(no_mangle)]
pub extern "C" fn wormweekly_budget(
    alloc: Global,
    instrument: &mut Handle,
    recorder: &mut Handle,
    out: &mut Budget,
) -> u32
    ensures answer { WhereBoth (instrument_in instrument.old) (recorder_in recorder.old)
        (result ≡ 100) (λ h own. AnswersBudget h own out.new result) }
    ensures refused { result ≢ 0 → out.new ≡ out.old }
    ensures instrument { instrument.new.value ≡ instrument.old.value }
    ensures recorder { recorder.new.value ≡ recorder.old.value }
{
    let held = instrument.take(alloc);
    let own = recorder.take(alloc);
    let code = match (held.as_deref(), own.as_deref()) {
        (Some(Held::Instrument(held)), Some(Held::Recorder(own))) => write_budget(held, own, out),
        _ => NOT_OPEN,
    };
    recorder.put(alloc, own);
    instrument.put(alloc, held);
    code
}

fn write_budget(held: &Hosted, own: &HostedRecorder, out: &mut Budget) -> u32
    ensures answer { AnswersBudget held.now own.now out.new result }
    ensures refused { result ≢ 0 → out.new ≡ out.old }
{
    match held.budget_of(own.plan.get(), &own.seat) {
        Ok(budget) => {
            *out = budget;
            DONE
        }
        Err(refusal) => u32::from(refusal.number()),
    }
}

/// Writes how many recordings may be granted to the recorders of an instrument beside their budgets, and how many of
/// them are left.
#[unsafe(no_mangle)]
pub extern "C" fn wormweekly_spare(alloc: Global, instrument: &mut Handle, out: &mut Spare) -> u32
    ensures answer { WhereHeld (instrument_in instrument.old) (result ≡ 100) (λ h.
        (result ≡ 0) × (out.new ≡ spare_of h)) }
    ensures refused { result ≢ 0 → out.new ≡ out.old }
    ensures instrument { instrument.new.value ≡ instrument.old.value }
{
    let held = instrument.take(alloc);
    let code = match held.as_deref() {
        Some(Held::Instrument(held)) => write_spare(held, out),
        _ => NOT_OPEN,
    };
    instrument.put(alloc, held);
    code
}

fn write_spare(held: &Hosted, out: &mut Spare) -> u32
    ensures { (result ≡ 0) × (out.new ≡ spare_of held.now) }
{
    *out = held.spare();
    DONE
}

/// Grants a recorder so many recordings on an instrument beside its budget, of what is left of the instrument's spare
/// budget: a grant for which the recorder itself asks.
#[unsafe(no_mangle)]
pub extern "C" fn wormweekly_ask(
    alloc: Global,
    instrument: &mut Handle,
    recorder: &mut Handle,
    amount: u64,
) -> u32
    ensures answer { WhereBoth (instrument_in instrument.old) (recorder_in recorder.old)
        (result ≡ 100) (λ h own. AnswersAsk h own amount result) }
    ensures done { let before = instrument_in instrument.old in
        let after = instrument_in instrument.new in
        result ≡ 0 → IsGrantedTo before after (recorder_in recorder.old) amount }
    ensures refused { result ≢ 0 → instrument.new.value ≡ instrument.old.value }
    ensures recorder { recorder.new.value ≡ recorder.old.value }
{
    let Some(mut held) = instrument.take(alloc) else {
        return NOT_OPEN;
    };
    let Some(own) = recorder.take(alloc) else {
        instrument.put(alloc, Some(held));
        return NOT_OPEN;
    };
    let code = ask_held(&mut held, &own, amount);
    recorder.put(alloc, Some(own));
    instrument.put(alloc, Some(held));
    code
}

fn ask_held(held: &mut Held, own: &Held, amount: u64) -> u32
    ensures answer { WhereBoth (instrument_of (Some held.old)) (recorder_of (Some own.now))
        (result ≡ 100) (λ h own. AnswersAsk h own amount result) }
    ensures done { let before = instrument_of (Some held.old) in
        let after = instrument_of (Some held.new) in
        result ≡ 0 → IsGrantedTo before after (recorder_of (Some own.now)) amount }
    ensures refused { result ≢ 0 → held.new ≡ held.old }
{
    match (held, own) {
        (Held::Instrument(held), Held::Recorder(own)) => {
            let answer = held.ask(own.plan.get(), &own.seat, amount);
            code_of(&answer)
        }
        _ => NOT_OPEN,
    }
}
