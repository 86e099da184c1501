//! The start with a certificate.
ghost use Rattle.std.specs.Prelude.{◌≡◌, ◌≢◌, ◌⊎◌, ◌↔◌, ◌&&◌, false, true, IsTrue, length, IfErr, IfOk};
ghost use Rattle.std.specs.Str.{is_utf8};
ghost use Rattle.wormweekly_c.specs.Opening.{Counted, IsOpenCode, Opens, held_by, held_in, holds_something, lacks_handles};
ghost use Rattle.wormweekly_c.specs.Refusing.{IsWhy};
ghost use Rattle.wormweekly_c.specs.Telling.{HasFront};
ghost use Rattle.wormweekly_c.specs.Vouching.{HasVouchFault};
ghost use Rattle.metric_setup.specs.Setups.{IsVouchedPlan};

use crate::codes::{MEMORY, NO_TEXT, OPEN};
use crate::empty::holds_something;
use crate::handles::Handle;
use crate::no_plan::{NoPlan, tell};
use crate::opening::{Counts, open_plan};
use crate::telling::fault_message;
use metric_plan::Plan;
use metric_setup::vouched_plan;
use std::alloc::Global;
use std::str::from_utf8;

/// Opens the instruments of a catalogue and a config as [`wormweekly_open_run`](crate::wormweekly_open_run) does, where
/// a certificate shows that they are safe. It is checked, whoever made it.
#[unsafe(no_mangle)]
pub extern "C" fn wormweekly_open_certified_run(
    alloc: Global,
    catalogue: &[u8],
    config: &[u8],
    certificate: &[u8],
    start: u64,
    run: u64,
    instruments: &mut [Handle],
    recorders: &mut [Handle],
    readers: &mut [Handle],
    counts: &mut Counts,
    fault: &mut [u8],
    fault_length: &mut usize,
) -> u32
    ensures opened { let old = held_by instruments.old recorders.old readers.old in
        let new = held_by instruments.new recorders.new readers.new in
        result ≡ 0 → Opens (IsVouchedPlan catalogue.now config.now certificate.now)
        start run counts.new old new }
    ensures answer { IsOpenCode result ⊎ ((result ≡ 101) ⊎ ((result ≡ 103) ⊎ (result ≡ 109))) }
    ensures held { let old = held_by instruments.old recorders.old readers.old in
        (result ≡ 109) ↔ (holds_something old ≡ true) }
    ensures counted { result ≡ 102
        → Counted (IsVouchedPlan catalogue.now config.now certificate.now) counts.new }
    ensures short { result ≡ 102 → lacks_handles counts.new
        (length instruments.old) (length recorders.old) (length readers.old) ≡ true }
    ensures uncounted { (result ≡ 101) ⊎ ((result ≡ 103) ⊎ (result ≡ 109))
        → counts.new ≡ counts.old }
    ensures no_text { result ≡ 101
        → (is_utf8 catalogue.now && (is_utf8 config.now && is_utf8 certificate.now)) ≡ false }
    ensures texts { result ≡ 103
        → (is_utf8 catalogue.now && (is_utf8 config.now && is_utf8 certificate.now)) ≡ true }
    ensures fault { result ≢ 103 → (fault.new ≡ fault.old) × (fault_length.new ≡ 0) }
    ensures told { let HasFault = HasVouchFault catalogue.now config.now certificate.now in
        result ≡ 103 → HasFront HasFault fault.old fault.new fault_length.new }
    ensures instruments { result ≢ 0 → held_in instruments.new ≡ held_in instruments.old }
    ensures recorders { result ≢ 0 → held_in recorders.new ≡ held_in recorders.old }
    ensures readers { result ≢ 0 → held_in readers.new ≡ held_in readers.old }
{
    *fault_length = 0;
    if holds_something(alloc, instruments, recorders, readers) {
        return OPEN;
    }
    match plan_for(alloc, catalogue, config, certificate) {
        Err(NoPlan::NoText) => NO_TEXT,
        Err(NoPlan::Memory) => MEMORY,
        Err(NoPlan::Fault(text)) => tell(text.as_slice(), fault, fault_length),
        Ok(plan) => open_plan(
            alloc,
            plan,
            start,
            run,
            instruments,
            recorders,
            readers,
            counts,
        ),
    }
}

// The plan that a certificate shows to be safe.
fn plan_for(
    alloc: Global,
    catalogue: &[u8],
    config: &[u8],
    certificate: &[u8],
) -> Result<Plan, NoPlan>
    ensures certified { IfOk result (λ plan. IsTrue plan.is_certified) }
    ensures plan { IfOk result (IsVouchedPlan catalogue.now config.now certificate.now) }
    ensures why { IfErr result (IsWhy
        (is_utf8 catalogue.now && (is_utf8 config.now && is_utf8 certificate.now))
        (HasVouchFault catalogue.now config.now certificate.now)) }
{
    let Ok(catalogue) = from_utf8(catalogue) else {
        return Err(NoPlan::NoText);
    };
    let Ok(config) = from_utf8(config) else {
        return Err(NoPlan::NoText);
    };
    let Ok(certificate) = from_utf8(certificate) else {
        return Err(NoPlan::NoText);
    };
    plan_of(alloc, catalogue, config, certificate)
}

fn plan_of(alloc: Global, catalogue: &str, config: &str, certificate: &str) -> Result<Plan, NoPlan>
    ensures certified { IfOk result (λ plan. IsTrue plan.is_certified) }
    ensures plan { IfOk result (IsVouchedPlan catalogue.now config.now certificate.now) }
    ensures why { IfErr result (IsWhy true
        (HasVouchFault catalogue.now config.now certificate.now)) }
{
    match vouched_plan(alloc, catalogue, config, certificate) {
        Ok(plan) => Ok(plan),
        Err(fault) => match fault_message(alloc, catalogue, config, certificate, fault) {
            Ok(text) => Err(NoPlan::Fault(text)),
            Err(_) => Err(NoPlan::Memory),
        },
    }
}
