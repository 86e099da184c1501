//! The totals at the end.
ghost use Rattle.std.specs.Prelude.{◌≡◌, ◌≢◌, ◌⊎◌, IfErr, IfOk, Ok, Some};
ghost use Rattle.wormweekly_c.specs.Codes.{WhereHeld, instrument_in, recorder_in};
ghost use Rattle.wormweekly_c.specs.Settlements.{AllTold, AnswersSettle, AnswersTold, IsFirstUntold, TellsNot, number_of_fault, recorders_in, sum_from};
ghost use Rattle.wormweekly_c.specs.Opening.{held_in};
ghost use Rattle.metric_hosted.specs.Settlements.{TellsOf};

use crate::codes::{AUDIT_MISMATCH, DONE, MEMORY, NOT_OPEN, RECORDER_MISSING, STRANGER};
use crate::handles::Handle;
use crate::held::Held;
use metric_hosted::{FinishFault, Hosted, HostedRecorder, SeatTold, Total};
use std::alloc::Global;

/// What an instrument comes to: how many recordings, and the sum of their values, as 128 bits without the sign, and 1
/// where it is below 0, else 0.
#[repr(C)]
#[derive(Clone, Copy, Drop)]
pub struct TotalOut {
    pub count: u64,
    pub negative: u64,
    pub high: u64,
    pub low: u64,
}

/// Compares an instrument with what all its recorders were told, in any order, and writes its total, which is exactly
/// that. Refused, it writes nothing, and answers for the first handle whose seat tells nothing, else for what all of
/// them tell.
#[unsafe(no_mangle)]
pub extern "C" fn wormweekly_settle(
    alloc: Global,
    instrument: &mut Handle,
    recorders: &mut [Handle],
    total: &mut TotalOut,
) -> u32
    ensures answer { let seats = recorders_in recorders.old in
        WhereHeld (instrument_in instrument.old) (result ≡ 100) (λ h.
        AnswersSettle h seats total.new result) }
    ensures refused { result ≢ 0 → total.new ≡ total.old }
    ensures instrument { instrument.new.value ≡ instrument.old.value }
    ensures recorders { held_in recorders.new ≡ held_in recorders.old }
{
    let held = instrument.take(alloc);
    let code = match held.as_deref() {
        Some(Held::Instrument(held)) => settle_one(alloc, held, recorders, total),
        _ => NOT_OPEN,
    };
    instrument.put(alloc, held);
    code
}

fn settle_one(alloc: Global, held: &Hosted, recorders: &mut [Handle], total: &mut TotalOut) -> u32
    ensures answer { let seats = recorders_in recorders.old in
        AnswersSettle held.now seats total.new result }
    ensures refused { result ≢ 0 → total.new ≡ total.old }
    ensures recorders { held_in recorders.new ≡ held_in recorders.old }
{
    match all_told(alloc, held, recorders) {
        Err(code) => code,
        Ok(told) => settle_told(held, told.as_slice(), total),
    }
}

// Compares an instrument with what its seats were told.
fn settle_told(held: &Hosted, told: &[SeatTold], total: &mut TotalOut) -> u32
    ensures answer { AnswersTold held.now told.now total.new result }
    ensures refused { result ≢ 0 → total.new ≡ total.old }
{
    match held.settle(told) {
        Ok(settled) => {
            *total = written(settled);
            DONE
        }
        Err(fault) => code_of(fault),
    }
}

// The total as it is written.
fn written(total: Total) -> TotalOut
    ensures count { result.count ≡ total.count }
    ensures sum { sum_from result ≡ total.sum }
{
    let size = total.sum.unsigned_abs();
    TotalOut {
        count: total.count,
        negative: if total.sum < 0 { 1 } else { 0 },
        high: (size / 0x1_0000_0000_0000_0000) as u64,
        low: (size % 0x1_0000_0000_0000_0000) as u64,
    }
}

// The number of a fault.
fn code_of(fault: FinishFault) -> u32
    ensures { result ≡ number_of_fault fault }
{
    match fault {
        FinishFault::RecorderMissing => RECORDER_MISSING,
        FinishFault::Stranger => STRANGER,
        FinishFault::AuditMismatch => AUDIT_MISMATCH,
        FinishFault::Memory => MEMORY,
    }
}

// What the seats were told of the instrument.
fn all_told(alloc: Global, held: &Hosted, recorders: &mut [Handle]) -> Result<Vec<SeatTold>, u32>
    ensures told { let seats = recorders_in recorders.old in
        IfOk result (λ told. AllTold held.now seats told.items) }
    ensures untold { let seats = recorders_in recorders.old in
        IfErr result (λ code. IsFirstUntold held.now seats code ⊎ (code ≡ 11)) }
    ensures recorders { held_in recorders.new ≡ held_in recorders.old }
{
    let mut all = Vec::new(alloc);
    for handle in recorders.iter_mut() {
        match told_by(alloc, held, handle) {
            Err(code) => return Err(code),
            Ok(told) => {
                if all.push(told).is_err() {
                    return Err(MEMORY);
                }
            }
        }
    }
    Ok(all)
}

// What a seat was told of the instrument.
fn told_by(alloc: Global, held: &Hosted, recorder: &mut Handle) -> Result<SeatTold, u32>
    ensures told { let seat = recorder_in recorder.old in
        IfOk result (λ told.
        WhereHeld seat ⊥ (λ own. TellsOf own.plan held.now own.seat (Ok told))) }
    ensures untold { IfErr result (TellsNot held.now (recorder_in recorder.old)) }
    ensures recorder { recorder.new.value ≡ recorder.old.value }
{
    let own = recorder.take(alloc);
    let told = match own.as_deref() {
        Some(Held::Recorder(own)) => told_of(held, own),
        _ => Err(NOT_OPEN),
    };
    recorder.put(alloc, own);
    told
}

fn told_of(held: &Hosted, own: &HostedRecorder) -> Result<SeatTold, u32>
    ensures told { IfOk result (λ told. TellsOf own.now.plan held.now own.now.seat (Ok told)) }
    ensures untold { IfErr result (TellsNot held.now (Some own.now)) }
{
    match held.told_of(own.plan.get(), &own.seat) {
        Ok(told) => Ok(told),
        Err(fault) => Err(code_of(fault)),
    }
}
