//! How often the instruments of a plan may be recorded.
ghost use Rattle.std.specs.Prelude.{◌≡◌, ◌≢◌, ◌⊎◌, IfOk, map};
ghost use Rattle.wormweekly_c.specs.Codes.{WhereHeld, recorder_in};
ghost use Rattle.wormweekly_c.specs.Headrooms.{AnswersHeadrooms, AreHeadrooms, limit_number, stream_of, written_headroom};

use crate::codes::{MEMORY, NOT_OPEN};
use crate::handles::Handle;
use crate::held::Held;
use crate::texts::copy_all;
use metric_lint::{Headroom, Limit, headrooms};
use metric_plan::Plan;
use std::alloc::{AllocError, Global};

/// How often an instrument may be recorded, all recorders together: as often as the catalogue declares, with what it
/// spares; the most that is safe while all else stays as it is; and what one more would break: a count (0), two sums
/// 2^64 apart (1), the least (2) or the greatest i64 (3), or the series of the stream of a number (4; 0 else).
#[repr(C)]
#[derive(Clone, Copy, Drop)]
pub struct HeadroomOut {
    pub declared: u64,
    pub most: u64,
    pub limit: u64,
    pub stream: u64,
}

/// Writes how often each instrument of the plan that a recorder is of may be recorded, in order, if there is room for
/// all of them.
#[unsafe(no_mangle)]
pub extern "C" fn wormweekly_headrooms(
    alloc: Global,
    recorder: &mut Handle,
    out: &mut [HeadroomOut],
) -> u32
    ensures answer { WhereHeld (recorder_in recorder.old) (result ≡ 100) (λ own.
        AnswersHeadrooms own.plan out.old out.new result ⊎ (result ≡ 11)) }
    ensures recorder { recorder.new.value ≡ recorder.old.value }
    ensures refused { result ≢ 0 → out.new ≡ out.old }
{
    let held = recorder.take(alloc);
    let code = match held.as_deref() {
        Some(Held::Recorder(own)) => write_headrooms(alloc, own.plan.get(), out),
        _ => NOT_OPEN,
    };
    recorder.put(alloc, held);
    code
}

fn write_headrooms(alloc: Global, plan: &Plan, out: &mut [HeadroomOut]) -> u32
    ensures answer { AnswersHeadrooms plan.now out.old out.new result ⊎ (result ≡ 11) }
    ensures refused { result ≢ 0 → out.new ≡ out.old }
{
    match headrooms_of(alloc, plan) {
        Err(_) => MEMORY,
        Ok(all) => copy_all(all.as_slice(), out),
    }
}

fn headrooms_of(alloc: Global, plan: &Plan) -> Result<Vec<HeadroomOut>, AllocError>
    ensures { IfOk result (λ all. AreHeadrooms plan.now all.items) }
{
    let all = headrooms(alloc, plan.catalogue(), plan.config())?;
    written(alloc, all.as_slice())
}

fn written(alloc: Global, all: &[Headroom]) -> Result<Vec<HeadroomOut>, AllocError>
    ensures { IfOk result (λ list. list.items ≡ map written_headroom all.now) }
{
    let mut list = Vec::new(alloc);
    for headroom in all {
        list.push(written_headroom(headroom))?;
    }
    Ok(list)
}

fn written_headroom(headroom: &Headroom) -> HeadroomOut
    ensures { result ≡ written_headroom headroom.now }
{
    HeadroomOut {
        declared: headroom.total.min(u128::from(u64::MAX)) as u64,
        most: headroom.most,
        limit: limit_number(headroom.limit),
        stream: stream_of(headroom.limit),
    }
}

fn limit_number(limit: Limit) -> u64
    ensures { result ≡ limit_number limit }
{
    match limit {
        Limit::Count => 0,
        Limit::Amount => 1,
        Limit::SumLow => 2,
        Limit::SumHigh => 3,
        Limit::Series { .. } => 4,
    }
}

fn stream_of(limit: Limit) -> u64
    ensures { result ≡ stream_of limit }
{
    match limit {
        Limit::Series { stream } => u64::from(stream),
        _ => 0,
    }
}
