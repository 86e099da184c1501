//! The next run of a plan.
ghost use Rattle.std.specs.Prelude.{◌≡◌, ◌≢◌, ◌⊎◌, ◌↔◌, false, true, length};
ghost use Rattle.wormweekly_c.specs.Codes.{WhereHeld, recorder_in};
ghost use Rattle.wormweekly_c.specs.Opening.{BeginsOf, IsNextCode, held_by, held_in, holds_something, lacks_handles};

use crate::codes::{FAULT, NOT_OPEN, OPEN};
use crate::empty::holds_something;
use crate::handles::Handle;
use crate::held::Held;
use crate::opening::{Counts, open_shared};
use metric_hosted::HostedRecorder;
use std::alloc::Global;

/// Opens the next run of the plan that a recorder is of, since a start in nanoseconds, in the run of a number, into
/// other handles, and writes how many there are. The run that is there goes on.
#[unsafe(no_mangle)]
pub extern "C" fn wormweekly_next_run(
    alloc: Global,
    recorder: &mut Handle,
    start: u64,
    run: u64,
    instruments: &mut [Handle],
    recorders: &mut [Handle],
    readers: &mut [Handle],
    counts: &mut Counts,
) -> u32
    ensures opened { let old = held_by instruments.old recorders.old readers.old in
        let new = held_by instruments.new recorders.new readers.new in
        result ≡ 0 → WhereHeld (recorder_in recorder.old) ⊥ (λ own.
        BeginsOf own.plan start run counts.new old new) }
    ensures held { let old = held_by instruments.old recorders.old readers.old in
        (result ≡ 109) ↔ (holds_something old ≡ true) }
    ensures answer { (result ≡ 109) ⊎ WhereHeld (recorder_in recorder.old) (result ≡ 100)
        (λ own. IsNextCode own.plan result) }
    ensures short { result ≡ 102 → lacks_handles counts.new
        (length instruments.old) (length recorders.old) (length readers.old) ≡ true }
    ensures recorder { recorder.new.value ≡ recorder.old.value }
    ensures instruments { result ≢ 0 → held_in instruments.new ≡ held_in instruments.old }
    ensures recorders { result ≢ 0 → held_in recorders.new ≡ held_in recorders.old }
    ensures readers { result ≢ 0 → held_in readers.new ≡ held_in readers.old }
{
    if holds_something(alloc, instruments, recorders, readers) {
        return OPEN;
    }
    let held = recorder.take(alloc);
    let code = match held.as_deref() {
        Some(Held::Recorder(own)) => open_next(
            alloc,
            own,
            start,
            run,
            instruments,
            recorders,
            readers,
            counts,
        ),
        _ => NOT_OPEN,
    };
    recorder.put(alloc, held);
    code
}

fn open_next(
    alloc: Global,
    own: &HostedRecorder,
    start: u64,
    run: u64,
    instruments: &mut [Handle],
    recorders: &mut [Handle],
    readers: &mut [Handle],
    counts: &mut Counts,
) -> u32
    ensures opened { let old = held_by instruments.old recorders.old readers.old in
        let new = held_by instruments.new recorders.new readers.new in
        result ≡ 0 → BeginsOf own.now.plan start run counts.new old new }
    ensures answer { IsNextCode own.now.plan result }
    ensures short { result ≡ 102 → lacks_handles counts.new
        (length instruments.old) (length recorders.old) (length readers.old) ≡ true }
    ensures instruments { result ≢ 0 → instruments.new ≡ instruments.old }
    ensures recorders { result ≢ 0 → recorders.new ≡ recorders.old }
    ensures readers { result ≢ 0 → readers.new ≡ readers.old }
{
    // Each plan that was opened is certified.
    if !own.plan.get().is_certified() {
        return FAULT;
    }
    open_shared(
        alloc,
        &own.plan,
        start,
        run,
        instruments,
        recorders,
        readers,
        counts,
    )
}
