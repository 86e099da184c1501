//! The streams of a plan.
ghost use Rattle.std.specs.Prelude.{◌≡◌, ◌≢◌};
ghost use Rattle.wormweekly_c.specs.Codes.{WhereHeld, recorder_in};
ghost use Rattle.wormweekly_c.specs.PlanStreams.{plan_stream_at, plan_stream_out};
ghost use Rattle.wormweekly_c.specs.Walking.{IsWritten};

use crate::batches::{aggregation_number, delta_number, kind_number, write};
use crate::codes::NOT_OPEN;
use crate::handles::Handle;
use crate::held::Held;
use metric_views::Stream;
use std::alloc::Global;

/// A stream of the plan: the numbers of its instrument and its reader; the kind of the instrument (0 counter, 1 up-down
/// counter, 2 histogram, 3 gauge); how its points are made (0 sum, 1 last value, 2 histogram); 1 where it is delta,
/// else 0.
#[repr(C)]
#[derive(Clone, Copy, Drop)]
pub struct PlanStreamOut {
    pub instrument: u64,
    pub reader: u64,
    pub kind: u64,
    pub aggregation: u64,
    pub delta: u64,
}

/// Writes what the stream of a number is, of the plan that a recorder is of.
#[unsafe(no_mangle)]
pub extern "C" fn wormweekly_plan_stream(
    alloc: Global,
    recorder: &mut Handle,
    number: usize,
    out: &mut PlanStreamOut,
) -> u32
    ensures answer { WhereHeld (recorder_in recorder.old) (result ≡ 100) (λ own.
        IsWritten (plan_stream_at own.plan.streams number) out.new result) }
    ensures recorder { recorder.new.value ≡ recorder.old.value }
    ensures refused { result ≢ 0 → out.new ≡ out.old }
{
    let held = recorder.take(alloc);
    let code = match held.as_deref() {
        Some(Held::Recorder(own)) => write(plan_stream_at(own.plan.get().streams(), number), out),
        _ => NOT_OPEN,
    };
    recorder.put(alloc, held);
    code
}

fn plan_stream_at(streams: &[Stream], number: usize) -> Option<PlanStreamOut>
    ensures { result ≡ plan_stream_at streams.now number }
{
    let stream = streams.get(number)?;
    Some(plan_stream_out(stream))
}

fn plan_stream_out(stream: &Stream) -> PlanStreamOut
    ensures { result ≡ plan_stream_out stream.now }
{
    PlanStreamOut {
        instrument: u64::from(stream.instrument),
        reader: u64::from(stream.reader),
        kind: kind_number(stream.kind),
        aggregation: aggregation_number(&stream.aggregation),
        delta: delta_number(stream.temporality),
    }
}
