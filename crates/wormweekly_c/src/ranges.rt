//! The ranges of instruments.
ghost use Rattle.std.specs.Prelude.{◌≡◌, ◌≢◌};
ghost use Rattle.wormweekly_c.specs.Codes.{WhereHeld, recorder_in};
ghost use Rattle.wormweekly_c.specs.Ranges.{range_at, range_of};
ghost use Rattle.wormweekly_c.specs.Walking.{IsWritten};

use crate::batches::write;
use crate::codes::NOT_OPEN;
use crate::handles::Handle;
use crate::held::Held;
use metric_catalogue::Catalogue;
use metric_contents::Instrument;
use std::alloc::Global;

/// The least and the greatest value that may be recorded.
#[repr(C)]
#[derive(Clone, Copy, Drop)]
pub struct RangeOut {
    pub least: i64,
    pub greatest: i64,
}

/// Writes the range of the instrument of a number, of the plan that a recorder is of.
#[unsafe(no_mangle)]
pub extern "C" fn wormweekly_range(
    alloc: Global,
    recorder: &mut Handle,
    instrument: u32,
    out: &mut RangeOut,
) -> u32
    ensures answer { WhereHeld (recorder_in recorder.old) (result ≡ 100) (λ own.
        IsWritten (range_at own.plan.facts.contents instrument) out.new result) }
    ensures recorder { recorder.new.value ≡ recorder.old.value }
    ensures refused { result ≢ 0 → out.new ≡ out.old }
{
    let held = recorder.take(alloc);
    let code = match held.as_deref() {
        Some(Held::Recorder(own)) => write(
            range_at(own.plan.get().catalogue(), instrument as usize),
            out,
        ),
        _ => NOT_OPEN,
    };
    recorder.put(alloc, held);
    code
}

fn range_at(catalogue: &Catalogue, number: usize) -> Option<RangeOut>
    ensures { result ≡ range_at catalogue.now number }
{
    let instrument = catalogue.instruments().get(number)?;
    Some(range_of(instrument))
}

fn range_of(instrument: &Instrument) -> RangeOut
    ensures { result ≡ range_of instrument.now }
{
    RangeOut {
        least: instrument.lo,
        greatest: instrument.hi,
    }
}
