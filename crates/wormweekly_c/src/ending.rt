//! The ends of instruments and handles.
ghost use Rattle.std.specs.Prelude.{◌≡◌, ◌≢◌, Some};
ghost use Rattle.wormweekly_c.specs.Codes.{IsCodeOf, WhereHeld, instrument_in, instrument_of};
ghost use Rattle.metric_core.specs.CellAnswers.{AnswersClose};
ghost use Rattle.wormweekly_c.specs.Closing.{IsClosed};

use crate::codes::{NOT_OPEN, code_of};
use crate::handles::Handle;
use crate::held::Held;
use std::alloc::Global;

/// Ends the recordings of an instrument.
#[unsafe(no_mangle)]
pub extern "C" fn wormweekly_close(alloc: Global, instrument: &mut Handle) -> u32
    ensures answer { WhereHeld (instrument_in instrument.old) (result ≡ 100) (λ h.
        IsCodeOf (AnswersClose h.cell) result) }
    ensures done { result ≡ 0
        → IsClosed (instrument_in instrument.old) (instrument_in instrument.new) }
    ensures refused { result ≢ 0 → instrument.new.value ≡ instrument.old.value }
{
    let Some(mut held) = instrument.take(alloc) else {
        return NOT_OPEN;
    };
    let code = close_held(&mut held);
    instrument.put(alloc, Some(held));
    code
}

fn close_held(held: &mut Held) -> u32
    ensures answer { WhereHeld (instrument_of (Some held.old)) (result ≡ 100) (λ h.
        IsCodeOf (AnswersClose h.cell) result) }
    ensures done { result ≡ 0
        → IsClosed (instrument_of (Some held.old)) (instrument_of (Some held.new)) }
    ensures refused { result ≢ 0 → held.new ≡ held.old }
{
    match held {
        Held::Instrument(held) => code_of(&held.close()),
        _ => NOT_OPEN,
    }
}

/// Frees what a handle holds, and leaves it null. Freed twice, nothing happens.
#[unsafe(no_mangle)]
pub extern "C" fn wormweekly_free_instrument(alloc: Global, instrument: &mut Handle)
    ensures { instrument.new.value ≡ None }
{
    *instrument = Handle::empty(alloc);
}

/// The same of a recorder.
#[unsafe(no_mangle)]
pub extern "C" fn wormweekly_free_recorder(alloc: Global, recorder: &mut Handle)
    ensures { recorder.new.value ≡ None }
{
    *recorder = Handle::empty(alloc);
}

/// The same of a reader.
#[unsafe(no_mangle)]
pub extern "C" fn wormweekly_free_reader(alloc: Global, reader: &mut Handle)
    ensures { reader.new.value ≡ None }
{
    *reader = Handle::empty(alloc);
}

fn sent<T: Send>(_value: &T) {}

/// A handle may go to another thread.
pub fn may_be_sent(handle: &Handle) {
    sent(handle);
}
