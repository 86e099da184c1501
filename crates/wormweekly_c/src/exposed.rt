//! Whether a reader's streams can stand in a page for Prometheus.
ghost use Rattle.std.specs.Prelude.{◌≡◌, ◌≢◌, ◌⊎◌, IfOk, OnErr};
ghost use Rattle.std.specs.String.{string_bytes};
ghost use Rattle.wormweekly_c.specs.Codes.{WhereHeld, reader_in};
ghost use Rattle.wormweekly_c.specs.Exposed.{AnswersExposed, exposed};
ghost use Rattle.wormweekly_c.specs.Texts.{IsFront};

use crate::codes::{DONE, FAULT, MEMORY, NOT_OPEN};
use crate::handles::Handle;
use crate::held::Held;
use crate::texts::copy_front;
use metric_exposure::{ExposureFault, expose};
use metric_hosted::HostedReader;
use std::alloc::{AllocError, Global};

/// Tells whether the streams of a reader can stand in a page for Prometheus, so that no sample of the page would be
/// lost, or taken for another. A fault is written as far as there is room, with its whole length.
#[unsafe(no_mangle)]
pub extern "C" fn wormweekly_expose(
    alloc: Global,
    reader: &mut Handle,
    fault: &mut [u8],
    fault_length: &mut usize,
) -> u32
    ensures answer { WhereHeld (reader_in reader.old) (result ≡ 100) (λ own.
        AnswersExposed (exposed own) fault.old fault.new fault_length.new result
        ⊎ (result ≡ 11)) }
    ensures reader { reader.new.value ≡ reader.old.value }
    ensures fault { result ≢ 103 → (fault.new ≡ fault.old) × (fault_length.new ≡ 0) }
{
    *fault_length = 0;
    let held = reader.take(alloc);
    let code = match held.as_deref() {
        Some(Held::Reader(own)) => write_exposed(alloc, own, fault, fault_length),
        _ => NOT_OPEN,
    };
    reader.put(alloc, held);
    code
}

fn write_exposed(
    alloc: Global,
    own: &HostedReader,
    fault: &mut [u8],
    fault_length: &mut usize,
) -> u32
    ensures answer { AnswersExposed (exposed own.now) fault.old fault.new fault_length.new result
        ⊎ (result ≡ 11) }
    ensures fault { result ≢ 103
        → (fault.new ≡ fault.old) × (fault_length.new ≡ fault_length.old) }
{
    match expose(alloc, own.plan.get(), own.seat.number()) {
        Ok(()) => DONE,
        Err(ExposureFault::Memory) => MEMORY,
        Err(found) => write_text(format!(in alloc; "{found}"), fault, fault_length),
    }
}

// Writes the text of a fault as far as there is room.
fn write_text(text: Result<String, AllocError>, fault: &mut [u8], fault_length: &mut usize) -> u32
    ensures told { IfOk text (λ text.
        (result ≡ 103) × IsFront (string_bytes text) fault.old fault.new fault_length.new) }
    ensures memory { OnErr text (result ≡ 11) }
    ensures fault { result ≢ 103
        → (fault.new ≡ fault.old) × (fault_length.new ≡ fault_length.old) }
{
    match text {
        Err(_) => MEMORY,
        Ok(text) => {
            *fault_length = copy_front(text.as_bytes(), fault);
            FAULT
        }
    }
}
