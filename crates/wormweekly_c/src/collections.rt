//! Collections.
ghost use Rattle.std.specs.Prelude.{◌≡◌, ◌≢◌, ◌⊎◌, false, true, IfOk, Some};
ghost use Rattle.metric_hosted.specs.Readers.{Collects, RefusesReading};
ghost use Rattle.wormweekly_c.specs.Codes.{Changes, IsCodeOf, WhereBoth, WhereHeld, instrument_in, instrument_of, reader_in, reader_of};
ghost use Rattle.wormweekly_c.specs.Collections.{text_of};
ghost use Rattle.wormweekly_c.specs.Texts.{AnswersText};

use crate::codes::{MEMORY, NOT_OPEN, code_of};
use crate::handles::Handle;
use crate::held::Held;
use crate::texts::copy_text;
use metric_hosted::HostedReader;
use metric_lines::push_batch;
use std::alloc::{AllocError, Global};

/// Collects an instrument for a reader at a time in nanoseconds (Metrics SDK, collect). The reader keeps the batch in
/// place of those that it kept.
#[unsafe(no_mangle)]
pub extern "C" fn wormweekly_collect(
    alloc: Global,
    instrument: &mut Handle,
    reader: &mut Handle,
    now: u64,
) -> u32
    ensures answer { WhereBoth (instrument_in instrument.old) (reader_in reader.old)
        (result ≡ 100) (λ h own. IsCodeOf (RefusesReading h own now) result) }
    ensures done { result ≡ 0
        → Changes (instrument_in instrument.old) (instrument_in instrument.new)
        (reader_in reader.old) (reader_in reader.new) (Collects false now) }
    ensures instrument { result ≢ 0 → instrument.new.value ≡ instrument.old.value }
    ensures reader { result ≢ 0 → reader.new.value ≡ reader.old.value }
{
    collect_handles(alloc, instrument, reader, now, false)
}

/// The same; the reader keeps the batch behind those that it keeps, so that they leave together.
#[unsafe(no_mangle)]
pub extern "C" fn wormweekly_collect_also(
    alloc: Global,
    instrument: &mut Handle,
    reader: &mut Handle,
    now: u64,
) -> u32
    ensures answer { WhereBoth (instrument_in instrument.old) (reader_in reader.old)
        (result ≡ 100) (λ h own. IsCodeOf (RefusesReading h own now) result) }
    ensures done { result ≡ 0
        → Changes (instrument_in instrument.old) (instrument_in instrument.new)
        (reader_in reader.old) (reader_in reader.new) (Collects true now) }
    ensures instrument { result ≢ 0 → instrument.new.value ≡ instrument.old.value }
    ensures reader { result ≢ 0 → reader.new.value ≡ reader.old.value }
{
    collect_handles(alloc, instrument, reader, now, true)
}

fn collect_handles(
    alloc: Global,
    instrument: &mut Handle,
    reader: &mut Handle,
    now: u64,
    keeps: bool,
) -> u32
    ensures answer { WhereBoth (instrument_in instrument.old) (reader_in reader.old)
        (result ≡ 100) (λ h own. IsCodeOf (RefusesReading h own now) result) }
    ensures done { result ≡ 0
        → Changes (instrument_in instrument.old) (instrument_in instrument.new)
        (reader_in reader.old) (reader_in reader.new) (Collects keeps now) }
    ensures instrument { result ≢ 0 → instrument.new.value ≡ instrument.old.value }
    ensures reader { result ≢ 0 → reader.new.value ≡ reader.old.value }
{
    let Some(mut held) = instrument.take(alloc) else {
        return NOT_OPEN;
    };
    let Some(mut own) = reader.take(alloc) else {
        instrument.put(alloc, Some(held));
        return NOT_OPEN;
    };
    let code = collect_held(alloc, &mut held, &mut own, now, keeps);
    reader.put(alloc, Some(own));
    instrument.put(alloc, Some(held));
    code
}

fn collect_held(alloc: Global, held: &mut Held, own: &mut Held, now: u64, keeps: bool) -> u32
    ensures answer { WhereBoth (instrument_of (Some held.old)) (reader_of (Some own.old))
        (result ≡ 100) (λ h own. IsCodeOf (RefusesReading h own now) result) }
    ensures done { result ≡ 0
        → Changes (instrument_of (Some held.old)) (instrument_of (Some held.new))
        (reader_of (Some own.old)) (reader_of (Some own.new)) (Collects keeps now) }
    ensures instrument { result ≢ 0 → held.new ≡ held.old }
    ensures reader { result ≢ 0 → own.new ≡ own.old }
{
    match (held, own) {
        (Held::Instrument(held), Held::Reader(own)) => {
            let answer = own.collect(alloc, held, now, keeps);
            code_of(&answer)
        }
        _ => NOT_OPEN,
    }
}

/// Writes the text of the batches that a reader keeps, if there is room for all of it, and its length. It is empty
/// before a batch. The reader keeps them, so the text can be asked for again with more room.
#[unsafe(no_mangle)]
pub extern "C" fn wormweekly_text(
    alloc: Global,
    reader: &mut Handle,
    out: &mut [u8],
    text_length: &mut usize,
) -> u32
    ensures answer { WhereHeld (reader_in reader.old) (result ≡ 100) (λ own.
        AnswersText (text_of own) out.old out.new text_length.new result ⊎ (result ≡ 11)) }
    ensures reader { reader.new.value ≡ reader.old.value }
    ensures refused { result ≢ 0 → out.new ≡ out.old }
    ensures length { result ≢ 0 → result ≢ 102 → text_length.new ≡ text_length.old }
{
    let held = reader.take(alloc);
    let code = match held.as_deref() {
        Some(Held::Reader(own)) => write_batch_text(alloc, own, out, text_length),
        _ => NOT_OPEN,
    };
    reader.put(alloc, held);
    code
}

fn write_batch_text(
    alloc: Global,
    own: &HostedReader,
    out: &mut [u8],
    text_length: &mut usize,
) -> u32
    ensures answer { AnswersText (text_of own.now) out.old out.new text_length.new result
        ⊎ (result ≡ 11) }
    ensures refused { result ≢ 0 → out.new ≡ out.old }
    ensures length { result ≢ 0 → result ≢ 102 → text_length.new ≡ text_length.old }
{
    match text_of(alloc, own) {
        Err(_) => MEMORY,
        Ok(text) => copy_text(text.as_slice(), out, text_length),
    }
}

// The text of the batches that a reader keeps.
#[tactic(auto, using(metric_text::specs::ListLaws::steps))]
fn text_of(alloc: Global, own: &HostedReader) -> Result<Vec<u8>, AllocError>
    ensures { IfOk result (λ text. text.items ≡ text_of own.now) }
{
    let mut text = Vec::new(alloc);
    let plan = own.plan.get();
    for batch in own.kept.as_slice() {
        push_batch(
            &mut text,
            plan.catalogue(),
            plan.config(),
            plan.streams(),
            batch,
        )?;
    }
    Ok(text)
}
