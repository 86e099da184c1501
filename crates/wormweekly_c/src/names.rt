//! The names that a plan declares.
ghost use Rattle.std.specs.Prelude.{◌≡◌, ◌≢◌, option_map};
ghost use Rattle.std.specs.Option.{MatchOption};
ghost use Rattle.wormweekly_c.specs.Codes.{WhereHeld, reader_in, recorder_in};
ghost use Rattle.wormweekly_c.specs.Names.{instrument_name, name_of, reader_name, recorder_name};
ghost use Rattle.wormweekly_c.specs.Texts.{AnswersText};

use crate::codes::NOT_OPEN;
use crate::handles::Handle;
use crate::held::Held;
use crate::texts::write_found;
use metric_catalogue::Catalogue;
use metric_meaning::meter_name;
use metric_plan::Plan;
use metric_views::Config;
use std::alloc::Global;

/// Writes a name of the plan that a recorder is of, if there is room for all of it, and its length: of the instrument
/// of a number (0), of that one's meter (1), of the recorder (2) or of the reader (3) of a number.
#[unsafe(no_mangle)]
pub extern "C" fn wormweekly_name(
    alloc: Global,
    recorder: &mut Handle,
    kind: u32,
    number: u32,
    out: &mut [u8],
    text_length: &mut usize,
) -> u32
    ensures answer { WhereHeld (recorder_in recorder.old) (result ≡ 100) (λ own.
        MatchOption (name_of own.plan kind number) (result ≡ 106) (λ name.
        AnswersText name out.old out.new text_length.new result)) }
    ensures recorder { recorder.new.value ≡ recorder.old.value }
    ensures refused { result ≢ 0 → out.new ≡ out.old }
    ensures length { result ≢ 0 → result ≢ 102 → text_length.new ≡ text_length.old }
{
    let held = recorder.take(alloc);
    let code = match held.as_deref() {
        Some(Held::Recorder(own)) => write_found(
            name_of(own.plan.get(), kind, number as usize),
            out,
            text_length,
        ),
        _ => NOT_OPEN,
    };
    recorder.put(alloc, held);
    code
}

/// Writes the same names of the plan that a reader is of.
#[unsafe(no_mangle)]
pub extern "C" fn wormweekly_reader_name(
    alloc: Global,
    reader: &mut Handle,
    kind: u32,
    number: u32,
    out: &mut [u8],
    text_length: &mut usize,
) -> u32
    ensures answer { WhereHeld (reader_in reader.old) (result ≡ 100) (λ own.
        MatchOption (name_of own.plan kind number) (result ≡ 106) (λ name.
        AnswersText name out.old out.new text_length.new result)) }
    ensures reader { reader.new.value ≡ reader.old.value }
    ensures refused { result ≢ 0 → out.new ≡ out.old }
    ensures length { result ≢ 0 → result ≢ 102 → text_length.new ≡ text_length.old }
{
    let held = reader.take(alloc);
    let code = match held.as_deref() {
        Some(Held::Reader(own)) => write_found(
            name_of(own.plan.get(), kind, number as usize),
            out,
            text_length,
        ),
        _ => NOT_OPEN,
    };
    reader.put(alloc, held);
    code
}

fn name_of(plan: &Plan, kind: u32, number: usize) -> Option<&str>
    ensures { option_map (λ name. name.now) result ≡ name_of plan.now kind number }
{
    match kind {
        0 => instrument_name(plan.catalogue(), number),
        1 => meter_name(plan.catalogue(), number),
        2 => recorder_name(plan.catalogue(), number),
        3 => reader_name(plan.config(), number),
        _ => None,
    }
}

fn instrument_name(catalogue: &Catalogue, number: usize) -> Option<&str>
    ensures { option_map (λ name. name.now) result ≡ instrument_name catalogue.now number }
{
    let instrument = catalogue.instruments().get(number)?;
    Some(instrument.name.get().as_str())
}

fn recorder_name(catalogue: &Catalogue, number: usize) -> Option<&str>
    ensures { option_map (λ name. name.now) result ≡ recorder_name catalogue.now number }
{
    let recorder = catalogue.recorders().get(number)?;
    Some(recorder.name.as_str())
}

fn reader_name(config: &Config, number: usize) -> Option<&str>
    ensures { option_map (λ name. name.now) result ≡ reader_name config.now number }
{
    let reader = config.readers().get(number)?;
    Some(reader.name.as_str())
}
