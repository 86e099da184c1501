//! The warnings that a config gets.
ghost use Rattle.std.specs.Prelude.{◌≡◌, ◌≢◌, ◌⊎◌, ◌++◌, IfOk, OnOk};
ghost use Rattle.std.specs.List.{flat_map};
ghost use Rattle.wormweekly_c.specs.Codes.{WhereHeld, recorder_in};
ghost use Rattle.wormweekly_c.specs.Names.{warnings_text};
ghost use Rattle.wormweekly_c.specs.Texts.{AnswersText};
ghost use Rattle.metric_lines.specs.Streams.{warning_text};

use crate::codes::{MEMORY, NOT_OPEN};
use crate::handles::Handle;
use crate::held::Held;
use crate::texts::copy_text;
use metric_lines::push_warning;
use metric_plan::Plan;
use metric_resolve::{Warning, resolve};
use std::alloc::{AllocError, Global};

/// Writes a line for each view of the plan that a recorder is of that does not fit an instrument, and for each
/// collision of streams (Metrics SDK, View), if there is room for all of them, and their length.
#[unsafe(no_mangle)]
pub extern "C" fn wormweekly_warnings(
    alloc: Global,
    recorder: &mut Handle,
    out: &mut [u8],
    text_length: &mut usize,
) -> u32
    ensures answer { WhereHeld (recorder_in recorder.old) (result ≡ 100) (λ own.
        AnswersText (warnings_text own.plan) out.old out.new text_length.new result
        ⊎ (result ≡ 11)) }
    ensures recorder { recorder.new.value ≡ recorder.old.value }
    ensures refused { result ≢ 0 → out.new ≡ out.old }
    ensures length { result ≢ 0 → result ≢ 102 → text_length.new ≡ text_length.old }
{
    let held = recorder.take(alloc);
    let code = match held.as_deref() {
        Some(Held::Recorder(own)) => write_warnings(alloc, own.plan.get(), out, text_length),
        _ => NOT_OPEN,
    };
    recorder.put(alloc, held);
    code
}

fn write_warnings(alloc: Global, plan: &Plan, out: &mut [u8], text_length: &mut usize) -> u32
    ensures answer { AnswersText (warnings_text plan.now) out.old out.new text_length.new result
        ⊎ (result ≡ 11) }
    ensures refused { result ≢ 0 → out.new ≡ out.old }
    ensures length { result ≢ 0 → result ≢ 102 → text_length.new ≡ text_length.old }
{
    match warnings_of(alloc, plan) {
        Err(_) => MEMORY,
        Ok(text) => copy_text(text.as_slice(), out, text_length),
    }
}

fn warnings_of(alloc: Global, plan: &Plan) -> Result<Vec<u8>, AllocError>
    ensures { IfOk result (λ text. text.items ≡ warnings_text plan.now) }
{
    let streams = resolve(alloc, plan.catalogue(), plan.config())?;
    let mut text = Vec::new(alloc);
    push_warnings(&mut text, streams.warnings())?;
    Ok(text)
}

#[tactic(auto, using(metric_text::specs::ListLaws::steps))]
fn push_warnings(text: &mut Vec<u8>, warnings: &[Warning]) -> Result<(), AllocError>
    ensures { OnOk result (text.new.items ≡ text.old.items ++ flat_map warning_text warnings.now) }
{
    for warning in warnings {
        push_warning(text, *warning)?;
    }
    Ok(())
}
