//! What a recording is refused for.
ghost use Rattle.std.specs.Prelude.{◌≡◌, ◌≢◌, ◌⊎◌, ◌++◌, IfOk, codes, map};
ghost use Rattle.std.specs.Option.{option_map};
ghost use Rattle.metric_lint.specs.Explanations.{explained, told_of};
ghost use Rattle.wormweekly_c.specs.Attributes.{attributes_from, looked_at};
ghost use Rattle.wormweekly_c.specs.Codes.{WhereHeld, recorder_in};
ghost use Rattle.wormweekly_c.specs.Explaining.{AnswersExplained, AnswersExplanation, BeginsWith, IsExplanation};
ghost use Rattle.metric_contents.specs.Attributes.{given_by};
ghost use Rattle.metric_text.specs.Lists.{numbered};

use crate::attributes::{Attribute, Unread, all_attributes, looked_at};
use crate::codes::{MEMORY, NO_TEXT, NOT_OPEN};
use crate::handles::Handle;
use crate::held::Held;
use crate::texts::copy_text;
use metric_contents::Attr;
use metric_hosted::HostedRecorder;
use metric_lint::{Explanation, Mistake, explain_refusal};
use metric_plan::Plan;
use metric_text::{push_numbered, push_text};
use std::alloc::{AllocError, Global};

/// Writes what a recording of a value with attributes on the instrument of a number is refused for, of what it says:
/// the instrument, and its first mistake with the key, the value or the range, if there is room for all of it, and its
/// length. The text is empty where all that it says is in order. Nothing is recorded.
#[unsafe(no_mangle)]
pub extern "C" fn wormweekly_explain(
    alloc: Global,
    recorder: &mut Handle,
    instrument: u32,
    texts: &[u8],
    given: &[Attribute],
    value: i64,
    out: &mut [u8],
    text_length: &mut usize,
) -> u32
    ensures answer { let read = attributes_from (looked_at given.now) texts.now in
        WhereHeld (recorder_in recorder.old) (result ≡ 100) (λ own.
        AnswersExplained own.plan instrument read value out.old out.new text_length.new result) }
    ensures recorder { recorder.new.value ≡ recorder.old.value }
    ensures refused { result ≢ 0 → out.new ≡ out.old }
    ensures length { result ≢ 0 → result ≢ 102 → text_length.new ≡ text_length.old }
{
    let held = recorder.take(alloc);
    let code = match held.as_deref() {
        Some(Held::Recorder(own)) => explain_given(
            alloc,
            own,
            instrument,
            texts,
            looked_at(given),
            value,
            out,
            text_length,
        ),
        _ => NOT_OPEN,
    };
    recorder.put(alloc, held);
    code
}

// Reads the attributes, and writes what is told of them.
fn explain_given(
    alloc: Global,
    own: &HostedRecorder,
    instrument: u32,
    texts: &[u8],
    given: &[Attribute],
    value: i64,
    out: &mut [u8],
    text_length: &mut usize,
) -> u32
    ensures answer { let read = attributes_from given.now texts.now in
        AnswersExplained own.now.plan instrument read value out.old out.new text_length.new
        result }
    ensures refused { result ≢ 0 → out.new ≡ out.old }
    ensures length { result ≢ 0 → result ≢ 102 → text_length.new ≡ text_length.old }
{
    match all_attributes(alloc, texts, given) {
        Err(Unread::NoText) => NO_TEXT,
        Err(Unread::Memory) => MEMORY,
        Ok(attrs) => {
            let plan = own.plan.get();
            write_explained(
                alloc,
                plan,
                instrument,
                attrs.as_slice(),
                value,
                out,
                text_length,
            )
        }
    }
}

fn write_explained(
    alloc: Global,
    plan: &Plan,
    instrument: u32,
    attrs: &[Attr<'_>],
    value: i64,
    out: &mut [u8],
    text_length: &mut usize,
) -> u32
    ensures answer { let attrs = map given_by attrs.now in
        let told = explained plan.now.facts.contents.instruments instrument attrs value in
        AnswersExplanation told out.old out.new text_length.new result ⊎ (result ≡ 11) }
    ensures refused { result ≢ 0 → out.new ≡ out.old }
    ensures length { result ≢ 0 → result ≢ 102 → text_length.new ≡ text_length.old }
{
    let explanation = explain_refusal(plan.catalogue(), instrument, attrs, value);
    match explanation_text(alloc, explanation) {
        Err(_) => MEMORY,
        Ok(text) => copy_text(text.as_slice(), out, text_length),
    }
}

fn explanation_text(
    alloc: Global,
    explanation: Option<Explanation<'_>>,
) -> Result<Vec<u8>, AllocError>
    ensures { IfOk result (λ text.
        IsExplanation (option_map told_of explanation.entry) text.items) }
{
    match explanation {
        None => Ok(Vec::new(alloc)),
        Some(Explanation::UnknownInstrument(number)) => no_instrument(alloc, number),
        Some(Explanation::On(name, mistake)) => mistake_text(alloc, name, mistake),
    }
}

fn no_instrument(alloc: Global, number: u32) -> Result<Vec<u8>, AllocError>
    ensures { IfOk result (λ text.
        text.items ≡ numbered (codes "there is no instrument ") number) }
{
    let mut text = Vec::new(alloc);
    push_numbered(&mut text, "there is no instrument ", u64::from(number))?;
    Ok(text)
}

// A mistake behind the name of its instrument.
fn mistake_text(alloc: Global, name: &str, mistake: Mistake<'_>) -> Result<Vec<u8>, AllocError>
    ensures { IfOk result (λ text. BeginsWith (name.now ++ codes ": ") text.items) }
{
    let words = cut(alloc, format!(in alloc; "{mistake}")?)?;
    let mut text = Vec::new(alloc);
    push_text(&mut text, name)?;
    push_text(&mut text, ": ")?;
    push_text(&mut text, words.as_str())?;
    Ok(text)
}

// So many characters of a mistake are told: a stranger may have chosen the attributes.
const MOST: usize = 400;

// Words that are cut where they are long.
fn cut(alloc: Global, words: String) -> Result<String, AllocError> {
    if words.as_str().chars().count() <= MOST {
        return Ok(words);
    }
    let mut front = String::new(alloc);
    for character in words.as_str().chars().take(MOST) {
        front.push(character)?;
    }
    front.push_str("..")?;
    Ok(front)
}
