//! Remarks on a catalogue and a config.
ghost use Rattle.std.specs.Prelude.{◌≡◌, ◌≢◌, ◌++◌, ◌&&◌, true, IfErr, IfOk, OnOk};
ghost use Rattle.std.specs.Str.{is_utf8};
ghost use Rattle.wormweekly_c.specs.Linting.{AnswersLint, PushesLine, PushesLines, TellsPair, TellsRemarks, more_text};
ghost use Rattle.wormweekly_c.specs.Opening.{HasFault};
ghost use Rattle.wormweekly_c.specs.Refusing.{IsWhy};

use crate::codes::{MEMORY, NO_TEXT};
use crate::no_plan::{NoPlan, tell};
use crate::pairs::{declared_of, pair_of};
use crate::telling::{fault_message, push_told};
use crate::texts::copy_text;
use metric_lint::{Remark, lint};
use metric_messages::{Pair, diagnose_remark};
use metric_text::{push_byte, push_numbered, push_text};
use std::alloc::{AllocError, Global};
use std::str::from_utf8;

// So many remarks are told, since the place of each is looked for in the texts.
const MOST_REMARKS: usize = 100;

/// Writes a line for each remark on a catalogue and a config, as `wormweekly lint` tells them, where there is room for
/// all of them, and their length: at most a hundred, and how many more there are. A fault is written in their place as
/// far as there is room, with its whole length. That the two are not safe together is a remark.
#[unsafe(no_mangle)]
pub extern "C" fn wormweekly_lint(
    alloc: Global,
    catalogue: &[u8],
    config: &[u8],
    out: &mut [u8],
    text_length: &mut usize,
) -> u32
    ensures answer { AnswersLint catalogue.now config.now out.old out.new text_length.new result }
    ensures refused { result ≢ 0 → result ≢ 103 → out.new ≡ out.old }
    ensures length { result ≢ 0 → result ≢ 102 → result ≢ 103
        → text_length.new ≡ text_length.old }
{
    match remarks_for(alloc, catalogue, config) {
        Err(NoPlan::NoText) => NO_TEXT,
        Err(NoPlan::Memory) => MEMORY,
        Err(NoPlan::Fault(text)) => tell(text.as_slice(), out, text_length),
        Ok(text) => copy_text(text.as_slice(), out, text_length),
    }
}

// The remarks on two texts.
fn remarks_for(alloc: Global, catalogue: &[u8], config: &[u8]) -> Result<Vec<u8>, NoPlan>
    ensures told { IfOk result (λ text. TellsRemarks catalogue.now config.now text.items) }
    ensures why { IfErr result (IsWhy (is_utf8 catalogue.now && is_utf8 config.now)
        (HasFault catalogue.now config.now)) }
{
    let Ok(catalogue) = from_utf8(catalogue) else {
        return Err(NoPlan::NoText);
    };
    let Ok(config) = from_utf8(config) else {
        return Err(NoPlan::NoText);
    };
    remarks_of(alloc, catalogue, config)
}

// The remarks on two texts that are read in this order.
fn remarks_of(alloc: Global, catalogue: &str, config: &str) -> Result<Vec<u8>, NoPlan>
    ensures told { IfOk result (λ text. TellsRemarks catalogue.now config.now text.items) }
    ensures why { IfErr result (IsWhy true (HasFault catalogue.now config.now)) }
{
    match declared_of(alloc, catalogue, config) {
        Err(fault) => match fault_message(alloc, catalogue, config, "", fault) {
            Ok(text) => Err(NoPlan::Fault(text)),
            Err(_) => Err(NoPlan::Memory),
        },
        Ok(declared) => match lines_of(alloc, pair_of(&declared, catalogue, config)) {
            Ok(text) => Ok(text),
            Err(_) => Err(NoPlan::Memory),
        },
    }
}

// The lines for the first remarks on a catalogue and a config, and how many more there are.
fn lines_of(alloc: Global, pair: Pair<'_>) -> Result<Vec<u8>, AllocError>
    ensures { IfOk result (λ text. TellsPair pair.entry text.items) }
{
    let remarks = lint(alloc, pair.catalogue, pair.config)?;
    let count = remarks.len().min(MOST_REMARKS);
    let mut text = Vec::new(alloc);
    push_remarks(alloc, &mut text, pair, &remarks.as_slice()[..count])?;
    push_more(&mut text, remarks.len())?;
    Ok(text)
}

// Writes a line for each of these remarks.
fn push_remarks(
    alloc: Global,
    out: &mut Vec<u8>,
    pair: Pair<'_>,
    remarks: &[Remark],
) -> Result<(), AllocError>
    ensures { OnOk result (PushesLines pair.entry remarks.now out.old.items out.new.items) }
{
    for remark in remarks {
        push_remark(alloc, out, pair, remark)?;
    }
    Ok(())
}

fn push_remark(
    alloc: Global,
    out: &mut Vec<u8>,
    pair: Pair<'_>,
    remark: &Remark,
) -> Result<(), AllocError>
    ensures { OnOk result (PushesLine pair.entry remark.now out.old.items out.new.items) }
{
    let told = diagnose_remark(alloc, pair, *remark)?;
    push_told(out, &told)?;
    push_byte(out, b'\n')
}

// Writes how many remarks there are beside those that are told, where there are any.
fn push_more(out: &mut Vec<u8>, count: usize) -> Result<(), AllocError>
    ensures { OnOk result (out.new.items ≡ out.old.items ++ more_text count) }
{
    if count <= MOST_REMARKS {
        return Ok(());
    }
    push_numbered(out, "and ", (count - MOST_REMARKS) as u64)?;
    push_text(out, " more remarks\n")
}
