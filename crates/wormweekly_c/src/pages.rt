//! Batches and resources as lines of a page for Prometheus.
ghost use Rattle.std.specs.Prelude.{◌≡◌, ◌≢◌, ◌⊎◌, IfOk, map};
ghost use Rattle.metric_exposition.specs.Sections.{batch_sections};
ghost use Rattle.metric_base.specs.Steps.{GivesBy};
ghost use Rattle.std.specs.Option.{MatchOption};
ghost use Rattle.wormweekly_c.specs.Codes.{WhereHeld, reader_in};
ghost use Rattle.wormweekly_c.specs.Pages.{AnswersLines, AnswersTarget, dialect_of, kept_lines, number_of_target};
ghost use Rattle.wormweekly_c.specs.Resources.{resource_from};
ghost use Rattle.wormweekly_c.specs.Texts.{AnswersText};
ghost use Rattle.metric_exposition.specs.TargetFaults.{target_check};
ghost use Rattle.metric_exposition.specs.Targets.{target_text};

use crate::attributes::Attribute;
use crate::codes::{BAD_LABEL, LABEL_COLLISION, MEMORY, NOT_OPEN, UNKNOWN};
use crate::handles::Handle;
use crate::held::Held;
use crate::resources::{code_of, resource_from};
use crate::texts::copy_text;
use metric_base::Items;
use metric_exposition::{
    Dialect, Section, TargetFault, batch_sections, push_gathered, push_target,
};
use metric_hosted::HostedReader;
use metric_resource::Resource;
use std::alloc::{AllocError, Global};

/// Writes the lines of the batches that a reader keeps in a format of a number, if there is room for all of them, and
/// their length: the text format 0.0.4 (0), OpenMetrics 1.0 (1), or that with lines `_created` (2). Those of one family
/// stand together. There are none before a batch. A page is the lines of a resource, those of the batches of all
/// instruments, and in OpenMetrics the line `# EOF`.
#[unsafe(no_mangle)]
pub extern "C" fn wormweekly_prometheus(
    alloc: Global,
    reader: &mut Handle,
    dialect: u32,
    out: &mut [u8],
    text_length: &mut usize,
) -> u32
    ensures answer { WhereHeld (reader_in reader.old) (result ≡ 100) (λ own.
        MatchOption (dialect_of dialect) (result ≡ 106) (λ d.
        AnswersText (kept_lines own d) out.old out.new text_length.new result ⊎ (result ≡ 11))) }
    ensures reader { reader.new.value ≡ reader.old.value }
    ensures refused { result ≢ 0 → out.new ≡ out.old }
    ensures length { result ≢ 0 → result ≢ 102 → text_length.new ≡ text_length.old }
{
    let held = reader.take(alloc);
    let code = match held.as_deref() {
        Some(Held::Reader(own)) => write_lines(alloc, own, dialect, out, text_length),
        _ => NOT_OPEN,
    };
    reader.put(alloc, held);
    code
}

fn write_lines(
    alloc: Global,
    own: &HostedReader,
    dialect: u32,
    out: &mut [u8],
    text_length: &mut usize,
) -> u32
    ensures answer { MatchOption (dialect_of dialect) (result ≡ 106) (λ d.
        AnswersText (kept_lines own.now d) out.old out.new text_length.new result
        ⊎ (result ≡ 11)) }
    ensures refused { result ≢ 0 → out.new ≡ out.old }
    ensures length { result ≢ 0 → result ≢ 102 → text_length.new ≡ text_length.old }
{
    match dialect_of(dialect) {
        None => UNKNOWN,
        Some(dialect) => match kept_lines(alloc, own, dialect) {
            Err(_) => MEMORY,
            Ok(text) => copy_text(text.as_slice(), out, text_length),
        },
    }
}

fn dialect_of(number: u32) -> Option<Dialect>
    ensures { result ≡ dialect_of number }
{
    match number {
        0 => Some(Dialect::Text),
        1 => Some(Dialect::OpenMetrics),
        2 => Some(Dialect::OpenMetricsCreated),
        _ => None,
    }
}

// The lines of the batches that a reader keeps.
fn kept_lines(alloc: Global, own: &HostedReader, dialect: Dialect) -> Result<Vec<u8>, AllocError>
    ensures { IfOk result (λ text. text.items ≡ kept_lines own.now dialect) }
{
    let sections = kept_sections(alloc, own, dialect)?;
    let mut out = Vec::new(alloc);
    push_gathered(alloc, &mut out, sections.as_slice())?;
    Ok(out)
}

// The sections of each batch that a reader keeps.
fn kept_sections(
    alloc: Global,
    own: &HostedReader,
    dialect: Dialect,
) -> Result<Vec<Items<Section>>, AllocError>
    ensures { IfOk result (λ all. all.items ≡ map (batch_sections dialect
        own.now.plan.facts.contents own.now.plan.streams) own.now.kept) }
{
    let mut all = Vec::new(alloc);
    let plan = own.plan.get();
    for batch in own.kept.as_slice() {
        all.push(batch_sections(alloc, dialect, plan.catalogue(), plan.streams(), batch)?)?;
    }
    Ok(all)
}

/// Writes the lines of a resource in a format of a number, under the same rule. One without attributes has none, and
/// one whose attributes can't be the labels of one line is refused.
#[unsafe(no_mangle)]
pub extern "C" fn wormweekly_prometheus_target(
    alloc: Global,
    dialect: u32,
    texts: &[u8],
    given: &[Attribute],
    out: &mut [u8],
    text_length: &mut usize,
) -> u32
    ensures answer { let read = resource_from given.now texts.now in
        MatchOption (dialect_of dialect) (result ≡ 106) (λ d.
        AnswersTarget read out.old out.new text_length.new result d ⊎ (result ≡ 11)) }
    ensures refused { result ≢ 0 → out.new ≡ out.old }
    ensures length { result ≢ 0 → result ≢ 102 → text_length.new ≡ text_length.old }
{
    match dialect_of(dialect) {
        None => UNKNOWN,
        Some(dialect) => write_given(alloc, dialect, texts, given, out, text_length),
    }
}

fn write_given(
    alloc: Global,
    dialect: Dialect,
    texts: &[u8],
    given: &[Attribute],
    out: &mut [u8],
    text_length: &mut usize,
) -> u32
    ensures answer { let read = resource_from given.now texts.now in
        AnswersTarget read out.old out.new text_length.new result dialect ⊎ (result ≡ 11) }
    ensures refused { result ≢ 0 → out.new ≡ out.old }
    ensures length { result ≢ 0 → result ≢ 102 → text_length.new ≡ text_length.old }
{
    match resource_from(alloc, texts, given) {
        Err(why) => code_of(&why),
        Ok(resource) => write_target(alloc, dialect, &resource, out, text_length),
    }
}

fn write_target(
    alloc: Global,
    dialect: Dialect,
    resource: &Resource,
    out: &mut [u8],
    text_length: &mut usize,
) -> u32
    ensures answer { AnswersLines (target_check resource.now) resource.now out.old out.new
        text_length.new result dialect ⊎ (result ≡ 11) }
    ensures refused { result ≢ 0 → out.new ≡ out.old }
    ensures length { result ≢ 0 → result ≢ 102 → text_length.new ≡ text_length.old }
{
    match target_of(alloc, dialect, resource) {
        Err(fault) => number_of_target(fault),
        Ok(text) => copy_text(text.as_slice(), out, text_length),
    }
}

// The number that tells why a resource has no lines.
fn number_of_target(fault: TargetFault) -> u32
    ensures { result ≡ number_of_target fault }
{
    match fault {
        TargetFault::BadLabel { .. } => BAD_LABEL,
        TargetFault::LabelCollision { .. } => LABEL_COLLISION,
        TargetFault::Memory => MEMORY,
    }
}

fn target_of(alloc: Global, dialect: Dialect, resource: &Resource) -> Result<Vec<u8>, TargetFault>
    ensures check { GivesBy (λ _. tt) TargetFault.Memory result (target_check resource.now) }
    ensures text { IfOk result (λ text. text.items ≡ target_text dialect resource.now) }
{
    let mut out = Vec::new(alloc);
    push_target(alloc, &mut out, dialect, resource)?;
    Ok(out)
}
