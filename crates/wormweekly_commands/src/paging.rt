//! A script replayed, of which the page of a reader is printed.
ghost use Rattle.std.specs.Prelude.{◌≡◌, ◌≤◌, IfOk, Ok, length, map};
ghost use Rattle.metric_kit_commands.specs.Commands.{HasNeeded, sink_run};
ghost use Rattle.metric_kit_commands.specs.Replaying.{needs_of, plain_options};
ghost use Rattle.metric_exposition.specs.Pages.{end_text};
ghost use Rattle.metric_exposition.specs.TargetFaults.{target_check};
ghost use Rattle.metric_exposition.specs.Targets.{target_text};
ghost use Rattle.wormweekly_commands.specs.Paging.{IsHead, IsPageEnd, IsReaderFound, IsReaderRead, ReplaysPage};
ghost use Rattle.wormweekly_commands.specs.PageReaders.{reader_asked};
ghost use Rattle.wormweekly_commands.specs.Paging.{dialect_of, exposed, exposed_by, of_target, page_reader, sections_of};

use crate::fault::{ConsoleFault, PageFault};
use crate::page_readers::reader_asked;
use metric_base::{Items, Text};
use metric_catalogue::Catalogue;
use metric_command_lines::{Form, Request};
use metric_exposition::{
    Dialect, Section, TargetFault, batch_sections, push_end, push_gathered, push_target,
};
use metric_exposure::{ExposureFault, Outlet, exposure_faults};
use metric_history::Batch;
use metric_io::Sink;
use metric_kit_commands::{KitFault, PageEncoding, PageForm, declared_of, replay_page};
use metric_parts::Parts;
use metric_plan::Plan;
use metric_resolve::resolve_streams;
use metric_resource::Resource;
use metric_views::{Config, Reader, Stream};
use std::alloc::{AllocError, Global};

/// The format of the page that a form is, where it is one.
pub(crate) fn dialect_of(form: Form) -> Option<Dialect>
    ensures { result ≡ dialect_of form }
{
    match form {
        Form::Replies | Form::OtlpLines | Form::OtlpBytes => None,
        Form::Prometheus => Some(Dialect::Text),
        Form::OpenMetrics => Some(Dialect::OpenMetrics),
        Form::OpenMetricsCreated => Some(Dialect::OpenMetricsCreated),
    }
}

// How batches are written in a page.
#[derive(Clone, Copy)]
struct Lines {
    dialect: Dialect,
}

impl PageEncoding for Lines {
    ghost use Rattle.wormweekly_commands.specs.PageLines.{lines_text};

    ghost text = { lines_text };

    fn push_page(
        &self,
        alloc: Global,
        out: &mut Vec<u8>,
        plan: &Plan,
        batches: &[Option<Batch>],
    ) -> Result<(), AllocError> {
        let sections = all_sections(alloc, self.dialect, plan, batches)?;
        push_gathered(alloc, out, sections.as_slice())
    }
}

// The sections of each batch.
fn all_sections(
    alloc: Global,
    dialect: Dialect,
    plan: &Plan,
    batches: &[Option<Batch>],
) -> Result<Vec<Items<Section>>, AllocError>
    ensures { IfOk result (λ all. all.items ≡ map (sections_of dialect plan.now) batches.now) }
{
    let mut all = Vec::new(alloc);
    for batch in batches {
        all.push(sections_of(alloc, dialect, plan, batch)?)?;
    }
    Ok(all)
}

// Those of a batch, where there is one.
fn sections_of(
    alloc: Global,
    dialect: Dialect,
    plan: &Plan,
    batch: &Option<Batch>,
) -> Result<Items<Section>, AllocError>
    ensures { IfOk result (λ sections. sections ≡ sections_of dialect plan.now batch.now) }
{
    match batch {
        Some(batch) => batch_sections(alloc, dialect, plan.catalogue(), plan.streams(), batch),
        None => Ok(Items::new(alloc)),
    }
}

/// Replays the script of parts, and prints the page of what a reader collected last of each instrument, with the
/// attributes of the resource. A replay is refused before it begins where these can't be the labels of one line, where
/// the reader is not known, and where a server would not hold each sample of it.
pub(crate) fn replay_as_page<W: Sink>(
    alloc: Global,
    request: &Request,
    dialect: Dialect,
    parts: &Parts<'_>,
    trial: bool,
    sink: &mut W,
) -> Result<(), ConsoleFault>
    requires { HasNeeded (needs_of (plain_options trial)) parts.now }
    ensures { ReplaysPage request.now parts.now dialect trial
        (sink_run W.contents W.failures sink.old sink.new) result }
{
    match head_of(alloc, dialect, &request.resource) {
        Ok(head) => {
            let head = head.as_slice();
            replay_behind(alloc, request, dialect, head, parts, trial, sink)
        }
        Err(fault) => Err(fault),
    }
}

// The same behind what a page of the resource begins with.
fn replay_behind<W: Sink>(
    alloc: Global,
    request: &Request,
    dialect: Dialect,
    head: &[u8],
    parts: &Parts<'_>,
    trial: bool,
    sink: &mut W,
) -> Result<(), ConsoleFault>
    requires needed { HasNeeded (needs_of (plain_options trial)) parts.now }
    requires labelled { target_check request.now.resource ≡ Ok tt }
    requires head { head.now ≡ target_text dialect request.now.resource }
    ensures { ReplaysPage request.now parts.now dialect trial
        (sink_run W.contents W.failures sink.old sink.new) result }
{
    match reader_of(alloc, &request.reader, parts) {
        Ok(reader) => replay_of(alloc, dialect, head, reader, parts, trial, sink),
        Err(fault) => Err(fault),
    }
}

// The same of a reader.
fn replay_of<W: Sink>(
    alloc: Global,
    dialect: Dialect,
    head: &[u8],
    reader: u32,
    parts: &Parts<'_>,
    trial: bool,
    sink: &mut W,
) -> Result<(), ConsoleFault>
    requires { HasNeeded (needs_of (plain_options trial)) parts.now }
    ensures { IsPageEnd dialect reader head.now trial parts.now
        (sink_run W.contents W.failures sink.old sink.new) result }
{
    let tail = tail_of(alloc, dialect)?;
    let form = PageForm {
        head,
        reader,
        encoding: &Lines { dialect },
        tail: &tail,
    };
    replay_page(alloc, trial, &form, parts, sink)?;
    Ok(())
}

// What a page of a resource begins with.
fn head_of(alloc: Global, dialect: Dialect, resource: &Resource) -> Result<Items<u8>, ConsoleFault>
    ensures { IsHead dialect resource.now result }
{
    let mut head = Vec::new(alloc);
    match push_target(alloc, &mut head, dialect, resource) {
        Ok(()) => Ok(Items::from_vec(head)),
        Err(fault) => Err(of_target(fault)),
    }
}

// A fault of a target, as one of the console.
fn of_target(fault: TargetFault) -> ConsoleFault
    ensures { result ≡ of_target fault }
{
    match fault {
        TargetFault::BadLabel { attribute } => {
            ConsoleFault::Page(PageFault::BadLabel { attribute })
        }
        TargetFault::LabelCollision { attribute, other } => {
            ConsoleFault::Page(PageFault::LabelCollision { attribute, other })
        }
        TargetFault::Memory => ConsoleFault::Kit(KitFault::Memory),
    }
}

// What a page ends with.
fn tail_of(alloc: Global, dialect: Dialect) -> Result<Vec<u8>, AllocError>
    ensures { IfOk result (λ tail. tail.items ≡ end_text dialect) }
{
    let mut tail = Vec::new(alloc);
    push_end(&mut tail, dialect)?;
    Ok(tail)
}

// The number of the reader whose page is asked for.
fn reader_of(alloc: Global, name: &Option<Text>, parts: &Parts<'_>) -> Result<u32, ConsoleFault>
    ensures { IsReaderRead name.now parts.now result }
{
    let declared = declared_of(alloc, parts)?;
    page_reader(alloc, name, &declared.catalogue, &declared.config)
}

// The same of what the parts declare.
fn page_reader(
    alloc: Global,
    name: &Option<Text>,
    catalogue: &Catalogue,
    config: &Config,
) -> Result<u32, ConsoleFault>
    ensures { IsReaderFound (page_reader name.now catalogue.now config.now) result }
{
    let streams = resolve_streams(alloc, catalogue, config)?;
    reader_in(alloc, name, catalogue, config.readers(), streams.as_slice())
}

/// The same of the streams of all readers.
pub(crate) fn reader_in(
    alloc: Global,
    name: &Option<Text>,
    catalogue: &Catalogue,
    readers: &[Reader],
    streams: &[Stream],
) -> Result<u32, ConsoleFault>
    requires { length readers.now ≤ 16 }
    ensures { IsReaderFound (exposed catalogue.now streams.now
        (reader_asked name.now readers.now streams.now)) result }
{
    match reader_asked(name, readers, streams) {
        Ok(reader) => exposed(alloc, catalogue, streams, reader),
        Err(fault) => Err(ConsoleFault::Page(fault)),
    }
}

// The reader, where its streams can stand in a page.
fn exposed(
    alloc: Global,
    catalogue: &Catalogue,
    streams: &[Stream],
    reader: u32,
) -> Result<u32, ConsoleFault>
    ensures { IsReaderFound (exposed catalogue.now streams.now (Ok reader)) result }
{
    let faults = exposure_faults(alloc, catalogue, streams, reader, Outlet::Prometheus)?;
    match exposed_by(faults.as_slice(), reader) {
        Ok(reader) => Ok(reader),
        Err(fault) => Err(ConsoleFault::Page(fault)),
    }
}

// The reader, where there is no fault, else the first.
fn exposed_by(faults: &[ExposureFault], reader: u32) -> Result<u32, PageFault>
    ensures { result ≡ exposed_by faults.now reader }
{
    match faults.first() {
        None => Ok(reader),
        Some(fault) => Err(PageFault::Exposure(*fault)),
    }
}
