//! An exporter that replaces a page after each collection.
ghost use Rattle.std.specs.Prelude.{◌≡◌, ℕ, ◌⊎◌, [], ◌++◌, IfOk, List, None, OnOk, Result, map, slice_set};
ghost use Rattle.std.specs.List.{flat_map};
ghost use Rattle.metric_base.specs.Steps.{GivesBy, with_fault};
ghost use Rattle.metric_io.specs.declared.devices.Broken.{Broken};
ghost use Rattle.metric_exposition.specs.Pages.{end_text};
ghost use Rattle.metric_exposition.specs.Sections.{gathered};
ghost use Rattle.metric_exposition.specs.Targets.{target_text};
ghost use Rattle.metric_exposure.specs.Exposures.{exposure_faults};
ghost use Rattle.metric_exposure.specs.declared.outlet.Outlet.TheVariants.{Prometheus};
ghost use Rattle.metric_outlets.specs.PageCalls.{FlushesPage, HandsOnPage, KeepsLines, KeepsPage, ShutsPageDown};
ghost use Rattle.metric_outlets.specs.Served.{is_served, page_check, served_of, told_target};
ghost use Rattle.metric_exposition.specs.TargetFaults.{target_check};

use crate::outlet_fault::{OutletFault, told_target};
use crate::served::{Served, served_by_pages};
use metric_base::Items;
use metric_contents::Instrument;
use metric_export::{ExportFault, ExporterState, MetricExporter, own_batch};
use metric_exposition::{Dialect, Section, batch_sections, push_end, push_gathered, push_target};
use metric_history::Batch;
use metric_io::Broken;
use metric_plan::Plan;
use metric_resource::Resource;
use std::alloc::{AllocError, Global};
use std::marker::Model;

/// What pages are handed on to, as a file that a collector of text files reads.
///
/// Contracts see what it says of its calls, by which a caller can promise each page that was handed on.
pub trait Pages {
    // What the replacement of a page does, by the page and the answer.
    ghost replaces: { Self → Self → List ℕ → Result (Unit {0}) Broken → Type 0 };

    /// Replaces the page that was there as a whole: who reads sees the one or the other. [`Broken`] where it could not;
    /// the page before it may then stay. It may be asked again.
    fn replace(&mut self, page: &[u8]) -> Result<(), Broken>
        ensures { replaces self.old self.new page.now result };
}

/// An exporter that keeps the last lines of each instrument, and hands on the page of all of them at each flush: so
/// once after each collection of a
/// [`Periodic`](https://opentelemetry.io/docs/specs/otel/metrics/sdk/#periodic-exporting-metricreader) reader, and at a
/// shutdown. It is made for one reader, of whose streams a server would hold each sample, and refuses the batches of
/// another.
///
/// After a failure the next flush hands on the page of all lines again, so that no queue is needed before it. Contracts
/// see the reader, the format, what a page begins with, the lines of each instrument, what takes the pages, the count of
/// its failures, and the state.
#[derive(Drop)]
pub struct PageExporter<P> {
    served: Served,
    dialect: Dialect,
    target: Items<u8>,
    lines: Vec<Items<Section>>,
    pages: P,
    // The page, written anew at each flush.
    page: Vec<u8>,
    alloc: Global,
    failures: u64,
    state: ExporterState,
}

impl<P> Model for PageExporter<P> {
    ghost use Rattle.metric_outlets.specs.PageCalls.{PageExporterValue};

    ghost Value = { PageExporterValue P };

    ghost view = { λ e. record {
      served = e.served;
      dialect = e.dialect;
      target = e.target;
      lines = e.lines.items;
      pages = e.pages;
      failures = e.failures;
      state = e.state;
    } };
}

impl<P: Pages + Drop> PageExporter<P> {
    /// An exporter of pages of this format for a reader of the plan, with the attributes of this resource.
    ///
    /// # Errors
    ///
    /// - [`OutletFault::UnknownReader`].
    /// - [`OutletFault::Exposed`] where a server would lose a sample of the reader, or take it for another
    ///   ([`expose`](metric_exposure::expose)), as of a stream with delta temporality.
    /// - [`OutletFault::Target`] where the attributes of the resource can't be the labels of one line.
    /// - [`OutletFault::Memory`].
    ///
    /// What takes the pages is dropped then.
    pub fn new(
        alloc: Global,
        plan: &Plan,
        reader: u32,
        dialect: Dialect,
        resource: &Resource,
        pages: P,
    ) -> Result<PageExporter<P>, OutletFault>
        ensures check { GivesBy (λ _. tt) OutletFault.Memory result
            (page_check plan.now reader resource.now) }
        ensures passes { OnOk result
            (exposure_faults Prometheus plan.now.facts.contents plan.now.streams reader ≡ []) }
        ensures exporter { IfOk result (λ e. e ≡ record {
          served = served_of plan.now reader;
          dialect = dialect;
          target = target_text dialect resource.now;
          lines = map (λ _. []) plan.now.facts.contents.instruments;
          pages = pages;
          failures = 0;
          state = ExporterState.Open;
        }) }
    {
        let served = served_by_pages(alloc, plan, reader)?;
        let target = target_of(alloc, dialect, resource)?;
        let lines = no_lines(alloc, plan.catalogue().instruments())?;
        Ok(PageExporter {
            served,
            dialect,
            target,
            lines,
            pages,
            page: Vec::new(alloc),
            alloc,
            failures: 0,
            state: ExporterState::Open,
        })
    }

    /// What takes the pages, to look at it.
    pub fn pages(&self) -> &P
        ensures { result.now ≡ self.now.pages }
    {
        &self.pages
    }

    // Hands on the page of the lines that are kept.
    fn hand_on(&mut self) -> Result<(), ExportFault>
        ensures kept { KeepsPage self.old self.new }
        ensures state { self.new.state ≡ self.old.state }
        ensures handed { HandsOnPage P.replaces self.old self.new result
            ⊎ ((result ≡ Err ExportFault.Memory) × (self.new ≡ self.old)) }
    {
        fill_page(
            self.alloc,
            &mut self.page,
            self.dialect,
            self.target.as_slice(),
            self.lines.as_slice(),
        )?;
        match self.pages.replace(self.page.as_slice()) {
            Ok(()) => Ok(()),
            Err(_) => {
                self.failures = self.failures.saturating_add(1);
                Err(ExportFault::Write)
            }
        }
    }
}

// What a page begins with.
fn target_of(alloc: Global, dialect: Dialect, resource: &Resource) -> Result<Items<u8>, OutletFault>
    ensures check { GivesBy (λ _. tt) OutletFault.Memory result
        (with_fault told_target (target_check resource.now)) }
    ensures text { IfOk result (λ text. text ≡ target_text dialect resource.now) }
{
    let mut target = Vec::new(alloc);
    match push_target(alloc, &mut target, dialect, resource) {
        Ok(()) => Ok(Items::from_vec(target)),
        Err(fault) => Err(told_target(fault)),
    }
}

// No lines of each instrument.
fn no_lines(alloc: Global, instruments: &[Instrument]) -> Result<Vec<Items<Section>>, AllocError>
    ensures { IfOk result (λ lines. lines.items ≡ map (λ _. []) instruments.now) }
{
    instruments.iter().map(|_| Items::new(alloc)).collect(alloc)
}

// Makes this the page of these lines.
fn fill_page(
    alloc: Global,
    page: &mut Vec<u8>,
    dialect: Dialect,
    target: &[u8],
    lines: &[Items<Section>],
) -> Result<(), AllocError>
    ensures { OnOk result (page.new.items
        ≡ target.now ++ gathered (flat_map (λ lines. lines) lines.now) ++ end_text dialect) }
{
    page.clear();
    page.extend_from_slice(target)?;
    push_gathered(alloc, page, lines)?;
    push_end(page, dialect)
}

// Puts lines in place of those of an instrument, if there is one of this number.
fn put(lines: &mut Vec<Items<Section>>, instrument: u32, own: Items<Section>)
    ensures { lines.new.items ≡ slice_set lines.old.items instrument own }
{
    if let Some(place) = lines.get_mut(instrument as usize) {
        *place = own;
    }
}

impl<P: Pages + Drop> MetricExporter for PageExporter<P> {
    // A page is replaced, and nothing appended.
    ghost text = { λ _ _ _. [] };

    ghost contents = { λ _. None };

    ghost failures = { λ e. e.failures };

    ghost state = { λ e. e.state };

    ghost takes = { λ e. is_served e.served };

    ghost export_gives = { KeepsLines };

    ghost flush_gives = { FlushesPage P.replaces };

    ghost shutdown_gives = { ShutsPageDown P.replaces };

    fn takes(&self, plan: u64, reader: u32) -> bool {
        self.served.is(plan, reader)
    }

    fn export(&mut self, alloc: Global, plan: &Plan, batch: &Batch) -> Result<(), ExportFault> {
        self.state.admit()?;
        own_batch(plan, batch, self.served.is(batch.plan, batch.reader))?;
        let lines = batch_sections(alloc, self.dialect, plan.catalogue(), plan.streams(), batch)?;
        put(&mut self.lines, batch.instrument, lines);
        Ok(())
    }

    fn force_flush(&mut self) -> Result<(), ExportFault> {
        self.state.admit()?;
        self.hand_on()
    }

    fn retry(&mut self, _alloc: Global, _plan: &Plan) -> Result<(), ExportFault> {
        Ok(())
    }

    fn shutdown(&mut self) -> Result<(), ExportFault> {
        let answer = self.force_flush();
        self.state = ExporterState::ShutDown;
        answer
    }
}
