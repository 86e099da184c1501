//! What queries ask for that no page can have.
ghost use Rattle.std.specs.Prelude.{◌≡◌, IfErr, IfOk, OnOk};
ghost use Rattle.wormweekly_commands.specs.Answers.{AreRight};
ghost use Rattle.wormweekly_commands.specs.Faults.{IsDeviceFault, IsRefusal};
ghost use Rattle.wormweekly_commands.specs.Queries.{IsQueriesStatus, IsReadersFault, RefusesQueries};

use crate::concerns::denies;
use crate::delivering::{flush, print};
use crate::fault::{ConsoleFault, of_sheet};
use crate::judged::{Found, Pages, Told, judge_files};
use crate::message::{TITLES, put_position};
use crate::noting::{MOST_NOTES, print_more};
use crate::paging::{dialect_of, reader_in};
use crate::parts::Texts;
use crate::telling::pair_of;
use metric_base::{Items, Text};
use metric_command_lines::Request;
use metric_exposition::Dialect;
use metric_exposure::{Outlet, exposure_faults};
use metric_io::Sink;
use metric_kit_commands::{Declared, KitFault, declared_of};
use metric_queries::{Served, add_page};
use metric_resolve::resolve_streams;
use metric_sheet::{Cell, Row, Sheet, write_json};
use metric_views::Stream;
use std::alloc::{AllocError, Global};

/// Writes what queries ask for that no page can have. The exit status: 1 where a kind of it is denied.
pub(crate) fn run_queries<W: Sink, E: Sink>(
    alloc: Global,
    request: &Request,
    texts: &Texts,
    sink: &mut W,
    errors: &mut E,
) -> Result<u8, ConsoleFault>
    ensures right { OnOk result (AreRight texts.now.parts) }
    ensures status { IfOk result (λ status. IsQueriesStatus request.now.concerns.denied status) }
    ensures first { IfErr result (RefusesQueries texts.now.parts) }
    ensures untouched { IfErr result (λ fault. IsRefusal fault
        → W.contents sink.new ≡ W.contents sink.old) }
{
    let found = found_of(alloc, request, texts)?;
    print_told(alloc, request, found.told.as_slice(), sink)?;
    tell_left_out(alloc, &found, errors);
    let denied = request.concerns.denied.as_slice();
    Ok(status_of(denied, found.told.as_slice()))
}

// The exit status of what is told.
fn status_of(denied: &[Text], told: &[Told]) -> u8
    ensures { IsQueriesStatus denied.now result }
{
    if denied.is_empty() {
        return 0;
    }
    if told.iter().any(|one| denies(denied, one.kind.name())) {
        1
    } else {
        0
    }
}

// What is told of the files of queries.
fn found_of(alloc: Global, request: &Request, texts: &Texts) -> Result<Found, ConsoleFault>
    ensures right { OnOk result (AreRight texts.now.parts) }
    ensures first { IfErr result (RefusesQueries texts.now.parts) }
{
    let declared = declared_of(alloc, &texts.parts)?;
    let streams = resolve_streams(alloc, &declared.catalogue, &declared.config)?;
    let readers = readers_of(alloc, request, &declared, streams.as_slice())?;
    let served = pages_of(alloc, request, &declared, streams.as_slice(), &readers)?;
    let pages = Pages {
        pair: pair_of(&request.files, texts, &declared),
        streams: streams.as_slice(),
        served: served.as_slice(),
    };
    Ok(judge_files(alloc, request, texts, pages, &[])?)
}

/// The streams of the pages of all readers that a page can be made of.
pub(crate) fn all_pages<'d>(
    alloc: Global,
    request: &Request,
    declared: &'d Declared,
    streams: &'d [Stream],
) -> Result<Vec<Served<'d>>, AllocError> {
    let readers = paged_readers(alloc, declared, streams)?;
    pages_of(alloc, request, declared, streams, &readers)
}

// The streams of the pages of readers, in the dialect that is asked for.
fn pages_of<'d>(
    alloc: Global,
    request: &Request,
    declared: &'d Declared,
    streams: &'d [Stream],
    readers: &Items<u32>,
) -> Result<Vec<Served<'d>>, AllocError> {
    let dialect = dialect_of(request.options.form).unwrap_or(Dialect::OpenMetrics);
    let catalogue = &declared.catalogue;
    let mut served = Vec::new(alloc);
    for reader in readers.as_slice() {
        add_page(alloc, &mut served, dialect, catalogue, streams, *reader)?;
    }
    Ok(served)
}

// The readers whose pages are asked about: the one that is named, else each that a page can be made of. Where there is
// none, the fault is that of a page.
fn readers_of(
    alloc: Global,
    request: &Request,
    declared: &Declared,
    streams: &[Stream],
) -> Result<Items<u32>, ConsoleFault>
    ensures { IfErr result IsReadersFault }
{
    if request.reader.is_none() {
        let paged = paged_readers(alloc, declared, streams)?;
        if !paged.is_empty() {
            return Ok(paged);
        }
    }
    let (catalogue, readers) = (&declared.catalogue, declared.config.readers());
    let reader = reader_in(alloc, &request.reader, catalogue, readers, streams)?;
    let mut named = Items::new(alloc);
    named.push(reader)?;
    Ok(named)
}

// The readers that a page can be made of: a server would hold each sample.
fn paged_readers(
    alloc: Global,
    declared: &Declared,
    streams: &[Stream],
) -> Result<Items<u32>, AllocError> {
    let mut paged = Items::new(alloc);
    for reader in 0..declared.config.readers().len() as u32 {
        let catalogue = &declared.catalogue;
        let faults = exposure_faults(alloc, catalogue, streams, reader, Outlet::Prometheus)?;
        if faults.is_empty() {
            paged.push(reader)?;
        }
    }
    Ok(paged)
}

// Writes what is told: as lines of JSON all, as text the first, and last how many more there are.
fn print_told<W: Sink>(
    alloc: Global,
    request: &Request,
    told: &[Told],
    sink: &mut W,
) -> Result<(), KitFault>
    ensures { IfErr result IsDeviceFault }
{
    if request.options.json {
        return match write_json(alloc, sink, &ToldSheet { told }) {
            Ok(()) => flush(sink),
            Err(fault) => Err(of_sheet(fault)),
        };
    }
    for one in told {
        if let Some(detail) = &one.detail {
            print(sink, detail.message.text.as_str())?;
        }
    }
    print_more(alloc, sink, told.len().saturating_sub(MOST_NOTES))
}

// Tells how much is not judged since a variable stands there, whatever becomes of the telling.
fn tell_left_out<E: Sink>(alloc: Global, found: &Found, errors: &mut E) {
    let left_out = found.left_out;
    if left_out == 0 {
        return;
    }
    let _told = match format!(in alloc;
        "{left_out} names, matchers or labels with a variable are not judged\n"
    ) {
        Ok(line) => print(errors, line.as_str()),
        Err(_) => print(errors, "out of memory\n"),
    };
}

/// What is told, as rows for machines.
#[derive(Clone, Copy)]
pub(crate) struct ToldSheet<'a> {
    pub told: &'a [Told],
}

impl Sheet for ToldSheet<'_> {
    fn titles(&self) -> &'static [&'static str] {
        TITLES.as_slice()
    }

    fn rows(&self) -> usize {
        self.told.len()
    }

    fn row(&self, alloc: Global, number: usize) -> Result<Vec<Cell>, AllocError> {
        let mut row = Row::new(alloc);
        if let Some(told) = self.told.get(number) {
            let kind = told.kind.name();
            row.text(kind);
            match &told.detail {
                Some(detail) => detail.message.put_place(&mut row),
                None => {
                    row.nothing();
                    put_position(&mut row, None);
                    row.text(kind);
                }
            }
        }
        row.cells()
    }
}
