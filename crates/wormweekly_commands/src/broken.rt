//! Queries that a change breaks: nothing was told of them before.
ghost use Rattle.std.specs.Prelude.{◌≡◌, [], IfOk};

use crate::change_cells::before_cell;
use crate::comparing::Comparison;
use crate::judged::{Detail, Pages, Told, judge_files};
use crate::parts::Texts;
use crate::queries::all_pages;
use crate::rooms::Rooms;
use crate::telling::{old_pair_of, pair_of};
use metric_command_lines::Request;
use metric_diff::{Change, InstrumentPart, StreamPart};
use metric_family::text_of;
use metric_promql::QueryKind;
use metric_queries::{Served, stream_named};
use metric_sheet::Cell;
use metric_views::Stream;
use std::alloc::{AllocError, Global};

/// What is told of a query of which nothing was told before.
#[derive(Drop)]
pub(crate) struct Broken {
    pub told: Told,
    /// The change that is the reason, where one is found.
    pub reason: Option<Change>,
}

/// What is told of the queries of a request of which nothing was told of the old files. Where the request has no queries,
/// nothing is. Fails only when out of memory.
pub(crate) fn broken_queries(
    alloc: Global,
    request: &Request,
    texts: &Texts,
    comparison: &Comparison,
) -> Result<Vec<Broken>, AllocError>
    ensures { IfOk result (λ broken. request.now.files.queries ≡ [] → broken.items ≡ []) }
{
    if request.files.queries.is_empty() {
        return Ok(Vec::new(alloc));
    }
    let (declared, streams) = (&comparison.old.declared, comparison.old_streams.as_slice());
    let served = all_pages(alloc, request, declared, streams)?;
    let pages = Pages {
        pair: old_pair_of(&request.files, texts, declared),
        streams,
        served: served.as_slice(),
    };
    let before = judge_files(alloc, request, texts, pages, &[])?;
    let told = told_now(alloc, request, texts, comparison, before.told.as_slice())?;
    with_reasons(alloc, comparison, served.as_slice(), told)
}

// What is told of the new files, but for queries of which something is told already.
fn told_now(
    alloc: Global,
    request: &Request,
    texts: &Texts,
    comparison: &Comparison,
    before: &[Told],
) -> Result<Vec<Told>, AllocError> {
    let (declared, streams) = (&comparison.new.declared, comparison.new_streams.as_slice());
    let served = all_pages(alloc, request, declared, streams)?;
    let pages = Pages {
        pair: pair_of(&request.files, texts, declared),
        streams,
        served: served.as_slice(),
    };
    Ok(judge_files(alloc, request, texts, pages, before)?.told)
}

fn with_reasons(
    alloc: Global,
    comparison: &Comparison,
    served: &[Served<'_>],
    told: Vec<Told>,
) -> Result<Vec<Broken>, AllocError> {
    let mut broken = Vec::with_capacity(alloc, told.len())?;
    for told in told {
        let reason = match &told.detail {
            Some(detail) => reason_of(alloc, comparison, served, told.kind, detail)?,
            None => None,
        };
        broken.push(Broken { told, reason })?;
    }
    Ok(broken)
}

// The first change of the stream that was asked for that explains what is told, else the first that breaks something.
fn reason_of(
    alloc: Global,
    comparison: &Comparison,
    served: &[Served<'_>],
    kind: QueryKind,
    detail: &Detail,
) -> Result<Option<Change>, AllocError> {
    let Some(number) = stream_named(served, detail.name.as_str()) else {
        return Ok(None);
    };
    let Some(stream) = comparison.old_streams.as_slice().get(number) else {
        return Ok(None);
    };
    let mut first = None;
    for change in comparison.changes.as_slice() {
        if is_of(change, number, stream) {
            if is_reason(alloc, &comparison.old, change, kind, detail)? {
                return Ok(Some(*change));
            }
            if first.is_none() && change.is_breaking() {
                first = Some(*change);
            }
        }
    }
    Ok(first)
}

// Whether a change is of an old stream, of its instrument or of its reader.
fn is_of(change: &Change, number: usize, stream: &Stream) -> bool {
    match *change {
        Change::ReaderGone { old } => old == stream.reader as usize,
        Change::StreamGone { old }
        | Change::StreamChanged { old, .. }
        | Change::KeyGone { old, .. } => old == number,
        Change::InstrumentGone { old }
        | Change::InstrumentChanged { old, .. }
        | Change::DeclaredKeyGone { old, .. }
        | Change::KeyTurned { old, .. }
        | Change::ValueGone { old, .. }
        | Change::CombinationGone { old, .. } => old == stream.instrument as usize,
        _ => false,
    }
}

// Whether a change of what a query asks for explains what is told of it.
fn is_reason(
    alloc: Global,
    old: &Rooms,
    change: &Change,
    kind: QueryKind,
    detail: &Detail,
) -> Result<bool, AllocError> {
    match kind {
        QueryKind::UnknownLabel => Ok(matches!(
            change,
            Change::KeyGone { .. } | Change::DeclaredKeyGone { .. }
        )),
        QueryKind::UnknownBoundary => Ok(is_of_boundaries(change)),
        QueryKind::UnknownValue => is_of_value(alloc, old, change, detail.text.as_str()),
        QueryKind::MatchesNone | QueryKind::MatchesAll => Ok(matches!(
            change,
            Change::ValueGone { .. } | Change::KeyTurned { .. }
        )),
        QueryKind::NeverTogether => Ok(is_of_combinations(change)),
        _ => Ok(is_of_name(change)),
    }
}

fn is_of_boundaries(change: &Change) -> bool {
    matches!(
        change,
        Change::StreamChanged {
            part: StreamPart::Boundaries,
            ..
        } | Change::InstrumentChanged {
            part: InstrumentPart::Advice,
            ..
        }
    )
}

fn is_of_combinations(change: &Change) -> bool {
    matches!(
        change,
        Change::CombinationGone { .. }
            | Change::InstrumentChanged {
                part: InstrumentPart::Listed,
                ..
            }
    )
}

// Whether a stream goes, or is called otherwise since its name, its unit or what it is differs.
fn is_of_name(change: &Change) -> bool {
    match change {
        Change::ReaderGone { .. } | Change::StreamGone { .. } | Change::InstrumentGone { .. } =>
            true,
        Change::StreamChanged { part, .. } => matches!(
            part,
            StreamPart::Name | StreamPart::Unit | StreamPart::Kind | StreamPart::Aggregation
        ),
        Change::InstrumentChanged { part, .. } => matches!(
            part,
            InstrumentPart::Name | InstrumentPart::Unit | InstrumentPart::Kind
        ),
        _ => false,
    }
}

// Whether the value that is asked for is gone.
fn is_of_value(
    alloc: Global,
    old: &Rooms,
    change: &Change,
    wanted: &str,
) -> Result<bool, AllocError> {
    let Change::ValueGone {
        old: instrument,
        key,
        value,
        ..
    } = *change
    else {
        return Ok(false);
    };
    let instruments = old.declared.catalogue.instruments();
    let Some(instrument) = instruments.get(instrument) else {
        return Ok(false);
    };
    let Some(key) = instrument.keys.as_slice().get(key) else {
        return Ok(false);
    };
    match key.values.as_slice().get(value) {
        Some(value) => Ok(text_of(alloc, value)?.as_str() == wanted),
        None => Ok(false),
    }
}

/// Where the query stands.
pub(crate) fn place_cell(alloc: Global, broken: &Broken) -> Result<Cell, AllocError> {
    match &broken.told.detail {
        Some(detail) => Ok(Cell::Text(detail.message.place(alloc)?)),
        None => Ok(Cell::Nothing),
    }
}

/// What is told of it, and the change that is the reason.
pub(crate) fn words_cell(
    alloc: Global,
    comparison: &Comparison,
    broken: &Broken,
) -> Result<Cell, AllocError> {
    let Some(detail) = &broken.told.detail else {
        return Cell::text(alloc, broken.told.kind.name());
    };
    let words = detail.message.words();
    match &broken.reason {
        Some(change) => {
            let reason = reason_words(alloc, comparison, change)?;
            Ok(Cell::Text(format!(in alloc; "{words}; {reason}")?))
        }
        None => Cell::text(alloc, words),
    }
}

/// The same in lines, with the one that the query is in; nothing of what is not told in full.
pub(crate) fn lines_of(
    alloc: Global,
    comparison: &Comparison,
    broken: &Broken,
) -> Result<String, AllocError> {
    let mut lines = String::new(alloc);
    if let Some(detail) = &broken.told.detail {
        lines.push_str(detail.message.text.as_str())?;
        if let Some(change) = &broken.reason {
            let reason = reason_words(alloc, comparison, change)?;
            write!(lines, "      = {reason}\n")?;
        }
    }
    Ok(lines)
}

// The kind of a change, and what stood before, where something did.
fn reason_words(
    alloc: Global,
    comparison: &Comparison,
    change: &Change,
) -> Result<String, AllocError> {
    let kind = change.kind();
    match before_cell(alloc, comparison, change)? {
        Cell::Nothing => String::from_str(alloc, kind),
        before => {
            let before = before.shown(alloc)?;
            format!(in alloc; "{kind}: {before}")
        }
    }
}
