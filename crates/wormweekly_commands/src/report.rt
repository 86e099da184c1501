//! What a report has.
ghost use Rattle.std.specs.Prelude.{IfErr, IfOk};
ghost use Rattle.wormweekly_commands.specs.Reporting.{AreDifferences, HasParts, IsReport, RefusesReport, RefusesWhole};

use crate::broken::{Broken, broken_queries};
use crate::comparing::{Comparison, compared};
use crate::drawing::picture_of;
use crate::fault::ConsoleFault;
use crate::judged::{Pages, Told, judge_files};
use crate::listing::{Listing, listing_of};
use crate::notes::{Notes, notes_of};
use crate::page_readers::check_readers;
use crate::parts::Texts;
use crate::queries::all_pages;
use crate::rooms::{Rooms, rooms_of};
use crate::telling::pair_of;
use metric_command_lines::Request;
use std::alloc::{AllocError, Global};

/// What a report has: the streams, the remarks, the budgets, the picture, what differs from old files, and what is told of
/// queries, and of those that the change breaks.
pub(crate) struct Report {
    pub listing: Listing,
    pub notes: Notes,
    pub rooms: Rooms,
    pub picture: String,
    pub comparison: Option<Comparison>,
    pub told: Vec<Told>,
    pub broken: Vec<Broken>,
}

impl Drop for Report {
    fn drop(self) {
        let Report {
            listing: _listing,
            notes: _notes,
            rooms: _rooms,
            picture: _picture,
            comparison: _comparison,
            told: _told,
            broken: _broken,
        } = self;
    }
}

/// What a report of the texts has.
///
/// # Errors
///
/// The first fault of the old files, as [`ConsoleFault::Old`], or of the new ones; a reader that words name and the
/// config does not have; and [`KitFault::Memory`].
#[tactic(auto, using(crate::proofs::Reports::report_refuses_whole, crate::proofs::Reports::lacking_refuses_whole))]
pub(crate) fn report_of(
    alloc: Global,
    request: &Request,
    texts: &Texts,
) -> Result<Report, ConsoleFault>
    ensures ok { IfOk result (IsReport request.now texts.now) }
    ensures first { IfErr result (RefusesWhole request.now.concerns.outlets texts.now) }
{
    let report = all_of(alloc, request, texts)?;
    let readers = report.notes.declared.config.readers();
    check_readers(request.concerns.outlets.as_slice(), readers)?;
    Ok(report)
}

#[tactic(auto, using(crate::proofs::Reports::declared_refused))]
fn all_of(alloc: Global, request: &Request, texts: &Texts) -> Result<Report, ConsoleFault>
    ensures ok { IfOk result (HasParts request.now texts.now) }
    ensures first { IfErr result (RefusesReport texts.now) }
{
    let comparison = differences_of(alloc, texts)?;
    let listing = listing_of(alloc, &texts.parts)?;
    let notes = notes_of(alloc, request, &texts.parts)?;
    let rooms = rooms_of(alloc, &texts.parts)?;
    let picture = picture_of(alloc, &texts.parts, &comparison)?;
    let told = told_of(alloc, request, texts, &notes)?;
    let broken = broken_of(alloc, request, texts, &comparison)?;
    Ok(Report {
        listing,
        notes,
        rooms,
        picture,
        comparison,
        told,
        broken,
    })
}

// What queries ask for that no page can have.
fn told_of(
    alloc: Global,
    request: &Request,
    texts: &Texts,
    notes: &Notes,
) -> Result<Vec<Told>, AllocError> {
    let (declared, streams) = (&notes.declared, notes.streams.as_slice());
    let served = all_pages(alloc, request, declared, streams)?;
    let pages = Pages {
        pair: pair_of(&request.files, texts, declared),
        streams,
        served: served.as_slice(),
    };
    Ok(judge_files(alloc, request, texts, pages, &[])?.told)
}

// The queries that the change breaks, where there are old files.
fn broken_of(
    alloc: Global,
    request: &Request,
    texts: &Texts,
    comparison: &Option<Comparison>,
) -> Result<Vec<Broken>, AllocError> {
    match comparison {
        Some(comparison) => broken_queries(alloc, request, texts, comparison),
        None => Ok(Vec::new(alloc)),
    }
}

/// What differs from the old files, where there are some.
#[tactic(auto, using(crate::proofs::Reports::pair_is_refused))]
pub(crate) fn differences_of(
    alloc: Global,
    texts: &Texts,
) -> Result<Option<Comparison>, ConsoleFault>
    ensures ok { IfOk result (AreDifferences texts.now.old texts.now.parts) }
    ensures first { IfErr result (RefusesReport texts.now) }
{
    match &texts.old {
        Some(old) => Ok(Some(compared(alloc, old, &texts.parts)?)),
        None => Ok(None),
    }
}
