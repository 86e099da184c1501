//! A report as a page of HTML, in one file that loads nothing.
use crate::broken::Broken;
use crate::change_sheet::ChangeSheet;
use crate::comparing::Comparison;
use crate::listing::StreamSheet;
use crate::note_sheet::NoteSheet;
use crate::parts::Texts;
use crate::queries::ToldSheet;
use crate::report::Report;
use crate::rooms::RoomSheet;
use crate::shares::{budget_shares, stream_shares};
use crate::shown_path::shown;
use crate::telling::kit_message;
use metric_base::Text;
use metric_command_lines::{Request, VERSION};
use metric_kit_commands::{KitFault, certificate_text};
use metric_sheet::{Sheet, push_html_table, push_html_text};
use metric_text::{push_number, push_text};
use std::alloc::{AllocError, Global};

const BEGIN: &str = "<!doctype html>
<html lang=\"en\">
<meta charset=\"utf-8\">
<meta name=\"viewport\" content=\"width=device-width\">
<meta http-equiv=\"Content-Security-Policy\" content=\"default-src 'none'; style-src 'unsafe-inline'\">
<title>";

const LEGEND: &str = "</div>
<p>Blue: a view renames it or leaves something out. Dashed: nothing comes of it. Red: it is taken for another one.</p>
<p>Made by wormweekly ";

const STYLE: &str = "</title>
<style>
:root { color-scheme: light dark }
body { font: 15px/1.5 system-ui, sans-serif; max-width: 100em; margin: 0 auto; padding: 1em }
h1 { font-size: 1.4em }
h2 { font-size: 1.1em; margin-top: 2em; border-bottom: 1px solid #8888 }
.table, .picture { overflow-x: auto }
table { border-collapse: collapse; font-size: 0.9em }
th, td { text-align: left; padding: 0.2em 0.8em 0.2em 0; border-bottom: 1px solid #8884 }
td { min-width: 10em; max-width: 30em; overflow-wrap: anywhere }
caption { text-align: left; padding: 0.5em 0 }
th, .number, .short { white-space: nowrap }
.number, .short, .yes { min-width: 0 }
.number { text-align: right; font-variant-numeric: tabular-nums }
.yes { font-weight: bold; color: #c00; color: light-dark(#b00, #f88) }
tr:has(.yes) { background: #c001 }
meter { width: 6em }
.refused { color: #c00; color: light-dark(#b00, #f88) }
.picture { background: #fff; border: 1px solid #8884 }
@page { size: A4 landscape; margin: 1cm }
@media print {
  body { max-width: none; padding: 0; font-size: 8pt }
  .table, .picture { overflow: visible }
  td { min-width: 0; padding-right: 0.4em }
  th, .number, .short { white-space: normal }
  tr { break-inside: avoid }
  meter { display: none }
  h2 { break-after: avoid }
  .picture { border: none }
  svg { max-width: 100%; max-height: 16cm; width: auto; height: auto }
}
</style>
";

/// The page of a report. Each text of the files stands in it as a text, whatever it has. Fails only when out of memory.
pub(crate) fn report_page(
    alloc: Global,
    request: &Request,
    texts: &Texts,
    report: &Report,
) -> Result<Vec<u8>, AllocError> {
    let mut page = Vec::new(alloc);
    push_head(&mut page, request, texts, report)?;
    push_safety(alloc, &mut page, request, texts)?;
    if let Some(comparison) = &report.comparison {
        push_changes(alloc, &mut page, comparison, report.broken.as_slice())?;
    }
    push_notes(alloc, &mut page, request, texts, report)?;
    if !texts.queries.is_empty() {
        push_queries(alloc, &mut page, report)?;
    }
    push_streams(alloc, &mut page, report)?;
    push_budgets(alloc, &mut page, request, report)?;
    push_picture(&mut page, report)?;
    Ok(page)
}

// What the page is of, and how much of each there is.
fn push_head(
    page: &mut Vec<u8>,
    request: &Request,
    texts: &Texts,
    report: &Report,
) -> Result<(), AllocError> {
    push_text(page, BEGIN)?;
    push_title(page, request)?;
    push_text(page, STYLE)?;
    push_text(page, "<h1>")?;
    push_title(page, request)?;
    push_text(page, "</h1>\n<p>")?;
    if let Some(comparison) = &report.comparison {
        push_breaks(page, comparison, report.broken.len())?;
    }
    push_count(page, "Instruments: ", report.rooms.rooms.len())?;
    push_count(page, ", streams: ", report.listing.streams.list().len())?;
    push_count(
        page,
        ", warnings: ",
        report.listing.streams.warnings().len(),
    )?;
    push_count(page, ", remarks: ", report.notes.count())?;
    push_text(page, ".</p>\n<p>Fingerprints of what was read (FNV-1a): ")?;
    push_print(page, &texts.parts.catalogue)?;
    push_text(page, " and ")?;
    push_print(page, &texts.parts.config)?;
    push_text(page, ".</p>\n")
}

// The fingerprint of a text.
fn push_print(page: &mut Vec<u8>, text: &Text) -> Result<(), AllocError> {
    let mut print: u64 = 0xCBF2_9CE4_8422_2325;
    for byte in text.as_str().as_bytes() {
        print = (print ^ u64::from(*byte)).wrapping_mul(0x0000_0100_0000_01B3);
    }
    push_number(page, print)
}

fn push_title(page: &mut Vec<u8>, request: &Request) -> Result<(), AllocError> {
    push_text(page, "Metrics of ")?;
    push_html_text(page, shown(request.files.catalogue.as_str()))?;
    push_text(page, " and ")?;
    push_html_text(page, shown(request.files.config.as_str()))
}

fn push_breaks(
    page: &mut Vec<u8>,
    comparison: &Comparison,
    queries: usize,
) -> Result<(), AllocError> {
    let changes = comparison.changes.as_slice();
    let breaking = changes.iter().filter(|change| change.is_breaking()).count();
    push_count(page, "Changes: ", changes.len())?;
    push_count(page, ", of which break: ", breaking)?;
    if queries > 0 {
        push_count(page, ", and queries: ", queries)?;
    }
    push_text(page, ".</p>\n<p>")
}

// Whether the two files have a certificate, or why not.
fn push_safety(
    alloc: Global,
    page: &mut Vec<u8>,
    request: &Request,
    texts: &Texts,
) -> Result<(), AllocError> {
    match certificate_text(alloc, &texts.parts) {
        Ok(_) => push_text(page, "<p>They are safe: a certificate can be made.</p>\n"),
        Err(KitFault::Memory) => Err(AllocError),
        Err(fault) => {
            let told = kit_message(alloc, &request.files, texts, fault)?;
            push_text(page, "<p class=\"refused\">They have no certificate. ")?;
            push_html_text(page, told.text.as_str().lines().next().unwrap_or(""))?;
            push_text(page, "</p>\n")
        }
    }
}

fn push_count(page: &mut Vec<u8>, what: &str, count: usize) -> Result<(), AllocError> {
    push_text(page, what)?;
    push_number(page, count as u64)
}

// What differs from the old files.
fn push_changes(
    alloc: Global,
    page: &mut Vec<u8>,
    comparison: &Comparison,
    broken: &[Broken],
) -> Result<(), AllocError> {
    push_text(page, "<h2>What changes</h2>\n")?;
    let sheet = ChangeSheet {
        comparison,
        changes: comparison.changes.as_slice(),
        broken,
    };
    let caption = "Each row is a change from the old files; those that break something are marked";
    push_rows(alloc, page, caption, &sheet, "<p>Nothing differs.</p>\n")
}

// A table, or what is said where it has no rows.
fn push_rows<S: Sheet>(
    alloc: Global,
    page: &mut Vec<u8>,
    caption: &str,
    sheet: &S,
    nothing: &str,
) -> Result<(), AllocError> {
    if sheet.rows() == 0 {
        push_text(page, nothing)
    } else {
        push_html_table(alloc, page, caption, sheet, &[])
    }
}

// What looks like a mistake, with its place.
fn push_notes(
    alloc: Global,
    page: &mut Vec<u8>,
    request: &Request,
    texts: &Texts,
    report: &Report,
) -> Result<(), AllocError> {
    push_text(page, "<h2>What looks like a mistake</h2>\n")?;
    let sheet = NoteSheet {
        request,
        texts,
        notes: &report.notes,
    };
    let caption = "Remarks on the two files, with their places";
    push_rows(alloc, page, caption, &sheet, "<p>Nothing.</p>\n")
}

// What queries ask for that no page can have, with its place.
fn push_queries(alloc: Global, page: &mut Vec<u8>, report: &Report) -> Result<(), AllocError> {
    push_text(page, "<h2>What queries ask for in vain</h2>\n")?;
    let told = report.told.as_slice();
    let caption = "What queries ask for that no page can have, with its place";
    push_rows(
        alloc,
        page,
        caption,
        &ToldSheet { told },
        "<p>Nothing.</p>\n",
    )
}

// The streams, and how full the limit of each may become.
fn push_streams(alloc: Global, page: &mut Vec<u8>, report: &Report) -> Result<(), AllocError> {
    push_text(page, "<h2>Streams</h2>\n")?;
    let caption = "Full: the series that a stream may have, of its limit";
    let shares = stream_shares(alloc, &report.listing)?;
    let sheet = StreamSheet {
        listing: &report.listing,
        is_whole: false,
    };
    push_html_table(alloc, page, caption, &sheet, &shares)
}

// How often each instrument may be recorded, and how much of what is safe its budgets are.
fn push_budgets(
    alloc: Global,
    page: &mut Vec<u8>,
    request: &Request,
    report: &Report,
) -> Result<(), AllocError> {
    push_text(page, "<h2>Budgets</h2>\n<p>They last at ")?;
    push_number(page, u64::from(request.options.rate))?;
    push_text(page, " recordings a second.</p>\n")?;
    let sheet = RoomSheet {
        rooms: &report.rooms,
        options: request.options,
    };
    let shares = budget_shares(alloc, &report.rooms)?;
    let caption = "Full: the budgets, of what is safe";
    push_html_table(alloc, page, caption, &sheet, &shares)
}

fn push_picture(page: &mut Vec<u8>, report: &Report) -> Result<(), AllocError> {
    push_text(
        page,
        "<h2>Picture</h2>\n<div class=\"picture\" tabindex=\"0\">\n",
    )?;
    push_text(page, report.picture.as_str())?;
    push_text(page, LEGEND)?;
    push_text(page, VERSION)?;
    push_text(page, ".</p>\n</html>\n")
}
