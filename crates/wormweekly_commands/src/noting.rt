//! Remarks written.
ghost use Rattle.std.specs.Prelude.{IfErr};
ghost use Rattle.wormweekly_commands.specs.Faults.{IsDeviceFault};

use crate::delivering::{flush, print};
use crate::fault::of_sheet;
use crate::note_sheet::NoteSheet;
use crate::notes::Notes;
use crate::parts::Texts;
use crate::telling::{push_exposure, push_note};
use metric_command_lines::Request;
use metric_io::Sink;
use metric_kit_commands::KitFault;
use metric_sheet::write_json;
use std::alloc::{AllocError, Global};

/// So many remarks are told, since the place of each is looked for in the texts.
pub(crate) const MOST_NOTES: usize = 100;

/// Writes the remarks: those on the two files, then what ways out would lose. As lines of JSON all, the first with their
/// places; as text the first, and last how many more there are.
pub(crate) fn print_notes<W: Sink>(
    alloc: Global,
    sink: &mut W,
    request: &Request,
    texts: &Texts,
    notes: &Notes,
) -> Result<(), KitFault>
    ensures { IfErr result IsDeviceFault }
{
    if request.options.json {
        let sheet = NoteSheet {
            request,
            texts,
            notes,
        };
        print_json(alloc, sink, &sheet)
    } else {
        print_lines(alloc, sink, request, texts, notes)
    }
}

fn print_json<W: Sink>(alloc: Global, sink: &mut W, sheet: &NoteSheet<'_>) -> Result<(), KitFault>
    ensures { IfErr result IsDeviceFault }
{
    match write_json(alloc, sink, sheet) {
        Ok(()) => flush(sink),
        Err(fault) => Err(of_sheet(fault)),
    }
}

// Writes a line or more for each remark.
fn print_lines<W: Sink>(
    alloc: Global,
    sink: &mut W,
    request: &Request,
    texts: &Texts,
    notes: &Notes,
) -> Result<(), KitFault>
    ensures { IfErr result IsDeviceFault }
{
    for number in 0..notes.count().min(MOST_NOTES) {
        match note_at(alloc, request, texts, notes, number) {
            Ok(note) => print(sink, note.as_str())?,
            Err(_) => return Err(KitFault::Memory),
        }
    }
    print_more(alloc, sink, notes.count().saturating_sub(MOST_NOTES))
}

// What is told of the remark of a number, where there is one.
fn note_at(
    alloc: Global,
    request: &Request,
    texts: &Texts,
    notes: &Notes,
    number: usize,
) -> Result<String, AllocError> {
    let mut note = String::new(alloc);
    let files = &request.files;
    let number = notes.told_at(number);
    let remarks = notes.remarks.as_slice();
    if let Some(remark) = remarks.get(number) {
        push_note(alloc, &mut note, files, texts, &notes.declared, *remark)?;
    } else if let Some(exposure) = notes.exposures.get(number.saturating_sub(remarks.len())) {
        push_exposure(alloc, &mut note, files, texts, notes, *exposure)?;
    }
    Ok(note)
}

/// Writes how many more remarks there are, where there are any.
pub(crate) fn print_more<W: Sink>(alloc: Global, sink: &mut W, more: usize) -> Result<(), KitFault>
    ensures { IfErr result IsDeviceFault }
{
    if more == 0 {
        return Ok(());
    }
    match format!(in alloc; "and {more} more remarks\n") {
        Ok(line) => print(sink, line.as_str()),
        Err(_) => Err(KitFault::Memory),
    }
}
