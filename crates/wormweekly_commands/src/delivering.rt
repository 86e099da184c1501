//! Answers written.
ghost use Rattle.std.specs.Prelude.{◌≡◌, IfErr, IfOk, OnErr, OnOk};
ghost use Rattle.std.specs.Io.KnownBytes.{Appends};
ghost use Rattle.wormweekly_commands.specs.Delivered.{IsDelivered, IsDeliveredAnswer, IsPrinted, accepted_text, answer_status};
ghost use Rattle.wormweekly_commands.specs.Faults.{IsDeliveryFault, IsDeviceFault};

use crate::answer::Answer;
use crate::concerns::denies_some;
use crate::ending::some_end_early;
use crate::fault::{ConsoleFault, of_device, of_sheet};
use crate::folder::Folder;
use crate::listing::{Listing, StreamSheet};
use crate::noting::print_notes;
use crate::parts::Texts;
use crate::rooms::{RoomSheet, Rooms};
use metric_base::Text;
use metric_command_lines::{Options, Request};
use metric_io::{Broken, Sink, write_all};
use metric_kit_commands::KitFault;
use metric_sheet::{Sheet, write_json, write_table};
use std::alloc::Global;

// The exit status of a command that is done, and of one of whose remarks one is denied.
const DONE: u8 = 0;

const REMARKED: u8 = 1;

// That of recordings that end earlier than they are to.
const EARLY: u8 = 1;

/// Writes an answer where the request wants it, and gives the exit status: 1 where a remark is denied, or where
/// recordings end earlier than they are to, else 0.
///
/// # Errors
///
/// [`ConsoleFault::Unwritten`] where the folder failed, [`KitFault::Write`] where the sink did, and
/// [`KitFault::Memory`].
pub(crate) fn deliver<F: Folder, W: Sink>(
    alloc: Global,
    request: &Request,
    texts: &Texts,
    answer: &Answer,
    columns: u32,
    folder: &mut F,
    sink: &mut W,
) -> Result<u8, ConsoleFault>
    ensures delivered { OnOk result (IsDeliveredAnswer request.now answer.now
        (F.made folder.old) (F.made folder.new) (W.contents sink.old) (W.contents sink.new)) }
    ensures status { IfOk result (λ status. status ≡ answer_status request.now answer.now) }
    ensures unmade { OnErr result (F.made folder.new ≡ F.made folder.old) }
    ensures device { IfErr result IsDeliveryFault }
{
    write_answer(alloc, request, texts, answer, columns, folder, sink)?;
    Ok(status_of(request, answer))
}

// Writes an answer where the request wants it.
fn write_answer<F: Folder, W: Sink>(
    alloc: Global,
    request: &Request,
    texts: &Texts,
    answer: &Answer,
    columns: u32,
    folder: &mut F,
    sink: &mut W,
) -> Result<(), ConsoleFault>
    ensures delivered { OnOk result (IsDeliveredAnswer request.now answer.now
        (F.made folder.old) (F.made folder.new) (W.contents sink.old) (W.contents sink.new)) }
    ensures unmade { OnErr result (F.made folder.new ≡ F.made folder.old) }
    ensures device { IfErr result IsDeliveryFault }
{
    match answer {
        Answer::Certificate(text) => {
            put(
                &request.files.output,
                text.as_str().as_bytes(),
                folder,
                sink,
            )
        }
        _ => Ok(print_answer(alloc, sink, request, texts, answer, columns)?),
    }
}

// Writes an answer to the sink that no file is made of.
fn print_answer<W: Sink>(
    alloc: Global,
    sink: &mut W,
    request: &Request,
    texts: &Texts,
    answer: &Answer,
    columns: u32,
) -> Result<(), KitFault>
    ensures accepted { OnOk result
        (IsPrinted request.now answer.now (W.contents sink.old) (W.contents sink.new)) }
    ensures device { IfErr result IsDeviceFault }
{
    match answer {
        Answer::Accepted => print(sink, accepted_text(request.options.json)),
        Answer::Streams(listing) => print_streams(alloc, sink, listing, request.options, columns),
        Answer::Rooms(rooms) => print_rooms(alloc, sink, rooms, request.options, columns),
        Answer::Notes(notes) => print_notes(alloc, sink, request, texts, notes),
        Answer::Certificate(text) => print(sink, text.as_str()),
    }
}

// What is told of an accepted certificate.
fn accepted_text(json: bool) -> &'static str
    ensures { result.now ≡ accepted_text json }
{
    if json {
        "{\"schema\":1}\n{\"accepted\":true}\n"
    } else {
        "accepted\n"
    }
}

// The exit status of an answer that is written.
fn status_of(request: &Request, answer: &Answer) -> u8
    ensures { result ≡ answer_status request.now answer.now }
{
    let denied = request.concerns.denied.as_slice();
    match answer {
        Answer::Notes(notes) if denies_some(denied, notes) => REMARKED,
        Answer::Rooms(rooms) if some_end_early(request.options, rooms.rooms.as_slice()) => EARLY,
        _ => DONE,
    }
}

/// Writes a text to the file at a path, or else to the sink.
pub(crate) fn put<F: Folder, W: Sink>(
    path: &Option<Text>,
    text: &[u8],
    folder: &mut F,
    sink: &mut W,
) -> Result<(), ConsoleFault>
    ensures delivered { OnOk result (IsDelivered path.now text.now
        (F.made folder.old) (F.made folder.new) (W.contents sink.old) (W.contents sink.new)) }
    ensures unmade { OnErr result (F.made folder.new ≡ F.made folder.old) }
    ensures device { IfErr result IsDeliveryFault }
{
    match path {
        Some(path) => match folder.write(path.as_str(), text) {
            Ok(()) => Ok(()),
            Err(cause) => Err(ConsoleFault::Unwritten { cause }),
        },
        None => Ok(print_bytes(sink, text)?),
    }
}

/// Writes a text to a sink, and passes on what that holds back.
pub(crate) fn print<W: Sink>(sink: &mut W, text: &str) -> Result<(), KitFault>
    ensures put { OnOk result (Appends (W.contents sink.old) (W.contents sink.new) text.now) }
    ensures device { IfErr result IsDeviceFault }
{
    print_bytes(sink, text.as_bytes())
}

fn print_bytes<W: Sink>(sink: &mut W, bytes: &[u8]) -> Result<(), KitFault>
    ensures put { OnOk result (Appends (W.contents sink.old) (W.contents sink.new) bytes.now) }
    ensures device { IfErr result IsDeviceFault }
{
    match write_out(sink, bytes) {
        Ok(()) => Ok(()),
        Err(broken) => Err(of_device(broken)),
    }
}

fn write_out<W: Sink>(sink: &mut W, bytes: &[u8]) -> Result<(), Broken>
    ensures { OnOk result (Appends (W.contents sink.old) (W.contents sink.new) bytes.now) }
{
    write_all(sink, bytes)?;
    sink.flush()?;
    Ok(())
}

// Writes a table, or lines of JSON. A table is as wide as the request says, or else as the terminal is.
pub(crate) fn print_sheet<S: Sheet, W: Sink>(
    alloc: Global,
    sink: &mut W,
    sheet: &S,
    options: Options,
    columns: u32,
) -> Result<(), KitFault>
    ensures { IfErr result IsDeviceFault }
{
    let width = if options.width > 0 {
        options.width
    } else {
        columns
    };
    let written = if options.json {
        write_json(alloc, sink, sheet)
    } else {
        write_table(alloc, sink, sheet, width as usize)
    };
    match written {
        Ok(()) => flush(sink),
        Err(fault) => Err(of_sheet(fault)),
    }
}

/// Passes on what a sink holds back.
pub(crate) fn flush<W: Sink>(sink: &mut W) -> Result<(), KitFault>
    ensures { IfErr result IsDeviceFault }
{
    match sink.flush() {
        Ok(()) => Ok(()),
        Err(broken) => Err(of_device(broken)),
    }
}

fn print_streams<W: Sink>(
    alloc: Global,
    sink: &mut W,
    listing: &Listing,
    options: Options,
    columns: u32,
) -> Result<(), KitFault>
    ensures { IfErr result IsDeviceFault }
{
    let sheet = StreamSheet {
        listing,
        is_whole: options.json,
    };
    print_sheet(alloc, sink, &sheet, options, columns)
}

fn print_rooms<W: Sink>(
    alloc: Global,
    sink: &mut W,
    rooms: &Rooms,
    options: Options,
    columns: u32,
) -> Result<(), KitFault>
    ensures { IfErr result IsDeviceFault }
{
    let sheet = RoomSheet { rooms, options };
    print_sheet(alloc, sink, &sheet, options, columns)
}
