//! The picture of a catalogue and a config, and of what a change does to their streams.
ghost use Rattle.std.specs.Prelude.{◌≡◌, IfErr, IfOk, OnErr, OnOk};
ghost use Rattle.metric_kit_commands.specs.Declarations.{IsDeclaredFault};
ghost use Rattle.wormweekly_commands.specs.Answers.{AreRight};
ghost use Rattle.wormweekly_commands.specs.Drawing.{IsDrawing};
ghost use Rattle.wormweekly_commands.specs.Faults.{IsRefusal};
ghost use Rattle.wormweekly_commands.specs.Reporting.{RefusesReport};
ghost use Rattle.wormweekly_commands.specs.Runs.{Draws, writing};

use crate::comparing::Comparison;
use crate::delivering::put;
use crate::fault::ConsoleFault;
use crate::folder::Folder;
use crate::parts::Texts;
use crate::report::differences_of;
use crate::rows::reader_name;
use metric_command_lines::Request;
use metric_diff::Change;
use metric_io::Sink;
use metric_kit_commands::{Declared, KitFault, declared_of};
use metric_parts::Parts;
use metric_picture::{Gone, Mark, StreamChanges, draw, draw_change};
use metric_views::Stream;
use std::alloc::{AllocError, Global};

/// The text of a picture, and what differs from old files, which it marks.
pub(crate) struct Drawing {
    pub picture: String,
    pub comparison: Option<Comparison>,
}

impl Drop for Drawing {
    fn drop(self) {
        let Drawing {
            picture: _picture,
            comparison: _comparison,
        } = self;
    }
}

/// Writes a picture. The exit status.
#[tactic(auto, using(crate::proofs::Devices::delivery_is_no_refusal, crate::proofs::Reports::delivery_refuses))]
pub(crate) fn run_draw<F: Folder, W: Sink>(
    alloc: Global,
    request: &Request,
    texts: &Texts,
    folder: &mut F,
    sink: &mut W,
) -> Result<u8, ConsoleFault>
    ensures ok { IfOk result (Draws request.now texts.now
        (writing F.made W.contents folder.old folder.new sink.old sink.new)) }
    ensures first { IfErr result (RefusesReport texts.now) }
    ensures unmade { OnErr result (F.made folder.new ≡ F.made folder.old) }
    ensures unwritten { IfErr result (λ fault. IsRefusal fault → sink.new ≡ sink.old) }
{
    let drawing = drawing_of(alloc, texts)?;
    put(
        &request.files.output,
        drawing.picture.as_bytes(),
        folder,
        sink,
    )?;
    Ok(0)
}

// The picture of the texts.
#[tactic(auto, using(crate::proofs::Reports::declared_refused))]
fn drawing_of(alloc: Global, texts: &Texts) -> Result<Drawing, ConsoleFault>
    ensures ok { IfOk result (IsDrawing texts.now) }
    ensures first { IfErr result (RefusesReport texts.now) }
{
    let comparison = differences_of(alloc, texts)?;
    let picture = picture_of(alloc, &texts.parts, &comparison)?;
    Ok(Drawing {
        picture,
        comparison,
    })
}

/// The picture of what the parts declare, with what differs from old parts, where there are some.
pub(crate) fn picture_of(
    alloc: Global,
    parts: &Parts<'_>,
    comparison: &Option<Comparison>,
) -> Result<String, KitFault>
    ensures right { OnOk result (AreRight parts.now) }
    ensures first { IfErr result (λ fault. IsDeclaredFault fault parts.now) }
{
    let declared = declared_of(alloc, parts)?;
    match comparison {
        Some(comparison) => Ok(picture_of_change(alloc, &declared, comparison)?),
        None => Ok(draw(alloc, &declared.catalogue, &declared.config)?),
    }
}

// The picture of what a change does.
fn picture_of_change(
    alloc: Global,
    declared: &Declared,
    comparison: &Comparison,
) -> Result<String, AllocError> {
    let marks = marks_of(alloc, comparison)?;
    let gone = gone_of(alloc, comparison)?;
    let changes = StreamChanges {
        marks: &marks,
        gone: &gone,
    };
    draw_change(alloc, &declared.catalogue, &declared.config, changes)
}

// What the change does to each new stream.
fn marks_of(alloc: Global, comparison: &Comparison) -> Result<Vec<Mark>, AllocError> {
    let count = comparison.new_streams.as_slice().len();
    let mut marks = vec![in alloc; Mark::Same; count]?;
    for change in comparison.changes.as_slice() {
        mark(&mut marks, *change);
    }
    Ok(marks)
}

// Marks the new stream that a change is of.
fn mark(marks: &mut [Mark], change: Change) {
    let (new, mark) = match change {
        Change::StreamNew { new } => (new, Mark::New),
        Change::StreamChanged { new, .. } => (new, Mark::Differs),
        Change::KeyGone { new, .. } => (new, Mark::Differs),
        Change::KeyNew { new, .. } => (new, Mark::Differs),
        _ => return,
    };
    if let Some(place) = marks.get_mut(new) {
        *place = mark;
    }
}

// The old streams that go.
fn gone_of(alloc: Global, comparison: &Comparison) -> Result<Vec<Gone<'_>>, AllocError> {
    let mut gone = Vec::new(alloc);
    for change in comparison.changes.as_slice() {
        if let Some(stream) = gone_stream(comparison, *change) {
            gone.push(Gone {
                reader: reader_name(&comparison.old.declared, stream),
                name: stream.name.get().as_str(),
            })?;
        }
    }
    Ok(gone)
}

// The old stream that a change takes away.
fn gone_stream(comparison: &Comparison, change: Change) -> Option<&Stream> {
    match change {
        Change::StreamGone { old } => comparison.old_streams.as_slice().get(old),
        _ => None,
    }
}
