//! An input read into its parts.
ghost use Rattle.std.specs.Prelude.{◌≡◌, IfOk, IfErr, IsSome, IsTrue, unwrap_or, option_map, [], if◌then◌else◌};
ghost use Rattle.std.specs.List.{list_all};
ghost use Rattle.metric_parts.specs.Input.{is_content, IsInput, IsFirstFault};
ghost use Rattle.metric_parts.specs.Reading.{texts};
ghost use Rattle.metric_parts.specs.Pieces.{contents_of};
ghost use Rattle.metric_parts.specs.Texts.{joined};
ghost use Rattle.metric_parts.specs.Faults.{OnInput};
ghost use Rattle.metric_parts.specs.Kept.{read_of, IsRead};

use crate::joining::joined;
use crate::pieces::{Pieces, pieces_of};
use crate::{InputFault, Needs, Parts, Script};
use metric_base::Text;
use std::alloc::{AllocError, Global};

/// The parts of an input that a command needs.
///
/// A part is a header line and the lines up to the next header. The headers are `%% catalogue`,
/// `%% config`, `%% certificate` and `%% script`, in this order, and the first line is the first
/// of them. Each line is UTF-8, and each line that begins with `%% ` is a header in its place. A
/// part that is not needed may be missing, and where it is there its contents are not read.
///
/// # Errors
///
/// [`InputFault::Input`] with the first line with which no input goes on, or with one more than
/// the number of lines where a needed part is missing at the end, and [`InputFault::Memory`].
pub fn parts_of<'a>(
    alloc: Global,
    lines: &'a [&'a [u8]],
    needs: Needs,
) -> Result<Parts<'a>, InputFault>
    ensures parts { IfOk result (IsRead needs (texts lines.entry.now)) }
    ensures certificate { IfOk result (λ parts.
        IsTrue needs.certificate → IsSome parts.certificate) }
    ensures script { IfOk result (λ parts. IsTrue needs.script → IsSome parts.script) }
    ensures input { IfErr result
        (λ fault. OnInput fault (IsFirstFault needs (texts lines.entry.now))) }
{
    match pieces_of(lines, needs) {
        Ok(pieces) => Ok(read(alloc, lines, needs, pieces)?),
        Err(rest) => Err(InputFault::Input {
            line: (lines.len() - rest.len()) as u64 + 1,
        }),
    }
}

// What a command reads of the pieces of an input.
fn read<'a>(
    alloc: Global,
    lines: &'a [&'a [u8]],
    needs: Needs,
    pieces: Pieces<'a>,
) -> Result<Parts<'a>, AllocError>
    requires { IsInput needs (texts lines.now) (contents_of pieces) }
    ensures { IfOk result (λ parts. parts ≡ read_of needs (contents_of pieces.entry)) }
{
    Ok(Parts {
        catalogue: joined(alloc, pieces.catalogue)?,
        opens: false,
        config: joined(alloc, pieces.config)?,
        certificate: joined_if(alloc, needs.certificate, pieces.certificate)?,
        script: match pieces.script {
            Some(script) if needs.script => Some(Script::at_end(script, lines)),
            _ => None,
        },
    })
}

fn joined_if(
    alloc: Global,
    needed: bool,
    lines: Option<&[&[u8]]>,
) -> Result<Option<Text>, AllocError>
    requires { IsTrue (list_all is_content
        (unwrap_or (option_map (λ part. texts part.now) lines) [])) }
    ensures { IfOk result (λ text. text ≡
        (if needed then option_map (λ part. joined (texts part.now)) lines.entry else None)) }
{
    match lines {
        Some(lines) if needed => Ok(Some(joined(alloc, lines)?)),
        _ => Ok(None),
    }
}
