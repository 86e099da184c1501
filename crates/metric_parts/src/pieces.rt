//! The parts of an input as pieces of the list of its lines.
ghost use Rattle.std.specs.Prelude.{◌≡◌, ◌≤◌, length, not, option_map, position};
ghost use Rattle.std.specs.Str.{is_utf8};
ghost use Rattle.metric_parts.specs.Input.{is_content};
ghost use Rattle.metric_parts.specs.Reading.{texts, seen, contents_len, part_in, optional_part_in, contents_in};
ghost use Rattle.metric_parts.specs.Pieces.{contents_of};

use crate::Needs;
use std::str;

pub type Lines<'a> = &'a [&'a [u8]];

// The lines of the parts, without their headers.
#[derive(Clone, Copy)]
pub struct Pieces<'a> {
    pub catalogue: Lines<'a>,
    pub config: Lines<'a>,
    pub certificate: Option<Lines<'a>>,
    pub script: Option<Lines<'a>>,
}

fn is_utf8(line: &[u8]) -> bool
    ensures { result ≡ is_utf8 line.now }
{
    str::from_utf8(line).is_ok()
}

fn is_content(line: &[u8]) -> bool
    ensures { result ≡ is_content line.now }
{
    is_utf8(line) && !line.starts_with(b"%% ".as_slice())
}

// The place of the first line that is no content.
fn first_stray(lines: &[&[u8]]) -> Option<usize>
    ensures { result ≡ position (λ line. not (is_content line.now)) lines.now }
{
    lines.iter().position(|line| !is_content(line))
}

fn contents_len(lines: &[&[u8]]) -> usize
    ensures len { result ≡ contents_len (texts lines.now) }
    ensures within { result ≤ length lines.now }
{
    first_stray(lines).unwrap_or(lines.len())
}

// The part under this header and the lines after it, or the lines themselves.
fn part<'a>(header: &[u8], lines: Lines<'a>) -> Result<(Lines<'a>, Lines<'a>), Lines<'a>>
    ensures { seen (λ p. (texts p.0.now, texts p.1.now)) result
        ≡ part_in header.now (texts lines.entry.now) }
{
    match lines.split_first() {
        Some((line, rest)) if *line == header => Ok(rest.split_at(contents_len(rest))),
        _ => Err(lines),
    }
}

// The same of a part that may be missing where it is not needed.
fn optional_part<'a>(
    needed: bool,
    header: &[u8],
    lines: Lines<'a>,
) -> Result<(Option<Lines<'a>>, Lines<'a>), Lines<'a>>
    ensures { seen (λ p. (option_map (λ part. texts part.now) p.0, texts p.1.now)) result
        ≡ optional_part_in needed header.now (texts lines.entry.now) }
{
    match part(header, lines) {
        Ok((contents, rest)) => Ok((Some(contents), rest)),
        Err(rest) if needed => Err(rest),
        Err(_) => Ok((None, lines)),
    }
}

// The parts of an input, or its lines from the first faulty one on.
#[tactic(auto, unfolding(crate::specs::Reading::contents_in))]
pub fn pieces_of<'a>(lines: Lines<'a>, needs: Needs) -> Result<Pieces<'a>, Lines<'a>>
    ensures { seen contents_of result ≡ contents_in needs (texts lines.entry.now) }
{
    let (catalogue, rest) = part(b"%% catalogue", lines)?;
    let (config, rest) = part(b"%% config", rest)?;
    let (certificate, rest) = optional_part(needs.certificate, b"%% certificate", rest)?;
    let (script, rest) = optional_part(needs.script, b"%% script", rest)?;
    let pieces = Pieces {
        catalogue,
        config,
        certificate,
        script,
    };
    if rest.is_empty() {
        Ok(pieces)
    } else {
        Err(rest)
    }
}
