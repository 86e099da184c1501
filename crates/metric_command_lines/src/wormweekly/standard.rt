//! Standard input and standard output, where files are named.
ghost use Rattle.std.specs.Prelude.{◌≡◌, ◌≤◌, IfOk, Some, count_by, option_map};
ghost use Rattle.metric_command_lines.specs.Standard.{is_standard, output_of, reads_twice, times_of};

use crate::wormweekly::request::Files;
use metric_base::{Items, Text};
use std::alloc::{AllocError, Global};

/// Whether a path is no file, but standard input where it is read, and standard output where it is written: `-`.
pub fn is_standard(path: &str) -> bool
    ensures { result ≡ is_standard path.now }
{
    path == "-"
}

/// The file to write to, which standard output is not.
pub(crate) fn output_of(alloc: Global, path: Option<&str>) -> Result<Option<Text>, AllocError>
    ensures { IfOk result (λ output. output ≡ output_of (option_map (λ p. p.now) path.entry)) }
{
    match path {
        Some(path) if !is_standard(path) => Ok(Some(Text::new(alloc, path)?)),
        _ => Ok(None),
    }
}

/// Whether standard input, which can be read once, is named for more than one of the files that are read.
pub(crate) fn reads_twice(files: &Files) -> bool
    ensures { result ≡ reads_twice files.now }
{
    let old = times_of(&files.old_catalogue) + times_of(&files.old_config);
    let new = times_at(&files.catalogue) + times_at(&files.config);
    let beside = times_of(&files.certificate) + times_of(&files.accepted);
    let times = old + new + beside + times_of(&files.script) + times_of(&files.bound);
    let queries = standard_count(&files.queries);
    match times {
        0 => queries > 1,
        1 => queries > 0,
        _ => true,
    }
}

// How many of some paths are standard input.
fn standard_count(paths: &Items<Text>) -> usize
    ensures { result ≡ count_by is_standard paths.now }
{
    paths
        .as_slice()
        .iter()
        .filter(|path| is_standard(path.as_str()))
        .count()
}

// 1 for standard input, else 0.
fn times_of(path: &Option<Text>) -> u8
    ensures times { result ≡ times_of path.now }
    ensures bound { result ≤ 1 }
{
    match path {
        Some(path) => times_at(path),
        None => 0,
    }
}

fn times_at(path: &Text) -> u8
    ensures times { result ≡ times_of (Some path.now) }
    ensures bound { result ≤ 1 }
{
    if is_standard(path.as_str()) { 1 } else { 0 }
}
