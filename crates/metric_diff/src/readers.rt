//! Readers that go, or have another name.
ghost use Rattle.std.specs.Prelude.{◌≡◌, ◌++◌, OnOk, slice_get};
ghost use Rattle.metric_diff.specs.Changes.{has_other_name, reader_change};

use crate::change::Change;
use crate::parts::add_when;
use metric_base::Items;
use metric_views::{Config, Reader};
use std::alloc::AllocError;

/// Puts last that the old reader of a number goes, or has another name.
pub(crate) fn add_reader_change(
    changes: &mut Items<Change>,
    old: &Config,
    new: &Config,
    number: usize,
    found: Option<usize>,
) -> Result<(), AllocError>
    ensures { OnOk result (changes.new ≡ changes.old
        ++ reader_change old.now.readers new.now.readers number found) }
{
    match found {
        Some(other) => {
            let is_renamed = has_other_name(old.readers(), new.readers(), number, other);
            let (old, new) = (number, other);
            add_when(changes, is_renamed, Change::ReaderRenamed { old, new })
        }
        None => {
            changes.push(Change::ReaderGone { old: number })?;
            Ok(())
        }
    }
}

// Whether both are there, and have other names.
fn has_other_name(olds: &[Reader], news: &[Reader], number: usize, other: usize) -> bool
    ensures { result ≡ has_other_name (slice_get olds.now number) (slice_get news.now other) }
{
    match (olds.get(number), news.get(other)) {
        (Some(old), Some(new)) => old.name.as_str() != new.name.as_str(),
        _ => false,
    }
}
