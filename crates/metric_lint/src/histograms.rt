//! Which views make histograms.
ghost use Rattle.std.specs.Prelude.{◌≡◌, ◌<◌, ◌||◌, ℕ, IfOk, false, length, map};
ghost use Rattle.std.specs.List.{range_with_len};
ghost use Rattle.std.proofs.Common.{get_or};
ghost use Rattle.metric_lint.specs.Remarks.{is_histogram_of, makes_histogram};

use metric_base::Items;
use metric_views::{Stream, StreamAggregation};
use std::alloc::{AllocError, Global};

// Of each of so many views, in order, whether some stream of it is a histogram, by one walk over all streams.
pub(crate) fn histogram_views(
    alloc: Global,
    streams: &[Stream],
    count: usize,
) -> Result<Items<bool>, AllocError>
    ensures { IfOk result (λ flags. flags
        ≡ map (makes_histogram streams.now) (range_with_len 0 count)) }
{
    let mut flags = vec![in alloc; false; count]?;
    for stream in streams {
        note_histogram(flags.as_mut_slice(), stream);
    }
    Ok(Items::from_vec(flags))
}

// Notes that the view of a stream makes a histogram, where the stream is one.
fn note_histogram(flags: &mut [bool], stream: &Stream)
    ensures length { length flags.new ≡ length flags.old }
    ensures noted { (i : ℕ) → i < length flags.old → get_or flags.new i false
        ≡ (get_or flags.old i false || is_histogram_of i stream.now) }
{
    if let Some(view) = stream.view {
        let number = view as usize;
        if number < flags.len() && matches!(stream.aggregation, StreamAggregation::Histogram(_)) {
            flags[number] = true;
        }
    }
}
