//! Which streams keep a sum.
ghost use Rattle.std.specs.Prelude.{◌≡◌, ◌<◌, ◌||◌, ℕ, IfOk, false, length, map};
ghost use Rattle.std.specs.List.{range_with_len};
ghost use Rattle.std.proofs.Common.{get_or};
ghost use Rattle.metric_bounds.specs.Sums.{is_summed, keeps_sum, sums_instrument};

use metric_base::Items;
use metric_views::{Stream, StreamAggregation};
use std::alloc::{AllocError, Global};

// Whether a stream keeps a sum: one that exports sums does, and a histogram of a kind whose values are
// never negative (Metrics SDK, explicit bucket histogram aggregation).
fn keeps_sum(stream: &Stream) -> bool
    ensures { result ≡ keeps_sum stream.now }
{
    match stream.aggregation {
        StreamAggregation::Sum => true,
        StreamAggregation::LastValue => false,
        StreamAggregation::Histogram(_) => stream.kind.is_monotonic(),
    }
}

/// Of each of so many instruments, in order, whether some stream keeps its sum, by one walk over all
/// streams.
pub fn summed(alloc: Global, streams: &[Stream], count: usize) -> Result<Items<bool>, AllocError>
    ensures { IfOk result (λ summed. summed
        ≡ map (is_summed streams.now) (range_with_len 0 count)) }
{
    let mut summed = vec![in alloc; false; count]?;
    for stream in streams {
        note_sum(summed.as_mut_slice(), stream);
    }
    Ok(Items::from_vec(summed))
}

// Notes that a stream keeps the sum of its instrument, where it does.
fn note_sum(summed: &mut [bool], stream: &Stream)
    ensures length { length summed.new ≡ length summed.old }
    ensures noted { (i : ℕ) → i < length summed.old → get_or summed.new i false
        ≡ (get_or summed.old i false || sums_instrument i stream.now) }
{
    let number = stream.instrument as usize;
    if number < summed.len() && keeps_sum(stream) {
        summed[number] = true;
    }
}
