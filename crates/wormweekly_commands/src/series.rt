//! How many series each stream may have.
ghost use Rattle.std.specs.Prelude.{◌≡◌, IfOk, map};
ghost use Rattle.wormweekly_commands.specs.Series.{all_series, series_of};

use crate::rows::series_of;
use metric_base::Items;
use metric_bounds::totals;
use metric_catalogue::Catalogue;
use metric_views::Stream;
use std::alloc::{AllocError, Global};

/// How many series each of these streams may have, their limits apart.
pub(crate) fn all_series(
    alloc: Global,
    catalogue: &Catalogue,
    streams: &[Stream],
) -> Result<Items<u128>, AllocError>
    ensures { IfOk result (λ series. series ≡ all_series catalogue.now streams.now) }
{
    let totals = totals(alloc, catalogue)?;
    series_with(alloc, catalogue, totals.as_slice(), streams)
}

fn series_with(
    alloc: Global,
    catalogue: &Catalogue,
    totals: &[u128],
    streams: &[Stream],
) -> Result<Items<u128>, AllocError>
    ensures { IfOk result (λ series. series
        ≡ map (series_of catalogue.now totals.now) streams.now) }
{
    let mut series = Items::new(alloc);
    for stream in streams {
        series.push(series_of(alloc, catalogue, totals, stream)?)?;
    }
    Ok(series)
}
