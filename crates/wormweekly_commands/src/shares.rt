//! How full limits and budgets are, in ten-thousandths.
use crate::listing::Listing;
use crate::rooms::Rooms;
use crate::rows::series_of;
use std::alloc::{AllocError, Global};

/// Of each stream the series that it may have, of its limit.
pub(crate) fn stream_shares(alloc: Global, listing: &Listing) -> Result<Vec<u64>, AllocError> {
    let mut shares = Vec::new(alloc);
    for stream in listing.streams.list() {
        let totals = listing.totals.as_slice();
        let series = series_of(alloc, &listing.declared.catalogue, totals, stream)?;
        shares.push(share(series, u128::from(stream.limit)))?;
    }
    Ok(shares)
}

/// Of each instrument the budgets and the spare, of what is safe.
pub(crate) fn budget_shares(alloc: Global, rooms: &Rooms) -> Result<Vec<u64>, AllocError> {
    let mut shares = Vec::new(alloc);
    for room in rooms.rooms.as_slice() {
        shares.push(share(room.total, u128::from(room.most)))?;
    }
    Ok(shares)
}

// So many ten-thousandths are one number of another, rounded up.
fn share(part: u128, whole: u128) -> u64 {
    let shares = part.saturating_mul(10_000).div_ceil(whole.max(1));
    u64::try_from(shares).unwrap_or(u64::MAX)
}
