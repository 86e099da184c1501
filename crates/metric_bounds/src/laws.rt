//! What the definitions of bounds come to. The functions do nothing.
ghost use Rattle.metric_bounds.specs.Listing.{ListsTakeAway};
ghost use Rattle.metric_bounds.specs.Most.{SafeTotalsAreGreatest};

/// No stream of a config has more series where its instrument lists combinations than where it does not.
pub fn lists_take_away()
    ensures { ListsTakeAway }
{}

/// The greatest safe total of a range is the greatest below 2^63 at which an instrument of it is safe, where a sum is
/// kept of each but a gauge.
pub fn safe_totals_are_greatest()
    ensures { SafeTotalsAreGreatest }
{}
