//! What lanes report together is what their recordings report in every order. The functions do nothing.
ghost use Rattle.metric_lanes.specs.Joined.{JoinsValues};
ghost use Rattle.metric_lanes.specs.Lanes.{BatchesTogether};
ghost use Rattle.metric_lanes.specs.Together.{HoldsJournals, ReportTogether, TogetherOnce};

use metric_safety::laws::journals_are_bounded;

/// What two lanes report of a series, joined, is what is reported of their values in every order.
#[tactic(auto, using(crate::proofs::JoinedLaws::joins_values))]
pub fn values_join()
    ensures { JoinsValues }
{}

/// What two lanes report of a stream, put together, is what it reports of their recordings in every order, where it has
/// a place for each series; and no other points are.
pub fn lanes_report_together()
    ensures reports { ReportTogether }
    ensures once { TogetherOnce }
{}

/// A batch of two lanes, put together, is that of every order of their recordings in which the reader's last batch of
/// both was made in one moment (Metrics SDK, collect).
pub fn batches_are_put_together()
    ensures { BatchesTogether }
{}

/// Each stream of a certified instrument has a place for each series of the recordings that it may have accepted.
pub fn certified_series_are_held()
    ensures { HoldsJournals }
{
    journals_are_bounded();
}
