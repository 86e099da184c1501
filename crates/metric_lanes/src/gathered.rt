//! What the lanes of an instrument report to a reader, gathered one after the other.
ghost use Rattle.std.specs.Prelude.{◌≡◌, ◌≢◌, ◌↔◌, ◌+◌, ◌≤◌, ◌<◌, ◌^◌, true, IfOk, IfErr, IsTrue, OnOk, OnErr, FitsSigned};
ghost use Rattle.std.specs.Int.{w64};
ghost use Rattle.metric_facts.specs.declared.facts.Facts.{Facts};
ghost use Rattle.metric_core.specs.CellAnswers.{ReportsBatch};
ghost use Rattle.metric_safety.specs.SafeFacts.{IsSafeFacts, total as total_of};
ghost use Rattle.metric_slot.specs.Sightings.{seen_of};
ghost use Rattle.metric_lanes.specs.Gathering.{Gathers, GoTogether, IsTold, RefusesLane, lane_of, of_both};
ghost use Rattle.metric_lanes.specs.Joined.{all_join as values_join, joins as value_joins};
ghost use Rattle.metric_lanes.specs.Together.{AreStreamsTogether};
ghost use Rattle.metric_history.specs.Aggregations.{stream_aggregation};

use crate::together::streams_together;
use metric_base::Items;
use metric_contents::Refusal;
use metric_facts::{Facts, NumberedStream};
use metric_history::{Batch, Book, StreamPoints};
use metric_safety::laws::journals_are_bounded;
use metric_slot::{Seen, Slot, journal_reports_are_within};
use metric_views::StreamAggregation;
use std::alloc::{AllocError, Global};

/// What a collection asks of each lane.
#[derive(Clone, Copy, Debug, PartialEq, Eq, Drop)]
pub struct Asked {
    /// When the run started, in nanoseconds.
    pub start: u64,
    /// The number of the reader.
    pub reader: u32,
    /// The time at which it asks, in nanoseconds.
    pub now: u64,
}

/// What the lanes looked at so far report to a reader together; of one lane, what it reports.
#[derive(Drop)]
pub struct Gathered {
    /// What was asked.
    pub asked: Asked,
    /// The reader's last batch of these lanes: how many of their recordings it counted, and its time.
    pub last: Seen,
    /// The batch of all their recordings.
    pub batch: Batch,
}

impl Gathered {
    /// What one lane reports: the batch that its slot tells of what was asked, before the slot moves on.
    pub fn of_lane<B: Book>(slot: &Slot<B>, asked: Asked, batch: Batch) -> Gathered
        requires start { slot.now.start ≡ asked.start }
        requires reports { ReportsBatch B.stands slot.now asked.reader asked.now batch }
        ensures lane { result ≡ lane_of slot.now asked batch }
        ensures gathers { Gathers slot.now.facts result }
    {
        let cell = slot.cell();
        let last = Seen {
            mark: cell.mark_of(asked.reader),
            time: cell.time_of(asked.reader),
        };
        Gathered { asked, last, batch }
    }

    /// Puts one more lane of the instrument to these (Metrics SDK, collect). `Stranger` comes exactly where the
    /// reader's last batch of that lane is of another time, both have more recordings than the budgets and the spare
    /// allow, or a stream reports last values, of which none says which is the later one. The only other refusal is
    /// `Memory`.
    pub fn with(&self, alloc: Global, facts: &Facts, lane: &Gathered) -> Result<Gathered, Refusal>
        requires safe { IsSafeFacts facts.now }
        requires gathers { Gathers facts.now self.now }
        requires lane { Gathers facts.now lane.now }
        requires asked { lane.now.asked ≡ self.now.asked }
        ensures both { IfOk result (λ all.
            all ≡ of_both self.now lane.now all.batch.streams) }
        ensures streams { IfOk result (λ all.
            AreStreamsTogether self.now.batch.streams lane.now.batch.streams all.batch.streams) }
        ensures gathers { IfOk result (Gathers facts.now) }
        ensures together { OnOk result (GoTogether facts.now self.now lane.now) }
        ensures refused { IfErr result (RefusesLane facts.now self.now lane.now) }
    {
        if !self.goes_with(facts, lane) {
            return Err(Refusal::Stranger);
        }
        journals_are_bounded();
        range_fits(facts);
        let Ok(streams) = self.streams_with(alloc, facts, lane) else {
            return Err(Refusal::Memory);
        };
        Ok(self.of_both(lane, streams))
    }

    /// The batch of all lanes, for a reader that has seen so much, which has then seen that batch. `Stranger` comes
    /// exactly where its last batch of the lanes is not the one that was seen.
    pub fn finish(self, seen: &mut Seen) -> Result<Batch, Refusal>
        ensures batch { IfOk result (λ batch. batch ≡ self.batch) }
        ensures told { (own : Facts) → IsSafeFacts own → Gathers own self
            → IfOk result (λ batch. IsTold own self.asked seen.old batch) }
        ensures seen { IfOk result (λ batch. seen.new ≡ seen_of batch) }
        ensures own { OnOk result (self.last ≡ seen.old) }
        ensures refused { IfErr result (λ refusal.
            (refusal ≡ Refusal.Stranger) × (self.last ≢ seen.old)) }
        ensures seen_err { OnErr result (seen.new ≡ seen.old) }
    {
        if self.last != *seen {
            return Err(Refusal::Stranger);
        }
        journal_reports_are_within();
        *seen = Seen::of(&self.batch);
        Ok(self.batch)
    }

    // The points of each stream of the reader, put together.
    fn streams_with(
        &self,
        alloc: Global,
        facts: &Facts,
        lane: &Gathered,
    ) -> Result<Items<StreamPoints>, AllocError>
        requires safe { IsSafeFacts facts.now }
        requires gathers { Gathers facts.now self.now }
        requires lane { Gathers facts.now lane.now }
        requires asked { lane.now.asked ≡ self.now.asked }
        requires together { GoTogether facts.now self.now lane.now }
        ensures { IfOk result (λ streams.
            AreStreamsTogether self.now.batch.streams lane.now.batch.streams streams) }
    {
        journals_are_bounded();
        range_fits(facts);
        let streams = self.batch.streams.as_slice();
        streams_together(alloc, streams, lane.batch.streams.as_slice())
    }

    // What both report, where these are their streams' points.
    fn of_both(&self, lane: &Gathered, streams: Items<StreamPoints>) -> Gathered
        requires last { self.now.last.mark + lane.now.last.mark < 2 ^ 64 }
        requires from { self.now.batch.from + lane.now.batch.from < 2 ^ 64 }
        requires mark { self.now.batch.mark + lane.now.batch.mark < 2 ^ 64 }
        ensures { result ≡ of_both self.now lane.now streams }
    {
        Gathered {
            asked: self.asked,
            last: Seen {
                mark: self.last.mark + lane.last.mark,
                time: self.last.time,
            },
            batch: Batch {
                plan: self.batch.plan,
                reader: self.batch.reader,
                instrument: self.batch.instrument,
                from: self.batch.from + lane.batch.from,
                mark: self.batch.mark + lane.batch.mark,
                start: self.batch.start,
                time: self.batch.time,
                streams,
            },
        }
    }

    // Whether the lane goes with these.
    fn goes_with(&self, facts: &Facts, lane: &Gathered) -> bool
        requires counts { total_of facts.now < 2 ^ 64 }
        requires budgeted { self.now.batch.mark ≤ total_of facts.now }
        ensures { IsTrue result ↔ GoTogether facts.now self.now lane.now }
    {
        all_join(facts)
            && self.last.time == lane.last.time
            && lane.batch.mark <= total(facts) - self.batch.mark
    }
}

/// Whether the values of each stream of the instrument join, so that it may have several lanes. Sums and histograms do;
/// of last values none says which is the later one.
pub fn all_join(facts: &Facts) -> bool
    ensures { result ≡ values_join facts.now }
{
    facts.streams.as_slice().iter().all(|stream| joins(stream))
}

// Whether the values of a stream join.
fn joins(stream: &NumberedStream) -> bool
    ensures { result ≡ value_joins (stream_aggregation stream.now.stream) }
{
    match &stream.stream.aggregation {
        StreamAggregation::Sum | StreamAggregation::Histogram(_) => true,
        StreamAggregation::LastValue => false,
    }
}

// How often the instrument may be recorded: the budgets of all recorders, and the spare.
fn total(facts: &Facts) -> u64
    requires { total_of facts.now < 2 ^ 64 }
    ensures { result ≡ total_of facts.now }
{
    let mut total = facts.spare;
    for budget in facts.budgets.as_slice() {
        total += *budget;
    }
    total
}

// The least and the greatest value that may be recorded are of their type.
fn range_fits(facts: &Facts)
    ensures lo { FitsSigned w64 facts.now.lo }
    ensures hi { FitsSigned w64 facts.now.hi }
{
    // For the proof alone: they are read, so they are of their type.
    let _lo = facts.lo;
    let _hi = facts.hi;
}
