//! The words that a config may choose from, of which none is left out.
ghost use Rattle.std.specs.Prelude.{map};
ghost use Rattle.metric_messages.specs.Choices.{NameEachAggregation, NameEachForGauges, NameEachTemporality};

const TEMPORALITIES: [&str; 2] = ["delta", "cumulative"];

const AGGREGATIONS: [&str; 5] = [
    "default",
    "drop",
    "sum",
    "last_value",
    "explicit_bucket_histogram",
];

const GAUGE_AGGREGATIONS: [&str; 4] = [
    "default",
    "drop",
    "last_value",
    "explicit_bucket_histogram",
];

// The words for temporalities.
#[tactic(auto, using(crate::proofs::ChoiceLaws::choices))]
pub(crate) fn temporality_words() -> &'static [&'static str]
    ensures { NameEachTemporality (map (λ word. word.now) result.now) }
{
    &TEMPORALITIES
}

// The words for aggregations.
#[tactic(auto, using(crate::proofs::ChoiceLaws::choices))]
pub(crate) fn aggregation_words() -> &'static [&'static str]
    ensures { NameEachAggregation (map (λ word. word.now) result.now) }
{
    &AGGREGATIONS
}

// The words for aggregations of a gauge.
#[tactic(auto, using(crate::proofs::ChoiceLaws::choices))]
pub(crate) fn gauge_aggregation_words() -> &'static [&'static str]
    ensures { NameEachForGauges (map (λ word. word.now) result.now) }
{
    &GAUGE_AGGREGATIONS
}
