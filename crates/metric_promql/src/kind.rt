//! The kinds of what is told of queries.
ghost use Rattle.std.specs.Prelude.{◌≡◌};
ghost use Rattle.metric_promql.specs.Kinds.{is_query_kind, kind_name};

/// What is told of a selector, or of a text that has none.
#[derive(Clone, Copy, Debug, PartialEq, Eq, Drop)]
pub enum QueryKind {
    /// The text is no PromQL, or its file is not read.
    Unread,
    /// An expression of a matcher cannot be read.
    BadPattern,
    /// No page has a sample of the name.
    UnknownFamily,
    /// There is the family, but its type has no such sample.
    UnknownSuffix,
    /// There is the family, and pages leave this sample out.
    LeftOut,
    /// No line has the label.
    UnknownLabel,
    /// The value is not declared.
    UnknownValue,
    /// No bucket has the boundary.
    UnknownBoundary,
    /// The expression matches no declared value.
    MatchesNone,
    /// What is excluded is each value that a line can have.
    MatchesAll,
    /// Each matcher takes some line, and no line is taken by all.
    NeverTogether,
    /// A function that asks for a counter is given a gauge.
    RateOfGauge,
    /// `histogram_quantile` is given no buckets.
    NoBuckets,
}

impl QueryKind {
    /// Its name, by which it is allowed or denied.
    pub fn name(&self) -> &'static str
        ensures { result.now ≡ kind_name self.now }
    {
        match self {
            QueryKind::Unread => "unread",
            QueryKind::BadPattern => "bad-pattern",
            QueryKind::UnknownFamily => "unknown-family",
            QueryKind::UnknownSuffix => "unknown-suffix",
            QueryKind::LeftOut => "left-out",
            QueryKind::UnknownLabel => "unknown-label",
            QueryKind::UnknownValue => "unknown-value",
            QueryKind::UnknownBoundary => "unknown-boundary",
            QueryKind::MatchesNone => "matches-none",
            QueryKind::MatchesAll => "matches-all",
            QueryKind::NeverTogether => "never-together",
            QueryKind::RateOfGauge => "rate-of-gauge",
            QueryKind::NoBuckets => "no-buckets",
        }
    }
}

/// Whether a kind has this name.
pub fn is_query_kind(name: &str) -> bool
    ensures { result ≡ is_query_kind name.now }
{
    matches!(
        name,
        "unread"
            | "bad-pattern"
            | "unknown-family"
            | "unknown-suffix"
            | "left-out"
            | "unknown-label"
            | "unknown-value"
            | "unknown-boundary"
            | "matches-none"
            | "matches-all"
            | "never-together"
            | "rate-of-gauge"
            | "no-buckets"
    )
}
