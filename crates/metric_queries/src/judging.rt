//! What is told of a selector: why no line can match it, and which of its matchers say nothing.
//!
//! Which matcher is the reason is found by asking whether a part of the selector can match.
ghost use Rattle.std.specs.Prelude.{◌≡◌, ◌≢◌, ◌||◌, [], IfOk};
ghost use Rattle.metric_queries.specs.Remarks.{AreRemarks, is_servers};

use crate::asked::{Asked, asked_of, is_of_name, part_of};
use crate::known::{
    Known, can_match_at, can_match_some, first_of, has_type, have_buckets, have_label, is_recorded,
    is_servers, places_of,
};
use crate::served::Served;
use crate::test::Test;
use metric_base::Copied;
use metric_family::MetricType;
use metric_promql::{LabelTest, QueryKind, Selector, Sign};
use std::alloc::{AllocError, Global};

// So many matchers of a selector are put together by two.
const MOST_PAIRED: usize = 16;

/// What is told of a selector or of one of its matchers.
#[derive(Clone, Copy, Debug, PartialEq, Eq, Drop)]
pub struct QueryRemark {
    /// What it is.
    pub kind: QueryKind,
    /// The byte of the expression that it is about.
    pub at: usize,
    /// The number of the matcher that it is about, where it is about one.
    pub matcher: Option<usize>,
    /// The number of the other, where it is about two.
    pub other: Option<usize>,
    /// The number of the first stream of the name, where there is one.
    pub stream: Option<usize>,
}

/// What is told of a selector.
#[derive(Drop)]
pub struct Remarks {
    /// Why no line of a page can match it; empty where some can.
    pub reasons: Vec<QueryRemark>,
    /// What of it says nothing, or cannot be read.
    pub hints: Vec<QueryRemark>,
}

/// What is told of a selector. Its reasons are not empty exactly where no stream of the pages matches, and nothing else
/// may be asked for: no variable is its name, no rule records it, and no server writes it. Fails only when out of memory.
pub fn remarks_of(
    alloc: Global,
    known: &Known<'_, '_>,
    selector: &Selector,
) -> Result<Remarks, AllocError>
    ensures { IfOk result (AreRemarks known.now selector.now) }
{
    let tests = selector.tests.as_slice();
    let asked = asked_of(alloc, tests)?;
    let mut remarks = Remarks {
        reasons: Vec::new(alloc),
        hints: unread_of(alloc, tests, asked.as_slice())?,
    };
    if is_elsewhere(alloc, known, selector, asked.as_slice())? {
        return Ok(remarks);
    }
    if can_match_some(alloc, known.added, known.served, asked.as_slice())? {
        add_hints(alloc, known, selector, asked.as_slice(), &mut remarks.hints)?;
    } else {
        remarks.reasons = reasons_of(alloc, known, selector, asked.as_slice())?;
    }
    Ok(remarks)
}

// Whether a selector may ask for a series that no page has: its name is a variable, or one that rules record or a server
// writes.
fn is_elsewhere(
    alloc: Global,
    known: &Known<'_, '_>,
    selector: &Selector,
    asked: &[Asked],
) -> Result<bool, AllocError>
    ensures { IfOk result (λ answer. known.now.recorded.now ≡ []
        → answer ≡ (selector.now.is_open || is_servers asked.now)) }
{
    Ok(
        selector.is_open
            || is_servers(alloc, asked)?
            || is_recorded(alloc, known.recorded, selector, asked)?,
    )
}

// The matchers whose expressions cannot be read.
fn unread_of(
    alloc: Global,
    tests: &[LabelTest],
    asked: &[Asked],
) -> Result<Vec<QueryRemark>, AllocError> {
    let mut unread = Vec::new(alloc);
    for (number, test) in tests.iter().enumerate() {
        if is_unread(asked, number) {
            let kind = QueryKind::BadPattern;
            unread.push(remark_of(kind, test.at, Some(number), None))?;
        }
    }
    Ok(unread)
}

// Whether the expression of the matcher of a number cannot be read.
fn is_unread(asked: &[Asked], number: usize) -> bool {
    match asked.get(number) {
        Some(asked) => matches!(asked.test, Test::Any),
        None => false,
    }
}

// Why no line matches: its name, else each matcher that takes no line of the name, else two or all of them together.
fn reasons_of(
    alloc: Global,
    known: &Known<'_, '_>,
    selector: &Selector,
    asked: &[Asked],
) -> Result<Vec<QueryRemark>, AllocError>
    ensures { IfOk result (λ reasons. reasons.items ≢ []) }
{
    let places = places_of(alloc, known, asked)?;
    let places = places.as_slice();
    let mut reasons = Vec::new(alloc);
    if !fits(alloc, known, places, selector, &[])? {
        reasons.push(name_remark(known.served, selector))?;
        return Ok(reasons);
    }
    add_alone(alloc, known, places, selector, &mut reasons)?;
    if reasons.is_empty() {
        reasons.push(together_remark(alloc, known, places, selector)?)?;
    }
    Ok(reasons)
}

// Whether some line fulfils the matchers of the name and those of some numbers.
fn fits(
    alloc: Global,
    known: &Known<'_, '_>,
    places: &[usize],
    selector: &Selector,
    numbers: &[usize],
) -> Result<bool, AllocError> {
    let part = part_of(alloc, selector.tests.as_slice(), numbers)?;
    can_match_at(alloc, known, places, part.as_slice())
}

// What is told of a name that no line has.
fn name_remark(streams: &[Served<'_>], selector: &Selector) -> QueryRemark {
    let name = selector.name().unwrap_or("");
    for served in streams {
        if let Some(kind) = kind_of_suffix(served, name) {
            return remark_of(kind, selector.at, None, Some(served.number));
        }
    }
    remark_of(QueryKind::UnknownFamily, selector.at, None, None)
}

// What is told of a selector, or of the matcher of a number.
fn remark_of(
    kind: QueryKind,
    at: usize,
    matcher: Option<usize>,
    stream: Option<usize>,
) -> QueryRemark {
    QueryRemark {
        kind,
        at,
        matcher,
        other: None,
        stream,
    }
}

// Puts each matcher last that takes no line of the name.
fn add_alone(
    alloc: Global,
    known: &Known<'_, '_>,
    places: &[usize],
    selector: &Selector,
    reasons: &mut Vec<QueryRemark>,
) -> Result<(), AllocError> {
    let tests = selector.tests.as_slice();
    for (number, test) in tests.iter().enumerate() {
        if !fits(alloc, known, places, selector, &[number])? {
            let kind = kind_of(known, places, test);
            let stream = first_of(known, places);
            reasons.push(remark_of(kind, test.at, Some(number), stream))?;
        }
    }
    Ok(())
}

// Why a matcher takes no line that there is.
fn kind_of(known: &Known<'_, '_>, places: &[usize], test: &LabelTest) -> QueryKind {
    let label = test.label.as_str();
    if !have_label(known, places, label) {
        return QueryKind::UnknownLabel;
    }
    match test.sign {
        Sign::Equal => kind_of_value(known, places, label),
        Sign::Like => QueryKind::MatchesNone,
        Sign::NotEqual | Sign::Unlike => QueryKind::MatchesAll,
    }
}

fn kind_of_value(known: &Known<'_, '_>, places: &[usize], label: &str) -> QueryKind {
    if label == "le" && has_type(known, places, MetricType::Histogram) {
        QueryKind::UnknownBoundary
    } else {
        QueryKind::UnknownValue
    }
}

// The first two matchers that no line fulfils together, else all.
fn together_remark(
    alloc: Global,
    known: &Known<'_, '_>,
    places: &[usize],
    selector: &Selector,
) -> Result<QueryRemark, AllocError> {
    let (kind, stream) = (QueryKind::NeverTogether, first_of(known, places));
    let tests = selector.tests.as_slice();
    for (number, test) in tests.iter().take(MOST_PAIRED).enumerate() {
        let partner = partner_of(alloc, known, places, selector, number)?;
        if partner.is_some() {
            let mut remark = remark_of(kind, test.at, Some(number), stream);
            remark.other = partner;
            return Ok(remark);
        }
    }
    Ok(remark_of(kind, selector.at, None, stream))
}

// The first matcher behind a number that no line fulfils with that one.
fn partner_of(
    alloc: Global,
    known: &Known<'_, '_>,
    places: &[usize],
    selector: &Selector,
    number: usize,
) -> Result<Option<usize>, AllocError> {
    let end = selector.tests.len().min(MOST_PAIRED);
    for other in number.saturating_add(1)..end {
        if !fits(alloc, known, places, selector, &[number, other])? {
            return Ok(Some(other));
        }
    }
    Ok(None)
}

// Puts last what of a selector that can match says nothing.
fn add_hints(
    alloc: Global,
    known: &Known<'_, '_>,
    selector: &Selector,
    asked: &[Asked],
    hints: &mut Vec<QueryRemark>,
) -> Result<(), AllocError> {
    let places = places_of(alloc, known, asked)?;
    let places = places.as_slice();
    let tests = selector.tests.as_slice();
    for (number, test) in tests.iter().enumerate() {
        if is_unread(asked, number) {
            continue;
        }
        if let Some(kind) = hint_of(alloc, known, places, selector, test)? {
            let stream = first_of(known, places);
            hints.push(remark_of(kind, test.at, Some(number), stream))?;
        }
    }
    add_uses(alloc, known, places, selector, asked, hints)
}

// What is told of a matcher that says nothing: its label is in no line, or it excludes a value that is not declared. One
// of an empty text asks whether there is a label at all.
fn hint_of(
    alloc: Global,
    known: &Known<'_, '_>,
    places: &[usize],
    selector: &Selector,
    test: &LabelTest,
) -> Result<Option<QueryKind>, AllocError> {
    let label = test.label.as_str();
    if is_of_name(test) || test.text.as_str().is_empty() {
        return Ok(None);
    }
    if !have_label(known, places, label) {
        return Ok(Some(QueryKind::UnknownLabel));
    }
    if test.sign != Sign::NotEqual || has_value(alloc, known, places, selector, test)? {
        return Ok(None);
    }
    Ok(Some(kind_of_value(known, places, label)))
}

// Whether some line of the name has the text of a matcher.
fn has_value(
    alloc: Global,
    known: &Known<'_, '_>,
    places: &[usize],
    selector: &Selector,
    matcher: &LabelTest,
) -> Result<bool, AllocError> {
    let mut part = part_of(alloc, selector.tests.as_slice(), &[])?;
    let label = matcher.label.copy(alloc)?;
    let test = Test::Is(matcher.text.copy(alloc)?);
    part.push(Asked { label, test })?;
    can_match_at(alloc, known, places, part.as_slice())
}

// Tells that a function is given what it does not ask for.
fn add_uses(
    alloc: Global,
    known: &Known<'_, '_>,
    places: &[usize],
    selector: &Selector,
    asked: &[Asked],
    hints: &mut Vec<QueryRemark>,
) -> Result<(), AllocError> {
    let stream = first_of(known, places);
    let counts = has_type(known, places, MetricType::Counter)
        || has_type(known, places, MetricType::Histogram);
    if selector.rate.is_some() && !counts {
        hints.push(remark_of(QueryKind::RateOfGauge, selector.at, None, stream))?;
    }
    let has_buckets = selector.keeps_le && have_buckets(alloc, known, places, asked)?;
    if selector.is_quantile && !has_buckets {
        hints.push(remark_of(QueryKind::NoBuckets, selector.at, None, stream))?;
    }
    Ok(())
}

// Where a name is that of a stream's family with an end that another type has, or that pages leave out: which it is.
fn kind_of_suffix(served: &Served<'_>, name: &str) -> Option<QueryKind> {
    let suffix = name.strip_prefix(served.family.as_str())?;
    let is_own = served.kind.suffixes().iter().any(|own| *own == suffix);
    match suffix {
        "_sum" | "_count" | "_created" if is_own => Some(QueryKind::LeftOut),
        "" | "_total" | "_bucket" | "_sum" | "_count" | "_created" => {
            Some(QueryKind::UnknownSuffix)
        }
        _ => None,
    }
}
