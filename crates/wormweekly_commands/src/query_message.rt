//! What a person is told of a query.
use metric_base::{Items, Text};
use metric_messages::{Pair, Quoted, nearest, stream_of};
use metric_promql::{LabelTest, NAME_LABEL, QueryKind, Selector, Unread};
use metric_queries::{Known, QueryRemark, choices_of};
use metric_views::Stream;
use std::alloc::{AllocError, Global};

/// What a person is told of a selector: why no line can match it or what of it says nothing, what is near, and which view
/// or instrument is the reason. Fails only when out of memory.
pub(crate) fn words_of(
    alloc: Global,
    pair: Pair<'_>,
    streams: &[Stream],
    known: &Known<'_, '_>,
    selector: &Selector,
    remark: QueryRemark,
) -> Result<String, AllocError> {
    let mut words = match test_at(selector, remark.matcher) {
        Some(test) => statement_of_test(alloc, selector, remark, test)?,
        None => statement_of_name(alloc, selector, remark.kind)?,
    };
    let choices = choices_of(alloc, known, selector, remark)?;
    push_near(alloc, &mut words, meant(selector, remark), &choices)?;
    push_reason(alloc, &mut words, pair, streams, remark)?;
    Ok(words)
}

// The text that is not there.
fn meant(selector: &Selector, remark: QueryRemark) -> &str {
    match (test_at(selector, remark.matcher), remark.kind) {
        (Some(test), QueryKind::UnknownLabel) => test.label.as_str(),
        (Some(test), _) => test.text.as_str(),
        (None, _) => name_of(selector),
    }
}

// The name that is asked for, or how it is.
fn name_of(selector: &Selector) -> &str {
    match (selector.tests.as_slice().iter()).find(|test| test.label.as_str() == NAME_LABEL) {
        Some(test) => test.text.as_str(),
        None => "",
    }
}

fn test_at(selector: &Selector, number: Option<usize>) -> Option<&LabelTest> {
    selector.tests.as_slice().get(number?)
}

// Puts the nearest that exists last, where one is near.
fn push_near(
    alloc: Global,
    words: &mut String,
    text: &str,
    choices: &Items<Text>,
) -> Result<(), AllocError> {
    let mut texts = Vec::new(alloc);
    for choice in choices.as_slice() {
        texts.push(choice.as_str())?;
    }
    let near = match as_boundary(text, texts.as_slice()) {
        Some(boundary) => Some(boundary),
        None => nearest(text, texts.as_slice()),
    };
    if let Some(near) = near {
        let near = Quoted(near);
        write!(words, "; did you mean {near}?")?;
    }
    Ok(())
}

// The boundary of a number as a page writes it: with a point.
fn as_boundary<'w>(text: &str, choices: &[&'w str]) -> Option<&'w str> {
    choices
        .iter()
        .find(|choice| choice.strip_prefix(text) == Some(".0"))
        .copied()
}

// Puts the stream last that is the reason, with its view.
fn push_reason(
    alloc: Global,
    words: &mut String,
    pair: Pair<'_>,
    streams: &[Stream],
    remark: QueryRemark,
) -> Result<(), AllocError> {
    let Some(number) = remark.stream else {
        return Ok(());
    };
    let Some(stream) = streams.get(number) else {
        return Ok(());
    };
    let number = u32::try_from(number).unwrap_or(u32::MAX);
    let told = stream_of(alloc, pair, number, stream)?;
    write!(words, " ({told})")?;
    Ok(())
}

// What is told of a name, without what is near.
fn statement_of_name(
    alloc: Global,
    selector: &Selector,
    kind: QueryKind,
) -> Result<String, AllocError> {
    let name = Quoted(name_of(selector));
    match kind {
        QueryKind::UnknownSuffix => {
            format!(in alloc; "no page has {name}: its family has other lines")
        }
        QueryKind::LeftOut => {
            format!(in alloc; "pages leave {name} out, where values or boundaries may be negative")
        }
        QueryKind::NeverTogether => {
            format!(in alloc; "no line of {name} fulfils all matchers together")
        }
        QueryKind::RateOfGauge => {
            let call = selector.rate.unwrap_or("rate");
            format!(in alloc; "{call} asks for a counter, and {name} is a gauge")
        }
        QueryKind::NoBuckets => {
            format!(in alloc;
                "histogram_quantile asks for buckets, and {name} comes without \"le\""
            )
        }
        _ => format!(in alloc; "no page has {name}"),
    }
}

fn statement_of_test(
    alloc: Global,
    selector: &Selector,
    remark: QueryRemark,
    test: &LabelTest,
) -> Result<String, AllocError> {
    let label = Quoted(test.label.as_str());
    let text = Quoted(test.text.as_str());
    match remark.kind {
        QueryKind::BadPattern => format!(in alloc; "the expression {text} can't be read"),
        QueryKind::UnknownLabel => {
            let name = Quoted(name_of(selector));
            format!(in alloc; "no line of {name} has the label {label}")
        }
        QueryKind::UnknownBoundary => format!(in alloc; "no bucket has the boundary {text}"),
        QueryKind::MatchesNone => {
            format!(in alloc; "the expression {text} matches no value of {label}")
        }
        QueryKind::MatchesAll => format!(in alloc; "{text} excludes each value of {label}"),
        QueryKind::NeverTogether => statement_of_two(alloc, selector, remark, test),
        _ => format!(in alloc; "no line has {label} as {text}"),
    }
}

// That no line fulfils two matchers together.
fn statement_of_two(
    alloc: Global,
    selector: &Selector,
    remark: QueryRemark,
    first: &LabelTest,
) -> Result<String, AllocError> {
    let one = written(alloc, first)?;
    match test_at(selector, remark.other) {
        Some(second) => {
            let other = written(alloc, second)?;
            format!(in alloc; "no line fulfils both {one} and {other}")
        }
        None => format!(in alloc; "no line fulfils {one} with the others"),
    }
}

// A matcher as it is written.
fn written(alloc: Global, test: &LabelTest) -> Result<String, AllocError> {
    let label = test.label.as_str();
    let sign = test.sign.as_str();
    let text = Quoted(test.text.as_str());
    format!(in alloc; "{label}{sign}{text}")
}

/// What is told of what is not read.
pub(crate) fn cause_of(cause: Unread) -> &'static str {
    match cause {
        Unread::Character => "this character has no meaning in PromQL",
        Unread::Unclosed => "these quotes are not closed",
        Unread::Escape => "these quotes have an escape that there is not",
        Unread::Number => "this is neither a number nor a duration, as \"1h30m\" is",
        Unread::Operand => "a value is expected here",
        Unread::Operator => "an operator is expected here, or the end",
        Unread::Label => "a label is expected here",
        Unread::Sign => "one of = != =~ !~ is expected here",
        Unread::Quoted => "a text in quotes is expected here",
        Unread::Comma => "a comma is expected here, or what closes the list",
        Unread::TwoNames => "a selector has one name, and this is another",
        Unread::Empty => "a selector has a name or a matcher, and this has neither",
        Unread::Duration => "a duration is expected here, as \"5m\"",
        Unread::Range =>
            "a range belongs to a selector; of another value it has steps, as \"[1h:5m]\"",
        Unread::Bracket => "a bracket is expected here",
        Unread::Open => "this bracket is not closed",
        Unread::Json => "this is not JSON, as a dashboard is",
        Unread::Deep => "more than 100 brackets stand in one another here",
    }
}
