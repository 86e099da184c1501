//! What a refusal of a recording is about.
ghost use Rattle.std.specs.Prelude.{◌≡◌, Some, find, map, not, slice_get};
ghost use Rattle.std.specs.List.{list_any};
ghost use Rattle.std.specs.Option.{option_copied, option_map};
ghost use Rattle.std.specs.Result.{result_err};
ghost use Rattle.metric_contents.specs.Attributes.{given_by};
ghost use Rattle.metric_contents.specs.Encoding.{declares, has_declared_value, is_complete, is_declared, is_of};
ghost use Rattle.metric_contents.specs.KeyNames.{is_key};
ghost use Rattle.metric_lint.specs.Explanations.{combination_mistake, explained, explained_with, first_repeated, is_combined, key_mistake, missing_mistake, mistake_of, mistake_told, range_mistake, refusal_of, said_of, told_of, value_mistake};

use metric_catalogue::Catalogue;
use metric_contents::{Attr, Instrument, Key, Refusal, SetKey};
use metric_names::ValueRef;
use std::fmt;

/// Why a recording is refused for what it says.
#[derive(Clone, Copy)]
pub enum Explanation<'a> {
    /// The catalogue has no instrument of this number.
    UnknownInstrument(u32),
    /// The recording on the instrument of this name has a mistake.
    On(&'a str, Mistake<'a>),
}

/// What is wrong with a recording on an instrument, in the order in which it is looked for.
#[derive(Clone, Copy)]
pub enum Mistake<'a> {
    /// This key stands twice among the attributes.
    DuplicateKey(&'a str),
    /// The instrument does not declare this key.
    UnknownKey(&'a str),
    /// This key does not declare this value.
    UnknownValue(&'a str, ValueRef<'a>),
    /// This key is missing, and may not be left out.
    MissingKey(&'a str),
    /// The instrument does not allow the combination of the values.
    Combination,
    /// The value is outside the instrument's range.
    ValueRange {
        /// The value.
        value: i64,
        /// The least value of the range.
        lo: i64,
        /// The greatest value of the range.
        hi: i64,
    },
}

/// Why a recording of this value with these attributes on the instrument of this number is refused, or nothing where
/// what it says is in order: the first mistake, with the key, the value or the range that it is about. Allocates no
/// memory.
///
/// The refusal is that of `Catalogue::encode`, or where that gives none, `Refusal::ValueRange`. A recording may still
/// be refused for what was recorded before it.
pub fn explain_refusal<'a>(
    catalogue: &'a Catalogue,
    instrument: u32,
    attrs: &'a [Attr<'a>],
    value: i64,
) -> Option<Explanation<'a>>
    ensures told { option_map told_of result
        ≡ explained catalogue.now.instruments instrument (map given_by attrs.now) value }
    ensures agrees { option_map refusal_of (option_map told_of result)
        ≡ result_err (said_of catalogue.now.instruments instrument (map given_by attrs.now) value) }
{
    let is_combined = is_combined(&catalogue.encode(instrument, attrs));
    explained(
        catalogue.instruments(),
        instrument,
        attrs,
        is_combined,
        value,
    )
}

// Whether a set key was not refused for its combination.
fn is_combined(encoded: &Result<SetKey, Refusal>) -> bool
    ensures { result ≡ is_combined encoded.now }
{
    !matches!(encoded, Err(Refusal::Combination))
}

fn explained<'a>(
    instruments: &'a [Instrument],
    instrument: u32,
    attrs: &'a [Attr<'a>],
    is_combined: bool,
    value: i64,
) -> Option<Explanation<'a>>
    ensures { option_map told_of result ≡ explained_with instrument
        (slice_get instruments.now instrument) (map given_by attrs.now) is_combined value }
{
    match instruments.get(instrument as usize) {
        Some(declared) => explained_on(declared, attrs, is_combined, value),
        None => Some(Explanation::UnknownInstrument(instrument)),
    }
}

// The same on an instrument that is there.
fn explained_on<'a>(
    instrument: &'a Instrument,
    attrs: &'a [Attr<'a>],
    is_combined: bool,
    value: i64,
) -> Option<Explanation<'a>>
    ensures { option_map told_of result
        ≡ explained_with 0 (Some instrument.now) (map given_by attrs.now) is_combined value }
{
    match mistake_of(instrument, attrs, is_combined, value) {
        Some(mistake) => Some(Explanation::On(instrument.name.get().as_str(), mistake)),
        None => None,
    }
}

// The first mistake of a recording.
fn mistake_of<'a>(
    instrument: &'a Instrument,
    attrs: &'a [Attr<'a>],
    is_combined: bool,
    value: i64,
) -> Option<Mistake<'a>>
    ensures { option_map mistake_told result
        ≡ mistake_of instrument.now (map given_by attrs.now) is_combined value }
{
    match repeated(attrs) {
        Some(attr) => Some(Mistake::DuplicateKey(attr.key)),
        None => key_mistake(instrument, attrs, is_combined, value),
    }
}

// The same where no key stands twice.
fn key_mistake<'a>(
    instrument: &'a Instrument,
    attrs: &'a [Attr<'a>],
    is_combined: bool,
    value: i64,
) -> Option<Mistake<'a>>
    ensures { option_map mistake_told result
        ≡ key_mistake instrument.now (map given_by attrs.now) is_combined value }
{
    match undeclared(instrument, attrs) {
        Some(attr) => Some(Mistake::UnknownKey(attr.key)),
        None => value_mistake(instrument, attrs, is_combined, value),
    }
}

// The same where each key is declared, too.
fn value_mistake<'a>(
    instrument: &'a Instrument,
    attrs: &'a [Attr<'a>],
    is_combined: bool,
    value: i64,
) -> Option<Mistake<'a>>
    ensures { option_map mistake_told result
        ≡ value_mistake instrument.now (map given_by attrs.now) is_combined value }
{
    match unknown(instrument, attrs) {
        Some(attr) => Some(Mistake::UnknownValue(attr.key, attr.value)),
        None => missing_mistake(instrument, attrs, is_combined, value),
    }
}

// The same where each value is declared, too.
fn missing_mistake<'a>(
    instrument: &'a Instrument,
    attrs: &'a [Attr<'a>],
    is_combined: bool,
    value: i64,
) -> Option<Mistake<'a>>
    ensures { option_map mistake_told result
        ≡ missing_mistake instrument.now (map given_by attrs.now) is_combined value }
{
    match missing(instrument.keys.as_slice(), attrs) {
        Some(key) => Some(Mistake::MissingKey(key.name.as_str())),
        None => combination_mistake(instrument, is_combined, value),
    }
}

// The mistake of a combination that is not allowed, and then of the value.
fn combination_mistake<'a>(
    instrument: &Instrument,
    is_combined: bool,
    value: i64,
) -> Option<Mistake<'a>>
    ensures { option_map mistake_told result
        ≡ combination_mistake instrument.now is_combined value }
{
    if is_combined {
        range_mistake(instrument, value)
    } else {
        Some(Mistake::Combination)
    }
}

// The mistake of a value that is not in the instrument's range.
fn range_mistake<'a>(instrument: &Instrument, value: i64) -> Option<Mistake<'a>>
    ensures { option_map mistake_told result ≡ range_mistake instrument.now value }
{
    let (lo, hi) = (instrument.lo, instrument.hi);
    if lo <= value && value <= hi {
        return None;
    }
    Some(Mistake::ValueRange { value, lo, hi })
}

// The first attribute whose key stands again later. Each key is compared with all after it.
fn repeated<'a>(attrs: &'a [Attr<'a>]) -> Option<&'a Attr<'a>>
    ensures { option_map (λ attr. given_by attr.now) result
        ≡ first_repeated (map given_by attrs.now) }
{
    let mut left = attrs;
    while let [first, rest @ ..] = left {
        if is_given(rest, first.key) {
            return Some(first);
        }
        left = rest;
    }
    None
}

// Whether an attribute is of the key of this name.
#[tactic(auto, using(crate::proofs::Mapped::maps))]
fn is_given(attrs: &[Attr<'_>], name: &str) -> bool
    ensures { result ≡ list_any (is_of name.now) (map given_by attrs.now) }
{
    is_key_of_some(attrs, name)
}

fn is_key_of_some(attrs: &[Attr<'_>], name: &str) -> bool
    ensures { result ≡ list_any (λ attr. is_of name.now (given_by attr)) attrs.now }
{
    attrs.iter().any(|attr| attr.key == name)
}

// The first attribute whose key is not declared.
fn undeclared<'a>(instrument: &Instrument, attrs: &'a [Attr<'a>]) -> Option<&'a Attr<'a>>
    ensures { option_copied result
        ≡ find (λ attr. not (is_declared instrument.now.keys (given_by attr))) attrs.now }
{
    attrs.iter().find(|attr| is_undeclared(instrument, attr))
}

fn is_undeclared(instrument: &Instrument, attr: &Attr<'_>) -> bool
    ensures { result ≡ not (is_declared instrument.now.keys (given_by attr.now)) }
{
    !has_key(instrument.keys.as_slice(), attr.key)
}

fn has_key(keys: &[Key], name: &str) -> bool
    ensures { result ≡ list_any (is_key name.now) keys.now }
{
    keys.iter().any(|key| key.name.as_str() == name)
}

// The first attribute whose value the key of its name does not declare.
fn unknown<'a>(instrument: &Instrument, attrs: &'a [Attr<'a>]) -> Option<&'a Attr<'a>>
    ensures { option_copied result
        ≡ find (λ attr. not (has_declared_value instrument.now.keys (given_by attr))) attrs.now }
{
    attrs.iter().find(|attr| is_unknown(instrument, attr))
}

fn is_unknown(instrument: &Instrument, attr: &Attr<'_>) -> bool
    ensures { result ≡ not (has_declared_value instrument.now.keys (given_by attr.now)) }
{
    !has_declared_value(instrument.keys.as_slice(), attr)
}

fn has_declared_value(keys: &[Key], attr: &Attr<'_>) -> bool
    ensures { result ≡ has_declared_value keys.now (given_by attr.now) }
{
    keys.iter().all(|key| declares(key, attr))
}

// Whether a key declares an attribute's value, where that is of the key.
fn declares(key: &Key, attr: &Attr<'_>) -> bool
    ensures { result ≡ declares (given_by attr.now) key.now }
{
    attr.key != key.name.as_str() || key.values.number_of(attr.value).is_some()
}

// The first key that is missing.
fn missing<'a>(keys: &'a [Key], attrs: &[Attr<'_>]) -> Option<&'a Key>
    ensures { option_copied result
        ≡ find (λ key. not (is_complete (map given_by attrs.now) key)) keys.now }
{
    keys.iter().find(|key| is_missing(key, attrs))
}

fn is_missing(key: &Key, attrs: &[Attr<'_>]) -> bool
    ensures { result ≡ not (is_complete (map given_by attrs.now) key.now) }
{
    !key.optional && !is_given(attrs, key.name.as_str())
}

impl fmt::Display for Explanation<'_> {
    fn fmt<W: fmt::Write>(&self, f: &mut fmt::Formatter<W>) -> fmt::Result {
        match self {
            Explanation::UnknownInstrument(number) => write!(f, "there is no instrument {number}"),
            Explanation::On(name, mistake) => write!(f, "{name}: {mistake}"),
        }
    }
}

impl fmt::Display for Mistake<'_> {
    fn fmt<W: fmt::Write>(&self, f: &mut fmt::Formatter<W>) -> fmt::Result {
        match self {
            Mistake::DuplicateKey(key) => write!(f, "key {key:?} stands twice"),
            Mistake::UnknownKey(key) => write!(f, "key {key:?} is not declared"),
            Mistake::UnknownValue(key, value) => write_unknown(f, key, *value),
            Mistake::MissingKey(key) => write!(f, "key {key:?} is missing"),
            Mistake::Combination => f.write_str("the values are not allowed together"),
            Mistake::ValueRange { value, lo, hi } => {
                write!(f, "value {value} is not in the range from {lo} to {hi}")
            }
        }
    }
}

fn write_unknown<W: fmt::Write>(
    f: &mut fmt::Formatter<W>,
    key: &str,
    value: ValueRef<'_>,
) -> fmt::Result {
    match value {
        ValueRef::Text(text) => write!(f, "key {key:?} has no value {text:?}"),
        ValueRef::Whole(number) => write!(f, "key {key:?} has no value {number}"),
        ValueRef::Flag(flag) => write!(f, "key {key:?} has no value {flag}"),
    }
}
