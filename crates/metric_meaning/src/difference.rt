//! In what an instrument is not what a program was made for, and how that is said.
use metric_contents::Kind;
use metric_names::ValueRef;
use std::fmt;

/// In what an instrument is not what a program was made for, in texts of what is declared, and of what is asked for.
#[derive(Clone, Copy)]
pub enum Difference<'d, 'a> {
    /// There is no such instrument.
    NoInstrument,
    /// It has this name.
    Name(&'d str),
    /// Its meter has this name, if there is one.
    Meter(Option<&'d str>),
    /// It is of this kind.
    Kind(Kind),
    /// It has this unit.
    Unit(&'d str),
    /// It has no key of this name behind those before.
    NoKey(&'a str),
    /// It has a key of this name where one of that name is asked for.
    OtherKey(&'d str, &'a str),
    /// This key may be left out.
    Optional(&'d str),
    /// This key may not be left out.
    Required(&'d str),
    /// This key has no such value at this place, from 1.
    Value(&'d str, ValueRef<'a>, usize),
    /// This key is not asked for, and may not be left out.
    Further(&'d str),
}

impl fmt::Display for Difference<'_, '_> {
    fn fmt<W: fmt::Write>(&self, f: &mut fmt::Formatter<W>) -> fmt::Result {
        match self {
            Difference::NoInstrument => f.write_str("there is no such instrument"),
            Difference::Name(name) => write!(f, "its name is {name:?}"),
            Difference::Meter(Some(meter)) => write!(f, "its meter is {meter:?}"),
            Difference::Meter(None) => f.write_str("it has no meter"),
            Difference::Kind(kind) => write!(f, "it is {}", kind_words(*kind)),
            Difference::Unit(unit) => write!(f, "its unit is {unit:?}"),
            Difference::NoKey(key) => write!(f, "it has no key {key:?}"),
            Difference::OtherKey(own, key) => write!(f, "key {own:?} stands in place of {key:?}"),
            Difference::Optional(key) => write!(f, "key {key:?} may be left out"),
            Difference::Required(key) => write!(f, "key {key:?} may not be left out"),
            Difference::Value(key, value, place) => write_value(f, key, *value, *place),
            Difference::Further(key) => {
                write!(f, "key {key:?} is not asked for, and may not be left out")
            }
        }
    }
}

fn kind_words(kind: Kind) -> &'static str {
    match kind {
        Kind::Counter => "a counter",
        Kind::UpDownCounter => "an up-down counter",
        Kind::Histogram => "a histogram",
        Kind::Gauge => "a gauge",
    }
}

fn write_value<W: fmt::Write>(
    f: &mut fmt::Formatter<W>,
    key: &str,
    value: ValueRef<'_>,
    place: usize,
) -> fmt::Result {
    match value {
        ValueRef::Text(text) => write!(f, "key {key:?} has no value {text:?} at place {place}"),
        ValueRef::Whole(number) => write!(f, "key {key:?} has no value {number} at place {place}"),
        ValueRef::Flag(flag) => write!(f, "key {key:?} has no value {flag} at place {place}"),
    }
}
