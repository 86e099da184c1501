//! Attribute values.
ghost use Rattle.std.specs.Prelude.{◌≡◌, ◌↔◌, IsTrue};
ghost use Rattle.metric_names.specs.Values.{value_of};

use metric_base::{Copied, Exact, Text};
use std::alloc::{AllocError, Global};
use std::fmt;

/// The value of an attribute: a text (the empty text is a value), a whole number or a flag. Values are
/// equal where type and value are equal (Common concepts, attribute).
#[derive(Debug, PartialEq, Eq, Drop)]
pub enum AttrValue {
    /// A text.
    Text(Text),
    /// A whole number.
    Whole(i64),
    /// A flag.
    Flag(bool),
}

/// An attribute's value that is borrowed.
#[derive(Clone, Copy, Debug)]
pub enum ValueRef<'a> {
    /// A text.
    Text(&'a str),
    /// A whole number.
    Whole(i64),
    /// A flag.
    Flag(bool),
}

impl AttrValue {
    /// The value, borrowed.
    pub fn as_ref(&self) -> ValueRef<'_>
        ensures { value_of result ≡ self.now }
    {
        match self {
            AttrValue::Text(text) => ValueRef::Text(text.as_str()),
            AttrValue::Whole(number) => ValueRef::Whole(*number),
            AttrValue::Flag(flag) => ValueRef::Flag(*flag),
        }
    }
}

impl ValueRef<'_> {
    /// Whether this is the same value: equal in type and value.
    pub fn is(&self, value: &AttrValue) -> bool
        ensures { IsTrue result ↔ (value_of self.now ≡ value.now) }
    {
        match value {
            AttrValue::Text(text) => matches!(self, ValueRef::Text(own) if *own == text.as_str()),
            AttrValue::Whole(number) => matches!(self, ValueRef::Whole(own) if own == number),
            AttrValue::Flag(flag) => matches!(self, ValueRef::Flag(own) if own == flag),
        }
    }
}

impl Copied for AttrValue {
    fn copy(&self, alloc: Global) -> Result<AttrValue, AllocError> {
        match self {
            AttrValue::Text(text) => Ok(AttrValue::Text(text.copy(alloc)?)),
            AttrValue::Whole(number) => Ok(AttrValue::Whole(*number)),
            AttrValue::Flag(flag) => Ok(AttrValue::Flag(*flag)),
        }
    }
}

impl Exact for AttrValue {
    ghost use Rattle.std.proofs.Common.{rules};

    ghost exact = { Prim.search rules };
}

impl fmt::Display for ValueRef<'_> {
    ghost use Rattle.std.specs.Prelude.{Some};
    ghost use Rattle.metric_names.specs.Values.{value_of, value_text};

    ghost output = { λ value. Some (value_text (value_of value)) };

    fn fmt<W: fmt::Write>(&self, f: &mut fmt::Formatter<W>) -> fmt::Result {
        match self {
            ValueRef::Text(text) => f.write_str(text),
            ValueRef::Whole(number) => write!(f, "{number}"),
            ValueRef::Flag(flag) => write!(f, "{flag}"),
        }
    }
}

impl fmt::Display for AttrValue {
    ghost use Rattle.std.specs.Prelude.{Some};
    ghost use Rattle.metric_names.specs.Values.{value_text};

    ghost output = { λ value. Some (value_text value) };

    fn fmt<W: fmt::Write>(&self, f: &mut fmt::Formatter<W>) -> fmt::Result {
        let value = self.as_ref();
        write!(f, "{value}")
    }
}
