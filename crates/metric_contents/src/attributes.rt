//! The attributes of a recording.
ghost use Rattle.std.specs.Prelude.{◌≡◌};
ghost use Rattle.metric_names.specs.Values.{value_of};
ghost use Rattle.metric_names.specs.declared.value.AttrValue.TheVariants.{Flag, Text as IsText, Whole};
ghost use Rattle.metric_contents.specs.Attributes.{given_by};

use metric_base::Text;
use metric_names::{AttrValue, ValueRef};

/// An attribute that is borrowed (Common concepts, attribute).
#[derive(Clone, Copy)]
pub struct Attr<'a> {
    /// The name of the key.
    pub key: &'a str,
    /// The value.
    pub value: ValueRef<'a>,
}

impl<'a> Attr<'a> {
    /// The attribute of this key whose value is a text.
    pub const fn text(key: &'a str, value: &'a str) -> Attr<'a>
        ensures { given_by result ≡ (key.now, IsText value.now) }
    {
        let value = ValueRef::Text(value);
        Attr { key, value }
    }

    /// The attribute of this key whose value is a whole number.
    pub const fn whole(key: &'a str, value: i64) -> Attr<'a>
        ensures { given_by result ≡ (key.now, Whole value) }
    {
        let value = ValueRef::Whole(value);
        Attr { key, value }
    }

    /// The attribute of this key whose value is a flag.
    pub const fn flag(key: &'a str, value: bool) -> Attr<'a>
        ensures { given_by result ≡ (key.now, Flag value) }
    {
        let value = ValueRef::Flag(value);
        Attr { key, value }
    }
}

/// An attribute that is owned (Common concepts, attribute).
#[derive(Drop)]
pub struct OwnedAttr {
    /// The name of the key.
    pub key: Text,
    /// The value.
    pub value: AttrValue,
}

// What has a key and a value.
pub trait Attribute {
    ghost use Rattle.metric_contents.specs.Encoding.{Given};

    ghost given: { Self → Given };

    fn key(&self) -> &str
        ensures { result.now ≡ (given self.now).0 };

    fn value(&self) -> ValueRef<'_>
        ensures { value_of result ≡ (given self.now).1 };
}

impl Attribute for Attr<'_> {
    ghost use Rattle.metric_contents.specs.Attributes.{given_by};

    ghost given = { given_by };

    fn key(&self) -> &str {
        self.key
    }

    fn value(&self) -> ValueRef<'_> {
        self.value
    }
}

impl Attribute for OwnedAttr {
    ghost use Rattle.metric_contents.specs.Attributes.{given_by_owned};

    ghost given = { given_by_owned };

    fn key(&self) -> &str {
        self.key.as_str()
    }

    fn value(&self) -> ValueRef<'_> {
        self.value.as_ref()
    }
}
