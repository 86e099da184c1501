//! Attributes as a host gives them.
ghost use Rattle.std.specs.Prelude.{◌≡◌, ◌≤◌, Some, length, map, option_map, take, IfErr, IfOk, IsTrue};
ghost use Rattle.std.specs.Str.{IsAscii};
ghost use Rattle.wormweekly_c.specs.Attributes.{attributes_from, given_first, looked_at, plain_value, text_first};
ghost use Rattle.wormweekly_c.specs.Reading.{ReadsFew, Refuses};
ghost use Rattle.metric_contents.specs.Attributes.{given_by};
ghost use Rattle.metric_names.specs.Values.{value_of};

use metric_contents::Attr;
use metric_names::ValueRef;
use std::alloc::Global;
use std::str::{from_utf8, from_utf8_unchecked};

/// An attribute without its texts, which stand beside it, those of all attributes one after the other: how long its
/// key's text is; what kind of value it has (0: a text of this length, 1: a whole number, 2: no, 3: yes).
#[repr(C)]
#[derive(Clone, Copy, Drop)]
pub struct Attribute {
    pub key: usize,
    pub kind: usize,
    pub text: usize,
    pub whole: i64,
}

/// Why attributes are not read.
#[derive(Clone, Copy, Drop)]
pub(crate) enum Unread {
    /// A length leads past the texts, a text is no UTF-8, or a kind is above 3.
    NoText,
    /// Out of memory.
    Memory,
}

/// At most eight attributes, in the first places of an array, and whether they were read.
#[derive(Clone, Copy)]
pub(crate) struct FewAttributes<'a> {
    pub(crate) all: [Attr<'a>; 8],
    pub(crate) are_read: bool,
}

// Of so many attributes a key stands twice or is not declared, since an instrument has at most eight keys: what follows
// could not mend that, and the keys are compared with one another.
const MOST: usize = 65;

/// The attributes of a recording that are looked at.
pub(crate) fn looked_at(given: &[Attribute]) -> &[Attribute]
    ensures { result.now ≡ looked_at given.now }
{
    if given.len() <= MOST {
        return given;
    }
    given.split_at(MOST).0
}

/// At most eight attributes. Allocates no memory.
pub(crate) fn few_attributes<'a>(texts: &'a [u8], given: &[Attribute]) -> FewAttributes<'a>
    requires { length given.now ≤ 8 }
    ensures { ReadsFew (attributes_from given.now texts.now)
        result.are_read (map given_by (take (length given.now) result.all)) }
{
    let nothing = Attr {
        key: "",
        value: ValueRef::Flag(false),
    };
    let mut all = [nothing; 8];
    let mut rest = texts;
    let mut are_read = true;
    for (at, own) in given.iter().enumerate() {
        match attr_of(rest, own) {
            None => {
                are_read = false;
                break;
            }
            Some((attr, left)) => {
                all[at] = attr;
                rest = left;
            }
        }
    }
    FewAttributes { all, are_read }
}

/// Any number of attributes.
pub(crate) fn all_attributes<'a>(
    alloc: Global,
    texts: &'a [u8],
    given: &[Attribute],
) -> Result<Vec<Attr<'a>>, Unread>
    ensures read { IfOk result (λ attrs.
        attributes_from given.now texts.now ≡ Some (map given_by attrs.items)) }
    ensures none { IfErr result (Refuses (attributes_from given.now texts.now)) }
{
    let mut attrs = Vec::new(alloc);
    let mut rest = texts;
    for own in given {
        match attr_of(rest, own) {
            None => return Err(Unread::NoText),
            Some((attr, left)) => {
                if attrs.push(attr).is_err() {
                    return Err(Unread::Memory);
                }
                rest = left;
            }
        }
    }
    Ok(attrs)
}

// The attribute whose texts stand first, and the texts that are left.
fn attr_of<'a>(texts: &'a [u8], own: &Attribute) -> Option<(Attr<'a>, &'a [u8])>
    ensures { option_map (λ read. (given_by read.0, read.1.now)) result
        ≡ given_first own.now texts.now }
{
    let (key, rest) = text_of(texts, own.key)?;
    if own.kind == 0 {
        let (text, rest) = text_of(rest, own.text)?;
        let value = ValueRef::Text(text);
        return Some((Attr { key, value }, rest));
    }
    let value = value_of(own)?;
    Some((Attr { key, value }, rest))
}

// The value of an attribute that is no text.
pub(crate) fn value_of(own: &Attribute) -> Option<ValueRef<'static>>
    ensures { option_map (λ value. value_of value) result ≡ plain_value own.now }
{
    match own.kind {
        1 => Some(ValueRef::Whole(own.whole)),
        2 => Some(ValueRef::Flag(false)),
        3 => Some(ValueRef::Flag(true)),
        _ => None,
    }
}

// The text of this length that stands first, and what is left.
pub(crate) fn text_of(texts: &[u8], length: usize) -> Option<(&str, &[u8])>
    ensures { option_map (λ read. (read.0.now, read.1.now)) result ≡ text_first length texts.now }
{
    if length > texts.len() {
        return None;
    }
    let (text, rest) = texts.split_at(length);
    if is_plain(text) {
        return Some((unsafe { from_utf8_unchecked(text) }, rest));
    }
    match from_utf8(text) {
        Ok(text) => Some((text, rest)),
        Err(_) => None,
    }
}

// Whether all bytes are ASCII: texts of attributes mostly are, and are short.
fn is_plain(text: &[u8]) -> bool
    ensures { IsTrue result → IsAscii text.now }
{
    for byte in text {
        if *byte >= 128 {
            return false;
        }
    }
    true
}
