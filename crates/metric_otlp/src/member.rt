//! Objects in JSON.
ghost use Rattle.std.specs.Prelude.{◌≡◌, [], ◌++◌, OnOk, map};
ghost use Rattle.std.specs.List.{filter_map};
ghost use Rattle.std.specs.Fmt.{signed_decimal};
ghost use Rattle.std.specs.Option.{option_map_or};
ghost use Rattle.metric_text.specs.Lists.{joined, led_by};
ghost use Rattle.metric_otlp.specs.Json.{named, object};
ghost use Rattle.metric_otlp.specs.Members.{is_left_out, member_json, name_of, shown, value_json};

use crate::json::{push_bracketed, push_counts, push_digits, push_quoted, push_signed_digits};
use metric_text::{push_byte, push_list, push_number, push_signed, push_text};
use std::alloc::AllocError;

/// A member of an object: its name, of letters alone, and its value.
#[derive(Clone, Copy)]
pub(crate) enum Member<'a> {
    /// A text.
    Text(&'a str, &'a str),
    /// A text, left out where it is empty.
    SomeText(&'a str, &'a str),
    /// A number of 64 bits, whose digits stand in quotes.
    Count(&'a str, u64),
    /// The same of a number that may be negative.
    Signed(&'a str, i64),
    /// A number of 64 bits, left out where it is 0.
    Time(&'a str, u64),
    /// A number of an enum, left out where it is 0.
    Enum(&'a str, u64),
    /// A flag, left out where it is not set.
    Flag(&'a str, bool),
    /// An optional double, which is whole.
    Double(&'a str, Option<i64>),
    /// Numbers of 64 bits, left out where there is none.
    Counts(&'a str, &'a [u64]),
    /// Doubles that are whole, left out where there is none.
    Doubles(&'a str, &'a [i64]),
    /// Items as they are written, with commas between; left out where there is none.
    Items(&'a str, &'a [u8]),
    /// An object as it is written.
    Object(&'a str, &'a [u8]),
}

/// Writes an object of the members that are not left out.
#[tactic(auto, unfolding(crate::specs::Json::object))]
pub(crate) fn push_object(out: &mut Vec<u8>, members: &[Member<'_>]) -> Result<(), AllocError>
    ensures { OnOk result (out.new.items
        ≡ out.old.items ++ object (map member_json members.now)) }
{
    push_byte(out, b'{')?;
    push_joined(out, members)?;
    push_byte(out, b'}')
}

fn push_joined(out: &mut Vec<u8>, members: &[Member<'_>]) -> Result<(), AllocError>
    ensures { OnOk result (out.new.items ≡ out.old.items ++ joined (λ text. text)
        (filter_map (λ member. member) (map member_json members.now))) }
{
    push_members(out, "", members)
}

// Writes the members that are not left out, with a text before the first and commas between.
fn push_members(out: &mut Vec<u8>, before: &str, members: &[Member<'_>]) -> Result<(), AllocError>
    ensures { OnOk result (out.new.items ≡ out.old.items ++ led_by before.now (λ text. text)
        (filter_map (λ member. member) (map shown members.now))) }
{
    let Some((member, members)) = members.split_first() else {
        return Ok(());
    };
    if is_left_out(member) {
        return push_members(out, before, members);
    }
    push_text(out, before)?;
    push_named(out, member)?;
    push_members(out, ",", members)
}

#[tactic(auto, unfolding(crate::specs::Json::named))]
fn push_named(out: &mut Vec<u8>, member: &Member<'_>) -> Result<(), AllocError>
    ensures { OnOk result (out.new.items
        ≡ out.old.items ++ named (name_of member.now) (value_json member.now)) }
{
    push_text(out, "\"")?;
    push_text(out, name_of(member))?;
    push_text(out, "\":")?;
    push_value(out, member)
}

fn is_left_out(member: &Member<'_>) -> bool
    ensures { result ≡ is_left_out member.now }
{
    match *member {
        Member::Text(..) | Member::Count(..) | Member::Signed(..) | Member::Object(..) => false,
        Member::SomeText(_, text) => text.is_empty(),
        Member::Time(_, number) | Member::Enum(_, number) => number == 0,
        Member::Flag(_, flag) => !flag,
        Member::Double(_, number) => number.is_none(),
        Member::Counts(_, numbers) => numbers.is_empty(),
        Member::Doubles(_, numbers) => numbers.is_empty(),
        Member::Items(_, items) => items.is_empty(),
    }
}

fn name_of<'a>(member: &Member<'a>) -> &'a str
    ensures { result.now ≡ name_of member.now }
{
    match *member {
        Member::Text(name, _)
        | Member::SomeText(name, _)
        | Member::Count(name, _)
        | Member::Signed(name, _)
        | Member::Time(name, _)
        | Member::Enum(name, _)
        | Member::Flag(name, _)
        | Member::Double(name, _)
        | Member::Counts(name, _)
        | Member::Doubles(name, _)
        | Member::Items(name, _)
        | Member::Object(name, _) => name,
    }
}

fn push_value(out: &mut Vec<u8>, member: &Member<'_>) -> Result<(), AllocError>
    ensures { OnOk result (out.new.items ≡ out.old.items ++ value_json member.now) }
{
    match *member {
        Member::Text(_, text) | Member::SomeText(_, text) => push_quoted(out, text),
        Member::Count(_, number) | Member::Time(_, number) => push_digits(out, number),
        Member::Signed(_, number) => push_signed_digits(out, number),
        Member::Enum(_, number) => push_number(out, number),
        Member::Flag(..) => push_text(out, "true"),
        Member::Double(_, number) => push_double(out, number),
        Member::Counts(_, numbers) => push_counts(out, numbers),
        Member::Doubles(_, numbers) => push_list(out, numbers),
        Member::Items(_, items) => push_bracketed(out, items),
        Member::Object(_, text) => out.extend_from_slice(text),
    }
}

fn push_double(out: &mut Vec<u8>, number: Option<i64>) -> Result<(), AllocError>
    ensures { OnOk result (out.new.items
        ≡ out.old.items ++ option_map_or signed_decimal number []) }
{
    match number {
        None => Ok(()),
        Some(number) => push_signed(out, number),
    }
}
