//! The attributes that words give.
ghost use Rattle.std.specs.Prelude.{◌≡◌, ◌==◌, IfErr, IfOk, Ok, map};
ghost use Rattle.std.specs.List.{after_first, before_first, list_all};
ghost use Rattle.metric_command_lines.specs.Attributes.{attribute_of, has_equals, misuse_of, resource_in};
ghost use Rattle.metric_command_lines.specs.RequestFaults.{IsMisuse};

use crate::wormweekly::fault::{Misuse, RequestFault};
use metric_base::{Items, Text};
use metric_contents::OwnedAttr;
use metric_names::AttrValue;
use metric_resource::{Resource, ResourceFault};
use std::alloc::{AllocError, Global};

/// The resource of the attributes that words `KEY=VALUE` give, each with a text as its value.
///
/// # Errors
///
/// The first misuse, in this order: [`Misuse::NoEquals`], [`Misuse::TooMany`], [`Misuse::EmptyKey`],
/// [`Misuse::RepeatedKey`]; and [`RequestFault::Memory`].
pub(crate) fn resource_of(alloc: Global, words: &[&str]) -> Result<Resource, RequestFault>
    ensures given { IfOk result (λ resource.
        resource_in (map (λ w. w.now) words.now) ≡ Ok resource) }
    ensures refused { IfErr result (λ fault.
        IsMisuse fault (resource_in (map (λ w. w.now) words.now))) }
{
    if !all_have_equals(words) {
        return Err(RequestFault::Misused(Misuse::NoEquals));
    }
    let attributes = attributes_of(alloc, words)?;
    match Resource::from_items(Items::from_vec(attributes)) {
        Ok(resource) => Ok(resource),
        Err(fault) => Err(RequestFault::Misused(misuse_of(fault))),
    }
}

// Whether each word has a key and a value.
fn all_have_equals(words: &[&str]) -> bool
    ensures { result ≡ list_all (λ w. has_equals w.now) words.now }
{
    words.iter().all(|word| has_equals(word))
}

/// Whether a word has a key and a value, with `=` between.
pub fn has_equals(word: &str) -> bool
    ensures { result ≡ has_equals word.now }
{
    word.as_bytes().iter().any(|byte| *byte == b'=')
}

// The attribute of each word.
fn attributes_of(alloc: Global, words: &[&str]) -> Result<Vec<OwnedAttr>, AllocError>
    ensures { IfOk result (λ attributes.
        attributes.items ≡ map attribute_of (map (λ w. w.now) words.now)) }
{
    let mut attributes = Vec::new(alloc);
    for word in words {
        attributes.push(attribute_of(alloc, word)?)?;
    }
    Ok(attributes)
}

fn attribute_of(alloc: Global, word: &str) -> Result<OwnedAttr, AllocError>
    ensures { IfOk result (λ attribute. attribute ≡ attribute_of word.now) }
{
    let (key, value) = key_and_value(word);
    let key = Text::new(alloc, key)?;
    let value = AttrValue::Text(Text::new(alloc, value)?);
    Ok(OwnedAttr { key, value })
}

/// What stands before the first `=` of a word, and after it; without one the whole word, and nothing.
pub fn key_and_value(word: &str) -> (&str, &str)
    ensures key { result.0.now ≡ before_first (λ b. b == 61) word.now }
    ensures value { result.1.now ≡ after_first (λ b. b == 61) word.now }
{
    match word.split_once('=') {
        Some(parts) => parts,
        None => (word, ""),
    }
}

// What a fault of a resource is, which allocates no memory here.
fn misuse_of(fault: ResourceFault) -> Misuse
    ensures { result ≡ misuse_of fault }
{
    match fault {
        ResourceFault::TooMany => Misuse::TooMany,
        ResourceFault::EmptyKey => Misuse::EmptyKey,
        ResourceFault::RepeatedKey | ResourceFault::Memory => Misuse::RepeatedKey,
    }
}
