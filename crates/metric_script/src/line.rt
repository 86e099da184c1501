//! The lines of a script, each by itself.
ghost use Rattle.std.specs.Prelude.{◌≡◌, ◌^◌, length};
ghost use Rattle.std.specs.Option.{option_map};
ghost use Rattle.metric_text.specs.Reading.{Tells};
ghost use Rattle.metric_script.specs.Scripts.{is_passed_over};
ghost use Rattle.metric_script.specs.Reading.{all_attributes_in, amount_in, attribute_in, close_in, collect_in, event_in, grant_in, other_event_in, record_in, start_in, two_numbers_in};

use metric_base::Items;
use metric_contents::OwnedAttr;
use metric_history::Event;
use metric_text::{
    SpellingFault, after_byte, after_keyword, i64_at, quoted_at, u32_at, u32_of, u64_of, value_at,
    word_at,
};
use std::alloc::Global;

// Whether a line is passed over: it is empty or begins with `#`.
pub(crate) fn is_passed_over(line: &[u8]) -> bool
    ensures { result ≡ is_passed_over line.now }
{
    match line {
        [] => true,
        [first, ..] => *first == b'#',
    }
}

// The time of a line `start T`.
#[tactic(auto, unfolding(crate::specs::Reading::start_in))]
pub(crate) fn start_of(line: &[u8]) -> Option<u64>
    ensures { result ≡ start_in line.now }
{
    u64_of(after_keyword(line, "start ")?)
}

// The event of a line.
#[tactic(auto, unfolding(crate::specs::Reading::event_in))]
pub(crate) fn event_of(alloc: Global, line: &[u8]) -> Result<Event, SpellingFault>
    ensures { Tells (λ event. event) result (event_in line.now) }
{
    let (word, rest) = word_at(line);
    if word == b"record".as_slice() {
        let rest = after_byte(rest, b' ').ok_or(SpellingFault::Bad)?;
        return record_of(alloc, rest);
    }
    other_event_of(word, rest).ok_or(SpellingFault::Bad)
}

// The event of a line that is no recording, by its first word and what follows.
fn other_event_of(word: &[u8], rest: &[u8]) -> Option<Event>
    ensures { result ≡ other_event_in word.now rest.now }
{
    if word == b"collect".as_slice() {
        return collect_of(after_byte(rest, b' ')?);
    }
    if word == b"close".as_slice() {
        return close_of(after_byte(rest, b' ')?);
    }
    if word == b"grant".as_slice() {
        return grant_of(after_byte(rest, b' ')?);
    }
    None
}

// The recording after `record `.
#[tactic(auto, unfolding(crate::specs::Reading::record_in))]
fn record_of(alloc: Global, bytes: &[u8]) -> Result<Event, SpellingFault>
    ensures { Tells (λ event. event) result (record_in bytes.now) }
{
    let (recorder, instrument, rest) = two_numbers_at(bytes).ok_or(SpellingFault::Bad)?;
    let (value, rest) = amount_at(rest).ok_or(SpellingFault::Bad)?;
    let attrs = attributes_of(alloc, rest)?;
    Ok(Event::Record {
        recorder,
        instrument,
        attrs,
        value,
    })
}

// The collection after `collect `.
#[tactic(auto, unfolding(crate::specs::Reading::collect_in))]
fn collect_of(bytes: &[u8]) -> Option<Event>
    ensures { result ≡ collect_in bytes.now }
{
    let (reader, instrument, rest) = two_numbers_at(bytes)?;
    let word = after_byte(rest, b' ')?;
    let now = u64_of(word)?;
    Some(Event::Collect {
        reader,
        instrument,
        now,
    })
}

// The instrument that is closed, after `close `.
#[tactic(auto, unfolding(crate::specs::Reading::close_in))]
fn close_of(bytes: &[u8]) -> Option<Event>
    ensures { result ≡ close_in bytes.now }
{
    let instrument = u32_of(bytes)?;
    Some(Event::Close { instrument })
}

// The grant after `grant `.
#[tactic(auto, unfolding(crate::specs::Reading::grant_in))]
fn grant_of(bytes: &[u8]) -> Option<Event>
    ensures { result ≡ grant_in bytes.now }
{
    let (recorder, instrument, rest) = two_numbers_at(bytes)?;
    let word = after_byte(rest, b' ')?;
    let amount = u64_of(word)?;
    Some(Event::Grant {
        recorder,
        instrument,
        amount,
    })
}

// Two numbers with a space between, and what follows.
#[tactic(auto, unfolding(crate::specs::Reading::two_numbers_in))]
fn two_numbers_at(bytes: &[u8]) -> Option<(u32, u32, &[u8])>
    ensures { option_map (λ x. (x.0, x.1, x.2.now)) result ≡ two_numbers_in bytes.now }
{
    let (first, rest) = u32_at(bytes)?;
    let rest = after_byte(rest, b' ')?;
    let (second, rest) = u32_at(rest)?;
    Some((first, second, rest))
}

// A value after a space, and what follows.
#[tactic(auto, unfolding(crate::specs::Reading::amount_in))]
fn amount_at(bytes: &[u8]) -> Option<(i64, &[u8])>
    ensures { option_map (λ x. (x.0, x.1.now)) result ≡ amount_in bytes.now }
{
    i64_at(after_byte(bytes, b' ')?)
}

// The attributes up to the line's end.
fn attributes_of(alloc: Global, bytes: &[u8]) -> Result<Items<OwnedAttr>, SpellingFault>
    ensures { Tells (λ attrs. attrs) result (all_attributes_in bytes.now) }
{
    let mut attrs = Items::new(alloc);
    let mut rest = bytes;
    while !rest.is_empty() {
        let (attr, others) = attribute_at(alloc, rest)?;
        attrs.push(attr)?;
        rest = others;
    }
    Ok(attrs)
}

// An attribute with the space before it, and what follows.
#[tactic(auto, unfolding(crate::specs::Reading::attribute_in))]
fn attribute_at(alloc: Global, bytes: &[u8]) -> Result<(OwnedAttr, &[u8]), SpellingFault>
    ensures { Tells (λ x. (x.0, x.1.now)) result (attribute_in bytes.now) }
{
    let rest = after_byte(bytes, b' ').ok_or(SpellingFault::Bad)?;
    let (key, rest) = quoted_at(alloc, rest)?;
    let rest = after_byte(rest, b'=').ok_or(SpellingFault::Bad)?;
    let (value, rest) = value_at(alloc, rest)?;
    Ok((OwnedAttr { key, value }, rest))
}
