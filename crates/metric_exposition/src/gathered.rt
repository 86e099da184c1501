//! Sections of a page, gathered by their families.
ghost use Rattle.std.specs.Prelude.{◌≡◌, ◌++◌, ◌∷◌, ◌<◌, [], ℕ, List, Some, None, IfOk, OnOk, map, length, get_or, slice_set, if◌then◌else◌};
ghost use Rattle.std.specs.BTreeMap.{get_by_text};
ghost use Rattle.std.specs.List.{flat_map, range_with_len};
ghost use Rattle.std.specs.Option.{unwrap_or};
ghost use Rattle.std.specs.Str.{bytes_eq};
ghost use Rattle.metric_contents.specs.PlaceLaws.{or_else};
ghost use Rattle.metric_exposition.specs.Sections.{gathered, lines_at, members, section_lines};

use crate::section::Section;
use metric_base::Items;
use std::alloc::{AllocError, Global};
use std::collections::BTreeMap;

/// Writes the sections of batches: those of one family together where the first of them stands, with the lines before
/// its points alone. Each family is looked up once, and each text copied once. Fails only when out of memory, and may
/// then have written a part.
pub fn push_gathered(
    alloc: Global,
    out: &mut Vec<u8>,
    batches: &[Items<Section>],
) -> Result<(), AllocError>
    ensures { OnOk result (out.new.items
        ≡ out.old.items ++ gathered (flat_map (λ sections. sections) batches.now)) }
{
    let sections = all_of(alloc, batches)?;
    push_all(alloc, out, sections.as_slice())
}

// The sections of all batches.
fn all_of<'a>(alloc: Global, batches: &'a [Items<Section>]) -> Result<Vec<&'a Section>, AllocError>
    ensures { IfOk result (λ all.
        map (λ s. s.now) all.items ≡ flat_map (λ sections. sections) batches.now) }
{
    let mut all = Vec::new(alloc);
    for sections in batches {
        push_each(&mut all, sections.as_slice())?;
    }
    Ok(all)
}

// Puts each section last.
fn push_each<'a>(all: &mut Vec<&'a Section>, sections: &'a [Section]) -> Result<(), AllocError>
    ensures { OnOk result (map (λ s. s.now) all.new.items
        ≡ map (λ s. s.now) all.old.items ++ sections.now) }
{
    for section in sections {
        all.push(section)?;
    }
    Ok(())
}

// Writes sections, those of one family together.
#[tactic(auto, unfolding(crate::specs::Sections::gathered))]
fn push_all(alloc: Global, out: &mut Vec<u8>, sections: &[&Section]) -> Result<(), AllocError>
    ensures { OnOk result (out.new.items
        ≡ out.old.items ++ gathered (map (λ s. s.now) sections.now)) }
{
    let members = members_of(alloc, sections)?;
    push_places(out, sections, members.as_slice())?;
    Ok(())
}

// Writes the sections of each place.
fn push_places(
    out: &mut Vec<u8>,
    sections: &[&Section],
    members: &[Items<usize>],
) -> Result<(), AllocError>
    ensures { OnOk result (out.new.items ≡ out.old.items ++ flat_map
        (λ place. flat_map (lines_at (map (λ s. s.now) sections.now) place)
        (get_or members.now place [])) (range_with_len 0 (length members.now))) }
{
    for (place, own) in members.iter().enumerate() {
        push_members(out, sections, place, own.as_slice())?;
    }
    Ok(())
}

// Writes the sections of one family, the first of which stands at this place.
#[tactic(auto, using(metric_text::specs::ListLaws::steps))]
fn push_members(
    out: &mut Vec<u8>,
    sections: &[&Section],
    place: usize,
    numbers: &[usize],
) -> Result<(), AllocError>
    ensures { OnOk result (out.new.items ≡ out.old.items
        ++ flat_map (lines_at (map (λ s. s.now) sections.now) place) numbers.now) }
{
    for number in numbers {
        push_one(out, sections, place, *number)?;
    }
    Ok(())
}

fn push_one(
    out: &mut Vec<u8>,
    sections: &[&Section],
    place: usize,
    number: usize,
) -> Result<(), AllocError>
    ensures { OnOk result (out.new.items ≡ out.old.items
        ++ lines_at (map (λ s. s.now) sections.now) place number) }
{
    match sections.get(number) {
        Some(section) => push_section(out, section, number == place),
        None => Ok(()),
    }
}

fn push_section(out: &mut Vec<u8>, section: &Section, is_first: bool) -> Result<(), AllocError>
    ensures { OnOk result (out.new.items ≡ out.old.items ++ section_lines is_first section.now) }
{
    if is_first {
        out.extend_from_slice(section.header.as_slice())?;
    }
    out.extend_from_slice(section.lines.as_slice())
}

// For each place the numbers of the sections with the family of the one there, if none before it has that.
fn members_of(alloc: Global, sections: &[&Section]) -> Result<Vec<Items<usize>>, AllocError>
    ensures len { IfOk result (λ found. length found.items ≡ length sections.now) }
    ensures each { IfOk result (λ found. (place : ℕ) → place < length sections.now
        → get_or found.items place [] ≡ members (map (λ s. s.now) sections.now) place) }
{
    let mut firsts: BTreeMap<String, usize> = BTreeMap::new(alloc);
    let mut found = none_of(alloc, sections)?;
    for (number, section) in sections.iter().enumerate() {
        let first = first_of(alloc, &mut firsts, number, section.family.as_str())?;
        add_member(&mut found, first, number)?;
    }
    Ok(found)
}

// None of each section.
fn none_of(alloc: Global, sections: &[&Section]) -> Result<Vec<Items<usize>>, AllocError>
    ensures { IfOk result (λ none. none.items ≡ map (λ _. []) sections.now) }
{
    sections.iter().map(|_| Items::new(alloc)).collect(alloc)
}

// The number of the first section with a family, which is kept where it is this one.
fn first_of(
    alloc: Global,
    firsts: &mut BTreeMap<String, usize>,
    number: usize,
    family: &str,
) -> Result<usize, AllocError>
    ensures first { IfOk result (λ first.
        first ≡ unwrap_or (get_by_text firsts.old family.now) number) }
    ensures firsts { OnOk result ((name : List ℕ) → get_by_text firsts.new name
        ≡ or_else (get_by_text firsts.old name)
        (if bytes_eq name family.now then Some number else None)) }
{
    if let Some(first) = firsts.get(family).copied() {
        return Ok(first);
    }
    firsts.insert(String::from_str(alloc, family)?, number)?;
    Ok(number)
}

// Puts a number last in the list at a place, if there is one.
fn add_member(
    members: &mut Vec<Items<usize>>,
    place: usize,
    number: usize,
) -> Result<(), AllocError>
    ensures { OnOk result (members.new.items ≡ slice_set members.old.items place
        (get_or members.old.items place [] ++ number ∷ [])) }
{
    if let Some(own) = members.get_mut(place) {
        own.push(number)?;
    }
    Ok(())
}
