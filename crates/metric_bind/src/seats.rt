//! Recorders: one by one, or as a list where their names end in numbers from 0.
use crate::drafting::{Draft, names_of_texts, number_text, put_text, text_at};
use crate::tree::Row;
use metric_contents::Recorder;
use std::alloc::{AllocError, Global};

// Recorders under one name: a list, or a single one.
#[derive(Drop)]
struct Seat<'c> {
    name: &'c str,
    is_list: bool,
    members: Vec<usize>,
}

/// Adds the recorders.
pub(crate) fn add_seats(
    alloc: Global,
    draft: &mut Draft,
    recorders: &[Recorder],
) -> Result<(), AllocError> {
    let has_lists = draft.language.has_lists;
    let seats = seats_of(alloc, recorders, has_lists)?;
    let mut texts = Vec::new(alloc);
    for seat in &seats {
        texts.push(seat.name)?;
    }
    let language = draft.language;
    let names = names_of_texts(alloc, texts.as_slice(), language.seats.style)?;
    for (number, seat) in seats.iter().enumerate() {
        add_seat(
            alloc,
            draft,
            seat,
            text_at(names.as_slice(), number),
            recorders,
        )?;
    }
    Ok(())
}

fn seats_of(
    alloc: Global,
    recorders: &[Recorder],
    has_lists: bool,
) -> Result<Vec<Seat<'_>>, AllocError> {
    let mut seats = Vec::new(alloc);
    for (number, recorder) in recorders.iter().enumerate() {
        let name = recorder.name.as_str();
        let base = if has_lists { base_of(name) } else { None };
        add_member(alloc, &mut seats, name, base, number)?;
    }
    Ok(seats)
}

// A recorder whose number in its name is the next of a list joins it; that of the number 0 begins one.
fn add_member<'c>(
    alloc: Global,
    seats: &mut Vec<Seat<'c>>,
    name: &'c str,
    base: Option<(&'c str, usize)>,
    number: usize,
) -> Result<(), AllocError> {
    let mut members = Vec::new(alloc);
    members.push(number)?;
    let Some((base, at)) = base else {
        return add_new(seats, name, false, members);
    };
    for seat in seats.iter_mut() {
        if seat.is_list && seat.name == base && seat.members.len() == at {
            seat.members.push(number)?;
            return Ok(());
        }
    }
    if at == 0 {
        add_new(seats, base, true, members)
    } else {
        add_new(seats, name, false, members)
    }
}

fn add_new<'c>(
    seats: &mut Vec<Seat<'c>>,
    name: &'c str,
    is_list: bool,
    members: Vec<usize>,
) -> Result<(), AllocError> {
    seats.push(Seat {
        name,
        is_list,
        members,
    })?;
    Ok(())
}

// What stands before the number at the end of a name, and that number, which does not begin with another 0.
fn base_of(name: &str) -> Option<(&str, usize)> {
    let before = name.trim_end_matches(|letter: char| letter.is_ascii_digit());
    let digits = name.strip_prefix(before)?;
    let number = digits.parse::<usize>().ok()?;
    if digits.len() > 1 && digits.starts_with('0') {
        return None;
    }
    let base = before.trim_end_matches([' ', '_', '.', '-']);
    if base.is_empty() {
        None
    } else {
        Some((base, number))
    }
}

fn add_seat(
    alloc: Global,
    draft: &mut Draft,
    seat: &Seat<'_>,
    name: &str,
    recorders: &[Recorder],
) -> Result<(), AllocError> {
    let mut row = Row::new(alloc, "seat", 0);
    row.put("seat", String::from_str(alloc, name));
    row.put_if(alloc, "list", seat.is_list);
    let whose = format!(in alloc; "the recorder {:?}", seat.name)?;
    let language = draft.language;
    let above = draft.add_named(alloc, row, language.seats.whole, whose.as_str())?;
    for member in &seat.members {
        add_one(alloc, draft, above, *member, recorders)?;
    }
    Ok(())
}

fn add_one(
    alloc: Global,
    draft: &mut Draft,
    above: usize,
    number: usize,
    recorders: &[Recorder],
) -> Result<(), AllocError> {
    let Some(recorder) = recorders.get(number) else {
        return Ok(());
    };
    let mut row = Row::new(alloc, "one", above);
    let name = recorder.name.as_str();
    put_text(alloc, draft, &mut row, ["quoted_seat", "said_seat"], name);
    row.put("place", number_text(alloc, number));
    draft.add(row)?;
    Ok(())
}
