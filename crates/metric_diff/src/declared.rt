//! What differs in what is declared of an instrument.
ghost use Rattle.std.specs.Prelude.{◌≡◌, ◌++◌, OnOk, Some, slice_get};
ghost use Rattle.std.specs.List.{enumerate_from, flat_map};
ghost use Rattle.metric_diff.specs.Instruments.{all_declared_parts, declared_parts, declared_with, instruments_differ, is_narrower, is_same_advice, is_wider};

use crate::attributes::add_declared_keys;
use crate::budgets::Budgets;
use crate::change::{Change, InstrumentPart};
use crate::combinations::add_combinations;
use crate::each::tell_each;
use crate::parts::{Numbers, add_when};
use metric_base::{Boundaries, Items, Shared};
use metric_catalogue::Catalogue;
use metric_contents::Instrument;
use metric_views::is_of_kind;
use std::alloc::{AllocError, Global};

/// Puts last what is declared otherwise of the old instrument of a number and of a new one.
pub(crate) fn add_declared(
    alloc: Global,
    changes: &mut Items<Change>,
    old: &Catalogue,
    new: &Catalogue,
    number: usize,
    other: usize,
) -> Result<(), AllocError>
    ensures { OnOk result (changes.new ≡ changes.old
        ++ declared_with old.now new.now number other (slice_get old.now.instruments number)
        (slice_get new.now.instruments other)) }
{
    let (olds, news) = (old.instruments(), new.instruments());
    add_placed(alloc, changes, (old, new), olds, news, number, other)
}

// The same of the instruments of two numbers in these lists.
fn add_placed(
    alloc: Global,
    changes: &mut Items<Change>,
    catalogues: (&Catalogue, &Catalogue),
    old: &[Instrument],
    new: &[Instrument],
    number: usize,
    other: usize,
) -> Result<(), AllocError>
    ensures { OnOk result (changes.new ≡ changes.old
        ++ declared_with catalogues.entry.0.now catalogues.entry.1.now number other
        (slice_get old.now number) (slice_get new.now other)) }
{
    let of = Numbers {
        old: number,
        new: other,
    };
    match old.get(number) {
        None => Ok(()),
        Some(one) => match new.get(other) {
            None => Ok(()),
            Some(another) => add_of_instruments(alloc, changes, catalogues, of, one, another),
        },
    }
}

fn add_of_instruments(
    alloc: Global,
    changes: &mut Items<Change>,
    catalogues: (&Catalogue, &Catalogue),
    of: Numbers,
    one: &Instrument,
    other: &Instrument,
) -> Result<(), AllocError>
    ensures { OnOk result (changes.new ≡ changes.old
        ++ declared_with catalogues.entry.0.now catalogues.entry.1.now of.old of.new (Some one.now)
        (Some other.now)) }
{
    add_declared_parts(changes, of, one, other)?;
    add_declared_keys(changes, of, one.keys.as_slice(), other.keys.as_slice())?;
    add_combinations(alloc, changes, of, catalogues, one, other)?;
    let others = catalogues.1.recorders();
    tell_each(changes, &Budgets { of, others }, catalogues.0.recorders())
}

// Puts a change last for each part in which two instruments differ.
fn add_declared_parts(
    changes: &mut Items<Change>,
    of: Numbers,
    one: &Instrument,
    other: &Instrument,
) -> Result<(), AllocError>
    ensures { OnOk result (changes.new ≡ changes.old
        ++ declared_parts of.old of.new one.now other.now all_declared_parts) }
{
    let parts = [
        InstrumentPart::Name,
        InstrumentPart::Description,
        InstrumentPart::Unit,
        InstrumentPart::Kind,
        InstrumentPart::Advice,
        InstrumentPart::Range,
        InstrumentPart::WiderRange,
        InstrumentPart::Spare,
        InstrumentPart::MoreSpare,
        InstrumentPart::Listed,
        InstrumentPart::Unlisted,
    ];
    add_these_parts(changes, parts.as_slice(), of, one, other)
}

#[tactic(auto, using(metric_text::specs::ListLaws::steps))]
fn add_these_parts(
    changes: &mut Items<Change>,
    parts: &[InstrumentPart],
    of: Numbers,
    one: &Instrument,
    other: &Instrument,
) -> Result<(), AllocError>
    ensures { OnOk result (changes.new ≡ changes.old
        ++ declared_parts of.old of.new one.now other.now parts.now) }
{
    for part in parts {
        let change = Change::InstrumentChanged {
            old: of.old,
            new: of.new,
            part: *part,
        };
        add_when(changes, instruments_differ(*part, one, other), change)?;
    }
    Ok(())
}

// Whether two instruments differ in a part.
fn instruments_differ(part: InstrumentPart, old: &Instrument, new: &Instrument) -> bool
    ensures { result ≡ instruments_differ part old.now new.now }
{
    match part {
        InstrumentPart::Name => old.name.get().as_str() != new.name.get().as_str(),
        InstrumentPart::Description => {
            old.description.get().as_str() != new.description.get().as_str()
        }
        InstrumentPart::Unit => old.unit.get().as_str() != new.unit.get().as_str(),
        InstrumentPart::Kind => !is_of_kind(&Some(old.kind), new.kind),
        InstrumentPart::Advice => !is_same_advice(&old.advice, &new.advice),
        InstrumentPart::Range => is_narrower(old, new),
        InstrumentPart::WiderRange => !is_narrower(old, new) && is_wider(old, new),
        InstrumentPart::Spare => new.spare < old.spare,
        InstrumentPart::MoreSpare => old.spare < new.spare,
        InstrumentPart::Listed => old.allowed.is_none() && new.allowed.is_some(),
        InstrumentPart::Unlisted => old.allowed.is_some() && new.allowed.is_none(),
    }
}

fn is_narrower(old: &Instrument, new: &Instrument) -> bool
    ensures { result ≡ is_narrower old.now new.now }
{
    old.lo < new.lo || new.hi < old.hi
}

fn is_wider(old: &Instrument, new: &Instrument) -> bool
    ensures { result ≡ is_wider old.now new.now }
{
    new.lo < old.lo || old.hi < new.hi
}

fn is_same_advice(old: &Option<Shared<Boundaries>>, new: &Option<Shared<Boundaries>>) -> bool
    ensures { result ≡ is_same_advice old.now new.now }
{
    match (old, new) {
        (None, None) => true,
        (Some(old), Some(new)) => old.get().as_slice() == new.get().as_slice(),
        _ => false,
    }
}
