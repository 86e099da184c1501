//! Which combinations of an instrument another one refuses.
ghost use Rattle.std.specs.Prelude.{◌≡◌, ◌++◌, IfOk, OnOk, map};
ghost use Rattle.std.specs.Option.{option_copied, option_map};
ghost use Rattle.metric_contents.specs.Attributes.{given_by};
ghost use Rattle.metric_contents.specs.Encoding.{encode_of};
ghost use Rattle.metric_diff.specs.Combined.{attribute_at, attributes_of, combination_change, combination_changes, is_combination, is_shut_out, lost_combinations};

use crate::change::Change;
use crate::each::{Teller, tell_each};
use crate::keys::Way;
use crate::parts::{Numbers, add_when};
use metric_base::Items;
use metric_catalogue::Catalogue;
use metric_contents::{Attr, Instrument, Key, Refusal, SetKey};
use std::alloc::{AllocError, Global};

// The combinations of an instrument with these keys, beside the instrument of a number in another catalogue.
#[derive(Clone, Copy)]
struct LostRows<'r> {
    alloc: Global,
    way: Way,
    of: Numbers,
    others: &'r Catalogue,
    other: usize,
    keys: &'r [Key],
}

/// Puts last which combinations of two instruments go, and which are new.
pub(crate) fn add_combinations(
    alloc: Global,
    changes: &mut Items<Change>,
    of: Numbers,
    catalogues: (&Catalogue, &Catalogue),
    one: &Instrument,
    other: &Instrument,
) -> Result<(), AllocError>
    ensures { OnOk result (changes.new ≡ changes.old ++ combination_changes catalogues.entry.0.now
        catalogues.entry.1.now of.old of.new one.now other.now) }
{
    let gone = LostRows {
        alloc,
        way: Way::Gone,
        of,
        others: catalogues.1,
        other: of.new,
        keys: one.keys.as_slice(),
    };
    add_lost_rows(changes, &gone, one)?;
    let new = LostRows {
        alloc,
        way: Way::New,
        of,
        others: catalogues.0,
        other: of.old,
        keys: other.keys.as_slice(),
    };
    add_lost_rows(changes, &new, other)
}

fn add_lost_rows(
    changes: &mut Items<Change>,
    rows: &LostRows<'_>,
    instrument: &Instrument,
) -> Result<(), AllocError>
    ensures { OnOk result (changes.new ≡ changes.old ++ lost_combinations rows.now.way
        rows.now.of.old rows.now.of.new rows.now.others.now.instruments rows.now.other
        rows.now.keys.now instrument.now.allowed) }
{
    match &instrument.allowed {
        Some(allowed) => tell_each(changes, rows, allowed.rows()),
        None => Ok(()),
    }
}

impl Teller<SetKey> for LostRows<'_> {
    ghost use Rattle.metric_diff.specs.Combined.{lost_combination};

    ghost told = { λ these row. lost_combination these.way these.of.old these.of.new
        these.others.now.instruments these.other these.keys.now row };

    fn tell(
        &self,
        changes: &mut Items<Change>,
        number: usize,
        row: &SetKey,
    ) -> Result<(), AllocError> {
        let is_lost = is_shut_out(self.alloc, self.others, self.other, self.keys, row)?;
        let change = combination_change(self.way, self.of, number);
        add_when(changes, is_lost, change)
    }
}

fn combination_change(way: Way, of: Numbers, row: usize) -> Change
    ensures { result ≡ combination_change way of.old of.new row }
{
    let Numbers { old, new } = of;
    match way {
        Way::Gone => Change::CombinationGone { old, new, row },
        Way::New => Change::CombinationNew { old, new, row },
    }
}

// Whether an instrument declares each key and value of a row, and refuses them together.
fn is_shut_out(
    alloc: Global,
    others: &Catalogue,
    other: usize,
    keys: &[Key],
    row: &SetKey,
) -> Result<bool, AllocError>
    ensures { IfOk result (λ is_lost. is_lost
        ≡ is_shut_out others.now.instruments other keys.now row.now) }
{
    let mut attributes = Vec::new(alloc);
    push_attributes(&mut attributes, keys, row.as_slice())?;
    Ok(is_refused(others, other, attributes.as_slice()))
}

// Whether an instrument refuses attributes for their combination.
fn is_refused(others: &Catalogue, other: usize, attributes: &[Attr<'_>]) -> bool
    ensures { result ≡ is_combination
        (encode_of others.now.instruments other (map given_by attributes.now)) }
{
    if other >= others.instruments().len() {
        return false;
    }
    match others.encode(other as u32, attributes) {
        Err(Refusal::Combination) => true,
        _ => false,
    }
}

// Puts the attributes last that a row stands for.
fn push_attributes<'a>(
    out: &mut Vec<Attr<'a>>,
    keys: &'a [Key],
    row: &[u16],
) -> Result<(), AllocError>
    ensures { OnOk result (map given_by out.new.items
        ≡ map given_by out.old.items ++ attributes_of keys.entry.now row.now) }
{
    let Some((key, keys)) = keys.split_first() else {
        return Ok(());
    };
    let Some((entry, row)) = row.split_first() else {
        return Ok(());
    };
    if let Some(attribute) = attribute_at(key, *entry) {
        out.push(attribute)?;
    }
    push_attributes(out, keys, row)
}

// The attribute that an entry of a row stands for.
fn attribute_at(key: &Key, entry: u16) -> Option<Attr<'_>>
    ensures { option_map given_by result ≡ attribute_at key.entry.now entry }
{
    if entry == 0 {
        return None;
    }
    let value = key.values.as_slice().get(usize::from(entry - 1))?;
    Some(Attr {
        key: key.name.as_str(),
        value: value.as_ref(),
    })
}
