//! The lists of a certificate.
ghost use Rattle.std.specs.Prelude.{◌≡◌, ◌+◌, Ok, Err, MatchResult, IfOk, map};
ghost use Rattle.toml.specs.Data.{array};
ghost use Rattle.toml.specs.View.{items_view, view};
ghost use Rattle.metric_base.specs.Steps.{Gives};
ghost use Rattle.metric_table.specs.Fields.{each_alone};
ghost use Rattle.metric_cert.specs.Reading.{values_of};
ghost use Rattle.metric_cert.specs.Writing.{IsPrintable};

use crate::entry::EntryKind;
use crate::fault::{CertFault, MISSHAPEN};
use metric_base::Items;
use std::alloc::{AllocError, Global};
use std::marker::PhantomData;
use toml::Value;

/// A list of entries of a kind.
pub(crate) struct ListOf<E>(PhantomData<E>);

impl<E: EntryKind> EntryKind for ListOf<E> {
    ghost use Rattle.std.specs.Prelude.{◌+◌};
    ghost use Rattle.metric_cert.specs.Reading.{list_of};

    type Read = Items<E::Read>;

    ghost step = { list_of E.step };

    ghost levels = { E.levels + 1 };

    #[tactic(auto, unfolding(crate::specs::Reading::list_of))]
    fn read(alloc: Global, value: &Value) -> Result<Items<E::Read>, CertFault> {
        let values = values_of(value)?;
        read_all::<E>(alloc, values)
    }

    fn write(alloc: Global, entry: &Items<E::Read>) -> Result<Value, AllocError> {
        let values = write_all::<E>(alloc, entry.as_slice())?;
        Ok(listed(values))
    }
}

/// The values of a list.
#[tactic(auto, unfolding(crate::specs::Reading::values_of), using(crate::proofs::Written::value_laws))]
pub(crate) fn values_of(value: &Value) -> Result<&[Value], CertFault>
    ensures { MatchResult result (λ vs. values_of (view value.now) ≡ Ok (map view vs.now))
        (λ e. values_of (view value.now) ≡ Err e) }
{
    match value.as_array() {
        Some(values) => Ok(values.as_slice()),
        None => Err(MISSHAPEN),
    }
}

/// The value that is a list.
pub(crate) fn listed(values: Vec<Value>) -> Value
    ensures { view result ≡ array (items_view values.items) }
{
    Value::Array(values)
}

fn read_all<E: EntryKind>(alloc: Global, values: &[Value]) -> Result<Items<E::Read>, CertFault>
    ensures { Gives CertFault.Memory result (each_alone E.step (map view values.now)) }
{
    let mut entries = Items::new(alloc);
    for value in values {
        let entry = E::read(alloc, value)?;
        entries.push(entry)?;
    }
    Ok(entries)
}

/// The values of the entries.
pub(crate) fn write_all<E: EntryKind>(
    alloc: Global,
    entries: &[E::Read],
) -> Result<Vec<Value>, AllocError>
    ensures reads { IfOk result (λ vs. each_alone E.step (map view vs.items) ≡ Ok entries.now) }
    ensures printable { IfOk result
        (λ vs. IsPrintable (E.levels + 1) (array (items_view vs.items))) }
{
    let mut values = Vec::new(alloc);
    for entry in entries {
        let value = E::write(alloc, entry)?;
        values.push(value)?;
    }
    Ok(values)
}
