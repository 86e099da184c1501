//! The instrument that a program was made for.
ghost use Rattle.std.specs.Prelude.{◌≡◌, ◌≤◌, ◌<◌, ◌^◌, ◌++◌, IfOk, OnOk, length, map};
ghost use Rattle.metric_contents.specs.Attributes.{given_by};
ghost use Rattle.metric_meaning.specs.Agreeing.{shape_by};
ghost use Rattle.metric_meaning.specs.Made.{attributes_of, optional_of, shape_with, values_of};
ghost use Rattle.metric_meaning.specs.Meanings.{asked_keys};

use metric_contents::{Attr, Instrument, Key, Kind};
use std::alloc::{AllocError, Global};

/// An instrument that a program was made for.
#[derive(Clone, Copy)]
pub struct Expected<'a> {
    /// The name of its meter.
    pub meter: &'a str,
    /// Its name.
    pub name: &'a str,
    /// Its kind.
    pub kind: Kind,
    /// Its unit.
    pub unit: &'a str,
    /// Its keys in order: each value of each in order, under the name of its key.
    pub keys: &'a [Attr<'a>],
    /// Bit i says that key i may be left out.
    pub optional: u32,
}

/// The values of the keys of an instrument, each under the name of its key.
pub fn attributes_of(alloc: Global, instrument: &Instrument) -> Result<Vec<Attr<'_>>, AllocError>
    ensures { IfOk result (λ attrs. map given_by attrs.items ≡ attributes_of instrument.now.keys) }
{
    let mut attrs = Vec::new(alloc);
    for key in instrument.keys.as_slice() {
        push_values(&mut attrs, key)?;
    }
    Ok(attrs)
}

fn push_values<'k>(attrs: &mut Vec<Attr<'k>>, key: &'k Key) -> Result<(), AllocError>
    ensures { OnOk result (map given_by attrs.new.items
        ≡ map given_by attrs.old.items ++ values_of key.now) }
{
    for value in key.values.as_slice() {
        attrs.push(Attr {
            key: key.name.as_str(),
            value: value.as_ref(),
        })?;
    }
    Ok(())
}

/// What a program is made for that is made of this instrument, of a meter of this name: its keys are `attributes_of` it.
pub fn expected_of<'a>(
    meter: &'a str,
    instrument: &'a Instrument,
    keys: &'a [Attr<'a>],
) -> Expected<'a>
    ensures { shape_by result
        ≡ shape_with meter.now instrument.now (asked_keys (map given_by keys.now)) }
{
    Expected {
        meter,
        name: instrument.name.get().as_str(),
        kind: instrument.kind,
        unit: instrument.unit.get().as_str(),
        keys,
        optional: optional_of(instrument.keys.as_slice()),
    }
}

// A bit for each key that may be left out.
fn optional_of(keys: &[Key]) -> u32
    requires { length keys.now ≤ 8 }
    ensures exact { result ≡ optional_of keys.now }
    ensures few { result < 2 ^ length keys.now }
{
    let Some((key, others)) = keys.split_first() else {
        return 0;
    };
    optional_of(others) * 2 + u32::from(key.optional)
}
