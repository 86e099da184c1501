//! The types of keys: a key of one name with the same values in the same order is one type, wherever it stands.
ghost use Rattle.std.specs.Prelude.{◌≤◌, length};

use crate::naming::is_shared;
use metric_contents::{Instrument, Key, Meter};
use metric_names::AttrValue;
use std::alloc::{AllocError, Global};
use std::cmp::Ordering;

/// A type of keys, by the first key that is of it.
#[derive(Clone, Copy, Drop)]
pub(crate) struct KeyType<'c> {
    /// The key.
    pub key: &'c Key,
    /// The number of its instrument.
    pub instrument: usize,
}

/// The types of keys, each behind those of earlier keys.
#[derive(Drop)]
pub(crate) struct KeyTypes<'c> {
    all: Vec<KeyType<'c>>,
    // Their numbers, by name and values.
    sorted: Vec<usize>,
}

impl<'c> KeyTypes<'c> {
    /// The types of all keys. Fails only when out of memory.
    pub(crate) fn new(
        alloc: Global,
        instruments: &'c [Instrument],
    ) -> Result<KeyTypes<'c>, AllocError> {
        let mut types = KeyTypes {
            all: Vec::new(alloc),
            sorted: Vec::new(alloc),
        };
        for (instrument, own) in instruments.iter().enumerate() {
            types.add(own.keys.as_slice(), instrument)?;
        }
        Ok(types)
    }

    fn add(&mut self, keys: &'c [Key], instrument: usize) -> Result<(), AllocError> {
        for key in keys {
            if self.number_of(key).is_none() {
                let place = self.place_of(key);
                self.sorted.insert(place, self.all.len())?;
                self.all.push(KeyType { key, instrument })?;
            }
        }
        Ok(())
    }

    /// The types.
    pub(crate) fn all(&self) -> &[KeyType<'c>] {
        self.all.as_slice()
    }

    /// The number of the type that a key is of.
    pub(crate) fn number_of(&self, key: &Key) -> Option<usize> {
        let number = *self.sorted.get(self.place_of(key))?;
        let own = self.all.get(number)?;
        (key_order(own.key, key) == Ordering::Equal).then_some(number)
    }

    // Where the first type stands among the sorted ones that is not before a key's.
    fn place_of(&self, key: &Key) -> usize
        ensures { result ≤ length self.now.sorted.items }
    {
        self.sorted
            .partition_point(|number| self.is_before(*number, key))
    }

    fn is_before(&self, number: usize, key: &Key) -> bool {
        match self.all.get(number) {
            Some(own) => key_order(own.key, key) == Ordering::Less,
            None => false,
        }
    }
}

// By name, then by values.
fn key_order(left: &Key, right: &Key) -> Ordering {
    match left.name.as_str().cmp(right.name.as_str()) {
        Ordering::Equal => values_order(left.values.as_slice(), right.values.as_slice()),
        order => order,
    }
}

fn values_order(left: &[AttrValue], right: &[AttrValue]) -> Ordering {
    for (left, right) in left.iter().zip(right) {
        let order = value_order(left, right);
        if order != Ordering::Equal {
            return order;
        }
    }
    left.len().cmp(&right.len())
}

fn value_order(left: &AttrValue, right: &AttrValue) -> Ordering {
    match (left, right) {
        (AttrValue::Text(left), AttrValue::Text(right)) => left.as_str().cmp(right.as_str()),
        (AttrValue::Whole(left), AttrValue::Whole(right)) => left.cmp(right),
        (AttrValue::Flag(left), AttrValue::Flag(right)) => left.cmp(right),
        (AttrValue::Text(_), _) | (AttrValue::Whole(_), AttrValue::Flag(_)) => Ordering::Less,
        _ => Ordering::Greater,
    }
}

/// What each type is called: by the name of its key; where another type has that, by its instrument, too, and by its
/// meter where another meter has an instrument of that name. Fails only when out of memory.
pub(crate) fn labels_of(
    alloc: Global,
    types: &[KeyType<'_>],
    instruments: &[Instrument],
    meters: &[Meter],
) -> Result<Vec<String>, AllocError> {
    let mut keys: Vec<&str> = types
        .iter()
        .map(|own| own.key.name.as_str())
        .collect(alloc)?;
    keys.sort_unstable();
    let mut names: Vec<&str> = instruments
        .iter()
        .map(|own| own.name.get().as_str())
        .collect(alloc)?;
    names.sort_unstable();
    let mut labels = Vec::new(alloc);
    for own in types {
        let key = own.key.name.as_str();
        let label = match instruments.get(own.instrument) {
            Some(instrument) if is_shared(key, &keys) => {
                label_in(alloc, key, instrument, &names, meters)
            }
            _ => String::from_str(alloc, key),
        };
        labels.push(label?)?;
    }
    Ok(labels)
}

fn label_in(
    alloc: Global,
    key: &str,
    instrument: &Instrument,
    names: &[&str],
    meters: &[Meter],
) -> Result<String, AllocError> {
    let name = instrument.name.get().as_str();
    match meters.get(instrument.meter as usize) {
        Some(meter) if is_shared(name, names) => format!(in alloc; "{} {name} {key}", meter.name),
        _ => format!(in alloc; "{name} {key}"),
    }
}

/// Whether a key has more values than one list of code should.
pub(crate) fn is_long(key: &Key) -> bool {
    key.values.as_slice().len() > 64
}

/// Whether the values are the two flags.
pub(crate) fn is_flag(values: &[AttrValue]) -> bool {
    values.len() == 2
        && values
            .iter()
            .all(|value| matches!(value, AttrValue::Flag(_)))
}

/// Whether all values are texts.
pub(crate) fn are_texts(values: &[AttrValue]) -> bool {
    values
        .iter()
        .all(|value| matches!(value, AttrValue::Text(_)))
}

/// The least and the greatest of more than 16 whole numbers, each of which follows the one before it.
pub(crate) fn span_of(values: &[AttrValue]) -> Option<(i64, i64)> {
    let [AttrValue::Whole(least), rest @ ..] = values else {
        return None;
    };
    let mut most = *least;
    for value in rest {
        most = most.checked_add(1)?;
        if !matches!(value, AttrValue::Whole(number) if *number == most) {
            return None;
        }
    }
    if values.len() > 16 {
        Some((*least, most))
    } else {
        None
    }
}
