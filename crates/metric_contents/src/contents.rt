//! What a catalogue declares.
use crate::values::Values;
use metric_base::{Boundaries, Copied, Few, Shared, Text};
use metric_combinations::Combinations;
use metric_names::{Name, Unit};
use std::alloc::{AllocError, Global};

/// The kind of an instrument (Metrics API, instrument kinds).
#[derive(Clone, Copy, Debug, PartialEq, Eq, Drop)]
pub enum Kind {
    /// A sum that only rises.
    Counter,
    /// A sum that rises and falls.
    UpDownCounter,
    /// A distribution of values.
    Histogram,
    /// A current value.
    Gauge,
}

/// A meter (Metrics API, Get a Meter). Fields that the file leaves out are empty.
#[derive(Drop)]
pub struct Meter {
    /// The name of the instrumentation scope, at most 1,023 characters.
    pub name: Text,
    /// The version of the scope, at most 1,023 characters.
    pub version: Text,
    /// The URL of the schema, at most 1,023 characters.
    pub schema_url: Text,
}

/// An instrument (Metrics API, Instrument). What streams take from it is shared, so that a copy takes no
/// room.
pub struct Instrument {
    /// The number of its meter.
    pub meter: u32,
    /// The name, of which its meter has one without ASCII case.
    pub name: Shared<Name>,
    /// The kind.
    pub kind: Kind,
    /// The unit.
    pub unit: Shared<Unit>,
    /// The description, at most 1,023 characters.
    pub description: Shared<Text>,
    /// The least value that may be recorded.
    pub lo: i64,
    /// The greatest value that may be recorded.
    pub hi: i64,
    /// The advised boundaries of a histogram (Metrics API, instrument advisory parameters).
    pub advice: Option<Shared<Boundaries>>,
    /// The attribute keys that recordings may have, in declared order.
    pub keys: Few<Key, 8>,
    /// The combinations of their values that recordings may have, where the file lists them.
    pub allowed: Option<Combinations>,
    /// How many recordings may be granted to recorders beside their budgets, at most 2^63 - 1.
    pub spare: u64,
}

impl Drop for Instrument {
    // A call of its own, so that what owns an instrument does not carry the steps of dropping each part.
    fn drop(self) {
        let Instrument {
            meter: _,
            name: _name,
            kind: _,
            unit: _unit,
            description: _description,
            lo: _,
            hi: _,
            advice: _advice,
            keys: _keys,
            allowed: _allowed,
            spare: _,
        } = self;
    }
}

/// An attribute key that an instrument declares.
#[derive(Drop)]
pub struct Key {
    /// The name, 1 to 1,023 characters.
    pub name: Text,
    /// The values that recordings may give it, at least one.
    pub values: Values,
    /// Whether a recording may leave the key out.
    pub optional: bool,
}

impl Copied for Key {
    fn copy(&self, alloc: Global) -> Result<Key, AllocError> {
        Ok(Key {
            name: self.name.copy(alloc)?,
            values: self.values.copy(alloc)?,
            optional: self.optional,
        })
    }
}

/// How many recordings a recorder may make on one instrument.
#[derive(Drop)]
pub struct Budget {
    /// The number of the instrument.
    pub instrument: u32,
    /// The number of recordings, at most 2^63 - 1.
    pub amount: u64,
}

impl Copied for Budget {
    fn copy(&self, _alloc: Global) -> Result<Budget, AllocError> {
        Ok(Budget {
            instrument: self.instrument,
            amount: self.amount,
        })
    }
}

/// A recorder, which makes recordings within its budgets.
#[derive(Drop)]
pub struct Recorder {
    /// The name, 1 to 1,023 characters.
    pub name: Text,
    /// The declared budgets, at most one for an instrument.
    pub budgets: Few<Budget, 512>,
}

/// All that a catalogue declares, each list in the order of the file.
pub struct Contents {
    /// The format of the file: 1, or 2, in which an instrument may list its combinations and have a spare budget.
    pub format: u8,
    /// The meters.
    pub meters: Few<Meter, 64>,
    /// The instruments of all meters.
    pub instruments: Few<Instrument, 512>,
    /// The recorders.
    pub recorders: Few<Recorder, 64>,
}

impl Drop for Contents {
    // A call of its own, so that what owns a catalogue does not carry the steps of dropping each part.
    fn drop(self) {
        let Contents {
            format: _,
            meters: _meters,
            instruments: _instruments,
            recorders: _recorders,
        } = self;
    }
}
