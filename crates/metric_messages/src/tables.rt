//! What stands in a TOML table.
use crate::near::nearest;
use toml::{Table, Value};

// The values of a field that is a list, or none.
pub(crate) fn list_in<'v>(table: &'v Table, name: &str) -> &'v [Value] {
    match table.get(name) {
        Some(value) => list_of(value).unwrap_or(&[]),
        None => &[],
    }
}

// The values of a list.
pub(crate) fn list_of(value: &Value) -> Option<&[Value]> {
    match value.as_array() {
        Some(values) => Some(values.as_slice()),
        None => None,
    }
}

// The name that a table gives itself.
pub(crate) fn name_in(table: &Table) -> Option<&str> {
    match table.get("name") {
        Some(value) => value.as_str(),
        None => None,
    }
}

// The id that a table gives itself.
pub(crate) fn id_in(table: &Table) -> Option<&str> {
    table.get("id")?.as_str()
}

// The first id of a key that is near a text.
pub(crate) fn near_id<'v>(top: &'v Table, text: &str) -> Option<&'v str> {
    for key in list_in(top, "key") {
        if let Some(id) = near(text_in(key, "id"), text) {
            return Some(id);
        }
    }
    None
}

// The text that a field of a table is.
fn text_in<'v>(value: &'v Value, name: &str) -> Option<&'v str> {
    value.as_table()?.get(name)?.as_str()
}

// The first name of an instrument that is near a text.
pub(crate) fn near_instrument<'v>(top: &'v Table, text: &str) -> Option<&'v str> {
    for meter in list_in(top, "meter") {
        if let Some(name) = near_of_meter(meter, text) {
            return Some(name);
        }
    }
    None
}

fn near_of_meter<'v>(meter: &'v Value, text: &str) -> Option<&'v str> {
    if let Some(name) = near_of_list(meter, text) {
        return Some(name);
    }
    for group in groups_of(meter) {
        if let Some(name) = near_of_list(group, text) {
            return Some(name);
        }
    }
    None
}

fn near_of_list<'v>(tables: &'v Value, text: &str) -> Option<&'v str> {
    for instrument in instruments_of(tables) {
        if let Some(name) = near(text_in(instrument, "name"), text) {
            return Some(name);
        }
    }
    None
}

// A word, where it is near a text.
fn near<'v>(word: Option<&'v str>, text: &str) -> Option<&'v str> {
    nearest(text, &[word?])
}

// The first field, by name, that is none of these.
pub(crate) fn other_field<'v>(table: &'v Table, names: &[&str]) -> Option<&'v str> {
    for key in table.keys() {
        if !is_among(names, key.as_str()) {
            return Some(key.as_str());
        }
    }
    None
}

// Whether a name is one of these.
pub(crate) fn is_among(names: &[&str], key: &str) -> bool {
    for name in names {
        if *name == key {
            return true;
        }
    }
    false
}

// The instruments of a meter or a group.
fn instruments_of(meter: &Value) -> &[Value] {
    match meter.as_table() {
        Some(table) => list_in(table, "instrument"),
        None => &[],
    }
}

// The groups of a meter.
fn groups_of(meter: &Value) -> &[Value] {
    match meter.as_table() {
        Some(table) => list_in(table, "group"),
        None => &[],
    }
}

// Where an instrument is: the number of its meter, of its group if it is in one, and its own among those.
#[derive(Clone, Copy)]
pub(crate) struct InstrumentAt {
    pub(crate) meter: usize,
    pub(crate) group: Option<usize>,
    pub(crate) number: usize,
}

// Where the instrument of a number is.
pub(crate) fn instrument_at(top: &Table, number: usize) -> InstrumentAt {
    let mut left = number;
    for (meter, value) in list_in(top, "meter").iter().enumerate() {
        let count = count_of(value);
        if left < count {
            return instrument_in(meter, value, left);
        }
        left -= count;
    }
    InstrumentAt {
        meter: usize::MAX,
        group: None,
        number: left,
    }
}

// The instrument of a number among those of a meter and its groups.
fn instrument_in(meter: usize, value: &Value, number: usize) -> InstrumentAt {
    let own = instruments_of(value).len();
    if number < own {
        return InstrumentAt {
            meter,
            group: None,
            number,
        };
    }
    let mut left = number - own;
    for (group, value) in groups_of(value).iter().enumerate() {
        let count = instruments_of(value).len();
        if left < count {
            return InstrumentAt {
                meter,
                group: Some(group),
                number: left,
            };
        }
        left -= count;
    }
    InstrumentAt {
        meter,
        group: None,
        number,
    }
}

// How many instruments a meter and its groups have.
fn count_of(meter: &Value) -> usize {
    let mut count = instruments_of(meter).len();
    for group in groups_of(meter) {
        count = count.saturating_add(instruments_of(group).len());
    }
    count
}

// How many instruments the meters have.
pub(crate) fn instrument_count(top: &Table) -> usize {
    let mut count = 0usize;
    for meter in list_in(top, "meter") {
        count = count.saturating_add(count_of(meter));
    }
    count
}
