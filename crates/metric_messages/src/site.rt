//! The field that a fault is of, in the table that was read.
use crate::mistake::Wrong;
use crate::tables::other_field;
use crate::way::{Level, Way, table_on, value_in};
use toml::{Table, Value};

// A field of a table.
#[derive(Clone, Copy)]
pub(crate) struct Site<'v> {
    // The way to it, or where the table does not have it, to the table.
    pub(crate) way: Way<'v>,
    // Its name.
    pub(crate) name: &'v str,
    // Its value, or the entry of that.
    pub(crate) value: Option<&'v Value>,
}

impl<'v> Site<'v> {
    // The field of a name that a format has, of the table that a way leads to, and the entry of its list.
    pub(crate) fn of_known(
        top: &'v Table,
        way: Way<'v>,
        name: &'static str,
        entry: Option<u32>,
    ) -> Site<'v> {
        Site::of_field(top, way, name, entry)
    }

    // The field of any name.
    fn of_field(top: &'v Table, way: Way<'v>, name: &'v str, entry: Option<u32>) -> Site<'v> {
        let number = match entry {
            Some(number) => Some(number as usize),
            None => None,
        };
        let level = Level { name, number };
        match value_on(top, way, level) {
            Some(value) => Site {
                way: way.then(name, number),
                name,
                value: Some(value),
            },
            None => Site {
                way,
                name,
                value: None,
            },
        }
    }

    // The first field that is none of these, by name.
    pub(crate) fn of_other(
        top: &'v Table,
        way: Way<'v>,
        names: &'static [&'static str],
    ) -> Site<'v> {
        let name = match table_on(top, way) {
            Some(table) => other_field(table, names).unwrap_or(""),
            None => "",
        };
        Site::of_field(top, way, name, None)
    }

    // That a field is missing, or that it is a list and has no entry.
    pub(crate) fn missing(&self) -> Wrong<'v> {
        match self.value {
            Some(_) => Wrong::Plain(" is an empty list"),
            None => Wrong::Missing,
        }
    }
}

fn value_on<'v>(top: &'v Table, way: Way<'v>, level: Level<'_>) -> Option<&'v Value> {
    value_in(table_on(top, way)?, level)
}
