//! The way to a table, a field or an entry in a TOML text.
use crate::tables::list_of;
use toml::{Table, Value};

// A step of the way: a field of the table before, and where it is a list, the number of its table or entry.
#[derive(Clone, Copy)]
pub(crate) struct Level<'v> {
    pub(crate) name: &'v str,
    pub(crate) number: Option<usize>,
}

// The most steps of a way: to a meter, a group, an instrument, a key and its field.
const MOST: usize = 5;

// The steps from the top.
#[derive(Clone, Copy)]
pub(crate) struct Way<'v> {
    levels: [Level<'v>; MOST],
    count: usize,
}

impl<'v> Way<'v> {
    // The way to the top table.
    pub(crate) fn top() -> Way<'v> {
        let none = Level {
            name: "",
            number: None,
        };
        Way {
            levels: [none; MOST],
            count: 0,
        }
    }

    // One step more.
    pub(crate) fn then(self, name: &'v str, number: Option<usize>) -> Way<'v> {
        let mut way = self;
        if let Some(level) = way.levels.get_mut(self.count) {
            *level = Level { name, number };
            way.count = self.count.saturating_add(1);
        }
        way
    }

    // A step to an element of a list.
    pub(crate) fn element(self, name: &'v str, number: u32) -> Way<'v> {
        self.then(name, Some(number as usize))
    }

    // How many steps there are.
    pub(crate) fn count(&self) -> usize {
        self.count
    }

    // The step of a number, without a name where there is none.
    pub(crate) fn level(&self, number: usize) -> Level<'v> {
        let none = Level {
            name: "",
            number: None,
        };
        if number < self.count {
            self.levels.get(number).copied().unwrap_or(none)
        } else {
            none
        }
    }
}

// The table that a way leads to.
pub(crate) fn table_on<'v>(top: &'v Table, way: Way<'_>) -> Option<&'v Table> {
    let mut table = top;
    for number in 0..way.count() {
        table = table_in(table, way.level(number))?;
    }
    Some(table)
}

fn table_in<'v>(table: &'v Table, level: Level<'_>) -> Option<&'v Table> {
    let value = value_in(table, level)?;
    value.as_table()
}

// The value of a field of a table, or its entry.
pub(crate) fn value_in<'v>(table: &'v Table, level: Level<'_>) -> Option<&'v Value> {
    let value = table.get(level.name)?;
    match level.number {
        Some(number) => list_of(value)?.get(number),
        None => Some(value),
    }
}
