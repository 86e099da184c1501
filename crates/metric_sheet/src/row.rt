//! A row as it is made.
ghost use Rattle.std.specs.Prelude.{◌≡◌, [], true, IfOk, OnOk};
ghost use Rattle.metric_sheet.specs.declared.cell.Cell.TheVariants.{Flag, Nothing, Number};
ghost use Rattle.metric_sheet.specs.Rows.{Gains, GainsOf, GainsText};

use crate::cell::Cell;
use std::alloc::{AllocError, Global};

/// A row that is being made. A cell for which memory runs out is left out, and [`cells`](Row::cells) then fails: so
/// who makes a row asks once, at its end.
#[derive(Drop)]
pub struct Row {
    alloc: Global,
    cells: Vec<Cell>,
    is_whole: bool,
}

impl Row {
    /// A row without cells.
    pub fn new(alloc: Global) -> Row
        ensures cells { result.cells.items ≡ [] }
        ensures whole { result.is_whole ≡ true }
    {
        Row {
            alloc,
            cells: Vec::new(alloc),
            is_whole: true,
        }
    }

    /// What cells are made with.
    pub fn alloc(&self) -> Global {
        self.alloc
    }

    /// Puts a cell last, if it could be made.
    pub fn put(&mut self, cell: Result<Cell, AllocError>)
        ensures { GainsOf cell self.old self.new }
    {
        let is_put = match cell {
            Ok(cell) => self.cells.push(cell).is_ok(),
            Err(AllocError) => false,
        };
        self.is_whole = self.is_whole && is_put;
    }

    /// Puts a text last.
    pub fn text(&mut self, text: &str)
        ensures { GainsText text.now self.old self.new }
    {
        let cell = Cell::text(self.alloc, text);
        self.put(cell);
    }

    /// Puts a number last.
    pub fn number(&mut self, number: u128)
        ensures { Gains (Number number) self.old self.new }
    {
        self.put(Ok(Cell::Number(number)));
    }

    /// Puts last whether something is so.
    pub fn flag(&mut self, flag: bool)
        ensures { Gains (Flag flag) self.old self.new }
    {
        self.put(Ok(Cell::Flag(flag)));
    }

    /// Puts last that there is nothing.
    pub fn nothing(&mut self)
        ensures { Gains Nothing self.old self.new }
    {
        self.put(Ok(Cell::Nothing));
    }

    /// The cells in order. Fails only if memory ran out for one of them.
    pub fn cells(self) -> Result<Vec<Cell>, AllocError>
        ensures whole { OnOk result (self.is_whole ≡ true) }
        ensures cells { IfOk result (λ cells. cells.items ≡ self.cells.items) }
    {
        let Row {
            alloc: _,
            cells,
            is_whole,
        } = self;
        if is_whole { Ok(cells) } else { Err(AllocError) }
    }
}
