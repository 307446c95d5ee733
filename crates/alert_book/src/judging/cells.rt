//! The cells that judged rows declare.

ghost use Rattle.std.specs.Prelude.{◌≡◌, ◌≢◌, ◌++◌, ◌∷◌, Ok, Err, IfErr, IfOk, OnErr, OnOk};
ghost use Rattle.std.specs.List.{list_all};
ghost use Rattle.csv.specs.Records.{fields_of};
ghost use Rattle.alert_book.specs.Cells.{all_of, cells_of_field, is_among};
ghost use Rattle.alert_book.specs.Judging.{field_judged, kept_of, most_cells};
ghost use Rattle.alert_book.specs.JudgingSteps.{cells_with};
ghost use Rattle.alert_book.specs.Row.{cell_row_within};

use crate::book::cells::cells_listed;
use crate::book::declared::Declared;
use crate::book::fields::{column, number};
use crate::book::row::{MAX_CELLS, Row};
use crate::fault::RowFault;
use crate::judging::bounds::Bounds;
use crate::network::cell_set::CellSet;
use crate::network::group_cells::{MAX_CELLS as MAX_NETWORK_CELLS, are_distinct};
use cbsp_wire::{Cell, Cells};
use csv::StringRecord;
use std::alloc::{AllocError, Global};
use std::marker::Model;

/// The cells that rows declare, in their order, so that no look-up goes over all of them.
#[derive(Debug, Drop)]
pub struct JudgedCells {
    bounds: Bounds,
    cells: Cells,
    set: CellSet,
}

impl Model for JudgedCells {
    ghost use Rattle.alert_book.specs.JudgingSteps.{CellsWithin, cells_with};

    ghost Value = { CellsWithin };

    ghost view = { λ known. cells_with known.bounds known.cells };

    ghost use Rattle.std.specs.Prelude.{◌≡◌};
    ghost use Rattle.cbsp_wire.specs.declared.message.Cell.{Cell};
    ghost use Rattle.alert_book.specs.CellPairs.{has_cell};
    ghost use Rattle.alert_book.specs.Cells.{is_among};

    ghost invariant = { λ known. (cell : Cell) → has_cell known.set cell ≡ is_among known.cells cell };
}

impl JudgedCells {
    ghost use Rattle.std.specs.Prelude.{[]};

    /// None. It takes no memory.
    pub(crate) fn new(alloc: Global, bounds: Bounds) -> JudgedCells
        ensures { result ≡ cells_with bounds [] }
    {
        JudgedCells {
            bounds,
            cells: Cells {
                list: Vec::new(alloc),
            },
            set: CellSet::new(alloc),
        }
    }

    /// What bounds the rows.
    pub(crate) fn bounds(&self) -> Bounds
        ensures { result ≡ self.now.bounds }
    {
        self.bounds
    }

    /// The cells.
    pub(crate) fn list(&self) -> &[Cell]
        ensures { result.now ≡ self.now.cells }
    {
        &self.cells.list
    }

    /// Whether a cell is among them.
    pub(crate) fn has(&self, cell: Cell) -> bool
        ensures { result ≡ is_among self.now.cells cell }
    {
        self.set.has(cell)
    }

    /// Adds a cell.
    ///
    /// # Errors
    ///
    /// Out of memory. The cells are as they were then.
    pub(crate) fn add(&mut self, cell: Cell) -> Result<(), AllocError>
        ensures added { OnOk result (self.new ≡ cells_with self.old.bounds (self.old.cells ++ cell ∷ [])) }
        ensures refused { OnErr result (self.new ≡ self.old) }
    {
        self.cells.list.reserve(1)?;
        self.set.add(cell)?;
        self.cells.list.push_reserved(cell);
        Ok(())
    }

    /// How many cells rows may declare.
    pub(crate) fn most(&self) -> usize
        ensures { result ≡ most_cells self.now.bounds }
    {
        match self.bounds {
            Bounds::Book => MAX_CELLS,
            Bounds::Network => MAX_NETWORK_CELLS as usize,
        }
    }

    /// Whether all of some cells are declared.
    fn has_all(&self, cells: &[Cell]) -> bool
        ensures { result ≡ list_all (is_among self.now.cells) cells.now }
    {
        cells.iter().all(|cell| self.has(*cell))
    }

    /// All cells that are declared, if there are any.
    fn all(&self, alloc: Global) -> Result<Cells, RowFault>
        ensures ok { IfOk result (λ cells. all_of self.now.cells ≡ Ok cells) }
        ensures err { IfErr result (λ fault. fault ≢ RowFault.Refused → all_of self.now.cells ≡ Err fault) }
    {
        if self.cells.list.is_empty() {
            return Err(RowFault::UnknownCell);
        }
        let list = Vec::from_slice(alloc, &self.cells.list)?;
        Ok(Cells { list })
    }

    /// The cells that a row's field names.
    fn named(&self, alloc: Global, field: &str) -> Result<Cells, RowFault>
        ensures ok { IfOk result (λ cells. cells_of_field self.now.cells field.now ≡ Ok cells) }
        ensures err { IfErr result (λ fault. fault ≢ RowFault.Refused →
            cells_of_field self.now.cells field.now ≡ Err fault) }
    {
        if field == "*" {
            return self.all(alloc);
        }
        let Some(cells) = cells_listed(alloc, field)? else {
            return Err(RowFault::Number);
        };
        if !self.has_all(&cells.list) {
            return Err(RowFault::UnknownCell);
        }
        if !are_distinct(alloc, &cells.list)? {
            return Err(RowFault::TwiceNamed);
        }
        Ok(cells)
    }
}

/// Of an order's cells those that are kept: those of a network's orders are many.
fn kept_of(alloc: Global, bounds: Bounds, cells: Cells) -> Cells
    ensures { result ≡ kept_of bounds cells }
{
    match bounds {
        Bounds::Book => cells,
        Bounds::Network => Cells {
            list: Vec::new(alloc),
        },
    }
}

impl Declared for JudgedCells {
    ghost field_cells = { λ known field. field_judged known.bounds known.cells field };

    ghost declares = { λ known fields. cell_row_within (most_cells known.bounds) known.cells fields };

    fn cells_of_field(&self, alloc: Global, field: &str) -> Result<Cells, RowFault> {
        let cells = self.named(alloc, field)?;
        Ok(kept_of(alloc, self.bounds, cells))
    }

    fn cell_row(&self, fields: &StringRecord) -> Result<Row, RowFault> {
        if self.cells.list.len() >= self.most() {
            return Err(RowFault::TooManyRows);
        }
        let lac = number(column(fields, 1), 0, u16::MAX)?;
        let ci = number(column(fields, 2), 0, u16::MAX)?;
        let cell = Cell { lac, ci };
        if self.has(cell) {
            return Err(RowFault::TwiceNamed);
        }
        Ok(Row::Declare(cell))
    }
}
