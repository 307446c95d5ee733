//! What rows ask of the cells that the rows before them declare.

ghost use Rattle.std.specs.Prelude.{◌≡◌, ◌≢◌, ℕ, Ok, Err, IfErr, IfOk, List, Result};
ghost use Rattle.csv.specs.Records.{fields_of};
ghost use Rattle.cbsp_wire.specs.declared.message.Cell.{Cell};
ghost use Rattle.alert_book.specs.Cells.{cells_of_field};
ghost use Rattle.alert_book.specs.Row.{cell_row};
ghost use Rattle.alert_book.specs.RowSteps.{IsFine};
ghost use Rattle.alert_book.specs.declared.book.row.Row.{Row};
ghost use Rattle.alert_book.specs.declared.fault.RowFault.{RowFault};

use crate::book::cells::cells_of_field;
use crate::book::row::{Row, cell_row};
use crate::fault::RowFault;
use cbsp_wire::{Cell, Cells};
use csv::StringRecord;
use std::alloc::Global;

/// The cells that rows declare.
pub(crate) trait Declared {
    /// What a field of cells comes to.
    ghost field_cells: { Self → List ℕ → Result (List Cell) RowFault };

    /// What a row comes to that declares a cell.
    ghost declares: { Self → List (List ℕ) → Result Row RowFault };

    /// The cells of a row's field, if it is right.
    fn cells_of_field(&self, alloc: Global, field: &str) -> Result<Cells, RowFault>
        ensures ok { IfOk result (λ cells. field_cells self.now field.now ≡ Ok cells) }
        ensures err { IfErr result (λ fault. fault ≢ RowFault.Refused →
            field_cells self.now field.now ≡ Err fault) };

    /// What a row of the verb `cell` means.
    fn cell_row(&self, fields: &StringRecord) -> Result<Row, RowFault>
        ensures ok { IfOk result (λ meant. declares self.now (fields_of fields.now) ≡ Ok meant) }
        ensures fine { IfOk result IsFine }
        ensures err { IfErr result (λ fault. declares self.now (fields_of fields.now) ≡ Err fault) };
}

// Those of a book: a row's cells are all kept.
impl Declared for Vec<Cell> {
    ghost field_cells = { λ declared field. cells_of_field declared.items field };

    ghost declares = { λ declared fields. cell_row declared.items fields };

    fn cells_of_field(&self, alloc: Global, field: &str) -> Result<Cells, RowFault> {
        cells_of_field(alloc, self, field)
    }

    fn cell_row(&self, fields: &StringRecord) -> Result<Row, RowFault> {
        cell_row(self, fields)
    }
}
