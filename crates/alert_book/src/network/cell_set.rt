//! Cells, so that no look-up goes over all of them.

ghost use Rattle.std.specs.Prelude.{◌≡◌, ◌||◌, [], OnErr, OnOk};
ghost use Rattle.cbsp_wire.specs.Range.{is_cell};
ghost use Rattle.cbsp_wire.specs.declared.message.Cell.{Cell};
ghost use Rattle.alert_book.specs.CellPairs.{has_cell};

use cbsp_wire::Cell;
use std::alloc::{AllocError, Global};
use std::collections::HashSet;
use std::marker::Model;

/// Cells. In clauses these are the keys of its set.
#[derive(Debug, Drop)]
pub struct CellSet {
    cells: HashSet<(u16, u16)>,
}

impl Model for CellSet {
    ghost use Rattle.std.specs.Prelude.{List};
    ghost use Rattle.alert_book.specs.CellPairs.{Pair};

    ghost Value = { List Pair };

    ghost view = { λ set. set.cells.keys };
}

impl CellSet {
    /// No cell. It takes no memory.
    pub(crate) fn new(alloc: Global) -> CellSet
        ensures { result ≡ [] }
    {
        CellSet {
            cells: HashSet::new(alloc),
        }
    }

    /// Whether a cell is among them.
    pub(crate) fn has(&self, cell: Cell) -> bool
        ensures { result ≡ has_cell self.now cell }
    {
        self.cells.contains(&(cell.lac, cell.ci))
    }

    /// Adds a cell.
    ///
    /// # Errors
    ///
    /// Out of memory. The cells are the same then.
    pub(crate) fn add(&mut self, cell: Cell) -> Result<(), AllocError>
        ensures added { OnOk result ((other : Cell) →
            has_cell self.new other ≡ (has_cell self.old other || is_cell cell other)) }
        ensures refused { OnErr result ((other : Cell) → has_cell self.new other ≡ has_cell self.old other) }
    {
        self.cells.insert((cell.lac, cell.ci))?;
        Ok(())
    }
}
