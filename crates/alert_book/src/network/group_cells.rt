//! The cells of a network, as the reader of one group keeps them.

ghost use Rattle.std.specs.Prelude.{◌≡◌, ◌≢◌, ◌≤◌, [], Ok, Err, filter, IfErr, IfOk, OnOk};
ghost use Rattle.std.specs.List.{list_all};
ghost use Rattle.csv.specs.Records.{fields_of};
ghost use Rattle.cbsp_wire.specs.Range.{are_distinct};
ghost use Rattle.alert_book.specs.CellPairs.{has_cell};
ghost use Rattle.alert_book.specs.Cells.{is_among};
ghost use Rattle.alert_book.specs.NetworkSteps.{is_next_in, kept_all, kept_declares, kept_field};
ghost use Rattle.alert_book.specs.NetworkSteps.{HasMore, IsKeptOf};

use crate::book::cells::{cells_listed, is_among};
use crate::book::declared::Declared;
use crate::book::fields::{column, number};
use crate::book::row::Row;
use crate::fault::RowFault;
use crate::network::cell_set::CellSet;
use cbsp_wire::{Cell, Cells};
use csv::StringRecord;
use std::alloc::{AllocError, Global};

/// The most cells of a network.
pub(crate) const MAX_CELLS: u32 = 0x1_0000;

/// How many cells a group has.
pub(crate) const GROUP_SIZE: u32 = 64;

/// The cells that a network's rows declare: those of one group in their order, and of the others that they are there.
#[derive(Debug, Drop)]
pub struct GroupCells {
    /// The number of the group.
    pub group: u16,
    /// How many cells are declared.
    pub count: u32,
    /// The group's.
    pub cells: Cells,
    /// All that are declared.
    pub declared: CellSet,
}

impl GroupCells {
    /// None. It takes no memory.
    pub(crate) fn new(alloc: Global, group: u16) -> GroupCells
        ensures { IsKeptOf result group [] }
    {
        GroupCells {
            group,
            count: 0,
            cells: Cells {
                list: Vec::new(alloc),
            },
            declared: CellSet::new(alloc),
        }
    }

    /// Whether the next cell is one of the group's.
    fn is_next_in(&self) -> bool
        ensures { result ≡ is_next_in self.now }
    {
        let first = u32::from(self.group) * GROUP_SIZE;
        first <= self.count && self.count < first + GROUP_SIZE
    }

    /// Adds a cell, which isn't among them.
    ///
    /// # Errors
    ///
    /// Out of memory.
    pub(crate) fn add(&mut self, cell: Cell) -> Result<(), AllocError>
        requires { self.old.count ≤ 65536 }
        ensures { OnOk result (HasMore self.old self.new cell) }
    {
        if self.is_next_in() {
            self.cells.list.push(cell)?;
        }
        self.declared.add(cell)?;
        self.count += 1;
        Ok(())
    }

    /// Whether all of some cells are declared.
    fn has_all(&self, cells: &[Cell]) -> bool
        ensures { result ≡ list_all (has_cell self.now.declared) cells.now }
    {
        cells.iter().all(|cell| self.declared.has(*cell))
    }

    /// The group's cells among some.
    fn cells_among(&self, alloc: Global, cells: &[Cell]) -> Result<Cells, AllocError>
        ensures { IfOk result (λ kept. kept ≡ filter (is_among self.now.cells) cells.now) }
    {
        let mut list = Vec::new(alloc);
        for cell in cells {
            if is_among(&self.cells.list, *cell) {
                list.push(*cell)?;
            }
        }
        Ok(Cells { list })
    }

    /// The group's cells, if the network has declared any.
    fn all(&self, alloc: Global) -> Result<Cells, RowFault>
        ensures ok { IfOk result (λ cells. kept_all self.now ≡ Ok cells) }
        ensures err { IfErr result (λ fault. fault ≢ RowFault.Refused → kept_all self.now ≡ Err fault) }
    {
        if self.count == 0 {
            return Err(RowFault::UnknownCell);
        }
        let list = Vec::from_slice(alloc, &self.cells.list)?;
        Ok(Cells { list })
    }
}

impl Declared for GroupCells {
    ghost field_cells = { kept_field };

    ghost declares = { kept_declares };

    fn cells_of_field(&self, alloc: Global, field: &str) -> Result<Cells, RowFault> {
        if field == "*" {
            return self.all(alloc);
        }
        let Some(cells) = cells_listed(alloc, field)? else {
            return Err(RowFault::Number);
        };
        if !self.has_all(&cells.list) {
            return Err(RowFault::UnknownCell);
        }
        if !are_distinct(alloc, &cells.list)? {
            return Err(RowFault::TwiceNamed);
        }
        let kept = self.cells_among(alloc, &cells.list)?;
        Ok(kept)
    }

    fn cell_row(&self, fields: &StringRecord) -> Result<Row, RowFault> {
        if self.count >= MAX_CELLS {
            return Err(RowFault::TooManyRows);
        }
        let lac = number(column(fields, 1), 0, u16::MAX)?;
        let ci = number(column(fields, 2), 0, u16::MAX)?;
        let cell = Cell { lac, ci };
        if self.declared.has(cell) {
            return Err(RowFault::TwiceNamed);
        }
        Ok(Row::Declare(cell))
    }
}

/// Whether a list has no cell twice. It may be long, so no two of its cells are compared.
pub(crate) fn are_distinct(alloc: Global, cells: &[Cell]) -> Result<bool, AllocError>
    ensures { IfOk result (λ distinct. distinct ≡ are_distinct cells.now) }
{
    let mut seen = CellSet::new(alloc);
    for cell in cells {
        if seen.has(*cell) {
            return Ok(false);
        }
        seen.add(*cell)?;
    }
    Ok(true)
}
