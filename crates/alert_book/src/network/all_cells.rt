//! The cells of a network, as the reader of all its groups keeps them.

ghost use Rattle.std.specs.Prelude.{◌≡◌, ◌≢◌, ◌≤◌, ℕ, [], Ok, Err, filter, length, slice_index_or, IfErr, IfOk, OnOk};
ghost use Rattle.std.specs.List.{list_all};
ghost use Rattle.std.specs.Map.{lookup};
ghost use Rattle.csv.specs.Records.{fields_of};
ghost use Rattle.alert_book.specs.CellPairs.{is_pair};
ghost use Rattle.alert_book.specs.AllGroupsSteps.{all_declared, all_declares, all_field, has_group, is_placed};
ghost use Rattle.alert_book.specs.AllGroupsSteps.{AreGrouped, HasCellMore, IsNamed};

use crate::book::cells::cells_listed;
use crate::book::declared::Declared;
use crate::book::fields::{column, number};
use crate::book::row::Row;
use crate::fault::RowFault;
use crate::network::group_cells::{GROUP_SIZE, MAX_CELLS, are_distinct};
use crate::network::shares::{Named, Shares};
use cbsp_wire::{Cell, Cells};
use csv::StringRecord;
use std::alloc::{AllocError, Global};
use std::collections::HashMap;
use std::marker::Model;

/// The group of each cell. In clauses these are the entries of its map.
#[derive(Debug, Drop)]
pub struct CellGroups {
    by_cell: HashMap<(u16, u16), u16>,
}

impl Model for CellGroups {
    ghost use Rattle.std.specs.Prelude.{List, ℕ};
    ghost use Rattle.alert_book.specs.CellPairs.{Pair};

    ghost Value = { List (Pair × ℕ) };

    ghost view = { λ groups. groups.by_cell.entries };
}

impl CellGroups {
    ghost use Rattle.std.specs.Prelude.{◌≡◌, OnOk, Some, cond};
    ghost use Rattle.std.specs.Map.{lookup};
    ghost use Rattle.alert_book.specs.CellPairs.{is_pair};
    ghost use Rattle.cbsp_wire.specs.Range.{is_cell};
    ghost use Rattle.cbsp_wire.specs.declared.message.Cell.{Cell};

    /// The group of a cell, if it has one.
    fn of(&self, cell: Cell) -> Option<u16>
        ensures { result ≡ lookup (is_pair (cell.lac, cell.ci)) self.now }
    {
        self.by_cell.get(&(cell.lac, cell.ci)).copied()
    }

    /// Sets the group of a cell.
    fn set(&mut self, cell: Cell, group: u16) -> Result<(), AllocError>
        ensures { OnOk result ((other : Cell) → lookup (is_pair (other.lac, other.ci)) self.new
            ≡ cond (is_cell cell other) (Some group) (lookup (is_pair (other.lac, other.ci)) self.old)) }
    {
        self.by_cell.insert((cell.lac, cell.ci), group)?;
        Ok(())
    }
}

/// The cells that a network's rows declare, and the group of each.
#[derive(Debug, Drop)]
pub struct NetworkCells {
    /// The cells, in the order of their rows.
    pub cells: Cells,
    /// The group of each.
    pub groups: CellGroups,
}

impl NetworkCells {
    /// None. It takes no memory.
    pub(crate) fn new(alloc: Global) -> NetworkCells
        ensures grouped { AreGrouped result }
        ensures cells { result.cells ≡ [] }
    {
        NetworkCells {
            cells: Cells {
                list: Vec::new(alloc),
            },
            groups: CellGroups {
                by_cell: HashMap::new(alloc),
            },
        }
    }

    /// Adds a cell, which isn't among them.
    ///
    /// # Errors
    ///
    /// Out of memory.
    pub(crate) fn add(&mut self, cell: Cell) -> Result<(), AllocError>
        requires { length self.old.cells ≤ 65536 }
        ensures { OnOk result (HasCellMore self.old self.new cell) }
    {
        let group = self.cells.list.len() / GROUP_SIZE as usize;
        self.groups.set(cell, group as u16)?;
        self.cells.list.push(cell)?;
        Ok(())
    }

    /// Whether all of some cells are declared.
    fn has_all(&self, cells: &[Cell]) -> bool
        ensures { result ≡ list_all (has_group self.now.groups) cells.now }
    {
        cells.iter().all(|cell| self.groups.of(*cell).is_some())
    }

    /// No cells, in place of all that are declared, if there are any.
    fn all(&self, alloc: Global) -> Result<Cells, RowFault>
        ensures ok { IfOk result (λ cells. all_declared self.now ≡ Ok cells) }
        ensures err { IfErr result (λ fault. all_declared self.now ≡ Err fault) }
    {
        if self.cells.list.is_empty() {
            return Err(RowFault::UnknownCell);
        }
        Ok(Cells {
            list: Vec::new(alloc),
        })
    }

    /// Cells by the groups that they are in.
    fn shares_of(&self, alloc: Global, cells: &[Cell]) -> Result<Shares, AllocError>
        ensures { IfOk result (λ shares. (group : ℕ) → slice_index_or shares group []
            ≡ filter (is_placed self.now.groups group) cells.now) }
    {
        let mut shares = Shares::new(alloc);
        for cell in cells {
            if let Some(group) = self.groups.of(*cell) {
                shares.add(alloc, group, *cell)?;
            }
        }
        Ok(shares)
    }

    /// What a row names whose field of cells came to these: all, if they are none.
    pub(crate) fn named(&self, alloc: Global, cells: &[Cell]) -> Result<Named, AllocError>
        requires { length self.now.cells ≤ 65536 }
        ensures { IfOk result (IsNamed self.now cells.now) }
    {
        if cells.is_empty() {
            return Ok(Named::All(self.cells.list.len() as u32));
        }
        let shares = self.shares_of(alloc, cells)?;
        Ok(Named::Listed(shares))
    }
}

// A row for all cells gets none here, so that they aren't copied.
impl Declared for NetworkCells {
    ghost field_cells = { all_field };

    ghost declares = { all_declares };

    fn cells_of_field(&self, alloc: Global, field: &str) -> Result<Cells, RowFault> {
        if field == "*" {
            return self.all(alloc);
        }
        let Some(cells) = cells_listed(alloc, field)? else {
            return Err(RowFault::Number);
        };
        if !self.has_all(&cells.list) {
            return Err(RowFault::UnknownCell);
        }
        if !are_distinct(alloc, &cells.list)? {
            return Err(RowFault::TwiceNamed);
        }
        Ok(cells)
    }

    fn cell_row(&self, fields: &StringRecord) -> Result<Row, RowFault> {
        if self.cells.list.len() >= MAX_CELLS as usize {
            return Err(RowFault::TooManyRows);
        }
        let lac = number(column(fields, 1), 0, u16::MAX)?;
        let ci = number(column(fields, 2), 0, u16::MAX)?;
        let cell = Cell { lac, ci };
        if self.groups.of(cell).is_some() {
            return Err(RowFault::TwiceNamed);
        }
        Ok(Row::Declare(cell))
    }
}
