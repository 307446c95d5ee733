//! The cells of a row, by the groups that they are in.

ghost use Rattle.std.specs.Prelude.{◌≡◌, ◌++◌, ◌∷◌, ◌==◌, ◌<◌, [], ℕ, if◌then◌else◌, length, slice_index_or, OnOk};

use cbsp_wire::{Cell, Cells};
use std::alloc::{AllocError, Global};
use std::marker::Model;

/// Cells, those of each group by themselves. In clauses it is the list of these lists, by the number of the group; a
/// group past its end has none of the cells.
#[derive(Debug, Drop)]
pub struct Shares {
    by_group: Vec<Cells>,
}

impl Model for Shares {
    ghost use Rattle.std.specs.Prelude.{List};
    ghost use Rattle.cbsp_wire.specs.declared.message.Cell.{Cell};

    ghost Value = { List (List Cell) };

    ghost view = { λ shares. shares.by_group.items };
}

/// What cells a row names.
#[derive(Debug, Drop)]
pub enum Named {
    /// All that were declared before it: this many.
    All(u32),
    /// These.
    Listed(Shares),
}

/// Appends a cell.
fn push_cell(cells: &mut Cells, cell: Cell) -> Result<(), AllocError>
    ensures { OnOk result (cells.new ≡ cells.old ++ cell ∷ []) }
{
    cells.list.push(cell)?;
    Ok(())
}

impl Shares {
    /// None. It takes no memory.
    pub(crate) fn new(alloc: Global) -> Shares
        ensures { result ≡ [] }
    {
        Shares {
            by_group: Vec::new(alloc),
        }
    }

    /// The cells of a group.
    pub(crate) fn of_group(&self, group: u16) -> &[Cell]
        ensures { result.now ≡ slice_index_or self.now group [] }
    {
        match self.by_group.get(usize::from(group)) {
            Some(cells) => &cells.list,
            None => &[],
        }
    }

    /// Makes a place for the cells of a group.
    fn make_place(&mut self, alloc: Global, group: u16) -> Result<(), AllocError>
        ensures there { OnOk result (group < length self.new) }
        ensures same { OnOk result ((other : ℕ) → slice_index_or self.new other [] ≡ slice_index_or self.old other []) }
    {
        while self.by_group.len() <= usize::from(group) {
            self.by_group.push(Cells {
                list: Vec::new(alloc),
            })?;
        }
        Ok(())
    }

    /// Adds a cell to those of its group.
    ///
    /// # Errors
    ///
    /// Out of memory.
    pub(crate) fn add(&mut self, alloc: Global, group: u16, cell: Cell) -> Result<(), AllocError>
        ensures { OnOk result ((other : ℕ) → slice_index_or self.new other []
            ≡ slice_index_or self.old other [] ++ (if group == other then cell ∷ [] else [])) }
    {
        self.make_place(alloc, group)?;
        push_cell(&mut self.by_group[usize::from(group)], cell)?;
        Ok(())
    }
}
