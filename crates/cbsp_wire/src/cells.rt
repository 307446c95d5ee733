//! Lists of cells: whether a cell is in one, where, and whether all of its cells are different.

ghost use Rattle.std.specs.Prelude.{◌≡◌, ◌↔◌, IfNone, IfSome, IsTrue, false};
ghost use Rattle.std.specs.List.{Contains, slice_get};
ghost use Rattle.cbsp_wire.specs.CellLists.{AreDistinct, contains, least_place};
ghost use Rattle.cbsp_wire.specs.Range.{are_distinct};

use crate::lists;
use crate::lists::cursor::Items;
use crate::message::Cell;

/// Whether a list has the cell.
#[tactic(auto, using(crate::proofs::CellLists::contains_is))]
pub fn contains(cells: &[Cell], cell: Cell) -> bool
    ensures means { IsTrue result ↔ Contains cells.now cell }
    ensures value { result ≡ contains cells.now cell }
{
    cells.iter().any(|other| cell == *other)
}

/// Whether a list has the cell at the place, from 0.
#[tactic(auto, using(crate::proofs::CellLists::same_cell))]
fn has_at(cells: &[Cell], cell: Cell, place: usize) -> bool
    ensures { IsTrue result → slice_get cells.now place ≡ Some cell }
{
    match cells.get(place) {
        Some(other) => cell == *other,
        None => false,
    }
}

/// Whether a list has the cell, which is looked for at the place, from 0, first: lists of the cells that were asked and
/// of those that answered mostly have one order.
#[tactic(auto, using(crate::proofs::CellLists::contains_is, crate::proofs::CellLists::found_near))]
pub fn contains_near(cells: &[Cell], cell: Cell, place: usize) -> bool
    ensures means { IsTrue result ↔ Contains cells.now cell }
    ensures value { result ≡ contains cells.now cell }
{
    has_at(cells, cell, place) || contains(cells, cell)
}

/// The first place at which a list has the cell, from 0.
pub fn find(cells: &[Cell], cell: Cell) -> Option<usize>
    ensures { result ≡ least_place cells.now cell }
{
    cells.iter().position(|other| cell == *other)
}

/// A place at which a list has the cell, from 0. It looks at a place and at the one after it first: orders mostly name
/// the cells in the desk's order, and so do the notes of them.
#[tactic(auto, using(crate::proofs::CellLists::at_place, crate::proofs::CellLists::absent))]
pub fn find_near(cells: &[Cell], cell: Cell, place: usize) -> Option<usize>
    ensures there { IfSome result (λ found. slice_get cells.now found ≡ Some cell) }
    ensures absent { IfNone result (¬ Contains cells.now cell) }
    ensures value { IfNone result (contains cells.now cell ≡ false) }
{
    if has_at(cells, cell, place) {
        return Some(place);
    }
    let next = place.saturating_add(1);
    if has_at(cells, cell, next) {
        return Some(next);
    }
    find(cells, cell)
}

/// Whether a list has no cell twice.
#[tactic(auto, using(crate::proofs::CellLists::distinct_is))]
pub fn are_distinct(cells: &[Cell]) -> bool
    ensures means { IsTrue result ↔ AreDistinct cells.now }
    ensures value { result ≡ are_distinct cells.now }
{
    lists::are_distinct(Items::new(cells))
}
