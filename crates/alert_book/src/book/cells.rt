//! The cells that a row is for.

ghost use Rattle.std.specs.Prelude.{◌≡◌, ◌≢◌, Ok, Err, Some, None, IfErr, IfOk};
ghost use Rattle.std.specs.List.{list_all};
ghost use Rattle.alert_book.specs.Cells.{all_of, cell_named, cells_listed, cells_of_field, is_among, cells_judged};

use crate::book::number::number_within;
use crate::fault::RowFault;
use cbsp_wire::cells::are_distinct;
use cbsp_wire::{Cell, Cells};
use std::alloc::{AllocError, Global};

/// The cells of a list.
pub(crate) fn list_of(cells: &Cells) -> &[Cell]
    ensures { result.now ≡ cells.now }
{
    &cells.list
}

/// Whether a cell is among those declared.
pub(crate) fn is_among(declared: &[Cell], cell: Cell) -> bool
    ensures { result ≡ is_among declared.now cell }
{
    declared.contains(&cell)
}

/// The cell that a text names, if it names one.
fn cell_named(text: &str) -> Option<Cell>
    ensures { result ≡ cell_named text.now }
{
    let (lac, ci) = text.split_once('-')?;
    let lac = number_within(lac, 0, u16::MAX)?;
    let ci = number_within(ci, 0, u16::MAX)?;
    Some(Cell { lac, ci })
}

/// The cells that a text names between its spaces, if each part names one.
pub(crate) fn cells_listed(alloc: Global, text: &str) -> Result<Option<Cells>, AllocError>
    ensures { IfOk result (λ cells. cells ≡ cells_listed text.now) }
{
    let mut cells = Vec::new(alloc);
    let mut left = text;
    while let Some((part, rest)) = left.split_once(' ') {
        match cell_named(part) {
            Some(cell) => cells.push(cell)?,
            None => return Ok(None),
        }
        left = rest;
    }
    match cell_named(left) {
        Some(cell) => cells.push(cell)?,
        None => return Ok(None),
    }
    Ok(Some(Cells { list: cells }))
}

/// The cells of a row's field, if it is right where these are declared.
pub(crate) fn cells_of_field(
    alloc: Global,
    declared: &[Cell],
    field: &str,
) -> Result<Cells, RowFault>
    ensures ok { IfOk result (λ cells. cells_of_field declared.now field.now ≡ Ok cells) }
    ensures err { IfErr result (λ fault. fault ≢ RowFault.Refused →
        cells_of_field declared.now field.now ≡ Err fault) }
{
    if field == "*" {
        return all_of(alloc, declared);
    }
    let Some(cells) = cells_listed(alloc, field)? else {
        return Err(RowFault::Number);
    };
    if !are_declared(declared, &cells.list) {
        return Err(RowFault::UnknownCell);
    }
    if !are_distinct(&cells.list) {
        return Err(RowFault::TwiceNamed);
    }
    Ok(cells)
}

/// All cells that are declared, if there are any.
fn all_of(alloc: Global, declared: &[Cell]) -> Result<Cells, RowFault>
    ensures ok { IfOk result (λ cells. all_of declared.now ≡ Ok cells) }
    ensures err { IfErr result (λ fault. fault ≢ RowFault.Refused → all_of declared.now ≡ Err fault) }
{
    if declared.is_empty() {
        return Err(RowFault::UnknownCell);
    }
    let list = Vec::from_slice(alloc, declared)?;
    Ok(Cells { list })
}

/// Whether all of these cells are among those declared.
fn are_declared(declared: &[Cell], cells: &[Cell]) -> bool
    ensures { result ≡ list_all (is_among declared.now) cells.now }
{
    cells.iter().all(|cell| is_among(declared, *cell))
}
