//! The cells that rows name and none declares.

ghost use Rattle.std.specs.Prelude.{◌≡◌, ◌≤◌, ◌++◌, ◌∷◌, [], map, IfOk, IfSome, OnOk};
ghost use Rattle.std.specs.Fmt.{decimal};
ghost use Rattle.std.specs.List.{filter_map};
ghost use Rattle.alert_book.specs.Cells.{cell_from, cell_named, is_among};
ghost use Rattle.cbsp_wire.specs.Range.{is_cell};
ghost use Rattle.plan.specs.PlanRow.{cell_row, cells_place, declared_in, is_known, named_in, new_cells, text_at};
ghost use Rattle.plan.specs.PlanRow.{is_among_new, with_cell, with_cells};

use crate::cells::parts::push_parts;
use crate::cells::range::MOST_CELLS;
use crate::number::number_within;
use crate::octets::{Octets, Texts, after_first, before_first, copy_of, octets_of};
use crate::rows::Planned;
use crate::rows::word::verb_of;
use alert_book::Verb;
use cbsp_wire::Cell;
use itoa::Buffer;
use std::alloc::{AllocError, Global};

/// A cell that rows name and none declares.
#[derive(Clone, Copy, Debug, PartialEq, Eq)]
pub(crate) struct NewCell {
    /// The cell.
    pub(crate) cell: Cell,
    /// The first row of the plan that names it.
    pub(crate) row: usize,
}

/// How many new cells are enough: one more than a book has.
const ENOUGH: usize = MOST_CELLS + 1;

/// The field of a place; none if there is no such field.
pub(crate) fn text_at(texts: &Texts, place: usize) -> &[u8]
    ensures { result.now ≡ text_at texts.now place }
{
    match texts.list.get(place) {
        Some(octets) => octets_of(octets),
        None => b"",
    }
}

/// The cell of two numbers, if both are there.
fn cell_from(lac: Option<u64>, ci: Option<u64>) -> Option<Cell>
    requires lac { IfSome lac (λ n. n ≤ 65535) }
    requires ci { IfSome ci (λ n. n ≤ 65535) }
    ensures { result ≡ cell_from lac ci }
{
    match (lac, ci) {
        (Some(lac), Some(ci)) => Some(Cell {
            lac: lac as u16,
            ci: ci as u16,
        }),
        _ => None,
    }
}

/// The cell that a text names, if it names one.
fn cell_named(text: &[u8]) -> Option<Cell>
    ensures { result ≡ cell_named text.now }
{
    cell_from(
        number_within(before_first(text, b'-'), 0, 65535),
        number_within(after_first(text, b'-'), 0, 65535),
    )
}

/// The cell that a row declares, if it does.
fn declared_in(planned: &Planned) -> Option<Cell>
    ensures { result ≡ declared_in planned.now }
{
    match verb_of(text_at(&planned.fields, 0)) {
        Some(Verb::Cell) => cell_from(
            number_within(text_at(&planned.fields, 1), 0, 65535),
            number_within(text_at(&planned.fields, 2), 0, 65535),
        ),
        Some(Verb::Write) | Some(Verb::Update) | Some(Verb::Stop) | None => None,
    }
}

/// The cells that rows declare.
fn declared_cells(alloc: Global, rows: &[Planned]) -> Result<Vec<Cell>, AllocError>
    ensures { IfOk result (λ cells. cells.items ≡ filter_map declared_in rows.now) }
{
    let mut cells = Vec::new(alloc);
    for planned in rows {
        if let Some(cell) = declared_in(planned) {
            cells.push(cell)?;
        }
    }
    Ok(cells)
}

/// Where CELLS stands in a row of a verb.
fn cells_place(verb: Option<Verb>) -> Option<usize>
    ensures { result ≡ cells_place verb }
{
    match verb {
        Some(Verb::Write) => Some(10),
        Some(Verb::Update) => Some(7),
        Some(Verb::Stop) => Some(3),
        Some(Verb::Cell) | None => None,
    }
}

/// The cells that parts name.
fn cells_of_parts(alloc: Global, parts: &[Octets]) -> Result<Vec<Cell>, AllocError>
    ensures { IfOk result (λ cells. cells.items ≡ filter_map cell_named parts.now) }
{
    let mut cells = Vec::new(alloc);
    for part in parts {
        if let Some(cell) = cell_named(octets_of(part)) {
            cells.push(cell)?;
        }
    }
    Ok(cells)
}

/// The cells that a row names.
fn named_in(alloc: Global, planned: &Planned) -> Result<Vec<Cell>, AllocError>
    ensures { IfOk result (λ cells. cells.items ≡ named_in planned.now) }
{
    let mut parts = Vec::new(alloc);
    match cells_place(verb_of(text_at(&planned.fields, 0))) {
        Some(place) => {
            push_parts(alloc, &mut parts, text_at(&planned.fields, place))?;
            cells_of_parts(alloc, &parts)
        }
        None => Ok(Vec::new(alloc)),
    }
}

/// Whether a cell is declared.
fn is_among(declared: &[Cell], cell: Cell) -> bool
    ensures { result ≡ is_among declared.now cell }
{
    declared.contains(&cell)
}

/// Whether a new cell is this one.
fn is_cell(new: &NewCell, cell: Cell) -> bool
    ensures { result ≡ is_cell new.now.cell cell }
{
    new.cell == cell
}

/// Whether a cell is among the new ones.
fn is_among_new(new: &[NewCell], cell: Cell) -> bool
    ensures { result ≡ is_among_new new.now cell }
{
    new.iter().any(|other| is_cell(other, cell))
}

/// Whether a cell is declared, or among the new ones.
fn is_known(declared: &[Cell], new: &[NewCell], cell: Cell) -> bool
    ensures { result ≡ is_known declared.now new.now cell }
{
    is_among(declared, cell) || is_among_new(new, cell)
}

/// Adds a cell that a row names, if it is new.
fn add_cell(
    declared: &[Cell],
    row: usize,
    new: &mut Vec<NewCell>,
    cell: Cell,
) -> Result<(), AllocError>
    ensures { OnOk result (new.new.items ≡ with_cell declared.now row new.old.items cell) }
{
    if new.len() >= ENOUGH || is_known(declared, new, cell) {
        return Ok(());
    }
    new.push(NewCell { cell, row })?;
    Ok(())
}

/// Adds the new ones of the cells that a row names.
fn add_cells(
    declared: &[Cell],
    row: usize,
    new: &mut Vec<NewCell>,
    cells: &[Cell],
) -> Result<(), AllocError>
    ensures { OnOk result (new.new.items ≡ with_cells declared.now row new.old.items cells.now) }
{
    for cell in cells {
        add_cell(declared, row, new, *cell)?;
    }
    Ok(())
}

/// The cells that rows name and none declares.
pub(crate) fn new_cells(alloc: Global, rows: &[Planned]) -> Result<Vec<NewCell>, AllocError>
    ensures { IfOk result (λ new. new.items ≡ new_cells rows.now) }
{
    let declared = declared_cells(alloc, rows)?;
    let mut new = Vec::new(alloc);
    for planned in rows {
        let cells = named_in(alloc, planned)?;
        add_cells(&declared, planned.row, &mut new, &cells)?;
    }
    Ok(new)
}

/// A copy of a number's digits.
fn digits_of(alloc: Global, number: u16) -> Result<Octets, AllocError>
    ensures { IfOk result (λ digits. digits ≡ decimal number) }
{
    let mut buffer = Buffer::new();
    copy_of(alloc, buffer.format(number).as_bytes())
}

/// The row that declares a new cell.
fn cell_row(alloc: Global, new: NewCell) -> Result<Planned, AllocError>
    ensures { IfOk result (λ planned. planned ≡ cell_row new) }
{
    let mut list = Vec::new(alloc);
    list.push(copy_of(alloc, b"cell")?)?;
    list.push(digits_of(alloc, new.cell.lac)?)?;
    list.push(digits_of(alloc, new.cell.ci)?)?;
    Ok(Planned {
        row: new.row,
        fields: Texts { list },
    })
}

/// Appends the rows that declare new cells.
pub(crate) fn push_new_rows(
    alloc: Global,
    rows: &mut Vec<Planned>,
    new: &[NewCell],
) -> Result<(), AllocError>
    ensures { OnOk result (rows.new.items ≡ rows.old.items ++ map cell_row new.now) }
{
    for cell in new {
        let row = cell_row(alloc, *cell)?;
        rows.push(row)?;
    }
    Ok(())
}
