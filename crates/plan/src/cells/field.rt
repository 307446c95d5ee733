//! Fields of cells.

ghost use Rattle.std.specs.Prelude.{◌≡◌, ◌≤◌, ◌++◌, ◌∷◌, drop, length, IfOk, OnOk};
ghost use Rattle.std.specs.List.{flat_map};
ghost use Rattle.plan.specs.PlanCells.{cells_text, field_cells, joined, part_cells, parts_of};

use crate::cells::area::{Area, area_named};
use crate::cells::parts::push_parts;
use crate::cells::range::{MOST_CELLS, push_ranged};
use crate::octets::{Octets, copy_of, octets_of, texts_of};
use std::alloc::{AllocError, Global};

/// Appends copies of texts.
fn push_copies(alloc: Global, texts: &mut Vec<Octets>, others: &[Octets]) -> Result<(), AllocError>
    ensures { OnOk result (texts.new.items ≡ texts.old.items ++ others.now) }
{
    for other in others {
        let copy = copy_of(alloc, octets_of(other))?;
        texts.push(copy)?;
    }
    Ok(())
}

/// Appends the cells of a part.
fn push_part_cells(
    alloc: Global,
    areas: &[Area],
    cells: &mut Vec<Octets>,
    part: &[u8],
) -> Result<(), AllocError>
    ensures { OnOk result (cells.new.items ≡ cells.old.items ++ part_cells areas.now part.now) }
{
    match area_named(areas, part) {
        Some(area) => push_copies(alloc, cells, texts_of(&area.cells)),
        None => push_ranged(alloc, cells, part),
    }
}

/// The cells of a field of these parts.
fn field_cells(
    alloc: Global,
    areas: &[Area],
    field: &[u8],
    parts: &[Octets],
) -> Result<Vec<Octets>, AllocError>
    requires { parts.now ≡ parts_of field.now }
    ensures { IfOk result (λ cells. cells.items ≡ field_cells areas.now field.now) }
{
    let mut cells = Vec::new(alloc);
    match area_named(areas, field) {
        Some(area) => push_copies(alloc, &mut cells, texts_of(&area.cells))?,
        None => push_all_cells(alloc, areas, &mut cells, parts)?,
    }
    Ok(cells)
}

/// Appends the cells of parts.
fn push_all_cells(
    alloc: Global,
    areas: &[Area],
    cells: &mut Vec<Octets>,
    parts: &[Octets],
) -> Result<(), AllocError>
    ensures { OnOk result (cells.new.items ≡ cells.old.items ++ flat_map (part_cells areas.now) parts.now) }
{
    for part in parts {
        push_part_cells(alloc, areas, cells, octets_of(part))?;
    }
    Ok(())
}

/// Texts with a space in front of each.
fn spaced(alloc: Global, texts: &[Octets]) -> Result<Vec<u8>, AllocError>
    ensures { IfOk result (λ text. text.items ≡ flat_map (λ part. 32 ∷ part) texts.now) }
{
    let mut text = Vec::new(alloc);
    for part in texts {
        text.push(b' ')?;
        text.extend_from_slice(octets_of(part))?;
    }
    Ok(text)
}

/// Octets without the first.
fn without_first(octets: &[u8]) -> &[u8]
    ensures { result.now ≡ drop 1 octets.now }
{
    if octets.is_empty() {
        return octets;
    }
    &octets[1..]
}

/// Texts with one space between two.
fn joined(alloc: Global, texts: &[Octets]) -> Result<Octets, AllocError>
    ensures { IfOk result (λ text. text ≡ joined texts.now) }
{
    let text = spaced(alloc, texts)?;
    copy_of(alloc, without_first(&text))
}

/// What stands in the book for a field of cells.
pub(crate) fn cells_text(alloc: Global, areas: &[Area], field: &[u8]) -> Result<Octets, AllocError>
    ensures { IfOk result (λ text. text ≡ cells_text areas.now field.now) }
{
    let mut parts = Vec::new(alloc);
    push_parts(alloc, &mut parts, field)?;
    if parts.len() > MOST_CELLS {
        return copy_of(alloc, field);
    }
    let cells = field_cells(alloc, areas, field, &parts)?;
    if cells.len() > MOST_CELLS {
        return copy_of(alloc, field);
    }
    joined(alloc, &cells)
}
