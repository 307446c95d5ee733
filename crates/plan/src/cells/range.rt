//! Ranges of cells.

ghost use Rattle.std.specs.Prelude.{◌≡◌, ◌≤◌, ◌++◌, ◌-◌, ◌+◌, IfOk, IfSome, OnOk};
ghost use Rattle.std.specs.List.{flat_map};
ghost use Rattle.plan.specs.PlanCells.{after_two_dots, cell_text, cells_from, range_from, range_of, ranged};

use crate::number::number_within;
use crate::octets::{Octets, after_first, before_first, copy_of, octets_of};
use itoa::Buffer;
use std::alloc::{AllocError, Global};

/// The cells of a LAC from one CI to another, both among them.
#[derive(Clone, Copy, Debug)]
pub(crate) struct CellRange {
    pub(crate) lac: u64,
    pub(crate) first: u64,
    pub(crate) last: u64,
}

/// The most cells of a book.
pub(crate) const MOST_CELLS: usize = 64;

/// A cell as a book names it.
pub(crate) fn cell_text(alloc: Global, lac: u64, ci: u64) -> Result<Octets, AllocError>
    ensures { IfOk result (λ cell. cell ≡ cell_text lac ci) }
{
    let mut buffer = Buffer::new();
    let mut list = Vec::from_slice(alloc, buffer.format(lac).as_bytes())?;
    list.extend_from_slice(b"-")?;
    list.extend_from_slice(buffer.format(ci).as_bytes())?;
    Ok(Octets { list })
}

/// The range, if it has a cell, and no more than a book has.
fn range_from(lac: Option<u64>, first: Option<u64>, last: Option<u64>) -> Option<CellRange>
    ensures value { result ≡ range_from lac first last }
    ensures some { IfSome result (λ range. range.first ≤ range.last) }
{
    match (lac, first, last) {
        (Some(lac), Some(first), Some(last)) if first <= last && last - first < MOST_CELLS as u64 =>
            { Some(CellRange { lac, first, last }) }
        _ => None,
    }
}

/// The number behind two dots, the first ones of a text.
fn after_two_dots(text: &[u8]) -> Option<u64>
    ensures { result ≡ after_two_dots text.now }
{
    let rest = after_first(text, b'.');
    if before_first(rest, b'.').is_empty() {
        number_within(after_first(rest, b'.'), 0, 65535)
    } else {
        None
    }
}

/// The range that a part is, if it is one.
fn range_of(part: &[u8]) -> Option<CellRange>
    ensures value { result ≡ range_of part.now }
    ensures some { IfSome result (λ range. range.first ≤ range.last) }
{
    let cis = after_first(part, b'-');
    range_from(
        number_within(before_first(part, b'-'), 0, 65535),
        number_within(before_first(cis, b'.'), 0, 65535),
        after_two_dots(cis),
    )
}

/// Appends the cells of a range.
fn push_range(alloc: Global, cells: &mut Vec<Octets>, range: CellRange) -> Result<(), AllocError>
    requires { range.first ≤ range.last }
    ensures { OnOk result (cells.new.items
        ≡ cells.old.items ++ cells_from range.lac range.first (range.last - range.first + 1)) }
{
    let count = range.last - range.first;
    for place in 0..count {
        let cell = cell_text(alloc, range.lac, range.first + place)?;
        cells.push(cell)?;
    }
    let cell = cell_text(alloc, range.lac, range.last)?;
    cells.push(cell)?;
    Ok(())
}

/// Appends the cells of a part that is a range, or else the part itself.
pub(crate) fn push_ranged(
    alloc: Global,
    cells: &mut Vec<Octets>,
    part: &[u8],
) -> Result<(), AllocError>
    ensures { OnOk result (cells.new.items ≡ cells.old.items ++ ranged part.now) }
{
    match range_of(part) {
        Some(range) => push_range(alloc, cells, range),
        None => {
            let copy = copy_of(alloc, part)?;
            cells.push(copy)?;
            Ok(())
        }
    }
}

/// Appends the cells of parts.
pub(crate) fn push_all_ranged(
    alloc: Global,
    cells: &mut Vec<Octets>,
    parts: &[Octets],
) -> Result<(), AllocError>
    ensures { OnOk result (cells.new.items ≡ cells.old.items ++ flat_map ranged parts.now) }
{
    for part in parts {
        push_ranged(alloc, cells, octets_of(part))?;
    }
    Ok(())
}
