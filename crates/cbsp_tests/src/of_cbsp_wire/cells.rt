//! Lists of cells: what is found in them, and whether their cells are different.

use crate::of_cbsp_wire::table::expect_rows;
use cbsp_wire::Cell;
use cbsp_wire::cells::{are_distinct, contains, contains_near, find, find_near};
use std::alloc::Global;
use std::test::Fail;
use test_support::Words;

/// The cell that a word such as `1-2` names.
fn cell_of(word: &str) -> Result<Cell, Fail> {
    let (lac, ci) = word.split_once('-').unwrap_or((word, ""));
    Ok(Cell {
        lac: lac.parse::<u16>()?,
        ci: ci.parse::<u16>()?,
    })
}

/// The cells that the words left name.
fn cells_in(alloc: Global, words: &mut Words<'_>) -> Result<Vec<Cell>, Fail> {
    let mut cells = Vec::new(alloc);
    for _ in 0..100_u8 {
        let word = words.word();
        if word.is_empty() {
            break;
        }
        cells.push(cell_of(word)?)?;
    }
    Ok(cells)
}

/// Whether cells are as a verb says: they have this cell, looked for at the place first or not, or none of them twice.
fn are_so(verb: &str, cells: &[Cell], cell: Cell, place: usize) -> bool {
    match verb {
        "contains" => contains(cells, cell),
        "contains_near" => contains_near(cells, cell, place),
        _ => are_distinct(cells),
    }
}

/// The place of a cell, looked for near another place or not.
fn place_of(verb: &str, cells: &[Cell], cell: Cell, place: usize) -> Option<usize> {
    match verb {
        "find" => find(cells, cell),
        _ => find_near(cells, cell, place),
    }
}

/// `contains CELL CELLS`: whether the cells have the one named first; `contains_near CELL PLACE CELLS` looks for it at
/// the place first. `find CELL CELLS`: the first place of the cell; `find_near CELL PLACE CELLS`: a place of it, which
/// is looked for at this one and the next one first. `distinct CELLS`: whether no cell is named twice.
pub fn looked_up(alloc: Global, verb: &str, words: &mut Words<'_>) -> Result<String, Fail> {
    let cell = match verb {
        "distinct" => Cell { lac: 0, ci: 0 },
        _ => cell_of(words.word())?,
    };
    let place = match verb {
        "contains_near" | "find_near" => words.number16()?,
        _ => 0,
    };
    let cells = cells_in(alloc, words)?;
    let place = usize::from(place);
    let text = match verb {
        "find" | "find_near" => match place_of(verb, &cells, cell, place) {
            Some(place) => return Ok(format!(in alloc; "at {place}")?),
            None => "nowhere",
        },
        _ if are_so(verb, &cells, cell, place) => "yes",
        _ => "no",
    };
    Ok(String::from_str(alloc, text)?)
}

/// What is found in lists of cells.
const CELLS: &str = "
# A list with no cell, with the cell, with cells that share its LAC or its CI, with it behind those.
contains 1-1 -> no
contains 1-1 1-1 -> yes
contains 1-1 1-2 2-1 -> no
contains 1-1 1-2 2-1 1-1 -> yes
contains 0-65535 65535-0 -> no
# At the place that is looked at first, before it and behind it, nowhere, and with no such place.
contains_near 1-1 0 1-1 1-2 -> yes
contains_near 1-1 1 1-1 1-2 -> yes
contains_near 1-2 0 1-1 1-2 -> yes
contains_near 1-3 0 1-1 1-2 -> no
contains_near 1-1 9 1-1 -> yes
contains_near 1-1 0 -> no
# The first place of a cell.
find 1-1 -> nowhere
find 1-1 1-1 -> at 0
find 1-3 1-1 1-2 1-3 1-4 -> at 2
find 1-1 1-2 1-1 1-3 1-1 -> at 1
find 1-1 2-1 1-2 -> nowhere
# Its place near another: there, one behind it, before it, and with no such place.
find_near 1-1 1 1-1 1-1 1-1 -> at 1
find_near 1-1 0 1-2 1-1 1-1 -> at 1
find_near 1-1 1 1-1 1-2 1-3 -> at 0
find_near 1-4 0 1-1 1-2 1-3 1-4 -> at 3
find_near 1-1 65535 1-1 -> at 0
find_near 1-3 0 1-1 1-2 -> nowhere
find_near 1-3 0 -> nowhere
# Cells that rise, fall, share a LAC or a CI; a cell twice, at once and later.
distinct -> yes
distinct 1-1 -> yes
distinct 1-1 1-2 2-1 -> yes
distinct 65535-65535 0-0 -> yes
distinct 2-1 1-2 1-1 -> yes
distinct 1-1 1-1 -> no
distinct 2-1 1-1 1-2 2-1 -> no
distinct 1-1 1-2 1-3 1-3 -> no
";

#[test]
fn cells_are_found_in_lists(rt: HostRuntime) -> Result<(), Fail> {
    expect_rows(&rt, rt.alloc(), CELLS, 31)
}
