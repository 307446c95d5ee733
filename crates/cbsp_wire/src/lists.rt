//! The lists of a message: each item names a cell, and a list names at most 64, none twice.

ghost use Rattle.std.specs.Prelude.{◌≡◌, ◌<◌, length, nat_le};
ghost use Rattle.cbsp_wire.specs.Value.{cell_at, items_of};
ghost use Rattle.cbsp_wire.specs.CellLists.{contains};
ghost use Rattle.cbsp_wire.specs.Range.{are_distinct, cells_are_valid, items_are_whole, max_listed};
ghost use Rattle.cbsp_wire.specs.Range.{failures_are_by_lac_and_ci, is_by_lac_and_ci, is_list_body};
ghost use Rattle.cbsp_wire.specs.Rising.{is_after, are_rising, are_rising_after};

use crate::lists::cursor::Cursor;
use crate::lists::item::Discriminator;
use crate::message::Cell;

pub(crate) mod cursor;
pub(crate) mod item;

/// How many cells a list names at most (own).
pub const MAX_LISTED: usize = 64;

/// The cell that four octets are, the high ones first.
pub(crate) fn cell_of(a: u8, b: u8, c: u8, d: u8) -> Cell
    ensures { result ≡ cell_at a b c d }
{
    Cell {
        lac: u16::from(a) * 256 + u16::from(b),
        ci: u16::from(c) * 256 + u16::from(d),
    }
}

/// Whether a list names the cell.
fn has_cell<C: Cursor>(list: C, cell: Cell) -> bool
    ensures { result ≡ contains (C.cells list) cell }
{
    let mut left = list;
    while let Some((other, rest)) = left.first() {
        if cell == other {
            return true;
        }
        left = rest;
    }
    false
}

/// Whether a cell comes after another one, by LAC and then by CI.
fn is_after(last: Cell, cell: Cell) -> bool
    ensures { result ≡ is_after last cell }
{
    u32::from(last.lac) * 0x1_0000 + u32::from(last.ci)
        < u32::from(cell.lac) * 0x1_0000 + u32::from(cell.ci)
}

/// Whether the cells of a list rise, from the one after this.
fn are_rising_after<C: Cursor>(first: Cell, list: C) -> bool
    ensures { result ≡ are_rising_after first (C.cells list) }
{
    let mut last = first;
    let mut left = list;
    while let Some((cell, rest)) = left.first() {
        if !is_after(last, cell) {
            return false;
        }
        last = cell;
        left = rest;
    }
    true
}

/// Whether the cells of a list rise.
fn are_rising<C: Cursor>(list: C) -> bool
    ensures { result ≡ are_rising (C.cells list) }
{
    match list.first() {
        Some((cell, rest)) => are_rising_after(cell, rest),
        None => true,
    }
}

/// Whether a list names no cell twice. Most lists rise, which takes one look at each item.
pub(crate) fn are_distinct<C: Cursor>(list: C) -> bool
    ensures { result ≡ are_distinct (C.cells list) }
{
    are_rising(list) || are_pairwise_distinct(list)
}

/// Whether a list names no cell twice, by a look at each two of its items.
fn are_pairwise_distinct<C: Cursor>(list: C) -> bool
    ensures { result ≡ are_distinct (C.cells list) }
{
    let mut left = list;
    while let Some((cell, rest)) = left.first() {
        if has_cell(rest, cell) {
            return false;
        }
        left = rest;
    }
    true
}

/// Whether a list has at most 64 items.
fn are_few<C: Cursor>(list: C) -> bool
    ensures { result ≡ nat_le (length (C.cells list)) max_listed }
{
    let mut left = list;
    for _ in 0..MAX_LISTED {
        match left.first() {
            Some((_, rest)) => left = rest,
            None => return true,
        }
    }
    left.first().is_none()
}

/// Whether a list may be a message's: it names at most 64 cells, and none twice. Of a list that is read the octets are
/// looked at themselves, so that no memory is taken before all faults have been looked for.
pub(crate) fn cells_are_valid<C: Cursor>(list: C) -> bool
    ensures { result ≡ cells_are_valid (C.cells list) }
{
    are_few(list) && are_distinct(list)
}

/// The octets of a list's items, after its length and the one discriminator, if all items share one.
pub(crate) fn items_of(discriminator: Discriminator, body: &[u8]) -> &[u8]
    ensures { result.now ≡ items_of discriminator body.now }
{
    match discriminator {
        Discriminator::Once => match body {
            [_, _, _, items @ ..] => items,
            _ => &[],
        },
        Discriminator::Each => match body {
            [_, _, items @ ..] => items,
            _ => &[],
        },
    }
}

/// Whether each failure begins with the discriminator 1, LAC and CI.
fn failures_are_by_lac_and_ci(failures: &[u8]) -> bool
    ensures { result ≡ failures_are_by_lac_and_ci failures.now }
{
    let mut left = failures;
    'failures: while let [discriminator, _, _, _, _, _, rest @ ..] = left {
        if *discriminator != 1 {
            return false;
        }
        left = rest;
    }
    true
}

/// Whether the discriminators of a list's body are 1, LAC and CI.
fn is_by_lac_and_ci(discriminator: Discriminator, body: &[u8]) -> bool
    ensures { result ≡ is_by_lac_and_ci discriminator body.now }
{
    match discriminator {
        Discriminator::Once => match body {
            [_, _, discriminator, ..] => *discriminator == 1,
            _ => false,
        },
        Discriminator::Each => match body {
            [_, _, failures @ ..] => failures_are_by_lac_and_ci(failures),
            _ => false,
        },
    }
}

/// Whether octets are whole items of this size, and at least one of them.
fn items_are_whole(size: u16, items: &[u8]) -> bool
    requires { 0 < size }
    ensures { result ≡ items_are_whole size items.now }
{
    items.len() % usize::from(size) == 0 && !items.is_empty()
}

/// Whether the body of a list is right: two octets of length, and whole items whose discriminators are 1.
pub(crate) fn is_list_body(discriminator: Discriminator, size: u16, body: &[u8]) -> bool
    requires { 0 < size }
    ensures { result ≡ is_list_body discriminator size body.now }
{
    is_by_lac_and_ci(discriminator, body) && items_are_whole(size, items_of(discriminator, body))
}
