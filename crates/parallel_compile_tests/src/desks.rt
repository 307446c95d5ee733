//! Desks of cells 1-1, 1-2 and so on, what is ordered at them, and their settlement.

use bsc_table::CellRecord;
use cbsp_wire::Cell;
use order_desk::{Desk, Gate, Open, Pass, cells_ok};
use std::alloc::Global;
use std::sync::Wait;
use std::test::Fail;
use test_support::octets_of;

/// The front of a message that orders a page in both cells: identifier 4370, serial number 0010, period 2, no requested
/// broadcasts. The content of the page follows.
const FRONT: &str = "010000720e1112030010040009010001000100010002050206000207000013010c010101";

/// The front of one that orders it in cell 1-2 alone.
pub const FRONT_OF_SECOND: &str =
    "0100006e0e11120300100400050100010002050206000207000013010c010101";

/// The page with serial number 0010, identifier 4370, data coding 01, the only one of its message, and the text "@".
pub const PAGE: [u8; 88] = [
    0x00, 0x10, 0x11, 0x12, 0x01, 0x11, 0x80, 0x46, 0xA3, 0xD1, 0x68, 0x34, 0x1A, 0x8D, 0x46, 0xA3,
    0xD1, 0x68, 0x34, 0x1A, 0x8D, 0x46, 0xA3, 0xD1, 0x68, 0x34, 0x1A, 0x8D, 0x46, 0xA3, 0xD1, 0x68,
    0x34, 0x1A, 0x8D, 0x46, 0xA3, 0xD1, 0x68, 0x34, 0x1A, 0x8D, 0x46, 0xA3, 0xD1, 0x68, 0x34, 0x1A,
    0x8D, 0x46, 0xA3, 0xD1, 0x68, 0x34, 0x1A, 0x8D, 0x46, 0xA3, 0xD1, 0x68, 0x34, 0x1A, 0x8D, 0x46,
    0xA3, 0xD1, 0x68, 0x34, 0x1A, 0x8D, 0x46, 0xA3, 0xD1, 0x68, 0x34, 0x1A, 0x8D, 0x46, 0xA3, 0xD1,
    0x68, 0x34, 0x1A, 0x8D, 0x46, 0xA3, 0xD1, 0x00,
];

/// A cell of location area 1.
pub fn cell_of(ci: u16) -> Cell {
    Cell { lac: 1, ci }
}

/// A desk of so many cells, from 1-1 on.
pub fn desk_of(alloc: Global, cells: u16, slots: u16) -> Result<Desk, Fail> {
    let mut list = Vec::with_capacity(alloc, usize::from(cells))?;
    for ci in 1..=cells {
        list.push(cell_of(ci))?;
    }
    if !cells_ok(&list) {
        return Err(Fail::new("these cells are of no desk"));
    }
    match Desk::open(alloc, &list, slots) {
        Ok(desk) => Ok(desk),
        Err(fault) => Err(Fail::new(fault)),
    }
}

/// The message that orders the page, with this front.
pub fn order_of(alloc: Global, front: &str) -> Result<Vec<u8>, Fail> {
    let mut octets = octets_of(alloc, front)?;
    octets.extend_from_slice(&PAGE[6..])?;
    Ok(octets)
}

/// Has an order carried out at slot 0, and says whether there is a reply.
pub fn order<T: AllocGlobal + Wait, G: Gate>(
    rt: &T,
    desk: &Desk,
    pass: &mut Pass,
    octets: &[u8],
    gate: &G,
) -> bool {
    desk.order(rt, rt.alloc(), pass, 0, octets, gate).is_ok()
}

/// Plays the second cell up to a slot, and says whether it did.
fn play<T: AllocGlobal + Wait>(rt: &T, desk: &Desk, pass: &mut Pass, clock: u16) -> bool {
    desk.play(rt, rt.alloc(), pass, cell_of(2), clock, &Open)
        .is_ok()
}

/// A desk of two cells in which the page was ordered, once the second was played up to a slot; and the pass of that.
pub fn ordered<T: AllocGlobal + Wait>(
    rt: &T,
    slots: u16,
    clock: u16,
) -> Result<(Desk, Pass), Fail> {
    let octets = order_of(rt.alloc(), FRONT)?;
    let desk = desk_of(rt.alloc(), 2, slots)?;
    let mut pass = desk.pass();
    if order(rt, &desk, &mut pass, &octets, &Open) && play(rt, &desk, &mut pass, clock) {
        return Ok((desk, pass));
    }
    drop(desk);
    drop(pass);
    Err(Fail::new("the page isn't ordered, or the cell not played"))
}

/// The records of a desk, settled with these passes.
pub fn settled(alloc: Global, desk: Desk, passes: &[Pass]) -> Result<Vec<CellRecord>, Fail> {
    let closed = match desk.close() {
        Ok(closed) => closed,
        Err(fault) => return Err(Fail::new(fault)),
    };
    if closed.cells.len() != closed.books.len() || !cells_ok(&closed.cells) {
        drop(closed);
        return Err(Fail::new("the desk has other cells or books"));
    }
    match closed.settle(alloc, passes) {
        Ok(records) => Ok(records),
        Err(fault) => Err(Fail::new(fault)),
    }
}
