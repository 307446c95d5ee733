//! A desk that is closed.

use bsc_table::CellBook;
use cbsp_wire::Cell;
use std::marker::Model;

/// What a desk had: its cells, and the book of each.
#[derive(Drop)]
pub struct Closed {
    /// The cells, in the desk's order.
    pub cells: Vec<Cell>,
    /// How many slots the run of each cell has.
    pub slots: u16,
    /// The books, in the order of the cells.
    pub books: Vec<CellBook>,
}

impl Model for Closed {
    ghost use Rattle.order_desk.specs.Settled.{ClosedDesk};

    ghost Value = { ClosedDesk };

    ghost view = { λ desk. record { cells = desk.cells.items; slots = desk.slots; books = desk.books.items } };
}
