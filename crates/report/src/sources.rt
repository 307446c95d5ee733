//! Which order of a book a row is of.

ghost use Rattle.std.specs.Prelude.{◌≡◌, [], find};
ghost use Rattle.std.specs.Option.{option_copied};
ghost use Rattle.report.specs.Sources.{is_cell_of, named_at, order_of, place_in};

use crate::row::Row;
use cbsp_wire::Cell;
use std::alloc::Global;
use std::marker::Model;

/// An order of a book, by the row that gives it and the name of its alert.
#[derive(Debug, Drop)]
pub struct NamedOrder {
    /// The row, from 1.
    pub row: u32,
    /// The alert's name. In clauses it is its octets, UTF-8.
    pub name: String,
}

impl Model for NamedOrder {
    ghost use Rattle.std.specs.Prelude.{string_bytes};
    ghost use Rattle.report.specs.Sources.{Named};

    ghost Value = { Named };

    ghost view = { λ order. record { row = order.row; name = string_bytes order.name } };
}

/// A cell, and which orders asked it.
#[derive(Debug, Drop)]
pub struct AskedCell {
    /// The cell.
    pub cell: Cell,
    /// The place, from 0 among the book's orders, of the order of each entry of the cell's log, in the log's order.
    pub places: Vec<usize>,
}

impl Model for AskedCell {
    ghost use Rattle.report.specs.Sources.{Asked};

    ghost Value = { Asked };

    ghost view = { λ asked. record { cell = asked.cell; places = asked.places.items } };
}

/// The orders of a book, and which of them asked each cell of its run.
#[derive(Debug, Drop)]
pub struct BookOrders {
    /// The orders.
    pub named: Vec<NamedOrder>,
    /// The cells.
    pub asked: Vec<AskedCell>,
}

impl Model for BookOrders {
    ghost use Rattle.report.specs.Sources.{Orders};

    ghost Value = { Orders };

    ghost view = { λ orders. record { named = orders.named.items; asked = orders.asked.items } };
}

/// Whether a row is of this cell.
fn is_cell_of(row: &Row, asked: &AskedCell) -> bool
    ensures { result ≡ is_cell_of row.now asked.now }
{
    asked.cell.lac == row.lac && asked.cell.ci == row.ci
}

/// What is known of a row's cell, if it is among these.
fn cell_of<'a>(cells: &'a [AskedCell], row: &Row) -> Option<&'a AskedCell>
    ensures { option_copied result ≡ find (is_cell_of row.now) cells.now }
{
    cells.iter().find(|asked| is_cell_of(row, asked))
}

/// The place of the order whose entry stands at this place of a cell's log.
fn place_in(entry: usize, asked: Option<&AskedCell>) -> Option<usize>
    ensures { result ≡ place_in entry (option_copied asked.entry) }
{
    match asked {
        Some(asked) => asked.places.get(entry).copied(),
        None => None,
    }
}

/// The order at a place, if there is one.
fn named_at(named: &[NamedOrder], place: Option<usize>) -> Option<&NamedOrder>
    ensures { option_copied result ≡ named_at named.now place }
{
    match place {
        Some(place) => named.get(place),
        None => None,
    }
}

impl BookOrders {
    ghost use Rattle.report.specs.Sources.{Orders};

    /// No orders of no cells: no row is of one.
    pub fn none(alloc: Global) -> BookOrders
        ensures { result ≡ record { named = []; asked = [] } }
    {
        BookOrders {
            named: Vec::new(alloc),
            asked: Vec::new(alloc),
        }
    }

    /// The order that a row is of: the one that asked the row's cell for the row's entry, if that is known.
    pub fn of_row(&self, row: &Row) -> Option<&NamedOrder>
        ensures { option_copied result ≡ order_of self.now row.now }
    {
        let place = place_in(row.entry, cell_of(&self.asked, row));
        named_at(&self.named, place)
    }
}
