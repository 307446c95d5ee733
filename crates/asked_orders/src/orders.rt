//! The orders of a book, for the reports and charts of its run.

ghost use Rattle.std.specs.Prelude.{◌≡◌, map, IfOk};
ghost use Rattle.asked_orders.specs.Asked.{asked_in, named, orders_of_run};

use crate::asked::asked_in;
use alert_book::Order;
use bsc_table::CellRecord;
use report::{AskedCell, BookOrders, NamedOrder};
use std::alloc::{AllocError, Global};

/// An order by its row and its name.
fn named(alloc: Global, order: &Order) -> Result<NamedOrder, AllocError>
    ensures { IfOk result (λ made. made ≡ named order.now) }
{
    Ok(NamedOrder {
        row: order.row,
        name: String::from_str(alloc, order.name.text.as_str())?,
    })
}

/// Orders by their rows and names.
fn all_named(alloc: Global, orders: &[Order]) -> Result<Vec<NamedOrder>, AllocError>
    ensures { IfOk result (λ all. all.items ≡ map named orders.now) }
{
    let mut all = Vec::with_capacity(alloc, orders.len())?;
    for order in orders {
        all.push(named(alloc, order)?)?;
    }
    Ok(all)
}

/// The orders that asked each cell of a run.
fn all_asked(
    alloc: Global,
    orders: &[Order],
    records: &[CellRecord],
) -> Result<Vec<AskedCell>, AllocError>
    ensures { IfOk result (λ all. all.items ≡ map (asked_in orders.now) records.now) }
{
    let mut all = Vec::with_capacity(alloc, records.len())?;
    for run in records {
        all.push(asked_in(alloc, orders, run)?)?;
    }
    Ok(all)
}

/// The orders of a book by their rows and names, and which of them asked each cell of its run: so a row of a report
/// finds the order that it is of ([`BookOrders::of_row`]).
///
/// Takes time in proportion to the orders times the cells.
///
/// # Errors
///
/// Out of memory.
pub fn orders_of_run(
    alloc: Global,
    orders: &[Order],
    records: &[CellRecord],
) -> Result<BookOrders, AllocError>
    ensures { IfOk result (λ made. made ≡ orders_of_run orders.now records.now) }
{
    let named = all_named(alloc, orders)?;
    let asked = all_asked(alloc, orders, records)?;
    Ok(BookOrders { named, asked })
}
