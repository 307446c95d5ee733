//! What is remarked of a book and of its run.

ghost use Rattle.std.specs.Prelude.{◌≡◌, ◌++◌, length, map, IfOk, OnOk};
ghost use Rattle.std.specs.List.{flat_map, list_any};
ghost use Rattle.book_remarks.specs.Answers.{column_of};
ghost use Rattle.book_remarks.specs.Remarks.{cell_remarks, mark_in, order_remarks, remark_of, remarks_before};
ghost use Rattle.book_remarks.specs.Remarks.{remarks_in, starts};

use crate::mark::{CellColumn, Mark, column_of, starts};
use crate::says::{CellMark, Says, says_of};
use alert_book::{Order, Text};
use bsc_table::{CellRecord, Entry};
use cbsp_wire::Cell;
use std::alloc::{AllocError, Global};

/// A remark of a book and of its run.
#[derive(Debug, Drop)]
pub enum Remark {
    /// Of an order.
    OfOrder {
        /// Its row, from 1.
        row: u32,
        /// The name of its alert.
        name: Text,
        /// What is said of it.
        says: Says,
    },
    /// No message was ever accepted in this cell.
    NothingIn(Cell),
}

/// What became of each order of a book in the cells of its run.
fn columns_of(
    alloc: Global,
    orders: &[Order],
    records: &[CellRecord],
) -> Result<Vec<CellColumn>, AllocError>
    ensures { IfOk result (λ columns. columns.items ≡ map (column_of orders.now) records.now) }
{
    let mut columns = Vec::new(alloc);
    for run in records {
        columns.push(column_of(alloc, orders, run)?)?;
    }
    Ok(columns)
}

/// What became of the order of a place in a cell.
fn mark_in(place: usize, column: &CellColumn) -> CellMark
    ensures { result ≡ mark_in place column.now }
{
    let mark = match column.marks.get(place) {
        Some(mark) => *mark,
        None => Mark::Elsewhere,
    };
    CellMark {
        cell: column.cell,
        mark,
    }
}

/// What became of the order of a place in the cells of a run.
fn marks_in(
    alloc: Global,
    place: usize,
    columns: &[CellColumn],
) -> Result<Vec<CellMark>, AllocError>
    ensures { IfOk result (λ in_cells. in_cells.items ≡ map (mark_in place) columns.now) }
{
    let mut in_cells = Vec::with_capacity(alloc, columns.len())?;
    for column in columns {
        in_cells.push(mark_in(place, column))?;
    }
    Ok(in_cells)
}

/// A remark of an order.
fn remark_of(alloc: Global, order: &Order, says: Says) -> Result<Remark, AllocError>
    ensures { IfOk result (λ remark. remark ≡ remark_of order.now says) }
{
    let name = Text {
        text: String::from_str(alloc, order.name.text.as_str())?,
    };
    Ok(Remark::OfOrder {
        row: order.row,
        name,
        says,
    })
}

/// Appends what is remarked of an order, by the orders before it and by what became of it in the cells of the run.
fn push_order(
    alloc: Global,
    remarks: &mut Vec<Remark>,
    earlier: &[Order],
    order: &Order,
    in_cells: &[CellMark],
) -> Result<(), AllocError>
    ensures { OnOk result (remarks.new.items
        ≡ remarks.old.items ++ order_remarks earlier.now order.now in_cells.now) }
{
    let said = says_of(alloc, earlier, order, in_cells)?;
    for says in said {
        remarks.push(remark_of(alloc, order, says)?)?;
    }
    Ok(())
}

/// Appends what is remarked of all orders.
fn push_orders(
    alloc: Global,
    remarks: &mut Vec<Remark>,
    orders: &[Order],
    columns: &[CellColumn],
) -> Result<(), AllocError>
    ensures { OnOk result (remarks.new.items
        ≡ remarks.old.items ++ remarks_before orders.now columns.now (length orders.now)) }
{
    for (place, order) in orders.iter().enumerate() {
        let in_cells = marks_in(alloc, place, columns)?;
        push_order(alloc, remarks, &orders[..place], order, &in_cells)?;
    }
    Ok(())
}

/// Whether a cell has accepted a message.
fn has_started(log: &[Entry]) -> bool
    ensures { result ≡ list_any starts log.now }
{
    for entry in log {
        if starts(entry) {
            return true;
        }
    }
    false
}

/// Appends what is remarked of a cell.
fn push_cell(remarks: &mut Vec<Remark>, run: &CellRecord) -> Result<(), AllocError>
    ensures { OnOk result (remarks.new.items ≡ remarks.old.items ++ cell_remarks run.now) }
{
    if has_started(run.log()) {
        return Ok(());
    }
    remarks.push(Remark::NothingIn(run.cell()))?;
    Ok(())
}

/// Appends what is remarked of all cells.
fn push_cells(remarks: &mut Vec<Remark>, records: &[CellRecord]) -> Result<(), AllocError>
    ensures { OnOk result (remarks.new.items ≡ remarks.old.items ++ flat_map cell_remarks records.now) }
{
    for run in records {
        push_cell(remarks, run)?;
    }
    Ok(())
}

/// What is remarked of the orders of a book and of the records of its run: of each order, row by row, and then of each
/// cell.
///
/// Takes time in proportion to the orders times the cells, and to the square of the orders.
///
/// # Errors
///
/// Out of memory.
pub fn remarks_of(
    alloc: Global,
    orders: &[Order],
    records: &[CellRecord],
) -> Result<Vec<Remark>, AllocError>
    ensures { IfOk result (λ remarks. remarks.items ≡ remarks_in orders.now records.now) }
{
    let columns = columns_of(alloc, orders, records)?;
    let mut remarks = Vec::new(alloc);
    push_orders(alloc, &mut remarks, orders, &columns)?;
    push_cells(&mut remarks, records)?;
    Ok(remarks)
}
