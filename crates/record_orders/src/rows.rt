//! The rows of one cell, by its record.

ghost use Rattle.std.specs.Prelude.{◌≡◌, ◌++◌, IfOk, OnOk};
ghost use Rattle.std.specs.List.{flat_map};
ghost use Rattle.cbsp_wire.specs.Range.{is_cell};
ghost use Rattle.record_orders.specs.Ordered.{answer_said, category_number, orders_in, row_in_slot, rows_if};
ghost use Rattle.record_orders.specs.Ordered.{rows_in, rows_of_command, rows_of_entry};

use bsc_table::{Answer, Category, CellRecord, Command, Entry};
use cbsp_wire::Cell;
use cell_orders::{CellAnswer, CellOrder, OrderRow, orders_text};
use std::alloc::{AllocError, Global};

/// The category of an order (3GPP TS 48.049, 8.2.7): 0 high, 1 background, 2 normal.
pub fn category_number(category: Category) -> u8
    ensures { result ≡ category_number category }
{
    match category {
        Category::High => 0,
        Category::Background => 1,
        Category::Normal => 2,
    }
}

/// What a cell answered to an order.
fn answer_said(answer: Answer) -> Option<CellAnswer>
    ensures { result ≡ answer_said answer }
{
    match answer {
        Answer::Started { .. } => Some(CellAnswer {
            cause: None,
            done: None,
        }),
        Answer::Replaced { completed, .. } | Answer::Stopped { completed } => Some(CellAnswer {
            cause: None,
            done: Some(completed),
        }),
        Answer::Cause(cause) => Some(CellAnswer {
            cause: Some(cause),
            done: None,
        }),
        Answer::Told { .. } | Answer::Unknown | Answer::Refused => None,
    }
}

/// The row of an order at the slot of its answer. A run has no packets.
fn row_in_slot(slot: u16, order: CellOrder) -> OrderRow
    ensures { result ≡ row_in_slot slot order }
{
    OrderRow {
        at: u64::from(slot),
        time: 0,
        packet: 0,
        order,
    }
}

/// Appends the row of a command, if it is an order. The only error is out of memory, here and below.
fn push_command(
    alloc: Global,
    rows: &mut Vec<OrderRow>,
    slot: u16,
    answer: Option<CellAnswer>,
    command: &Command,
) -> Result<(), AllocError>
    ensures { OnOk result (rows.new.items ≡ rows.old.items ++ rows_of_command slot answer command.now) }
{
    match command {
        Command::Write {
            id,
            serial,
            replaces,
            category,
            dcs,
            period,
            broadcasts,
            contents,
        } => {
            let contents = contents.copy(alloc)?;
            let order = CellOrder::Write {
                id: *id,
                new_serial: *serial,
                old_serial: *replaces,
                category: category_number(*category),
                period: *period,
                broadcasts: *broadcasts,
                dcs: *dcs,
                contents,
                answer,
            };
            rows.push(row_in_slot(slot, order))?;
            Ok(())
        }
        Command::Kill { id, serial } => {
            let order = CellOrder::Kill {
                id: *id,
                old_serial: *serial,
                answer,
            };
            rows.push(row_in_slot(slot, order))?;
            Ok(())
        }
        Command::Status { .. } => Ok(()),
    }
}

/// Appends the row of an entry, if it is of an order.
fn push_entry(alloc: Global, rows: &mut Vec<OrderRow>, entry: &Entry) -> Result<(), AllocError>
    ensures { OnOk result (rows.new.items ≡ rows.old.items ++ rows_of_entry entry.now) }
{
    let answer = answer_said(entry.answer);
    push_command(alloc, rows, entry.slot, answer, &entry.command)
}

/// Appends the rows of a log.
fn push_log(alloc: Global, rows: &mut Vec<OrderRow>, log: &[Entry]) -> Result<(), AllocError>
    ensures { OnOk result (rows.new.items ≡ rows.old.items ++ flat_map rows_of_entry log.now) }
{
    for entry in log {
        push_entry(alloc, rows, entry)?;
    }
    Ok(())
}

/// Whether two cells are the same.
fn is_cell(one: Cell, other: Cell) -> bool
    ensures { result ≡ is_cell one other }
{
    one.lac == other.lac && one.ci == other.ci
}

/// Appends the rows of a record, if it is the cell's.
fn push_record(
    alloc: Global,
    rows: &mut Vec<OrderRow>,
    cell: Cell,
    run: &CellRecord,
) -> Result<(), AllocError>
    ensures { OnOk result (rows.new.items ≡ rows.old.items ++ rows_if cell run.now) }
{
    if is_cell(cell, run.cell()) {
        push_log(alloc, rows, run.log())
    } else {
        Ok(())
    }
}

/// The rows of one cell of a run, in the order of its answers: each write and kill that the cell was asked, at the slot
/// at which it answered, with that answer. There is none if the run has no such cell.
///
/// # Errors
///
/// Out of memory.
pub fn rows_in(
    alloc: Global,
    cell: Cell,
    records: &[CellRecord],
) -> Result<Vec<OrderRow>, AllocError>
    ensures { IfOk result (λ rows. rows.items ≡ rows_in cell records.now) }
{
    let mut rows = Vec::new(alloc);
    for run in records {
        push_record(alloc, &mut rows, cell, run)?;
    }
    Ok(rows)
}

/// The orders file of these rows, which [`cell_orders`] writes. It is empty if there is none.
///
/// # Errors
///
/// Out of memory.
//
// It stays a function of its own, so that only this text takes the stack of its writer.
#[inline(never)]
pub fn orders_in(alloc: Global, cell: Cell, records: &[CellRecord]) -> Result<Vec<u8>, AllocError>
    ensures { IfOk result (λ octets. octets.items ≡ orders_in cell records.now) }
{
    let rows = rows_in(alloc, cell, records)?;
    orders_text(alloc, &rows)
}
