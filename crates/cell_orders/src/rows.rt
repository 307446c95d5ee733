//! The rows of a cell.

ghost use Rattle.std.specs.Prelude.{◌≡◌, ◌++◌, None, Some, option_copied, option_map, flat_map, if◌then◌else◌};
ghost use Rattle.std.specs.Prelude.{IfOk, OnOk};
ghost use Rattle.cell_orders.specs.declared.row.CellOrder.TheVariants as orders;
ghost use Rattle.cell_orders.specs.Rows.{answer_in, cell_answer, emergencies_to, is_emergency_message, order_by};
ghost use Rattle.cell_orders.specs.Rows.{row_of, rows_of, runs_on, runs_on_by};
ghost use Rattle.cell_orders.specs.Steps.{exchange_of, places_of, rows_at};

use crate::exchange::{HeldExchange, exchanges_of};
use crate::heard::Heard;
use crate::naming::{cell_cause, done_of, fails_cell, lists_cell};
use crate::row::{CellAnswer, CellOrder, OrderRow};
use cbsp_link::LinkMessage;
use cbsp_wire::Cell;
use std::alloc::{AllocError, Global};

/// The category of an order that has none: normal (3GPP TS 48.049, 8.2.7).
const NORMAL: u8 = 2;

/// What a message answers for a cell.
fn answer_in(cell: Cell, message: &LinkMessage) -> CellAnswer
    ensures { result ≡ answer_in cell message.now }
{
    match message {
        LinkMessage::Done { completed, .. } => CellAnswer {
            cause: None,
            done: done_of(&completed.list, cell),
        },
        LinkMessage::Failed {
            failures,
            completed,
            ..
        } => CellAnswer {
            cause: cell_cause(&failures.list, cell),
            done: done_of(&completed.list, cell),
        },
        LinkMessage::Write { .. }
        | LinkMessage::Emergency { .. }
        | LinkMessage::Kill { .. }
        | LinkMessage::Reset { .. }
        | LinkMessage::ResetDone { .. }
        | LinkMessage::ResetFailed { .. }
        | LinkMessage::Restart { .. }
        | LinkMessage::Failure { .. }
        | LinkMessage::Other { .. } => CellAnswer {
            cause: None,
            done: None,
        },
    }
}

/// What a cell answered to an order, if it did.
fn cell_answer(cell: Cell, held: &HeldExchange<'_>) -> Option<CellAnswer>
    ensures { result ≡ cell_answer cell (exchange_of held.now) }
{
    match held.answer {
        Some(heard) => Some(answer_in(cell, &heard.message)),
        None => None,
    }
}

/// Whether a message says that a cell's messages go on after RESET.
fn runs_on(cell: Cell, message: &LinkMessage) -> bool
    ensures { result ≡ runs_on cell message.now }
{
    match message {
        LinkMessage::ResetFailed { failures, .. } => fails_cell(&failures.list, cell),
        LinkMessage::Write { .. }
        | LinkMessage::Emergency { .. }
        | LinkMessage::Kill { .. }
        | LinkMessage::Done { .. }
        | LinkMessage::Failed { .. }
        | LinkMessage::Reset { .. }
        | LinkMessage::ResetDone { .. }
        | LinkMessage::Restart { .. }
        | LinkMessage::Failure { .. }
        | LinkMessage::Other { .. } => false,
    }
}

/// Whether an answer to RESET says that.
fn runs_on_by(cell: Cell, answer: Option<&Heard>) -> bool
    ensures { result ≡ runs_on_by cell (option_copied answer.entry) }
{
    match answer {
        Some(heard) => runs_on(cell, &heard.message),
        None => false,
    }
}

/// What an exchange is in a row. The only error is out of memory.
fn order_by(
    alloc: Global,
    cell: Cell,
    held: &HeldExchange<'_>,
    message: &LinkMessage,
) -> Result<Option<CellOrder>, AllocError>
    ensures { IfOk result (λ order. order ≡ order_by cell (exchange_of held.now) message.now) }
{
    match message {
        LinkMessage::Write {
            id,
            new_serial,
            old_serial,
            category,
            period,
            broadcasts,
            dcs,
            contents,
            ..
        } => {
            let contents = contents.copy(alloc)?;
            Ok(Some(CellOrder::Write {
                id: *id,
                new_serial: *new_serial,
                old_serial: *old_serial,
                category: category.unwrap_or(NORMAL),
                period: *period,
                broadcasts: *broadcasts,
                dcs: *dcs,
                contents,
                answer: cell_answer(cell, held),
            }))
        }
        LinkMessage::Kill { id, old_serial, .. } => Ok(Some(CellOrder::Kill {
            id: *id,
            old_serial: *old_serial,
            answer: cell_answer(cell, held),
        })),
        LinkMessage::Reset { .. } => Ok(clear_unless(runs_on_by(cell, held.answer))),
        LinkMessage::Restart { .. } | LinkMessage::Failure { .. } => Ok(Some(CellOrder::Clear)),
        LinkMessage::Emergency { .. }
        | LinkMessage::Done { .. }
        | LinkMessage::Failed { .. }
        | LinkMessage::ResetDone { .. }
        | LinkMessage::ResetFailed { .. }
        | LinkMessage::Other { .. } => Ok(None),
    }
}

/// That the cell lost its messages, unless they go on.
fn clear_unless(runs_on: bool) -> Option<CellOrder>
    ensures { result ≡ (if runs_on then None else Some orders.Clear) }
{
    if runs_on {
        None
    } else {
        Some(CellOrder::Clear)
    }
}

/// The row of an exchange. The only error is out of memory.
fn row_of(
    alloc: Global,
    cell: Cell,
    held: &HeldExchange<'_>,
) -> Result<Option<OrderRow>, AllocError>
    ensures { IfOk result (λ row. row ≡ row_of cell (exchange_of held.now)) }
{
    let last = match held.answer {
        Some(answer) => answer,
        None => held.order,
    };
    let (at, time, packet) = (last.slot, last.time, last.packet);
    match order_by(alloc, cell, held, &held.order.message)? {
        Some(order) => Ok(Some(OrderRow {
            at,
            time,
            packet,
            order,
        })),
        None => Ok(None),
    }
}

/// Appends the row of a place, if it has one. The only error is out of memory.
fn push_row(
    alloc: Global,
    cell: Cell,
    rows: &mut Vec<OrderRow>,
    place: &Option<HeldExchange<'_>>,
) -> Result<(), AllocError>
    ensures { OnOk result (rows.new.items ≡ rows.old.items ++ rows_at cell (option_map exchange_of place.now)) }
{
    let Some(held) = place else {
        return Ok(());
    };
    match row_of(alloc, cell, held)? {
        Some(row) => {
            rows.push(row)?;
            Ok(())
        }
        None => Ok(()),
    }
}

/// The rows of places. The only error is out of memory.
fn rows_of_places(
    alloc: Global,
    cell: Cell,
    places: &[Option<HeldExchange<'_>>],
) -> Result<Vec<OrderRow>, AllocError>
    ensures { IfOk result (λ rows. rows.items ≡ flat_map (rows_at cell) (places_of places.now)) }
{
    let mut rows = Vec::new(alloc);
    for place in places {
        push_row(alloc, cell, &mut rows, place)?;
    }
    Ok(rows)
}

/// The rows of a cell: what the messages of a link asked of it, each with its answer, in the order of the answers, and
/// when it lost its messages. What has no answer stands where it came.
///
/// - An order is of the cell if its list names the cell ([`names`](crate::names)). Its answer is the first later reply
///   on its connection with its kind, identifier and serial numbers that answers no earlier order. The cell took it
///   unless a failure of the reply names the cell.
/// - RESET clears a cell that it names when a reply on its connection names the cell, or where it came if none does. A
///   cell that is among the failures of the reply keeps its messages, and has no row.
/// - RESTART that says that messages of the broadcast channel are lost clears the cells that it names, and FAILURE of
///   that channel those of its failures.
///
/// # Errors
///
/// Out of memory.
pub fn rows_of(alloc: Global, cell: Cell, heard: &[Heard]) -> Result<Vec<OrderRow>, AllocError>
    ensures { IfOk result (λ rows. rows.items ≡ rows_of cell heard.now) }
{
    let all = exchanges_of(alloc, cell, heard)?;
    let rows = rows_of_places(alloc, cell, &all.places)?;
    Ok(rows)
}

/// Whether a message is an emergency message to a cell.
fn is_emergency_message(cell: Cell, message: &LinkMessage) -> bool
    ensures { result ≡ is_emergency_message cell message.now }
{
    match message {
        LinkMessage::Emergency { cells, .. } => lists_cell(&cells.list, cell),
        LinkMessage::Write { .. }
        | LinkMessage::Kill { .. }
        | LinkMessage::Done { .. }
        | LinkMessage::Failed { .. }
        | LinkMessage::Reset { .. }
        | LinkMessage::ResetDone { .. }
        | LinkMessage::ResetFailed { .. }
        | LinkMessage::Restart { .. }
        | LinkMessage::Failure { .. }
        | LinkMessage::Other { .. } => false,
    }
}

/// How many emergency messages to a cell there are. They go over the paging channel, and are no rows.
pub fn emergencies_to(cell: Cell, heard: &[Heard]) -> usize
    ensures { result ≡ emergencies_to cell heard.now }
{
    heard
        .iter()
        .filter(|one| is_emergency_message(cell, &one.message))
        .count()
}
