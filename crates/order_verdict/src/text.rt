//! The table of differences.

ghost use Rattle.std.specs.Prelude.{◌≡◌, IfOk, string_bytes};
ghost use Rattle.order_verdict.specs.Text.{difference_line, differences_text, no_tape_line, no_tape_text};
ghost use Rattle.order_verdict.specs.Text.{order_kind_text, other_slots_line, other_slots_text};

use crate::difference::{OrderDifference, OrderKind};
use cbsp_wire::Cell;
use std::alloc::{AllocError, Global};
use verification::kind_text;

/// The names of the columns.
const HEADER: &str = "lac,ci,id,serial,slot,difference\n";

/// What a kind of difference is called, as CSV quotes it. The only error is out of memory, here and below.
fn order_kind_text(alloc: Global, kind: OrderKind) -> Result<String, AllocError>
    ensures { IfOk result (λ text. string_bytes text ≡ order_kind_text kind) }
{
    match kind {
        OrderKind::Air(kind) => kind_text(alloc, kind),
        OrderKind::MoreThanOrdered => String::from_str(alloc, "more than ordered"),
        OrderKind::Answer { told, air } => format!(in alloc; "\"answer {told}, air {air}\""),
        OrderKind::NoAnswer => String::from_str(alloc, "no answer"),
    }
}

/// The line of a difference.
fn difference_line(
    alloc: Global,
    cell: Cell,
    difference: &OrderDifference,
) -> Result<String, AllocError>
    ensures { IfOk result (λ text. string_bytes text ≡ difference_line cell difference.now) }
{
    let OrderDifference {
        slot,
        id,
        serial,
        kind,
    } = difference;
    let (lac, ci) = (cell.lac, cell.ci);
    let serial = hex::encode(alloc, serial.number().to_be_bytes().as_slice())?;
    let kind = order_kind_text(alloc, *kind)?;
    format!(in alloc; "{lac},{ci},{id},{serial},{slot},{kind}\n")
}

/// The table of a cell's differences, as CSV: a line of the columns' names, and a line for each difference.
///
/// # Errors
///
/// Out of memory.
pub fn differences_text(
    alloc: Global,
    cell: Cell,
    found: &[OrderDifference],
) -> Result<String, AllocError>
    ensures { IfOk result (λ text. string_bytes text ≡ differences_text cell found.now) }
{
    let mut text = String::from_str(alloc, HEADER)?;
    for difference in found {
        text.push_str(&difference_line(alloc, cell, difference)?)?;
    }
    Ok(text)
}

/// The line of a cell of which there is no tape.
fn no_tape_line(alloc: Global, cell: Cell) -> Result<String, AllocError>
    ensures { IfOk result (λ text. string_bytes text ≡ no_tape_line cell) }
{
    let (lac, ci) = (cell.lac, cell.ci);
    format!(in alloc; "{lac},{ci},,,,no tape\n")
}

/// The table of a cell of which there is no tape: it has a line that says so.
///
/// # Errors
///
/// Out of memory.
pub fn no_tape_text(alloc: Global, cell: Cell) -> Result<String, AllocError>
    ensures { IfOk result (λ text. string_bytes text ≡ no_tape_text cell) }
{
    let mut text = String::from_str(alloc, HEADER)?;
    text.push_str(&no_tape_line(alloc, cell)?)?;
    Ok(text)
}

/// The line of a cell whose tape has another number of slots.
fn other_slots_line(alloc: Global, cell: Cell) -> Result<String, AllocError>
    ensures { IfOk result (λ text. string_bytes text ≡ other_slots_line cell) }
{
    let (lac, ci) = (cell.lac, cell.ci);
    format!(in alloc; "{lac},{ci},,,,other slots\n")
}

/// The table of a cell whose tape has another number of slots than is asked for: it has a line that says so.
///
/// # Errors
///
/// Out of memory.
pub fn other_slots_text(alloc: Global, cell: Cell) -> Result<String, AllocError>
    ensures { IfOk result (λ text. string_bytes text ≡ other_slots_text cell) }
{
    let mut text = String::from_str(alloc, HEADER)?;
    text.push_str(&other_slots_line(alloc, cell)?)?;
    Ok(text)
}
