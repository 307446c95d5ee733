//! The pages of messages of which a cell took no order, and the orders without an answer.

ghost use Rattle.std.specs.Prelude.{◌≡◌, ◌++◌, [], map, OnOk};
ghost use Rattle.std.specs.List.{flat_map, list_any};
ghost use Rattle.order_verdict.specs.Kept.{air_kept, ordered_kept};
ghost use Rattle.order_verdict.specs.Verdict.{difference_at, has_name_of, is_known, unanswered, unanswered_if};
ghost use Rattle.order_verdict.specs.Verdict.{unordered, unordered_after};

use crate::air::AirPage;
use crate::difference::{OrderDifference, OrderKind};
use crate::judged::is_as_named;
use crate::ordered::{Ordered, row_slot};
use cbs_page::Serial;
use cell_orders::{CellAnswer, CellOrder, OrderRow};
use std::alloc::AllocError;
use verification::Kind;

/// Whether a page has the name of one of some messages.
fn is_known(messages: &[Ordered], page: &AirPage) -> bool
    ensures { result ≡ is_known (map ordered_kept messages.now) (air_kept page.now).octets }
{
    for ordered in messages {
        if is_as_named(&ordered.early, page) {
            return true;
        }
    }
    false
}

/// Whether one of some pages has the name of a page.
fn has_come(page: &AirPage, before: &[AirPage]) -> bool
    ensures { result ≡ list_any (has_name_of (air_kept page.now)) (map air_kept before.now) }
{
    for other in before {
        if page.id() == other.id() && page.serial() == other.serial() {
            return true;
        }
    }
    false
}

/// Appends the difference of a page after others, if it is the first of a name that no message has. The only error is
/// out of memory.
fn push_unordered(
    found: &mut Vec<OrderDifference>,
    messages: &[Ordered],
    before: &[AirPage],
    page: &AirPage,
) -> Result<(), AllocError>
    ensures { OnOk result (found.new.items ≡ found.old.items
        ++ unordered (map ordered_kept messages.now) (map air_kept before.now) (air_kept page.now)) }
{
    if is_known(messages, page) || has_come(page, before) {
        return Ok(());
    }
    found.push(OrderDifference {
        slot: page.slot,
        id: page.id(),
        serial: Serial::of(page.serial()),
        kind: OrderKind::Air(Kind::NotOrdered),
    })?;
    Ok(())
}

/// Appends a difference for each identifier and serial number that no message has, at the first of its pages.
///
/// # Errors
///
/// Out of memory.
pub fn push_all_unordered(
    found: &mut Vec<OrderDifference>,
    messages: &[Ordered],
    air: &[AirPage],
) -> Result<(), AllocError>
    ensures { OnOk result (found.new.items
        ≡ found.old.items ++ unordered_after (map ordered_kept messages.now) [] (map air_kept air.now)) }
{
    for place in 0..air.len() {
        push_unordered(found, messages, &air[..place], &air[place])?;
    }
    Ok(())
}

/// Appends a difference, if an order has no answer. The only error is out of memory.
fn push_if_unanswered(
    found: &mut Vec<OrderDifference>,
    answer: Option<CellAnswer>,
    at: u32,
    id: u16,
    serial: Serial,
) -> Result<(), AllocError>
    ensures { OnOk result (found.new.items ≡ found.old.items
        ++ unanswered_if answer (difference_at at id serial OrderKind.NoAnswer)) }
{
    if answer.is_none() {
        found.push(OrderDifference {
            slot: at as usize,
            id,
            serial,
            kind: OrderKind::NoAnswer,
        })?;
    }
    Ok(())
}

/// Appends the difference of a row, if it is an order without an answer. The only error is out of memory.
fn push_unanswered(found: &mut Vec<OrderDifference>, row: &OrderRow) -> Result<(), AllocError>
    ensures { OnOk result (found.new.items ≡ found.old.items ++ unanswered row.now) }
{
    let at = row_slot(row.at);
    match &row.order {
        CellOrder::Write {
            id,
            new_serial,
            answer,
            ..
        } => push_if_unanswered(found, *answer, at, *id, *new_serial),
        CellOrder::Kill {
            id,
            old_serial,
            answer,
        } => push_if_unanswered(found, *answer, at, *id, *old_serial),
        CellOrder::Clear => Ok(()),
    }
}

/// Appends a difference for each order without an answer.
///
/// # Errors
///
/// Out of memory.
pub fn push_all_unanswered(
    found: &mut Vec<OrderDifference>,
    rows: &[OrderRow],
) -> Result<(), AllocError>
    ensures { OnOk result (found.new.items ≡ found.old.items ++ flat_map unanswered rows.now) }
{
    for row in rows {
        push_unanswered(found, row)?;
    }
    Ok(())
}
