//! The messages that a cell was ordered to broadcast and took.

ghost use Rattle.std.specs.Prelude.{◌≡◌, ◌≤◌, ◌+◌, find, map, option_and_then, option_map, IfOk, IfSome};
ghost use Rattle.std.specs.List.{list_any};
ghost use Rattle.std.specs.Option.{option_copied, option_to_list};
ghost use Rattle.order_verdict.specs.Kept.{ordered_kept};
ghost use Rattle.order_verdict.specs.Ordered.{begins, begins_row, broadcasts_due, done_in, ends, ends_row};
ghost use Rattle.order_verdict.specs.Ordered.{is_answered_ok};
ghost use Rattle.order_verdict.specs.Ordered.{is_old, ordered_in, ordered_of_row, row_slot, since_slot, slot_of_row};
ghost use Rattle.order_verdict.specs.Ordered.{tape_stop, told_by};

use cbs_page::Serial;
use cell_orders::{CellAnswer, CellOrder, OrderRow};
use std::alloc::{AllocError, Global};
use verification::Asked;

/// No tape has a slot so late.
const LATEST_SLOT: u32 = 0x7FFF_FFFF;

/// A message that a cell took.
#[derive(Clone, Copy)]
pub struct Ordered<'a> {
    /// The number of its row, from 1.
    pub row: usize,
    /// What it was asked, from the slot of its answer on.
    pub early: Asked<'a>,
    /// What it was asked, with all slots later by a delay.
    pub late: Asked<'a>,
    /// The slot from which pages of its name are its own.
    pub since: u32,
    /// The slot from which they are those of a later message of its name, if there is one.
    pub until: Option<u32>,
    /// The slot of the answer that ended it, if it ended.
    pub ended: Option<u32>,
    /// The number of broadcasts that this answer says, if it says one.
    pub told: Option<u16>,
}

/// Whether a cell took an order.
fn is_answered_ok(answer: Option<CellAnswer>) -> bool
    ensures { result ≡ is_answered_ok answer }
{
    match answer {
        Some(answer) => answer.cause.is_none(),
        None => false,
    }
}

/// Whether a row begins the message of an identifier and a serial number.
fn begins(id: u16, serial: Serial, order: &CellOrder) -> bool
    ensures { result ≡ begins id serial order.now }
{
    match order {
        CellOrder::Write {
            id: of_id,
            new_serial,
            answer,
            ..
        } => is_answered_ok(*answer) && id == *of_id && serial.number() == new_serial.number(),
        CellOrder::Kill { .. } => false,
        CellOrder::Clear => false,
    }
}

/// Whether an order replaces the message of a serial number.
fn is_old(serial: Serial, old_serial: Option<Serial>) -> bool
    ensures { result ≡ is_old serial old_serial }
{
    match old_serial {
        Some(old_serial) => serial.number() == old_serial.number(),
        None => false,
    }
}

/// Whether a row ends it.
fn ends(id: u16, serial: Serial, order: &CellOrder) -> bool
    ensures { result ≡ ends id serial order.now }
{
    match order {
        CellOrder::Write {
            id: of_id,
            old_serial,
            answer,
            ..
        } => is_answered_ok(*answer) && id == *of_id && is_old(serial, *old_serial),
        CellOrder::Kill {
            id: of_id,
            old_serial,
            answer,
        } => is_answered_ok(*answer) && id == *of_id && serial.number() == old_serial.number(),
        CellOrder::Clear => true,
    }
}

/// The first of some rows that begins a message.
fn first_begin<'r>(id: u16, serial: Serial, rows: &'r [OrderRow]) -> Option<&'r OrderRow>
    ensures { option_copied result ≡ find (begins_row id serial) rows.now }
{
    for row in rows {
        if begins(id, serial, &row.order) {
            return Some(row);
        }
    }
    None
}

/// The first of some rows that ends a message.
fn first_end<'r>(id: u16, serial: Serial, rows: &'r [OrderRow]) -> Option<&'r OrderRow>
    ensures { option_copied result ≡ find (ends_row id serial) rows.now }
{
    for row in rows {
        if ends(id, serial, &row.order) {
            return Some(row);
        }
    }
    None
}

/// The number of broadcasts that the answer to a row says.
fn told_by(order: &CellOrder) -> Option<u16>
    ensures { result ≡ told_by order.now }
{
    match order {
        CellOrder::Write { answer, .. } => done_in(*answer),
        CellOrder::Kill { answer, .. } => done_in(*answer),
        CellOrder::Clear => None,
    }
}

/// The number of broadcasts that an answer says.
fn done_in(answer: Option<CellAnswer>) -> Option<u16>
    ensures { result ≡ done_in answer }
{
    match answer {
        Some(answer) => answer.done,
        None => None,
    }
}

/// The slot of a row.
pub fn row_slot(at: u64) -> u32
    ensures slot { result ≡ row_slot at }
    ensures few { result ≤ 2147483647 }
{
    if at <= u64::from(LATEST_SLOT) {
        at as u32
    } else {
        LATEST_SLOT
    }
}

/// The slot of a stop, if a tape can have it.
fn tape_stop(slot: u32) -> Option<u16>
    ensures { result ≡ tape_stop slot }
{
    if slot <= 0xFFFF {
        Some(slot as u16)
    } else {
        None
    }
}

/// The slot of a row, if there is one.
fn slot_of_row(row: Option<&OrderRow>) -> Option<u32>
    ensures slot { result ≡ option_map slot_of_row (option_copied row.entry) }
    ensures few { IfSome result (λ slot. slot ≤ 2147483647) }
{
    match row {
        Some(row) => Some(row_slot(row.at)),
        None => None,
    }
}

/// The slot of a stop, with a delay, if a tape can have it.
fn delayed_stop(ended: Option<u32>, delay: u16) -> Option<u16>
    requires { IfSome ended (λ slot. slot ≤ 2147483647) }
    ensures { result ≡ option_and_then (λ slot. tape_stop (slot + delay)) ended }
{
    match ended {
        Some(slot) => tape_stop(slot + u32::from(delay)),
        None => None,
    }
}

/// The number of broadcasts that the answer to a row says, if there is a row and it says one.
fn told_by_row(row: Option<&OrderRow>) -> Option<u16>
    ensures { result ≡ option_and_then (λ row. told_by row.order) (option_copied row.entry) }
{
    match row {
        Some(row) => told_by(&row.order),
        None => None,
    }
}

/// Whether a row of some begins a message.
fn has_begun(id: u16, serial: Serial, before: &[OrderRow]) -> bool
    ensures { result ≡ list_any (begins_row id serial) before.now }
{
    for row in before {
        if begins(id, serial, &row.order) {
            return true;
        }
    }
    false
}

/// The slot from which pages of a name are those of a message that begins at a slot.
fn since_slot(id: u16, serial: Serial, before: &[OrderRow], at: u32) -> u32
    ensures { result ≡ since_slot id serial before.now at }
{
    if has_begun(id, serial, before) { at } else { 0 }
}

/// How many broadcasts are due: with a period of 0 nothing says when.
fn broadcasts_due(period: u16, broadcasts: u16) -> u16
    ensures { result ≡ broadcasts_due period broadcasts }
{
    if period == 0 { 0 } else { broadcasts }
}

impl<'a> Ordered<'a> {
    /// The message of a row, by the rows before it and after it.
    fn of(
        delay: u16,
        before: &[OrderRow],
        row: &'a OrderRow,
        later: &[OrderRow],
    ) -> Option<Ordered<'a>>
        ensures { map ordered_kept (option_to_list result) ≡ ordered_of_row delay before.now row.now later.now }
    {
        let at = row_slot(row.at);
        match &row.order {
            CellOrder::Write {
                id,
                new_serial,
                category,
                period,
                broadcasts,
                dcs,
                contents,
                answer,
                ..
            } => {
                if !is_answered_ok(*answer) {
                    return None;
                }
                let early = Asked {
                    id: *id,
                    serial: new_serial.number(),
                    dcs: *dcs,
                    contents,
                    start: at,
                    period: *period,
                    broadcasts: broadcasts_due(*period, *broadcasts),
                    stop: None,
                    background: *category == 1 || *period == 0,
                };
                let end = first_end(*id, *new_serial, later);
                let ended = slot_of_row(end);
                Some(Ordered {
                    row: before.len() + 1,
                    early,
                    late: Asked {
                        start: at + u32::from(delay),
                        stop: delayed_stop(ended, delay),
                        ..early
                    },
                    since: since_slot(*id, *new_serial, before, at),
                    until: slot_of_row(first_begin(*id, *new_serial, later)),
                    ended,
                    told: told_by_row(end),
                })
            }
            CellOrder::Kill { .. } => None,
            CellOrder::Clear => None,
        }
    }
}

/// The messages that a cell took, in the order of its rows, with a delay in slots.
///
/// # Errors
///
/// Out of memory.
pub fn ordered_messages<'a>(
    alloc: Global,
    delay: u16,
    rows: &'a [OrderRow],
) -> Result<Vec<Ordered<'a>>, AllocError>
    ensures { IfOk result (λ ordered. map ordered_kept ordered.items ≡ ordered_in delay rows.now) }
{
    let mut messages = Vec::new(alloc);
    for place in 0..rows.len() {
        if let Some(ordered) = Ordered::of(
            delay,
            &rows[..place],
            &rows[place],
            &rows[place + 1..],
        ) {
            messages.push(ordered)?;
        }
    }
    Ok(messages)
}
