//! A row of an orders file.

ghost use Rattle.std.specs.Prelude.{◌≡◌, ◌≢◌, ◌≤◌, ◌==◌, Ok, Err, true, length, IfErr, IfOk};
ghost use Rattle.csv.specs.Records.{fields_of};
ghost use Rattle.orders_file.specs.Columns.{column};
ghost use Rattle.orders_file.specs.Ranges.{IsWithin};
ghost use Rattle.orders_file.specs.Row.{answer_at, clear_row, has_columns, head_of, kill_row, order_of_fields};
ghost use Rattle.orders_file.specs.Row.{row_of_verb, terms_of, verb_of, write_row};

use crate::columns::column;
use crate::fault::OrdersFileFaultKind;
use crate::fields::{answer_of, coding, old_serial};
use crate::number::{number, serial};
use crate::page::pages_of;
use cbs_page::{Dcs, Serial};
use cbsp_wire::Contents;
use cell_orders::{CellAnswer, CellOrder, OrderRow};
use csv::ByteRecord;
use std::alloc::Global;

/// The last slot of a row.
const LAST_SLOT: u64 = 2_147_483_647;

/// What a row is of.
#[derive(Clone, Copy, Debug, PartialEq, Eq)]
pub(crate) enum Verb {
    /// An order to broadcast.
    Write,
    /// An order to stop.
    Kill,
    /// The cell lost its messages.
    Clear,
}

/// AT, ID and SERIAL.
#[derive(Clone, Copy, Debug)]
pub(crate) struct Head {
    at: u64,
    id: u16,
    serial: Serial,
}

/// OLD, CATEGORY, PERIOD, BROADCASTS and CODING.
#[derive(Clone, Copy, Debug)]
pub(crate) struct Terms {
    old_serial: Option<Serial>,
    category: u8,
    period: u16,
    broadcasts: u16,
    dcs: Dcs,
}

/// The verb that a word is.
#[tactic(auto, unfolding(crate::specs::Row::verb_of))]
fn verb_of(word: &[u8]) -> Option<Verb>
    ensures { result ≡ verb_of word.now }
{
    if word == b"write".as_slice() {
        Some(Verb::Write)
    } else if word == b"kill".as_slice() {
        Some(Verb::Kill)
    } else if word == b"clear".as_slice() {
        Some(Verb::Clear)
    } else {
        None
    }
}

/// Whether a row of a verb has this many columns.
fn has_columns(verb: Verb, count: usize) -> bool
    ensures { result ≡ has_columns verb count }
{
    match verb {
        Verb::Write => 12 <= count && count <= 26,
        Verb::Kill => count == 6,
        Verb::Clear => count == 2,
    }
}

/// AT, ID and SERIAL of a row.
fn head_of(fields: &ByteRecord) -> Result<Head, OrdersFileFaultKind>
    ensures value { result ≡ head_of (fields_of fields.now) }
    ensures range { IfOk result (λ head. head.at ≤ 2147483647) }
{
    let at = number(column(fields, 1), LAST_SLOT)?;
    let id = number(column(fields, 2), 65_535)? as u16;
    let serial = serial(column(fields, 3))?;
    Ok(Head { at, id, serial })
}

/// OLD, CATEGORY, PERIOD, BROADCASTS and CODING of a row.
fn terms_of(fields: &ByteRecord) -> Result<Terms, OrdersFileFaultKind>
    ensures value { result ≡ terms_of (fields_of fields.now) }
    ensures range { IfOk result (λ terms. terms.period ≤ 4095) }
{
    let old_serial = old_serial(column(fields, 4))?;
    let category = number(column(fields, 5), 255)? as u8;
    let period = number(column(fields, 6), 4095)? as u16;
    let broadcasts = number(column(fields, 7), 65_535)? as u16;
    let dcs = coding(column(fields, 8))?;
    Ok(Terms {
        old_serial,
        category,
        period,
        broadcasts,
        dcs,
    })
}

/// ANSWER and DONE, from this place on.
fn answer_at(fields: &ByteRecord, place: usize) -> Result<Option<CellAnswer>, OrdersFileFaultKind>
    requires { place ≤ 100 }
    ensures { result ≡ answer_at (fields_of fields.now) place }
{
    answer_of(column(fields, place), column(fields, place + 1))
}

/// A row of an order to broadcast.
fn write_row(alloc: Global, fields: &ByteRecord) -> Result<OrderRow, OrdersFileFaultKind>
    requires some { 12 ≤ length (fields_of fields.now) }
    requires few { length (fields_of fields.now) ≤ 26 }
    ensures ok { IfOk result (λ row. write_row (fields_of fields.now) ≡ Ok row) }
    ensures ranges { IfOk result IsWithin }
    ensures err { IfErr result (λ kind. kind ≢ OrdersFileFaultKind.Refused →
        write_row (fields_of fields.now) ≡ Err kind) }
{
    let head = head_of(fields)?;
    let terms = terms_of(fields)?;
    let answer = answer_at(fields, 9)?;
    let list = pages_of(alloc, fields)?;
    let contents = Contents::new(list)?;
    Ok(OrderRow {
        at: head.at,
        time: 0,
        packet: 0,
        order: CellOrder::Write {
            id: head.id,
            new_serial: head.serial,
            old_serial: terms.old_serial,
            category: terms.category,
            period: terms.period,
            broadcasts: terms.broadcasts,
            dcs: terms.dcs,
            contents,
            answer,
        },
    })
}

/// A row of an order to stop.
fn kill_row(fields: &ByteRecord) -> Result<OrderRow, OrdersFileFaultKind>
    ensures value { result ≡ kill_row (fields_of fields.now) }
    ensures ranges { IfOk result IsWithin }
{
    let head = head_of(fields)?;
    let answer = answer_at(fields, 4)?;
    Ok(OrderRow {
        at: head.at,
        time: 0,
        packet: 0,
        order: CellOrder::Kill {
            id: head.id,
            old_serial: head.serial,
            answer,
        },
    })
}

/// A row that says that the cell lost its messages.
fn clear_row(fields: &ByteRecord) -> Result<OrderRow, OrdersFileFaultKind>
    ensures value { result ≡ clear_row (fields_of fields.now) }
    ensures ranges { IfOk result IsWithin }
{
    let at = number(column(fields, 1), LAST_SLOT)?;
    Ok(OrderRow {
        at,
        time: 0,
        packet: 0,
        order: CellOrder::Clear,
    })
}

/// A row of a verb.
fn row_of_verb(
    alloc: Global,
    verb: Verb,
    fields: &ByteRecord,
) -> Result<OrderRow, OrdersFileFaultKind>
    requires { has_columns verb (length (fields_of fields.now)) ≡ true }
    ensures ok { IfOk result (λ row. row_of_verb verb (fields_of fields.now) ≡ Ok row) }
    ensures ranges { IfOk result IsWithin }
    ensures err { IfErr result (λ kind. kind ≢ OrdersFileFaultKind.Refused →
        row_of_verb verb (fields_of fields.now) ≡ Err kind) }
{
    match verb {
        Verb::Write => write_row(alloc, fields),
        Verb::Kill => kill_row(fields),
        Verb::Clear => clear_row(fields),
    }
}

/// The row that fields say.
pub(crate) fn row_of(alloc: Global, fields: &ByteRecord) -> Result<OrderRow, OrdersFileFaultKind>
    ensures ok { IfOk result (λ row. order_of_fields (fields_of fields.now) ≡ Ok row) }
    ensures ranges { IfOk result IsWithin }
    ensures err { IfErr result (λ kind. kind ≢ OrdersFileFaultKind.Refused →
        order_of_fields (fields_of fields.now) ≡ Err kind) }
{
    let Some(verb) = verb_of(column(fields, 0)) else {
        return Err(OrdersFileFaultKind::Verb);
    };
    if !has_columns(verb, fields.len()) {
        return Err(OrdersFileFaultKind::Columns);
    }
    row_of_verb(alloc, verb, fields)
}
