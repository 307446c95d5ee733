//! The fields of a row, judged from left to right.

ghost use Rattle.std.specs.Prelude.{◌≡◌, ◌≢◌, ◌+◌, ◌≤◌, Ok, Err, true, false, All, IfErr, IfOk, IfSome};
ghost use Rattle.std.specs.Option.{option_copied};
ghost use Rattle.csv.specs.Records.{fields_of};
ghost use Rattle.alert_book.specs.Fields.{alert_at, are_texts, category, column, first_order, is_named, known_name};
ghost use Rattle.alert_book.specs.Fields.{new_name, number, sending_by};
ghost use Rattle.alert_book.specs.NameSteps.{AreNames};
ghost use Rattle.alert_book.specs.SendableSteps.{HasSerials, IsSendable};

use crate::book::declared::Declared;
use crate::book::names::Names;
use crate::book::number::number_within;
use crate::book::order::{Alert, Order, Sending, Text};
use crate::fault::RowFault;
use csv::{ByteRecord, StringRecord};
use std::alloc::{AllocError, Global};

/// The record as text, if each field is UTF-8.
pub(crate) fn texts_of(fields: ByteRecord) -> Result<StringRecord, RowFault>
    ensures same { IfOk result (λ texts. fields_of texts ≡ fields_of fields) }
    ensures ok { IfOk result (λ texts. are_texts (fields_of fields) ≡ true) }
    ensures err { IfErr result (λ fault. (fault ≡ RowFault.Columns) × (are_texts (fields_of fields) ≡ false)) }
{
    match StringRecord::from_byte_record(fields) {
        Ok(texts) => Ok(texts),
        Err(_) => Err(RowFault::Columns),
    }
}

/// The field at a place, counted from 0; no text if there is none.
pub(crate) fn column(fields: &StringRecord, place: usize) -> &str
    ensures { result.now ≡ column (fields_of fields.now) place }
{
    match fields.get(place) {
        Some(field) => field,
        None => "",
    }
}

/// A copy of a field.
pub(crate) fn copy_of(alloc: Global, field: &str) -> Result<Text, AllocError>
    ensures { IfOk result (λ copy. copy ≡ field.now) }
{
    let text = String::from_str(alloc, field)?;
    Ok(Text { text })
}

/// The number in a field, if it is in this range.
pub(crate) fn number(field: &str, least: u16, most: u16) -> Result<u16, RowFault>
    ensures value { result ≡ number least most field.now }
    ensures range { IfOk result (λ value. (least ≤ value) × (value ≤ most)) }
{
    match number_within(field, least, most) {
        Some(value) => Ok(value),
        None => Err(RowFault::Number),
    }
}

/// The category in a field.
fn category(field: &str) -> Result<u8, RowFault>
    ensures value { result ≡ category field.now }
{
    let value = number(field, 0, 2)?;
    Ok(value as u8)
}

/// The first order of a name.
pub(crate) fn first_order<'a>(orders: &'a [Order], names: &Names, name: &str) -> Option<&'a Order>
    requires { AreNames names.now orders.now }
    ensures first { option_copied result ≡ first_order orders.now name.now }
    ensures sendable { IfSome result (λ order. All IsSendable orders.now → IsSendable order.now) }
{
    match names.known(name) {
        Some(known) => orders.get(usize::from(known.first)),
        None => None,
    }
}

/// Whether a row may write this name.
pub(crate) fn check_new_name(orders: &[Order], names: &Names, name: &str) -> Result<(), RowFault>
    requires { AreNames names.now orders.now }
    ensures ok { IfOk result (λ _. new_name orders.now name.now ≡ Ok name.now) }
    ensures err { IfErr result (λ fault. new_name orders.now name.now ≡ Err fault) }
{
    if name.is_empty() {
        return Err(RowFault::UnknownName);
    }
    if first_order(orders, names, name).is_some() {
        return Err(RowFault::TwiceNamed);
    }
    Ok(())
}

/// The first order of a name that a row may update or stop.
pub(crate) fn known_name<'a>(
    orders: &'a [Order],
    names: &Names,
    name: &str,
) -> Result<&'a Order, RowFault>
    requires { AreNames names.now orders.now }
    ensures ok { IfOk result (λ order. known_name orders.now name.now ≡ Ok order.now) }
    ensures sendable { IfOk result (λ order. All IsSendable orders.now → IsSendable order.now) }
    ensures err { IfErr result (λ fault. known_name orders.now name.now ≡ Err fault) }
{
    match first_order(orders, names, name) {
        Some(order) => Ok(order),
        None => Err(RowFault::UnknownName),
    }
}

/// ID, SCOPE and CODE, from this place on.
pub(crate) fn alert_at(fields: &StringRecord, place: usize) -> Result<Alert, RowFault>
    requires { place ≤ 100 }
    ensures value { result ≡ alert_at (fields_of fields.now) place }
    ensures serials { IfOk result HasSerials }
{
    let id = number(column(fields, place), 0, u16::MAX)?;
    let scope = number(column(fields, place + 1), 0, 3)? as u8;
    let code = number(column(fields, place + 2), 0, 1023)?;
    Ok(Alert { id, scope, code })
}

/// LANG, CATEGORY, PERIOD, BROADCASTS, CELLS and TEXT, from this place on, where these cells are declared.
pub(crate) fn sending_at<D: Declared>(
    alloc: Global,
    declared: &D,
    fields: &StringRecord,
    place: usize,
) -> Result<Sending, RowFault>
    requires { place ≤ 100 }
    ensures ok { IfOk result (λ sending.
        sending_by (D.field_cells declared.now) (fields_of fields.now) place ≡ Ok sending) }
    ensures err { IfErr result (λ fault. fault ≢ RowFault.Refused →
        sending_by (D.field_cells declared.now) (fields_of fields.now) place ≡ Err fault) }
{
    let category = category(column(fields, place + 1))?;
    let period = number(column(fields, place + 2), 1, 1024)?;
    let broadcasts = number(column(fields, place + 3), 0, u16::MAX)?;
    let cells = declared.cells_of_field(alloc, column(fields, place + 4))?;
    Ok(Sending {
        language: copy_of(alloc, column(fields, place))?,
        category,
        period,
        broadcasts,
        cells,
        text: copy_of(alloc, column(fields, place + 5))?,
    })
}
