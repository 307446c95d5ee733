//! The fields of a row that may be empty or have a form of their own.

ghost use Rattle.std.specs.Prelude.{◌≡◌};
ghost use Rattle.orders_file.specs.Fields.{answer_of, cause, coding, done, no_answer, old_serial, some_answer};

use crate::fault::OrdersFileFaultKind;
use crate::number::{number, octet_of, serial};
use cbs_page::{Dcs, Serial};
use cell_orders::CellAnswer;

/// The serial number in a field that may be empty.
pub(crate) fn old_serial(field: &[u8]) -> Result<Option<Serial>, OrdersFileFaultKind>
    ensures { result ≡ old_serial field.now }
{
    if field.is_empty() {
        return Ok(None);
    }
    let serial = serial(field)?;
    Ok(Some(serial))
}

/// The data coding in a field.
pub(crate) fn coding(field: &[u8]) -> Result<Dcs, OrdersFileFaultKind>
    ensures { result ≡ coding field.now }
{
    match octet_of(field) {
        Some(octet) => Ok(Dcs(octet)),
        None => Err(OrdersFileFaultKind::Digits),
    }
}

/// Why a cell refused; nothing if it took the order.
fn cause(field: &[u8]) -> Result<Option<u8>, OrdersFileFaultKind>
    ensures { result ≡ cause field.now }
{
    if field == b"ok".as_slice() {
        return Ok(None);
    }
    match octet_of(field) {
        Some(octet) => Ok(Some(octet)),
        None => Err(OrdersFileFaultKind::Answer),
    }
}

/// How many broadcasts an answer says, if it does.
fn done(field: &[u8]) -> Result<Option<u16>, OrdersFileFaultKind>
    ensures { result ≡ done field.now }
{
    if field.is_empty() {
        return Ok(None);
    }
    let count = number(field, 65_535)?;
    Ok(Some(count as u16))
}

/// The answer of ANSWER, which isn't empty, and DONE.
fn some_answer(answer: &[u8], number: &[u8]) -> Result<Option<CellAnswer>, OrdersFileFaultKind>
    ensures { result ≡ some_answer answer.now number.now }
{
    let cause = cause(answer)?;
    let done = done(number)?;
    Ok(Some(CellAnswer { cause, done }))
}

/// No answer, if DONE is empty.
fn no_answer(number: &[u8]) -> Result<Option<CellAnswer>, OrdersFileFaultKind>
    ensures { result ≡ no_answer number.now }
{
    if number.is_empty() {
        Ok(None)
    } else {
        Err(OrdersFileFaultKind::Answer)
    }
}

/// The answer of ANSWER and DONE, if there is one.
pub(crate) fn answer_of(
    answer: &[u8],
    number: &[u8],
) -> Result<Option<CellAnswer>, OrdersFileFaultKind>
    ensures { result ≡ answer_of answer.now number.now }
{
    if answer.is_empty() {
        no_answer(number)
    } else {
        some_answer(answer, number)
    }
}
