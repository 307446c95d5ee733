//! The pages of an order to broadcast.

ghost use Rattle.std.specs.Prelude.{◌≡◌, ◌≢◌, ◌≤◌, ◌+◌, Ok, Err, All, drop, length, position, IfErr, IfOk};
ghost use Rattle.std.specs.List.{after_first, before_first, position_or_len};
ghost use Rattle.csv.specs.Records.{fields_of};
ghost use Rattle.orders_file.specs.Number.{octets_of};
ghost use Rattle.orders_file.specs.Page.{ArePages, IsPage, is_hyphen, page, pages_of};

use crate::columns::column;
use crate::fault::OrdersFileFaultKind;
use crate::number::number_up_to;
use cbs_page::Content;
use csv::ByteRecord;
use hex::FromHex;
use std::alloc::Global;

/// Where the first hyphen of a field is.
fn hyphen_in(field: &[u8]) -> Option<usize>
    ensures { result ≡ position is_hyphen field.now }
{
    field.iter().position(|octet| *octet == b'-')
}

/// How many octets stand before the first hyphen, or all.
fn hyphen_or_end(field: &[u8]) -> usize
    ensures value { result ≡ position_or_len is_hyphen field.now }
    ensures bound { result ≤ length field.now }
{
    match hyphen_in(field) {
        Some(place) => place,
        None => field.len(),
    }
}

/// What stands before the first hyphen.
fn before_hyphen(field: &[u8]) -> &[u8]
    ensures { result.now ≡ before_first is_hyphen field.now }
{
    &field[..hyphen_or_end(field)]
}

/// What stands behind the first hyphen.
fn after_hyphen(field: &[u8]) -> &[u8]
    ensures { result.now ≡ after_first is_hyphen field.now }
{
    let place = hyphen_or_end(field);
    if place < field.len() {
        &field[place + 1..]
    } else {
        &[]
    }
}

/// The octets of a page that 164 hexadecimal digits say.
fn octets_of(field: &[u8]) -> Option<[u8; 82]>
    ensures { result ≡ octets_of 82 field.now }
{
    match <[u8; 82] as FromHex>::from_hex(field) {
        Ok(octets) => Some(octets),
        Err(_) => None,
    }
}

/// The page in a field.
fn page(field: &[u8]) -> Result<Content, OrdersFileFaultKind>
    ensures value { result ≡ page field.now }
    ensures range { IfOk result IsPage }
{
    let Some(used) = number_up_to(before_hyphen(field), 82) else {
        return Err(OrdersFileFaultKind::Page);
    };
    let Some(octets) = octets_of(after_hyphen(field)) else {
        return Err(OrdersFileFaultKind::Page);
    };
    Ok(Content {
        used: used as u8,
        octets,
    })
}

/// The pages of an order, from column 11 on.
pub(crate) fn pages_of(
    alloc: Global,
    fields: &ByteRecord,
) -> Result<Vec<Content>, OrdersFileFaultKind>
    requires some { 12 ≤ length (fields_of fields.now) }
    requires few { length (fields_of fields.now) ≤ 26 }
    ensures ok { IfOk result (λ contents. pages_of (drop 11 (fields_of fields.now)) ≡ Ok contents.items) }
    ensures ranges { IfOk result (λ contents. ArePages contents.items) }
    ensures err { IfErr result (λ kind. kind ≢ OrdersFileFaultKind.Refused →
        pages_of (drop 11 (fields_of fields.now)) ≡ Err kind) }
{
    let mut contents = Vec::new(alloc);
    for place in 11..fields.len() {
        let content = page(column(fields, place))?;
        contents.push(content)?;
    }
    Ok(contents)
}
