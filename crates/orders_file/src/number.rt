//! Numbers of an orders file: decimal, and of hexadecimal digits.

ghost use Rattle.std.specs.Prelude.{◌≡◌, ◌≤◌, length, option_map, true, IfOk, IfSome};
ghost use Rattle.std.specs.Char.{is_ascii_digit};
ghost use Rattle.std.specs.List.{list_all};
ghost use Rattle.std.specs.Str.Parse.{digits_value};
ghost use Rattle.orders_file.specs.Number.{is_number, number, number_up_to, octet_of, pair_of, serial, up_to};

use crate::fault::OrdersFileFaultKind;
use cbs_page::Serial;
use hex::FromHex;

/// Whether a field has ASCII digits alone.
fn are_digits(field: &[u8]) -> bool
    ensures { result ≡ list_all is_ascii_digit field.now }
{
    field.iter().all(|digit| digit.is_ascii_digit())
}

/// Whether a field is one to ten ASCII digits.
fn is_number(field: &[u8]) -> bool
    ensures { result ≡ is_number field.now }
{
    1 <= field.len() && field.len() <= 10 && are_digits(field)
}

/// The number that up to ten digits say.
fn value_of(digits: &[u8]) -> u64
    requires few { length digits.now ≤ 10 }
    requires digits { list_all is_ascii_digit digits.now ≡ true }
    ensures { result ≡ digits_value 10 digits.now }
{
    let mut value = 0;
    for digit in digits {
        value = value * 10 + u64::from(*digit - b'0');
    }
    value
}

/// The value, if it is no larger than this.
fn up_to(value: u64, most: u64) -> Option<u64>
    ensures value { result ≡ up_to most value }
    ensures range { IfSome result (λ value. value ≤ most) }
{
    if value <= most { Some(value) } else { None }
}

/// The number that a field says, if it says one, and that is no larger than this.
pub(crate) fn number_up_to(field: &[u8], most: u64) -> Option<u64>
    ensures value { result ≡ number_up_to most field.now }
    ensures range { IfSome result (λ value. value ≤ most) }
{
    if !is_number(field) {
        return None;
    }
    up_to(value_of(field), most)
}

/// The number in a field, if it is no larger than this.
pub(crate) fn number(field: &[u8], most: u64) -> Result<u64, OrdersFileFaultKind>
    ensures value { result ≡ number most field.now }
    ensures range { IfOk result (λ value. value ≤ most) }
{
    match number_up_to(field, most) {
        Some(value) => Ok(value),
        None => Err(OrdersFileFaultKind::Number),
    }
}

/// The octet that two hexadecimal digits say.
pub(crate) fn octet_of(field: &[u8]) -> Option<u8>
    ensures { result ≡ octet_of field.now }
{
    match <[u8; 1] as FromHex>::from_hex(field) {
        Ok(octets) => Some(octets[0]),
        Err(_) => None,
    }
}

/// The number that four hexadecimal digits say.
fn pair_of(field: &[u8]) -> Option<u16>
    ensures { result ≡ pair_of field.now }
{
    match <[u8; 2] as FromHex>::from_hex(field) {
        Ok(octets) => Some(u16::from(octets[0]) * 256 + u16::from(octets[1])),
        Err(_) => None,
    }
}

/// The serial number in a field.
pub(crate) fn serial(field: &[u8]) -> Result<Serial, OrdersFileFaultKind>
    ensures { result ≡ serial field.now }
{
    match pair_of(field) {
        Some(number) => Ok(Serial::of(number)),
        None => Err(OrdersFileFaultKind::Digits),
    }
}
