//! Fields of a book as they are shown.

ghost use Rattle.std.specs.Prelude.{◌≡◌, ◌++◌, ◌≤◌, IfOk, OnOk, length};
ghost use Rattle.std.specs.List.{flat_map};
ghost use Rattle.std.specs.Str.{is_utf8};
ghost use Rattle.book_check.specs.Words.{cut_field, cut_length, is_continuation, shown_octet, shown_value};

use std::alloc::{AllocError, Global};
use std::str;

/// How many characters of a field are shown at most.
const MOST: usize = 80;

/// Whether an octet isn't the first of a character in UTF-8.
fn is_continuation(octet: u8) -> bool
    ensures { result ≡ is_continuation octet }
{
    octet >= 128 && octet < 192
}

/// How many octets the first 80 characters of a field have, or all if there are fewer.
fn cut_length(field: &[u8]) -> usize
    ensures value { result ≡ cut_length 80 field.now }
    ensures bound { result ≤ length field.now }
{
    let mut left = MOST;
    for (place, octet) in field.iter().enumerate() {
        if is_continuation(*octet) {
            continue;
        }
        if left == 0 {
            return place;
        }
        left -= 1;
    }
    field.len()
}

/// The first 80 characters of a field, or all if there are fewer.
fn cut_field(field: &[u8]) -> &[u8]
    ensures { result.now ≡ cut_field field.now }
{
    &field[..cut_length(field)]
}

/// Appends an octet of what isn't UTF-8.
fn push_octet(value: &mut Vec<u8>, octet: u8) -> Result<(), AllocError>
    ensures { OnOk result (value.new.items ≡ value.old.items ++ shown_octet octet) }
{
    if octet >= 32 && octet < 127 {
        value.push(octet)?;
        return Ok(());
    }
    let mut digits = [0; 2];
    let _ = hex::encode_to_slice([octet].as_slice(), &mut digits);
    value.extend_from_slice(b"\\x")?;
    value.extend_from_slice(&digits)?;
    Ok(())
}

/// What isn't UTF-8, as it is shown.
fn shown_octets(alloc: Global, octets: &[u8]) -> Result<Vec<u8>, AllocError>
    ensures { IfOk result (λ value. value.items ≡ flat_map shown_octet octets.now) }
{
    let mut value = Vec::new(alloc);
    for octet in octets {
        push_octet(&mut value, *octet)?;
    }
    Ok(value)
}

/// Whether a field is UTF-8.
fn is_text(field: &[u8]) -> bool
    ensures { result ≡ is_utf8 field.now }
{
    match str::from_utf8(field) {
        Ok(_) => true,
        Err(_) => false,
    }
}

/// A field as it is shown.
pub(crate) fn shown_value(alloc: Global, field: &[u8]) -> Result<Vec<u8>, AllocError>
    ensures { IfOk result (λ value. value.items ≡ shown_value field.now) }
{
    let cut = cut_field(field);
    if is_text(field) {
        return Vec::from_slice(alloc, cut);
    }
    shown_octets(alloc, cut)
}
