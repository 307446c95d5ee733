//! The first fields of rows, and which rows count.

ghost use Rattle.std.specs.Prelude.{◌≡◌, drop, map, IfOk};
ghost use Rattle.std.specs.Char.{to_ascii_lowercase};
ghost use Rattle.std.specs.List.{list_all};
ghost use Rattle.csv.specs.Records.{fields_of};
ghost use Rattle.alert_book.specs.Row.{verb_of};
ghost use Rattle.plan.specs.PlanRow.{begins_with_digit, is_area_word, is_comment, is_empty_field, is_heading};
ghost use Rattle.plan.specs.PlanRow.{is_left_out, word_of};

use crate::octets::{Octets, trimmed};
use alert_book::{Verb, octets_at};
use csv::ByteRecord;
use std::alloc::{AllocError, Global};

/// A text in small letters.
pub(crate) fn lowered(alloc: Global, text: &[u8]) -> Result<Octets, AllocError>
    ensures { IfOk result (λ lowered. lowered ≡ map to_ascii_lowercase text.now) }
{
    let list = text.to_ascii_lowercase(alloc)?;
    Ok(Octets { list })
}

/// The first field of a row, in small letters.
pub(crate) fn word_of(alloc: Global, fields: &ByteRecord) -> Result<Octets, AllocError>
    ensures { IfOk result (λ word. word ≡ word_of (fields_of fields.now)) }
{
    lowered(alloc, trimmed(octets_at(fields, 0)))
}

/// The verb that a word is.
#[tactic(auto, unfolding(alert_book::specs::Row::verb_of))]
pub(crate) fn verb_of(word: &[u8]) -> Option<Verb>
    ensures { result ≡ verb_of word.now }
{
    if word == b"cell".as_slice() {
        Some(Verb::Cell)
    } else if word == b"write".as_slice() {
        Some(Verb::Write)
    } else if word == b"update".as_slice() {
        Some(Verb::Update)
    } else if word == b"stop".as_slice() {
        Some(Verb::Stop)
    } else {
        None
    }
}

/// Whether a word begins the row of an area.
pub(crate) fn is_area(word: &[u8]) -> bool
    ensures { result ≡ is_area_word word.now }
{
    word == b"area".as_slice()
}

/// Whether a field has white space alone.
fn is_empty_field(field: &[u8]) -> bool
    ensures { result ≡ is_empty_field field.now }
{
    trimmed(field).is_empty()
}

/// Whether all fields from a place on have white space alone.
pub(crate) fn are_empty_from(fields: &ByteRecord, start: usize) -> bool
    ensures { result ≡ list_all is_empty_field (drop start (fields_of fields.now)) }
{
    for place in start..fields.len() {
        if !is_empty_field(octets_at(fields, place)) {
            return false;
        }
    }
    true
}

/// Whether a field begins with a digit.
fn begins_with_digit(field: &[u8]) -> bool
    ensures { result ≡ begins_with_digit field.now }
{
    match field {
        [octet, ..] => octet.is_ascii_digit(),
        [] => false,
    }
}

/// Whether a field may be a heading: it doesn't begin with a digit.
fn is_heading(field: &[u8]) -> bool
    ensures { result ≡ is_heading field.now }
{
    !begins_with_digit(trimmed(field))
}

/// Whether all fields of a row may be headings.
pub(crate) fn are_all_headings(fields: &ByteRecord) -> bool
    ensures { result ≡ list_all is_heading (fields_of fields.now) }
{
    for place in 0..fields.len() {
        if !is_heading(octets_at(fields, place)) {
            return false;
        }
    }
    true
}

/// Whether a field begins a comment.
fn is_comment(field: &[u8]) -> bool
    ensures { result ≡ is_comment field.now }
{
    match field {
        [octet, ..] => *octet == b'#',
        [] => false,
    }
}

/// Whether a row is empty, or a comment.
pub(crate) fn is_left_out(fields: &ByteRecord) -> bool
    ensures { result ≡ is_left_out (fields_of fields.now) }
{
    are_empty_from(fields, 0) || is_comment(trimmed(octets_at(fields, 0)))
}
