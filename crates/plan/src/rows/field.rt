//! What stands in the book for a field.

ghost use Rattle.std.specs.Prelude.{◌≡◌, IfOk};
ghost use Rattle.plan.specs.PlanRow.{category_text, field_text, is_text, kind_at, planned_field, scope_text};

use crate::cells::area::Area;
use crate::cells::field::cells_text;
use crate::octets::{Octets, copy_of, trimmed};
use crate::rows::word::lowered;
use crate::time::time_text;
use alert_book::{Column, Verb, columns_after};
use std::alloc::{AllocError, Global};

/// The number of a scope that a word says, or else the word.
fn scope_text(word: &[u8]) -> &[u8]
    ensures { result.now ≡ scope_text word.now }
{
    if word == b"immediate".as_slice() {
        b"0"
    } else if word == b"plmn".as_slice() {
        b"1"
    } else if word == b"area".as_slice() {
        b"2"
    } else if word == b"cell".as_slice() {
        b"3"
    } else {
        word
    }
}

/// The number of a category that a word says, or else the word.
fn category_text(word: &[u8]) -> &[u8]
    ensures { result.now ≡ category_text word.now }
{
    if word == b"high".as_slice() {
        b"0"
    } else if word == b"background".as_slice() {
        b"1"
    } else if word == b"normal".as_slice() {
        b"2"
    } else {
        word
    }
}

/// What stands in the book for a field of this column, without white space round it.
fn field_text(
    alloc: Global,
    areas: &[Area],
    kind: Option<Column>,
    field: &[u8],
) -> Result<Octets, AllocError>
    ensures { IfOk result (λ text. text ≡ field_text areas.now kind field.now) }
{
    match kind {
        Some(Column::At) => time_text(alloc, 0, field),
        Some(Column::Period) => time_text(alloc, 1, field),
        Some(Column::Scope) => {
            let word = lowered(alloc, field)?;
            copy_of(alloc, scope_text(&word.list))
        }
        Some(Column::Category) => {
            let word = lowered(alloc, field)?;
            copy_of(alloc, category_text(&word.list))
        }
        Some(Column::Language) => lowered(alloc, field),
        Some(Column::Cells) => cells_text(alloc, areas, field),
        Some(Column::Lac)
        | Some(Column::Ci)
        | Some(Column::Name)
        | Some(Column::Id)
        | Some(Column::Code)
        | Some(Column::Broadcasts)
        | Some(Column::Text)
        | None => copy_of(alloc, field),
    }
}

/// Whether a column is TEXT, which keeps the white space round it.
fn is_text(kind: Option<Column>) -> bool
    ensures { result ≡ is_text kind }
{
    match kind {
        Some(Column::Text) => true,
        Some(_) | None => false,
    }
}

/// What stands in the book for a field of this column.
pub(crate) fn planned_field(
    alloc: Global,
    areas: &[Area],
    kind: Option<Column>,
    field: &[u8],
) -> Result<Octets, AllocError>
    ensures { IfOk result (λ text. text ≡ planned_field areas.now kind field.now) }
{
    if is_text(kind) {
        copy_of(alloc, field)
    } else {
        field_text(alloc, areas, kind, trimmed(field))
    }
}

/// The column of a place of a verb's row, counted from 0.
pub(crate) fn kind_at(verb: Option<Verb>, place: usize) -> Option<Column>
    ensures { result ≡ kind_at verb place }
{
    match columns_after(verb?).get(place.saturating_sub(1)) {
        Some(column) => Some(*column),
        None => None,
    }
}
