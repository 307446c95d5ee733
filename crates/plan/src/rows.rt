//! The rows of a plan, and the rows of the book that they give.

ghost use Rattle.std.specs.Prelude.{◌≡◌, ◌++◌, true, IfOk, OnOk};
ghost use Rattle.csv.specs.Records.{fields_of};
ghost use Rattle.plan.specs.PlanRow.{are_headings, areas_of, area_in, cell_row, gives_none, planned_rows, rows_from};
ghost use Rattle.plan.specs.PlanRow.{rows_given, with_new_cells, word_of};

use crate::cells::area::{Area, area_of};
use crate::cells::new::{new_cells, push_new_rows};
use crate::octets::Texts;
use crate::rows::row::planned_row;
use crate::rows::word::{are_all_headings, is_area, is_left_out, verb_of, word_of};
use csv::ByteRecord;
use std::alloc::{AllocError, Global};
use std::marker::Model;

pub(crate) mod field;
pub(crate) mod row;
pub(crate) mod word;

/// The fields of a row of a plan.
#[derive(Debug, Drop)]
pub(crate) struct Fields {
    pub(crate) record: ByteRecord,
}

impl Model for Fields {
    ghost use Rattle.std.specs.Prelude.{ℕ, List};
    ghost use Rattle.csv.specs.Records.{fields_of};

    ghost Value = { List (List ℕ) };

    ghost view = { λ fields. fields_of fields.record };
}

/// A row of the book.
#[derive(Debug, Drop)]
pub(crate) struct Planned {
    /// The row of the plan that it comes from, from 1.
    pub(crate) row: usize,
    pub(crate) fields: Texts,
}

/// The record of fields.
pub(crate) fn record_of(fields: &Fields) -> &ByteRecord
    ensures { fields_of result.now ≡ fields.now }
{
    &fields.record
}

/// Appends the area that a row names, if it does.
fn push_area(alloc: Global, areas: &mut Vec<Area>, fields: &ByteRecord) -> Result<(), AllocError>
    ensures { OnOk result (areas.new.items ≡ areas.old.items ++ area_in (fields_of fields.now)) }
{
    let word = word_of(alloc, fields)?;
    if is_area(&word.list) {
        let area = area_of(alloc, fields)?;
        areas.push(area)?;
    }
    Ok(())
}

/// The areas that rows name.
fn areas_of(alloc: Global, records: &[Fields]) -> Result<Vec<Area>, AllocError>
    ensures { IfOk result (λ areas. areas.items ≡ areas_of records.now) }
{
    let mut areas = Vec::new(alloc);
    for fields in records {
        push_area(alloc, &mut areas, record_of(fields))?;
    }
    Ok(areas)
}

/// Whether a row that begins with this word is headings.
fn are_headings(word: &[u8], fields: &ByteRecord) -> bool
    requires { word.now ≡ word_of (fields_of fields.now) }
    ensures { result ≡ are_headings (fields_of fields.now) }
{
    verb_of(word).is_none() && are_all_headings(fields)
}

/// Whether a row that begins with this word is headings or an area.
fn gives_none(first: bool, word: &[u8], fields: &ByteRecord) -> bool
    requires { word.now ≡ word_of (fields_of fields.now) }
    ensures { result ≡ gives_none first (fields_of fields.now) }
{
    is_area(word) || (first && are_headings(word, fields))
}

/// Appends the row that a row of this number gives, if it gives one.
fn push_row(
    alloc: Global,
    areas: &[Area],
    rows: &mut Vec<Planned>,
    row: usize,
    first: bool,
    fields: &ByteRecord,
) -> Result<(), AllocError>
    ensures { OnOk result (rows.new.items ≡ rows.old.items ++ rows_given areas.now row first (fields_of fields.now)) }
{
    let word = word_of(alloc, fields)?;
    if gives_none(first, &word.list, fields) {
        return Ok(());
    }
    let fields = planned_row(alloc, areas, word, fields)?;
    rows.push(Planned { row, fields })?;
    Ok(())
}

/// What rows give, where these are the areas.
fn rows_of(alloc: Global, areas: &[Area], records: &[Fields]) -> Result<Vec<Planned>, AllocError>
    ensures { IfOk result (λ rows. rows.items ≡ rows_from areas.now 1 true records.now) }
{
    let mut rows = Vec::new(alloc);
    let mut first = true;
    for (place, fields) in records.iter().enumerate() {
        let record = record_of(fields);
        if !is_left_out(record) {
            push_row(alloc, areas, &mut rows, place + 1, first, record)?;
            first = false;
        }
    }
    Ok(rows)
}

/// The rows of the book of a plan with these rows.
pub(crate) fn planned_rows(alloc: Global, records: &[Fields]) -> Result<Vec<Planned>, AllocError>
    ensures { IfOk result (λ rows. rows.items ≡ planned_rows records.now) }
{
    let areas = areas_of(alloc, records)?;
    let rows = rows_of(alloc, &areas, records)?;
    with_new_cells(alloc, rows)
}

/// The rows behind those that declare the new cells.
fn with_new_cells(alloc: Global, mut rows: Vec<Planned>) -> Result<Vec<Planned>, AllocError>
    ensures { IfOk result (λ all. all.items ≡ with_new_cells rows.items) }
{
    let new = new_cells(alloc, &rows)?;
    let mut all = Vec::new(alloc);
    push_new_rows(alloc, &mut all, &new)?;
    all.append(&mut rows)?;
    Ok(all)
}
