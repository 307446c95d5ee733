//! The row of the book that a row of a plan gives.

ghost use Rattle.std.specs.Prelude.{◌≡◌, ◌++◌, drop, IfOk, OnOk};
ghost use Rattle.csv.specs.Records.{fields_of};
ghost use Rattle.plan.specs.PlanRow.{cut_fields, fields_from, planned_as};

use crate::cells::area::Area;
use crate::octets::{Octets, Texts};
use crate::rows::field::{kind_at, planned_field};
use crate::rows::word::{are_empty_from, verb_of};
use alert_book::{Verb, columns_of, octets_at};
use csv::ByteRecord;
use std::alloc::{AllocError, Global};

/// A copy of the fields without the empty ones behind the columns of a verb.
fn cut_fields(verb: Option<Verb>, fields: &ByteRecord) -> Result<ByteRecord, AllocError>
    ensures { IfOk result (λ cut. fields_of cut ≡ cut_fields verb (fields_of fields.now)) }
{
    let mut cut = fields.clone()?;
    let Some(verb) = verb else {
        return Ok(cut);
    };
    if are_empty_from(fields, columns_of(verb)) {
        cut.truncate(columns_of(verb));
    }
    Ok(cut)
}

/// Appends what stands in the book for the fields behind the first.
fn push_fields(
    alloc: Global,
    areas: &[Area],
    verb: Option<Verb>,
    list: &mut Vec<Octets>,
    cut: &ByteRecord,
) -> Result<(), AllocError>
    ensures { OnOk result (list.new.items
        ≡ list.old.items ++ fields_from areas.now verb 1 (drop 1 (fields_of cut.now))) }
{
    for place in 1..cut.len() {
        let field = planned_field(alloc, areas, kind_at(verb, place), octets_at(cut, place))?;
        list.push(field)?;
    }
    Ok(())
}

/// The row of the book that a row with this word gives.
pub(crate) fn planned_row(
    alloc: Global,
    areas: &[Area],
    word: Octets,
    fields: &ByteRecord,
) -> Result<Texts, AllocError>
    ensures { IfOk result (λ row. row ≡ planned_as areas.now word (fields_of fields.now)) }
{
    let verb = verb_of(&word.list);
    let cut = cut_fields(verb, fields)?;
    let mut list = Vec::new(alloc);
    list.push(word)?;
    push_fields(alloc, areas, verb, &mut list, &cut)?;
    Ok(Texts { list })
}
