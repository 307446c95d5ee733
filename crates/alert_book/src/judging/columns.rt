//! The columns of a row: the judge of each, and the first that is refused.

ghost use Rattle.std.specs.Prelude.{◌≡◌, ◌≤◌, IfOk, length};
ghost use Rattle.std.specs.Result.{result_err};
ghost use Rattle.csv.specs.Records.{fields_of};
ghost use Rattle.alert_book.specs.Fields.{column, number};
ghost use Rattle.alert_book.specs.Judging.{ci_fault, column_fault, columns_after, field_judged, first_found};
ghost use Rattle.alert_book.specs.Judging.{found_after_verb, found_of_verb, is_full, name_fault, update_found};
ghost use Rattle.alert_book.specs.NameSteps.{AreNames};
ghost use Rattle.alert_book.specs.Row.{verb_of};

use crate::book::declared::Declared;
use crate::book::fields::{check_new_name, column, known_name, number};
use crate::book::names::Names;
use crate::book::order::Order;
use crate::book::row::{MAX_UPDATES, Verb, columns_of, count_of_updates, verb_of};
use crate::fault::RowFault;
use crate::judging::cells::JudgedCells;
use cbsp_wire::Cell;
use csv::StringRecord;
use std::alloc::{AllocError, Global};

/// A column after a row's verb.
#[derive(Clone, Copy, Debug, PartialEq, Eq)]
pub enum Column {
    /// The location area code of a cell.
    Lac,
    /// The cell identity.
    Ci,
    /// The slot of an order.
    At,
    /// The alert's name.
    Name,
    /// The message identifier.
    Id,
    /// The geographical scope.
    Scope,
    /// The message code.
    Code,
    /// The language of the text.
    Language,
    /// The category.
    Category,
    /// The repetition period.
    Period,
    /// How many broadcasts are requested.
    Broadcasts,
    /// The cells of an order.
    Cells,
    /// The text.
    Text,
}

/// A fault of a row, and where it is.
#[derive(Clone, Copy, Debug, PartialEq, Eq)]
pub struct Found {
    /// The column, counted from 1; 1 also for faults of the whole row.
    pub column: usize,
    /// The fault.
    pub fault: RowFault,
}

/// The columns after a verb, in their order.
pub fn columns_after(verb: Verb) -> &'static [Column]
    ensures columns { result.now ≡ columns_after verb }
    ensures few { length result.now ≤ 11 }
{
    match verb {
        Verb::Cell => &[Column::Lac, Column::Ci],
        Verb::Write => &[
            Column::At,
            Column::Name,
            Column::Id,
            Column::Scope,
            Column::Code,
            Column::Language,
            Column::Category,
            Column::Period,
            Column::Broadcasts,
            Column::Cells,
            Column::Text,
        ],
        Verb::Update => &[
            Column::At,
            Column::Name,
            Column::Language,
            Column::Category,
            Column::Period,
            Column::Broadcasts,
            Column::Cells,
            Column::Text,
        ],
        Verb::Stop => &[Column::At, Column::Name, Column::Cells],
    }
}

/// The fault of a number, if it isn't one in this range.
fn number_fault(field: &str, least: u16, most: u16) -> Option<RowFault>
    ensures { result ≡ result_err (number least most field.now) }
{
    number(field, least, most).err()
}

/// The fault of a CI after this LAC, if they don't name a cell that isn't declared.
fn ci_fault(declared: &JudgedCells, lac: &str, ci: &str) -> Option<RowFault>
    ensures { result ≡ ci_fault declared.now.cells lac.now ci.now }
{
    check_new_cell(declared, lac, ci).err()
}

/// Whether a row may declare a cell of this LAC and CI.
fn check_new_cell(declared: &JudgedCells, lac: &str, ci: &str) -> Result<(), RowFault>
    ensures { result_err result ≡ ci_fault declared.now.cells lac.now ci.now }
{
    let lac = number(lac, 0, u16::MAX)?;
    let ci = number(ci, 0, u16::MAX)?;
    if declared.has(Cell { lac, ci }) {
        return Err(RowFault::TwiceNamed);
    }
    Ok(())
}

/// The fault of a name in a row of this verb.
fn name_fault(verb: Verb, orders: &[Order], names: &Names, name: &str) -> Option<RowFault>
    requires { AreNames names.now orders.now }
    ensures { result ≡ name_fault verb orders.now name.now }
{
    match verb {
        Verb::Cell => None,
        Verb::Write => check_new_name(orders, names, name).err(),
        Verb::Update | Verb::Stop => match known_name(orders, names, name) {
            Ok(_) => None,
            Err(fault) => Some(fault),
        },
    }
}

/// The fault of a field of cells.
fn cells_fault(
    alloc: Global,
    declared: &JudgedCells,
    field: &str,
) -> Result<Option<RowFault>, AllocError>
    ensures { IfOk result (λ fault.
        fault ≡ result_err (field_judged declared.now.bounds declared.now.cells field.now)) }
{
    match declared.cells_of_field(alloc, field) {
        Ok(_) => Ok(None),
        Err(RowFault::Refused) => Err(AllocError),
        Err(fault) => Ok(Some(fault)),
    }
}

/// The fault of a column, if its judge refuses this field, which stands after another.
fn column_fault(
    alloc: Global,
    verb: Verb,
    declared: &JudgedCells,
    orders: &[Order],
    names: &Names,
    column: Column,
    before: &str,
    field: &str,
) -> Result<Option<RowFault>, AllocError>
    requires { AreNames names.now orders.now }
    ensures { IfOk result (λ fault.
        fault ≡ column_fault declared.now.bounds verb declared.now.cells orders.now column before.now field.now) }
{
    match column {
        Column::Language | Column::Text => Ok(None),
        Column::Lac | Column::At | Column::Id | Column::Broadcasts => {
            Ok(number_fault(field, 0, u16::MAX))
        }
        Column::Scope => Ok(number_fault(field, 0, 3)),
        Column::Code => Ok(number_fault(field, 0, 1023)),
        Column::Category => Ok(number_fault(field, 0, 2)),
        Column::Period => Ok(number_fault(field, 1, 1024)),
        Column::Ci => Ok(ci_fault(declared, before, field)),
        Column::Name => Ok(name_fault(verb, orders, names, field)),
        Column::Cells => cells_fault(alloc, declared, field),
    }
}

/// The fault of an update too many of a name.
fn update_found(verb: Verb, orders: &[Order], names: &Names, name: &str) -> Option<Found>
    requires { AreNames names.now orders.now }
    ensures { result ≡ update_found verb orders.now name.now }
{
    match verb {
        Verb::Cell | Verb::Write | Verb::Stop => None,
        Verb::Update if count_of_updates(orders, names, name) >= MAX_UPDATES => Some(Found {
            column: 3,
            fault: RowFault::TooManyUpdates,
        }),
        Verb::Update => None,
    }
}

/// Whether a row of this verb is a cell too many.
fn is_full(verb: Verb, declared: &JudgedCells) -> bool
    ensures { result ≡ is_full declared.now.bounds verb declared.now.cells }
{
    match verb {
        Verb::Cell => declared.list().len() >= declared.most(),
        Verb::Write | Verb::Update | Verb::Stop => false,
    }
}

/// The first fault of a row of a verb with the right number of columns: that of the first column whose judge refuses
/// it, or of an update too many.
fn first_found(
    alloc: Global,
    verb: Verb,
    declared: &JudgedCells,
    orders: &[Order],
    names: &Names,
    fields: &StringRecord,
) -> Result<Option<Found>, AllocError>
    requires { AreNames names.now orders.now }
    ensures { IfOk result (λ found. found ≡ first_found declared.now.bounds verb declared.now.cells orders.now
        (fields_of fields.now) (update_found verb orders.now (column (fields_of fields.now) 2)) 1
        (columns_after verb)) }
{
    let columns = columns_after(verb);
    for (index, kind) in columns.iter().enumerate() {
        let place = index + 1;
        let (before, field) = (column(fields, index), column(fields, place));
        if let Some(fault) = column_fault(
            alloc, verb, declared, orders, names, *kind, before, field,
        )? {
            return Ok(Some(Found {
                column: place + 1,
                fault,
            }));
        }
    }
    Ok(update_found(verb, orders, names, column(fields, 2)))
}

/// The fault of a row of a verb with the right number of columns.
fn found_of_verb(
    alloc: Global,
    verb: Verb,
    declared: &JudgedCells,
    orders: &[Order],
    names: &Names,
    fields: &StringRecord,
) -> Result<Option<Found>, AllocError>
    requires { AreNames names.now orders.now }
    ensures { IfOk result (λ found.
        found ≡ found_of_verb declared.now.bounds verb declared.now.cells orders.now (fields_of fields.now)) }
{
    if is_full(verb, declared) {
        return Ok(Some(Found {
            column: 1,
            fault: RowFault::TooManyRows,
        }));
    }
    first_found(alloc, verb, declared, orders, names, fields)
}

/// The fault of a row of text.
pub(crate) fn found_after_verb(
    alloc: Global,
    declared: &JudgedCells,
    orders: &[Order],
    names: &Names,
    fields: &StringRecord,
) -> Result<Option<Found>, AllocError>
    requires { AreNames names.now orders.now }
    ensures { IfOk result (λ found. found ≡ found_after_verb declared.now.bounds
        (verb_of (column (fields_of fields.now) 0))
        declared.now.cells orders.now (fields_of fields.now)) }
{
    let Some(verb) = verb_of(column(fields, 0)) else {
        return Ok(Some(Found {
            column: 1,
            fault: RowFault::Verb,
        }));
    };
    if fields.len() != columns_of(verb) {
        return Ok(Some(Found {
            column: 1,
            fault: RowFault::Columns,
        }));
    }
    found_of_verb(alloc, verb, declared, orders, names, fields)
}
