//! The text of rows, in memory.

ghost use Rattle.std.specs.Prelude.{◌≡◌, ◌++◌, ℕ, IfOk, OnOk};
ghost use Rattle.std.specs.Prelude.{string_bytes};
ghost use Rattle.verification.specs.RowText.{difference_text, finding_text, kind_text, row_text, rows_text};

use crate::difference::{Difference, Kind};
use crate::row::{Finding, Row};
use std::alloc::{AllocError, Global};

/// The names of the columns.
const HEADER: &str = "lac,ci,id,serial,slot,difference\n";

/// What a kind of difference is called.
///
/// # Errors
///
/// Out of memory.
pub fn kind_text(alloc: Global, kind: Kind) -> Result<String, AllocError>
    ensures { IfOk result (λ text. string_bytes text ≡ kind_text kind) }
{
    match kind {
        Kind::Otherwise { page } => format!(in alloc; "page {page} reads otherwise"),
        Kind::BeforeStart => String::from_str(alloc, "before its start"),
        Kind::AfterStop => String::from_str(alloc, "after its stop"),
        Kind::AfterLast => String::from_str(alloc, "after its last broadcast"),
        Kind::NotWhole { broadcast } => format!(in alloc; "broadcast {broadcast} not whole"),
        Kind::NotOrdered => String::from_str(alloc, "not ordered"),
        Kind::Again { broadcast } => format!(in alloc; "broadcast {broadcast} again"),
    }
}

/// The columns of a difference after those of its cell.
fn difference_text(alloc: Global, difference: &Difference) -> Result<String, AllocError>
    ensures { IfOk result (λ text. string_bytes text ≡ difference_text difference.now) }
{
    let Difference {
        slot,
        id,
        serial,
        kind,
    } = difference;
    let serial = hex::encode(alloc, serial.number().to_be_bytes().as_slice())?;
    let kind = kind_text(alloc, *kind)?;
    format!(in alloc; "{id},{serial},{slot},{kind}")
}

/// The columns of a finding after those of its cell.
fn finding_text(alloc: Global, finding: &Finding) -> Result<String, AllocError>
    ensures { IfOk result (λ text. string_bytes text ≡ finding_text finding.now) }
{
    match finding {
        Finding::Differs(difference) => difference_text(alloc, difference),
        Finding::NoTape => String::from_str(alloc, ",,,no tape"),
        Finding::OtherSlots => String::from_str(alloc, ",,,other slots"),
        Finding::SecondTape => String::from_str(alloc, ",,,second tape"),
        Finding::UnknownCell => String::from_str(alloc, ",,,unknown cell"),
    }
}

/// The line of a row.
fn row_text(alloc: Global, row: &Row) -> Result<String, AllocError>
    ensures { IfOk result (λ text. string_bytes text ≡ row_text row.now) }
{
    let (lac, ci) = (row.cell.lac, row.cell.ci);
    let finding = finding_text(alloc, &row.finding)?;
    format!(in alloc; "{lac},{ci},{finding}\n")
}

/// The text of rows: a line of the columns' names, and a line for each row.
///
/// # Errors
///
/// Out of memory.
pub fn text_of(alloc: Global, rows: &[Row]) -> Result<String, AllocError>
    ensures { IfOk result (λ text. string_bytes text ≡ rows_text rows.now) }
{
    let mut text = String::from_str(alloc, HEADER)?;
    for row in rows {
        text.push_str(&row_text(alloc, row)?)?;
    }
    Ok(text)
}
