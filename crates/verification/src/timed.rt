//! Lines with times on the clock, as CSV, and the plain table that has them.

ghost use Rattle.std.specs.Prelude.{◌≡◌, ◌++◌, [], ◌∷◌, IfOk, Some, codes};
ghost use Rattle.std.specs.Fmt.{decimal};
ghost use Rattle.std.specs.List.{flat_map};
ghost use Rattle.verification.specs.Table.{clock_finding, clock_header, clock_line, clock_row, explained_line};
ghost use Rattle.verification.specs.Table.{plain_table, told_line};
ghost use Rattle.verification.specs.Times.{begin_text};
ghost use Rattle.verification.specs.declared.row.Finding.TheVariants as findings;

use crate::difference::Difference;
use crate::explained::Explanation;
use crate::lines::{finding_name, line};
use crate::row::{Finding, Row};
use crate::text::{kind_text, text_of};
use cbsp_wire::Cell;
use itoa::Buffer;
use slot_times::{Start, slot_time};
use std::alloc::{AllocError, Global};

/// The text of the time at which a slot begins; none of a slot that no run has.
fn begin_text<'a>(buffer: &'a mut [u8; 24], start: Start, slot: usize) -> &'a [u8]
    ensures { result.now ≡ begin_text start slot }
{
    match u32::try_from(slot) {
        Ok(slot) => {
            *buffer = slot_time(start, slot);
            buffer.as_slice()
        }
        Err(_) => b"",
    }
}

/// The line of the explained table's columns' names. The only error is out of memory.
pub(crate) fn timed_header(alloc: Global) -> Result<Vec<u8>, AllocError>
    ensures { IfOk result (λ octets. octets.items ≡ explained_line (codes "lac") (codes "ci") (codes "id")
        (codes "serial") (codes "slot") (codes "difference") (codes "expected") (codes "got") (codes "time" ∷ [])) }
{
    line(
        alloc,
        &[
            b"lac",
            b"ci",
            b"id",
            b"serial",
            b"slot",
            b"difference",
            b"expected",
            b"got",
            b"time",
        ],
    )
}

/// The line of a finding of a whole cell or tape, in the explained table. The only error is out of memory.
pub(crate) fn timed_whole(alloc: Global, cell: Cell, name: &str) -> Result<Vec<u8>, AllocError>
    ensures { IfOk result (λ octets. octets.items
        ≡ explained_line (decimal cell.lac) (decimal cell.ci) [] [] [] name.now [] [] ([] ∷ [])) }
{
    let (mut lac, mut ci) = (Buffer::new(), Buffer::new());
    line(
        alloc,
        &[
            lac.format(cell.lac).as_bytes(),
            ci.format(cell.ci).as_bytes(),
            b"",
            b"",
            b"",
            name.as_bytes(),
            b"",
            b"",
            b"",
        ],
    )
}

/// The line of what is told of a difference, with the time at which its slot begins. The only error is out of memory.
pub(crate) fn timed_told(
    alloc: Global,
    start: Start,
    cell: Cell,
    difference: &Difference,
    told: &Explanation,
) -> Result<Vec<u8>, AllocError>
    ensures { IfOk result (λ octets. octets.items ≡ told_line (Some start) cell difference.now told.now) }
{
    let (mut lac, mut ci) = (Buffer::new(), Buffer::new());
    let (mut id, mut slot) = (Buffer::new(), Buffer::new());
    let mut time = [0; 24];
    let serial = hex::encode(alloc, difference.serial.number().to_be_bytes().as_slice())?;
    line(
        alloc,
        &[
            lac.format(cell.lac).as_bytes(),
            ci.format(cell.ci).as_bytes(),
            id.format(difference.id).as_bytes(),
            serial.as_bytes(),
            slot.format(difference.slot).as_bytes(),
            told.difference.as_bytes(),
            told.expected.as_bytes(),
            told.got.as_bytes(),
            begin_text(&mut time, start, difference.slot),
        ],
    )
}

/// The line of a plain table's columns' names. The only error is out of memory.
fn clock_header(alloc: Global) -> Result<Vec<u8>, AllocError>
    ensures { IfOk result (λ octets. octets.items ≡ clock_header) }
{
    line(
        alloc,
        &[
            b"lac",
            b"ci",
            b"id",
            b"serial",
            b"slot",
            b"difference",
            b"time",
        ],
    )
}

/// The line of a difference, with the time at which its slot begins. The only error is out of memory.
fn clock_difference(
    alloc: Global,
    start: Start,
    cell: Cell,
    difference: &Difference,
) -> Result<Vec<u8>, AllocError>
    ensures { IfOk result (λ octets. octets.items ≡ clock_finding start cell (findings.Differs difference.now)) }
{
    let (mut lac, mut ci) = (Buffer::new(), Buffer::new());
    let (mut id, mut slot) = (Buffer::new(), Buffer::new());
    let mut time = [0; 24];
    let serial = hex::encode(alloc, difference.serial.number().to_be_bytes().as_slice())?;
    let kind = kind_text(alloc, difference.kind)?;
    line(
        alloc,
        &[
            lac.format(cell.lac).as_bytes(),
            ci.format(cell.ci).as_bytes(),
            id.format(difference.id).as_bytes(),
            serial.as_bytes(),
            slot.format(difference.slot).as_bytes(),
            kind.as_bytes(),
            begin_text(&mut time, start, difference.slot),
        ],
    )
}

/// The line of what is found of a whole cell or tape, which has no time. The only error is out of memory.
fn clock_whole(alloc: Global, cell: Cell, name: &str) -> Result<Vec<u8>, AllocError>
    ensures { IfOk result (λ octets. octets.items
        ≡ clock_line (decimal cell.lac) (decimal cell.ci) [] [] [] name.now []) }
{
    let (mut lac, mut ci) = (Buffer::new(), Buffer::new());
    line(
        alloc,
        &[
            lac.format(cell.lac).as_bytes(),
            ci.format(cell.ci).as_bytes(),
            b"",
            b"",
            b"",
            name.as_bytes(),
            b"",
        ],
    )
}

/// The line of a row. The only error is out of memory.
fn clock_row(alloc: Global, start: Start, row: &Row) -> Result<Vec<u8>, AllocError>
    ensures { IfOk result (λ octets. octets.items ≡ clock_row start row.now) }
{
    match &row.finding {
        Finding::Differs(difference) => clock_difference(alloc, start, row.cell, difference),
        finding => {
            let name = finding_name(alloc, finding)?;
            clock_whole(alloc, row.cell, &name)
        }
    }
}

/// The text of rows with times: a line of the columns' names, and a line for each row. The only error is out of memory.
fn clock_table(alloc: Global, start: Start, rows: &[Row]) -> Result<Vec<u8>, AllocError>
    ensures { IfOk result (λ octets. octets.items ≡ plain_table (Some start) rows.now) }
{
    let mut text = clock_header(alloc)?;
    for row in rows {
        text.extend_from_slice(&clock_row(alloc, start, row)?)?;
    }
    Ok(text)
}

/// The text of rows in a plain table: as [`text_of`] has it, or with the time at which the slot of each difference
/// begins, if slot 0 has one.
///
/// # Errors
///
/// Out of memory.
pub fn plain_table(alloc: Global, start: Option<Start>, rows: &[Row]) -> Result<Vec<u8>, AllocError>
    ensures { IfOk result (λ octets. octets.items ≡ plain_table start rows.now) }
{
    match start {
        None => {
            let text = text_of(alloc, rows)?;
            Ok(text.into_bytes())
        }
        Some(start) => clock_table(alloc, start, rows),
    }
}
