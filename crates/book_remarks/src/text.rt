//! The text of remarks, and of how full cells get, in memory.

ghost use Rattle.std.specs.Prelude.{◌≡◌, ◌++◌, ℕ, List, codes, IfOk, OnOk, string_bytes};
ghost use Rattle.std.specs.List.{flat_map};
ghost use Rattle.book_remarks.specs.TableSteps.{IsTable};
ghost use Rattle.book_remarks.specs.RemarksText.{cell_text, cells_word, fullest_line, fullest_words, group_lines};
ghost use Rattle.book_remarks.specs.RemarksText.{remark_line, remarked_group};
ghost use Rattle.book_remarks.specs.RemarksText.{remarks_text, checked_run_text, says_text, slot_said, spaced_cell};

use crate::remarks::Remark;
use crate::says::Says;
use crate::table::Table;
use bsc_table::CellRecord;
use cbsp_wire::Cell;
use chart::{Fullest, fullest_of};
use itoa::Buffer;
use report::cause_words;
use slot_times::Start;
use std::alloc::{AllocError, Global};

/// A cell, as orders name it.
fn cell_text(alloc: Global, cell: Cell) -> Result<String, AllocError>
    ensures { IfOk result (λ text. string_bytes text ≡ cell_text cell) }
{
    let Cell { lac, ci } = cell;
    format!(in alloc; "{lac}-{ci}")
}

/// A cell after a space.
fn spaced_cell(alloc: Global, cell: Cell) -> Result<String, AllocError>
    ensures { IfOk result (λ text. string_bytes text ≡ spaced_cell cell) }
{
    let Cell { lac, ci } = cell;
    format!(in alloc; " {lac}-{ci}")
}

/// What is said of cells that weren't asked.
fn leaves_out(alloc: Global, cells: &[Cell]) -> Result<String, AllocError>
    ensures { IfOk result (λ text. string_bytes text ≡ codes "leaves out" ++ flat_map spaced_cell cells.now) }
{
    let mut text = String::from_str(alloc, "leaves out")?;
    for cell in cells {
        text.push_str(&spaced_cell(alloc, *cell)?)?;
    }
    Ok(text)
}

/// The word for this many cells.
fn cells_word(count: usize) -> &'static str
    ensures { result.now ≡ cells_word count }
{
    if count == 1 { "cell" } else { "cells" }
}

/// What is said of an order, in words.
fn says_text(alloc: Global, says: &Says) -> Result<String, AllocError>
    ensures { IfOk result (λ text. string_bytes text ≡ says_text says.now) }
{
    match says {
        Says::OrdersNothing => String::from_str(alloc, "orders nothing"),
        Says::LeavesOut(cells) => leaves_out(alloc, cells.list.as_slice()),
        Says::DoneAt { slot } => format!(in alloc; "done at slot {slot}"),
        Says::Refused { cells, cause } => {
            let word = cells_word(*cells);
            let why = cause_words(*cause);
            format!(in alloc; "refused in {cells} {word}: {why}")
        }
        Says::PastTheEnd => String::from_str(alloc, "past the end"),
        Says::NeverShown { cells } => {
            let word = cells_word(*cells);
            format!(in alloc; "never shown in {cells} {word}")
        }
        Says::SameAs { row } => {
            format!(in alloc; "same identifier and serial number as row {row}")
        }
        Says::OnlySpaces => String::from_str(alloc, "only spaces"),
        Says::ForcesUcs2 {
            character,
            place,
            pages,
            without,
        } => {
            format!(in alloc;
                "UCS-2 because of {character} at {place}: {pages} pages in place of {without}"
            )
        }
    }
}

/// The slot that is said of an order.
fn slot_said(says: &Says) -> Option<u16>
    ensures { result ≡ slot_said says.now }
{
    match says {
        Says::DoneAt { slot } => Some(*slot),
        _ => None,
    }
}

/// Appends the line of a remark.
fn push_remark(
    alloc: Global,
    table: &mut Table,
    group: Option<u16>,
    start: Option<Start>,
    remark: &Remark,
) -> Result<(), AllocError>
    ensures { OnOk result ((octets : List ℕ) → IsTable table.old octets
        → IsTable table.new (octets ++ remark_line group start remark.now)) }
{
    match remark {
        Remark::OfOrder { row, name, says } => {
            let mut buffer = Buffer::new();
            let said = says_text(alloc, says)?;
            let slot = slot_said(says);
            table.push_fields(
                group,
                start,
                slot,
                buffer.format(*row),
                name.text.as_str(),
                "",
                &said,
            )
        }
        Remark::NothingIn(cell) => {
            let name = cell_text(alloc, *cell)?;
            table.push_fields(group, start, None, "", "", &name, "gets nothing")
        }
    }
}

/// Appends the lines of remarks.
fn push_remarks(
    alloc: Global,
    table: &mut Table,
    group: Option<u16>,
    start: Option<Start>,
    remarks: &[Remark],
) -> Result<(), AllocError>
    ensures { OnOk result ((octets : List ℕ) → IsTable table.old octets
        → IsTable table.new (octets ++ flat_map (remark_line group start) remarks.now)) }
{
    for remark in remarks {
        push_remark(alloc, table, group, start, remark)?;
    }
    Ok(())
}

/// How full a cell gets, in words.
fn fullest_words(alloc: Global, fullest: Fullest) -> Result<String, AllocError>
    ensures { IfOk result (λ text. string_bytes text ≡ fullest_words fullest) }
{
    let Fullest { share, slot } = fullest;
    format!(in alloc; "fullest: {share} % at slot {slot}")
}

/// Appends the line of how full a cell gets.
fn push_fullest(
    alloc: Global,
    table: &mut Table,
    group: Option<u16>,
    start: Option<Start>,
    run: &CellRecord,
) -> Result<(), AllocError>
    ensures { OnOk result ((octets : List ℕ) → IsTable table.old octets
        → IsTable table.new (octets ++ fullest_line group start run.now)) }
{
    let fullest = fullest_of(alloc, run)?;
    let name = cell_text(alloc, run.cell())?;
    let said = fullest_words(alloc, fullest)?;
    table.push_fields(group, start, Some(fullest.slot), "", "", &name, &said)
}

/// Appends the lines of how full cells get.
fn push_each_fullest(
    alloc: Global,
    table: &mut Table,
    group: Option<u16>,
    start: Option<Start>,
    records: &[CellRecord],
) -> Result<(), AllocError>
    ensures { OnOk result ((octets : List ℕ) → IsTable table.old octets
        → IsTable table.new (octets ++ flat_map (fullest_line group start) records.now)) }
{
    for run in records {
        push_fullest(alloc, table, group, start, run)?;
    }
    Ok(())
}

/// The text of remarks, as CSV: a line of the columns' names, and a line for each. If slot 0 has a time on the clock, a
/// last column has the time in UTC at which the slot begins that a remark speaks of; without it the text lacks that
/// column, and nothing else ([`remark_laws`](crate::remark_laws)).
///
/// # Errors
///
/// Out of memory.
pub fn text_of(
    alloc: Global,
    start: Option<Start>,
    remarks: &[Remark],
) -> Result<Vec<u8>, AllocError>
    ensures { IfOk result (λ octets. octets.items ≡ remarks_text start remarks.now) }
{
    let mut table = Table::new(alloc, start)?;
    push_remarks(alloc, &mut table, None, start, remarks)?;
    table.into_octets()
}

/// The text of remarks, and then of each cell of a run a line of the most load that it has reserved, in hundredths of
/// the cell, and of the first slot at which it has; with times as [`text_of`] has them.
///
/// # Errors
///
/// Out of memory.
pub fn run_text_of(
    alloc: Global,
    start: Option<Start>,
    remarks: &[Remark],
    records: &[CellRecord],
) -> Result<Vec<u8>, AllocError>
    ensures { IfOk result (λ octets. octets.items ≡ checked_run_text start remarks.now records.now) }
{
    let mut table = Table::new(alloc, start)?;
    push_remarks(alloc, &mut table, None, start, remarks)?;
    push_each_fullest(alloc, &mut table, None, start, records)?;
    table.into_octets()
}

/// Appends what is remarked of the group of this number of a network, and how full each of its cells gets.
pub(crate) fn push_group(
    alloc: Global,
    table: &mut Table,
    group: u16,
    start: Option<Start>,
    remarks: &[Remark],
    records: &[CellRecord],
) -> Result<(), AllocError>
    ensures { OnOk result ((octets : List ℕ) → IsTable table.old octets
        → IsTable table.new (octets ++ group_lines start group (remarked_group remarks.now records.now))) }
{
    push_remarks(alloc, table, Some(group), start, remarks)?;
    push_each_fullest(alloc, table, Some(group), start, records)
}
