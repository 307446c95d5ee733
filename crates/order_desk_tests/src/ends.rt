//! A desk that is closed: what it held, and what a settlement says of it.

use crate::lines::cells_of;
use crate::run::Run;
use bsc_table::{CellBook, CellRecord};
use cbsp_wire::Cell;
use order_desk::{Closed, Desk, Pass, cells_ok};
use std::alloc::{AllocError, Global};
use std::fmt::Write;
use std::mem;
use std::test::Fail;
use test_support::{Drought, Words};

/// Tells the slots and the cells of a desk.
fn put_desk(told: &mut String, slots: u16, cells: &[Cell]) -> Result<(), AllocError> {
    write!(told, "{slots} slots,")?;
    for cell in cells {
        write!(told, " {}-{}", cell.lac, cell.ci)?;
    }
    Ok(())
}

/// `shows`: the slots and the cells of the desk.
pub fn show(run: &mut Run) -> Result<(), Fail> {
    match &run.desk {
        Some(desk) => Ok(put_desk(&mut run.told, desk.slots(), desk.cells())?),
        None => Err(Fail::new("there is no desk")),
    }
}

/// Tells a book: its cell, how many entries there are, its clock, and what was aired, entry and page of each slot, `-`
/// for none.
fn put_book(told: &mut String, book: &CellBook) -> Result<(), AllocError> {
    let Cell { lac, ci } = book.cell();
    let (entries, clock) = (book.log().len(), book.clock());
    write!(
        told,
        "; {lac}-{ci}: log of {entries}, clock at {clock}, air"
    )?;
    for slot in book.air() {
        match slot {
            Some(aired) => write!(told, " {}.{}", aired.entry, aired.page)?,
            None => told.push_str(" -")?,
        }
    }
    Ok(())
}

/// Tells what a closed desk held.
fn put_closed(told: &mut String, closed: &Closed) -> Result<(), AllocError> {
    put_desk(told, closed.slots, &closed.cells)?;
    for book in &closed.books {
        put_book(told, book)?;
    }
    Ok(())
}

/// `close`: what the desk held, once it is closed.
pub fn close(alloc: Global, run: &mut Run) -> Result<(), Fail> {
    let Some(desk) = mem::replace(&mut run.desk, None) else {
        return Err(Fail::new("there is no desk"));
    };
    run.drought.begin(alloc);
    let outcome = desk.close();
    run.drought.end();
    match outcome {
        Ok(closed) => put_closed(&mut run.told, &closed)?,
        Err(_) => run.told.push_str("Refused")?,
    }
    Ok(())
}

/// The cell of a record, how many slots its run had, how many of them it has the air of, and how many entries there
/// are.
fn sizes_of(record: &CellRecord) -> (Cell, u16, usize, usize) {
    (
        record.cell(),
        record.slots(),
        record.air().len(),
        record.log().len(),
    )
}

/// Tells the records of a settlement.
fn put_records(told: &mut String, records: &[CellRecord]) -> Result<(), AllocError> {
    told.push_str("settled")?;
    for record in records {
        let (Cell { lac, ci }, slots, air, entries) = sizes_of(record);
        write!(
            told,
            " {lac}-{ci}: {slots} slots, air of {air}, log of {entries}"
        )?;
    }
    Ok(())
}

/// Tells the settlement of a closed desk with passes.
fn put_settlement(
    alloc: Global,
    told: &mut String,
    drought: &mut Drought,
    closed: Closed,
    passes: &[Pass],
) -> Result<(), AllocError> {
    if closed.cells.len() != closed.books.len() || !cells_ok(&closed.cells) {
        drop(closed);
        return told.push_str("the desk has other cells or books");
    }
    drought.begin(alloc);
    let outcome = closed.settle(alloc, passes);
    drought.end();
    match outcome {
        Ok(records) => put_records(told, &records),
        Err(fault) => write!(told, "{fault:?}"),
    }
}

/// The passes that a word names.
fn named<'a>(passes: &'a [Pass], word: &str) -> Result<&'a [Pass], Fail> {
    let (from, to) = match word {
        "p" => (0, 1),
        "q" => (1, 2),
        "p,q" => (0, 2),
        "p,q,r" => (0, 3),
        _ => (0, 0),
    };
    match passes.get(from..to) {
        Some(some) => Ok(some),
        None => Err(Fail::new("no such passes")),
    }
}

/// What a desk had, once it is closed. No desk takes its place.
fn closed_of(desk: &mut Option<Desk>) -> Result<Closed, Fail> {
    match mem::replace(desk, None) {
        Some(desk) => Ok(desk.close()?),
        None => Err(Fail::new("there is no desk")),
    }
}

/// `settle PASSES`: the settlement of the desk with these passes, `none` or some. `settle-as CELLS PASSES`: the same
/// once its cells are exchanged for these, while its books stay.
pub fn settle(alloc: Global, run: &mut Run, verb: &str, words: &mut Words) -> Result<(), Fail> {
    let exchanged = match verb {
        "settle-as" => Some(cells_of(alloc, words.word())?),
        _ => None,
    };
    let passes = named(&run.passes, words.word())?;
    let mut closed = closed_of(&mut run.desk)?;
    if let Some(cells) = exchanged {
        closed.cells = cells;
    }
    Ok(put_settlement(alloc, &mut run.told, &mut run.drought, closed, passes)?)
}
