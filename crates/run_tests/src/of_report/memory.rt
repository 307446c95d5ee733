//! Reports that are short of memory: growths are refused one after the other, and nothing is written then.

use crate::of_report::books::{Books, expect_each};
use crate::of_report::tables::TWO_CELLS;
use device_ends::Sink;
use report::{BookOrders, Columns, Layout, ReportFault, Row, rows, text_with, write_report};
use slot_times::Start;
use std::alloc::{AllocError, Global};
use std::process::Abort;
use std::test::Fail;
use test_support::Room;

/// How many rows the runs of books have, in a room of so many blocks or with all memory. Of fewer readings it has to be
/// that the cells differ, in either case, since cells are compared without memory.
fn number_of_rows(
    alloc: Global,
    books: &Books,
    room: &mut Room,
    blocks: Option<u16>,
) -> Result<Result<usize, ReportFault>, Fail> {
    let fewer = &books.readings[..books.readings.len().saturating_sub(1)];
    if let Some(blocks) = blocks {
        room.leave(alloc, blocks);
    }
    let other = rows(alloc, &books.runs, fewer);
    let found = rows(alloc, &books.runs, &books.readings);
    room.end();
    let is_other = matches!(other, Err(ReportFault::Cells));
    drop(other);
    let number = match found {
        Ok(rows) => Ok(rows.len()),
        Err(fault) => Err(fault),
    };
    if is_other {
        Ok(number)
    } else {
        Err(Fail::new("a report of fewer readings"))
    }
}

/// How often the rows of books are refused memory. After each refusal there are five with all memory.
fn refused_rows(alloc: Global, books: &Books, room: &mut Room) -> Result<u16, Fail> {
    for blocks in 0..Room::MOST {
        match number_of_rows(alloc, books, room, Some(blocks))? {
            Ok(5) => return Ok(blocks),
            Err(ReportFault::Refused) => {}
            _ => return Err(Fail::new("other rows, or another fault")),
        }
        if number_of_rows(alloc, books, room, None)? != Ok(5) {
            return Err(Fail::new("rows with all memory"));
        }
    }
    Err(Fail::new("rows are refused to the end"))
}

/// How many octets the report of rows has, in a room of so many blocks or with all memory; 400 octets can be written.
/// None if the sink has failed.
fn written_of(
    alloc: Global,
    rows: &[Row],
    room: &mut Room,
    blocks: Option<u16>,
) -> Option<(Result<(), ReportFault>, usize)> {
    let mut out = [0; 400];
    let mut left = out.as_mut_slice();
    let mut sink = Sink::new(&mut left);
    if let Some(blocks) = blocks {
        room.leave(alloc, blocks);
    }
    let done = write_report(alloc, rows, &mut sink);
    room.end();
    if sink.failed() {
        return None;
    }
    Some((done, 400_usize.saturating_sub(left.len())))
}

/// How often the report of rows is refused memory, with nothing written. After each refusal it has its 163 octets with
/// all memory.
fn refused_reports(alloc: Global, rows: &[Row], room: &mut Room) -> Result<u16, Fail> {
    let whole = Some((Ok(()), 163));
    for blocks in 0..Room::MOST {
        let found = written_of(alloc, rows, room, Some(blocks));
        if found == whole {
            return Ok(blocks);
        }
        if found != Some((Err(ReportFault::Refused), 0)) {
            return Err(Fail::new("another report, or another fault"));
        }
        if written_of(alloc, rows, room, None) != whole {
            return Err(Fail::new("a report with all memory"));
        }
    }
    Err(Fail::new("reports are refused to the end"))
}

/// How many octets the report of rows has that is laid out so, in a room of so many blocks or with all memory.
fn text_of(
    alloc: Global,
    layout: Layout,
    rows: &[Row],
    room: &mut Room,
    blocks: Option<u16>,
) -> Result<usize, AllocError> {
    if let Some(blocks) = blocks {
        room.leave(alloc, blocks);
    }
    let made = text_with(alloc, layout, true, &BookOrders::none(alloc), rows);
    room.end();
    Ok(made?.len())
}

/// How often the report of rows that is laid out so is refused memory. After each refusal it has so many octets with
/// all memory.
fn refused_texts(
    alloc: Global,
    layout: Layout,
    octets: usize,
    rows: &[Row],
    room: &mut Room,
) -> Result<u16, Fail> {
    for blocks in 0..Room::MOST {
        match text_of(alloc, layout, rows, room, Some(blocks)) {
            Ok(made) if made == octets => return Ok(blocks),
            Err(AllocError) => {}
            Ok(_) => return Err(Fail::new("another report")),
        }
        if text_of(alloc, layout, rows, room, None)? != octets {
            return Err(Fail::new("a report with all memory"));
        }
    }
    Err(Fail::new("reports are refused to the end"))
}

/// How often the full report of rows is refused memory, and then that with times, or the other if that is less often.
fn refused_full_reports(alloc: Global, rows: &[Row], room: &mut Room) -> Result<u16, Fail> {
    let columns = Columns::Full;
    let start = None;
    let untimed = refused_texts(alloc, Layout { columns, start }, 269, rows, room)?;
    let start = Start::new(1795977000000000);
    let timed = refused_texts(alloc, Layout { columns, start }, 681, rows, room)?;
    Ok(untimed.min(timed))
}

/// How often the rows of two cells, the report of these, and their full reports, are refused memory.
fn refused_of_two_cells(alloc: Global, books: &mut Books) -> Result<(u16, u16, u16), Fail> {
    let _ = expect_each(books, TWO_CELLS)?;
    let mut room = Room::new(alloc)?;
    let refused = refused_rows(alloc, books, &mut room)?;
    let rows = rows(alloc, &books.runs, &books.readings)?;
    let reports = refused_reports(alloc, &rows, &mut room)?;
    let full = refused_full_reports(alloc, &rows, &mut room)?;
    Ok((refused, reports, full))
}

/// Expects that the rows of two cells are refused memory so often at least, and the reports of these so often.
fn expect_refusals(
    rt: &impl Abort,
    alloc: Global,
    least: u16,
    least_of_report: u16,
) -> Result<(), Fail> {
    let mut books = Books::new(alloc);
    let refused = refused_of_two_cells(alloc, &mut books);
    drop(books);
    let (refused, of_report, of_full) = refused?;
    assert!(rt;
        refused >= least && of_report >= least_of_report && of_full >= least_of_report,
        "{refused}, {of_report} and {of_full}"
    );
    Ok(())
}

// A trace of the process counts eight growths of the one call that are refused, and one of the others.

#[test]
fn refused_memory_is_reported(rt: HostRuntime) -> Result<(), Fail> {
    expect_refusals(&rt, rt.alloc(), 8, 1)
}
