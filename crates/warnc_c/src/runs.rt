//! A book to what is made of its run: tapes, a report, a chart.

ghost use Rattle.std.specs.Prelude.{◌≡◌, ◌≢◌};
ghost use Rattle.warnc_c.specs.Runs.{english_chart, layout_of, number_of_book_fault, number_of_run_fault};
ghost use Rattle.warnc_c.specs.Runs.{TellsRow, AnswersRun};
ghost use Rattle.warnc_run.specs.declared.product.Product.TheVariants as product;

use crate::output::put;
use crate::status;
use alert_book::{BookFault, BookFaultKind};
use chart::{Language, View, Wording};
use order_desk::{DeskFault, SettleFault};
use report::{Columns, Layout};
use std::alloc::Global;
use warnc_run::{Product, RunFault, product_alone};

/// Runs a book for 1 to 65,535 slots, and puts the tapes of its cells, one after the other, as `warnc compile --slots`
/// writes them: 8 octets and 92 a slot for each cell.
///
/// The answer is [`status::OK`], with the tapes at the front of the room and `written` octets of them;
/// [`status::ROOM`] if the room is smaller than the tapes, which have `written` octets; [`status::SLOTS`];
/// [`status::BOOK`], with the row that has the fault, from 1, or 0 if the book is too long; [`status::MEMORY`].
#[unsafe(no_mangle)]
pub extern "C" fn warnc_compile(
    alloc: Global,
    book: &[u8],
    slots: u16,
    room: &mut [u8],
    written: &mut usize,
    row: &mut u32,
) -> u32
    ensures answer { AnswersRun product.Tapes slots book.now result room.old room.new written.new row.new }
    ensures room_stays { result ≢ 0 → room.new ≡ room.old }
    ensures written_stays { result ≢ 0 → result ≢ 9 → written.new ≡ written.old }
    ensures row_stays { result ≢ 13 → row.new ≡ row.old }
{
    put_made(alloc, book, slots, Product::Tapes, room, written, row)
}

/// Runs a book, and puts the report of what became of each order in each cell, as CSV: that of `warnc report --slots`,
/// or with `full` that of `warnc report --full --slots`.
///
/// The answer is that of [`warnc_compile`], with the report in place of the tapes.
#[unsafe(no_mangle)]
pub extern "C" fn warnc_report(
    alloc: Global,
    book: &[u8],
    slots: u16,
    full: bool,
    room: &mut [u8],
    written: &mut usize,
    row: &mut u32,
) -> u32
    ensures answer { AnswersRun (product.Report (layout_of full)) slots book.now result room.old room.new written.new
        row.new }
    ensures room_stays { result ≢ 0 → room.new ≡ room.old }
    ensures written_stays { result ≢ 0 → result ≢ 9 → written.new ≡ written.old }
    ensures row_stays { result ≢ 13 → row.new ≡ row.old }
{
    let made = Product::Report(layout_of(full));
    put_made(alloc, book, slots, made, room, written, row)
}

/// Runs a book, and puts the chart of its cells, a page in HTML in English: that of `warnc chart --slots`.
///
/// The answer is that of [`warnc_compile`], with the chart in place of the tapes.
#[unsafe(no_mangle)]
pub extern "C" fn warnc_chart(
    alloc: Global,
    book: &[u8],
    slots: u16,
    room: &mut [u8],
    written: &mut usize,
    row: &mut u32,
) -> u32
    ensures answer { AnswersRun (product.Chart english_chart) slots book.now result room.old room.new written.new
        row.new }
    ensures room_stays { result ≢ 0 → room.new ≡ room.old }
    ensures written_stays { result ≢ 0 → result ≢ 9 → written.new ≡ written.old }
    ensures row_stays { result ≢ 13 → row.new ≡ row.old }
{
    let made = Product::Chart(english_chart());
    put_made(alloc, book, slots, made, room, written, row)
}

/// How a report is laid out.
fn layout_of(full: bool) -> Layout
    ensures { result ≡ layout_of full }
{
    let columns = if full { Columns::Full } else { Columns::Plain };
    Layout {
        columns,
        start: None,
    }
}

/// The chart of all cells and the whole run.
fn english_chart() -> View
    ensures { result ≡ english_chart }
{
    View {
        cell: None,
        part: None,
        wording: Wording {
            language: Language::English,
            start: None,
        },
    }
}

/// Puts what is made of the run of a book.
fn put_made(
    alloc: Global,
    book: &[u8],
    slots: u16,
    made: Product,
    room: &mut [u8],
    written: &mut usize,
    row: &mut u32,
) -> u32
    ensures answer { AnswersRun made slots book.now result room.old room.new written.new row.new }
    ensures room_stays { result ≢ 0 → room.new ≡ room.old }
    ensures written_stays { result ≢ 0 → result ≢ 9 → written.new ≡ written.old }
    ensures row_stays { result ≢ 13 → row.new ≡ row.old }
{
    if slots == 0 {
        return status::SLOTS;
    }
    match product_alone(alloc, book, slots, made) {
        Ok(octets) => put(&octets, room, written),
        Err(fault) => number_of(fault, row),
    }
}

/// The number of a fault of a run. Out of memory has one number, wherever it comes.
pub fn number_of(fault: RunFault, row: &mut u32) -> u32
    ensures number { result ≡ number_of_run_fault fault }
    ensures row { result ≡ 13 → TellsRow fault row.new }
    ensures stays { result ≢ 13 → row.new ≡ row.old }
{
    match fault {
        RunFault::Book(fault) => number_of_book(fault, row),
        RunFault::Desk(DeskFault::Memory { .. }) => status::MEMORY,
        RunFault::Settle(SettleFault::Refused) => status::MEMORY,
        RunFault::Compile(_) | RunFault::Refused => status::MEMORY,
        RunFault::Desk(_) | RunFault::Settle(_) => status::ENDED,
        RunFault::NoGroup(_) | RunFault::Write(_) => status::ENDED,
    }
}

/// The number of a fault of a book, whose row is told. Octets in memory can be read, so memory alone can be lacking.
fn number_of_book(fault: BookFault, row: &mut u32) -> u32
    ensures number { result ≡ number_of_book_fault fault.kind }
    ensures row { result ≡ 13 → row.new ≡ fault.row }
    ensures stays { result ≢ 13 → row.new ≡ row.old }
{
    match fault.kind {
        BookFaultKind::ReadFailed | BookFaultKind::Refused => status::MEMORY,
        _ => {
            *row = fault.row;
            status::BOOK
        }
    }
}
