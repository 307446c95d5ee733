//! A book and tapes to what the tapes have otherwise.

ghost use Rattle.std.specs.Prelude.{◌≡◌, ◌≢◌, ℕ, length};
ghost use Rattle.warnc_c.specs.Calls.{wanted_pages, Puts};
ghost use Rattle.warnc_c.specs.Verdicts.{plain_layout, verdict_of, AnswersVerdict};

use crate::output::put;
use crate::{runs, status, tapes};
use std::alloc::Global;
use verification::{Detail, Table, TableLayout};
use warnc_verify::{VerifyFault, verify_octets};

/// Runs a book for 1 to 65,535 slots, reads 0 to 64 tapes, and puts the table of what the tapes have otherwise than the
/// cells of the book were asked, as CSV: `lac,ci,id,serial,slot,difference`, and a row for each difference, as
/// `warnc verify --book --slots` writes it. With short pages those of one to three blocks are read, too
/// (3GPP TS 44.012, 3.3).
///
/// The answer is [`status::OK`] if nothing differs, and [`status::DIFFERENCES`] if something does, each with the table
/// at the front of the room and `written` octets of it; [`status::ROOM`] if the room is smaller than the table, which
/// has `written` octets; [`status::SLOTS`]; [`status::BOOK`], with the row that has the fault, from 1, or 0 if the book
/// is too long; [`status::SHORT`] and [`status::LONG`], of the tapes; [`status::MEMORY`].
#[unsafe(no_mangle)]
pub extern "C" fn warnc_verify(
    alloc: Global,
    book: &[u8],
    slots: u16,
    tapes: &[u8],
    short_pages: bool,
    room: &mut [u8],
    written: &mut usize,
    row: &mut u32,
) -> u32
    ensures answer { AnswersVerdict (wanted_pages short_pages) slots book.now tapes.now result room.old room.new
        written.new row.new }
    ensures room_stays { result ≢ 0 → result ≢ 16 → room.new ≡ room.old }
    ensures written_stays { result ≢ 0 → result ≢ 16 → result ≢ 9 → written.new ≡ written.old }
    ensures row_stays { result ≢ 13 → row.new ≡ row.old }
{
    if slots == 0 {
        return status::SLOTS;
    }
    let pages = tapes::wanted_pages(short_pages);
    match verify_octets(alloc, book, tapes, slots, pages, plain_layout()) {
        Ok(table) => put_table(&table, room, written),
        Err(VerifyFault::Run(fault)) => runs::number_of(fault, row),
        Err(VerifyFault::Tapes(fault)) => tapes::number_of(fault),
        // A table of octets isn't written, and rows are no fault of it.
        Err(_) => status::MEMORY,
    }
}

/// How the table is laid out: without what was expected and what came, and without times.
fn plain_layout() -> TableLayout
    ensures { result ≡ plain_layout }
{
    TableLayout {
        detail: Detail::Plain,
        start: None,
    }
}

/// Puts a table, and says whether it has rows.
fn put_table(table: &Table, room: &mut [u8], written: &mut usize) -> u32
    ensures written { written.new ≡ length table.now.text.items }
    ensures put { (number : ℕ) × Puts table.now.text.items number room.old room.new
        × (result ≡ verdict_of (length table.now.rows.items) number) }
{
    let number = put(&table.text, room, written);
    if number == status::OK && !table.rows.is_empty() {
        return status::DIFFERENCES;
    }
    number
}
