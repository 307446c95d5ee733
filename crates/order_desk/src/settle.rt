//! Settling: what the passes noted, beside what the cells hold.

ghost use Rattle.std.specs.Prelude.{◌≡◌, ◌≢◌, ⊤, List, [], true, None, length, All};
ghost use Rattle.std.specs.Prelude.{IfOk, IfErr, IfSome, IsOk, IsTrue, ◌↔◌};
ghost use Rattle.std.specs.List.{AllZip};
ghost use Rattle.cbsp_wire.specs.Range.{cells_are_valid};
ghost use Rattle.order_desk.specs.declared.note.Note.{Note};
ghost use Rattle.order_desk.specs.declared.settle.SettleFault.TheVariants as faults;
ghost use Rattle.order_desk.specs.Agreement.{Agrees};
ghost use Rattle.order_desk.specs.Settled.{IsBookOf, IsFault, IsFirstWrong, IsPlayedOut, IsSettled, ClosedDesk};
ghost use Rattle.order_desk.specs.SettleSteps.{AreNoted, HasNoted, IsFirstJudged, IsStrangeBy};

use crate::closed::Closed;
use crate::note::Pass;
use crate::settle::cell_notes::CellNotes;
use crate::settle::notes_by_cell::notes_of_cells;
use crate::settle::numbers::first_strange;
use crate::settle::slots::first_overlap;
use bsc_table::{CellBook, CellRecord};
use cbsp_wire::Cell;
use std::alloc::{AllocError, AllocFailed, Global};
use thiserror::Error;

pub(crate) mod cell_notes;
pub(crate) mod counts;
pub(crate) mod notes_by_cell;
pub(crate) mod numbers;
pub(crate) mod slots;

/// How many entries a log has room for (own). A note without a number is told by it.
pub(crate) const MAX_ENTRIES: u16 = 4096;

/// Why a desk isn't settled.
#[derive(Clone, Copy, Debug, PartialEq, Eq, Error)]
pub enum SettleFault {
    /// A noted entry isn't in the cell's log at its number or is noted twice, an entry of the log is noted by nobody, a
    /// log that was noted as full has fewer than 4,096 entries, or the cell isn't of the desk.
    #[error("settlement failed")]
    Strange {
        /// The cell.
        cell: Cell,
        /// The least such number; 4,096 for a note without one.
        number: u16,
    },
    /// A slot is noted twice as played, is noted though it wasn't played, or was played and is noted by nobody.
    #[error("settlement failed")]
    Overlap {
        /// The cell.
        cell: Cell,
        /// The least such slot.
        slot: u16,
    },
    /// The notes of a pass aren't those of its session.
    #[error("settlement failed")]
    Session {
        /// The session's part of the book.
        part: u16,
    },
    /// Out of memory.
    #[error("out of memory")]
    Refused,
}

impl From<AllocError> for SettleFault {
    ghost from_gives = { λ _ fault. fault ≡ faults.Refused };

    fn from(_error: AllocError) -> SettleFault {
        SettleFault::Refused
    }
}

impl<T: Drop> From<AllocFailed<T>> for SettleFault {
    ghost from_gives = { λ _ fault. fault ≡ faults.Refused };

    fn from(_error: AllocFailed<T>) -> SettleFault {
        SettleFault::Refused
    }
}

/// Compares what was noted of a cell with its book.
fn judge(alloc: Global, book: &CellBook, notes: &CellNotes) -> Result<(), SettleFault>
    requires { length notes.now.times_noted.items ≡ length book.now.log }
    ensures ok { IsOk result → (passes : List (List Note)) → HasNoted book.now passes [] notes.now
        → Agrees passes book.now }
    ensures err { IfErr result (λ fault. fault ≢ faults.Refused
        → (passes : List (List Note)) → HasNoted book.now passes [] notes.now → IsStrangeBy passes book.now fault) }
{
    let cell = book.cell();
    let clock = book.clock();
    if let Some(number) = first_strange(book.log().len(), notes) {
        return Err(SettleFault::Strange { cell, number });
    }
    match first_overlap(alloc, clock, notes)? {
        Some(slot) => Err(SettleFault::Overlap { cell, slot }),
        None => Ok(()),
    }
}

/// Whether a book is a cell's, for a run of this many slots.
fn is_book_of(slots: u16, cell: Cell, book: &CellBook) -> bool
    ensures { IsTrue result ↔ IsBookOf slots cell book.now }
{
    book.cell() == cell && book.slots() == slots
}

/// The cell of the first book that isn't its own, or isn't of a run of this many slots.
fn first_wrong(cells: &[Cell], slots: u16, books: &[CellBook]) -> Option<Cell>
    requires { length cells.now ≡ length books.now }
    ensures none { result ≡ None → AllZip (IsBookOf slots) cells.now books.now }
    ensures some { IfSome result (IsFirstWrong (record { cells = cells.now; slots = slots; books = books.now })) }
{
    for place in 0..books.len() {
        if !is_book_of(slots, cells[place], &books[place]) {
            return Some(cells[place]);
        }
    }
    None
}

/// The record of a cell whose run is played to its end.
fn played_out(mut book: CellBook) -> CellRecord
    ensures { IsPlayedOut book result }
{
    let left = book.slots() - book.clock();
    let _ = book.play(left);
    book.finish()
}

/// The records of runs that are played to their ends.
fn records_of(alloc: Global, books: Vec<CellBook>) -> Result<Vec<CellRecord>, SettleFault>
    ensures ok { IfOk result (λ records. AllZip IsPlayedOut books.items records.items) }
    ensures err { IfErr result (λ fault. fault ≡ faults.Refused) }
{
    let mut records = Vec::with_capacity(alloc, books.len())?;
    for book in books {
        records.push(played_out(book))?;
    }
    Ok(records)
}

/// Compares what was noted of each cell with its book, in order.
fn judge_all(alloc: Global, books: &[CellBook], noted: &[CellNotes]) -> Result<(), SettleFault>
    requires { (passes : List (List Note)) × AreNoted books.now passes [] noted.now }
    ensures ok { IsOk result → (passes : List (List Note)) → AreNoted books.now passes [] noted.now
        → All (Agrees passes) books.now }
    ensures err { IfErr result (λ fault. fault ≢ faults.Refused
        → (passes : List (List Note)) → AreNoted books.now passes [] noted.now
        → IsFirstJudged passes books.now fault) }
{
    for place in 0..books.len() {
        judge(alloc, &books[place], &noted[place])?;
    }
    Ok(())
}

impl Closed {
    /// Compares what the passes noted with what the cells hold, plays each run to its end, and returns the records in
    /// the order of the cells. The passes are those of all who worked at the desk.
    ///
    /// The cells have to be at most 64, none twice, and as many as the books: as `Desk::close` hands them over.
    ///
    /// # Errors
    ///
    /// Returns the first disagreement: before all a note of no cell of the desk, then a book that isn't that of its
    /// place, then, cell by cell, [`SettleFault::Strange`] and after it [`SettleFault::Overlap`].
    /// [`SettleFault::Refused`] may come at any point. The books are gone then.
    pub fn settle(self, alloc: Global, passes: &[Pass]) -> Result<Vec<CellRecord>, SettleFault>
        requires valid { cells_are_valid self.cells ≡ true }
        requires places { length self.cells ≡ length self.books }
        ensures ok { IfOk result (λ records. IsSettled self passes.now records.items) }
        ensures err { IfErr result (IsFault self passes.now) }
    {
        let Closed {
            cells,
            slots,
            books,
        } = self;
        let noted = notes_of_cells(alloc, &cells, &books, passes)?;
        if let Some(cell) = first_wrong(&cells, slots, &books) {
            let number = MAX_ENTRIES;
            return Err(SettleFault::Strange { cell, number });
        }
        judge_all(alloc, &books, &noted)?;
        records_of(alloc, books)
    }
}
