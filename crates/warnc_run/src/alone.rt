//! The run of a book that one session serves, in the calling thread: no lock is taken, and no thread is made.

ghost use Rattle.std.specs.Prelude.{IfOk};
ghost use Rattle.book_runs.specs.Fit.{IsFit};
ghost use Rattle.warnc_run.specs.RunSteps.{HaveRunLive};

use alert_book::Book;
use bsc_table::CellRecord;
use order_desk::Gate;
use session_check::run_alone;
use std::alloc::{AllocError, Global};

/// The records of a book's cells after its one session, played out. The only error is out of memory.
//
// It stays a function of its own, so that its stack is free while a book is read.
#[inline(never)]
pub(crate) fn records_alone<G: Gate>(
    alloc: Global,
    book: &Book,
    slots: u16,
    gate: &G,
) -> Result<Vec<CellRecord>, AllocError>
    requires book { IsFit book.now }
    ensures { IfOk result (λ records. HaveRunLive book.now slots 1 records.items) }
{
    let records = run_alone(alloc, book, slots, gate)?;
    Ok(records)
}
