//! The end of a run at a desk: its settlement with the passes of the sessions.

ghost use Rattle.std.specs.Prelude.{◌≡◌, ◌≤◌, length, IfErr, IfOk};
ghost use Rattle.book_runs.specs.Fit.{IsFit};
ghost use Rattle.warnc_run.specs.Faults.{IsOfBook};
ghost use Rattle.warnc_run.specs.RunSteps.{HaveRunLive};

use crate::fault::RunFault;
use crate::run::Sessions;
use alert_book::Book;
use bsc_table::CellRecord;
use order_desk::{Desk, Pass};
use session_check::check_sessions;
use std::alloc::Global;

/// Closes a desk at which the sessions of a book's parts were served, compares what their passes noted with what the
/// cells hold and with what the sessions ask, and returns the records of the runs, played out, in the order of the
/// book's cells. The pass of part p stands at place p.
///
/// # Errors
///
/// Returns the settlement's fault, or `Refused` if out of memory.
pub(crate) fn settled_records(
    alloc: Global,
    book: &Book,
    desk: Desk,
    sessions: Sessions,
    passes: &[Pass],
) -> Result<Vec<CellRecord>, RunFault>
    requires book { IsFit book.now }
    requires cells { desk.cells ≡ book.now.cells }
    requires passes { sessions.number ≤ length passes.now }
    ensures ok { IfOk result (λ records. HaveRunLive book.now desk.slots sessions.number records.items) }
    ensures err { IfErr result (IsOfBook book.now desk.slots sessions.number) }
{
    // What the passes noted is what each cell holds, so the cells hold what the sessions asked.
    book_runs::cells_law();
    let closed = desk.close()?;
    let records = closed.settle(alloc, passes)?;
    check_sessions(alloc, book, sessions.number, &records, passes)?;
    Ok(records)
}
