//! The sessions of a book, each with the pass of its part.

ghost use Rattle.std.specs.Prelude.{◌≡◌, ◌≢◌, ◌↔◌, ◌<◌, ◌≤◌, length, All, IfErr, IfOk, IsOk, IsTrue, slice_index_or};
ghost use Rattle.std.specs.Prelude.{true};
ghost use Rattle.order_desk.specs.declared.settle.SettleFault.TheVariants as faults;
ghost use Rattle.book_runs.specs.Sessions.{AreSessions, IsRightPass};
ghost use Rattle.cbsp_wire.specs.CellLists.{AreDistinct};
ghost use Rattle.session_check.specs.Checked.{HasRightNumbers, IsFirstWrongPass};
ghost use Rattle.session_check.specs.NotedSteps.{record_cells};

use crate::notes::has_no_commands;
use crate::session::is_pass_of_session;
use alert_book::Book;
use bsc_table::CellRecord;
use cbsp_wire::cells::are_distinct;
use order_desk::{Pass, SettleFault};
use std::alloc::{AllocError as Refused, Global};

/// Whether the pass of a place is right: that of the session of this part, or, after the parts, one without notes of
/// commands.
fn is_right_pass(
    alloc: Global,
    book: &Book,
    parts: u16,
    records: &[CellRecord],
    is_distinct: bool,
    passes: &[Pass],
    place: usize,
) -> Result<bool, Refused>
    requires distinct { is_distinct ≡ true → AreDistinct (record_cells records.now) }
    requires within { place < length passes.now }
    requires cells { record_cells records.now ≡ book.now.cells }
    requires agree { All (HasRightNumbers passes.now) records.now }
    ensures { IfOk result (λ right. IsTrue right ↔ IsRightPass book.now parts records.now passes.now place) }
{
    let notes = passes[place].notes();
    if place < usize::from(parts) {
        return is_pass_of_session(
            alloc,
            book,
            place as u16,
            parts,
            records,
            is_distinct,
            notes,
        );
    }
    Ok(has_no_commands(notes))
}

/// Checks that passes are those of a book's sessions, against the records of the run that they worked at. The book was
/// served in `parts` parts, and the pass of place i is that of the session of part i. Right is a pass that notes, of
/// commands, what the session asks of the cells by the answers that it notes, in order, each entry at its slot, and
/// nothing else. Those after the parts note no commands.
///
/// The records are those of the book's cells, in their order, and agree with the passes, as those of a desk's
/// settlement (`Closed::settle`) do. There are at least as many passes as parts.
///
/// # Errors
///
/// - [`SettleFault::Session`] with the least part whose pass isn't right, `parts` for a pass after them.
/// - [`SettleFault::Refused`], at any point, if out of memory.
pub fn check_sessions(
    alloc: Global,
    book: &Book,
    parts: u16,
    records: &[CellRecord],
    passes: &[Pass],
) -> Result<(), SettleFault>
    requires passes { parts ≤ length passes.now }
    requires cells { record_cells records.now ≡ book.now.cells }
    requires agree { All (HasRightNumbers passes.now) records.now }
    ensures ok { IsOk result → AreSessions book.now parts records.now passes.now }
    ensures err { IfErr result (λ fault. fault ≢ faults.Refused
        → IsFirstWrongPass book.now parts records.now passes.now fault) }
{
    let is_distinct = are_distinct(book.cells());
    for place in 0..passes.len() {
        match is_right_pass(alloc, book, parts, records, is_distinct, passes, place) {
            Ok(true) => {}
            Ok(false) => {
                let part = place.min(usize::from(parts)) as u16;
                return Err(SettleFault::Session { part });
            }
            Err(Refused) => return Err(SettleFault::Refused),
        }
    }
    Ok(())
}
