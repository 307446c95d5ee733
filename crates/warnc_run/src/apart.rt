//! The run of a book that one session serves, part by part: workers run some of its cells each, side by side.
//!
//! Cells don't depend on one another. So each worker has a desk of its own, at which a session of its cells' book
//! orders, and the records of all parts, one after the other, are those of a run of the whole book.

ghost use Rattle.std.specs.Prelude.{◌≡◌, ◌<◌, ℕ, length, vec_len, All, IfErr, IfOk, IfSome, is_some};
ghost use Rattle.std.specs.List.{flat_map};
ghost use Rattle.book_runs.specs.ServedParts.{IsServedPart};
ghost use Rattle.warnc_run.specs.ApartSteps.{records_in, served_with, AreSome, AreServedParts};
ghost use Rattle.warnc_run.specs.Faults.{IsOfBook};
ghost use Rattle.warnc_run.specs.RunSteps.{HaveRunLive, IsSomeBook};

use crate::alone::records_alone;
use crate::fault::RunFault;
use crate::run::{Sessions, Workers};
use crate::tapes::records_after;
use alert_book::Book;
use bsc_table::CellRecord;
use cbsp_wire::Cell;
use order_desk::Gate;
use std::alloc::{AllocGlobal, Global};
use std::sync::Wait;
use std::thread;
use std::thread::Threads;

/// The gate of a part of a book's cells: whoever holds one of them is at the gate of all.
#[derive(Clone, Copy)]
struct PartGate<'a, G: Gate> {
    gate: &'a G,
    /// The place of the part's first cell among all.
    first: usize,
}

impl<G: Gate> Gate for PartGate<'_, G> {
    fn inside(&self, place: u16) {
        let among_all = self.first.saturating_add(usize::from(place));
        self.gate
            .inside(among_all.min(usize::from(u16::MAX)) as u16);
    }
}

/// The records of some of a book's cells, to which a session of its own orders what the book orders of them; none if
/// there is no memory.
fn records_of_part<G: Gate>(
    alloc: Global,
    book: &Book,
    slots: u16,
    cells: &[Cell],
    gate: &G,
) -> Option<Vec<CellRecord>>
    requires { IsSomeBook book.now }
    ensures { IfSome result (λ records. IsServedPart book.now slots (served_with cells.now records.items)) }
{
    // The book of some cells is fit to be run at a desk, and so is a copy of it.
    book_runs::cells_law();
    book_runs::served_parts_law();
    let Ok(part) = book.part(alloc, cells) else {
        return None;
    };
    match records_alone(alloc, &part, slots, gate) {
        Ok(records) => Some(records),
        Err(_) => None,
    }
}

/// How many cells a part has, where this many workers share so many.
fn size_of_parts(cells: usize, workers: Workers) -> usize
    ensures { 0 < result }
{
    cells.div_ceil(workers.number as usize).max(1)
}

/// The records of each part of a book's cells, of which a worker runs one.
fn records_of_parts<T: AllocGlobal + Threads + Wait + Sync, G: Gate>(
    rt: &T,
    book: &Book,
    slots: u16,
    size: usize,
    gate: &G,
) -> Option<Vec<Option<Vec<CellRecord>>>>
    requires book { IsSomeBook book.now }
    requires size { 0 < size }
    ensures { IfSome result (λ parts. AreServedParts book.now slots size parts.items) }
{
    let made = thread::map_chunks(
        rt,
        rt.alloc(),
        book.cells(),
        size,
        &|first: usize, cells: &[Cell]| -> Option<Vec<CellRecord>>
            requires { IsSomeBook book.now }
            ensures { IfSome result (λ records.
                IsServedPart book.entry.now slots (served_with cells.entry.now records.items)) }
        { records_of_part(rt.alloc(), book, slots, cells, &PartGate { gate, first }) },
    );
    match made {
        Ok(parts) => Some(parts),
        Err(_) => None,
    }
}

/// The records of all parts, one after the other; none if a part has none, or there is no memory.
fn joined(alloc: Global, parts: Vec<Option<Vec<CellRecord>>>) -> Option<Vec<CellRecord>>
    ensures { IfSome result (λ records. AreSome parts.items × (records.items ≡ flat_map records_in parts.items)) }
{
    let mut all = Vec::new(alloc);
    for part in parts {
        let mut records = part?;
        match all.append(&mut records) {
            Ok(()) => {}
            Err(_) => return None,
        }
    }
    Some(all)
}

/// The records of a book's cells, which workers run side by side; none if there is no memory.
fn records_apart<T: AllocGlobal + Threads + Wait + Sync, G: Gate>(
    rt: &T,
    book: &Book,
    slots: u16,
    workers: Workers,
    gate: &G,
) -> Option<Vec<CellRecord>>
    requires { IsSomeBook book.now }
    ensures { IfSome result (λ records. HaveRunLive book.now slots 1 records.items) }
{
    book_runs::served_parts_law();
    let size = size_of_parts(book.cells().len(), workers);
    let parts = records_of_parts(rt, book, slots, size, gate)?;
    joined(rt.alloc(), parts)
}

/// The records of a book's cells after the sessions of its parts. Several workers run those of one session apart from
/// one another. Where there is no memory for that the book is run again as a whole.
pub(crate) fn records_of_run<T: AllocGlobal + Threads + Wait + Sync, G: Gate>(
    rt: &T,
    book: &Book,
    slots: u16,
    sessions: Sessions,
    workers: Workers,
    gate: &G,
) -> Result<Vec<CellRecord>, RunFault>
    requires book { IsSomeBook book.now }
    ensures ok { IfOk result (λ records. HaveRunLive book.now slots sessions.number records.items) }
    ensures err { IfErr result (IsOfBook book.now slots sessions.number) }
{
    book_runs::served_parts_law();
    if sessions.number == 1
        && workers.number > 1
        && let Some(records) = records_apart(rt, book, slots, workers, gate)
    {
        return Ok(records);
    }
    records_after(rt, book, slots, sessions, workers, gate)
}
