//! From a book to the tapes and to the records of its cells.

ghost use Rattle.std.specs.Prelude.{◌≡◌, ℕ, List, IfErr, IfOk, map};
ghost use Rattle.cbch_blocks.specs.RecordBlocks.{tape_of_record};
ghost use Rattle.book_runs.specs.Fit.{IsFit};
ghost use Rattle.warnc_run.specs.Faults.{IsOfBook};
ghost use Rattle.warnc_run.specs.RunSteps.{AreTapesOf, HaveRunLive, IsOfTapes, IsSomeBook};

use crate::alone::records_alone;
use crate::fault::RunFault;
use crate::run::{Sessions, Workers};
use crate::sessions::run_sessions;
use crate::settled::settled_records;
use crate::workers::play_out;
use alert_book::Book;
use bsc_table::CellRecord;
use cbch_blocks::{Tape, tape_of};
use order_desk::{Desk, Gate, Open};
use parallel_compile::{check_streamed, stream_all};
use std::alloc::{AllocError, AllocGlobal, Global};
use std::sync::Wait;
use std::thread::Threads;

/// The records of a book's cells after the sessions of its parts, played out by workers. One session and one worker
/// are run in the calling thread.
pub(crate) fn records_after<T: AllocGlobal + Threads + Wait + Sync, G: Gate>(
    rt: &T,
    book: &Book,
    slots: u16,
    sessions: Sessions,
    workers: Workers,
    gate: &G,
) -> Result<Vec<CellRecord>, RunFault>
    requires book { IsFit book.now }
    ensures ok { IfOk result (λ records. HaveRunLive book.now slots sessions.number records.items) }
    ensures err { IfErr result (IsOfBook book.now slots sessions.number) }
{
    if sessions.number == 1 && workers.number == 1 {
        return Ok(records_alone(rt.alloc(), book, slots, gate)?);
    }
    let desk = Desk::open(rt.alloc(), book.cells(), slots)?;
    let mut passes = run_sessions(rt, book, &desk, sessions, gate)?;
    let mut played = play_out(rt, &desk, workers, gate)?;
    passes.append(&mut played)?;
    settled_records(rt.alloc(), book, desk, sessions, &passes)
}

/// The tapes of records, in their order. A record is dropped once its tape is made, so that the log of one cell alone
/// stands beside the tapes at their end. The only error is out of memory.
fn tapes_of(alloc: Global, records: Vec<CellRecord>) -> Result<Vec<Tape>, AllocError>
    ensures { IfOk result (λ tapes. tapes.items ≡ map tape_of_record records.items) }
{
    let mut tapes = Vec::with_capacity(alloc, records.len())?;
    for record in records {
        tapes.push(tape_of(alloc, &record)?)?;
    }
    Ok(tapes)
}

/// The tapes of a book's cells after the sessions of its parts, by one worker. It has nobody to hand pages to while the
/// desk is open, so the tapes are made of the settled records, each once, and there is nothing to compare.
pub(crate) fn tapes_by_one<T: AllocGlobal + Threads + Wait + Sync>(
    rt: &T,
    book: Book,
    slots: u16,
    sessions: Sessions,
) -> Result<Vec<Tape>, RunFault>
    requires book { IsSomeBook book }
    ensures ok { IfOk result (λ tapes. AreTapesOf book slots sessions.number tapes.items) }
    ensures err { IfErr result (IsOfBook book slots sessions.number) }
{
    book_runs::served_parts_law();
    let records = records_after(rt, &book, slots, sessions, Workers { number: 1 }, &Open)?;
    // what the book holds is free for the tapes
    drop(book);
    Ok(tapes_of(rt.alloc(), records)?)
}

/// The tapes of a book's cells after the sessions of its parts, by several workers: they play the cells and hand on
/// their pages while the desk is open, and the tapes that these make are compared with the records of the settled desk.
pub(crate) fn tapes_by_several<T: AllocGlobal + Threads + Wait + Sync, G: Gate>(
    rt: &T,
    book: &Book,
    slots: u16,
    sessions: Sessions,
    workers: Workers,
    gate: &G,
) -> Result<Vec<Tape>, RunFault>
    requires book { IsSomeBook book.now }
    ensures ok { IfOk result (λ tapes. AreTapesOf book.now slots sessions.number tapes.items) }
    ensures err { IfErr result (IsOfTapes book.now slots sessions.number) }
{
    // A book that was read has no cell twice.
    book_runs::served_parts_law();
    let desk = Desk::open(rt.alloc(), book.cells(), slots)?;
    let mut passes = run_sessions(rt, book, &desk, sessions, gate)?;
    let (tapes, mut played) = stream_all(rt, rt.alloc(), &desk, workers.number, gate)?;
    passes.append(&mut played)?;
    let records = settled_records(rt.alloc(), book, desk, sessions, &passes)?;
    check_streamed(&tapes, &records)?;
    Ok(tapes)
}
