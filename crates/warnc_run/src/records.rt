//! A book of alerts, or that of a network's group, to the records of its cells.

ghost use Rattle.std.specs.Prelude.{◌≡◌, ◌↔◌, ◌<◌, length, true, IfErr, IfOk, IsErrOf, IsTrue};
ghost use Rattle.device_ends.specs.Source.{source_failed};
ghost use Rattle.alert_book.specs.Book.{unread};
ghost use Rattle.alert_book.specs.Network.{groups_of};
ghost use Rattle.warnc_run.specs.Faults.{IsOfBook};
ghost use Rattle.warnc_run.specs.NetworkSteps.{IsRead};
ghost use Rattle.warnc_run.specs.Records.{HasBookAndRecords, HasNoRecords, HasNoRunOfGroup, HasRecords, IsRunOfGroup};
ghost use Rattle.warnc_run.specs.RunSteps.{HaveRunLive, IsSomeBook};
ghost use Rattle.warnc_run.specs.declared.fault.RunFault.TheVariants as faults;

use crate::apart::records_of_run;
use crate::book::book_from;
use crate::fault::RunFault;
use crate::run::{Sessions, Workers};
use alert_book::{Book, Network, Origin};
use bsc_table::CellRecord;
use device_ends::Source;
use order_desk::Open;
use std::alloc::AllocGlobal;
use std::io::Read;
use std::sync::Wait;
use std::thread::Threads;

/// A book, and the records of the cells of its run.
#[derive(Drop)]
pub struct RanBook {
    /// The book, or that of a network's group.
    pub book: Book,
    /// The records of its cells, in the order of the book.
    pub records: Vec<CellRecord>,
}

/// Reads a book, or a network book for a group, and runs it, as [`run_book`] does; returns the book with the records.
///
/// # Errors
///
/// Those of [`run_book`].
pub fn run_with_book<T: AllocGlobal + Threads + Wait + Sync, R: Read>(
    rt: &T,
    source: &mut Source<R>,
    origin: Origin,
    slots: u16,
    workers: Workers,
) -> Result<RanBook, RunFault>
    ensures ok { IfOk result (λ ran. HasBookAndRecords R.remaining origin slots source.old source.new ran.book
        ran.records.items) }
    ensures err { IfErr result (HasNoRecords R.remaining origin slots source.old source.new) }

    // The device, at any reader.
    ensures device { IsErrOf result (faults.Book unread) ↔ IsTrue (source_failed source.new) }
    ensures failed_stays { source_failed source.old ≡ true → source.new ≡ source.old }
{
    // A handset is shown what the book means, whatever the cells answered, and each cell keeps the guarantee.
    book_runs::session_laws();
    bsc_table::legal_histories();
    let book = book_from(rt, source, origin)?;
    run_alone(rt, book, slots, workers)
}

/// Runs the book of a group of a network that was read, as [`run_book`] does; returns the book with the records. The
/// groups are numbered from 0.
///
/// # Errors
///
/// [`RunFault::Refused`] if out of memory, or another fault of the run. None is known that comes.
pub fn run_group<T: AllocGlobal + Threads + Wait + Sync>(
    rt: &T,
    network: &Network,
    group: u16,
    slots: u16,
    workers: Workers,
) -> Result<RanBook, RunFault>
    requires there { group < groups_of (length network.now.cells) }
    requires read { IsRead network.now }
    ensures ok { IfOk result (λ ran. IsRunOfGroup network.now group slots ran.book ran.records.items) }
    ensures err { IfErr result (HasNoRunOfGroup network.now group slots) }
{
    book_runs::session_laws();
    bsc_table::legal_histories();
    let book = network.group(rt.alloc(), group)?;
    run_alone(rt, book, slots, workers)
}

/// A book with the records of its run with one session.
fn run_alone<T: AllocGlobal + Threads + Wait + Sync>(
    rt: &T,
    book: Book,
    slots: u16,
    workers: Workers,
) -> Result<RanBook, RunFault>
    requires book { IsSomeBook book }
    ensures ok { IfOk result (λ ran. (ran.book ≡ book) × HaveRunLive book slots 1 ran.records.items) }
    ensures err { IfErr result (IsOfBook book slots 1) }
{
    let records = records_of_run(rt, &book, slots, Sessions { number: 1 }, workers, &Open)?;
    Ok(RanBook { book, records })
}

/// Reads a book, or a network book for a group, has the cells of a desk carry out what the book's one session orders,
/// in runs of `slots` slots, as [`compile_stream`](crate::compile_stream) does, and returns the records of the cells,
/// in the order of the book. The records don't depend on the number of workers, which play the cells.
///
/// # Errors
///
/// Returns the faults of [`compile_stream`](crate::compile_stream) but [`RunFault::Write`] and those of `Compile` with
/// `Workers` and `Piece`, and [`RunFault::NoGroup`].
pub fn run_book<T: AllocGlobal + Threads + Wait + Sync, R: Read>(
    rt: &T,
    source: &mut Source<R>,
    origin: Origin,
    slots: u16,
    workers: Workers,
) -> Result<Vec<CellRecord>, RunFault>
    ensures ok { IfOk result (λ records. HasRecords R.remaining origin slots source.old source.new records.items) }
    ensures err { IfErr result (HasNoRecords R.remaining origin slots source.old source.new) }

    // The device, at any reader.
    ensures device { IsErrOf result (faults.Book unread) ↔ IsTrue (source_failed source.new) }
    ensures failed_stays { source_failed source.old ≡ true → source.new ≡ source.old }
{
    let RanBook { records, .. } = run_with_book(rt, source, origin, slots, workers)?;
    Ok(records)
}
