//! The book that a run is of.

ghost use Rattle.std.specs.Prelude.{◌≡◌, ◌↔◌, false, true, IfErr, IfOk, IsErrOf, IsTrue, OnOk};
ghost use Rattle.device_ends.specs.Source.{reader_of, source_failed};
ghost use Rattle.alert_book.specs.Book.{unread};
ghost use Rattle.alert_book.specs.Origin.{ReadsFrom};
ghost use Rattle.warnc_run.specs.RunSteps.{HasNoBookToRun};
ghost use Rattle.warnc_run.specs.declared.fault.RunFault.TheVariants as faults;

use crate::fault::RunFault;
use alert_book::{Book, GroupFault, Origin, read_book_from};
use device_ends::Source;
use std::alloc::AllocGlobal;
use std::io::Read;
use std::thread::Threads;

/// Reads the book to its end, or a network book and in it the book of a group.
///
/// # Errors
///
/// Returns the book's fault, or [`RunFault::NoGroup`].
pub(crate) fn book_from<T: AllocGlobal + Threads + Sync, R: Read>(
    rt: &T,
    source: &mut Source<R>,
    origin: Origin,
) -> Result<Book, RunFault>
    ensures ok { IfOk result (λ book. ReadsFrom origin (R.remaining (reader_of source.old))
        (R.remaining (reader_of source.new)) book) }
    ensures err { IfErr result (HasNoBookToRun origin (R.remaining (reader_of source.old))
        (R.remaining (reader_of source.new))) }
    ensures device { IsErrOf result (faults.Book unread) ↔ IsTrue (source_failed source.new) }
    ensures not_failed { OnOk result (source_failed source.new ≡ false) }
    ensures failed_stays { source_failed source.old ≡ true → source.new ≡ source.old }
{
    match read_book_from(rt, source, origin) {
        Ok(book) => Ok(book),
        Err(GroupFault::Network(fault)) => Err(RunFault::Book(fault)),
        Err(GroupFault::NoGroup(groups)) => Err(RunFault::NoGroup(groups)),
    }
}
