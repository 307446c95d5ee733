//! The run of a book whose tapes are written.

ghost use Rattle.std.specs.Prelude.{◌≡◌, false, true, IfErr, OnOk};
ghost use Rattle.device_ends.specs.Sink.{sink_failed, writer_of};
ghost use Rattle.warnc_run.specs.Faults.{IsPieceFault, IsWriteFault};
ghost use Rattle.warnc_run.specs.RunSteps.{HasWritten, IsSomeBook, StopsAtTape};

use crate::apart::records_of_run;
use crate::fault::RunFault;
use crate::finish::{write_tapes, write_tapes_of};
use crate::run::{Sessions, Workers};
use crate::tapes::tapes_by_several;
use crate::watch::{Watch, tell};
use alert_book::Book;
use device_ends::Sink;
use std::alloc::AllocGlobal;
use std::io::Write;
use std::sync::Wait;
use std::thread::Threads;

/// Runs the sessions of a book's parts, and writes the tapes of its cells. They are made of the settled records, each
/// once, so there is nothing to compare, and they are made as they are written, a piece at a time: it alone is held,
/// and its memory is taken before the first octet is written.
fn write_by_records<T: AllocGlobal + Threads + Wait + Sync, W: Write, G: Watch>(
    rt: &T,
    book: Book,
    sink: &mut Sink<W>,
    slots: u16,
    sessions: Sessions,
    workers: Workers,
    watch: &G,
) -> Result<(), RunFault>
    requires book { IsSomeBook book }
    ensures ok { OnOk result (HasWritten book slots sessions.number (W.contents (writer_of sink.old))
        (W.contents (writer_of sink.new))) }
    ensures err { IfErr result (StopsAtTape book slots sessions.number (W.contents (writer_of sink.old))
        (W.contents (writer_of sink.new))) }
    ensures no_piece { IfErr result (λ fault. IsPieceFault fault → ⊥) }
    ensures not_failed { OnOk result (sink_failed sink.new ≡ false) }
    ensures untouched { IfErr result (λ fault. (IsWriteFault fault → ⊥) → sink.new ≡ sink.old) }
    ensures write { IfErr result (λ fault. IsWriteFault fault → sink_failed sink.new ≡ true) }
    ensures stays { sink_failed sink.old ≡ true → sink.new ≡ sink.old }
{
    // The tapes of a run have one size.
    book_runs::session_laws();
    let records = records_of_run(rt, &book, slots, sessions, workers, watch)?;
    drop(book);
    write_tapes_of(rt.alloc(), &records, sink, watch)
}

/// Writes the tapes of several sessions with several workers. All tapes are made before the first octet is written.
fn write_by_several<T: AllocGlobal + Threads + Wait + Sync, W: Write, G: Watch>(
    rt: &T,
    book: &Book,
    sink: &mut Sink<W>,
    slots: u16,
    sessions: Sessions,
    workers: Workers,
    watch: &G,
) -> Result<(), RunFault>
    requires book { IsSomeBook book.now }
    ensures ok { OnOk result (HasWritten book.now slots sessions.number (W.contents (writer_of sink.old))
        (W.contents (writer_of sink.new))) }
    ensures err { IfErr result (StopsAtTape book.now slots sessions.number (W.contents (writer_of sink.old))
        (W.contents (writer_of sink.new))) }
    ensures not_failed { OnOk result (sink_failed sink.new ≡ false) }
    ensures untouched { IfErr result (λ fault. (IsWriteFault fault → ⊥) → sink.new ≡ sink.old) }
    ensures write { IfErr result (λ fault. IsWriteFault fault → sink_failed sink.new ≡ true) }
    ensures stays { sink_failed sink.old ≡ true → sink.new ≡ sink.old }
{
    let tapes = tapes_by_several(rt, book, slots, sessions, workers, watch)?;
    tell(watch, tapes.len());
    match write_tapes(&tapes, sink) {
        Ok(()) => Ok(()),
        Err(fault) => Err(RunFault::Write(fault)),
    }
}

/// Runs the sessions of a book's parts, and writes the tapes of its cells. Nothing is written before the desk is
/// settled.
pub(crate) fn write_run<T: AllocGlobal + Threads + Wait + Sync, W: Write, G: Watch>(
    rt: &T,
    book: Book,
    sink: &mut Sink<W>,
    slots: u16,
    sessions: Sessions,
    workers: Workers,
    watch: &G,
) -> Result<(), RunFault>
    requires book { IsSomeBook book }
    ensures ok { OnOk result (HasWritten book slots sessions.number (W.contents (writer_of sink.old))
        (W.contents (writer_of sink.new))) }
    ensures err { IfErr result (StopsAtTape book slots sessions.number (W.contents (writer_of sink.old))
        (W.contents (writer_of sink.new))) }
    ensures no_piece { workers.number ≡ 1 → IfErr result (λ fault. IsPieceFault fault → ⊥) }
    ensures not_failed { OnOk result (sink_failed sink.new ≡ false) }
    ensures untouched { IfErr result (λ fault. (IsWriteFault fault → ⊥) → sink.new ≡ sink.old) }
    ensures write { IfErr result (λ fault. IsWriteFault fault → sink_failed sink.new ≡ true) }
    ensures stays { sink_failed sink.old ≡ true → sink.new ≡ sink.old }
{
    if workers.number == 1 || sessions.number == 1 {
        write_by_records(rt, book, sink, slots, sessions, workers, watch)
    } else {
        write_by_several(rt, &book, sink, slots, sessions, workers, watch)
    }
}
