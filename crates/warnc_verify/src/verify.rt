//! The command `verify`: a book of alerts and tapes to their differences.

ghost use Rattle.std.specs.Prelude.{◌≡◌, ◌↔◌, [], false, true, IfErr, IfOk, IfSome, IsErrOf, IsTrue, OnErr, OnOk};
ghost use Rattle.std.specs.Io.KnownBytes.{Appends, IsAtEnd};
ghost use Rattle.device_ends.specs.Sink.{sink_failed};
ghost use Rattle.device_ends.specs.Source.{reader_of, source_failed};
ghost use Rattle.device_ends.specs.Stream.{Writes};
ghost use Rattle.alert_book.specs.Book.{unread};
ghost use Rattle.alert_book.specs.declared.network.Origin.TheVariants as whole;
ghost use Rattle.handset.specs.Tape.{reports_read_failed, IsTapesFault};
ghost use Rattle.handset.specs.declared.tape.TapeFault.TheVariants as tape;
ghost use Rattle.warnc_run.specs.declared.fault.RunFault.TheVariants as run;
ghost use Rattle.warnc_verify.specs.VerifySteps.{FindsText, HaveJudged, IsRowsFault, IsTextFault};
ghost use Rattle.warnc_verify.specs.Verified.{readers_of, FindsAndWrites, IsDifference, IsOfBookOrRun};
ghost use Rattle.warnc_verify.specs.Verified.{IsTableOf, IsUnjudged, IsVerifyFault};
ghost use Rattle.warnc_verify.specs.Verified.{HasWritten};
ghost use Rattle.warnc_verify.specs.declared.fault.VerifyFault.TheVariants as faults;

use crate::fault::VerifyFault;
use crate::judge::judged_in_turn;
use crate::side_by_side::judged_side_by_side;
use alert_book::Origin;
use bsc_table::CellRecord;
use device_ends::{Failed, Sink, Source, write_all};
use handset::TapeFault;
use short_pages::Pages;
use std::alloc::{AllocGlobal, Global};
use std::io::{Read, Write};
use std::sync::Wait;
use std::thread::Threads;
use verification::{Findings, Table, TableLayout};
use warnc_run::{Workers, run_book, run_octets};

/// Reads a book, or a network book for a group, has its cells carry out what its one session orders, in runs of `slots`
/// slots, as [`compile_stream`](warnc_run::compile_stream) does, reads tapes up to their end, and writes a row for each
/// difference between what the cells were asked and what the tapes send, and for each cell without a tape and tape
/// without a cell (`AreRows`). With [`Detail::Explained`](verification::Detail) a row has what was expected and what
/// came too, one row stands for all broadcasts of a message one after another of which nothing came, and a cell of
/// which all pages are off by the same number of slots has one for that (`IsExplained`). If slot 0 has a time, a last
/// column has the time at which the slot of each difference begins. Nothing is written before all is known. `workers`
/// workers play the cells, and judge as many tapes side by side.
///
/// # Errors
///
/// [`VerifyFault::Differences`] if there is one row or more, counted as the plain table has them: the table is written
/// then, as is the line of the columns' names alone if there is none. With any other fault nothing is written, but
/// after [`VerifyFault::WriteFailed`] a front of the table may be out.
pub fn verify_stream<T: AllocGlobal + Threads + Wait + Sync, B: Read, R: Read, W: Write>(
    rt: &T,
    book: &mut Source<B>,
    tapes: &mut Source<R>,
    sink: &mut Sink<W>,
    origin: Origin,
    slots: u16,
    pages: Pages,
    layout: TableLayout,
    workers: Workers,
) -> Result<(), VerifyFault>
    ensures ok { OnOk result (Writes W.contents (λ old new. FindsAndWrites origin slots pages layout
        (readers_of B.remaining R.remaining book.old book.new tapes.old tapes.new) old new []) sink.old sink.new) }
    ensures err { IfErr result (λ fault. Writes W.contents (λ old new. IsVerifyFault origin slots pages layout
        (readers_of B.remaining R.remaining book.old book.new tapes.old tapes.new) old new fault) sink.old sink.new) }

    // At any readers and any writer: which end failed is reported, the book's first, and what failed before is as it
    // was. The tapes aren't touched if the book has no run.
    ensures book_failed { IsErrOf result (faults.Run (run.Book unread)) ↔ IsTrue (source_failed book.new) }
    ensures book_first { IfErr result (λ fault. IsOfBookOrRun fault → tapes.new ≡ tapes.old) }
    ensures tapes_failed { source_failed tapes.old ≡ false
        → (IsErrOf result (faults.Tapes tape.ReadFailed) ↔ IsTrue (source_failed tapes.new)) }
    ensures tapes_told { IsErrOf result (faults.Tapes tape.ReadFailed) → source_failed tapes.new ≡ true }
    ensures tapes_read { OnOk result (source_failed tapes.new ≡ false) }
    ensures tapes_judged { IfErr result (λ fault. HasWritten fault → source_failed tapes.new ≡ false) }
    ensures write_failed { IsErrOf result faults.WriteFailed → sink_failed sink.new ≡ true }
    ensures written { OnOk result (sink_failed sink.new ≡ false) }
    ensures differences_written { IfErr result (λ fault. IsDifference fault → sink_failed sink.new ≡ false) }
    ensures nothing_written { IfErr result (λ fault. (HasWritten fault → ⊥) → sink.new ≡ sink.old) }
    ensures book_stays { source_failed book.old ≡ true → book.new ≡ book.old }
    ensures tapes_stay { source_failed tapes.old ≡ true → tapes.new ≡ tapes.old }
    ensures sink_stays { sink_failed sink.old ≡ true → sink.new ≡ sink.old }
{
    let table = table_of(rt, book, tapes, origin, slots, pages, layout, workers)?;
    write_text(sink, &table.text)?;
    match table.rows.len() {
        0 => Ok(()),
        count => Err(VerifyFault::Differences(count)),
    }
}

/// The table of tapes beside the run of a book.
fn table_of<T: AllocGlobal + Threads + Wait + Sync, B: Read, R: Read>(
    rt: &T,
    book: &mut Source<B>,
    tapes: &mut Source<R>,
    origin: Origin,
    slots: u16,
    pages: Pages,
    layout: TableLayout,
    workers: Workers,
) -> Result<Table, VerifyFault>
    ensures ok { IfOk result (λ table. FindsText origin slots pages layout
        (readers_of B.remaining R.remaining book.old book.new tapes.old tapes.new) table.rows.items table.text.items) }
    ensures err { IfErr result (λ fault. IsRowsFault origin slots
        (readers_of B.remaining R.remaining book.old book.new tapes.old tapes.new) fault) }
    ensures book_failed { IsErrOf result (faults.Run (run.Book unread)) ↔ IsTrue (source_failed book.new) }
    ensures book_first { IfErr result (λ fault. IsOfBookOrRun fault → tapes.new ≡ tapes.old) }
    ensures tapes_failed { source_failed tapes.old ≡ false
        → (IsErrOf result (faults.Tapes tape.ReadFailed) ↔ IsTrue (source_failed tapes.new)) }
    ensures failed { IsErrOf result (faults.Tapes tape.ReadFailed) → source_failed tapes.new ≡ true }
    ensures tapes_read { OnOk result (source_failed tapes.new ≡ false) }
    ensures book_stays { source_failed book.old ≡ true → book.new ≡ book.old }
    ensures tapes_stay { source_failed tapes.old ≡ true → tapes.new ≡ tapes.old }
{
    let records = run_book(rt, book, origin, slots, workers)?;
    let findings = findings_of(rt, records, tapes, pages, layout, workers)?;
    let table = findings.table()?;
    Ok(table)
}

/// What tapes have otherwise than the records of a run. Several workers judge as many tapes side by side.
fn findings_of<T: AllocGlobal + Threads + Sync, R: Read>(
    rt: &T,
    records: Vec<CellRecord>,
    tapes: &mut Source<R>,
    pages: Pages,
    layout: TableLayout,
    workers: Workers,
) -> Result<Findings, TapeFault>
    ensures ok { IfOk result (HaveJudged pages layout records.items (R.remaining (reader_of tapes.old))) }
    ensures whole { OnOk result (IsAtEnd (R.remaining (reader_of tapes.new))) }
    ensures err { IfErr result (λ fault. IfSome (R.remaining (reader_of tapes.old)) (λ input.
        IsTapesFault input fault)) }
    ensures failed { source_failed tapes.old ≡ false → source_failed tapes.new ≡ reports_read_failed result }
    ensures reported { IsErrOf result tape.ReadFailed → source_failed tapes.new ≡ true }
    ensures read { OnOk result (source_failed tapes.new ≡ false) }
    ensures stays { source_failed tapes.old ≡ true → tapes.new ≡ tapes.old }
{
    if workers.number == 1 {
        return judged_in_turn(rt.alloc(), records, tapes, pages, layout);
    }
    judged_side_by_side(rt, records, tapes, pages, layout, workers)
}

/// Has the cells of the book that octets are carry out what its one session orders, in the calling thread, and returns
/// the table of the differences between what they were asked and what the tapes send that other octets are, as
/// [`verify_stream`] writes it. It takes no lock, and makes no thread. The table has no row if the tapes are those of
/// the book.
///
/// # Errors
///
/// [`VerifyFault::Run`] with a fault of [`run_octets`](warnc_run::run_octets), [`VerifyFault::Tapes`] if the others are
/// no tapes, and [`VerifyFault::Refused`] if out of memory.
pub fn verify_octets(
    alloc: Global,
    book: &[u8],
    tapes: &[u8],
    slots: u16,
    pages: Pages,
    layout: TableLayout,
) -> Result<Table, VerifyFault>
    ensures ok { IfOk result (λ table. IsTableOf whole.Book slots pages layout table.rows.items book.now tapes.now
        table.text.items) }
    ensures err { IfErr result (IsUnjudged slots book.now tapes.now) }
{
    let ran = run_octets(alloc, book, slots)?;
    let mut source = Source::new(tapes);
    let findings = judged_in_turn(alloc, ran.records, &mut source, pages, layout)?;
    let table = findings.table()?;
    Ok(table)
}

/// Writes a text.
fn write_text<W: Write>(sink: &mut Sink<W>, text: &[u8]) -> Result<(), VerifyFault>
    ensures ok { OnOk result (Writes W.contents (λ old new. Appends old new text.now) sink.old sink.new) }
    ensures err { IfErr result (λ fault. Writes W.contents (λ old new. IsTextFault old new text.now fault)
        sink.old sink.new) }
    ensures failed { OnErr result (sink_failed sink.new ≡ true) }
    ensures written { OnOk result (sink_failed sink.new ≡ false) }
    ensures stays { sink_failed sink.old ≡ true → sink.new ≡ sink.old }
{
    match write_all(sink, text) {
        Ok(()) => Ok(()),
        Err(Failed) => Err(VerifyFault::WriteFailed),
    }
}
