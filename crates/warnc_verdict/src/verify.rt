//! The command `verify --orders`: an orders file and tapes to their differences.

ghost use Rattle.std.specs.Prelude.{◌≡◌, ◌↔◌, ◌+◌, ◌≤◌, List, ℕ, [], false, true, find, length, string_bytes, IfErr};
ghost use Rattle.std.specs.Prelude.{IfOk, IfSome, IsErrOf, IsTrue, None, OnErr, OnOk, Some, if◌then◌else◌};
ghost use Rattle.std.specs.Option.{option_or};
ghost use Rattle.std.specs.Io.KnownBytes.{Appends, IsAtEnd};
ghost use Rattle.cbsp_wire.specs.Range.{is_cell};
ghost use Rattle.device_ends.specs.Sink.{sink_failed};
ghost use Rattle.device_ends.specs.Source.{reader_of, source_failed};
ghost use Rattle.device_ends.specs.Stream.{Writes};
ghost use Rattle.handset.specs.declared.tape.TapeFault.TheVariants as tape;
ghost use Rattle.verification.specs.Rows.{is_tape_of};
ghost use Rattle.warnc_verdict.specs.OrdersSteps.{HasNoTable, IsRowsOrFault, IsTableFault, fault_of_file};
ghost use Rattle.warnc_verdict.specs.OrdersVerified.{HasOrders, HasWrittenTable, IsOfOrders, IsOrderDifference};
ghost use Rattle.warnc_verdict.specs.OrdersVerified.{IsVerdictBy, IsVerifyOrdersFault, JudgesAndWrites, JudgesOrders};
ghost use Rattle.warnc_verdict.specs.OrdersVerified.{HasLags, TellsLags, WritesUnlessFailed};
ghost use Rattle.warnc_verdict.specs.OrdersVerified.{has_other_slots, lags_of, readers_of};
ghost use Rattle.warnc_verdict.specs.declared.fault.VerifyOrdersFault.TheVariants as faults;

use crate::fault::VerifyOrdersFault;
use crate::terms::VerdictTerms;
use cbsp_wire::Cell;
use cell_orders::OrderRow;
use device_ends::{Failed, ReadFault, Sink, Source, read_up_to, write_all};
use handset::{Recording, TakesRecordings, record_each};
use order_verdict::{differences_text, lags_text, no_tape_text, other_slots_text, verdict_of};
use orders_file::{MAX_ORDERS_FILE, OrdersFileFault, OrdersFileFaultKind, read_rows};
use std::alloc::{AllocError, Global};
use std::io::{Read, Write};

/// The first tape of a cell among those that came.
#[derive(Drop)]
struct CellTape {
    cell: Cell,
    tape: Option<Recording>,
}

impl TakesRecordings for CellTape {
    ghost use Rattle.cbsp_wire.specs.declared.message.Cell.{Cell};

    ghost Given = { Cell };

    ghost HasTaken = { λ cell taker tapes. (taker.cell ≡ cell) × (taker.tape ≡ find (is_tape_of cell) tapes) };

    fn take(&mut self, recording: Recording) -> Result<(), AllocError> {
        self.tape = first_of(self.cell, self.tape.take(), recording);
        Ok(())
    }
}

/// The tape that was kept, or else another one, if it is of the cell.
fn first_of(cell: Cell, kept: Option<Recording>, other: Recording) -> Option<Recording>
    ensures { result ≡ option_or kept (if is_cell cell other.cell then Some other else None) }
{
    match kept {
        Some(kept) => Some(kept),
        None => {
            let of_other = other.cell();
            if cell.lac == of_other.lac && cell.ci == of_other.ci {
                Some(other)
            } else {
                None
            }
        }
    }
}

/// The differences of a cell's tape from orders, and their table; and what is told of how late messages come.
#[derive(Drop)]
struct OrdersTable {
    count: usize,
    text: String,
    lags: String,
}

impl OrdersTable {
    /// The table of a tape that isn't judged, which is a row that says why.
    fn unjudged(alloc: Global, text: String) -> OrdersTable
        ensures one { result.count ≡ 1 }
        ensures text { result.text ≡ text }
        ensures nothing { string_bytes result.lags ≡ [] }
    {
        OrdersTable {
            count: 1,
            text,
            lags: String::new(alloc),
        }
    }
}

/// Reads an orders file and tapes up to their ends, and writes a row for each difference between what a cell was
/// ordered and answered and what its first tape sends (`AreOrderDifferences`), whose pages have one to four blocks; or
/// a row that there is no tape of the cell, or that it has another number of slots than the terms ask for. What was
/// ordered is judged later than its answer came by the delay of the terms. Nothing is written before all is known.
///
/// If the terms ask for it, it is then told to `notes` how late each message comes and ends
/// ([`lags_text`](order_verdict::lags_text)), unless there is no tape or one of another number of slots. What `notes`
/// doesn't take changes no result.
///
/// # Errors
///
/// [`VerifyOrdersFault::Differences`] if there is one row or more: the table is written then, as is the line of the
/// columns' names alone if there is none. With any other fault nothing is written, but after
/// [`VerifyOrdersFault::WriteFailed`] a front of the table may be out. Nothing is told with any other fault.
pub fn verify_orders_stream<B: Read, R: Read, W: Write, N: Write>(
    alloc: Global,
    orders: &mut Source<B>,
    tapes: &mut Source<R>,
    sink: &mut Sink<W>,
    notes: &mut Sink<N>,
    cell: Cell,
    terms: VerdictTerms,
) -> Result<(), VerifyOrdersFault>
    ensures ok { OnOk result (Writes W.contents (λ old new. JudgesAndWrites cell terms
        (readers_of B.remaining R.remaining orders.old orders.new tapes.old tapes.new) old new 0) sink.old sink.new) }
    ensures err { IfErr result (λ fault. Writes W.contents (λ old new. IsVerifyOrdersFault cell terms
        (readers_of B.remaining R.remaining orders.old orders.new tapes.old tapes.new) old new fault)
        sink.old sink.new) }
    ensures lags { OnOk result (Writes N.contents (λ old new. TellsLags cell terms
        (readers_of B.remaining R.remaining orders.old orders.new tapes.old tapes.new) (sink_failed notes.new) old new)
        notes.old notes.new) }
    ensures lags_of_differences { IfErr result (λ fault. IsOrderDifference fault → Writes N.contents
        (λ old new. TellsLags cell terms
        (readers_of B.remaining R.remaining orders.old orders.new tapes.old tapes.new) (sink_failed notes.new) old new)
        notes.old notes.new) }

    // At any readers and any writer: which end failed is reported, the orders' first, and what failed before is as it
    // was. The tapes aren't touched if there are no orders.
    ensures orders_failed { IsErrOf result faults.Unread ↔ IsTrue (source_failed orders.new) }
    ensures orders_first { IfErr result (λ fault. IsOfOrders fault → tapes.new ≡ tapes.old) }
    ensures tapes_failed { source_failed tapes.old ≡ false
        → (IsErrOf result (faults.Tapes tape.ReadFailed) ↔ IsTrue (source_failed tapes.new)) }
    ensures tapes_told { IsErrOf result (faults.Tapes tape.ReadFailed) → source_failed tapes.new ≡ true }
    ensures tapes_read { OnOk result (source_failed tapes.new ≡ false) }
    ensures tapes_judged { IfErr result (λ fault. HasWrittenTable fault → source_failed tapes.new ≡ false) }
    ensures write_failed { IsErrOf result faults.WriteFailed → sink_failed sink.new ≡ true }
    ensures written { OnOk result (sink_failed sink.new ≡ false) }
    ensures differences_written { IfErr result (λ fault. IsOrderDifference fault → sink_failed sink.new ≡ false) }
    ensures nothing_written { IfErr result (λ fault. (HasWrittenTable fault → ⊥) → sink.new ≡ sink.old) }
    ensures orders_stay { source_failed orders.old ≡ true → orders.new ≡ orders.old }
    ensures tapes_stay { source_failed tapes.old ≡ true → tapes.new ≡ tapes.old }
    ensures sink_stays { sink_failed sink.old ≡ true → sink.new ≡ sink.old }
    ensures nothing_asked { terms.lags ≡ false → notes.new ≡ notes.old }
    ensures nothing_told { IfErr result (λ fault. (IsOrderDifference fault → ⊥) → notes.new ≡ notes.old) }
    ensures notes_stay { sink_failed notes.old ≡ true → notes.new ≡ notes.old }
{
    let table = table_of(alloc, orders, tapes, cell, terms)?;
    write_table(sink, &table.text)?;
    tell_lags(notes, &table.lags);
    match table.count {
        0 => Ok(()),
        count => Err(VerifyOrdersFault::Differences(count)),
    }
}

/// The table of the differences of a cell's tape from an orders file.
fn table_of<B: Read, R: Read>(
    alloc: Global,
    orders: &mut Source<B>,
    tapes: &mut Source<R>,
    cell: Cell,
    terms: VerdictTerms,
) -> Result<OrdersTable, VerifyOrdersFault>
    ensures ok { IfOk result (λ table. JudgesOrders cell terms
        (readers_of B.remaining R.remaining orders.old orders.new tapes.old tapes.new) table.count
        (string_bytes table.text)) }
    ensures lags { IfOk result (λ table. HasLags cell terms
        (readers_of B.remaining R.remaining orders.old orders.new tapes.old tapes.new) (string_bytes table.lags)) }
    ensures nothing_asked { IfOk result (λ table. terms.lags ≡ false → string_bytes table.lags ≡ []) }
    ensures err { IfErr result (HasNoTable
        (readers_of B.remaining R.remaining orders.old orders.new tapes.old tapes.new)) }
    ensures orders_failed { IsErrOf result faults.Unread ↔ IsTrue (source_failed orders.new) }
    ensures orders_first { IfErr result (λ fault. IsOfOrders fault → tapes.new ≡ tapes.old) }
    ensures tapes_failed { source_failed tapes.old ≡ false
        → (IsErrOf result (faults.Tapes tape.ReadFailed) ↔ IsTrue (source_failed tapes.new)) }
    ensures failed { IsErrOf result (faults.Tapes tape.ReadFailed) → source_failed tapes.new ≡ true }
    ensures tapes_read { OnOk result (source_failed tapes.new ≡ false) }
    ensures orders_stay { source_failed orders.old ≡ true → orders.new ≡ orders.old }
    ensures tapes_stay { source_failed tapes.old ≡ true → tapes.new ≡ tapes.old }
{
    let rows = rows_of(alloc, orders)?;
    let mut taker = CellTape { cell, tape: None };
    record_each(alloc, tapes, &mut taker)?;
    let table = table_by(alloc, cell, terms, &rows, &taker.tape)?;
    Ok(table)
}

/// The rows of an orders file.
fn rows_of<B: Read>(
    alloc: Global,
    orders: &mut Source<B>,
) -> Result<Vec<OrderRow>, VerifyOrdersFault>
    ensures ok { IfOk result (λ rows. HasOrders (B.remaining (reader_of orders.old))
        (B.remaining (reader_of orders.new)) rows.items) }
    ensures err { IfErr result (IsRowsOrFault (B.remaining (reader_of orders.old))) }
    ensures failed { IsErrOf result faults.Unread ↔ IsTrue (source_failed orders.new) }
    ensures stays { source_failed orders.old ≡ true → orders.new ≡ orders.old }
{
    let octets = match read_up_to(orders, alloc, MAX_ORDERS_FILE) {
        Ok(octets) => octets,
        Err(ReadFault::Device) => return Err(VerifyOrdersFault::Unread),
        Err(ReadFault::Refused) => return Err(VerifyOrdersFault::Refused),
    };
    if octets.len() > MAX_ORDERS_FILE {
        return Err(VerifyOrdersFault::TooLong);
    }
    match read_rows(alloc, &octets) {
        Ok(rows) => Ok(rows),
        Err(fault) => Err(fault_of_file(fault)),
    }
}

/// The fault that a fault of an orders file is.
fn fault_of_file(fault: OrdersFileFault) -> VerifyOrdersFault
    ensures { result ≡ fault_of_file fault }
{
    match fault.kind {
        OrdersFileFaultKind::Refused => VerifyOrdersFault::Refused,
        _ => VerifyOrdersFault::Orders(fault),
    }
}

/// The table of the differences of a cell's tape from rows, or that there is no tape.
fn table_by(
    alloc: Global,
    cell: Cell,
    terms: VerdictTerms,
    rows: &[OrderRow],
    tape: &Option<Recording>,
) -> Result<OrdersTable, AllocError>
    ensures verdict { IfOk result (λ table. IsVerdictBy cell terms rows.now tape.now table.count
        (string_bytes table.text)) }
    ensures lags { IfOk result (λ table. string_bytes table.lags ≡ lags_of terms rows.now tape.now) }
{
    match tape {
        None => Ok(OrdersTable::unjudged(alloc, no_tape_text(alloc, cell)?)),
        Some(tape) => table_of_tape(alloc, cell, terms, rows, tape),
    }
}

/// Whether a tape has another number of slots than is asked for.
fn has_other_slots(wanted: Option<u16>, slots: u16) -> bool
    ensures { result ≡ has_other_slots wanted slots }
{
    match wanted {
        Some(wanted) => slots != wanted,
        None => false,
    }
}

/// The table of the differences of a tape from rows, or that it has another number of slots than is asked for.
fn table_of_tape(
    alloc: Global,
    cell: Cell,
    terms: VerdictTerms,
    rows: &[OrderRow],
    tape: &Recording,
) -> Result<OrdersTable, AllocError>
    ensures verdict { IfOk result (λ table. IsVerdictBy cell terms rows.now (Some tape.now) table.count
        (string_bytes table.text)) }
    ensures lags { IfOk result (λ table. string_bytes table.lags ≡ lags_of terms rows.now (Some tape.now)) }
{
    // No tape has more slots.
    let Ok(slots) = u16::try_from(tape.slots()) else {
        return Err(AllocError);
    };
    if has_other_slots(terms.slots, slots) {
        return Ok(OrdersTable::unjudged(alloc, other_slots_text(alloc, cell)?));
    }
    let found = verdict_of(alloc, slots, terms.delay, rows, tape.blocks())?;
    Ok(OrdersTable {
        count: found.len(),
        text: differences_text(alloc, cell, &found)?,
        lags: if terms.lags {
            lags_text(alloc, rows, tape.blocks())?
        } else {
            String::new(alloc)
        },
    })
}

/// Writes a table.
fn write_table<W: Write>(sink: &mut Sink<W>, text: &str) -> Result<(), VerifyOrdersFault>
    ensures ok { OnOk result (Writes W.contents (λ old new. Appends old new text.now) sink.old sink.new) }
    ensures err { IfErr result (λ fault. Writes W.contents (λ old new. IsTableFault old new text.now fault)
        sink.old sink.new) }
    ensures failed { OnErr result (sink_failed sink.new ≡ true) }
    ensures written { OnOk result (sink_failed sink.new ≡ false) }
    ensures stays { sink_failed sink.old ≡ true → sink.new ≡ sink.old }
{
    match write_all(sink, text.as_bytes()) {
        Ok(()) => Ok(()),
        Err(Failed) => Err(VerifyOrdersFault::WriteFailed),
    }
}

/// Tells how late messages come, if there is anything to tell. What the writer doesn't take changes nothing.
fn tell_lags<N: Write>(notes: &mut Sink<N>, text: &str)
    ensures told { Writes N.contents (λ old new. WritesUnlessFailed (sink_failed notes.new) old new text.now)
        notes.old notes.new }
    ensures nothing { text.now ≡ [] → notes.new ≡ notes.old }
    ensures stays { sink_failed notes.old ≡ true → notes.new ≡ notes.old }
{
    if text.is_empty() {
        return;
    }
    let _ = write_all(notes, text.as_bytes());
}
