//! A report, written.

ghost use Rattle.std.specs.Prelude.{◌≡◌, ◌≢◌, ◌↔◌, true, IfErr, IfOk, IsErrOf, IsTrue, OnOk};
ghost use Rattle.std.specs.Io.KnownBytes.{Appends};
ghost use Rattle.device_ends.specs.Moves.{AppendsFront};
ghost use Rattle.device_ends.specs.Sink.{sink_failed, writer_of};
ghost use Rattle.device_ends.specs.Stream.{Writes};
ghost use Rattle.report.specs.ReportText.{full_part_text, part_text, report_text, text_with, timed_part_text};
ghost use Rattle.report.specs.ReportText.{untimed_part_text};

use crate::fault::ReportFault;
use crate::row::{Columns, Layout, Row};
use crate::sources::BookOrders;
use crate::table::Table;
use device_ends::{Failed, Sink, write_all};
use slot_times::Start;
use std::alloc::{AllocError, Global};
use std::io::Write;

/// The text of a part of a report: of these rows, after the line of the columns' names if it is headed. So the texts
/// of parts that are joined in order are the report of all their rows.
///
/// # Errors
///
/// Out of memory.
pub fn text_of(alloc: Global, headed: bool, rows: &[Row]) -> Result<Vec<u8>, AllocError>
    ensures { IfOk result (λ octets. octets.items ≡ part_text headed rows.now) }
{
    let mut table = Table::new(alloc, headed)?;
    let mut place = 0;
    while place < rows.len() {
        place += table.push_cell(&rows[place..])?;
    }
    table.into_octets()
}

/// The text of a part of a full report, as [`text_of`] makes that of a plain one.
fn full_text_of(
    alloc: Global,
    headed: bool,
    orders: &BookOrders,
    rows: &[Row],
) -> Result<Vec<u8>, AllocError>
    ensures { IfOk result (λ octets. octets.items ≡ full_part_text headed orders.now rows.now) }
{
    let mut table = Table::full(alloc, headed)?;
    for row in rows {
        table.push_full(orders, row)?;
    }
    table.into_octets()
}

/// The text of a part of a report with these columns and no times.
fn untimed_text_of(
    alloc: Global,
    columns: Columns,
    headed: bool,
    orders: &BookOrders,
    rows: &[Row],
) -> Result<Vec<u8>, AllocError>
    ensures { IfOk result (λ octets. octets.items ≡ untimed_part_text columns headed orders.now rows.now) }
{
    match columns {
        Columns::Plain => text_of(alloc, headed, rows),
        Columns::Full => full_text_of(alloc, headed, orders, rows),
    }
}

/// The text of a part of a report with these columns and with times.
fn timed_text_of(
    alloc: Global,
    columns: Columns,
    start: Start,
    headed: bool,
    orders: &BookOrders,
    rows: &[Row],
) -> Result<Vec<u8>, AllocError>
    ensures { IfOk result (λ octets. octets.items ≡ timed_part_text columns start headed orders.now rows.now) }
{
    let mut table = Table::timed(alloc, columns, headed)?;
    for row in rows {
        table.push_timed(columns, start, orders, row)?;
    }
    table.into_octets()
}

/// The text of a part of a report that is laid out so: with plain columns and no times that of [`text_of`]. Full ones
/// have the order of each row before these, by the orders of the book, and more after them. Times are the last ones, so
/// that the text without those is the one that lacks them ([`report_laws`](crate::report_laws)).
///
/// # Errors
///
/// Out of memory.
pub fn text_with(
    alloc: Global,
    layout: Layout,
    headed: bool,
    orders: &BookOrders,
    rows: &[Row],
) -> Result<Vec<u8>, AllocError>
    ensures { IfOk result (λ octets. octets.items ≡ text_with layout headed orders.now rows.now) }
{
    match layout.start {
        Some(start) => timed_text_of(alloc, layout.columns, start, headed, orders, rows),
        None => untimed_text_of(alloc, layout.columns, headed, orders, rows),
    }
}

/// Writes a report of these rows as CSV: a line of the columns' names, and a line for each row, in order. Nothing is
/// written before all of it is made.
///
/// # Errors
///
/// Returns [`ReportFault::WriteFailed`] exactly if the sink has failed, now or earlier, after which a front of the
/// text may be out, and [`ReportFault::Refused`] if out of memory, after which nothing is.
pub fn write_report<W: Write>(
    alloc: Global,
    rows: &[Row],
    sink: &mut Sink<W>,
) -> Result<(), ReportFault>
    ensures ok { OnOk result (Appends (W.contents (writer_of sink.old)) (W.contents (writer_of sink.new))
        (report_text rows.now)) }
    ensures front { IsErrOf result ReportFault.WriteFailed
        → Writes W.contents (λ old new. AppendsFront old new (report_text rows.now)) sink.old sink.new }
    ensures refused { IsErrOf result ReportFault.Refused → sink.new ≡ sink.old }
    ensures faults { IfErr result (λ fault. fault ≢ ReportFault.Cells) }
    ensures failed { IsErrOf result ReportFault.WriteFailed ↔ IsTrue (sink_failed sink.new) }

    // A sink that had failed before is as it was.
    ensures failed_stays { sink_failed sink.old ≡ true → sink.new ≡ sink.old }
{
    write_part(alloc, true, rows, sink)
}

/// Writes a part of a report, as [`write_report`] does: the line of the columns' names is written if the part is
/// headed, as the first one is. So parts that are joined in order are the report of all their rows.
///
/// # Errors
///
/// Returns the faults of [`write_report`].
pub fn write_part<W: Write>(
    alloc: Global,
    headed: bool,
    rows: &[Row],
    sink: &mut Sink<W>,
) -> Result<(), ReportFault>
    ensures ok { OnOk result (Appends (W.contents (writer_of sink.old)) (W.contents (writer_of sink.new))
        (part_text headed rows.now)) }
    ensures front { IsErrOf result ReportFault.WriteFailed
        → Writes W.contents (λ old new. AppendsFront old new (part_text headed rows.now)) sink.old sink.new }
    ensures refused { IsErrOf result ReportFault.Refused → sink.new ≡ sink.old }
    ensures faults { IfErr result (λ fault. fault ≢ ReportFault.Cells) }
    ensures failed { IsErrOf result ReportFault.WriteFailed ↔ IsTrue (sink_failed sink.new) }

    // A sink that had failed before is as it was.
    ensures failed_stays { sink_failed sink.old ≡ true → sink.new ≡ sink.old }
{
    if sink.failed() {
        return Err(ReportFault::WriteFailed);
    }
    let octets = text_of(alloc, headed, rows)?;
    match write_all(sink, &octets) {
        Ok(()) => Ok(()),
        Err(Failed) => Err(ReportFault::WriteFailed),
    }
}
