//! The texts that are made of a run: the report of its cells, their chart, the orders file of one of them,
//! the link to them, and their loads; and the report, the loads and the chart in one.

ghost use Rattle.std.specs.Prelude.{◌≡◌, ◌≤◌, ◌++◌, ℕ, List, length, map, All, IfErr, IfOk, OnOk};
ghost use Rattle.cbsp_wire.specs.Range.{max_listed};
ghost use Rattle.cbch_blocks.specs.RecordBlocks.{tape_of_record};
ghost use Rattle.handset.specs.Tape.{readings_of, IsTape};
ghost use Rattle.warnc_run.specs.Engine.{IsEngineAtEnds, IsOutputFault, IsProductOf, IsText};
ghost use Rattle.warnc_run.specs.Faults.{IsOfBook, IsOfRun};
ghost use Rattle.warnc_run.specs.Made.{IsMade, IsUnmade};
ghost use Rattle.report.specs.ReportText.{text_with};
ghost use Rattle.warnc_run.specs.Products.{is_headed, octets_of, own_rows, reading_of_record};
ghost use Rattle.warnc_run.specs.Products.{tables_text, text_named};
ghost use Rattle.warnc_run.specs.RunSteps.{octets_of_text, IsSomeBook, IsTextOf};
ghost use Rattle.alert_book.specs.declared.book.order.Order.{Order};
ghost use Rattle.asked_orders.specs.Asked.{orders_of_run};
ghost use Rattle.bsc_table.specs.Record.{Record};
ghost use Rattle.warnc_run.specs.declared.fault.RunFault.TheVariants as faults;

use crate::apart::records_of_run;
use crate::book::book_from;
use crate::fault::RunFault;
use crate::product::{Product, ProductFault};
use crate::read::{readings_by, rows_by};
use crate::run::{Books, Run, Sessions, Workers};
use crate::watch::{Watch, tell};
use alert_book::{Book, Order, Origin};
use asked_orders::orders_of_run;
use bsc_table::CellRecord;
use cbsp_wire::Cell;
use cell_loads::loads_text;
use chart::{View, chart_octets, part_octets};
use device_ends::{Failed, Sink, Source, write_all};
use gsmtap::Start;
use handset::Reading;
use itoa::Buffer;
use record_link::run_link;
use record_orders::orders_in;
use report::{BookOrders, Columns, Layout, ReportFault, text_with};
use std::alloc::{AllocError, AllocGlobal, Global};
use std::io::{Read, Write};
use std::sync::Wait;
use std::thread::Threads;

/// A text that is made of the run of a book.
#[derive(Clone, Copy)]
pub(crate) enum Text {
    /// The report that is laid out so, with the line of the columns' names over it or without.
    Report(Layout, bool),
    /// The chart of what is to be drawn.
    Chart(View),
    /// The part of a group in the chart of its network: its number, whether it is the last one, and what is drawn.
    ChartPart(u16, bool, View),
    /// The orders file of this cell.
    Orders(Cell),
    /// The capture of the link, which begins at this time.
    Link(Start),
    /// The loads, with times or without, with the line of the columns' names over them or without.
    Loads(Option<slot_times::Start>, bool),
    /// The full report, the loads, and the chart of what is to be drawn, each named, with the line of the columns'
    /// names over the tables or without.
    Tables(View, bool),
}

/// Reads a book, or the book of a group, and writes the text of its run. Nothing is written before all of it is made.
pub(crate) fn write_text_from<T: AllocGlobal + Threads + Wait + Sync, R: Read, W: Write, G: Watch>(
    rt: &T,
    source: &mut Source<R>,
    sink: &mut Sink<W>,
    origin: Origin,
    run: &Run,
    made: Product,
    watch: &G,
) -> Result<(), ProductFault>
    requires { IsText made }
    ensures ok { IsMade result R.remaining W.contents (IsProductOf made (Books.One origin) run.now.slots
        run.now.sessions.number) source.old source.new sink.old sink.new }
    ensures err { IsUnmade result R.remaining W.contents (IsOutputFault made (Books.One origin) run.now.slots
        run.now.sessions.number) source.old source.new sink.old sink.new }
    ensures any_ends { IsEngineAtEnds result W.contents source.old source.new sink.old sink.new }
{
    // A handset is shown what the book means, whatever the cells answered, and each cell keeps the guarantee.
    book_runs::session_laws();
    bsc_table::legal_histories();
    let book = book_from(rt, source, origin)?;
    let text = text_of_product(made, origin);
    let octets = text_of_book(rt, book, text, run.slots, run.sessions, run.workers, watch)?;
    match write_all(sink, &octets) {
        Ok(()) => Ok(()),
        Err(Failed) => Err(ProductFault::WriteFailed),
    }
}

/// The text of a book, or of a group by itself.
pub(crate) fn text_of_product(made: Product, origin: Origin) -> Text
    requires { IsText made }
    ensures { (slots : ℕ) (orders : List Order) (records : List Record)
        → octets_of_text result slots (orders_of_run orders records) records
        ≡ octets_of made origin slots orders records }
{
    match made {
        Product::Tapes => unreachable!(),
        Product::Report(layout) => Text::Report(layout, is_headed(origin)),
        Product::Chart(view) => Text::Chart(view),
        Product::Orders(cell) => Text::Orders(cell),
        Product::Link(start) => Text::Link(start),
        Product::Loads(start) => Text::Loads(start, is_headed(origin)),
        Product::Tables(view) => Text::Tables(view, is_headed(origin)),
    }
}

/// Whether the line of the columns' names stands over the report.
fn is_headed(origin: Origin) -> bool
    ensures { result ≡ is_headed origin }
{
    match origin {
        Origin::Book => true,
        Origin::Group(group) => group == 0,
    }
}

/// The text of the run of a book.
pub(crate) fn text_of_book<T: AllocGlobal + Threads + Wait + Sync, G: Watch>(
    rt: &T,
    book: Book,
    text: Text,
    slots: u16,
    sessions: Sessions,
    workers: Workers,
    watch: &G,
) -> Result<Vec<u8>, RunFault>
    requires book { IsSomeBook book }
    ensures ok { IfOk result (λ octets. IsTextOf text book slots sessions.number octets.items) }
    ensures err { IfErr result (IsOfBook book slots sessions.number) }
{
    // No book has over 64 cells, and each record gives a tape.
    alert_book::book_laws();
    book_runs::session_laws();
    let records = records_of_run(rt, &book, slots, sessions, workers, watch)?;
    let orders = orders_for(rt.alloc(), text, book.given(), &records)?;
    // what else the book holds is free for the tapes
    drop(book);
    let octets = text_of_records(rt, &orders, &records, text, slots, workers, watch)?;
    Ok(octets)
}

/// The orders of a book, and which of them asked each cell of its run: none for a plain report, an orders file, a link
/// and loads, which name no order of it.
pub(crate) fn orders_for(
    alloc: Global,
    text: Text,
    orders: &[Order],
    records: &[CellRecord],
) -> Result<BookOrders, RunFault>
    ensures ok { IfOk result (λ made. (slots : ℕ) → octets_of_text text slots made records.now
        ≡ octets_of_text text slots (orders_of_run orders.now records.now) records.now) }
    ensures err { IfErr result IsOfRun }
{
    match text {
        Text::Report(layout, _) => match layout.columns {
            Columns::Full => Ok(orders_of_run(alloc, orders, records)?),
            Columns::Plain => Ok(BookOrders::none(alloc)),
        },
        Text::Chart(_) | Text::ChartPart(..) | Text::Tables(..) => {
            Ok(orders_of_run(alloc, orders, records)?)
        }
        Text::Orders(_) | Text::Link(_) | Text::Loads(..) => Ok(BookOrders::none(alloc)),
    }
}

/// The text of records, by the orders that asked their cells and by what handsets read of their tapes.
pub(crate) fn text_of_records<T: AllocGlobal + Threads + Wait + Sync, G: Watch>(
    rt: &T,
    orders: &BookOrders,
    records: &[CellRecord],
    text: Text,
    slots: u16,
    workers: Workers,
    watch: &G,
) -> Result<Vec<u8>, RunFault>
    requires few { length records.now ≤ max_listed }
    requires tapes { All (λ r. IsTape (tape_of_record r) (reading_of_record r)) records.now }
    ensures ok { IfOk result (λ octets. octets.items ≡ octets_of_text text slots orders.now records.now) }
    ensures err { IfErr result IsOfRun }
{
    match text {
        Text::Report(layout, headed) => {
            let rows = rows_by(rt, records, workers, watch)?;
            let octets = text_with(rt.alloc(), layout, headed, orders, &rows)?;
            Ok(octets)
        }
        Text::Chart(view) => {
            let readings = readings_by(rt, records, workers, watch)?;
            match chart_octets(rt.alloc(), slots, view, orders, records, &readings) {
                Ok(octets) => Ok(octets),
                Err(fault) => Err(of_memory(fault)),
            }
        }
        Text::ChartPart(group, is_last, view) => {
            let readings = readings_by(rt, records, workers, watch)?;
            match part_octets(
                rt.alloc(),
                slots,
                group,
                is_last,
                view,
                orders,
                records,
                &readings,
            ) {
                Ok(octets) => Ok(octets),
                Err(fault) => Err(of_memory(fault)),
            }
        }
        Text::Orders(cell) => {
            let octets = orders_in(rt.alloc(), cell, records)?;
            tell(watch, records.len());
            Ok(octets)
        }
        Text::Link(start) => {
            let octets = run_link(rt.alloc(), start, records)?;
            tell(watch, records.len());
            Ok(octets)
        }
        Text::Loads(start, headed) => {
            let octets = loads_text(rt.alloc(), start, headed, records)?;
            tell(watch, records.len());
            Ok(octets)
        }
        Text::Tables(view, headed) => {
            let readings = readings_by(rt, records, workers, watch)?;
            tables_text(rt.alloc(), slots, view, headed, orders, records, &readings)
        }
    }
}

/// The report of records, by what handsets read of their tapes.
pub(crate) fn report_read(
    alloc: Global,
    layout: Layout,
    headed: bool,
    orders: &BookOrders,
    records: &[CellRecord],
    readings: &[Reading],
) -> Result<Vec<u8>, RunFault>
    requires { readings_of readings.now ≡ map reading_of_record records.now }
    ensures ok { IfOk result (λ octets. octets.items ≡ text_with layout headed orders.now (own_rows records.now)) }
    ensures err { IfErr result (λ fault. fault ≡ faults.Refused) }
{
    let rows = match report::rows(alloc, records, readings) {
        Ok(rows) => rows,
        Err(fault) => return Err(of_memory(fault)),
    };
    let octets = text_with(alloc, layout, headed, orders, &rows)?;
    Ok(octets)
}

/// Appends a text after a line with its name and its number of octets. The only error is out of memory.
fn push_named(octets: &mut Vec<u8>, name: &str, text: &[u8]) -> Result<(), AllocError>
    ensures { OnOk result (octets.new.items ≡ octets.old.items ++ text_named name.now text.now) }
{
    let mut number = Buffer::new();
    octets.extend_from_slice(name.as_bytes())?;
    octets.push(b' ')?;
    octets.extend_from_slice(number.format(text.len()).as_bytes())?;
    octets.push(b'\n')?;
    octets.extend_from_slice(text)
}

/// The full report, the loads and the chart of records, by what handsets read of their tapes.
pub(crate) fn tables_text(
    alloc: Global,
    slots: u16,
    view: View,
    headed: bool,
    orders: &BookOrders,
    records: &[CellRecord],
    readings: &[Reading],
) -> Result<Vec<u8>, RunFault>
    requires { readings_of readings.now ≡ map reading_of_record records.now }
    ensures ok { IfOk result (λ octets. octets.items ≡ tables_text slots view headed orders.now records.now) }
    ensures err { IfErr result (λ fault. fault ≡ faults.Refused) }
{
    let layout = Layout {
        columns: Columns::Full,
        start: view.wording.start,
    };
    let report = report_read(alloc, layout, headed, orders, records, readings)?;
    let loads = loads_text(alloc, view.wording.start, headed, records)?;
    let chart = match chart_octets(alloc, slots, view, orders, records, readings) {
        Ok(octets) => octets,
        Err(fault) => return Err(of_memory(fault)),
    };
    let mut octets = Vec::new(alloc);
    push_named(&mut octets, "report", &report)?;
    push_named(&mut octets, "load", &loads)?;
    push_named(&mut octets, "chart", &chart)?;
    Ok(octets)
}

/// The fault of a text whose readings are of the same cells as the records, and which nobody wrote: memory ran out.
pub(crate) fn of_memory(fault: ReportFault) -> RunFault
    requires { fault ≡ ReportFault.Refused }
    ensures { result ≡ faults.Refused }
{
    match fault {
        ReportFault::Refused => RunFault::Refused,
        ReportFault::Cells | ReportFault::WriteFailed => unreachable!(),
    }
}
