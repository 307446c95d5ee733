//! What is made of the run of a book's octets, in the calling thread.

ghost use Rattle.std.specs.Prelude.{◌≡◌, ◌≤◌, ℕ, List, length, map, All, IfErr, IfOk};
ghost use Rattle.std.specs.List.{flat_map};
ghost use Rattle.alert_book.specs.Book.{IsBook};
ghost use Rattle.alert_book.specs.declared.network.Origin.TheVariants as origin;
ghost use Rattle.asked_orders.specs.Asked.{orders_of_run};
ghost use Rattle.cbsp_wire.specs.Range.{max_listed};
ghost use Rattle.cbch_blocks.specs.RecordBlocks.{tape_of_record};
ghost use Rattle.chart.specs.ChartText.{chart_text};
ghost use Rattle.handset.specs.Tape.{readings_of, IsTape};
ghost use Rattle.warnc_run.specs.Alone.{IsUnmadeOf};
ghost use Rattle.warnc_run.specs.Engine.{IsProductOf};
ghost use Rattle.warnc_run.specs.Products.{octets_of, reading_of_record};
ghost use Rattle.warnc_run.specs.Records.{IsRunWith};
ghost use Rattle.warnc_run.specs.RunSteps.{HaveRunLive};
ghost use Rattle.warnc_run.specs.declared.fault.RunFault.TheVariants as faults;
ghost use Rattle.warnc_run.specs.declared.run.Books.TheVariants as books;

use crate::alone::records_alone;
use crate::fault::RunFault;
use crate::product::Product;
use crate::read::reading_of;
use crate::records::RanBook;
use crate::text::{of_memory, report_read, tables_text};
use alert_book::{Order, read_octets};
use asked_orders::orders_of_run;
use bsc_table::CellRecord;
use cbch_blocks::tape_of;
use cell_loads::loads_text;
use chart::{View, chart_octets};
use handset::Reading;
use order_desk::Open;
use record_link::run_link;
use record_orders::orders_in;
use report::BookOrders;
use std::alloc::{AllocError, Global};

/// The tapes of records, one after the other. The only error is out of memory, here and in the next.
fn tapes_in_a_row(alloc: Global, records: &[CellRecord]) -> Result<Vec<u8>, AllocError>
    ensures { IfOk result (λ octets. octets.items ≡ flat_map tape_of_record records.now) }
{
    let mut octets = Vec::new(alloc);
    for record in records {
        let Ok(tape) = tape_of(alloc, record) else {
            return Err(AllocError);
        };
        octets.extend_from_slice(tape.bytes())?;
    }
    Ok(octets)
}

/// What handsets read of the tapes of records. One tape is held at a time.
fn readings_in_turn(alloc: Global, records: &[CellRecord]) -> Result<Vec<Reading>, AllocError>
    requires { All (λ r. IsTape (tape_of_record r) (reading_of_record r)) records.now }
    ensures { IfOk result (λ readings. readings_of readings.items ≡ map reading_of_record records.now) }
{
    let mut readings = Vec::with_capacity(alloc, records.len())?;
    for record in records {
        readings.push(reading_of(alloc, record)?)?;
    }
    Ok(readings)
}

/// The chart of records, by what handsets read of their tapes.
fn chart_read(
    alloc: Global,
    slots: u16,
    view: View,
    orders: &BookOrders,
    records: &[CellRecord],
    readings: &[Reading],
) -> Result<Vec<u8>, RunFault>
    requires few { length records.now ≤ max_listed }
    requires readings { readings_of readings.now ≡ map reading_of_record records.now }
    ensures ok { IfOk result (λ octets. octets.items
        ≡ chart_text slots view orders.now records.now (map reading_of_record records.now)) }
    ensures err { IfErr result (λ fault. fault ≡ faults.Refused) }
{
    match chart_octets(alloc, slots, view, orders, records, readings) {
        Ok(octets) => Ok(octets),
        Err(fault) => Err(of_memory(fault)),
    }
}

/// What is made of records, whose book has these orders.
fn made_of_records(
    alloc: Global,
    given: &[Order],
    records: &[CellRecord],
    slots: u16,
    made: Product,
) -> Result<Vec<u8>, RunFault>
    requires few { length records.now ≤ max_listed }
    requires tapes { All (λ r. IsTape (tape_of_record r) (reading_of_record r)) records.now }
    ensures ok { IfOk result (λ octets. octets.items ≡ octets_of made origin.Book slots given.now records.now) }
    ensures err { IfErr result (λ fault. fault ≡ faults.Refused) }
{
    match made {
        Product::Tapes => Ok(tapes_in_a_row(alloc, records)?),
        Product::Report(layout) => {
            let orders = orders_of_run(alloc, given, records)?;
            let readings = readings_in_turn(alloc, records)?;
            report_read(alloc, layout, true, &orders, records, &readings)
        }
        Product::Chart(view) => {
            let orders = orders_of_run(alloc, given, records)?;
            let readings = readings_in_turn(alloc, records)?;
            chart_read(alloc, slots, view, &orders, records, &readings)
        }
        Product::Orders(cell) => Ok(orders_in(alloc, cell, records)?),
        Product::Link(start) => Ok(run_link(alloc, start, records)?),
        Product::Loads(start) => Ok(loads_text(alloc, start, true, records)?),
        Product::Tables(view) => {
            let orders = orders_of_run(alloc, given, records)?;
            let readings = readings_in_turn(alloc, records)?;
            tables_text(alloc, slots, view, true, &orders, records, &readings)
        }
    }
}

/// Reads the book that octets are, and runs it with one session, in the calling thread.
fn ran_alone(alloc: Global, octets: &[u8], slots: u16) -> Result<RanBook, RunFault>
    ensures ok { IfOk result (λ ran. IsBook octets.now ran.book × HaveRunLive ran.book slots 1 ran.records.items) }
    ensures err { IfErr result (IsUnmadeOf octets.now) }
{
    book_runs::served_parts_law();
    let book = match read_octets(alloc, octets) {
        Ok(book) => book,
        Err(fault) => return Err(RunFault::Book(fault)),
    };
    let records = records_alone(alloc, &book, slots, &Open)?;
    Ok(RanBook { book, records })
}

/// Runs the book that octets are, with one session, in the calling thread, and returns it with the records of its
/// cells, in the order of the book, as [`run_with_book`](crate::run_with_book) does. It takes no lock, and makes no
/// thread.
///
/// # Errors
///
/// Those of [`product_alone`].
pub fn run_octets(alloc: Global, octets: &[u8], slots: u16) -> Result<RanBook, RunFault>
    ensures ok { IfOk result (λ ran. IsRunWith origin.Book slots octets.now ran.book ran.records.items) }
    ensures err { IfErr result (IsUnmadeOf octets.now) }
{
    // A handset is shown what the book means, whatever the cells answered, and each cell keeps the guarantee.
    book_runs::session_laws();
    bsc_table::legal_histories();
    ran_alone(alloc, octets, slots)
}

/// Runs the book that octets are, with one session, in the calling thread, and returns what is made of its run: the
/// octets that [`run_product`](crate::run_product) writes of such a run. It takes no lock, and makes no thread.
///
/// # Errors
///
/// [`RunFault::Book`] with the first fault of the book, as [`alert_book::read_octets`] has it; [`RunFault::Refused`]
/// if out of memory for its run. No run ends for another reason.
pub fn product_alone(
    alloc: Global,
    octets: &[u8],
    slots: u16,
    made: Product,
) -> Result<Vec<u8>, RunFault>
    ensures ok { IfOk result (λ output. IsProductOf made (books.One origin.Book) slots 1 octets.now output.items) }
    ensures err { IfErr result (IsUnmadeOf octets.now) }
{
    // No book has over 64 cells, and each record gives a tape. A handset is shown what the book means, whatever the
    // cells answered, and each cell keeps the guarantee.
    alert_book::book_laws();
    book_runs::session_laws();
    bsc_table::legal_histories();
    let ran = ran_alone(alloc, octets, slots)?;
    made_of_records(alloc, ran.book.given(), &ran.records, slots, made)
}
