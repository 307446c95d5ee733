//! Orders files as they are read.

ghost use Rattle.std.specs.Prelude.{◌≡◌, ◌≢◌, ◌⊎◌, ◌≤◌, ◌++◌, ◌∷◌, [], Ok, Err, All, length, IfErr, IfOk, OnOk};
ghost use Rattle.csv.specs.Records.{fields_of};
ghost use Rattle.cell_orders.specs.declared.row.OrderRow.{OrderRow};
ghost use Rattle.orders_file.specs.File.{AreRows, IsOrdersFile, IsOrdersFileFault, IsRowFault, fault_at, refused};
ghost use Rattle.orders_file.specs.File.{row_numbered};
ghost use Rattle.orders_file.specs.Ranges.{IsWithin};

use crate::fault::{OrdersFileFault, OrdersFileFaultKind, fault_of_file};
use crate::row::row_of;
use cell_orders::OrderRow;
use csv::{ByteRecord, ReaderBuilder};
use std::alloc::Global;

/// The most octets of an orders file: 16 MiB.
pub const MAX_ORDERS_FILE: usize = 16_777_216;

/// The most rows of an orders file.
const MAX_ROWS: u32 = 65_536;

/// The row of this number.
fn row_numbered(
    alloc: Global,
    row: u32,
    fields: &ByteRecord,
) -> Result<OrderRow, OrdersFileFaultKind>
    ensures ok { IfOk result (λ read. row_numbered row (fields_of fields.now) ≡ Ok read) }
    ensures few { OnOk result (row ≤ 65536) }
    ensures ranges { IfOk result IsWithin }
    ensures err { IfErr result (λ kind. kind ≢ OrdersFileFaultKind.Refused →
        row_numbered row (fields_of fields.now) ≡ Err kind) }
{
    if row > MAX_ROWS {
        return Err(OrdersFileFaultKind::TooManyRows);
    }
    row_of(alloc, fields)
}

/// Appends the row of this number.
fn push_row(
    alloc: Global,
    rows: &mut Vec<OrderRow>,
    row: u32,
    fields: &ByteRecord,
) -> Result<(), OrdersFileFaultKind>
    ensures ok { OnOk result ((read : OrderRow) × (row_numbered row (fields_of fields.now) ≡ Ok read)
        × (rows.new.items ≡ rows.old.items ++ read ∷ [])) }
    ensures few { OnOk result (row ≤ 65536) }
    ensures ranges { OnOk result (All IsWithin rows.old.items → All IsWithin rows.new.items) }
    ensures err { IfErr result (λ kind. kind ≢ OrdersFileFaultKind.Refused →
        row_numbered row (fields_of fields.now) ≡ Err kind) }
{
    let read = row_numbered(alloc, row, fields)?;
    rows.push(read)?;
    Ok(())
}

/// The fault of a file whose row of this number has one.
fn fault_of_row(row: u32, kind: OrdersFileFaultKind) -> OrdersFileFault
    ensures { (result ≡ refused) ⊎ ((kind ≢ OrdersFileFaultKind.Refused) × (result ≡ fault_at row kind)) }
{
    match kind {
        OrdersFileFaultKind::Refused => fault_of_file(OrdersFileFaultKind::Refused),
        _ => OrdersFileFault { row, kind },
    }
}

/// The rows of octets, however many.
fn rows_of(alloc: Global, octets: &[u8]) -> Result<Vec<OrderRow>, OrdersFileFault>
    ensures ok { IfOk result (λ rows. AreRows octets.now rows.items) }
    ensures few { IfOk result (λ rows. length rows.items ≤ 65536) }
    ensures ranges { IfOk result (λ rows. All IsWithin rows.items) }
    ensures err { IfErr result (λ fault. (fault ≡ refused) ⊎ IsRowFault octets.now fault) }
{
    let mut rows = Vec::new(alloc);
    let mut row = 0;
    let reader = ReaderBuilder::new()
        .has_headers(false)
        .flexible(true)
        .from_reader(alloc, octets);
    for record in reader.into_byte_records() {
        let Ok(fields) = record else {
            return Err(fault_of_file(OrdersFileFaultKind::Refused));
        };
        row += 1;
        match push_row(alloc, &mut rows, row, &fields) {
            Ok(()) => {}
            Err(kind) => return Err(fault_of_row(row, kind)),
        }
    }
    Ok(rows)
}

/// Reads the rows of an orders file: what [`orders_text`](cell_orders::orders_text) writes. The time and the packet of
/// each are 0, since they aren't in the text. A byte order mark and empty lines are passed over.
///
/// AT is at most 2,147,483,647, PERIOD at most 4,095; an order to broadcast has 1 to 15 pages, each with at most 82
/// used octets. There are at most 65,536 rows.
///
/// # Errors
///
/// The first fault of a row, with the number of that row; row 65,537 is one too many. With the row 0, more than
/// [`MAX_ORDERS_FILE`] octets, of which none is read then, or out of memory.
pub fn read_rows(alloc: Global, octets: &[u8]) -> Result<Vec<OrderRow>, OrdersFileFault>
    ensures ok { IfOk result (λ rows. IsOrdersFile octets.now rows.items) }
    ensures err { IfErr result (λ fault. (fault ≡ refused) ⊎ IsOrdersFileFault octets.now fault) }

    // What is read is within the ranges, and there are no more rows than a file may have.
    ensures few { IfOk result (λ rows. length rows.items ≤ 65536) }
    ensures ranges { IfOk result (λ rows. All IsWithin rows.items) }
{
    if octets.len() > MAX_ORDERS_FILE {
        return Err(fault_of_file(OrdersFileFaultKind::TooManyRows));
    }
    rows_of(alloc, octets)
}
