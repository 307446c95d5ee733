//! The rows of all cells.

ghost use Rattle.std.specs.Prelude.{◌≡◌, ◌↔◌, ◌≢◌, IfErr, IfOk, IsErrOf, IsTrue, OnOk, length};
ghost use Rattle.handset.specs.Tape.{readings_of};
ghost use Rattle.report.specs.Rows.{AreOfOneCells, report_rows};

use crate::cell::push_cell;
use crate::fault::ReportFault;
use crate::row::Row;
use bsc_table::CellRecord;
use handset::Reading;
use std::alloc::{AllocError, Global};

/// Whether the readings are of the same cells as the records, in the same order.
fn have_same_cells(records: &[CellRecord], readings: &[Reading]) -> bool
    ensures { IsTrue result ↔ AreOfOneCells records.now (readings_of readings.now) }
{
    if records.len() != readings.len() {
        return false;
    }
    for (place, record) in records.iter().enumerate() {
        if record.cell() != readings[place].cell {
            return false;
        }
    }
    true
}

/// The rows of cells, of which there are as many records as readings. The only error is out of memory.
fn all_rows(
    alloc: Global,
    records: &[CellRecord],
    readings: &[Reading],
) -> Result<Vec<Row>, AllocError>
    requires { length records.now ≡ length readings.now }
    ensures { IfOk result (λ rows. rows.items ≡ report_rows records.now (readings_of readings.now)) }
{
    let mut rows = Vec::new(alloc);
    for (place, record) in records.iter().enumerate() {
        push_cell(alloc, &mut rows, record, &readings[place])?;
    }
    Ok(rows)
}

/// The rows of a report: of each cell, by its record and what a handset read of its blocks, the accepted messages and
/// the writes and kills that were refused, in the order of the cell's log.
///
/// Takes time in proportion to the entries, the slots and the messages that are shown.
///
/// # Errors
///
/// Returns [`ReportFault::Cells`] exactly if the readings aren't of the same cells as the records in the same order,
/// and [`ReportFault::Refused`] if out of memory.
pub fn rows(
    alloc: Global,
    records: &[CellRecord],
    readings: &[Reading],
) -> Result<Vec<Row>, ReportFault>
    // What the records and the readings say, and nothing else.
    ensures rows { IfOk result (λ rows. rows.items ≡ report_rows records.now (readings_of readings.now)) }

    // The cells are compared before anything else.
    ensures cells { IsErrOf result ReportFault.Cells ↔ ¬ AreOfOneCells records.now (readings_of readings.now) }
    ensures same_cells { OnOk result (AreOfOneCells records.now (readings_of readings.now)) }

    // Nothing is written here.
    ensures faults { IfErr result (λ fault. fault ≢ ReportFault.WriteFailed) }
{
    if !have_same_cells(records, readings) {
        return Err(ReportFault::Cells);
    }
    Ok(all_rows(alloc, records, readings)?)
}
