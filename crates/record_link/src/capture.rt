//! The capture of a run's link.

ghost use Rattle.std.specs.Prelude.{◌≡◌, ◌++◌, ◌≤◌, length, IfOk, OnOk};
ghost use Rattle.std.specs.List.{flat_map};
ghost use Rattle.link_capture.specs.Connection.{connection_packets};
ghost use Rattle.record_link.specs.Sent.{run_link, sent_of_entry, sent_of_record};

use crate::messages::push_entry;
use bsc_table::{CellRecord, Entry};
use cbsp_wire::Cell;
use gsmtap::Start;
use link_capture::{LinkSent, file_header, push_connection};
use std::alloc::{AllocError, Global};

/// The messages of a log. The only error is out of memory, here and below.
fn sent_of_log(alloc: Global, cell: Cell, log: &[Entry]) -> Result<Vec<LinkSent>, AllocError>
    ensures { IfOk result (λ sent. sent.items ≡ flat_map (sent_of_entry cell) log.now) }
{
    let mut sent = Vec::new(alloc);
    for entry in log {
        push_entry(alloc, &mut sent, cell, entry)?;
    }
    Ok(sent)
}

/// Appends the connection of a cell.
fn push_record(
    alloc: Global,
    output: &mut Vec<u8>,
    start: Start,
    connection: u8,
    run: &CellRecord,
) -> Result<(), AllocError>
    ensures { OnOk result (output.new.items
        ≡ output.old.items ++ connection_packets start connection (sent_of_record run.now)) }
{
    let sent = sent_of_log(alloc, run.cell(), run.log())?;
    push_connection(output, start, connection, &sent)
}

/// The capture of the link of a run, where slot 0 begins at this time: of each cell that was ordered something, in the
/// order of the records, a connection of its own. On it a centre sends each order of the cell's log, to this cell
/// alone, at the begin of the slot at which the cell answered, and the controller then that answer.
///
/// # Errors
///
/// Out of memory.
pub fn run_link(alloc: Global, start: Start, records: &[CellRecord]) -> Result<Vec<u8>, AllocError>
    requires few { length records.now ≤ 256 }
    ensures { IfOk result (λ octets. octets.items ≡ run_link start records.now) }
{
    let mut output = Vec::new(alloc);
    output.extend_from_slice(&file_header())?;
    for (place, run) in records.iter().enumerate() {
        push_record(alloc, &mut output, start, place as u8, run)?;
    }
    Ok(output)
}
